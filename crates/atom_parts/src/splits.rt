//! The lines of atom_concat/3: the two parts of an atom at each place.
ghost use Rattle.std.specs.Prelude.{◌≡◌, ◌≤◌, length};
ghost use Rattle.atom_parts.specs.Splits.{IsNextSplit, split_columns};

use crate::columns::{Column, Value, Wanted, unifies};

/// What the first two arguments of atom_concat/3 want of the parts of the first characters of a text, of which there are so
/// many.
#[derive(Clone, Copy, Drop)]
pub struct Splits {
    pub length: usize,
    pub first: Wanted,
    pub second: Wanted,
}

/// The columns of the line for a place.
pub fn split_columns(splits: Splits, at: usize) -> [Column; 3]
    requires { at ≤ splits.length }
    ensures { result ≡ split_columns splits at }
{
    let whole = Value::Part(0, splits.length);
    [
        Column {
            wanted: splits.first,
            value: Value::Part(0, at),
        },
        Column {
            wanted: splits.second,
            value: Value::Part(at, splits.length - at),
        },
        Column {
            wanted: Wanted::Is(whole),
            value: whole,
        },
    ]
}

/// The first place from one on whose line unifies with what is wanted.
pub fn next_split(text: &[char], splits: Splits, from: usize) -> Option<usize>
    requires within { splits.length ≤ length text.now }
    requires small { splits.length ≤ 248 }
    ensures { IsNextSplit text.now splits from result }
{
    let mut at = from;
    while at <= splits.length {
        if unifies(text, &split_columns(splits, at)) {
            return Some(at);
        }
        at += 1;
    }
    None
}
