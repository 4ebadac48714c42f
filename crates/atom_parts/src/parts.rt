//! The lines of sub_atom/5: the parts of an atom, by the place, then by the length.
ghost use Rattle.std.specs.Prelude.{◌≡◌, ◌+◌, ◌≤◌, length, suc, take};
ghost use Rattle.atom_parts.specs.Looking.{IsLooked};
ghost use Rattle.atom_parts.specs.Parts.{IsBlockAfter, IsNextPart, IsNextSpot, IsPart, IsSpot, IsSpotAfter, IsSpotOf, line_at, part_columns, part_wanted, parts_of};
ghost use Rattle.atom_parts.specs.Following.{IsFollowing};

use crate::columns::{Column, Value, Wanted, unifies};
use crate::skipping::candidate;

/// What the arguments of sub_atom/5 but the first want of the parts of the first characters of a text, of which there are so
/// many.
#[derive(Clone, Copy, Drop)]
pub struct Parts {
    pub length: usize,
    pub before: Wanted,
    pub count: Wanted,
    pub after: Wanted,
    pub part: Wanted,
}

/// A part with so many characters before it and so many in it, and the line of the first part with so many before it.
#[derive(Clone, Copy, Drop)]
pub struct Spot {
    pub first: usize,
    pub before: usize,
    pub count: usize,
}

/// The columns of the line for a part.
pub fn part_columns(parts: Parts, spot: Spot) -> [Column; 5]
    requires { spot.before + spot.count ≤ parts.length }
    ensures { result ≡ part_columns parts spot }
{
    let whole = Value::Part(0, parts.length);
    [
        Column {
            wanted: Wanted::Is(whole),
            value: whole,
        },
        Column {
            wanted: parts.before,
            value: Value::Number(spot.before),
        },
        Column {
            wanted: parts.count,
            value: Value::Number(spot.count),
        },
        Column {
            wanted: parts.after,
            value: Value::Number(parts.length - spot.before - spot.count),
        },
        Column {
            wanted: parts.part,
            value: Value::Part(spot.before, spot.count),
        },
    ]
}

/// The part of a line of an atom with so many characters, if there is one.
fn spot_of(length: usize, line: usize) -> Option<Spot>
    requires { length ≤ 248 }
    ensures { IsSpotOf length line result }
{
    let mut first = 0;
    let mut before = 0;
    while before <= length {
        let many = length - before + 1;
        if line - first < many {
            return Some(Spot {
                first,
                before,
                count: line - first,
            });
        }
        first += many;
        before += 1;
    }
    None
}

/// The first part with one character more before it.
fn block_after(length: usize, spot: Spot) -> Spot
    requires small { length ≤ 248 }
    requires spot { IsSpot length spot }
    requires within { spot.before ≤ length }
    ensures { IsBlockAfter length spot result }
{
    Spot {
        first: spot.first + (length - spot.before + 1),
        before: spot.before + 1,
        count: 0,
    }
}

/// The part of the next line.
fn spot_after(length: usize, spot: Spot) -> Spot
    requires small { length ≤ 248 }
    requires spot { IsSpot length spot }
    requires within { spot.before ≤ length }
    ensures { IsSpotAfter length spot result }
{
    if spot.before + spot.count < length {
        return Spot {
            first: spot.first,
            before: spot.before,
            count: spot.count + 1,
        };
    }
    block_after(length, spot)
}

/// What a look at a part finds: the first one whose line unifies with what is wanted, or the one from which on to look.
#[derive(Clone, Copy, Drop)]
enum Looked {
    Here(Spot),
    From(Spot),
}

/// Looks at a part, or at the first one after it that may have what is wanted.
fn look(text: &[char], parts: Parts, spot: Spot) -> Looked
    requires within { parts.length ≤ length text.now }
    requires small { parts.length ≤ 248 }
    requires spot { IsSpot parts.length spot }
    requires inside { spot.before ≤ parts.length }
    ensures { IsLooked text.now parts spot result }
{
    let Some(found) = candidate(text, parts, spot) else {
        return Looked::From(block_after(parts.length, spot));
    };
    if unifies(text, &part_columns(parts, found)) {
        return Looked::Here(found);
    }
    Looked::From(spot_after(parts.length, found))
}

/// The first part from one on whose line unifies with what is wanted.
fn next_part(text: &[char], parts: Parts, from: Spot) -> Option<Spot>
    requires within { parts.length ≤ length text.now }
    requires small { parts.length ≤ 248 }
    requires from { IsSpot parts.length from }
    ensures { IsNextPart text.now parts from result }
{
    let mut spot = from;
    while spot.before <= parts.length {
        match look(text, parts, spot) {
            Looked::Here(found) => return Some(found),
            Looked::From(next) => spot = next,
        }
    }
    None
}

/// The line of the next part after one whose line unifies with what is wanted.
pub fn following_part(text: &[char], parts: Parts, spot: Spot) -> Option<usize>
    requires within { parts.length ≤ length text.now }
    requires small { parts.length ≤ 248 }
    requires spot { IsSpot parts.length spot }
    requires inside { spot.before ≤ parts.length }
    ensures { IsFollowing (part_wanted text.now parts) (parts_of (take parts.length text.now)) (suc (line_at spot)) result }
{
    match next_part(text, parts, spot_after(parts.length, spot)) {
        Some(next) => Some(next.first + next.count),
        None => None,
    }
}

/// The first part from a line on whose line unifies with what is wanted.
pub fn part_from(text: &[char], parts: Parts, line: usize) -> Option<Spot>
    requires within { parts.length ≤ length text.now }
    requires small { parts.length ≤ 248 }
    ensures next { IsNextSpot (part_wanted text.now parts) (take parts.length text.now) line result }
    ensures part { IsPart text.now parts result }
{
    match spot_of(parts.length, line) {
        Some(spot) => next_part(text, parts, spot),
        None => None,
    }
}
