//! Built-in predicates by their names and the number of their arguments.
ghost use Rattle.std.specs.Prelude.{◌≡◌, [], get_or};
ghost use Rattle.builtin_rows.specs.Tables.{rows_of, with_count};
ghost use Rattle.builtin_rows.specs.Laws.{IsNamed, TellsRows, TellsShared, TellsConstructs};

use crate::predicates::{Meaning, PREDICATES};
use atom_api::Atom;

/// The meaning of the predicate with so many arguments, of those with one name.
fn with_count(named: &[(usize, Meaning)], arity: usize) -> Option<Meaning>
    ensures { result ≡ with_count arity named.now }
{
    for row in named {
        if row.0 == arity {
            return Some(row.1);
        }
    }
    None
}

/// The row with this number, or an empty one where there is none.
fn row_at(rows: &[&'static [(usize, Meaning)]], number: usize) -> &'static [(usize, Meaning)]
    ensures { result.now ≡ get_or (rows_of rows.now) number [] }
{
    if number < rows.len() {
        rows[number]
    } else {
        &[]
    }
}

/// Where the meaning of the built-in predicate with this name and so many arguments stands, if there is one, by the number of the
/// name alone.
pub fn predicate_of(name: Atom, arity: usize) -> Option<Meaning>
    ensures named { IsNamed name arity result }
    ensures rows { TellsRows name arity result }
    ensures shares { TellsShared name arity result }
    ensures constructs { TellsConstructs name arity result }
{
    with_count(row_at(&PREDICATES, name.slot() as usize), arity)
}
