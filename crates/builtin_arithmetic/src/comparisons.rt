//! Arithmetic comparisons (ISO 8.7).
ghost use Rattle.std.specs.Prelude.{◌≡◌, Some};
ghost use Rattle.pl_model.specs.TermBuiltins.{arithmetic};
ghost use Rattle.atom_api.specs.Fixed.{fixed};
ghost use Rattle.builtin_arithmetic.specs.Comparing.{holds_by, name_of};

use atom_api::{Atom, fixed};
use builtin_rows::Comparison;

/// The name of the predicate of an arithmetic comparison.
pub fn predicate_name(comparison: Comparison) -> Atom
    ensures name { fixed result ≡ Some (name_of comparison) }
    ensures meaning { arithmetic (name_of comparison) ≡ Some (holds_by comparison) }
{
    match comparison {
        Comparison::Equal => fixed::NUMBERS_EQUAL,
        Comparison::Different => fixed::NUMBERS_DIFFER,
        Comparison::Less => fixed::LESS,
        Comparison::LessOrEqual => fixed::LESS_OR_EQUAL,
        Comparison::Greater => fixed::GREATER,
        Comparison::GreaterOrEqual => fixed::GREATER_OR_EQUAL,
    }
}

/// Whether two integers compare so.
pub fn holds(comparison: Comparison, x: i64, y: i64) -> bool
    ensures { result ≡ holds_by comparison x y }
{
    match comparison {
        Comparison::Equal => x == y,
        Comparison::Different => x != y,
        Comparison::Less => x < y,
        Comparison::LessOrEqual => x <= y,
        Comparison::Greater => y < x,
        Comparison::GreaterOrEqual => y <= x,
    }
}
