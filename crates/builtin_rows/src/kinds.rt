//! Type tests by the kinds of terms that pass them (ISO 8.3, Cor.2 8.3.9).
ghost use Rattle.std.specs.Prelude.{◌≡◌};
ghost use Rattle.term_store.specs.Contents.{Holds, term_at};
ghost use Rattle.builtin_rows.specs.Kinds.{kinds_of, passes};

use crate::predicates::OfOne;
use term_store::{Place, Store, View};

/// Which kinds of terms pass a test.
#[derive(Clone, Copy, Debug, Drop)]
pub struct Kinds {
    pub variable: bool,
    pub integer: bool,
    pub atom: bool,
    pub compound: bool,
}

/// The kinds of terms that pass a type test. None for ground/1, which asks for more.
pub fn kinds_of(test: OfOne) -> Option<Kinds>
    ensures { result ≡ kinds_of test }
{
    match test {
        OfOne::Var => Some(passing(true, false, false, false)),
        OfOne::Nonvar => Some(passing(false, true, true, true)),
        OfOne::Atom => Some(passing(false, false, true, false)),
        OfOne::Integer => Some(passing(false, true, false, false)),
        OfOne::Float => Some(passing(false, false, false, false)),
        OfOne::Number => Some(passing(false, true, false, false)),
        OfOne::Atomic => Some(passing(false, true, true, false)),
        OfOne::Compound => Some(passing(false, false, false, true)),
        OfOne::Callable => Some(passing(false, false, true, true)),
        OfOne::Ground => None,
    }
}

/// Variables, integers, atoms and compound terms, as far as they pass.
fn passing(variable: bool, integer: bool, atom: bool, compound: bool) -> Kinds
    ensures { result ≡ record { variable = variable; integer = integer; atom = atom; compound = compound } }
{
    Kinds {
        variable,
        integer,
        atom,
        compound,
    }
}

/// Whether the term at a place is of one of these kinds.
pub fn passes(kinds: Kinds, store: &Store, term: Place) -> bool
    requires { Holds store.now term }
    ensures { result ≡ passes kinds (term_at store.now term) }
{
    match store.look(term) {
        View::Variable(_) => kinds.variable,
        View::Integer(_) => kinds.integer,
        View::Atom(_) => kinds.atom,
        View::Compound(_, _) => kinds.compound,
    }
}
