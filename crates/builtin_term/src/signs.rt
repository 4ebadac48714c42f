//! The first argument of compare/3 (ISO Cor.2 8.4.2).
ghost use Rattle.std.specs.Prelude.{◌≡◌};
ghost use Rattle.term_store.specs.Contents.{Holds, term_at};
ghost use Rattle.term_store.specs.Heap.{atom_name};
ghost use Rattle.builtin_term.specs.Orders.{is_sign_name, sign_at};

use atom_api::{Atom, fixed};
use term_store::{Place, Store, View};

/// What is wrong with the first argument of compare/3.
#[derive(Clone, Copy, Debug, Drop)]
pub enum Sign {
    /// Nothing: it is a variable, or a sign.
    Fits,
    /// It is no variable, and no atom.
    NoAtom,
    /// It is an atom that is no sign.
    NoSign,
}

/// What is wrong with the first argument of compare/3 at a place.
pub fn sign_at(store: &Store, place: Place) -> Sign
    requires { Holds store.now place }
    ensures { result ≡ sign_at (term_at store.now place) }
{
    match store.look(place) {
        View::Variable(_) => Sign::Fits,
        View::Integer(_) => Sign::NoAtom,
        View::Atom(name) => {
            if is_sign(name) {
                Sign::Fits
            } else {
                Sign::NoSign
            }
        }
        View::Compound(_, _) => Sign::NoAtom,
    }
}

/// Whether an atom is one of `<`, `=` and `>`.
fn is_sign(name: Atom) -> bool
    ensures { result ≡ is_sign_name (atom_name name) }
{
    name == fixed::LESS || name == fixed::EQUAL || name == fixed::GREATER
}
