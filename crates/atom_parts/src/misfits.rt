//! What is wrong with arguments that are to be atoms or numbers of characters.
ghost use Rattle.std.specs.Prelude.{◌≡◌, [], Some, map, IfOk, IfSome};
ghost use Rattle.std.specs.List.{All};
ghost use Rattle.pl_term.specs.Tree.{Chars, Trees};
ghost use Rattle.pl_model.specs.BuiltinRows.{error};
ghost use Rattle.pl_model.specs.Checks.{first_error};
ghost use Rattle.pl_model.specs.History.{proc};
ghost use Rattle.atom_api.specs.Fixed.{fixed};
ghost use Rattle.atom_api.specs.Names.{Names, FixedStand};
ghost use Rattle.term_store.specs.Contents.{Holds};
ghost use Rattle.world_builtins.specs.Naming.{IsHeldAt};
ghost use Rattle.builtin_rows.specs.Rows.{IsSingle, refusals_of};
ghost use Rattle.builtin_atom.specs.Answering.{IsRowOf};
ghost use Rattle.atom_parts.specs.Misfits.{IsMisfitHeld, IsMisfitIn, error_by, error_with, misfit_error, place_of};

use atom_api::{Atom, fixed};
use builtin_atom::{below_zero, unbound, wrong_type};
use builtin_rows::Row;
use pl_term::Memory;
use term_store::{Place, Store, View as Kind};

/// What an argument has to be: no variable, a variable or an atom, or a variable or an integer from 0 on.
#[derive(Clone, Copy, Drop)]
pub enum Check {
    Bound(Place),
    Atom(Place),
    Count(Place),
}

/// What is wrong with an argument: it is a variable, no atom, no integer, or below zero.
#[derive(Clone, Copy, Drop)]
pub enum Misfit {
    Unbound,
    NoAtom(Place),
    NoInteger(Place),
    BelowZero(Place),
}

/// What is wrong with an argument, if something is.
fn misfit_of(store: &Store, check: Check) -> Option<Misfit>
    requires { Holds store.now (place_of check) }
    ensures error { (m : Names) → misfit_error m store.now result ≡ error_by m store.now check }
    ensures place { IfSome result (IsMisfitIn store.now) }
    ensures held { (m : Names) → IsHeldAt m store.now (place_of check) → IfSome result (IsMisfitHeld m store.now) }
{
    match check {
        Check::Bound(place) => match store.look(place) {
            Kind::Variable(_) => Some(Misfit::Unbound),
            _ => None,
        },
        Check::Atom(place) => match store.look(place) {
            Kind::Variable(_) => None,
            Kind::Atom(_) => None,
            _ => Some(Misfit::NoAtom(place)),
        },
        Check::Count(place) => match store.look(place) {
            Kind::Variable(_) => None,
            Kind::Integer(i) => {
                if i < 0 {
                    return Some(Misfit::BelowZero(place));
                }
                None
            }
            _ => Some(Misfit::NoInteger(place)),
        },
    }
}

/// What is wrong with the first argument that does not pass its check.
pub fn first_misfit(store: &Store, checks: &[Check]) -> Option<Misfit>
    requires { All (λ k. Holds store.now (place_of k)) checks.now }
    ensures error { (m : Names) → misfit_error m store.now result ≡ first_error (map (error_by m store.now) checks.now) }
    ensures place { IfSome result (IsMisfitIn store.now) }
    ensures held { (m : Names) → All (λ k. IsHeldAt m store.now (place_of k)) checks.now → IfSome result (IsMisfitHeld m store.now) }
{
    for check in checks {
        match misfit_of(store, *check) {
            Some(found) => return Some(found),
            None => {}
        }
    }
    None
}

/// The row of the predicate with this name and so many arguments, where this is wrong. The only error is out of memory.
pub fn misfit_row(store: &mut Store, misfit: Misfit, name: Atom, arity: u32) -> Result<Row, Memory>
    requires { IsMisfitIn store.old misfit }
    ensures row { IfOk result (λ r. (m : Names) (p : Chars) (ts : Trees) → FixedStand m → IsMisfitHeld m store.old misfit → fixed name ≡ Some p
        → IsRowOf store.old (proc p arity) ts (error (error_with m store.old misfit)) m store.new r) }
    ensures refusals { refusals_of result ≡ [] }
    ensures single { IfOk result IsSingle }
{
    match misfit {
        Misfit::Unbound => unbound(store, name, arity),
        Misfit::NoAtom(place) => wrong_type(store, fixed::ATOM, place, name, arity),
        Misfit::NoInteger(place) => wrong_type(store, fixed::INTEGER, place, name, arity),
        Misfit::BelowZero(place) => below_zero(store, place, name, arity),
    }
}
