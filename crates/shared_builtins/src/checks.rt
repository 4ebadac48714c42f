//! Checks of arguments, in the order of the definition: the first that fails counts.
ghost use Rattle.std.specs.Prelude.{◌≡◌, IfSome, IfNone, map, true};
ghost use Rattle.std.specs.Option.{option_map};
ghost use Rattle.std.specs.List.{All};
ghost use Rattle.pl_model.specs.Checks.{first_error};
ghost use Rattle.atom_api.specs.Names.{Names};
ghost use Rattle.term_store.specs.Contents.{Holds, term_at};
ghost use Rattle.builtin_rows.specs.Lists.{IsNaming};
ghost use Rattle.world_builtins.specs.Spelling.{reads};
ghost use Rattle.shared_builtins.specs.Checks.{IsCheckHeld, IsCheckIn, atom_in, check_error, check_fault, check_passes, flag_in, natural_in, priority_in, specifier_in, unfixed_in, value_in};
ghost use Rattle.shared_builtins.specs.Faults.{IsFaultHeld, IsFaultIn, fault_term};

use crate::faults::Fault;
use crate::flags::{is_changeable, is_fixed_flag, is_value};
use crate::kinds::{ATOM, BOUND, CALLABLE, INTEGER, VARIABLE};
use crate::operators::kind_of;
use atom_api::{Atom, fixed};
use builtin_rows::passes;
use term_store::{Place, Store, View};

/// What is asked of an argument.
#[derive(Clone, Copy, Debug, Drop)]
pub enum Check {
    /// It is no variable.
    Bound(Place),
    /// It is a variable.
    Unbound(Place),
    /// It is an atom, if it is no variable. So below.
    Atom(Place),
    Integer(Place),
    Callable(Place),
    /// It is no negative integer.
    Natural(Place),
    /// It is a priority of operators, an integer from 0 to 1200.
    Priority(Place),
    /// It is a specifier of operators, as `xfx`.
    Specifier(Place),
    /// It is the name of a flag.
    Flag(Place),
    /// It is not that of a flag that cannot be changed.
    Changeable(Place),
    /// The second is a value of the flag at the first.
    Value(Place, Place),
}

/// The first of these checks that fails, as the error for which the predicate is refused.
pub fn first_fault(store: &Store, checks: &[Check]) -> Option<Fault>
    requires { All (IsCheckIn store.now) checks.now }
    ensures error { (m : Names) → IsNaming m → All (IsCheckHeld m store.now) checks.now
        → first_error (map (check_error (reads m store.now)) checks.now) ≡ option_map (fault_term m store.now) result }
    ensures inside { IfSome result (IsFaultIn store.now) }
    ensures held { (m : Names) → All (IsCheckHeld m store.now) checks.now → IfSome result (IsFaultHeld m store.now) }
    ensures passed { IfNone result (All (λ k. check_passes store.now k ≡ true) checks.now) }
{
    for check in checks {
        if !is_met(store, *check) {
            return Some(fault_of(*check));
        }
    }
    None
}

/// Whether what is asked holds.
fn is_met(store: &Store, check: Check) -> bool
    requires { IsCheckIn store.now check }
    ensures { result ≡ check_passes store.now check }
{
    match check {
        Check::Bound(place) => passes(BOUND, store, place),
        Check::Unbound(place) => passes(VARIABLE, store, place),
        Check::Atom(place) => passes(ATOM, store, place),
        Check::Integer(place) => passes(INTEGER, store, place),
        Check::Callable(place) => passes(CALLABLE, store, place),
        Check::Natural(place) => is_natural(store, place),
        Check::Priority(place) => is_priority(store, place),
        Check::Specifier(place) => is_specifier(store, place),
        Check::Flag(place) => is_flag(store, place),
        Check::Changeable(place) => is_unfixed(store, place),
        Check::Value(flag, value) => has_value(store, flag, value),
    }
}

/// The error where it does not.
fn fault_of(check: Check) -> Fault
    ensures { result ≡ check_fault check }
{
    match check {
        Check::Bound(_) => Fault::Unbound,
        Check::Unbound(place) => Fault::Of(fixed::UNINSTANTIATION_ERROR, place),
        Check::Atom(place) => Fault::For(fixed::TYPE_ERROR, fixed::ATOM, place),
        Check::Integer(place) => Fault::For(fixed::TYPE_ERROR, fixed::INTEGER, place),
        Check::Callable(place) => Fault::For(fixed::TYPE_ERROR, fixed::CALLABLE, place),
        Check::Natural(place) => {
            Fault::For(fixed::DOMAIN_ERROR, fixed::NOT_LESS_THAN_ZERO, place)
        }
        Check::Priority(place) => Fault::For(fixed::DOMAIN_ERROR, fixed::OPERATOR_PRIORITY, place),
        Check::Specifier(place) => {
            Fault::For(fixed::DOMAIN_ERROR, fixed::OPERATOR_SPECIFIER, place)
        }
        Check::Flag(place) => Fault::For(fixed::DOMAIN_ERROR, fixed::PROLOG_FLAG, place),
        Check::Changeable(place) => Fault::NotPermitted(fixed::MODIFY, fixed::FLAG, place),
        Check::Value(flag, value) => Fault::NoValue(flag, value),
    }
}

/// Whether no negative integer stands at the place.
fn is_natural(store: &Store, place: Place) -> bool
    requires { Holds store.now place }
    ensures { result ≡ natural_in (term_at store.now place) }
{
    match store.look(place) {
        View::Variable(_) => true,
        View::Integer(i) => 0 <= i,
        View::Atom(_) => true,
        View::Compound(_, _) => true,
    }
}

/// Whether a priority of operators stands at the place, or a variable.
fn is_priority(store: &Store, place: Place) -> bool
    requires { Holds store.now place }
    ensures { result ≡ priority_in (term_at store.now place) }
{
    match store.look(place) {
        View::Variable(_) => true,
        View::Integer(i) => 0 <= i && i <= 1200,
        View::Atom(_) => false,
        View::Compound(_, _) => false,
    }
}

/// Whether a specifier of operators stands at the place, or a variable.
fn is_specifier(store: &Store, place: Place) -> bool
    requires { Holds store.now place }
    ensures { result ≡ specifier_in (term_at store.now place) }
{
    match store.look(place) {
        View::Variable(_) => true,
        View::Integer(_) => false,
        View::Atom(name) => kind_of(name).is_some(),
        View::Compound(_, _) => false,
    }
}

/// Whether the name of a flag stands at the place, or what is no atom.
fn is_flag(store: &Store, place: Place) -> bool
    requires { Holds store.now place }
    ensures { result ≡ flag_in (term_at store.now place) }
{
    match store.look(place) {
        View::Variable(_) => true,
        View::Integer(_) => true,
        View::Atom(name) => is_fixed_flag(name) || is_changeable(name),
        View::Compound(_, _) => true,
    }
}

/// Whether the name of a flag that cannot be changed does not stand at the place.
fn is_unfixed(store: &Store, place: Place) -> bool
    requires { Holds store.now place }
    ensures { result ≡ unfixed_in (term_at store.now place) }
{
    match store.look(place) {
        View::Variable(_) => true,
        View::Integer(_) => true,
        View::Atom(name) => !is_fixed_flag(name),
        View::Compound(_, _) => true,
    }
}

/// Whether a value of the flag at the first place stands at the second one.
fn has_value(store: &Store, flag: Place, value: Place) -> bool
    requires flag { Holds store.now flag }
    requires value { Holds store.now value }
    ensures { result ≡ value_in (term_at store.now flag) (term_at store.now value) }
{
    match atom_of(store, flag) {
        Some(name) => match atom_of(store, value) {
            Some(chosen) => is_value(name, chosen),
            None => false,
        },
        None => false,
    }
}

/// The atom at a place, if one stands there.
pub fn atom_of(store: &Store, place: Place) -> Option<Atom>
    requires { Holds store.now place }
    ensures { result ≡ atom_in (term_at store.now place) }
{
    match store.look(place) {
        View::Variable(_) => None,
        View::Integer(_) => None,
        View::Atom(name) => Some(name),
        View::Compound(_, _) => None,
    }
}
