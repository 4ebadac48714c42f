//! Why the arguments of a predicate are refused (ISO/IEC 13211-1:1995, 7.12.2).
ghost use Rattle.std.specs.Prelude.{◌≡◌, ℕ, zero, [], Some, IfOk};
ghost use Rattle.pl_term.specs.Tree.{Chars, Trees};
ghost use Rattle.pl_model.specs.Balls.{error_ball};
ghost use Rattle.pl_model.specs.History.{proc};
ghost use Rattle.atom_api.specs.Fixed.{fixed};
ghost use Rattle.atom_api.specs.Names.{Names, FixedStand};
ghost use Rattle.term_store.specs.Contents.{Holds as IsIn};
ghost use Rattle.world_builtins.specs.Naming.{IsHeldAt};
ghost use Rattle.world_builtins.specs.Spelling.{reads};
ghost use Rattle.builtin_rows.specs.Given.{thrown};
ghost use Rattle.builtin_rows.specs.Rows.{IsRow, IsSingle, Makes, row_refusals};
ghost use Rattle.shared_builtins.specs.Faults.{IsFaultHeld, IsFaultIn, fault_term};

use atom_api::{Atom, fixed};
use builtin_rows::{Row, ball_of};
use pl_term::Memory;
use term_store::{Place, Store};

/// Why the arguments of a predicate are refused. Names and kinds of errors are fixed atoms.
#[derive(Clone, Copy, Debug, Drop)]
pub enum Fault {
    /// A variable stands where another term is wanted: an instantiation error.
    Unbound,
    /// The error of this name and kind for the term at a place: a type error, a domain error, or an existence error.
    For(Atom, Atom, Place),
    /// The error with this name for the term at a place, without a kind: an uninstantiation error.
    Of(Atom, Place),
    /// The permission error that this is not done with a thing of this kind, the term at a place.
    NotPermitted(Atom, Atom, Place),
    /// The flag at the first place has no such value as at the second one: a domain error.
    NoValue(Place, Place),
}

/// The predicate with this name and so many arguments raises the error. The only error of the call is out of memory.
pub fn raise(store: &mut Store, fault: Fault, name: Atom, arity: u32) -> Result<Row, Memory>
    requires { IsFaultIn store.old fault }
    ensures row { IfOk result (λ r. (m : Names) (p : Chars) (next : ℕ) (ts : Trees) → FixedStand m → IsFaultHeld m store.old fault → fixed name ≡ Some p
        → IsRow store.old next ts (thrown (error_ball (fault_term m store.old fault) (proc p arity))) m store.new r) }
    ensures refuses { IfOk result (λ r. row_refusals r ≡ []) }
    ensures single { IfOk result IsSingle }
{
    let term = term_of(store, fault)?;
    let ball = ball_of(store, term, name, arity)?;
    Ok(Row::Ball(ball))
}

/// The error term of a fault. The only error of the call is out of memory.
pub fn term_of(store: &mut Store, fault: Fault) -> Result<Place, Memory>
    requires { IsFaultIn store.old fault }
    ensures made { IfOk result (λ p. Makes store.old zero zero zero store.new × IsIn store.new p) }
    ensures term { IfOk result (λ p. (m : Names) → FixedStand m → reads m store.new p ≡ fault_term m store.old fault) }
    ensures held { IfOk result (λ p. (m : Names) → FixedStand m → IsFaultHeld m store.old fault → IsHeldAt m store.new p) }
{
    match fault {
        Fault::Unbound => unbound_term(store),
        Fault::For(error, kind, culprit) => term_for(store, error, kind, culprit),
        Fault::Of(error, culprit) => term_with(store, error, culprit),
        Fault::NotPermitted(action, kind, culprit) => permission_term(store, action, kind, culprit),
        Fault::NoValue(flag, value) => value_term(store, flag, value),
    }
}

/// The term of an instantiation error.
fn unbound_term(store: &mut Store) -> Result<Place, Memory>
    ensures made { IfOk result (λ p. Makes store.old zero zero zero store.new × IsIn store.new p) }
    ensures term { IfOk result (λ p. (m : Names) → FixedStand m → reads m store.new p ≡ fault_term m store.old (Fault.Unbound)) }
    ensures held { IfOk result (λ p. (m : Names) → FixedStand m → IsFaultHeld m store.old (Fault.Unbound) → IsHeldAt m store.new p) }
{
    let term = Place::atom(fixed::INSTANTIATION_ERROR);
    Ok(term)
}

/// The term of the error of this name and kind for the term at a place. The only error of the call is out of memory. So below.
fn term_for(store: &mut Store, error: Atom, kind: Atom, culprit: Place) -> Result<Place, Memory>
    requires { IsFaultIn store.old (Fault.For error kind culprit) }
    ensures made { IfOk result (λ p. Makes store.old zero zero zero store.new × IsIn store.new p) }
    ensures term { IfOk result (λ p. (m : Names) → FixedStand m → reads m store.new p ≡ fault_term m store.old (Fault.For error kind culprit)) }
    ensures held { IfOk result (λ p. (m : Names) → FixedStand m → IsFaultHeld m store.old (Fault.For error kind culprit) → IsHeldAt m store.new p) }
{
    let term = store.make_compound(error, &[Place::atom(kind), culprit])?;
    Ok(term)
}

/// The term of the error with this name for the term at a place.
fn term_with(store: &mut Store, error: Atom, culprit: Place) -> Result<Place, Memory>
    requires { IsFaultIn store.old (Fault.Of error culprit) }
    ensures made { IfOk result (λ p. Makes store.old zero zero zero store.new × IsIn store.new p) }
    ensures term { IfOk result (λ p. (m : Names) → FixedStand m → reads m store.new p ≡ fault_term m store.old (Fault.Of error culprit)) }
    ensures held { IfOk result (λ p. (m : Names) → FixedStand m → IsFaultHeld m store.old (Fault.Of error culprit) → IsHeldAt m store.new p) }
{
    let term = store.make_compound(error, &[culprit])?;
    Ok(term)
}

/// The term of the permission error that this is not done with a thing of this kind.
fn permission_term(
    store: &mut Store,
    action: Atom,
    kind: Atom,
    culprit: Place,
) -> Result<Place, Memory>
    requires { IsFaultIn store.old (Fault.NotPermitted action kind culprit) }
    ensures made { IfOk result (λ p. Makes store.old zero zero zero store.new × IsIn store.new p) }
    ensures term { IfOk result (λ p. (m : Names) → FixedStand m → reads m store.new p ≡ fault_term m store.old (Fault.NotPermitted action kind culprit)) }
    ensures held { IfOk result (λ p. (m : Names) → FixedStand m → IsFaultHeld m store.old (Fault.NotPermitted action kind culprit) → IsHeldAt m store.new p) }
{
    let done = Place::atom(action);
    let thing = Place::atom(kind);
    let term = store.make_compound(fixed::PERMISSION_ERROR, &[done, thing, culprit])?;
    Ok(term)
}

/// The term of the domain error that the flag has no such value.
fn value_term(store: &mut Store, flag: Place, value: Place) -> Result<Place, Memory>
    requires { IsFaultIn store.old (Fault.NoValue flag value) }
    ensures made { IfOk result (λ p. Makes store.old zero zero zero store.new × IsIn store.new p) }
    ensures term { IfOk result (λ p. (m : Names) → FixedStand m → reads m store.new p ≡ fault_term m store.old (Fault.NoValue flag value)) }
    ensures held { IfOk result (λ p. (m : Names) → FixedStand m → IsFaultHeld m store.old (Fault.NoValue flag value) → IsHeldAt m store.new p) }
{
    let pair = store.make_compound(fixed::PLUS, &[flag, value])?;
    let kind = Place::atom(fixed::FLAG_VALUE);
    let term = store.make_compound(fixed::DOMAIN_ERROR, &[kind, pair])?;
    Ok(term)
}
