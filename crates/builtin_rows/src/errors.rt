//! The balls of errors (ISO 7.12.2), which take no cells of the budget.
ghost use Rattle.std.specs.Prelude.{◌≡◌, ℕ, [], Some, IfOk};
ghost use Rattle.pl_term.specs.Tree.{Chars, Tree, Trees, atom, comp, more, none};
ghost use Rattle.pl_model.specs.Balls.{error_ball};
ghost use Rattle.pl_model.specs.History.{proc};
ghost use Rattle.atom_api.specs.Fixed.{fixed};
ghost use Rattle.atom_api.specs.Names.{Names, FixedStand};
ghost use Rattle.term_store.specs.Contents.{Holds};
ghost use Rattle.world_builtins.specs.Naming.{IsHeldAt};
ghost use Rattle.world_builtins.specs.Spelling.{reads};
ghost use Rattle.builtin_rows.specs.Given.{thrown};
ghost use Rattle.builtin_rows.specs.Rows.{IsBall, IsRow, IsSingle, row_refusals};

use crate::row::Row;
use atom_api::{Atom, fixed};
use pl_term::Memory;
use term_store::{Place, Store};

/// The predicate with this name and so many arguments raises the error term that is a fixed atom, as `instantiation_error`. The
/// only error is out of memory.
pub fn raised(store: &mut Store, error: Atom, name: Atom, arity: u32) -> Result<Row, Memory>
    ensures row { IfOk result (λ r. (m : Names) (e p : Chars) (next : ℕ) (ts : Trees) → FixedStand m → fixed error ≡ Some e → fixed name ≡ Some p
        → IsRow store.old next ts (thrown (error_ball (atom e) (proc p arity))) m store.new r) }
    ensures refuses { IfOk result (λ r. row_refusals r ≡ []) }
    ensures single { IfOk result IsSingle }
{
    let ball = ball_of(store, Place::atom(error), name, arity)?;
    Ok(Row::Ball(ball))
}

/// It raises the error of this name for this reason, as `evaluation_error(zero_divisor)`. The only error is out of memory.
pub fn refused_with(
    store: &mut Store,
    error: Atom,
    reason: Atom,
    name: Atom,
    arity: u32,
) -> Result<Row, Memory>
    ensures row { IfOk result (λ r. (m : Names) (e x p : Chars) (next : ℕ) (ts : Trees) → FixedStand m → fixed error ≡ Some e → fixed reason ≡ Some x → fixed name ≡ Some p
        → IsRow store.old next ts (thrown (error_ball (comp e (atom x) none) (proc p arity))) m store.new r) }
    ensures refuses { IfOk result (λ r. row_refusals r ≡ []) }
    ensures single { IfOk result IsSingle }
{
    let term = store.make_compound(error, &[Place::atom(reason)])?;
    let ball = ball_of(store, term, name, arity)?;
    Ok(Row::Ball(ball))
}

/// It raises the error of this name and kind for the term at a place, as `type_error(atom, T)`. The only error is out of memory.
pub fn refused_for(
    store: &mut Store,
    error: Atom,
    kind: Atom,
    culprit: Place,
    name: Atom,
    arity: u32,
) -> Result<Row, Memory>
    requires { Holds store.old culprit }
    ensures row { IfOk result (λ r. (m : Names) (e x p : Chars) (next : ℕ) (ts : Trees) → FixedStand m → IsHeldAt m store.old culprit
        → fixed error ≡ Some e → fixed kind ≡ Some x → fixed name ≡ Some p
        → IsRow store.old next ts (thrown (error_ball (comp e (atom x) (more (reads m store.old culprit) none)) (proc p arity))) m store.new r) }
    ensures refuses { IfOk result (λ r. row_refusals r ≡ []) }
    ensures single { IfOk result IsSingle }
{
    let term = store.make_compound(error, &[Place::atom(kind), culprit])?;
    let ball = ball_of(store, term, name, arity)?;
    Ok(Row::Ball(ball))
}

/// The ball error(E, Name/Arity) of the error term E at a place. The only error is out of memory.
pub fn ball_of(store: &mut Store, error: Place, name: Atom, arity: u32) -> Result<Place, Memory>
    requires { Holds store.old error }
    ensures { IfOk result (λ w. IsBall store.old error name arity store.new w) }
{
    let count = Place::integer(arity as i64);
    let indicator = store.make_compound(fixed::SLASH, &[Place::atom(name), count])?;
    let ball = store.make_compound(fixed::ERROR, &[error, indicator])?;
    Ok(ball)
}
