//! The errors of evaluation (ISO 7.9.2, 7.12.2).
ghost use Rattle.std.specs.Prelude.{◌≡◌, ℕ, [], Some, IfOk};
ghost use Rattle.pl_term.specs.Tree.{Chars, Trees};
ghost use Rattle.pl_model.specs.Balls.{error_ball, evaluation_error as error_of};
ghost use Rattle.pl_model.specs.History.{proc};
ghost use Rattle.pl_model.specs.TermBuiltins.{value_error, operation_error};
ghost use Rattle.atom_api.specs.Fixed.{fixed};
ghost use Rattle.atom_api.specs.Names.{Names, FixedStand};
ghost use Rattle.builtin_rows.specs.Given.{thrown};
ghost use Rattle.builtin_rows.specs.Rows.{IsRow, IsSingle, row_refusals};
ghost use Rattle.builtin_arithmetic.specs.Values.{IsFaultHeld, fault_of};

use crate::values::ValueFault;
use atom_api::{Atom, fixed};
use builtin_rows::{Row, raised, refused_for, refused_with};
use pl_model::evaluables::OpFault;
use pl_term::Memory;
use term_store::{Place, Store};

/// The predicate with this name and number of arguments raises the error of this fault. The only error is out of memory.
pub fn refused(store: &mut Store, fault: ValueFault, name: Atom, arity: u32) -> Result<Row, Memory>
    ensures row { IfOk result (λ r. (m : Names) (p : Chars) (next : ℕ) (ts : Trees) → FixedStand m → IsFaultHeld m fault → fixed name ≡ Some p
        → IsRow store.old next ts (thrown (error_ball (value_error (fault_of m fault)) (proc p arity))) m store.new r) }
    ensures refuses { IfOk result (λ r. row_refusals r ≡ []) }
    ensures single { IfOk result IsSingle }
{
    match fault {
        ValueFault::Unbound => {
            let row = raised(store, fixed::INSTANTIATION_ERROR, name, arity)?;
            Ok(row)
        }
        ValueFault::NoEvaluable(functor, count) => {
            let row = no_evaluable(store, functor, count, name, arity)?;
            Ok(row)
        }
        ValueFault::Operation(fault) => {
            let row = no_value(store, fault, name, arity)?;
            Ok(row)
        }
    }
}

/// It raises the error of an operation that has no value (ISO 7.12.2 b, g). The only error is out of memory.
fn no_value(store: &mut Store, fault: OpFault, name: Atom, arity: u32) -> Result<Row, Memory>
    ensures row { IfOk result (λ r. (m : Names) (p : Chars) (next : ℕ) (ts : Trees) → FixedStand m → fixed name ≡ Some p
        → IsRow store.old next ts (thrown (error_ball (operation_error fault) (proc p arity))) m store.new r) }
    ensures refuses { IfOk result (λ r. row_refusals r ≡ []) }
    ensures single { IfOk result IsSingle }
{
    match fault {
        OpFault::ZeroDivisor => {
            let row = evaluation_error(store, fixed::ZERO_DIVISOR, name, arity)?;
            Ok(row)
        }
        OpFault::IntOverflow => {
            let row = evaluation_error(store, fixed::INT_OVERFLOW, name, arity)?;
            Ok(row)
        }
        OpFault::Undefined => {
            let row = evaluation_error(store, fixed::UNDEFINED, name, arity)?;
            Ok(row)
        }
        OpFault::NeedsFloat { base } => {
            let base = Place::integer(base);
            let row = refused_for(store, fixed::TYPE_ERROR, fixed::FLOAT, base, name, arity)?;
            Ok(row)
        }
    }
}

/// It raises the evaluation error for this reason (ISO 7.12.2 g). The only error is out of memory.
fn evaluation_error(store: &mut Store, reason: Atom, name: Atom, arity: u32) -> Result<Row, Memory>
    ensures row { IfOk result (λ r. (m : Names) (x p : Chars) (next : ℕ) (ts : Trees) → FixedStand m → fixed reason ≡ Some x → fixed name ≡ Some p
        → IsRow store.old next ts (thrown (error_ball (error_of x) (proc p arity))) m store.new r) }
    ensures refuses { IfOk result (λ r. row_refusals r ≡ []) }
    ensures single { IfOk result IsSingle }
{
    let row = refused_with(store, fixed::EVALUATION_ERROR, reason, name, arity)?;
    Ok(row)
}

/// It raises the type error of a functor that is no evaluable, with the indicator of that (ISO 7.12.2 b). The only error
/// is out of memory.
fn no_evaluable(
    store: &mut Store,
    functor: Atom,
    count: usize,
    name: Atom,
    arity: u32,
) -> Result<Row, Memory>
    ensures row { IfOk result (λ r. (m : Names) (p : Chars) (next : ℕ) (ts : Trees) → FixedStand m → IsFaultHeld m (ValueFault.NoEvaluable functor count)
        → fixed name ≡ Some p
        → IsRow store.old next ts (thrown (error_ball (value_error (fault_of m (ValueFault.NoEvaluable functor count))) (proc p arity))) m store.new r) }
    ensures refuses { IfOk result (λ r. row_refusals r ≡ []) }
    ensures single { IfOk result IsSingle }
{
    let Ok(number) = i64::try_from(count) else {
        return Err(Memory);
    };
    let indicator = store.make_compound(
        fixed::SLASH,
        &[Place::atom(functor), Place::integer(number)],
    )?;
    let row = refused_for(
        store,
        fixed::TYPE_ERROR,
        fixed::EVALUABLE,
        indicator,
        name,
        arity,
    )?;
    Ok(row)
}
