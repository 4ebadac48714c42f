//! The value of the term at a place (ISO 7.9.2).
ghost use Rattle.std.specs.Prelude.{◌≡◌, ◌<◌, [], ◌++◌, ◌∷◌, IfOk, IfSome, OnOk};
ghost use Rattle.std.specs.List.{All};
ghost use Rattle.pl_model.specs.Evaluables.{evaluated};
ghost use Rattle.pl_term.specs.Tree.{compound, int};
ghost use Rattle.atom_api.specs.Names.{Names};
ghost use Rattle.term_store.specs.Heap.{atom_name};
ghost use Rattle.term_store.specs.Contents.{Holds, IsArguments, arguments_at, term_at};
ghost use Rattle.world_builtins.specs.Naming.{IsHeldAt};
ghost use Rattle.world_builtins.specs.Spelling.{reads};
ghost use Rattle.builtin_arithmetic.specs.Texts.{AreTexts};
ghost use Rattle.builtin_arithmetic.specs.Values.{IsValueHeld, value_of};
ghost use Rattle.builtin_arithmetic.specs.Steps.{IsPendingIn, IsStepFor, IsStepIn, Leads};

use crate::evaluables::{binary, unary};
use crate::operations::{apply1, apply2};
use crate::steps::{Pending, Stack, Step, step_of};
use crate::values::{Value, ValueFault};
use atom_api::Atom;
use pl_model::evaluables::{Op1, Op2};
use pl_term::Memory;
use std::alloc::Global;
use term_store::{Arguments, Place, Store, View};

/// The value of the term at a place as an arithmetic expression, or the first fault on the way to it: at each subterm its
/// functor is looked at first, then its arguments are evaluated from the left, and then the operation is made. Nothing
/// recurses on the depth of the term, and an integer and an operation over integers take no memory. The only error is out of
/// memory.
pub fn value_at(alloc: Global, store: &Store, place: Place) -> Result<Value, Memory>
    requires { Holds store.now place }
    ensures value { IfOk result (λ v. (m : Names) → AreTexts m → value_of m v ≡ evaluated (reads m store.now place)) }
    ensures held { IfOk result (λ v. (m : Names) → IsHeldAt m store.now place → IsValueHeld m v) }
{
    let mut stack = Stack::new(alloc);
    let mut step = Step::Visit(place);
    for _ in 0..u64::MAX {
        if let Step::Ended(value) = step {
            return Ok(value);
        }
        step = advance(store, step, &mut stack)?;
    }
    Err(Memory)
}

/// Does a step. The only error is out of memory.
fn advance(store: &Store, step: Step, stack: &mut Stack) -> Result<Step, Memory>
    requires step { IsStepIn store.now step }
    requires stack { All (IsPendingIn store.now) stack.old.items }
    ensures inside { IfOk result (IsStepIn store.now) }
    ensures stack { OnOk result (All (IsPendingIn store.now) stack.new.items) }
    ensures leads { IfOk result (Leads store.now stack.old.items step stack.new.items) }
{
    match step {
        Step::Visit(place) => Ok(visit(store, place)),
        Step::One(op, argument) => one(store, op, argument, stack),
        Step::Two(op, left, right) => two(store, op, left, right, stack),
        Step::Is(x) => resume(store, x, stack),
        Step::Ended(value) => Ok(Step::Ended(value)),
    }
}

/// What is to be done for the value of the term at a place.
fn visit(store: &Store, place: Place) -> Step
    requires { Holds store.now place }
    ensures { IsStepFor store.now place result }
{
    match store.look(place) {
        View::Variable(_) => Step::Ended(Err(ValueFault::Unbound)),
        View::Integer(i) => Step::Is(i),
        View::Atom(name) => Step::Ended(Err(ValueFault::NoEvaluable(name, 0))),
        View::Compound(name, arguments) => open(store, place, name, arguments),
    }
}

/// What is to be done for the value of a compound term.
fn open(store: &Store, place: Place, name: Atom, arguments: Arguments) -> Step
    requires stands { term_at store.now place ≡ compound (atom_name name) (arguments_at store.now arguments) }
    requires arguments { IsArguments store.now arguments }
    requires some { 0 < arguments.count }
    ensures { IsStepFor store.now place result }
{
    let count = arguments.len();
    if count == 1 {
        return match unary(name) {
            Some(op) => Step::One(op, store.argument(arguments, 0)),
            None => Step::Ended(Err(ValueFault::NoEvaluable(name, 1))),
        };
    }
    if count == 2 {
        return match binary(name) {
            Some(op) => Step::Two(
                op,
                store.argument(arguments, 0),
                store.argument(arguments, 1),
            ),
            None => Step::Ended(Err(ValueFault::NoEvaluable(name, 2))),
        };
    }
    Step::Ended(Err(ValueFault::NoEvaluable(name, count)))
}

/// The integer that stands at a place, if it is one.
fn integer_at(store: &Store, place: Place) -> Option<i64>
    requires { Holds store.now place }
    ensures { IfSome result (λ i. term_at store.now place ≡ int i) }
{
    match store.look(place) {
        View::Integer(i) => Some(i),
        _ => None,
    }
}

/// Makes an operation of one argument, or asks for the argument's value first. The only error is out of memory.
fn one(store: &Store, op: Op1, argument: Place, stack: &mut Stack) -> Result<Step, Memory>
    requires argument { Holds store.now argument }
    requires stack { All (IsPendingIn store.now) stack.old.items }
    ensures inside { IfOk result (IsStepIn store.now) }
    ensures stack { OnOk result (All (IsPendingIn store.now) stack.new.items) }
    ensures leads { IfOk result (Leads store.now stack.old.items (Step.One op argument) stack.new.items) }
{
    match integer_at(store, argument) {
        Some(x) => Ok(step_of(apply1(op, x))),
        None => {
            stack.push(Pending::One(op))?;
            Ok(Step::Visit(argument))
        }
    }
}

/// Makes an operation of two arguments, or asks for the value of one of them first. The only error is out of memory.
fn two(store: &Store, op: Op2, left: Place, right: Place, stack: &mut Stack) -> Result<Step, Memory>
    requires left { Holds store.now left }
    requires right { Holds store.now right }
    requires stack { All (IsPendingIn store.now) stack.old.items }
    ensures inside { IfOk result (IsStepIn store.now) }
    ensures stack { OnOk result (All (IsPendingIn store.now) stack.new.items) }
    ensures leads { IfOk result (Leads store.now stack.old.items (Step.Two op left right) stack.new.items) }
{
    match integer_at(store, left) {
        Some(x) => with_left(store, op, x, right, stack),
        None => {
            stack.push(Pending::Left(op, right))?;
            Ok(Step::Visit(left))
        }
    }
}

/// Makes an operation of a number and the term at a place, or asks for the term's value first. The only error is out of
/// memory.
fn with_left(
    store: &Store,
    op: Op2,
    x: i64,
    right: Place,
    stack: &mut Stack,
) -> Result<Step, Memory>
    requires right { Holds store.now right }
    requires stack { All (IsPendingIn store.now) stack.old.items }
    ensures inside { IfOk result (IsStepIn store.now) }
    ensures stack { OnOk result (All (IsPendingIn store.now) stack.new.items) }
    ensures leads { IfOk result (Leads store.now (stack.old.items ++ Pending.Left op right ∷ []) (Step.Is x) stack.new.items) }
{
    match integer_at(store, right) {
        Some(y) => Ok(step_of(apply2(op, x, y))),
        None => {
            stack.push(Pending::Right(op, x))?;
            Ok(Step::Visit(right))
        }
    }
}

/// Goes on with a value. The only error is out of memory.
fn resume(store: &Store, x: i64, stack: &mut Stack) -> Result<Step, Memory>
    requires { All (IsPendingIn store.now) stack.old.items }
    ensures inside { IfOk result (IsStepIn store.now) }
    ensures stack { OnOk result (All (IsPendingIn store.now) stack.new.items) }
    ensures leads { IfOk result (Leads store.now stack.old.items (Step.Is x) stack.new.items) }
{
    let Some(pending) = stack.pop() else {
        return Ok(Step::Ended(Ok(x)));
    };
    match pending {
        Pending::One(op) => Ok(step_of(apply1(op, x))),
        Pending::Left(op, right) => with_left(store, op, x, right, stack),
        Pending::Right(op, left) => Ok(step_of(apply2(op, left, x))),
    }
}
