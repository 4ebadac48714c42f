//! How far an evaluation has come, and what is still to be done.
ghost use Rattle.std.specs.Prelude.{◌≡◌};
ghost use Rattle.builtin_arithmetic.specs.Steps.{step_of};

use crate::values::{Value, ValueFault};
use pl_model::evaluables::{Op1, Op2, OpFault};
use smallvec::SmallVec;
use term_store::Place;

/// What is still to be done with the value of a term.
#[derive(Clone, Copy, Drop)]
pub enum Pending {
    /// The operation is made of it.
    One(Op1),
    /// It is the left argument of the operation. The right one stands at the place.
    Left(Op2, Place),
    /// It is the right argument of the operation. The left one is this number.
    Right(Op2, i64),
}

impl Default for Pending {
    fn default() -> Pending {
        Pending::One(Op1::Plus)
    }
}

/// What is still to be done, the next on top. It takes no memory for the first few.
pub type Stack = SmallVec<Pending, 8>;

/// How far an evaluation has come.
#[derive(Clone, Copy, Drop)]
pub enum Step {
    /// The value of the term at the place is wanted.
    Visit(Place),
    /// The operation of the term at the place is wanted.
    One(Op1, Place),
    /// The operation of the terms at the places is wanted.
    Two(Op2, Place, Place),
    /// The value that was wanted last.
    Is(i64),
    /// The value of the whole.
    Ended(Value),
}

/// The value of an operation that was wanted. A fault ends the evaluation.
pub fn step_of(value: Result<i64, OpFault>) -> Step
    ensures { result ≡ step_of value }
{
    match value {
        Ok(x) => Step::Is(x),
        Err(fault) => Step::Ended(Err(ValueFault::Operation(fault))),
    }
}
