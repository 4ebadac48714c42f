//! Arithmetic (ISO/IEC 13211-1:1995, 7.9, 8.6, 8.7, 9): the operations of the evaluable functors, the value of a term, and over
//! the store of an engine the value of the term at a place, is/2, and arithmetic comparison.
#![tactic(auto)]

mod bits;
pub mod comparing;
mod comparisons;
mod division;
mod errors;
mod evaluables;
mod evaluation;
mod expressions;
mod functors;
mod magnitude;
mod operations;
mod power;
mod steps;
mod value_list;
mod values;

pub use evaluation::value_at;
pub use expressions::eval;
pub use operations::{apply1, apply2};
pub use pl_model::evaluables::{EvalFault, Op1, Op2, OpFault};
pub use values::{Value, ValueFault};
