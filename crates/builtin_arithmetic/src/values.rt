//! Values of terms.
use atom_api::Atom;
use pl_model::evaluables::OpFault;

/// Why a term has no value (ISO 7.9.2).
#[derive(Clone, Copy, Debug, Drop)]
pub enum ValueFault {
    /// A variable stands where a number is wanted.
    Unbound,
    /// The name and the number of arguments of a subterm that is no evaluable. An atom has no arguments.
    NoEvaluable(Atom, usize),
    /// An operation has no value.
    Operation(OpFault),
}

/// The value of a term, or why it has none.
pub type Value = Result<i64, ValueFault>;
