//! What calls lead to.
use iso_search::outcome::Outcome;
use term_store::Stored;

/// What a call of the program's clauses leads to.
#[derive(Drop)]
pub enum Called {
    /// No inference can be made: the call raises the error of the budget of inferences. No visit was made.
    Spent,
    /// The clauses for the goal were tried, which led to this.
    Ran(Outcome),
    /// The call raises this error: the program has no such procedure (ISO 7.7.7).
    Refused(Stored),
}
