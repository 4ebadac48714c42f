//! What goals that write lead to.
use iso_search::outcome::Outcome;

/// What a goal that writes leads to.
#[derive(Drop)]
pub enum Wrote {
    /// No inference can be made: the goal raises the error of the budget of inferences. Nothing was written.
    Spent,
    /// The goal was done, or raises an error, which led to this.
    Ran(Outcome),
}
