//! What goals of predicates of the shared state lead to.
use iso_search::outcome::Outcome;
use term_store::Stored;
use world_api::On;

/// What a goal of a predicate of the shared state leads to.
#[derive(Drop)]
pub enum Asked {
    /// The inference was made, unless there could be none, and the goal led to this.
    Ran(Outcome),
    /// The inference was made, and the goal raises this error, with which the shared state refused its request.
    Refused(Stored),
    /// The request waits as the shared state stands at this generation. Nothing of the search has changed.
    Waits(On, u64),
}
