//! What a predicate of the shared state comes to with its arguments.
use crate::faults::Fault;
use term_store::{ArgumentKey, Stored};
use world_api::Visit;

/// What a predicate comes to with its arguments, before it asks.
#[derive(Drop)]
pub enum Shared {
    /// The arguments are refused with this error. Nothing is asked.
    Refused(Fault),
    /// It holds: nothing has to be asked.
    Holds,
    /// It asks this of the shared state.
    Asks(Visit<Stored, ArgumentKey>),
}
