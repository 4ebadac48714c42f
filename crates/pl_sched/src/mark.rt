//! How an engine came home.
use named_terms::NamedTerm;
use op_table::OpTable;
use pl_model::ends::{How, SlotPass};
use pl_model::grammar::Quotes;
use std::sync::Arc;
use world_api::On;

/// How an engine has ended, with the operators and the flag `double_quotes` of the state in which it did.
#[derive(Drop)]
pub struct End {
    pub how: How<NamedTerm>,
    pub operators: Arc<OpTable>,
    pub quotes: Quotes,
}

/// How an engine came home: it goes on at once, when the history has grown, or when cycles of collection have ended; or it has
/// ended.
#[derive(Drop)]
pub enum Mark {
    Ready,
    /// Its next request waits on this in the state at this generation.
    Waits(On, u64),
    /// An atom has no place, as this pass over all slots shows, or showed since when no step was made.
    ForCycles(SlotPass),
    Ended(End),
}
