//! Slices.
use crate::doing::Doing;
use atom_api::{Cause, Pass, WornWord};
use op_table::OpTable;
use std::sync::Arc;
use world_api::On;

/// Why a slice ended.
#[derive(Drop)]
pub enum Slice {
    /// So many inferences were made.
    Yield,
    /// A solution was found, with the operators that stand then.
    Solution(Arc<OpTable>),
    /// An atom has no place, as that pass over all slots shows. The step was taken back.
    NeedsAtoms(Pass),
    /// Others stepped in between. The step was taken back.
    Retry(Cause),
    /// An atom is one of a bucket that takes no new atom. The step was taken back.
    Worn(WornWord),
    /// The next request has no reply yet, as the shared state stands at this generation. The step was taken back.
    Waits(On, u64),
    /// The search has ended.
    Ended,
    /// Out of memory: the engine answers so from then on.
    Memory,
}
