//! What a part of the shared state answers.
use atom_api::{Cause, Pass, WornWord};
use term_store::Stored;
use world_api::{On, Reply};

/// From this number of updates on no update is made but the end of an engine.
pub const MOST_UPDATES: u64 = 1 << 47;

/// What a part of the shared state answers to a visit.
#[derive(Drop)]
pub enum Row {
    /// The reply. Nothing has been changed.
    Reads(Reply<Stored>),
    /// The reply. The change that is the update of it has been made.
    Makes(Reply<Stored>),
    /// There is no reply yet. Nothing has been changed.
    Waits(On),
    /// An atom of the reply has no place, as that pass over all slots shows. Nothing has been changed.
    NeedsAtoms(Pass),
    /// Others stepped in between: the visit is to be made again. Nothing has been changed.
    Retry(Cause),
    /// An atom of the reply is one of a bucket that takes no new atom. Nothing has been changed.
    Worn(WornWord),
    /// Out of memory. Nothing has been changed.
    Memory,
}
