//! Answers.
use crate::reply::{Name, Reply};
use atom_api::{Cause, Pass, WornWord};

/// What an engine waits on.
#[derive(Clone, Copy, Debug, Drop)]
pub enum On {
    /// A message of a queue.
    Queue(Name),
    /// The end of a thread.
    Thread(Name),
}

/// The answer to a visit.
#[derive(Drop)]
pub enum Answer<T> {
    /// The reply, and the generation at which the visit stood.
    Served { reply: Reply<T>, generation: u64 },
    /// There is no reply yet, as the shared state stands at this generation.
    Waits { on: On, generation: u64 },
    /// An atom of the reply has no place, as that pass over all slots shows.
    NeedsAtoms(Pass),
    /// Others stepped in between: the visit is to be made again.
    Retry(Cause),
    /// An atom of the reply is one of a bucket that takes no new atom.
    Worn(WornWord),
    /// Out of memory.
    Memory,
}
