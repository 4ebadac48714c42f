//! The state that all engines share, behind one lock: stored clauses, queues and threads, the keeper of their atoms, and
//! the hub's front of the one history.
//!
//! Each visit of an engine is answered as the definitions answer it after all entries of the history, which gains the
//! update where one is made; or it is refused with nothing changed.
#![tactic(auto)]

mod beginning;
mod clauses;
mod counting;
mod ending;
mod goals;
mod naming;
mod session;
mod settling;
mod shared;
mod threads;

pub use beginning::Begun;
pub use counting::counted;
pub use naming::Naming;
pub use shared::Shared;
