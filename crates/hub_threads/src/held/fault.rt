//! Why a call is refused.
ghost use Rattle.std.specs.Prelude.{◌≡◌};
ghost use Rattle.hub_threads.specs.declared.held.fault.QueueFault.TheVariants.{Memory as NoMemory};

use pl_term::Memory;
use std::alloc::AllocError;

/// Why a call is refused.
#[derive(Debug, Clone, Copy, PartialEq, Eq, Drop)]
pub enum QueueFault {
    /// There is no such queue.
    NoQueue,
    /// The queue is a thread's own.
    OwnQueue,
    /// There is no such thread.
    NoThread,
    /// The thread has been joined.
    Joined,
    /// The alias names a thread or a queue.
    AliasTaken,
    /// 64 engines have not ended.
    EnginesFull,
    /// Out of memory.
    Memory,
}

impl From<Memory> for QueueFault {
    ghost from_gives = { λ _ f. f ≡ NoMemory };

    fn from(_e: Memory) -> QueueFault {
        QueueFault::Memory
    }
}

impl From<AllocError> for QueueFault {
    ghost from_gives = { λ _ f. f ≡ NoMemory };

    fn from(_e: AllocError) -> QueueFault {
        QueueFault::Memory
    }
}
