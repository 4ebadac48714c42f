//! Calls that were not served.
use atom_api::{Cause, Pass, WornWord};
use pl_term::Memory;

/// Why a call was not served. Unless memory ran out it was taken back, and is to be made again.
#[derive(Drop)]
pub enum Unserved {
    /// An atom has no place, as that pass over all slots shows.
    NeedsAtoms(Pass),
    /// Others stepped in between.
    Retry(Cause),
    /// An atom is one of a bucket that takes no new atom.
    Worn(WornWord),
    /// Out of memory.
    Memory,
}

impl From<Memory> for Unserved {
    ghost use Rattle.std.specs.Prelude.{◌≡◌};
    ghost use Rattle.world_api.specs.declared.unserved.Unserved.TheVariants.{Memory as OutOfMemory};

    ghost from_gives = { λ _ u. u ≡ OutOfMemory };

    fn from(_e: Memory) -> Unserved {
        Unserved::Memory
    }
}
