//! Runs that do not come to their end.
use pl_term::Memory;
use world_api::{On, Pass, WornWord};

/// Why a run does not go on.
#[derive(Drop)]
pub enum Unfinished {
    /// Its next request has no reply as the shared state stands at this generation: it waits on this.
    Waits(On, u64),
    /// An atom has no place, as that pass over all slots shows.
    NeedsAtoms(Pass),
    /// An atom is one of a bucket that takes no new atom.
    Worn(WornWord),
    /// Out of memory.
    Memory,
}

impl From<Memory> for Unfinished {
    ghost use Rattle.std.specs.Prelude.{◌≡◌};
    ghost use Rattle.engine_run.specs.declared.unfinished.Unfinished.TheVariants.{Memory as OutOfMemory};

    ghost from_gives = { λ _ u. u ≡ OutOfMemory };

    fn from(_e: Memory) -> Unfinished {
        Unfinished::Memory
    }
}
