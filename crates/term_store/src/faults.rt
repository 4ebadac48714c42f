//! Refusals.
use pl_term::Memory;
use std::error::Error;
use std::fmt;

/// Why a store refuses a term: the cells used and those that it needs are together more than the budget, or there is no
/// memory.
#[derive(Debug, Clone, Copy, PartialEq, Eq, Drop)]
pub enum StoreFault {
    CellsFull { used: u64, need: u64 },
    Memory,
}

impl fmt::Display for StoreFault {
    fn fmt<W: fmt::Write>(&self, f: &mut fmt::Formatter<W>) -> fmt::Result {
        match self {
            StoreFault::CellsFull { used, need } => write!(
                f,
                "{need} cells are needed beside {used}"
            ),
            StoreFault::Memory => write!(f, "out of memory"),
        }
    }
}

impl Error for StoreFault {}

impl From<Memory> for StoreFault {
    ghost use Rattle.std.specs.Prelude.{◌≡◌};
    ghost use Rattle.term_store.specs.declared.faults.StoreFault.TheVariants as store;

    ghost from_gives = { λ _ f. f ≡ store.Memory };

    fn from(_e: Memory) -> StoreFault {
        StoreFault::Memory
    }
}
