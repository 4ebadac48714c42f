//! Why a change of the table is refused.
ghost use Rattle.std.specs.Prelude.{◌≡◌, Some};
ghost use Rattle.op_table.specs.Faults.{fault_text};
ghost use Rattle.op_table.specs.declared.fault.OpFault.TheVariants.{Memory as NoMemory};

use pl_term::Memory;
use std::error::Error;
use std::fmt;

/// Why op/3 is refused (ISO 8.14.3.3), the first cause in this order.
#[derive(Debug, Clone, Copy, PartialEq, Eq, Drop)]
pub enum OpFault {
    /// The priority is above 1200.
    Priority,
    /// There is no such specifier. A `Kind` is always one, so `add` never answers this.
    Kind,
    /// The comma cannot be modified.
    Comma,
    /// The name is one of `.`, `|`, `[]` and `{}`.
    Reserved,
    /// The name is an infix operator and is to be a postfix operator too, or the other way round (ISO 6.3.4.3).
    InfixPostfix,
    /// Out of memory.
    Memory,
}

impl fmt::Display for OpFault {
    ghost output = { λ f. Some (fault_text f) };

    fn fmt<W: fmt::Write>(&self, f: &mut fmt::Formatter<W>) -> fmt::Result {
        match self {
            OpFault::Priority => write!(f, "the priority is above 1200"),
            OpFault::Kind => write!(f, "there is no such specifier"),
            OpFault::Comma => write!(f, "the comma cannot be modified"),
            OpFault::Reserved => write!(f, "the name is reserved"),
            OpFault::InfixPostfix => write!(f, "an infix operator beside a postfix operator"),
            OpFault::Memory => write!(f, "out of memory"),
        }
    }
}

impl Error for OpFault {}

impl From<Memory> for OpFault {
    ghost from_gives = { λ _ f. f ≡ NoMemory };

    fn from(_e: Memory) -> OpFault {
        OpFault::Memory
    }
}
