//! Why the database refuses a request.
use pl_term::Memory;

/// A refusal. After one, the database is as it was.
#[derive(Debug, Clone, Copy, PartialEq, Eq, Drop)]
pub enum DbFault {
    /// The procedure is static, so that it cannot be changed (ISO 8.9).
    Static,
    /// The procedure is static, so that its clauses cannot be looked at (ISO 8.8.1).
    Private,
    /// There is no such procedure (ISO 7.7.7).
    Unknown,
    /// The stored clauses would take 2^40 cells or more: those that are not erased take `used`, and the one to be added
    /// `need`.
    CellsFull { used: u64, need: u64 },
    /// Out of memory.
    Memory,
}

impl From<Memory> for DbFault {
    fn from(_memory: Memory) -> DbFault {
        DbFault::Memory
    }
}
