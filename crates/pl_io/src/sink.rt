//! A sink, to which text is written.
ghost use Rattle.std.specs.Prelude.{◌≡◌, ◌<◌, ◌≤◌, ◌++◌, ℕ, List, Option, Some, IfOk, OnErr, length, take};
ghost use Rattle.pl_io.specs.Faults.{Rose};

use crate::failed::Failed;

/// A place to write on. What is said of the bytes written holds where they are told; standard output tells none.
pub trait Sink {
    /// The bytes written so far, where they are told.
    ghost written: { Self → Option (List ℕ) };

    /// How often a write has failed, up to 2^64 - 1.
    ghost faults: { Self → ℕ };

    /// Writes the front of a piece, and answers how many bytes: at least one, unless the piece is empty.
    /// `Failed`: nothing was written; the count of faults rose.
    fn write(&mut self, piece: &[u8]) -> Result<usize, Failed>
        ensures faults { faults self.old ≤ faults self.new }
        ensures within { IfOk result (λ k. k ≤ length piece.now) }
        ensures some { IfOk result (λ k. 0 < length piece.now → 0 < k) }
        ensures adds { IfOk result (λ k. (before : List ℕ) → written self.old ≡ Some before
            → written self.new ≡ Some (before ++ take k piece.now)) }
        ensures none { OnErr result (written self.new ≡ written self.old) }
        ensures failed { OnErr result (Rose (faults self.old) (faults self.new)) };
}
