//! Files, read by name and place.
ghost use Rattle.std.specs.Prelude.{◌≡◌, ◌≤◌, ℕ, List, Option, Some, Bool, false, IfOk, OnErr, IsErr, IsTrue, length};
ghost use Rattle.pl_io.specs.Faults.{Rose};
ghost use Rattle.pl_io.specs.Reading.{Reads};

use crate::failed::Failed;
use pl_term::Text;

/// Files that can be read. What is said of their bytes holds where they are told; real files tell none.
pub trait Files {
    /// The bytes of each name, where they are told.
    ghost told: { Self → List ℕ → Option (List ℕ) };

    /// Whether it is told of a name that there is no such file.
    ghost absent: { Self → List ℕ → Bool } = { λ _ _. false };

    /// How often a read of each name has failed, up to 2^64 - 1.
    ghost faults: { Self → List ℕ → ℕ };

    /// Reads from place `at` of a file, in bytes from its beginning, into the front of `buf`, and answers how many
    /// bytes were read: none exactly where `at` is at or past the end of the file, unless `buf` is empty. The rest
    /// of `buf` may hold anything afterwards. No read changes what is told, and a count of faults never falls.
    /// `Failed`: the file is absent or cannot be read; the count of faults of its name rose.
    fn read(&mut self, name: &Text, at: u64, buf: &mut [u8]) -> Result<usize, Failed>
        ensures told { (n : List ℕ) → told self.new n ≡ told self.old n }
        ensures absence { (n : List ℕ) → absent self.new n ≡ absent self.old n }
        ensures faults { (n : List ℕ) → faults self.old n ≤ faults self.new n }
        ensures within { IfOk result (λ k. k ≤ length buf.old) }
        ensures bytes { IfOk result (λ k. (bytes : List ℕ) → told self.old name.now ≡ Some bytes
            → Reads bytes at k (length buf.old) buf.new) }
        ensures absent { IsTrue (absent self.old name.now) → IsErr result }
        ensures failed { OnErr result (Rose (faults self.old name.now) (faults self.new name.now)) };
}
