//! Files in memory.
ghost use Rattle.std.specs.Prelude.{◌≡◌, ◌≤◌, ◌-◌, [], ℕ, List, Some, true, false, IfOk, MatchOption, OnOk, OnErr, IsErr, IsTrue, is_err, length, min, position};
ghost use Rattle.pl_io.specs.Faults.{Rose, one_more};
ghost use Rattle.pl_io.specs.MemoryFilesState.{is_named, content, is_absent, fault_count, fails, CountsFault, Puts, at_call};
ghost use Rattle.pl_io.specs.Reading.{Reads};

use crate::bytes::Bytes;
use crate::failed::Failed;
use crate::files::Files;
use crate::one_text::copy_out;
use pl_term::{Memory, Text};
use std::alloc::Global;
use std::marker::Model;

/// Files in memory, by their names. Calls of `read` are counted from 0, and a list says which of them are to fail;
/// beside those a read fails where there is no file of its name. Each file has its own count of faults, and all
/// names that have none share one.
#[derive(Debug, Drop)]
pub struct MemoryFiles {
    files: Vec<MemoryFile>,
    other_faults: u64,
    calls: u64,
    failing: Vec<u64>,
}

impl Model for MemoryFiles {
    ghost use Rattle.pl_io.specs.MemoryFilesState.{MemoryFilesState};

    ghost Value = { MemoryFilesState };

    ghost view = { λ m. record {
      files = m.files.items;
      other_faults = m.other_faults;
      calls = m.calls;
      failing = m.failing.items;
    } };
}

/// A file in memory.
#[derive(Debug, Drop)]
struct MemoryFile {
    name: Text,
    bytes: Bytes,
    faults: u64,
}

impl MemoryFile {
    /// One read of this file failed.
    fn count_fault(&mut self)
        ensures counts { self.new ≡ record self.old { faults = one_more self.old.faults } }
        ensures rises { self.old.faults ≤ self.new.faults }
    {
        self.faults = self.faults.saturating_add(1);
    }
}

impl MemoryFiles {
    /// No files yet. The calls of `read` with the numbers in `failing` are to fail, counted from 0.
    pub fn new(alloc: Global, failing: Vec<u64>) -> MemoryFiles
        ensures { result ≡ record { files = []; other_faults = 0; calls = 0; failing = failing.items } }
    {
        MemoryFiles {
            files: Vec::new(alloc),
            other_faults: 0,
            calls: 0,
            failing,
        }
    }

    /// Puts a file with these bytes under a name, in the place of one that is there. The counts of faults and calls
    /// stay. The only error is out of memory, and then nothing has changed.
    pub fn insert(&mut self, name: Text, bytes: Bytes) -> Result<(), Memory>
        ensures puts { OnOk result (Puts self.old name bytes self.new) }
        ensures unchanged { OnErr result (self.new ≡ self.old) }
    {
        match place(self.files.as_slice(), &name) {
            Some(i) => self.files[i].bytes = bytes,
            None => {
                let faults = self.other_faults;
                self.files.push(MemoryFile {
                    name,
                    bytes,
                    faults,
                })?
            }
        }
        Ok(())
    }

    /// How many calls of `read` with this name failed, up to 2^64 - 1; for a name that has no file, with any such.
    pub fn faults(&self, name: &Text) -> u64
        ensures { result ≡ fault_count self.now name.now }
    {
        match place(self.files.as_slice(), name) {
            Some(i) => self.files[i].faults,
            None => self.other_faults,
        }
    }

    /// How many calls of `read` there were, up to 2^64 - 1.
    pub fn calls(&self) -> u64
        ensures { result ≡ self.now.calls }
    {
        self.calls
    }

    /// The place of the file that the next call reads with this name, if it does not fail.
    fn source(&self, name: &Text) -> Option<usize>
        ensures { MatchOption result (fails self.now name.now ≡ true)
            (λ i. (fails self.now name.now ≡ false) × (position (is_named name.now) self.now.files ≡ Some i)) }
    {
        if self.failing.contains(&self.calls) {
            return None;
        }
        place(self.files.as_slice(), name)
    }

    /// The file of this name has one fault more, or the names that have none.
    fn count_fault(&mut self, name: &Text)
        ensures { CountsFault self.old name.now self.new }
    {
        match place(self.files.as_slice(), name) {
            Some(i) => self.files[i].count_fault(),
            None => self.other_faults = self.other_faults.saturating_add(1),
        }
    }
}

impl Files for MemoryFiles {
    ghost told = { content };

    ghost absent = { is_absent };

    ghost faults = { fault_count };

    /// Reads as much as there is and as fits into `buf`. It fails exactly where the files say so.
    fn read(&mut self, name: &Text, at: u64, buf: &mut [u8]) -> Result<usize, Failed>
        ensures told { (n : List ℕ) → content self.new n ≡ content self.old n }
        ensures absence { (n : List ℕ) → is_absent self.new n ≡ is_absent self.old n }
        ensures faults { (n : List ℕ) → fault_count self.old n ≤ fault_count self.new n }
        ensures within { IfOk result (λ k. k ≤ length buf.old) }
        ensures bytes { IfOk result (λ k. (bytes : List ℕ) → content self.old name.now ≡ Some bytes
            → Reads bytes at k (length buf.old) buf.new) }
        ensures absent { IsTrue (is_absent self.old name.now) → IsErr result }
        ensures failed { OnErr result (Rose (fault_count self.old name.now) (fault_count self.new name.now)) }
        ensures fails { is_err result ≡ fails self.old name.now }
        ensures full { IfOk result (λ k. (bytes : List ℕ) → content self.old name.now ≡ Some bytes
            → k ≡ min (length buf.old) (length bytes - at)) }
        ensures ok { OnOk result (self.new ≡ at_call self.old) }
        ensures err { OnErr result (CountsFault (at_call self.old) name.now self.new) }
    {
        let found = self.source(name);
        self.calls = self.calls.saturating_add(1);
        match found {
            Some(i) => Ok(copy_out(self.files[i].bytes.as_slice(), at, buf)),
            None => {
                self.count_fault(name);
                Err(Failed)
            }
        }
    }
}

/// The place of the first file with this name.
fn place(files: &[MemoryFile], name: &Text) -> Option<usize>
    ensures { result ≡ position (is_named name.now) files.now }
{
    files.iter().position(|f| f.name.same(name))
}
