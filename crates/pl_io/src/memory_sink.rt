//! A sink in memory.
ghost use Rattle.std.specs.Prelude.{◌≡◌, ◌<◌, ◌≤◌, ◌+◌, ◌-◌, ◌^◌, ◌++◌, [], ℕ, List, Some, IfOk, OnErr, is_err, length, take};
ghost use Rattle.pl_io.specs.Faults.{Rose, one_more};
ghost use Rattle.pl_io.specs.MemorySinkState.{MemorySinkState, takes, refuses, at_call};

use crate::failed::Failed;
use crate::sink::Sink;
use pl_term::Memory;
use std::alloc::Global;
use std::marker::Model;

/// A sink that keeps what is written in memory. It has the room for a number of bytes that is taken when it is made.
/// Calls of `write` are counted from 0, and a list says which of them are to fail; beside those a call fails where
/// what it would take does not fit into the room any more, and one that takes nothing of a piece.
#[derive(Debug, Drop)]
pub struct MemorySink {
    bytes: Vec<u8>,
    room: usize,
    most: usize,
    calls: u64,
    failing: Vec<u64>,
    faults: u64,
}

impl Model for MemorySink {
    ghost use Rattle.std.specs.Prelude.{◌≤◌, length, vec_capacity};
    ghost use Rattle.pl_io.specs.MemorySinkState.{MemorySinkState};

    ghost Value = { MemorySinkState };

    ghost view = { λ s. record {
      written = s.bytes.items;
      room = s.room;
      most = s.most;
      calls = s.calls;
      failing = s.failing.items;
      faults = s.faults;
    } };

    ghost invariant = { λ s. (length s.bytes.items ≤ s.room) × (s.room ≤ vec_capacity s.bytes) };
}

impl MemorySink {
    /// An empty sink with the room for `room` bytes. The calls with the numbers in `failing` are to fail, counted
    /// from 0. A call takes any number of bytes. The only error is out of memory for the room.
    pub fn with_room(alloc: Global, room: usize, failing: Vec<u64>) -> Result<MemorySink, Memory>
        ensures { IfOk result (λ s. s ≡ record {
          written = [];
          room = room;
          most = usize.MAX;
          calls = 0;
          failing = failing.items;
          faults = 0;
        }) }
    {
        let bytes = Vec::with_capacity(alloc, room)?;
        Ok(MemorySink {
            bytes,
            room,
            most: usize::MAX,
            calls: 0,
            failing,
            faults: 0,
        })
    }

    /// From now on a call takes at most `most` bytes; at 0 it takes none, and fails.
    pub fn take_at_most(&mut self, most: usize)
        ensures { self.new ≡ record self.old { most = most } }
    {
        self.most = most;
    }

    /// The bytes written so far.
    pub fn bytes(&self) -> &[u8]
        ensures { result.now ≡ self.now.written }
    {
        self.bytes.as_slice()
    }

    /// How many calls of `write` failed, up to 2^64 - 1.
    pub fn faults(&self) -> u64
        ensures { result ≡ self.now.faults }
    {
        self.faults
    }

    /// How many calls of `write` there were, up to 2^64 - 1.
    pub fn calls(&self) -> u64
        ensures { result ≡ self.now.calls }
    {
        self.calls
    }

    /// How many bytes of a piece a call takes if it does not fail.
    fn takes(&self, piece: &[u8]) -> usize
        ensures { result ≡ takes self.now piece.now }
    {
        piece.len().min(self.most)
    }

    /// Whether the next call fails with this piece.
    fn refuses(&self, piece: &[u8]) -> bool
        ensures { result ≡ refuses self.now piece.now }
    {
        let k = self.takes(piece);
        if self.failing.contains(&self.calls) {
            return true;
        }
        if self.room - self.bytes.len() < k {
            return true;
        }
        k == 0 && !piece.is_empty()
    }
}

impl Sink for MemorySink {
    ghost written = { λ s. Some s.written };

    ghost faults = { λ s. s.faults };

    /// Takes the front of a piece, as long as a call may take. It fails exactly where the sink says so.
    fn write(&mut self, piece: &[u8]) -> Result<usize, Failed>
        ensures faults { self.old.faults ≤ self.new.faults }
        ensures failed { OnErr result (Rose self.old.faults self.new.faults) }
        ensures fails { is_err result ≡ refuses self.old piece.now }
        ensures count { IfOk result (λ k. k ≡ takes self.old piece.now) }
        ensures ok { IfOk result (λ k. self.new ≡ record (at_call self.old) {
          written = self.old.written ++ take k piece.now;
        }) }
        ensures err { OnErr result (self.new ≡ record (at_call self.old) { faults = one_more self.old.faults }) }
    {
        let is_refused = self.refuses(piece);
        self.calls = self.calls.saturating_add(1);
        if is_refused {
            self.faults = self.faults.saturating_add(1);
            return Err(Failed);
        }
        let k = self.takes(piece);
        match self.bytes.extend_from_slice(&piece[..k]) {
            Ok(()) => Ok(k),
            Err(_) => unreachable!(),
        }
    }
}
