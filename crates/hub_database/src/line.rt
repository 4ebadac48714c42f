//! Where a clause was added, by a sum: integer keys of a procedure whose clauses were added one after the other, each with a key that is
//! greater by one. A hint, which is looked at before it is used.

/// So many calls one after the other make a line sure.
const SURE: u32 = 64;

/// By how much the places of a procedure's clauses are greater than their keys, as the last calls found them.
#[derive(Clone, Copy, Debug, Drop)]
pub(crate) struct Line {
    ahead: u64,
    calls: u32,
}

impl Line {
    /// A line that no call has found.
    pub(crate) fn new() -> Line {
        Line { ahead: 0, calls: 0 }
    }

    /// The place that the line gives for the key, where it is sure.
    pub(crate) fn place(&self, key: i64) -> Option<u64> {
        if self.calls < SURE {
            return None;
        }
        Some(key.cast_unsigned().wrapping_add(self.ahead))
    }

    /// Notes that a call found the clause with the key at the place.
    pub(crate) fn note(&mut self, key: i64, place: u64) {
        let ahead = place.wrapping_sub(key.cast_unsigned());
        if ahead != self.ahead {
            self.ahead = ahead;
            self.calls = 0;
        }
        self.calls = self.calls.saturating_add(1);
    }

    /// Forgets how many calls found it, since one did not.
    pub(crate) fn miss(&mut self) {
        self.calls = 0;
    }
}
