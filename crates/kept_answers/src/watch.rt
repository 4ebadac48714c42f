//! Whether requests come again whose places others have taken meanwhile.

// The mark of so many requests is looked for among those that come next.
const LOOKS: u64 = 1000;

/// The mark of a request that was not answered by what is kept, how many such requests came since, and how often one that was
/// watched has come again, though it was not the last one at its place.
#[derive(Clone, Copy, Drop)]
pub(crate) struct Watch {
    mark: u64,
    looks: u64,
    seen: u64,
}

impl Watch {
    /// Nothing is watched yet: the next request is.
    pub(crate) fn new() -> Watch {
        Watch {
            mark: 0,
            looks: LOOKS,
            seen: 0,
        }
    }

    /// After a request with this mark, which was not answered by what is kept and not the last one at its place.
    pub(crate) fn after(&self, mark: u64) -> Watch {
        if self.looks >= LOOKS {
            return Watch {
                mark,
                looks: 0,
                seen: self.seen,
            };
        }
        if self.mark != mark {
            return Watch {
                mark: self.mark,
                looks: self.looks.wrapping_add(1),
                seen: self.seen,
            };
        }
        Watch {
            mark,
            looks: LOOKS,
            seen: self.seen.wrapping_add(1),
        }
    }

    /// Whether so many have come again that so many places are too few.
    pub(crate) fn has_seen(&self, places: usize) -> bool {
        self.seen > (places / 32) as u64
    }
}
