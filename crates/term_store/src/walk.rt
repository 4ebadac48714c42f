//! Room for walks through terms.
use crate::meetings::Meetings;
use crate::pace::Pace;
use crate::seen::Seen;
use crate::words::{Rest, Word};
use std::alloc::Global;

/// The words that are still to be looked at, how many compound terms the walk has come by, and those of them that it came by
/// once it was long.
#[derive(Drop)]
pub struct Walk {
    pub words: Vec<Word>,
    pub pace: Pace,
    pub seen: Seen,
}

impl Walk {
    /// An empty room.
    pub fn new(alloc: Global) -> Walk {
        Walk {
            words: Vec::new(alloc),
            pace: Pace::new(),
            seen: Seen::new(alloc),
        }
    }
}

/// The arguments that are still to become equal and not in hand, how many pairs of compound terms the unification has come by, by
/// the first and by the second of each, and those of them that it came by once it was long.
#[derive(Drop)]
pub struct Pending {
    pub rests: Vec<Rest>,
    pub left: Pace,
    pub right: Pace,
    pub met: Meetings,
}

impl Pending {
    /// An empty room.
    pub fn new(alloc: Global) -> Pending {
        Pending {
            rests: Vec::new(alloc),
            left: Pace::new(),
            right: Pace::new(),
            met: Meetings::new(alloc),
        }
    }
}
