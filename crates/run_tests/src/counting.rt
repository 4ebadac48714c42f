//! A gate that counts.

use crate::meeting::Meeting;
use pl_io::Gate;
use std::sync::atomic::AtomicU64;
use std::sync::atomic::Ordering::SeqCst;

/// A gate that counts its calls, and apart from them those that are not for engine 1; and at which engines 2 and 3 meet, where they
/// are to.
#[derive(Drop)]
pub struct Counting {
    visits: AtomicU64,
    others: AtomicU64,
    meeting: Option<Meeting>,
}

impl Counting {
    /// A gate that was not called yet.
    pub fn new(meets: bool) -> Counting {
        Counting {
            visits: AtomicU64::new(0),
            others: AtomicU64::new(0),
            meeting: if meets { Some(Meeting::new()) } else { None },
        }
    }

    /// Both counts.
    pub fn counts(&self) -> (u64, u64) {
        (self.visits.load(SeqCst), self.others.load(SeqCst))
    }

    /// Whether the engines that are to meet have done so.
    pub fn have_met(&self) -> bool {
        match &self.meeting {
            Some(meeting) => meeting.have_met(),
            None => true,
        }
    }
}

impl Gate for Counting {
    fn before_visit(&self, _worker: u32, engine: u64) {
        self.visits.fetch_add(1, SeqCst);
        if engine != 1 {
            self.others.fetch_add(1, SeqCst);
        }
        if let Some(meeting) = &self.meeting {
            meeting.come(engine);
        }
    }
}
