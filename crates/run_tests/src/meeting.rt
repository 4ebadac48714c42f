//! Two engines that meet at a gate.

use std::sync::atomic::AtomicU64;
use std::sync::atomic::Ordering::SeqCst;

/// How often an engine looks whether the other has come.
const TURNS: u32 = 100_000_000;

/// How often engines 2 and 3 came to the gate, and which of them saw, at its second visit, that the other had come to its own.
#[derive(Drop)]
pub struct Meeting {
    second: Place,
    third: Place,
}

#[derive(Drop)]
struct Place {
    visits: AtomicU64,
    met: AtomicU64,
}

impl Place {
    fn new() -> Place {
        Place {
            visits: AtomicU64::new(0),
            met: AtomicU64::new(0),
        }
    }
}

impl Meeting {
    /// No engine has come.
    pub fn new() -> Meeting {
        Meeting {
            second: Place::new(),
            third: Place::new(),
        }
    }

    /// An engine is to make a visit. At its second one it waits a while for the other of the two.
    pub fn come(&self, engine: u64) {
        match engine {
            2 => wait(&self.second, &self.third),
            3 => wait(&self.third, &self.second),
            _ => (),
        }
    }

    /// Whether each of both has seen the other.
    pub fn have_met(&self) -> bool {
        self.second.met.load(SeqCst) == 1 && self.third.met.load(SeqCst) == 1
    }
}

/// The engine of the one place comes, and waits a while for that of the other where this is its second visit.
fn wait(own: &Place, other: &Place) {
    if own.visits.fetch_add(1, SeqCst) == 1 && is_seen(&other.visits) {
        own.met.store(1, SeqCst);
    }
}

/// Whether a second visit was begun, or is before the last turn.
fn is_seen(visits: &AtomicU64) -> bool {
    for _ in 0..TURNS {
        if visits.load(SeqCst) >= 2 {
            return true;
        }
    }
    false
}
