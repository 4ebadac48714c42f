//! How far a walk has come.

/// How many terms a walk comes by before their numbers are looked at.
const FEW: usize = 32;

/// How many terms a walk comes by, at the most, before it counts as long.
const MANY: usize = 100_000;

/// How many compound terms a walk has come by, and the lowest and the highest of the numbers of all but the first few.
#[derive(Drop)]
pub struct Pace {
    count: usize,
    low: usize,
    high: usize,
}

impl Pace {
    /// The pace at the start of a walk.
    pub fn new() -> Pace {
        Pace {
            count: 0,
            low: usize::MAX,
            high: 0,
        }
    }

    /// Counts a term that the walk comes by. The answer is whether the walk is long: after the first few it has come by
    /// more terms than there are numbers from the lowest to the highest, so by one of them twice, or it has come by very
    /// many.
    pub fn is_long(&mut self, k: usize) -> bool {
        let before = self.count;
        self.count = before.wrapping_add(1);
        if before < FEW {
            return false;
        }
        self.low = self.low.min(k);
        self.high = self.high.max(k);
        before > MANY || before - FEW > self.high.saturating_sub(self.low)
    }
}
