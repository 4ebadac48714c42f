//! A pass over all slots, which counts those that are taken.
ghost use Rattle.std.specs.Prelude.{◌≡◌, ℕ, [], ◌∷◌, Some};
ghost use Rattle.atom_words.specs.Kinds.{after, full};
ghost use Rattle.atom_words.specs.Seats.{seen, Fits, Same, answered};
ghost use Rattle.atom_words.specs.declared.view.Passing.{Passing};
ghost use Rattle.atom_words.specs.declared.kind.Kind.TheVariants.{StartPass, EndPass};

use crate::plays::{EndingPass, StartingPass};
use crate::view::Pass;
use crate::words::{AtomSeat, Words};

impl Words {
    /// Begins a pass over all slots, which has counted none. It loads the epoch word.
    pub fn start_pass(&self, seat: &mut AtomSeat)
        requires fits { Fits self.now seat.old }
        ensures same { Same seat.old seat.new }
        ensures steps { (x : ℕ) × (seen seat.new ≡ after (seen seat.old) (StartPass x ∷ [])) }
    {
        seat.began = self.table.shared.load::<StartingPass>(&mut seat.seat, 0);
        seat.first = 0;
        seat.counted = 0;
    }

    /// Ends the pass at hand, and loads the epoch word again. It answers a `Pass` exactly where `reserve` found all slots
    /// taken since `start_pass`, one after the other from some slot on; that pass then stands in the seat's list of refusals.
    pub fn end_pass(&self, seat: &mut AtomSeat) -> Option<Pass>
        requires fits { Fits self.now seat.old }
        requires at_hand { (p : Passing) × ((seen seat.old).pass ≡ Some p) }
        ensures same { Same seat.old seat.new }
        ensures steps { (x : ℕ) × (seen seat.new ≡ after (seen seat.old) (EndPass x ∷ [])) × (answered result ≡ full (seen seat.old) x (seen seat.old).pass) }
    {
        let ended = self.table.shared.load::<EndingPass>(&mut seat.seat, 0);
        if seat.counted as u64 == self.size.slots {
            Some(Pass {
                counted: seat.counted as u64,
                seat: seat.engine,
                began: seat.began,
                ended,
            })
        } else {
            None
        }
    }
}
