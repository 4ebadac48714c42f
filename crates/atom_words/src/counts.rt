//! The keeper counts how often stored clauses and messages name a slot.
ghost use Rattle.std.specs.Prelude.{◌≡◌, ◌+◌, ◌<◌, List, [], ◌∷◌, Some};
ghost use Rattle.atom_words.specs.Kinds.{after, counted};
ghost use Rattle.atom_words.specs.Seats.{seen, Fits, Same, Has};
ghost use Rattle.atom_words.specs.declared.view.Held.{Held};
ghost use Rattle.atom_words.specs.declared.view.Counted.{Counted};
ghost use Rattle.atom_words.specs.declared.kind.Kind.TheVariants.{Register, Unregister};

use crate::plays::{Registering, Unregistering};
use crate::words::{AtomSeat, Words};

impl Words {
    /// Counts a slot once more, by one exchange. The seat is the keeper's, and holds the slot, or it is one of the fixed atoms.
    /// The slot's count is below 2^61 - 1.
    pub fn register(&self, seat: &mut AtomSeat, slot: u32)
        requires fits { Fits self.now seat.old }
        requires slot { slot < self.now.size.slots }
        requires held { (a : Held) × Has (seen seat.old) a × (a.slot ≡ slot) }
        requires room { (cs : List Counted) × ((seen seat.old).counts ≡ Some cs) × ((counted cs slot).count < 2305843009213693951) }
        ensures same { Same seat.old seat.new }
        ensures steps { (a : Held) → Has (seen seat.old) a → a.slot ≡ slot → seen seat.new ≡ after (seen seat.old) (Register a ∷ []) }
    {
        let place = self.atom_place(slot);
        self.table
            .shared
            .fetch_add::<Registering>(&mut seat.seat, place, 8);
    }

    /// Counts a slot once less, by one exchange. The seat is the keeper's, and the slot's count is not 0.
    pub fn unregister(&self, seat: &mut AtomSeat, slot: u32)
        requires fits { Fits self.now seat.old }
        requires slot { slot < self.now.size.slots }
        requires counted { (cs : List Counted) × ((seen seat.old).counts ≡ Some cs) × (0 < (counted cs slot).count) }
        ensures same { Same seat.old seat.new }
        ensures steps { seen seat.new ≡ after (seen seat.old) (Unregister slot ∷ []) }
    {
        let place = self.atom_place(slot);
        self.table
            .shared
            .fetch_sub::<Unregistering>(&mut seat.seat, place, 8);
    }
}
