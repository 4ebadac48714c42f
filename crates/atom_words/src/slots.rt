//! Slots are taken, made valid, given back and marked.
ghost use Rattle.std.specs.Prelude.{◌≡◌, ◌≢◌, ◌⊎◌, ℕ, ◌%◌, ◌+◌, ◌^◌, ◌<◌, ◌≤◌, true, false, None, Some, List, [], ◌∷◌, ◌++◌, MatchResult};
ghost use Rattle.atom_words.specs.Layout.{state_of};
ghost use Rattle.atom_words.specs.Board.{atom_at};
ghost use Rattle.atom_words.specs.Kinds.{IsLeft, Sitting, view_after, after, next_first, next_counted};
ghost use Rattle.atom_words.specs.Plays.{Alone};
ghost use Rattle.atom_words.specs.Seats.{seen, Fits, Same, Reserves, FindsTaken};
ghost use Rattle.atom_words.specs.declared.kind.Kind.{Kind};
ghost use Rattle.atom_words.specs.declared.kind.Kind.TheVariants.{Reserve, Load, Refused, Validate, Release, Protect};
ghost use Rattle.atom_words.specs.declared.view.Own.{Own};
ghost use Rattle.atom_words.specs.declared.view.View.{View};

use crate::plays::{Protecting, Releasing, Reserving, SeeingFree, Validating};
use crate::view::View;
use crate::words::{AtomSeat, Words};
use atomic_table::Seat;

// The slot that a pass counted first, after one more was found taken.
fn next_first(slot: u32, first: u32, counted: u32) -> u32
    ensures { result ≡ next_first slot first counted }
{
    if counted == 0 { slot } else { first }
}

/// A place in a circle of so many: what is left of it, without a division where that is less than once round.
pub fn in_circle(place: u64, slots: u64) -> u64
    requires { 0 < slots }
    ensures { result ≡ place % slots }
{
    if place < slots {
        place
    } else if place - slots < slots {
        place - slots
    } else {
        place % slots
    }
}

// How many slots a pass has counted, after one more was found taken.
fn next_counted(slots: u64, slot: u32, first: u32, counted: u32) -> u32
    requires { (0 < slots) × (slots < 2 ^ 32) }
    ensures { result ≡ next_counted slots slot first counted }
{
    if counted == 0 {
        1
    } else if (counted as u64) < slots
        && slot as u64 == in_circle(first as u64 + counted as u64, slots)
    {
        counted + 1
    } else {
        counted
    }
}

impl Words {
    // The load of a slot's word. One that is not free is counted by the pass at hand, where there is one.
    fn see_free(&self, seat: &mut Seat<(), View>, slot: u32) -> u64
        requires fits { (seat.old.table_id ≡ self.now.table.shared.table_id) × (seat.old.me.0.size ≡ self.now.size) × (seat.old.me.0.gone ≡ false) }
        requires slot { slot < self.now.size.slots }
        ensures same { (seat.new.table_id ≡ seat.old.table_id) × (seat.new.id ≡ seat.old.id) × (seat.new.me.1 ≡ seat.old.me.1) }
        ensures free { state_of result ≡ 0 → seat.new.me.0 ≡ view_after seat.old.me.0 (Load (atom_at seat.old.me.0.size slot) result) }
        ensures taken { state_of result ≢ 0 → seat.new.me.0 ≡ view_after seat.old.me.0 (Refused slot 0 result) }
    {
        let place = self.atom_place(slot);
        self.table.shared.load::<SeeingFree>(seat, place)
    }

    // The exchange of a free slot's word, which was loaded just before.
    fn exchange_free(&self, seat: &mut Seat<(), View>, slot: u32, free: u64) -> u64
        requires fits { (seat.old.table_id ≡ self.now.table.shared.table_id) × (seat.old.me.0.size ≡ self.now.size) × (seat.old.me.0.gone ≡ false) }
        requires slot { slot < self.now.size.slots }
        requires none { seat.old.me.0.own ≡ None }
        requires free { state_of free ≡ 0 }
        requires loaded { (before : List Kind) × (seat.old.me.0.made ≡ before ++ Load (atom_at seat.old.me.0.size slot) free ∷ []) }
        ensures same { (seat.new.table_id ≡ seat.old.table_id) × (seat.new.id ≡ seat.old.id) × (seat.new.me.1 ≡ seat.old.me.1) }
        ensures took { result ≡ free → seat.new.me.0 ≡ view_after seat.old.me.0 (Reserve slot) }
        ensures lost { result ≢ free → seat.new.me.0 ≡ view_after seat.old.me.0 (Refused slot free result) }
    {
        let place = self.atom_place(slot);
        self.table
            .shared
            .compare_exchange::<Reserving>(seat, place, free, 1)
    }

    /// Takes a free slot for the seat, by an exchange of its word, which a load finds free: so a slot that is not free is only
    /// read.
    ///
    /// # Errors
    /// The word that was found, where the slot is not free, or where it was free and another seat took it meanwhile. Where a
    /// pass is at hand, the slot is counted.
    pub fn reserve(&self, seat: &mut AtomSeat, slot: u32) -> Result<(), u64>
        requires fits { Fits self.now seat.old }
        requires slot { slot < self.now.size.slots }
        requires none { (seen seat.old).own ≡ None }
        ensures same { Same seat.old seat.new }
        ensures steps { MatchResult result (λ _. Reserves (seen seat.old) slot (seen seat.new)) (λ x. FindsTaken (seen seat.old) slot x (seen seat.new)) }
    {
        let mut found = self.see_free(&mut seat.seat, slot);
        if found % 4 == 0 {
            let free = found;
            found = self.exchange_free(&mut seat.seat, slot, free);
            if found == free {
                seat.own = slot;
                return Ok(());
            }
        }
        let first = next_first(slot, seat.first, seat.counted);
        seat.counted = next_counted(self.size.slots, slot, seat.first, seat.counted);
        seat.first = first;
        Err(found)
    }

    /// Makes the seat's own slot valid, with its mark set, and answers it. The seat then holds it: it is an engine's, or
    /// engines' seats are still to be dealt from it. No other slot that it holds has that text.
    pub fn validate(&self, seat: &mut AtomSeat) -> u32
        requires fits { Fits self.now seat.old }
        requires linked { (o : Own) × ((seen seat.old).own ≡ Some o) × (o.linked ≡ true) }
        requires sitting { Sitting (seen seat.old) }
        ensures same { Same seat.old seat.new }
        ensures steps { seen seat.new ≡ after (seen seat.old) (Validate ∷ []) }
        ensures slot { (o : Own) → (seen seat.old).own ≡ Some o → result ≡ o.slot }
        ensures alone { (o : Own) → (seen seat.old).own ≡ Some o → Alone (seen seat.old) o.slot o.text }
    {
        let place = self.atom_place(seat.own);
        self.table
            .shared
            .store::<Validating>(&mut seat.seat, place, 7);
        seat.own
    }

    /// Gives the seat's own slot back, which is not linked, and has no text yet or a whole one.
    pub fn release(&self, seat: &mut AtomSeat)
        requires fits { Fits self.now seat.old }
        requires unlinked { (o : Own) × ((seen seat.old).own ≡ Some o) × (o.linked ≡ false) × IsLeft o.text }
        ensures same { Same seat.old seat.new }
        ensures steps { seen seat.new ≡ after (seen seat.old) (Release ∷ []) }
    {
        let place = self.atom_place(seat.own);
        self.table
            .shared
            .store::<Releasing>(&mut seat.seat, place, 0);
    }

    /// Sets a slot's mark, by one exchange, whatever the phase of the cycle.
    ///
    /// # Errors
    /// The word that was found, where the slot is not valid; its mark is set all the same.
    pub fn protect(&self, seat: &mut AtomSeat, slot: u32) -> Result<(), u64>
        requires fits { Fits self.now seat.old }
        requires slot { slot < self.now.size.slots }
        ensures same { Same seat.old seat.new }
        ensures steps { MatchResult result (λ _. (x : ℕ) × (state_of x ≡ 3) × (seen seat.new ≡ after (seen seat.old) (Protect slot x ∷ []))) (λ x. (state_of x ≢ 3) × (seen seat.new ≡ after (seen seat.old) (Protect slot x ∷ []))) }
    {
        let place = self.atom_place(slot);
        let found = self
            .table
            .shared
            .fetch_or::<Protecting>(&mut seat.seat, place, 4);
        if found % 4 == 3 { Ok(()) } else { Err(found) }
    }
}
