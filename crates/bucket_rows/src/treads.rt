//! The collector's walk to the slot that the sweep has come to.
ghost use Rattle.std.specs.Prelude.{◌≡◌, ℕ, ◌+◌, ◌<◌, ◌≤◌, false, List, [], ◌∷◌, length};
ghost use Rattle.atom_words.specs.Layout.{first_of};
ghost use Rattle.atom_words.specs.Kinds.{after};
ghost use Rattle.atom_words.specs.Seats.{seen, Fits, Same};
ghost use Rattle.bucket_rows.specs.Treads.{nexts, Ahead, Treads};

use crate::plays::Treading;
use atom_words::{AtomSeat, View, Words};
use atomic_table::Seat;

// Walks on from the first slot of the chain.
fn tread_chain(words: &Words, seat: &mut Seat<(), View>, slot: u32, word: u64) -> u64
    requires fits { (seat.old.table_id ≡ words.now.table.shared.table_id) × (seat.old.me.0.size ≡ words.now.size) × (seat.old.me.0.gone ≡ false) }
    requires slot { slot < words.now.size.slots }
    requires start { Treads slot word 0 0 (first_of word) seat.old.me.0 }
    requires ahead { Ahead seat.old.me.0 }
    ensures same { (seat.new.table_id ≡ seat.old.table_id) × (seat.new.id ≡ seat.old.id) × (seat.new.me.1 ≡ seat.old.me.1) }
    ensures steps { (links : List ℕ) × (seat.new.me.0 ≡ after seat.old.me.0 (nexts links)) × (length links ≤ words.now.size.slots) }
    ensures stands { (n : ℕ) × Treads slot word n result (slot + 1) seat.new.me.0 }
    ensures low { result ≤ words.now.size.slots }
{
    let mut place = word % 2_097_152;
    let mut before = 0u64;
    for _i in 0..words.size.slots {
        if place == slot as u64 + 1 {
            return before;
        }
        let link = words.link_place((place - 1) as u32);
        before = place;
        place = words.table.shared.load::<Treading>(seat, link);
    }
    before
}

/// Walks over the chain of the bucket of the slot that the sweep has come to, whose text is spelled, up to that slot. The
/// walk has just begun. The answer is 0 where the slot is the first, or 1 more than the slot before it. The walk never
/// misses the slot, since the collector alone takes slots out of chains, and loads at most as many link words as there are
/// slots.
pub fn tread(words: &Words, seat: &mut AtomSeat, slot: u32) -> u64
    requires fits { Fits words.now seat.old }
    requires slot { slot < words.now.size.slots }
    requires start { Treads slot seat.old.word 0 0 (first_of seat.old.word) (seen seat.old) }
    requires ahead { Ahead (seen seat.old) }
    ensures same { Same seat.old seat.new }
    ensures walk { (seat.new.head ≡ seat.old.head) × (seat.new.word ≡ seat.old.word) }
    ensures steps { (links : List ℕ) × (seen seat.new ≡ after (seen seat.old) (nexts links)) × (length links ≤ words.now.size.slots) }
    ensures stands { (n : ℕ) × Treads slot seat.old.word n result (slot + 1) (seen seat.new) }
    ensures low { result ≤ words.now.size.slots }
{
    let word = seat.word;
    tread_chain(words, &mut seat.seat, slot, word)
}
