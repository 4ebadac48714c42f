//! The steps of a sweep at the slot that it has come to.
ghost use Rattle.std.specs.Prelude.{◌≡◌, ◌≢◌, ℕ, ◌+◌, ◌<◌, ◌≤◌, [], ◌∷◌, Some, MatchResult};
ghost use Rattle.atom_words.specs.Layout.{mark_of, version_of, last};
ghost use Rattle.atom_words.specs.Board.{atom_at};
ghost use Rattle.atom_words.specs.Kinds.{Sweeps, after};
ghost use Rattle.atom_words.specs.Seats.{seen, Fits, Same};
ghost use Rattle.atom_words.specs.declared.view.Walk.{Walk};
ghost use Rattle.atom_words.specs.declared.view.Sweeping.{Sweeping};
ghost use Rattle.atom_words.specs.declared.kind.Kind.TheVariants.{Load, Start, Look, Condemn, PassOver, End};
ghost use Rattle.bucket_rows.specs.Sweeps.{At};
ghost use Rattle.bucket_rows.specs.Treads.{Ahead};

use crate::plays::{Condemning, Ending, Looking, Passing, PassingUnmarked, Tracing};
use atom_words::{AtomSeat, Words};

/// Loads the word of the slot that the sweep has come to, and answers it.
pub fn look(words: &Words, seat: &mut AtomSeat, slot: u32) -> u64
    requires fits { Fits words.now seat.old }
    requires slot { slot < words.now.size.slots }
    requires at { At slot (seen seat.old) }
    ensures same { Same seat.old seat.new }
    ensures steps { seen seat.new ≡ after (seen seat.old) (Look result ∷ []) }
{
    let place = words.atom_place(slot);
    words.table.shared.load::<Looking>(&mut seat.seat, place)
}

/// Clears the mark of the slot that the sweep has come to, by one exchange, goes on to the next slot, and answers the word
/// that was found.
pub fn pass(words: &Words, seat: &mut AtomSeat, slot: u32) -> u64
    requires fits { Fits words.now seat.old }
    requires slot { slot < words.now.size.slots }
    requires at { At slot (seen seat.old) }
    ensures same { Same seat.old seat.new }
    ensures steps { seen seat.new ≡ after (seen seat.old) (PassOver result ∷ []) }
{
    let place = words.atom_place(slot);
    words
        .table
        .shared
        .fetch_and::<Passing>(&mut seat.seat, place, 18_446_744_073_709_551_611)
}

/// Goes on to the next slot by a load of the word of the slot that the sweep has come to, where it has no mark.
///
/// # Errors
/// The word that was found, which has its mark set. The sweep does not go on.
pub fn pass_unmarked(words: &Words, seat: &mut AtomSeat, slot: u32) -> Result<(), u64>
    requires fits { Fits words.now seat.old }
    requires slot { slot < words.now.size.slots }
    requires at { At slot (seen seat.old) }
    ensures same { Same seat.old seat.new }
    ensures steps { MatchResult result (λ _. (x : ℕ) × (mark_of x ≡ 0) × (seen seat.new ≡ after (seen seat.old) (PassOver x ∷ []))) (λ x. (mark_of x ≢ 0) × (seen seat.new ≡ after (seen seat.old) (Load (atom_at words.now.size slot) x ∷ []))) }
{
    let place = words.atom_place(slot);
    let found = words
        .table
        .shared
        .load::<PassingUnmarked>(&mut seat.seat, place);
    if found / 4 % 2 == 0 {
        Ok(())
    } else {
        Err(found)
    }
}

/// Begins a walk of the collector's over the chain of a head, while the cycle sweeps, and answers the head's word.
pub fn trace(words: &Words, seat: &mut AtomSeat, head: u32) -> u64
    requires fits { Fits words.now seat.old }
    requires head { head < words.now.size.heads }
    requires collector { (y : Sweeping) × Sweeps (seen seat.old) y }
    ensures same { Same seat.old seat.new }
    ensures steps { seen seat.new ≡ after (seen seat.old) (Start head result ∷ []) }
    ensures ahead { Ahead (seen seat.new) }
{
    let place = words.head_place(head);
    let word = words.table.shared.load::<Tracing>(&mut seat.seat, place);
    seat.head = head;
    seat.word = word;
    word
}

/// Condemns the slot that the sweep has come to, by one exchange: it is valid, without mark and count. The collector's walk
/// stands at it, and did not begin at the last version.
///
/// # Errors
/// The word that was found, where it is another than 3.
pub fn condemn(words: &Words, seat: &mut AtomSeat, slot: u32) -> Result<(), u64>
    requires fits { Fits words.now seat.old }
    requires slot { (slot < words.now.size.slots) × (256 ≤ slot) }
    requires at { At slot (seen seat.old) }
    requires walk { (w : Walk) × ((seen seat.old).walk ≡ Some w) × (w.place ≡ slot + 1) × (version_of w.word < last) }
    ensures same { Same seat.old seat.new }
    ensures steps { MatchResult result (λ _. seen seat.new ≡ after (seen seat.old) (Condemn ∷ [])) (λ x. (x ≢ 3) × (seen seat.new ≡ after (seen seat.old) (Load (atom_at words.now.size slot) x ∷ []))) }
{
    let place = words.atom_place(slot);
    let found = words
        .table
        .shared
        .compare_exchange::<Condemning>(&mut seat.seat, place, 3, 2);
    if found == 3 { Ok(()) } else { Err(found) }
}

/// Ends the sweep, which has passed all slots: the cycle is idle. `word` is the epoch word.
pub fn finish(words: &Words, seat: &mut AtomSeat, word: u64)
    requires fits { Fits words.now seat.old }
    requires all { (y : Sweeping) × Sweeps (seen seat.old) y × (y.dying ≡ 0) × (y.cursor ≡ words.now.size.slots) × (y.word ≡ word) }
    ensures same { Same seat.old seat.new }
    ensures steps { seen seat.new ≡ after (seen seat.old) (End ∷ []) }
{
    words
        .table
        .shared
        .store::<Ending>(&mut seat.seat, 0, word - 2);
}
