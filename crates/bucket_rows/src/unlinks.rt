//! The dying slot is taken out of its chain, and freed.
ghost use Rattle.std.specs.Prelude.{◌≡◌, ℕ, ◌+◌, ◌<◌, ◌≤◌, false, true, List, [], ◌∷◌, ◌++◌, Some, MatchResult};
ghost use Rattle.atom_words.specs.Layout.{first_of, version_of, last};
ghost use Rattle.atom_words.specs.Kinds.{Dying, Unlinked, after};
ghost use Rattle.atom_words.specs.Seats.{seen, Fits, Same};
ghost use Rattle.atom_words.specs.declared.view.Held.{Held};
ghost use Rattle.atom_words.specs.declared.view.Walk.{Walk};
ghost use Rattle.atom_words.specs.declared.view.Sweeping.{Sweeping};
ghost use Rattle.atom_words.specs.declared.kind.Kind.TheVariants.{Start, Behind, UnlinkAt, UnlinkHead, Note, Bump, Past, Free};
ghost use Rattle.bucket_rows.specs.Treads.{Ahead};

use crate::plays::{Bumping, Freeing, Noting, ReadingBehind, UnlinkingAt, UnlinkingHead};
use atom_words::{AtomSeat, Words};

/// Loads the dying slot's link word, and answers it.
pub fn read_behind(words: &Words, seat: &mut AtomSeat, slot: u32) -> u64
    requires fits { Fits words.now seat.old }
    requires slot { slot < words.now.size.slots }
    requires dying { (y : Sweeping) × Dying (seen seat.old) y × (y.cursor ≡ slot) }
    ensures same { Same seat.old seat.new }
    ensures steps { seen seat.new ≡ after (seen seat.old) (Behind result ∷ []) }
    ensures small { result < 2097152 }
{
    let place = words.link_place(slot);
    words
        .table
        .shared
        .load::<ReadingBehind>(&mut seat.seat, place)
}

/// Takes the dying slot out of its chain, by one store: the slot `before`, which the collector's walk saw last, gets the
/// dying slot's link word.
pub fn unlink_at(words: &Words, seat: &mut AtomSeat, before: u32, link: u64)
    requires fits { Fits words.now seat.old }
    requires slot { before < words.now.size.slots }
    requires dying { (y : Sweeping) × (w : Walk) × Dying (seen seat.old) y × (y.behind ≡ Some link) × ((seen seat.old).walk ≡ Some w) × (w.place ≡ y.cursor + 1) × ((front : List Held) × (a : Held) × (w.seen ≡ front ++ a ∷ []) × (a.slot ≡ before)) }
    ensures same { Same seat.old seat.new }
    ensures steps { seen seat.new ≡ after (seen seat.old) (UnlinkAt before ∷ []) }
{
    let place = words.link_place(before);
    words
        .table
        .shared
        .store::<UnlinkingAt>(&mut seat.seat, place, link);
}

/// Takes the dying slot out of its chain, by one exchange, where the head is still the word with which the collector's walk
/// began: the dying slot is its first.
///
/// # Errors
/// The head's word, which has a later version that is not the last. A new walk then begins there.
pub fn unlink_head(words: &Words, seat: &mut AtomSeat, link: u64) -> Result<(), u64>
    requires fits { Fits words.now seat.old }
    requires link { link < 2097152 }
    requires dying { (y : Sweeping) × (w : Walk) × Dying (seen seat.old) y × (y.behind ≡ Some link) × ((seen seat.old).walk ≡ Some w) × (first_of w.word ≡ y.cursor + 1) × (version_of w.word < last) }
    ensures same { Same seat.old seat.new }
    ensures steps { MatchResult result (λ _. seen seat.new ≡ after (seen seat.old) (UnlinkHead ∷ [])) (λ x. (w : Walk) → (seen seat.old).walk ≡ Some w → (version_of w.word < version_of x) × (version_of x < last) × (seen seat.new ≡ after (seen seat.old) (Start w.head x ∷ []))) }
    ensures walk { (seat.new.head ≡ seat.old.head) × MatchResult result (λ _. Unit {0}) (λ x. (seat.new.word ≡ x) × Ahead (seen seat.new)) }
{
    let place = words.head_place(seat.head);
    let old = seat.word;
    let new = link + 2_097_152 * (old / 2_097_152 % 2) + 4_194_304 * (old / 4_194_304 + 1);
    let found = words
        .table
        .shared
        .compare_exchange::<UnlinkingHead>(&mut seat.seat, place, old, new);
    if found == old {
        Ok(())
    } else {
        seat.word = found;
        Err(found)
    }
}

/// Loads the head of the chain that the dying slot was taken out of, and answers its word.
pub fn note(words: &Words, seat: &mut AtomSeat, head: u32) -> u64
    requires fits { Fits words.now seat.old }
    requires head { head < words.now.size.heads }
    requires unlinked { (y : Sweeping) × Unlinked (seen seat.old) y × (y.head ≡ head) }
    ensures same { Same seat.old seat.new }
    ensures steps { seen seat.new ≡ after (seen seat.old) (Note result ∷ []) }
    ensures early { (y : Sweeping) → (seen seat.old).sweep ≡ Some y → y.past ≡ false → version_of result < last }
{
    let place = words.head_place(head);
    words.table.shared.load::<Noting>(&mut seat.seat, place)
}

/// Moves the version of that head, by one exchange, where the head is still the word that was noted.
///
/// # Errors
/// The head's word, which has a later version.
pub fn bump(words: &Words, seat: &mut AtomSeat, head: u32, noted: u64) -> Result<(), u64>
    requires fits { Fits words.now seat.old }
    requires head { head < words.now.size.heads }
    requires room { version_of noted < last }
    requires unlinked { (y : Sweeping) × Unlinked (seen seat.old) y × (y.past ≡ false) × (y.noted ≡ Some noted) × (y.head ≡ head) }
    ensures same { Same seat.old seat.new }
    ensures steps { MatchResult result (λ _. seen seat.new ≡ after (seen seat.old) (Bump ∷ [])) (λ x. seen seat.new ≡ after (seen seat.old) (Past x ∷ [])) }
{
    let place = words.head_place(head);
    let found = words
        .table
        .shared
        .compare_exchange::<Bumping>(&mut seat.seat, place, noted, noted + 4_194_304);
    if found == noted { Ok(()) } else { Err(found) }
}

/// Makes the dying slot free, which is out of its chain, and whose head's version has moved since.
pub fn free(words: &Words, seat: &mut AtomSeat, slot: u32)
    requires fits { Fits words.now seat.old }
    requires slot { slot < words.now.size.slots }
    requires past { (y : Sweeping) × Unlinked (seen seat.old) y × (y.past ≡ true) × (y.cursor ≡ slot) }
    ensures same { Same seat.old seat.new }
    ensures steps { seen seat.new ≡ after (seen seat.old) (Free ∷ []) }
{
    let place = words.atom_place(slot);
    words
        .table
        .shared
        .store::<Freeing>(&mut seat.seat, place, 0);
}
