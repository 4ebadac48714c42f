//! The dying slot leaves its chain, after as many tries as that takes.
ghost use Rattle.std.specs.Prelude.{◌≡◌, ℕ, ◌+◌, ◌<◌, ◌≤◌, List};
ghost use Rattle.atom_words.specs.Layout.{last};
ghost use Rattle.atom_words.specs.Kinds.{after};
ghost use Rattle.atom_words.specs.Seats.{seen, Fits, Same};
ghost use Rattle.atom_words.specs.declared.kind.Kind.{Kind};
ghost use Rattle.bucket_rows.specs.SweepKinds.{SweepKinds, Few};
ghost use Rattle.bucket_rows.specs.Treads.{Caught, Behinds, OutOf};

use crate::treads::tread;
use crate::unlinks::{bump, note, read_behind, unlink_at, unlink_head};
use atom_words::{AtomSeat, Words};

// Takes the dying slot out of its chain after the slot `before`, which the walk saw last, and sees to it that the version of
// the chain's head moves. `link` is the dying slot's link word.
fn unlink_after(words: &Words, seat: &mut AtomSeat, slot: u32, before: u32, link: u64)
    requires fits { Fits words.now seat.old }
    requires slot { (slot < words.now.size.slots) × (before < words.now.size.slots) }
    requires caught { Behinds slot seat.old.word (before + 1) link (seen seat.old) }
    ensures same { Same seat.old seat.new }
    ensures fits { Fits words.now seat.new }
    ensures steps { (ks : List Kind) × (seen seat.new ≡ after (seen seat.old) ks) × SweepKinds ks × Few words.now.size.slots 3 0 ks }
    ensures out { OutOf slot (seen seat.new) }
{
    let head = seat.head;
    unlink_at(words, seat, before, link);
    let noted = note(words, seat, head);
    let _moved = bump(words, seat, head, noted);
}

/// Takes the dying slot out of its chain. The collector's walk stands at it, and `before` is 0 where it is the first of its
/// chain, or 1 more than the slot before it. Afterwards the version of the chain's head has moved. Where the head moves as
/// the first slot is to be taken out, the walk is made again: each time the head has a later version.
pub fn unlink(words: &Words, seat: &mut AtomSeat, slot: u32, before: u64)
    requires fits { Fits words.now seat.old }
    requires slot { slot < words.now.size.slots }
    requires low { before ≤ words.now.size.slots }
    requires caught { Caught slot seat.old.word before (seen seat.old) }
    ensures same { Same seat.old seat.new }
    ensures fits { Fits words.now seat.new }
    ensures steps { (ks : List Kind) × (seen seat.new ≡ after (seen seat.old) ks) × SweepKinds ks × Few words.now.size.slots 4 last ks }
    ensures out { OutOf slot (seen seat.new) }
{
    let link = read_behind(words, seat, slot);
    let mut before = before;
    for _i in 0..4_398_046_511_104u64 {
        if before != 0 {
            unlink_after(words, seat, slot, (before - 1) as u32, link);
            return;
        }
        match unlink_head(words, seat, link) {
            Ok(()) => return,
            Err(_) => before = tread(words, seat, slot),
        }
    }
}
