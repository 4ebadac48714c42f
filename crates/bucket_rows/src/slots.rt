//! The sweep of one slot.
ghost use Rattle.std.specs.Prelude.{◌≡◌, ◌≢◌, ◌⊎◌, ℕ, ◌+◌, ◌<◌, ◌≤◌, List, [], ◌∷◌, ◌++◌, length, MatchResult};
ghost use Rattle.atom_words.specs.Layout.{version_of, last};
ghost use Rattle.atom_words.specs.Texts.{bucket, padded};
ghost use Rattle.atom_words.specs.Board.{atom_at};
ghost use Rattle.atom_words.specs.Kinds.{IsAll, after};
ghost use Rattle.atom_words.specs.Seats.{seen, Fits, Same};
ghost use Rattle.atom_words.specs.declared.kind.Kind.{Kind};
ghost use Rattle.atom_words.specs.declared.kind.Kind.TheVariants.{Load, Start, Condemn, PassOver, Free};
ghost use Rattle.bucket_rows.specs.Treads.{spells, AtSlot, Found, Reached};
ghost use Rattle.bucket_rows.specs.SweepKinds.{SweepKinds, Few};
ghost use Rattle.bucket_rows.specs.Sweeps.{JudgedBy, SweptBy};

use crate::removal::unlink;
use crate::rows::row_in_use;
use crate::spells::{row_bucket, spell_row};
use crate::sweeps::{condemn, look, pass, pass_unmarked, trace};
use crate::treads::tread;
use crate::unlinks::free;
use atom_words::{AtomSeat, Words};

/// What the sweep made of a slot.
#[derive(Clone, Copy, Debug, PartialEq, Eq, Drop)]
pub enum Verdict {
    /// It is one of the first 256, and stays as it is.
    Low,
    /// By that word, which was read last, it is not valid, or it is marked or counted.
    Passed(u64),
    /// Nobody uses it, but by that word the head of its bucket has the last version.
    Worn(u64),
    /// Nobody used it, and it is free.
    Freed,
}

// The last version, at which a bucket stays as it is.
const LAST: u64 = 4_398_046_511_103;

// The text of the slot that the sweep has come to is read, and the collector's walk goes to the slot. The slot was found
// valid just before. The answer is 0 where it is the first of its chain, or 1 more than the slot before it; or, where the
// head of its bucket has the last version, that head's word.
fn reach(words: &Words, seat: &mut AtomSeat, slot: u32) -> Result<u64, u64>
    requires fits { Fits words.now seat.old }
    requires slot { slot < words.now.size.slots }
    requires found { Found slot (seen seat.old) }
    ensures same { Same seat.old seat.new }
    ensures fits { Fits words.now seat.new }
    ensures steps { MatchResult result (λ before. (ks : List Kind) × (seen seat.new ≡ after (seen seat.old) ks) × SweepKinds ks × Few words.now.size.slots 33 1 ks) (λ x. (last ≤ version_of x) × ((row : List ℕ) × (s : ℕ) × (seen seat.new ≡ after (seen seat.old) (spells row ++ (Load 1 s ∷ Start (bucket s (padded row)) x ∷ []))) × (length row ≤ 32) × IsAll row)) }
    ensures reached { MatchResult result (λ before. Reached slot seat.new.word before (seen seat.new) × (before ≤ words.now.size.slots)) (λ x. AtSlot slot (seen seat.new)) }
{
    let row = spell_row(words, seat, slot);
    let size = row_in_use(words, seat);
    let word = trace(words, seat, row_bucket(&row, size));
    if word / 4_194_304 >= LAST {
        return Err(word);
    }
    Ok(tread(words, seat, slot))
}

// The slot at which the walk stands is condemned, taken out of its chain, and freed; or it is another word than 3 that was
// found.
fn take_out(words: &Words, seat: &mut AtomSeat, slot: u32, before: u64) -> Result<(), u64>
    requires fits { Fits words.now seat.old }
    requires slot { (slot < words.now.size.slots) × (256 ≤ slot) }
    requires low { before ≤ words.now.size.slots }
    requires reached { Reached slot seat.old.word before (seen seat.old) }
    ensures same { Same seat.old seat.new }
    ensures fits { Fits words.now seat.new }
    ensures steps { MatchResult result (λ _. (ks : List Kind) × (seen seat.new ≡ after (seen seat.old) (Condemn ∷ (ks ++ Free ∷ []))) × SweepKinds ks × Few words.now.size.slots 4 last ks) (λ x. (x ≢ 3) × (seen seat.new ≡ after (seen seat.old) (Load (atom_at words.now.size slot) x ∷ []))) }
    ensures at { AtSlot slot (seen seat.new) }
{
    condemn(words, seat, slot)?;
    unlink(words, seat, slot, before);
    free(words, seat, slot);
    Ok(())
}

// What becomes of the slot that the sweep has come to.
fn judge(words: &Words, seat: &mut AtomSeat, slot: u32) -> Verdict
    requires fits { Fits words.now seat.old }
    requires slot { slot < words.now.size.slots }
    requires at { AtSlot slot (seen seat.old) }
    ensures same { Same seat.old seat.new }
    ensures fits { Fits words.now seat.new }
    ensures steps { JudgedBy slot (seen seat.old) result (seen seat.new) }
    ensures at { AtSlot slot (seen seat.new) }
{
    if slot < 256 {
        return Verdict::Low;
    }
    let found = look(words, seat, slot);
    if found != 3 {
        return Verdict::Passed(found);
    }
    match reach(words, seat, slot) {
        Ok(before) => match take_out(words, seat, slot, before) {
            Ok(()) => Verdict::Freed,
            Err(word) => Verdict::Passed(word),
        },
        Err(word) => Verdict::Worn(word),
    }
}

// Goes on from a slot whose word was just found to be another than 3, by a load where it has no mark. The answer is its word, as
// it was read last before that.
fn pass_kept(words: &Words, seat: &mut AtomSeat, slot: u32, word: u64) -> u64
    requires fits { Fits words.now seat.old }
    requires slot { slot < words.now.size.slots }
    requires at { AtSlot slot (seen seat.old) }
    ensures same { Same seat.old seat.new }
    ensures fits { Fits words.now seat.new }
    ensures steps { (x : ℕ) × (((result ≡ word) × (seen seat.new ≡ after (seen seat.old) (PassOver x ∷ []))) ⊎ ((result ≢ 3) × (seen seat.new ≡ after (seen seat.old) (Load (atom_at words.now.size slot) result ∷ PassOver x ∷ [])))) }
    ensures at { AtSlot (slot + 1) (seen seat.new) }
{
    match pass_unmarked(words, seat, slot) {
        Ok(()) => word,
        Err(marked) => {
            pass(words, seat, slot);
            marked
        }
    }
}

/// Sweeps the slot that the sweep has come to, and goes on to the next: the slot is freed where it is one from 256 on whose
/// word, as it was read last, is valid, without mark and count, in a bucket whose version is not the last. Else its mark is
/// cleared. It makes at most 42 steps, beside the walks over the chain of the slot's bucket, each of which loads no more link
/// words than there are slots: one, and one more each time that another seat has moved the chain's head meanwhile.
pub fn sweep_slot(words: &Words, seat: &mut AtomSeat, slot: u32) -> Verdict
    requires fits { Fits words.now seat.old }
    requires slot { slot < words.now.size.slots }
    requires at { AtSlot slot (seen seat.old) }
    ensures same { Same seat.old seat.new }
    ensures fits { Fits words.now seat.new }
    ensures steps { SweptBy slot (seen seat.old) result (seen seat.new) }
    ensures at { AtSlot (slot + 1) (seen seat.new) }
{
    let verdict = judge(words, seat, slot);
    if let Verdict::Passed(word) = verdict {
        return Verdict::Passed(pass_kept(words, seat, slot, word));
    }
    pass(words, seat, slot);
    verdict
}
