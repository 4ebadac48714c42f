//! What shows that an engine ends for want of atoms.
ghost use Rattle.std.specs.Prelude.{◌≡◌, ◌↔◌, ℕ, IfSome, true};
ghost use Rattle.run_model.specs.AtomRecords.{IsAfterCycle, IsTrue, epoch_of, last_epoch, worn_version};

use pl_model::ends::{AtomRecord, SlotPass, WornHead};
use world_api::{Pass, WornWord};

/// The version from which on a bucket takes no new atom: 2 less than 2 to the 42nd.
const WORN_VERSION: u64 = 4_398_046_511_102;

/// The number of the last cycle that can begin: 1 less than 2 to the 62nd.
const LAST_EPOCH: u64 = 4_611_686_018_427_387_903;

/// What is told of a pass over all slots.
pub(crate) fn told_pass(pass: Pass) -> SlotPass {
    SlotPass {
        counted: pass.counted(),
        seat: pass.seat(),
        began: pass.began(),
        ended: pass.ended(),
    }
}

/// Whether the cycle of this number was at its end where this epoch word was read.
fn is_after_cycle(number: u64, word: u64) -> bool
    ensures { result ≡ true ↔ IsAfterCycle number word }
{
    if word / 4 == number {
        word % 4 == 0
    } else {
        number < word / 4
    }
}

/// Whether an engine that found every slot taken may try again where this epoch word was read: two cycles were begun after
/// its pass had ended, and are at their ends. Where no second one can begin, one is enough.
pub(crate) fn may_try_again(pass: SlotPass, word: u64) -> bool {
    let second = pass.ended / 4 + 2;
    is_after_cycle(second.min(LAST_EPOCH), word)
}

/// The record of a pass that found each of so many slots taken where no cycle can begin any more. A pass before that, and one
/// of another number of slots, makes none.
pub(crate) fn worn_epoch(pass: SlotPass, slots: u64) -> Option<AtomRecord>
    ensures { IfSome result (IsTrue slots) }
{
    if pass.counted != slots || pass.ended / 4 != LAST_EPOCH {
        return None;
    }
    Some(AtomRecord::WornEpoch(pass))
}

/// The record of two passes that found each of so many slots taken, with two cycles between them. Passes of two seats or of
/// another number of slots, and passes that do not show two cycles, make none.
pub(crate) fn taken(earlier: SlotPass, pass: SlotPass, slots: u64) -> Option<AtomRecord>
    ensures { IfSome result (IsTrue slots) }
{
    if earlier.counted != slots || pass.counted != slots || earlier.seat != pass.seat {
        return None;
    }
    let first = earlier.ended / 4 + 1;
    let second = first + 1;
    if !is_after_cycle(second, pass.began) {
        return None;
    }
    Some(AtomRecord::Taken {
        earlier,
        first,
        second,
        pass,
    })
}

/// The record of a bucket that takes no new atom. A word of a bucket that takes one makes none.
pub(crate) fn worn(word: WornWord) -> Option<AtomRecord>
    ensures { (slots : ℕ) → IfSome result (IsTrue slots) }
{
    if word.word() / 4_194_304 < WORN_VERSION || word.start() != 0 {
        return None;
    }
    Some(AtomRecord::WornBucket(WornHead {
        head: word.head(),
        word: word.word(),
        start: word.start(),
    }))
}
