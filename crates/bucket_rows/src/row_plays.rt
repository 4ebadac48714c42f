//! What each step of a change of rows tells its caller.
ghost use Rattle.bucket_rows.specs.RowPlays.{row_aimed, next_traced, head_closed, head_sounded, chain_looked, paced, slot_picked, chain_traced, put_at_head, put_at_link, left_head, left_link, row_published, head_opened};

use atom_words::View;
use atomic_table::Play;

/// The load with which another row is to be put in the place of the one in use.
pub struct Aiming;

impl Play<(), View> for Aiming {
    ghost then = { row_aimed };
}

/// The load of the head that is to be closed next, with which a walk begins.
pub struct TracingNext;

impl Play<(), View> for TracingNext {
    ghost then = { next_traced };
}

/// The exchange that closes it.
pub struct Closing;

impl Play<(), View> for Closing {
    ghost then = { head_closed };
}

/// The load of the next head of the other row, which shows whether it is worn.
pub struct Sounding;

impl Play<(), View> for Sounding {
    ghost then = { head_sounded };
}

/// The load of the head whose chain is to be moved next: it is empty, or a walk begins there.
pub struct LookingInto;

impl Play<(), View> for LookingInto {
    ghost then = { chain_looked };
}

/// The load of the link word with which that walk goes on.
pub struct Pacing;

impl Play<(), View> for Pacing {
    ghost then = { paced };
}

/// The load with which the last slot of that chain is known.
pub struct Picking;

impl Play<(), View> for Picking {
    ghost then = { slot_picked };
}

/// The load of the head of its new chain, with which a walk begins.
pub struct TracingInto;

impl Play<(), View> for TracingInto {
    ghost then = { chain_traced };
}

/// The store that puts it there as the first.
pub struct PuttingAtHead;

impl Play<(), View> for PuttingAtHead {
    ghost then = { put_at_head };
}

/// The store that puts it there behind the last slot.
pub struct PuttingAtLink;

impl Play<(), View> for PuttingAtLink {
    ghost then = { put_at_link };
}

/// The exchange that takes it off its old chain, where it was the only slot.
pub struct LeavingHead;

impl Play<(), View> for LeavingHead {
    ghost then = { left_head };
}

/// The store that takes it off its old chain, behind another slot.
pub struct LeavingLink;

impl Play<(), View> for LeavingLink {
    ghost then = { left_link };
}

/// The store of the row word.
pub struct PublishingRow;

impl Play<(), View> for PublishingRow {
    ghost then = { row_published };
}

/// The exchange that opens a head.
pub struct OpeningHead;

impl Play<(), View> for OpeningHead {
    ghost then = { head_opened };
}
