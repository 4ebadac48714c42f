//! What each step tells its caller.
ghost use Rattle.bucket_rows.specs.Plays.{mark_seen, row_read, word_known, begun, mark_read, scanned, acknowledged, engine_checked, turned, looked, text_read, condemned, passed, unmarked_passed, traced, trod, behind_read, unlinked_at, unlinked_head, head_noted, bumped, freed, ended};

use atom_words::{Keeps, View};
use atomic_table::Play;
use std::marker::PhantomData;

/// The load of a slot's word, which shows whether its mark is set already, where it is valid.
pub struct SeeingMark;

impl Play<(), View> for SeeingMark {
    ghost then = { mark_seen };
}

/// The load of the row word.
pub struct ReadingRow;

impl Play<(), View> for ReadingRow {
    ghost then = { row_read };
}

/// The load of the epoch word, which the collector knows.
pub struct KnowingWord;

impl Play<(), View> for KnowingWord {
    ghost then = { word_known };
}

/// The store that begins a cycle.
pub struct Beginning;

impl Play<(), View> for Beginning {
    ghost then = { begun };
}

/// The load of the epoch word with which an engine begins to scan, where the cycle marks and it has not acknowledged that.
pub struct Marking<K> {
    those: PhantomData<K>,
}

impl<K: Keeps> Play<(), View> for Marking<K> {
    ghost then = { mark_read K.those };
}

/// The exchange with which an engine that scans sets the mark of a slot.
pub struct Scanning;

impl Play<(), View> for Scanning {
    ghost then = { scanned };
}

/// The store with which an engine acknowledges.
pub struct Acknowledging;

impl Play<(), View> for Acknowledging {
    ghost then = { acknowledged };
}

/// The load of the word of the engine that the collector checks next.
pub struct Checking;

impl Play<(), View> for Checking {
    ghost then = { engine_checked };
}

/// The store that goes over to the sweep.
pub struct Turning;

impl Play<(), View> for Turning {
    ghost then = { turned };
}

/// The load of the slot that the sweep has come to.
pub struct Looking;

impl Play<(), View> for Looking {
    ghost then = { looked };
}

/// The load of the next word of that slot's text.
pub struct Spelling;

impl Play<(), View> for Spelling {
    ghost then = { text_read };
}

/// The exchange that condemns that slot.
pub struct Condemning;

impl Play<(), View> for Condemning {
    ghost then = { condemned };
}

/// The exchange that clears that slot's mark, with which the sweep goes on.
pub struct Passing;

impl Play<(), View> for Passing {
    ghost then = { passed };
}

/// The load of that slot's word, with which the sweep goes on where it has no mark.
pub struct PassingUnmarked;

impl Play<(), View> for PassingUnmarked {
    ghost then = { unmarked_passed };
}

/// The load of the head that the collector's walk begins with.
pub struct Tracing;

impl Play<(), View> for Tracing {
    ghost then = { traced };
}

/// The load of the link word with which that walk goes on.
pub struct Treading;

impl Play<(), View> for Treading {
    ghost then = { trod };
}

/// The load of the dying slot's link word.
pub struct ReadingBehind;

impl Play<(), View> for ReadingBehind {
    ghost then = { behind_read };
}

/// The store that takes the dying slot out of its chain, after another.
pub struct UnlinkingAt;

impl Play<(), View> for UnlinkingAt {
    ghost then = { unlinked_at };
}

/// The exchange that takes the dying slot out of its chain, as the first.
pub struct UnlinkingHead;

impl Play<(), View> for UnlinkingHead {
    ghost then = { unlinked_head };
}

/// The load of the dying slot's head after it was taken out.
pub struct Noting;

impl Play<(), View> for Noting {
    ghost then = { head_noted };
}

/// The exchange that moves that head's version.
pub struct Bumping;

impl Play<(), View> for Bumping {
    ghost then = { bumped };
}

/// The store that makes the dying slot free.
pub struct Freeing;

impl Play<(), View> for Freeing {
    ghost then = { freed };
}

/// The store that ends the sweep.
pub struct Ending;

impl Play<(), View> for Ending {
    ghost then = { ended };
}
