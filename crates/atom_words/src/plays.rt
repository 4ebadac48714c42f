//! What each step tells its caller.
ghost use Rattle.atom_words.specs.Plays.{head_raised, head_risen, seen_free, reserved, text_measured, text_filled, word_put, word_found, validated, released, protected, registered, unregistered, pass_started, pass_ended, seated, loaded, walk_started, word_read, gone_on, gone_past, slot_held, pending_shown, moved_found, held_word_read, worn_found, link_put, slot_linked, fetched, fixed, kept, asked};
ghost use Rattle.atom_words.specs.Views.{spent, with_keeper, without_keeper, keeper_of, without_collector, collector_of, with_one_dealt, engine_of};

use crate::view::View;
use atomic_table::{Join, Play, Split};
use std::marker::{Brand, PhantomData};

/// The exchange that raises the version of a head.
pub struct Raising;

impl Play<(), View> for Raising {
    ghost then = { head_raised };
}

/// The load of a head, which shows whether its version is the one that the table begins with, or a later one.
pub struct Rising;

impl Play<(), View> for Rising {
    ghost then = { head_risen };
}

/// The load that shows whether a slot is free.
pub struct SeeingFree;

impl Play<(), View> for SeeingFree {
    ghost then = { seen_free };
}

/// The exchange that takes a slot that was found free.
pub struct Reserving;

impl Play<(), View> for Reserving {
    ghost then = { reserved };
}

/// The load of the first text word of the seat's own slot, before any is put.
pub struct Measuring;

impl Play<(), View> for Measuring {
    ghost then = { text_measured };
}

/// The load with which the seat's own slot, whose other text words are 0, has its whole text.
pub struct Filling;

impl Play<(), View> for Filling {
    ghost then = { text_filled };
}

/// The store of a text word.
pub struct PuttingWord;

impl Play<(), View> for PuttingWord {
    ghost then = { word_put };
}

/// Which word is wanted. A call picks it.
pub trait Wants {
    ghost use Rattle.std.specs.Prelude.{ℕ};

    ghost word: { ℕ };
}

impl Wants for Brand {
    ghost word = { 0 };
}

/// The load of a text word, which puts it where it is the one wanted.
pub struct FindingWord<W> {
    word: PhantomData<W>,
}

impl<W: Wants> Play<(), View> for FindingWord<W> {
    ghost then = { word_found W.word };
}

/// The store that makes a slot valid.
pub struct Validating;

impl Play<(), View> for Validating {
    ghost then = { validated };
}

/// The store that gives a slot back.
pub struct Releasing;

impl Play<(), View> for Releasing {
    ghost then = { released };
}

/// The exchange that sets a mark.
pub struct Protecting;

impl Play<(), View> for Protecting {
    ghost then = { protected };
}

/// The exchange that counts a slot once more.
pub struct Registering;

impl Play<(), View> for Registering {
    ghost then = { registered };
}

/// The exchange that counts a slot once less.
pub struct Unregistering;

impl Play<(), View> for Unregistering {
    ghost then = { unregistered };
}

/// The load that a pass begins with.
pub struct StartingPass;

impl Play<(), View> for StartingPass {
    ghost then = { pass_started };
}

/// The load that a pass ends with.
pub struct EndingPass;

impl Play<(), View> for EndingPass {
    ghost then = { pass_ended };
}

/// The load that makes a new seat.
pub struct Seating;

impl Play<(), View> for Seating {
    ghost then = { seated };
}

/// The seat takes in the keeper's.
pub struct WithKeeper;

impl Join<View> for WithKeeper {
    ghost both = { with_keeper };

    ghost spent = { spent };
}

/// The keeper's seat is cut off.
pub struct PartingKeeper;

impl Split<View> for PartingKeeper {
    ghost left = { without_keeper };

    ghost right = { keeper_of };
}

/// The collector's seat is cut off.
pub struct PartingCollector;

impl Split<View> for PartingCollector {
    ghost left = { without_collector };

    ghost right = { collector_of };
}

/// An engine's seat is cut off.
pub struct Dealing;

impl Split<View> for Dealing {
    ghost left = { with_one_dealt };

    ghost right = { engine_of };
}

/// A load that the seat keeps nothing of.
pub struct Loading;

impl Play<(), View> for Loading {
    ghost then = { loaded };
}

/// The load of a head that a walk begins with, where it is open.
pub struct StartingWalk;

impl Play<(), View> for StartingWalk {
    ghost then = { walk_started };
}

/// The load of the next word of the text at a walk's hand.
pub struct ReadingWord;

impl Play<(), View> for ReadingWord {
    ghost then = { word_read };
}

/// The load of the link word of the slot at a walk's hand.
pub struct GoingOn;

impl Play<(), View> for GoingOn {
    ghost then = { gone_on };
}

/// The load of the link word with which a walk goes past a dying slot.
pub struct Skipping;

impl Play<(), View> for Skipping {
    ghost then = { gone_past };
}

/// The load of the head that a walk ends with, with the slot at hand held where the version is the same.
pub struct Holding;

impl Play<(), View> for Holding {
    ghost then = { slot_held };
}

/// The load with which a slot that was found reserved as its mark was set refuses.
pub struct ShowingPending;

impl Play<(), View> for ShowingPending {
    ghost then = { pending_shown };
}

/// The load of the head of a stale walk, which refuses.
pub struct FindingMoved;

impl Play<(), View> for FindingMoved {
    ghost then = { moved_found };
}

/// The load of a word of the text of a slot that is held, or of a fixed atom.
pub struct ReadingHeld;

impl Play<(), View> for ReadingHeld {
    ghost then = { held_word_read };
}

/// The load of a head, which refuses where it is worn.
pub struct FindingWorn;

impl Play<(), View> for FindingWorn {
    ghost then = { worn_found };
}

/// The store of a link word.
pub struct PuttingLink;

impl Play<(), View> for PuttingLink {
    ghost then = { link_put };
}

/// The exchange that links a slot.
pub struct Linking;

impl Play<(), View> for Linking {
    ghost then = { slot_linked };
}

/// The exchange that marks a counted slot, which is then held.
pub struct Fetching;

impl Play<(), View> for Fetching {
    ghost then = { fetched };
}

/// The load with which the held slots become fixed atoms.
pub struct Fixing;

impl Play<(), View> for Fixing {
    ghost then = { fixed };
}

/// Which slots a seat goes on to hold. A call picks it.
pub trait Keeps {
    ghost use Rattle.std.specs.Prelude.{List};
    ghost use Rattle.atom_words.specs.declared.view.Held.{Held};

    ghost those: { List Held };
}

impl Keeps for Brand {
    ghost use Rattle.std.specs.Prelude.{[]};

    ghost those = { [] };
}

/// The load with which only some slots are held on.
pub struct Keeping<K> {
    those: PhantomData<K>,
}

impl<K: Keeps> Play<(), View> for Keeping<K> {
    ghost then = { kept K.those };
}

/// Which text is asked of a seat, as its 32 words. A call picks it.
pub trait Spells {
    ghost use Rattle.std.specs.Prelude.{List, ℕ};

    ghost words: { List ℕ };
}

impl Spells for Brand {
    ghost use Rattle.std.specs.Prelude.{[]};

    ghost words = { [] };
}

/// The load with which a text is asked.
pub struct Asking<T> {
    words: PhantomData<T>,
}

impl<T: Spells> Play<(), View> for Asking<T> {
    ghost then = { asked T.words };
}
