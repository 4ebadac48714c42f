//! The kinds of steps.
use crate::view::{Held, Refusal};
use std::collections::LinkedList;

/// The kind of a step. `specs/Kinds.antt` says what each asks and does. No value of it is made.
#[derive(Drop)]
pub enum Kind {
    // Opening
    /// Raises the version of a head to the one that the table begins with.
    Raise(u64),
    /// A head's word was that number, whose version is the one that the table begins with or a later one.
    Risen(u64, u64),

    // Birth
    /// Takes a free slot.
    Reserve(u64),
    /// The first text word of the seat's own slot was that number, before any was put: no word is other than 0 behind those
    /// that a text of so many bytes fills.
    Measure(u64),
    /// Puts the next word of the text of the seat's own slot.
    PutWord(u64),
    /// The other words of the text of the seat's own slot are 0, so that its text is whole.
    Fill,
    /// Puts the link word of the seat's own slot.
    PutLink(u64),
    /// Links the seat's own slot in front of its bucket's chain.
    Link,
    /// Makes the seat's own slot valid; it is then held.
    Validate,
    /// Gives the seat's own slot back.
    Release,

    // Use: loads, by what the seat keeps of them
    /// The word at that place was that number.
    Load(u64, u64),
    /// A slot was not free, or the exchange of its free word was lost: the slot, the word that was expected, the word that was found.
    Refused(u64, u64, u64),
    /// A walk begins at that head, whose word is that number.
    Start(u64, u64),
    /// The walk reads the next word of the text at hand.
    Read(u64),
    /// The walk goes on, by the link word that it reads.
    Next(u64),
    /// The walk goes past the dying slot at hand, by the link word that it reads.
    Skip(u64),
    /// The walk ends at its version, and holds the slot at hand.
    Hold,
    /// Only these slots are held on.
    Keep(LinkedList<Held>),
    /// The held slots become fixed atoms.
    Fix,
    /// A pass over all slots begins, at that epoch word.
    StartPass(u64),
    /// The pass at hand ends, at that epoch word.
    EndPass(u64),
    /// A try is refused with that cause.
    Refuse(Refusal),
    /// A try is refused since that head is closed, whose word is that number.
    Barred(u64, u64),
    /// A text is asked of the seat.
    Ask(LinkedList<u64>),
    // Use: the others
    /// Sets a slot's mark: the slot, and the word that was found.
    Protect(u64, u64),
    /// Sets the mark of a held or fixed slot.
    Scan(u64),
    /// Sets the mark of a counted slot, which is held from then on.
    Fetch(u64),
    /// The keeper counts a held or fixed slot once more.
    Register(Held),
    /// The keeper counts a slot once less.
    Unregister(u64),
    /// A new seat is made.
    Make,
    /// The seat is split.
    Split,
    /// The seat takes in another.
    Join,

    // Cycle: marking
    /// A cycle begins to mark, at the next epoch.
    Begin,
    /// The epoch word was that number: the engine begins to scan, and only these slots are held on.
    Mark(u64, LinkedList<Held>),
    /// The engine acknowledges the epoch in which it has scanned what it holds.
    Ack,
    /// One engine more is found to have acknowledged.
    Check(u64),
    /// The cycle goes over to the sweep.
    ToSweep,

    // Cycle: the sweep
    /// The word of the slot that the sweep has come to was that number.
    Look(u64),
    /// The next word of that slot's text was that number.
    Spell(u64),
    /// That slot, which nobody marked or counted, becomes dying.
    Condemn,
    /// The slot's mark is cleared, where the word was that number, and the sweep goes on.
    PassOver(u64),

    // Unlinking
    /// The dying slot's link word was that number.
    Behind(u64),
    /// The dying slot is taken out of its chain, after that slot.
    UnlinkAt(u64),
    /// The dying slot is taken out of its chain, as the first.
    UnlinkHead,
    /// The word of the chain's head was that number.
    Note(u64),
    /// The head's version is moved.
    Bump,
    /// The head's word was that number, of a later version.
    Past(u64),
    /// The dying slot becomes free.
    Free,
    /// The sweep ends.
    End,

    // Growth
    /// Chains are to be moved to that row.
    Aim(u64),
    /// The next head of that row was that number, and is not worn.
    Sound(u64),
    /// The next head of the row in use, which is that one, is closed.
    Close(u64),
    /// The next chain of the row in use is empty.
    Emptied,
    /// That slot, with its text, is the last one of that chain: the slot, and 0 or 1 more than the slot before it.
    Pick(Held, u64),
    /// The slot picked is put in front of its new chain, at that head, which was empty.
    MoveHead(u64),
    /// The slot picked is put behind that slot, the last one of its new chain.
    MoveLink(u64),
    /// It is taken off its old chain, at that head, where it was the only slot.
    LeaveHead(u64),
    /// It is taken off its old chain, behind that slot.
    LeaveLink(u64),
    /// The row word names that row.
    PublishRow(u64),
    /// The last closed head of the row in use, which is that one, is opened.
    Publish(u64),
}
