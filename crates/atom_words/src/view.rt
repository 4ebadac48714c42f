//! What a seat knows. Of `View` and its parts no value is made but of what answers carry: contracts and the rule speak of them.
ghost use Rattle.std.specs.Prelude.{◌≡◌};

use crate::kind::Kind;
use crate::size::Size;
use std::collections::LinkedList;

/// A slot with the words of its text.
#[derive(Drop)]
pub struct Held {
    pub slot: u64,
    pub text: LinkedList<u64>,
}

/// How often the stored clauses and messages name a slot, and the words of its text.
#[derive(Drop)]
pub struct Counted {
    pub count: u64,
    pub text: LinkedList<u64>,
}

/// The slot that the seat has reserved.
#[derive(Drop)]
pub struct Own {
    pub slot: u64,
    /// The words of its text that are put.
    pub text: LinkedList<u64>,
    /// Behind the words that are put, those from this number on are 0.
    pub bound: u64,
    /// What its link word holds, once the seat has put it.
    pub link: Option<u64>,
    pub linked: bool,
}

/// The walk at hand over the chain of one bucket.
#[derive(Drop)]
pub struct Walk {
    pub head: u64,
    /// The head's word as the walk found it.
    pub word: u64,
    /// 0 at the end, or 1 more than the slot at hand.
    pub place: u64,
    /// What is read of the text of the slot at hand.
    pub part: LinkedList<u64>,
    /// The slot at hand was protected, and was valid.
    pub guarded: bool,
    /// The slot at hand was protected, and was dying.
    pub dead: bool,
    /// A slot at hand was protected, and was free, so that the head has another version.
    pub lost: bool,
    /// How many dying slots the walk went past.
    pub skipped: u64,
    /// The slots that the walk has passed, each with what it read of the text.
    pub seen: LinkedList<Held>,
}

/// The pass at hand over all slots, which counts those that are taken.
#[derive(Drop)]
pub struct Passing {
    /// The epoch word as the pass began.
    pub began: u64,
    /// The slot that was counted first.
    pub first: u64,
    /// How many were counted, from the first on, where slot 0 follows the last one.
    pub counted: u64,
}

/// A pass that counted every slot as taken.
#[derive(Clone, Copy, Debug, PartialEq, Eq, Drop)]
pub struct Pass {
    pub(crate) counted: u64,
    pub(crate) seat: u64,
    pub(crate) began: u64,
    pub(crate) ended: u64,
}

impl Pass {
    /// How many slots the pass counted, which are all.
    pub fn counted(&self) -> u64
        ensures { result ≡ self.now.counted }
    {
        self.counted
    }

    /// The number of the engine whose seat made the pass, from 1.
    pub fn seat(&self) -> u64
        ensures { result ≡ self.now.seat }
    {
        self.seat
    }

    /// The epoch word as the pass began.
    pub fn began(&self) -> u64
        ensures { result ≡ self.now.began }
    {
        self.began
    }

    /// The epoch word as the pass ended.
    pub fn ended(&self) -> u64
        ensures { result ≡ self.now.ended }
    {
        self.ended
    }
}

/// A head whose version is one of the last two, so that its bucket takes no new atom.
#[derive(Clone, Copy, Debug, PartialEq, Eq, Drop)]
pub struct WornWord {
    pub(crate) head: u64,
    pub(crate) word: u64,
    pub(crate) start: u64,
}

impl WornWord {
    /// The bucket's head.
    pub fn head(&self) -> u64
        ensures { result ≡ self.now.head }
    {
        self.head
    }

    /// The head's word.
    pub fn word(&self) -> u64
        ensures { result ≡ self.now.word }
    {
        self.word
    }

    /// The version that the table began with.
    pub fn start(&self) -> u64
        ensures { result ≡ self.now.start }
    {
        self.start
    }
}

/// Why an attempt to intern a text is to be made again.
#[derive(Clone, Copy, Debug, PartialEq, Eq, Drop)]
pub enum Cause {
    /// The head was loaded with two versions.
    Moved { old: u64, new: u64 },
    /// That slot of the chain was read reserved, by another seat.
    Pending { index: u32, word: u64 },
    /// The head was read closed.
    Closed { word: u64 },
}

/// What was refused to a seat.
#[derive(Clone, Copy, Debug, PartialEq, Eq, Drop)]
pub enum Refusal {
    Full(Pass),
    Again(Cause),
    Worn(WornWord),
}

/// What the seat of an engine knows of the cycle of collection.
#[derive(Drop)]
pub struct Cycling {
    /// The engine's number, from 1, or 0.
    pub engine: u64,
    /// The last epoch that it acknowledged.
    pub acked: u64,
    /// The epoch in which it scanned last.
    pub scanned_at: u64,
    pub scanned: LinkedList<u64>,
}

/// What the collector's seat knows.
#[derive(Drop)]
pub struct Sweeping {
    /// The epoch word, which this seat alone writes.
    pub word: u64,
    /// How many engines it has found to have acknowledged this epoch.
    pub checked: u64,
    /// The slot that the sweep has come to.
    pub cursor: u64,
    /// That slot was found valid.
    pub sure: bool,
    /// What is read of that slot's text since.
    pub text: LinkedList<u64>,
    /// 0, or 1 more than the slot that it has condemned.
    pub dying: u64,
    /// The condemned slot's link word, once it is read.
    pub behind: Option<u64>,
    /// The condemned slot is taken out of its chain.
    pub unlinked: bool,
    /// The head of that chain.
    pub head: u64,
    /// That head's word, as it was found after the slot was taken out.
    pub noted: Option<u64>,
    /// That head's version has moved since the slot was taken out.
    pub past: bool,
}

/// What the collector's seat knows of the rows of buckets, as it puts another in the place of the one in use. A row is
/// named by the binary logarithm of its size.
#[derive(Drop)]
pub struct Growing {
    /// The row in use, which is what the row word has. This seat alone writes it.
    pub row: u64,
    /// How many heads of that row, from its first on, are closed.
    pub shut: u64,
    /// The row that is to take its place, or that row itself.
    pub aim: u64,
    /// How many heads of that other row, from its first on, were found not worn.
    pub sound: u64,
    /// How many chains of the row in use, from the first on, were found empty.
    pub moved: u64,
    /// The last slot of the chain after those, with its text, once it is found.
    pub picked: Option<Held>,
    /// 0 where that is the first slot of its chain, or 1 more than the slot before it.
    pub before: u64,
    /// 0, or 1 more than that slot, which stands in its new chain and is still the last of its old one.
    pub moving: u64,
}

/// What a seat knows.
#[derive(Drop)]
pub struct View {
    /// Another seat has taken this one in.
    pub gone: bool,
    pub size: Size,
    pub own: Option<Own>,
    pub held: LinkedList<Held>,
    /// The fixed atoms, which are used without being held.
    pub fixed: LinkedList<Held>,
    /// The keeper's counts, one for each slot.
    pub counts: Option<LinkedList<Counted>>,
    pub walk: Option<Walk>,
    pub pass: Option<Passing>,
    pub refusals: LinkedList<Refusal>,
    /// The texts that were asked of this seat.
    pub asked: LinkedList<LinkedList<u64>>,
    /// How many engines have no seat yet.
    pub undealt: u64,
    /// Each head below this one has the version that the table begins with, or a later one.
    pub risen: u64,
    pub cycle: Cycling,
    pub sweep: Option<Sweeping>,
    /// Where it is the collector's seat, what it knows of the rows.
    pub growing: Growing,
    /// The steps that it has made.
    pub made: LinkedList<Kind>,
}
