//! How an engine ends.

/// A pass over all slots of the atom table that found each of them taken.
#[derive(Clone, Copy, Debug, PartialEq, Eq, Drop)]
pub struct SlotPass {
    /// How many slots it counted.
    pub counted: u64,
    /// The engine that made it, from 1.
    pub seat: u64,
    /// The epoch word as it began, and as it ended: bits 0 and 1 hold the phase, 0 where no cycle runs, bits 2 to 63
    /// the number of cycles begun.
    pub began: u64,
    pub ended: u64,
}

/// A bucket of the atom table that takes no new atom, as its head was loaded.
#[derive(Clone, Copy, Debug, PartialEq, Eq, Drop)]
pub struct WornHead {
    /// The bucket's number.
    pub head: u64,
    /// The head's word, whose bits 22 to 63 hold the version.
    pub word: u64,
    /// The version with which the table began.
    pub start: u64,
}

/// What shows that an engine ended for want of atoms.
#[derive(Clone, Copy, Debug, PartialEq, Eq, Drop)]
pub enum AtomRecord {
    /// The first pass found every slot taken, the two cycles were begun after it and ran to their end, and then the
    /// second pass found every slot taken again.
    Taken {
        earlier: SlotPass,
        first: u64,
        second: u64,
        pass: SlotPass,
    },
    /// The bucket of an atom takes no new one.
    WornBucket(WornHead),
    /// That pass found every slot taken, and no cycle can begin any more.
    WornEpoch(SlotPass),
}

/// How an engine ended. Balls and terms are of a type `T`.
#[derive(Debug, Drop)]
pub enum How<T> {
    /// Its goal gave the solutions that were wanted, or it had no goal.
    Solved,
    /// Its goal has no further solution.
    False,
    /// A ball that nobody caught (ISO 7.8.10).
    Threw(T),
    /// thread_exit/1 with a term.
    Exited(T),
    /// halt/1 with a status.
    Halted(u8),
    /// There was no place for an atom.
    AtomSpace(AtomRecord),
}
