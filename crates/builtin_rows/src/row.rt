//! What a built-in predicate gives.
use atom_api::{Cause, Pass, WornWord};
use term_store::Place;

/// A place for each argument of a predicate of one, two or three.
#[derive(Clone, Copy, Drop)]
pub enum Places {
    One(Place),
    Two(Place, Place),
    Three(Place, Place, Place),
}

/// What a built-in predicate gives for its arguments.
#[derive(Drop)]
pub enum Row {
    /// No answer: the predicate fails.
    Fails,
    /// One answer: the arguments as they are. Nothing was made.
    Holds,
    /// One answer: a place for each argument, with which it is unified. Its `fresh` new variables have the next numbers, and
    /// its cells were taken.
    Answer {
        places: Places,
        fresh: u64,
    },
    /// The first of the answers of a table: a place for each argument, with which it is unified. No cells were taken. With it
    /// the line of the next answer, counted from 0, where there is one.
    Line {
        places: Vec<Place>,
        following: Option<usize>,
    },
    /// This ball is thrown.
    Ball(Place),
    /// So many cells do not fit beside those that are used.
    CellsFull {
        used: u64,
        need: u64,
    },
    /// An atom of an answer has no place, as that pass over all slots shows. The predicate is to be called again.
    NeedsAtoms(Pass),
    /// Others stepped in between. The predicate is to be called again.
    Retry(Cause),
    /// An atom of an answer is one of a bucket that takes no new atom.
    Worn(WornWord),
}
