//! Why a walk or a link was not made.
use atom_words::WornWord;

/// What a walk or a link found in the place of the word that it needs.
#[derive(Clone, Copy, Debug, PartialEq, Eq, Drop)]
pub enum Missed {
    /// The bucket's head was loaded with two versions: the word that the walk began with, and the other one.
    Moved { old: u64, new: u64 },
    /// That slot of the chain has the text, and another seat has reserved it.
    Pending { index: u32, word: u64 },
    /// The bucket's head was closed.
    Closed { word: u64 },
    /// The bucket takes no new atom.
    Worn(WornWord),
}
