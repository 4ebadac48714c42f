//! The answers of `intern`.
use crate::atom::Atom;
use atom_words::{Cause, Pass, WornWord};

/// What `intern` answers.
#[derive(Clone, Copy, Debug, PartialEq, Eq, Drop)]
pub enum Interned {
    /// The atom of the text, which is held.
    Is(Atom),
    /// No slot is free, as that pass over all slots shows.
    Full(Pass),
    /// Other threads stepped in between: the call is to be made again.
    Again(Cause),
    /// The text has more than 248 bytes in UTF-8.
    TooLong { bytes: usize },
    /// The text's bucket takes no new atom, as that word shows.
    Worn(WornWord),
    /// Out of memory.
    Memory,
}
