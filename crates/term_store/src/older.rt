//! What a store had before some of its terms were made.
ghost use Rattle.std.specs.Prelude.{◌≡◌};
ghost use Rattle.term_store.specs.Apart.{is_apart, nothing_older, older_at};

use crate::words::{StoreMark, Word};

/// The variables and the compound terms that were made before some others, by the number of either, and a slot from which on
/// no variable occurs in what these stand for.
#[derive(Clone, Copy, Debug, Drop)]
pub struct Older {
    pub slots: usize,
    pub heads: usize,
    pub top: usize,
}

impl Older {
    /// Nothing is older.
    pub fn none() -> Older
        ensures { result ≡ nothing_older }
    {
        Older {
            slots: 0,
            heads: 0,
            top: 0,
        }
    }

    /// All that there was at a mark.
    pub fn at(mark: StoreMark) -> Older
        ensures { result ≡ older_at mark }
    {
        Older {
            slots: mark.numbers,
            heads: mark.heads,
            top: mark.numbers,
        }
    }
}

/// Whether it is known by the bounds alone that the variable of a slot does not occur in what a word stands for.
pub fn is_apart(older: &Older, slot: usize, word: Word) -> bool
    ensures { result ≡ is_apart older.now slot word }
{
    match word {
        Word::Var(other) => older.top <= slot && other < older.slots,
        Word::Int(_) => true,
        Word::Atom(_) => true,
        Word::Comp(k) => older.top <= slot && k < older.heads,
    }
}
