//! Up to where no newer variable occurs in the terms of a store.
ghost use Rattle.std.specs.Prelude.{◌≡◌, ◌⊎◌, ◌<◌, ◌≤◌, [], true, length};
ghost use Rattle.term_store.specs.Cells.{IsFit, heap_of};
ghost use Rattle.term_store.specs.Fit.{IsWord};
ghost use Rattle.term_store.specs.Frontiers.{IsCutAt, IsNewer, IsNewerWord, IsPassed, before_all};
ghost use Rattle.term_store.specs.Shorts.{long_word};

use crate::cells::Cells;
use crate::shorts::Short;
use crate::words::{StoreMark, Word};

/// The variables of lower slots and the compound terms of lower numbers: the arguments of these, and what those are bound to, are
/// constants and some of them again, so that no variable of a slot from here on occurs in what they stand for.
#[derive(Clone, Copy, Debug, Drop)]
pub struct Frontier {
    pub slots: usize,
    pub heads: usize,
}

impl Frontier {
    /// No variables and no compound terms.
    pub fn none() -> Frontier
        ensures { result ≡ before_all }
    {
        Frontier { slots: 0, heads: 0 }
    }

    /// Keeps it where what was made since a mark is given back.
    pub fn cut(&mut self, mark: StoreMark)
        ensures { IsCutAt self.old mark self.new }
    {
        if self.slots <= mark.numbers && self.heads <= mark.heads {
            return;
        }
        self.slots = mark.numbers;
        self.heads = mark.heads;
    }

    /// Keeps it where the variable of a slot is bound to a word as it is kept, which is no integer beyond 32 bits, and there are so many variables and
    /// compound terms: it is moved behind these where a lower variable is bound to what is not below it.
    #[inline(always)]
    pub fn pass(&mut self, slot: usize, short: Short, slots: usize, heads: usize)
        ensures { IsPassed self.old slot (long_word [] short) slots heads self.new }
    {
        if slot >= self.slots || self.has(short) {
            return;
        }
        self.slots = slots;
        self.heads = heads;
    }

    /// The same of a word.
    #[inline(always)]
    pub fn pass_word(&mut self, slot: usize, word: Word, slots: usize, heads: usize)
        ensures { IsPassed self.old slot word slots heads self.new }
    {
        if slot >= self.slots || self.has_word(word) {
            return;
        }
        self.slots = slots;
        self.heads = heads;
    }

    /// Whether the word as it is kept, which is no integer beyond 32 bits, is a constant or one of the lower variables or compound terms.
    #[inline(always)]
    pub fn has(&self, short: Short) -> bool
        ensures { result ≡ true → IsWord self.now.slots self.now.heads (long_word [] short) }
    {
        match short {
            Short::Slot(slot) => (slot as usize) < self.slots,
            Short::Term(k) => (k as usize) < self.heads,
            Short::Free => true,
            Short::Number(_) => true,
            Short::Name(_) => true,
            Short::Wide(_) => true,
        }
    }

    /// The same of a word.
    #[inline(always)]
    pub fn has_word(&self, word: Word) -> bool
        ensures { result ≡ true → IsWord self.now.slots self.now.heads word }
    {
        match word {
            Word::Var(slot) => slot < self.slots,
            Word::Comp(k) => k < self.heads,
            Word::Int(_) => true,
            Word::Atom(_) => true,
        }
    }

    /// Whether it is known that the variable of a slot does not occur in the variable or the compound term that is kept as this short
    /// word.
    #[inline(always)]
    pub fn is_newer(&self, slot: usize, short: Short) -> bool
        ensures { result ≡ true → IsNewer self.now slot short }
    {
        match short {
            Short::Slot(other) => self.slots <= slot && (other as usize) < self.slots,
            Short::Term(k) => self.slots <= slot && (k as usize) < self.heads,
            _ => false,
        }
    }

    /// The same of a word.
    #[inline(always)]
    pub fn is_newer_word(&self, slot: usize, word: Word) -> bool
        ensures { result ≡ true → IsNewerWord self.now slot word }
    {
        self.slots <= slot && self.has_word(word)
    }
}

/// Moves the frontier behind all that there is.
#[inline(always)]
pub fn move_frontier(cells: &mut Cells)
    requires { IsFit cells.old }
    ensures fit { IsFit cells.new }
    ensures kept { heap_of cells.new ≡ heap_of cells.old }
{
    let slots = cells.numbers.len();
    let heads = cells.heads.len();
    cells.frontier = Frontier { slots, heads };
}
