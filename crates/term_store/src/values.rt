//! The words that a store's variables are bound to.
ghost use Rattle.std.specs.Prelude.{◌≡◌, ◌<◌, ◌++◌, ◌∷◌, [], length, set, take, slice_index_or, is_ok, if◌then◌else◌, Option, Some, None};
ghost use Rattle.term_store.specs.Shorts.{IsPlain, IsShortValue, value_word};

use crate::pushes::push_one;
use crate::shorts::{Beyond, Short, forget_at, short_at, shortened, value_of};
use crate::words::Word;
use pl_term::Memory;
use std::alloc::Global;
use std::marker::Model;

/// What each variable is bound to, if it is: a list of words by slot, seen by contracts as that list. A word takes eight bytes. Slots
/// and compound terms have to be fewer than 2^32 each: with more there is no memory.
#[derive(Drop)]
pub struct Values {
    shorts: Vec<Short>,
    wides: Vec<Beyond>,
}

impl Model for Values {
    ghost use Rattle.std.specs.Prelude.{List, Option, map};
    ghost use Rattle.term_store.specs.declared.words.Word.{Word};
    ghost use Rattle.term_store.specs.Shorts.{AreOwn, value_word};

    ghost Value = { List (Option Word) };

    ghost view = { λ v. map (value_word v.wides.items) v.shorts.items };

    ghost invariant = { λ v. AreOwn v.wides.items v.shorts.items };
}

impl Values {
    /// No variables.
    pub fn new(alloc: Global) -> Values
        ensures { result ≡ [] }
    {
        Values {
            shorts: Vec::new(alloc),
            wides: Vec::new(alloc),
        }
    }

    /// The word of a slot, if its variable is bound.
    pub fn get(&self, slot: usize) -> Option<Word>
        requires { slot < length self.now }
        ensures { result ≡ slice_index_or self.now slot None }
    {
        let short = short_at(&self.shorts, slot);
        value_of(&self.wides, short)
    }

    /// Adds an unbound variable. The only error is out of memory.
    #[inline(always)]
    pub fn push_none(&mut self) -> Result<(), Memory>
        ensures { self.new ≡ (if is_ok result then self.old ++ None ∷ [] else self.old) }
    {
        push_one(&mut self.shorts, Short::Free)
    }

    /// Binds the variable of a slot. The only error is out of memory, which an integer beyond 32 bits may run out of, and a
    /// number of 2^32 and more.
    pub fn set(&mut self, slot: usize, word: Word) -> Result<(), Memory>
        requires { slot < length self.old }
        ensures { self.new ≡ (if is_ok result then set self.old slot (Some word) else self.old) }
    {
        let short = shortened(&mut self.wides, slot, word)?;
        self.shorts[slot] = short;
        Ok(())
    }

    /// The word of a slot as it is kept.
    #[inline(always)]
    pub fn short(&self, slot: usize) -> Short
        requires { slot < length self.now }
        ensures { IsShortValue result (slice_index_or self.now slot None) }
    {
        short_at(&self.shorts, slot)
    }

    /// Binds the variable of a slot to a word as it is kept, which is no integer beyond 32 bits.
    #[inline(always)]
    pub fn set_short(&mut self, slot: usize, short: Short)
        requires slot { slot < length self.old }
        requires plain { IsPlain short }
        ensures { self.new ≡ set self.old slot (value_word [] short) }
    {
        self.shorts[slot] = short;
    }

    /// Makes the variable of a slot unbound.
    pub fn clear(&mut self, slot: usize)
        requires { slot < length self.old }
        ensures { self.new ≡ set self.old slot None }
    {
        self.shorts[slot] = Short::Free;
        forget_at(&mut self.wides, slot);
    }

    /// Takes all variables from a slot on off.
    pub fn truncate(&mut self, count: usize)
        ensures { self.new ≡ take count self.old }
    {
        self.shorts.truncate(count);
    }
}
