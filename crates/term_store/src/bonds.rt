//! The bindings of a store.
ghost use Rattle.std.specs.Prelude.{◌≡◌, ◌<◌, ◌≤◌, ◌++◌, ◌∷◌, [], length, set, take, slice_index_or, Option, Some, None, OnErr, OnOk, vec_capacity, vec_len};
ghost use Rattle.std.specs.List.{All};
ghost use Rattle.term_store.specs.Fit.{OnceFrom};
ghost use Rattle.term_store.specs.Heap.{find};
ghost use Rattle.term_store.specs.Shorts.{IsPlain, IsShortValue, last_bond, long_word, no_bond, value_word};

use crate::shorts::{Short, short_index};
use crate::values::Values;
use crate::words::Word;
use pl_term::Memory;
use std::alloc::Global;
use std::marker::Model;

/// What each variable is bound to, by slot, and the bindings in the order in which they were made. Of these the slots alone are
/// kept: their words are read by slot.
#[derive(Drop)]
pub struct Bonds {
    values: Values,
    trail: Vec<u32>,
}

impl Model for Bonds {
    ghost use Rattle.std.specs.Prelude.{map};
    ghost use Rattle.term_store.specs.Shorts.{BondList, bond_of};

    ghost Value = { BondList };

    ghost view = { λ b. record { values = b.values; items = map (bond_of b.values) b.trail.items } };
}

impl Bonds {
    /// No variables.
    pub fn new(alloc: Global) -> Bonds
        ensures values { result.values ≡ [] }
        ensures items { result.items ≡ [] }
    {
        Bonds {
            values: Values::new(alloc),
            trail: Vec::new(alloc),
        }
    }

    /// How many bindings there are.
    pub fn len(&self) -> usize
        ensures { result ≡ length self.now.items }
    {
        self.trail.len()
    }

    /// The word of a slot, if its variable is bound.
    pub fn value(&self, slot: usize) -> Option<Word>
        requires { slot < length self.now.values }
        ensures { result ≡ slice_index_or self.now.values slot None }
    {
        self.values.get(slot)
    }

    /// The word of the binding at a place.
    pub fn word(&self, at: usize) -> Word
        requires slots { All (λ b. b.slot < length self.now.values) self.now.items }
        requires inside { at < length self.now.items }
        ensures { result ≡ (slice_index_or self.now.items at no_bond).word }
    {
        let slot = self.trail[at] as usize;
        match self.values.get(slot) {
            Some(word) => word,
            None => Word::Int(0),
        }
    }

    /// Adds an unbound variable. The only error is out of memory.
    #[inline(always)]
    pub fn add(&mut self) -> Result<(), Memory>
        ensures values { OnOk result (self.new.values ≡ self.old.values ++ None ∷ []) }
        ensures kept { OnErr result (self.new.values ≡ self.old.values) }
        ensures items { self.new.items ≡ self.old.items }
    {
        self.values.push_none()
    }

    /// Binds the variable of a slot, which is unbound. The only error is out of memory.
    pub fn bind(&mut self, slot: usize, word: Word) -> Result<(), Memory>
        requires slot { slot < length self.old.values }
        requires free { find slot self.old.items ≡ None }
        ensures values { OnOk result (self.new.values ≡ set self.old.values slot (Some word)) }
        ensures items { OnOk result (self.new.items ≡ self.old.items ++ record { slot = slot; word = word } ∷ []) }
        ensures kept { OnErr result (self.new ≡ self.old) }
    {
        let short = short_index(slot)?;
        self.trail.reserve(1)?;
        self.values.set(slot, word)?;
        self.trail.push_reserved(short);
        Ok(())
    }

    /// The word of a slot as it is kept.
    #[inline(always)]
    pub fn short(&self, slot: usize) -> Short
        requires { slot < length self.now.values }
        ensures { IsShortValue result (slice_index_or self.now.values slot None) }
    {
        self.values.short(slot)
    }

    /// Binds the variable of a slot, which is unbound, to a word as it is kept, which is no integer beyond 32 bits. The only error is
    /// out of memory.
    #[inline(always)]
    pub fn bind_short(&mut self, slot: u32, short: Short) -> Result<(), Memory>
        requires slot { slot < length self.old.values }
        requires free { find slot self.old.items ≡ None }
        requires plain { IsPlain short }
        requires word { value_word [] short ≡ Some (long_word [] short) }
        ensures values { OnOk result (self.new.values ≡ set self.old.values slot (Some (long_word [] short))) }
        ensures items { OnOk result (self.new.items ≡ self.old.items ++ record { slot = slot; word = long_word [] short } ∷ []) }
        ensures kept { OnErr result (self.new ≡ self.old) }
    {
        reserve_one(&mut self.trail)?;
        self.values.set_short(slot as usize, short);
        self.trail.push_reserved(slot);
        Ok(())
    }

    /// Undoes the binding that was made last.
    pub fn undo_last(&mut self)
        requires some { 0 < length self.old.items }
        requires slots { All (λ b. b.slot < length self.old.values) self.old.items }
        requires once { OnceFrom [] self.old.items }
        ensures split { self.old.items ≡ self.new.items ++ last_bond self.old.items ∷ [] }
        ensures values { self.new.values ≡ set self.old.values (last_bond self.old.items).slot None }
    {
        if let Some(slot) = self.trail.pop() {
            self.values.clear(slot as usize);
        }
    }

    /// Keeps so many variables. Those that go are unbound.
    pub fn keep_first(&mut self, count: usize)
        requires { All (λ b. b.slot < count) self.old.items }
        ensures values { self.new.values ≡ take count self.old.values }
        ensures items { self.new.items ≡ self.old.items }
    {
        self.values.truncate(count);
    }
}

/// Makes room for one slot more, where there is none. The only error is out of memory.
#[inline(always)]
fn reserve_one(trail: &mut Vec<u32>) -> Result<(), Memory>
    ensures items { trail.new.items ≡ trail.old.items }
    ensures room { OnOk result (vec_len trail.new < vec_capacity trail.new) }
{
    if trail.len() < trail.capacity() {
        return Ok(());
    }
    grow(trail)
}

/// Does what `reserve_one` does, where there is no room.
#[cold]
#[inline(never)]
fn grow(trail: &mut Vec<u32>) -> Result<(), Memory>
    ensures items { trail.new.items ≡ trail.old.items }
    ensures room { OnOk result (vec_len trail.new < vec_capacity trail.new) }
{
    trail.reserve(1)?;
    Ok(())
}
