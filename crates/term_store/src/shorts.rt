//! Words as they are kept: of eight bytes.
ghost use Rattle.std.specs.Prelude.{◌≡◌, ◌<◌, ◌≤◌, ◌+◌, ◌-◌, ◌++◌, ◌∷◌, [], length, pos, take, slice_index_or, is_ok, true, if◌then◌else◌, Some, IfOk, OnOk, vec_capacity, vec_len};
ghost use Rattle.term_store.specs.Shorts.{IsOwn, IsPlain, IsShort, Stays, StaysBelow, StaysBut, long_word, no_beyond, value_word};

use crate::words::Word;
use pl_term::Memory;
use std::alloc::Global;
use std::marker::Model;

/// A word of eight bytes: none, a variable by its slot, an integer of 32 bits, an atom by its slot, a compound term by the number of
/// its head, or an integer beyond 32 bits by its place among those.
#[derive(Clone, Copy, Debug, Drop)]
pub enum Short {
    Free,
    Slot(u32),
    Number(i32),
    Name(u32),
    Term(u32),
    Wide(u32),
}

/// An integer beyond 32 bits, and where the word stands that it belongs to.
#[derive(Clone, Copy, Debug, Drop)]
pub struct Beyond {
    pub at: usize,
    pub value: i64,
}

/// A list of words, seen by contracts as these, with the number of words for which there is room. Slots, compound terms and
/// integers beyond 32 bits have to be fewer than 2^32 each: with more there is no memory.
#[derive(Debug, Drop)]
pub struct Words {
    shorts: Vec<Short>,
    wides: Vec<Beyond>,
}

impl Model for Words {
    ghost use Rattle.std.specs.Prelude.{◌-◌, map, vec_capacity, vec_len};
    ghost use Rattle.term_store.specs.Shorts.{AreOwn, WordList, long_word};

    ghost Value = { WordList };

    ghost view = { λ w. record { items = map (long_word w.wides.items) w.shorts.items; room = vec_capacity w.shorts - vec_len w.shorts } };

    ghost invariant = { λ w. AreOwn w.wides.items w.shorts.items };
}

impl Words {
    /// No words.
    pub fn new(alloc: Global) -> Words
        ensures items { result.items ≡ [] }
    {
        Words {
            shorts: Vec::new(alloc),
            wides: Vec::new(alloc),
        }
    }

    /// How many words there are.
    pub fn len(&self) -> usize
        ensures { result ≡ length self.now.items }
    {
        self.shorts.len()
    }

    /// The word at a place.
    pub fn get(&self, at: usize) -> Word
        requires { at < length self.now.items }
        ensures { result ≡ slice_index_or self.now.items at (Word.Int (pos 0)) }
    {
        let short = short_at(&self.shorts, at);
        long_of(&self.wides, short)
    }

    /// Makes room for so many words more. The only error is out of memory.
    pub fn reserve(&mut self, count: usize) -> Result<(), Memory>
        ensures items { self.new.items ≡ self.old.items }
        ensures room { OnOk result (count ≤ self.new.room) }
    {
        if count <= self.shorts.capacity() - self.shorts.len() {
            return Ok(());
        }
        grow(&mut self.shorts, count)
    }

    /// Puts a word, for which there is room, behind the others. The only error is out of memory, which an integer beyond 32 bits
    /// may run out of, and a number of 2^32 and more.
    pub fn push_reserved(&mut self, word: Word) -> Result<(), Memory>
        requires { 0 < self.old.room }
        ensures items { self.new.items ≡ (if is_ok result then self.old.items ++ word ∷ [] else self.old.items) }
        ensures room { self.old.room ≤ self.new.room + 1 }
    {
        let at = self.shorts.len();
        let short = shortened(&mut self.wides, at, word)?;
        self.shorts.push_reserved(short);
        Ok(())
    }

    /// The word at a place as it is kept.
    #[inline(always)]
    pub fn short(&self, at: usize) -> Short
        requires { at < length self.now.items }
        ensures { IsShort result (slice_index_or self.now.items at (Word.Int (pos 0))) }
    {
        short_at(&self.shorts, at)
    }

    /// Puts a word as it is kept, for which there is room, behind the others. It is no integer beyond 32 bits.
    #[inline(always)]
    pub fn push_short(&mut self, short: Short)
        requires space { 0 < self.old.room }
        requires plain { IsPlain short }
        ensures items { self.new.items ≡ self.old.items ++ long_word [] short ∷ [] }
        ensures room { self.old.room ≤ self.new.room + 1 }
    {
        self.shorts.push_reserved(short);
    }

    /// Takes all words off.
    pub fn clear(&mut self)
        ensures items { self.new.items ≡ [] }
    {
        self.truncate(0);
    }

    /// Puts a word behind the others. The only error is out of memory.
    pub fn push(&mut self, word: Word) -> Result<(), Memory>
        ensures items { self.new.items ≡ (if is_ok result then self.old.items ++ word ∷ [] else self.old.items) }
    {
        self.reserve(1)?;
        self.push_reserved(word)
    }

    /// Takes all words from a place on off.
    pub fn truncate(&mut self, count: usize)
        ensures items { self.new.items ≡ take count self.old.items }
    {
        self.shorts.truncate(count);
        forget_from(&mut self.wides, count);
    }
}

/// The short word at a place.
pub fn short_at(shorts: &[Short], at: usize) -> Short
    requires { at < length shorts.now }
    ensures { result ≡ slice_index_or shorts.now at (Short.Number (pos 0)) }
{
    shorts[at]
}

/// Whether the short word is no integer beyond 32 bits.
#[inline(always)]
pub fn is_plain(short: Short) -> bool
    ensures { result ≡ true → IsPlain short }
{
    match short {
        Short::Wide(_) => false,
        Short::Free => true,
        Short::Slot(_) => true,
        Short::Number(_) => true,
        Short::Name(_) => true,
        Short::Term(_) => true,
    }
}

/// The word that a short one stands for.
fn long_of(wides: &[Beyond], short: Short) -> Word
    ensures { result ≡ long_word wides.now short }
{
    match short {
        Short::Free => Word::Int(0),
        Short::Slot(i) => Word::Var(i as usize),
        Short::Number(i) => Word::Int(i as i64),
        Short::Name(a) => Word::Atom(a),
        Short::Term(k) => Word::Comp(k as usize),
        Short::Wide(k) => Word::Int(wide_at(wides, k as usize).value),
    }
}

/// The word that a short one stands for, if it stands for one.
pub fn value_of(wides: &[Beyond], short: Short) -> Option<Word>
    ensures { result ≡ value_word wides.now short }
{
    match short {
        Short::Free => None,
        Short::Slot(i) => Some(Word::Var(i as usize)),
        Short::Number(i) => Some(Word::Int(i as i64)),
        Short::Name(a) => Some(Word::Atom(a)),
        Short::Term(k) => Some(Word::Comp(k as usize)),
        Short::Wide(k) => Some(Word::Int(wide_at(wides, k as usize).value)),
    }
}

/// The integer at a place, or 0.
fn wide_at(wides: &[Beyond], k: usize) -> Beyond
    ensures { result ≡ slice_index_or wides.now k no_beyond }
{
    if k < wides.len() {
        wides[k]
    } else {
        Beyond { at: 0, value: 0 }
    }
}

/// The short word for a word that is to stand at a place. The only error is out of memory.
pub fn shortened(wides: &mut Vec<Beyond>, at: usize, word: Word) -> Result<Short, Memory>
    ensures stays { Stays wides.old.items wides.new.items }
    ensures means { IfOk result (λ s. long_word wides.new.items s ≡ word) }
    ensures value { IfOk result (λ s. value_word wides.new.items s ≡ Some word) }
    ensures own { IfOk result (λ s. IsOwn wides.new.items at s) }
{
    match word {
        Word::Var(i) => Ok(Short::Slot(short_index(i)?)),
        Word::Int(i) => match i32::try_from(i) {
            Ok(n) => Ok(Short::Number(n)),
            Err(_) => widened(wides, at, i),
        },
        Word::Atom(a) => Ok(Short::Name(a)),
        Word::Comp(k) => Ok(Short::Term(short_index(k)?)),
    }
}

/// A number as one of 32 bits. Where it is beyond these, it is out of memory.
#[inline(always)]
pub fn short_index(i: usize) -> Result<u32, Memory>
    ensures { IfOk result (λ n. n ≡ i) }
{
    match u32::try_from(i) {
        Ok(n) => Ok(n),
        Err(_) => Err(Memory),
    }
}

/// Makes room for so many words more, where there is less. The only error is out of memory.
#[cold]
#[inline(never)]
fn grow(shorts: &mut Vec<Short>, count: usize) -> Result<(), Memory>
    ensures items { shorts.new.items ≡ shorts.old.items }
    ensures room { OnOk result (count + vec_len shorts.new ≤ vec_capacity shorts.new) }
{
    shorts.reserve(count)?;
    Ok(())
}

/// The short word for an integer, which is put to those beyond 32 bits. The only error is out of memory.
#[cold]
#[inline(never)]
fn widened(wides: &mut Vec<Beyond>, at: usize, value: i64) -> Result<Short, Memory>
    ensures stays { Stays wides.old.items wides.new.items }
    ensures means { IfOk result (λ s. long_word wides.new.items s ≡ Word.Int value) }
    ensures value { IfOk result (λ s. value_word wides.new.items s ≡ Some (Word.Int value)) }
    ensures own { IfOk result (λ s. IsOwn wides.new.items at s) }
{
    let k = short_index(wides.len())?;
    wides.push(Beyond { at, value })?;
    Ok(Short::Wide(k))
}

/// Takes the last integers off, as far as they belong to words from a place on.
fn forget_from(wides: &mut Vec<Beyond>, count: usize)
    ensures { StaysBelow count wides.old.items wides.new.items }
{
    while let Some(last) = wides.last() {
        if last.at < count {
            return;
        }
        let _ = wides.pop();
    }
}

/// Takes the last integer off, if it belongs to the word at a place.
pub fn forget_at(wides: &mut Vec<Beyond>, at: usize)
    ensures { StaysBut at wides.old.items wides.new.items }
{
    if let Some(last) = wides.last() {
        if last.at == at {
            let _ = wides.pop();
        }
    }
}
