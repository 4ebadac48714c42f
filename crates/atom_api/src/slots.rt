//! A vector of texts, with the number of each.
ghost use Rattle.std.specs.Prelude.{◌≡◌, ◌≢◌, [], ◌<◌, ◌≤◌, ◌^◌, ◌+◌, ◌==◌, ◌↔◌, ℕ, Option, Some, None, IfOk, OnErr, IsSome, IsTrue, false, length, get_or, map, encode_utf8_all, nat_le, not, if◌then◌else◌};
ghost use Rattle.std.specs.HashMap.{get_by_text};
ghost use Rattle.std.specs.List.{list_any};
ghost use Rattle.pl_term.specs.Tree.{Chars};
ghost use Rattle.pl_term.specs.Texts.{size};
ghost use Rattle.atom_api.specs.Names.{with_name};
ghost use Rattle.atom_api.specs.Slots.{names_of, Indexed, Fitting, swept, without};

use crate::atom::Atom;
use crate::text_buf::TextBuf;
use pl_term::{Memory, Text};
use std::alloc::Global;
use std::collections::HashMap;
use std::convert::AsStr;

/// How many slots there can be.
const MOST_SLOTS: usize = 4_294_967_296;

/// Slots, each with a text or free, and the number of the slot of each text.
#[derive(Drop)]
pub struct Slots {
    alloc: Global,
    pub texts: Vec<Option<Text>>,
    numbers: HashMap<String, u32>,
    /// Where the search for a free slot begins.
    from: usize,
    /// Room for a mark of each slot.
    marks: Vec<bool>,
    ghost few: { length texts.items ≤ 2 ^ 32 },
    ghost indexed: { Indexed (λ bytes. get_by_text numbers bytes) (names_of texts.items) },
    ghost fitting: { Fitting (names_of texts.items) },
    ghost room: { length texts.items ≤ length marks.items },
}

impl Slots {
    /// No slots.
    pub fn new(alloc: Global) -> Slots
        ensures { result.texts.items ≡ [] }
    {
        Slots {
            alloc,
            texts: Vec::new(alloc),
            numbers: HashMap::new(alloc),
            from: 0,
            marks: Vec::new(alloc),
        }
    }

    /// The slot of a text.
    pub fn find(&self, text: &Text) -> Option<u32>
        ensures { (k : ℕ) → (result ≡ Some k) ↔ (names_of self.now.texts.items k ≡ Some text.now) }
    {
        self.numbers.get(text.as_str()).copied()
    }

    /// Puts a text that has no slot into a free one. The only error is out of memory, after which all texts stand where
    /// they stood.
    pub fn put(&mut self, text: &Text) -> Result<u32, Memory>
        requires fits { size text.now ≤ 248 }
        requires absent { (k : ℕ) → names_of self.old.texts.items k ≢ Some text.now }
        ensures free { IfOk result (λ k. (k ≤ length self.old.texts.items) × (names_of self.old.texts.items k ≡ None)) }
        ensures slots { length self.new.texts.items ≤ length self.old.texts.items + 1 }
        ensures put { IfOk result (λ k. names_of self.new.texts.items ≡ with_name (names_of self.old.texts.items) k text.now) }
        ensures err { OnErr result (names_of self.new.texts.items ≡ names_of self.old.texts.items) }
    {
        let slot = self.spare()?;
        let number = slot as u32;
        let copy = text.copy(self.alloc)?;
        let key = String::from_str(self.alloc, text.as_str())?;
        text.scalars();
        self.numbers.insert(key, number)?;
        self.texts[slot] = Some(copy);
        Ok(number)
    }

    /// A free slot, made where there is none.
    fn spare(&mut self) -> Result<usize, Memory>
        ensures free { IfOk result (λ k. (k < length self.new.texts.items) × (k < 2 ^ 32) × (names_of self.new.texts.items k ≡ None)) }
        ensures near { IfOk result (λ k. k ≤ length self.old.texts.items) }
        ensures slots { length self.new.texts.items ≤ length self.old.texts.items + 1 }
        ensures same { names_of self.new.texts.items ≡ names_of self.old.texts.items }
    {
        let slot = first_free(self.texts.as_slice(), self.from);
        self.from = slot;
        if slot < self.texts.len() {
            return Ok(slot);
        }
        if slot >= MOST_SLOTS {
            return Err(Memory);
        }
        self.marks.push(false)?;
        self.texts.push(None)?;
        Ok(slot)
    }

    /// Puts the text of a slot into the buffer.
    pub fn read(&self, slot: usize, buf: &mut TextBuf)
        requires { IsSome (names_of self.now.texts.items slot) }
        ensures { names_of self.now.texts.items slot ≡ Some buf.new }
    {
        if let Some(text) = &self.texts[slot] {
            buf.put(text.as_str());
        }
    }

    /// Whether the slot has this text.
    pub fn has(&self, slot: usize, text: &Text) -> bool
        ensures { IsTrue result ↔ (names_of self.now.texts.items slot ≡ Some text.now) }
    {
        if slot >= self.texts.len() {
            return false;
        }
        match &self.texts[slot] {
            Some(own) => own.same(text),
            None => false,
        }
    }

    /// Frees the slots from `from` on that the list does not name.
    pub fn keep(&mut self, from: usize, live: &[Atom])
        ensures { names_of self.new.texts.items ≡ swept from live.now (names_of self.old.texts.items) }
    {
        clear(&mut self.marks);
        mark(&mut self.marks, live);
        for slot in from..self.texts.len() {
            if !self.marks[slot] {
                self.free(slot);
            }
        }
        self.from = from;
    }

    /// Frees a slot.
    fn free(&mut self, slot: usize)
        requires { slot < length self.old.texts.items }
        ensures names { names_of self.new.texts.items ≡ without (names_of self.old.texts.items) slot }
        ensures slots { length self.new.texts.items ≡ length self.old.texts.items }
        ensures marks { self.new.marks.items ≡ self.old.marks.items }
    {
        if let Some(text) = self.texts[slot].take() {
            self.numbers.remove(text.as_str());
        }
    }
}

/// The first free slot from `from` on, or the number of slots.
fn first_free(texts: &[Option<Text>], from: usize) -> usize
    ensures within { result ≤ length texts.now }
    ensures free { get_or texts.now result None ≡ None }
{
    for slot in from..texts.len() {
        if texts[slot].is_none() {
            return slot;
        }
    }
    texts.len()
}

/// Takes all marks away.
fn clear(marks: &mut Vec<bool>)
    ensures clear { (k : ℕ) → get_or marks.new.items k false ≡ false }
    ensures len { length marks.new.items ≡ length marks.old.items }
{
    for each in marks.iter_mut() {
        *each = false;
    }
}

/// Sets the marks of the slots that the list names.
fn mark(marks: &mut Vec<bool>, live: &[Atom])
    requires { (k : ℕ) → get_or marks.old.items k false ≡ false }
    ensures marked { (k : ℕ) → k < length marks.old.items → get_or marks.new.items k false ≡ list_any (λ a. a == k) live.now }
    ensures len { length marks.new.items ≡ length marks.old.items }
{
    for atom in live {
        let slot = atom.slot() as usize;
        if slot < marks.len() {
            marks[slot] = true;
        }
    }
}
