//! The vectors of a store, and how its words are read.
ghost use Rattle.std.specs.Prelude.{◌≡◌, ◌<◌, [], length, pos, slice_index_or};
ghost use Rattle.term_store.specs.Cells.{Followed, IsFit, IsFree, heap_of};
ghost use Rattle.term_store.specs.Heap.{blank_heap, meaning};
ghost use Rattle.term_store.specs.Fit.{IsIn, no_head};

use crate::bonds::Bonds;
use crate::frontier::Frontier;
use crate::ground_terms::GroundTerms;
use crate::shorts::{Short, Words};
use crate::words::{Head, Word};
use std::alloc::Global;

/// The compound terms by their heads and arguments, the variables' numbers, which rise with the slots, and what they are bound
/// to, by slot and in the order in which the bindings were made. `grounds` has for the compound terms up to the last marked one whether they were made of constants and such terms alone, and `settled` those in which a walk found no
/// variable, under the bindings that there are. Below `frontier` no newer variable occurs in a term.
#[derive(Drop)]
pub struct Cells {
    pub heads: Vec<Head>,
    pub args: Words,
    pub numbers: Vec<u64>,
    pub bonds: Bonds,
    pub grounds: Vec<bool>,
    pub settled: GroundTerms,
    pub frontier: Frontier,
}

impl Cells {
    /// No terms and no variables.
    pub fn new(alloc: Global) -> Cells
        ensures fit { IsFit result }
        ensures blank { heap_of result ≡ blank_heap }
    {
        Cells {
            heads: Vec::new(alloc),
            args: Words::new(alloc),
            numbers: Vec::new(alloc),
            bonds: Bonds::new(alloc),
            grounds: Vec::new(alloc),
            settled: GroundTerms::new(alloc),
            frontier: Frontier::none(),
        }
    }
}

/// The word that this word stands for once bound variables are followed.
pub fn deref(cells: &Cells, word: Word) -> Word
    requires fit { IsFit cells.now }
    requires inside { IsIn (heap_of cells.now) word }
    ensures means { meaning (heap_of cells.now) result ≡ meaning (heap_of cells.now) word }
    ensures free { IsFree (heap_of cells.now) result }
    ensures inside { IsIn (heap_of cells.now) result }
{
    let mut at = word;
    while let Word::Var(slot) = at {
        match cells.bonds.value(slot) {
            None => return at,
            Some(next) => at = next,
        }
    }
    at
}

/// The word at a place, as it is kept, once bound variables are followed.
#[inline(always)]
pub fn follow(cells: &Cells, at: usize) -> Short
    requires fit { IsFit cells.now }
    requires at { at < length cells.now.args.items }
    requires inside { IsIn (heap_of cells.now) (slice_index_or cells.now.args.items at (Word.Int (pos 0))) }
    ensures { Followed (heap_of cells.now) result (slice_index_or cells.now.args.items at (Word.Int (pos 0))) }
{
    let mut short = cells.args.short(at);
    while let Short::Slot(slot) = short {
        match cells.bonds.short(slot as usize) {
            Short::Free => return short,
            next => short = next,
        }
    }
    short
}

/// The head of a compound term.
pub fn head_at(cells: &Cells, k: usize) -> Head
    requires { k < length cells.now.heads.items }
    ensures { result ≡ slice_index_or cells.now.heads.items k no_head }
{
    cells.heads[k]
}

/// The argument at a place.
pub fn word_at(cells: &Cells, at: usize) -> Word
    requires { at < length cells.now.args.items }
    ensures { result ≡ slice_index_or cells.now.args.items at (Word.Int (pos 0)) }
{
    cells.args.get(at)
}
