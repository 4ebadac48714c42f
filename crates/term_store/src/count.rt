//! Counting the cells of a term, up to a bound.
ghost use Rattle.std.specs.Prelude.{◌≡◌, ◌≤◌, ◌<◌, ◌+◌, IfNone, IfOk, IfSome, OnOk};
ghost use Rattle.std.specs.List.{All};
ghost use Rattle.pl_term.specs.Cells.{cells, compound_cells};
ghost use Rattle.term_store.specs.Cells.{IsFit, IsFree, heap_of};
ghost use Rattle.term_store.specs.Contents.{Holds, term_at};
ghost use Rattle.term_store.specs.Counting.{cost, total};
ghost use Rattle.term_store.specs.Fit.{IsIn};
ghost use Rattle.term_store.specs.Heap.{meaning};

use crate::cells::{Cells, deref, head_at};
use crate::occurs::push_words;
use crate::store::Store;
use crate::words::{Place, Word};
use pl_term::Memory;
use std::alloc::Global;

impl Store {
    /// The cells of the compound terms in the term at a place, or none where they are more than the limit; then the term has
    /// more cells than the limit. Shared parts count at each place where they stand, as they do in a term that is saved, and
    /// the time is that of so many cells as the limit at most. The only error is out of memory.
    pub fn cells_within(&self, place: Place, limit: u64) -> Result<Option<u64>, Memory>
        requires { Holds self.now place }
        ensures counted { IfOk result (λ o. IfSome o (λ n. n ≡ compound_cells (term_at self.now place))) }
        ensures within { IfOk result (λ o. IfSome o (λ n. n ≤ limit)) }
        ensures over { IfOk result (λ o. IfNone o (limit < cells (term_at self.now place))) }
    {
        count_within(self.alloc, &self.cells, place.word, limit)
    }
}

/// The cells of the compound terms in what a word stands for, or none where they are more than the limit. The only error is
/// out of memory.
fn count_within(alloc: Global, cells: &Cells, word: Word, limit: u64) -> Result<Option<u64>, Memory>
    requires fit { IsFit cells.now }
    requires inside { IsIn (heap_of cells.now) word }
    ensures counted { IfOk result (λ o. IfSome o (λ n. n ≡ compound_cells (meaning (heap_of cells.now) word))) }
    ensures within { IfOk result (λ o. IfSome o (λ n. n ≤ limit)) }
    ensures over { IfOk result (λ o. IfNone o (limit < compound_cells (meaning (heap_of cells.now) word))) }
{
    let mut walk = vec![in alloc; word]?;
    let mut left = limit;
    for _ in 0..u64::MAX {
        let Some(next) = walk.pop() else {
            return Ok(Some(limit - left));
        };
        let at = deref(cells, next);
        let count = open(cells, &mut walk, at)?;
        let Some(rest) = take(left, count) else {
            return Ok(None);
        };
        left = rest;
    }
    Err(Memory)
}

/// Puts the arguments of a compound term on the stack, and says how many they are. A word that is none has no cells.
fn open(cells: &Cells, walk: &mut Vec<Word>, at: Word) -> Result<Option<usize>, Memory>
    requires fit { IsFit cells.now }
    requires inside { IsIn (heap_of cells.now) at }
    requires free { IsFree (heap_of cells.now) at }
    requires words { All (IsIn (heap_of cells.now)) walk.old.items }
    ensures words { OnOk result (All (IsIn (heap_of cells.now)) walk.new.items) }
    ensures counted { IfOk result (λ o. total (heap_of cells.now) walk.new.items + cost o
        ≡ total (heap_of cells.now) walk.old.items + compound_cells (meaning (heap_of cells.now) at)) }
{
    match at {
        Word::Var(_) => Ok(None),
        Word::Int(_) => Ok(None),
        Word::Atom(_) => Ok(None),
        Word::Comp(k) => {
            push_words(cells, walk, k)?;
            Ok(Some(head_at(cells, k).count as usize))
        }
    }
}

/// What a word with so many arguments leaves of a number of cells, or none where it takes more.
fn take(left: u64, count: Option<usize>) -> Option<u64>
    ensures taken { IfSome result (λ rest. rest + cost count ≡ left) }
    ensures over { IfNone result (left < cost count) }
{
    let Some(count) = count else {
        return Some(left);
    };
    let count = count as u64;
    if count < left {
        Some(left - count - 1)
    } else {
        None
    }
}
