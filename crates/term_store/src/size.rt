//! The cells of a term whose parts are shared.
ghost use Rattle.std.specs.Prelude.{◌≡◌, ℕ, ◌<◌, ◌≤◌, ◌+◌, ◌-◌, ◌^◌, length, take, slice_index_or, true, false, IfNone, IfOk, IfSome, OnOk};
ghost use Rattle.std.specs.List.{All};
ghost use Rattle.pl_term.specs.Cells.{compound_cells};
ghost use Rattle.term_store.specs.Cells.{IsFit, IsFree, heap_of};
ghost use Rattle.term_store.specs.Contents.{Holds, term_at};
ghost use Rattle.term_store.specs.Fit.{IsIn};
ghost use Rattle.term_store.specs.Heap.{meaning};
ghost use Rattle.term_store.specs.Sizes.{AreWithin, IsCount, sizes_of};

use crate::cells::{Cells, deref, head_at, word_at};
use crate::occurs::push_words;
use crate::seen::Seen;
use crate::store::Store;
use crate::walk::Walk;
use crate::words::{Place, Word};
use pl_term::Memory;
use std::alloc::Global;

/// What is known of the cells of a term: nothing yet, how many they are, or that they are 2^64 or more.
#[derive(Clone, Copy, Debug, Drop)]
pub enum Size {
    Unknown,
    Cells(u64),
    Over,
}

impl Store {
    /// How many cells may still be used.
    pub fn free(&self) -> u64
        ensures { result ≡ self.now.budget - self.now.used }
    {
        self.budget - self.used
    }

    /// The cells of the compound terms in the term at a place, or none where they are 2^64 or more. Shared parts count at each
    /// place where they stand, as they do for `cells_within`, but each compound term is looked at only once or twice. The only
    /// error is out of memory.
    pub fn compound_cells(&mut self, place: Place) -> Result<Option<u64>, Memory>
        requires { Holds self.old place }
        ensures same { self.new ≡ self.old }
        ensures counted { IfOk result (λ o. IfSome o (λ n. n ≡ compound_cells (term_at self.old place))) }
        ensures over { IfOk result (λ o. IfNone o (2 ^ 64 ≤ compound_cells (term_at self.old place))) }
    {
        count_cells(self.alloc, &self.cells, &mut self.walk, place.word)
    }
}

/// The cells of the compound terms in what a word stands for, or none where they are 2^64 or more. The only error is out of
/// memory.
pub fn count_cells(
    alloc: Global,
    cells: &Cells,
    walk: &mut Walk,
    word: Word,
) -> Result<Option<u64>, Memory>
    requires fit { IsFit cells.now }
    requires inside { IsIn (heap_of cells.now) word }
    ensures counted { IfOk result (λ o. IfSome o (λ n. n ≡ compound_cells (meaning (heap_of cells.now) word))) }
    ensures over { IfOk result (λ o. IfNone o (2 ^ 64 ≤ compound_cells (meaning (heap_of cells.now) word))) }
{
    walk.words.clear();
    walk.seen.clear();
    let mut sizes = Vec::new(alloc);
    walk.words.push(word)?;
    for _ in 0..u64::MAX {
        let Some(next) = walk.words.pop() else {
            let root = deref(cells, word);
            return counted(size_of(&walk.seen, &sizes, root, cells));
        };
        let at = deref(cells, next);
        if !count_word(cells, walk, &mut sizes, at)? {
            return Ok(None);
        }
    }
    Err(Memory)
}

/// The size as a number of cells. One that is not known is an error.
fn counted(size: Size) -> Result<Option<u64>, Memory>
    ensures counted { IfOk result (λ o. IfSome o (λ n. size ≡ Size.Cells n)) }
    ensures over { IfOk result (λ o. IfNone o (size ≡ Size.Over)) }
{
    match size {
        Size::Unknown => Err(Memory),
        Size::Cells(n) => Ok(Some(n)),
        Size::Over => Ok(None),
    }
}

/// Counts the cells of a compound term if those of its arguments are known. Else it and its arguments are to be counted. The
/// answer is false where the cells are 2^64 or more.
fn count_word(
    cells: &Cells,
    walk: &mut Walk,
    sizes: &mut Vec<u64>,
    at: Word,
) -> Result<bool, Memory>
    requires fit { IsFit cells.now }
    requires inside { IsIn (heap_of cells.now) at }
    requires words { All (IsIn (heap_of cells.now)) walk.old.words.items }
    requires sizes { sizes.old.items ≡ sizes_of (heap_of cells.now) walk.old.seen.list.items }
    ensures words { OnOk result (All (IsIn (heap_of cells.now)) walk.new.words.items) }
    ensures sizes { OnOk result (sizes.new.items ≡ sizes_of (heap_of cells.now) walk.new.seen.list.items) }
    ensures parts { OnOk result (AreWithin (heap_of cells.now) (compound_cells (meaning (heap_of cells.now) at)) walk.old.words.items walk.new.words.items) }
    ensures over { IfOk result (λ b. b ≡ false → 2 ^ 64 ≤ compound_cells (meaning (heap_of cells.now) at)) }
{
    let Word::Comp(k) = at else {
        return Ok(true);
    };
    if walk.seen.holds(k) {
        return Ok(true);
    }
    match sum_of(cells, &walk.seen, sizes, k) {
        Size::Unknown => {
            walk.words.push(at)?;
            push_words(cells, &mut walk.words, k)?;
            Ok(true)
        }
        Size::Cells(n) => {
            walk.seen.add(k)?;
            sizes.push(n)?;
            Ok(true)
        }
        Size::Over => Ok(false),
    }
}

/// The size of a compound term, as far as those of its arguments are known.
fn sum_of(cells: &Cells, seen: &Seen, sizes: &[u64], k: usize) -> Size
    requires fit { IsFit cells.now }
    requires inside { k < length cells.now.heads.items }
    requires sizes { sizes.now ≡ sizes_of (heap_of cells.now) seen.now.list.items }
    ensures { IsCount result (compound_cells (meaning (heap_of cells.now) (Word.Comp k))) }
{
    let head = head_at(cells, k);
    let mut sum = plus(Size::Cells(1), Size::Cells(head.count as u64));
    for i in 0..head.count as usize {
        let at = deref(cells, word_at(cells, head.start as usize + i));
        sum = plus(sum, size_of(seen, sizes, at, cells));
    }
    sum
}

/// The size of both together.
fn plus(left: Size, right: Size) -> Size
    ensures { (m n : ℕ) → IsCount left m → IsCount right n → IsCount result (m + n) }
{
    match (left, right) {
        (Size::Cells(m), Size::Cells(n)) => match m.checked_add(n) {
            Some(sum) => Size::Cells(sum),
            None => Size::Over,
        },
        (Size::Over, _) => Size::Over,
        (_, Size::Over) => Size::Over,
        _ => Size::Unknown,
    }
}

/// The size of what a word stands for that is no bound variable.
fn size_of(seen: &Seen, sizes: &[u64], at: Word, cells: &Cells) -> Size
    requires fit { IsFit cells.now }
    requires inside { IsIn (heap_of cells.now) at }
    requires free { IsFree (heap_of cells.now) at }
    requires sizes { sizes.now ≡ sizes_of (heap_of cells.now) seen.now.list.items }
    ensures { IsCount result (compound_cells (meaning (heap_of cells.now) at)) }
{
    match at {
        Word::Var(_) => Size::Cells(0),
        Word::Int(_) => Size::Cells(0),
        Word::Atom(_) => Size::Cells(0),
        Word::Comp(k) => match place_of(seen, k) {
            Some(i) => Size::Cells(sizes[i]),
            None => Size::Unknown,
        },
    }
}

/// Where in the list a compound term is known to stand.
fn place_of(seen: &Seen, k: usize) -> Option<usize>
    ensures within { IfSome result (λ i. i < length seen.now.list.items) }
    ensures stands { IfSome result (λ i. slice_index_or seen.now.list.items i 0 ≡ k) }
{
    if k >= seen.places.len() {
        return None;
    }
    let at = seen.places[k];
    if at < seen.list.len() && seen.list[at] == k {
        Some(at)
    } else {
        None
    }
}
