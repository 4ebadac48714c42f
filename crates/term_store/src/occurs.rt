//! The occurs check.
ghost use Rattle.std.specs.Prelude.{◌≡◌, ℕ, ◌<◌, ◌≤◌, ◌||◌, ◌++◌, ◌+◌, ◌∷◌, [], length, take, drop, slice_index_or, Option, None, false, IfOk, OnOk};
ghost use Rattle.std.specs.List.{All};
ghost use Rattle.pl_term.specs.Variables.{has};
ghost use Rattle.term_store.specs.Apart.{IsApart, NoneFrom, SameFrom};
ghost use Rattle.term_store.specs.Cells.{IsFit, IsFree, heap_of};
ghost use Rattle.term_store.specs.Fit.{IsIn, no_head};
ghost use Rattle.term_store.specs.Heap.{meaning, find, numbered, pushed, words_of};
ghost use Rattle.term_store.specs.Unifying.{any_has};
ghost use Rattle.term_store.specs.Visits.{IsClear, SeenClear};

use crate::cells::{Cells, deref, head_at, word_at};
use crate::ground_terms::is_known_ground;
use crate::made_ground::marked_at;
use crate::older::{Older, is_apart};
use crate::pace::Pace;
use crate::walk::Walk;
use crate::words::Word;
use pl_term::Memory;

/// Whether the unbound variable of a slot occurs in what a word stands for. No term is walked where the bounds tell that it
/// does not. The bounds then hold too when the variable is bound to the word. The only error is out of memory.
pub fn occurs(
    cells: &Cells,
    walk: &mut Walk,
    older: &mut Older,
    slot: usize,
    word: Word,
) -> Result<bool, Memory>
    requires fit { IsFit cells.now }
    requires slot { slot < length cells.now.numbers.items }
    requires free { find slot cells.now.bonds.items ≡ None }
    requires inside { IsIn (heap_of cells.now) word }
    requires apart { IsApart (heap_of cells.now) older.old }
    ensures has { IfOk result (λ b. b ≡ has (numbered (heap_of cells.now) slot) (meaning (heap_of cells.now) word)) }
    ensures apart { IfOk result (λ b. b ≡ false → IsApart (pushed (heap_of cells.now) slot word) older.new) }
{
    if is_apart(older, slot, word) {
        return Ok(false);
    }
    if cells.frontier.is_newer_word(slot, word) {
        older.top = older.top.max(cells.frontier.slots);
        return Ok(false);
    }
    let found = is_found(cells, walk, &mut older.top, slot, word)?;
    Ok(found)
}

/// Whether the unbound variable of a slot is found in what a word stands for. The bound is raised above the slots of the
/// unbound variables that were met. A walk that is not short comes to each compound term once. The only error is out of
/// memory.
pub fn is_found(
    cells: &Cells,
    walk: &mut Walk,
    top: &mut usize,
    slot: usize,
    word: Word,
) -> Result<bool, Memory>
    requires fit { IsFit cells.now }
    requires slot { slot < length cells.now.numbers.items }
    requires free { find slot cells.now.bonds.items ≡ None }
    requires inside { IsIn (heap_of cells.now) word }
    ensures has { IfOk result (λ b. b ≡ has (numbered (heap_of cells.now) slot) (meaning (heap_of cells.now) word)) }
    ensures raised { OnOk result (top.old ≤ top.new) }
    ensures others { IfOk result (λ b. b ≡ false → NoneFrom top.new (heap_of cells.now) (meaning (heap_of cells.now) word)) }
{
    walk.words.clear();
    walk.seen.clear();
    walk.pace = Pace::new();
    walk.words.push(word)?;
    for _ in 0..u64::MAX {
        let Some(next) = walk.words.pop() else {
            return Ok(false);
        };
        let at = deref(cells, next);
        if is_here(cells, walk, top, slot, at)? {
            return Ok(true);
        }
    }
    Err(Memory)
}

/// Whether the word is the variable of the slot. If not, the words of which it is made are still to be looked at, unless it
/// is a compound term that was come by before. The bound is raised above the slot of a variable.
fn is_here(
    cells: &Cells,
    walk: &mut Walk,
    top: &mut usize,
    slot: usize,
    at: Word,
) -> Result<bool, Memory>
    requires fit { IsFit cells.now }
    requires slot { slot < length cells.now.numbers.items }
    requires inside { IsIn (heap_of cells.now) at }
    requires free { IsFree (heap_of cells.now) at }
    requires others { All (IsIn (heap_of cells.now)) walk.old.words.items }
    requires seen { SeenClear top.old slot (heap_of cells.now) (walk.old.words.items ++ at ∷ []) walk.old.seen.list.items }
    ensures others { OnOk result (All (IsIn (heap_of cells.now)) walk.new.words.items) }
    ensures found { IfOk result (λ b.
        (b || any_has (numbered (heap_of cells.now) slot) (heap_of cells.now) walk.new.words.items)
        ≡ (any_has (numbered (heap_of cells.now) slot) (heap_of cells.now) walk.old.words.items
        || has (numbered (heap_of cells.now) slot) (meaning (heap_of cells.now) at))) }
    ensures raised { top.old ≤ top.new }
    ensures above { OnOk result (SameFrom top.new (heap_of cells.now) walk.new.words.items walk.old.words.items at) }
    ensures seen { IfOk result (λ b. b ≡ false → SeenClear top.new slot (heap_of cells.now) walk.new.words.items walk.new.seen.list.items) }
{
    match at {
        Word::Var(i) => {
            *top = raised(cells, *top, i);
            Ok(i == slot)
        }
        Word::Int(_) => Ok(false),
        Word::Atom(_) => Ok(false),
        Word::Comp(k) => {
            come_by(cells, walk, k)?;
            Ok(false)
        }
    }
}

/// Puts the arguments of a compound term on the stack, unless it is known to have no variables, or the walk is known to have come
/// by it before, which is kept where the walk is long.
pub fn come_by(cells: &Cells, walk: &mut Walk, k: usize) -> Result<(), Memory>
    requires fit { IsFit cells.now }
    requires inside { k < length cells.now.heads.items }
    requires others { All (IsIn (heap_of cells.now)) walk.old.words.items }
    ensures others { OnOk result (All (IsIn (heap_of cells.now)) walk.new.words.items) }
    ensures found { OnOk result ((x : ℕ) → All (IsClear x (heap_of cells.now) (walk.old.words.items ++ Word.Comp k ∷ [])) walk.old.seen.list.items
        → any_has x (heap_of cells.now) walk.new.words.items
        ≡ (any_has x (heap_of cells.now) walk.old.words.items || has x (meaning (heap_of cells.now) (Word.Comp k)))) }
    ensures seen { OnOk result ((x : ℕ) → All (IsClear x (heap_of cells.now) (walk.old.words.items ++ Word.Comp k ∷ [])) walk.old.seen.list.items
        → All (IsClear x (heap_of cells.now) walk.new.words.items) walk.new.seen.list.items) }
{
    if marked_at(&cells.grounds, k) {
        return Ok(());
    }
    if is_known_ground(&cells.settled, k) {
        return Ok(());
    }
    let long = walk.pace.is_long(k);
    if long && walk.seen.holds(k) {
        return Ok(());
    }
    push_words(cells, &mut walk.words, k)?;
    if long {
        walk.seen.add(k)?;
    }
    Ok(())
}

/// The bound, or one above the slot.
pub fn raised(cells: &Cells, top: usize, slot: usize) -> usize
    requires { slot < length cells.now.numbers.items }
    ensures raised { top ≤ result }
    ensures above { slot < result }
{
    let _slots = cells.numbers.len();
    if slot < top { top } else { slot + 1 }
}

/// Puts the arguments of a compound term on the stack.
pub fn push_words(cells: &Cells, walk: &mut Vec<Word>, k: usize) -> Result<(), Memory>
    requires fit { IsFit cells.now }
    requires inside { k < length cells.now.heads.items }
    ensures { OnOk result (walk.new.items ≡ walk.old.items
        ++ words_of cells.now.args.items (slice_index_or cells.now.heads.items k no_head)) }
{
    let head = head_at(cells, k);
    push_all(cells, walk, head.start as usize, head.count as usize)
}

/// Puts so many arguments from a place on on the stack, the last on top.
fn push_all(cells: &Cells, walk: &mut Vec<Word>, start: usize, count: usize) -> Result<(), Memory>
    requires { start + count ≤ length cells.now.args.items }
    ensures { OnOk result (walk.new.items ≡ walk.old.items ++ take count (drop start cells.now.args.items)) }
{
    let _words = cells.args.len();
    walk.reserve(count)?;
    for i in 0..count {
        walk.push_reserved(word_at(cells, start + i));
    }
    Ok(())
}
