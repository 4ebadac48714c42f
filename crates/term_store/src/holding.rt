//! Whether a variable of a store occurs in a part of a clause that was made there.
ghost use Rattle.std.specs.Prelude.{◌≡◌, ℕ, ◌<◌, ◌≤◌, length, pos, slice_index_or, false, true, None, IfOk, OnOk};
ghost use Rattle.std.specs.List.{All};
ghost use Rattle.pl_term.specs.Variables.{has};
ghost use Rattle.term_store.specs.Blocks.{IsBlock, arguments_of, no_range};
ghost use Rattle.term_store.specs.Cells.{IsFit, heap_of};
ghost use Rattle.term_store.specs.Entering.{IsConstant, IsGroundBefore, IsHarmless, IsReady, entered};
ghost use Rattle.term_store.specs.Fit.{IsIn};
ghost use Rattle.term_store.specs.Heap.{find, meaning, numbered};

use crate::block::{Block, block_head};
use crate::cells::{Cells, deref};
use crate::copies::{known_at, range_of};
use crate::ground_terms::is_known_ground;
use crate::made_ground::marked_at;
use crate::occurs::{is_found, occurs};
use crate::older::Older;
use crate::shorts::{Short, Words};
use crate::walk::Walk;
use crate::words::Word;
use pl_term::Memory;

/// Whether the unbound variable of a slot occurs in a compound term of a block that was made at a word. Of the variables of the
/// block so many were met before, and the others are new, so it occurs in none of these. Where a variable may occur in what
/// those met before stand for, that is walked; the term that was made is walked only where the variable was found there. The only
/// error is out of memory.
#[inline(always)]
pub fn is_held(
    cells: &mut Cells,
    walk: &mut Walk,
    block: &Block,
    known: &Words,
    before: usize,
    slot: usize,
    k: usize,
    word: Word,
    met: bool,
) -> Result<bool, Memory>
    requires fit { IsFit cells.old }
    requires block { IsBlock block.now }
    requires slot { slot < length cells.old.numbers.items }
    requires free { find slot cells.old.bonds.items ≡ None }
    requires inside { IsIn (heap_of cells.old) word }
    requires known { All (IsIn (heap_of cells.old)) known.now.items }
    requires before { before ≤ length known.now.items }
    requires part { k < length block.now.heads.items }
    requires ready { IsReady block.now known.now.items (Word.Comp k) }
    requires new { (x : ℕ) → before ≤ x → x < length known.now.items
        → has (numbered (heap_of cells.old) slot) (meaning (heap_of cells.old) (slice_index_or known.now.items x (Word.Int (pos 0)))) ≡ false }
    requires ground { met ≡ false → (j : ℕ) → (slice_index_or block.now.ranges.items k no_range).low ≤ j → j ≤ k
        → All (IsGroundBefore (heap_of cells.old) known.now.items before) (arguments_of block.now j) }
    requires means { (from : ℕ) × (meaning (heap_of cells.old) word ≡ entered block.now (heap_of cells.old) from known.now.items (Word.Comp k)) }
    ensures fit { IsFit cells.new }
    ensures kept { heap_of cells.new ≡ heap_of cells.old }
    ensures held { IfOk result (λ b. b ≡ has (numbered (heap_of cells.old) slot) (meaning (heap_of cells.old) word)) }
{
    if !met {
        return Ok(false);
    }
    let may = may_hold(cells, walk, block, known, before, slot, k)?;
    if !may {
        return Ok(false);
    }
    let mut older = Older::none();
    let held = occurs(cells, walk, &mut older, slot, word)?;
    Ok(held)
}

/// Whether the unbound variable of a slot occurs in what a variable of the block stands for that was met before, and that is in a
/// compound term of the block. The only error is out of memory.
#[inline(never)]
fn may_hold(
    cells: &mut Cells,
    walk: &mut Walk,
    block: &Block,
    known: &Words,
    before: usize,
    slot: usize,
    k: usize,
) -> Result<bool, Memory>
    requires fit { IsFit cells.old }
    requires block { IsBlock block.now }
    requires slot { slot < length cells.old.numbers.items }
    requires free { find slot cells.old.bonds.items ≡ None }
    requires known { All (IsIn (heap_of cells.old)) known.now.items }
    requires before { before ≤ length known.now.items }
    requires part { k < length block.now.heads.items }
    ensures fit { IsFit cells.new }
    ensures kept { heap_of cells.new ≡ heap_of cells.old }
    ensures none { IfOk result (λ b. b ≡ false → (j : ℕ) → (slice_index_or block.now.ranges.items k no_range).low ≤ j → j ≤ k
        → All (IsHarmless (heap_of cells.old) slot known.now.items before) (arguments_of block.now j)) }
{
    let range = range_of(block, k);
    for j in range.low..k + 1 {
        let met = has_met(cells, walk, block, j, known, before, slot)?;
        if met {
            return Ok(true);
        }
    }
    Ok(false)
}

/// Whether the unbound variable of a slot occurs in what an argument of a compound term of the block, a variable that was met
/// before, stands for. The only error is out of memory.
#[inline(always)]
fn has_met(
    cells: &mut Cells,
    walk: &mut Walk,
    block: &Block,
    j: usize,
    known: &Words,
    before: usize,
    slot: usize,
) -> Result<bool, Memory>
    requires fit { IsFit cells.old }
    requires slot { slot < length cells.old.numbers.items }
    requires free { find slot cells.old.bonds.items ≡ None }
    requires known { All (IsIn (heap_of cells.old)) known.now.items }
    requires before { before ≤ length known.now.items }
    requires block { IsBlock block.now }
    requires here { j < length block.now.heads.items }
    ensures fit { IsFit cells.new }
    ensures kept { heap_of cells.new ≡ heap_of cells.old }
    ensures none { IfOk result (λ b. b ≡ false → All (IsHarmless (heap_of cells.old) slot known.now.items before) (arguments_of block.now j)) }
{
    let head = block_head(block, j);
    for i in 0..head.count {
        let at = head.start as usize + i as usize;
        let met = is_met(cells, walk, block, at, known, before, slot)?;
        if met {
            return Ok(true);
        }
    }
    Ok(false)
}

/// Whether the word is a variable that was met before, and the unbound variable of a slot occurs in what it stands for. The only
/// error is out of memory.
#[inline(always)]
fn is_met(
    cells: &mut Cells,
    walk: &mut Walk,
    block: &Block,
    at: usize,
    known: &Words,
    before: usize,
    slot: usize,
) -> Result<bool, Memory>
    requires fit { IsFit cells.old }
    requires slot { slot < length cells.old.numbers.items }
    requires free { find slot cells.old.bonds.items ≡ None }
    requires known { All (IsIn (heap_of cells.old)) known.now.items }
    requires before { before ≤ length known.now.items }
    requires at { at < length block.now.args.items }
    ensures fit { IsFit cells.new }
    ensures kept { heap_of cells.new ≡ heap_of cells.old }
    ensures none { IfOk result (λ b. b ≡ false → IsHarmless (heap_of cells.old) slot known.now.items before (slice_index_or block.now.args.items at (Word.Int (pos 0)))) }
{
    let Short::Slot(x) = block.args.short(at) else {
        return Ok(false);
    };
    if x as usize >= before {
        return Ok(false);
    }
    match known.short(x as usize) {
        Short::Number(_) => Ok(false),
        Short::Name(_) => Ok(false),
        held => {
            if cells.frontier.is_newer(slot, held) {
                return Ok(false);
            }
            let met = known_at(known, x as usize);
            let held = stands_in(cells, walk, slot, met)?;
            Ok(held)
        }
    }
}

/// Whether the unbound variable of a slot occurs in what a word stands for. A compound term in which no variable occurs is kept as
/// one. The only error is out of memory.
#[inline(never)]
fn stands_in(cells: &mut Cells, walk: &mut Walk, slot: usize, word: Word) -> Result<bool, Memory>
    requires fit { IsFit cells.old }
    requires slot { slot < length cells.old.numbers.items }
    requires free { find slot cells.old.bonds.items ≡ None }
    requires inside { IsIn (heap_of cells.old) word }
    ensures fit { IsFit cells.new }
    ensures kept { heap_of cells.new ≡ heap_of cells.old }
    ensures has { IfOk result (λ b. b ≡ has (numbered (heap_of cells.old) slot) (meaning (heap_of cells.old) word)) }
{
    if is_constant(word) {
        return Ok(false);
    }
    let mut top = 0;
    let found = is_found(cells, walk, &mut top, slot, word)?;
    if found {
        return Ok(true);
    }
    if top > 0 {
        return Ok(false);
    }
    keep_ground(cells, word)?;
    Ok(false)
}

/// Keeps the compound term that a word stands for as one in which no variable occurs, unless it is known to be one. The only error
/// is out of memory.
fn keep_ground(cells: &mut Cells, word: Word) -> Result<(), Memory>
    requires fit { IsFit cells.old }
    requires inside { IsIn (heap_of cells.old) word }
    requires ground { (x : ℕ) → has x (meaning (heap_of cells.old) word) ≡ false }
    ensures fit { IsFit cells.new }
    ensures kept { heap_of cells.new ≡ heap_of cells.old }
{
    let Word::Comp(k) = deref(cells, word) else {
        return Ok(());
    };
    if marked_at(&cells.grounds, k) || is_known_ground(&cells.settled, k) {
        return Ok(());
    }
    let heads = cells.heads.len();
    let bindings = cells.bonds.len();
    cells.settled.add(k, heads, bindings)?;
    Ok(())
}

/// Whether the word is a constant.
fn is_constant(word: Word) -> bool
    ensures { result ≡ true → IsConstant word }
{
    match word {
        Word::Var(_) => false,
        Word::Int(_) => true,
        Word::Atom(_) => true,
        Word::Comp(_) => false,
    }
}
