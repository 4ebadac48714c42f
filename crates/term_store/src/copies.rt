//! Parts of a block, made in a store.
ghost use Rattle.std.specs.Prelude.{◌≡◌, ℕ, ◌+◌, ◌<◌, ◌≤◌, ◌++◌, ◌∷◌, [], length, map, take, pos, slice_index_or, is_ok, if◌then◌else◌, false, true, IfOk, OnErr, OnOk};
ghost use Rattle.std.specs.List.{All};
ghost use Rattle.term_store.specs.Blocks.{IsBlock, IsPart, arguments_of, block_heap, copied, no_range};
ghost use Rattle.term_store.specs.Cells.{IsFit, heap_of};
ghost use Rattle.term_store.specs.Entering.{IsGroundBefore, IsReady, entered};
ghost use Rattle.term_store.specs.Findings.{AreFound, IsFound};
ghost use Rattle.term_store.specs.Fit.{IsIn, IsWord, no_head};
ghost use Rattle.term_store.specs.Heap.{words_of};
ghost use Rattle.term_store.specs.Making.{Made};
ghost use Rattle.term_store.specs.Nodes.{Gains, StandsFor};

use crate::block::{Block, Range, block_head};
use crate::cells::Cells;
use crate::made_ground::{is_ground_short, marked_at};
use crate::make::finish_marked;
use crate::shorts::{Short, Words, is_plain, short_index};
use crate::words::{Head, Word};
use pl_term::Memory;

/// Makes what a word of a block stands for, where the words stand for the block's variables, all of which in it were met. The
/// only error is out of memory, after which compound terms may have been made.
pub fn copy_part(
    cells: &mut Cells,
    block: &Block,
    known: &Words,
    part: Word,
) -> Result<Word, Memory>
    requires fit { IsFit cells.old }
    requires block { IsBlock block.now }
    requires known { All (IsIn (heap_of cells.old)) known.now.items }
    requires part { IsIn (block_heap block.now) part }
    requires ready { IsReady block.now known.now.items part }
    ensures fit { IsFit cells.new }
    ensures gains { Gains (heap_of cells.old) (heap_of cells.new) }
    ensures copied { IfOk result (λ w. (from : ℕ) → StandsFor (heap_of cells.new) (entered block.now (heap_of cells.old) from known.now.items part) w) }
{
    if let Word::Comp(k) = part {
        let made = copy_compounds(cells, block, known, k, 0)?;
        return Ok(Word::Comp(made.at));
    }
    if let Word::Var(x) = part {
        return Ok(known_at(known, x));
    }
    Ok(part)
}

/// Where the copy of a compound term stands, and whether a variable may occur in what a variable of the block stands for that was
/// met before, and that is in the term.
#[derive(Clone, Copy, Debug, Drop)]
pub struct Copied {
    pub at: usize,
    pub met: bool,
}

/// Makes a compound term of a block, with all that stands below it. So many variables of the block were met before.
#[inline(always)]
pub fn copy_compounds(
    cells: &mut Cells,
    block: &Block,
    known: &Words,
    k: usize,
    before: usize,
) -> Result<Copied, Memory>
    requires fit { IsFit cells.old }
    requires block { IsBlock block.now }
    requires known { All (IsIn (heap_of cells.old)) known.now.items }
    requires inside { k < length block.now.heads.items }
    requires ready { IsReady block.now known.now.items (Word.Comp k) }
    requires few { before ≤ length known.now.items }
    ensures fit { IsFit cells.new }
    ensures gains { Gains (heap_of cells.old) (heap_of cells.new) }
    ensures copied { IfOk result (λ r. (from : ℕ) → StandsFor (heap_of cells.new) (entered block.now (heap_of cells.old) from known.now.items (Word.Comp k)) (Word.Comp r.at)) }
    ensures ground { IfOk result (λ r. r.met ≡ false → (j : ℕ) → (slice_index_or block.now.ranges.items k no_range).low ≤ j → j ≤ k
        → All (IsGroundBefore (heap_of cells.old) known.now.items before) (arguments_of block.now j)) }
{
    let range = range_of(block, k);
    let low = range.low;
    let above = cells.heads.len();
    let mut met = false;
    for j in low..k + 1 {
        copy_compound(cells, block, j, known, low, above, before, &mut met)?;
    }
    Ok(Copied {
        at: above + (k - low),
        met,
    })
}

/// Makes a compound term of a block once more, where the words stand for the block's variables, and its earlier compound
/// terms from `low` on are those from `above` on. It is noted whether a variable may occur in what one of the block's variables
/// stands for that was met before, and that is in the term. The only error is out of memory.
#[inline(always)]
fn copy_compound(
    cells: &mut Cells,
    block: &Block,
    j: usize,
    known: &Words,
    low: usize,
    above: usize,
    before: usize,
    met: &mut bool,
) -> Result<(), Memory>
    requires fit { IsFit cells.old }
    requires block { IsBlock block.now }
    requires here { j < length block.now.heads.items }
    requires parts { All (IsPart (record { low = low; variables = length known.now.items })) (arguments_of block.now j) }
    requires inside { All (λ w. IsIn (heap_of cells.old) (copied known.now.items low above w)) (arguments_of block.now j) }
    ensures fit { IsFit cells.new }
    ensures made { OnOk result (Made (heap_of cells.old) (slice_index_or block.now.heads.items j no_head).name
        (map (copied known.now.items low above) (arguments_of block.now j)) (heap_of cells.new) (Word.Comp (length cells.old.heads.items))) }
    ensures kept { OnErr result (heap_of cells.new ≡ heap_of cells.old) }
    ensures heads { OnOk result (length cells.new.heads.items ≡ length cells.old.heads.items + 1) }
    ensures before { OnOk result (met.new ≡ false → met.old ≡ false) }
    ensures ground { OnOk result (met.new ≡ false → All (IsGroundBefore (heap_of cells.old) known.now.items before) (arguments_of block.now j)) }
{
    let head = block_head(block, j);
    let start = cells.args.len();
    let slots = cells.numbers.len();
    let heads = cells.heads.len();
    match push_copies(
        &mut cells.args,
        &block.args,
        head,
        known,
        low,
        above,
        slots,
        heads,
        &cells.grounds,
        before,
        met,
    ) {
        Ok(any) => {
            let _ = finish_marked(cells, head.name, start, head.count as usize, !any)?;
            Ok(())
        }
        Err(_) => {
            cells.args.truncate(start);
            Err(Memory)
        }
    }
}

/// Puts the arguments of a compound term of a block, as they stand in a store with so many slots and compound terms, after the
/// others. The answer is whether a variable may occur in one of them, and it is noted whether one may occur in what a variable of
/// the block stands for that was met before. After running out of memory some of them are there.
#[inline(always)]
fn push_copies(
    args: &mut Words,
    parts: &Words,
    head: Head,
    known: &Words,
    low: usize,
    above: usize,
    slots: usize,
    heads: usize,
    grounds: &[bool],
    before: usize,
    met: &mut bool,
) -> Result<bool, Memory>
    requires within { head.start + head.count ≤ length parts.now.items }
    requires parts { All (IsPart (record { low = low; variables = length known.now.items })) (words_of parts.now.items head) }
    requires inside { All (λ w. IsWord slots heads (copied known.now.items low above w)) (words_of parts.now.items head) }
    ensures ok { OnOk result (args.new.items ≡ args.old.items ++ map (copied known.now.items low above) (words_of parts.now.items head)) }
    ensures kept { take (length args.old.items) args.new.items ≡ args.old.items }
    ensures found { IfOk result (λ any. AreFound grounds.now known.now.items low above before met.old any met.new (words_of parts.now.items head)) }
{
    args.reserve(head.count as usize)?;
    let mut any = false;
    for i in 0..head.count {
        let at = head.start as usize + i as usize;
        push_copy(
            args, parts, at, known, low, above, slots, heads, grounds, before, &mut any, met,
        )?;
    }
    Ok(any)
}

/// Puts the word at a place of a block, for which there is room, behind the others, as it stands in a store with so many slots
/// and compound terms. It is noted whether a variable may occur in it, and in what a variable of the block stands for that was met
/// before. The only error is out of memory.
#[inline(always)]
fn push_copy(
    args: &mut Words,
    parts: &Words,
    at: usize,
    known: &Words,
    low: usize,
    above: usize,
    slots: usize,
    heads: usize,
    grounds: &[bool],
    before: usize,
    any: &mut bool,
    met: &mut bool,
) -> Result<(), Memory>
    requires space { 0 < args.old.room }
    requires inside { at < length parts.now.items }
    requires part { IsPart (record { low = low; variables = length known.now.items }) (slice_index_or parts.now.items at (Word.Int (pos 0))) }
    requires word { IsWord slots heads (copied known.now.items low above (slice_index_or parts.now.items at (Word.Int (pos 0)))) }
    ensures items { args.new.items ≡ (if is_ok result
        then args.old.items ++ copied known.now.items low above (slice_index_or parts.now.items at (Word.Int (pos 0))) ∷ [] else args.old.items) }
    ensures room { args.old.room ≤ args.new.room + 1 }
    ensures found { OnOk result (IsFound grounds.now known.now.items low above before any.old met.old any.new met.new (slice_index_or parts.now.items at (Word.Int (pos 0)))) }
{
    let part = parts.short(at);
    if let Short::Slot(x) = part {
        let word = known.short(x as usize);
        push_word_of(args, known, x as usize)?;
        note_word(
            any,
            met,
            is_ground_short(grounds, word),
            (x as usize) < before,
        );
        return Ok(());
    }
    if let Short::Term(k) = part {
        let i = short_index(above + (k as usize - low))?;
        args.push_short(Short::Term(i));
        note_word(any, met, marked_at(grounds, i as usize), false);
        return Ok(());
    }
    push_word_of(args, parts, at)
}

/// Notes one more word, in which a variable may occur unless it is ground, and which may stand for a variable of the block that was
/// met before.
#[inline(always)]
fn note_word(any: &mut bool, met: &mut bool, is_ground: bool, is_met: bool)
    ensures any { any.new ≡ (if is_ground then any.old else true) }
    ensures met { met.new ≡ (if is_ground then met.old else if is_met then true else met.old) }
{
    if is_ground {
        return;
    }
    *any = true;
    if is_met {
        *met = true;
    }
}

/// Puts the word at a place of a list, for which there is room, behind the others. The only error is out of memory.
#[inline(always)]
fn push_word_of(args: &mut Words, words: &Words, at: usize) -> Result<(), Memory>
    requires space { 0 < args.old.room }
    requires inside { at < length words.now.items }
    ensures items { args.new.items ≡ (if is_ok result then args.old.items ++ slice_index_or words.now.items at (Word.Int (pos 0)) ∷ [] else args.old.items) }
    ensures room { args.old.room ≤ args.new.room + 1 }
{
    let short = words.short(at);
    if is_plain(short) {
        args.push_short(short);
        return Ok(());
    }
    push_long(args, words, at)
}

/// Does what `push_word_of` does, also where the word is an integer beyond 32 bits.
#[cold]
#[inline(never)]
fn push_long(args: &mut Words, words: &Words, at: usize) -> Result<(), Memory>
    requires space { 0 < args.old.room }
    requires inside { at < length words.now.items }
    ensures items { args.new.items ≡ (if is_ok result then args.old.items ++ slice_index_or words.now.items at (Word.Int (pos 0)) ∷ [] else args.old.items) }
    ensures room { args.old.room ≤ args.new.room + 1 }
{
    let word = words.get(at);
    args.push_reserved(word)
}

/// What stands for a variable that was met.
#[inline(always)]
pub fn known_at(known: &Words, variable: usize) -> Word
    requires { variable < length known.now.items }
    ensures { result ≡ slice_index_or known.now.items variable (Word.Int (pos 0)) }
{
    known.get(variable)
}

/// What stands below a compound term.
pub fn range_of(block: &Block, k: usize) -> Range
    requires { k < length block.now.ranges.items }
    ensures { result ≡ slice_index_or block.now.ranges.items k no_range }
{
    block.ranges[k]
}
