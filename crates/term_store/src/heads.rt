//! Words of a store and words of a clause's block, made the same.
ghost use Rattle.std.specs.Prelude.{◌≡◌, ℕ, ◌+◌, ◌<◌, ◌≤◌, ◌^◌, List, length, pos, slice_index_or, Some, None, if◌then◌else◌, IfOk, OnOk};
ghost use Rattle.term_store.specs.Blocks.{IsBlock, IsFirst};
ghost use Rattle.term_store.specs.Cells.{Followed, IsFit, heap_of};
ghost use Rattle.term_store.specs.Entering.{Extends, IsConstant, IsFacing, IsKnown, Joined, Joins, MetFirst, entered, value};
ghost use Rattle.term_store.specs.Fit.{IsIn};
ghost use Rattle.term_store.specs.Heap.{find, meaning};
ghost use Rattle.term_store.specs.Rests.{IsNext, IsRest, Opens, Steps, StepsAt, no_rest, pair_at, rest_after, stacked};
ghost use Rattle.term_store.specs.Shorts.{IsShort};

use crate::bind::{bind, bind_short};
use crate::block::{Block, block_head, block_word};
use crate::cells::{Cells, deref, follow, head_at, word_at};
use crate::copies::{copy_compounds, known_at, range_of};
use crate::holding::is_held;
use crate::known::make_known;
use crate::older::Older;
use crate::pushes::push_one;
use crate::shorts::{Short, Words, is_plain, short_index};
use crate::unify::{compare_words, unify};
use crate::walk::{Pending, Walk};
use crate::words::{Head, Pair, Plan, Rest, Word};
use pl_term::Memory;

/// Begins to make the goal and the head of a clause the same.
#[inline(always)]
pub fn meet_goal(
    cells: &mut Cells,
    known: &mut Words,
    rests: &mut Vec<Rest>,
    pending: &mut Pending,
    walk: &mut Walk,
    block: &Block,
    from: u64,
    goal: Word,
) -> Result<Option<Rest>, Memory>
    requires fit { IsFit cells.old }
    requires block { IsBlock block.now }
    requires known { IsKnown (heap_of cells.old) from known.old.items }
    requires few { length known.old.items ≤ block.now.variables }
    requires room { from + block.now.variables < 2 ^ 64 }
    requires first { IsFirst block.now }
    requires facing { IsFacing (heap_of cells.old) block.now (record { left = goal; right = block.now.head }) }
    ensures fit { IsFit cells.new }
    ensures extends { Extends (heap_of cells.old) (heap_of cells.new) }
    ensures steps { IfOk result (λ r. Steps r block.now (heap_of cells.old) from known.old.items goal block.now.head rests.old.items no_rest
        (heap_of cells.new) known.new.items rests.new.items) }
{
    if let Word::Comp(_) = block.head {
        if let Word::Comp(l) = goal {
            let none = Rest {
                left: 0,
                right: 0,
                count: 0,
            };
            let left = head_at(cells, l);
            return open_heads(rests, left, block.first, none);
        }
    }
    meet_whole(cells, known, rests, pending, walk, block, from, goal)
}

/// Does what `meet_goal` does, also where the goal or the head is no compound term.
#[cold]
#[inline(never)]
fn meet_whole(
    cells: &mut Cells,
    known: &mut Words,
    rests: &mut Vec<Rest>,
    pending: &mut Pending,
    walk: &mut Walk,
    block: &Block,
    from: u64,
    goal: Word,
) -> Result<Option<Rest>, Memory>
    requires fit { IsFit cells.old }
    requires block { IsBlock block.now }
    requires known { IsKnown (heap_of cells.old) from known.old.items }
    requires few { length known.old.items ≤ block.now.variables }
    requires room { from + block.now.variables < 2 ^ 64 }
    requires facing { IsFacing (heap_of cells.old) block.now (record { left = goal; right = block.now.head }) }
    ensures fit { IsFit cells.new }
    ensures extends { Extends (heap_of cells.old) (heap_of cells.new) }
    ensures steps { IfOk result (λ r. Steps r block.now (heap_of cells.old) from known.old.items goal block.now.head rests.old.items no_rest
        (heap_of cells.new) known.new.items rests.new.items) }
{
    let pair = Pair {
        left: goal,
        right: block.head,
    };
    let none = Rest {
        left: 0,
        right: 0,
        count: 0,
    };
    meet_part(cells, known, rests, pending, walk, block, from, pair, none)
}

/// Makes a word of the store and one of the block the same. Of two compound terms the arguments are taken in hand, and are still
/// to be made the same. The answer is what is in hand then, or none where nothing makes them the same. The only error is out of
/// memory, after which, as after none, some bindings may have been made.
fn meet_part(
    cells: &mut Cells,
    known: &mut Words,
    rests: &mut Vec<Rest>,
    pending: &mut Pending,
    walk: &mut Walk,
    block: &Block,
    from: u64,
    pair: Pair,
    next: Rest,
) -> Result<Option<Rest>, Memory>
    requires fit { IsFit cells.old }
    requires block { IsBlock block.now }
    requires known { IsKnown (heap_of cells.old) from known.old.items }
    requires few { length known.old.items ≤ block.now.variables }
    requires room { from + block.now.variables < 2 ^ 64 }
    requires facing { IsFacing (heap_of cells.old) block.now pair }
    ensures fit { IsFit cells.new }
    ensures extends { Extends (heap_of cells.old) (heap_of cells.new) }
    ensures steps { IfOk result (λ r. Steps r block.now (heap_of cells.old) from known.old.items pair.left pair.right rests.old.items next
        (heap_of cells.new) known.new.items rests.new.items) }
{
    match pair.right {
        Word::Var(x) => {
            let met = meet_variable(cells, known, pending, walk, from, x, pair.left)?;
            Ok(if_met(met, next))
        }
        Word::Int(_) => {
            let met = meet_constant(cells, pair.left, pair.right)?;
            Ok(if_met(met, next))
        }
        Word::Atom(_) => {
            let met = meet_constant(cells, pair.left, pair.right)?;
            Ok(if_met(met, next))
        }
        Word::Comp(k) => meet_compound(cells, known, rests, walk, block, from, pair.left, k, next),
    }
}

/// Makes a word and a compound term of the block the same.
fn meet_compound(
    cells: &mut Cells,
    known: &mut Words,
    rests: &mut Vec<Rest>,
    walk: &mut Walk,
    block: &Block,
    from: u64,
    word: Word,
    k: usize,
    next: Rest,
) -> Result<Option<Rest>, Memory>
    requires fit { IsFit cells.old }
    requires block { IsBlock block.now }
    requires known { IsKnown (heap_of cells.old) from known.old.items }
    requires few { length known.old.items ≤ block.now.variables }
    requires room { from + block.now.variables < 2 ^ 64 }
    requires word { IsIn (heap_of cells.old) word }
    requires part { k < length block.now.heads.items }
    ensures fit { IsFit cells.new }
    ensures extends { Extends (heap_of cells.old) (heap_of cells.new) }
    ensures steps { IfOk result (λ r. Steps r block.now (heap_of cells.old) from known.old.items word (Word.Comp k) rests.old.items next
        (heap_of cells.new) known.new.items rests.new.items) }
{
    match deref(cells, word) {
        Word::Var(slot) => {
            let slot = short_index(slot)?;
            let met = write_part(cells, known, walk, block, from, slot, k)?;
            Ok(if_met(met, next))
        }
        Word::Comp(l) => open_part(cells, rests, block, l, k, next),
        _ => Ok(None),
    }
}

/// Makes the first of the arguments in hand the same. The answer is what is in hand then, or none where nothing makes them the same.
#[inline(always)]
pub fn meet_at(
    cells: &mut Cells,
    known: &mut Words,
    rests: &mut Vec<Rest>,
    pending: &mut Pending,
    walk: &mut Walk,
    block: &Block,
    from: u64,
    rest: Rest,
) -> Result<Option<Rest>, Memory>
    requires fit { IsFit cells.old }
    requires block { IsBlock block.now }
    requires known { IsKnown (heap_of cells.old) from known.old.items }
    requires few { length known.old.items ≤ block.now.variables }
    requires room { from + block.now.variables < 2 ^ 64 }
    requires some { 0 < rest.count }
    requires rest { IsRest (heap_of cells.old) block.now rest }
    requires facing { IsFacing (heap_of cells.old) block.now (pair_at cells.old.args.items block.now.args.items rest) }
    ensures fit { IsFit cells.new }
    ensures extends { Extends (heap_of cells.old) (heap_of cells.new) }
    ensures steps { IfOk result (λ r. StepsAt r block.now (heap_of cells.old) from known.old.items rests.old.items rest
        (heap_of cells.new) known.new.items rests.new.items) }
{
    let next = after_first(cells, block, rest);
    let part = block.args.short(rest.right);
    if let Short::Slot(x) = part {
        let met = meet_slot(cells, known, pending, walk, from, x as usize, rest.left)?;
        return Ok(if_met(met, next));
    }
    if let Short::Term(k) = part {
        return meet_term(
            cells, known, rests, walk, block, from, rest.left, k as usize, next,
        );
    }
    let met = meet_short(cells, block, rest.left, rest.right, part)?;
    Ok(if_met(met, next))
}

/// The arguments in hand without the first ones.
#[inline(always)]
fn after_first(cells: &Cells, block: &Block, rest: Rest) -> Rest
    requires some { 0 < rest.count }
    requires rest { IsRest (heap_of cells.now) block.now rest }
    ensures { result ≡ rest_after rest }
{
    let _words = cells.args.len();
    let _parts = block.args.len();
    Rest {
        left: rest.left + 1,
        right: rest.right + 1,
        count: rest.count - 1,
    }
}

/// What is in hand once two arguments were made the same, or none where nothing makes them the same.
#[inline(always)]
fn if_met(met: bool, next: Rest) -> Option<Rest>
    ensures { result ≡ (if met then Some next else None) }
{
    if met { Some(next) } else { None }
}

/// Makes the word at a place and what stands for a variable of the clause the same.
#[inline(always)]
fn meet_slot(
    cells: &mut Cells,
    known: &mut Words,
    pending: &mut Pending,
    walk: &mut Walk,
    from: u64,
    variable: usize,
    at: usize,
) -> Result<bool, Memory>
    requires fit { IsFit cells.old }
    requires known { IsKnown (heap_of cells.old) from known.old.items }
    requires room { from + variable < 2 ^ 64 }
    requires at { at < length cells.old.args.items }
    requires word { IsIn (heap_of cells.old) (slice_index_or cells.old.args.items at (Word.Int (pos 0))) }
    ensures fit { IsFit cells.new }
    ensures extends { Extends (heap_of cells.old) (heap_of cells.new) }
    ensures joins { IfOk result (λ r. Joins r (heap_of cells.old) from known.old.items (slice_index_or cells.old.args.items at (Word.Int (pos 0)))
        (value (heap_of cells.old) from known.old.items variable) (heap_of cells.new) known.new.items) }
    ensures few { OnOk result ((n : ℕ) → variable < n → length known.old.items ≤ n → length known.new.items ≤ n) }
{
    if variable == known.len() {
        meet_first(cells, known, at)?;
        Ok(true)
    } else {
        let word = word_at(cells, at);
        meet_variable(cells, known, pending, walk, from, variable, word)
    }
}

/// Lets the first variable of the clause that was not met stand for the word at a place. The only error is out of memory.
#[inline(always)]
fn meet_first(cells: &Cells, known: &mut Words, at: usize) -> Result<(), Memory>
    requires fit { IsFit cells.now }
    requires at { at < length cells.now.args.items }
    requires word { IsIn (heap_of cells.now) (slice_index_or cells.now.args.items at (Word.Int (pos 0))) }
    ensures first { OnOk result (MetFirst (heap_of cells.now) known.old.items (slice_index_or cells.now.args.items at (Word.Int (pos 0))) known.new.items) }
{
    let short = follow(cells, at);
    if is_plain(short) {
        known.reserve(1)?;
        known.push_short(short);
        return Ok(());
    }
    meet_first_long(cells, known, at)
}

/// Does what `meet_first` does, also where the word is an integer beyond 32 bits.
#[cold]
#[inline(never)]
fn meet_first_long(cells: &Cells, known: &mut Words, at: usize) -> Result<(), Memory>
    requires fit { IsFit cells.now }
    requires at { at < length cells.now.args.items }
    requires word { IsIn (heap_of cells.now) (slice_index_or cells.now.args.items at (Word.Int (pos 0))) }
    ensures first { OnOk result (MetFirst (heap_of cells.now) known.old.items (slice_index_or cells.now.args.items at (Word.Int (pos 0))) known.new.items) }
{
    let first = word_at(cells, at);
    let word = deref(cells, first);
    known.push(word)?;
    Ok(())
}

/// Makes the word at a place and a compound term of the block the same.
#[inline(always)]
fn meet_term(
    cells: &mut Cells,
    known: &mut Words,
    rests: &mut Vec<Rest>,
    walk: &mut Walk,
    block: &Block,
    from: u64,
    at: usize,
    k: usize,
    next: Rest,
) -> Result<Option<Rest>, Memory>
    requires fit { IsFit cells.old }
    requires block { IsBlock block.now }
    requires known { IsKnown (heap_of cells.old) from known.old.items }
    requires few { length known.old.items ≤ block.now.variables }
    requires room { from + block.now.variables < 2 ^ 64 }
    requires at { at < length cells.old.args.items }
    requires word { IsIn (heap_of cells.old) (slice_index_or cells.old.args.items at (Word.Int (pos 0))) }
    requires part { k < length block.now.heads.items }
    ensures fit { IsFit cells.new }
    ensures extends { Extends (heap_of cells.old) (heap_of cells.new) }
    ensures steps { IfOk result (λ r. Steps r block.now (heap_of cells.old) from known.old.items (slice_index_or cells.old.args.items at (Word.Int (pos 0)))
        (Word.Comp k) rests.old.items next (heap_of cells.new) known.new.items rests.new.items) }
{
    match follow(cells, at) {
        Short::Slot(slot) => {
            let met = write_part(cells, known, walk, block, from, slot, k)?;
            Ok(if_met(met, next))
        }
        Short::Term(l) => open_part(cells, rests, block, l as usize, k, next),
        _ => Ok(None),
    }
}

/// Makes the word at a place and the one at a place of the block the same, which is a constant, and is kept as the short word.
#[inline(always)]
fn meet_short(
    cells: &mut Cells,
    block: &Block,
    left: usize,
    right: usize,
    part: Short,
) -> Result<bool, Memory>
    requires fit { IsFit cells.old }
    requires left { left < length cells.old.args.items }
    requires word { IsIn (heap_of cells.old) (slice_index_or cells.old.args.items left (Word.Int (pos 0))) }
    requires right { right < length block.now.args.items }
    requires part { IsShort part (slice_index_or block.now.args.items right (Word.Int (pos 0))) }
    requires constant { IsConstant (slice_index_or block.now.args.items right (Word.Int (pos 0))) }
    ensures fit { IsFit cells.new }
    ensures extends { Extends (heap_of cells.old) (heap_of cells.new) }
    ensures joins { IfOk result (λ r. (from : ℕ) (known : List Word) → IsKnown (heap_of cells.old) from known
        → Joins r (heap_of cells.old) from known (slice_index_or cells.old.args.items left (Word.Int (pos 0)))
        (meaning (heap_of cells.old) (slice_index_or block.now.args.items right (Word.Int (pos 0)))) (heap_of cells.new) known) }
{
    let held = follow(cells, left);
    match part {
        Short::Name(a) => meet_name(cells, held, a),
        Short::Number(n) => meet_integer(cells, block, left, right, held, part, n),
        _ => meet_long(cells, block, left, right),
    }
}

/// Makes what a word was followed to and an atom the same.
#[inline(always)]
fn meet_name(cells: &mut Cells, held: Short, atom: u32) -> Result<bool, Memory>
    requires fit { IsFit cells.old }
    requires held { (w : Word) × Followed (heap_of cells.old) held w }
    ensures fit { IsFit cells.new }
    ensures extends { Extends (heap_of cells.old) (heap_of cells.new) }
    ensures joins { IfOk result (λ r. (w : Word) → Followed (heap_of cells.old) held w → (from : ℕ) (known : List Word) → IsKnown (heap_of cells.old) from known
        → Joins r (heap_of cells.old) from known w (meaning (heap_of cells.old) (Word.Atom atom)) (heap_of cells.new) known) }
{
    match held {
        Short::Slot(slot) => {
            bind_short(cells, slot, Short::Name(atom))?;
            Ok(true)
        }
        Short::Name(a) => Ok(a == atom),
        _ => Ok(false),
    }
}

/// Makes the word at a place, which was followed, and an integer of 32 bits at a place of the block the same, as it is kept there.
#[inline(always)]
fn meet_integer(
    cells: &mut Cells,
    block: &Block,
    left: usize,
    right: usize,
    held: Short,
    part: Short,
    number: i32,
) -> Result<bool, Memory>
    requires fit { IsFit cells.old }
    requires left { left < length cells.old.args.items }
    requires word { IsIn (heap_of cells.old) (slice_index_or cells.old.args.items left (Word.Int (pos 0))) }
    requires held { Followed (heap_of cells.old) held (slice_index_or cells.old.args.items left (Word.Int (pos 0))) }
    requires right { right < length block.now.args.items }
    requires kept { part ≡ Short.Number number }
    requires number { slice_index_or block.now.args.items right (Word.Int (pos 0)) ≡ Word.Int number }
    ensures fit { IsFit cells.new }
    ensures extends { Extends (heap_of cells.old) (heap_of cells.new) }
    ensures joins { IfOk result (λ r. (from : ℕ) (known : List Word) → IsKnown (heap_of cells.old) from known
        → Joins r (heap_of cells.old) from known (slice_index_or cells.old.args.items left (Word.Int (pos 0)))
        (meaning (heap_of cells.old) (slice_index_or block.now.args.items right (Word.Int (pos 0)))) (heap_of cells.new) known) }
{
    match held {
        Short::Slot(slot) => {
            bind_short(cells, slot, part)?;
            Ok(true)
        }
        Short::Number(n) => Ok(n == number),
        _ => meet_long(cells, block, left, right),
    }
}

/// Makes the word at a place and the one at a place of the block the same, which is a constant.
#[cold]
#[inline(never)]
fn meet_long(cells: &mut Cells, block: &Block, left: usize, right: usize) -> Result<bool, Memory>
    requires fit { IsFit cells.old }
    requires left { left < length cells.old.args.items }
    requires word { IsIn (heap_of cells.old) (slice_index_or cells.old.args.items left (Word.Int (pos 0))) }
    requires right { right < length block.now.args.items }
    requires constant { IsConstant (slice_index_or block.now.args.items right (Word.Int (pos 0))) }
    ensures fit { IsFit cells.new }
    ensures extends { Extends (heap_of cells.old) (heap_of cells.new) }
    ensures joins { IfOk result (λ r. (from : ℕ) (known : List Word) → IsKnown (heap_of cells.old) from known
        → Joins r (heap_of cells.old) from known (slice_index_or cells.old.args.items left (Word.Int (pos 0)))
        (meaning (heap_of cells.old) (slice_index_or block.now.args.items right (Word.Int (pos 0)))) (heap_of cells.new) known) }
{
    let word = word_at(cells, left);
    let part = block_word(block, right);
    meet_constant(cells, word, part)
}

/// Makes a word and what stands for a variable of the clause the same: a variable that was not met stands for the word from
/// then on.
#[inline(never)]
fn meet_variable(
    cells: &mut Cells,
    known: &mut Words,
    pending: &mut Pending,
    walk: &mut Walk,
    from: u64,
    variable: usize,
    word: Word,
) -> Result<bool, Memory>
    requires fit { IsFit cells.old }
    requires known { IsKnown (heap_of cells.old) from known.old.items }
    requires room { from + variable < 2 ^ 64 }
    requires word { IsIn (heap_of cells.old) word }
    ensures fit { IsFit cells.new }
    ensures extends { Extends (heap_of cells.old) (heap_of cells.new) }
    ensures joins { IfOk result (λ r. Joins r (heap_of cells.old) from known.old.items word (value (heap_of cells.old) from known.old.items variable)
        (heap_of cells.new) known.new.items) }
    ensures few { OnOk result ((n : ℕ) → variable < n → length known.old.items ≤ n → length known.new.items ≤ n) }
{
    if variable < known.len() {
        let met = known_at(known, variable);
        unify(cells, pending, walk, Older::none(), word, met)
    } else {
        meet_new(cells, known, from, variable, word)?;
        Ok(true)
    }
}

/// Lets a variable of the clause that was not met stand for a word.
fn meet_new(
    cells: &mut Cells,
    known: &mut Words,
    from: u64,
    variable: usize,
    word: Word,
) -> Result<(), Memory>
    requires fit { IsFit cells.old }
    requires known { IsKnown (heap_of cells.old) from known.old.items }
    requires room { from + variable < 2 ^ 64 }
    requires word { IsIn (heap_of cells.old) word }
    requires new { length known.old.items ≤ variable }
    ensures fit { IsFit cells.new }
    ensures extends { Extends (heap_of cells.old) (heap_of cells.new) }
    ensures joined { OnOk result (Joined (heap_of cells.old) from known.old.items word (value (heap_of cells.old) from known.old.items variable)
        (heap_of cells.new) known.new.items) }
    ensures few { OnOk result ((n : ℕ) → variable < n → length known.old.items ≤ n → length known.new.items ≤ n) }
{
    make_known(cells, known, variable, from)?;
    let at = deref(cells, word);
    known.push(at)?;
    Ok(())
}

/// Makes a word and a constant the same.
fn meet_constant(cells: &mut Cells, word: Word, part: Word) -> Result<bool, Memory>
    requires fit { IsFit cells.old }
    requires word { IsIn (heap_of cells.old) word }
    requires constant { IsConstant part }
    ensures fit { IsFit cells.new }
    ensures extends { Extends (heap_of cells.old) (heap_of cells.new) }
    ensures joins { IfOk result (λ r. (from : ℕ) (known : List Word) → IsKnown (heap_of cells.old) from known
        → Joins r (heap_of cells.old) from known word (meaning (heap_of cells.old) part) (heap_of cells.new) known) }
{
    let at = deref(cells, word);
    match compare_words(at, part) {
        Plan::Same => Ok(true),
        Plan::Clash => Ok(false),
        Plan::Bind(slot, value) => {
            bind(cells, slot, value)?;
            Ok(true)
        }
        Plan::Open(_, _) => Ok(false),
    }
}

/// Binds the unbound variable of a slot to a compound term of the block, which is made, unless the variable occurs in it.
#[inline(never)]
fn write_part(
    cells: &mut Cells,
    known: &mut Words,
    walk: &mut Walk,
    block: &Block,
    from: u64,
    slot: u32,
    k: usize,
) -> Result<bool, Memory>
    requires fit { IsFit cells.old }
    requires block { IsBlock block.now }
    requires known { IsKnown (heap_of cells.old) from known.old.items }
    requires room { from + block.now.variables < 2 ^ 64 }
    requires slot { slot < length cells.old.numbers.items }
    requires free { find slot cells.old.bonds.items ≡ None }
    requires inside { k < length block.now.heads.items }
    ensures fit { IsFit cells.new }
    ensures extends { Extends (heap_of cells.old) (heap_of cells.new) }
    ensures joins { IfOk result (λ r. Joins r (heap_of cells.old) from known.old.items (Word.Var slot)
        (entered block.now (heap_of cells.old) from known.old.items (Word.Comp k)) (heap_of cells.new) known.new.items) }
    ensures few { OnOk result (length known.old.items ≤ block.now.variables → length known.new.items ≤ block.now.variables) }
{
    let before = known.len();
    let range = range_of(block, k);
    make_known(cells, known, range.variables, from)?;
    let made = copy_compounds(cells, block, known, k, before)?;
    if is_held(
        cells,
        walk,
        block,
        known,
        before,
        slot as usize,
        k,
        Word::Comp(made.at),
        made.met,
    )? {
        return Ok(false);
    }
    let term = short_index(made.at)?;
    bind_short(cells, slot, Short::Term(term))?;
    Ok(true)
}

/// Takes the arguments of a compound term of the store and of one of the block in hand, and puts those that were to come next on
/// the stack. It answers none, and puts none, where they differ in their name or their number of arguments.
#[inline(always)]
fn open_part(
    cells: &Cells,
    rests: &mut Vec<Rest>,
    block: &Block,
    l: usize,
    k: usize,
    next: Rest,
) -> Result<Option<Rest>, Memory>
    requires fit { IsFit cells.now }
    requires block { IsBlock block.now }
    requires left { l < length cells.now.heads.items }
    requires right { k < length block.now.heads.items }
    ensures { IfOk result (λ r. (from : ℕ) (known : List Word) → IsKnown (heap_of cells.now) from known → length known ≤ block.now.variables
        → Steps r block.now (heap_of cells.now) from known (Word.Comp l) (Word.Comp k) rests.old.items next (heap_of cells.now) known rests.new.items) }
{
    let left = head_at(cells, l);
    let right = block_head(block, k);
    open_heads(rests, left, right, next)
}

/// Takes the arguments of two compound terms by their heads in hand, and puts those that were to come next on the stack. It answers
/// none, and puts none, where these differ in their name or their number of arguments.
#[inline(always)]
fn open_heads(
    rests: &mut Vec<Rest>,
    left: Head,
    right: Head,
    next: Rest,
) -> Result<Option<Rest>, Memory>
    ensures { IfOk result (λ r. Opens r left right rests.old.items next rests.new.items) }
{
    if left.name != right.name {
        return Ok(None);
    }
    if left.count != right.count {
        return Ok(None);
    }
    put_off(rests, next)?;
    Ok(Some(Rest {
        left: left.start as usize,
        right: right.start as usize,
        count: left.count as usize,
    }))
}

/// Puts arguments on the stack, if they are some. The only error is out of memory.
#[inline(always)]
pub fn put_off(rests: &mut Vec<Rest>, rest: Rest) -> Result<(), Memory>
    ensures { OnOk result (rests.new.items ≡ stacked rests.old.items rest) }
{
    if rest.count == 0 {
        return Ok(());
    }
    push_one(rests, rest)
}

/// The arguments that come next: those in hand, or else the last ones of the stack.
#[inline(always)]
pub fn take_next(rests: &mut Vec<Rest>, rest: Rest) -> Option<Rest>
    ensures { IsNext result rests.old.items rest rests.new.items }
{
    if rest.count > 0 {
        return Some(rest);
    }
    rests.pop()
}
