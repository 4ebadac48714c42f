//! Making variables and compound terms.
ghost use Rattle.std.specs.Prelude.{◌≡◌, ◌+◌, ◌<◌, ◌≤◌, false, true, [], ◌∷◌, ◌++◌, length, map, take, drop, IfOk, OnOk, OnErr};
ghost use Rattle.std.specs.List.{All};
ghost use Rattle.term_store.specs.Cells.{IsFit, heap_of};
ghost use Rattle.term_store.specs.Fit.{IsIn, Fit, IsCache};
ghost use Rattle.term_store.specs.Frontiers.{IsClosed};
ghost use Rattle.term_store.specs.GroundMarks.{AreMarks, IsMarked, IsMarkedToo};
ghost use Rattle.term_store.specs.GroundTerms.{AreGroundTerms};
ghost use Rattle.term_store.specs.Making.{Made, with_args, with_number};

use crate::cells::Cells;
use crate::made_ground::{are_ground, mark_at};
use crate::pushes::push_one;
use crate::shorts::{Words, short_index};
use crate::words::{Head, Place, Word};
use pl_term::Memory;

/// A new variable with this number, which is above the numbers of all variables. The only error is out of memory.
#[inline(always)]
pub fn make_variable(cells: &mut Cells, number: u64) -> Result<Word, Memory>
    requires fit { IsFit cells.old }
    requires above { All (λ n. n < number) cells.old.numbers.items }
    ensures fit { IsFit cells.new }
    ensures made { OnOk result (heap_of cells.new ≡ with_number (heap_of cells.old) number) }
    ensures slot { IfOk result (λ w. w ≡ Word.Var (length cells.old.numbers.items)) }
    ensures kept { OnErr result (heap_of cells.new ≡ heap_of cells.old) }
{
    let slot = cells.numbers.len();
    cells.bonds.add()?;
    match push_one(&mut cells.numbers, number) {
        Ok(()) => Ok(Word::Var(slot)),
        Err(_) => {
            cells.bonds.keep_first(slot);
            Err(Memory)
        }
    }
}

/// The compound term with this name and these arguments, of which there is at least one. The only error is out of
/// memory.
pub fn make_compound(cells: &mut Cells, name: u32, places: &[Place]) -> Result<Word, Memory>
    requires fit { IsFit cells.old }
    requires full { 0 < length places.now }
    requires inside { All (λ p. IsIn (heap_of cells.old) p.word) places.now }
    ensures fit { IsFit cells.new }
    ensures made { IfOk result (λ w. Made (heap_of cells.old) name (map (λ p. p.word) places.now) (heap_of cells.new) w) }
    ensures kept { OnErr result (heap_of cells.new ≡ heap_of cells.old) }
{
    let start = cells.args.len();
    match push_places(&mut cells.args, places) {
        Ok(()) => finish_compound(cells, name, start, places.len()),
        Err(_) => {
            cells.args.truncate(start);
            Err(Memory)
        }
    }
}

/// Puts the words of the places after the others. After running out of memory some of them are there.
fn push_places(args: &mut Words, places: &[Place]) -> Result<(), Memory>
    ensures ok { OnOk result (args.new.items ≡ args.old.items ++ map (λ p. p.word) places.now) }
    ensures kept { take (length args.old.items) args.new.items ≡ args.old.items }
{
    for p in places {
        args.push(p.word)?;
    }
    Ok(())
}

/// The compound term whose arguments are the words from a place on. After running out of memory these are taken off.
#[inline(always)]
pub fn finish_compound(
    cells: &mut Cells,
    name: u32,
    start: usize,
    count: usize,
) -> Result<Word, Memory>
    requires cache { IsCache cells.old.bonds.values (heap_of cells.old) }
    requires full { 0 < count }
    requires within { start + count ≡ length cells.old.args.items }
    requires inside { All (IsIn (heap_of cells.old)) (drop start cells.old.args.items) }
    requires unused { Fit (with_args (heap_of cells.old) (take start cells.old.args.items)) }
    requires marks { AreMarks cells.old.grounds.items (with_args (heap_of cells.old) (take start cells.old.args.items)) }
    requires settled { AreGroundTerms cells.old.settled.list.items (with_args (heap_of cells.old) (take start cells.old.args.items)) }
    requires closed { IsClosed cells.old.frontier (with_args (heap_of cells.old) (take start cells.old.args.items)) }
    ensures fit { IsFit cells.new }
    ensures made { IfOk result (λ w. Made (with_args (heap_of cells.old) (take start cells.old.args.items)) name
        (drop start cells.old.args.items) (heap_of cells.new) w) }
    ensures kept { OnErr result (heap_of cells.new ≡ with_args (heap_of cells.old) (take start cells.old.args.items)) }
    ensures number { IfOk result (λ w. w ≡ Word.Comp (length cells.old.heads.items)) }
    ensures heads { OnOk result (length cells.new.heads.items ≡ length cells.old.heads.items + 1) }
{
    let marked = are_ground(&cells.grounds, &cells.args, start);
    finish_marked(cells, name, start, count, marked)
}

/// Does what `finish_compound` does, where it is told whether the compound term may be marked: all its arguments are constants
/// and such terms then.
#[inline(always)]
pub fn finish_marked(
    cells: &mut Cells,
    name: u32,
    start: usize,
    count: usize,
    marked: bool,
) -> Result<Word, Memory>
    requires cache { IsCache cells.old.bonds.values (heap_of cells.old) }
    requires full { 0 < count }
    requires within { start + count ≡ length cells.old.args.items }
    requires inside { All (IsIn (heap_of cells.old)) (drop start cells.old.args.items) }
    requires unused { Fit (with_args (heap_of cells.old) (take start cells.old.args.items)) }
    requires marks { AreMarks cells.old.grounds.items (with_args (heap_of cells.old) (take start cells.old.args.items)) }
    requires settled { AreGroundTerms cells.old.settled.list.items (with_args (heap_of cells.old) (take start cells.old.args.items)) }
    requires closed { IsClosed cells.old.frontier (with_args (heap_of cells.old) (take start cells.old.args.items)) }
    requires ground { marked ≡ true → All (IsMarked cells.old.grounds.items) (drop start cells.old.args.items) }
    ensures fit { IsFit cells.new }
    ensures made { IfOk result (λ w. Made (with_args (heap_of cells.old) (take start cells.old.args.items)) name
        (drop start cells.old.args.items) (heap_of cells.new) w) }
    ensures kept { OnErr result (heap_of cells.new ≡ with_args (heap_of cells.old) (take start cells.old.args.items)) }
    ensures number { IfOk result (λ w. w ≡ Word.Comp (length cells.old.heads.items)) }
    ensures heads { OnOk result (length cells.new.heads.items ≡ length cells.old.heads.items + 1) }
{
    let k = cells.heads.len();
    match push_head(
        &mut cells.heads,
        &mut cells.grounds,
        name,
        start,
        count,
        marked,
    ) {
        Ok(()) => Ok(Word::Comp(k)),
        Err(_) => {
            cells.args.truncate(start);
            Err(Memory)
        }
    }
}

/// Puts a head after the others, and marks it where it is to be marked. After running out of memory, which is the only error,
/// the heads and the marks are what they were.
#[inline(always)]
fn push_head(
    heads: &mut Vec<Head>,
    grounds: &mut Vec<bool>,
    name: u32,
    start: usize,
    count: usize,
    marked: bool,
) -> Result<(), Memory>
    requires { length grounds.old.items ≤ length heads.old.items }
    ensures heads { OnOk result (heads.new.items ≡ heads.old.items ++ record { name = name; start = start; count = count } ∷ []) }
    ensures marks { OnOk result (IsMarkedToo marked (length heads.old.items) grounds.old.items grounds.new.items) }
    ensures kept { OnErr result (heads.new.items ≡ heads.old.items) }
    ensures unmarked { OnErr result (IsMarkedToo false (length heads.old.items) grounds.old.items grounds.new.items) }
{
    let k = heads.len();
    let head = Head {
        name,
        start: short_index(start)?,
        count: short_index(count)?,
    };
    if marked {
        mark_at(grounds, k)?;
    }
    match push_one(heads, head) {
        Ok(()) => Ok(()),
        Err(_) => {
            grounds.truncate(k);
            Err(Memory)
        }
    }
}
