//! The variables of a clause that is entered, as far as they were met.
ghost use Rattle.std.specs.Prelude.{◌≡◌, ℕ, ◌+◌, ◌<◌, ◌≤◌, ◌^◌, [], suc, length, OnOk};
ghost use Rattle.term_store.specs.Cells.{IsFit, heap_of};
ghost use Rattle.term_store.specs.Entering.{IsKnown, Meets};
ghost use Rattle.term_store.specs.Making.{Longer};

use crate::cells::Cells;
use crate::frontier::move_frontier;
use crate::make::make_variable;
use crate::shorts::{Short, Words, short_index};
use pl_term::Memory;

/// Makes new variables for those of the clause that were not met, up to so many. They are numbered from `from` on by their
/// place. After running out of memory, which is the only error, some may be made.
#[inline(always)]
pub fn make_known(
    cells: &mut Cells,
    known: &mut Words,
    count: usize,
    from: u64,
) -> Result<(), Memory>
    requires fit { IsFit cells.old }
    requires known { IsKnown (heap_of cells.old) from known.old.items }
    requires room { from + count < 2 ^ 64 }
    ensures fit { IsFit cells.new }
    ensures longer { Longer (heap_of cells.old) (heap_of cells.new) }
    ensures known { OnOk result (IsKnown (heap_of cells.new) from known.new.items) }
    ensures meets { OnOk result (Meets (heap_of cells.old) from known.old.items [] (heap_of cells.new) known.new.items) }
    ensures enough { OnOk result (count ≤ length known.new.items) }
    ensures more { OnOk result (length known.old.items ≤ length known.new.items) }
    ensures few { OnOk result ((n : ℕ) → count ≤ n → length known.old.items ≤ n → length known.new.items ≤ n) }
{
    if known.len() < count {
        make_next(cells, known, from)?;
        if known.len() < count {
            make_rest(cells, known, count, from)?;
        }
    }
    Ok(())
}

/// Does what `make_known` does, for the variables that no part of the head holds: no newer variable occurs in a term that was there
/// before them.
#[inline(always)]
pub fn make_others(
    cells: &mut Cells,
    known: &mut Words,
    count: usize,
    from: u64,
) -> Result<(), Memory>
    requires fit { IsFit cells.old }
    requires known { IsKnown (heap_of cells.old) from known.old.items }
    requires room { from + count < 2 ^ 64 }
    ensures fit { IsFit cells.new }
    ensures longer { Longer (heap_of cells.old) (heap_of cells.new) }
    ensures known { OnOk result (IsKnown (heap_of cells.new) from known.new.items) }
    ensures meets { OnOk result (Meets (heap_of cells.old) from known.old.items [] (heap_of cells.new) known.new.items) }
    ensures enough { OnOk result (count ≤ length known.new.items) }
    ensures more { OnOk result (length known.old.items ≤ length known.new.items) }
    ensures few { OnOk result ((n : ℕ) → count ≤ n → length known.old.items ≤ n → length known.new.items ≤ n) }
{
    if known.len() >= count {
        return Ok(());
    }
    move_frontier(cells);
    make_known(cells, known, count, from)
}

/// Does what `make_known` does, where one was made and there are more to be made.
#[inline(always)]
fn make_rest(cells: &mut Cells, known: &mut Words, count: usize, from: u64) -> Result<(), Memory>
    requires fit { IsFit cells.old }
    requires known { IsKnown (heap_of cells.old) from known.old.items }
    requires room { from + count < 2 ^ 64 }
    ensures fit { IsFit cells.new }
    ensures longer { Longer (heap_of cells.old) (heap_of cells.new) }
    ensures known { OnOk result (IsKnown (heap_of cells.new) from known.new.items) }
    ensures meets { OnOk result (Meets (heap_of cells.old) from known.old.items [] (heap_of cells.new) known.new.items) }
    ensures enough { OnOk result (count ≤ length known.new.items) }
    ensures more { OnOk result (length known.old.items ≤ length known.new.items) }
    ensures few { OnOk result ((n : ℕ) → count ≤ n → length known.old.items ≤ n → length known.new.items ≤ n) }
{
    while known.len() < count {
        make_next(cells, known, from)?;
    }
    Ok(())
}

/// Makes a new variable for the first one of the clause that was not met. The only error is out of memory, after which it may
/// be made.
#[inline(always)]
fn make_next(cells: &mut Cells, known: &mut Words, from: u64) -> Result<(), Memory>
    requires fit { IsFit cells.old }
    requires known { IsKnown (heap_of cells.old) from known.old.items }
    requires room { from + length known.old.items < 2 ^ 64 }
    ensures fit { IsFit cells.new }
    ensures longer { Longer (heap_of cells.old) (heap_of cells.new) }
    ensures known { OnOk result (IsKnown (heap_of cells.new) from known.new.items) }
    ensures meets { OnOk result (Meets (heap_of cells.old) from known.old.items [] (heap_of cells.new) known.new.items) }
    ensures one { OnOk result (length known.new.items ≡ suc (length known.old.items)) }
{
    let number = from + known.len() as u64;
    let slot = short_index(cells.numbers.len())?;
    known.reserve(1)?;
    let _ = make_variable(cells, number)?;
    known.push_short(Short::Slot(slot));
    Ok(())
}
