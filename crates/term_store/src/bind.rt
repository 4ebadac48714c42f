//! Binding a variable.
ghost use Rattle.std.specs.Prelude.{◌≡◌, ◌<◌, [], length, false, Option, None, Some, IfOk, OnErr};
ghost use Rattle.pl_term.specs.Variables.{has};
ghost use Rattle.term_store.specs.Heap.{meaning, find, numbered, pushed};
ghost use Rattle.term_store.specs.Fit.{Below, IsIn};
ghost use Rattle.term_store.specs.Cells.{IsFit, heap_of};
ghost use Rattle.term_store.specs.Shorts.{IsPlain, long_word, value_word};

use crate::cells::Cells;
use crate::shorts::Short;
use crate::words::Word;
use pl_term::Memory;

/// Binds the variable of a slot to a word.
#[inline(always)]
pub fn bind(cells: &mut Cells, slot: usize, word: Word) -> Result<(), Memory>
    requires fit { IsFit cells.old }
    requires slot { slot < length cells.old.numbers.items }
    requires free { find slot cells.old.bonds.items ≡ None }
    requires below { Below slot word }
    requires inside { IsIn (heap_of cells.old) word }
    requires absent { has (numbered (heap_of cells.old) slot) (meaning (heap_of cells.old) word) ≡ false }
    ensures fit { IsFit cells.new }
    ensures bound { IfOk result (λ _. heap_of cells.new ≡ pushed (heap_of cells.old) slot word) }
    ensures kept { OnErr result (heap_of cells.new ≡ heap_of cells.old) }
{
    let slots = cells.numbers.len();
    let heads = cells.heads.len();
    cells.bonds.bind(slot, word)?;
    cells.frontier.pass_word(slot, word, slots, heads);
    Ok(())
}

/// Binds the variable of a slot to a word as it is kept, which is no integer beyond 32 bits.
#[inline(always)]
pub fn bind_short(cells: &mut Cells, slot: u32, short: Short) -> Result<(), Memory>
    requires fit { IsFit cells.old }
    requires slot { slot < length cells.old.numbers.items }
    requires free { find slot cells.old.bonds.items ≡ None }
    requires plain { IsPlain short }
    requires word { value_word [] short ≡ Some (long_word [] short) }
    requires below { Below slot (long_word [] short) }
    requires inside { IsIn (heap_of cells.old) (long_word [] short) }
    requires absent { has (numbered (heap_of cells.old) slot) (meaning (heap_of cells.old) (long_word [] short)) ≡ false }
    ensures fit { IsFit cells.new }
    ensures bound { IfOk result (λ _. heap_of cells.new ≡ pushed (heap_of cells.old) slot (long_word [] short)) }
    ensures kept { OnErr result (heap_of cells.new ≡ heap_of cells.old) }
{
    let slots = cells.numbers.len();
    let heads = cells.heads.len();
    cells.bonds.bind_short(slot, short)?;
    cells.frontier.pass(slot as usize, short, slots, heads);
    Ok(())
}
