//! Undoing bindings and giving back what was made since a mark.
ghost use Rattle.std.specs.Prelude.{◌≡◌, ◌<◌, ◌≤◌, [], length, take};
ghost use Rattle.std.specs.List.{All};
ghost use Rattle.term_store.specs.Cells.{IsFit, heap_of};
ghost use Rattle.term_store.specs.Fit.{Cached, Fit, IsCache, OnceFrom};
ghost use Rattle.term_store.specs.Frontiers.{IsClosed};
ghost use Rattle.term_store.specs.GroundMarks.{AreMarks};
ghost use Rattle.term_store.specs.GroundTerms.{AreGroundTerms};
ghost use Rattle.term_store.specs.Marks.{IsWithin, cut};

use crate::bonds::Bonds;
use crate::cells::Cells;
use crate::ground_terms::forget_later;
use crate::words::StoreMark;

/// Gives back what was made and bound since the mark. It takes no memory.
#[inline(always)]
pub fn undo_to(cells: &mut Cells, mark: StoreMark)
    requires fit { IsFit cells.old }
    requires within { IsWithin mark (heap_of cells.old) }
    requires before { Fit (cut mark (heap_of cells.old)) }
    ensures cut { heap_of cells.new ≡ cut mark (heap_of cells.old) }
    ensures cache { IsCache cells.new.bonds.values (heap_of cells.new) }
    ensures marks { AreMarks cells.new.grounds.items (heap_of cells.new) }
    ensures settled { AreGroundTerms cells.new.settled.list.items (heap_of cells.new) }
    ensures closed { IsClosed cells.new.frontier (heap_of cells.new) }
{
    unbind(&mut cells.bonds, mark.trail);
    cells.heads.truncate(mark.heads);
    cells.args.truncate(mark.args);
    cells.numbers.truncate(mark.numbers);
    cells.bonds.keep_first(mark.numbers);
    cells.grounds.truncate(mark.heads);
    forget_later(&mut cells.settled.list, mark.heads, mark.trail);
    cells.frontier.cut(mark);
}

/// Undoes the bindings made since there were `keep` of them.
fn unbind(bonds: &mut Bonds, keep: usize)
    requires within { keep ≤ length bonds.old.items }
    requires slots { All (λ b. b.slot < length bonds.old.values) bonds.old.items }
    requires once { OnceFrom [] bonds.old.items }
    requires cached { Cached bonds.old.values bonds.old.items }
    ensures trail { bonds.new.items ≡ take keep bonds.old.items }
    ensures values { length bonds.new.values ≡ length bonds.old.values }
    ensures cached { Cached bonds.new.values bonds.new.items }
{
    while bonds.len() > keep {
        bonds.undo_last();
    }
}
