//! The atoms of a term of a store.
ghost use Rattle.std.specs.Prelude.{◌≡◌, ◌<◌, ℕ, List, [], ◌∷◌, ◌++◌, length, OnOk};
ghost use Rattle.term_store.specs.declared.words.Word.{Word};
ghost use Rattle.term_store.specs.Cells.{IsFit, IsFree, heap_of};
ghost use Rattle.term_store.specs.Contents.{Holds, term_at};
ghost use Rattle.term_store.specs.Fit.{IsIn};
ghost use Rattle.term_store.specs.Heap.{meaning};
ghost use Rattle.term_store.specs.Live.{Gathers};
ghost use Rattle.term_store.specs.NumberedNames.{atoms_in};
ghost use Rattle.term_store.specs.Reaches.{IsGathering};

use crate::atom_set::AtomSet;
use crate::cells::{Cells, deref, head_at};
use crate::occurs::push_words;
use crate::seen::Seen;
use crate::store::Store;
use crate::words::{Place, Word};
use atom_api::Atom;
use pl_term::Memory;
use std::alloc::Global;

impl Store {
    /// Puts the atoms that the term at a place names to those of a set. It comes to each compound term once. The only error is
    /// out of memory.
    pub fn live_at(&self, place: Place, live: &mut AtomSet) -> Result<(), Memory>
        requires { Holds self.now place }
        ensures { OnOk result (Gathers (atoms_in (term_at self.now place)) live.old live.new) }
    {
        reach(self.alloc, &self.cells, place.word, live)
    }
}

/// Puts the atoms of what a word stands for to those of a set. The only error is out of memory.
fn reach(alloc: Global, cells: &Cells, root: Word, live: &mut AtomSet) -> Result<(), Memory>
    requires fit { IsFit cells.now }
    requires inside { IsIn (heap_of cells.now) root }
    ensures { OnOk result (Gathers (atoms_in (meaning (heap_of cells.now) root)) live.old live.new) }
{
    let mut walk = Vec::new(alloc);
    let mut seen = Seen::new(alloc);
    seen.clear();
    walk.push(root)?;
    for _ in 0..u64::MAX {
        let Some(next) = walk.pop() else {
            return Ok(());
        };
        let at = deref(cells, next);
        come_to(cells, &mut walk, &mut seen, live, at)?;
    }
    Err(Memory)
}

/// Gathers the atom that the word is, or opens the compound term that it is, unless the walk has come to it before. The only
/// error is out of memory.
fn come_to(
    cells: &Cells,
    walk: &mut Vec<Word>,
    seen: &mut Seen,
    live: &mut AtomSet,
    at: Word,
) -> Result<(), Memory>
    requires fit { IsFit cells.now }
    requires inside { IsIn (heap_of cells.now) at }
    requires free { IsFree (heap_of cells.now) at }
    ensures { OnOk result ((root next : Word) (before : List ℕ) → meaning (heap_of cells.now) at ≡ meaning (heap_of cells.now) next
        → IsGathering (heap_of cells.now) root before (walk.old.items ++ next ∷ []) seen.old.list.items live.old
        → IsGathering (heap_of cells.now) root before walk.new.items seen.new.list.items live.new) }
{
    match at {
        Word::Var(_) => Ok(()),
        Word::Int(_) => Ok(()),
        Word::Atom(a) => {
            live.insert(Atom::at(a))?;
            Ok(())
        }
        Word::Comp(k) => {
            if seen.holds(k) {
                return Ok(());
            }
            live.insert(Atom::at(head_at(cells, k).name))?;
            seen.add(k)?;
            push_words(cells, walk, k)?;
            Ok(())
        }
    }
}
