//! The store.
ghost use Rattle.std.specs.Prelude.{◌≡◌, ◌+◌, ◌-◌, ◌^◌, ◌<◌, ◌≤◌, ◌++◌, ◌∷◌, [], length, IfOk, IfErr, OnErr, OnOk, IsOk};
ghost use Rattle.term_store.specs.Apart.{IsApart};
ghost use Rattle.term_store.specs.Contents.{Adds, Bound, IsEarlier, IsMark, MayBind, Refused, SameSize, Unified, back_to, bindings_made, blank, Holds};

use crate::bind::bind;
use crate::cells::{Cells, deref};
use crate::enter::Entry;
use crate::faults::StoreFault;
use crate::older::Older;
use crate::undo::undo_to;
use crate::unify::unify;
use crate::walk::{Pending, Walk};
use crate::words::{Place, StoreMark, Word};
use pl_term::Memory;
use std::alloc::Global;
use std::marker::Model;

/// The store of an engine: the terms that it works on, and their variables, which unification binds. What stands at a
/// place is seen by contracts as a term whose names stand for atoms.
///
/// Compound terms may share their parts, which no contract can tell. Cells are counted and not measured: `charge` and
/// `load` count them, and `undo_to` gives them back.
#[derive(Drop)]
pub struct Store {
    pub(crate) cells: Cells,
    pub(crate) pending: Pending,
    pub(crate) walk: Walk,
    pub(crate) entry: Entry,
    pub(crate) used: u64,
    pub(crate) budget: u64,
    pub(crate) alloc: Global,
}

impl Model for Store {
    ghost use Rattle.std.specs.Prelude.{◌≤◌};
    ghost use Rattle.term_store.specs.Cells.{IsFit, heap_of};
    ghost use Rattle.term_store.specs.Contents.{Contents};
    ghost use Rattle.term_store.specs.Codes.{coded_contents};

    ghost Value = { Contents };

    ghost coded = { coded_contents };

    ghost view = { λ s. record { heap = heap_of s.cells; used = s.used; budget = s.budget } };

    ghost invariant = { λ s. IsFit s.cells × (s.used ≤ s.budget) };
}

impl Store {
    /// A store without terms, of which so many cells may be used. The only error is out of memory.
    pub fn new(alloc: Global, budget: u64) -> Result<Store, Memory>
        ensures { IfOk result (λ s. s ≡ blank budget) }
    {
        Ok(Store {
            cells: Cells::new(alloc),
            pending: Pending::new(alloc),
            walk: Walk::new(alloc),
            entry: Entry::new(alloc),
            used: 0,
            budget,
            alloc,
        })
    }

    /// How many cells are used.
    pub fn used(&self) -> u64
        ensures { result ≡ self.now.used }
    {
        self.used
    }

    /// How many bindings were made and not undone.
    pub fn trail_len(&self) -> usize
        ensures { result ≡ bindings_made self.now }
    {
        self.cells.bonds.len()
    }

    /// Counts so many cells as used. Where those used and these are together more than the budget it refuses with both
    /// numbers, and nothing is changed.
    pub fn charge(&mut self, need: u64) -> Result<(), StoreFault>
        ensures ok { OnOk result (self.new ≡ record self.old { used = self.old.used + need }) }
        ensures fits { OnOk result (self.old.used + need ≤ self.old.budget) }
        ensures full { IfErr result (λ e. e ≡ StoreFault.CellsFull self.old.used need) }
        ensures over { OnErr result (self.old.budget < self.old.used + need) }
        ensures kept { OnErr result (self.new ≡ self.old) }
    {
        if need > self.budget - self.used {
            return Err(StoreFault::CellsFull {
                used: self.used,
                need,
            });
        }
        self.used += need;
        Ok(())
    }

    /// Takes so many cells away from the budget. Where those used and these are together more than the budget it refuses with
    /// both numbers, and nothing is changed.
    pub fn reserve(&mut self, need: u64) -> Result<(), StoreFault>
        ensures ok { OnOk result (self.new ≡ record self.old { budget = self.old.budget - need }) }
        ensures fits { OnOk result (self.old.used + need ≤ self.old.budget) }
        ensures full { IfErr result (λ e. e ≡ StoreFault.CellsFull self.old.used need) }
        ensures over { OnErr result (self.old.budget < self.old.used + need) }
        ensures kept { OnErr result (self.new ≡ self.old) }
    {
        let free = self.budget - self.used;
        if need > free {
            return Err(StoreFault::CellsFull {
                used: self.used,
                need,
            });
        }
        self.budget -= need;
        Ok(())
    }

    /// Gives so many cells back to the budget, which stays below 2^64.
    pub fn release(&mut self, cells: u64)
        requires { self.old.budget + cells < 2 ^ 64 }
        ensures { self.new ≡ record self.old { budget = self.old.budget + cells } }
    {
        self.budget += cells;
    }

    /// The number of bindings made and not undone, and the cells used, with what it takes to go back. It takes no memory.
    pub fn mark(&self) -> StoreMark
        ensures mark { IsMark result self.now }
        ensures here { back_to result self.now ≡ self.now }
    {
        StoreMark {
            heads: self.cells.heads.len(),
            args: self.cells.args.len(),
            numbers: self.cells.numbers.len(),
            trail: self.cells.bonds.len(),
            used: self.used,
        }
    }

    /// Undoes the bindings made since the mark, and gives back the cells taken since and all that was made since. The
    /// mark was taken in this store, and no earlier mark was gone back to since. It takes no memory.
    #[inline(always)]
    pub fn undo_to(&mut self, mark: StoreMark)
        requires { IsMark mark self.old }
        ensures back { self.new ≡ back_to mark self.old }
        ensures earlier { (k : StoreMark) → IsEarlier k mark → IsMark k self.old
            → IsMark k self.new × (back_to k self.new ≡ back_to k self.old) }
    {
        undo_to(&mut self.cells, mark);
        self.used = mark.used;
    }

    /// Binds variables so that the terms at both places become the same, and says whether any bindings do so
    /// (ISO/IEC 13211-1:1995, 7.3.2, with the occurs check; of two variables the one with the greater number is bound).
    /// After false and after running out of memory, which is the only error, nothing has changed.
    pub fn unify(&mut self, a: Place, b: Place) -> Result<bool, Memory>
        requires left { Holds self.old a }
        requires right { Holds self.old b }
        ensures unified { IfOk result (λ r. Unified r self.old a b self.new) }
        ensures adds { Adds self.old self.new }
        ensures size { SameSize self.old self.new }
        ensures kept { OnErr result (self.new ≡ self.old) }
    {
        let none = Older::none();
        self.unify_beyond(none, a, b)
    }

    /// Does what `unify` does, in less time where a term was made since the mark and nothing was bound since, as the copy of a
    /// clause: what stood in the store at the mark is not walked for its variables.
    pub fn unify_since(&mut self, mark: StoreMark, a: Place, b: Place) -> Result<bool, Memory>
        requires mark { IsMark mark self.old }
        requires left { Holds self.old a }
        requires right { Holds self.old b }
        ensures unified { IfOk result (λ r. Unified r self.old a b self.new) }
        ensures adds { Adds self.old self.new }
        ensures size { SameSize self.old self.new }
        ensures kept { OnErr result (self.new ≡ self.old) }
    {
        let older = self.older_than(mark);
        self.unify_beyond(older, a, b)
    }

    /// The bounds of what stood in the store at the mark, or of nothing where a variable was bound since.
    fn older_than(&self, mark: StoreMark) -> Older
        requires { IsMark mark self.now }
        ensures { IsApart self.now.heap result }
    {
        if mark.trail == self.cells.bonds.len() {
            Older::at(mark)
        } else {
            Older::none()
        }
    }

    /// Does what `unify` does. The bounds save walks through what is older.
    fn unify_beyond(&mut self, older: Older, a: Place, b: Place) -> Result<bool, Memory>
        requires apart { IsApart self.old.heap older }
        requires left { Holds self.old a }
        requires right { Holds self.old b }
        ensures unified { IfOk result (λ r. Unified r self.old a b self.new) }
        ensures adds { Adds self.old self.new }
        ensures size { SameSize self.old self.new }
        ensures kept { OnErr result (self.new ≡ self.old) }
    {
        let mark = self.mark();
        match unify(
            &mut self.cells,
            &mut self.pending,
            &mut self.walk,
            older,
            a.word,
            b.word,
        ) {
            Ok(true) => Ok(true),
            Ok(false) => {
                self.undo_to(mark);
                Ok(false)
            }
            Err(_) => {
                self.undo_to(mark);
                Err(Memory)
            }
        }
    }

    /// Binds the variable at one place to what stands at another. It is unbound, does not occur there, and has the
    /// greater number of two variables. The only error is out of memory, after which nothing has changed.
    pub fn bind(&mut self, var: Place, to: Place) -> Result<(), Memory>
        requires variable { Holds self.old var }
        requires value { Holds self.old to }
        requires may { MayBind self.old var to }
        ensures bound { OnOk result (Bound self.old var to self.new) }
        ensures adds { Adds self.old self.new }
        ensures size { SameSize self.old self.new }
        ensures kept { OnErr result (self.new ≡ self.old) }
    {
        let word = deref(&self.cells, to.word);
        match deref(&self.cells, var.word) {
            Word::Var(slot) => bind(&mut self.cells, slot, word),
            _ => Err(Memory),
        }
    }
}
