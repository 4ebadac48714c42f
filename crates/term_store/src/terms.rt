//! Making and reading the terms of a store.
ghost use Rattle.std.specs.Prelude.{◌≡◌, ◌+◌, ◌<◌, ◌^◌, ◌++◌, ◌∷◌, [], length, map, IfOk, IfErr, OnErr, OnOk};
ghost use Rattle.std.specs.List.{All};
ghost use Rattle.pl_term.specs.Cells.{cells};
ghost use Rattle.pl_term.specs.Tree.{var, compound};
ghost use Rattle.pl_term.specs.Variables.{variables};
ghost use Rattle.term_store.specs.Heap.{atom_name};
ghost use Rattle.term_store.specs.Contents.{Adds, Builds, Holds, IsAbove, IsMark, Loaded, Makes, Refused, back_to, numbers_of, term_at};

use crate::faults::StoreFault;
use crate::load::load;
use crate::make::{make_compound, make_variable};
use crate::store::Store;
use crate::stored::Stored;
use crate::words::{Place, StoreMark};
use atom_api::Atom;
use pl_term::Memory;

impl Store {
    /// Loads a term: counts its cells as used and builds it. Its variables are new ones, numbered from `from` on in the
    /// order in which they first occur; that is above the numbers of all variables, and with the number of the term's
    /// variables below 2^64. Where the cells used and those of the term are together more than the budget it refuses
    /// with both numbers. After a refusal nothing has changed.
    pub fn load(&mut self, term: &Stored, from: u64) -> Result<Place, StoreFault>
        requires above { IsAbove from self.old }
        requires room { from + length (variables term.now) < 2 ^ 64 }
        ensures loaded { IfOk result (Loaded self.old from term.now self.new) }
        ensures adds { Adds self.old self.new }
        ensures above { OnOk result (IsAbove (from + length (variables term.now)) self.new) }
        ensures refused { IfErr result (Refused self.old (cells term.now)) }
        ensures kept { OnErr result (self.new ≡ self.old) }
    {
        let mark = self.mark();
        match self.charge(term.cells()) {
            Ok(()) => self.build_or_undo(term, from, mark),
            Err(fault) => Err(fault),
        }
    }

    /// Builds a term, or goes back to the mark where there is no memory.
    fn build_or_undo(
        &mut self,
        term: &Stored,
        from: u64,
        mark: StoreMark,
    ) -> Result<Place, StoreFault>
        requires above { IsAbove from self.old }
        requires room { from + length (variables term.now) < 2 ^ 64 }
        requires mark { IsMark mark self.old }
        ensures built { IfOk result (Builds self.old from term.now self.new) }
        ensures adds { OnOk result (Adds self.old self.new) }
        ensures above { OnOk result (IsAbove (from + length (variables term.now)) self.new) }
        ensures memory { IfErr result (λ e. e ≡ StoreFault.Memory) }
        ensures undone { OnErr result (self.new ≡ back_to mark self.old) }
    {
        match self.build(term, from) {
            Ok(place) => Ok(place),
            Err(_) => {
                self.undo_to(mark);
                Err(StoreFault::Memory)
            }
        }
    }

    /// Builds a term without counting its cells. Its variables are new ones, as those of `load`. The only error is out of
    /// memory, after which nothing has changed.
    pub fn build(&mut self, term: &Stored, from: u64) -> Result<Place, Memory>
        requires above { IsAbove from self.old }
        requires room { from + length (variables term.now) < 2 ^ 64 }
        ensures built { IfOk result (Builds self.old from term.now self.new) }
        ensures adds { Adds self.old self.new }
        ensures above { OnOk result (IsAbove (from + length (variables term.now)) self.new) }
        ensures kept { OnErr result (self.new ≡ self.old) }
    {
        let mark = self.mark();
        match load(
            &mut self.cells,
            &mut self.walk.words,
            term.nodes(),
            term.variables(),
            from,
        ) {
            Ok(word) => Ok(Place { word }),
            Err(_) => {
                self.undo_to(mark);
                Err(Memory)
            }
        }
    }

    /// Makes a variable with this number, which is above those of all variables. Its cell is not counted. The only error
    /// is out of memory, after which nothing has changed.
    pub fn make_variable(&mut self, number: u64) -> Result<Place, Memory>
        requires { IsAbove number self.old }
        ensures made { IfOk result (Makes self.old (var number) self.new) }
        ensures numbers { OnOk result (numbers_of self.new ≡ numbers_of self.old ++ number ∷ []) }
        ensures adds { Adds self.old self.new }
        ensures kept { OnErr result (self.new ≡ self.old) }
    {
        match make_variable(&mut self.cells, number) {
            Ok(word) => Ok(Place { word }),
            Err(_) => Err(Memory),
        }
    }

    /// Makes the compound term with this name and these arguments, of which there is at least one. Its cells are not
    /// counted. The only error is out of memory, after which nothing has changed.
    pub fn make_compound(&mut self, name: Atom, arguments: &[Place]) -> Result<Place, Memory>
        requires full { 0 < length arguments.now }
        requires places { All (Holds self.old) arguments.now }
        ensures made { IfOk result (Makes self.old (compound (atom_name name) (map (term_at self.old) arguments.now)) self.new) }
        ensures numbers { numbers_of self.new ≡ numbers_of self.old }
        ensures adds { Adds self.old self.new }
        ensures kept { OnErr result (self.new ≡ self.old) }
    {
        match make_compound(&mut self.cells, name.slot(), arguments) {
            Ok(word) => Ok(Place { word }),
            Err(_) => Err(Memory),
        }
    }
}
