//! Balls, which stay as they are when the store goes back (ISO 7.8.10).
ghost use Rattle.std.specs.Prelude.{◌≡◌, ◌<◌, ◌≤◌, [], length, zero, IfOk, IsTrue, OnOk};
ghost use Rattle.pl_term.specs.Cells.{cells};
ghost use Rattle.pl_term.specs.Tree.{atom, comp, more, none};
ghost use Rattle.pl_term.specs.Variables.{rename, variables};
ghost use Rattle.pl_model.specs.Balls.{error_ball};
ghost use Rattle.atom_api.specs.FixedNames.{resource_error_name};
ghost use Rattle.term_store.specs.Heap.{atom_name};
ghost use Rattle.term_store.specs.Contents.{Holds, numbers_of, term_at};
ghost use Rattle.term_store.specs.Live.{Gathers};
ghost use Rattle.term_store.specs.NumberedNames.{atoms_in};
ghost use Rattle.iso_search.specs.Parts.{StandsFor};
ghost use Rattle.iso_search.specs.Errors.{IsFaultIn, error_tree, fault_tree};
ghost use Rattle.iso_search.specs.Outcomes.{fault_term};
ghost use Rattle.iso_search.specs.Reading.{View, IsView, reads};
ghost use Rattle.iso_search.specs.Spelling.{spelled, text_of};

use crate::outcome::Fault;
use crate::transfers::copy_into;
use atom_api::{Atom, fixed};
use pl_term::Memory;
use std::alloc::Global;
use std::marker::Model;
use term_store::{AtomSet, Place, Store, Stored};

/// A term that is thrown, seen by contracts as that term. Its variables have the numbers that they had in the store. It stands
/// in a store of its own, in which each part that it shares stands once. Beside it stand the cells of its compound terms, if
/// they are fewer than 2^64.
#[derive(Drop)]
pub struct Ball {
    own: Box<Store>,
    place: Place,
    cells: Option<u64>,
}

impl Model for Ball {
    ghost use Rattle.pl_term.specs.Tree.{Tree};
    ghost use Rattle.pl_term.specs.Nodes.{coded_tree};
    ghost use Rattle.term_store.specs.Contents.{Holds, term_at};
    ghost use Rattle.iso_search.specs.BallCells.{IsCount};

    ghost Value = { Tree };

    ghost coded = { coded_tree };

    ghost view = { λ b. term_at b.own.value b.place };

    ghost invariant = { λ b. Holds b.own.value b.place × IsCount (term_at b.own.value b.place) b.cells };
}

impl Ball {
    /// The term at a place. The only error is out of memory.
    pub fn at(alloc: Global, store: &Store, place: Place) -> Result<Ball, Memory>
        requires { Holds store.now place }
        ensures { IfOk result (λ b. b ≡ term_at store.now place) }
    {
        let mut own = Store::new(alloc, 0)?;
        let copy = copy_into(alloc, store, place, &mut own)?;
        kept(alloc, own, copy)
    }

    /// Whether a number is above those of all variables of the term.
    pub fn is_below(&self, number: u64) -> bool
        ensures { IsTrue result → length (variables self.now) ≤ number }
    {
        let own: &Store = &self.own;
        let _mark = own.mark();
        own.is_above(number)
    }

    /// Whether the term is known to have more cells than the limit. It is not where its compound terms alone have no more.
    pub fn is_larger(&self, limit: u64) -> bool
        ensures { IsTrue result → limit < cells self.now }
    {
        match self.cells {
            Some(count) => limit < count,
            None => true,
        }
    }

    /// Puts the atoms that the term names to those of a set. The only error is out of memory.
    pub fn live_in(&self, live: &mut AtomSet) -> Result<(), Memory>
        ensures { OnOk result (Gathers (atoms_in self.now) live.old live.new) }
    {
        let own: &Store = &self.own;
        own.live_at(self.place, live)
    }

    /// The store in which the term stands, and its place there.
    pub fn lend(&self) -> (&Store, Place)
        ensures inside { Holds result.0.now result.1 }
        ensures term { term_at result.0.now result.1 ≡ self.now }
    {
        let own: &Store = &self.own;
        (own, self.place)
    }

    /// The term as it is kept, its variables numbered from 0 on. The only error is out of memory.
    pub fn stored(&self) -> Result<Stored, Memory>
        ensures { IfOk result (λ s. s ≡ rename zero self.now) }
    {
        let own: &Store = &self.own;
        own.save(self.place)
    }

    /// The ball of an error in the predicate with this name and this number of arguments. The only error is out of memory.
    pub fn error(
        alloc: Global,
        store: &Store,
        fault: Fault,
        name: Atom,
        arity: u64,
    ) -> Result<Ball, Memory>
        requires { IsFaultIn store.now fault }
        ensures tree { IfOk result (λ b. b ≡ error_tree store.now fault name arity) }
        ensures reads { IfOk result (λ b. (v : View) → IsView v
            → spelled (text_of v.names) b
            ≡ error_ball (fault_term (reads v store.now) fault) (record { name = text_of v.names (atom_name name); arity = arity })) }
    {
        let Ok(count) = i64::try_from(arity) else {
            return Err(Memory);
        };
        let mut own = Store::new(alloc, 0)?;
        let term = fault_in(alloc, store, &mut own, fault)?;
        let parts = [Place::atom(name), Place::integer(count)];
        let indicator = own.make_compound(fixed::SLASH, &parts)?;
        let arguments = [term, indicator];
        let place = own.make_compound(fixed::ERROR, &arguments)?;
        kept(alloc, own, place)
    }
}

/// The ball that stands at a place of a store of its own. The only error is out of memory.
fn kept(alloc: Global, mut own: Store, place: Place) -> Result<Ball, Memory>
    requires { Holds own place }
    ensures { IfOk result (λ b. b ≡ term_at own place) }
{
    let cells = own.compound_cells(place)?;
    let own = Box::new(alloc, own)?;
    Ok(Ball { own, place, cells })
}

/// Makes an error term in a ball's own store, which has no variables. The only error is out of memory.
fn fault_in(alloc: Global, store: &Store, own: &mut Store, fault: Fault) -> Result<Place, Memory>
    requires fault { IsFaultIn store.now fault }
    requires empty { numbers_of own.old ≡ [] }
    ensures { IfOk result (StandsFor own.new (fault_tree store.now fault)) }
{
    match fault {
        Fault::Inferences => resource_in(own, fixed::INFERENCES),
        Fault::Cells => resource_in(own, fixed::CELLS),
        Fault::Choices => resource_in(own, fixed::CHOICES),
        Fault::Instantiation => Ok(Place::atom(fixed::INSTANTIATION_ERROR)),
        Fault::NotCallable(culprit) => culprit_in(
            alloc,
            store,
            own,
            fixed::TYPE_ERROR,
            fixed::CALLABLE,
            culprit,
        ),
        Fault::NotInteger(culprit) => culprit_in(
            alloc,
            store,
            own,
            fixed::TYPE_ERROR,
            fixed::INTEGER,
            culprit,
        ),
        Fault::NotList(culprit) => culprit_in(
            alloc,
            store,
            own,
            fixed::TYPE_ERROR,
            fixed::LIST,
            culprit,
        ),
        Fault::NotStatus(culprit) => culprit_in(
            alloc,
            store,
            own,
            fixed::DOMAIN_ERROR,
            fixed::EXIT_STATUS,
            culprit,
        ),
    }
}

/// Makes the error that this budget is spent (ISO 7.12.2 h). The only error is out of memory.
fn resource_in(own: &mut Store, resource: Atom) -> Result<Place, Memory>
    ensures { IfOk result (StandsFor own.new (comp (atom_name resource_error_name) (atom (atom_name resource)) none)) }
{
    let arguments = [Place::atom(resource)];
    own.make_compound(fixed::RESOURCE_ERROR, &arguments)
}

/// Makes an error of this name, kind and culprit (ISO 7.12.2 b and c). The only error is out of memory.
fn culprit_in(
    alloc: Global,
    store: &Store,
    own: &mut Store,
    name: Atom,
    kind: Atom,
    culprit: Place,
) -> Result<Place, Memory>
    requires culprit { Holds store.now culprit }
    requires empty { numbers_of own.old ≡ [] }
    ensures { IfOk result (StandsFor own.new (comp (atom_name name) (atom (atom_name kind)) (more (term_at store.now culprit) none))) }
{
    let copy = copy_into(alloc, store, culprit, own)?;
    let arguments = [Place::atom(kind), copy];
    own.make_compound(name, &arguments)
}
