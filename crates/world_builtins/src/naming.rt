//! Terms over atoms as terms over texts that are kept, each text once.
ghost use Rattle.std.specs.Prelude.{◌≡◌, ◌<◌, [], length, get_or, IfOk, IfSome, IsFalse, IsSome, OnOk};
ghost use Rattle.named_terms.specs.NamedNodes.{Extends, IsNodeNamed, node_by, text_by};
ghost use Rattle.pl_term.specs.Tree.{Tree};
ghost use Rattle.term_store.specs.Contents.{Holds};
ghost use Rattle.term_store.specs.Heap.{atom_name};
ghost use Rattle.world_builtins.specs.Following.{AreReadable, IsFirst};
ghost use Rattle.world_builtins.specs.Naming.{IsHeldAt};
ghost use Rattle.world_builtins.specs.NamesMet.{Tells};
ghost use Rattle.world_builtins.specs.Spelling.{reads, text_of};
ghost use Rattle.world_builtins.specs.TermsTaken.{IsTaken};

use crate::following::push_arguments;
use crate::terms::text_at;
use atom_api::{Atom, Atoms};
use named_terms::{NamedTerm, NumberedNode};
use pl_term::{Memory, Text};
use std::alloc::Global;
use std::collections::BTreeMap;
use term_store::{Place, Store, View};

/// The atoms met, by their numbers, and their texts, in the order in which they were met. Where one is looked for, the map tells a
/// place, and the atom that stands there is looked at.
#[derive(Drop)]
struct Met {
    slots: Vec<u32>,
    names: Vec<Text>,
    places: BTreeMap<u32, u32>,
}

impl Met {
    fn new(alloc: Global) -> Met
        ensures slots { result.slots.items ≡ [] }
        ensures names { result.names.items ≡ [] }
    {
        Met {
            slots: Vec::new(alloc),
            names: Vec::new(alloc),
            places: BTreeMap::new(alloc),
        }
    }

    /// The place of an atom, if it was met.
    fn find(&self, slot: u32) -> Option<u32>
        ensures { IfSome result (λ p. (p < length self.now.slots.items) × (get_or self.now.slots.items p p ≡ slot)) }
    {
        let place = *self.places.get(&slot)?;
        let at = place as usize;
        if at < self.slots.len() && self.slots[at] == slot {
            return Some(place);
        }
        None
    }

    /// The place of the text of an atom, which is put behind the others where it was not met. The only error is out of memory.
    fn place<A: Atoms>(&mut self, alloc: Global, slot: u32, atoms: &mut A) -> Result<u32, Memory>
        requires held { IsSome (A.held atoms.old slot) }
        requires tells { Tells (A.held atoms.old) self.old.slots.items self.old.names.items }
        ensures place { IfOk result (λ p. (p < length self.new.names.items) × (text_by self.new.names.items p ≡ text_of (A.held atoms.old) (atom_name slot))) }
        ensures tells { OnOk result (Tells (A.held atoms.old) self.new.slots.items self.new.names.items) }
        ensures more { OnOk result (Extends self.old.names.items self.new.names.items) }
        ensures same { A.held atoms.new ≡ A.held atoms.old }
        ensures refusals { A.refusals atoms.new ≡ A.refusals atoms.old }
        ensures asked { A.asked atoms.new ≡ A.asked atoms.old }
    {
        if let Some(place) = self.find(slot) {
            return Ok(place);
        }
        let Ok(place) = u32::try_from(self.names.len()) else {
            return Err(Memory);
        };
        let text = text_at(alloc, Atom::at(slot), atoms)?;
        self.names.push(text)?;
        self.slots.push(slot)?;
        self.places.insert(slot, place)?;
        Ok(place)
    }

    /// The first node of the term at a place, its name among the texts. The places of its arguments are put on the stack of places
    /// that follow. The only error is out of memory.
    fn first<A: Atoms>(
        &mut self,
        alloc: Global,
        store: &Store,
        place: Place,
        places: &mut Vec<Place>,
        atoms: &mut A,
    ) -> Result<NumberedNode, Memory>
        requires inside { Holds store.now place }
        requires held { IsHeldAt (A.held atoms.old) store.now place }
        requires others { AreReadable (A.held atoms.old) store.now places.old.items }
        requires tells { Tells (A.held atoms.old) self.old.slots.items self.old.names.items }
        ensures first { IfOk result (λ n. IsFirst (A.held atoms.old) store.now place places.old.items (node_by self.new.names.items n) places.new.items) }
        ensures named { IfOk result (IsNodeNamed (length self.new.names.items)) }
        ensures others { OnOk result (AreReadable (A.held atoms.old) store.now places.new.items) }
        ensures tells { OnOk result (Tells (A.held atoms.old) self.new.slots.items self.new.names.items) }
        ensures more { OnOk result (Extends self.old.names.items self.new.names.items) }
        ensures same { A.held atoms.new ≡ A.held atoms.old }
        ensures refusals { A.refusals atoms.new ≡ A.refusals atoms.old }
        ensures asked { A.asked atoms.new ≡ A.asked atoms.old }
    {
        match store.look(place) {
            View::Variable(x) => Ok(NumberedNode::Var(x)),
            View::Integer(i) => Ok(NumberedNode::Int(i)),
            View::Atom(a) => {
                let at = self.place(alloc, a.slot(), atoms)?;
                Ok(NumberedNode::Atom(at))
            }
            View::Compound(f, arguments) => {
                let at = self.place(alloc, f.slot(), atoms)?;
                push_arguments(store, places, arguments)?;
                Ok(NumberedNode::Comp(at, arguments.len() as u64))
            }
        }
    }
}

/// What was taken of a term: the nodes, the atoms met, and the places of what is still to come, the next on top.
#[derive(Drop)]
struct Taking {
    met: Met,
    nodes: Vec<NumberedNode>,
    places: Vec<Place>,
}

impl Taking {
    /// Takes the next node, where one is still to come, and says whether one was. The only error is out of memory.
    fn take<A: Atoms>(
        &mut self,
        alloc: Global,
        store: &Store,
        atoms: &mut A,
    ) -> Result<bool, Memory>
        requires { (t : Tree) × IsTaken (A.held atoms.old) store.now t self.old }
        ensures taken { OnOk result ((t : Tree) → IsTaken (A.held atoms.old) store.now t self.old → IsTaken (A.held atoms.old) store.now t self.new) }
        ensures over { IfOk result (λ more. IsFalse more → self.new.places.items ≡ []) }
        ensures same { A.held atoms.new ≡ A.held atoms.old }
        ensures refusals { A.refusals atoms.new ≡ A.refusals atoms.old }
        ensures asked { A.asked atoms.new ≡ A.asked atoms.old }
    {
        let Some(next) = self.places.pop() else {
            return Ok(false);
        };
        let node = self.met.first(alloc, store, next, &mut self.places, atoms)?;
        self.nodes.push(node)?;
        Ok(true)
    }
}

/// The term at a place of a store, over the texts of its atoms, each text once: variables keep their numbers. Each atom that
/// it names is held. The only error is out of memory, which is found at once where shared parts make the term larger than any
/// memory.
pub fn named_at<A: Atoms>(
    alloc: Global,
    store: &Store,
    place: Place,
    atoms: &mut A,
) -> Result<NamedTerm, Memory>
    requires inside { Holds store.now place }
    requires held { IsHeldAt (A.held atoms.old) store.now place }
    ensures term { IfOk result (λ t. t ≡ reads (A.held atoms.old) store.now place) }
    ensures same { A.held atoms.new ≡ A.held atoms.old }
    ensures refusals { A.refusals atoms.new ≡ A.refusals atoms.old }
    ensures asked { A.asked atoms.new ≡ A.asked atoms.old }
{
    store.find_room(place)?;
    let met = Met::new(alloc);
    let nodes = Vec::new(alloc);
    let places = vec![in alloc; place]?;
    let mut taking = Taking { met, nodes, places };
    for _ in 0..u64::MAX {
        let more = taking.take(alloc, store, atoms)?;
        if !more {
            let Taking {
                met,
                nodes,
                places: _,
            } = taking;
            let Met {
                slots: _,
                names,
                places: _,
            } = met;
            return NamedTerm::from_parts(alloc, nodes, names);
        }
    }
    Err(Memory)
}
