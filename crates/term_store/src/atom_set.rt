//! Sets of atoms.
ghost use Rattle.std.specs.Prelude.{◌≡◌, [], ◌∷◌, IsTrue, OnOk};
ghost use Rattle.std.specs.List.{Contains};
ghost use Rattle.term_store.specs.Live.{Gathers};

use crate::seen::set_place;
use atom_api::Atom;
use pl_term::Memory;
use std::alloc::Global;
use std::marker::Model;

/// Atoms, seen by contracts as a list of them in the order in which they were put in. Whether an atom is there is told
/// without a search: `places` has for each slot the place of the list at which its atom stands, if it stands there. What
/// the list does not confirm counts for nothing.
#[derive(Drop)]
pub struct AtomSet {
    atoms: Vec<Atom>,
    places: Vec<usize>,
}

impl Model for AtomSet {
    ghost use Rattle.std.specs.Prelude.{ℕ, List};

    ghost Value = { List ℕ };

    ghost view = { λ l. l.atoms.items };
}

impl AtomSet {
    /// No atoms.
    pub fn new(alloc: Global) -> AtomSet
        ensures { result ≡ [] }
    {
        AtomSet {
            atoms: Vec::new(alloc),
            places: Vec::new(alloc),
        }
    }

    /// Whether an atom is known to be in the set.
    fn holds(&self, atom: Atom) -> bool
        ensures { IsTrue result → Contains self.now atom }
    {
        let slot = atom.slot() as usize;
        if slot >= self.places.len() {
            return false;
        }
        let at = self.places[slot];
        at < self.atoms.len() && self.atoms[at].slot() == atom.slot()
    }

    /// Puts an atom in, unless it is known to be among them. The only error is out of memory.
    pub fn insert(&mut self, atom: Atom) -> Result<(), Memory>
        ensures { OnOk result (Gathers (atom ∷ []) self.old self.new) }
    {
        if self.holds(atom) {
            return Ok(());
        }
        let at = self.atoms.len();
        set_place(&mut self.places, atom.slot() as usize, at)?;
        self.atoms.push(atom)?;
        Ok(())
    }

    /// The atoms, in the order in which they were put in.
    pub fn into_atoms(self) -> Vec<Atom>
        ensures { result.items ≡ self }
    {
        let AtomSet { atoms, places: _ } = self;
        atoms
    }
}
