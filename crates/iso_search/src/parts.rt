//! What a term is made of.
ghost use Rattle.std.specs.Prelude.{◌≡◌, ◌++◌, ◌∷◌, [], OnOk};

use atom_api::Atom;
use pl_term::Memory;
use std::alloc::Global;
use std::collections::BTreeMap;
use term_store::Arguments;

/// A compound term of a store: its name, and where its arguments stand.
#[derive(Clone, Copy, Drop)]
pub struct Compound {
    pub name: Atom,
    pub arguments: Arguments,
}

/// The parts of a term: the numbers of its variables, each as often as a compound term of it names it, and its compound
/// terms, each once and after those that it is made of.
#[derive(Drop)]
pub struct Parts {
    pub numbers: Vec<u64>,
    pub compounds: Vec<Compound>,
    places: BTreeMap<usize, usize>,
}

impl Parts {
    /// No parts.
    pub fn new(alloc: Global) -> Parts
        ensures { result.compounds.items ≡ [] }
    {
        Parts {
            numbers: Vec::new(alloc),
            compounds: Vec::new(alloc),
            places: BTreeMap::new(alloc),
        }
    }

    /// Whether a compound term is met for the first time, by where its arguments begin. The only error is out of memory.
    pub fn is_new(&mut self, start: usize) -> Result<bool, Memory>
        ensures { self.new.compounds ≡ self.old.compounds }
    {
        if self.places.contains_key(&start) {
            return Ok(false);
        }
        match self.places.insert(start, usize::MAX) {
            Ok(_) => Ok(true),
            Err(_) => Err(Memory),
        }
    }

    /// Puts a compound term after the others. The only error is out of memory.
    pub fn add(&mut self, compound: Compound) -> Result<(), Memory>
        ensures { OnOk result (self.new.compounds.items ≡ self.old.compounds.items ++ compound ∷ []) }
    {
        let at = self.compounds.len();
        let start = compound.arguments.start();
        self.compounds.push(compound)?;
        match self.places.insert(start, at) {
            Ok(_) => Ok(()),
            Err(_) => Err(Memory),
        }
    }

    /// At which place among the compound terms one stands whose arguments begin there.
    pub fn place(&self, start: usize) -> Option<usize> {
        match self.places.get(&start) {
            Some(at) => Some(*at),
            None => None,
        }
    }
}
