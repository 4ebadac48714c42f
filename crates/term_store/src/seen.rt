//! Compound terms that a walk has come by.
ghost use Rattle.std.specs.Prelude.{◌≡◌, ◌++◌, ◌∷◌, [], IsTrue, OnOk};
ghost use Rattle.std.specs.List.{Contains};

use pl_term::Memory;
use std::alloc::Global;

/// Compound terms by their numbers. Whether a term is among them is told without a search: `places` has for each number
/// the place of the list at which it stands, if it stands there. What the list does not confirm counts for nothing, so
/// `places` is never cleared, and takes memory only as higher numbers are put in.
#[derive(Drop)]
pub struct Seen {
    pub list: Vec<usize>,
    pub places: Vec<usize>,
}

impl Seen {
    /// No terms.
    pub fn new(alloc: Global) -> Seen {
        Seen {
            list: Vec::new(alloc),
            places: Vec::new(alloc),
        }
    }

    /// Lets all terms go.
    pub fn clear(&mut self)
        ensures { self.new.list.items ≡ [] }
    {
        self.list.clear();
    }

    /// Whether a term is known to be among them.
    pub fn holds(&self, k: usize) -> bool
        ensures { IsTrue result → Contains self.now.list.items k }
    {
        if k >= self.places.len() {
            return false;
        }
        let at = self.places[k];
        at < self.list.len() && self.list[at] == k
    }

    /// Puts a term to the others. The only error is out of memory.
    pub fn add(&mut self, k: usize) -> Result<(), Memory>
        ensures { OnOk result (self.new.list.items ≡ self.old.list.items ++ k ∷ []) }
    {
        let at = self.list.len();
        self.list.push(k)?;
        set_place(&mut self.places, k, at)
    }
}

/// Sets the place of a number, before which there are places of all lower ones. The only error is out of memory.
pub fn set_place(places: &mut Vec<usize>, k: usize, at: usize) -> Result<(), Memory> {
    if k < places.len() {
        places[k] = at;
        return Ok(());
    }
    for _ in places.len()..k {
        places.push(0)?;
    }
    places.push(at)?;
    Ok(())
}
