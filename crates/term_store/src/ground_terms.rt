//! Compound terms that a walk found to have no variables.
ghost use Rattle.std.specs.Prelude.{◌≡◌, ℕ, ◌<◌, ◌-◌, ◌++◌, ◌∷◌, [], true, false, length, take, slice_index_or, IsTrue, OnErr, OnOk};
ghost use Rattle.std.specs.List.{All};
ghost use Rattle.term_store.specs.GroundTerms.{IsEarly, Rise, no_ground_term};

use crate::seen::set_place;
use crate::shorts::short_index;
use pl_term::Memory;
use std::alloc::Global;

/// A compound term by its number, and how many compound terms and bindings there were when it was found to have no variables.
#[derive(Clone, Copy, Drop)]
pub struct GroundTerm {
    pub term: u32,
    pub heads: u32,
    pub bindings: u32,
}

/// Compound terms in the order in which they were found. Whether one is among them is told without a search: `places` has for each
/// number the place of the list at which it stands, if it stands there. What the list does not confirm counts for nothing.
#[derive(Drop)]
pub struct GroundTerms {
    pub list: Vec<GroundTerm>,
    pub places: Vec<usize>,
}

impl GroundTerms {
    /// No terms.
    pub fn new(alloc: Global) -> GroundTerms
        ensures { result.list.items ≡ [] }
    {
        GroundTerms {
            list: Vec::new(alloc),
            places: Vec::new(alloc),
        }
    }

    /// Puts a term to the others, with how many compound terms and bindings there are. The only error is out of memory.
    pub fn add(&mut self, k: usize, heads: usize, bindings: usize) -> Result<(), Memory>
        ensures ok { OnOk result (self.new.list.items ≡ self.old.list.items ++ record { term = k; heads = heads; bindings = bindings } ∷ []) }
        ensures kept { OnErr result (self.new.list.items ≡ self.old.list.items) }
    {
        let found = GroundTerm {
            term: short_index(k)?,
            heads: short_index(heads)?,
            bindings: short_index(bindings)?,
        };
        set_place(&mut self.places, k, self.list.len())?;
        self.list.push(found)?;
        Ok(())
    }
}

/// Whether a term is known to be among those that were found.
pub fn is_known_ground(found: &GroundTerms, k: usize) -> bool
    ensures { result ≡ true → (i : ℕ) × (i < length found.now.list.items) × ((slice_index_or found.now.list.items i no_ground_term).term ≡ k) }
{
    if k >= found.places.len() {
        return false;
    }
    let at = found.places[k];
    at < found.list.len() && found.list[at].term as usize == k
}

/// Lets the terms go that were found with more compound terms or more bindings.
pub fn forget_later(list: &mut Vec<GroundTerm>, heads: usize, bindings: usize)
    requires { Rise list.old.items }
    ensures taken { (n : ℕ) × (list.new.items ≡ take n list.old.items) }
    ensures early { All (IsEarly heads bindings) list.new.items }
{
    while is_later(list, heads, bindings) {
        let _ = list.pop();
    }
}

/// Whether there is a term of which the last one was found with more compound terms or more bindings.
fn is_later(list: &[GroundTerm], heads: usize, bindings: usize) -> bool
    ensures some { result ≡ true → 0 < length list.now }
    ensures early { result ≡ false → 0 < length list.now → IsEarly heads bindings (slice_index_or list.now (length list.now - 1) no_ground_term) }
{
    let count = list.len();
    if count == 0 {
        return false;
    }
    let last = list[count - 1];
    last.heads as usize > heads || last.bindings as usize > bindings
}
