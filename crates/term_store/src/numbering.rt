//! Variables numbered in the order in which they are met.
ghost use Rattle.std.specs.Prelude.{◌≡◌, [], length, IfOk, OnOk};
ghost use Rattle.pl_term.specs.Variables.{place};
ghost use Rattle.pl_term.specs.NodeLists.{with};

use pl_term::Memory;
use std::alloc::Global;
use std::collections::BTreeMap;
use std::marker::Model;

/// The variables met so far, seen by contracts as their list in the order in which they were met.
#[derive(Drop)]
pub struct Numbering {
    met: Vec<u64>,
    places: BTreeMap<u64, u64>,
}

impl Model for Numbering {
    ghost use Rattle.std.specs.Prelude.{◌≡◌, List, ℕ};
    ghost use Rattle.std.specs.Ordering.{nat_cmp};
    ghost use Rattle.std.specs.BTreeMap as tree;
    ghost use Rattle.pl_term.specs.NodeLists.{place_if};

    ghost Value = { List ℕ };

    ghost view = { λ n. n.met.items };

    ghost invariant = { λ n. (x : ℕ) → tree.get nat_cmp n.places x ≡ place_if x n.met.items };
}

impl Numbering {
    /// No variable met yet.
    pub fn new(alloc: Global) -> Numbering
        ensures { result ≡ [] }
    {
        Numbering {
            met: Vec::new(alloc),
            places: BTreeMap::new(alloc),
        }
    }

    /// How many variables were met.
    pub fn len(&self) -> u64
        ensures { result ≡ length self.now }
    {
        self.met.len() as u64
    }

    /// The place of the variable `x` among those met, which it joins where it was not yet met. The only error is
    /// out of memory.
    pub fn number(&mut self, x: u64) -> Result<u64, Memory>
        ensures met { OnOk result (self.new ≡ with x self.old) }
        ensures number { IfOk result (λ n. n ≡ place x self.new) }
    {
        if let Some(n) = self.places.get(&x) {
            return Ok(*n);
        }
        let n = self.met.len() as u64;
        self.met.push(x)?;
        match self.places.insert(x, n) {
            Ok(_) => Ok(n),
            Err(_) => {
                let _ = self.met.pop();
                Err(Memory)
            }
        }
    }
}
