//! Variables that were met.
ghost use Rattle.std.specs.Prelude.{◌≡◌, [], IfOk, OnOk, not};
ghost use Rattle.pl_term.specs.Variables.{is_in};
ghost use Rattle.pl_term.specs.NodeLists.{with};

use pl_term::Memory;
use std::alloc::Global;
use std::collections::BTreeMap;
use std::marker::Model;

/// The numbers of the variables met so far, seen by contracts as their list in the order in which they were met.
#[derive(Drop)]
pub struct Seen {
    met: Vec<u64>,
    places: BTreeMap<u64, u64>,
}

impl Model for Seen {
    ghost use Rattle.std.specs.Prelude.{◌≡◌, List, ℕ};
    ghost use Rattle.std.specs.Ordering.{nat_cmp};
    ghost use Rattle.std.specs.BTreeMap as tree;
    ghost use Rattle.pl_term.specs.NodeLists.{place_if};

    ghost Value = { List ℕ };

    ghost view = { λ n. n.met.items };

    ghost invariant = { λ n. (x : ℕ) → tree.get nat_cmp n.places x ≡ place_if x n.met.items };
}

impl Seen {
    /// No variable met yet.
    pub fn new(alloc: Global) -> Seen
        ensures { result ≡ [] }
    {
        Seen {
            met: Vec::new(alloc),
            places: BTreeMap::new(alloc),
        }
    }

    /// Whether the variable `x` is met for the first time. It is met from then on. The only error is out of memory.
    pub fn meet(&mut self, x: u64) -> Result<bool, Memory>
        ensures met { OnOk result (self.new ≡ with x self.old) }
        ensures first { IfOk result (λ b. b ≡ not (is_in x self.old)) }
    {
        if let Some(_) = self.places.get(&x) {
            return Ok(false);
        }
        let n = self.met.len() as u64;
        self.met.push(x)?;
        match self.places.insert(x, n) {
            Ok(_) => Ok(true),
            Err(_) => {
                let _ = self.met.pop();
                Err(Memory)
            }
        }
    }
}
