//! Pairs of compound terms that a walk knows something of.
ghost use Rattle.std.specs.Prelude.{◌≡◌, ◌++◌, ◌∷◌, [], IsTrue, OnOk};
ghost use Rattle.std.specs.List.{Contains};

use crate::chains::Chains;
use crate::pace::Pace;
use crate::views::Arguments;
use pl_term::Memory;
use std::alloc::Global;
use std::marker::Model;

/// How many pairs are looked at for one.
const STEPS: usize = 8;

/// Two compound terms of a store, by their arguments.
#[derive(Clone, Copy, Debug, Drop)]
pub struct KnownPair {
    pub left: Arguments,
    pub right: Arguments,
}

/// Pairs of compound terms, seen by contracts as their list. What is known of them its owner knows. It takes no memory before the
/// first pair is put in, and tells without a search whether a pair is there.
#[derive(Drop)]
pub struct KnownPairs {
    list: Vec<KnownPair>,
    chains: Chains,
    left: Pace,
    right: Pace,
}

impl Model for KnownPairs {
    ghost use Rattle.std.specs.Prelude.{List};
    ghost use Rattle.term_store.specs.declared.known_pairs.KnownPair.{KnownPair};

    ghost Value = { List KnownPair };

    ghost view = { λ k. k.list.items };
}

impl KnownPairs {
    /// No pairs, of a walk that begins.
    pub fn new(alloc: Global) -> KnownPairs
        ensures { result ≡ [] }
    {
        KnownPairs {
            list: Vec::new(alloc),
            chains: Chains::new(alloc),
            left: Pace::new(),
            right: Pace::new(),
        }
    }

    /// Lets all pairs go. A walk begins.
    pub fn clear(&mut self)
        ensures { self.new ≡ [] }
    {
        self.list.clear();
        self.chains.clear();
        self.left = Pace::new();
        self.right = Pace::new();
    }

    /// Counts a pair that the walk comes by. The answer is whether pairs are to be put in: whether the walk has come by a
    /// compound term twice, or by very many.
    pub fn is_long(&mut self, left: Arguments, right: Arguments) -> bool
        ensures { self.new ≡ self.old }
    {
        let long = self.left.is_long(left.start);
        self.right.is_long(right.start) && long
    }

    /// Whether a pair is known to be among them.
    pub fn holds(&self, left: Arguments, right: Arguments) -> bool
        ensures { IsTrue result → Contains self.now (record { left = left; right = right }) }
    {
        let mut at = self.chains.last(number_of(left, right));
        for _ in 0..STEPS {
            if at >= self.list.len() {
                return false;
            }
            let pair = self.list[at];
            if pair.left.is_same(left) && pair.right.is_same(right) {
                return true;
            }
            at = self.chains.before(at);
        }
        false
    }

    /// Puts a pair to the others. The only error is out of memory.
    pub fn add(&mut self, left: Arguments, right: Arguments) -> Result<(), Memory>
        ensures { OnOk result (self.new ≡ self.old ++ record { left = left; right = right } ∷ []) }
    {
        self.list.push(KnownPair { left, right })?;
        self.chains.add(number_of(left, right))
    }
}

/// A number of a pair.
fn number_of(left: Arguments, right: Arguments) -> usize {
    left.start.wrapping_mul(31).wrapping_add(right.start)
}
