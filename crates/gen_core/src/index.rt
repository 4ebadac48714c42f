//! The places in database order at which clauses stand, by the keys of their first arguments.
ghost use Rattle.std.specs.Prelude.{◌≡◌, ℕ, ◌+◌, ◌^◌, ◌<◌, ◌&&◌, ◌||◌, ◌==◌, not, Bool, true, false, IfNone, IfSome, OnOk, OnErr, Some, None};
ghost use Rattle.std.specs.Ordering.{is_eq, nat_cmp};
ghost use Rattle.std.specs.Option.{option_copied, option_map_or};
ghost use Rattle.std.specs.BTreeMap as tree;
ghost use Rattle.std.specs.BTreeSet as set;
ghost use Rattle.gen_core.specs.Index.{is_in, is_listed, IsNext};

use pl_term::Memory;
use std::alloc::Global;
use std::cmp::Ord;
use std::collections::{BTreeMap, BTreeSet};

/// The first number of the set from `from` on.
pub fn next_in(numbers: &BTreeSet<u64>, from: u64) -> Option<u64>
    ensures { IsNext (set.contains nat_cmp numbers.now) from result }
{
    if numbers.is_empty() {
        return None;
    }
    numbers.range(from..).next().copied()
}

/// The numbers under a key. One of them stands beside the others, so that a key with one number alone needs no room
/// elsewhere.
#[derive(Drop)]
pub struct Numbers {
    one: u64,
    others: BTreeSet<u64>,
}

impl Numbers {
    /// The first number from `from` on.
    fn next(&self, from: u64) -> Option<u64>
        ensures { IsNext (is_in self.now) from result }
    {
        earlier(one_from(self.one, from), next_in(&self.others, from))
    }

    /// Puts a number to these. The only error is out of memory; after it they are as they were.
    fn add(&mut self, number: u64) -> Result<(), Memory>
        ensures ok { OnOk result ((q : ℕ) → is_in self.new q ≡ ((q == number) || is_in self.old q)) }
        ensures err { OnErr result ((q : ℕ) → is_in self.new q ≡ is_in self.old q) }
    {
        self.others.insert(number)?;
        Ok(())
    }

    /// Takes a number out, and says whether there is none any more.
    fn remove(&mut self, number: u64) -> bool
        ensures left { result ≡ false → (q : ℕ) → is_in self.new q ≡ (not (q == number) && is_in self.old q) }
        ensures none { result ≡ true → (q : ℕ) → (not (q == number) && is_in self.old q) ≡ false }
    {
        self.others.remove(&number);
        if self.one != number {
            return false;
        }
        match self.others.pop_first() {
            Some(next) => {
                self.one = next;
                false
            }
            None => true,
        }
    }
}

/// The number, if it is not below `from`.
fn one_from(one: u64, from: u64) -> Option<u64>
    ensures { IsNext (λ q. q == one) from result }
{
    if one < from { None } else { Some(one) }
}

/// The first number from `from` on, where there are any.
pub fn next_under(numbers: Option<&Numbers>, from: u64) -> Option<u64>
    ensures { IsNext (λ q. option_map_or (λ s. is_in s q) (option_copied numbers.entry) false) from result }
{
    match numbers {
        Some(numbers) => numbers.next(from),
        None => None,
    }
}

/// The smaller of two numbers, where there are any.
pub fn earlier(left: Option<u64>, right: Option<u64>) -> Option<u64>
    ensures { (P Q : ℕ → Bool) (from : ℕ) → IsNext P from left → IsNext Q from right
        → IsNext (λ q. P q || Q q) from result }
{
    match (left, right) {
        (Some(x), Some(y)) => Some(x.min(y)),
        (Some(x), None) => Some(x),
        (None, Some(y)) => Some(y),
        (None, None) => None,
    }
}

/// Numbers by keys.
#[derive(Drop)]
pub struct Index<K: Ord + Drop> {
    alloc: Global,
    by_key: BTreeMap<K, Numbers>,
}

impl<K: Ord + Drop> Index<K> {
    pub fn new(alloc: Global) -> Index<K>
        ensures { (k : K) (q : ℕ) → is_listed K.cmp result.by_key k q ≡ false }
    {
        Index {
            alloc,
            by_key: BTreeMap::new(alloc),
        }
    }

    /// The numbers under the key, if there are any.
    pub fn numbers(&self, key: &K) -> Option<&Numbers>
        ensures { option_copied result ≡ tree.get K.cmp self.now.by_key key.now }
    {
        self.by_key.get(key)
    }

    /// One of the numbers under the key, if there are any.
    pub fn one(&self, key: &K) -> Option<u64>
        ensures some { IfSome result (λ n. is_listed K.cmp self.now.by_key key.now n ≡ true) }
        ensures none { IfNone result ((q : ℕ) → is_listed K.cmp self.now.by_key key.now q ≡ false) }
    {
        match self.by_key.get(key) {
            Some(numbers) => Some(numbers.one),
            None => None,
        }
    }

    /// Puts a number under a key. The only error is out of memory; after it the index is as it was.
    pub fn add(&mut self, key: K, number: u64) -> Result<(), Memory>
        ensures ok { OnOk result ((k : K) (q : ℕ) → is_listed K.cmp self.new.by_key k q
            ≡ (is_eq (K.cmp k key) && (q == number)) || is_listed K.cmp self.old.by_key k q) }
        ensures err { OnErr result ((k : K) (q : ℕ) → is_listed K.cmp self.new.by_key k q
            ≡ is_listed K.cmp self.old.by_key k q) }
    {
        if let Some(numbers) = self.by_key.get_mut(&key) {
            numbers.add(number)?;
            return Ok(());
        }
        let numbers = Numbers {
            one: number,
            others: BTreeSet::new(self.alloc),
        };
        self.by_key.insert(key, numbers)?;
        Ok(())
    }

    /// Takes a number from under a key.
    pub fn remove(&mut self, key: &K, number: u64)
        ensures { (k : K) (q : ℕ) → is_listed K.cmp self.new.by_key k q
            ≡ (not (is_eq (K.cmp k key.now) && (q == number)) && is_listed K.cmp self.old.by_key k q) }
    {
        let Some(numbers) = self.by_key.get_mut(key) else {
            return;
        };
        if numbers.remove(number) {
            self.by_key.remove(key);
        }
    }
}
