//! Where procedures stand, by their predicates.
ghost use Rattle.std.specs.Prelude.{◌≡◌, ℕ, [], ◌&&◌, ◌||◌, ◌==◌, not, false, true, nat_eq, filter, OnOk, OnErr};
ghost use Rattle.std.specs.Option.{option_copied};
ghost use Rattle.std.specs.HashMap as table;
ghost use Rattle.pl_model.specs.laws.Shown.{proc_of};
ghost use Rattle.clause_db.specs.Index.{hash_on, hash_of, is_in, is_listed, Indexed};

use pl_model::shows::Proc;
use pl_term::Memory;
use std::alloc::Global;
use std::collections::HashMap;
use std::convert::AsStr;

/// The hash of some bytes after that of others, by Fowler, Noll and Vo.
fn hash_on(before: u64, bytes: &[u8]) -> u64
    ensures { result ≡ hash_on before bytes.now }
{
    let mut hash = before;
    for i in 0..bytes.len() {
        hash = (hash ^ bytes[i] as u64).wrapping_mul(0x100_0000_01b3);
    }
    hash
}

/// The hash of a predicate.
pub fn hash_of(p: &Proc) -> u64
    ensures { result ≡ hash_of (proc_of p.now) }
{
    hash_on(p.arity ^ 0xcbf2_9ce4_8422_2325, p.name.as_str().as_bytes())
}

/// Takes a place out of others.
fn take_out(places: &mut Vec<usize>, place: usize)
    ensures { places.new.items ≡ filter (λ q. not (q == place)) places.old.items }
{
    places.retain(|other| *other != place);
}

/// The places under a hash. One of them stands beside the others, so that a hash with one place alone needs no room
/// elsewhere.
#[derive(Drop)]
pub struct Places {
    pub one: usize,
    pub others: Vec<usize>,
}

impl Places {
    /// Puts a place to these. The only error is out of memory; after it they are as they were.
    fn add(&mut self, place: usize) -> Result<(), Memory>
        ensures ok { OnOk result ((q : ℕ) → is_in self.new q ≡ ((q == place) || is_in self.old q)) }
        ensures err { OnErr result ((q : ℕ) → is_in self.new q ≡ is_in self.old q) }
    {
        self.others.push(place)?;
        Ok(())
    }

    /// Takes a place out, and says whether there is none any more.
    fn remove(&mut self, place: usize) -> bool
        ensures left { result ≡ false → (q : ℕ) → is_in self.new q ≡ (not (q == place) && is_in self.old q) }
        ensures none { result ≡ true → (q : ℕ) → (not (q == place) && is_in self.old q) ≡ false }
    {
        take_out(&mut self.others, place);
        if self.one != place {
            return false;
        }
        match self.others.pop() {
            Some(next) => {
                self.one = next;
                false
            }
            None => true,
        }
    }
}

/// The places of procedures, by the hashes of their predicates.
#[derive(Drop)]
pub struct Index {
    alloc: Global,
    by_hash: HashMap<u64, Places>,
}

impl Index {
    pub fn new(alloc: Global) -> Index
        ensures { Indexed result [] }
    {
        Index {
            alloc,
            by_hash: HashMap::new(alloc),
        }
    }

    /// The places under the hash, if there are any.
    pub fn places(&self, hash: u64) -> Option<&Places>
        ensures { option_copied result ≡ table.get nat_eq self.now.by_hash hash }
    {
        self.by_hash.get(&hash)
    }

    /// Puts a place under a hash. The only error is out of memory; after it the index is as it was.
    pub fn add(&mut self, hash: u64, place: usize) -> Result<(), Memory>
        ensures ok { OnOk result ((k q : ℕ) → is_listed self.new k q ≡ (((k == hash) && (q == place)) || is_listed self.old k q)) }
        ensures err { OnErr result ((k q : ℕ) → is_listed self.new k q ≡ is_listed self.old k q) }
    {
        if let Some(places) = self.by_hash.get_mut(&hash) {
            places.add(place)?;
            return Ok(());
        }
        let places = Places {
            one: place,
            others: Vec::new(self.alloc),
        };
        self.by_hash.insert(hash, places)?;
        Ok(())
    }

    /// Takes a place from under a hash.
    pub fn remove(&mut self, hash: u64, place: usize)
        ensures { (k q : ℕ) → is_listed self.new k q ≡ (not ((k == hash) && (q == place)) && is_listed self.old k q) }
    {
        let Some(places) = self.by_hash.get_mut(&hash) else {
            return;
        };
        if places.remove(place) {
            self.by_hash.remove(&hash);
        }
    }
}
