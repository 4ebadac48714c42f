//! The named variables of a clause, found by their names.
ghost use Rattle.std.specs.Prelude.{◌≡◌, ℕ, [], ◌++◌, ◌∷◌, OnOk, drop, false};
ghost use Rattle.pl_model.specs.Grammar.{number_of};
ghost use Rattle.prolog_reader.specs.ByHash.{IsFound, hash_on, hash_of, pairs};

use crate::names::NamedVariable;
use pl_term::{Memory, Text};
use std::alloc::Global;
use std::collections::HashMap;
use std::convert::AsStr;
use std::marker::Model;

/// So many variables are looked at one after the other, which takes less time than to find them by their hashes.
const FEW: usize = 16;

/// The named variables of a clause in order of first occurrence, seen by contracts as their list.
#[derive(Debug, Drop)]
pub struct NamedVariables {
    list: Vec<NamedVariable>,
    /// Where the others stand, by the hashes of their names.
    by_hash: HashMap<u64, usize>,
    /// Two of the others have the same hash: all are looked at one after the other.
    clash: bool,
}

impl Model for NamedVariables {
    ghost use Rattle.std.specs.Prelude.{List};
    ghost use Rattle.prolog_reader.specs.declared.names.NamedVariable.{NamedVariable};
    ghost use Rattle.prolog_reader.specs.ByHash.{IsFound};

    ghost Value = { List NamedVariable };

    ghost view = { λ v. v.list.items };

    ghost invariant = { λ v. IsFound v.list.items v.by_hash v.clash };
}

impl NamedVariables {
    /// No variables.
    pub fn new(alloc: Global) -> NamedVariables
        ensures { result ≡ [] }
    {
        NamedVariables {
            list: Vec::new(alloc),
            by_hash: HashMap::new(alloc),
            clash: false,
        }
    }

    /// The variables as they are.
    pub fn into_list(self) -> Vec<NamedVariable>
        ensures { result.items ≡ self }
    {
        self.list
    }

    /// The number of the variable with this name.
    pub fn number_of(&self, name: &Text) -> Option<u64>
        ensures { result ≡ number_of (pairs self.now) name.now }
    {
        if self.clash || self.list.len() <= FEW {
            return number_among(self.list.as_slice(), name);
        }
        match number_among(&self.list.as_slice()[..FEW], name) {
            Some(number) => Some(number),
            None => number_by_hash(self.list.as_slice(), &self.by_hash, name),
        }
    }

    /// Puts a variable behind the others, of which none has its name. The only error is out of memory.
    pub fn push(&mut self, named: NamedVariable) -> Result<(), Memory>
        ensures { OnOk result (self.new ≡ self.old ++ named ∷ []) }
    {
        let hash = hash_of(&named.name);
        if self.by_hash.contains_key(&hash) {
            self.clash = true;
        } else if self.list.len() >= FEW {
            self.by_hash.insert(hash, self.list.len())?;
        }
        self.list.push(named)?;
        Ok(())
    }
}

/// The number of the variable with this name, found by a look at one after the other.
fn number_among(names: &[NamedVariable], name: &Text) -> Option<u64>
    ensures { result ≡ number_of (pairs names.now) name.now }
{
    for named in names {
        if named.name.same(name) {
            return Some(named.variable);
        }
    }
    None
}

/// The number of the variable with this name among those behind the first ones.
fn number_by_hash(
    names: &[NamedVariable],
    by_hash: &HashMap<u64, usize>,
    name: &Text,
) -> Option<u64>
    requires { IsFound names.now by_hash.now false }
    ensures { result ≡ number_of (pairs (drop 16 names.now)) name.now }
{
    let Some(place) = by_hash.get(&hash_of(name)) else {
        return None;
    };
    if *place < FEW {
        return None;
    }
    match names.get(*place) {
        Some(named) => {
            if named.name.same(name) {
                Some(named.variable)
            } else {
                None
            }
        }
        None => None,
    }
}

/// The hash of a name.
fn hash_of(name: &Text) -> u64
    ensures { result ≡ hash_of name.now }
{
    hash_on(0xcbf2_9ce4_8422_2325, name.as_str().as_bytes())
}

/// The hash of some bytes after that of others, by Fowler, Noll and Vo.
fn hash_on(before: u64, bytes: &[u8]) -> u64
    ensures { result ≡ hash_on before bytes.now }
{
    let mut hash = before;
    for i in 0..bytes.len() {
        hash = (hash ^ bytes[i] as u64).wrapping_mul(0x100_0000_01b3);
    }
    hash
}
