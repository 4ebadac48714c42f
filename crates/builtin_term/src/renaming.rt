//! Whether variables became different variables.
ghost use Rattle.std.specs.Prelude.{◌≡◌, IfOk, OnOk};
ghost use Rattle.std.specs.BTreeMap as tree;
ghost use Rattle.std.specs.List.{All};
ghost use Rattle.std.specs.Ordering.{nat_cmp};
ghost use Rattle.term_store.specs.Contents.{Holds, term_at};
ghost use Rattle.builtin_term.specs.Renaming.{Claims, IsRenaming, Owns};

use crate::met_variables::Met;
use pl_term::Memory;
use std::alloc::Global;
use std::collections::BTreeMap;
use term_store::{Store, View};

/// Whether a variable stands at each of the places, and different ones where different variables were met. The only error is
/// Out of memory.
pub fn is_renaming(alloc: Global, store: &Store, met: &[Met]) -> Result<bool, Memory>
    requires { All (λ e. Holds store.now e.place) met.now }
    ensures { IfOk result (λ b. IsRenaming b store.now met.now) }
{
    let mut owners = BTreeMap::new(alloc);
    for i in 0..met.len() {
        let next = met[i];
        if !is_own(store, &mut owners, next)? {
            return Ok(false);
        }
    }
    Ok(true)
}

/// Whether a variable stands at the place, of which no other variable is the owner. The only error is out of memory.
fn is_own(store: &Store, owners: &mut BTreeMap<u64, u64>, met: Met) -> Result<bool, Memory>
    requires { Holds store.now met.place }
    ensures { IfOk result (λ b. Owns b (term_at store.now met.place) met.number (tree.get nat_cmp owners.old) (tree.get nat_cmp owners.new)) }
{
    match store.look(met.place) {
        View::Variable(number) => claim(owners, number, met.number),
        View::Integer(_) => Ok(false),
        View::Atom(_) => Ok(false),
        View::Compound(_, _) => Ok(false),
    }
}

/// Makes a variable the owner of a number that has none yet, and says whether it is its owner. The only error is out of
/// memory.
fn claim(owners: &mut BTreeMap<u64, u64>, number: u64, owner: u64) -> Result<bool, Memory>
    ensures { IfOk result (λ b. Claims b number owner (tree.get nat_cmp owners.old) (tree.get nat_cmp owners.new)) }
{
    if let Some(other) = owners.get(&number) {
        return Ok(*other == owner);
    }
    match owners.insert(number, owner) {
        Ok(_) => Ok(true),
        Err(_) => Err(Memory),
    }
}
