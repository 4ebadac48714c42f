//! The variables of a term, where they stand.
ghost use Rattle.std.specs.Prelude.{◌≡◌, ℕ, IfOk};
ghost use Rattle.std.specs.List.{All};
ghost use Rattle.pl_term.specs.Variables.{has, is_in};
ghost use Rattle.term_store.specs.Contents.{Holds, term_at};
ghost use Rattle.builtin_term.specs.TermWalks.{IsMet, numbers};

use crate::variable_walk::variables_at;
use pl_term::Memory;
use std::alloc::Global;
use term_store::{Place, Store, View};

/// A variable that was met: its number, and a place at which it stands.
#[derive(Clone, Copy, Debug, Drop)]
pub struct Met {
    pub number: u64,
    pub place: Place,
}

/// The variables that occur in the term at a place. The only error is out of memory.
fn met_variables(alloc: Global, store: &Store, term: Place) -> Result<Vec<Met>, Memory>
    requires { Holds store.now term }
    ensures places { IfOk result (λ v. All (IsMet store.now) v.items) }
    ensures all { IfOk result (λ v. (x : ℕ) → is_in x (numbers v.items) ≡ has x (term_at store.now term)) }
{
    let places = variables_at(alloc, store, term)?;
    let mut met = Vec::new(alloc);
    for i in 0..places.len() {
        let next = met_at(store, places[i])?;
        met.push(next)?;
    }
    Ok(met)
}

/// The same, where a term that has none takes no memory.
pub fn variables_in(alloc: Global, store: &mut Store, term: Place) -> Result<Vec<Met>, Memory>
    requires { Holds store.old term }
    ensures same { store.new ≡ store.old }
    ensures places { IfOk result (λ v. All (IsMet store.old) v.items) }
    ensures all { IfOk result (λ v. (x : ℕ) → is_in x (numbers v.items) ≡ has x (term_at store.old term)) }
{
    if store.is_ground(term)? {
        return Ok(Vec::new(alloc));
    }
    met_variables(alloc, store, term)
}

/// The variable at a place. The only error is that none stands there.
fn met_at(store: &Store, place: Place) -> Result<Met, Memory>
    requires { Holds store.now place }
    ensures met { IfOk result (IsMet store.now) }
    ensures place { IfOk result (λ e. e.place ≡ place) }
{
    match store.look(place) {
        View::Variable(number) => Ok(Met { number, place }),
        _ => Err(Memory),
    }
}
