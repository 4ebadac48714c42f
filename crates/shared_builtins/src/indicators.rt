//! Predicate indicators (ISO 7.1.6.6).
ghost use Rattle.std.specs.Prelude.{◌≡◌, ◌++◌, ◌∷◌, [], IfOk, OnOk, map, false, codes, Err};
ghost use Rattle.std.specs.List.{All};
ghost use Rattle.pl_model.specs.Checks.{all_indicated, elements, proc_indicated};
ghost use Rattle.pl_model.specs.SharedBuiltins.{conjuncts, listed_or_conjuncts};
ghost use Rattle.atom_api.specs.Names.{Names};
ghost use Rattle.builtin_rows.specs.Lists.{IsNaming};
ghost use Rattle.term_store.specs.Contents.{Holds};
ghost use Rattle.world_builtins.specs.Naming.{IsHeldAt};
ghost use Rattle.world_builtins.specs.Spelling.{reads};
ghost use Rattle.shared_builtins.specs.Faults.{IsFaultHeld, IsFaultIn, fault_term};
ghost use Rattle.shared_builtins.specs.Indicators.{AreIndicated, AreProcs, IsIndicated, IsProc, joined, proc_of_parts};
ghost use Rattle.shared_builtins.specs.Pairs.{is_pair};

use crate::arguments::{atom_at, natural_at};
use crate::checks::{Check, first_fault};
use crate::faults::Fault;
use crate::kinds::VARIABLE;
use crate::pairs::both_of;
use atom_api::fixed;
use builtin_rows::{ListEnd, list_elements, passes};
use pl_term::Memory;
use std::alloc::Global;
use term_store::{Place, Store};
use world_api::Procedure;

/// The predicate that the term Name/Arity at a place indicates.
pub fn indicated_at(store: &Store, place: Place) -> Result<Procedure, Fault>
    requires { Holds store.now place }
    ensures { (m : Names) → IsNaming m → IsHeldAt m store.now place → IsIndicated m store.now place result }
{
    match both_of(store, place, fixed::SLASH) {
        Some(both) => named_at(store, both.0, both.1),
        None => Err(no_indicator(store, place)),
    }
}

/// The error of a term that is no predicate indicator.
fn no_indicator(store: &Store, place: Place) -> Fault
    requires { Holds store.now place }
    ensures error { (m : Names) → is_pair (codes "/") (reads m store.now place) ≡ false
        → proc_indicated (reads m store.now place) ≡ Err (fault_term m store.now result) }
    ensures inside { IsFaultIn store.now result }
    ensures held { (m : Names) → IsHeldAt m store.now place → IsFaultHeld m store.now result }
{
    if passes(VARIABLE, store, place) {
        Fault::Unbound
    } else {
        Fault::For(fixed::TYPE_ERROR, fixed::PREDICATE_INDICATOR, place)
    }
}

/// The predicate with the name and the number of arguments at these places.
fn named_at(store: &Store, name: Place, arity: Place) -> Result<Procedure, Fault>
    requires name { Holds store.now name }
    requires arity { Holds store.now arity }
    ensures { (m : Names) → IsNaming m → IsHeldAt m store.now name → IsHeldAt m store.now arity
        → IsProc m store.now (proc_of_parts (reads m store.now name) (reads m store.now arity)) result }
{
    let checks = [
        Check::Bound(name),
        Check::Bound(arity),
        Check::Atom(name),
        Check::Integer(arity),
        Check::Natural(arity),
    ];
    match first_fault(store, &checks) {
        Some(fault) => Err(fault),
        None => {
            let name = atom_at(store, name);
            let arity = natural_at(store, arity);
            Ok(Procedure { name, arity })
        }
    }
}

/// What a term with several predicate indicators gives.
#[derive(Drop)]
pub enum Indicated {
    Predicates(Vec<Procedure>),
    Refused(Fault),
}

/// The predicates that one indicator, a list or a conjunction of them indicates. The only error is out of memory.
pub fn all_indicated_at(alloc: Global, store: &Store, term: Place) -> Result<Indicated, Memory>
    requires { Holds store.now term }
    ensures { IfOk result (λ i. (m : Names) → IsNaming m → IsHeldAt m store.now term → AreIndicated m store.now term i) }
{
    let terms = indicators_at(alloc, store, term)?;
    let indicated = procedures_at(alloc, store, terms.as_slice())?;
    Ok(indicated)
}

/// The predicates that the terms at these places indicate. The only error is out of memory.
fn procedures_at(alloc: Global, store: &Store, terms: &[Place]) -> Result<Indicated, Memory>
    requires { All (Holds store.now) terms.now }
    ensures { IfOk result (λ i. (m : Names) → IsNaming m → All (IsHeldAt m store.now) terms.now
        → AreProcs m store.now (all_indicated (map (reads m store.now) terms.now)) i) }
{
    let mut all = Vec::new(alloc);
    for place in terms {
        match indicated_at(store, *place) {
            Ok(procedure) => all.push(procedure)?,
            Err(fault) => return Ok(Indicated::Refused(fault)),
        }
    }
    Ok(Indicated::Predicates(all))
}

/// The places of the elements of a list, or of the terms that a conjunction joins. The only error is out of memory.
fn indicators_at(alloc: Global, store: &Store, term: Place) -> Result<Vec<Place>, Memory>
    requires { Holds store.now term }
    ensures inside { IfOk result (λ v. All (Holds store.now) v.items) }
    ensures read { IfOk result (λ v. (m : Names) → IsNaming m → IsHeldAt m store.now term
        → (listed_or_conjuncts (reads m store.now term) (elements (reads m store.now term)) ≡ map (reads m store.now) v.items) × All (IsHeldAt m store.now) v.items) }
{
    let mut terms = Vec::new(alloc);
    let end = list_elements(store, term, &mut terms)?;
    match end {
        ListEnd::Closed => Ok(terms),
        ListEnd::Open => {
            let joined = conjuncts_at(alloc, store, term)?;
            Ok(joined)
        }
        ListEnd::Broken => {
            let joined = conjuncts_at(alloc, store, term)?;
            Ok(joined)
        }
    }
}

/// The places of the terms that a conjunction joins, from left to right. The only error is out of memory.
fn conjuncts_at(alloc: Global, store: &Store, term: Place) -> Result<Vec<Place>, Memory>
    requires { Holds store.now term }
    ensures inside { IfOk result (λ v. All (Holds store.now) v.items) }
    ensures read { IfOk result (λ v. (m : Names) → IsNaming m → IsHeldAt m store.now term
        → (conjuncts (reads m store.now term) ≡ map (reads m store.now) v.items) × All (IsHeldAt m store.now) v.items) }
{
    let mut all = Vec::new(alloc);
    let mut left = Vec::new(alloc);
    left.push(term)?;
    for _ in 0..u64::MAX {
        let Some(next) = left.pop() else {
            return Ok(all);
        };
        take_conjunct(store, next, &mut all, &mut left)?;
    }
    Err(Memory)
}

/// Puts the two terms that a conjunction joins on top of those that are left, the first one last, or another term after all that
/// were found. The only error is out of memory.
fn take_conjunct(
    store: &Store,
    next: Place,
    all: &mut Vec<Place>,
    left: &mut Vec<Place>,
) -> Result<(), Memory>
    requires next { Holds store.now next }
    requires all { All (Holds store.now) all.old.items }
    requires left { All (Holds store.now) left.old.items }
    ensures all { OnOk result (All (Holds store.now) all.new.items) }
    ensures left { OnOk result (All (Holds store.now) left.new.items) }
    ensures read { OnOk result ((m : Names) → IsNaming m → IsHeldAt m store.now next
        → joined (reads m store.now) all.new.items left.new.items ≡ joined (reads m store.now) all.old.items (left.old.items ++ next ∷ [])) }
    ensures all_held { OnOk result ((m : Names) → IsNaming m → IsHeldAt m store.now next → All (IsHeldAt m store.now) all.old.items → All (IsHeldAt m store.now) all.new.items) }
    ensures left_held { OnOk result ((m : Names) → IsNaming m → IsHeldAt m store.now next → All (IsHeldAt m store.now) left.old.items → All (IsHeldAt m store.now) left.new.items) }
{
    match both_of(store, next, fixed::COMMA) {
        Some(both) => {
            left.push(both.1)?;
            left.push(both.0)?;
            Ok(())
        }
        None => {
            all.push(next)?;
            Ok(())
        }
    }
}
