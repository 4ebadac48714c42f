//! The predicates of three arguments.
ghost use Rattle.std.specs.Prelude.{◌≡◌, IfOk, IfSome, List, OnOk, Result};
ghost use Rattle.pl_term.specs.Tree.{Tree, Trees, none, more};
ghost use Rattle.pl_model.specs.SharedBuiltins.{creates_with, creates_with_options, lists_operators, on_ok, options_of, puts_operators};
ghost use Rattle.atom_api.specs.Names.{Names};
ghost use Rattle.builtin_rows.specs.Lists.{IsNaming};
ghost use Rattle.term_store.specs.Contents.{Holds};
ghost use Rattle.world_builtins.specs.Naming.{IsHeldAt};
ghost use Rattle.world_builtins.specs.Spelling.{reads};
ghost use Rattle.shared_builtins.specs.Faults.{IsFaultIn};
ghost use Rattle.shared_builtins.specs.Names.{AreListed, AreListedIn};
ghost use Rattle.shared_builtins.specs.Operators.{kind_named};
ghost use Rattle.shared_builtins.specs.Options.{AreOptionsHeld, options_read};
ghost use Rattle.shared_builtins.specs.Shared.{ComesTo, operators_by, operators_of, three_comes};

use crate::arguments::{atom_at, kept_at, natural_at};
use crate::checks::{Check, first_fault};
use crate::errors::kept_fault;
use crate::faults::Fault;
use crate::names::{Listed, Named, list_at, names_at};
use crate::operators::kind_of;
use crate::options::{Options, options_at};
use crate::preds::StateThree;
use crate::shared::Shared;
use atom_api::Atom;
use pl_model::operators::Kind;
use pl_term::Memory;
use std::alloc::Global;
use term_store::{Place, Store};
use world_api::Visit;

/// What a predicate comes to with its arguments. The only error is out of memory.
pub fn of_three(
    alloc: Global,
    store: &mut Store,
    pred: StateThree,
    first: Place,
    second: Place,
    third: Place,
) -> Result<Shared, Memory>
    requires first { Holds store.old first }
    requires second { Holds store.old second }
    requires third { Holds store.old third }
    ensures kept { OnOk result (store.new ≡ store.old) }
    ensures comes { IfOk result (λ r. (m : Names) → IsNaming m → IsHeldAt m store.old first → IsHeldAt m store.old second → IsHeldAt m store.old third
        → ComesTo m store.old (more (reads m store.old first) (more (reads m store.old second) (more (reads m store.old third) none)))
        (three_comes pred (reads m store.old first) (reads m store.old second) (reads m store.old third)) r) }
{
    match pred {
        StateThree::Op => puts_operators(alloc, store, first, second, third),
        StateThree::CurrentOp => Ok(lists_operators(store, first, second, third)),
        StateThree::CreateThread => creates_with_options(alloc, store, first, second, third),
    }
}

/// op/3 (ISO 8.14.3): a priority, a specifier and names. The only error is out of memory.
fn puts_operators(
    alloc: Global,
    store: &Store,
    first: Place,
    second: Place,
    third: Place,
) -> Result<Shared, Memory>
    requires first { Holds store.now first }
    requires second { Holds store.now second }
    requires third { Holds store.now third }
    ensures { IfOk result (λ r. (m : Names) → IsNaming m → IsHeldAt m store.now first → IsHeldAt m store.now second → IsHeldAt m store.now third
        → ComesTo m store.now (more (reads m store.now first) (more (reads m store.now second) (more (reads m store.now third) none)))
        (puts_operators (reads m store.now first) (reads m store.now second) (reads m store.now third)) r) }
{
    let checks = [
        Check::Bound(first),
        Check::Bound(second),
        Check::Bound(third),
        Check::Integer(first),
        Check::Priority(first),
        Check::Atom(second),
        Check::Specifier(second),
    ];
    match first_fault(store, &checks) {
        Some(fault) => Ok(Shared::Refused(fault)),
        None => {
            let specifier = atom_at(store, second);
            let number = natural_at(store, first);
            let priority = number as u16;
            let names = names_at(alloc, store, third)?;
            Ok(puts_named(priority, specifier, names))
        }
    }
}

/// What op/3 comes to with the names.
fn puts_named(priority: u16, specifier: Atom, names: Named) -> Shared
    ensures { result ≡ operators_by priority (kind_named specifier) names }
{
    match kind_of(specifier) {
        Some(kind) => puts_kind(priority, kind, names),
        None => {
            drop(names);
            Shared::Holds
        }
    }
}

/// The same, by the kind of the operators.
fn puts_kind(priority: u16, kind: Kind, names: Named) -> Shared
    ensures { result ≡ operators_of priority kind names }
{
    match names {
        Named::Atoms(names) => Shared::Asks(Visit::PutOperators {
            priority,
            kind,
            names,
        }),
        Named::Refused(fault) => Shared::Refused(fault),
    }
}

/// current_op/3 (ISO 8.14.4): a priority, a specifier and a name, or variables in their places.
fn lists_operators(store: &Store, first: Place, second: Place, third: Place) -> Shared
    requires first { Holds store.now first }
    requires second { Holds store.now second }
    requires third { Holds store.now third }
    ensures { (m : Names) → IsNaming m → IsHeldAt m store.now first → IsHeldAt m store.now second → IsHeldAt m store.now third
        → ComesTo m store.now (more (reads m store.now first) (more (reads m store.now second) (more (reads m store.now third) none)))
        (lists_operators (reads m store.now first) (reads m store.now second) (reads m store.now third)) result }
{
    let checks = [
        Check::Priority(first),
        Check::Specifier(second),
        Check::Atom(third),
    ];
    match first_fault(store, &checks) {
        Some(fault) => Shared::Refused(fault),
        None => Shared::Asks(Visit::AllOperators),
    }
}

/// thread_create/3: a goal, the name of its thread and options. The only error is out of memory.
fn creates_with_options(
    alloc: Global,
    store: &mut Store,
    first: Place,
    second: Place,
    third: Place,
) -> Result<Shared, Memory>
    requires first { Holds store.old first }
    requires second { Holds store.old second }
    requires third { Holds store.old third }
    ensures kept { OnOk result (store.new ≡ store.old) }
    ensures comes { IfOk result (λ r. (m : Names) → IsNaming m → IsHeldAt m store.old first → IsHeldAt m store.old second → IsHeldAt m store.old third
        → ComesTo m store.old (more (reads m store.old first) (more (reads m store.old second) (more (reads m store.old third) none)))
        (creates_with_options (reads m store.old first) (reads m store.old second) (reads m store.old third)) r) }
{
    match first_fault(
        store,
        &[
            Check::Bound(first),
            Check::Callable(first),
            Check::Unbound(second),
        ],
    ) {
        Some(fault) => Ok(Shared::Refused(fault)),
        None => {
            let listed = list_at(alloc, store, third)?;
            let shared = creates_listed(alloc, store, first, listed)?;
            Ok(shared)
        }
    }
}

/// The same, with the list of its options. The only error is out of memory.
fn creates_listed(
    alloc: Global,
    store: &mut Store,
    goal: Place,
    listed: Listed,
) -> Result<Shared, Memory>
    requires goal { Holds store.old goal }
    requires listed { AreListedIn store.old listed }
    ensures kept { OnOk result (store.new ≡ store.old) }
    ensures comes { IfOk result (λ r. (m : Names) (x : Result (List Tree) Tree) (terms : Tree → Trees) (ts : Trees) → IsNaming m → IsHeldAt m store.old goal → AreListed m store.old x listed
        → ComesTo m store.old ts (on_ok x (λ os. creates_with (reads m store.old goal) terms (options_of os))) r) }
{
    match listed {
        Listed::Terms(terms) => {
            let options = options_at(alloc, store, terms.as_slice())?;
            let shared = creates_by(store, goal, options)?;
            Ok(shared)
        }
        Listed::Refused(fault) => Ok(Shared::Refused(fault)),
    }
}

/// Where the first wrong option has no alias before it, nothing is asked. The only error is out of memory.
fn creates_by(store: &mut Store, goal: Place, options: Options) -> Result<Shared, Memory>
    requires goal { Holds store.old goal }
    requires options { IfSome options.fault (IsFaultIn store.old) }
    ensures kept { OnOk result (store.new ≡ store.old) }
    ensures comes { IfOk result (λ r. (m : Names) (terms : Tree → Trees) (ts : Trees) → IsNaming m → IsHeldAt m store.old goal → AreOptionsHeld m store.old options
        → ComesTo m store.old ts (creates_with (reads m store.old goal) terms (options_read m store.old options)) r) }
{
    let Options { aliases, fault } = options;
    match fault {
        None => {
            let goal = kept_at(store, goal)?;
            Ok(Shared::Asks(Visit::CreateThread {
                goal,
                aliases,
                error: None,
            }))
        }
        Some(fault) => {
            if aliases.len() == 0 {
                return Ok(Shared::Refused(fault));
            }
            let error = kept_fault(store, fault)?;
            let goal = kept_at(store, goal)?;
            Ok(Shared::Asks(Visit::CreateThread {
                goal,
                aliases,
                error: Some(error),
            }))
        }
    }
}
