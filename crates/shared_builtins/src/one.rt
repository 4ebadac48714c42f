//! The predicates of one argument.
ghost use Rattle.std.specs.Prelude.{◌≡◌, IfOk, OnOk};
ghost use Rattle.pl_term.specs.Tree.{none, more};
ghost use Rattle.pl_model.specs.Requests.{assert_first, assert_last};
ghost use Rattle.pl_model.specs.SharedBuiltins.{abolishes, asserts, checks_indicators, creates_queue, destroys, lists_procedures, makes_dynamic};
ghost use Rattle.atom_api.specs.Names.{Names};
ghost use Rattle.builtin_rows.specs.Lists.{IsNaming};
ghost use Rattle.term_store.specs.Contents.{Holds};
ghost use Rattle.world_builtins.specs.Naming.{IsHeldAt};
ghost use Rattle.world_builtins.specs.Spelling.{reads};
ghost use Rattle.shared_builtins.specs.Shared.{ComesTo, clause_first, clause_last, declared_only, made_dynamic, one_comes};
ghost use Rattle.shared_builtins.specs.Telling.{TellsAtoms};

use crate::arguments::kept_at;
use crate::checks::{Check, first_fault};
use crate::clauses::{Given, clause_at};
use crate::faults::Fault;
use crate::indicators::{Indicated, all_indicated_at, indicated_at};
use crate::kinds::VARIABLE;
use crate::pairs::both_of;
use crate::preds::StateOne;
use crate::shared::Shared;
use atom_api::fixed;
use builtin_rows::passes;
use pl_term::Memory;
use std::alloc::Global;
use term_store::{Place, Store, View};
use world_api::Visit;

/// What a predicate comes to with its argument. The only error is out of memory.
pub fn of_one(
    alloc: Global,
    store: &mut Store,
    pred: StateOne,
    term: Place,
) -> Result<Shared, Memory>
    requires { Holds store.old term }
    ensures kept { OnOk result (store.new ≡ store.old) }
    ensures comes { IfOk result (λ r. (m : Names) → TellsAtoms m → IsHeldAt m store.old term
        → ComesTo m store.old (more (reads m store.old term) none) (one_comes pred (reads m store.old term)) r) }
{
    match pred {
        StateOne::Asserta => asserts_first(alloc, store, term),
        StateOne::Assertz => asserts_last(alloc, store, term),
        StateOne::Abolish => Ok(abolishes(store, term)),
        StateOne::Dynamic => makes_dynamic(alloc, store, term),
        StateOne::Declares => declares(alloc, store, term),
        StateOne::CurrentPredicate => Ok(lists_procedures(store, term)),
        StateOne::ThreadSelf => Ok(Shared::Asks(Visit::OwnName)),
        StateOne::GetOwn => gets_own(store, term),
        StateOne::PeekOwn => peeks_own(store, term),
        StateOne::CreateQueue => Ok(creates_queue(store, term)),
        StateOne::DestroyQueue => destroys(store, term),
    }
}

/// asserta/1. The only error is out of memory. So below.
fn asserts_first(alloc: Global, store: &mut Store, term: Place) -> Result<Shared, Memory>
    requires { Holds store.old term }
    ensures kept { OnOk result (store.new ≡ store.old) }
    ensures comes { IfOk result (λ r. (m : Names) → TellsAtoms m → IsHeldAt m store.old term
        → ComesTo m store.old (more (reads m store.old term) none) (asserts assert_first (reads m store.old term)) r) }
{
    let given = clause_at(alloc, store, term)?;
    Ok(adds_first(given))
}

/// What asserta/1 comes to with what a clause-term gives.
fn adds_first(given: Given) -> Shared
    ensures { result ≡ clause_first given }
{
    match given {
        Given::Clause(clause) => Shared::Asks(Visit::AssertFirst { clause }),
        Given::Refused(fault) => Shared::Refused(fault),
    }
}

/// assertz/1.
fn asserts_last(alloc: Global, store: &mut Store, term: Place) -> Result<Shared, Memory>
    requires { Holds store.old term }
    ensures kept { OnOk result (store.new ≡ store.old) }
    ensures comes { IfOk result (λ r. (m : Names) → TellsAtoms m → IsHeldAt m store.old term
        → ComesTo m store.old (more (reads m store.old term) none) (asserts assert_last (reads m store.old term)) r) }
{
    let given = clause_at(alloc, store, term)?;
    Ok(adds_last(given))
}

/// What assertz/1 comes to with what a clause-term gives.
fn adds_last(given: Given) -> Shared
    ensures { result ≡ clause_last given }
{
    match given {
        Given::Clause(clause) => Shared::Asks(Visit::AssertLast { clause }),
        Given::Refused(fault) => Shared::Refused(fault),
    }
}

/// abolish/1.
fn abolishes(store: &Store, term: Place) -> Shared
    requires { Holds store.now term }
    ensures { (m : Names) → IsNaming m → IsHeldAt m store.now term
        → ComesTo m store.now (more (reads m store.now term) none) (abolishes (reads m store.now term)) result }
{
    match indicated_at(store, term) {
        Ok(procedure) => Shared::Asks(Visit::Abolish { procedure }),
        Err(fault) => Shared::Refused(fault),
    }
}

/// dynamic/1.
fn makes_dynamic(alloc: Global, store: &Store, term: Place) -> Result<Shared, Memory>
    requires { Holds store.now term }
    ensures { IfOk result (λ r. (m : Names) → IsNaming m → IsHeldAt m store.now term
        → ComesTo m store.now (more (reads m store.now term) none) (makes_dynamic (reads m store.now term)) r) }
{
    let indicated = all_indicated_at(alloc, store, term)?;
    Ok(makes_all_dynamic(indicated))
}

/// What dynamic/1 comes to with the predicates that are indicated.
fn makes_all_dynamic(indicated: Indicated) -> Shared
    ensures { result ≡ made_dynamic indicated }
{
    match indicated {
        Indicated::Predicates(procedures) => Shared::Asks(Visit::MakeDynamic { procedures }),
        Indicated::Refused(fault) => Shared::Refused(fault),
    }
}

/// discontiguous/1 and multifile/1, which change nothing.
fn declares(alloc: Global, store: &Store, term: Place) -> Result<Shared, Memory>
    requires { Holds store.now term }
    ensures { IfOk result (λ r. (m : Names) → IsNaming m → IsHeldAt m store.now term
        → ComesTo m store.now (more (reads m store.now term) none) (checks_indicators (reads m store.now term)) r) }
{
    let indicated = all_indicated_at(alloc, store, term)?;
    Ok(declares_all(indicated))
}

/// What they come to with the predicates that are indicated.
fn declares_all(indicated: Indicated) -> Shared
    ensures { result ≡ declared_only indicated }
{
    match indicated {
        Indicated::Predicates(_all) => Shared::Holds,
        Indicated::Refused(fault) => Shared::Refused(fault),
    }
}

/// thread_get_message/1.
fn gets_own(store: &Store, term: Place) -> Result<Shared, Memory>
    requires { Holds store.now term }
    ensures { IfOk result (λ r. (m : Names) → IsNaming m → IsHeldAt m store.now term
        → ComesTo m store.now (more (reads m store.now term) none) (one_comes StateOne.GetOwn (reads m store.now term)) r) }
{
    let pattern = kept_at(store, term)?;
    Ok(Shared::Asks(Visit::GetMessage {
        queue: None,
        pattern,
    }))
}

/// thread_peek_message/1.
fn peeks_own(store: &Store, term: Place) -> Result<Shared, Memory>
    requires { Holds store.now term }
    ensures { IfOk result (λ r. (m : Names) → IsNaming m → IsHeldAt m store.now term
        → ComesTo m store.now (more (reads m store.now term) none) (one_comes StateOne.PeekOwn (reads m store.now term)) r) }
{
    let pattern = kept_at(store, term)?;
    Ok(Shared::Asks(Visit::PeekMessage {
        queue: None,
        pattern,
    }))
}

/// message_queue_create/1: of an atom a queue with that alias, of a variable one without.
fn creates_queue(store: &Store, term: Place) -> Shared
    requires { Holds store.now term }
    ensures { (m : Names) → IsNaming m → IsHeldAt m store.now term
        → ComesTo m store.now (more (reads m store.now term) none) (creates_queue (reads m store.now term)) result }
{
    let refused = Shared::Refused(Fault::For(fixed::TYPE_ERROR, fixed::ATOM, term));
    match store.look(term) {
        View::Variable(_) => Shared::Asks(Visit::CreateQueue { alias: None }),
        View::Atom(name) => Shared::Asks(Visit::CreateQueue { alias: Some(name) }),
        View::Integer(_) => refused,
        View::Compound(_, _) => refused,
    }
}

/// message_queue_destroy/1.
fn destroys(store: &Store, term: Place) -> Result<Shared, Memory>
    requires { Holds store.now term }
    ensures { IfOk result (λ r. (m : Names) → IsNaming m → IsHeldAt m store.now term
        → ComesTo m store.now (more (reads m store.now term) none) (destroys (reads m store.now term)) r) }
{
    match first_fault(store, &[Check::Bound(term)]) {
        Some(fault) => Ok(Shared::Refused(fault)),
        None => {
            let queue = kept_at(store, term)?;
            Ok(Shared::Asks(Visit::DestroyQueue { queue }))
        }
    }
}

/// current_predicate/1: of a variable or a term Name/Arity.
fn lists_procedures(store: &Store, term: Place) -> Shared
    requires { Holds store.now term }
    ensures { (m : Names) → IsNaming m → IsHeldAt m store.now term
        → ComesTo m store.now (more (reads m store.now term) none) (lists_procedures (reads m store.now term)) result }
{
    if passes(VARIABLE, store, term) {
        return Shared::Asks(Visit::AllProcedures);
    }
    match both_of(store, term, fixed::SLASH) {
        Some(_) => Shared::Asks(Visit::AllProcedures),
        None => Shared::Refused(Fault::For(fixed::TYPE_ERROR, fixed::PREDICATE_INDICATOR, term)),
    }
}
