//! The predicates of two arguments.
ghost use Rattle.std.specs.Prelude.{IfOk};
ghost use Rattle.pl_term.specs.Tree.{none, more};
ghost use Rattle.pl_model.specs.SharedBuiltins.{creates_thread, gets_from, joins, lists_flags, peeks_at, puts_flag, sends};
ghost use Rattle.atom_api.specs.Names.{Names};
ghost use Rattle.builtin_rows.specs.Lists.{IsNaming};
ghost use Rattle.term_store.specs.Contents.{Holds};
ghost use Rattle.world_builtins.specs.Naming.{IsHeldAt};
ghost use Rattle.world_builtins.specs.Spelling.{reads};
ghost use Rattle.shared_builtins.specs.Shared.{ComesTo, two_comes};

use crate::arguments::{atom_at, kept_at};
use crate::checks::{Check, first_fault};
use crate::preds::StateTwo;
use crate::shared::Shared;
use pl_term::Memory;
use std::alloc::Global;
use term_store::{Place, Store};
use world_api::Visit;

/// What a predicate comes to with its arguments. The only error is out of memory. So below.
pub fn of_two(
    alloc: Global,
    store: &Store,
    pred: StateTwo,
    first: Place,
    second: Place,
) -> Result<Shared, Memory>
    requires first { Holds store.now first }
    requires second { Holds store.now second }
    ensures { IfOk result (λ r. (m : Names) → IsNaming m → IsHeldAt m store.now first → IsHeldAt m store.now second
        → ComesTo m store.now (more (reads m store.now first) (more (reads m store.now second) none)) (two_comes pred (reads m store.now first) (reads m store.now second)) r) }
{
    match pred {
        StateTwo::SetFlag => Ok(puts_flag(store, first, second)),
        StateTwo::CurrentFlag => Ok(lists_flags(store, first, second)),
        StateTwo::CreateThread => creates_thread(alloc, store, first, second),
        StateTwo::JoinThread => joins(store, first, second),
        StateTwo::Send => sends(store, first, second),
        StateTwo::Get => gets_from(store, first, second),
        StateTwo::Peek => peeks_at(store, first, second),
    }
}

/// set_prolog_flag/2 (ISO 8.17.1): a flag and its value.
fn puts_flag(store: &Store, first: Place, second: Place) -> Shared
    requires first { Holds store.now first }
    requires second { Holds store.now second }
    ensures { (m : Names) → IsNaming m → IsHeldAt m store.now first → IsHeldAt m store.now second
        → ComesTo m store.now (more (reads m store.now first) (more (reads m store.now second) none)) (puts_flag (reads m store.now first) (reads m store.now second)) result }
{
    let checks = [
        Check::Bound(first),
        Check::Bound(second),
        Check::Atom(first),
        Check::Flag(first),
        Check::Changeable(first),
        Check::Value(first, second),
    ];
    match first_fault(store, &checks) {
        Some(fault) => Shared::Refused(fault),
        None => {
            let flag = atom_at(store, first);
            let value = atom_at(store, second);
            Shared::Asks(Visit::PutFlag { flag, value })
        }
    }
}

/// current_prolog_flag/2 (ISO 8.17.2): a flag and its value.
fn lists_flags(store: &Store, first: Place, second: Place) -> Shared
    requires first { Holds store.now first }
    requires second { Holds store.now second }
    ensures { (m : Names) → IsNaming m → IsHeldAt m store.now first → IsHeldAt m store.now second
        → ComesTo m store.now (more (reads m store.now first) (more (reads m store.now second) none)) (lists_flags (reads m store.now first) (reads m store.now second)) result }
{
    let _value = second;
    match first_fault(store, &[Check::Atom(first), Check::Flag(first)]) {
        Some(fault) => Shared::Refused(fault),
        None => Shared::Asks(Visit::AllFlags),
    }
}

/// thread_create/2: a goal and the name of its thread.
fn creates_thread(
    alloc: Global,
    store: &Store,
    first: Place,
    second: Place,
) -> Result<Shared, Memory>
    requires first { Holds store.now first }
    requires second { Holds store.now second }
    ensures { IfOk result (λ r. (m : Names) → IsNaming m → IsHeldAt m store.now first → IsHeldAt m store.now second
        → ComesTo m store.now (more (reads m store.now first) (more (reads m store.now second) none)) (creates_thread (reads m store.now first) (reads m store.now second)) r) }
{
    match first_fault(
        store,
        &[
            Check::Bound(first),
            Check::Callable(first),
            Check::Unbound(second),
        ],
    ) {
        Some(fault) => Ok(Shared::Refused(fault)),
        None => {
            let goal = kept_at(store, first)?;
            let aliases = Vec::new(alloc);
            Ok(Shared::Asks(Visit::CreateThread {
                goal,
                aliases,
                error: None,
            }))
        }
    }
}

/// thread_join/2: a thread and how it ended.
fn joins(store: &Store, first: Place, second: Place) -> Result<Shared, Memory>
    requires first { Holds store.now first }
    requires second { Holds store.now second }
    ensures { IfOk result (λ r. (m : Names) → IsNaming m → IsHeldAt m store.now first → IsHeldAt m store.now second
        → ComesTo m store.now (more (reads m store.now first) (more (reads m store.now second) none)) (joins (reads m store.now first) (reads m store.now second)) r) }
{
    let _status = second;
    match first_fault(store, &[Check::Bound(first)]) {
        Some(fault) => Ok(Shared::Refused(fault)),
        None => {
            let thread = kept_at(store, first)?;
            Ok(Shared::Asks(Visit::JoinThread { thread }))
        }
    }
}

/// thread_send_message/2: a queue and a message.
fn sends(store: &Store, first: Place, second: Place) -> Result<Shared, Memory>
    requires first { Holds store.now first }
    requires second { Holds store.now second }
    ensures { IfOk result (λ r. (m : Names) → IsNaming m → IsHeldAt m store.now first → IsHeldAt m store.now second
        → ComesTo m store.now (more (reads m store.now first) (more (reads m store.now second) none)) (sends (reads m store.now first) (reads m store.now second)) r) }
{
    match first_fault(store, &[Check::Bound(first)]) {
        Some(fault) => Ok(Shared::Refused(fault)),
        None => {
            let queue = kept_at(store, first)?;
            let message = kept_at(store, second)?;
            Ok(Shared::Asks(Visit::SendMessage { queue, message }))
        }
    }
}

/// thread_get_message/2: a queue and a message.
fn gets_from(store: &Store, first: Place, second: Place) -> Result<Shared, Memory>
    requires first { Holds store.now first }
    requires second { Holds store.now second }
    ensures { IfOk result (λ r. (m : Names) → IsNaming m → IsHeldAt m store.now first → IsHeldAt m store.now second
        → ComesTo m store.now (more (reads m store.now first) (more (reads m store.now second) none)) (gets_from (reads m store.now first) (reads m store.now second)) r) }
{
    match first_fault(store, &[Check::Bound(first)]) {
        Some(fault) => Ok(Shared::Refused(fault)),
        None => {
            let queue = kept_at(store, first)?;
            let pattern = kept_at(store, second)?;
            Ok(Shared::Asks(Visit::GetMessage {
                queue: Some(queue),
                pattern,
            }))
        }
    }
}

/// thread_peek_message/2: a queue and a message.
fn peeks_at(store: &Store, first: Place, second: Place) -> Result<Shared, Memory>
    requires first { Holds store.now first }
    requires second { Holds store.now second }
    ensures { IfOk result (λ r. (m : Names) → IsNaming m → IsHeldAt m store.now first → IsHeldAt m store.now second
        → ComesTo m store.now (more (reads m store.now first) (more (reads m store.now second) none)) (peeks_at (reads m store.now first) (reads m store.now second)) r) }
{
    match first_fault(store, &[Check::Bound(first)]) {
        Some(fault) => Ok(Shared::Refused(fault)),
        None => {
            let queue = kept_at(store, first)?;
            let pattern = kept_at(store, second)?;
            Ok(Shared::Asks(Visit::PeekMessage {
                queue: Some(queue),
                pattern,
            }))
        }
    }
}
