//! The run of all engines.
ghost use Rattle.std.specs.Prelude.{◌≡◌, IfOk};
ghost use Rattle.std.specs.List.{All};
ghost use Rattle.pl_model.specs.History.{History as Entries};
ghost use Rattle.pl_hub.specs.Order.{IsInOrder};
ghost use Rattle.pl_sched.specs.Ledger.{AreOnly, AreWhole, named_in};
ghost use Rattle.pl_sched.specs.Terms.{AreTerms};

use crate::ground::{Ground, Terms};
use crate::hub::Hub;
use crate::naming::Command;
use crate::over::{Ran, Unfinished};
use crate::starts::Starts;
use crate::work::work;
use engine_run::Runner;
use pl_history::History;
use pl_io::Gate;
use script_api::{Living, Script};
use std::alloc::Global;
use std::sync::{Condvar, Mutex, Wait};
use std::thread;
use std::thread::Threads;
use term_store::Stored;

/// Runs so many workers side by side, each on a thread of its own, until none has an engine to take up. The answer is whether
/// memory sufficed to start them.
fn run_workers<
    'a,
    't,
    S: Living + Script<Term = Stored> + Drop + Send,
    K: Command + Send + Sync,
    R: Threads + Wait + Sync,
    G: Gate + Sync,
    P: Starts<S> + Sync,
>(
    runtime: &'a R,
    alloc: Global,
    gate: &'a G,
    goals: &'a P,
    history: &'a History,
    hub: &'a Mutex<Hub<'t, Runner<S>, K>>,
    terms: Terms,
    workers: usize,
) -> bool
    requires history { history.now ≡ K.history }
    requires board { P.board goals.now ≡ K.board }
    requires terms { AreTerms K.program terms }
{
    let changed = Condvar::new();
    let ground = Ground {
        runtime,
        alloc,
        gate,
        goals,
        hub,
        history,
        terms,
    };
    let ran = thread::map_indices(
        runtime,
        alloc,
        workers,
        &|worker|
            requires { P.board ground.goals.now ≡ K.board }
        {
            work(&ground, &changed, number_of(worker));
            0_u8
        },
    );
    ran.is_ok()
}

/// The number of a worker, as the gate is told it.
fn number_of(worker: usize) -> u32 {
    u32::try_from(worker).unwrap_or(u32::MAX)
}

/// Runs all engines by so many workers side by side, and one at least, each on a thread of its own, until each has ended, or
/// waits and nothing wakes it. Before each visit to the shared state the gate is called. `goals` makes the
/// scripts of the engines that begin. The engines are given back with the one history that all of them have seen: engine
/// 1, and each that an update of the history began, in the order of their numbers; nobody else made an entry. The error says
/// that one can still go on, or has not begun, or that memory ran out.
pub fn run_all<
    't,
    S: Living + Script<Term = Stored> + Drop + Send,
    K: Command + Send + Sync,
    R: Threads + Wait + Sync,
    G: Gate + Sync,
    P: Starts<S> + Sync,
>(
    runtime: &R,
    alloc: Global,
    gate: &G,
    goals: &P,
    history: &History,
    hub: Hub<'t, Runner<S>, K>,
    terms: Terms,
    workers: usize,
) -> Result<Ran<Runner<S>, K>, Unfinished>
    requires history { history.now ≡ K.history }
    requires board { P.board goals.now ≡ K.board }
    requires terms { AreTerms K.program terms }
    ensures { IfOk result (λ v. (h : Entries) × All (λ d. d.seen ≡ h) v.dones.items × AreWhole h v.dones.items × AreOnly h × IsInOrder K.goals h × (v.begun.items ≡ named_in h)) }
{
    let hub = Mutex::new(hub);
    let workers = if workers == 0 { 1 } else { workers };
    if !run_workers(runtime, alloc, gate, goals, history, &hub, terms, workers) {
        return Err(Unfinished::Memory);
    }
    hub.into_inner().fronts(alloc, history)
}
