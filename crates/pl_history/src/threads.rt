//! Eight threads append and visit through one lock. What they did is one history, in which each engine's updates are
//! those that its front counted.
ghost use Rattle.std.specs.Prelude.{◌≡◌, ◌≢◌, ◌<◌, ◌^◌, ◌+◌, ℕ, [], true, false, All, length};
ghost use Rattle.pl_model.specs.History.{has_begun, mine};
ghost use Rattle.pl_history.specs.Seats.{table_is};
ghost use Rattle.pl_history.specs.Fronts.{new_hub, new_front, own_engine, own_runs, own_updates};

use super::*;
use pl_model::shows::{Erases, ShowsTree, Starts};
use std::alloc::Global;
use std::marker::{Brand, PhantomData};
use std::process::Abort;
use std::sync::{Mutex, Wait};
use std::test::Fail;
use std::thread;
use std::thread::Threads;

const ENGINES: u32 = 8;

const TURNS: u32 = 25;

/// Which history it is. The call picks it.
pub trait Naming {
    ghost use Rattle.atomic_table.specs.Seated.{TableId};

    ghost table: { TableId };
}

impl Naming for Brand {
    ghost use Rattle.pl_history.specs.Seats.{no_table};

    ghost table = { no_table };
}

#[derive(Drop)]
pub struct Named<K: Naming> {
    history: History,
    of: PhantomData<K>,
    ghost named: { history ≡ K.table } by { table_is history K.table },
}

// What lies under the lock.
#[derive(Drop)]
pub struct HubSeat<K: Naming> {
    hub: HubFront,
    of: PhantomData<K>,
    ghost named: { hub.table ≡ K.table } by { table_is hub.table K.table },
}

// An engine that has not ended, with its front, and how many updates it made.
#[derive(Drop)]
pub struct Worker<K: Naming> {
    front: Front,
    engine: u64,
    made: u64,
    of: PhantomData<K>,
    ghost named: { front.table ≡ K.table } by { table_is front.table K.table },
    ghost own: { own_engine front.lives ≡ engine },
    ghost runs: { own_runs front.lives ≡ true },
    ghost counted: { made ≡ length (own_updates front.lives) },
}

// An erasure by the front's own engine.
fn erase(history: &History, hub: &mut HubFront, front: &mut Front, engine: u64) -> u64
    requires hub_here { hub.old.table ≡ history.now }
    requires front_here { front.old.table ≡ history.now }
    requires own { own_engine front.old.lives ≡ engine }
    requires runs { own_runs front.old.lives ≡ true }
    requires room { length hub.old.seen < 2 ^ 47 }
    ensures hub_here { hub.new.table ≡ hub.old.table }
    ensures front_here { front.new.table ≡ front.old.table }
    ensures own { own_engine front.new.lives ≡ engine }
    ensures runs { own_runs front.new.lives ≡ true }
    ensures counted { length (own_updates front.new.lives) ≡ length (own_updates front.old.lives) + 1 }
{
    let erases = Erases { engine, place: 0 };
    let Ok(place) = history.append(hub, front, &erases) else {
        unreachable!()
    };
    place
}

// Appends and visits once.
fn turn<K: Naming>(named: &Named<K>, hub_seat: &mut HubSeat<K>, worker: &mut Worker<K>) {
    if hub_seat.hub.generation() >= 1 << 40 || worker.made >= 1 << 40 {
        return;
    }
    erase(
        &named.history,
        &mut hub_seat.hub,
        &mut worker.front,
        worker.engine,
    );
    worker.made += 1;
    named.history.visit(&mut hub_seat.hub, &mut worker.front);
}

fn work<K: Naming, R: Wait>(
    rt: &R,
    named: &Named<K>,
    lock: &Mutex<HubSeat<K>>,
    mut worker: Worker<K>,
) -> Worker<K> {
    for _ in 0..TURNS {
        let mut hub_seat = lock.lock(rt);
        turn(named, &mut *hub_seat, &mut worker);
        drop(hub_seat);
    }
    worker
}

// A goal, of which the test needs no more than that there is one.
#[derive(Drop)]
struct Goal;

impl ShowsTree for Goal {
    ghost use Rattle.std.specs.Prelude.{[]};
    ghost use Rattle.pl_term.specs.Tree.{atom};

    ghost tree = { λ _. atom [] };
}

// Engine 1 begins another, which goes with a front of its own.
fn begin(history: &History, hub: &mut HubFront, first: &mut Front, front: &mut Front, engine: u64)
    requires hub_here { hub.old.table ≡ history.now }
    requires hub_free { hub.old.lives ≡ [] }
    requires first_here { first.old.table ≡ history.now }
    requires own { own_engine first.old.lives ≡ 1 }
    requires runs { own_runs first.old.lives ≡ true }
    requires front { front.old ≡ new_front history.now }
    requires new { has_begun hub.old.seen engine ≡ false }
    requires room { length hub.old.seen < 2 ^ 47 }
    ensures hub_here { hub.new.table ≡ hub.old.table }
    ensures hub_free { hub.new.lives ≡ [] }
    ensures seen { length hub.new.seen ≡ length hub.old.seen + 1 }
    ensures begun { (e : ℕ) → e ≢ engine → has_begun hub.old.seen e ≡ false → has_begun hub.new.seen e ≡ false }
    ensures first_here { first.new.table ≡ first.old.table }
    ensures first_own { own_engine first.new.lives ≡ 1 }
    ensures first_runs { own_runs first.new.lives ≡ true }
    ensures first_counted { length (own_updates first.new.lives) ≡ length (own_updates first.old.lives) + 1 }
    ensures front_here { front.new.table ≡ history.now }
    ensures front_own { own_engine front.new.lives ≡ engine }
    ensures front_runs { own_runs front.new.lives ≡ true }
    ensures front_counted { own_updates front.new.lives ≡ [] }
{
    let goal = Goal;
    let starts = Starts {
        engine: 1,
        number: engine,
        goal: &goal,
        alias: None,
    };
    let Ok(_) = history.append(hub, first, &starts) else {
        unreachable!()
    };
    history.hand(hub, front, engine);
}

// All engines have begun, each with a front of its own.
fn begin_all<K: Naming>(
    alloc: Global,
    named: &Named<K>,
    hub: &mut HubFront,
    mut fronts: Vec<Front>,
) -> Result<Vec<Worker<K>>, Fail>
    requires hub { hub.old ≡ new_hub K.table }
    requires fronts { All (λ f. f ≡ new_front K.table) fronts.items }
    ensures { hub.new.table ≡ K.table }
{
    let mut workers = Vec::new(alloc);
    let mut first = fronts.pop().ok_or("a front")?;
    named.history.hand(hub, &mut first, 1);
    for engine in 2..9 {
        let mut front = fronts.pop().ok_or("a front")?;
        begin(&named.history, hub, &mut first, &mut front, engine);
        workers.push(Worker {
            front,
            engine,
            made: 0,
            of: PhantomData,
        })?;
    }
    workers.push(Worker {
        front: first,
        engine: 1,
        made: 7,
        of: PhantomData,
    })?;
    Ok(workers)
}

#[tactic(auto, using(crate::proofs::Lives::told_own))]
// How many updates the history has of the worker's engine, by what its front counted.
fn settle<K: Naming>(named: &Named<K>, hub: &mut HubFront, worker: &mut Worker<K>) -> u64
    requires { hub.old.table ≡ K.table }
    ensures hub { hub.new ≡ hub.old }
    ensures counted { result ≡ length (mine hub.old.seen worker.old.engine) }
{
    named.history.look(hub, &mut worker.front);
    worker.made
}

// What all workers made, added up.
fn settle_all<K: Naming>(named: &Named<K>, hub: &mut HubFront, workers: Vec<Worker<K>>) -> u64
    requires { hub.old.table ≡ K.table }
{
    let mut sum: u64 = 0;
    for mut worker in workers {
        sum = sum.wrapping_add(settle(named, hub, &mut worker));
    }
    sum
}

fn run_all<K: Naming + Send + Sync, R: Threads + Wait + Abort + Sync>(
    rt: &R,
    alloc: Global,
    history: History,
    mut hub: HubFront,
    fronts: Vec<Front>,
) -> Result<(), Fail>
    requires history { history ≡ K.table }
    requires hub { hub ≡ new_hub K.table }
    requires fronts { All (λ f. f ≡ new_front K.table) fronts.items }
{
    let named = Named {
        history,
        of: PhantomData,
    };
    let shared = &named;
    let workers = begin_all::<K>(alloc, shared, &mut hub, fronts)?;
    let lock = Mutex::new(HubSeat {
        hub,
        of: PhantomData,
    });
    let hub_seat = &lock;
    let workers = thread::map_vec(
        rt,
        workers,
        &|worker: Worker<K>| -> Worker<K> { work(rt, shared, hub_seat, worker) },
    )?;
    let HubSeat { mut hub, of: _ } = lock.into_inner();
    let sum = settle_all(shared, &mut hub, workers);
    assert_eq!(rt; sum, 207);
    assert_eq!(rt; hub.generation(), 207);
    Ok(())
}

#[test]
fn eight_threads_make_one_history(rt: HostRuntime) -> Result<(), Fail> {
    let (history, hub, fronts) = History::new(rt.alloc(), ENGINES)?;
    run_all::<Brand, _>(&rt, rt.alloc(), history, hub, fronts)
}
