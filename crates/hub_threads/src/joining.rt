//! Threads are joined.
ghost use Rattle.std.specs.Prelude.{◌≡◌, ◌<◌, ◌+◌, ◌++◌, ◌^◌, ℕ, IsSome, IfOk, Some, length};
ghost use Rattle.std.specs.List.{All};
ghost use Rattle.pl_term.specs.Tree.{Tree};
ghost use Rattle.pl_model.specs.declared.threads.Status.{Status as HowEnded};
ghost use Rattle.pl_model.specs.History.{History};
ghost use Rattle.pl_model.specs.Requests as requests;
ghost use Rattle.pl_model.specs.Service.{name_of, status_term};
ghost use Rattle.atom_api.specs.Names.{FixedStand, Names};
ghost use Rattle.atom_words.specs.Seats.{seen};
ghost use Rattle.atom_table.specs.Naming.{names, requests as asked};
ghost use Rattle.term_store.specs.NumberedNames.{names_of};
ghost use Rattle.counted_terms.specs.CountedTerms.{said};
ghost use Rattle.counted_terms.specs.Keeping.{HoldsOn, KeeperAt, keeper_view};
ghost use Rattle.counted_terms.specs.Rows.{row_names, row_refusals};
ghost use Rattle.counted_terms.specs.Sharing.{Counts, Restored};
ghost use Rattle.hub_threads.specs.Finding.{HasEnded, status_named};
ghost use Rattle.hub_threads.specs.Rows.{Decides, status_names, updates_in};
ghost use Rattle.hub_threads.specs.Serving.{status_as};
ghost use Rattle.hub_threads.specs.Threads.{IsThreads, thread_counts};
ghost use Rattle.hub_threads.specs.Weights.{IsBelow};

use crate::finding::{FoundThread, find_thread};
use crate::held::{Name, QueueFault, Queues};
use crate::refusing::{not_permitted, not_there, wait_on_thread, worn_out};
use crate::statuses::{hand_over_status, made_status};
use crate::taking::are_sound;
use atom_api::fixed;
use atom_table::{Keeper, NamesTable, TableAtoms};
use counted_terms::{CountedTerm, MOST_UPDATES, Row};
use pl_term::Memory;
use std::alloc::Global;
use term_store::Stored;
use world_api::Reply;

/// thread_join/2: the thread that the term names is joined, where it has ended; the engine waits where it has not.
pub fn join_thread<K: NamesTable>(
    alloc: Global,
    queues: &mut Queues<CountedTerm>,
    atoms: &mut TableAtoms<K>,
    keeper: &mut Option<Keeper>,
    generation: u64,
    engine: u64,
    thread: &Stored,
) -> Row
    requires keeper { KeeperAt K.atoms K.size keeper.old }
    requires counts { Counts (thread_counts queues.old) (keeper_view keeper.old) generation }
    requires thread { All (λ a. IsSome (names (seen atoms.old.seat) a)) (names_of thread.now) }
    ensures keeper { KeeperAt K.atoms K.size keeper.new }
    ensures restored { Restored (thread_counts queues.old) (thread_counts queues.new) (keeper_view keeper.old) (keeper_view keeper.new) generation (generation + updates_in result) }
    ensures below { (count : ℕ) → IsBelow count generation queues.old → IsBelow count (generation + updates_in result) queues.new }
    ensures goals { queues.new.goals ≡ queues.old.goals }
    ensures says { (count goals : ℕ) (h : History) → length h ≡ generation → IsThreads (keeper_view keeper.old) queues.old count goals h
        → Decides (keeper_view keeper.new) (names (seen atoms.new.seat)) engine (requests.join_thread (said (names (seen atoms.old.seat)) thread.now)) queues.new count goals h result }
    ensures named { All (λ a. IsSome (names (seen atoms.new.seat) a)) (row_names result) }
    ensures holds { HoldsOn (names (seen atoms.old.seat)) (names (seen atoms.new.seat)) }
    ensures refusals { (seen atoms.new.seat).refusals ≡ (seen atoms.old.seat).refusals ++ row_refusals result }
    ensures asked { asked (seen atoms.new.seat) ≡ asked (seen atoms.old.seat) }
{
    match find_thread(alloc, queues, atoms, thread) {
        FoundThread::Memory => Row::Memory,
        FoundThread::Missing => not_there(alloc, fixed::THREAD, thread),
        FoundThread::Is(name, number, has_ended) => {
            if number == engine {
                return not_permitted(alloc, fixed::JOIN, fixed::THREAD, thread);
            }
            if !has_ended {
                return wait_on_thread(thread);
            }
            join_ended(
                alloc, queues, atoms, keeper, generation, engine, &name, thread,
            )
        }
    }
}

// A thread that has ended is joined by another one.
fn join_ended<K: NamesTable>(
    alloc: Global,
    queues: &mut Queues<CountedTerm>,
    atoms: &mut TableAtoms<K>,
    keeper: &mut Option<Keeper>,
    generation: u64,
    engine: u64,
    name: &Name,
    thread: &Stored,
) -> Row
    requires keeper { KeeperAt K.atoms K.size keeper.old }
    requires counts { Counts (thread_counts queues.old) (keeper_view keeper.old) generation }
    requires named { name_of (said (names (seen atoms.old.seat)) thread.now) ≡ Some name.now }
    requires there { HasEnded queues.old.state name.now engine }
    ensures keeper { KeeperAt K.atoms K.size keeper.new }
    ensures restored { Restored (thread_counts queues.old) (thread_counts queues.new) (keeper_view keeper.old) (keeper_view keeper.new) generation (generation + updates_in result) }
    ensures below { (count : ℕ) → IsBelow count generation queues.old → IsBelow count (generation + updates_in result) queues.new }
    ensures goals { queues.new.goals ≡ queues.old.goals }
    ensures says { (count goals : ℕ) (h : History) → length h ≡ generation → IsThreads (keeper_view keeper.old) queues.old count goals h
        → Decides (keeper_view keeper.new) (names (seen atoms.new.seat)) engine (requests.join_thread (said (names (seen atoms.old.seat)) thread.now)) queues.new count goals h result }
    ensures named { All (λ a. IsSome (names (seen atoms.new.seat) a)) (row_names result) }
    ensures holds { HoldsOn (names (seen atoms.old.seat)) (names (seen atoms.new.seat)) }
    ensures refusals { (seen atoms.new.seat).refusals ≡ (seen atoms.old.seat).refusals ++ row_refusals result }
    ensures asked { asked (seen atoms.new.seat) ≡ asked (seen atoms.old.seat) }
{
    if generation >= MOST_UPDATES {
        return worn_out(alloc);
    }
    match ended_term(alloc, queues, name, engine) {
        Err(Memory) => Row::Memory,
        Ok(status) => join_as(queues, atoms, keeper, generation, engine, name, status),
    }
}

// How a thread that has ended did. The only error is out of memory.
fn ended_term(
    alloc: Global,
    queues: &Queues<CountedTerm>,
    name: &Name,
    engine: u64,
) -> Result<Stored, Memory>
    requires there { HasEnded queues.now.state name.now engine }
    ensures says { IfOk result (λ e. (m : Names) (s : HowEnded Tree) → FixedStand m → status_named queues.now.state name.now ≡ Some s → said m e ≡ status_term (status_as (said m) s)) }
    ensures named { IfOk result (λ e. (m : Names) (s : HowEnded Tree) → FixedStand m → status_named queues.now.state name.now ≡ Some s → All (λ a. IsSome (m a)) (status_names s) → All (λ a. IsSome (m a)) (names_of e)) }
{
    let _other = engine;
    match queues.status_of(name) {
        None => unreachable!(),
        Some(status) => made_status(alloc, status),
    }
}

// The thread is joined, and how it ended is answered by this term.
fn join_as<K: NamesTable>(
    queues: &mut Queues<CountedTerm>,
    atoms: &mut TableAtoms<K>,
    keeper: &mut Option<Keeper>,
    generation: u64,
    engine: u64,
    name: &Name,
    status: Stored,
) -> Row
    requires keeper { KeeperAt K.atoms K.size keeper.old }
    requires counts { Counts (thread_counts queues.old) (keeper_view keeper.old) generation }
    requires there { HasEnded queues.old.state name.now engine }
    requires room { generation < 2 ^ 47 }
    requires says { (m : Names) (s : HowEnded Tree) → FixedStand m → status_named queues.old.state name.now ≡ Some s → said m status ≡ status_term (status_as (said m) s) }
    requires held { (m : Names) (s : HowEnded Tree) → FixedStand m → status_named queues.old.state name.now ≡ Some s → All (λ a. IsSome (m a)) (status_names s) → All (λ a. IsSome (m a)) (names_of status) }
    ensures keeper { KeeperAt K.atoms K.size keeper.new }
    ensures restored { Restored (thread_counts queues.old) (thread_counts queues.new) (keeper_view keeper.old) (keeper_view keeper.new) generation (generation + updates_in result) }
    ensures below { (count : ℕ) → IsBelow count generation queues.old → IsBelow count (generation + updates_in result) queues.new }
    ensures goals { queues.new.goals ≡ queues.old.goals }
    ensures says { (count goals : ℕ) (h : History) (x : Tree) → length h ≡ generation → IsThreads (keeper_view keeper.old) queues.old count goals h → name_of x ≡ Some name.now
        → Decides (keeper_view keeper.new) (names (seen atoms.new.seat)) engine (requests.join_thread x) queues.new count goals h result }
    ensures named { All (λ a. IsSome (names (seen atoms.new.seat) a)) (row_names result) }
    ensures holds { HoldsOn (names (seen atoms.old.seat)) (names (seen atoms.new.seat)) }
    ensures refusals { (seen atoms.new.seat).refusals ≡ (seen atoms.old.seat).refusals ++ row_refusals result }
    ensures asked { asked (seen atoms.new.seat) ≡ asked (seen atoms.old.seat) }
{
    queues.is_sound();
    match queues.join(name) {
        Err(QueueFault::Memory) => Row::Memory,
        Err(_) => unreachable!(),
        Ok(None) => unreachable!(),
        Ok(Some(how)) => {
            are_sound(queues);
            hand_over_status(atoms, keeper, how);
            Row::Makes(Reply::Status(status))
        }
    }
}
