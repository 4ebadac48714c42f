//! Message queues are destroyed.
ghost use Rattle.std.specs.Prelude.{◌≡◌, ◌<◌, ◌+◌, ◌++◌, ◌^◌, ℕ, IsSome, IfSome, Some, false, length};
ghost use Rattle.std.specs.List.{All};
ghost use Rattle.pl_term.specs.Tree.{Tree};
ghost use Rattle.pl_model.specs.History.{History};
ghost use Rattle.pl_model.specs.Requests as requests;
ghost use Rattle.pl_model.specs.Service.{name_of};
ghost use Rattle.pl_model.specs.Threads.{queue_named};
ghost use Rattle.atom_api.specs.Names.{Names};
ghost use Rattle.atom_words.specs.Seats.{seen};
ghost use Rattle.atom_table.specs.Naming.{names, requests as asked};
ghost use Rattle.term_store.specs.NumberedNames.{names_of};
ghost use Rattle.counted_terms.specs.CountedTerms.{said};
ghost use Rattle.counted_terms.specs.Keeping.{HoldsOn, KeeperAt, keeper_view};
ghost use Rattle.counted_terms.specs.Rows.{row_names, row_refusals};
ghost use Rattle.counted_terms.specs.Sharing.{Counts, Restored};
ghost use Rattle.hub_threads.specs.Weights.{IsBelow};
ghost use Rattle.hub_threads.specs.Rows.{Decides, updates_in};
ghost use Rattle.hub_threads.specs.Threads.{IsThreads, thread_counts};

use crate::finding::{FoundQueue, find_queue};
use crate::forgetting::forget_all;
use crate::held::{Name, QueueFault, Queues};
use crate::refusing::{no_queue, not_permitted, worn_out};
use crate::taking::are_sound;
use atom_api::fixed;
use atom_table::{Keeper, NamesTable, TableAtoms};
use counted_terms::{CountedTerm, MOST_UPDATES, Row};
use std::alloc::Global;
use term_store::Stored;
use world_api::Reply;

/// message_queue_destroy/1: the queue that the term names, which is no thread's own, is destroyed with its messages.
pub fn destroy_queue<K: NamesTable>(
    alloc: Global,
    queues: &mut Queues<CountedTerm>,
    atoms: &mut TableAtoms<K>,
    keeper: &mut Option<Keeper>,
    generation: u64,
    queue: &Stored,
) -> Row
    requires keeper { KeeperAt K.atoms K.size keeper.old }
    requires counts { Counts (thread_counts queues.old) (keeper_view keeper.old) generation }
    requires queue { All (λ a. IsSome (names (seen atoms.old.seat) a)) (names_of queue.now) }
    ensures keeper { KeeperAt K.atoms K.size keeper.new }
    ensures restored { Restored (thread_counts queues.old) (thread_counts queues.new) (keeper_view keeper.old) (keeper_view keeper.new) generation (generation + updates_in result) }
    ensures below { (count : ℕ) → IsBelow count generation queues.old → IsBelow count (generation + updates_in result) queues.new }
    ensures goals { queues.new.goals ≡ queues.old.goals }
    ensures says { (e count goals : ℕ) (h : History) → length h ≡ generation → IsThreads (keeper_view keeper.old) queues.old count goals h
        → Decides (keeper_view keeper.new) (names (seen atoms.new.seat)) e (requests.destroy_queue (said (names (seen atoms.old.seat)) queue.now)) queues.new count goals h result }
    ensures named { All (λ a. IsSome (names (seen atoms.new.seat) a)) (row_names result) }
    ensures holds { HoldsOn (names (seen atoms.old.seat)) (names (seen atoms.new.seat)) }
    ensures refusals { (seen atoms.new.seat).refusals ≡ (seen atoms.old.seat).refusals ++ row_refusals result }
    ensures asked { asked (seen atoms.new.seat) ≡ asked (seen atoms.old.seat) }
{
    match find_queue(alloc, queues, atoms, queue) {
        FoundQueue::Memory => Row::Memory,
        FoundQueue::Missing => no_queue(alloc, queue),
        FoundQueue::Is(name) => {
            destroy_found(alloc, queues, atoms, keeper, generation, &name, queue)
        }
    }
}

// A queue that is there is destroyed, where it is no thread's own.
fn destroy_found<K: NamesTable>(
    alloc: Global,
    queues: &mut Queues<CountedTerm>,
    atoms: &mut TableAtoms<K>,
    keeper: &mut Option<Keeper>,
    generation: u64,
    name: &Name,
    queue: &Stored,
) -> Row
    requires keeper { KeeperAt K.atoms K.size keeper.old }
    requires counts { Counts (thread_counts queues.old) (keeper_view keeper.old) generation }
    requires queue { All (λ a. IsSome (names (seen atoms.old.seat) a)) (names_of queue.now) }
    requires named { name_of (said (names (seen atoms.old.seat)) queue.now) ≡ Some name.now }
    requires there { IsSome (queue_named queues.old.state name.now) }
    ensures keeper { KeeperAt K.atoms K.size keeper.new }
    ensures restored { Restored (thread_counts queues.old) (thread_counts queues.new) (keeper_view keeper.old) (keeper_view keeper.new) generation (generation + updates_in result) }
    ensures below { (count : ℕ) → IsBelow count generation queues.old → IsBelow count (generation + updates_in result) queues.new }
    ensures goals { queues.new.goals ≡ queues.old.goals }
    ensures says { (e count goals : ℕ) (h : History) → length h ≡ generation → IsThreads (keeper_view keeper.old) queues.old count goals h
        → Decides (keeper_view keeper.new) (names (seen atoms.new.seat)) e (requests.destroy_queue (said (names (seen atoms.old.seat)) queue.now)) queues.new count goals h result }
    ensures named { All (λ a. IsSome (names (seen atoms.new.seat) a)) (row_names result) }
    ensures held { names (seen atoms.new.seat) ≡ names (seen atoms.old.seat) }
    ensures refusals { (seen atoms.new.seat).refusals ≡ (seen atoms.old.seat).refusals ++ row_refusals result }
    ensures asked { asked (seen atoms.new.seat) ≡ asked (seen atoms.old.seat) }
{
    if queues.is_own(name) {
        return not_permitted(alloc, fixed::DESTROY, fixed::MESSAGE_QUEUE, queue);
    }
    if generation >= MOST_UPDATES {
        return worn_out(alloc);
    }
    drop_found(queues, atoms, keeper, generation, name)
}

// The queue of this name, which is no thread's own, is destroyed.
fn drop_found<K: NamesTable>(
    queues: &mut Queues<CountedTerm>,
    atoms: &mut TableAtoms<K>,
    keeper: &mut Option<Keeper>,
    generation: u64,
    name: &Name,
) -> Row
    requires keeper { KeeperAt K.atoms K.size keeper.old }
    requires counts { Counts (thread_counts queues.old) (keeper_view keeper.old) generation }
    requires there { IsSome (queue_named queues.old.state name.now) }
    requires free { IfSome (queue_named queues.old.state name.now) (λ x. x.is_own ≡ false) }
    requires room { generation < 2 ^ 47 }
    ensures keeper { KeeperAt K.atoms K.size keeper.new }
    ensures restored { Restored (thread_counts queues.old) (thread_counts queues.new) (keeper_view keeper.old) (keeper_view keeper.new) generation (generation + updates_in result) }
    ensures below { (count : ℕ) → IsBelow count generation queues.old → IsBelow count (generation + updates_in result) queues.new }
    ensures goals { queues.new.goals ≡ queues.old.goals }
    ensures says { (n : Names) (e count goals : ℕ) (h : History) (x : Tree) → length h ≡ generation → IsThreads (keeper_view keeper.old) queues.old count goals h → name_of x ≡ Some name.now
        → Decides (keeper_view keeper.new) n e (requests.destroy_queue x) queues.new count goals h result }
    ensures named { All (λ a. IsSome (names (seen atoms.new.seat) a)) (row_names result) }
    ensures held { names (seen atoms.new.seat) ≡ names (seen atoms.old.seat) }
    ensures refusals { (seen atoms.new.seat).refusals ≡ (seen atoms.old.seat).refusals ++ row_refusals result }
    ensures asked { asked (seen atoms.new.seat) ≡ asked (seen atoms.old.seat) }
{
    queues.is_sound();
    match queues.drop_queue(name) {
        Err(QueueFault::Memory) => Row::Memory,
        Err(_) => unreachable!(),
        Ok(left) => {
            are_sound(queues);
            forget_all(atoms, keeper, left.as_slice());
            Row::Makes(Reply::Done)
        }
    }
}
