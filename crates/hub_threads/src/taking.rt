//! Messages are taken, or looked at.
ghost use Rattle.std.specs.Prelude.{◌≡◌, ◌≤◌, ◌<◌, ◌+◌, ◌++◌, ◌^◌, ℕ, IsSome, Some, length, option_map};
ghost use Rattle.std.specs.List.{All};
ghost use Rattle.pl_term.specs.Tree.{Tree};
ghost use Rattle.pl_model.specs.History.{History};
ghost use Rattle.pl_model.specs.Requests as requests;
ghost use Rattle.pl_model.specs.Service.{name_of};
ghost use Rattle.pl_model.specs.Threads.{queue_named};
ghost use Rattle.atom_words.specs.Seats.{seen};
ghost use Rattle.atom_table.specs.Naming.{names, requests as asked};
ghost use Rattle.term_store.specs.NumberedNames.{names_of};
ghost use Rattle.hub_threads.specs.Held.{IsSound};
ghost use Rattle.hub_threads.specs.Weights.{IsBelow};
ghost use Rattle.counted_terms.specs.CountedTerms.{said};
ghost use Rattle.counted_terms.specs.Keeping.{HoldsOn, KeeperAt, keeper_view};
ghost use Rattle.counted_terms.specs.Rows.{row_names, row_refusals};
ghost use Rattle.counted_terms.specs.Sharing.{Counts, Restored};
ghost use Rattle.hub_threads.specs.Rows.{Decides, row_of, row_with, updates_in};
ghost use Rattle.hub_threads.specs.Threads.{IsThreads, thread_counts};

use crate::finding::{FoundQueue, find_queue};
use crate::held::{Name, QueueFault, Queues};
use crate::refusing::{no_queue, wait_on_queue, worn_out};
use atom_table::{Keeper, NamesTable, TableAtoms};
use counted_terms::{CountedTerm, MOST_UPDATES, Row, agree, hand_over, lend_to};
use pl_term::Memory;
use std::alloc::Global;
use term_store::Stored;
use world_api::Reply;

/// thread_get_message/2: the first message of the queue that the term names which unifies with the pattern is taken out and
/// handed over; the engine waits where there is none.
pub fn get_message<K: NamesTable>(
    alloc: Global,
    queues: &mut Queues<CountedTerm>,
    atoms: &mut TableAtoms<K>,
    keeper: &mut Option<Keeper>,
    generation: u64,
    queue: &Stored,
    pattern: &CountedTerm,
) -> Row
    requires keeper { KeeperAt K.atoms K.size keeper.old }
    requires counts { Counts (thread_counts queues.old) (keeper_view keeper.old) generation }
    requires queue { All (λ a. IsSome (names (seen atoms.old.seat) a)) (names_of queue.now) }
    requires pattern { All (λ a. IsSome (names (seen atoms.old.seat) a)) (names_of pattern.now) }
    ensures keeper { KeeperAt K.atoms K.size keeper.new }
    ensures restored { Restored (thread_counts queues.old) (thread_counts queues.new) (keeper_view keeper.old) (keeper_view keeper.new) generation (generation + updates_in result) }
    ensures below { (count : ℕ) → IsBelow count generation queues.old → IsBelow count (generation + updates_in result) queues.new }
    ensures goals { queues.new.goals ≡ queues.old.goals }
    ensures says { (e count goals : ℕ) (h : History) → length h ≡ generation → IsThreads (keeper_view keeper.old) queues.old count goals h
        → Decides (keeper_view keeper.new) (names (seen atoms.new.seat)) e (requests.get_message (Some (said (names (seen atoms.old.seat)) queue.now)) (said (names (seen atoms.old.seat)) pattern.now)) queues.new count goals h result }
    ensures named { All (λ a. IsSome (names (seen atoms.new.seat) a)) (row_names result) }
    ensures holds { HoldsOn (names (seen atoms.old.seat)) (names (seen atoms.new.seat)) }
    ensures refusals { (seen atoms.new.seat).refusals ≡ (seen atoms.old.seat).refusals ++ row_refusals result }
    ensures asked { asked (seen atoms.new.seat) ≡ asked (seen atoms.old.seat) }
{
    match find_queue(alloc, queues, atoms, queue) {
        FoundQueue::Memory => Row::Memory,
        FoundQueue::Missing => no_queue(alloc, queue),
        FoundQueue::Is(name) => {
            if generation >= MOST_UPDATES {
                return see_message(alloc, queues, atoms, keeper, &name, queue, pattern);
            }
            take_message(queues, atoms, keeper, generation, &name, queue, pattern)
        }
    }
}

// The first message that unifies is taken out and handed over.
fn take_message<K: NamesTable>(
    queues: &mut Queues<CountedTerm>,
    atoms: &mut TableAtoms<K>,
    keeper: &mut Option<Keeper>,
    generation: u64,
    name: &Name,
    queue: &Stored,
    pattern: &CountedTerm,
) -> Row
    requires keeper { KeeperAt K.atoms K.size keeper.old }
    requires counts { Counts (thread_counts queues.old) (keeper_view keeper.old) generation }
    requires queue { All (λ a. IsSome (names (seen atoms.old.seat) a)) (names_of queue.now) }
    requires pattern { All (λ a. IsSome (names (seen atoms.old.seat) a)) (names_of pattern.now) }
    requires named { name_of (said (names (seen atoms.old.seat)) queue.now) ≡ Some name.now }
    requires there { IsSome (queue_named queues.old.state name.now) }
    requires room { generation < 2 ^ 47 }
    ensures keeper { KeeperAt K.atoms K.size keeper.new }
    ensures restored { Restored (thread_counts queues.old) (thread_counts queues.new) (keeper_view keeper.old) (keeper_view keeper.new) generation (generation + updates_in result) }
    ensures below { (count : ℕ) → IsBelow count generation queues.old → IsBelow count (generation + updates_in result) queues.new }
    ensures goals { queues.new.goals ≡ queues.old.goals }
    ensures says { (e count goals : ℕ) (h : History) → length h ≡ generation → IsThreads (keeper_view keeper.old) queues.old count goals h
        → Decides (keeper_view keeper.new) (names (seen atoms.new.seat)) e (requests.get_message (Some (said (names (seen atoms.old.seat)) queue.now)) (said (names (seen atoms.old.seat)) pattern.now)) queues.new count goals h result }
    ensures named { All (λ a. IsSome (names (seen atoms.new.seat) a)) (row_names result) }
    ensures holds { HoldsOn (names (seen atoms.old.seat)) (names (seen atoms.new.seat)) }
    ensures refusals { (seen atoms.new.seat).refusals ≡ (seen atoms.old.seat).refusals ++ row_refusals result }
    ensures asked { asked (seen atoms.new.seat) ≡ asked (seen atoms.old.seat) }
{
    queues.is_sound();
    agree(atoms, keeper);
    match queues.take(name, pattern) {
        Err(QueueFault::Memory) => Row::Memory,
        Err(_) => unreachable!(),
        Ok(found) => {
            are_sound(queues);
            match found {
                None => wait_on_queue(queue),
                Some(taken) => handed(hand_over(atoms, keeper, taken.1)),
            }
        }
    }
}

// No message is taken any more, whether there is one or not.
fn see_message<K: NamesTable>(
    alloc: Global,
    queues: &Queues<CountedTerm>,
    atoms: &mut TableAtoms<K>,
    keeper: &mut Option<Keeper>,
    name: &Name,
    queue: &Stored,
    pattern: &CountedTerm,
) -> Row
    requires keeper { KeeperAt K.atoms K.size keeper.old }
    requires counts { (n : ℕ) × Counts (thread_counts queues.now) (keeper_view keeper.old) n }
    requires queue { All (λ a. IsSome (names (seen atoms.old.seat) a)) (names_of queue.now) }
    requires pattern { All (λ a. IsSome (names (seen atoms.old.seat) a)) (names_of pattern.now) }
    requires named { name_of (said (names (seen atoms.old.seat)) queue.now) ≡ Some name.now }
    requires there { IsSome (queue_named queues.now.state name.now) }
    ensures keeper { KeeperAt K.atoms K.size keeper.new }
    ensures restored { (n : ℕ) → Restored (thread_counts queues.now) (thread_counts queues.now) (keeper_view keeper.old) (keeper_view keeper.new) n n }
    ensures reads { updates_in result ≡ 0 }
    ensures says { (e count goals : ℕ) (h : History) → 2 ^ 47 ≤ length h → IsThreads (keeper_view keeper.old) queues.now count goals h
        → Decides (keeper_view keeper.new) (names (seen atoms.new.seat)) e (requests.get_message (Some (said (names (seen atoms.old.seat)) queue.now)) (said (names (seen atoms.old.seat)) pattern.now)) queues.now count goals h result }
    ensures named { All (λ a. IsSome (names (seen atoms.new.seat) a)) (row_names result) }
    ensures held { names (seen atoms.new.seat) ≡ names (seen atoms.old.seat) }
    ensures refusals { (seen atoms.new.seat).refusals ≡ (seen atoms.old.seat).refusals ++ row_refusals result }
    ensures asked { asked (seen atoms.new.seat) ≡ asked (seen atoms.old.seat) }
{
    queues.is_sound();
    agree(atoms, keeper);
    match queues.peek(name, pattern) {
        Err(QueueFault::Memory) => Row::Memory,
        Err(_) => unreachable!(),
        Ok(found) => match found {
            None => wait_on_queue(queue),
            Some(_) => worn_out(alloc),
        },
    }
}

/// thread_peek_message/2: the first message of the queue that the term names which unifies with the pattern is lent, and
/// stays in the queue.
pub fn peek_message<K: NamesTable>(
    alloc: Global,
    queues: &Queues<CountedTerm>,
    atoms: &mut TableAtoms<K>,
    keeper: &mut Option<Keeper>,
    queue: &Stored,
    pattern: &CountedTerm,
) -> Row
    requires keeper { KeeperAt K.atoms K.size keeper.old }
    requires counts { (n : ℕ) × Counts (thread_counts queues.now) (keeper_view keeper.old) n }
    requires queue { All (λ a. IsSome (names (seen atoms.old.seat) a)) (names_of queue.now) }
    requires pattern { All (λ a. IsSome (names (seen atoms.old.seat) a)) (names_of pattern.now) }
    ensures keeper { KeeperAt K.atoms K.size keeper.new }
    ensures restored { (n : ℕ) → Restored (thread_counts queues.now) (thread_counts queues.now) (keeper_view keeper.old) (keeper_view keeper.new) n n }
    ensures reads { updates_in result ≡ 0 }
    ensures says { (e count goals : ℕ) (h : History) → IsThreads (keeper_view keeper.old) queues.now count goals h
        → Decides (keeper_view keeper.new) (names (seen atoms.new.seat)) e (requests.peek_message (Some (said (names (seen atoms.old.seat)) queue.now)) (said (names (seen atoms.old.seat)) pattern.now)) queues.now count goals h result }
    ensures named { All (λ a. IsSome (names (seen atoms.new.seat) a)) (row_names result) }
    ensures holds { HoldsOn (names (seen atoms.old.seat)) (names (seen atoms.new.seat)) }
    ensures refusals { (seen atoms.new.seat).refusals ≡ (seen atoms.old.seat).refusals ++ row_refusals result }
    ensures asked { asked (seen atoms.new.seat) ≡ asked (seen atoms.old.seat) }
{
    match find_queue(alloc, queues, atoms, queue) {
        FoundQueue::Memory => Row::Memory,
        FoundQueue::Missing => no_queue(alloc, queue),
        FoundQueue::Is(name) => lend_message(queues, atoms, keeper, &name, queue, pattern),
    }
}

// The first message that unifies is lent.
fn lend_message<K: NamesTable>(
    queues: &Queues<CountedTerm>,
    atoms: &mut TableAtoms<K>,
    keeper: &mut Option<Keeper>,
    name: &Name,
    queue: &Stored,
    pattern: &CountedTerm,
) -> Row
    requires keeper { KeeperAt K.atoms K.size keeper.old }
    requires counts { (n : ℕ) × Counts (thread_counts queues.now) (keeper_view keeper.old) n }
    requires pattern { All (λ a. IsSome (names (seen atoms.old.seat) a)) (names_of pattern.now) }
    requires named { name_of (said (names (seen atoms.old.seat)) queue.now) ≡ Some name.now }
    requires there { IsSome (queue_named queues.now.state name.now) }
    ensures keeper { KeeperAt K.atoms K.size keeper.new }
    ensures restored { (n : ℕ) → Restored (thread_counts queues.now) (thread_counts queues.now) (keeper_view keeper.old) (keeper_view keeper.new) n n }
    ensures reads { updates_in result ≡ 0 }
    ensures says { (e count goals : ℕ) (h : History) → IsThreads (keeper_view keeper.old) queues.now count goals h
        → Decides (keeper_view keeper.new) (names (seen atoms.new.seat)) e (requests.peek_message (Some (said (names (seen atoms.old.seat)) queue.now)) (said (names (seen atoms.old.seat)) pattern.now)) queues.now count goals h result }
    ensures named { All (λ a. IsSome (names (seen atoms.new.seat) a)) (row_names result) }
    ensures holds { HoldsOn (names (seen atoms.old.seat)) (names (seen atoms.new.seat)) }
    ensures refusals { (seen atoms.new.seat).refusals ≡ (seen atoms.old.seat).refusals ++ row_refusals result }
    ensures asked { asked (seen atoms.new.seat) ≡ asked (seen atoms.old.seat) }
{
    queues.is_sound();
    let _named = queue;
    agree(atoms, keeper);
    match queues.peek(name, pattern) {
        Err(QueueFault::Memory) => Row::Memory,
        Err(_) => unreachable!(),
        Ok(found) => match found {
            None => Row::Reads(Reply::NoMessage),
            Some(stays) => lent(lend_to(atoms, keeper, stays.1)),
        },
    }
}

/// What always holds of the queues. It does nothing.
pub fn are_sound(queues: &Queues<CountedTerm>)
    ensures { IsSound queues.now }
{
    queues.is_sound();
}

// A message was handed over.
fn handed(message: Stored) -> Row
    ensures { result ≡ row_with message }
{
    Row::Makes(Reply::Message(message))
}

// A message was lent, or could not be.
fn lent(message: Result<Stored, Memory>) -> Row
    ensures { result ≡ row_of message }
{
    match message {
        Ok(message) => Row::Reads(Reply::Message(message)),
        Err(Memory) => Row::Memory,
    }
}
