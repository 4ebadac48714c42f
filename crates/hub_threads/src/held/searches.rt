//! Where a number or a name stands, and how many threads run.
ghost use Rattle.std.specs.Prelude.{◌≡◌, ◌≤◌, ℕ, bytes_eq, false, true, filter, find, length};
ghost use Rattle.pl_term.specs.Variables.{is_in};
ghost use Rattle.pl_model.specs.Threads.{is_queue, is_thread, is_running};
ghost use Rattle.hub_threads.specs.Distinct.{has_number};
ghost use Rattle.hub_threads.specs.Goals.{first_begun, is_within};
ghost use Rattle.hub_threads.specs.Held.{goal_numbers, is_goal_of, is_named, is_sent_at, is_spelled, places, thread_numbers};
ghost use Rattle.hub_threads.specs.Located.{Locates};

use crate::held::queue::Queue;
use pl_model::threads::{Message, Thread};
use pl_term::Text;

/// Where the queue with the number stands.
pub fn queue_at<M: Drop>(queues: &[Queue<M>], n: u64) -> Option<usize>
    ensures { Locates (find (is_queue n) queues.now) queues.now result }
{
    for i in 0..queues.len() {
        if queues[i].number() == n {
            return Some(i);
        }
    }
    None
}

/// Where the thread with the number stands.
pub fn thread_at<M: Drop>(threads: &[Thread<M>], n: u64) -> Option<usize>
    ensures { Locates (find (is_thread n) threads.now) threads.now result }
{
    for i in 0..threads.len() {
        if threads[i].number == n {
            return Some(i);
        }
    }
    None
}

/// Where the goal of the thread with the number stands.
pub fn goal_at<M: Drop>(goals: &[(u64, M)], n: u64) -> Option<usize>
    ensures { Locates (find (is_goal_of n) goals.now) goals.now result }
{
    for i in 0..goals.len() {
        if goals[i].0 == n {
            return Some(i);
        }
    }
    None
}

/// The number of the thread whose goal stands first.
pub fn first_number<M: Drop>(goals: &[(u64, M)]) -> Option<u64>
    ensures { result ≡ first_begun (goal_numbers goals.now) }
{
    if goals.is_empty() {
        return None;
    }
    Some(goals[0].0)
}

/// Whether the alias is the name.
fn spells(alias: &Text, name: &Text) -> bool
    ensures { result ≡ bytes_eq alias.now name.now }
{
    alias.same(name)
}

/// Where the alias stands.
pub fn alias_at(aliases: &[(Text, u64)], name: &Text) -> Option<usize>
    ensures { Locates (find (is_spelled name.now) aliases.now) aliases.now result }
{
    for i in 0..aliases.len() {
        if spells(&aliases[i].0, name) {
            return Some(i);
        }
    }
    None
}

/// Where the alias of the number stands.
pub fn named_at(aliases: &[(Text, u64)], n: u64) -> Option<usize>
    ensures { Locates (find (is_named n) aliases.now) aliases.now result }
{
    for i in 0..aliases.len() {
        if aliases[i].1 == n {
            return Some(i);
        }
    }
    None
}

/// Whether the number is among these.
pub fn has(numbers: &[u64], n: u64) -> bool
    ensures { result ≡ is_in n numbers.now }
{
    numbers.contains(&n)
}

/// Whether the number lies from the first one to the last one.
fn lies_within(n: u64, first: u64, last: u64) -> bool
    ensures { result ≡ is_within first last n }
{
    first <= n && n <= last
}

/// Whether one of the threads has a number from the first one to the last one.
pub fn thread_within<M: Drop>(threads: &[Thread<M>], first: u64, last: u64) -> bool
    ensures none { result ≡ false → (m : ℕ) → first ≤ m → m ≤ last → has_number m (thread_numbers threads.now) ≡ false }
    ensures one { result ≡ true → (m : ℕ) × (first ≤ m) × (m ≤ last) × (has_number m (thread_numbers threads.now) ≡ true) }
{
    for i in 0..threads.len() {
        if lies_within(threads[i].number, first, last) {
            return true;
        }
    }
    false
}

/// Whether one of the numbers lies from the first one to the last one.
pub fn number_within(numbers: &[u64], first: u64, last: u64) -> bool
    ensures none { result ≡ false → (m : ℕ) → first ≤ m → m ≤ last → is_in m numbers.now ≡ false }
    ensures one { result ≡ true → (m : ℕ) × (first ≤ m) × (m ≤ last) × (is_in m numbers.now ≡ true) }
{
    for i in 0..numbers.len() {
        if lies_within(numbers[i], first, last) {
            return true;
        }
    }
    false
}

/// Where the message stands that was sent at the place.
pub fn message_at<M: Drop>(messages: &[Message<M>], place: u64) -> Option<usize>
    ensures { Locates (find (is_sent_at place) messages.now) messages.now result }
{
    for i in 0..messages.len() {
        if messages[i].place == place {
            return Some(i);
        }
    }
    None
}

/// Whether a message in these queues was sent at the place.
pub fn has_place<M: Drop>(queues: &[Queue<M>], place: u64) -> bool
    ensures { result ≡ has_number place (places queues.now) }
{
    for i in 0..queues.len() {
        if queues[i].has_place(place) {
            return true;
        }
    }
    false
}

/// How many of the threads have not ended.
pub fn running<M: Drop>(threads: &[Thread<M>]) -> usize
    ensures { result ≡ length (filter is_running threads.now) }
{
    let mut count = 0;
    for thread in threads {
        if thread.status.is_none() {
            count += 1;
        }
    }
    count
}
