//! The threads and queues.
ghost use Rattle.std.specs.Prelude.{◌≡◌, ◌⊎◌, ◌↔◌, IsTrue, ℕ, false, true, ◌≤◌, ◌+◌, Ok, Err, Some, None, IfOk, IfSome, IfNone, OnErr, OnOk, find, vec_len, vec_capacity};
ghost use Rattle.std.specs.Result.{MatchResult};
ghost use Rattle.std.specs.Option.{is_some, option_map};
ghost use Rattle.pl_term.specs.Variables.{is_in};
ghost use Rattle.pl_model.specs.Threads.{alias_of, is_alias, is_queue, number_of, queue_named, thread_named, first_message, has_engine, queue_made, queue_dropped, message_sent, thread_ended, is_joined};
ghost use Rattle.hub_threads.specs.declared.held.fault.QueueFault.TheVariants.{NoQueue, Memory as NoMemory};
ghost use Rattle.hub_threads.specs.Distinct.{has_number};
ghost use Rattle.hub_threads.specs.Goals.{first_begun};
ghost use Rattle.hub_threads.specs.Held.{opening_held, Removes, IsNew, IsNewPlace, IsSound, contents, named_message, goal_numbers, goal_of, without_goal, Takes, left_by_join, own_contents, started, thread_numbers};
ghost use Rattle.hub_threads.specs.Located.{Locates};
ghost use Rattle.hub_threads.specs.Refusals.{is_taken, make_refusal, start_refusal, drop_refusal, end_refusal, join_refusal, join_fault};

use crate::held::aliases::{put_alias, take_alias};
use crate::held::fault::QueueFault;
use crate::held::queue::Queue;
use crate::held::searches::{
    alias_at, first_number, goal_at, has, has_place, named_at, number_within, queue_at, running,
    thread_at, thread_within,
};
use pl_model::kept::Kept;
use pl_model::threads::{Message, Name, Status, Thread};
use pl_term::{Memory, Text};
use std::alloc::{AllocError, Global};
use std::marker::Model;

/// At most so many engines have not ended.
const MOST_ENGINES: usize = 64;

/// All threads that have not been joined and all message queues, with messages and goals of type `M`.
#[derive(Drop)]
pub struct Queues<M> {
    alloc: Global,
    aliases: Vec<(Text, u64)>,
    queues: Vec<Queue<M>>,
    threads: Vec<Thread<M>>,
    joined: Vec<u64>,
    goals: Vec<(u64, M)>,
}

impl<M> Model for Queues<M> {
    ghost use Rattle.hub_threads.specs.Held.{Held, IsSound, held};

    ghost Value = { Held M };

    ghost view = { λ s. held s.aliases.items s.queues.items s.threads.items s.joined.items s.goals.items };

    ghost invariant = { λ s. IsSound (held s.aliases.items s.queues.items s.threads.items s.joined.items s.goals.items) };
}

impl<M: Drop> Queues<M> {
    /// Engine 1 alone, named `main`, with its queue. The only error is out of memory.
    pub fn new(alloc: Global) -> Result<Queues<M>, Memory>
        ensures { IfOk result (λ s. s ≡ opening_held) }
    {
        let main = Text::from_str(alloc, "main")?;
        let mut aliases = Vec::new(alloc);
        aliases.push((main, 1))?;
        let mut queues = Vec::new(alloc);
        queues.push(Queue::new(alloc, 1, true))?;
        let mut threads = Vec::new(alloc);
        threads.push(Thread {
            number: 1,
            status: None,
        })?;
        Ok(Queues {
            alloc,
            aliases,
            queues,
            threads,
            joined: Vec::new(alloc),
            goals: Vec::new(alloc),
        })
    }

    /// Whether nothing that is held has the number: then `make_queue` and `start` can be given it.
    pub fn is_new(&self, n: u64) -> bool
        ensures { IsTrue result ↔ IsNew n self.now }
    {
        if queue_at(self.queues.as_slice(), n).is_some() {
            return false;
        }
        if thread_at(self.threads.as_slice(), n).is_some() {
            return false;
        }
        if named_at(self.aliases.as_slice(), n).is_some() {
            return false;
        }
        goal_at(self.goals.as_slice(), n).is_none()
    }

    /// Whether no message that is held was sent at the place: then `send` can be given it.
    pub fn is_new_place(&self, place: u64) -> bool
        ensures { IsTrue result ↔ IsNewPlace place self.now }
    {
        !has_place(self.queues.as_slice(), place)
    }

    /// The number of the thread or queue that is named so, where the name is an alias; a number is its own.
    pub fn number_of(&self, name: &Name) -> Option<u64>
        ensures { result ≡ number_of self.now.state name.now }
    {
        match name {
            Name::Number(n) => Some(*n),
            Name::Alias(alias) => match alias_at(self.aliases.as_slice(), alias) {
                None => None,
                Some(i) => Some(self.aliases[i].1),
            },
        }
    }

    /// Whether the alias names a thread or a queue.
    pub fn is_alias(&self, name: &Text) -> bool
        ensures { result ≡ is_alias self.now.state name.now }
    {
        match alias_at(self.aliases.as_slice(), name) {
            None => false,
            Some(_) => true,
        }
    }

    /// The alias of the thread or queue with the number, where it has one.
    pub fn alias_of(&self, n: u64) -> Option<&Text>
        ensures { option_map (λ a. a.now) result ≡ alias_of self.now.state n }
    {
        match named_at(self.aliases.as_slice(), n) {
            None => None,
            Some(i) => Some(&self.aliases[i].0),
        }
    }

    /// Whether a queue is named so.
    pub fn has_queue(&self, q: &Name) -> bool
        ensures { result ≡ is_some (queue_named self.now.state q.now) }
    {
        self.queue_of(q).is_some()
    }

    /// Whether the queue that is named so is a thread's own.
    pub fn is_own(&self, q: &Name) -> bool
        ensures { IfSome (queue_named self.now.state q.now) (λ x. result ≡ x.is_own) }
    {
        match self.queue_of(q) {
            None => false,
            Some(i) => self.queues[i].is_own(),
        }
    }

    /// How the thread that is named so ended, where it has.
    pub fn status_of(&self, t: &Name) -> Option<&Status<M>>
        ensures { IfSome (thread_named self.now.state t.now) (λ h. option_map (λ s. s.now) result ≡ h.status) }
    {
        match self.thread_of(t) {
            None => None,
            Some(i) => self.threads[i].status.as_ref(),
        }
    }

    /// The number of the thread that is named so, and whether it has ended.
    pub fn find_thread(&self, t: &Name) -> Option<(u64, bool)>
        ensures { result ≡ option_map (λ h. (h.number, is_some h.status)) (thread_named self.now.state t.now) }
    {
        match self.thread_of(t) {
            None => None,
            Some(i) => {
                let thread = &self.threads[i];
                Some((thread.number, thread.status.is_some()))
            }
        }
    }

    /// Whether a thread with the number was joined.
    pub fn was_joined(&self, n: u64) -> bool
        ensures { result ≡ is_in n self.now.state.joined }
    {
        has(self.joined.as_slice(), n)
    }

    /// Whether a thread has or, before it was joined, had a number from the first one to the last one.
    pub fn has_within(&self, first: u64, last: u64) -> bool
        ensures begun { result ≡ false → (m : ℕ) → first ≤ m → m ≤ last → has_number m (thread_numbers self.now.state.threads) ≡ false }
        ensures joined { result ≡ false → (m : ℕ) → first ≤ m → m ≤ last → is_in m self.now.state.joined ≡ false }
        ensures had { result ≡ true → (m : ℕ) × (first ≤ m) × (m ≤ last)
            × ((has_number m (thread_numbers self.now.state.threads) ≡ true) ⊎ (is_in m self.now.state.joined ≡ true)) }
    {
        if thread_within(self.threads.as_slice(), first, last) {
            return true;
        }
        number_within(self.joined.as_slice(), first, last)
    }

    /// A number is one queue's, one thread's, one alias's and one goal's, and a place is one message's. It does nothing.
    pub fn is_sound(&self)
        ensures { IsSound self.now }
    {
        let _count = self.queues.len();
    }

    /// Makes a queue with the number, which no thread and no queue has, and with an alias where one is given
    /// (message_queue_create/1). The errors are `AliasTaken` and `Memory`; after an error nothing has changed.
    pub fn make_queue(&mut self, n: u64, alias: Option<Text>) -> Result<(), QueueFault>
        requires { IsNew n self.old }
        ensures refused { IfSome (make_refusal self.old.state alias) (λ f. result ≡ Err f) }
        ensures made { IfNone (make_refusal self.old.state alias)
            (MatchResult result (λ _. self.new ≡ record self.old { state = queue_made n alias self.old.state }) (λ f. f ≡ NoMemory)) }
        ensures unchanged { OnErr result (self.new ≡ self.old) }
    {
        if self.is_taken(&alias) {
            return Err(QueueFault::AliasTaken);
        }
        self.aliases.reserve(1)?;
        self.queues.reserve(1)?;
        put_alias(&mut self.aliases, n, alias);
        self.queues.push_reserved(Queue::new(self.alloc, n, false));
        Ok(())
    }

    /// Destroys a queue that is no thread's own (message_queue_destroy/1). Its alias is free again, and the messages that
    /// were left in it are handed out. The errors are `NoQueue`, `OwnQueue` and `Memory`; after an error nothing has
    /// changed.
    pub fn drop_queue(&mut self, q: &Name) -> Result<Vec<M>, QueueFault>
        ensures refused { IfSome (drop_refusal self.old.state q.now) (λ f. result ≡ Err f) }
        ensures dropped { IfNone (drop_refusal self.old.state q.now) (IfSome (queue_named self.old.state q.now)
            (λ x. MatchResult result
            (λ left. (left.items ≡ contents x.messages) × (self.new ≡ record self.old { state = queue_dropped x.number self.old.state }))
            (λ f. f ≡ NoMemory))) }
        ensures unchanged { OnErr result (self.new ≡ self.old) }
    {
        match self.queue_of(q) {
            None => Err(QueueFault::NoQueue),
            Some(i) => {
                if self.queues[i].is_own() {
                    return Err(QueueFault::OwnQueue);
                }
                let room = Vec::with_capacity(self.alloc, self.queues[i].messages().len())?;
                let queue = self.queues.remove(i);
                take_alias(&mut self.aliases, queue.number());
                Ok(queue.into_contents(room))
            }
        }
    }

    /// Puts a message that is sent at the place after the others of a queue (thread_send_message/2). No message that is
    /// held was sent at the place. The errors are `NoQueue` and `Memory`; after an error nothing has changed, and the
    /// message is handed back.
    pub fn send(&mut self, q: &Name, m: M, place: u64) -> Result<(), (M, QueueFault)>
        requires { IsNewPlace place self.old }
        ensures refused { IfNone (queue_named self.old.state q.now) (result ≡ Err (m, NoQueue)) }
        ensures sent { IfSome (queue_named self.old.state q.now)
            (λ x. MatchResult result (λ _. self.new ≡ record self.old { state = message_sent x.number place m self.old.state }) (λ e. e ≡ (m, NoMemory))) }
        ensures unchanged { OnErr result (self.new ≡ self.old) }
    {
        match self.queue_of(q) {
            None => Err((m, QueueFault::NoQueue)),
            Some(i) => refused(self.queues[i].push(place, m)),
        }
    }

    /// Begins a thread with the number, which no thread and no queue has, a goal, which is kept until it is handed out,
    /// and an alias where one is given (thread_create/3); the thread has a queue of its own. The errors are
    /// `AliasTaken`, `EnginesFull` and `Memory`; after an error nothing has changed, and the goal is handed back.
    pub fn start(&mut self, n: u64, goal: M, alias: Option<Text>) -> Result<(), (M, QueueFault)>
        requires { IsNew n self.old }
        ensures refused { IfSome (start_refusal self.old.state alias) (λ f. result ≡ Err (goal, f)) }
        ensures started { IfNone (start_refusal self.old.state alias)
            (MatchResult result (λ _. self.new ≡ started n goal alias self.old) (λ e. e ≡ (goal, NoMemory))) }
        ensures unchanged { OnErr result (self.new ≡ self.old) }
    {
        if self.is_taken(&alias) {
            return Err((goal, QueueFault::AliasTaken));
        }
        if !self.has_engine() {
            return Err((goal, QueueFault::EnginesFull));
        }
        match make_room(
            &mut self.aliases,
            &mut self.queues,
            &mut self.threads,
            &mut self.goals,
        ) {
            Err(_) => Err((goal, QueueFault::Memory)),
            Ok(()) => {
                put_alias(&mut self.aliases, n, alias);
                self.queues.push_reserved(Queue::new(self.alloc, n, true));
                self.threads.push_reserved(Thread {
                    number: n,
                    status: None,
                });
                self.goals.push_reserved((n, goal));
                Ok(())
            }
        }
    }

    /// The number of the thread that began first of those whose goals are kept.
    pub fn first_goal(&self) -> Option<u64>
        ensures { result ≡ first_begun (goal_numbers self.now.goals) }
    {
        first_number(self.goals.as_slice())
    }

    /// Hands out the goal of the thread with the number, once. It takes no memory.
    pub fn take_goal(&mut self, n: u64) -> Option<M>
        ensures goal { result ≡ goal_of n self.old }
        ensures rest { self.new ≡ without_goal n self.old }
    {
        match goal_at(self.goals.as_slice(), n) {
            None => None,
            Some(i) => Some(self.goals.remove(i).1),
        }
    }

    /// Ends the thread with the number so. The messages that were left in its queue are handed out. The errors are
    /// `NoThread`, where no such thread runs, and `Memory`; after an error nothing has changed.
    pub fn end(&mut self, n: u64, how: Status<M>) -> Result<Vec<M>, (Status<M>, QueueFault)>
        ensures refused { IfSome (end_refusal self.old.state n) (λ f. result ≡ Err (how, f)) }
        ensures ended { IfNone (end_refusal self.old.state n) (MatchResult result
            (λ left. (left.items ≡ own_contents n self.old.state) × (self.new ≡ record self.old { state = thread_ended n how self.old.state }))
            (λ e. e ≡ (how, NoMemory))) }
        ensures unchanged { OnErr result (self.new ≡ self.old) }
    {
        match thread_at(self.threads.as_slice(), n) {
            None => Err((how, QueueFault::NoThread)),
            Some(i) => {
                if self.threads[i].status.is_some() {
                    return Err((how, QueueFault::NoThread));
                }
                match remove_queue(self.alloc, &mut self.queues, n) {
                    Ok(left) => {
                        self.threads[i].status = Some(how);
                        Ok(left)
                    }
                    Err(_) => Err((how, QueueFault::Memory)),
                }
            }
        }
    }

    /// Joins a thread that has ended: how it did; `None` where it has not (thread_join/2). Its alias is free again. The
    /// errors are `NoThread`, `Joined` and `Memory`; after an error nothing has changed.
    pub fn join(&mut self, t: &Name) -> Result<Option<Status<M>>, QueueFault>
        ensures refused { IfSome (join_refusal self.old.state t.now) (λ f. result ≡ Err f) }
        ensures joined { IfSome (thread_named self.old.state t.now)
            (λ h. MatchResult result (λ r. (r ≡ h.status) × (self.new ≡ left_by_join h.number h.status self.old)) (λ f. f ≡ NoMemory)) }
        ensures unchanged { OnErr result (self.new ≡ self.old) }
    {
        match self.thread_of(t) {
            None => Err(self.join_fault(t)),
            Some(i) => {
                if self.threads[i].status.is_none() {
                    return Ok(None);
                }
                self.joined.reserve(1)?;
                let thread = self.threads.remove(i);
                take_alias(&mut self.aliases, thread.number);
                self.joined.push_reserved(thread.number);
                Ok(thread.status)
            }
        }
    }

    /// Where the queue stands that is named so.
    fn queue_of(&self, name: &Name) -> Option<usize>
        ensures { Locates (queue_named self.now.state name.now) self.now.state.queues result }
    {
        match self.number_of(name) {
            None => None,
            Some(n) => queue_at(self.queues.as_slice(), n),
        }
    }

    /// Where the thread stands that is named so.
    fn thread_of(&self, name: &Name) -> Option<usize>
        ensures { Locates (thread_named self.now.state name.now) self.now.state.threads result }
    {
        match self.number_of(name) {
            None => None,
            Some(n) => thread_at(self.threads.as_slice(), n),
        }
    }

    /// Why a thread that is not there cannot be joined.
    fn join_fault(&self, name: &Name) -> QueueFault
        ensures { result ≡ join_fault self.now.state name.now }
    {
        match name {
            Name::Number(n) => {
                if has(self.joined.as_slice(), *n) {
                    QueueFault::Joined
                } else {
                    QueueFault::NoThread
                }
            }
            Name::Alias(_) => QueueFault::NoThread,
        }
    }

    /// Whether there is an alias, and it names a thread or a queue.
    fn is_taken(&self, alias: &Option<Text>) -> bool
        ensures { result ≡ is_taken self.now.state alias.now }
    {
        match alias {
            None => false,
            Some(name) => self.is_alias(name),
        }
    }

    /// Whether one engine more can run.
    pub fn has_engine(&self) -> bool
        ensures { result ≡ has_engine self.now.state }
    {
        running(self.threads.as_slice()) < MOST_ENGINES
    }
}

impl<M: Kept> Queues<M> {
    /// Takes out the first message of a queue that unifies with the pattern, with its place (thread_get_message/2); `None`
    /// where there is none. The errors are `NoQueue` and `Memory`; after an error nothing has changed.
    pub fn take(&mut self, q: &Name, pattern: &M) -> Result<Option<(u64, M)>, QueueFault>
        ensures refused { IfNone (queue_named self.old.state q.now) (result ≡ Err NoQueue) }
        ensures taken { IfSome (queue_named self.old.state q.now)
            (λ x. MatchResult result (λ r. Takes (first_message (M.unified pattern.now) x) r self.old self.new) (λ f. f ≡ NoMemory)) }
        ensures unchanged { OnErr result (self.new ≡ self.old) }
    {
        match self.queue_of(q) {
            None => Err(QueueFault::NoQueue),
            Some(i) => taken(self.queues[i].take_first(self.alloc, pattern)),
        }
    }

    /// The first message of a queue that unifies with the pattern, with its place (thread_peek_message/2); `None` where
    /// there is none. The errors are `NoQueue` and `Memory`.
    pub fn peek(&self, q: &Name, pattern: &M) -> Result<Option<(u64, &M)>, QueueFault>
        ensures refused { IfNone (queue_named self.now.state q.now) (result ≡ Err NoQueue) }
        ensures found { IfSome (queue_named self.now.state q.now)
            (λ x. MatchResult result
            (λ r. option_map (λ p. (p.0, p.1.now)) r ≡ option_map named_message (first_message (M.unified pattern.now) x))
            (λ f. f ≡ NoMemory)) }
    {
        match self.queue_of(q) {
            None => Err(QueueFault::NoQueue),
            Some(i) => match self.queues[i].peek_first(self.alloc, pattern) {
                Ok(found) => Ok(found),
                Err(_) => Err(QueueFault::Memory),
            },
        }
    }
}

/// Makes room for one more in each of these. After an error they are as they were.
fn make_room<M: Drop>(
    aliases: &mut Vec<(Text, u64)>,
    queues: &mut Vec<Queue<M>>,
    threads: &mut Vec<Thread<M>>,
    goals: &mut Vec<(u64, M)>,
) -> Result<(), AllocError>
    ensures aliases { (aliases.new.items ≡ aliases.old.items) × OnOk result (vec_len aliases.new + 1 ≤ vec_capacity aliases.new) }
    ensures queues { (queues.new.items ≡ queues.old.items) × OnOk result (vec_len queues.new + 1 ≤ vec_capacity queues.new) }
    ensures threads { (threads.new.items ≡ threads.old.items) × OnOk result (vec_len threads.new + 1 ≤ vec_capacity threads.new) }
    ensures goals { (goals.new.items ≡ goals.old.items) × OnOk result (vec_len goals.new + 1 ≤ vec_capacity goals.new) }
{
    aliases.reserve(1)?;
    queues.reserve(1)?;
    threads.reserve(1)?;
    goals.reserve(1)?;
    Ok(())
}

/// The answer of a call whose message was refused because memory ran out, or not.
fn refused<M: Drop>(pushed: Result<(), M>) -> Result<(), (M, QueueFault)>
    ensures { MatchResult pushed (λ u. result ≡ Ok u) (λ m. result ≡ Err (m, NoMemory)) }
{
    match pushed {
        Ok(()) => Ok(()),
        Err(m) => Err((m, QueueFault::Memory)),
    }
}

/// Takes the queue with the number out, if there is one, and hands out its messages. After an error nothing has changed.
fn remove_queue<M: Drop>(
    alloc: Global,
    queues: &mut Vec<Queue<M>>,
    n: u64,
) -> Result<Vec<M>, AllocError>
    ensures removed { IfOk result (λ left. Removes (find (is_queue n) queues.old.items) left.items queues.old.items queues.new.items) }
    ensures unchanged { OnErr result (queues.new.items ≡ queues.old.items) }
{
    match queue_at(queues.as_slice(), n) {
        None => Ok(Vec::new(alloc)),
        Some(i) => {
            let room = Vec::with_capacity(alloc, queues[i].messages().len())?;
            let queue = queues.remove(i);
            Ok(queue.into_contents(room))
        }
    }
}

/// The answer of a call that took a message, or had no memory to look for it.
fn taken<M: Drop>(found: Result<Option<Message<M>>, Memory>) -> Result<Option<(u64, M)>, QueueFault>
    ensures { MatchResult found (λ o. result ≡ Ok (option_map named_message o)) (λ _. result ≡ Err NoMemory) }
{
    match found {
        Ok(None) => Ok(None),
        Ok(Some(message)) => Ok(Some((message.place, message.content))),
        Err(_) => Err(QueueFault::Memory),
    }
}
