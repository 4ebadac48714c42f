//! Threads and queues as plain lists, changed one after the other as SWI-Prolog's manual says. A message or a goal is a
//! number, an alias is the place of its spelling in a table, and what has a number is below 100.
use hub_threads::QueueFault;
use std::alloc::{AllocError, Global};

const NUMBERS: usize = 100;

const ALIASES: usize = 6;

/// What names a thread or a queue.
#[derive(Debug, Clone, Copy)]
pub enum Called {
    Number(u64),
    Alias(usize),
}

/// What a call answers.
#[derive(Debug, PartialEq, Drop)]
pub enum Answer {
    Done,
    Nothing,
    /// A message with its place.
    Found(u64, i64),
    /// The messages that were left.
    Left(Vec<i64>),
    /// A goal.
    Goal(i64),
    /// How a thread ended.
    Ended(&'static str, i64),
    Refused(QueueFault),
    /// The number or the place that the call was given is not new.
    NotNew,
}

#[derive(Clone, Copy)]
enum Queue {
    No,
    Made,
    /// A thread's own one.
    Own,
}

#[derive(Clone, Copy)]
enum Thread {
    No,
    Runs,
    Ended(&'static str, i64),
    Joined,
}

#[derive(Clone, Copy, Drop)]
struct Sent {
    queue: u64,
    place: u64,
    message: i64,
}

#[derive(Drop)]
pub struct Plain {
    alloc: Global,
    queues: Vec<Queue>,
    threads: Vec<Thread>,
    goals: Vec<Option<i64>>,
    /// The number that has each alias, or 0.
    aliases: Vec<u64>,
    /// All messages, in the order in which they were sent.
    messages: Vec<Sent>,
}

impl Plain {
    /// Engine 1 alone, whose alias has the place 0.
    pub fn new(alloc: Global) -> Result<Plain, AllocError> {
        let mut plain = Plain {
            alloc,
            queues: Vec::from_elem(alloc, Queue::No, NUMBERS)?,
            threads: Vec::from_elem(alloc, Thread::No, NUMBERS)?,
            goals: Vec::from_elem(alloc, None, NUMBERS)?,
            aliases: Vec::from_elem(alloc, 0, ALIASES)?,
            messages: Vec::new(alloc),
        };
        plain.put_queue(1, Queue::Own);
        plain.put_thread(1, Thread::Runs);
        plain.put_alias(0, 1);
        Ok(plain)
    }

    fn queue(&self, n: u64) -> Queue {
        match self.queues.get(n as usize) {
            Some(queue) => *queue,
            None => Queue::No,
        }
    }

    fn put_queue(&mut self, n: u64, queue: Queue) {
        if (n as usize) < self.queues.len() {
            self.queues[n as usize] = queue;
        }
    }

    fn thread(&self, n: u64) -> Thread {
        match self.threads.get(n as usize) {
            Some(thread) => *thread,
            None => Thread::No,
        }
    }

    fn put_thread(&mut self, n: u64, thread: Thread) {
        if (n as usize) < self.threads.len() {
            self.threads[n as usize] = thread;
        }
    }

    fn goal(&self, n: u64) -> Option<i64> {
        match self.goals.get(n as usize) {
            Some(goal) => *goal,
            None => None,
        }
    }

    fn put_goal(&mut self, n: u64, goal: Option<i64>) {
        if (n as usize) < self.goals.len() {
            self.goals[n as usize] = goal;
        }
    }

    /// The number that has the alias, or 0.
    fn alias(&self, a: usize) -> u64 {
        match self.aliases.get(a) {
            Some(n) => *n,
            None => 0,
        }
    }

    fn put_alias(&mut self, a: usize, n: u64) {
        if a < self.aliases.len() {
            self.aliases[a] = n;
        }
    }

    pub fn is_new(&self, n: u64) -> bool {
        matches!(self.queue(n), Queue::No)
            && matches!(self.thread(n), Thread::No | Thread::Joined)
            && self.goal(n).is_none()
            && !self.aliases.contains(&n)
    }

    pub fn is_new_place(&self, place: u64) -> bool {
        for sent in self.messages.as_slice() {
            if sent.place == place {
                return false;
            }
        }
        true
    }

    pub fn make_queue(&mut self, n: u64, alias: Option<usize>) -> Answer {
        if self.is_taken(alias) {
            return Answer::Refused(QueueFault::AliasTaken);
        }
        self.put_queue(n, Queue::Made);
        self.give(n, alias);
        Answer::Done
    }

    pub fn drop_queue(&mut self, name: Called) -> Result<Answer, AllocError> {
        let n = self.number_of(name);
        match self.queue(n) {
            Queue::No => Ok(Answer::Refused(QueueFault::NoQueue)),
            Queue::Own => Ok(Answer::Refused(QueueFault::OwnQueue)),
            Queue::Made => {
                self.put_queue(n, Queue::No);
                self.take_back(n);
                self.left(n)
            }
        }
    }

    pub fn send(&mut self, name: Called, message: i64, place: u64) -> Result<Answer, AllocError> {
        let queue = self.number_of(name);
        if let Queue::No = self.queue(queue) {
            return Ok(Answer::Refused(QueueFault::NoQueue));
        }
        self.messages.push(Sent {
            queue,
            place,
            message,
        })?;
        Ok(Answer::Done)
    }

    /// The first message of the queue that is the pattern, or of any where there is none.
    pub fn peek(&self, name: Called, pattern: Option<i64>) -> Answer {
        let n = self.number_of(name);
        if let Queue::No = self.queue(n) {
            return Answer::Refused(QueueFault::NoQueue);
        }
        match self.messages.get(self.first(n, pattern)) {
            None => Answer::Nothing,
            Some(sent) => Answer::Found(sent.place, sent.message),
        }
    }

    pub fn take(&mut self, name: Called, pattern: Option<i64>) -> Answer {
        let found = self.peek(name, pattern);
        if let Answer::Found(_, _) = found {
            let n = self.number_of(name);
            self.remove(self.first(n, pattern));
        }
        found
    }

    pub fn start(&mut self, n: u64, goal: i64, alias: Option<usize>) -> Answer {
        if self.is_taken(alias) {
            return Answer::Refused(QueueFault::AliasTaken);
        }
        if self.running() >= 64 {
            return Answer::Refused(QueueFault::EnginesFull);
        }
        self.put_queue(n, Queue::Own);
        self.put_thread(n, Thread::Runs);
        self.put_goal(n, Some(goal));
        self.give(n, alias);
        Answer::Done
    }

    pub fn take_goal(&mut self, n: u64) -> Answer {
        match self.goal(n) {
            None => Answer::Nothing,
            Some(goal) => {
                self.put_goal(n, None);
                Answer::Goal(goal)
            }
        }
    }

    pub fn end(&mut self, n: u64, how: &'static str, with: i64) -> Result<Answer, AllocError> {
        match self.thread(n) {
            Thread::Runs => {
                self.put_queue(n, Queue::No);
                self.put_thread(n, Thread::Ended(how, with));
                self.left(n)
            }
            _ => Ok(Answer::Refused(QueueFault::NoThread)),
        }
    }

    pub fn join(&mut self, name: Called) -> Answer {
        let n = self.number_of(name);
        match self.thread(n) {
            Thread::No => Answer::Refused(QueueFault::NoThread),
            Thread::Joined => match name {
                Called::Number(_) => Answer::Refused(QueueFault::Joined),
                Called::Alias(_) => Answer::Refused(QueueFault::NoThread),
            },
            Thread::Runs => Answer::Nothing,
            Thread::Ended(how, with) => {
                self.put_thread(n, Thread::Joined);
                self.take_back(n);
                Answer::Ended(how, with)
            }
        }
    }

    /// The number that is named, or 0, which nothing has.
    fn number_of(&self, name: Called) -> u64 {
        match name {
            Called::Number(n) => n,
            Called::Alias(a) => self.alias(a),
        }
    }

    fn is_taken(&self, alias: Option<usize>) -> bool {
        match alias {
            None => false,
            Some(a) => self.alias(a) != 0,
        }
    }

    /// The number has the alias from now on, where there is one.
    fn give(&mut self, n: u64, alias: Option<usize>) {
        if let Some(a) = alias {
            self.put_alias(a, n);
        }
    }

    /// The number has no alias any more.
    fn take_back(&mut self, n: u64) {
        for a in 0..ALIASES {
            if self.alias(a) == n {
                self.put_alias(a, 0);
            }
        }
    }

    /// How many threads run.
    fn running(&self) -> u32 {
        let mut count: u32 = 0;
        for thread in self.threads.as_slice() {
            if let Thread::Runs = *thread {
                count = count.saturating_add(1);
            }
        }
        count
    }

    /// Where the first message of the queue stands that is the pattern, or how many messages there are.
    fn first(&self, queue: u64, pattern: Option<i64>) -> usize {
        for i in 0..self.messages.len() {
            let sent = self.messages[i];
            let fits = match pattern {
                None => true,
                Some(message) => sent.message == message,
            };
            if sent.queue == queue && fits {
                return i;
            }
        }
        self.messages.len()
    }

    /// The message there is no more, where there was one.
    fn remove(&mut self, i: usize) {
        if i < self.messages.len() {
            self.messages.remove(i);
        }
    }

    /// The messages that the queue had. They are gone.
    fn left(&mut self, queue: u64) -> Result<Answer, AllocError> {
        let mut all = Vec::new(self.alloc);
        for _ in 0..self.messages.len() {
            let i = self.first(queue, None);
            if let Some(sent) = self.messages.get(i) {
                all.push(sent.message)?;
                self.remove(i);
            }
        }
        Ok(Answer::Left(all))
    }
}
