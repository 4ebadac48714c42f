//! A database of one procedure, and one queue, as plain lists, with how many updates there were.
use crate::players::Clause;
use std::alloc::{AllocError, Global};

/// A clause, with the places of the updates that added and erased it.
#[derive(Drop)]
struct Dated {
    number: i64,
    place: u64,
    erased: Option<u64>,
}

/// The list of clauses that an engine goes through.
#[derive(Clone, Copy, Drop)]
pub struct List {
    key: Option<i64>,
    generation: u64,
    place: Option<u64>,
}

impl List {
    pub fn new() -> List {
        List {
            key: None,
            generation: 0,
            place: None,
        }
    }

    /// The place of the clause that was found last, where the list is open.
    pub fn place(&self) -> Option<u64> {
        self.place
    }

    /// How many updates there were when it was opened.
    pub fn generation(&self) -> u64 {
        self.generation
    }
}

#[derive(Drop)]
pub struct PlainState {
    clauses: Vec<Dated>,
    messages: Vec<u64>,
    length: u64,
}

impl PlainState {
    pub fn new(alloc: Global) -> PlainState {
        PlainState {
            clauses: Vec::new(alloc),
            messages: Vec::new(alloc),
            length: 0,
        }
    }

    /// How many updates there were.
    pub fn length(&self) -> u64 {
        self.length
    }

    /// An update that concerns neither clauses nor messages.
    pub fn update(&mut self) {
        self.length = self.length.saturating_add(1);
    }

    /// A clause is added as the first or the last.
    pub fn add(&mut self, number: i64, is_first: bool) -> Result<(), AllocError> {
        let clause = Dated {
            number,
            place: self.length(),
            erased: None,
        };
        if is_first {
            self.clauses.insert(0, clause)?;
        } else {
            self.clauses.push(clause)?;
        }
        self.update();
        Ok(())
    }

    /// Whether the clause that was added at the place is there.
    pub fn has(&self, place: u64) -> bool {
        match self.clauses.get(self.index_of(place)) {
            None => false,
            Some(c) => c.erased.is_none(),
        }
    }

    /// Where the clause stands that was added at the place, or how many clauses there are.
    fn index_of(&self, place: u64) -> usize {
        for i in 0..self.clauses.len() {
            if self.clauses[i].place == place {
                return i;
            }
        }
        self.clauses.len()
    }

    /// Erases the clause that was added at the place, where it is there.
    pub fn erase(&mut self, place: u64) {
        if !self.has(place) {
            return;
        }
        let i = self.index_of(place);
        if i < self.clauses.len() {
            self.clauses[i].erased = Some(self.length);
            self.update();
        }
    }

    /// The first clause for a goal with the key, of which the list is opened.
    pub fn call(&self, list: &mut List, key: Option<i64>) -> Option<Clause> {
        list.key = key;
        list.generation = self.length();
        let from = 0;
        self.found(list, from)
    }

    /// The next clause of the list, where it is open.
    pub fn retry(&self, list: &mut List) -> Option<Clause> {
        let place = list.place?;
        self.found(list, self.index_of(place).saturating_add(1))
    }

    /// The first clause of the list from an index on.
    fn found(&self, list: &mut List, from: usize) -> Option<Clause> {
        let Some(i) = self.index(list, from) else {
            list.place = None;
            return None;
        };
        let Some(clause) = self.clauses.get(i) else {
            return None;
        };
        list.place = Some(clause.place);
        Some(Clause {
            number: clause.number,
            place: clause.place,
            more: self.index(list, i.saturating_add(1)).is_some(),
        })
    }

    /// Where the first clause stands that the list has, from an index on.
    fn index(&self, list: &List, from: usize) -> Option<usize> {
        for i in from..self.clauses.len() {
            let c = &self.clauses[i];
            let is_seen = c.place < list.generation
                && match c.erased {
                    None => true,
                    Some(e) => list.generation <= e,
                };
            if is_seen && (list.key.is_none() || list.key == Some(c.number)) {
                return Some(i);
            }
        }
        None
    }

    /// How many messages the queue has.
    pub fn messages(&self) -> usize {
        self.messages.len()
    }

    /// A message is sent to the queue.
    pub fn send(&mut self, message: u64) -> Result<(), AllocError> {
        self.messages.push(message)?;
        self.update();
        Ok(())
    }

    /// The first message that is the pattern, or of any where there is none.
    pub fn peek(&self, pattern: Option<u64>) -> Option<u64> {
        match self.messages.get(self.place_of(pattern)) {
            Some(message) => Some(*message),
            None => None,
        }
    }

    /// That message is taken.
    pub fn get(&mut self, pattern: Option<u64>) {
        let i = self.place_of(pattern);
        if i < self.messages.len() {
            self.messages.remove(i);
            self.update();
        }
    }

    /// Where that message stands, or how many there are.
    fn place_of(&self, pattern: Option<u64>) -> usize {
        for i in 0..self.messages.len() {
            let fits = match pattern {
                None => true,
                Some(message) => self.messages[i] == message,
            };
            if fits {
                return i;
            }
        }
        self.messages.len()
    }
}
