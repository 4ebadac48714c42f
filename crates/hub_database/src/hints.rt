//! Where the procedures of goals stand, by the atoms of their names: a hint, which is looked at before it is used.
use crate::guesses::Guesses;
use crate::line::Line;
use crate::predicates::OpenPredicate;
use counted_terms::Row;
use pl_model::kept::Kept;
use pl_model::shows::Proc;
use pl_term::Memory;
use std::alloc::Global;
use std::collections::BTreeMap;
use term_store::{ArgumentKey, Stored};
use world_api::{Found, Procedure, Reply};

/// A predicate over atoms, as hints are ordered by.
#[derive(Clone, Copy, Debug, PartialEq, Eq, PartialOrd, Ord)]
struct Called {
    slot: u32,
    arity: u64,
}

/// At which index a procedure stood that was looked for, its predicate in texts, unless a visit has taken that, the line of its
/// clauses, and whether a guess was noted for it.
#[derive(Drop)]
struct Noted {
    place: u64,
    predicate: Option<OpenPredicate>,
    line: Line,
    is_guessed: bool,
}

/// At which index a procedure stood, and the place at which a clause may have been added that is its only one for a key.
#[derive(Clone, Copy, Debug, Drop)]
pub(crate) struct Hint {
    pub(crate) index: u64,
    pub(crate) guess: Option<u64>,
}

/// The procedures that were looked for. An atom may have been given to another text since: who uses a hint sees by the clause that
/// is found there, or by the text, whether it holds.
#[derive(Drop)]
pub struct Hints {
    noted: BTreeMap<Called, Noted>,
    guesses: Guesses,
}

impl Hints {
    /// No hints.
    pub fn new(alloc: Global) -> Hints {
        Hints {
            noted: BTreeMap::new(alloc),
            guesses: Guesses::new(alloc),
        }
    }

    /// What is noted of the procedure and the key.
    pub(crate) fn find(&self, p: &Procedure, first: &ArgumentKey) -> Option<Hint> {
        match self.noted.get(&numbered(p)) {
            Some(noted) => Some(Hint {
                index: noted.place,
                guess: self.guess(noted, p, first),
            }),
            None => None,
        }
    }

    // The place of the clause for the key: the one that the line gives, or else what was noted. Nothing is looked for where no guess was
    // noted for the procedure.
    fn guess(&self, noted: &Noted, p: &Procedure, first: &ArgumentKey) -> Option<u64> {
        if let Some(place) = noted.on_line(first) {
            return Some(place);
        }
        if !noted.is_guessed {
            return None;
        }
        match number_of(p, first) {
            Some(number) => self.guesses.find(number),
            None => None,
        }
    }

    /// The predicate in texts, where it is noted.
    pub(crate) fn noted(&self, p: &Procedure) -> Option<&OpenPredicate> {
        match self.noted.get(&numbered(p)) {
            Some(noted) => noted.predicate.as_ref(),
            None => None,
        }
    }

    /// Notes where the clause was added that the row hands out, if that is the only one of the procedure for the key. What the
    /// line gave is not noted besides.
    pub(crate) fn learn(&mut self, alloc: Global, p: &Procedure, first: &ArgumentKey, row: &Row) {
        let Some(number) = number_of(p, first) else {
            return;
        };
        let Some(noted) = self.noted.get_mut(&numbered(p)) else {
            return;
        };
        noted.learn(&mut self.guesses, alloc, number, first, alone(row));
    }

    /// Takes the predicate in texts, where it is noted.
    pub(crate) fn take(&mut self, p: &Procedure) -> Option<Proc> {
        match self.noted.get_mut(&numbered(p)) {
            Some(noted) => by_itself(noted.predicate.take()),
            None => None,
        }
    }

    /// Notes at which index the procedure stands, and its predicate in texts, unless it is one of the system. Where there is no
    /// memory nothing is noted; a procedure that was noted takes none.
    pub(crate) fn note(&mut self, p: &Procedure, place: u64, predicate: Proc) {
        let Some(predicate) = OpenPredicate::of(predicate) else {
            return;
        };
        let noted = Noted {
            place,
            predicate: Some(predicate),
            line: Line::new(),
            is_guessed: false,
        };
        match self.noted.insert(numbered(p), noted) {
            Ok(_) => {}
            Err(_) => {}
        }
    }
}

impl Noted {
    // The place that the line gives for the key.
    fn on_line(&self, first: &ArgumentKey) -> Option<u64> {
        match first {
            ArgumentKey::Int(key) => self.line.place(*key),
            _ => None,
        }
    }

    // Notes where the clause was found that is the only one for the key, if one was.
    fn learn(
        &mut self,
        guesses: &mut Guesses,
        alloc: Global,
        number: u64,
        first: &ArgumentKey,
        found: Option<&Found<Stored>>,
    ) {
        if self.was_on_line(first, found) {
            return;
        }
        let Some(found) = found else {
            return;
        };
        if self.is_guessed && guesses.find(number) == Some(found.place) {
            self.draw(first, found.place);
        } else if has_key(alloc, &found.clause) {
            self.draw(first, found.place);
            self.is_guessed = true;
            guesses.note(alloc, number, found.place);
        }
    }

    // Whether the line gave the place of the clause that was found. A line that gave another is sure no longer.
    fn was_on_line(&mut self, first: &ArgumentKey, found: Option<&Found<Stored>>) -> bool {
        let Some(place) = self.on_line(first) else {
            return false;
        };
        if let Some(found) = found {
            if found.place == place {
                return true;
            }
        }
        self.line.miss();
        false
    }

    // Notes for the line where the clause with the key was found.
    fn draw(&mut self, first: &ArgumentKey, place: u64) {
        if let ArgumentKey::Int(key) = first {
            self.line.note(*key, place);
        }
    }
}

// The clause that the row hands out, if no other one follows.
fn alone(row: &Row) -> Option<&Found<Stored>> {
    match row {
        Row::Reads(Reply::Clauses(Some(found))) if !found.more => Some(found),
        _ => None,
    }
}

// The predicate as hints are ordered by.
fn numbered(p: &Procedure) -> Called {
    Called {
        slot: p.name.slot(),
        arity: p.arity,
    }
}

// The predicate by itself.
fn by_itself(noted: Option<OpenPredicate>) -> Option<Proc> {
    match noted {
        Some(noted) => Some(noted.into_predicate()),
        None => None,
    }
}

// A number by which a clause of the procedure is guessed whose first argument has the key, where it has one.
fn number_of(p: &Procedure, first: &ArgumentKey) -> Option<u64> {
    let key = match first {
        ArgumentKey::Any => return None,
        ArgumentKey::Int(i) => i.cast_unsigned(),
        ArgumentKey::Atom(a) => *a as u64 | 0x1_0000_0000,
        ArgumentKey::Compound(f, k) => {
            *f as u64 | (*k as u64).wrapping_mul(0x4_0000_0000) | 0x2_0000_0000
        }
    };
    let named = (p.name.slot() as u64 ^ p.arity << 32).wrapping_mul(0xff51_afd7_ed55_8ccd);
    Some(key ^ named)
}

// Whether the first argument of the clause's head is found by a key.
fn has_key(alloc: Global, clause: &Stored) -> bool {
    match <Stored as Kept>::key(clause, alloc) {
        Ok(key) => !<Stored as Kept>::is_any(&key),
        Err(Memory) => false,
    }
}
