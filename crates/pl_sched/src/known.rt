//! The atoms of an engine that a worker carries, with the answers that it keeps.
ghost use Rattle.std.specs.Prelude.{◌≡◌, true};
ghost use Rattle.atom_words.specs.Seats.{seen};
ghost use Rattle.atom_table.specs.Naming.{names, requests};
ghost use Rattle.pl_history.specs.Seats.{table_is};
ghost use Rattle.kept_answers.specs.Answered.{AreSound, IsGiven, IsKept, are_sound_is, found_at};

use crate::naming::Command;
use atom_api::{Atom, Atoms, Interned, TextBuf};
use atom_table::TableAtoms;
use kept_answers::{Answers, number_of};
use pl_history::{Front, History};
use pl_term::Text;
use std::alloc::Global;
use term_store::{ArgumentKey, Stored};
use world_api::{Asked, Found};

/// The atoms of an engine, and answers of the shared state that it keeps: each is the answer to its request after all entries
/// that the front has seen, by the texts of the atoms. The front carries no engine. What was found last is kept at the place `at`.
#[derive(Drop)]
pub struct KnownAtoms<'t, K: Command> {
    pub(crate) atoms: TableAtoms<'t, K>,
    pub(crate) answers: Answers,
    pub(crate) front: Front,
    pub(crate) at: usize,
    pub(crate) nothing: Option<Found<Stored>>,
    pub(crate) ghost here: { front.table ≡ K.history } by { table_is front.table K.history },
    pub(crate) ghost sound: { AreSound K.goals front.seen (names (seen atoms.seat)) answers.spaces.items } by { are_sound_is K.goals front.seen (names (seen atoms.seat)) answers.spaces.items },
}

impl<'t, K: Command> KnownAtoms<'t, K> {
    /// The atoms of an engine that keeps no answer.
    pub(crate) fn new(
        alloc: Global,
        history: &History,
        atoms: TableAtoms<'t, K>,
    ) -> KnownAtoms<'t, K>
        requires history { history.now ≡ K.history }
        ensures { result.atoms ≡ atoms.entry }
    {
        let front = history.front();
        let answers = Answers::new(alloc);
        KnownAtoms {
            atoms,
            answers,
            front,
            at: 0,
            nothing: None,
        }
    }

    /// The atoms by themselves.
    pub(crate) fn into_atoms(self) -> TableAtoms<'t, K>
        ensures { result ≡ self.entry.atoms }
    {
        self.atoms
    }

    // The engine's front tells what it has seen. False: it has seen less than was told before.
    #[inline]
    fn hear(&mut self, history: &History, front: &mut Front) -> bool
        requires history { history.now ≡ K.history }
        requires front { front.old.table ≡ K.history }
        ensures atoms { self.new.atoms ≡ self.old.atoms }
        ensures front { front.new ≡ front.old }
        ensures heard { result ≡ true → self.new.front.seen ≡ front.old.seen }
    {
        if self.front.generation() > front.generation() {
            return false;
        }
        history.inform(front, &mut self.front);
        true
    }

    /// Whether what is kept answers this, where the history is no longer than the engine's front has seen. Then `lent` lends it.
    #[inline]
    pub(crate) fn find(
        &mut self,
        history: &History,
        front: &mut Front,
        asked: &Asked<ArgumentKey>,
    ) -> bool
        requires history { history.now ≡ K.history }
        requires front { front.old.table ≡ K.history }
        ensures atoms { self.new.atoms ≡ self.old.atoms }
        ensures front { front.new ≡ front.old }
        ensures kept { result ≡ true → IsKept K.goals front.old.seen asked.now (found_at self.new.answers.spaces.items self.new.at self.new.nothing) (names (seen self.old.atoms.seat)) }
    {
        if !self.hear(history, front) {
            return false;
        }
        match self
            .answers
            .find(asked, number_of(asked), front.generation())
        {
            None => false,
            Some(place) => {
                self.at = place;
                true
            }
        }
    }

    /// What was found last.
    #[inline]
    pub(crate) fn lent(&self) -> &Option<Found<Stored>>
        ensures { result.now ≡ found_at self.now.answers.spaces.items self.now.at self.now.nothing }
    {
        self.answers.found_at(self.at, &self.nothing)
    }

    /// Whether the answer to the request with this number is to be kept, which is not, at that length of the history.
    pub(crate) fn is_again(&mut self, number: u64, generation: u64) -> bool
        ensures atoms { self.new.atoms ≡ self.old.atoms }
    {
        self.answers.is_again(number, generation)
    }

    /// Keeps what was found after all entries that the engine's front has seen, to the request with this number.
    pub(crate) fn keep(
        &mut self,
        alloc: Global,
        history: &History,
        front: &mut Front,
        asked: &Asked<ArgumentKey>,
        number: u64,
        found: &Option<Found<Stored>>,
    )
        requires history { history.now ≡ K.history }
        requires front { front.old.table ≡ K.history }
        requires given { IsGiven K.goals front.old.seen (names (seen self.old.atoms.seat)) asked.now found.now }
        ensures atoms { self.new.atoms ≡ self.old.atoms }
        ensures front { front.new ≡ front.old }
    {
        if self.hear(history, front) {
            self.answers
                .keep(alloc, asked, number, found, front.generation());
        }
    }
}

impl<'t, K: Command> Atoms for KnownAtoms<'t, K> {
    ghost use Rattle.std.specs.Prelude.{Some};

    ghost held = { λ s. names (seen s.atoms.seat) };

    ghost refusals = { λ s. (seen s.atoms.seat).refusals };

    ghost asked = { λ s. Some (requests (seen s.atoms.seat)) };

    fn intern(&mut self, text: &Text) -> Interned {
        self.atoms.intern(text)
    }

    fn text(&mut self, a: Atom, buf: &mut TextBuf) {
        self.atoms.text(a, buf);
    }

    fn reads(&self, a: Atom, text: &Text) -> bool {
        self.atoms.reads(a, text)
    }

    fn keep_only(&mut self, live: &[Atom]) {
        self.answers.clear();
        self.atoms.keep_only(live);
    }

    ghost fixed_held = { λ s. s.atoms.lawful.stand };

    ghost unlike = { λ s. s.atoms.lawful.unlike };

    ghost finite = { λ s. s.atoms.lawful.finite };
}
