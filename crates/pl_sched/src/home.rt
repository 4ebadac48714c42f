//! Engines at home.
ghost use Rattle.std.specs.Prelude.{◌≡◌, OnOk};
ghost use Rattle.atom_words.specs.Seats.{seen};
ghost use Rattle.atom_table.specs.Naming.{names};
ghost use Rattle.term_store.specs.Live.{Gathers};
ghost use Rattle.world_api.specs.Answers.{alias_names, on_names};
ghost use Rattle.pl_sched.specs.Homes.{IsAtHome, is_ended, mark_names};
ghost use Rattle.pl_sched.specs.Written.{WritesSo};

use crate::mark::Mark;
use crate::naming::Command;
use crate::over::Over;
use crate::records::may_try_again;
use crate::writing::Writes;
use atom_api::Atoms;
use atom_table::TableAtoms;
use pl_history::Front;
use pl_term::Memory;
use std::alloc::Global;
use std::marker::{Model, PhantomData};
use term_store::AtomSet;
use world_api::{Name, On};

/// An engine that is at home, with its atoms and its front. Contracts see it as what its front knows.
#[derive(Drop)]
pub struct Home<'a, E: Writes + Drop, K: Command> {
    engine: E,
    atoms: TableAtoms<'a, K>,
    front: Front,
    number: u64,
    mark: Mark,
    of: PhantomData<K>,
}

impl<'a, E: Writes + Drop, K: Command> Model for Home<'a, E, K> {
    ghost use Rattle.atom_words.specs.Seats.{seen};
    ghost use Rattle.atom_table.specs.Naming.{names};
    ghost use Rattle.pl_history.specs.Fronts.{FrontState};
    ghost use Rattle.pl_history.specs.Codes.{coded_front};
    ghost use Rattle.pl_sched.specs.Homes.{IsAtHome};
    ghost use Rattle.pl_sched.specs.Written.{WritesSo};

    ghost Value = { FrontState };

    ghost coded = { coded_front };

    ghost view = { λ h. h.front };

    ghost invariant = { λ h. IsAtHome E.stands E.ready E.moves K.program E.over K.history K.goals h.number h.mark (names (seen h.atoms.seat)) h.front h.engine
        × WritesSo K.program K.file K.board h.number (E.writing h.engine) };
}

/// An engine that came home.
#[derive(Drop)]
pub enum Retired<'a, E: Writes + Drop, K: Command> {
    /// It can go on or waits.
    Stays(Home<'a, E, K>),
    /// It has ended, and its atoms are free for another.
    Over(Over<E, K>, TableAtoms<'a, K>),
}

/// What a home is made of.
#[derive(Drop)]
pub struct Parts<'a, E: Writes + Drop, K: Command> {
    pub engine: E,
    pub atoms: TableAtoms<'a, K>,
    pub front: Front,
    pub number: u64,
    pub mark: Mark,
}

impl<'a, E: Writes + Drop, K: Command> Home<'a, E, K> {
    /// The engine with this number comes home, and its mark says why.
    pub fn new(parts: Parts<'a, E, K>) -> Home<'a, E, K>
        requires home { IsAtHome E.stands E.ready E.moves K.program E.over K.history K.goals parts.number parts.mark (names (seen parts.atoms.seat)) parts.front parts.engine }
        requires writes { WritesSo K.program K.file K.board parts.number (E.writing parts.engine) }
        ensures { result ≡ parts.entry.front }
    {
        let Parts {
            engine,
            atoms,
            front,
            number,
            mark,
        } = parts;
        Home {
            engine,
            atoms,
            front,
            number,
            mark,
            of: PhantomData,
        }
    }

    /// The engine leaves, with what is known of it.
    pub fn into_parts(self) -> Parts<'a, E, K>
        ensures front { result.front ≡ self.entry }
        ensures home { IsAtHome E.stands E.ready E.moves K.program E.over K.history K.goals result.number result.mark (names (seen result.atoms.seat)) result.front result.engine }
        ensures writes { WritesSo K.program K.file K.board result.number (E.writing result.engine) }
    {
        let Home {
            engine,
            atoms,
            front,
            number,
            mark,
            of: _,
        } = self;
        Parts {
            engine,
            atoms,
            front,
            number,
            mark,
        }
    }

    /// Whether the engine can go on at once.
    pub fn goes_on(&self) -> bool {
        matches!(self.mark, Mark::Ready)
    }

    /// How many moves the engine has made.
    pub fn moves(&self) -> u64 {
        self.engine.move_count()
    }

    /// Whether the engine waits for cycles of collection to end.
    pub fn waits_for_cycles(&self) -> bool {
        matches!(self.mark, Mark::ForCycles(_))
    }

    /// Whether the engine can go on, where the history has this length and the table of atoms this epoch word.
    pub fn is_ready(&self, generation: u64, word: u64) -> bool {
        match &self.mark {
            Mark::Ready => true,
            Mark::Waits(_, at) => *at < generation,
            Mark::ForCycles(pass) => may_try_again(*pass, word),
            Mark::Ended(_) => false,
        }
    }

    /// An engine that has ended gives its atoms back, which hold nothing then.
    pub fn retire(self) -> Retired<'a, E, K> {
        let parts = self.into_parts();
        if !has_ended(&parts.mark) {
            return Retired::Stays(Home::new(parts));
        }
        let Parts {
            engine,
            atoms,
            front,
            number,
            mark,
        } = parts;
        match mark {
            Mark::Ended(end) => {
                let mut atoms = atoms;
                let over = Over::new(engine, front, number, end);
                atoms.keep_only(&[]);
                Retired::Over(over, atoms)
            }
            Mark::Ready => unreachable!(),
            Mark::Waits(_, _) => unreachable!(),
            Mark::ForCycles(_) => unreachable!(),
        }
    }

    /// The engine takes part in a cycle of collection: where one marks, it holds on just the atoms that it names and what it
    /// waits on. The only error is out of memory.
    pub fn acknowledge(&mut self, alloc: Global) -> Result<(), Memory>
        ensures same { self.new ≡ self.old }
    {
        let mut live = AtomSet::new(alloc);
        self.engine.live_in(&mut live)?;
        name_awaited(&self.mark, &mut live)?;
        let live = live.into_atoms();
        self.atoms.acknowledge(live.as_slice());
        Ok(())
    }
}

/// Puts the alias of what the mark says is waited on to those of a set. The only error is out of memory.
fn name_awaited(mark: &Mark, live: &mut AtomSet) -> Result<(), Memory>
    ensures { OnOk result (Gathers (mark_names mark.now) live.old live.new) }
{
    match mark {
        Mark::Ready => Ok(()),
        Mark::Waits(on, _) => name_on(on, live),
        Mark::ForCycles(_) => Ok(()),
        Mark::Ended(_) => Ok(()),
    }
}

/// Puts the alias of what is waited on to those of a set. The only error is out of memory.
fn name_on(on: &On, live: &mut AtomSet) -> Result<(), Memory>
    ensures { OnOk result (Gathers (on_names on.now) live.old live.new) }
{
    match on {
        On::Queue(name) => name_alias(name, live),
        On::Thread(name) => name_alias(name, live),
    }
}

/// Puts an alias to those of a set. The only error is out of memory.
fn name_alias(name: &Name, live: &mut AtomSet) -> Result<(), Memory>
    ensures { OnOk result (Gathers (alias_names name.now) live.old live.new) }
{
    match name {
        Name::Number(_) => Ok(()),
        Name::Alias(atom) => live.insert(*atom),
    }
}

/// Whether the mark says that the engine has ended.
pub(crate) fn has_ended(mark: &Mark) -> bool
    ensures { result ≡ is_ended mark.now }
{
    matches!(mark, Mark::Ended(_))
}
