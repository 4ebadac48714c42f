//! Engines that begin.
ghost use Rattle.std.specs.Prelude.{◌≡◌};
ghost use Rattle.atom_words.specs.Seats.{seen};
ghost use Rattle.atom_table.specs.Naming.{names};
ghost use Rattle.pl_sched.specs.Newcomers.{IsNew};

use crate::naming::Command;
use atom_table::TableAtoms;
use pl_history::Front;
use std::marker::{Model, PhantomData};
use term_store::Stored;

/// An engine that begins, with its goal, the atoms that hold it and its front. Contracts see it as what its front knows.
#[derive(Drop)]
pub struct NewEngine<'a, K: Command> {
    number: u64,
    goal: Stored,
    atoms: TableAtoms<'a, K>,
    front: Front,
    of: PhantomData<K>,
}

impl<'a, K: Command> Model for NewEngine<'a, K> {
    ghost use Rattle.atom_words.specs.Seats.{seen};
    ghost use Rattle.atom_table.specs.Naming.{names};
    ghost use Rattle.pl_history.specs.Fronts.{FrontState};
    ghost use Rattle.pl_history.specs.Codes.{coded_front};
    ghost use Rattle.pl_sched.specs.Newcomers.{IsNew};

    ghost Value = { FrontState };

    ghost coded = { coded_front };

    ghost view = { λ n. n.front };

    ghost invariant = { λ n. IsNew K.history n.number n.goal (names (seen n.atoms.seat)) n.front };
}

/// What such an engine is made of.
#[derive(Drop)]
pub struct NewParts<'a, K: Command> {
    pub number: u64,
    pub goal: Stored,
    pub atoms: TableAtoms<'a, K>,
    pub front: Front,
}

impl<'a, K: Command> NewEngine<'a, K> {
    /// The engine with this number begins to run the goal.
    pub fn new(
        number: u64,
        goal: Stored,
        atoms: TableAtoms<'a, K>,
        front: Front,
    ) -> NewEngine<'a, K>
        requires { IsNew K.history number goal (names (seen atoms.seat)) front }
        ensures { result ≡ front }
    {
        NewEngine {
            number,
            goal,
            atoms,
            front,
            of: PhantomData,
        }
    }

    /// What it is made of.
    pub fn into_parts(self) -> NewParts<'a, K>
        ensures front { result.front ≡ self.entry }
        ensures new { IsNew K.history result.number result.goal (names (seen result.atoms.seat)) result.front }
    {
        let NewEngine {
            number,
            goal,
            atoms,
            front,
            of: _,
        } = self;
        NewParts {
            number,
            goal,
            atoms,
            front,
        }
    }
}
