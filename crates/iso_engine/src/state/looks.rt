//! Goals of clause/2 and retract/1 (ISO 8.8.1, 8.9.3).
ghost use Rattle.std.specs.Prelude.{◌≡◌};
ghost use Rattle.iso_engine.specs.ClauseLooks.{predicate_for, purpose_for};

use atom_api::fixed;
use iso_search::choices::Purpose;
use term_store::Place;
use world_api::Procedure;

/// What clauses are looked for.
#[derive(Clone, Copy, Debug, Drop)]
pub enum Look {
    /// clause/2: those with this head and this body.
    Inspects(Place, Place),
    /// retract/1: those that this clause-term stands for.
    Retracts(Place),
}

impl Look {
    /// What they are tried for.
    pub fn purpose(&self) -> Purpose
        ensures { result ≡ purpose_for self.now }
    {
        match self {
            Look::Inspects(_, _) => Purpose::Inspecting,
            Look::Retracts(_) => Purpose::Retracting,
        }
    }

    /// The predicate by its name and the number of its arguments.
    pub fn procedure(&self) -> Procedure
        ensures { result ≡ predicate_for self.now }
    {
        match self {
            Look::Inspects(_, _) => Procedure {
                name: fixed::CLAUSE,
                arity: 2,
            },
            Look::Retracts(_) => Procedure {
                name: fixed::RETRACT,
                arity: 1,
            },
        }
    }

    /// How many arguments the predicate has.
    pub fn arity(&self) -> u32
        ensures { result ≡ (predicate_for self.now).arity }
    {
        match self {
            Look::Inspects(_, _) => 2,
            Look::Retracts(_) => 1,
        }
    }
}

/// A goal of clause/2 or retract/1: where it stands, and what it looks for.
#[derive(Clone, Copy, Debug, Drop)]
pub struct LookGoal {
    pub place: Place,
    pub look: Look,
}
