//! Goals of predicates of the shared state.
ghost use Rattle.std.specs.Prelude.{◌≡◌};

use crate::preds::StatePred;
use atom_api::Atom;
use term_store::{Arguments, Place};
use world_api::Procedure;

/// A goal of a predicate of the shared state: where it stands, which predicate it is, by its name too, and where its arguments
/// are.
#[derive(Clone, Copy, Debug, Drop)]
pub struct StateGoal {
    pub place: Place,
    pub pred: StatePred,
    pub name: Atom,
    pub arguments: Arguments,
}

impl StateGoal {
    /// The predicate by its name and the number of its arguments.
    pub fn procedure(&self) -> Procedure
        ensures { result ≡ record { name = self.now.name; arity = self.now.arguments.count } }
    {
        Procedure {
            name: self.name,
            arity: self.arguments.len() as u64,
        }
    }
}
