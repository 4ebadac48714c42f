//! Predicates of goals.
ghost use Rattle.std.specs.Prelude.{◌≡◌, MatchOption};
ghost use Rattle.pl_model.specs.Control.{tried_by};
ghost use Rattle.term_store.specs.declared.words.Place.{Place};
ghost use Rattle.term_store.specs.Contents.{Contents, Holds, term_at};
ghost use Rattle.iso_search.specs.declared.choices.Purpose.TheVariants.{Resolving};
ghost use Rattle.iso_search.specs.Choices.{purpose_of};
ghost use Rattle.iso_search.specs.Outcomes.{Setting};
ghost use Rattle.iso_search.specs.Reading.{IsView, reads};
ghost use Rattle.iso_engine.specs.CalledGoals.{HasPredicate};
ghost use Rattle.iso_engine.specs.Following.{HasProcedure, IsInteger, proc_in};

use atom_api::fixed;
use iso_search::choices::Purpose;
use term_store::{Place, Store, View as Kind};
use world_api::Procedure;

/// The predicate of the goal at a place (ISO 7.1.6.6): a variable stands for `call/1` of it. An integer is no goal.
#[inline(always)]
pub fn procedure_at(store: &Store, goal: Place) -> Option<Procedure>
    requires { Holds store.now goal }
    ensures { MatchOption result (IsInteger store.now goal) (λ p. HasProcedure store.now goal p × (IsInteger store.now goal → ⊥)) }
{
    match store.look(goal) {
        Kind::Variable(_) => Some(Procedure {
            name: fixed::CALL,
            arity: 1,
        }),
        Kind::Integer(_) => None,
        Kind::Atom(name) => Some(Procedure { name, arity: 0 }),
        Kind::Compound(name, arguments) => Some(Procedure {
            name,
            arity: arguments.len() as u64,
        }),
    }
}

/// The predicate for which clauses are tried: that of the goal, or clause/2 or retract/1.
#[inline(always)]
pub fn trying_procedure(purpose: Purpose, procedure: Procedure) -> Procedure
    ensures { (s : Contents) (goal : Place) → (purpose ≡ Resolving → HasPredicate (term_at s goal) procedure)
        → (t : Setting) → IsView t.view → tried_by (purpose_of purpose) (reads t.view s goal) ≡ proc_in t.view result }
{
    match purpose {
        Purpose::Resolving => procedure,
        Purpose::Inspecting => Procedure {
            name: fixed::CLAUSE,
            arity: 2,
        },
        Purpose::Retracting => Procedure {
            name: fixed::RETRACT,
            arity: 1,
        },
    }
}
