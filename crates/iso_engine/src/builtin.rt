//! Which goals are built-in predicates.
ghost use Rattle.std.specs.Prelude.{◌≡◌, ◌<◌, [], MatchOption};
ghost use Rattle.term_store.specs.Contents.{Holds};
ghost use Rattle.iso_search.specs.Lines.{lines_of};
ghost use Rattle.iso_search.specs.Reading.{IsView, View, reads};
ghost use Rattle.iso_engine.specs.Builtins.{AsksOnce, IsAskedAt, IsBuiltinAt, IsOtherOnce, IsRowGoal};
ghost use Rattle.iso_engine.specs.Following.{IsInteger};

use crate::state::collecting::{Collection, collection_named};
use atom_api::Atom;
use builtin_rows::{Meaning, Pred, predicate_of};
use shared_builtins::{StateGoal, built_pred};
use term_store::{Arguments, Place, Store, View as Kind};
use world_api::Procedure;

/// A goal of a built-in predicate that is a function of its arguments: where it stands, which predicate it is, by its name too,
/// and where its arguments are.
#[derive(Clone, Copy, Debug, Drop)]
pub struct RowGoal {
    pub place: Place,
    pub pred: Pred,
    pub name: Atom,
    pub arguments: Arguments,
}

impl RowGoal {
    /// The predicate by its name and the number of its arguments.
    pub fn procedure(&self) -> Procedure
        ensures { result ≡ record { name = self.now.name; arity = self.now.arguments.count } }
    {
        Procedure {
            name: self.name,
            arity: self.arguments.len() as u64,
        }
    }
}

/// What a goal is that is no control construct.
#[derive(Clone, Copy, Debug, Drop)]
pub enum Builtin {
    /// A built-in predicate that is a function of its arguments.
    Row(RowGoal),
    /// A built-in predicate of the shared state with arguments.
    State(StateGoal),
    /// One that asks for this collection.
    Collect(Collection),
    /// No built-in predicate: it calls the program's clauses.
    No,
}

/// What the goal at a place is, where it is no control construct and no step of the search of its own. A variable stands for
/// `call/1`, whose argument is no argument of the goal.
pub fn builtin_at(store: &Store, goal: Place) -> Builtin
    requires holds { Holds store.now goal }
    requires callable { IsInteger store.now goal → ⊥ }
    requires other { IsOtherOnce store.now goal }
    ensures { IsBuiltinAt store.now goal result }
{
    match store.look(goal) {
        Kind::Variable(_) => Builtin::No,
        Kind::Integer(_) => unreachable!(),
        Kind::Atom(name) => match collection_named(name) {
            Some(collection) => Builtin::Collect(collection),
            None => Builtin::No,
        },
        Kind::Compound(name, arguments) => match predicate_of(name, arguments.len()) {
            None => Builtin::No,
            Some(meaning) => match meaning {
                Meaning::Row(pred) => Builtin::Row(RowGoal {
                    place: goal,
                    pred,
                    name,
                    arguments,
                }),
                Meaning::Asks => Builtin::State(asked_at(goal, name, arguments)),
                Meaning::Steps => unreachable!(),
            },
        },
    }
}

/// The goal of a predicate of the shared state with this name and these arguments.
fn asked_at(place: Place, name: Atom, arguments: Arguments) -> StateGoal
    requires some { 0 < arguments.count }
    requires asks { AsksOnce name arguments.count }
    ensures { IsAskedAt place name arguments result }
{
    let Some(pred) = built_pred(name, arguments.len()) else {
        unreachable!();
    };
    StateGoal {
        place,
        pred,
        name,
        arguments,
    }
}

/// The goal at a place, if it is one of a built-in predicate that is a function of its arguments. No other has a table.
#[inline(always)]
pub fn row_goal_at(store: &Store, goal: Place) -> Option<RowGoal>
    requires { Holds store.now goal }
    ensures { MatchOption result ((v : View) → IsView v → lines_of (reads v store.now goal) ≡ []) (λ r. (r.place ≡ goal) × IsRowGoal store.now r) }
{
    match store.look(goal) {
        Kind::Variable(_) => None,
        Kind::Integer(_) => None,
        Kind::Atom(_) => None,
        Kind::Compound(name, arguments) => {
            let found = predicate_of(name, arguments.len());
            let Some(meaning) = found else {
                return None;
            };
            match meaning {
                Meaning::Row(pred) => Some(RowGoal {
                    place: goal,
                    pred,
                    name,
                    arguments,
                }),
                Meaning::Asks => None,
                Meaning::Steps => None,
            }
        }
    }
}
