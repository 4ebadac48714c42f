//! Goals that write, by their names and the number of their arguments.
ghost use Rattle.std.specs.Prelude.{◌≡◌, ◌<◌, MatchOption, IfSome};
ghost use Rattle.pl_term.specs.Tree.{compound};
ghost use Rattle.atom_api.specs.Names.{Names};
ghost use Rattle.term_store.specs.Heap.{atom_name};
ghost use Rattle.term_store.specs.Contents.{Holds, IsArguments, arguments_at, term_at};
ghost use Rattle.iso_engine.specs.OutputGoals.{IsGoalHeld, IsGoalOf, IsHeldIn, IsNoOutput, IsOutputIn, atom_output, one_output};

use atom_api::{Atom, fixed};
use term_store::{Place, Store, View as Kind};
use world_builtins::Style;

/// A goal that writes.
#[derive(Clone, Copy, Debug, Drop)]
pub enum OutputGoal {
    /// write/1, writeq/1 and print/1: the term at a place, under the operators of the shared state (ISO 8.14.2; SWI-Prolog
    /// manual, print/1).
    Term(Style, Place),
    /// write_canonical/1: the term at a place, with quotes and without operators (ISO 8.14.2).
    Canonical(Place),
    /// nl/0: a new line (ISO 8.12.1).
    NewLine,
    /// put_char/1: the character at a place (ISO 8.12.3).
    Character(Place),
}

/// What an atom is, if it is a goal that writes.
fn of_atom(name: Atom) -> Option<OutputGoal>
    ensures { result ≡ atom_output name }
{
    if name == fixed::NL {
        Some(OutputGoal::NewLine)
    } else {
        None
    }
}

/// What a compound term of one argument is, if it is a goal that writes.
fn of_one(name: Atom, first: Place) -> Option<OutputGoal>
    ensures { result ≡ one_output name first }
{
    if name == fixed::WRITE {
        Some(OutputGoal::Term(Style::Bare, first))
    } else if name == fixed::WRITEQ {
        Some(OutputGoal::Term(Style::Quoted, first))
    } else if name == fixed::PRINT {
        Some(OutputGoal::Term(Style::Quoted, first))
    } else if name == fixed::PUT_CHAR {
        Some(OutputGoal::Character(first))
    } else if name == fixed::WRITE_CANONICAL {
        Some(OutputGoal::Canonical(first))
    } else {
        None
    }
}

/// What the term at a place writes as a goal. None where it is no goal that writes.
pub fn output_at(store: &Store, goal: Place) -> Option<OutputGoal>
    requires { Holds store.now goal }
    ensures inside { IfSome result (IsOutputIn store.now) }
    ensures held { IfSome result (λ o. (m : Names) → IsGoalHeld m store.now goal → IsHeldIn m store.now o) }
    ensures stands { MatchOption result (IsNoOutput store.now goal) (λ o. IsGoalOf store.now o goal) }
{
    match store.look(goal) {
        Kind::Variable(_) => None,
        Kind::Integer(_) => None,
        Kind::Atom(name) => of_atom(name),
        Kind::Compound(name, arguments) => {
            if arguments.len() == 1 {
                of_one(name, store.argument(arguments, 0))
            } else {
                None
            }
        }
    }
}
