//! thread_exit/1 (SWI-Prolog manual, section 'Multithreaded applications').
ghost use Rattle.std.specs.Prelude.{◌≡◌, ◌≤◌, ◌++◌, Some, length, IfOk, OnOk};
ghost use Rattle.pl_model.specs.Threads.{goal_alias};
ghost use Rattle.world_api.specs.Gains.{Gains};
ghost use Rattle.world_api.specs.Texts.{Holds};
ghost use Rattle.world_builtins.specs.Naming.{IsHeldAt};
ghost use Rattle.iso_search.specs.Searching.{IsWhole};
ghost use Rattle.iso_engine.specs.Leaving.{IsExitAt, IsExitDone, IsStayingAs};
ghost use Rattle.iso_engine.specs.Standing.{staying};
ghost use Rattle.iso_engine.specs.Unserved.{OnRefusal, refusals_in};

use crate::engine::Stays;
use crate::state::refusing::refuse_goal;
use atom_api::{Atom, Atoms, Interned, fixed};
use iso_search::balls::Ball;
use iso_search::outcome::{Fault as Spent, Outcome};
use iso_search::search::Search;
use pl_term::{Memory, Text};
use shared_builtins::Fault;
use std::alloc::Global;
use term_store::Place;
use world_api::Unserved;

/// What came of a goal of thread_exit/1.
#[derive(Drop)]
pub enum Leaving {
    /// What is run ends with this term.
    Leaves(Ball),
    /// It goes on.
    Ran(Outcome),
}

/// Takes up the goal at a place of thread_exit/1 with this term, before the tasks of a list: what is run ends with a copy of the
/// term. The first engine and the command's goals are not left so, which is an error. Where an atom for their name has no place,
/// nothing has changed, and the goal is to be taken up again.
pub fn exit_goal<A: Atoms>(
    alloc: Global,
    search: &mut Search,
    stays: Stays,
    goal: Place,
    term: Place,
    rest: usize,
    atoms: &mut A,
) -> Result<Leaving, Unserved>
    requires whole { IsWhole search.old }
    requires exit { IsExitAt search.old.store goal term }
    requires held { IsHeldAt (A.held atoms.old) search.old.store goal }
    requires rest { rest ≤ length search.old.frames.items }
    ensures whole { OnOk result (IsWhole search.new) }
    ensures left { IfOk result (IsExitDone (staying stays) (A.held atoms.new) search.old goal rest search.new) }
    ensures taken_back { OnRefusal result (search.new ≡ search.old) }
    ensures holds { Holds (A.held atoms.old) (A.held atoms.new) }
    ensures refusals { A.refusals atoms.new ≡ A.refusals atoms.old ++ refusals_in result }
    ensures asks { Gains (λ c. staying stays ≡ Some c) (A.asked atoms.old) (A.asked atoms.new) }
{
    let most = search.budgets.inferences;
    if search.inferences >= most {
        return Ok(Leaving::Ran(Outcome::Raise(Spent::Inferences)));
    }
    let name = staying_as(alloc, stays, atoms)?;
    search.inferences += 1;
    match name {
        None => {
            let ball = Ball::at(alloc, &search.store, term)?;
            Ok(Leaving::Leaves(ball))
        }
        Some(name) => {
            let fault = Fault::NotPermitted(fixed::EXIT, fixed::THREAD, Place::atom(name));
            let outcome = refuse_goal(search, goal, fixed::THREAD_EXIT, 1, fault, rest)?;
            Ok(Leaving::Ran(outcome))
        }
    }
}

/// The name of what is run, where it is not left.
fn staying_as<A: Atoms>(
    alloc: Global,
    stays: Stays,
    atoms: &mut A,
) -> Result<Option<Atom>, Unserved>
    ensures named { IfOk result (IsStayingAs (A.held atoms.new) (staying stays)) }
    ensures holds { Holds (A.held atoms.old) (A.held atoms.new) }
    ensures refusals { A.refusals atoms.new ≡ A.refusals atoms.old ++ refusals_in result }
    ensures asks { Gains (λ c. staying stays ≡ Some c) (A.asked atoms.old) (A.asked atoms.new) }
{
    match stays {
        Stays::No => Ok(None),
        Stays::AsMain => Ok(Some(fixed::MAIN)),
        Stays::AsGoal(number) => {
            let alias = alias_of_goal(alloc, number)?;
            let name = interned(&alias, atoms)?;
            Ok(Some(name))
        }
    }
}

/// The alias of the command's goal with this number. The only error is out of memory.
fn alias_of_goal(alloc: Global, number: u64) -> Result<Text, Memory>
    ensures { IfOk result (λ t. t ≡ goal_alias number) }
{
    let alias = format!(in alloc; "goal{number}")?;
    Text::from_str(alloc, alias.as_str())
}

/// The atom of a text, or why there is none.
fn interned<A: Atoms>(text: &Text, atoms: &mut A) -> Result<Atom, Unserved>
    ensures is { IfOk result (λ a. A.held atoms.new a ≡ Some text.now) }
    ensures holds { Holds (A.held atoms.old) (A.held atoms.new) }
    ensures refusals { A.refusals atoms.new ≡ A.refusals atoms.old ++ refusals_in result }
    ensures asks { Gains (λ c. c ≡ text.now) (A.asked atoms.old) (A.asked atoms.new) }
{
    match atoms.intern(text) {
        Interned::Is(atom) => Ok(atom),
        Interned::Full(pass) => Err(Unserved::NeedsAtoms(pass)),
        Interned::Again(cause) => Err(Unserved::Retry(cause)),
        Interned::TooLong { .. } => Err(Unserved::Memory),
        Interned::Worn(word) => Err(Unserved::Worn(word)),
        Interned::Memory => Err(Unserved::Memory),
    }
}
