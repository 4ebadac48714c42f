//! Goals of predicates of the shared state, as steps of a search.
ghost use Rattle.std.specs.Prelude.{◌≡◌, ◌≤◌, ◌<◌, ◌++◌, ℕ, false, length, IfOk, OnOk};
ghost use Rattle.pl_model.specs.BuiltinRows.{Row};
ghost use Rattle.pl_model.specs.Requests.{Reply, Request};
ghost use Rattle.world_api.specs.Gains.{Gains};
ghost use Rattle.world_api.specs.Texts.{Holds};
ghost use Rattle.world_api.specs.Told.{has_ended};
ghost use Rattle.world_builtins.specs.Naming.{IsHeldAt};
ghost use Rattle.world_builtins.specs.Spelling.{reads};
ghost use Rattle.iso_search.specs.Searching.{IsWhole};
ghost use Rattle.iso_engine.specs.State.{IsGoalAsked, IsStateAsked, IsStateAt, IsVisitFor};
ghost use Rattle.iso_engine.specs.Unserved.{OnRefusal, refusals_in};

use crate::state::asked::Asked;
use crate::state::leads::{follow_asked, refuse, succeed};
use iso_search::outcome::{Fault, Outcome};
use iso_search::search::Search;
use shared_builtins::{Shared, StateGoal, shared_of};
use std::alloc::Global;
use term_store::{ArgumentKey, Stored};
use world_api::{Answer, Unserved, Visit, World};

/// Takes up the goal, before the tasks of a list: makes an inference, checks the arguments, asks the shared state, and goes on
/// by its reply. Where the visit is not served nothing has changed, and the goal is to be taken up again. When memory runs out
/// the search is not to be used any more.
pub fn ask_goal<W: World<Term = Stored>>(
    alloc: Global,
    search: &mut Search,
    goal: &StateGoal,
    rest: usize,
    world: &mut W,
    atoms: &mut W::A,
) -> Result<Asked, Unserved>
    requires whole { IsWhole search.old }
    requires goal { IsStateAt search.old.store goal.now }
    requires held { IsHeldAt (W.A.held atoms.old) search.old.store goal.now.place }
    requires rest { rest ≤ length search.old.frames.items }
    requires runs { has_ended (W.told world.old).engine (W.told world.old).history ≡ false }
    ensures whole { OnOk result (IsWhole search.new) }
    ensures asked { IfOk result (IsGoalAsked (W.told world.old) search.old goal.now rest (W.A.held atoms.new) (W.told world.new) search.new) }
    ensures taken_back { OnRefusal result ((W.told world.new ≡ W.told world.old) × (search.new ≡ search.old)) }
    ensures runs { has_ended (W.told world.new).engine (W.told world.new).history ≡ false }
    ensures holds { Holds (W.A.held atoms.old) (W.A.held atoms.new) }
    ensures refusals { W.A.refusals atoms.new ≡ W.A.refusals atoms.old ++ refusals_in result }
    ensures asks { Gains (IsStateAsked (W.A.held atoms.old) (W.told world.old) search.old goal.now) (W.A.asked atoms.old) (W.A.asked atoms.new) }
{
    let most = search.budgets.inferences;
    if search.inferences >= most {
        return Ok(Asked::Ran(Outcome::Raise(Fault::Inferences)));
    }
    let shared = shared_of(alloc, &mut search.store, goal)?;
    match shared {
        Shared::Refused(fault) => {
            search.inferences += 1;
            let outcome = refuse(search, goal, fault, rest)?;
            Ok(Asked::Ran(outcome))
        }
        Shared::Holds => {
            search.inferences += 1;
            let outcome = succeed(search, goal, rest)?;
            Ok(Asked::Ran(outcome))
        }
        Shared::Asks(visit) => ask(alloc, search, goal, visit, rest, world, atoms),
    }
}

/// Asks the shared state this for a goal, and goes on by its reply.
fn ask<W: World<Term = Stored>>(
    alloc: Global,
    search: &mut Search,
    goal: &StateGoal,
    visit: Visit<Stored, ArgumentKey>,
    rest: usize,
    world: &mut W,
    atoms: &mut W::A,
) -> Result<Asked, Unserved>
    requires whole { IsWhole search.old }
    requires goal { IsStateAt search.old.store goal.now }
    requires held { IsHeldAt (W.A.held atoms.old) search.old.store goal.now.place }
    requires rest { rest ≤ length search.old.frames.items }
    requires runs { has_ended (W.told world.old).engine (W.told world.old).history ≡ false }
    requires count { search.old.inferences < search.old.budgets.inferences }
    requires asks { (q : Request) × (next : Reply → ℕ → Row)
        × IsVisitFor (W.A.held atoms.old) (reads (W.A.held atoms.old) search.old.store goal.now.place) visit q next }
    ensures whole { OnOk result (IsWhole search.new) }
    ensures asked { IfOk result (IsGoalAsked (W.told world.old) search.old goal.now rest (W.A.held atoms.new) (W.told world.new) search.new) }
    ensures taken_back { OnRefusal result ((W.told world.new ≡ W.told world.old) × (search.new ≡ search.old)) }
    ensures runs { has_ended (W.told world.new).engine (W.told world.new).history ≡ false }
    ensures holds { Holds (W.A.held atoms.old) (W.A.held atoms.new) }
    ensures refusals { W.A.refusals atoms.new ≡ W.A.refusals atoms.old ++ refusals_in result }
    ensures asks { Gains (IsStateAsked (W.A.held atoms.old) (W.told world.old) search.old goal.now) (W.A.asked atoms.old) (W.A.asked atoms.new) }
{
    let _most = search.budgets.inferences;
    match world.visit(visit, atoms) {
        Answer::Served { reply, .. } => {
            search.inferences += 1;
            let asked = follow_asked(alloc, search, goal, reply, rest)?;
            Ok(asked)
        }
        Answer::Waits { on, generation } => Ok(Asked::Waits(on, generation)),
        Answer::NeedsAtoms(pass) => Err(Unserved::NeedsAtoms(pass)),
        Answer::Retry(cause) => Err(Unserved::Retry(cause)),
        Answer::Worn(word) => Err(Unserved::Worn(word)),
        Answer::Memory => Err(Unserved::Memory),
    }
}
