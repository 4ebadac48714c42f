//! retractall/1 (ISO Cor.2 8.9.5), as it begins: it asks for the clauses for a head.
ghost use Rattle.std.specs.Prelude.{◌≡◌, ◌≤◌, ◌<◌, ◌++◌, false, length, IfOk, None, OnOk};
ghost use Rattle.world_api.specs.Gains.{Gains};
ghost use Rattle.world_api.specs.Texts.{Holds};
ghost use Rattle.world_api.specs.Told.{has_ended};
ghost use Rattle.world_builtins.specs.Naming.{IsHeldAt};
ghost use Rattle.iso_search.specs.Reading.{IsView, View};
ghost use Rattle.iso_search.specs.Searching.{IsWhole};
ghost use Rattle.iso_engine.specs.Clearing.{IsClearAt, IsClearDone, clear_error, cleared_as};
ghost use Rattle.iso_engine.specs.GoalSteps.{IsStepAsked};
ghost use Rattle.iso_engine.specs.Replies.{IsListOrError};
ghost use Rattle.iso_engine.specs.Unserved.{OnRefusal, refusals_in};

use crate::call::goals::{key_at, predicate_at};
use crate::state::refusing::refuse_goal;
use atom_api::fixed;
use iso_search::outcome::{Fault, Outcome};
use iso_search::search::Search;
use shared_builtins::{Check, first_fault};
use term_store::{Place, Stored};
use world_api::{Answer, Found, Reply, Unserved, Visit, World};

/// What came of a goal of retractall/1.
#[derive(Drop)]
pub enum Cleared {
    /// The clauses of this generation are to be looked at, of which this is the first.
    Lists(u64, Option<Found<Stored>>),
    /// The goal leads to this outcome.
    Ran(Outcome),
    /// The shared state refused the goal with this error term.
    Refused(Stored),
}

/// Takes up the goal at a place of retractall/1 with this head, before the tasks of a list: makes an inference, checks the head, and
/// asks for the clauses. Where the visit is not served nothing has changed, and the goal is to be taken up again.
pub fn clear_goal<W: World<Term = Stored>>(
    search: &mut Search,
    goal: Place,
    head: Place,
    rest: usize,
    world: &mut W,
    atoms: &mut W::A,
) -> Result<Cleared, Unserved>
    requires whole { IsWhole search.old }
    requires goal { IsClearAt search.old.store goal head }
    requires held { IsHeldAt (W.A.held atoms.old) search.old.store goal }
    requires rest { rest ≤ length search.old.frames.items }
    requires runs { has_ended (W.told world.old).engine (W.told world.old).history ≡ false }
    ensures whole { OnOk result (IsWhole search.new) }
    ensures cleared { IfOk result (IsClearDone (W.told world.old) search.old goal head rest (W.A.held atoms.new) (W.told world.new) search.new) }
    ensures taken_back { OnRefusal result ((W.told world.new ≡ W.told world.old) × (search.new ≡ search.old)) }
    ensures runs { has_ended (W.told world.new).engine (W.told world.new).history ≡ false }
    ensures holds { Holds (W.A.held atoms.old) (W.A.held atoms.new) }
    ensures refusals { W.A.refusals atoms.new ≡ W.A.refusals atoms.old ++ refusals_in result }
    ensures asks { Gains (IsStepAsked (W.A.held atoms.old) (W.told world.old) search.old goal) (W.A.asked atoms.old) (W.A.asked atoms.new) }
{
    let most = search.budgets.inferences;
    if search.inferences >= most {
        return Ok(Cleared::Ran(Outcome::Raise(Fault::Inferences)));
    }
    let checks = [Check::Bound(head), Check::Callable(head)];
    match first_fault(&search.store, &checks) {
        Some(fault) => {
            search.inferences += 1;
            let outcome = refuse_goal(search, goal, fixed::RETRACTALL, 1, fault, rest)?;
            Ok(Cleared::Ran(outcome))
        }
        None => {
            let cleared = ask_for_clauses(search, goal, head, rest, world, atoms)?;
            Ok(cleared)
        }
    }
}

/// Asks for the clauses, where the goal is not refused.
fn ask_for_clauses<W: World<Term = Stored>>(
    search: &mut Search,
    goal: Place,
    head: Place,
    rest: usize,
    world: &mut W,
    atoms: &mut W::A,
) -> Result<Cleared, Unserved>
    requires whole { IsWhole search.old }
    requires goal { IsClearAt search.old.store goal head }
    requires held { IsHeldAt (W.A.held atoms.old) search.old.store goal }
    requires runs { has_ended (W.told world.old).engine (W.told world.old).history ≡ false }
    requires count { search.old.inferences < search.old.budgets.inferences }
    requires allowed { (v : View) → IsView v → Holds (W.A.held atoms.old) v.names → clear_error v search.old.store head ≡ None }
    ensures whole { OnOk result (IsWhole search.new) }
    ensures cleared { IfOk result (IsClearDone (W.told world.old) search.old goal head rest (W.A.held atoms.new) (W.told world.new) search.new) }
    ensures taken_back { OnRefusal result ((W.told world.new ≡ W.told world.old) × (search.new ≡ search.old)) }
    ensures runs { has_ended (W.told world.new).engine (W.told world.new).history ≡ false }
    ensures holds { Holds (W.A.held atoms.old) (W.A.held atoms.new) }
    ensures refusals { W.A.refusals atoms.new ≡ W.A.refusals atoms.old ++ refusals_in result }
    ensures asks { Gains (IsStepAsked (W.A.held atoms.old) (W.told world.old) search.old goal) (W.A.asked atoms.old) (W.A.asked atoms.new) }
{
    let _most = search.budgets.inferences;
    let _mark = search.store.mark();
    let procedure = predicate_at(&search.store, head);
    let first = key_at(&search.store, head);
    match world.visit(Visit::Clear { procedure, first }, atoms) {
        Answer::Served { reply, generation } => {
            search.inferences += 1;
            Ok(cleared_by(reply, generation))
        }
        Answer::Waits { .. } => unreachable!(),
        Answer::NeedsAtoms(pass) => Err(Unserved::NeedsAtoms(pass)),
        Answer::Retry(cause) => Err(Unserved::Retry(cause)),
        Answer::Worn(word) => Err(Unserved::Worn(word)),
        Answer::Memory => Err(Unserved::Memory),
    }
}

/// What comes of the reply.
fn cleared_by(reply: Reply<Stored>, generation: u64) -> Cleared
    requires { IsListOrError reply }
    ensures { result ≡ cleared_as reply generation }
{
    match reply {
        Reply::Clauses(found) => Cleared::Lists(generation, found),
        Reply::Refused(error) => Cleared::Refused(error),
        _ => unreachable!(),
    }
}
