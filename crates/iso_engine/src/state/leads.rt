//! What goals of predicates of the shared state lead to, where the inference was made.
ghost use Rattle.std.specs.Prelude.{◌≡◌, ◌≤◌, ℕ, length, IfOk, OnOk};
ghost use Rattle.pl_model.specs.BuiltinRows.{Row as RowBy, error, one_answer};
ghost use Rattle.pl_model.specs.Requests.{Reply as ReplyBy, Request};
ghost use Rattle.pl_model.specs.Terms.{arguments as arguments_of};
ghost use Rattle.atom_api.specs.Names.{Names};
ghost use Rattle.world_builtins.specs.Naming.{IsHeldAt};
ghost use Rattle.world_builtins.specs.Spelling.{reads};
ghost use Rattle.iso_search.specs.Outcomes.{IsAfter};
ghost use Rattle.iso_search.specs.Searching.{IsWhole};
ghost use Rattle.shared_builtins.specs.Faults.{IsFaultHeld, IsFaultIn, fault_term};
ghost use Rattle.shared_builtins.specs.Goals.{IsStateGoal, arity_of};
ghost use Rattle.shared_builtins.specs.Replies.{IsReplyTo};
ghost use Rattle.shared_builtins.specs.Telling.{TellsAtoms};
ghost use Rattle.iso_engine.specs.State.{IsReplyLed, IsRowLed};

use crate::rows::following::follow_row;
use crate::rows::told::first_told;
use crate::state::asked::Asked;
use iso_search::outcome::Outcome;
use iso_search::search::Search;
use iso_search::told::{Constant, Line};
use pl_term::Memory;
use shared_builtins::{Fault, Replied, StateGoal, StatePred, follow_reply, raise, succeeded};
use std::alloc::Global;
use term_store::Stored;
use world_api::Reply;

/// Goes on by the reply to what the goal asked. The only error is out of memory.
pub fn follow_asked(
    alloc: Global,
    search: &mut Search,
    goal: &StateGoal,
    reply: Reply<Stored>,
    rest: usize,
) -> Result<Asked, Memory>
    requires whole { IsWhole search.old }
    requires goal { IsStateGoal search.old.store goal.now }
    requires rest { rest ≤ length search.old.frames.items }
    requires replied { (n : Names) × (q : Request) × (next : ReplyBy → ℕ → RowBy) × (r : ReplyBy) × IsReplyTo n search.old.store goal.now reply q next r }
    ensures whole { OnOk result (IsWhole search.new) }
    ensures led { IfOk result (λ a. (n : Names) (q : Request) (next : ReplyBy → ℕ → RowBy) (r : ReplyBy) → IsReplyTo n search.old.store goal.now reply q next r
        → IsReplyLed n search.old goal.now rest (next r search.old.next_variable) search.new a) }
{
    let next = search.next_variable;
    let replied = follow_reply(alloc, &mut search.store, goal, reply, next)?;
    match replied {
        Replied::Row(row) => {
            let outcome = follow_row(search, goal.place, row, rest)?;
            Ok(Asked::Ran(outcome))
        }
        Replied::Table(lines) => {
            let outcome = first_told(search, goal.place, lines, rest)?;
            Ok(Asked::Ran(outcome))
        }
        Replied::Error(error) => Ok(Asked::Refused(error)),
        Replied::Refused(fault) => {
            let outcome = refuse(search, goal, fault, rest)?;
            Ok(Asked::Ran(outcome))
        }
    }
}

/// Raises an error in the predicate of the goal. The only error of the call is out of memory.
pub fn refuse(
    search: &mut Search,
    goal: &StateGoal,
    fault: Fault,
    rest: usize,
) -> Result<Outcome, Memory>
    requires whole { IsWhole search.old }
    requires goal { IsStateGoal search.old.store goal.now }
    requires fault { IsFaultIn search.old.store fault }
    requires rest { rest ≤ length search.old.frames.items }
    requires held { (n : Names) × TellsAtoms n × IsHeldAt n search.old.store goal.now.place × IsFaultHeld n search.old.store fault }
    ensures whole { OnOk result (IsWhole search.new) }
    ensures after { IfOk result (IsAfter search.old search.new) }
    ensures led { IfOk result (λ o. (n : Names) → TellsAtoms n → IsHeldAt n search.old.store goal.now.place → IsFaultHeld n search.old.store fault
        → IsRowLed n search.old goal.now rest (error (fault_term n search.old.store fault)) search.new o) }
{
    let row = raise(&mut search.store, fault, goal.name, arguments_taken(goal))?;
    let outcome = follow_row(search, goal.place, row, rest)?;
    Ok(outcome)
}

/// The goal holds, and binds nothing. The only error of the call is out of memory.
pub fn succeed(search: &mut Search, goal: &StateGoal, rest: usize) -> Result<Outcome, Memory>
    requires whole { IsWhole search.old }
    requires goal { IsStateGoal search.old.store goal.now }
    requires rest { rest ≤ length search.old.frames.items }
    requires held { (n : Names) × TellsAtoms n × IsHeldAt n search.old.store goal.now.place }
    ensures whole { OnOk result (IsWhole search.new) }
    ensures after { IfOk result (IsAfter search.old search.new) }
    ensures led { IfOk result (λ o. (n : Names) → TellsAtoms n → IsHeldAt n search.old.store goal.now.place
        → IsRowLed n search.old goal.now rest (one_answer (arguments_of (reads n search.old.store goal.now.place))) search.new o) }
{
    let next = search.next_variable;
    let row = succeeded(&mut search.store, goal, next)?;
    let outcome = follow_row(search, goal.place, row, rest)?;
    Ok(outcome)
}

/// How many arguments the goal has.
fn arguments_taken(goal: &StateGoal) -> u32
    ensures { result ≡ arity_of goal.now.pred }
{
    match goal.pred {
        StatePred::One(_) => 1,
        StatePred::Two(_) => 2,
        StatePred::Three(_) => 3,
    }
}
