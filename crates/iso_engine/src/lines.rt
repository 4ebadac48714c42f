//! Going back to lines of a table that were not tried.
ghost use Rattle.std.specs.Prelude.{◌≡◌, ◌≤◌, ◌++◌, length, IfOk, OnOk};
ghost use Rattle.term_store.specs.Contents.{Holds as HoldsPlace};
ghost use Rattle.world_api.specs.Gains.{Gains};
ghost use Rattle.world_api.specs.Texts.{Holds};
ghost use Rattle.world_api.specs.Told.{Told};
ghost use Rattle.world_builtins.specs.Naming.{IsHeldAt};
ghost use Rattle.iso_search.specs.declared.failure.Back.TheVariants.{Answers};
ghost use Rattle.iso_search.specs.Searching.{IsWhole};
ghost use Rattle.iso_engine.specs.Builtins.{IsRowGoal};
ghost use Rattle.iso_engine.specs.Lines.{IsLineAsked, IsLineThere, LineLeadsTo};
ghost use Rattle.iso_engine.specs.Retrying.{IsGoneOn};
ghost use Rattle.iso_engine.specs.Unserved.{OnRefusal, UnlessMemory, as_stopped, refusals_in, stopped_refusals};

use crate::builtin::{RowGoal, row_goal_at};
use crate::dispatch::lines::line_of;
use crate::doing::Doing;
use crate::engine::Engine;
use crate::following::follow;
use crate::rows::lines::follow_next;
use crate::rows::refusal;
use crate::slices::Slice;
use atom_api::Atoms;
use iso_search::choices::Alternative;
use iso_search::outcome::Outcome;
use iso_search::search::Search;
use std::alloc::Global;
use term_store::Place;
use world_api::Unserved;

/// Goes on with the table of the goal from one of its lines on, before the tasks of a list: unifies the arguments with the first
/// line that unifies. Where an atom is refused the choice point is there again.
pub fn run_line<A: Atoms>(
    alloc: Global,
    search: &mut Search,
    goal: &RowGoal,
    line: usize,
    rest: usize,
    atoms: &mut A,
) -> Result<Outcome, Unserved>
    requires whole { IsWhole search.old }
    requires goal { IsRowGoal search.old.store goal.now }
    requires held { IsHeldAt (A.held atoms.old) search.old.store goal.now.place }
    requires rest { rest ≤ length search.old.frames.items }
    ensures whole { UnlessMemory result (IsWhole search.new) }
    ensures tried { IfOk result (LineLeadsTo (A.held atoms.new) search.old goal.now line rest search.new) }
    ensures put_back { OnRefusal result (IsLineThere search.old goal.now line rest search.new) }
    ensures holds { Holds (A.held atoms.old) (A.held atoms.new) }
    ensures refusals { UnlessMemory result (A.refusals atoms.new ≡ A.refusals atoms.old ++ refusals_in result) }
    ensures asked { Gains (IsLineAsked (A.held atoms.old) search.old.store goal.now.place line) (A.asked atoms.old) (A.asked atoms.new) }
{
    let store = &mut search.store;
    let row = line_of(alloc, store, goal.pred, goal.arguments, line, atoms)?;
    match refusal(&row) {
        None => {
            let outcome = follow_next(search, goal.place, row, rest)?;
            Ok(outcome)
        }
        Some(unserved) => {
            let left = Alternative::Answers {
                goal: goal.place,
                line,
            };
            search.push_choice(left, rest)?;
            Err(unserved)
        }
    }
}

impl Engine {
    /// Goes on with the answers of the built-in predicate of the goal at a place that were not tried, from a line of its table on,
    /// whose choice point was taken off (ISO 7.7.8).
    pub fn retry_line<A: Atoms>(
        &mut self,
        goal: Place,
        line: usize,
        next: usize,
        atoms: &mut A,
    ) -> Result<Option<Slice>, Unserved>
        requires whole { IsWhole self.old.search }
        requires goal { HoldsPlace self.old.search.store goal }
        requires next { next ≤ length self.old.search.frames.items }
        requires held { IsHeldAt (A.held atoms.old) self.old.search.store goal }
        ensures whole { OnOk (as_stopped result) (IsWhole self.new.search) }
        ensures holds { Holds (A.held atoms.old) (A.held atoms.new) }
        ensures refusals { IfOk (as_stopped result) (λ o. A.refusals atoms.new ≡ A.refusals atoms.old ++ stopped_refusals o) }
        ensures asked { Gains (IsLineAsked (A.held atoms.old) self.old.search.store goal line) (A.asked atoms.old) (A.asked atoms.new) }
        ensures gone { IfOk (as_stopped result) (λ o. (t : Told) → IsGoneOn t self.old (Answers goal line next) (A.held atoms.new) t self.new o) }
    {
        let Some(row_goal) = row_goal_at(&self.search.store, goal) else {
            self.doing = Doing::Failing;
            return Ok(None);
        };
        let outcome = run_line(self.alloc, &mut self.search, &row_goal, line, next, atoms)?;
        let procedure = row_goal.procedure();
        self.doing = follow(self.alloc, &self.search, outcome, procedure, next)?;
        Ok(None)
    }
}
