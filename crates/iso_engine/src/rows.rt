//! Built-in predicates that are functions of their arguments, as steps of a search.
ghost use Rattle.std.specs.Prelude.{◌≡◌, ◌≤◌, ◌++◌, false, length, IfOk};
ghost use Rattle.term_store.specs.Contents.{term_at};
ghost use Rattle.world_api.specs.Gains.{Gains};
ghost use Rattle.world_api.specs.Texts.{Holds};
ghost use Rattle.world_builtins.specs.Naming.{IsHeldAt};
ghost use Rattle.iso_search.specs.Searching.{IsWhole};
ghost use Rattle.iso_search.specs.Spelling.{spelled, text_of};
ghost use Rattle.iso_engine.specs.Rows.{IsGivenText, IsRowAt, LeadsTo, refusal_of};
ghost use Rattle.iso_engine.specs.Unserved.{OnRefusal, UnlessMemory, refusals_in};

pub mod arguments;
pub mod following;
pub mod lines;
pub mod told;

use crate::builtin::RowGoal;
use crate::dispatch::row_of;
use crate::rows::following::follow_row;
use atom_api::Atoms;
use builtin_rows::Row;
use iso_search::outcome::{Fault, Outcome};
use iso_search::search::Search;
use std::alloc::Global;
use world_api::Unserved;

/// Runs the goal, before the tasks of a list: makes an inference, and unifies the arguments with what the predicate gives for
/// them. Where an atom was refused, the inference is taken back too.
pub fn run_row<A: Atoms>(
    alloc: Global,
    search: &mut Search,
    goal: &RowGoal,
    rest: usize,
    atoms: &mut A,
) -> Result<Outcome, Unserved>
    requires whole { IsWhole search.old }
    requires goal { IsRowAt search.old.store goal.now }
    requires held { IsHeldAt (A.held atoms.old) search.old.store goal.now.place }
    requires rest { rest ≤ length search.old.frames.items }
    ensures tried { IfOk result (LeadsTo (A.held atoms.new) search.old goal.now rest search.new) }
    ensures taken_back { OnRefusal result (search.new ≡ search.old) }
    ensures holds { Holds (A.held atoms.old) (A.held atoms.new) }
    ensures refusals { UnlessMemory result (A.refusals atoms.new ≡ A.refusals atoms.old ++ refusals_in result) }
    ensures asked { Gains (IsGivenText (spelled (text_of (A.held atoms.old)) (term_at search.old.store goal.now.place)) search.old.next_variable search.old.store.used search.old.store.budget)
        (A.asked atoms.old) (A.asked atoms.new) }
{
    let before = search.inferences;
    if !search.infer() {
        return Ok(Outcome::Raise(Fault::Inferences));
    }
    let next = search.next_variable;
    let store = &mut search.store;
    let row = row_of(alloc, store, goal.pred, goal.arguments, next, atoms)?;
    match refusal(&row) {
        None => {
            let outcome = follow_row(search, goal.place, row, rest)?;
            Ok(outcome)
        }
        Some(unserved) => {
            search.inferences = before;
            Err(unserved)
        }
    }
}

/// Why the goal is to be tried again, if an atom of the row was refused.
pub fn refusal(row: &Row) -> Option<Unserved>
    ensures { result ≡ refusal_of row.now }
{
    match row {
        Row::NeedsAtoms(pass) => Some(Unserved::NeedsAtoms(*pass)),
        Row::Retry(cause) => Some(Unserved::Retry(*cause)),
        Row::Worn(word) => Some(Unserved::Worn(*word)),
        _ => None,
    }
}
