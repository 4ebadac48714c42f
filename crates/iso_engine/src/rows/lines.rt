//! Lines of the tables of built-in predicates, of which each one that unifies with the arguments is an answer.
ghost use Rattle.std.specs.Prelude.{◌≡◌, ◌≤◌, ◌&&◌, [], is_some, length, nat_le, map, IfOk, OnOk};
ghost use Rattle.std.specs.List.{All};
ghost use Rattle.pl_term.specs.Tree.{trees};
ghost use Rattle.pl_model.specs.BuiltinRows.{plain_answer};
ghost use Rattle.pl_model.specs.Control.{answer_tried, unified, with_row};
ghost use Rattle.pl_model.specs.History.{Proc};
ghost use Rattle.pl_model.specs.Terms.{arguments};
ghost use Rattle.pl_model.specs.Unify.{solve_all};
ghost use Rattle.term_store.specs.Contents.{Holds as HoldsPlace};
ghost use Rattle.world_api.specs.Texts.{Holds};
ghost use Rattle.iso_search.specs.Outcomes.{IsAfter, Setting, limits_in, result_in, state_in};
ghost use Rattle.iso_search.specs.Reading.{IsView, reads};
ghost use Rattle.iso_search.specs.Searching.{IsWhole, node_of};
ghost use Rattle.builtin_rows.specs.declared.row.Row.TheVariants.{Line};
ghost use Rattle.builtin_rows.specs.Rows.{row_refusals};
ghost use Rattle.iso_engine.specs.Leading.{IsRowMade, Origin, as_before};
ghost use Rattle.iso_engine.specs.TableLines.{IsGoneBack, IsNextMade, LineOrigin, search_before};

use crate::rows::arguments::unify_arguments;
use builtin_rows::Row;
use iso_search::choices::Alternative;
use iso_search::outcome::{Fault, Outcome};
use iso_search::search::Search;
use pl_term::Memory;
use term_store::Place;

/// Goes on with what a table gives from one of its lines on for the goal at a place, whose choice point was taken off: with an
/// answer the tasks of the list are next, or the goal fails. Only the store has changed since. The only error is out of memory.
pub fn follow_next(
    search: &mut Search,
    goal: Place,
    row: Row,
    rest: usize,
) -> Result<Outcome, Memory>
    requires made { (x : LineOrigin) × IsNextMade x goal search.old row }
    requires served { row_refusals row ≡ [] }
    requires rest { rest ≤ length search.old.frames.items }
    ensures whole { OnOk result (IsWhole search.new) }
    ensures after { IfOk result (λ o. (x : LineOrigin) → IsNextMade x goal search.old row → IsAfter (search_before x search.old) search.new o) }
    ensures step { IfOk result (λ o. (x : LineOrigin) → IsNextMade x goal search.old row → IsGoneBack x goal rest search.old search.new o) }
{
    match row {
        Row::Fails => Ok(Outcome::Fail),
        Row::Line { places, following } => next_line(search, goal, places, following, rest),
        _ => unreachable!(),
    }
}

/// Goes on with the first answer of a table for the goal at a place, unless it leaves one choice point too many. The only error is
/// out of memory.
pub fn first_line(
    search: &mut Search,
    goal: Place,
    places: Vec<Place>,
    following: Option<usize>,
    rest: usize,
) -> Result<Outcome, Memory>
    requires made { (x : Origin) × IsRowMade x goal search.old (Line places following) }
    requires rest { rest ≤ length search.old.frames.items }
    ensures whole { OnOk result (IsWhole search.new) }
    ensures after { IfOk result (λ o. (x : Origin) → IsRowMade x goal search.old (Line places following) → IsAfter (as_before x search.old) search.new o) }
    ensures step { IfOk result (λ o. (x : Origin) (t : Setting) → IsRowMade x goal search.old (Line places following) → IsView t.view → Holds x.after t.view.names
        → let e = as_before x search.old in let n = node_of t.view e rest in
        result_in t search.new n x.predicate o ≡ with_row (limits_in t e) (state_in t e) n x.predicate (arguments (reads t.view e.store goal)) x.row) }
{
    let _next = search.next_variable;
    if is_full(search, following) {
        return Ok(Outcome::Raise(Fault::Choices));
    }
    let outcome = next_line(search, goal, places, following, rest)?;
    Ok(outcome)
}

/// Whether another answer follows, and there is no place for a choice point.
fn is_full(search: &Search, following: Option<usize>) -> bool
    ensures { result ≡ (is_some following && nat_le search.now.budgets.choices (length search.now.choices.items)) }
{
    following.is_some() && search.choices.len() as u64 >= search.budgets.choices
}

/// Goes on with an answer of a table for the goal at a place: leaves a choice point where another one follows, and unifies the
/// arguments with these places. The only error is out of memory.
fn next_line(
    search: &mut Search,
    goal: Place,
    places: Vec<Place>,
    following: Option<usize>,
    rest: usize,
) -> Result<Outcome, Memory>
    requires made { (x : LineOrigin) × IsNextMade x goal search.old (Line places following) }
    requires rest { rest ≤ length search.old.frames.items }
    ensures whole { OnOk result (IsWhole search.new) }
    ensures after { IfOk result (λ o. (x : LineOrigin) → IsNextMade x goal search.old (Line places following) → IsAfter (search_before x search.old) search.new o) }
    ensures step { IfOk result (λ o. (x : LineOrigin) → IsNextMade x goal search.old (Line places following)
        → IsGoneBack x goal rest search.old search.new o) }
{
    match following {
        None => {
            let outcome = try_places(search, goal, &places, rest)?;
            Ok(outcome)
        }
        Some(line) => {
            search.push_choice(Alternative::Answers { goal, line }, rest)?;
            let outcome = try_places(search, goal, &places, rest)?;
            Ok(outcome)
        }
    }
}

/// Unifies the arguments of the goal at a place with these places, where the cells that are used are within the budget. The only
/// error is out of memory.
fn try_places(
    search: &mut Search,
    goal: Place,
    places: &[Place],
    rest: usize,
) -> Result<Outcome, Memory>
    requires whole { IsWhole search.old }
    requires goal { HoldsPlace search.old.store goal }
    requires places { All (HoldsPlace search.old.store) places.now }
    ensures whole { OnOk result (IsWhole search.new) }
    ensures after { IfOk result (IsAfter search.old search.new) }
    ensures step { IfOk result (λ o. (t : Setting) (p : Proc) → IsView t.view
        → let e = search.old in let r = reads t.view e.store in let n = node_of t.view e rest in
        result_in t search.new n p o
        ≡ answer_tried (limits_in t e) (state_in t e) n p (arguments (r goal)) (plain_answer (trees (map r places.now)))) }
{
    match search.take(0, 0) {
        Some(fault) => Ok(Outcome::Raise(fault)),
        None => {
            let outcome = unify_places(search, goal, places, rest)?;
            Ok(outcome)
        }
    }
}

/// Unifies the arguments of the goal at a place with these places: the tasks of the list are next, or the goal fails. The only
/// error is out of memory.
fn unify_places(
    search: &mut Search,
    goal: Place,
    places: &[Place],
    rest: usize,
) -> Result<Outcome, Memory>
    requires whole { IsWhole search.old }
    requires goal { HoldsPlace search.old.store goal }
    requires places { All (HoldsPlace search.old.store) places.now }
    ensures whole { OnOk result (IsWhole search.new) }
    ensures after { IfOk result (IsAfter search.old search.new) }
    ensures step { IfOk result (λ o. (t : Setting) (p : Proc) → IsView t.view
        → let e = search.old in let r = reads t.view e.store in let n = node_of t.view e rest in
        result_in t search.new n p o ≡ unified (state_in t e) n (solve_all [] (arguments (r goal)) (trees (map r places.now)))) }
{
    let same = unify_arguments(&mut search.store, goal, places)?;
    if same {
        Ok(Outcome::Run(rest))
    } else {
        Ok(Outcome::Fail)
    }
}
