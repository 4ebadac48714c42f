//! What a row leads to.
ghost use Rattle.std.specs.Prelude.{◌≡◌, ◌≤◌, [], length, IfOk, OnOk};
ghost use Rattle.pl_model.specs.Control.{with_row};
ghost use Rattle.pl_model.specs.Terms.{arguments};
ghost use Rattle.world_api.specs.Texts.{Holds};
ghost use Rattle.iso_search.specs.Outcomes.{IsAfter, Setting, limits_in, result_in, state_in};
ghost use Rattle.iso_search.specs.Reading.{IsView, reads};
ghost use Rattle.iso_search.specs.Searching.{IsWhole, node_of};
ghost use Rattle.builtin_rows.specs.declared.row.Row.TheVariants.{Answer};
ghost use Rattle.builtin_rows.specs.Rows.{row_refusals};
ghost use Rattle.iso_engine.specs.Leading.{IsRowMade, Origin, as_before};

use crate::rows::arguments::unify_answer;
use crate::rows::lines::first_line;
use builtin_rows::{Places, Row};
use iso_search::outcome::{Fault, Outcome};
use iso_search::search::Search;
use pl_term::Memory;
use term_store::Place;

/// Goes on with what the built-in predicate of the goal at a place gave: with its answer the tasks of the list are next, or
/// the goal fails, or a ball is thrown. The goal's inference was made, and only the store has changed since. The only error
/// is out of memory.
pub fn follow_row(
    search: &mut Search,
    goal: Place,
    row: Row,
    rest: usize,
) -> Result<Outcome, Memory>
    requires made { (x : Origin) × IsRowMade x goal search.old row }
    requires served { row_refusals row ≡ [] }
    requires rest { rest ≤ length search.old.frames.items }
    ensures whole { OnOk result (IsWhole search.new) }
    ensures after { IfOk result (λ o. (x : Origin) → IsRowMade x goal search.old row → IsAfter (as_before x search.old) search.new o) }
    ensures step { IfOk result (λ o. (x : Origin) (t : Setting) → IsRowMade x goal search.old row → IsView t.view → Holds x.after t.view.names
        → let e = as_before x search.old in let n = node_of t.view e rest in
        result_in t search.new n x.predicate o ≡ with_row (limits_in t e) (state_in t e) n x.predicate (arguments (reads t.view e.store goal)) x.row) }
{
    let _next = search.next_variable;
    match row {
        Row::Fails => Ok(Outcome::Fail),
        Row::Holds => Ok(Outcome::Run(rest)),
        Row::Answer { places, fresh } => give(search, goal, places, fresh, rest),
        Row::Line { places, following } => first_line(search, goal, places, following, rest),
        Row::Ball(ball) => Ok(Outcome::Throw(ball)),
        Row::CellsFull { .. } => Ok(Outcome::Raise(Fault::Cells)),
        _ => unreachable!(),
    }
}

/// Goes on with an answer with so many new variables: the arguments of the goal at a place are unified with these places. The
/// only error is out of memory.
fn give(
    search: &mut Search,
    goal: Place,
    places: Places,
    fresh: u64,
    rest: usize,
) -> Result<Outcome, Memory>
    requires made { (x : Origin) × IsRowMade x goal search.old (Answer places fresh) }
    ensures whole { OnOk result (IsWhole search.new) }
    ensures after { IfOk result (λ o. (x : Origin) → IsRowMade x goal search.old (Answer places fresh) → IsAfter (as_before x search.old) search.new o) }
    ensures step { IfOk result (λ o. (x : Origin) (t : Setting) → IsRowMade x goal search.old (Answer places fresh) → IsView t.view → Holds x.after t.view.names
        → let e = as_before x search.old in let n = node_of t.view e rest in
        result_in t search.new n x.predicate o ≡ with_row (limits_in t e) (state_in t e) n x.predicate (arguments (reads t.view e.store goal)) x.row) }
{
    search.next_variable += fresh;
    let same = unify_answer(&mut search.store, goal, places)?;
    if same {
        Ok(Outcome::Run(rest))
    } else {
        Ok(Outcome::Fail)
    }
}
