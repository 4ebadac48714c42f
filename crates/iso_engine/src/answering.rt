//! After a solution.
ghost use Rattle.std.specs.Prelude.{◌≡◌, ℕ};
ghost use Rattle.pl_model.specs.Resolution.{goes, solution_count};
ghost use Rattle.pl_model.specs.Control.{step};
ghost use Rattle.iso_search.specs.declared.search.Search.{Search};
ghost use Rattle.iso_search.specs.Outcomes.{Setting, limits_in};
ghost use Rattle.iso_engine.specs.declared.doing.Doing.{Doing};
ghost use Rattle.iso_engine.specs.declared.doing.Doing.TheVariants.{Answering};
ghost use Rattle.iso_engine.specs.Standing.{state_at};

use crate::doing::{Doing, End};

/// What follows a solution: the search goes on until it has given the solutions that are wanted.
pub fn after_solution(solution_limit: u64, solutions_found: u64) -> Doing
    ensures { (t : Setting) (e : Search) → t.solutions ≡ solution_limit → solution_count t.output ≡ solutions_found
        → step (limits_in t e) (state_at t.view e Answering t.output) ≡ goes (state_at t.view e result t.output) }
{
    if solution_limit <= solutions_found {
        Doing::Ended(End::Solved)
    } else {
        Doing::Failing
    }
}
