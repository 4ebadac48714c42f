//! Choice points with clauses that were not tried.
ghost use Rattle.std.specs.Prelude.{◌≡◌, reverse, IfNone, IfSome};
ghost use Rattle.pl_model.specs.Resolution.{failing};
ghost use Rattle.pl_model.specs.Control.{gone_back};
ghost use Rattle.iso_search.specs.Failures.{IsBackIn, IsTaken, back_result};
ghost use Rattle.iso_search.specs.Outcomes.{Setting, limits_in, state_in};
ghost use Rattle.iso_search.specs.Searching.{IsWhole, choices_of};
ghost use Rattle.iso_engine.specs.Newest.{are_clauses_newest, retry_of};

use iso_search::choices::{Alternative, ChoicePoint, Purpose};
use iso_search::search::Search;
use term_store::Place;

/// Clauses that were not tried: those for the goal after the place, of the generation, before the tasks of the list.
#[derive(Clone, Copy, Debug, Drop)]
pub struct Untried {
    pub purpose: Purpose,
    pub goal: Place,
    pub generation: u64,
    pub place: u64,
    pub next: usize,
}

/// Whether the newest choice point has clauses that were not tried.
#[inline(always)]
fn has_clauses(choices: &[ChoicePoint]) -> bool
    ensures { result ≡ are_clauses_newest (reverse choices.now) }
{
    let n = choices.len();
    if n == 0 {
        return false;
    }
    match &choices[n - 1].alternative {
        Alternative::Clauses { .. } => true,
        _ => false,
    }
}

/// Goes back to the newest choice point where clauses were not tried there, and takes them (ISO 7.7.8); else nothing is done. No
/// other alternative is moved for it.
#[inline(always)]
pub fn resume_clauses(search: &mut Search) -> Option<Untried>
    requires { IsWhole search.old }
    ensures whole { IsWhole search.new }
    ensures none { IfNone result (search.new ≡ search.old) }
    ensures inside { IfSome result (λ u. IsBackIn search.new (retry_of u)) }
    ensures taken { IfSome result (λ u. IsTaken search.old search.new (retry_of u)) }
    ensures kept { search.new ≡ record search.old {
      store = search.new.store;
      frames = search.new.frames;
      choices = search.new.choices;
    } }
    ensures step { IfSome result (λ u. (t : Setting) → t.doing ≡ failing
        → back_result t search.new (retry_of u) ≡ gone_back (limits_in t search.old) (state_in t search.old) (choices_of t.view search.old)) }
{
    if !has_clauses(&search.choices) {
        return None;
    }
    let Some(k) = search.backtrack() else {
        unreachable!();
    };
    match k.alternative {
        Alternative::Clauses {
            purpose,
            goal,
            generation,
            place,
        } => Some(Untried {
            purpose,
            goal,
            generation,
            place,
            next: k.next,
        }),
        _ => unreachable!(),
    }
}
