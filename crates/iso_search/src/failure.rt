//! Failure (ISO 7.7.8).
ghost use Rattle.std.specs.Prelude.{◌≡◌, ◌≤◌, length};
ghost use Rattle.pl_model.specs.Resolution.{failing};
ghost use Rattle.pl_model.specs.Control.{gone_back};
ghost use Rattle.iso_search.specs.Failures.{IsBackIn, IsTaken, back_result};
ghost use Rattle.iso_search.specs.Outcomes.{Setting, limits_in, state_in};
ghost use Rattle.iso_search.specs.Searching.{IsWhole, choices_of};

use crate::choices::{Alternative, ChoicePoint, Purpose};
use crate::copies::Collection;
use crate::search::Search;
use crate::told::Line;
use term_store::Place;

/// What is left to do after a failure.
#[derive(Drop)]
pub enum Back {
    /// There is no choice point: there is no further solution.
    Exhausted,
    /// These tasks are to be done.
    Run(usize),
    /// The next choice point is to be gone back to.
    Fail,
    /// The clauses for the goal after the place are to be tried, those of the generation, before the tasks of the list.
    Retry {
        purpose: Purpose,
        goal: Place,
        generation: u64,
        place: u64,
        next: usize,
    },
    /// The answers of the built-in predicate that the goal calls are to be tried, from a line of its table on, before the
    /// tasks of the list.
    Answers {
        goal: Place,
        line: usize,
        next: usize,
    },
    /// The lines that were told for the goal are to be tried, from one on, before the tasks of the list.
    Told {
        goal: Place,
        lines: Vec<Line>,
        line: usize,
        next: usize,
    },
    /// The goal of a `findall/3` has no further solution: the list of these copies is to be unified with its third argument,
    /// before the tasks of the list.
    Found {
        list: Place,
        found: Collection,
        next: usize,
    },
}

impl Search {
    /// Goes back to the newest choice point, and takes what was not tried there.
    pub fn resume(&mut self) -> Back
        requires { IsWhole self.old }
        ensures whole { IsWhole self.new }
        ensures inside { IsBackIn self.new result }
        ensures taken { IsTaken self.old self.new result }
        ensures kept { self.new ≡ record self.old {
          store = self.new.store;
          frames = self.new.frames;
          choices = self.new.choices;
        } }
        ensures step { (t : Setting) → t.doing ≡ failing
            → back_result t self.new result ≡ gone_back (limits_in t self.old) (state_in t self.old) (choices_of t.view self.old) }
    {
        let Some(k) = self.backtrack() else {
            return Back::Exhausted;
        };
        let ChoicePoint {
            alternative,
            next,
            ..
        } = k;
        match alternative {
            Alternative::Clauses {
                purpose,
                goal,
                generation,
                place,
            } => Back::Retry {
                purpose,
                goal,
                generation,
                place,
                next,
            },
            Alternative::Answers { goal, line } => Back::Answers { goal, line, next },
            Alternative::Told { goal, lines, line } => Back::Told {
                goal,
                lines,
                line,
                next,
            },
            Alternative::Branch => Back::Run(next),
            Alternative::Barrier => Back::Fail,
            Alternative::Catch { .. } => Back::Fail,
            Alternative::Findall { list, found } => Back::Found { list, found, next },
        }
    }
}
