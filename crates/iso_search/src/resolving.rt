//! Clauses that are tried for a goal (ISO 7.7.10).
ghost use Rattle.std.specs.Prelude.{◌≡◌, ◌≤◌, ◌+◌, ℕ, length, IfOk, OnOk};
ghost use Rattle.pl_term.specs.Variables.{variables};
ghost use Rattle.pl_model.specs.History.{Proc};
ghost use Rattle.pl_model.specs.Resolution.{resolving};
ghost use Rattle.pl_model.specs.Control.{clause_unified};
ghost use Rattle.pl_model.specs.Terms.{raised_by};
ghost use Rattle.pl_model.specs.Unify.{unify};
ghost use Rattle.term_store.specs.ArgumentKeys.{head_in};
ghost use Rattle.term_store.specs.Contents.{Holds, IsAbove};
ghost use Rattle.term_store.specs.Entering.{body_in};
ghost use Rattle.iso_search.specs.Outcomes.{IsAfter, Setting, result_in, state_in};
ghost use Rattle.iso_search.specs.Reading.{IsView, reads};
ghost use Rattle.iso_search.specs.Searching.{IsWhole, node_of};
ghost use Rattle.iso_search.specs.Spelling.{spelled, text_of};

use crate::frames::Task;
use crate::outcome::Outcome;
use crate::search::Search;
use pl_term::Memory;
use term_store::{Place, Stored};

impl Search {
    /// Unifies the head of a clause, whose numbers from `from` on were taken, with the goal at a place, and puts the clause's body
    /// before the tasks of the list; a cut in it goes back to the height. The only error is out of memory.
    #[inline(always)]
    pub fn resolve(
        &mut self,
        goal: Place,
        clause: &Stored,
        from: u64,
        height: usize,
        rest: usize,
    ) -> Result<Outcome, Memory>
        requires whole { IsWhole self.old }
        requires goal { Holds self.old.store goal }
        requires rest { rest ≤ length self.old.frames.items }
        requires above { IsAbove from self.old.store }
        requires taken { from + length (variables clause.now) ≤ self.old.next_variable }
        ensures whole { OnOk result (IsWhole self.new) }
        ensures step { IfOk result (λ o. (t : Setting) (p : Proc) (place : ℕ) → IsView t.view
            → let g = spelled (text_of t.view.names) in let n = node_of t.view self.old rest in
            result_in t self.new n p o
            ≡ clause_unified resolving (state_in t self.old) n height place (g (raised_by from (body_in clause.now)))
            (unify (reads t.view self.old.store goal) (g (raised_by from (head_in clause.now))))) }
        ensures after { IfOk result (IsAfter self.old self.new) }
    {
        let _next = self.next_variable;
        match self.store.enter(goal, clause, from)? {
            Some(body) => {
                let list = self.push_over(Task::Goal(body, height), rest)?;
                Ok(Outcome::Run(list))
            }
            None => Ok(Outcome::Fail),
        }
    }
}
