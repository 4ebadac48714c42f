//! A step of a ball that was thrown (ISO 7.8.10).
ghost use Rattle.std.specs.Prelude.{◌≡◌, ◌≤◌, length, IfOk, OnOk};
ghost use Rattle.pl_model.specs.Control.{at_catch, fitting, thrown};
ghost use Rattle.term_store.specs.Contents.{Holds};
ghost use Rattle.iso_search.specs.Outcomes.{Setting, limits_in, state_in};
ghost use Rattle.iso_search.specs.Reading.{IsView, reads};
ghost use Rattle.iso_search.specs.Searching.{IsWhole, node_of};
ghost use Rattle.iso_search.specs.Spelling.{spelled, text_of};
ghost use Rattle.iso_search.specs.Thrown.{thrown_state};

use crate::balls::Ball;
use crate::recovering::Recovery;
use crate::search::Search;
use crate::throwing::CatchPoint;
use atom_api::fixed;
use pl_term::Memory;
use std::alloc::Global;

/// What comes of a ball that was thrown.
#[derive(Drop)]
pub enum Thrown {
    /// It was caught: these tasks are to be done, the recovery goal first.
    Run(usize),
    /// This ball is to be caught further outwards: by the exits among the tasks of the list.
    Throw(Ball, usize),
    /// Nothing catches it.
    Uncaught(Ball),
}

impl Search {
    /// Brings a ball to the innermost active catch, whose exit stands among the tasks of a list. The only error is out of
    /// memory.
    pub fn throw_ball(&mut self, alloc: Global, ball: Ball, outer: usize) -> Result<Thrown, Memory>
        requires { IsWhole self.old }
        ensures whole { OnOk result (IsWhole self.new) }
        ensures budgets { OnOk result (self.new.budgets ≡ self.old.budgets) }
        ensures step { IfOk result (λ o. (t : Setting) → IsView t.view
            → thrown_state t self.new o
            ≡ thrown (limits_in t self.old) (state_in t self.old) (spelled (text_of t.view.names) ball) (node_of t.view self.old outer).goals) }
    {
        let Some(exit) = self.first_exit(outer) else {
            return Ok(Thrown::Uncaught(ball));
        };
        let Some(point) = self.back_to_catch(exit.height) else {
            return Ok(Thrown::Throw(ball, exit.rest));
        };
        let thrown = self.meet_catch(alloc, ball, point)?;
        Ok(thrown)
    }

    /// Brings a ball to the catch that was gone back to. The only error is out of memory.
    fn meet_catch(&mut self, alloc: Global, ball: Ball, point: CatchPoint) -> Result<Thrown, Memory>
        requires whole { IsWhole self.old }
        requires catcher { Holds self.old.store point.catcher }
        requires recovery { Holds self.old.store point.recovery }
        requires next { point.next ≤ length self.old.frames.items }
        ensures whole { OnOk result (IsWhole self.new) }
        ensures budgets { OnOk result (self.new.budgets ≡ self.old.budgets) }
        ensures step { IfOk result (λ o. (t : Setting) → IsView t.view
            → let r = reads t.view self.old.store in let n = node_of t.view self.old point.next in let s = state_in t self.old in
            thrown_state t self.new o
            ≡ at_catch s n (r point.catcher) (r point.recovery) (fitting (limits_in t self.old) s n (spelled (text_of t.view.names) ball))) }
    {
        let next = point.next;
        let recovery = self.recover(alloc, ball, point)?;
        match recovery {
            Recovery::Run(list) => Ok(Thrown::Run(list)),
            Recovery::Refused(fault) => {
                let error = Ball::error(alloc, &self.store, fault, fixed::CATCH, 3)?;
                Ok(Thrown::Throw(error, next))
            }
            Recovery::Throw(again) => Ok(Thrown::Throw(again, next)),
        }
    }
}
