//! What is done with a ball at a catch (ISO 7.8.9, 7.8.10).
ghost use Rattle.std.specs.Prelude.{◌≡◌, ◌≤◌, ◌+◌, ◌<◌, ◌^◌, zero, length, IfOk, IsTrue, OnOk};
ghost use Rattle.pl_term.specs.Cells.{cells};
ghost use Rattle.pl_term.specs.Variables.{rename, variables};
ghost use Rattle.pl_model.specs.Control.{at_catch, fitting};
ghost use Rattle.term_store.specs.Contents.{Adds, Builds, Holds, IsAbove, Unified};
ghost use Rattle.iso_search.specs.Outcomes.{Setting, limits_in, state_in};
ghost use Rattle.iso_search.specs.Reading.{IsView, reads};
ghost use Rattle.iso_search.specs.Recovering.{IsBallTaking, IsRecoveryIn, ball_result, recovery_result};
ghost use Rattle.iso_search.specs.Searching.{IsWhole, node_of};
ghost use Rattle.iso_search.specs.Spelling.{spelled, text_of};

use crate::balls::Ball;
use crate::calls::Checked;
use crate::frames::Task;
use crate::outcome::Fault;
use crate::search::Search;
use crate::throwing::CatchPoint;
use atom_api::fixed;
use pl_term::Memory;
use std::alloc::Global;
use term_store::{Place, Stored};

/// The greatest number whose double is below 2^64.
pub const MOST_DOUBLED: u64 = 9_223_372_036_854_775_807;

/// Whether a ball fits at a catch.
#[derive(Drop)]
pub enum BallTaking {
    /// The numbers and cells of a copy were taken: the ball as it is kept.
    Taken(Stored),
    /// This budget has no room for a copy.
    Refused(Fault),
}

/// What comes of a ball at a catch.
#[derive(Drop)]
pub enum Recovery {
    /// These tasks are to be done, the recovery goal first.
    Run(usize),
    /// The recovery goal is none: an error of `catch/3`.
    Refused(Fault),
    /// This ball is to be caught further outwards.
    Throw(Ball),
}

impl Search {
    /// Unifies a copy of a ball with the catcher of the catch that was gone back to, and calls its recovery goal. A ball that
    /// does not fit there becomes the error of the budget. The only error is out of memory.
    pub fn recover(
        &mut self,
        alloc: Global,
        ball: Ball,
        point: CatchPoint,
    ) -> Result<Recovery, Memory>
        requires whole { IsWhole self.old }
        requires catcher { Holds self.old.store point.catcher }
        requires recovery { Holds self.old.store point.recovery }
        requires next { point.next ≤ length self.old.frames.items }
        ensures whole { OnOk result (IsWhole self.new) }
        ensures inside { IfOk result (IsRecoveryIn self.new.store) }
        ensures budgets { OnOk result (self.new.budgets ≡ self.old.budgets) }
        ensures step { IfOk result (λ o. (t : Setting) → IsView t.view
            → let r = reads t.view self.old.store in let n = node_of t.view self.old point.next in let s = state_in t self.old in
            recovery_result t self.new point.next o
            ≡ at_catch s n (r point.catcher) (r point.recovery) (fitting (limits_in t self.old) s n (spelled (text_of t.view.names) ball))) }
    {
        let from = self.next_variable;
        let taking = self.take_ball(&ball)?;
        match taking {
            BallTaking::Taken(kept) => {
                let recovery = self.meet_catcher(alloc, ball, kept, from, point)?;
                Ok(recovery)
            }
            BallTaking::Refused(fault) => {
                let error = Ball::error(alloc, &self.store, fault, fixed::CATCH, 3)?;
                let kept = error.stored()?;
                let recovery = self.meet_catcher(alloc, error, kept, from, point)?;
                Ok(recovery)
            }
        }
    }

    /// Takes the numbers and the cells of a copy of a ball, where they are there. A ball with more cells than the whole budget is
    /// refused before it is copied. The only error is out of memory.
    fn take_ball(&mut self, ball: &Ball) -> Result<BallTaking, Memory>
        requires whole { IsWhole self.old }
        ensures whole { IsWhole self.new }
        ensures taken { IfOk result (IsBallTaking self.old ball.now self.new) }
    {
        if self.is_ball_too_large(ball) {
            return Ok(BallTaking::Refused(Fault::Cells));
        }
        let kept = ball.stored()?;
        match self.take(kept.variables(), kept.cells()) {
            None => Ok(BallTaking::Taken(kept)),
            Some(fault) => Ok(BallTaking::Refused(fault)),
        }
    }

    /// Whether a ball has more cells than the whole budget, where there are numbers for as many variables as it can have.
    fn is_ball_too_large(&self, ball: &Ball) -> bool
        requires { IsWhole self.now }
        ensures cells { IsTrue result → self.now.budgets.cells < cells ball.now }
        ensures numbers { IsTrue result → self.now.next_variable + length (variables ball.now) < 2 ^ 64 }
    {
        if self.next_variable > MOST_DOUBLED {
            return false;
        }
        if !ball.is_below(self.next_variable) {
            return false;
        }
        ball.is_larger(self.budgets.cells)
    }

    /// Builds a copy of a ball, whose numbers and cells were taken, and unifies it with the catcher.
    fn meet_catcher(
        &mut self,
        alloc: Global,
        ball: Ball,
        kept: Stored,
        from: u64,
        point: CatchPoint,
    ) -> Result<Recovery, Memory>
        requires whole { IsWhole self.old }
        requires above { IsAbove from self.old.store }
        requires taken { from + length (variables kept) ≤ self.old.next_variable }
        requires kept { kept ≡ rename zero ball }
        requires catcher { Holds self.old.store point.catcher }
        requires recovery { Holds self.old.store point.recovery }
        requires next { point.next ≤ length self.old.frames.items }
        ensures whole { OnOk result (IsWhole self.new) }
        ensures inside { IfOk result (IsRecoveryIn self.new.store) }
        ensures budgets { OnOk result (self.new.budgets ≡ self.old.budgets) }
        ensures step { IfOk result (λ o. (t : Setting) → IsView t.view
            → let r = reads t.view self.old.store in let n = node_of t.view self.old point.next in
            recovery_result t self.new point.next o
            ≡ ball_result (state_in t self.old) n (r point.catcher) (r point.recovery) from (spelled (text_of t.view.names) ball)) }
    {
        let place = self.build(kept, from)?;
        let same = self.bind_terms(place, point.catcher)?;
        if !same {
            return Ok(Recovery::Throw(ball));
        }
        let checked = self.check_body(alloc, point.recovery)?;
        match checked {
            Checked::Refused(fault) => Ok(Recovery::Refused(fault)),
            Checked::Goal(goal) => {
                let height = self.choices.len();
                let list = self.push(Task::Goal(goal, height), point.next)?;
                Ok(Recovery::Run(list))
            }
        }
    }

    /// Builds a term whose numbers and cells were taken.
    fn build(&mut self, term: Stored, from: u64) -> Result<Place, Memory>
        requires whole { IsWhole self.old }
        requires above { IsAbove from self.old.store }
        requires taken { from + length (variables term) ≤ self.old.next_variable }
        ensures whole { OnOk result (IsWhole self.new) }
        ensures built { IfOk result (Builds self.old.store from term self.new.store) }
        ensures adds { Adds self.old.store self.new.store }
        ensures kept { self.new ≡ record self.old { store = self.new.store } }
    {
        let _next = self.next_variable;
        let place = self.store.build(&term, from)?;
        Ok(place)
    }

    /// Unifies the terms at two places, and says whether bindings do so.
    fn bind_terms(&mut self, left: Place, right: Place) -> Result<bool, Memory>
        requires whole { IsWhole self.old }
        requires left { Holds self.old.store left }
        requires right { Holds self.old.store right }
        ensures whole { OnOk result (IsWhole self.new) }
        ensures unified { IfOk result (λ b. Unified b self.old.store left right self.new.store) }
        ensures adds { OnOk result (Adds self.old.store self.new.store) }
        ensures used { OnOk result (self.new.store.used ≡ self.old.store.used) }
        ensures kept { self.new ≡ record self.old { store = self.new.store } }
    {
        let same = self.store.unify(left, right)?;
        Ok(same)
    }
}
