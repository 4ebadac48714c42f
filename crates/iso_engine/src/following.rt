//! What follows an outcome.
ghost use Rattle.std.specs.Prelude.{◌≡◌, ℕ, IfOk, OnOk};
ghost use Rattle.pl_model.specs.Resolution.{Node};
ghost use Rattle.term_store.specs.Heap.{atom_name};
ghost use Rattle.iso_search.specs.Outcomes.{Setting, doing_by};
ghost use Rattle.iso_search.specs.Reading.{IsView};
ghost use Rattle.iso_search.specs.Searching.{IsWhole, node_of};
ghost use Rattle.iso_search.specs.Spelling.{text_of};
ghost use Rattle.iso_engine.specs.declared.doing.Doing.TheVariants.{Failing, Running};
ghost use Rattle.iso_engine.specs.Following.{IsPlaced};
ghost use Rattle.iso_engine.specs.Standing.{doing_of};
ghost use Rattle.iso_engine.specs.Throws.{Throws};

use crate::doing::{Doing, End};
use crate::engine::Engine;
use crate::refused::error_of;
use iso_search::balls::Ball;
use iso_search::outcome::Outcome;
use iso_search::search::Search;
use pl_term::Memory;
use std::alloc::Global;
use term_store::Stored;
use world_api::Procedure;

/// What is done after an outcome of this predicate, where the exits of the active catches stand among the tasks of a list.
/// The only error is out of memory.
#[inline(never)]
pub fn follow(
    alloc: Global,
    search: &Search,
    outcome: Outcome,
    procedure: Procedure,
    rest: usize,
) -> Result<Doing, Memory>
    requires { IsPlaced search.now.store outcome }
    ensures { IfOk result (λ d. (t : Setting) → IsView t.view → doing_of t.view search.now d
        ≡ doing_by t search.now (node_of t.view search.now rest) (record { name = text_of t.view.names (atom_name procedure.name); arity = procedure.arity }) outcome) }
{
    match outcome {
        Outcome::Run(list) => Ok(Doing::Running(list)),
        Outcome::Fail => Ok(Doing::Failing),
        Outcome::Raise(fault) => {
            let ball = Ball::error(alloc, &search.store, fault, procedure.name, procedure.arity)?;
            Ok(Doing::Throwing { ball, outer: rest })
        }
        Outcome::Throw(place) => {
            let ball = Ball::at(alloc, &search.store, place)?;
            Ok(Doing::Throwing { ball, outer: rest })
        }
        Outcome::Erase(place, list) => Ok(Doing::Erasing { place, list }),
        Outcome::Halt(status) => Ok(Doing::Ended(End::Halted(status))),
    }
}

impl Engine {
    /// Goes on after an outcome of this predicate, where the exits of the active catches stand among the tasks of a list. The only
    /// error is out of memory.
    #[inline(always)]
    pub fn go_on(
        &mut self,
        outcome: Outcome,
        procedure: Procedure,
        rest: usize,
    ) -> Result<(), Memory>
        requires { IsPlaced self.old.search.store outcome }
        ensures follows { OnOk result ((t : Setting) → IsView t.view → doing_of t.view self.old.search self.new.doing
            ≡ doing_by t self.old.search (node_of t.view self.old.search rest) (record { name = text_of t.view.names (atom_name procedure.name); arity = procedure.arity }) outcome) }
        ensures kept { OnOk result (self.new ≡ record self.old { doing = self.new.doing }) }
    {
        match outcome {
            Outcome::Run(list) => {
                self.run_next(list);
                Ok(())
            }
            Outcome::Fail => {
                self.fail_next();
                Ok(())
            }
            _ => self.go_on_apart(outcome, procedure, rest),
        }
    }

    /// Has the tasks of a list done next. Where tasks were done, or a failure was followed, there is nothing to be dropped.
    #[inline(always)]
    pub fn run_next(&mut self, list: usize)
        ensures { self.new ≡ record self.old { doing = Running list } }
    {
        if let Doing::Running(at) = &mut self.doing {
            *at = list;
            return;
        }
        if let Doing::Failing = &self.doing {
            self.doing = Doing::Running(list);
            return;
        }
        self.doing = Doing::Running(list);
    }

    /// Has a failure followed next. Where tasks were done there is nothing to be dropped.
    #[inline(always)]
    fn fail_next(&mut self)
        ensures { self.new ≡ record self.old { doing = Failing } }
    {
        if let Doing::Running(_) = &self.doing {
            self.doing = Doing::Failing;
            return;
        }
        self.doing = Doing::Failing;
    }

    /// Does the same. It is for the outcomes that are seldom.
    #[cold]
    #[inline(never)]
    pub fn go_on_apart(
        &mut self,
        outcome: Outcome,
        procedure: Procedure,
        rest: usize,
    ) -> Result<(), Memory>
        requires { IsPlaced self.old.search.store outcome }
        ensures follows { OnOk result ((t : Setting) → IsView t.view → doing_of t.view self.old.search self.new.doing
            ≡ doing_by t self.old.search (node_of t.view self.old.search rest) (record { name = text_of t.view.names (atom_name procedure.name); arity = procedure.arity }) outcome) }
        ensures kept { OnOk result (self.new ≡ record self.old { doing = self.new.doing }) }
    {
        self.doing = follow(self.alloc, &self.search, outcome, procedure, rest)?;
        Ok(())
    }

    /// Throws the error term of this predicate, where the exits of the active catches stand among the tasks of a list. The only
    /// error is out of memory.
    #[inline(never)]
    pub fn raise(&mut self, error: &Stored, procedure: Procedure, rest: usize) -> Result<(), Memory>
        ensures thrown { OnOk result (Throws error.now procedure rest self.old self.new) }
    {
        let ball = error_of(self.alloc, error, procedure)?;
        self.doing = Doing::Throwing { ball, outer: rest };
        Ok(())
    }
}
