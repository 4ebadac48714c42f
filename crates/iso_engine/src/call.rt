//! Calls of the program's clauses.
ghost use Rattle.std.specs.Prelude.{◌≡◌, ◌≤◌, ◌++◌, ℕ, [], ◌∷◌, false, length, IfOk, OnOk};
ghost use Rattle.term_store.specs.Contents.{term_at};
ghost use Rattle.world_api.specs.Gains.{Gains};
ghost use Rattle.world_api.specs.Texts.{Holds};
ghost use Rattle.world_api.specs.Told.{has_ended};
ghost use Rattle.iso_search.specs.declared.frames.Task.TheVariants.{Goal};
ghost use Rattle.iso_search.specs.Frames.{tasks};
ghost use Rattle.iso_engine.specs.declared.doing.Doing.TheVariants.{Running};
ghost use Rattle.iso_engine.specs.Asked.{AsksFor};
ghost use Rattle.iso_engine.specs.CalledGoals.{IsRequest};
ghost use Rattle.iso_engine.specs.Calling.{IsCallAt};
ghost use Rattle.iso_engine.specs.Quick.{IsQuick};
ghost use Rattle.iso_engine.specs.Ready.{IsReady};
ghost use Rattle.iso_engine.specs.Spending.{IsSpent};
ghost use Rattle.iso_engine.specs.Slices.{IsStepped};
ghost use Rattle.iso_engine.specs.Unserved.{as_stopped, stopped_refusals};

pub mod called;
pub mod calls;
pub mod clauses;
pub mod direct;
pub mod goals;
pub mod retries;

use crate::call::called::Called;
use crate::call::calls::{call_clauses, call_known};
use crate::call::goals::{Request, request_at};
use crate::engine::Engine;
use crate::quick::Quick;
use crate::slices::Slice;
use iso_search::outcome::{Fault, Outcome};
use pl_term::Memory;
use term_store::{Place, Stored};
use world_api::{Procedure, Unserved, World};

impl Engine {
    /// Calls the program's clauses for the goal at a place, which has this predicate, before the tasks of a list (ISO 7.7.10). They are asked
    /// for by the request.
    #[inline(always)]
    pub fn call<W: World<Term = Stored>>(
        &mut self,
        goal: Place,
        procedure: Procedure,
        request: Request,
        rest: usize,
        world: &mut W,
        atoms: &mut W::A,
    ) -> Result<Option<Slice>, Unserved>
        requires runs { has_ended (W.told world.old).engine (W.told world.old).history ≡ false }
        requires ready { IsReady (W.A.held atoms.old) (W.told world.old) self.old }
        requires list { (list cut : ℕ) × (self.old.doing ≡ Running list)
            × (tasks self.old.search.frames.items list ≡ Goal goal cut ∷ tasks self.old.search.frames.items rest) }
        requires rest { rest ≤ length self.old.search.frames.items }
        requires request { IsRequest (term_at self.old.search.store goal) request }
        requires calls { IsCallAt self.old.search.store goal procedure }
        ensures runs { has_ended (W.told world.new).engine (W.told world.new).history ≡ false }
        ensures holds { Holds (W.A.held atoms.old) (W.A.held atoms.new) }
        ensures refusals { IfOk (as_stopped result) (λ o. W.A.refusals atoms.new ≡ W.A.refusals atoms.old ++ stopped_refusals o) }
        ensures asked { Gains (AsksFor (W.A.held atoms.old) (W.told world.old) self.old) (W.A.asked atoms.old) (W.A.asked atoms.new) }
        ensures given { OnOk (as_stopped result) (self.new.solutions_found ≡ self.old.solutions_found) }
        ensures spent { OnOk (as_stopped result) (IsSpent self.old.search.inferences self.new.search.inferences) }
        ensures ready { OnOk (as_stopped result) (IsReady (W.A.held atoms.new) (W.told world.new) self.new) }
        ensures stepped { IfOk (as_stopped result) (λ o.
            IsStepped (W.A.held atoms.old) (W.told world.old) self.old o (W.A.held atoms.new) (W.told world.new) self.new []) }
    {
        let known = call_known(&mut self.search, world, atoms, goal, request, rest)?;
        match known {
            Some(outcome) => {
                self.go_on(outcome, procedure, rest)?;
                Ok(None)
            }
            None => self.call_anew(goal, procedure, rest, world, atoms),
        }
    }

    /// Makes the call at once, where the world knows the clauses and an inference can be made. The only error is out of memory.
    #[inline(always)]
    pub fn call_known<W: World<Term = Stored>>(
        &mut self,
        goal: Place,
        procedure: Procedure,
        request: Request,
        rest: usize,
        world: &mut W,
        atoms: &mut W::A,
    ) -> Result<Quick, Memory>
        requires runs { has_ended (W.told world.old).engine (W.told world.old).history ≡ false }
        requires ready { IsReady (W.A.held atoms.old) (W.told world.old) self.old }
        requires list { (list cut : ℕ) × (self.old.doing ≡ Running list)
            × (tasks self.old.search.frames.items list ≡ Goal goal cut ∷ tasks self.old.search.frames.items rest) }
        requires rest { rest ≤ length self.old.search.frames.items }
        requires request { IsRequest (term_at self.old.search.store goal) request }
        requires calls { IsCallAt self.old.search.store goal procedure }
        ensures runs { has_ended (W.told world.new).engine (W.told world.new).history ≡ false }
        ensures held { W.A.held atoms.new ≡ W.A.held atoms.old }
        ensures refusals { W.A.refusals atoms.new ≡ W.A.refusals atoms.old }
        ensures asked { W.A.asked atoms.new ≡ W.A.asked atoms.old }
        ensures given { OnOk result (self.new.solutions_found ≡ self.old.solutions_found) }
        ensures spent { OnOk result (IsSpent self.old.search.inferences self.new.search.inferences) }
        ensures ready { OnOk result (IsReady (W.A.held atoms.new) (W.told world.new) self.new) }
        ensures quick { IfOk result (IsQuick (W.A.held atoms.old) (W.told world.old) self.old (W.A.held atoms.new) (W.told world.new) self.new) }
    {
        let known = call_known(&mut self.search, world, atoms, goal, request, rest)?;
        match known {
            Some(outcome) => {
                self.go_on(outcome, procedure, rest)?;
                Ok(Quick::Went)
            }
            None => Ok(Quick::Missed),
        }
    }

    /// Does the same, where the world does not know the clauses without a look, or no inference can be made.
    #[cold]
    #[inline(never)]
    pub fn call_anew<W: World<Term = Stored>>(
        &mut self,
        goal: Place,
        procedure: Procedure,
        rest: usize,
        world: &mut W,
        atoms: &mut W::A,
    ) -> Result<Option<Slice>, Unserved>
        requires runs { has_ended (W.told world.old).engine (W.told world.old).history ≡ false }
        requires ready { IsReady (W.A.held atoms.old) (W.told world.old) self.old }
        requires list { (list cut : ℕ) × (self.old.doing ≡ Running list)
            × (tasks self.old.search.frames.items list ≡ Goal goal cut ∷ tasks self.old.search.frames.items rest) }
        requires rest { rest ≤ length self.old.search.frames.items }
        requires calls { IsCallAt self.old.search.store goal procedure }
        ensures runs { has_ended (W.told world.new).engine (W.told world.new).history ≡ false }
        ensures holds { Holds (W.A.held atoms.old) (W.A.held atoms.new) }
        ensures refusals { IfOk (as_stopped result) (λ o. W.A.refusals atoms.new ≡ W.A.refusals atoms.old ++ stopped_refusals o) }
        ensures asked { Gains (AsksFor (W.A.held atoms.old) (W.told world.old) self.old) (W.A.asked atoms.old) (W.A.asked atoms.new) }
        ensures given { OnOk (as_stopped result) (self.new.solutions_found ≡ self.old.solutions_found) }
        ensures spent { OnOk (as_stopped result) (IsSpent self.old.search.inferences self.new.search.inferences) }
        ensures ready { OnOk (as_stopped result) (IsReady (W.A.held atoms.new) (W.told world.new) self.new) }
        ensures stepped { IfOk (as_stopped result) (λ o.
            IsStepped (W.A.held atoms.old) (W.told world.old) self.old o (W.A.held atoms.new) (W.told world.new) self.new []) }
    {
        let called = call_clauses(&mut self.search, world, atoms, goal, rest)?;
        match called {
            Called::Ran(outcome) => {
                self.go_on(outcome, procedure, rest)?;
                Ok(None)
            }
            Called::Spent => {
                let spent = Outcome::Raise(Fault::Inferences);
                self.go_on_apart(spent, procedure, rest)?;
                Ok(None)
            }
            Called::Refused(error) => {
                self.raise(&error, procedure, rest)?;
                Ok(None)
            }
        }
    }

    /// Does the same. It is for the goals that are no calls by their names alone.
    #[inline(never)]
    pub fn call_apart<W: World<Term = Stored>>(
        &mut self,
        goal: Place,
        procedure: Procedure,
        rest: usize,
        world: &mut W,
        atoms: &mut W::A,
    ) -> Result<Option<Slice>, Unserved>
        requires runs { has_ended (W.told world.old).engine (W.told world.old).history ≡ false }
        requires ready { IsReady (W.A.held atoms.old) (W.told world.old) self.old }
        requires list { (list cut : ℕ) × (self.old.doing ≡ Running list)
            × (tasks self.old.search.frames.items list ≡ Goal goal cut ∷ tasks self.old.search.frames.items rest) }
        requires rest { rest ≤ length self.old.search.frames.items }
        requires calls { IsCallAt self.old.search.store goal procedure }
        ensures runs { has_ended (W.told world.new).engine (W.told world.new).history ≡ false }
        ensures holds { Holds (W.A.held atoms.old) (W.A.held atoms.new) }
        ensures refusals { IfOk (as_stopped result) (λ o. W.A.refusals atoms.new ≡ W.A.refusals atoms.old ++ stopped_refusals o) }
        ensures asked { Gains (AsksFor (W.A.held atoms.old) (W.told world.old) self.old) (W.A.asked atoms.old) (W.A.asked atoms.new) }
        ensures given { OnOk (as_stopped result) (self.new.solutions_found ≡ self.old.solutions_found) }
        ensures spent { OnOk (as_stopped result) (IsSpent self.old.search.inferences self.new.search.inferences) }
        ensures ready { OnOk (as_stopped result) (IsReady (W.A.held atoms.new) (W.told world.new) self.new) }
        ensures stepped { IfOk (as_stopped result) (λ o.
            IsStepped (W.A.held atoms.old) (W.told world.old) self.old o (W.A.held atoms.new) (W.told world.new) self.new []) }
    {
        let request = request_at(&self.search.store, goal);
        self.call(goal, procedure, request, rest, world, atoms)
    }
}
