//! Goals of predicates of the shared state (ISO 8.8, 8.9, 8.14, 8.17; SWI-Prolog manual, section 'Multithreaded applications').
ghost use Rattle.std.specs.Prelude.{◌≡◌, ◌≤◌, ◌++◌, ℕ, [], ◌∷◌, false, length, IfOk, OnOk};
ghost use Rattle.world_api.specs.Gains.{Gains};
ghost use Rattle.world_api.specs.Texts.{Holds};
ghost use Rattle.world_api.specs.Told.{Told, has_ended};
ghost use Rattle.iso_search.specs.declared.frames.Task.TheVariants.{Goal};
ghost use Rattle.iso_search.specs.Frames.{tasks};
ghost use Rattle.iso_engine.specs.declared.doing.Doing.TheVariants.{Running};
ghost use Rattle.iso_engine.specs.Asked.{AsksFor};
ghost use Rattle.iso_engine.specs.Ready.{IsReady};
ghost use Rattle.iso_engine.specs.Spending.{IsSpent};
ghost use Rattle.iso_engine.specs.Slices.{IsStepped};
ghost use Rattle.iso_engine.specs.ClauseLooks.{IsLookAt};
ghost use Rattle.iso_engine.specs.Collections.{IsCollectAt};
ghost use Rattle.iso_engine.specs.Leaving.{IsExitAt, IsExitText};
ghost use Rattle.iso_engine.specs.State.{IsStateAt};
ghost use Rattle.iso_engine.specs.Unserved.{as_stopped, stopped_refusals};

pub mod asked;
pub mod asks;
pub mod clearing;
pub mod clears;
pub mod collecting;
pub mod leads;
pub mod leaving;
pub mod looking;
pub mod looks;
pub mod meeting;
pub mod refusing;

use crate::call::called::Called;
use crate::doing::{Doing, End};
use crate::engine::Engine;
use crate::following::follow;
use crate::refused::error_of;
use crate::slices::Slice;
use crate::state::asked::Asked;
use crate::state::asks::ask_goal;
use crate::state::collecting::{Collection, collect_goal};
use crate::state::leaving::{Leaving, exit_goal};
use crate::state::looking::look_goal;
use crate::state::looks::LookGoal;
use atom_api::{Atoms, fixed};
use iso_search::outcome::{Fault, Outcome};
use shared_builtins::StateGoal;
use term_store::{Place, Stored};
use world_api::{Procedure, Unserved, World};

impl Engine {
    /// Takes up a goal of a predicate of the shared state, before the tasks of a list.
    pub fn ask<W: World<Term = Stored>>(
        &mut self,
        goal: &StateGoal,
        rest: usize,
        world: &mut W,
        atoms: &mut W::A,
    ) -> Result<Option<Slice>, Unserved>
        requires runs { has_ended (W.told world.old).engine (W.told world.old).history ≡ false }
        requires ready { IsReady (W.A.held atoms.old) (W.told world.old) self.old }
        requires list { (list cut : ℕ) × (self.old.doing ≡ Running list)
            × (tasks self.old.search.frames.items list ≡ Goal goal.now.place cut ∷ tasks self.old.search.frames.items rest) }
        requires rest { rest ≤ length self.old.search.frames.items }
        requires state { IsStateAt self.old.search.store goal.now }
        ensures runs { has_ended (W.told world.new).engine (W.told world.new).history ≡ false }
        ensures holds { Holds (W.A.held atoms.old) (W.A.held atoms.new) }
        ensures refusals { IfOk (as_stopped result) (λ o. W.A.refusals atoms.new ≡ W.A.refusals atoms.old ++ stopped_refusals o) }
        ensures asked { Gains (AsksFor (W.A.held atoms.old) (W.told world.old) self.old) (W.A.asked atoms.old) (W.A.asked atoms.new) }
        ensures given { OnOk (as_stopped result) (self.new.solutions_found ≡ self.old.solutions_found) }
        ensures spent { OnOk (as_stopped result) (IsSpent self.old.search.inferences self.new.search.inferences) }
        ensures ready { OnOk (as_stopped result) (IsReady (W.A.held atoms.new) (W.told world.new) self.new) }
        ensures stepped { IfOk (as_stopped result) (λ o.
            IsStepped (W.A.held atoms.old) (W.told world.old) self.old o (W.A.held atoms.new) (W.told world.new) self.new []) }
    {
        let asked = ask_goal(self.alloc, &mut self.search, goal, rest, world, atoms)?;
        match asked {
            Asked::Ran(outcome) => {
                self.doing = follow(self.alloc, &self.search, outcome, goal.procedure(), rest)?;
                Ok(None)
            }
            Asked::Refused(error) => {
                let ball = error_of(self.alloc, &error, goal.procedure())?;
                self.doing = Doing::Throwing { ball, outer: rest };
                Ok(None)
            }
            Asked::Waits(on, generation) => Ok(Some(Slice::Waits(on, generation))),
        }
    }

    /// Takes up a goal of clause/2 or retract/1, before the tasks of a list.
    pub fn look<W: World<Term = Stored>>(
        &mut self,
        goal: &LookGoal,
        rest: usize,
        world: &mut W,
        atoms: &mut W::A,
    ) -> Result<Option<Slice>, Unserved>
        requires runs { has_ended (W.told world.old).engine (W.told world.old).history ≡ false }
        requires ready { IsReady (W.A.held atoms.old) (W.told world.old) self.old }
        requires list { (list cut : ℕ) × (self.old.doing ≡ Running list)
            × (tasks self.old.search.frames.items list ≡ Goal goal.now.place cut ∷ tasks self.old.search.frames.items rest) }
        requires rest { rest ≤ length self.old.search.frames.items }
        requires looks { IsLookAt self.old.search.store goal.now }
        ensures runs { has_ended (W.told world.new).engine (W.told world.new).history ≡ false }
        ensures holds { Holds (W.A.held atoms.old) (W.A.held atoms.new) }
        ensures refusals { IfOk (as_stopped result) (λ o. W.A.refusals atoms.new ≡ W.A.refusals atoms.old ++ stopped_refusals o) }
        ensures asked { Gains (AsksFor (W.A.held atoms.old) (W.told world.old) self.old) (W.A.asked atoms.old) (W.A.asked atoms.new) }
        ensures given { OnOk (as_stopped result) (self.new.solutions_found ≡ self.old.solutions_found) }
        ensures spent { OnOk (as_stopped result) (IsSpent self.old.search.inferences self.new.search.inferences) }
        ensures ready { OnOk (as_stopped result) (IsReady (W.A.held atoms.new) (W.told world.new) self.new) }
        ensures stepped { IfOk (as_stopped result) (λ o.
            IsStepped (W.A.held atoms.old) (W.told world.old) self.old o (W.A.held atoms.new) (W.told world.new) self.new []) }
    {
        let procedure = goal.look.procedure();
        let called = look_goal(self.alloc, &mut self.search, goal, rest, world, atoms)?;
        match called {
            Called::Spent => {
                let spent = Outcome::Raise(Fault::Inferences);
                self.doing = follow(self.alloc, &self.search, spent, procedure, rest)?;
                Ok(None)
            }
            Called::Ran(outcome) => {
                self.doing = follow(self.alloc, &self.search, outcome, procedure, rest)?;
                Ok(None)
            }
            Called::Refused(error) => {
                let ball = error_of(self.alloc, &error, procedure)?;
                self.doing = Doing::Throwing { ball, outer: rest };
                Ok(None)
            }
        }
    }

    /// Takes up the goal at a place that asks for a cycle of collection, before the tasks of a list.
    pub fn collect<W: World<Term = Stored>>(
        &mut self,
        goal: Place,
        collection: Collection,
        rest: usize,
        world: &mut W,
        atoms: &mut W::A,
    ) -> Result<Option<Slice>, Unserved>
        requires runs { has_ended (W.told world.old).engine (W.told world.old).history ≡ false }
        requires ready { IsReady (W.A.held atoms.old) (W.told world.old) self.old }
        requires list { (list cut : ℕ) × (self.old.doing ≡ Running list)
            × (tasks self.old.search.frames.items list ≡ Goal goal cut ∷ tasks self.old.search.frames.items rest) }
        requires rest { rest ≤ length self.old.search.frames.items }
        requires collects { IsCollectAt self.old.search.store goal collection }
        ensures runs { has_ended (W.told world.new).engine (W.told world.new).history ≡ false }
        ensures holds { Holds (W.A.held atoms.old) (W.A.held atoms.new) }
        ensures refusals { IfOk (as_stopped result) (λ o. W.A.refusals atoms.new ≡ W.A.refusals atoms.old ++ stopped_refusals o) }
        ensures asked { Gains (AsksFor (W.A.held atoms.old) (W.told world.old) self.old) (W.A.asked atoms.old) (W.A.asked atoms.new) }
        ensures given { OnOk (as_stopped result) (self.new.solutions_found ≡ self.old.solutions_found) }
        ensures spent { OnOk (as_stopped result) (IsSpent self.old.search.inferences self.new.search.inferences) }
        ensures ready { OnOk (as_stopped result) (IsReady (W.A.held atoms.new) (W.told world.new) self.new) }
        ensures stepped { IfOk (as_stopped result) (λ o.
            IsStepped (W.A.held atoms.old) (W.told world.old) self.old o (W.A.held atoms.new) (W.told world.new) self.new []) }
    {
        let procedure = collection.procedure();
        let outcome = collect_goal(&mut self.search, goal, collection, rest, world, atoms)?;
        self.doing = follow(self.alloc, &self.search, outcome, procedure, rest)?;
        Ok(None)
    }

    /// Takes up the goal at a place of thread_exit/1 with this term, before the tasks of a list, whatever the engine was told.
    pub fn exit<A: Atoms>(
        &mut self,
        goal: Place,
        term: Place,
        rest: usize,
        atoms: &mut A,
    ) -> Result<Option<Slice>, Unserved>
        requires ready { (t : Told) × IsReady (A.held atoms.old) t self.old }
        requires list { (list cut : ℕ) × (self.old.doing ≡ Running list)
            × (tasks self.old.search.frames.items list ≡ Goal goal cut ∷ tasks self.old.search.frames.items rest) }
        requires rest { rest ≤ length self.old.search.frames.items }
        requires exits { IsExitAt self.old.search.store goal term }
        ensures holds { Holds (A.held atoms.old) (A.held atoms.new) }
        ensures refusals { IfOk (as_stopped result) (λ o. A.refusals atoms.new ≡ A.refusals atoms.old ++ stopped_refusals o) }
        ensures asked { Gains (λ c. (t : Told) → IsExitText (A.held atoms.old) t self.old c) (A.asked atoms.old) (A.asked atoms.new) }
        ensures given { OnOk (as_stopped result) (self.new.solutions_found ≡ self.old.solutions_found) }
        ensures spent { OnOk (as_stopped result) (IsSpent self.old.search.inferences self.new.search.inferences) }
        ensures ready { OnOk (as_stopped result) ((t : Told) → IsReady (A.held atoms.old) t self.old → IsReady (A.held atoms.new) t self.new) }
        ensures stepped { IfOk (as_stopped result) (λ o. (t : Told) → IsReady (A.held atoms.old) t self.old
            → IsStepped (A.held atoms.old) t self.old o (A.held atoms.new) t self.new []) }
    {
        let left = exit_goal(
            self.alloc,
            &mut self.search,
            self.stays,
            goal,
            term,
            rest,
            atoms,
        )?;
        match left {
            Leaving::Leaves(ball) => {
                self.doing = Doing::Ended(End::Exited(ball));
                Ok(None)
            }
            Leaving::Ran(outcome) => {
                let procedure = Procedure {
                    name: fixed::THREAD_EXIT,
                    arity: 1,
                };
                self.doing = follow(self.alloc, &self.search, outcome, procedure, rest)?;
                Ok(None)
            }
        }
    }
}
