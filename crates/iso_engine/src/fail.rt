//! A step after a failure.
ghost use Rattle.std.specs.Prelude.{◌≡◌, ◌++◌, [], false, IfOk, OnOk};
ghost use Rattle.world_api.specs.Gains.{Gains};
ghost use Rattle.world_api.specs.Texts.{Holds};
ghost use Rattle.world_api.specs.Told.{has_ended};
ghost use Rattle.iso_engine.specs.declared.doing.Doing.TheVariants.{Failing};
ghost use Rattle.iso_engine.specs.Asked.{AsksFor};
ghost use Rattle.iso_engine.specs.Quick.{IsQuick};
ghost use Rattle.iso_engine.specs.Ready.{IsReady};
ghost use Rattle.iso_engine.specs.Spending.{IsSpent};
ghost use Rattle.iso_engine.specs.Slices.{IsStepped};
ghost use Rattle.iso_engine.specs.Unserved.{as_stopped, stopped_refusals};

use crate::doing::{Doing, End};
use crate::engine::Engine;
use crate::findall::give_list;
use crate::quick::Quick;
use crate::slices::Slice;
use crate::untried::resume_clauses;
use iso_search::choices::Purpose;
use iso_search::failure::Back;
use pl_term::Memory;
use term_store::Stored;
use world_api::{Unserved, World};

impl Engine {
    /// Goes back to the newest choice point (ISO 7.7.8).
    #[inline(never)]
    pub fn fail<W: World<Term = Stored>>(
        &mut self,
        world: &mut W,
        atoms: &mut W::A,
    ) -> Result<Option<Slice>, Unserved>
        requires runs { has_ended (W.told world.old).engine (W.told world.old).history ≡ false }
        requires ready { IsReady (W.A.held atoms.old) (W.told world.old) self.old }
        requires fails { self.old.doing ≡ Failing }
        ensures runs { has_ended (W.told world.new).engine (W.told world.new).history ≡ false }
        ensures holds { Holds (W.A.held atoms.old) (W.A.held atoms.new) }
        ensures refusals { IfOk (as_stopped result) (λ o. W.A.refusals atoms.new ≡ W.A.refusals atoms.old ++ stopped_refusals o) }
        ensures asked { Gains (AsksFor (W.A.held atoms.old) (W.told world.old) self.old) (W.A.asked atoms.old) (W.A.asked atoms.new) }
        ensures given { OnOk (as_stopped result) (self.new.solutions_found ≡ self.old.solutions_found) }
        ensures spent { OnOk (as_stopped result) (IsSpent self.old.search.inferences self.new.search.inferences) }
        ensures ready { OnOk (as_stopped result) (IsReady (W.A.held atoms.new) (W.told world.new) self.new) }
        ensures stepped { IfOk (as_stopped result) (λ o.
            IsStepped (W.A.held atoms.old) (W.told world.old) self.old o (W.A.held atoms.new) (W.told world.new) self.new []) }
    {
        if let Some(left) = resume_clauses(&mut self.search) {
            return self.retry(
                left.purpose,
                left.goal,
                left.generation,
                left.place,
                left.next,
                world,
                atoms,
            );
        }
        self.fail_apart(world, atoms)
    }

    /// Makes the step at once, where a failure is followed, the newest choice point has clauses that were not tried, and the world knows the
    /// next of them. The only error is out of memory.
    #[inline(always)]
    pub fn fail_known<W: World<Term = Stored>>(
        &mut self,
        world: &mut W,
        atoms: &mut W::A,
    ) -> Result<Quick, Memory>
        requires runs { has_ended (W.told world.old).engine (W.told world.old).history ≡ false }
        requires ready { IsReady (W.A.held atoms.old) (W.told world.old) self.old }
        ensures runs { has_ended (W.told world.new).engine (W.told world.new).history ≡ false }
        ensures held { W.A.held atoms.new ≡ W.A.held atoms.old }
        ensures refusals { W.A.refusals atoms.new ≡ W.A.refusals atoms.old }
        ensures asked { W.A.asked atoms.new ≡ W.A.asked atoms.old }
        ensures given { OnOk result (self.new.solutions_found ≡ self.old.solutions_found) }
        ensures spent { OnOk result (IsSpent self.old.search.inferences self.new.search.inferences) }
        ensures ready { OnOk result (IsReady (W.A.held atoms.new) (W.told world.new) self.new) }
        ensures quick { IfOk result (IsQuick (W.A.held atoms.old) (W.told world.old) self.old (W.A.held atoms.new) (W.told world.new) self.new) }
    {
        let Doing::Failing = &self.doing else {
            return Ok(Quick::Other);
        };
        if let Some(left) = resume_clauses(&mut self.search) {
            if let Purpose::Resolving = left.purpose {
                return self.retry_known(
                    Purpose::Resolving,
                    left.goal,
                    left.generation,
                    left.place,
                    left.next,
                    world,
                    atoms,
                );
            }
            return self.retry_seldom(
                left.purpose,
                left.goal,
                left.generation,
                left.place,
                left.next,
                world,
                atoms,
            );
        }
        Ok(Quick::Other)
    }

    /// Does the same, whatever was not tried there.
    #[inline(never)]
    fn fail_apart<W: World<Term = Stored>>(
        &mut self,
        world: &mut W,
        atoms: &mut W::A,
    ) -> Result<Option<Slice>, Unserved>
        requires runs { has_ended (W.told world.old).engine (W.told world.old).history ≡ false }
        requires ready { IsReady (W.A.held atoms.old) (W.told world.old) self.old }
        requires fails { self.old.doing ≡ Failing }
        ensures runs { has_ended (W.told world.new).engine (W.told world.new).history ≡ false }
        ensures holds { Holds (W.A.held atoms.old) (W.A.held atoms.new) }
        ensures refusals { IfOk (as_stopped result) (λ o. W.A.refusals atoms.new ≡ W.A.refusals atoms.old ++ stopped_refusals o) }
        ensures asked { Gains (AsksFor (W.A.held atoms.old) (W.told world.old) self.old) (W.A.asked atoms.old) (W.A.asked atoms.new) }
        ensures given { OnOk (as_stopped result) (self.new.solutions_found ≡ self.old.solutions_found) }
        ensures spent { OnOk (as_stopped result) (IsSpent self.old.search.inferences self.new.search.inferences) }
        ensures ready { OnOk (as_stopped result) (IsReady (W.A.held atoms.new) (W.told world.new) self.new) }
        ensures stepped { IfOk (as_stopped result) (λ o.
            IsStepped (W.A.held atoms.old) (W.told world.old) self.old o (W.A.held atoms.new) (W.told world.new) self.new []) }
    {
        match self.search.resume() {
            Back::Exhausted => {
                self.doing = Doing::Ended(End::NoMore);
                Ok(None)
            }
            Back::Run(list) => {
                self.doing = Doing::Running(list);
                Ok(None)
            }
            Back::Fail => {
                self.doing = Doing::Failing;
                Ok(None)
            }
            Back::Retry {
                purpose,
                goal,
                generation,
                place,
                next,
            } => self.retry(purpose, goal, generation, place, next, world, atoms),
            Back::Answers { goal, line, next } => self.retry_line(goal, line, next, atoms),
            Back::Told {
                goal,
                lines,
                line,
                next,
            } => self.retry_told(goal, lines, line, next),
            Back::Found { list, found, next } => {
                self.doing = give_list(self.alloc, &mut self.search, list, found, next)?;
                Ok(None)
            }
        }
    }
}
