//! One step of resolution.
ghost use Rattle.std.specs.Prelude.{◌≡◌, ◌++◌, false, List, IfNone, IfOk, OnOk, encode_utf8_all};
ghost use Rattle.pl_model.specs.Resolution.{Output};
ghost use Rattle.world_api.specs.Gains.{Gains};
ghost use Rattle.world_api.specs.Texts.{Holds};
ghost use Rattle.world_api.specs.Told.{has_ended};
ghost use Rattle.iso_engine.specs.Asked.{AsksFor};
ghost use Rattle.iso_engine.specs.Quick.{IsQuick};
ghost use Rattle.iso_engine.specs.Ready.{IsApart, IsReady};
ghost use Rattle.iso_engine.specs.Spending.{IsSpent};
ghost use Rattle.iso_engine.specs.Slices.{IsStepped, written_text};
ghost use Rattle.iso_engine.specs.Unserved.{as_stopped, stopped_refusals};

use crate::answering::after_solution;
use crate::call::direct::first_call;
use crate::doing::Doing;
use crate::engine::Engine;
use crate::quick::Quick;
use crate::slices::Slice;
use crate::throwing::throw;
use pl_term::Memory;
use std::mem;
use term_store::Stored;
use world_api::{Unserved, World};

impl Engine {
    /// Makes the step at once, where it is a call by the name of its goal alone, or goes back to clauses that were not tried, and the world
    /// knows the clauses; or where it passes a goal. The only error is out of memory.
    #[inline(always)]
    pub fn step_known<W: World<Term = Stored>>(
        &mut self,
        world: &mut W,
        atoms: &mut W::A,
    ) -> Result<Quick, Memory>
        requires runs { has_ended (W.told world.old).engine (W.told world.old).history ≡ false }
        requires ready { IsReady (W.A.held atoms.old) (W.told world.old) self.old }
        ensures runs { has_ended (W.told world.new).engine (W.told world.new).history ≡ false }
        ensures held { W.A.held atoms.new ≡ W.A.held atoms.old }
        ensures refusals { W.A.refusals atoms.new ≡ W.A.refusals atoms.old }
        ensures asked { W.A.asked atoms.new ≡ W.A.asked atoms.old }
        ensures given { OnOk result (self.new.solutions_found ≡ self.old.solutions_found) }
        ensures spent { OnOk result (IsSpent self.old.search.inferences self.new.search.inferences) }
        ensures ready { OnOk result (IsReady (W.A.held atoms.new) (W.told world.new) self.new) }
        ensures quick { IfOk result (IsQuick (W.A.held atoms.old) (W.told world.old) self.old (W.A.held atoms.new) (W.told world.new) self.new) }
    {
        let Doing::Running(list) = &self.doing else {
            return self.fail_known(world, atoms);
        };
        let list = *list;
        if let Some(first) = first_call(&self.search, list) {
            let goal = first.goal;
            let request = first.request;
            let rest = first.rest;
            return self.call_known(goal, request.procedure, request, rest, world, atoms);
        }
        self.pass_first(list)
    }

    /// Makes a step that was not made at once, or says why none can be made. What the goal writes is put after `out`.
    #[inline(always)]
    pub fn step<W: World<Term = Stored>>(
        &mut self,
        quick: Quick,
        world: &mut W,
        atoms: &mut W::A,
        out: &mut Vec<u8>,
    ) -> Result<Option<Slice>, Unserved>
        requires runs { has_ended (W.told world.old).engine (W.told world.old).history ≡ false }
        requires ready { IsReady (W.A.held atoms.old) (W.told world.old) self.old }
        ensures runs { has_ended (W.told world.new).engine (W.told world.new).history ≡ false }
        ensures holds { Holds (W.A.held atoms.old) (W.A.held atoms.new) }
        ensures refusals { IfOk (as_stopped result) (λ o. W.A.refusals atoms.new ≡ W.A.refusals atoms.old ++ stopped_refusals o) }
        ensures asked { Gains (AsksFor (W.A.held atoms.old) (W.told world.old) self.old) (W.A.asked atoms.old) (W.A.asked atoms.new) }
        ensures given { IfOk (as_stopped result) (λ o. IfNone o (self.new.solutions_found ≡ self.old.solutions_found)) }
        ensures spent { OnOk (as_stopped result) (IsSpent self.old.search.inferences self.new.search.inferences) }
        ensures ready { OnOk (as_stopped result) (IsReady (W.A.held atoms.new) (W.told world.new) self.new) }
        ensures stepped { IfOk (as_stopped result) (λ o. (more : List Output)
            × IsStepped (W.A.held atoms.old) (W.told world.old) self.old o (W.A.held atoms.new) (W.told world.new) self.new more
            × (out.new.items ≡ out.old.items ++ encode_utf8_all (written_text more))) }
    {
        match quick {
            Quick::Missed => self.step_missed(world, atoms, out),
            _ => self.step_other(world, atoms, out),
        }
    }

    /// Does the same, where a call by the name of its goal alone comes first.
    #[cold]
    #[inline(never)]
    fn step_missed<W: World<Term = Stored>>(
        &mut self,
        world: &mut W,
        atoms: &mut W::A,
        out: &mut Vec<u8>,
    ) -> Result<Option<Slice>, Unserved>
        requires runs { has_ended (W.told world.old).engine (W.told world.old).history ≡ false }
        requires ready { IsReady (W.A.held atoms.old) (W.told world.old) self.old }
        ensures runs { has_ended (W.told world.new).engine (W.told world.new).history ≡ false }
        ensures holds { Holds (W.A.held atoms.old) (W.A.held atoms.new) }
        ensures refusals { IfOk (as_stopped result) (λ o. W.A.refusals atoms.new ≡ W.A.refusals atoms.old ++ stopped_refusals o) }
        ensures asked { Gains (AsksFor (W.A.held atoms.old) (W.told world.old) self.old) (W.A.asked atoms.old) (W.A.asked atoms.new) }
        ensures given { IfOk (as_stopped result) (λ o. IfNone o (self.new.solutions_found ≡ self.old.solutions_found)) }
        ensures spent { OnOk (as_stopped result) (IsSpent self.old.search.inferences self.new.search.inferences) }
        ensures ready { OnOk (as_stopped result) (IsReady (W.A.held atoms.new) (W.told world.new) self.new) }
        ensures stepped { IfOk (as_stopped result) (λ o. (more : List Output)
            × IsStepped (W.A.held atoms.old) (W.told world.old) self.old o (W.A.held atoms.new) (W.told world.new) self.new more
            × (out.new.items ≡ out.old.items ++ encode_utf8_all (written_text more))) }
    {
        let Doing::Running(list) = &self.doing else {
            return self.step_other(world, atoms, out);
        };
        let Some(first) = first_call(&self.search, *list) else {
            return self.step_other(world, atoms, out);
        };
        let goal = first.goal;
        let request = first.request;
        let rest = first.rest;
        self.call_anew(goal, request.procedure, rest, world, atoms)
    }

    /// Does the same, whatever is done next.
    #[inline(never)]
    fn step_other<W: World<Term = Stored>>(
        &mut self,
        world: &mut W,
        atoms: &mut W::A,
        out: &mut Vec<u8>,
    ) -> Result<Option<Slice>, Unserved>
        requires runs { has_ended (W.told world.old).engine (W.told world.old).history ≡ false }
        requires ready { IsReady (W.A.held atoms.old) (W.told world.old) self.old }
        ensures runs { has_ended (W.told world.new).engine (W.told world.new).history ≡ false }
        ensures holds { Holds (W.A.held atoms.old) (W.A.held atoms.new) }
        ensures refusals { IfOk (as_stopped result) (λ o. W.A.refusals atoms.new ≡ W.A.refusals atoms.old ++ stopped_refusals o) }
        ensures asked { Gains (AsksFor (W.A.held atoms.old) (W.told world.old) self.old) (W.A.asked atoms.old) (W.A.asked atoms.new) }
        ensures given { IfOk (as_stopped result) (λ o. IfNone o (self.new.solutions_found ≡ self.old.solutions_found)) }
        ensures spent { OnOk (as_stopped result) (IsSpent self.old.search.inferences self.new.search.inferences) }
        ensures ready { OnOk (as_stopped result) (IsReady (W.A.held atoms.new) (W.told world.new) self.new) }
        ensures stepped { IfOk (as_stopped result) (λ o. (more : List Output)
            × IsStepped (W.A.held atoms.old) (W.told world.old) self.old o (W.A.held atoms.new) (W.told world.new) self.new more
            × (out.new.items ≡ out.old.items ++ encode_utf8_all (written_text more))) }
    {
        match &self.doing {
            Doing::Running(list) => {
                let list = *list;
                self.run(list, world, atoms, out)
            }
            Doing::Failing => self.fail(world, atoms),
            _ => self.step_apart(world, atoms, out),
        }
    }

    /// Does the same where neither tasks are done nor a failure is followed. What is done is taken out of the engine for it.
    #[inline(never)]
    fn step_apart<W: World<Term = Stored>>(
        &mut self,
        world: &mut W,
        atoms: &mut W::A,
        out: &mut Vec<u8>,
    ) -> Result<Option<Slice>, Unserved>
        requires runs { has_ended (W.told world.old).engine (W.told world.old).history ≡ false }
        requires ready { IsReady (W.A.held atoms.old) (W.told world.old) self.old }
        requires apart { IsApart self.old.doing }
        ensures runs { has_ended (W.told world.new).engine (W.told world.new).history ≡ false }
        ensures holds { Holds (W.A.held atoms.old) (W.A.held atoms.new) }
        ensures refusals { IfOk (as_stopped result) (λ o. W.A.refusals atoms.new ≡ W.A.refusals atoms.old ++ stopped_refusals o) }
        ensures asked { Gains (AsksFor (W.A.held atoms.old) (W.told world.old) self.old) (W.A.asked atoms.old) (W.A.asked atoms.new) }
        ensures given { IfOk (as_stopped result) (λ o. IfNone o (self.new.solutions_found ≡ self.old.solutions_found)) }
        ensures spent { OnOk (as_stopped result) (IsSpent self.old.search.inferences self.new.search.inferences) }
        ensures ready { OnOk (as_stopped result) (IsReady (W.A.held atoms.new) (W.told world.new) self.new) }
        ensures stepped { IfOk (as_stopped result) (λ o. (more : List Output)
            × IsStepped (W.A.held atoms.old) (W.told world.old) self.old o (W.A.held atoms.new) (W.told world.new) self.new more
            × (out.new.items ≡ out.old.items ++ encode_utf8_all (written_text more))) }
    {
        match mem::replace(&mut self.doing, Doing::Failing) {
            Doing::Running(_) => unreachable!(),
            Doing::Failing => unreachable!(),
            Doing::Throwing { ball, outer } => {
                self.doing = throw(self.alloc, &mut self.search, ball, outer)?;
                Ok(None)
            }
            Doing::Erasing { place, list } => {
                self.doing = Doing::Erasing { place, list };
                self.erase(place, list, world, atoms)
            }
            Doing::Clearing {
                list,
                generation,
                left,
            } => self.clear_next(list, generation, left, world, atoms),
            Doing::Answering => {
                self.doing = after_solution(self.solution_limit, self.solutions_found);
                Ok(None)
            }
            Doing::Ended(end) => {
                self.doing = Doing::Ended(end);
                Ok(Some(Slice::Ended))
            }
        }
    }
}
