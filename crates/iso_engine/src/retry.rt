//! Going back to clauses that were not tried.
ghost use Rattle.std.specs.Prelude.{◌≡◌, ◌≤◌, ◌++◌, false, length, List, IfOk, OnOk, IsSome};
ghost use Rattle.std.specs.List.{All};
ghost use Rattle.term_store.specs.Contents.{Holds as HoldsPlace, term_at};
ghost use Rattle.term_store.specs.NumberedNames.{atoms_in};
ghost use Rattle.world_api.specs.Gains.{Gains};
ghost use Rattle.world_api.specs.Texts.{Holds};
ghost use Rattle.world_api.specs.Told.{has_ended};
ghost use Rattle.iso_search.specs.declared.failure.Back.TheVariants.{Retry};
ghost use Rattle.iso_search.specs.Choices.{listed_goal, purpose_of};
ghost use Rattle.iso_search.specs.Reading.{reads};
ghost use Rattle.iso_search.specs.Searching.{IsWhole};
ghost use Rattle.iso_engine.specs.ClausesAsked.{IsRetryAsked};
ghost use Rattle.iso_engine.specs.Quick.{IsGoneAtOnce};
ghost use Rattle.iso_engine.specs.Ready.{MayGoOn};
ghost use Rattle.iso_engine.specs.Views.{view_of};
ghost use Rattle.iso_engine.specs.Retrying.{IsGoneOn};
ghost use Rattle.iso_engine.specs.Unserved.{as_stopped, stopped_refusals};

use crate::call::goals::request_at;
use crate::call::retries::{listed_at, put_back, retry_clauses, retry_known};
use crate::engine::Engine;
use crate::procedure::trying_procedure;
use crate::quick::Quick;
use crate::slices::Slice;
use iso_search::choices::Purpose;
use pl_term::Memory;
use term_store::{Place, Stored};
use world_api::{Unserved, World};

impl Engine {
    /// Goes on with the clauses for the goal at a place, or for the rule of clause/2 or retract/1, that were not tried, whose
    /// choice point was taken off (ISO 7.7.8).
    #[inline(always)]
    pub fn retry<W: World<Term = Stored>>(
        &mut self,
        purpose: Purpose,
        goal: Place,
        generation: u64,
        place: u64,
        next: usize,
        world: &mut W,
        atoms: &mut W::A,
    ) -> Result<Option<Slice>, Unserved>
        requires whole { IsWhole self.old.search }
        requires goal { HoldsPlace self.old.search.store goal }
        requires next { next ≤ length self.old.search.frames.items }
        requires held { All (λ a. IsSome (W.A.held atoms.old a)) (atoms_in (term_at self.old.search.store goal)) }
        requires open { let g = reads (view_of (W.A.held atoms.old) (W.told world.old)) self.old.search.store goal in
            MayGoOn (W.told world.old) (listed_goal (purpose_of purpose) g) generation place }
        requires runs { has_ended (W.told world.old).engine (W.told world.old).history ≡ false }
        ensures whole { OnOk (as_stopped result) (IsWhole self.new.search) }
        ensures runs { has_ended (W.told world.new).engine (W.told world.new).history ≡ false }
        ensures holds { Holds (W.A.held atoms.old) (W.A.held atoms.new) }
        ensures refusals { IfOk (as_stopped result) (λ o. W.A.refusals atoms.new ≡ W.A.refusals atoms.old ++ stopped_refusals o) }
        ensures asked { Gains (IsRetryAsked (W.A.held atoms.old) (W.told world.old) self.old.search purpose goal generation place) (W.A.asked atoms.old) (W.A.asked atoms.new) }
        ensures gone { IfOk (as_stopped result) (IsGoneOn (W.told world.old) self.old (Retry purpose goal generation place next) (W.A.held atoms.new) (W.told world.new) self.new) }
    {
        let _mark = self.search.store.mark();
        let listed = listed_at(&self.search.store, purpose, goal);
        let request = request_at(&self.search.store, listed);
        let procedure = trying_procedure(purpose, request.procedure);
        let outcome = retry_clauses(
            &mut self.search,
            world,
            atoms,
            purpose,
            goal,
            generation,
            place,
            next,
            listed,
            request,
        )?;
        self.go_on(outcome, procedure, next)?;
        Ok(None)
    }

    /// Does the same at once, where the world knows the next of the clauses; else the choice point is there again. The only error is out
    /// of memory.
    #[inline(always)]
    pub fn retry_known<W: World<Term = Stored>>(
        &mut self,
        purpose: Purpose,
        goal: Place,
        generation: u64,
        place: u64,
        next: usize,
        world: &mut W,
        atoms: &mut W::A,
    ) -> Result<Quick, Memory>
        requires whole { IsWhole self.old.search }
        requires goal { HoldsPlace self.old.search.store goal }
        requires next { next ≤ length self.old.search.frames.items }
        requires held { All (λ a. IsSome (W.A.held atoms.old a)) (atoms_in (term_at self.old.search.store goal)) }
        requires open { let g = reads (view_of (W.A.held atoms.old) (W.told world.old)) self.old.search.store goal in
            MayGoOn (W.told world.old) (listed_goal (purpose_of purpose) g) generation place }
        requires runs { has_ended (W.told world.old).engine (W.told world.old).history ≡ false }
        ensures whole { OnOk result (IsWhole self.new.search) }
        ensures runs { has_ended (W.told world.new).engine (W.told world.new).history ≡ false }
        ensures held { W.A.held atoms.new ≡ W.A.held atoms.old }
        ensures refusals { W.A.refusals atoms.new ≡ W.A.refusals atoms.old }
        ensures asked { W.A.asked atoms.new ≡ W.A.asked atoms.old }
        ensures gone { IfOk result (IsGoneAtOnce (W.told world.old) self.old (Retry purpose goal generation place next) (W.A.held atoms.new) (W.told world.new) self.new) }
    {
        let _mark = self.search.store.mark();
        let listed = listed_at(&self.search.store, purpose, goal);
        let request = request_at(&self.search.store, listed);
        let procedure = trying_procedure(purpose, request.procedure);
        let known = retry_known(
            &mut self.search,
            world,
            atoms,
            purpose,
            goal,
            generation,
            place,
            next,
            listed,
            request,
        )?;
        match known {
            Some(outcome) => {
                self.go_on(outcome, procedure, next)?;
                Ok(Quick::Went)
            }
            None => {
                put_back(&mut self.search, purpose, goal, generation, place, next)?;
                Ok(Quick::Missed)
            }
        }
    }

    /// Does the same. It is for clause/2 and retract/1.
    #[cold]
    #[inline(never)]
    pub fn retry_seldom<W: World<Term = Stored>>(
        &mut self,
        purpose: Purpose,
        goal: Place,
        generation: u64,
        place: u64,
        next: usize,
        world: &mut W,
        atoms: &mut W::A,
    ) -> Result<Quick, Memory>
        requires whole { IsWhole self.old.search }
        requires goal { HoldsPlace self.old.search.store goal }
        requires next { next ≤ length self.old.search.frames.items }
        requires held { All (λ a. IsSome (W.A.held atoms.old a)) (atoms_in (term_at self.old.search.store goal)) }
        requires open { let g = reads (view_of (W.A.held atoms.old) (W.told world.old)) self.old.search.store goal in
            MayGoOn (W.told world.old) (listed_goal (purpose_of purpose) g) generation place }
        requires runs { has_ended (W.told world.old).engine (W.told world.old).history ≡ false }
        ensures whole { OnOk result (IsWhole self.new.search) }
        ensures runs { has_ended (W.told world.new).engine (W.told world.new).history ≡ false }
        ensures held { W.A.held atoms.new ≡ W.A.held atoms.old }
        ensures refusals { W.A.refusals atoms.new ≡ W.A.refusals atoms.old }
        ensures asked { W.A.asked atoms.new ≡ W.A.asked atoms.old }
        ensures gone { IfOk result (IsGoneAtOnce (W.told world.old) self.old (Retry purpose goal generation place next) (W.A.held atoms.new) (W.told world.new) self.new) }
    {
        self.retry_known(purpose, goal, generation, place, next, world, atoms)
    }
}
