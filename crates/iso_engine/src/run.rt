//! The tasks of a list.
ghost use Rattle.std.specs.Prelude.{◌≡◌, ◌≤◌, ◌∷◌, ◌++◌, length, false, List, IfNone, IfOk, IfSome, OnOk, encode_utf8_all};
ghost use Rattle.pl_model.specs.Resolution.{Output};
ghost use Rattle.term_store.specs.Contents.{Holds as HoldsPlace};
ghost use Rattle.world_api.specs.Gains.{Gains};
ghost use Rattle.world_api.specs.Texts.{Holds};
ghost use Rattle.world_api.specs.Told.{has_ended};
ghost use Rattle.iso_search.specs.declared.frames.Task.TheVariants.{Goal};
ghost use Rattle.iso_search.specs.Frames.{tasks};
ghost use Rattle.iso_engine.specs.declared.doing.Doing.TheVariants.{Running};
ghost use Rattle.iso_engine.specs.Asked.{AsksFor};
ghost use Rattle.iso_engine.specs.Ready.{IsReady};
ghost use Rattle.iso_engine.specs.Rows.{IsRowAt};
ghost use Rattle.iso_engine.specs.Spending.{IsSpent};
ghost use Rattle.iso_engine.specs.Slices.{IsStepped, written_text};
ghost use Rattle.iso_engine.specs.Tasks.{IsKindAt, IsKindOf};
ghost use Rattle.iso_engine.specs.Unserved.{as_stopped, stopped_refusals};

use crate::builtin::{RowGoal, row_goal_at};
use crate::doing::Doing;
use crate::engine::Engine;
use crate::running::{Did, do_task};
use crate::slices::Slice;
use atom_api::fixed;
use iso_search::construct::{Construct, construct_at};
use iso_search::frames::{Frame, Task, first_task};
use term_store::{Place, Store, Stored};
use world_api::{Unserved, World};

impl Engine {
    /// Does the first task of a list, or gives a solution where there is none. What the goal writes is put after `out`.
    #[inline(never)]
    pub fn run<W: World<Term = Stored>>(
        &mut self,
        list: usize,
        world: &mut W,
        atoms: &mut W::A,
        out: &mut Vec<u8>,
    ) -> Result<Option<Slice>, Unserved>
        requires runs { has_ended (W.told world.old).engine (W.told world.old).history ≡ false }
        requires ready { IsReady (W.A.held atoms.old) (W.told world.old) self.old }
        requires list { self.old.doing ≡ Running list }
        ensures runs { has_ended (W.told world.new).engine (W.told world.new).history ≡ false }
        ensures holds { Holds (W.A.held atoms.old) (W.A.held atoms.new) }
        ensures refusals { IfOk (as_stopped result) (λ o. W.A.refusals atoms.new ≡ W.A.refusals atoms.old ++ stopped_refusals o) }
        ensures asked { Gains (AsksFor (W.A.held atoms.old) (W.told world.old) self.old) (W.A.asked atoms.old) (W.A.asked atoms.new) }
        ensures given { IfOk (as_stopped result) (λ o. IfNone o (self.new.solutions_found ≡ self.old.solutions_found)) }
        ensures spent { OnOk (as_stopped result) (IsSpent self.old.search.inferences self.new.search.inferences) }
        ensures ready { OnOk (as_stopped result) (IsReady (W.A.held atoms.new) (W.told world.new) self.new) }
        ensures stepped { IfOk (as_stopped result) (λ o. (more : List Output)
            × IsStepped (W.A.held atoms.old) (W.told world.old) self.old o (W.A.held atoms.new) (W.told world.new) self.new more
            × (out.new.items ≡ out.old.items ++ encode_utf8_all (written_text more))) }
    {
        match first_task(&self.search.frames, list) {
            None => self.solve(world, atoms),
            Some(frame) => match frame.task {
                Task::Goal(goal, cut) => {
                    self.run_own(goal, cut, frame.continuation, list, world, atoms, out)
                }
                _ => self.run_task(frame, Construct::Other, list, world, atoms, out),
            },
        }
    }

    /// Does this goal, the first task of a list, before the tasks of another one. It is for the goals that are no calls by their names
    /// alone.
    #[inline(always)]
    fn run_own<W: World<Term = Stored>>(
        &mut self,
        goal: Place,
        cut: usize,
        rest: usize,
        list: usize,
        world: &mut W,
        atoms: &mut W::A,
        out: &mut Vec<u8>,
    ) -> Result<Option<Slice>, Unserved>
        requires runs { has_ended (W.told world.old).engine (W.told world.old).history ≡ false }
        requires ready { IsReady (W.A.held atoms.old) (W.told world.old) self.old }
        requires list { self.old.doing ≡ Running list }
        requires first { tasks self.old.search.frames.items list ≡ Goal goal cut ∷ tasks self.old.search.frames.items rest }
        requires rest { rest ≤ length self.old.search.frames.items }
        ensures runs { has_ended (W.told world.new).engine (W.told world.new).history ≡ false }
        ensures holds { Holds (W.A.held atoms.old) (W.A.held atoms.new) }
        ensures refusals { IfOk (as_stopped result) (λ o. W.A.refusals atoms.new ≡ W.A.refusals atoms.old ++ stopped_refusals o) }
        ensures asked { Gains (AsksFor (W.A.held atoms.old) (W.told world.old) self.old) (W.A.asked atoms.old) (W.A.asked atoms.new) }
        ensures given { IfOk (as_stopped result) (λ o. IfNone o (self.new.solutions_found ≡ self.old.solutions_found)) }
        ensures spent { OnOk (as_stopped result) (IsSpent self.old.search.inferences self.new.search.inferences) }
        ensures ready { OnOk (as_stopped result) (IsReady (W.A.held atoms.new) (W.told world.new) self.new) }
        ensures stepped { IfOk (as_stopped result) (λ o. (more : List Output)
            × IsStepped (W.A.held atoms.old) (W.told world.old) self.old o (W.A.held atoms.new) (W.told world.new) self.new more
            × (out.new.items ≡ out.old.items ++ encode_utf8_all (written_text more))) }
    {
        let kind = construct_at(&self.search.store, goal);
        if let Some(found) = plain_row(&self.search.store, goal, kind) {
            return self.row(&found, rest, atoms);
        }
        let frame = Frame {
            task: Task::Goal(goal, cut),
            continuation: rest,
        };
        self.run_task(frame, kind, list, world, atoms, out)
    }

    /// Does this first task of a list; where it is to run a goal, the goal is of the kind. What the goal writes is put after `out`.
    #[inline(never)]
    fn run_task<W: World<Term = Stored>>(
        &mut self,
        frame: Frame,
        kind: Construct,
        list: usize,
        world: &mut W,
        atoms: &mut W::A,
        out: &mut Vec<u8>,
    ) -> Result<Option<Slice>, Unserved>
        requires runs { has_ended (W.told world.old).engine (W.told world.old).history ≡ false }
        requires ready { IsReady (W.A.held atoms.old) (W.told world.old) self.old }
        requires kind { IsKindOf self.old.search.store frame.task kind }
        requires list { self.old.doing ≡ Running list }
        requires first { tasks self.old.search.frames.items list ≡ frame.task ∷ tasks self.old.search.frames.items frame.continuation }
        requires rest { frame.continuation ≤ length self.old.search.frames.items }
        ensures runs { has_ended (W.told world.new).engine (W.told world.new).history ≡ false }
        ensures holds { Holds (W.A.held atoms.old) (W.A.held atoms.new) }
        ensures refusals { IfOk (as_stopped result) (λ o. W.A.refusals atoms.new ≡ W.A.refusals atoms.old ++ stopped_refusals o) }
        ensures asked { Gains (AsksFor (W.A.held atoms.old) (W.told world.old) self.old) (W.A.asked atoms.old) (W.A.asked atoms.new) }
        ensures given { IfOk (as_stopped result) (λ o. IfNone o (self.new.solutions_found ≡ self.old.solutions_found)) }
        ensures spent { OnOk (as_stopped result) (IsSpent self.old.search.inferences self.new.search.inferences) }
        ensures ready { OnOk (as_stopped result) (IsReady (W.A.held atoms.new) (W.told world.new) self.new) }
        ensures stepped { IfOk (as_stopped result) (λ o. (more : List Output)
            × IsStepped (W.A.held atoms.old) (W.told world.old) self.old o (W.A.held atoms.new) (W.told world.new) self.new more
            × (out.new.items ≡ out.old.items ++ encode_utf8_all (written_text more))) }
    {
        let did = do_task(self.alloc, &mut self.search, frame, kind)?;
        match did {
            Did::Next(doing) => {
                self.doing = doing;
                Ok(None)
            }
            Did::Call(goal, procedure) => {
                self.call_apart(goal, procedure, frame.continuation, world, atoms)
            }
            Did::Row(goal) => self.row(&goal, frame.continuation, atoms),
            Did::Ask(goal) => self.ask(&goal, frame.continuation, world, atoms),
            Did::Write(goal, procedure) => {
                self.write(goal, procedure, frame.continuation, world, atoms, out)
            }
            Did::Look(goal) => self.look(&goal, frame.continuation, world, atoms),
            Did::Exit(goal, term) => self.exit(goal, term, frame.continuation, atoms),
            Did::Collect(goal, collection) => {
                self.collect(goal, collection, frame.continuation, world, atoms)
            }
            Did::Clear(goal, head) => {
                self.clear(goal, head, list, frame.continuation, world, atoms)
            }
        }
    }
}

/// The goal of this kind at a place, if it is one of a built-in predicate that is a function of its arguments, but for `=`: a unification
/// makes no answer first.
#[inline(always)]
fn plain_row(store: &Store, goal: Place, kind: Construct) -> Option<RowGoal>
    requires goal { HoldsPlace store.now goal }
    requires kind { IsKindAt store.now goal kind }
    ensures { IfSome result (λ r. (r.place ≡ goal) × IsRowAt store.now r) }
{
    let Construct::Other = kind else {
        return None;
    };
    let Some(found) = row_goal_at(store, goal) else {
        return None;
    };
    if found.name == fixed::EQUAL {
        return None;
    }
    Some(found)
}
