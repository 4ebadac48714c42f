//! Goals that are run by control constructs alone.
ghost use Rattle.std.specs.Prelude.{◌≡◌, ◌≤◌, ℕ, length, IfNone, IfOk, IfSome, MatchOption, OnOk};
ghost use Rattle.pl_model.specs.Predicates.{proc_of};
ghost use Rattle.pl_model.specs.Resolution.{goes};
ghost use Rattle.pl_model.specs.Control.{take_up};
ghost use Rattle.term_store.specs.Contents.{Holds};
ghost use Rattle.iso_search.specs.Constructs.{IsConstructIn, construction};
ghost use Rattle.iso_search.specs.Goals.{IsLeft, IsUncounted, flat, run_counted};
ghost use Rattle.iso_search.specs.Outcomes.{IsAfter, Setting, limits_in, result_in, state_in};
ghost use Rattle.iso_search.specs.Reading.{IsView, reads};
ghost use Rattle.iso_search.specs.Searching.{IsWhole, node_of};

use crate::choices::Alternative;
use crate::construct::Construct;
use crate::control::Exit;
use crate::outcome::{Fault, Outcome};
use crate::search::Search;
use pl_term::Memory;
use std::alloc::Global;
use term_store::{Arguments, Place};

/// A control construct that makes an inference.
#[derive(Clone, Copy, Drop)]
pub enum Counted {
    Fails,
    Repeats,
    Calls(Place, Arguments),
    NotProvable(Place),
    Once(Place),
    Catches(Place, Place, Place),
    Throws(Place),
    FindsAll(Place, Place, Place),
    Halts(Place),
    HaltsWithZero,
}

/// The construct, if it is a control construct that makes an inference.
fn counted_of(construct: Construct) -> Option<Counted>
    ensures { MatchOption result (IsUncounted construct) (λ k. flat k ≡ construct) }
{
    match construct {
        Construct::Fails => Some(Counted::Fails),
        Construct::Repeats => Some(Counted::Repeats),
        Construct::Calls(first, arguments) => Some(Counted::Calls(first, arguments)),
        Construct::NotProvable(goal) => Some(Counted::NotProvable(goal)),
        Construct::Once(goal) => Some(Counted::Once(goal)),
        Construct::Catches(goal, catcher, recovery) => {
            Some(Counted::Catches(goal, catcher, recovery))
        }
        Construct::Throws(ball) => Some(Counted::Throws(ball)),
        Construct::FindsAll(template, goal, list) => {
            Some(Counted::FindsAll(template, goal, list))
        }
        Construct::Halts(status) => Some(Counted::Halts(status)),
        Construct::HaltsWithZero => Some(Counted::HaltsWithZero),
        _ => None,
    }
}

impl Search {
    /// Takes up a goal that is a control construct, with the tasks of a list after it. None where the goal is something
    /// else. The only error is out of memory.
    pub fn take_up(
        &mut self,
        alloc: Global,
        goal: Place,
        construct: Construct,
        cut: usize,
        rest: usize,
    ) -> Result<Option<Outcome>, Memory>
        requires whole { IsWhole self.old }
        requires goal { Holds self.old.store goal }
        requires construct { IsConstructIn self.old.store construct }
        requires rest { rest ≤ length self.old.frames.items }
        ensures whole { OnOk result (IsWhole self.new) }
        ensures after { IfOk result (λ a. IfSome a (IsAfter self.old self.new)) }
        ensures step { IfOk result (λ a. IfSome a (λ o. (t : Setting) → IsView t.view
            → let g = reads t.view self.old.store goal in let n = node_of t.view self.old rest in
            goes (result_in t self.new n (proc_of g) o)
            ≡ take_up (limits_in t self.old) (state_in t self.old) n g cut (construction t.view self.old.store construct))) }
        ensures others { IfOk result (λ a. IfNone a ((self.new ≡ self.old) × IsLeft construct)) }
    {
        match construct {
            Construct::Succeeds => Ok(Some(Outcome::Run(rest))),
            Construct::Cuts => {
                self.cut_to(cut);
                Ok(Some(Outcome::Run(rest)))
            }
            Construct::Conjunction(left, right) => {
                let outcome = self.conjunction(left, right, cut, rest)?;
                Ok(Some(outcome))
            }
            Construct::Disjunction(left, right) => {
                let outcome = self.disjunction(left, right, cut, rest)?;
                Ok(Some(outcome))
            }
            Construct::IfThen(condition, then_goal) => {
                let outcome = self.if_then(condition, then_goal, cut, rest)?;
                Ok(Some(outcome))
            }
            Construct::IfThenElse(condition, then_goal, else_goal) => {
                let outcome = self.if_then_else(condition, then_goal, else_goal, cut, rest)?;
                Ok(Some(outcome))
            }
            _ => {
                let outcome = self.take_up_counted(alloc, goal, construct, rest)?;
                Ok(outcome)
            }
        }
    }

    /// Takes up a goal that is a control construct which makes an inference. None where the goal is something else. The only
    /// error is out of memory.
    fn take_up_counted(
        &mut self,
        alloc: Global,
        goal: Place,
        construct: Construct,
        rest: usize,
    ) -> Result<Option<Outcome>, Memory>
        requires whole { IsWhole self.old }
        requires goal { Holds self.old.store goal }
        requires construct { IsConstructIn self.old.store construct }
        requires rest { rest ≤ length self.old.frames.items }
        ensures whole { OnOk result (IsWhole self.new) }
        ensures after { IfOk result (λ a. IfSome a (IsAfter self.old self.new)) }
        ensures step { IfOk result (λ a. IfSome a (λ o. (t : Setting) (cut : ℕ) → IsView t.view
            → let g = reads t.view self.old.store goal in let n = node_of t.view self.old rest in
            goes (result_in t self.new n (proc_of g) o)
            ≡ take_up (limits_in t self.old) (state_in t self.old) n g cut (construction t.view self.old.store construct))) }
        ensures others { IfOk result (λ a. IfNone a ((self.new ≡ self.old) × IsUncounted construct)) }
    {
        let Some(counted) = counted_of(construct) else {
            return Ok(None);
        };
        if !self.infer() {
            return Ok(Some(Outcome::Raise(Fault::Inferences)));
        }
        let outcome = self.run_counted(alloc, goal, counted, rest)?;
        Ok(Some(outcome))
    }

    /// Runs a control construct whose inference was made. The only error is out of memory.
    fn run_counted(
        &mut self,
        alloc: Global,
        goal: Place,
        counted: Counted,
        rest: usize,
    ) -> Result<Outcome, Memory>
        requires whole { IsWhole self.old }
        requires goal { Holds self.old.store goal }
        requires construct { IsConstructIn self.old.store (flat counted) }
        requires rest { rest ≤ length self.old.frames.items }
        ensures whole { OnOk result (IsWhole self.new) }
        ensures after { IfOk result (IsAfter self.old self.new) }
        ensures step { IfOk result (λ o. (t : Setting) → IsView t.view
            → let g = reads t.view self.old.store goal in let n = node_of t.view self.old rest in
            result_in t self.new n (proc_of g) o
            ≡ run_counted (limits_in t self.old) (state_in t self.old) n g (construction t.view self.old.store (flat counted))) }
    {
        match counted {
            Counted::Fails => Ok(Outcome::Fail),
            Counted::Repeats => {
                let outcome = self.repeat(goal, rest)?;
                Ok(outcome)
            }
            Counted::Calls(first, arguments) => {
                let outcome = self.call(alloc, first, arguments, rest)?;
                Ok(outcome)
            }
            Counted::NotProvable(inner) => {
                let outcome = self.call_over(
                    alloc,
                    Alternative::Branch,
                    inner,
                    Exit::Refute,
                    rest,
                )?;
                Ok(outcome)
            }
            Counted::Once(inner) => {
                let outcome = self.call_over(
                    alloc,
                    Alternative::Barrier,
                    inner,
                    Exit::Commit,
                    rest,
                )?;
                Ok(outcome)
            }
            Counted::Catches(inner, catcher, recovery) => {
                let catch = Alternative::Catch { catcher, recovery };
                let outcome = self.call_over(alloc, catch, inner, Exit::Leave, rest)?;
                Ok(outcome)
            }
            Counted::Throws(ball) => Ok(self.throw(ball)),
            Counted::FindsAll(template, inner, list) => {
                let outcome = self.find_all(alloc, template, inner, list, rest)?;
                Ok(outcome)
            }
            Counted::Halts(status) => Ok(self.halt(status)),
            Counted::HaltsWithZero => Ok(Outcome::Halt(0)),
        }
    }
}
