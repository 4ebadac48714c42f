//! Control constructs that call an argument (ISO 7.8.3, 7.8.9, 8.15).
ghost use Rattle.std.specs.Prelude.{◌≡◌, ◌≤◌, ◌<◌, suc, [], ◌∷◌, length, IfOk, OnOk};
ghost use Rattle.pl_term.specs.Tree.{Tree};
ghost use Rattle.pl_model.specs.History.{Proc};
ghost use Rattle.pl_model.specs.Predicates.{proc_of};
ghost use Rattle.pl_model.specs.Resolution.{goal};
ghost use Rattle.pl_model.specs.BodyChecks.{body_of, called_goal};
ghost use Rattle.pl_model.specs.Control.{before, checked, over, run_on, taking, with_call};
ghost use Rattle.term_store.specs.Contents.{Holds, IsArguments};
ghost use Rattle.iso_search.specs.Calling.{IsCheckedIn, goal_or_error};
ghost use Rattle.iso_search.specs.Choices.{IsAlternativeIn, choice_at};
ghost use Rattle.iso_search.specs.Collecting.{HoldsNone};
ghost use Rattle.iso_search.specs.Conversions.{Grows};
ghost use Rattle.iso_search.specs.Extending.{further};
ghost use Rattle.iso_search.specs.Outcomes.{IsAfter, IsExitIn, Setting, exit_at, limits_in, result_in, state_in};
ghost use Rattle.iso_search.specs.Reading.{View, IsView, reads};
ghost use Rattle.iso_search.specs.Searching.{IsWhole, node_of};

use crate::bodies::converted_at;
use crate::choices::Alternative;
use crate::control::Exit;
use crate::extending::{Extended, Extension, extended_at};
use crate::frames::Task;
use crate::outcome::{Fault, Outcome};
use crate::search::Search;
use pl_term::Memory;
use std::alloc::Global;
use term_store::{Arguments, Place, View as Kind};

/// What comes of the check of a term that is to be called.
#[derive(Clone, Copy, Drop)]
pub enum Checked {
    /// The goal that is to be run.
    Goal(Place),
    /// The call is refused.
    Refused(Fault),
}

impl Search {
    /// Checks a body whole, and converts it to the goal that is to be run (ISO 7.6.2). The only error is out of memory.
    pub fn check_body(&mut self, alloc: Global, body: Place) -> Result<Checked, Memory>
        requires whole { IsWhole self.old }
        requires body { Holds self.old.store body }
        ensures whole { IsWhole self.new }
        ensures grows { Grows self.old.store self.new.store }
        ensures inside { IfOk result (IsCheckedIn self.new.store) }
        ensures checked { IfOk result (λ c. (v : View) → IsView v
            → goal_or_error (reads v self.new.store) c ≡ body_of (reads v self.old.store body)) }
        ensures kept { self.new ≡ record self.old { store = self.new.store } }
    {
        let converted = converted_at(alloc, &mut self.store, body)?;
        match converted {
            Some(goal) => Ok(Checked::Goal(goal)),
            None => Ok(Checked::Refused(Fault::NotCallable(body))),
        }
    }

    /// Checks an argument that is to be called, and converts it (ISO 7.8.3.3). The only error is out of memory.
    pub fn check_called(&mut self, alloc: Global, argument: Place) -> Result<Checked, Memory>
        requires whole { IsWhole self.old }
        requires argument { Holds self.old.store argument }
        ensures whole { IsWhole self.new }
        ensures grows { Grows self.old.store self.new.store }
        ensures inside { IfOk result (IsCheckedIn self.new.store) }
        ensures checked { IfOk result (λ c. (v : View) → IsView v
            → goal_or_error (reads v self.new.store) c ≡ called_goal (reads v self.old.store argument)) }
        ensures kept { self.new ≡ record self.old { store = self.new.store } }
    {
        match self.store.look(argument) {
            Kind::Variable(_) => Ok(Checked::Refused(Fault::Instantiation)),
            Kind::Integer(_) => Ok(Checked::Refused(Fault::NotCallable(argument))),
            Kind::Atom(_) => {
                let checked = self.check_body(alloc, argument)?;
                Ok(checked)
            }
            Kind::Compound(_, _) => {
                let checked = self.check_body(alloc, argument)?;
                Ok(checked)
            }
        }
    }

    /// Calls an argument over a choice point, in which a cut is local, before its exit and the tasks of a list: what `\+`,
    /// `once/1`, `catch/3` and `findall/3` do. The only error is out of memory.
    pub fn call_over(
        &mut self,
        alloc: Global,
        alternative: Alternative,
        argument: Place,
        exit: Exit,
        rest: usize,
    ) -> Result<Outcome, Memory>
        requires whole { IsWhole self.old }
        requires words { IsAlternativeIn self.old.store alternative }
        requires none { HoldsNone alternative }
        requires argument { Holds self.old.store argument }
        requires exit { IsExitIn self.old.store exit }
        requires rest { rest ≤ length self.old.frames.items }
        ensures whole { OnOk result (IsWhole self.new) }
        ensures after { IfOk result (IsAfter self.old self.new) }
        ensures step { IfOk result (λ o. (t : Setting) (p : Proc) → IsView t.view
            → let r = reads t.view self.old.store in let n = node_of t.view self.old rest in let s = state_in t self.old in
            result_in t self.new n p o ≡ checked s n p (called_goal (r argument))
            (λ body. over (limits_in t self.old) s n p (choice_at t.view r n alternative) (λ h. goal body (suc h) ∷ exit_at r exit h ∷ []))) }
    {
        let checked = self.check_called(alloc, argument)?;
        match checked {
            Checked::Goal(goal) => {
                let outcome = self.enter(alternative, rest, goal, exit, rest)?;
                Ok(outcome)
            }
            Checked::Refused(fault) => Ok(Outcome::Raise(fault)),
        }
    }

    /// `call/1` to `call/8`: calls a term with the arguments of the call after the first one added to its own. A cut in it is
    /// local to it. The only error is out of memory.
    pub fn call(
        &mut self,
        alloc: Global,
        first: Place,
        arguments: Arguments,
        rest: usize,
    ) -> Result<Outcome, Memory>
        requires whole { IsWhole self.old }
        requires first { Holds self.old.store first }
        requires arguments { IsArguments self.old.store arguments }
        requires some { 0 < arguments.count }
        requires rest { rest ≤ length self.old.frames.items }
        ensures whole { OnOk result (IsWhole self.new) }
        ensures after { IfOk result (IsAfter self.old self.new) }
        ensures step { IfOk result (λ o. (t : Setting) (g : Tree) → IsView t.view
            → let n = node_of t.view self.old rest in
            result_in t self.new n (proc_of g) o
            ≡ with_call (limits_in t self.old) (state_in t self.old) n g (reads t.view self.old.store first) (further t.view self.old.store arguments)) }
    {
        let extension = extended_at(alloc, &mut self.store, first, arguments)?;
        match extension {
            Extension::Refused(fault) => Ok(Outcome::Raise(fault)),
            Extension::Made(extended) => {
                let outcome = self.call_extended(alloc, extended, rest)?;
                Ok(outcome)
            }
        }
    }

    /// Calls a goal that was given its arguments.
    fn call_extended(
        &mut self,
        alloc: Global,
        extended: Extended,
        rest: usize,
    ) -> Result<Outcome, Memory>
        requires whole { IsWhole self.old }
        requires goal { Holds self.old.store extended.goal }
        requires rest { rest ≤ length self.old.frames.items }
        ensures whole { OnOk result (IsWhole self.new) }
        ensures after { IfOk result (IsAfter self.old self.new) }
        ensures step { IfOk result (λ o. (t : Setting) (p : Proc) → IsView t.view
            → let n = node_of t.view self.old rest in let s = state_in t self.old in
            result_in t self.new n p o ≡ checked s n p (body_of (reads t.view self.old.store extended.goal))
            (λ body. taking (limits_in t self.old) s n p 0 extended.cells (λ s' n'. run_on s' (before (goal body (length s.choices) ∷ []) n')))) }
    {
        let checked = self.check_body(alloc, extended.goal)?;
        match checked {
            Checked::Refused(fault) => Ok(Outcome::Raise(fault)),
            Checked::Goal(goal) => match self.take(0, extended.cells) {
                Some(fault) => Ok(Outcome::Raise(fault)),
                None => {
                    let height = self.choices.len();
                    let list = self.push(Task::Goal(goal, height), rest)?;
                    Ok(Outcome::Run(list))
                }
            },
        }
    }
}
