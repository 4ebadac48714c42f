//! Control constructs (ISO 7.8, 8.15).
ghost use Rattle.std.specs.Prelude.{◌≡◌, ◌≤◌, ◌<◌, ◌+◌, ◌^◌, ℕ, suc, List, [], ◌∷◌, ◌++◌, length, Option, IfOk, IfSome, OnOk};
ghost use Rattle.pl_term.specs.Tree.{Tree};
ghost use Rattle.pl_model.specs.History.{Proc};
ghost use Rattle.pl_model.specs.Control.{before, over, run_on};
ghost use Rattle.pl_model.specs.Resolution.{Pending, Node, goal, commit, branch, barrier};
ghost use Rattle.term_store.specs.Contents.{Contents, Holds};
ghost use Rattle.iso_search.specs.Choices.{IsAlternativeIn, IsTaskIn, choice_at};
ghost use Rattle.iso_search.specs.Collecting.{HoldsNone};
ghost use Rattle.iso_search.specs.Outcomes.{IsAfter, IsExitIn, Setting, IsMade, limits_in, state_in, result_in, exit_at};
ghost use Rattle.iso_search.specs.Reading.{View, reads, pending};
ghost use Rattle.iso_search.specs.Searching.{IsWhole, node_of};

use crate::choices::Alternative;
use crate::frames::Task;
use crate::outcome::{Fault, Outcome};
use crate::search::Search;
use pl_term::Memory;
use term_store::Place;

/// What is to be done when a goal that runs over a choice point has succeeded.
#[derive(Clone, Copy, Debug, Drop)]
pub enum Exit {
    /// The choice points of the goal go.
    Commit,
    /// They go, and the construct fails.
    Refute,
    /// The `catch/3` is left.
    Leave,
    /// The `findall/3` collects a copy of the term.
    Collect(Place),
}

/// The task of an exit from the choice point at the height.
fn exit_task(exit: Exit, height: usize) -> Task
    ensures task { (r : Place → Tree) → pending r result ≡ exit_at r exit height }
    ensures words { (s : Contents) → IsExitIn s exit → IsTaskIn s result }
{
    match exit {
        Exit::Commit => Task::Commit(height),
        Exit::Refute => Task::Refute(height),
        Exit::Leave => Task::Leave(height),
        Exit::Collect(template) => Task::Collect(template, height),
    }
}

impl Search {
    /// Makes a choice point, and answers its height, unless there are too many. The only error is out of memory.
    pub fn make_choice(
        &mut self,
        alternative: Alternative,
        behind: usize,
    ) -> Result<Option<usize>, Memory>
        requires whole { IsWhole self.old }
        requires words { IsAlternativeIn self.old.store alternative }
        requires behind { behind ≤ length self.old.frames.items }
        requires none { HoldsNone alternative }
        ensures whole { OnOk result (IsWhole self.new) }
        ensures made { IfOk result (λ o. (v : View) → IsMade v o self.old alternative behind self.new) }
        ensures below { IfOk result (λ o. IfSome o (λ h. h + 1 < 2 ^ 64)) }
        ensures kept { self.new ≡ record self.old { choices = self.new.choices } }
    {
        let height = self.choices.len();
        let most = self.budgets.choices;
        if height as u64 >= most {
            return Ok(None);
        }
        self.push_choice(alternative, behind)?;
        Ok(Some(height))
    }

    /// Runs a goal over a choice point, in which a cut is local, and then its exit and the tasks of a list. The only
    /// error is out of memory.
    pub fn enter(
        &mut self,
        alternative: Alternative,
        behind: usize,
        inner: Place,
        exit: Exit,
        rest: usize,
    ) -> Result<Outcome, Memory>
        requires whole { IsWhole self.old }
        requires words { IsAlternativeIn self.old.store alternative }
        requires behind { behind ≤ length self.old.frames.items }
        requires none { HoldsNone alternative }
        requires inner { Holds self.old.store inner }
        requires exit { IsExitIn self.old.store exit }
        requires rest { rest ≤ length self.old.frames.items }
        ensures whole { OnOk result (IsWhole self.new) }
        ensures after { IfOk result (IsAfter self.old self.new) }
        ensures step { IfOk result (λ o. (t : Setting) (p : Proc) (n : Node) (more : List Pending)
            → node_of t.view self.old rest ≡ before more n
            → let r = reads t.view self.old.store in
            result_in t self.new n p o ≡ over (limits_in t self.old) (state_in t self.old) n p
            (choice_at t.view r (node_of t.view self.old behind) alternative)
            (λ h. goal (r inner) (suc h) ∷ exit_at r exit h ∷ more)) }
    {
        let made = self.make_choice(alternative, behind)?;
        match made {
            None => Ok(Outcome::Raise(Fault::Choices)),
            Some(height) => {
                let out = self.push(exit_task(exit, height), rest)?;
                let list = self.push(Task::Goal(inner, height + 1), out)?;
                Ok(Outcome::Run(list))
            }
        }
    }

    /// Succeeds, and does so again wherever it is gone back to (ISO 8.15.3): the goal is run again then. The only error is
    /// Out of memory.
    pub fn repeat(&mut self, again: Place, rest: usize) -> Result<Outcome, Memory>
        requires whole { IsWhole self.old }
        requires again { Holds self.old.store again }
        requires rest { rest ≤ length self.old.frames.items }
        ensures whole { OnOk result (IsWhole self.new) }
        ensures after { IfOk result (IsAfter self.old self.new) }
        ensures step { IfOk result (λ o. (t : Setting) (p : Proc)
            → let r = reads t.view self.old.store in let n = node_of t.view self.old rest in let s = state_in t self.old in
            result_in t self.new n p o ≡ over (limits_in t self.old) s n p (branch (before (goal (r again) (length s.choices) ∷ []) n)) (λ k. [])) }
    {
        let height = self.choices.len();
        let list = self.push(Task::Goal(again, height), rest)?;
        let made = self.make_choice(Alternative::Branch, list)?;
        match made {
            None => Ok(Outcome::Raise(Fault::Choices)),
            Some(_) => Ok(Outcome::Run(rest)),
        }
    }

    /// Two alternatives (ISO 7.8.6).
    pub fn disjunction(
        &mut self,
        left: Place,
        right: Place,
        cut: usize,
        rest: usize,
    ) -> Result<Outcome, Memory>
        requires whole { IsWhole self.old }
        requires left { Holds self.old.store left }
        requires right { Holds self.old.store right }
        requires rest { rest ≤ length self.old.frames.items }
        ensures whole { OnOk result (IsWhole self.new) }
        ensures after { IfOk result (IsAfter self.old self.new) }
        ensures step { IfOk result (λ o. (t : Setting) (p : Proc)
            → let r = reads t.view self.old.store in let n = node_of t.view self.old rest in
            result_in t self.new n p o
            ≡ over (limits_in t self.old) (state_in t self.old) n p (branch (before (goal (r right) cut ∷ []) n)) (λ k. goal (r left) cut ∷ [])) }
    {
        let other = self.push(Task::Goal(right, cut), rest)?;
        let made = self.make_choice(Alternative::Branch, other)?;
        match made {
            None => Ok(Outcome::Raise(Fault::Choices)),
            Some(_) => {
                let list = self.push(Task::Goal(left, cut), rest)?;
                Ok(Outcome::Run(list))
            }
        }
    }

    /// Two goals, one after the other (ISO 7.8.5).
    pub fn conjunction(
        &mut self,
        left: Place,
        right: Place,
        cut: usize,
        rest: usize,
    ) -> Result<Outcome, Memory>
        requires whole { IsWhole self.old }
        requires left { Holds self.old.store left }
        requires right { Holds self.old.store right }
        requires rest { rest ≤ length self.old.frames.items }
        ensures whole { OnOk result (IsWhole self.new) }
        ensures after { IfOk result (IsAfter self.old self.new) }
        ensures step { IfOk result (λ o. (t : Setting) (p : Proc)
            → let r = reads t.view self.old.store in let n = node_of t.view self.old rest in
            result_in t self.new n p o ≡ run_on (state_in t self.old) (before (goal (r left) cut ∷ goal (r right) cut ∷ []) n)) }
    {
        let second = self.push(Task::Goal(right, cut), rest)?;
        let list = self.push(Task::Goal(left, cut), second)?;
        Ok(Outcome::Run(list))
    }

    /// A condition and what follows it (ISO 7.8.7).
    pub fn if_then(
        &mut self,
        condition: Place,
        then_goal: Place,
        cut: usize,
        rest: usize,
    ) -> Result<Outcome, Memory>
        requires whole { IsWhole self.old }
        requires condition { Holds self.old.store condition }
        requires then_goal { Holds self.old.store then_goal }
        requires rest { rest ≤ length self.old.frames.items }
        ensures whole { OnOk result (IsWhole self.new) }
        ensures after { IfOk result (IsAfter self.old self.new) }
        ensures step { IfOk result (λ o. (t : Setting) (p : Proc)
            → let r = reads t.view self.old.store in let n = node_of t.view self.old rest in
            result_in t self.new n p o ≡ over (limits_in t self.old) (state_in t self.old) n p barrier
            (λ k. goal (r condition) (suc k) ∷ commit k ∷ goal (r then_goal) cut ∷ [])) }
    {
        let list = self.push(Task::Goal(then_goal, cut), rest)?;
        let outcome = self.enter(Alternative::Barrier, rest, condition, Exit::Commit, list)?;
        Ok(outcome)
    }

    /// A condition, what follows it, and what is done where it fails (ISO 7.8.8).
    pub fn if_then_else(
        &mut self,
        condition: Place,
        then_goal: Place,
        else_goal: Place,
        cut: usize,
        rest: usize,
    ) -> Result<Outcome, Memory>
        requires whole { IsWhole self.old }
        requires condition { Holds self.old.store condition }
        requires then_goal { Holds self.old.store then_goal }
        requires else_goal { Holds self.old.store else_goal }
        requires rest { rest ≤ length self.old.frames.items }
        ensures whole { OnOk result (IsWhole self.new) }
        ensures after { IfOk result (IsAfter self.old self.new) }
        ensures step { IfOk result (λ o. (t : Setting) (p : Proc)
            → let r = reads t.view self.old.store in let n = node_of t.view self.old rest in
            result_in t self.new n p o
            ≡ over (limits_in t self.old) (state_in t self.old) n p (branch (before (goal (r else_goal) cut ∷ []) n))
            (λ k. goal (r condition) (suc k) ∷ commit k ∷ goal (r then_goal) cut ∷ [])) }
    {
        let list = self.push(Task::Goal(then_goal, cut), rest)?;
        let behind = self.push(Task::Goal(else_goal, cut), rest)?;
        let outcome = self.enter(Alternative::Branch, behind, condition, Exit::Commit, list)?;
        Ok(outcome)
    }
}
