//! The state of a search, and how its lists of tasks and its choice points change.
ghost use Rattle.std.specs.Prelude.{◌≡◌, ◌≤◌, ◌<◌, ◌-◌, ℕ, [], ◌∷◌, ◌++◌, length, reverse, take, IfOk, OnOk, IfSome, MatchOption};
ghost use Rattle.pl_model.specs.Control.{before};
ghost use Rattle.pl_model.specs.Resolution.{up_to};
ghost use Rattle.iso_search.specs.Choices.{IsTaskIn, IsAlternativeIn, choice_at};
ghost use Rattle.iso_search.specs.Collecting.{HoldsNone, IsOlder};
ghost use Rattle.iso_search.specs.Held.{frames_held};
ghost use Rattle.iso_search.specs.Reading.{View, reads, pending};
ghost use Rattle.iso_search.specs.Searching.{IsWhole, node_of, choices_of};

use crate::choices::{Alternative, ChoicePoint, held_cells, put_choice};
use crate::frames::{Frame, Task, push_task, put_frame};
use pl_term::Memory;
use term_store::{Place, Store};

/// The budgets: the inferences that a goal may make, the cells that its terms may take, and its choice points.
#[derive(Clone, Copy, Debug, Drop)]
pub struct Budgets {
    pub inferences: u64,
    pub cells: u64,
    pub choices: u64,
}

/// How many frames the newest choice point goes back to, which is at least as many as an older one does.
#[inline(always)]
fn held_frames(choices: &[ChoicePoint]) -> usize
    ensures { result ≡ frames_held (reverse choices.now) }
{
    let n = choices.len();
    if n == 0 { 0 } else { choices[n - 1].frames }
}

/// The higher one of two numbers.
#[inline(always)]
fn higher(a: usize, b: usize) -> usize
    ensures first { a ≤ result }
    ensures second { b ≤ result }
{
    if a < b { b } else { a }
}

/// A search: the terms, what is still to be done, the choice points from the oldest on, the variables of the goal, the
/// next number of a variable, and what was used of the budgets.
#[derive(Drop)]
pub struct Search {
    pub store: Store,
    pub frames: Vec<Frame>,
    pub choices: Vec<ChoicePoint>,
    pub answer: Vec<Place>,
    pub next_variable: u64,
    pub inferences: u64,
    pub budgets: Budgets,
}

impl Search {
    /// The list with this task in front. The only error is out of memory.
    #[inline(always)]
    pub fn push(&mut self, task: Task, next: usize) -> Result<usize, Memory>
        requires whole { IsWhole self.old }
        requires task { IsTaskIn self.old.store task }
        requires next { next ≤ length self.old.frames.items }
        ensures whole { OnOk result (IsWhole self.new) }
        ensures list { IfOk result (λ k. k ≤ length self.new.frames.items) }
        ensures longer { OnOk result (length self.old.frames.items ≤ length self.new.frames.items) }
        ensures node { IfOk result (λ k. (v : View)
            → node_of v self.new k ≡ before (pending (reads v self.old.store) task ∷ []) (node_of v self.old next)) }
        ensures nodes { OnOk result ((v : View) (j : ℕ) → j ≤ length self.old.frames.items → node_of v self.new j ≡ node_of v self.old j) }
        ensures choices { OnOk result ((v : View) → choices_of v self.new ≡ choices_of v self.old) }
        ensures kept { self.new ≡ record self.old { frames = self.new.frames } }
    {
        let list = push_task(&mut self.frames, task, next)?;
        Ok(list)
    }

    /// The list with this task in front of the list `next`, where only that list and the choice points are left to be done: the tasks of
    /// later lists are forgotten. The only error is out of memory.
    #[inline(always)]
    pub fn push_over(&mut self, task: Task, next: usize) -> Result<usize, Memory>
        requires whole { IsWhole self.old }
        requires task { IsTaskIn self.old.store task }
        requires next { next ≤ length self.old.frames.items }
        ensures whole { OnOk result (IsWhole self.new) }
        ensures node { IfOk result (λ k. (v : View)
            → node_of v self.new k ≡ before (pending (reads v self.old.store) task ∷ []) (node_of v self.old next)) }
        ensures choices { OnOk result ((v : View) → choices_of v self.new ≡ choices_of v self.old) }
        ensures kept { self.new ≡ record self.old { frames = self.new.frames } }
    {
        let keep = higher(held_frames(&self.choices), next);
        if keep < self.frames.len() {
            Ok(self.put_over(keep, task, next))
        } else {
            let list = self.push(task, next)?;
            Ok(list)
        }
    }

    /// The list with this task in front of another one, where the frames from a number on are forgotten, of which there is one. Neither
    /// that list nor a choice point has one of these.
    #[inline(always)]
    fn put_over(&mut self, keep: usize, task: Task, next: usize) -> usize
        requires whole { IsWhole self.old }
        requires task { IsTaskIn self.old.store task }
        requires next { next ≤ keep }
        requires held { frames_held (reverse self.old.choices.items) ≤ keep }
        requires within { keep < length self.old.frames.items }
        ensures whole { IsWhole self.new }
        ensures node { (v : View)
            → node_of v self.new result ≡ before (pending (reads v self.old.store) task ∷ []) (node_of v self.old next) }
        ensures choices { (v : View) → choices_of v self.new ≡ choices_of v self.old }
        ensures kept { self.new ≡ record self.old { frames = self.new.frames } }
    {
        let frame = Frame {
            task,
            continuation: next,
        };
        put_frame(&mut self.frames, keep, frame);
        self.frames.len()
    }

    /// Cuts the choice points away that stand above the height (ISO 7.8.4).
    #[inline(always)]
    pub fn cut_to(&mut self, height: usize)
        requires { IsWhole self.old }
        ensures whole { IsWhole self.new }
        ensures choices { (v : View) → choices_of v self.new ≡ up_to height (choices_of v self.old) }
        ensures oldest { self.new.choices.items ≡ take height self.old.choices.items }
        ensures kept { self.new ≡ record self.old {
          store = record self.old.store { budget = self.new.store.budget };
          choices = self.new.choices;
        } }
    {
        while self.choices.len() > height {
            self.drop_newest();
        }
    }

    /// Drops the newest choice point, of which there is one. The cells of the copies that it holds may be used again.
    fn drop_newest(&mut self)
        requires whole { IsWhole self.old }
        requires some { 0 < length self.old.choices.items }
        ensures whole { IsWhole self.new }
        ensures oldest { self.new.choices.items ≡ take (length self.old.choices.items - 1) self.old.choices.items }
        ensures kept { self.new ≡ record self.old {
          store = record self.old.store { budget = self.new.store.budget };
          choices = self.new.choices;
        } }
    {
        let _most = self.budgets.cells;
        if let Some(k) = self.choices.pop() {
            self.store.release(held_cells(&k.alternative));
        }
    }

    /// Goes back to the newest choice point, which is taken off (ISO 7.7.8): bindings and terms made since are gone.
    #[inline(always)]
    pub fn backtrack(&mut self) -> Option<ChoicePoint>
        requires { IsWhole self.old }
        ensures whole { IsWhole self.new }
        ensures back { MatchOption result ((v : View) → (choices_of v self.old ≡ []) × (choices_of v self.new ≡ [])) (λ k. (v : View)
            → choices_of v self.old ≡ choice_at v (reads v self.new.store) (node_of v self.new k.next) k.alternative ∷ choices_of v self.new) }
        ensures words { IfSome result (λ k. IsAlternativeIn self.new.store k.alternative × (k.next ≤ length self.new.frames.items)) }
        ensures copies { IfSome result (λ k. IsOlder self.new.next_variable k.alternative) }
        ensures newest { MatchOption result (self.old.choices.items ≡ []) (λ k. self.old.choices.items ≡ self.new.choices.items ++ k ∷ []) }
        ensures kept { self.new ≡ record self.old {
          store = self.new.store;
          frames = self.new.frames;
          choices = self.new.choices;
        } }
    {
        let _most = self.budgets.cells;
        let k = self.choices.pop()?;
        self.store.undo_to(k.mark);
        self.frames.truncate(k.frames);
        self.store.release(held_cells(&k.alternative));
        Some(k)
    }

    /// Makes a choice point: what was not tried, and the list of tasks after it. The only error is out of memory.
    #[inline(always)]
    pub fn push_choice(&mut self, alternative: Alternative, next: usize) -> Result<(), Memory>
        requires whole { IsWhole self.old }
        requires words { IsAlternativeIn self.old.store alternative }
        requires next { next ≤ length self.old.frames.items }
        requires none { HoldsNone alternative }
        ensures whole { OnOk result (IsWhole self.new) }
        ensures choices { OnOk result ((v : View) → choices_of v self.new
            ≡ choice_at v (reads v self.old.store) (node_of v self.old next) alternative ∷ choices_of v self.old) }
        ensures kept { self.new ≡ record self.old { choices = self.new.choices } }
    {
        let mark = self.store.mark();
        let frames = self.frames.len();
        let choice = ChoicePoint {
            alternative,
            next,
            frames,
            mark,
        };
        put_choice(&mut self.choices, choice)
    }
}
