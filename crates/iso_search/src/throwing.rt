//! Where a ball is caught (ISO 7.8.9, 7.8.10).
ghost use Rattle.std.specs.Prelude.{◌≡◌, ◌≤◌, ◌<◌, ◌+◌, ◌-◌, ℕ, suc, length, IfNone, IfSome, MatchOption};
ghost use Rattle.pl_term.specs.Tree.{Tree};
ghost use Rattle.pl_model.specs.Resolution.{up_to};
ghost use Rattle.pl_model.specs.Control.{caught, thrown};
ghost use Rattle.term_store.specs.Contents.{Holds};
ghost use Rattle.iso_search.specs.Outcomes.{Setting, limits_in, state_in};
ghost use Rattle.iso_search.specs.Searching.{IsWhole, choices_of, node_of};
ghost use Rattle.iso_search.specs.Throwing.{caught_result, thrown_result};

use crate::choices::Alternative;
use crate::frames::{Task, first_task};
use crate::search::Search;
use term_store::Place;

/// The exit from a `catch/3` that is still to be done: the height of its choice point, and the list of the tasks after it.
#[derive(Clone, Copy, Drop)]
pub struct CatchExit {
    pub height: usize,
    pub rest: usize,
}

/// A `catch/3` that was gone back to: its catcher, its recovery goal, and the list of the tasks after it.
#[derive(Clone, Copy, Drop)]
pub struct CatchPoint {
    pub catcher: Place,
    pub recovery: Place,
    pub next: usize,
}

impl Search {
    /// The innermost active catch: the first exit among the tasks of a list.
    pub fn first_exit(&self, list: usize) -> Option<CatchExit>
        requires whole { IsWhole self.now }
        ensures inside { IfSome result (λ x. x.rest ≤ length self.now.frames.items) }
        ensures step { (t : Setting) (ball : Tree)
            → thrown_result t self.now ball result ≡ thrown (limits_in t self.now) (state_in t self.now) ball (node_of t.view self.now list).goals }
    {
        let mut at = list;
        while let Some(frame) = first_task(&self.frames, at) {
            if let Task::Leave(height) = frame.task {
                return Some(CatchExit {
                    height,
                    rest: frame.continuation,
                });
            }
            at = frame.continuation;
        }
        None
    }

    /// Goes back to the `catch/3` whose choice point is the newest up to just above a height. Where the newest is no such
    /// choice point nothing is changed.
    pub fn back_to_catch(&mut self, height: usize) -> Option<CatchPoint>
        requires whole { IsWhole self.old }
        ensures whole { IsWhole self.new }
        ensures inside { IfSome result (λ k. Holds self.new.store k.catcher × Holds self.new.store k.recovery × (k.next ≤ length self.new.frames.items)) }
        ensures step { (t : Setting) (ball : Tree) (rest : ℕ) → rest ≤ length self.old.frames.items
            → caught_result t self.new ball (node_of t.view self.old rest).goals result
            ≡ caught (limits_in t self.old) (state_in t self.old) ball (node_of t.view self.old rest).goals (up_to (suc height) (choices_of t.view self.old)) }
        ensures kept { IfNone result (self.new ≡ self.old) }
        ensures budgets { self.new.budgets ≡ self.old.budgets }
    {
        let count = self.choices.len();
        if count == 0 {
            return None;
        }
        let at = newest_below(height, count);
        let Some((catcher, recovery)) = catch_of(&self.choices[at].alternative) else {
            return None;
        };
        self.cut_to(at + 1);
        match self.backtrack() {
            Some(k) => Some(CatchPoint {
                catcher,
                recovery,
                next: k.next,
            }),
            None => unreachable!(),
        }
    }
}

/// The catcher and the recovery goal, if it is a `catch/3`.
fn catch_of(alternative: &Alternative) -> Option<(Place, Place)>
    ensures { MatchOption result ((c w : Place) → alternative.now ≡ Alternative.Catch c w → ⊥) (λ k. alternative.now ≡ Alternative.Catch k.0 k.1) }
{
    match alternative {
        Alternative::Catch { catcher, recovery } => Some((*catcher, *recovery)),
        _ => None,
    }
}

/// The place of the newest of so many choice points that stands at a height or below.
fn newest_below(height: usize, count: usize) -> usize
    requires { 0 < count }
    ensures below { result < count }
    ensures same { count - (height + 1) ≡ count - (result + 1) }
{
    if height < count { height } else { count - 1 }
}
