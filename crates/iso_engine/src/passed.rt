//! Goals that are passed at once.
ghost use Rattle.std.specs.Prelude.{◌≡◌, IfOk, OnOk};
ghost use Rattle.iso_search.specs.Searching.{IsWhole};
ghost use Rattle.iso_engine.specs.declared.doing.Doing.TheVariants.{Running};
ghost use Rattle.iso_engine.specs.Quick.{IsPassed};

use crate::doing::Doing;
use crate::engine::Engine;
use crate::kinds::passes;
use crate::quick::Quick;
use crate::running::pass;
use iso_search::construct::passing_at;
use iso_search::frames::{Task, first_task};
use pl_term::Memory;

impl Engine {
    /// Takes up the first goal of a list at once, where it only has further tasks done, or drops choice points: it is `true`, a cut or a
    /// conjunction. The only error is out of memory.
    #[inline(always)]
    pub fn pass_first(&mut self, list: usize) -> Result<Quick, Memory>
        requires whole { IsWhole self.old.search }
        requires list { self.old.doing ≡ Running list }
        ensures whole { OnOk result (IsWhole self.new.search) }
        ensures passed { IfOk result (IsPassed self.old self.new) }
        ensures budgets { OnOk result (self.new.search.budgets ≡ self.old.search.budgets) }
        ensures kept { OnOk result (self.new ≡ record self.old { search = self.new.search; doing = self.new.doing }) }
    {
        if let Some(frame) = first_task(&self.search.frames, list) {
            if let Task::Goal(goal, cut) = frame.task {
                if let Some(kind) = passing_at(&self.search.store, goal) {
                    if passes(kind) {
                        let next = pass(&mut self.search, goal, kind, cut, frame.continuation)?;
                        self.run_next(next);
                        return Ok(Quick::Went);
                    }
                }
            }
        }
        Ok(Quick::Other)
    }
}
