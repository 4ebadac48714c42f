//! Goals of built-in predicates that are functions of their arguments.
ghost use Rattle.std.specs.Prelude.{◌≡◌, ◌≤◌, ◌++◌, ℕ, [], ◌∷◌, length, IfOk, OnOk};
ghost use Rattle.world_api.specs.Gains.{Gains};
ghost use Rattle.world_api.specs.Texts.{Holds};
ghost use Rattle.world_api.specs.Told.{Told};
ghost use Rattle.iso_search.specs.declared.frames.Task.TheVariants.{Goal};
ghost use Rattle.iso_search.specs.Frames.{tasks};
ghost use Rattle.iso_engine.specs.declared.doing.Doing.TheVariants.{Running};
ghost use Rattle.iso_engine.specs.Ready.{IsReady};
ghost use Rattle.iso_engine.specs.Rows.{IsRowAt, IsRowText};
ghost use Rattle.iso_engine.specs.Spending.{IsSpent};
ghost use Rattle.iso_engine.specs.Slices.{IsStepped};
ghost use Rattle.iso_engine.specs.Unserved.{as_stopped, stopped_refusals};

use crate::builtin::RowGoal;
use crate::engine::Engine;
use crate::rows::run_row;
use crate::slices::Slice;
use atom_api::Atoms;
use world_api::Unserved;

impl Engine {
    /// Takes up a goal of a built-in predicate that is a function of its arguments, before the tasks of a list (ISO 8.2 to 8.7,
    /// 8.16), whatever the engine was told.
    #[inline(never)]
    pub fn row<A: Atoms>(
        &mut self,
        goal: &RowGoal,
        rest: usize,
        atoms: &mut A,
    ) -> Result<Option<Slice>, Unserved>
        requires ready { (t : Told) × IsReady (A.held atoms.old) t self.old }
        requires list { (list cut : ℕ) × (self.old.doing ≡ Running list)
            × (tasks self.old.search.frames.items list ≡ Goal goal.now.place cut ∷ tasks self.old.search.frames.items rest) }
        requires rest { rest ≤ length self.old.search.frames.items }
        requires row { IsRowAt self.old.search.store goal.now }
        ensures holds { Holds (A.held atoms.old) (A.held atoms.new) }
        ensures refusals { IfOk (as_stopped result) (λ o. A.refusals atoms.new ≡ A.refusals atoms.old ++ stopped_refusals o) }
        ensures asked { Gains (λ c. (t : Told) → IsRowText (A.held atoms.old) t self.old c) (A.asked atoms.old) (A.asked atoms.new) }
        ensures given { OnOk (as_stopped result) (self.new.solutions_found ≡ self.old.solutions_found) }
        ensures spent { OnOk (as_stopped result) (IsSpent self.old.search.inferences self.new.search.inferences) }
        ensures ready { OnOk (as_stopped result) ((t : Told) → IsReady (A.held atoms.old) t self.old → IsReady (A.held atoms.new) t self.new) }
        ensures stepped { IfOk (as_stopped result) (λ o. (t : Told) → IsReady (A.held atoms.old) t self.old
            → IsStepped (A.held atoms.old) t self.old o (A.held atoms.new) t self.new []) }
    {
        let outcome = run_row(self.alloc, &mut self.search, goal, rest, atoms)?;
        self.go_on(outcome, goal.procedure(), rest)?;
        Ok(None)
    }
}
