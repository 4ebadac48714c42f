//! Solutions.
ghost use Rattle.std.specs.Prelude.{◌≡◌, ◌++◌, ℕ, [], false, List, IfNone, IfOk, OnOk};
ghost use Rattle.pl_model.specs.Resolution.{Output};
ghost use Rattle.world_api.specs.Texts.{Holds};
ghost use Rattle.world_api.specs.Told.{has_ended};
ghost use Rattle.iso_search.specs.Frames.{tasks};
ghost use Rattle.iso_search.specs.Reading.{IsView};
ghost use Rattle.iso_engine.specs.declared.doing.Doing.TheVariants.{Running};
ghost use Rattle.iso_engine.specs.Views.{view_of};
ghost use Rattle.iso_engine.specs.Ready.{IsReady};
ghost use Rattle.iso_engine.specs.Spending.{IsSpent};
ghost use Rattle.iso_engine.specs.Slices.{IsStepped, written_text};
ghost use Rattle.iso_engine.specs.Unserved.{as_stopped, stopped_refusals};

use crate::doing::Doing;
use crate::engine::Engine;
use crate::looking::look;
use crate::slices::Slice;
use world_api::{Unserved, World};

impl Engine {
    /// Gives the solution where nothing is left to be done, with the operators that stand now.
    #[inline(never)]
    pub fn solve<W: World>(
        &mut self,
        world: &mut W,
        atoms: &mut W::A,
    ) -> Result<Option<Slice>, Unserved>
        requires runs { has_ended (W.told world.old).engine (W.told world.old).history ≡ false }
        requires ready { IsReady (W.A.held atoms.old) (W.told world.old) self.old }
        requires list { (list : ℕ) × (self.old.doing ≡ Running list) × (tasks self.old.search.frames.items list ≡ []) }
        ensures runs { has_ended (W.told world.new).engine (W.told world.new).history ≡ false }
        ensures holds { Holds (W.A.held atoms.old) (W.A.held atoms.new) }
        ensures refusals { IfOk (as_stopped result) (λ o. W.A.refusals atoms.new ≡ W.A.refusals atoms.old ++ stopped_refusals o) }
        ensures asked { W.A.asked atoms.new ≡ W.A.asked atoms.old }
        ensures given { IfOk (as_stopped result) (λ o. IfNone o (self.new.solutions_found ≡ self.old.solutions_found)) }
        ensures spent { OnOk (as_stopped result) (IsSpent self.old.search.inferences self.new.search.inferences) }
        ensures ready { OnOk (as_stopped result) (IsReady (W.A.held atoms.new) (W.told world.new) self.new) }
        ensures stepped { IfOk (as_stopped result) (λ o. (more : List Output)
            × IsStepped (W.A.held atoms.old) (W.told world.old) self.old o (W.A.held atoms.new) (W.told world.new) self.new more × (written_text more ≡ [])) }
        ensures search { OnOk (as_stopped result) (self.new.search ≡ self.old.search) }
    {
        let Some(found) = self.solutions_found.checked_add(1) else {
            return Err(Unserved::Memory);
        };
        let operators = look(world, atoms)?;
        self.solutions_found = found;
        self.doing = Doing::Answering;
        Ok(Some(Slice::Solution(operators)))
    }
}
