//! Goals that write.
ghost use Rattle.std.specs.Prelude.{◌≡◌, ◌≤◌, ◌++◌, ℕ, ◌∷◌, false, length, List, IfOk, OnOk, encode_utf8_all};
ghost use Rattle.pl_model.specs.Resolution.{Output};
ghost use Rattle.world_api.specs.Texts.{Holds};
ghost use Rattle.world_api.specs.Told.{has_ended};
ghost use Rattle.iso_search.specs.declared.frames.Task.TheVariants.{Goal};
ghost use Rattle.iso_search.specs.Frames.{tasks};
ghost use Rattle.iso_engine.specs.declared.doing.Doing.TheVariants.{Running};
ghost use Rattle.iso_engine.specs.Ready.{IsReady};
ghost use Rattle.iso_engine.specs.Spending.{IsSpent};
ghost use Rattle.iso_engine.specs.Slices.{IsStepped, written_text};
ghost use Rattle.iso_engine.specs.Unserved.{as_stopped, stopped_refusals};
ghost use Rattle.iso_engine.specs.Writes.{IsWriteAt};

pub mod characters;
pub mod goals;
pub mod writing;
pub mod wrote;

use crate::engine::Engine;
use crate::following::follow;
use crate::slices::Slice;
use crate::write::writing::write_goal;
use crate::write::wrote::Wrote;
use iso_search::outcome::{Fault, Outcome};
use term_store::Place;
use world_api::{Procedure, Unserved, World};

impl Engine {
    /// Takes up the goal at a place, which writes and has this predicate, before the tasks of a list (ISO 8.12 and 8.14.2). What
    /// it writes is put after `out`.
    pub fn write<W: World>(
        &mut self,
        goal: Place,
        procedure: Procedure,
        rest: usize,
        world: &mut W,
        atoms: &mut W::A,
        out: &mut Vec<u8>,
    ) -> Result<Option<Slice>, Unserved>
        requires runs { has_ended (W.told world.old).engine (W.told world.old).history ≡ false }
        requires ready { IsReady (W.A.held atoms.old) (W.told world.old) self.old }
        requires list { (list cut : ℕ) × (self.old.doing ≡ Running list)
            × (tasks self.old.search.frames.items list ≡ Goal goal cut ∷ tasks self.old.search.frames.items rest) }
        requires rest { rest ≤ length self.old.search.frames.items }
        requires writes { IsWriteAt self.old.search.store goal procedure }
        ensures runs { has_ended (W.told world.new).engine (W.told world.new).history ≡ false }
        ensures holds { Holds (W.A.held atoms.old) (W.A.held atoms.new) }
        ensures refusals { IfOk (as_stopped result) (λ o. W.A.refusals atoms.new ≡ W.A.refusals atoms.old ++ stopped_refusals o) }
        ensures asked { W.A.asked atoms.new ≡ W.A.asked atoms.old }
        ensures given { OnOk (as_stopped result) (self.new.solutions_found ≡ self.old.solutions_found) }
        ensures spent { OnOk (as_stopped result) (IsSpent self.old.search.inferences self.new.search.inferences) }
        ensures ready { OnOk (as_stopped result) (IsReady (W.A.held atoms.new) (W.told world.new) self.new) }
        ensures stepped { IfOk (as_stopped result) (λ o. (more : List Output)
            × IsStepped (W.A.held atoms.old) (W.told world.old) self.old o (W.A.held atoms.new) (W.told world.new) self.new more
            × (out.new.items ≡ out.old.items ++ encode_utf8_all (written_text more))) }
    {
        let tried = write_goal(self.alloc, &mut self.search, world, atoms, out, goal, rest)?;
        let Some(wrote) = tried else {
            unreachable!();
        };
        match wrote {
            Wrote::Spent => {
                let spent = Outcome::Raise(Fault::Inferences);
                self.doing = follow(self.alloc, &self.search, spent, procedure, rest)?;
                Ok(None)
            }
            Wrote::Ran(outcome) => {
                self.doing = follow(self.alloc, &self.search, outcome, procedure, rest)?;
                Ok(None)
            }
        }
    }
}
