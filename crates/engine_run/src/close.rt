//! The turn in which a script is told how the search of its goal has ended.
ghost use Rattle.std.specs.Prelude.{◌≡◌, false, IfErr, IfOk, IsSome, Some};
ghost use Rattle.std.specs.List.{All};
ghost use Rattle.script_api.specs.Parts.{of_goal};
ghost use Rattle.script_api.specs.Scripts.{IsLater};
ghost use Rattle.world_api.specs.Texts.{Holds};
ghost use Rattle.world_api.specs.Told.{has_ended};
ghost use Rattle.engine_run.specs.Endings.{IsEndOfSearch, IsEndOfTurn};
ghost use Rattle.engine_run.specs.Ran.{IsNameHeld};
ghost use Rattle.engine_run.specs.Runners.{HasClosed, IsBetween, IsStillSearching, ends_by, is_over};
ghost use Rattle.engine_run.specs.Searched.{IsRefusedOnce, UnlessMemory, last_refusals};

use crate::runner::{Runner, Stage, Turn};
use crate::unfinished::Unfinished;
use named_terms::NamedTerm;
use pl_model::ends::How;
use script_api::{Next, Script};
use term_store::Stored;
use world_api::World;

impl<S: Script<Term = Stored> + Drop> Runner<S> {
    /// Gives the end of the goal at hand to the script. The engine has ended then.
    pub(crate) fn close<W: World<Term = Stored>>(
        &mut self,
        how: How<NamedTerm>,
        world: &mut W,
        atoms: &mut W::A,
    ) -> Result<Turn, Unfinished>
        requires runs { has_ended (W.told world.old).engine (W.told world.old).history ≡ false }
        requires at_hand { S.part self.old.script ≡ Some of_goal }
        requires goes_on { S.over self.old.script ≡ false }
        requires held { All (λ a. IsSome (W.A.held atoms.old a)) (S.names self.old.script) }
        requires told { IsEndOfSearch how }
        ensures closed { UnlessMemory result (HasClosed S.execution S.part S.plays S.kept S.name S.variables
            (W.A.held atoms.old) (W.told world.old) self.old how (W.A.held atoms.new) (W.told world.new) self.new result) }
        ensures ready { UnlessMemory result (IsBetween S.part S.over S.names (W.A.held atoms.new) (W.told world.new) self.new) }
        ensures over { UnlessMemory result (is_over self.new.stage ≡ ends_by result) }
        ensures searching { IfErr result (IsStillSearching self.new.stage) }
        ensures named { UnlessMemory result (S.name self.new.script ≡ S.name self.old.script) }
        ensures word { UnlessMemory result (S.word self.new.script ≡ S.word self.old.script) }
        ensures lines { UnlessMemory result (self.new.lines ≡ self.old.lines) }
        ensures alias { IfErr result (IsNameHeld (W.A.held atoms.new)) }
        ensures told { IfOk result IsEndOfTurn }
        ensures later { UnlessMemory result (IsLater (W.told world.old) (W.told world.new)) }
        ensures runs { has_ended (W.told world.new).engine (W.told world.new).history ≡ false }
        ensures holds { Holds (W.A.held atoms.old) (W.A.held atoms.new) }
        ensures refusals { UnlessMemory result (IsRefusedOnce (W.A.refusals atoms.old) (W.A.refusals atoms.new) (last_refusals result)) }
    {
        let next = self
            .script
            .next(Some(&how), world, atoms, &mut self.text, &mut self.moves);
        match next {
            Next::Done { .. } => {
                self.stage = Stage::Over;
                Ok(Turn::Ended(how))
            }
            Next::Memory => Err(Unfinished::Memory),
            _ => unreachable!(),
        }
    }
}
