//! A turn in which a script is asked for its next item.
ghost use Rattle.std.specs.Prelude.{◌≡◌, false, IfErr, IfOk, IsSome, OnOk};
ghost use Rattle.std.specs.List.{All};
ghost use Rattle.script_api.specs.Scripts.{IsLater};
ghost use Rattle.world_api.specs.Texts.{Holds};
ghost use Rattle.world_api.specs.Told.{has_ended};
ghost use Rattle.engine_run.specs.Endings.{IsEndOfTurn};
ghost use Rattle.engine_run.specs.Items.{IsDirectiveAsked};
ghost use Rattle.engine_run.specs.Ran.{IsNameHeld};
ghost use Rattle.engine_run.specs.Runners.{HasAsked, HasBegun, IsBetween, IsStillSearching, at_stage, ends_by, is_over, stage_at, wanted_in};
ghost use Rattle.engine_run.specs.Searched.{IsRefusedOnce, UnlessMemory, last_refusals};

use crate::ending::ends_over;
use crate::runner::{Runner, Stage, Turn};
use crate::unfinished::Unfinished;
use iso_engine::engine::Engine;
use named_terms::NamedTerm;
use pl_model::ends::How;
use pl_term::Memory;
use script_api::{Next, Script};
use term_store::Stored;
use world_api::World;

impl<S: Script<Term = Stored> + Drop> Runner<S> {
    /// Asks the script for its next item, where a directive has ended so, or none is at hand, and begins its search.
    pub(crate) fn ask<W: World<Term = Stored>>(
        &mut self,
        ended: Option<How<NamedTerm>>,
        world: &mut W,
        atoms: &mut W::A,
    ) -> Result<Turn, Unfinished>
        requires runs { has_ended (W.told world.old).engine (W.told world.old).history ≡ false }
        requires asked { IsDirectiveAsked (S.part self.old.script) ended }
        requires goes_on { S.over self.old.script ≡ false }
        requires held { All (λ a. IsSome (W.A.held atoms.old a)) (S.names self.old.script) }
        ensures asked { UnlessMemory result (HasAsked S.execution S.part S.plays S.kept S.name S.variables
            (W.A.held atoms.old) (W.told world.old) self.old ended (W.A.held atoms.new) (W.told world.new) self.new result) }
        ensures ready { UnlessMemory result (IsBetween S.part S.over S.names (W.A.held atoms.new) (W.told world.new) self.new) }
        ensures over { UnlessMemory result (is_over self.new.stage ≡ ends_by result) }
        ensures searching { IfErr result (IsStillSearching self.new.stage) }
        ensures named { UnlessMemory result (S.name self.new.script ≡ S.name self.old.script) }
        ensures word { UnlessMemory result (S.word self.new.script ≡ S.word self.old.script) }
        ensures lines { UnlessMemory result (self.new.lines ≡ self.old.lines) }
        ensures alias { IfErr result (IsNameHeld (W.A.held atoms.new)) }
        ensures told { IfOk result IsEndOfTurn }
        ensures later { UnlessMemory result (IsLater (W.told world.old) (W.told world.new)) }
        ensures runs { has_ended (W.told world.new).engine (W.told world.new).history ≡ false }
        ensures holds { Holds (W.A.held atoms.old) (W.A.held atoms.new) }
        ensures refusals { UnlessMemory result (IsRefusedOnce (W.A.refusals atoms.old) (W.A.refusals atoms.new) (last_refusals result)) }
    {
        let next = self.script.next(
            ended.as_ref(),
            world,
            atoms,
            &mut self.text,
            &mut self.moves,
        );
        match next {
            Next::Item { goal, directive } => {
                self.begin(&goal, directive)?;
                Ok(Turn::Goes)
            }
            Next::Done { halted } => {
                self.go_to(Stage::Over);
                Ok(Turn::Ended(ends_over(halted)))
            }
            Next::NeedsAtoms(pass) => {
                self.go_to(Stage::Asks);
                Err(Unfinished::NeedsAtoms(pass))
            }
            Next::Retry(_cause) => {
                self.go_to(Stage::Asks);
                Ok(Turn::Goes)
            }
            Next::Worn(word) => {
                self.go_to(Stage::Asks);
                Err(Unfinished::Worn(word))
            }
            Next::Memory => Err(Unfinished::Memory),
        }
    }

    /// Begins the search of a goal: of one solution, where it is that of a directive. The only error is out of memory.
    fn begin(&mut self, goal: &Stored, directive: bool) -> Result<(), Memory>
        ensures begun { OnOk result (HasBegun goal.now directive self.old self.new) }
    {
        let _nodes = goal.nodes();
        let wanted = self.wanted_in(directive);
        let engine = Engine::new(self.alloc, goal, self.budgets, wanted, self.stays)?;
        self.stage = stage_at(engine, directive);
        Ok(())
    }

    /// Goes to another stage.
    fn go_to(&mut self, stage: Stage)
        ensures { self.new ≡ at_stage self.old stage }
    {
        self.stage = stage;
    }

    /// How many solutions are wanted.
    fn wanted_in(&self, directive: bool) -> u64
        ensures { result ≡ wanted_in self.now directive }
    {
        if directive { 1 } else { self.wanted }
    }
}

/// The stage at which the engine searches for this item.
fn stage_at(engine: Engine, directive: bool) -> Stage
    ensures { result ≡ stage_at engine directive }
{
    if directive {
        Stage::Directs(engine)
    } else {
        Stage::Searches(engine)
    }
}
