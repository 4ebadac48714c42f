//! Turns of the search of the item at hand: a slice of it, or its end is told to the script.
ghost use Rattle.std.specs.Prelude.{◌≡◌, false, IfErr, IfOk};
ghost use Rattle.script_api.specs.Scripts.{IsLater};
ghost use Rattle.world_api.specs.Texts.{Holds};
ghost use Rattle.world_api.specs.Told.{has_ended};
ghost use Rattle.iso_engine.specs.Ready.{IsReady};
ghost use Rattle.engine_run.specs.Endings.{IsEndOfTurn};
ghost use Rattle.engine_run.specs.Ran.{IsNameHeld};
ghost use Rattle.engine_run.specs.Runners.{HasDirected, HasSearched, HasTurned, IsBetween, IsStillSearching, at_stage, ends_by, goes_by, is_over};
ghost use Rattle.engine_run.specs.Searched.{IsRefusedOnce, UnlessMemory, last_refusals};
ghost use Rattle.engine_run.specs.declared.runner.Stage.TheVariants.{Directs, Searches};

use crate::runner::{Runner, Stage, Turn, ended_at};
use crate::slices::{slice_with, text_slice};
use crate::unfinished::Unfinished;
use iso_engine::engine::Engine;
use script_api::Script;
use term_store::Stored;
use world_api::World;

impl<S: Script<Term = Stored> + Drop> Runner<S> {
    /// A turn of the search of the directive at hand.
    pub(crate) fn directive_turn<W: World<Term = Stored>>(
        &mut self,
        engine: Engine,
        world: &mut W,
        atoms: &mut W::A,
        inferences: u32,
    ) -> Result<Turn, Unfinished>
        requires runs { has_ended (W.told world.old).engine (W.told world.old).history ≡ false }
        requires ready { IsBetween S.part S.over S.names (W.A.held atoms.old) (W.told world.old) (at_stage self.old (Directs engine)) }
        ensures turned { UnlessMemory result (HasTurned S.execution S.part S.plays S.kept S.name S.variables
            (W.A.held atoms.old) (W.told world.old) (at_stage self.old (Directs engine)) (W.A.held atoms.new) (W.told world.new) self.new result) }
        ensures ready { UnlessMemory result (IsBetween S.part S.over S.names (W.A.held atoms.new) (W.told world.new) self.new) }
        ensures over { UnlessMemory result (is_over self.new.stage ≡ ends_by result) }
        ensures searching { IfErr result (IsStillSearching self.new.stage) }
        ensures named { UnlessMemory result (S.name self.new.script ≡ S.name self.old.script) }
        ensures word { UnlessMemory result (S.word self.new.script ≡ S.word self.old.script) }
        ensures lines { UnlessMemory result (self.new.lines ≡ self.old.lines) }
        ensures alias { IfErr result (IsNameHeld (W.A.held atoms.new)) }
        ensures told { IfOk result IsEndOfTurn }
        ensures later { UnlessMemory result (IsLater (W.told world.old) (W.told world.new)) }
        ensures runs { has_ended (W.told world.new).engine (W.told world.new).history ≡ false }
        ensures holds { Holds (W.A.held atoms.old) (W.A.held atoms.new) }
        ensures refusals { UnlessMemory result (IsRefusedOnce (W.A.refusals atoms.old) (W.A.refusals atoms.new) (last_refusals result)) }
    {
        match ended_at(self.alloc, &engine, atoms)? {
            None => self.slice_directive(engine, world, atoms, inferences),
            Some(how) => self.ask(Some(how), world, atoms),
        }
    }

    /// A turn of the search of the engine's goal.
    pub(crate) fn goal_turn<W: World<Term = Stored>>(
        &mut self,
        engine: Engine,
        world: &mut W,
        atoms: &mut W::A,
        inferences: u32,
    ) -> Result<Turn, Unfinished>
        requires runs { has_ended (W.told world.old).engine (W.told world.old).history ≡ false }
        requires ready { IsBetween S.part S.over S.names (W.A.held atoms.old) (W.told world.old) (at_stage self.old (Searches engine)) }
        ensures turned { UnlessMemory result (HasTurned S.execution S.part S.plays S.kept S.name S.variables
            (W.A.held atoms.old) (W.told world.old) (at_stage self.old (Searches engine)) (W.A.held atoms.new) (W.told world.new) self.new result) }
        ensures ready { UnlessMemory result (IsBetween S.part S.over S.names (W.A.held atoms.new) (W.told world.new) self.new) }
        ensures over { UnlessMemory result (is_over self.new.stage ≡ ends_by result) }
        ensures searching { IfErr result (IsStillSearching self.new.stage) }
        ensures named { UnlessMemory result (S.name self.new.script ≡ S.name self.old.script) }
        ensures word { UnlessMemory result (S.word self.new.script ≡ S.word self.old.script) }
        ensures lines { UnlessMemory result (self.new.lines ≡ self.old.lines) }
        ensures alias { IfErr result (IsNameHeld (W.A.held atoms.new)) }
        ensures told { IfOk result IsEndOfTurn }
        ensures later { UnlessMemory result (IsLater (W.told world.old) (W.told world.new)) }
        ensures runs { has_ended (W.told world.new).engine (W.told world.new).history ≡ false }
        ensures holds { Holds (W.A.held atoms.old) (W.A.held atoms.new) }
        ensures refusals { UnlessMemory result (IsRefusedOnce (W.A.refusals atoms.old) (W.A.refusals atoms.new) (last_refusals result)) }
    {
        match ended_at(self.alloc, &engine, atoms)? {
            None => self.slice_goal(engine, world, atoms, inferences),
            Some(how) => self.close(how, world, atoms),
        }
    }

    /// Runs a slice of the search of the directive at hand: what it writes is of the file.
    fn slice_directive<W: World<Term = Stored>>(
        &mut self,
        engine: Engine,
        world: &mut W,
        atoms: &mut W::A,
        inferences: u32,
    ) -> Result<Turn, Unfinished>
        requires runs { has_ended (W.told world.old).engine (W.told world.old).history ≡ false }
        requires ready { IsReady (W.A.held atoms.old) (W.told world.old) engine }
        ensures directed { UnlessMemory result (HasDirected (W.A.held atoms.old) (W.told world.old) self.old engine (W.A.held atoms.new) (W.told world.new) self.new result) }
        ensures goes { result ≡ goes_by result }
        ensures runs { has_ended (W.told world.new).engine (W.told world.new).history ≡ false }
        ensures holds { Holds (W.A.held atoms.old) (W.A.held atoms.new) }
        ensures refusals { UnlessMemory result (IsRefusedOnce (W.A.refusals atoms.old) (W.A.refusals atoms.new) (last_refusals result)) }
    {
        let mut engine = engine;
        let sliced = text_slice(
            &mut engine,
            world,
            atoms,
            &mut self.text,
            &mut self.moves,
            inferences,
        );
        self.stage = Stage::Directs(engine);
        goes(sliced)
    }

    /// Runs a slice of the search of the engine's goal.
    fn slice_goal<W: World<Term = Stored>>(
        &mut self,
        engine: Engine,
        world: &mut W,
        atoms: &mut W::A,
        inferences: u32,
    ) -> Result<Turn, Unfinished>
        requires runs { has_ended (W.told world.old).engine (W.told world.old).history ≡ false }
        requires ready { IsReady (W.A.held atoms.old) (W.told world.old) engine }
        ensures searched { UnlessMemory result (HasSearched S.variables (W.A.held atoms.old) (W.told world.old) self.old engine (W.A.held atoms.new) (W.told world.new) self.new result) }
        ensures goes { result ≡ goes_by result }
        ensures runs { has_ended (W.told world.new).engine (W.told world.new).history ≡ false }
        ensures holds { Holds (W.A.held atoms.old) (W.A.held atoms.new) }
        ensures refusals { UnlessMemory result (IsRefusedOnce (W.A.refusals atoms.old) (W.A.refusals atoms.new) (last_refusals result)) }
    {
        let mut engine = engine;
        let sliced = slice_with(
            self.alloc,
            self.lines,
            &mut engine,
            self.script.variable_names(),
            world,
            atoms,
            &mut self.output,
            &mut self.moves,
            inferences,
        );
        self.stage = Stage::Searches(engine);
        goes(sliced)
    }
}

/// What a turn leads to in which a slice was run.
fn goes(sliced: Result<(), Unfinished>) -> Result<Turn, Unfinished>
    ensures { result ≡ goes_by sliced }
{
    match sliced {
        Ok(()) => Ok(Turn::Goes),
        Err(unfinished) => Err(unfinished),
    }
}
