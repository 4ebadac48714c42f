//! An engine with its script, run a turn after the other.
ghost use Rattle.std.specs.Prelude.{◌≡◌, [], false, IfErr, IfOk};
ghost use Rattle.script_api.specs.Scripts.{IsLater};
ghost use Rattle.world_api.specs.Texts.{Holds};
ghost use Rattle.world_api.specs.Told.{has_ended};
ghost use Rattle.engine_run.specs.Endings.{IsEndOfTurn, EndedSo};
ghost use Rattle.engine_run.specs.Ran.{IsNameHeld};
ghost use Rattle.engine_run.specs.Runners.{HasTurned, IsBetween, IsStillSearching, ends_by, is_over};
ghost use Rattle.engine_run.specs.Searched.{IsRefusedOnce, UnlessMemory, last_refusals};
ghost use Rattle.world_api.specs.Told.{Told};
ghost use Rattle.iso_engine.specs.Ready.{IsReady};
ghost use Rattle.engine_run.specs.declared.runner.Stage.TheVariants.{Asks};

use crate::ending::how_at;
use crate::unfinished::Unfinished;
use atom_api::Atoms;
use iso_engine::doing::Doing;
use iso_engine::engine::{Engine, Stays};
use iso_search::search::Budgets;
use named_terms::NamedTerm;
use pl_model::ends::How;
use pl_term::Memory;
use script_api::Script;
use std::alloc::Global;
use std::mem;
use term_store::Stored;
use world_api::World;

/// What is written of an engine's goal.
#[derive(Clone, Copy, Debug, Drop)]
pub enum Lines {
    /// What it writes, and nothing of its solutions: it is a thread's.
    Texts,
    /// What it writes, and a line for each of its solutions: it is one of the command's. The script knows the names of its
    /// variables.
    Solutions,
}

/// How far an engine has come.
#[derive(Drop)]
pub enum Stage {
    /// The script is to be asked for its next item.
    Asks,
    /// The goal of a directive is searched for.
    Directs(Engine),
    /// The engine's goal is searched for.
    Searches(Engine),
    /// It has ended.
    Over,
}

/// What a turn leads to.
#[derive(Drop)]
pub enum Turn {
    /// The engine goes on.
    Goes,
    /// It has ended so.
    Ended(How<NamedTerm>),
}

/// An engine with its script: the budgets of each of its searches, how many solutions of its goal are wanted, what is
/// written of them, whether thread_exit/1 leaves it, what was written of the file and of the goal so far, and how many moves
/// it has made.
#[derive(Drop)]
pub struct Runner<S> {
    pub(crate) alloc: Global,
    pub(crate) script: S,
    pub(crate) stage: Stage,
    pub(crate) budgets: Budgets,
    pub(crate) wanted: u64,
    pub(crate) lines: Lines,
    pub(crate) stays: Stays,
    pub(crate) text: Vec<u8>,
    pub(crate) output: Vec<u8>,
    pub(crate) moves: u64,
}

impl<S: Script<Term = Stored> + Drop> Runner<S> {
    /// An engine that has made no move, of whose file so much was written.
    pub fn new(
        alloc: Global,
        script: S,
        budgets: Budgets,
        wanted: u64,
        lines: Lines,
        text: Vec<u8>,
        stays: Stays,
    ) -> Runner<S>
        ensures script { result.script ≡ script }
        ensures stage { result.stage ≡ Asks }
        ensures budgets { result.budgets ≡ budgets }
        ensures wanted { result.wanted ≡ wanted }
        ensures lines { result.lines ≡ lines }
        ensures stays { result.stays ≡ stays }
        ensures text { result.text ≡ text }
        ensures output { result.output.items ≡ [] }
        ensures moves { result.moves ≡ 0 }
    {
        Runner {
            alloc,
            script,
            stage: Stage::Asks,
            budgets,
            wanted,
            lines,
            stays,
            text,
            output: Vec::new(alloc),
            moves: 0,
        }
    }

    /// Its script.
    pub fn script(&self) -> &S
        ensures { result.now ≡ self.now.script }
    {
        &self.script
    }

    /// Its script, what was written of the file, and what its goal has given.
    pub fn into_parts(self) -> (S, Vec<u8>, Vec<u8>)
        ensures script { result.0 ≡ self.script }
        ensures text { result.1 ≡ self.text }
        ensures output { result.2 ≡ self.output }
    {
        let Runner {
            script,
            text,
            output,
            ..
        } = self;
        (script, text, output)
    }

    /// A turn: the next item of the script, or a slice of at most so many inferences of the search of the item at hand, or
    /// the script is told how that search has ended. The error says why the engine does not go on; it can be run again by
    /// another turn, unless memory ran out.
    pub fn turn<W: World<Term = Stored>>(
        &mut self,
        world: &mut W,
        atoms: &mut W::A,
        inferences: u32,
    ) -> Result<Turn, Unfinished>
        requires runs { has_ended (W.told world.old).engine (W.told world.old).history ≡ false }
        requires ready { IsBetween S.part S.over S.names (W.A.held atoms.old) (W.told world.old) self.old }
        requires going { is_over self.old.stage ≡ false }
        ensures turned { UnlessMemory result (HasTurned S.execution S.part S.plays S.kept S.name S.variables
            (W.A.held atoms.old) (W.told world.old) self.old (W.A.held atoms.new) (W.told world.new) self.new result) }
        ensures ready { UnlessMemory result (IsBetween S.part S.over S.names (W.A.held atoms.new) (W.told world.new) self.new) }
        ensures over { UnlessMemory result (is_over self.new.stage ≡ ends_by result) }
        ensures searching { IfErr result (IsStillSearching self.new.stage) }
        ensures named { UnlessMemory result (S.name self.new.script ≡ S.name self.old.script) }
        ensures word { UnlessMemory result (S.word self.new.script ≡ S.word self.old.script) }
        ensures lines { UnlessMemory result (self.new.lines ≡ self.old.lines) }
        ensures alias { IfErr result (IsNameHeld (W.A.held atoms.new)) }
        ensures told { IfOk result IsEndOfTurn }
        ensures later { UnlessMemory result (IsLater (W.told world.old) (W.told world.new)) }
        ensures runs { has_ended (W.told world.new).engine (W.told world.new).history ≡ false }
        ensures holds { Holds (W.A.held atoms.old) (W.A.held atoms.new) }
        ensures refusals { UnlessMemory result (IsRefusedOnce (W.A.refusals atoms.old) (W.A.refusals atoms.new) (last_refusals result)) }
    {
        match mem::replace(&mut self.stage, Stage::Over) {
            Stage::Asks => self.ask(None, world, atoms),
            Stage::Directs(engine) => self.directive_turn(engine, world, atoms, inferences),
            Stage::Searches(engine) => self.goal_turn(engine, world, atoms, inferences),
            Stage::Over => unreachable!(),
        }
    }
}

/// How the search of an engine has ended, if it has. The only error is out of memory.
pub(crate) fn ended_at<A: Atoms>(
    alloc: Global,
    engine: &Engine,
    atoms: &mut A,
) -> Result<Option<How<NamedTerm>>, Memory>
    requires ready { (t : Told) × IsReady (A.held atoms.old) t engine.now }
    ensures how { IfOk result (EndedSo (A.held atoms.old) engine.now) }
    ensures same { A.held atoms.new ≡ A.held atoms.old }
    ensures refusals { A.refusals atoms.new ≡ A.refusals atoms.old }
{
    match &engine.doing {
        Doing::Ended(_) => {
            let how = how_at(alloc, engine, atoms)?;
            Ok(Some(how))
        }
        _ => Ok(None),
    }
}
