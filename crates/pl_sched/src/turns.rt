//! Turns of an engine that a worker carries.
ghost use Rattle.std.specs.Prelude.{◌≡◌, ◌⊎◌, false, Ok};
ghost use Rattle.pl_model.specs.declared.ends.SlotPass.{SlotPass as Pass};
ghost use Rattle.atom_words.specs.Seats.{seen};
ghost use Rattle.atom_table.specs.Naming.{names};
ghost use Rattle.engine_run.specs.Runners.{is_over};
ghost use Rattle.engine_run.specs.Searched.{UnlessMemory};
ghost use Rattle.pl_hub.specs.Fronts.{IsOwn, told_of};
ghost use Rattle.pl_sched.specs.declared.mark.Mark.TheVariants.{ForCycles, Ready};
ghost use Rattle.pl_sched.specs.Runs.{HasGone, RunsOn, stopping};
ghost use Rattle.pl_sched.specs.Written.{WritesSo};

use crate::ends::{end, end_or_wait, end_without_atoms};
use crate::ground::Ground;
use crate::home::{Home, Parts, has_ended};
use crate::known::KnownAtoms;
use crate::mark::Mark;
use crate::naming::Command;
use crate::records::{told_pass, worn};
use crate::world::HubWorld;
use atom_table::TableAtoms;
use engine_run::{Runner, Turn, Unfinished};
use pl_history::Front;
use pl_io::Gate;
use pl_model::ends::SlotPass;
use pl_term::Memory;
use script_api::{Living, Resident, Script};
use std::sync::Wait;
use term_store::Stored;

/// Lets this worker run an engine that has left its home for one turn, and brings it back with the mark that says why it
/// stopped. The only error is out of memory.
pub(crate) fn turn<
    'a,
    't,
    S: Living + Script<Term = Stored> + Drop,
    K: Command,
    R: Wait,
    G: Gate,
    P,
>(
    ground: &Ground<'a, 't, Runner<S>, K, R, G, P>,
    worker: u32,
    home: Home<'t, Runner<S>, K>,
    inferences: u32,
) -> Result<Home<'t, Runner<S>, K>, Memory> {
    let parts = home.into_parts();
    if has_ended(&parts.mark) {
        return Ok(Home::new(parts));
    }
    let Parts {
        engine,
        atoms,
        front,
        number,
        mark,
    } = parts;
    let earlier = pass_of(&mark);
    go_on(
        ground, worker, engine, atoms, front, number, inferences, earlier,
    )
}

/// The pass that showed that an atom has no place, where the engine waited for cycles of collection since.
fn pass_of(mark: &Mark) -> Option<SlotPass> {
    match mark {
        Mark::ForCycles(pass) => Some(*pass),
        _ => None,
    }
}

/// The mark of an engine that goes on. Where it has made no step since a pass showed that an atom has no place, it keeps the pass.
fn going(earlier: Option<SlotPass>) -> Mark
    ensures { (result ≡ Ready) ⊎ ((s : Pass) × (result ≡ ForCycles s)) }
{
    match earlier {
        None => Mark::Ready,
        Some(pass) => Mark::ForCycles(pass),
    }
}

/// Lets the engine run for one turn, and brings it home. `earlier` is the pass which showed that an atom of its next step has no
/// place, if one did.
fn go_on<'a, 't, S: Living + Script<Term = Stored> + Drop, K: Command, R: Wait, G: Gate, P>(
    ground: &Ground<'a, 't, Runner<S>, K, R, G, P>,
    worker: u32,
    engine: Runner<S>,
    atoms: TableAtoms<'t, K>,
    front: Front,
    number: u64,
    inferences: u32,
    earlier: Option<SlotPass>,
) -> Result<Home<'t, Runner<S>, K>, Memory>
    requires own { IsOwn K.history number front }
    requires way { RunsOn S.execution S.part S.plays S.kept S.name S.variables S.over S.names K.program (names (seen atoms.seat)) (told_of K.goals front) engine }
    requires going { is_over engine.stage ≡ false }
    requires writes { WritesSo K.program K.file K.board number (record { lines = engine.lines; file = S.name engine.script; word = S.word engine.script }) }
{
    let mut engine = engine;
    let mut known = KnownAtoms::new(ground.alloc, ground.history, atoms);
    let mut world = HubWorld::new(
        ground.runtime,
        ground.alloc,
        ground.gate,
        ground.hub,
        ground.history,
        front,
        worker,
        number,
    );
    let moves = engine.move_count();
    let turned = engine.turn(&mut world, &mut known, inferences);
    let earlier = if engine.move_count() == moves {
        earlier
    } else {
        None
    };
    settle(
        ground,
        engine,
        known.into_atoms(),
        world.into_front(),
        number,
        turned,
        earlier,
    )
}

/// Brings the engine home after a turn that led to this.
fn settle<'a, 't, S: Living + Script<Term = Stored> + Drop, K: Command, R: Wait, G: Gate, P>(
    ground: &Ground<'a, 't, Runner<S>, K, R, G, P>,
    engine: Runner<S>,
    atoms: TableAtoms<'t, K>,
    front: Front,
    number: u64,
    turned: Result<Turn, Unfinished>,
    earlier: Option<SlotPass>,
) -> Result<Home<'t, Runner<S>, K>, Memory>
    requires gone { UnlessMemory turned (HasGone S.execution S.part S.plays S.kept S.name S.variables S.over S.names K.program K.history K.goals number (names (seen atoms.seat)) front engine turned) }
    requires writes { UnlessMemory turned (WritesSo K.program K.file K.board number (record { lines = engine.lines; file = S.name engine.script; word = S.word engine.script })) }
{
    match turned {
        Ok(turn) => settle_turn(ground, engine, atoms, front, number, turn, earlier),
        Err(stop) => settle_stop(ground, engine, atoms, front, number, stop, earlier),
    }
}

/// Brings the engine home, which goes on; where its execution has ended, its end is entered.
fn settle_turn<'a, 't, S: Living + Script<Term = Stored> + Drop, K: Command, R: Wait, G: Gate, P>(
    ground: &Ground<'a, 't, Runner<S>, K, R, G, P>,
    engine: Runner<S>,
    atoms: TableAtoms<'t, K>,
    front: Front,
    number: u64,
    turn: Turn,
    earlier: Option<SlotPass>,
) -> Result<Home<'t, Runner<S>, K>, Memory>
    requires gone { HasGone S.execution S.part S.plays S.kept S.name S.variables S.over S.names K.program K.history K.goals number (names (seen atoms.seat)) front engine (Ok turn) }
    requires writes { WritesSo K.program K.file K.board number (record { lines = engine.lines; file = S.name engine.script; word = S.word engine.script }) }
{
    match turn {
        Turn::Goes => {
            let mark = going(earlier);
            Ok(Home::new(Parts {
                engine,
                atoms,
                front,
                number,
                mark,
            }))
        }
        Turn::Ended(how) => end(ground, engine, atoms, front, number, how),
    }
}

/// Brings the engine home, which waits for others or for cycles of collection, or ends since an atom has no place.
fn settle_stop<'a, 't, S: Living + Script<Term = Stored> + Drop, K: Command, R: Wait, G: Gate, P>(
    ground: &Ground<'a, 't, Runner<S>, K, R, G, P>,
    engine: Runner<S>,
    atoms: TableAtoms<'t, K>,
    front: Front,
    number: u64,
    stop: Unfinished,
    earlier: Option<SlotPass>,
) -> Result<Home<'t, Runner<S>, K>, Memory>
    requires gone { UnlessMemory (stopping stop) (HasGone S.execution S.part S.plays S.kept S.name S.variables S.over S.names K.program K.history K.goals number (names (seen atoms.seat)) front engine (stopping stop)) }
    requires writes { UnlessMemory (stopping stop) (WritesSo K.program K.file K.board number (record { lines = engine.lines; file = S.name engine.script; word = S.word engine.script })) }
{
    match stop {
        Unfinished::Waits(on, generation) => {
            let mark = Mark::Waits(on, generation);
            Ok(Home::new(Parts {
                engine,
                atoms,
                front,
                number,
                mark,
            }))
        }
        Unfinished::NeedsAtoms(pass) => end_or_wait(
            ground,
            engine,
            atoms,
            front,
            number,
            told_pass(pass),
            earlier,
        ),
        Unfinished::Worn(word) => {
            let found = worn(word);
            end_without_atoms(ground, engine, atoms, front, number, found)
        }
        Unfinished::Memory => Err(Memory),
    }
}
