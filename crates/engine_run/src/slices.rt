//! A slice of a search, with what is written of it.
ghost use Rattle.std.specs.Prelude.{◌≡◌, false};
ghost use Rattle.run_model.specs.Report.{texts, with_output};
ghost use Rattle.world_api.specs.Texts.{Holds};
ghost use Rattle.world_api.specs.Told.{has_ended};
ghost use Rattle.iso_engine.specs.Ready.{IsReady};
ghost use Rattle.engine_run.specs.Runners.{put_by};
ghost use Rattle.engine_run.specs.Searched.{IsRefusedOnce, IsSearched, UnlessMemory, last_refusals, stopped_by};

use crate::answer::put_answer;
use crate::runner::Lines;
use crate::unfinished::Unfinished;
use iso_engine::engine::Engine;
use iso_engine::slices::Slice;
use pl_term::Text;
use std::alloc::Global;
use term_store::Stored;
use world_api::World;

/// Runs a slice of at most so many inferences. What the goal writes is put after `out`, and of its solutions nothing is
/// (ISO 7.4.2, and goals of threads). Its steps are counted by `moves`. Whether the search has ended the engine says; the
/// error says why it does not go on otherwise.
pub(crate) fn text_slice<W: World<Term = Stored>>(
    engine: &mut Engine,
    world: &mut W,
    atoms: &mut W::A,
    out: &mut Vec<u8>,
    moves: &mut u64,
    inferences: u32,
) -> Result<(), Unfinished>
    requires runs { has_ended (W.told world.old).engine (W.told world.old).history ≡ false }
    requires ready { engine.old.out_of_memory ≡ false → IsReady (W.A.held atoms.old) (W.told world.old) engine.old }
    ensures runs { has_ended (W.told world.new).engine (W.told world.new).history ≡ false }
    ensures holds { Holds (W.A.held atoms.old) (W.A.held atoms.new) }
    ensures sound { UnlessMemory result (engine.new.out_of_memory ≡ false) }
    ensures ready { engine.new.out_of_memory ≡ false → IsReady (W.A.held atoms.new) (W.told world.new) engine.new }
    ensures refusals { UnlessMemory result (IsRefusedOnce (W.A.refusals atoms.old) (W.A.refusals atoms.new) (last_refusals result)) }
    ensures searched { UnlessMemory result (IsSearched texts (W.A.held atoms.old) (W.told world.old) engine.old moves.old
        (W.A.held atoms.new) (W.told world.new) engine.new moves.new out.old.items out.new.items result) }
{
    let slice = engine.slice(world, atoms, out, moves, inferences);
    if engine.out_of_memory {
        return Err(Unfinished::Memory);
    }
    stopped_by(slice)
}

/// The same, with the line of the slice's solution after it; `names` has the names of the goal's variables, each with the
/// variable's number.
pub(crate) fn goal_slice<W: World<Term = Stored>>(
    alloc: Global,
    engine: &mut Engine,
    names: &[(Text, u64)],
    world: &mut W,
    atoms: &mut W::A,
    out: &mut Vec<u8>,
    moves: &mut u64,
    inferences: u32,
) -> Result<(), Unfinished>
    requires runs { has_ended (W.told world.old).engine (W.told world.old).history ≡ false }
    requires ready { engine.old.out_of_memory ≡ false → IsReady (W.A.held atoms.old) (W.told world.old) engine.old }
    ensures runs { has_ended (W.told world.new).engine (W.told world.new).history ≡ false }
    ensures holds { Holds (W.A.held atoms.old) (W.A.held atoms.new) }
    ensures sound { UnlessMemory result (engine.new.out_of_memory ≡ false) }
    ensures ready { engine.new.out_of_memory ≡ false → IsReady (W.A.held atoms.new) (W.told world.new) engine.new }
    ensures refusals { UnlessMemory result (IsRefusedOnce (W.A.refusals atoms.old) (W.A.refusals atoms.new) (last_refusals result)) }
    ensures searched { UnlessMemory result (IsSearched (with_output names.now) (W.A.held atoms.old) (W.told world.old) engine.old moves.old
        (W.A.held atoms.new) (W.told world.new) engine.new moves.new out.old.items out.new.items result) }
{
    let slice = engine.slice(world, atoms, out, moves, inferences);
    if engine.out_of_memory {
        return Err(Unfinished::Memory);
    }
    put_answer(alloc, engine, names, &slice, atoms, out)?;
    stopped_by(slice)
}

/// The slice of an engine's goal, with the lines that are written of its solutions.
pub(crate) fn slice_with<W: World<Term = Stored>>(
    alloc: Global,
    lines: Lines,
    engine: &mut Engine,
    names: &[(Text, u64)],
    world: &mut W,
    atoms: &mut W::A,
    out: &mut Vec<u8>,
    moves: &mut u64,
    inferences: u32,
) -> Result<(), Unfinished>
    requires runs { has_ended (W.told world.old).engine (W.told world.old).history ≡ false }
    requires ready { engine.old.out_of_memory ≡ false → IsReady (W.A.held atoms.old) (W.told world.old) engine.old }
    ensures runs { has_ended (W.told world.new).engine (W.told world.new).history ≡ false }
    ensures holds { Holds (W.A.held atoms.old) (W.A.held atoms.new) }
    ensures sound { UnlessMemory result (engine.new.out_of_memory ≡ false) }
    ensures ready { engine.new.out_of_memory ≡ false → IsReady (W.A.held atoms.new) (W.told world.new) engine.new }
    ensures refusals { UnlessMemory result (IsRefusedOnce (W.A.refusals atoms.old) (W.A.refusals atoms.new) (last_refusals result)) }
    ensures searched { UnlessMemory result (IsSearched (put_by lines names.now) (W.A.held atoms.old) (W.told world.old) engine.old moves.old
        (W.A.held atoms.new) (W.told world.new) engine.new moves.new out.old.items out.new.items result) }
{
    match lines {
        Lines::Texts => text_slice(engine, world, atoms, out, moves, inferences),
        Lines::Solutions => goal_slice(alloc, engine, names, world, atoms, out, moves, inferences),
    }
}

/// Why a search does not go on after a slice: it does where the slice made all its inferences, where it gave a solution, and
/// where others stepped in between; and where it has ended the engine says so.
fn stopped_by(slice: Slice) -> Result<(), Unfinished>
    ensures { result ≡ stopped_by slice }
{
    match slice {
        Slice::Yield => Ok(()),
        Slice::Solution(_operators) => Ok(()),
        Slice::Retry(_cause) => Ok(()),
        Slice::Ended => Ok(()),
        Slice::Waits(on, generation) => Err(Unfinished::Waits(on, generation)),
        Slice::NeedsAtoms(pass) => Err(Unfinished::NeedsAtoms(pass)),
        Slice::Worn(word) => Err(Unfinished::Worn(word)),
        Slice::Memory => Err(Unfinished::Memory),
    }
}
