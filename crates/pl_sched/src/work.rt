//! Workers: each takes up an engine, lets it run, and brings it home.
ghost use Rattle.std.specs.Prelude.{◌≡◌};

use crate::beginning::begun;
use crate::ground::Ground;
use crate::home::Home;
use crate::hub::Lend;
use crate::naming::Command;
use crate::newcomers::NewEngine;
use crate::starts::Starts;
use crate::turns::turn;
use engine_run::Runner;
use pl_io::Gate;
use pl_term::Memory;
use script_api::{Living, Script};
use std::sync::{Condvar, Wait};
use term_store::Stored;

/// How many inferences an engine makes in one turn.
const INFERENCES: u32 = 16_000;

/// After how many moves an engine comes home, where it can go on.
const MOVES: u64 = 16_000;

/// How many inferences an engine makes that waited for cycles of collection.
const STEP: u32 = 1;

/// How many turns an engine makes at most before it comes home.
const TURNS: u32 = 16;

/// Lets this worker run engines, one after the other, until no engine can go on and none is with another worker, or one was lost.
pub(crate) fn work<
    'a,
    't,
    S: Living + Script<Term = Stored> + Drop,
    K: Command,
    R: Wait,
    G: Gate,
    P: Starts<S>,
>(ground: &Ground<'a, 't, Runner<S>, K, R, G, P>, changed: &Condvar, worker: u32)
    requires board { P.board ground.now.goals.now ≡ K.board }
{
    for _ in ground.runtime.forever() {
        let mut hub = ground.hub.lock(ground.runtime);
        match hub.lend(ground.history) {
            Lend::Out(home) => {
                drop(hub);
                let home = carry(ground, worker, home);
                bring(ground, changed, home);
            }
            Lend::Begin(new) => {
                drop(hub);
                let home = begin(ground, worker, new);
                bring(ground, changed, home);
            }
            Lend::Collects => drop(hub),
            Lend::Nobody => {
                let hub = changed.wait(ground.runtime, hub);
                drop(hub);
            }
            Lend::Over => {
                drop(hub);
                changed.notify_all();
                return;
            }
            Lend::Memory => {
                hub.lose();
                drop(hub);
                changed.notify_all();
                return;
            }
        }
    }
    unreachable!()
}

/// Lets an engine that begins take up its goal, and run for some turns.
fn begin<
    'a,
    't,
    S: Living + Script<Term = Stored> + Drop,
    K: Command,
    R: Wait,
    G: Gate,
    P: Starts<S>,
>(
    ground: &Ground<'a, 't, Runner<S>, K, R, G, P>,
    worker: u32,
    new: NewEngine<'t, K>,
) -> Result<Home<'t, Runner<S>, K>, Memory>
    requires board { P.board ground.now.goals.now ≡ K.board }
{
    let home = begun(ground, new)?;
    carry(ground, worker, home)
}

/// Lets an engine run for some turns, as long as it can go on. One that waited for cycles of collection makes the step for
/// which it waited, and comes home: others that waited are to find a place too before it goes on.
fn carry<
    'a,
    't,
    S: Living + Script<Term = Stored> + Drop,
    K: Command,
    R: Wait,
    G: Gate,
    P: Starts<S>,
>(
    ground: &Ground<'a, 't, Runner<S>, K, R, G, P>,
    worker: u32,
    home: Home<'t, Runner<S>, K>,
) -> Result<Home<'t, Runner<S>, K>, Memory> {
    if home.waits_for_cycles() {
        return turn(ground, worker, home, STEP);
    }
    let mut home = home;
    let until = home.moves().saturating_add(MOVES);
    for _ in 0..TURNS {
        home = turn(ground, worker, home, INFERENCES)?;
        if !home.goes_on() || home.moves() >= until {
            return Ok(home);
        }
    }
    Ok(home)
}

/// The engine comes home, or is lost, and the other workers look again.
fn bring<
    'a,
    't,
    S: Living + Script<Term = Stored> + Drop,
    K: Command,
    R: Wait,
    G: Gate,
    P: Starts<S>,
>(
    ground: &Ground<'a, 't, Runner<S>, K, R, G, P>,
    changed: &Condvar,
    home: Result<Home<'t, Runner<S>, K>, Memory>,
) {
    let mut hub = ground.hub.lock(ground.runtime);
    match home {
        Ok(home) => {
            if hub.bring(home).is_err() {
                hub.lose();
            }
        }
        Err(Memory) => hub.lose(),
    }
    drop(hub);
    changed.notify_all();
}
