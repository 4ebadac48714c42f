//! The end of an engine that a worker carries.
ghost use Rattle.std.specs.Prelude.{◌≡◌, false, IfSome};
ghost use Rattle.run_model.specs.AtomRecords.{IsTrue};
ghost use Rattle.atom_words.specs.Seats.{seen};
ghost use Rattle.atom_table.specs.Naming.{names};
ghost use Rattle.pl_hub.specs.Fronts.{IsOwn, told_of};
ghost use Rattle.pl_sched.specs.Homes.{EndsAs, IsUnderWay};
ghost use Rattle.pl_sched.specs.Written.{WritesSo};

use crate::ground::Ground;
use crate::home::{Home, Parts};
use crate::mark::{End, Mark};
use crate::naming::Command;
use crate::records::{taken, worn_epoch};
use crate::statuses::status_of;
use crate::writing::Writes;
use atom_table::TableAtoms;
use named_terms::NamedTerm;
use pl_history::Front;
use pl_io::Gate;
use pl_model::ends::{AtomRecord, How, SlotPass};
use pl_model::shows::{ShowsHow, ShowsSteps};
use pl_term::Memory;
use std::sync::Wait;

/// How many moves an engine has made.
#[derive(Drop)]
pub(crate) struct Moves {
    pub(crate) count: u64,
}

impl ShowsSteps for Moves {
    ghost steps = { λ m. m.count };
}

/// How an engine has ended.
#[derive(Drop)]
pub(crate) struct Shown<'a> {
    pub(crate) how: &'a How<NamedTerm>,
}

impl ShowsHow for Shown<'_> {
    ghost how = { λ s. s.how.now };
}

/// The engine has ended so: its end is entered, and it comes home. The only error is out of memory.
pub(crate) fn end<'a, 't, E: Writes + Drop, K: Command, R: Wait, G: Gate, P>(
    ground: &Ground<'a, 't, E, K, R, G, P>,
    engine: E,
    atoms: TableAtoms<'t, K>,
    front: Front,
    number: u64,
    how: How<NamedTerm>,
) -> Result<Home<'t, E, K>, Memory>
    requires own { IsOwn K.history number front }
    requires ended { (way : IsUnderWay E.stands E.ready E.moves K.program (names (seen atoms.seat)) (told_of K.goals front) engine) × EndsAs K.program way.execution how }
    requires writes { WritesSo K.program K.file K.board number (E.writing engine) }
{
    let mut atoms = atoms;
    let mut front = front;
    let status = status_of(ground.runtime, ground.alloc, &how, &mut atoms)?;
    let moves = Moves {
        count: engine.move_count(),
    };
    let mut hub = ground.hub.lock(ground.runtime);
    let state = &mut *hub;
    let standing = state.standing()?;
    state.end(
        ground.history,
        &mut atoms,
        &mut front,
        number,
        &Shown { how: &how },
        &moves,
        status,
    )?;
    drop(hub);
    let (operators, quotes) = standing;
    let end = End {
        how,
        operators,
        quotes,
    };
    Ok(Home::new(Parts {
        engine,
        atoms,
        front,
        number,
        mark: Mark::Ended(end),
    }))
}

/// The engine ends, since an atom has no place, as this shows. Where nothing shows it the engine is lost.
pub(crate) fn end_without_atoms<'a, 't, E: Writes + Drop, K: Command, R: Wait, G: Gate, P>(
    ground: &Ground<'a, 't, E, K, R, G, P>,
    engine: E,
    atoms: TableAtoms<'t, K>,
    front: Front,
    number: u64,
    found: Option<AtomRecord>,
) -> Result<Home<'t, E, K>, Memory>
    requires own { IsOwn K.history number front }
    requires way { IsUnderWay E.stands E.ready E.moves K.program (names (seen atoms.seat)) (told_of K.goals front) engine }
    requires going { E.over engine ≡ false }
    requires found { IfSome found (IsTrue K.program.slots) }
    requires writes { WritesSo K.program K.file K.board number (E.writing engine) }
{
    match found {
        None => Err(Memory),
        Some(record) => end(ground, engine, atoms, front, number, How::AtomSpace(record)),
    }
}

/// What shows that the engine ends for want of atoms, where a pass shows that an atom has no place, and one did so before and it
/// has waited for cycles of collection since. None where it is to wait for them.
fn record_of(earlier: Option<SlotPass>, pass: SlotPass, slots: u64) -> Option<AtomRecord>
    ensures { IfSome result (IsTrue slots) }
{
    if let Some(record) = worn_epoch(pass, slots) {
        return Some(record);
    }
    match earlier {
        None => None,
        Some(earlier) => taken(earlier, pass, slots),
    }
}

/// An atom of the engine's next step has no place, as the pass shows. It comes home and waits for cycles of collection; or it
/// ends, where an earlier pass showed so before them, or none can begin any more. The only error is out of memory.
pub(crate) fn end_or_wait<'a, 't, E: Writes + Drop, K: Command, R: Wait, G: Gate, P>(
    ground: &Ground<'a, 't, E, K, R, G, P>,
    engine: E,
    atoms: TableAtoms<'t, K>,
    front: Front,
    number: u64,
    pass: SlotPass,
    earlier: Option<SlotPass>,
) -> Result<Home<'t, E, K>, Memory>
    requires own { IsOwn K.history number front }
    requires way { IsUnderWay E.stands E.ready E.moves K.program (names (seen atoms.seat)) (told_of K.goals front) engine }
    requires going { E.over engine ≡ false }
    requires writes { WritesSo K.program K.file K.board number (E.writing engine) }
{
    let found = record_of(earlier, pass, ground.terms.slots);
    if found.is_none() {
        let mark = Mark::ForCycles(pass);
        return Ok(Home::new(Parts {
            engine,
            atoms,
            front,
            number,
            mark,
        }));
    }
    end_without_atoms(ground, engine, atoms, front, number, found)
}
