//! Slots that nobody uses any more are freed, and used again for other texts.
ghost use Rattle.atom_words.specs.Seats.{seen, Walking};
ghost use Rattle.atom_table.specs.Holding.{Sits, IsEngine};

use crate::collecting::Turn;
use crate::marking::Marked;
use crate::opening::Opened;
use crate::resizing::Due;
use crate::seats::Collector;
use crate::steps::{Kept, Step, Wanted, named, wrong_alone, wrong_step};
use crate::sweeping::Swept;
use crate::table::AtomTable;
use crate::tests::take_last;
use atom_api::Interned;
use atom_words::AtomSeat;
use bucket_rows::Checked;
use pl_term::Memory;
use std::alloc::Global;
use std::test::Fail;

// The answer on a letter with a number after it.
fn make(
    alloc: Global,
    table: &AtomTable,
    seat: &mut AtomSeat,
    letter: char,
    number: u32,
) -> Result<Interned, Memory>
    requires sits { Sits table.now.words seat.old }
    requires walking { Walking (seen seat.old) }
    requires engine { IsEngine (seen seat.old) }
    ensures sits { Sits table.now.words seat.new }
    ensures walking { Walking (seen seat.new) }
    ensures engine { IsEngine (seen seat.new) }
{
    let name = format!(in alloc; "{letter}{number}")?;
    named(alloc, table, seat, name.as_str())
}

// How many of the texts with that letter and the numbers from 1 to 256 are answered with an atom.
pub fn fill(
    alloc: Global,
    table: &AtomTable,
    seat: &mut AtomSeat,
    letter: char,
) -> Result<u32, Memory>
    requires sits { Sits table.now.words seat.old }
    requires walking { Walking (seen seat.old) }
    requires engine { IsEngine (seen seat.old) }
    ensures sits { Sits table.now.words seat.new }
    ensures walking { Walking (seen seat.new) }
    ensures engine { IsEngine (seen seat.new) }
{
    let mut made = 0;
    for i in 0..256u32 {
        if let Interned::Is(_) = make(alloc, table, seat, letter, i + 1)? {
            made += 1;
        }
    }
    Ok(made)
}

// How far a sweep comes, where the cycle sweeps.
pub fn sweep(table: &AtomTable, collector: &mut Collector, most: u32) -> Option<Swept>
    requires sits { Sits table.now.words collector.old.seat }
    ensures sits { Sits table.now.words collector.new.seat }
{
    if collector.word % 4 == 2 {
        Some(table.sweep_some(collector, most))
    } else {
        None
    }
}

/// Two cycles over a full table, in which the engine holds on to `a7` alone.
const FREED: [Step; 23] = [
    Step::Fill('a', 256),
    Step::Text("a7", Wanted::New),
    Step::Text("b1", Wanted::Full),
    // Each new atom is marked, so that the first cycle frees none.
    Step::Begin(Turn::Began(1)),
    Step::Sweep(512, None),
    Step::Mark("a7", Marked::Acked(1)),
    Step::Check(Some(Checked::All)),
    Step::Sweep(300, Some(Swept::At(300))),
    Step::Begin(Turn::Running(6)),
    Step::Sweep(300, Some(Swept::Done)),
    Step::Due(Due::Grow),
    Step::Text("b1", Wanted::Full),
    // The second frees all but the one that the engine holds.
    Step::Begin(Turn::Began(2)),
    Step::Mark("a7", Marked::Acked(2)),
    Step::Check(Some(Checked::All)),
    Step::Sweep(512, Some(Swept::Done)),
    Step::Due(Due::Stay),
    Step::Fill('b', 255),
    Step::Text("a7", Wanted::Same),
    Step::Text("a1", Wanted::Full),
    Step::Text("b9", Wanted::New),
    Step::Text("b9", Wanted::Same),
    Step::Begin(Turn::Began(3)),
];

#[test]
fn freed_slots_take_other_texts(rt: HostRuntime) -> Result<(), Fail> {
    assert_eq!(rt; wrong_alone(rt.alloc(), 512, 0, &FREED)?, None);
    Ok(())
}

/// Engine 2 has acknowledged no cycle.
const NOT_YET: Checked = Checked::NotYet { engine: 2, seen: 0 };

/// A cycle that comes to no sweep, so that no slot is freed.
const WAITING: [Step; 9] = [
    Step::Fill('a', 256),
    Step::Begin(Turn::Began(1)),
    Step::Mark("a1", Marked::Acked(1)),
    Step::Check(Some(NOT_YET)),
    Step::Sweep(512, None),
    Step::Check(Some(NOT_YET)),
    Step::Check(Some(NOT_YET)),
    Step::Fill('a', 256),
    Step::Text("b1", Wanted::Full),
];

#[test]
fn a_cycle_waits_for_a_seat_that_is_gone(rt: HostRuntime) -> Result<(), Fail> {
    let alloc = rt.alloc();
    let Opened {
        table,
        mut seats,
        keeper: _,
        mut collector,
    } = AtomTable::new(alloc, 512, 2)?;
    let two = take_last(&table, &mut seats);
    drop(two);
    let mut one = take_last(&table, &mut seats).ok_or("a seat")?;
    let mut kept = Kept::new(alloc);
    let wrong = wrong_step(alloc, &table, &mut one, &mut collector, &mut kept, &WAITING)?;
    assert_eq!(rt; wrong, None);
    Ok(())
}
