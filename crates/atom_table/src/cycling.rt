//! A cycle of collection, up to its sweep, with one engine after the other and with eight at once.
ghost use Rattle.atom_words.specs.Seats.{seen, Walking};
ghost use Rattle.std.specs.Prelude.{◌≡◌};
ghost use Rattle.atom_table.specs.Holding.{Sits, IsEngine};
ghost use Rattle.atom_table.specs.Opening.{FreshFrom};

use crate::atoms::{NamesTable, TableAtoms};
use crate::collecting::Turn;
use crate::marking::Marked;
use crate::opening::Opened;
use crate::resizing::Stage;
use crate::seats::Collector;
use crate::steps::{Step, wrong_by_two};
use crate::table::AtomTable;
use crate::threads::eight;
use atom_api::{Atoms, Interned};
use atom_words::AtomSeat;
use bucket_rows::Checked;
use pl_term::{Memory, Text};
use std::alloc::Global;
use std::marker::Brand;
use std::test::Fail;
use std::thread;
use std::thread::Threads;

// What the engine finds, as it takes part in a cycle with the atom of a text alone.
pub fn mark_one(table: &AtomTable, seat: &mut AtomSeat, text: &Text) -> Option<Marked>
    requires sits { Sits table.now.words seat.old }
    requires walking { Walking (seen seat.old) }
    requires engine { IsEngine (seen seat.old) }
    ensures sits { Sits table.now.words seat.new }
    ensures walking { Walking (seen seat.new) }
    ensures engine { IsEngine (seen seat.new) }
{
    match table.intern(seat, text) {
        Interned::Is(a) => Some(table.mark_and_ack(seat, &[a])),
        _ => None,
    }
}

// What a call to begin a cycle comes to, where no change of rows is at work.
pub fn begin(table: &AtomTable, collector: &mut Collector) -> Option<Turn>
    requires sits { Sits table.now.words collector.old.seat }
    ensures sits { Sits table.now.words collector.new.seat }
{
    if collector.rows.stage == Stage::Still {
        Some(table.begin(collector))
    } else {
        None
    }
}

// What a check finds, where the cycle marks.
pub fn check(table: &AtomTable, collector: &mut Collector) -> Option<Checked>
    requires sits { Sits table.now.words collector.old.seat }
    ensures sits { Sits table.now.words collector.new.seat }
{
    if collector.word % 4 == 1 {
        Some(table.check(collector))
    } else {
        None
    }
}

/// Engine 1 takes part in a cycle, and engine 2 not yet.
const FIRST: [Step; 6] = [
    Step::Mark("a", Marked::NoCycle(0)),
    Step::Begin(Turn::Began(1)),
    Step::Begin(Turn::Running(5)),
    Step::Mark("a", Marked::Acked(1)),
    Step::Mark("a", Marked::NoCycle(5)),
    Step::Check(Some(Checked::NotYet { engine: 2, seen: 0 })),
];

/// Engine 2 takes part.
const SECOND: [Step; 1] = [Step::Mark("a", Marked::Acked(1))];

const THIRD: [Step; 4] = [
    Step::Check(Some(Checked::All)),
    Step::Check(None),
    Step::Begin(Turn::Running(6)),
    Step::Mark("a", Marked::NoCycle(6)),
];

#[test]
fn a_cycle_waits_for_each_engine(rt: HostRuntime) -> Result<(), Fail> {
    let wrong = wrong_by_two(rt.alloc(), &FIRST, &SECOND, &THIRD)?;
    assert_eq!(rt; wrong, None);
    Ok(())
}

// Interns some texts, and takes part in a cycle with none of their atoms.
fn intern_and_mark<K: NamesTable>(alloc: Global, atoms: TableAtoms<K>) -> Result<Marked, Memory> {
    let mut atoms = atoms;
    for i in 0..100u32 {
        let name = format!(in alloc; "t{i}")?;
        atoms.intern(&Text::from_str(alloc, name.as_str())?);
    }
    let table = atoms.table;
    let mut seat = atoms.into_seat();
    Ok(table.mark_and_ack(&mut seat, &[]))
}

// What eight engines find at once.
fn mark_at_once<K: NamesTable + Send + Sync, R: Threads + Sync>(
    rt: &R,
    alloc: Global,
    table: &AtomTable,
    seats: &mut Vec<AtomSeat>,
) -> Result<Vec<Result<Marked, Memory>>, Memory>
    requires named { (table.now.words.table.shared.table_id ≡ K.atoms) × (table.now.words.size ≡ K.size) }
    requires fresh { FreshFrom table.now.words 1 seats.old.items }
{
    let all = eight::<K>(alloc, table, seats)?;
    Ok(thread::map_vec(
        rt,
        all,
        &|atoms: TableAtoms<K>| -> Result<Marked, Memory> { intern_and_mark(alloc, atoms) },
    )?)
}

#[test]
fn eight_engines_acknowledge_at_once(rt: HostRuntime) -> Result<(), Fail> {
    let alloc = rt.alloc();
    let Opened {
        table,
        mut seats,
        keeper: _,
        mut collector,
    } = AtomTable::new(alloc, 512, 8)?;
    assert_eq!(rt; begin(&table, &mut collector), Some(Turn::Began(1)));
    let found = mark_at_once::<Brand, _>(&rt, alloc, &table, &mut seats)?;
    assert_eq!(rt; found.len(), 8);
    for one in found {
        assert_eq!(rt; one?, Marked::Acked(1));
    }
    assert_eq!(rt; check(&table, &mut collector), Some(Checked::All));
    Ok(())
}
