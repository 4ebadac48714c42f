//! The row of buckets grows and shrinks, at once and in pieces, and the texts are found in each row.
ghost use Rattle.atom_words.specs.Seats.{seen, Walking};
ghost use Rattle.atom_table.specs.Holding.{Sits, IsEngine};

use crate::resizing::{Resized, Stage};
use crate::seats::Collector;
use crate::steps::{Step, Wanted, named, wrong_alone};
use crate::table::AtomTable;
use atom_api::{Atom, Interned, fixed};
use atom_words::AtomSeat;
use bucket_rows::bucket;
use pl_term::Memory;
use std::alloc::Global;
use std::test::Fail;

const ALL: u32 = 4_294_967_295;

// What a growth comes to, where no cycle and no change of rows is at work.
pub fn grow(table: &AtomTable, collector: &mut Collector, most: u32) -> Option<Resized>
    requires sits { Sits table.now.words collector.old.seat }
    ensures sits { Sits table.now.words collector.new.seat }
{
    if collector.word % 4 == 0 && collector.rows.stage == Stage::Still {
        Some(table.grow(collector, most))
    } else {
        None
    }
}

// What a shrinking comes to, where no cycle and no change of rows is at work.
pub fn shrink(table: &AtomTable, collector: &mut Collector, most: u32) -> Option<Resized>
    requires sits { Sits table.now.words collector.old.seat }
    ensures sits { Sits table.now.words collector.new.seat }
{
    if collector.word % 4 == 0 && collector.rows.stage == Stage::Still {
        Some(table.shrink(collector, most))
    } else {
        None
    }
}

// What a change of rows at work comes to.
fn go_on(table: &AtomTable, collector: &mut Collector, most: u32) -> Option<Resized>
    requires sits { Sits table.now.words collector.old.seat }
    ensures sits { Sits table.now.words collector.new.seat }
{
    if collector.rows.stage == Stage::Still {
        None
    } else {
        Some(table.go_on(collector, most))
    }
}

// How many of 10,000 pieces of the change of rows at work, each of one head or slot, are done before its end.
pub fn pieces(table: &AtomTable, collector: &mut Collector) -> u32
    requires sits { Sits table.now.words collector.old.seat }
    ensures sits { Sits table.now.words collector.new.seat }
{
    let mut pieces = 0u32;
    for _i in 0..10_000u32 {
        if go_on(table, collector, 1) == Some(Resized::Going) {
            pieces += 1;
        }
    }
    pieces
}

// Whether the row of 256 heads stays in use, as a head has that version.
pub fn is_worn_at(came: Option<Resized>, version: u64) -> bool {
    match came {
        Some(Resized::AtLimit(256, Some(word))) => word / 4_194_304 == version,
        _ => false,
    }
}

const CHANGED: Option<Resized> = Some(Resized::Changed);

const LIMITS: [Step; 13] = [
    Step::Text("a", Wanted::New),
    Step::Grow(ALL, CHANGED),
    Step::Text("a", Wanted::Same),
    Step::Grow(ALL, CHANGED),
    Step::Text("a", Wanted::Same),
    Step::Grow(ALL, Some(Resized::AtLimit(1024, None))),
    Step::Text("a", Wanted::Same),
    Step::Shrink(ALL, CHANGED),
    Step::Text("a", Wanted::Same),
    Step::Shrink(ALL, CHANGED),
    Step::Text("a", Wanted::Same),
    Step::Shrink(ALL, Some(Resized::AtLimit(256, None))),
    Step::Text("a", Wanted::Same),
];

#[test]
fn the_row_grows_and_shrinks_to_its_limits(rt: HostRuntime) -> Result<(), Fail> {
    assert_eq!(rt; wrong_alone(rt.alloc(), 1024, 0, &LIMITS)?, None);
    Ok(())
}

/// The bucket of `uu` is the last one, in both rows. 512 heads are looked at, and 255 are closed after the first.
const CLOSED: [Step; 8] = [
    Step::Text("uu", Wanted::New),
    Step::Grow(767, Some(Resized::Going)),
    Step::Row(Stage::Moving, 8),
    Step::Text("uu", Wanted::Closed),
    Step::Grow(ALL, None),
    Step::Pieces(700),
    Step::Row(Stage::Still, 9),
    Step::Text("uu", Wanted::Same),
];

#[test]
fn a_text_is_asked_again_while_heads_are_closed(rt: HostRuntime) -> Result<(), Fail> {
    assert_eq!(rt; wrong_alone(rt.alloc(), 512, 0, &CLOSED)?, None);
    Ok(())
}

// The atom of a letter with a number after it.
fn numbered(
    alloc: Global,
    table: &AtomTable,
    seat: &mut AtomSeat,
    number: u32,
) -> Result<Option<Atom>, Memory>
    requires sits { Sits table.now.words seat.old }
    requires walking { Walking (seen seat.old) }
    requires engine { IsEngine (seen seat.old) }
    ensures sits { Sits table.now.words seat.new }
    ensures walking { Walking (seen seat.new) }
    ensures engine { IsEngine (seen seat.new) }
{
    let name = format!(in alloc; "t{number}")?;
    match named(alloc, table, seat, name.as_str())? {
        Interned::Is(a) => Ok(Some(a)),
        _ => Ok(None),
    }
}

// How many of the texts with a letter and the numbers from 0 to 149 are answered with the atom that they had before, or, at
// first, with any.
pub fn same_atoms(
    alloc: Global,
    table: &AtomTable,
    seat: &mut AtomSeat,
    atoms: &mut Vec<Option<Atom>>,
) -> Result<u32, Memory>
    requires sits { Sits table.now.words seat.old }
    requires walking { Walking (seen seat.old) }
    requires engine { IsEngine (seen seat.old) }
    ensures sits { Sits table.now.words seat.new }
    ensures walking { Walking (seen seat.new) }
    ensures engine { IsEngine (seen seat.new) }
{
    let mut same: u32 = 0;
    for i in 0..150u32 {
        let found = numbered(alloc, table, seat, i)?;
        if is_same(atoms, i as usize, found)? {
            same = same.saturating_add(1);
        }
    }
    Ok(same)
}

// Whether the atom is the one at the place, where it is put if it is the next.
fn is_same(
    atoms: &mut Vec<Option<Atom>>,
    place: usize,
    found: Option<Atom>,
) -> Result<bool, Memory> {
    if atoms.len() == place {
        atoms.push(found)?;
    }
    match atoms.get(place) {
        Some(before) => Ok(found != None && *before == found),
        None => Ok(false),
    }
}

const EACH: [Step; 5] = [
    Step::Numbered(150),
    Step::Grow(ALL, CHANGED),
    Step::Numbered(150),
    Step::Shrink(ALL, CHANGED),
    Step::Numbered(150),
];

#[test]
fn each_text_has_its_atom_in_each_row(rt: HostRuntime) -> Result<(), Fail> {
    assert_eq!(rt; wrong_alone(rt.alloc(), 512, 0, &EACH)?, None);
    Ok(())
}

#[test]
fn a_worn_head_keeps_the_row(rt: HostRuntime) -> Result<(), Fail> {
    let version = 4_398_046_511_102;
    let head = bucket(b"append", 8) as u64;
    let steps = [
        Step::Text("append", Wanted::Worn(head, version)),
        Step::GrowWorn(version),
        Step::Row(Stage::Still, 8),
        Step::Text("append", Wanted::Worn(head, version)),
        Step::Text("yfx", Wanted::Fixed(fixed::YFX.slot())),
    ];
    assert_eq!(rt; wrong_alone(rt.alloc(), 512, version, &steps)?, None);
    Ok(())
}
