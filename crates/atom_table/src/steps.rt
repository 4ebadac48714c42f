//! Tests as rows: what an engine and the collector do, each with what is to come of it.
ghost use Rattle.std.specs.Prelude.{◌≤◌, ◌<◌, ◌^◌};
ghost use Rattle.atom_words.specs.Seats.{seen, Walking};
ghost use Rattle.atom_table.specs.Holding.{Sits, IsEngine};

use crate::collecting::Turn;
use crate::cycling::{begin, check, mark_one};
use crate::marking::Marked;
use crate::opening::Opened;
use crate::resized::{grow, is_worn_at, pieces, same_atoms, shrink};
use crate::resizing::{Due, Resized, Stage};
use crate::reuse::{fill, sweep};
use crate::seats::Collector;
use crate::sweeping::Swept;
use crate::table::AtomTable;
use crate::tests::take_last;
use atom_api::{Atom, Cause, Interned, WornWord};
use atom_words::AtomSeat;
use bucket_rows::Checked;
use pl_term::{Memory, Text};
use std::alloc::Global;
use std::test::Fail;

/// What interning a text is to be answered with.
#[derive(Clone, Copy)]
pub enum Wanted {
    /// An atom, which is kept.
    New,
    /// The atom that was kept last.
    Same,
    /// The fixed atom with that slot.
    Fixed(u32),
    /// None, as all 512 slots were counted for engine 1.
    Full,
    /// None, as the head of its bucket is closed.
    Closed,
    /// None, as that head has that version.
    Worn(u64, u64),
}

/// A step with what is to come of it.
#[derive(Clone, Copy)]
pub enum Step {
    /// The engine interns the text.
    Text(&'static str, Wanted),
    /// It interns a text of so many bytes, which is too long.
    Long(usize),
    /// Of the texts with the letter and a number from 1 to 256, so many have atoms.
    Fill(char, u32),
    /// Of 150 texts, so many have the atoms that they had at the first such step.
    Numbered(u32),
    /// The engine takes part in a cycle with the atom of the text alone.
    Mark(&'static str, Marked),
    /// A cycle is to begin.
    Begin(Turn),
    /// The collector checks the engines, where the cycle marks.
    Check(Option<Checked>),
    /// It sweeps so many slots, where the cycle sweeps.
    Sweep(u32, Option<Swept>),
    /// The row of buckets grows, where no change is at work, by so much work.
    Grow(u32, Option<Resized>),
    /// It does not grow, as a head has that version.
    GrowWorn(u64),
    /// It shrinks, where no change is at work, by so much work.
    Shrink(u32, Option<Resized>),
    /// The change at work goes on in more than so many pieces, and comes to its end.
    Pieces(u32),
    /// How far a change of rows has come, and the row in use.
    Row(Stage, u64),
    Due(Due),
}

/// What is kept from step to step.
#[derive(Drop)]
pub struct Kept {
    atom: Option<Atom>,
    numbered: Vec<Option<Atom>>,
}

impl Kept {
    pub fn new(alloc: Global) -> Kept {
        Kept {
            atom: None,
            numbered: Vec::new(alloc),
        }
    }
}

/// The answer on the text.
pub fn interned(table: &AtomTable, seat: &mut AtomSeat, text: &Text) -> Interned
    requires sits { Sits table.now.words seat.old }
    requires walking { Walking (seen seat.old) }
    requires engine { IsEngine (seen seat.old) }
    ensures sits { Sits table.now.words seat.new }
    ensures walking { Walking (seen seat.new) }
    ensures engine { IsEngine (seen seat.new) }
{
    table.intern(seat, text)
}

/// The answer on the text that `s` spells.
pub fn named(
    alloc: Global,
    table: &AtomTable,
    seat: &mut AtomSeat,
    s: &str,
) -> Result<Interned, Memory>
    requires sits { Sits table.now.words seat.old }
    requires walking { Walking (seen seat.old) }
    requires engine { IsEngine (seen seat.old) }
    ensures sits { Sits table.now.words seat.new }
    ensures walking { Walking (seen seat.new) }
    ensures engine { IsEngine (seen seat.new) }
{
    let text = Text::from_str(alloc, s)?;
    Ok(interned(table, seat, &text))
}

fn is_atom(a: Atom, wanted: Wanted, kept: &mut Kept) -> bool {
    match wanted {
        Wanted::New => {
            kept.atom = Some(a);
            true
        }
        Wanted::Same => kept.atom == Some(a),
        Wanted::Fixed(slot) => a.slot() == slot,
        _ => false,
    }
}

fn is_worn(worn: &WornWord, wanted: Wanted) -> bool {
    match wanted {
        Wanted::Worn(head, version) => {
            worn.head() == head && worn.start() == version && worn.word() / 4_194_304 == version
        }
        _ => false,
    }
}

fn is_wanted(answer: &Interned, wanted: Wanted, kept: &mut Kept) -> bool {
    match answer {
        Interned::Is(a) => is_atom(*a, wanted, kept),
        Interned::Full(pass) => {
            matches!(wanted, Wanted::Full) && pass.counted() == 512 && pass.seat() == 1
        }
        Interned::Again(Cause::Closed { .. }) => matches!(wanted, Wanted::Closed),
        Interned::Worn(worn) => is_worn(worn, wanted),
        _ => false,
    }
}

fn answers(
    alloc: Global,
    table: &AtomTable,
    seat: &mut AtomSeat,
    kept: &mut Kept,
    s: &str,
    wanted: Wanted,
) -> Result<bool, Memory>
    requires sits { Sits table.now.words seat.old }
    requires walking { Walking (seen seat.old) }
    requires engine { IsEngine (seen seat.old) }
    ensures sits { Sits table.now.words seat.new }
    ensures walking { Walking (seen seat.new) }
    ensures engine { IsEngine (seen seat.new) }
{
    let answer = named(alloc, table, seat, s)?;
    Ok(is_wanted(&answer, wanted, kept))
}

/// Whether a text of so many bytes is answered as too long.
fn is_too_long(
    alloc: Global,
    table: &AtomTable,
    seat: &mut AtomSeat,
    size: usize,
) -> Result<bool, Memory>
    requires sits { Sits table.now.words seat.old }
    requires walking { Walking (seen seat.old) }
    requires engine { IsEngine (seen seat.old) }
    ensures sits { Sits table.now.words seat.new }
    ensures walking { Walking (seen seat.new) }
    ensures engine { IsEngine (seen seat.new) }
{
    let long = letters(alloc, size)?;
    let answer = named(alloc, table, seat, long.as_str())?;
    Ok(answer == Interned::TooLong { bytes: size })
}

/// So many letters.
fn letters(alloc: Global, count: usize) -> Result<String, Memory> {
    let mut all = String::new(alloc);
    for _ in 0..count {
        all.push_str("a")?;
    }
    Ok(all)
}

fn marks(
    alloc: Global,
    table: &AtomTable,
    seat: &mut AtomSeat,
    s: &str,
    wanted: Marked,
) -> Result<bool, Memory>
    requires sits { Sits table.now.words seat.old }
    requires walking { Walking (seen seat.old) }
    requires engine { IsEngine (seen seat.old) }
    ensures sits { Sits table.now.words seat.new }
    ensures walking { Walking (seen seat.new) }
    ensures engine { IsEngine (seen seat.new) }
{
    let text = Text::from_str(alloc, s)?;
    Ok(mark_one(table, seat, &text) == Some(wanted))
}

fn fills(
    alloc: Global,
    table: &AtomTable,
    seat: &mut AtomSeat,
    letter: char,
    wanted: u32,
) -> Result<bool, Memory>
    requires sits { Sits table.now.words seat.old }
    requires walking { Walking (seen seat.old) }
    requires engine { IsEngine (seen seat.old) }
    ensures sits { Sits table.now.words seat.new }
    ensures walking { Walking (seen seat.new) }
    ensures engine { IsEngine (seen seat.new) }
{
    let made = fill(alloc, table, seat, letter)?;
    Ok(made == wanted)
}

fn has_same(
    alloc: Global,
    table: &AtomTable,
    seat: &mut AtomSeat,
    kept: &mut Kept,
    wanted: u32,
) -> Result<bool, Memory>
    requires sits { Sits table.now.words seat.old }
    requires walking { Walking (seen seat.old) }
    requires engine { IsEngine (seen seat.old) }
    ensures sits { Sits table.now.words seat.new }
    ensures walking { Walking (seen seat.new) }
    ensures engine { IsEngine (seen seat.new) }
{
    let same = same_atoms(alloc, table, seat, &mut kept.numbered)?;
    Ok(same == wanted)
}

/// Whether it comes so of a step of the collector.
fn is_collected(table: &AtomTable, collector: &mut Collector, step: &Step) -> bool
    requires sits { Sits table.now.words collector.old.seat }
    ensures sits { Sits table.now.words collector.new.seat }
{
    match step {
        Step::Begin(wanted) => begin(table, collector) == Some(*wanted),
        Step::Check(wanted) => check(table, collector) == *wanted,
        Step::Sweep(most, wanted) => sweep(table, collector, *most) == *wanted,
        Step::Due(wanted) => table.due(collector) == *wanted,
        _ => is_resized(table, collector, step),
    }
}

/// Whether it comes so of a step that concerns the rows.
fn is_resized(table: &AtomTable, collector: &mut Collector, step: &Step) -> bool
    requires sits { Sits table.now.words collector.old.seat }
    ensures sits { Sits table.now.words collector.new.seat }
{
    match step {
        Step::Grow(most, wanted) => grow(table, collector, *most) == *wanted,
        Step::GrowWorn(version) => is_worn_at(grow(table, collector, 4_294_967_295), *version),
        Step::Shrink(most, wanted) => shrink(table, collector, *most) == *wanted,
        Step::Pieces(least) => pieces(table, collector) > *least,
        Step::Row(stage, row) => collector.rows.stage == *stage && collector.rows.row == *row,
        _ => false,
    }
}

/// Whether it comes so of a step.
fn is_taken(
    alloc: Global,
    table: &AtomTable,
    seat: &mut AtomSeat,
    collector: &mut Collector,
    kept: &mut Kept,
    step: &Step,
) -> Result<bool, Memory>
    requires sits { Sits table.now.words seat.old }
    requires walking { Walking (seen seat.old) }
    requires engine { IsEngine (seen seat.old) }
    requires collector { Sits table.now.words collector.old.seat }
    ensures sits { Sits table.now.words seat.new }
    ensures walking { Walking (seen seat.new) }
    ensures engine { IsEngine (seen seat.new) }
    ensures collector { Sits table.now.words collector.new.seat }
{
    match step {
        Step::Text(s, wanted) => answers(alloc, table, seat, kept, *s, *wanted),
        Step::Long(size) => is_too_long(alloc, table, seat, *size),
        Step::Fill(letter, wanted) => fills(alloc, table, seat, *letter, *wanted),
        Step::Numbered(wanted) => has_same(alloc, table, seat, kept, *wanted),
        Step::Mark(s, wanted) => marks(alloc, table, seat, *s, *wanted),
        _ => Ok(is_collected(table, collector, step)),
    }
}

/// The number of the first step of which something else comes.
pub fn wrong_step(
    alloc: Global,
    table: &AtomTable,
    seat: &mut AtomSeat,
    collector: &mut Collector,
    kept: &mut Kept,
    steps: &[Step],
) -> Result<Option<usize>, Memory>
    requires sits { Sits table.now.words seat.old }
    requires walking { Walking (seen seat.old) }
    requires engine { IsEngine (seen seat.old) }
    requires collector { Sits table.now.words collector.old.seat }
    ensures sits { Sits table.now.words seat.new }
    ensures walking { Walking (seen seat.new) }
    ensures engine { IsEngine (seen seat.new) }
    ensures collector { Sits table.now.words collector.new.seat }
{
    let mut i: usize = 0;
    for step in steps {
        if !is_taken(alloc, table, seat, collector, kept, step)? {
            return Ok(Some(i));
        }
        i = i.saturating_add(1);
    }
    Ok(None)
}

/// The same over a new table with so many slots and one engine, the heads of which have that version.
pub fn wrong_alone(
    alloc: Global,
    slots: u32,
    version: u64,
    steps: &[Step],
) -> Result<Option<usize>, Fail>
    requires slots { (512 ≤ slots) × (slots ≤ 1048576) }
    requires version { version < 2 ^ 42 }
{
    let Opened {
        table,
        mut seats,
        keeper: _,
        mut collector,
    } = AtomTable::new_at(alloc, slots, 1, version)?;
    let mut seat = take_last(&table, &mut seats).ok_or("a seat")?;
    let mut kept = Kept::new(alloc);
    let wrong = wrong_step(alloc, &table, &mut seat, &mut collector, &mut kept, steps)?;
    Ok(wrong)
}

/// The list, and in it the number, of the first step of which something else comes: engine 1 takes the first steps, engine 2 the
/// second and engine 1 the third.
pub fn wrong_by_two(
    alloc: Global,
    first: &[Step],
    second: &[Step],
    third: &[Step],
) -> Result<Option<(u8, usize)>, Fail> {
    let Opened {
        table,
        mut seats,
        keeper: _,
        mut collector,
    } = AtomTable::new(alloc, 512, 2)?;
    let mut two = take_last(&table, &mut seats).ok_or("a seat")?;
    let mut one = take_last(&table, &mut seats).ok_or("a seat")?;
    let wrong = wrong_in_turns(
        alloc,
        &table,
        &mut one,
        &mut two,
        &mut collector,
        first,
        second,
        third,
    )?;
    Ok(wrong)
}

fn wrong_in_turns(
    alloc: Global,
    table: &AtomTable,
    one: &mut AtomSeat,
    two: &mut AtomSeat,
    collector: &mut Collector,
    first: &[Step],
    second: &[Step],
    third: &[Step],
) -> Result<Option<(u8, usize)>, Memory>
    requires one { Sits table.now.words one.old × Walking (seen one.old) × IsEngine (seen one.old) }
    requires two { Sits table.now.words two.old × Walking (seen two.old) × IsEngine (seen two.old) }
    requires collector { Sits table.now.words collector.old.seat }
{
    let mut kept = Kept::new(alloc);
    if let Some(i) = wrong_step(alloc, table, one, collector, &mut kept, first)? {
        return Ok(Some((1, i)));
    }
    if let Some(i) = wrong_step(alloc, table, two, collector, &mut kept, second)? {
        return Ok(Some((2, i)));
    }
    if let Some(i) = wrong_step(alloc, table, one, collector, &mut kept, third)? {
        return Ok(Some((3, i)));
    }
    Ok(None)
}
