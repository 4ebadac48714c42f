//! A new table, with the fixed atoms in it.
ghost use Rattle.std.specs.Prelude.{◌≡◌, ◌^◌, ◌<◌, ◌≤◌, ◌++◌, true, length, [], ◌∷◌, Some, None, IfOk};
ghost use Rattle.std.specs.Str.{all_scalars};
ghost use Rattle.pl_term.specs.Texts.{size};
ghost use Rattle.atom_words.specs.Kinds.{Sitting, fresh, after};
ghost use Rattle.atom_words.specs.Opening.{Allowed};
ghost use Rattle.atom_words.specs.Plays.{Alone};
ghost use Rattle.atom_words.specs.Seats.{seen, Fits, Same, Unchanged, Walking};
ghost use Rattle.atom_words.specs.declared.kind.Kind.TheVariants.{Fix};
ghost use Rattle.atom_api.specs.Fixed.{fixed_count};
ghost use Rattle.bucket_rows.specs.Walks.{spelled, MissingIn};
ghost use Rattle.atom_table.specs.Holding.{Sits};
ghost use Rattle.atom_table.specs.declared.resizing.Stage.TheVariants.{Still};
ghost use Rattle.atom_table.specs.Opening.{fixed_slots, FreshFrom, Source, IsKeeper, Stays, Placed, Carries, Low};

use crate::making::add_text;
use crate::resizing::first_rows;
use crate::seats::{Collector, Keeper};
use crate::table::AtomTable;
use atom_api::fixed::COUNT;
use atom_api::fixed_atoms;
use atom_words::{AtomSeat, Fixing, Size, Words};
use bucket_rows::walk;
use pl_term::{Memory, Text};
use std::alloc::Global;

/// A new table, a seat for each engine, in the order of their numbers from 1 on, and the keeper's and the collector's.
#[derive(Drop)]
pub struct Opened {
    pub table: AtomTable,
    pub seats: Vec<AtomSeat>,
    pub keeper: Keeper,
    pub collector: Collector,
}

// The size of a table: the heads are those of all rows of 256 buckets and more, up to the least power of two that is at
// least the number of slots.
fn table_size(slots: u32, engines: u32, start: u64) -> Size
    requires slots { (512 ≤ slots) × (slots ≤ 1048576) }
    requires engines { engines ≤ 64 }
    requires start { start < 2 ^ 42 }
    ensures allowed { Allowed result }
    ensures size { (result.slots ≡ slots) × (result.engines ≡ engines) × (result.start ≡ start) × (result.fixed ≡ fixed_count) }
{
    let mut row: u64 = 512;
    for _i in 0..11 {
        if row < slots as u64 {
            row *= 2;
        }
    }
    Size {
        slots: slots as u64,
        engines: engines as u64,
        heads: 2 * row - 256,
        start,
        fixed: COUNT as u64,
    }
}

// Puts the text of a fixed atom in its slot, which is reserved.
fn settle(words: &Words, seat: &mut AtomSeat, slot: u32, text: &Text) -> Result<(), Memory>
    requires fits { Fits words.now seat.old }
    requires short { size text.now ≤ 248 }
    requires own { (seen seat.old).own ≡ Some (fresh slot) }
    requires sitting { Sitting (seen seat.old) }
    requires missing { MissingIn (spelled text.now) (seen seat.old) }
    ensures same { Same seat.old seat.new }
    ensures placed { IfOk result (λ _. ((seen seat.new).held ≡ (seen seat.old).held ++ record { slot = slot; text = spelled text.now } ∷ []) × Alone (seen seat.old) slot (spelled text.now) × (slot < words.now.size.slots) × ((seen seat.new).own ≡ None) × Carries (seen seat.old) (seen seat.new)) }
{
    match add_text(words, seat, text) {
        Ok(_) => Ok(()),
        Err(_) => Err(Memory),
    }
}

// Takes the slot of a fixed atom, whose text the walk at hand did not find.
fn take_fixed(words: &Words, seat: &mut AtomSeat, slot: u32, text: &Text) -> Result<(), Memory>
    requires fits { Fits words.now seat.old }
    requires slot { slot < words.now.size.slots }
    requires short { size text.now ≤ 248 }
    requires none { (seen seat.old).own ≡ None }
    requires sitting { Sitting (seen seat.old) }
    requires missing { MissingIn (spelled text.now) (seen seat.old) }
    ensures same { Same seat.old seat.new }
    ensures placed { IfOk result (λ _. Placed (spelled text.now) slot (seen seat.old) (seen seat.new)) }
{
    match words.reserve(seat, slot) {
        Ok(()) => settle(words, seat, slot, text),
        Err(_) => Err(Memory),
    }
}

// Makes a fixed atom, whose slot is not taken in a new table and whose text is in no slot there.
fn place_fixed(words: &Words, seat: &mut AtomSeat, slot: u32, text: &Text) -> Result<(), Memory>
    requires fits { Fits words.now seat.old }
    requires none { (seen seat.old).own ≡ None }
    requires walking { Walking (seen seat.old) }
    ensures same { Same seat.old seat.new }
    ensures placed { IfOk result (λ _. Placed (spelled text.now) slot (seen seat.old) (seen seat.new)) }
    ensures fixed { IfOk result (λ _. (slot < 256) × (size text.now ≤ 248) × (all_scalars text.now ≡ true)) }
{
    text.scalars();
    if text.size() > 248 || slot >= 256 {
        return Err(Memory);
    }
    match walk(words, seat, text) {
        Ok(found) => match found {
            None => take_fixed(words, seat, slot, text),
            Some(_) => Err(Memory),
        },
        Err(_) => Err(Memory),
    }
}

// Makes all fixed atoms, which the seat then holds.
fn place_all(alloc: Global, words: &Words, seat: &mut AtomSeat) -> Result<(), Memory>
    requires sits { Sits words.now seat.old }
    requires none { (seen seat.old).held ≡ [] }
    requires walking { Walking (seen seat.old) }
    ensures same { Same seat.old seat.new }
    ensures sits { IfOk result (λ _. Sits words.now seat.new) }
    ensures stays { IfOk result (λ _. Stays (seen seat.old) (seen seat.new)) }
    ensures held { IfOk result (λ _. ((seen seat.new).held ≡ fixed_slots) × Low (seen seat.new)) }
{
    let rows = fixed_atoms(alloc)?;
    for row in &rows {
        place_fixed(words, seat, row.0.slot(), &row.1)?;
    }
    Ok(())
}

// The version of each bucket is raised to the one that the table begins with.
fn raise_all(words: &Words, seat: &mut AtomSeat) -> Result<(), Memory>
    requires fits { Fits words.now seat.old }
    requires first { 0 < (seen seat.old).undealt }
    requires none { (seen seat.old).risen ≡ 0 }
    ensures same { Same seat.old seat.new }
    ensures unchanged { Unchanged (seen seat.old) (seen seat.new) }
    ensures risen { IfOk result (λ _. (seen seat.new).risen ≡ 256) }
{
    for head in 0..256u32 {
        match words.raise(seat, head) {
            Ok(()) => {}
            Err(_) => return Err(Memory),
        }
    }
    Ok(())
}

// The slots held become the fixed atoms.
fn fix(words: &Words, seat: &mut AtomSeat)
    requires fits { Fits words.now seat.old }
    requires low { Low (seen seat.old) }
    ensures same { Same seat.old seat.new }
    ensures steps { seen seat.new ≡ after (seen seat.old) (Fix ∷ []) }
{
    words.table.shared.load::<Fixing>(&mut seat.seat, 0);
}

// The seats of the engines, from 1 on.
fn deal_all(
    alloc: Global,
    words: &Words,
    first: &mut AtomSeat,
    engines: u32,
) -> Result<Vec<AtomSeat>, Memory>
    requires { Source words.now engines first.old }
    ensures { IfOk result (λ seats. (length seats.items ≡ engines) × FreshFrom words.now 1 seats.items) }
{
    let mut seats = Vec::new(alloc);
    for i in 0..engines {
        let seat = words.split_engine_seat(first, (engines - i) as u64);
        seats.insert(0, seat)?;
    }
    Ok(seats)
}

impl AtomTable {
    /// A new table with room for `slots` atoms, from 512 to 1,048,576, and seats for `engines` engines, from 1 to 64. The
    /// fixed atoms are in it. The only error is out of memory.
    pub fn new(alloc: Global, slots: u32, engines: u32) -> Result<Opened, Memory>
        requires slots { (512 ≤ slots) × (slots ≤ 1048576) }
        requires engines { (1 ≤ engines) × (engines ≤ 64) }
        ensures table { IfOk result (λ o. (o.table.words.size.slots ≡ slots) × (o.table.words.size.start ≡ 0)) }
        ensures seats { IfOk result (λ o. (length o.seats.items ≡ engines) × FreshFrom o.table.words 1 o.seats.items) }
        ensures keeper { IfOk result (λ o. Sits o.table.words o.keeper.seat × IsKeeper (seen o.keeper.seat)) }
        ensures collector { IfOk result (λ o. Sits o.table.words o.collector.seat) }
        ensures rows { IfOk result (λ o. (o.collector.word ≡ 0) × (o.collector.rows.stage ≡ Still) × (o.collector.rows.row ≡ 8)) }
        ensures versions { IfOk result (λ o. (seen o.keeper.seat).risen ≡ 256) }
    {
        AtomTable::new_at(alloc, slots, engines, 0)
    }

    /// The same, where the version of each bucket begins at the number given, which is below 2^42. The fixed atoms are linked
    /// before the versions are raised to it, so that they are there whatever it is. Each seat but the collector's knows that
    /// the version of each of the 256 heads is that number or a later one.
    pub fn new_at(alloc: Global, slots: u32, engines: u32, version: u64) -> Result<Opened, Memory>
        requires slots { (512 ≤ slots) × (slots ≤ 1048576) }
        requires engines { (1 ≤ engines) × (engines ≤ 64) }
        requires version { version < 2 ^ 42 }
        ensures table { IfOk result (λ o. (o.table.words.size.slots ≡ slots) × (o.table.words.size.start ≡ version)) }
        ensures seats { IfOk result (λ o. (length o.seats.items ≡ engines) × FreshFrom o.table.words 1 o.seats.items) }
        ensures keeper { IfOk result (λ o. Sits o.table.words o.keeper.seat × IsKeeper (seen o.keeper.seat)) }
        ensures collector { IfOk result (λ o. Sits o.table.words o.collector.seat) }
        ensures rows { IfOk result (λ o. (o.collector.word ≡ 0) × (o.collector.rows.stage ≡ Still) × (o.collector.rows.row ≡ 8)) }
        ensures versions { IfOk result (λ o. (seen o.keeper.seat).risen ≡ 256) }
    {
        let size = table_size(slots, engines, version);
        let (words, mut first) = Words::new(alloc, size)?;
        let collector = words.part_collector(&mut first);
        place_all(alloc, &words, &mut first)?;
        raise_all(&words, &mut first)?;
        fix(&words, &mut first);
        let keeper = words.part_keeper(&mut first);
        let seats = deal_all(alloc, &words, &mut first, engines)?;
        Ok(Opened {
            table: AtomTable { words },
            seats,
            keeper: Keeper { seat: keeper },
            collector: Collector {
                seat: collector,
                word: 0,
                checked: 0,
                cursor: 0,
                live: COUNT as u32,
                rows: first_rows(),
            },
        })
    }
}
