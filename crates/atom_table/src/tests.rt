//! The table with one seat and with several.
ghost use Rattle.std.specs.Prelude.{◌≡◌, ◌<◌, List, [], replicate, Some, IfSome};
ghost use Rattle.atom_words.specs.Views.{uncounted};
ghost use Rattle.atom_words.specs.Kinds.{counted};
ghost use Rattle.atom_words.specs.Seats.{seen, Walking};
ghost use Rattle.atom_words.specs.declared.view.Counted.{Counted};
ghost use Rattle.atom_table.specs.Holding.{Sits, IsEngine};
ghost use Rattle.atom_table.specs.Opening.{fixed_slots, FreshFrom, IsKeeper};

use crate::atoms::{NamesTable, TableAtoms};
use crate::opening::Opened;
use crate::seats::Keeper;
use crate::steps::{Step, Wanted, wrong_alone, wrong_by_two};
use crate::table::AtomTable;
use atom_api::{Atom, Atoms, Interned, TextBuf, fixed};
use atom_words::AtomSeat;
use bucket_rows::bucket;
use pl_term::{Memory, Text};
use std::alloc::Global;
use std::convert::AsStr;
use std::marker::Brand;
use std::process::Abort;
use std::test::Fail;

// The seat of the engine with the highest number that is still there.
pub fn take_last(table: &AtomTable, seats: &mut Vec<AtomSeat>) -> Option<AtomSeat>
    requires { FreshFrom table.now.words 1 seats.old.items }
    ensures rest { FreshFrom table.now.words 1 seats.new.items }
    ensures sits { IfSome result (λ s. Sits table.now.words s) }
    ensures fixed { IfSome result (λ s. (seen s).fixed ≡ fixed_slots) }
    ensures walking { IfSome result (λ s. Walking (seen s)) }
    ensures engine { IfSome result (λ s. IsEngine (seen s)) }
    ensures refusals { IfSome result (λ s. (seen s).refusals ≡ []) }
{
    seats.pop()
}

// The atoms of that seat.
pub fn of_last<'a, K: NamesTable>(
    table: &'a AtomTable,
    seats: &mut Vec<AtomSeat>,
) -> Option<TableAtoms<'a, K>>
    requires named { (table.now.words.table.shared.table_id ≡ K.atoms) × (table.now.words.size ≡ K.size) }
    requires fresh { FreshFrom table.now.words 1 seats.old.items }
    ensures { FreshFrom table.now.words 1 seats.new.items }
{
    match take_last(table, seats) {
        Some(seat) => Some(TableAtoms::new(table, seat)),
        None => None,
    }
}

// The answer on the text that `s` spells.
fn intern(
    alloc: Global,
    table: &AtomTable,
    seat: &mut AtomSeat,
    s: &str,
) -> Result<Interned, Memory>
    requires sits { Sits table.now.words seat.old }
    requires walking { Walking (seen seat.old) }
    ensures sits { Sits table.now.words seat.new }
    ensures walking { Walking (seen seat.new) }
{
    let text = Text::from_str(alloc, s)?;
    Ok(table.intern(seat, &text))
}

#[test]
fn two_seats_have_equal_atoms(rt: HostRuntime) -> Result<(), Fail> {
    let first = [Step::Text("a", Wanted::New)];
    let second = [
        Step::Text("a", Wanted::Same),
        Step::Text("true", Wanted::Fixed(fixed::TRUE.slot())),
        Step::Text("{}", Wanted::Fixed(fixed::BRACES.slot())),
    ];
    assert_eq!(rt; wrong_by_two(rt.alloc(), &first, &second, &[])?, None);
    Ok(())
}

const FULL: [Step; 4] = [
    Step::Text("a1", Wanted::New),
    Step::Fill('a', 256),
    Step::Text("a257", Wanted::Full),
    Step::Text("a1", Wanted::Same),
];

#[test]
fn a_full_table_says_so(rt: HostRuntime) -> Result<(), Fail> {
    assert_eq!(rt; wrong_alone(rt.alloc(), 512, 0, &FULL)?, None);
    Ok(())
}

#[test]
fn a_worn_bucket_takes_no_new_atom(rt: HostRuntime) -> Result<(), Fail> {
    let version = 4_398_046_511_103;
    let head = bucket(b"zz", 8) as u64;
    let steps = [
        Step::Text("zz", Wanted::Worn(head, version)),
        Step::Text("yfx", Wanted::Fixed(fixed::YFX.slot())),
    ];
    assert_eq!(rt; wrong_alone(rt.alloc(), 512, version, &steps)?, None);
    Ok(())
}

#[test]
fn a_text_of_249_bytes_is_too_long(rt: HostRuntime) -> Result<(), Fail> {
    assert_eq!(rt; wrong_alone(rt.alloc(), 512, 0, &[Step::Long(249)])?, None);
    Ok(())
}

// Interns a text, and counts its atom once.
fn register_text(table: &AtomTable, seat: &mut AtomSeat, text: &Text) -> Option<Atom>
    requires sits { Sits table.now.words seat.old }
    requires walking { Walking (seen seat.old) }
    requires counts { (seen seat.old).counts ≡ Some (replicate (seen seat.old).size.slots uncounted) }
    ensures sits { Sits table.now.words seat.new }
    ensures counted { IfSome result (λ a. (cs : List Counted) × ((seen seat.new).counts ≡ Some cs) × (0 < (counted cs a).count)) }
{
    match table.intern(seat, text) {
        Interned::Is(a) => {
            table.register(seat, a);
            Some(a)
        }
        _ => None,
    }
}

// Holds a counted atom, and counts it once less.
fn fetch_and_unregister(table: &AtomTable, seat: &mut AtomSeat, a: Atom)
    requires sits { Sits table.now.words seat.old }
    requires walking { Walking (seen seat.old) }
    requires counted { (cs : List Counted) × ((seen seat.old).counts ≡ Some cs) × (0 < (counted cs a).count) }
    ensures sits { Sits table.now.words seat.new }
    ensures walking { Walking (seen seat.new) }
{
    table.fetch(seat, a);
    table.unregister(seat, a);
}

// One seat counts the atom of a text, and another, which takes the keeper's over, fetches it.
fn hand_over(
    table: &AtomTable,
    keeper: Keeper,
    one: &mut AtomSeat,
    two: &mut AtomSeat,
    text: &Text,
) -> Option<Atom>
    requires one { Sits table.now.words one.old × Walking (seen one.old) }
    requires two { Sits table.now.words two.old × Walking (seen two.old) }
    requires keeper { Sits table.now.words keeper.seat × IsKeeper (seen keeper.seat) }
    ensures one { Sits table.now.words one.new }
    ensures two { Sits table.now.words two.new × Walking (seen two.new) }
{
    table.with_both(one, keeper);
    match register_text(table, one, text) {
        Some(a) => {
            let keeper = table.part(one);
            table.with_both(two, keeper);
            fetch_and_unregister(table, two, a);
            Some(a)
        }
        None => None,
    }
}

#[test]
fn a_counted_atom_is_fetched_by_another_seat(rt: HostRuntime) -> Result<(), Fail> {
    let Opened {
        table,
        mut seats,
        keeper,
        collector: _,
    } = AtomTable::new(rt.alloc(), 512, 2)?;
    let mut two = take_last(&table, &mut seats).ok_or("a seat")?;
    let mut one = take_last(&table, &mut seats).ok_or("a seat")?;
    let text = Text::from_str(rt.alloc(), "zz")?;
    let handed = hand_over(&table, keeper, &mut one, &mut two, &text);
    let Some(a) = handed else {
        panic!(rt; "there was no atom")
    };
    assert_eq!(rt;
        intern(rt.alloc(), &table, &mut two, "zz")?,
        Interned::Is(a)
    );
    Ok(())
}

// The atom of a text and its text again, and the atom of the text after all atoms are let go.
fn come_back<A: Atoms>(
    alloc: Global,
    atoms: &mut A,
    s: &str,
) -> Result<Option<(Atom, Text, Interned)>, Memory> {
    let text = Text::from_str(alloc, s)?;
    match atoms.intern(&text) {
        Interned::Is(a) => {
            let mut buf = TextBuf::new();
            atoms.text(a, &mut buf);
            atoms.keep_only(&[]);
            Ok(Some((a, buf.to_text(alloc)?, atoms.intern(&text))))
        }
        _ => Ok(None),
    }
}

// The same over the atoms of the last engine.
fn last_comes_back<K: NamesTable, R: Abort>(
    rt: &R,
    alloc: Global,
    table: &AtomTable,
    seats: &mut Vec<AtomSeat>,
) -> Result<(), Fail>
    requires named { (table.now.words.table.shared.table_id ≡ K.atoms) × (table.now.words.size ≡ K.size) }
    requires fresh { FreshFrom table.now.words 1 seats.old.items }
{
    let mut atoms = of_last::<K>(table, seats).ok_or("a seat")?;
    let Some((a, text, again)) = come_back(alloc, &mut atoms, "zz")? else {
        panic!(rt; "there was no atom")
    };
    assert_eq!(rt; text.as_str(), "zz");
    assert_eq!(rt; again, Interned::Is(a));
    Ok(())
}

#[test]
fn an_engine_has_atoms_of_the_table(rt: HostRuntime) -> Result<(), Fail> {
    let Opened {
        table,
        mut seats,
        keeper: _,
        collector: _,
    } = AtomTable::new(rt.alloc(), 512, 1)?;
    last_comes_back::<Brand, _>(&rt, rt.alloc(), &table, &mut seats)
}
