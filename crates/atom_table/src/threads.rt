//! Eight threads intern the same texts in different orders, and have one atom for each.
ghost use Rattle.std.specs.Prelude.{IfOk, vec_len, ◌≡◌};
ghost use Rattle.atom_table.specs.Opening.{FreshFrom};

use crate::atoms::{NamesTable, TableAtoms};
use crate::opening::Opened;
use crate::table::AtomTable;
use crate::tests::of_last;
use atom_api::{Atoms, Interned};
use atom_words::AtomSeat;
use pl_term::{Memory, Text};
use std::alloc::Global;
use std::marker::Brand;
use std::test::Fail;
use std::thread;
use std::thread::Threads;

const TEXTS: usize = 2000;

const SLOTS: usize = 4096;

// Numbers that have no divisor in common with the number of texts.
const STRIDES: [u8; 8] = [1, 3, 7, 9, 11, 13, 17, 19];

// The slot of a text, which is tried as often as other threads step in between.
fn slot_of<K: NamesTable>(atoms: &mut TableAtoms<K>, text: &Text) -> Option<u32> {
    for _i in 0..10_000_000u32 {
        match atoms.intern(text) {
            Interned::Is(a) => return Some(a.slot()),
            Interned::Again(_) => {}
            _ => return None,
        }
    }
    None
}

// The slots of all texts, as one thread finds them. It begins at another text than the others, and goes on by a stride of
// its own.
fn intern_all<K: NamesTable>(alloc: Global, atoms: &mut TableAtoms<K>) -> Result<Vec<u32>, Memory> {
    let mut slots = Vec::from_elem(alloc, 0u32, TEXTS)?;
    let thread = (atoms.seat.engine % 8) as usize;
    let stride = STRIDES[thread] as usize;
    for i in 0..TEXTS {
        let place = (250 * thread + stride * i) % TEXTS;
        let name = format!(in alloc; "t{place}")?;
        let text = Text::from_str(alloc, name.as_str())?;
        let Some(slot) = slot_of(atoms, &text) else {
            return Err(Memory);
        };
        slots[place] = slot;
    }
    Ok(slots)
}

// The atoms of eight engines.
pub fn eight<'a, K: NamesTable>(
    alloc: Global,
    table: &'a AtomTable,
    seats: &mut Vec<AtomSeat>,
) -> Result<Vec<TableAtoms<'a, K>>, Memory>
    requires named { (table.now.words.table.shared.table_id ≡ K.atoms) × (table.now.words.size ≡ K.size) }
    requires fresh { FreshFrom table.now.words 1 seats.old.items }
    ensures { IfOk result (λ _. FreshFrom table.now.words 1 seats.new.items) }
{
    let mut all = Vec::new(alloc);
    for _i in 0..8u32 {
        match of_last(table, seats) {
            Some(atoms) => all.push(atoms)?,
            None => return Err(Memory),
        }
    }
    Ok(all)
}

// Whether no slot stands twice in the list.
fn differ(alloc: Global, slots: &[u32]) -> Result<bool, Memory> {
    let mut taken = Vec::from_elem(alloc, false, SLOTS)?;
    for slot in slots {
        let place = *slot as usize;
        if place >= SLOTS || taken[place] {
            return Ok(false);
        }
        taken[place] = true;
    }
    Ok(true)
}

// Whether all threads found the same slots.
fn agree(found: &[Result<Vec<u32>, Memory>], slots: &[u32]) -> bool {
    for one in found {
        match one {
            Ok(others) => {
                if others.as_slice() != slots {
                    return false;
                }
            }
            Err(_) => return false,
        }
    }
    true
}

// Eight threads intern the texts, and a ninth seat after them: whether each finds what the last does, and no two texts
// have one slot.
fn all_agree<K: NamesTable + Send + Sync, R: Threads + Sync>(
    rt: &R,
    alloc: Global,
    table: &AtomTable,
    seats: &mut Vec<AtomSeat>,
) -> Result<bool, Fail>
    requires named { (table.now.words.table.shared.table_id ≡ K.atoms) × (table.now.words.size ≡ K.size) }
    requires fresh { FreshFrom table.now.words 1 seats.old.items }
{
    let all = eight::<K>(alloc, table, seats)?;
    let mut last = of_last::<K>(table, seats).ok_or("a seat")?;
    let found = thread::map_vec(
        rt,
        all,
        &|atoms: TableAtoms<K>| -> Result<Vec<u32>, Memory> {
            let mut atoms = atoms;
            intern_all(alloc, &mut atoms)
        },
    )?;
    let again = intern_all(alloc, &mut last)?;
    Ok(agree(found.as_slice(), again.as_slice()) && differ(alloc, again.as_slice())?)
}

#[test]
pub fn eight_threads_have_one_atom_for_each_text(rt: HostRuntime) -> Result<(), Fail> {
    let Opened {
        table,
        mut seats,
        keeper: _,
        collector: _,
    } = AtomTable::new(rt.alloc(), SLOTS as u32, 9)?;
    let same = all_agree::<Brand, _>(&rt, rt.alloc(), &table, &mut seats)?;
    assert!(rt; same);
    Ok(())
}
