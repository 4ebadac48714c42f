//! All atoms of a list are held by their counts, counted, and counted no longer.
ghost use Rattle.std.specs.Prelude.{◌≤◌, ℕ, ◌+◌, ◌<◌, IsSome};
ghost use Rattle.atom_words.specs.Kinds.{Sitting};
ghost use Rattle.atom_words.specs.Seats.{seen, Same};
ghost use Rattle.atom_table.specs.Naming.{names};
ghost use Rattle.counted_terms.specs.Keeping.{Fetched, Joins, Registered, Unregistered, tally, times};

use crate::naming::{fetch, register, unregister};
use atom_table::{Atom, AtomSeat, AtomTable};

/// Holds all atoms of the list, each of which the keeper counts, with the texts that the keeper keeps.
pub fn fetch_all(table: &AtomTable, seat: &mut AtomSeat, atoms: &[Atom])
    requires joins { Joins table.now.words seat.old }
    requires sitting { Sitting (seen seat.old) }
    requires counted { (k : ℕ) → 0 < times k atoms.now → 0 < tally (seen seat.old) k }
    ensures same { Same seat.old seat.new }
    ensures joins { Joins table.now.words seat.new }
    ensures fetched { Fetched atoms.now (seen seat.old) (seen seat.new) }
{
    for a in atoms {
        fetch(table, seat, *a);
    }
}

/// Counts all atoms of the list, which the seat holds, once more for each time that the list has them. No count comes
/// to 2^61 by it.
pub fn register_all(table: &AtomTable, seat: &mut AtomSeat, atoms: &[Atom])
    requires joins { Joins table.now.words seat.old }
    requires held { (k : ℕ) → 0 < times k atoms.now → IsSome (names (seen seat.old) k) }
    requires room { (k : ℕ) → times k atoms.now + tally (seen seat.old) k < 2305843009213693952 }
    ensures same { Same seat.old seat.new }
    ensures joins { Joins table.now.words seat.new }
    ensures registered { Registered atoms.now (seen seat.old) (seen seat.new) }
{
    for a in atoms {
        register(table, seat, *a);
    }
}

/// Counts all atoms of the list once less for each time that the list has them.
pub fn unregister_all(table: &AtomTable, seat: &mut AtomSeat, atoms: &[Atom])
    requires joins { Joins table.now.words seat.old }
    requires counted { (k : ℕ) → times k atoms.now ≤ tally (seen seat.old) k }
    ensures same { Same seat.old seat.new }
    ensures joins { Joins table.now.words seat.new }
    ensures unregistered { Unregistered atoms.now (seen seat.old) (seen seat.new) }
{
    for a in atoms {
        unregister(table, seat, *a);
    }
}
