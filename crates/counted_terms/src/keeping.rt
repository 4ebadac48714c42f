//! The keeper in its place: the atoms of a list are held by its counts, counted, and counted no longer.
ghost use Rattle.std.specs.Prelude.{◌≡◌, ◌≤◌, ℕ, ◌+◌, ◌<◌, IsSome};
ghost use Rattle.atom_words.specs.Kinds.{Sitting};
ghost use Rattle.atom_words.specs.Seats.{seen, Same};
ghost use Rattle.atom_table.specs.Holding.{Sits};
ghost use Rattle.atom_table.specs.Naming.{names};
ghost use Rattle.atom_table.specs.Opening.{fixed_slots};
ghost use Rattle.counted_terms.specs.Agreements.{Agreed};
ghost use Rattle.counted_terms.specs.Keeping.{FetchedBy, KeeperIn, RegisteredBy, Stays, UnregisteredBy, keeper_view, kept, tally, times};

use crate::joining::{join, part};
use crate::lists::{fetch_all, register_all, unregister_all};
use atom_table::{Atom, AtomSeat, AtomTable, Keeper};

/// Shows, by one load, that the seat and the keeper agree. Nothing else is done.
pub fn agree_kept(table: &AtomTable, keeper: &mut Option<Keeper>, seat: &mut AtomSeat)
    requires keeper { KeeperIn table.now.words keeper.old }
    requires seat { Sits table.now.words seat.old × ((seen seat.old).fixed ≡ fixed_slots) }
    ensures keeper { KeeperIn table.now.words keeper.new }
    ensures seat { Sits table.now.words seat.new × ((seen seat.new).fixed ≡ fixed_slots) }
    ensures same { Same seat.old seat.new }
    ensures agreed { Agreed (seen seat.old) (keeper_view keeper.old) }
    ensures held { names (seen seat.new) ≡ names (seen seat.old) }
    ensures keeps { kept (keeper_view keeper.new) ≡ kept (keeper_view keeper.old) }
    ensures counts { tally (keeper_view keeper.new) ≡ tally (keeper_view keeper.old) }
    ensures stays { Stays (seen seat.old) (seen seat.new) }
{
    let Some(taken) = keeper.take() else {
        unreachable!()
    };
    join(table, seat, taken);
    *keeper = Some(part(table, seat));
}

/// Holds all atoms of the list, each of which the keeper counts, with the texts that it keeps.
pub fn fetch_kept(
    table: &AtomTable,
    keeper: &mut Option<Keeper>,
    seat: &mut AtomSeat,
    atoms: &[Atom],
)
    requires keeper { KeeperIn table.now.words keeper.old }
    requires seat { Sits table.now.words seat.old × ((seen seat.old).fixed ≡ fixed_slots) }
    requires sitting { Sitting (seen seat.old) }
    requires counted { (k : ℕ) → 0 < times k atoms.now → 0 < tally (keeper_view keeper.old) k }
    ensures keeper { KeeperIn table.now.words keeper.new }
    ensures seat { Sits table.now.words seat.new × ((seen seat.new).fixed ≡ fixed_slots) }
    ensures same { Same seat.old seat.new }
    ensures fetched { FetchedBy atoms.now (keeper_view keeper.old) (seen seat.old) (keeper_view keeper.new) (seen seat.new) }
{
    let Some(taken) = keeper.take() else {
        unreachable!()
    };
    join(table, seat, taken);
    fetch_all(table, seat, atoms);
    *keeper = Some(part(table, seat));
}

/// Counts all atoms of the list, which the seat holds, once more for each time that the list has them. No count comes
/// to 2^61 by it.
pub fn register_kept(
    table: &AtomTable,
    keeper: &mut Option<Keeper>,
    seat: &mut AtomSeat,
    atoms: &[Atom],
)
    requires keeper { KeeperIn table.now.words keeper.old }
    requires seat { Sits table.now.words seat.old × ((seen seat.old).fixed ≡ fixed_slots) }
    requires held { (k : ℕ) → 0 < times k atoms.now → IsSome (names (seen seat.old) k) }
    requires room { (k : ℕ) → times k atoms.now + tally (keeper_view keeper.old) k < 2305843009213693952 }
    ensures keeper { KeeperIn table.now.words keeper.new }
    ensures seat { Sits table.now.words seat.new × ((seen seat.new).fixed ≡ fixed_slots) }
    ensures same { Same seat.old seat.new }
    ensures registered { RegisteredBy atoms.now (keeper_view keeper.old) (seen seat.old) (keeper_view keeper.new) (seen seat.new) }
{
    let Some(taken) = keeper.take() else {
        unreachable!()
    };
    join(table, seat, taken);
    register_all(table, seat, atoms);
    *keeper = Some(part(table, seat));
}

/// Counts all atoms of the list once less for each time that the list has them.
pub fn unregister_kept(
    table: &AtomTable,
    keeper: &mut Option<Keeper>,
    seat: &mut AtomSeat,
    atoms: &[Atom],
)
    requires keeper { KeeperIn table.now.words keeper.old }
    requires seat { Sits table.now.words seat.old × ((seen seat.old).fixed ≡ fixed_slots) }
    requires counted { (k : ℕ) → times k atoms.now ≤ tally (keeper_view keeper.old) k }
    ensures keeper { KeeperIn table.now.words keeper.new }
    ensures seat { Sits table.now.words seat.new × ((seen seat.new).fixed ≡ fixed_slots) }
    ensures same { Same seat.old seat.new }
    ensures unregistered { UnregisteredBy atoms.now (keeper_view keeper.old) (seen seat.old) (keeper_view keeper.new) (seen seat.new) }
{
    let Some(taken) = keeper.take() else {
        unreachable!()
    };
    join(table, seat, taken);
    unregister_all(table, seat, atoms);
    *keeper = Some(part(table, seat));
}
