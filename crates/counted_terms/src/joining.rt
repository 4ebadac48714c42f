//! A seat takes over the keeper's counts, and gives them back.
ghost use Rattle.std.specs.Prelude.{◌≡◌};
ghost use Rattle.atom_words.specs.Seats.{seen, Same};
ghost use Rattle.atom_table.specs.Holding.{Sits};
ghost use Rattle.atom_table.specs.Opening.{fixed_slots};
ghost use Rattle.counted_terms.specs.Keeping.{Carries, Joins, Keeps};

use crate::agreement::show;
use atom_table::{AtomSeat, AtomTable, Keeper};

/// The seat carries the keeper's counts until `part`: what it holds stays, and what the keeper keeps and counts. One
/// load shows that the two agree.
pub fn join(table: &AtomTable, seat: &mut AtomSeat, keeper: Keeper)
    requires seat { Sits table.now.words seat.old × ((seen seat.old).fixed ≡ fixed_slots) }
    requires keeper { Keeps table.now.words keeper.seat }
    ensures same { Same seat.old seat.new }
    ensures joins { Joins table.now.words seat.new }
    ensures carries { Carries (seen keeper.seat) (seen seat.old) (seen seat.new) }
{
    table.with_both(seat, keeper);
    show(&table.words, seat);
}

/// The keeper with its counts, which the seat carries no longer.
pub fn part(table: &AtomTable, seat: &mut AtomSeat) -> Keeper
    requires { Joins table.now.words seat.old }
    ensures same { Same seat.old seat.new }
    ensures sits { Sits table.now.words seat.new × ((seen seat.new).fixed ≡ fixed_slots) }
    ensures keeper { Keeps table.now.words result.seat }
    ensures carried { Carries (seen result.seat) (seen seat.new) (seen seat.old) }
{
    table.part(seat)
}
