//! An atom is held by its count, counted once more, and once less.
ghost use Rattle.std.specs.Prelude.{◌<◌, [], ◌∷◌, IsSome};
ghost use Rattle.atom_words.specs.Kinds.{Sitting};
ghost use Rattle.atom_words.specs.Seats.{seen, Same};
ghost use Rattle.atom_table.specs.Naming.{names};
ghost use Rattle.counted_terms.specs.Keeping.{Fetched, Joins, Registered, Unregistered, tally};

use atom_table::{Atom, AtomSeat, AtomTable};

/// Holds an atom that the keeper counts, with the text that the keeper keeps.
pub fn fetch(table: &AtomTable, seat: &mut AtomSeat, a: Atom)
    requires joins { Joins table.now.words seat.old }
    requires sitting { Sitting (seen seat.old) }
    requires counted { 0 < tally (seen seat.old) a }
    ensures same { Same seat.old seat.new }
    ensures joins { Joins table.now.words seat.new }
    ensures fetched { Fetched (a ∷ []) (seen seat.old) (seen seat.new) }
{
    table.fetch(seat, a);
}

/// Counts an atom that the seat holds once more. Its count is below 2^61 - 1.
pub fn register(table: &AtomTable, seat: &mut AtomSeat, a: Atom)
    requires joins { Joins table.now.words seat.old }
    requires held { IsSome (names (seen seat.old) a) }
    requires room { tally (seen seat.old) a < 2305843009213693951 }
    ensures same { Same seat.old seat.new }
    ensures joins { Joins table.now.words seat.new }
    ensures registered { Registered (a ∷ []) (seen seat.old) (seen seat.new) }
{
    table.register(seat, a);
}

/// Counts an atom once less. What is still counted, or fixed, is kept with its text.
pub fn unregister(table: &AtomTable, seat: &mut AtomSeat, a: Atom)
    requires joins { Joins table.now.words seat.old }
    requires counted { 0 < tally (seen seat.old) a }
    ensures same { Same seat.old seat.new }
    ensures joins { Joins table.now.words seat.new }
    ensures unregistered { Unregistered (a ∷ []) (seen seat.old) (seen seat.new) }
{
    table.unregister(seat, a);
}
