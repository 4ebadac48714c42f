//! The load that shows that what a seat holds and what the keeper counts agree.
ghost use Rattle.std.specs.Prelude.{◌≡◌, ℕ, List, [], ◌∷◌, Some};
ghost use Rattle.atom_words.specs.Kinds.{after};
ghost use Rattle.atom_words.specs.Seats.{seen, Fits, Same};
ghost use Rattle.atom_words.specs.declared.view.Counted.{Counted};
ghost use Rattle.atom_words.specs.declared.kind.Kind.TheVariants.{Load};
ghost use Rattle.counted_terms.specs.Keeping.{Agrees, agreed};

use atom_words::{AtomSeat, View, Words};
use atomic_table::Play;

/// The load that shows that a seat and the counts that it carries agree.
pub struct Agreeing;

impl Play<(), View> for Agreeing {
    ghost then = { agreed };
}

/// Shows that the seat and the counts that it carries agree.
pub(crate) fn show(words: &Words, seat: &mut AtomSeat)
    requires fits { Fits words.now seat.old }
    ensures same { Same seat.old seat.new }
    ensures steps { (x : ℕ) × (seen seat.new ≡ after (seen seat.old) (Load 0 x ∷ [])) }
    ensures agrees { (cs : List Counted) → (seen seat.old).counts ≡ Some cs → Agrees (seen seat.old) cs }
{
    words.table.shared.load::<Agreeing>(&mut seat.seat, 0);
}
