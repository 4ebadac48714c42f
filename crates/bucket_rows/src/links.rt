//! A new slot is linked in front of its bucket's chain.
ghost use Rattle.std.specs.Prelude.{◌≡◌, Some};
ghost use Rattle.atom_words.specs.Seats.{seen, Fits, Same};
ghost use Rattle.atom_words.specs.declared.view.Walk.{Walk};
ghost use Rattle.bucket_rows.specs.Walks.{Ready, Links};

use crate::missed::Missed;
use atom_words::{AtomSeat, Linking, PuttingLink, WORN, Words};

/// Links the seat's own slot, whose text is put, in front of the chain of its text's bucket. The seat's walk over that chain
/// saw the text in no slot. The head is exchanged whole, so that it is made only where the head is still the word that the
/// walk found, with its version, and the version is then one more.
///
/// # Errors
/// `Worn`, exactly where the version that the walk found is one of the last two; `Moved`, where the head has another version
/// than the walk found. It is then the last in the seat's list of refusals, and the slot is not linked. `Pending` and
/// `Closed` never come.
pub fn link(words: &Words, seat: &mut AtomSeat) -> Result<(), Missed>
    requires fits { Fits words.now seat.old }
    requires ready { Ready (seen seat.old) }
    ensures same { Same seat.old seat.new }
    ensures steps { (t : Walk) → (seen seat.old).walk ≡ Some t → Links (seen seat.old) t result (seen seat.new) }
{
    if seat.word / 4_194_304 >= WORN {
        let head = seat.head;
        return Err(Missed::Worn(words.find_worn(seat, head).unwrap()));
    }
    let first = seat.word % 2_097_152;
    let link = words.link_place(seat.own);
    words
        .table
        .shared
        .store::<PuttingLink>(&mut seat.seat, link, first);
    let top = words.head_place(seat.head);
    let old = seat.word;
    let new = seat.own as u64 + 1 + 4_194_304 * (old / 4_194_304 + 1);
    let found = words
        .table
        .shared
        .compare_exchange::<Linking>(&mut seat.seat, top, old, new);
    if found == old {
        Ok(())
    } else {
        Err(Missed::Moved { old, new: found })
    }
}
