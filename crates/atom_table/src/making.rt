//! A text that no slot has is made an atom.
ghost use Rattle.std.specs.Prelude.{◌≡◌, ℕ, ◌<◌, ◌≤◌, ◌++◌, [], ◌∷◌, Some, None, IfOk, IfErr};
ghost use Rattle.pl_term.specs.Texts.{size};
ghost use Rattle.atom_words.specs.Kinds.{Sitting, fresh, after};
ghost use Rattle.atom_words.specs.Plays.{Alone};
ghost use Rattle.atom_words.specs.Seats.{seen, Fits, Same};
ghost use Rattle.atom_words.specs.declared.view.Walk.{Walk};
ghost use Rattle.bucket_rows.specs.Walks.{spelled, MissingIn};
ghost use Rattle.atom_table.specs.Interning.{Takes, Adds};

use atom_api::Atom;
use atom_words::{AtomSeat, Pass, Words, in_circle};
use bucket_rows::{Missed, link};
use pl_term::Text;
use std::convert::AsStr;

/// Reserves a free slot for the seat. It tries all slots, from `from` on in a circle.
///
/// # Errors
/// The pass, where all slots were found taken.
pub fn take_slot(words: &Words, seat: &mut AtomSeat, from: u32) -> Result<(), Pass>
    requires fits { Fits words.now seat.old }
    requires from { from < words.now.size.slots }
    requires none { (seen seat.old).own ≡ None }
    ensures same { Same seat.old seat.new }
    ensures steps { Takes from (seen seat.old) result (seen seat.new) }
{
    words.start_pass(seat);
    let slots = words.size.slots;
    for i in 0..slots {
        let slot = in_circle(from as u64 + i, slots) as u32;
        match words.reserve(seat, slot) {
            Ok(()) => return Ok(()),
            Err(_) => {}
        }
    }
    Err(words.end_pass(seat).unwrap())
}

/// Puts the text in the reserved slot, links it in front of its bucket's chain, over which the seat has walked without
/// finding the text, and makes it valid.
///
/// # Errors
/// Why the slot was not linked. It is given back.
pub fn add_text(words: &Words, seat: &mut AtomSeat, text: &Text) -> Result<Atom, Missed>
    requires fits { Fits words.now seat.old }
    requires short { size text.now ≤ 248 }
    requires own { (k : ℕ) × ((seen seat.old).own ≡ Some (fresh k)) }
    requires sitting { Sitting (seen seat.old) }
    requires missing { MissingIn (spelled text.now) (seen seat.old) }
    ensures same { Same seat.old seat.new }
    ensures steps { (t : Walk) → (seen seat.old).walk ≡ Some t → Adds (spelled text.now) t (seen seat.old) result (seen seat.new) }
    ensures held { IfOk result (λ a. (k : ℕ) → (seen seat.old).own ≡ Some (fresh k) → (a ≡ k) × (a < words.now.size.slots) × Alone (seen seat.old) a (spelled text.now) × ((seen seat.new).held ≡ (seen seat.old).held ++ record { slot = a; text = spelled text.now } ∷ [])) }
{
    words.put_text(seat, text.as_str().as_bytes());
    match link(words, seat) {
        Ok(()) => Ok(Atom::at(words.validate(seat))),
        Err(missed) => {
            words.release(seat);
            Err(missed)
        }
    }
}
