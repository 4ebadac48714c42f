//! An engine scans what it holds, and acknowledges.
ghost use Rattle.std.specs.Prelude.{◌≡◌, ◌≢◌, ◌<◌, ◌≤◌, ℕ, [], ◌∷◌};
ghost use Rattle.atom_words.specs.Chains.{In};
ghost use Rattle.atom_words.specs.Kinds.{Scanning as IsScanning, after};
ghost use Rattle.atom_words.specs.Seats.{seen, Fits, Same, Has};
ghost use Rattle.atom_words.specs.declared.view.Held.{Held};
ghost use Rattle.atom_words.specs.declared.kind.Kind.TheVariants.{Scan, Ack};
ghost use Rattle.bucket_rows.specs.Touches.{touch};
ghost use Rattle.bucket_rows.specs.Cycles.{MarksBy};

use crate::plays::{Acknowledging, Marking, Scanning};
use atom_api::Atom;
use atom_words::{AtomSeat, Keeps, Words};

/// Reads the epoch word. Where the cycle marks, and the seat's engine has not acknowledged it, the engine goes on to hold
/// those slots alone that the call picks, of those that it holds, and is to scan them. The epoch is answered.
///
/// # Errors
/// The epoch word, where the cycle does not mark or the engine has acknowledged it.
pub fn mark<K: Keeps>(words: &Words, seat: &mut AtomSeat, _live: &[Atom]) -> Result<u64, u64>
    requires fits { Fits words.now seat.old }
    requires engine { (seen seat.old).cycle.engine ≢ 0 }
    requires ours { (a : Held) → In a K.those → In a (seen seat.old).held }
    ensures same { Same seat.old seat.new }
    ensures engine { (seen seat.new).cycle.engine ≤ words.now.size.engines }
    ensures steps { MarksBy K.those (seen seat.old) result (seen seat.new) }
{
    let word = words.table.shared.load::<Marking<K>>(&mut seat.seat, 0);
    if word % 4 == 1 && word / 4 > seat.acked {
        Ok(word / 4)
    } else {
        Err(word)
    }
}

/// Sets the mark of an atom by one exchange, and answers the word that was found. It scans an atom that the seat holds, or a
/// fixed one, and protects any other. The seat's engine is to scan.
pub fn scan(words: &Words, seat: &mut AtomSeat, a: Atom) -> u64
    requires fits { Fits words.now seat.old }
    requires scanning { IsScanning (seen seat.old) }
    requires slot { a < words.now.size.slots }
    ensures same { Same seat.old seat.new }
    ensures steps { seen seat.new ≡ after (seen seat.old) (touch (seen seat.old) a result ∷ []) }
{
    let place = words.atom_place(a.slot());
    words
        .table
        .shared
        .fetch_or::<Scanning>(&mut seat.seat, place, 4)
}

/// Acknowledges the epoch in which the seat's engine scans. It has scanned every slot that it holds.
pub fn ack(words: &Words, seat: &mut AtomSeat, epoch: u64)
    requires fits { Fits words.now seat.old }
    requires scanning { IsScanning (seen seat.old) }
    requires epoch { (seen seat.old).cycle.scanned_at ≡ epoch }
    requires engine { (seen seat.old).cycle.engine ≤ words.now.size.engines }
    requires all { (h : Held) → In h (seen seat.old).held → In h.slot (seen seat.old).cycle.scanned }
    ensures same { Same seat.old seat.new }
    ensures steps { seen seat.new ≡ after (seen seat.old) (Ack ∷ []) }
{
    let place = 1 + seat.engine as usize;
    words
        .table
        .shared
        .store::<Acknowledging>(&mut seat.seat, place, epoch);
    seat.acked = epoch;
}
