//! An engine takes part in a cycle of collection.
ghost use Rattle.std.specs.Prelude.{◌≡◌, ◌≢◌, ◌≤◌, ℕ, List, [], ◌∷◌, length};
ghost use Rattle.atom_words.specs.Kinds.{Scanning, after};
ghost use Rattle.atom_words.specs.Seats.{seen, Fits, Same};
ghost use Rattle.bucket_rows.specs.Cycles.{MarksBy};
ghost use Rattle.atom_table.specs.Holding.{Sits, IsEngine};
ghost use Rattle.atom_table.specs.Naming.{those};
ghost use Rattle.atom_table.specs.Collecting.{scans, AcksBy};

use crate::table::AtomTable;
use atom_api::Atom;
use atom_words::{AtomSeat, Words};
use bucket_rows::{ack, mark, scan};
use std::marker::Brand;

/// What an engine found of the cycle.
#[derive(Clone, Copy, Debug, PartialEq, Eq, Drop)]
pub enum Marked {
    /// It has acknowledged that epoch.
    Acked(u64),
    /// By that epoch word the cycle does not mark, or the engine had acknowledged it.
    NoCycle(u64),
}

// The epoch word is read. Where the cycle marks, only the slots of the list are held on, of those held.
fn mark_live(words: &Words, seat: &mut AtomSeat, live: &[Atom]) -> Result<u64, u64>
    requires fits { Fits words.now seat.old }
    requires engine { (seen seat.old).cycle.engine ≢ 0 }
    ensures same { Same seat.old seat.new }
    ensures engine { (seen seat.new).cycle.engine ≤ words.now.size.engines }
    ensures steps { MarksBy (those live.now (seen seat.old).held) (seen seat.old) result (seen seat.new) }
{
    mark::<Brand>(words, seat, live)
}

// All atoms of the list that are slots of the table are marked.
fn scan_all(words: &Words, seat: &mut AtomSeat, live: &[Atom])
    requires fits { Fits words.now seat.old }
    requires scanning { Scanning (seen seat.old) }
    ensures same { Same seat.old seat.new }
    ensures steps { (xs : List ℕ) × (length xs ≡ length live.now) × (seen seat.new ≡ after (seen seat.old) (scans (seen seat.old) live.now xs)) }
{
    for a in live {
        scan_if_there(words, seat, *a);
    }
}

// The atom is marked, if it is a slot of the table.
fn scan_if_there(words: &Words, seat: &mut AtomSeat, a: Atom)
    requires fits { Fits words.now seat.old }
    requires scanning { Scanning (seen seat.old) }
    ensures same { Same seat.old seat.new }
    ensures steps { (x : ℕ) × (seen seat.new ≡ after (seen seat.old) (scans (seen seat.old) (a ∷ []) (x ∷ []))) }
{
    if (a.slot() as u64) < words.size.slots {
        scan(words, seat, a);
    }
}

impl AtomTable {
    /// Where a cycle marks that the seat's engine has not acknowledged, it marks the atoms of the list, each by one exchange,
    /// and acknowledges the epoch, after which it holds just those, of the atoms that it held. The seat is an engine's. An
    /// atom of the list that it does not hold keeps its slot through this cycle, and is not held afterwards. Else nothing is
    /// changed. It makes at most two steps more than the list is long.
    pub fn mark_and_ack(&self, seat: &mut AtomSeat, live: &[Atom]) -> Marked
        requires sits { Sits self.now.words seat.old }
        requires engine { IsEngine (seen seat.old) }
        ensures same { Same seat.old seat.new }
        ensures sits { Sits self.now.words seat.new }
        ensures engine { IsEngine (seen seat.new) }
        ensures steps { AcksBy live.now (seen seat.old) result (seen seat.new) }
    {
        match mark_live(&self.words, seat, live) {
            Ok(epoch) => {
                scan_all(&self.words, seat, live);
                ack(&self.words, seat, epoch);
                Marked::Acked(epoch)
            }
            Err(word) => Marked::NoCycle(word),
        }
    }
}
