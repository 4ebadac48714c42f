//! The sweep of a run of slots.
ghost use Rattle.std.specs.Prelude.{◌≡◌, ◌+◌, ◌-◌, ◌<◌, ◌≤◌, List, length};
ghost use Rattle.atom_words.specs.Seats.{seen, Fits, Same};
ghost use Rattle.bucket_rows.specs.Treads.{AtSlot};
ghost use Rattle.bucket_rows.specs.SweepKinds.{Untouched};
ghost use Rattle.bucket_rows.specs.Sweeps.{left_valid, all_left_valid, Run};
ghost use Rattle.bucket_rows.specs.declared.slots.Verdict.{Verdict};

use crate::slots::{Verdict, sweep_slot};
use atom_words::{AtomSeat, Words};

// How many slots, 0 or 1, the sweep found valid and left so, by what it was found to be; one of the first 256 is not looked at.
fn left_valid(verdict: Verdict) -> u32
    ensures valid { result ≡ left_valid verdict }
    ensures few { result ≤ 1 }
{
    match verdict {
        Verdict::Low => 0,
        Verdict::Passed(word) => { if word % 4 == 3 { 1 } else { 0 } }
        Verdict::Worn(_) => 1,
        Verdict::Freed => 0,
    }
}

/// Sweeps the slots from the one that the sweep has come to up to the one before `end`, one after the other. It answers how
/// many of those from 256 on it found valid and left so.
pub fn sweep_run(words: &Words, seat: &mut AtomSeat, from: u32, end: u32) -> u32
    requires fits { Fits words.now seat.old }
    requires slots { (from ≤ end) × (end ≤ words.now.size.slots) }
    requires at { AtSlot from (seen seat.old) }
    ensures same { Same seat.old seat.new }
    ensures fits { Fits words.now seat.new }
    ensures steps { (rs : List Verdict) × (length rs ≡ end - from) × Run from rs (seen seat.old) (seen seat.new) × (result ≡ all_left_valid rs) }
    ensures untouched { Untouched (seen seat.old) (seen seat.new) }
    ensures at { AtSlot end (seen seat.new) }
    ensures few { result ≤ end - from }
{
    let mut live = 0;
    for slot in from..end {
        live += left_valid(sweep_slot(words, seat, slot));
    }
    live
}
