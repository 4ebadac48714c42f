//! The collector sweeps.
ghost use Rattle.std.specs.Prelude.{◌≡◌, ◌+◌, ◌-◌, ◌<◌, ◌≤◌};
ghost use Rattle.atom_words.specs.Layout.{phase_of};
ghost use Rattle.atom_words.specs.Seats.{seen, Same};
ghost use Rattle.atom_table.specs.Holding.{Sits};
ghost use Rattle.atom_table.specs.Collecting.{SweepsBy};

use crate::seats::Collector;
use crate::table::AtomTable;
use bucket_rows::{finish, sweep_run};

/// How far a call to sweep came.
#[derive(Clone, Copy, Debug, PartialEq, Eq, Drop)]
pub enum Swept {
    /// The sweep has come to that slot.
    At(u32),
    /// All slots were swept, and the cycle is idle.
    Done,
}

// How far a sweep of `most` slots from `from` on comes, where there are `slots`.
fn up_to(from: u32, most: u32, slots: u32) -> u32
    requires { from ≤ slots }
    ensures inside { (from ≤ result) × (result ≤ slots) }
    ensures part { result < slots → result ≡ from + most }
    ensures all { slots ≤ result → slots ≤ from + most }
{
    if most < slots - from {
        from + most
    } else {
        slots
    }
}

impl AtomTable {
    /// Sweeps the next slots, as many as `most`, or those that are left; then the cycle is idle. A slot from 256 on whose word,
    /// as it is read last, is valid, without mark and count, becomes free, unless its bucket has the last version; of all
    /// others the mark is cleared. Those that were found valid and left so are counted. The cycle sweeps.
    pub fn sweep_some(&self, collector: &mut Collector, most: u32) -> Swept
        requires sits { Sits self.now.words collector.old.seat }
        requires sweeping { phase_of collector.old.word ≡ 2 }
        ensures same { Same collector.old.seat collector.new.seat }
        ensures sits { Sits self.now.words collector.new.seat }
        ensures rows { collector.new.rows ≡ collector.old.rows }
        ensures live { collector.old.live ≤ collector.new.live }
        ensures steps { SweepsBy collector.old.cursor most (collector.new.live - collector.old.live) (seen collector.old.seat) result (seen collector.new.seat) }
    {
        let slots = self.words.size.slots as u32;
        let from = collector.cursor;
        let end = up_to(from, most, slots);
        let live = sweep_run(&self.words, &mut collector.seat, from, end);
        collector.live += live;
        collector.cursor = end;
        if end < slots {
            return Swept::At(end);
        }
        finish(&self.words, &mut collector.seat, collector.word);
        collector.word -= 2;
        Swept::Done
    }
}
