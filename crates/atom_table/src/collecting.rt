//! The collector's calls.
ghost use Rattle.std.specs.Prelude.{◌≡◌};
ghost use Rattle.atom_words.specs.Layout.{phase_of, epoch_of};
ghost use Rattle.atom_words.specs.Seats.{seen, Same};
ghost use Rattle.bucket_rows.specs.Cycles.{ChecksAll};
ghost use Rattle.atom_table.specs.Holding.{Sits};
ghost use Rattle.atom_table.specs.Collecting.{TurnsBy};
ghost use Rattle.atom_table.specs.declared.resizing.Stage.TheVariants.{Still};

use crate::seats::Collector;
use crate::table::AtomTable;
use atom_api::fixed::COUNT;
use bucket_rows::{Checked, begin, check};

/// What a call to begin a cycle found.
#[derive(Clone, Copy, Debug, PartialEq, Eq, Drop)]
pub enum Turn {
    /// A cycle has begun to mark, with that epoch.
    Began(u64),
    /// By that epoch word a cycle is at work.
    Running(u64),
    /// That epoch word has the last epoch, 2^62 - 1, after which no cycle begins.
    Worn(u64),
}

impl AtomTable {
    /// Begins a cycle of collection, which marks, where none is at work and the epoch is not the last. Else nothing is
    /// changed. No row of buckets is being put in the place of the one in use.
    pub fn begin(&self, collector: &mut Collector) -> Turn
        requires sits { Sits self.now.words collector.old.seat }
        requires still { collector.old.rows.stage ≡ Still }
        ensures same { Same collector.old.seat collector.new.seat }
        ensures sits { Sits self.now.words collector.new.seat }
        ensures rows { collector.new.rows ≡ collector.old.rows }
        ensures steps { TurnsBy (seen collector.old.seat) result (seen collector.new.seat) }
    {
        match begin(&self.words, &mut collector.seat) {
            Ok(epoch) => {
                collector.word = 1 + 4 * epoch;
                collector.checked = 0;
                Turn::Began(epoch)
            }
            Err(word) => {
                if word % 4 == 0 {
                    Turn::Worn(word)
                } else {
                    Turn::Running(word)
                }
            }
        }
    }

    /// Checks which engines have acknowledged the epoch of the cycle, which marks, one after the other up to the first that
    /// has not. Those that an earlier check of the cycle found are not looked at again. Where all have, the cycle goes over
    /// to the sweep.
    pub fn check(&self, collector: &mut Collector) -> Checked
        requires sits { Sits self.now.words collector.old.seat }
        requires marking { phase_of collector.old.word ≡ 1 }
        ensures same { Same collector.old.seat collector.new.seat }
        ensures sits { Sits self.now.words collector.new.seat }
        ensures rows { collector.new.rows ≡ collector.old.rows }
        ensures steps { ChecksAll (epoch_of collector.old.word) collector.old.checked (seen collector.old.seat) result (seen collector.new.seat) }
    {
        let checked = check(
            &self.words,
            &mut collector.seat,
            collector.word,
            collector.checked,
        );
        match checked {
            Checked::All => {
                collector.checked = self.words.size.engines;
                collector.word += 1;
                collector.cursor = 0;
                collector.live = COUNT as u32;
            }
            Checked::NotYet { engine, seen: _ } => {
                collector.checked = engine as u64 - 1;
            }
        }
        checked
    }
}
