//! The collector's steps from one phase of a cycle to the next.
ghost use Rattle.std.specs.Prelude.{◌≡◌, ◌<◌, ◌≤◌, [], ◌∷◌};
ghost use Rattle.atom_words.specs.Layout.{phase_of, epoch_of};
ghost use Rattle.atom_words.specs.Kinds.{after};
ghost use Rattle.atom_words.specs.Seats.{seen, Fits, Same};
ghost use Rattle.atom_words.specs.declared.view.Sweeping.{Sweeping};
ghost use Rattle.atom_words.specs.declared.kind.Kind.TheVariants.{ToSweep};
ghost use Rattle.bucket_rows.specs.Cycles.{Knows, BeginsBy, ChecksBy, ChecksAll};

use crate::plays::{Beginning, Checking, KnowingWord, Turning};
use atom_words::{AtomSeat, Words};

/// What a check of the engines found.
#[derive(Clone, Copy, Debug, PartialEq, Eq, Drop)]
pub enum Checked {
    /// All have acknowledged the epoch, and the cycle sweeps.
    All,
    /// That engine, by its number from 1, acknowledged another epoch last.
    NotYet { engine: u32, seen: u64 },
}

const LAST_EPOCH: u64 = 4_611_686_018_427_387_903;

/// Begins a cycle, which marks, and answers its epoch. No row is being put in the place of the one in use.
///
/// # Errors
/// The epoch word, where a cycle is at work, or where its epoch is the last, 2^62 - 1. Nothing is then begun.
pub fn begin(words: &Words, seat: &mut AtomSeat) -> Result<u64, u64>
    requires fits { Fits words.now seat.old }
    requires collector { (y : Sweeping) × Knows (seen seat.old) y × ((seen seat.old).growing.shut ≡ 0) }
    ensures same { Same seat.old seat.new }
    ensures steps { BeginsBy (seen seat.old) result (seen seat.new) }
{
    let word = words.table.shared.load::<KnowingWord>(&mut seat.seat, 0);
    if word % 4 != 0 || word / 4 >= LAST_EPOCH {
        return Err(word);
    }
    let epoch = word / 4 + 1;
    words
        .table
        .shared
        .store::<Beginning>(&mut seat.seat, 0, 1 + 4 * epoch);
    Ok(epoch)
}

// Checks whether the engine that is next has acknowledged the epoch of the cycle, which marks, or answers the epoch that it
// acknowledged last. `word` is the epoch word, and `engine` is how many engines were found to have acknowledged.
fn check_engine(words: &Words, seat: &mut AtomSeat, word: u64, engine: u64) -> Result<(), u64>
    requires fits { Fits words.now seat.old }
    requires marking { (y : Sweeping) × Knows (seen seat.old) y × (phase_of y.word ≡ 1) × (y.word ≡ word) × (y.checked ≡ engine) }
    requires engine { engine < words.now.size.engines }
    ensures same { Same seat.old seat.new }
    ensures steps { ChecksBy (epoch_of word) engine (seen seat.old) result (seen seat.new) }
{
    let place = 2 + engine as usize;
    let found = words.table.shared.load::<Checking>(&mut seat.seat, place);
    if found == word / 4 {
        Ok(())
    } else {
        Err(found)
    }
}

// The cycle goes over to the sweep. `word` is the epoch word, and all engines were found to have acknowledged its epoch.
fn to_sweep(words: &Words, seat: &mut AtomSeat, word: u64)
    requires fits { Fits words.now seat.old }
    requires marked { (y : Sweeping) × Knows (seen seat.old) y × (phase_of y.word ≡ 1) × (y.word ≡ word) × (y.checked ≡ words.now.size.engines) }
    ensures same { Same seat.old seat.new }
    ensures steps { seen seat.new ≡ after (seen seat.old) (ToSweep ∷ []) }
{
    words
        .table
        .shared
        .store::<Turning>(&mut seat.seat, 0, word + 1);
}

/// Checks which engines have acknowledged the epoch of the cycle, which marks, up to the first that has not. Where all have,
/// the cycle goes over to the sweep. `word` is the epoch word, and `from` is how many engines earlier checks found to have
/// acknowledged.
pub fn check(words: &Words, seat: &mut AtomSeat, word: u64, from: u64) -> Checked
    requires fits { Fits words.now seat.old }
    requires marking { (y : Sweeping) × Knows (seen seat.old) y × (phase_of y.word ≡ 1) × (y.word ≡ word) × (y.checked ≡ from) }
    requires from { from ≤ words.now.size.engines }
    ensures same { Same seat.old seat.new }
    ensures steps { ChecksAll (epoch_of word) from (seen seat.old) result (seen seat.new) }
{
    for engine in from..words.size.engines {
        match check_engine(words, seat, word, engine) {
            Ok(()) => {}
            Err(seen) => {
                return Checked::NotYet {
                    engine: engine as u32 + 1,
                    seen,
                };
            }
        }
    }
    to_sweep(words, seat, word);
    Checked::All
}
