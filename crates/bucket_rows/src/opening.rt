//! The collector opens the heads of the row in use.
ghost use Rattle.std.specs.Prelude.{◌≡◌, ◌≢◌, ◌⊎◌, ◌+◌, ◌-◌, ◌^◌, ◌<◌, ◌≤◌, ℕ, [], ◌∷◌};
ghost use Rattle.atom_words.specs.Layout.{row_first};
ghost use Rattle.atom_words.specs.Kinds.{RowOk, after};
ghost use Rattle.atom_words.specs.Seats.{seen, Fits, Same};
ghost use Rattle.atom_words.specs.declared.kind.Kind.TheVariants.{PublishRow, Publish};
ghost use Rattle.bucket_rows.specs.RowChanges.{RowSteps, Rowing};

use crate::closing::row_start;
use crate::row_plays::{OpeningHead, PublishingRow};
use atom_words::{AtomSeat, Words};

/// The other row takes the place of the one in use, by one store of the row word. All chains of the one in use are empty,
/// and no head of the other is worn. All heads of the table are closed, before and after.
pub fn publish_row(words: &Words, seat: &mut AtomSeat, row: u64, aim: u64)
    requires fits { Fits words.now seat.old }
    requires rows { Rowing row aim (2 ^ row) (2 ^ aim) (2 ^ row) (seen seat.old) × (aim ≢ row) }
    ensures same { Same seat.old seat.new }
    ensures steps { seen seat.new ≡ after (seen seat.old) (PublishRow aim ∷ []) }
    ensures rows { Rowing aim aim (2 ^ aim) 0 0 (seen seat.new) }
{
    words
        .table
        .shared
        .store::<PublishingRow>(&mut seat.seat, 1, aim);
}

// Opens the last of the closed heads of the row in use, by one exchange, with the next version. `shut` of them are closed.
fn open_head(words: &Words, seat: &mut AtomSeat, row: u64, shut: u32)
    requires fits { Fits words.now seat.old }
    requires row { RowOk words.now.size row × (0 < shut) × (shut ≤ 2 ^ row) }
    requires rows { (aim : ℕ) × (sound : ℕ) × (moved : ℕ) × Rowing row aim shut sound moved (seen seat.old) × ((aim ≡ row) ⊎ (shut < 2 ^ row)) }
    ensures same { Same seat.old seat.new }
    ensures steps { seen seat.new ≡ after (seen seat.old) (Publish (row_first row + shut - 1) ∷ []) }
{
    let place = words.head_place(row_start(row) + shut - 1);
    words
        .table
        .shared
        .fetch_add::<OpeningHead>(&mut seat.seat, place, 2_097_152);
}

/// Opens closed heads of the row in use, from the last of them back, until `end` are left. `shut` of them are closed: all,
/// where no other row is to take its place, or fewer.
pub fn open_row(words: &Words, seat: &mut AtomSeat, row: u64, shut: u32, end: u32)
    requires fits { Fits words.now seat.old }
    requires row { RowOk words.now.size row × (end ≤ shut) × (shut ≤ 2 ^ row) }
    requires rows { (aim : ℕ) × (sound : ℕ) × (moved : ℕ) × Rowing row aim shut sound moved (seen seat.old) × ((aim ≡ row) ⊎ (shut < 2 ^ row)) }
    ensures same { Same seat.old seat.new }
    ensures fits { Fits words.now seat.new }
    ensures steps { RowSteps (seen seat.old) (seen seat.new) }
    ensures rows { (aim : ℕ) (sound : ℕ) (moved : ℕ) → Rowing row aim shut sound moved (seen seat.old) → (left : ℕ) × Rowing row aim end left moved (seen seat.new) }
{
    for i in 0..shut - end {
        open_head(words, seat, row, shut - i);
    }
}
