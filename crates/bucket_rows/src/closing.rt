//! The collector closes the heads of the row in use, before another row takes its place.
ghost use Rattle.std.specs.Prelude.{◌≡◌, ◌≢◌, ◌+◌, ◌^◌, ◌<◌, ◌≤◌, ℕ, List, [], ◌∷◌, ◌++◌, Some, MatchResult};
ghost use Rattle.atom_words.specs.Layout.{closed_of, version_of, worn, row_first};
ghost use Rattle.atom_words.specs.Board.{head_at};
ghost use Rattle.atom_words.specs.Kinds.{Idle, RowOk, after};
ghost use Rattle.atom_words.specs.Seats.{seen, Fits, Same};
ghost use Rattle.atom_words.specs.declared.view.Walk.{Walk};
ghost use Rattle.atom_words.specs.declared.kind.Kind.{Kind};
ghost use Rattle.atom_words.specs.declared.kind.Kind.TheVariants.{Load, Start, Aim, Close, Sound};
ghost use Rattle.bucket_rows.specs.RowChanges.{RowSteps, Rowing, Closes, Sounds, FoundWorn};

use crate::row_plays::{Aiming, Closing, Sounding, TracingNext};
use crate::rows::row_heads;
use atom_words::{AtomSeat, WORN, Words};

/// Where the heads of a row were closed, or looked at, up to one that is worn.
#[derive(Clone, Copy, Debug, PartialEq, Eq, Drop)]
pub struct WornHead {
    /// How many heads of the row stand before it.
    pub before: u32,
    /// Its word, whose version is one of the last two.
    pub word: u64,
}

/// The first head of a row, which is named by the binary logarithm of how many heads it has.
pub fn row_start(row: u64) -> u32
    requires { (256 ≤ 2 ^ row) × (2 ^ row + 2 ^ row ≤ 4194560) }
    ensures { result ≡ row_first row }
{
    (row_heads(row) - 256) as u32
}

/// From now on the row `aim` is to take the place of the one in use, all whose heads are open. It may be the same one. No
/// word is changed.
pub fn aim_at(words: &Words, seat: &mut AtomSeat, aim: u64)
    requires fits { Fits words.now seat.old }
    requires idle { Idle (seen seat.old) }
    requires unclosed { (seen seat.old).growing.shut ≡ 0 }
    requires aim { RowOk words.now.size aim }
    ensures same { Same seat.old seat.new }
    ensures steps { seen seat.new ≡ after (seen seat.old) (Aim aim ∷ []) }
    ensures rows { (row : ℕ) → (seen seat.old).growing.row ≡ row → Rowing row aim 0 0 0 (seen seat.new) }
{
    let place = words.head_place(row_start(aim));
    words.table.shared.load::<Aiming>(&mut seat.seat, place);
}

// Begins a walk at the head that is to be closed next, which is open, and answers its word.
fn trace_next(words: &Words, seat: &mut AtomSeat, row: u64, shut: u32) -> u64
    requires fits { Fits words.now seat.old }
    requires row { RowOk words.now.size row × (shut < 2 ^ row) }
    requires rows { (aim : ℕ) × (sound : ℕ) × (moved : ℕ) × Rowing row aim shut sound moved (seen seat.old) }
    ensures same { Same seat.old seat.new }
    ensures steps { seen seat.new ≡ after (seen seat.old) (Start (row_first row + shut) result ∷ []) }
    ensures unclosed { closed_of result ≡ 0 }
    ensures walk { (seat.new.head ≡ row_first row + shut) × (seat.new.word ≡ result) }
{
    let head = row_start(row) + shut;
    let place = words.head_place(head);
    let word = words
        .table
        .shared
        .load::<TracingNext>(&mut seat.seat, place);
    seat.head = head;
    seat.word = word;
    word
}

// Closes that head, by one exchange, where it is still the word that the walk found, which is not worn.
//
// # Errors
// The head's word, which is open and has a later version. A new walk then begins there.
fn close_head(words: &Words, seat: &mut AtomSeat, row: u64, shut: u32) -> Result<(), u64>
    requires fits { Fits words.now seat.old }
    requires row { RowOk words.now.size row × (shut < 2 ^ row) }
    requires rows { (aim : ℕ) × (sound : ℕ) × (moved : ℕ) × Rowing row aim shut sound moved (seen seat.old) }
    requires walk { (w : Walk) × ((seen seat.old).walk ≡ Some w) × (w.head ≡ row_first row + shut) × (closed_of w.word ≡ 0) × (version_of w.word < worn) }
    ensures same { Same seat.old seat.new }
    ensures steps { MatchResult result (λ _. seen seat.new ≡ after (seen seat.old) (Close (row_first row + shut) ∷ [])) (λ x. (version_of seat.old.word < version_of x) × (closed_of x ≡ 0) × (seen seat.new ≡ after (seen seat.old) (Start (row_first row + shut) x ∷ []))) }
    ensures walk { (seat.new.head ≡ seat.old.head) × MatchResult result (λ _. Unit {0}) (λ x. seat.new.word ≡ x) }
{
    let place = words.head_place(seat.head);
    let old = seat.word;
    let found = words
        .table
        .shared
        .compare_exchange::<Closing>(&mut seat.seat, place, old, old + 2_097_152 + 4_194_304);
    if found == old {
        Ok(())
    } else {
        seat.word = found;
        Err(found)
    }
}

// Closes the head that is next, after as many tries as that takes: each finds a later version.
//
// # Errors
// The head's word, where it is worn. It is then open.
fn close_next(words: &Words, seat: &mut AtomSeat, row: u64, shut: u32) -> Result<(), u64>
    requires fits { Fits words.now seat.old }
    requires row { RowOk words.now.size row × (shut < 2 ^ row) }
    requires rows { (aim : ℕ) × (sound : ℕ) × (moved : ℕ) × Rowing row aim shut sound moved (seen seat.old) }
    ensures same { Same seat.old seat.new }
    ensures fits { Fits words.now seat.new }
    ensures steps { MatchResult result (λ _. RowSteps (seen seat.old) (seen seat.new)) (λ x. FoundWorn (row_first row + shut) x (seen seat.old) (seen seat.new)) }
    ensures rows { MatchResult result (λ _. Closes row shut (shut + 1) (seen seat.old) (seen seat.new)) (λ x. Closes row shut shut (seen seat.old) (seen seat.new)) }
{
    let mut word = trace_next(words, seat, row, shut);
    for _i in 0..4_398_046_511_104u64 {
        if word / 4_194_304 >= WORN {
            return Err(word);
        }
        match close_head(words, seat, row, shut) {
            Ok(()) => return Ok(()),
            Err(found) => word = found,
        }
    }
    Err(word)
}

/// Closes the heads of the row in use from the one with that number in the row on up to the one before `end`. Those before
/// them are closed. Each is closed with the next version, so that no walk that began there before may link a slot.
///
/// # Errors
/// The first of them that is worn, and stays open.
pub fn close_row(
    words: &Words,
    seat: &mut AtomSeat,
    row: u64,
    from: u32,
    end: u32,
) -> Result<(), WornHead>
    requires fits { Fits words.now seat.old }
    requires row { RowOk words.now.size row × (from ≤ end) × (end ≤ 2 ^ row) }
    requires rows { (aim : ℕ) × (sound : ℕ) × (moved : ℕ) × Rowing row aim from sound moved (seen seat.old) }
    ensures same { Same seat.old seat.new }
    ensures fits { Fits words.now seat.new }
    ensures steps { MatchResult result (λ _. RowSteps (seen seat.old) (seen seat.new)) (λ x. (from ≤ x.before) × (x.before < end) × FoundWorn (row_first row + x.before) x.word (seen seat.old) (seen seat.new)) }
    ensures rows { MatchResult result (λ _. Closes row from end (seen seat.old) (seen seat.new)) (λ x. Closes row from x.before (seen seat.old) (seen seat.new)) }
{
    for shut in from..end {
        match close_next(words, seat, row, shut) {
            Ok(()) => {}
            Err(word) => {
                return Err(WornHead { before: shut, word });
            }
        }
    }
    Ok(())
}

// Looks whether the next head of the other row is worn.
//
// # Errors
// Its word, where it is.
fn sound_next(words: &Words, seat: &mut AtomSeat, aim: u64, sound: u32) -> Result<(), u64>
    requires fits { Fits words.now seat.old }
    requires aim { RowOk words.now.size aim × (sound < 2 ^ aim) }
    requires rows { (row : ℕ) × (shut : ℕ) × (moved : ℕ) × Rowing row aim shut sound moved (seen seat.old) × (0 < shut) × (aim ≢ row) }
    ensures same { Same seat.old seat.new }
    ensures steps { MatchResult result (λ _. (x : ℕ) × (seen seat.new ≡ after (seen seat.old) (Sound x ∷ []))) (λ x. (worn ≤ version_of x) × (seen seat.new ≡ after (seen seat.old) (Load (head_at (seen seat.old).size (row_first aim + sound)) x ∷ []))) }
{
    let place = words.head_place(row_start(aim) + sound);
    let word = words.table.shared.load::<Sounding>(&mut seat.seat, place);
    if word / 4_194_304 >= WORN {
        Err(word)
    } else {
        Ok(())
    }
}

/// Looks whether heads of the other row are worn, from the one with that number in the row on up to the one before `end`.
/// Some head of the row in use is closed.
///
/// # Errors
/// The first of them that is worn.
pub fn sound_row(
    words: &Words,
    seat: &mut AtomSeat,
    aim: u64,
    from: u32,
    end: u32,
) -> Result<(), WornHead>
    requires fits { Fits words.now seat.old }
    requires aim { RowOk words.now.size aim × (from ≤ end) × (end ≤ 2 ^ aim) }
    requires rows { (row : ℕ) × (shut : ℕ) × (moved : ℕ) × Rowing row aim shut from moved (seen seat.old) × (0 < shut) × (aim ≢ row) }
    ensures same { Same seat.old seat.new }
    ensures fits { Fits words.now seat.new }
    ensures steps { MatchResult result (λ _. RowSteps (seen seat.old) (seen seat.new)) (λ x. (from ≤ x.before) × (x.before < end) × FoundWorn (row_first aim + x.before) x.word (seen seat.old) (seen seat.new)) }
    ensures rows { MatchResult result (λ _. Sounds aim from end (seen seat.old) (seen seat.new)) (λ x. Sounds aim from x.before (seen seat.old) (seen seat.new)) }
{
    for sound in from..end {
        match sound_next(words, seat, aim, sound) {
            Ok(()) => {}
            Err(word) => {
                return Err(WornHead {
                    before: sound,
                    word,
                });
            }
        }
    }
    Ok(())
}
