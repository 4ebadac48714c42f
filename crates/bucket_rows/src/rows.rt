//! The words and the bucket of a text, and the row of buckets in use.
ghost use Rattle.std.specs.Prelude.{◌≡◌, ◌+◌, ◌^◌, ◌<◌, ◌≤◌, [], ◌∷◌, length, Some};
ghost use Rattle.atom_words.specs.Texts.{row_of, fnv, bucket};
ghost use Rattle.atom_words.specs.Kinds.{RowOk, after};
ghost use Rattle.atom_words.specs.Seats.{seen, Fits, Same};
ghost use Rattle.atom_words.specs.declared.view.Sweeping.{Sweeping};
ghost use Rattle.atom_words.specs.declared.kind.Kind.TheVariants.{Load};

use crate::plays::ReadingRow;
use atom_words::{AtomSeat, Words, row_word};

/// The 32 words of a text, which has at most 248 bytes.
pub fn text_row(text: &[u8]) -> [u64; 32]
    requires { length text.now ≤ 248 }
    ensures { result ≡ row_of text.now }
{
    let mut row = [0u64; 32];
    for i in 0..1 + (text.len() + 7) / 8 {
        row[i] = row_word(text, i);
    }
    row
}

/// The hash of a text, FNV-1a with 64 bits (G. Fowler, L. C. Noll, K.-P. Vo and D. Eastlake).
pub fn hash(text: &[u8]) -> u64
    ensures { result ≡ fnv 14695981039346656037 text.now }
{
    let mut hash: u64 = 14_695_981_039_346_656_037;
    for byte in text {
        hash = (hash ^ *byte as u64).wrapping_mul(1_099_511_628_211);
    }
    hash
}

/// How many heads a row has, by the binary logarithm of that number, which is at most 21.
pub fn row_heads(row: u64) -> u64
    requires { 2 ^ row + 2 ^ row ≤ 4194560 }
    ensures { result ≡ 2 ^ row }
{
    1u64 << row
}

/// The head of a text's bucket in a row. The text has at most 248 bytes. A row is named by the binary logarithm of how many
/// heads it has; the rows of all sizes stand one after the other, from 256 heads on.
pub fn bucket(text: &[u8], row: u64) -> u32
    requires short { length text.now ≤ 248 }
    requires row { (256 ≤ 2 ^ row) × (2 ^ row + 2 ^ row ≤ 4194560) }
    ensures bucket { result ≡ bucket row (row_of text.now) }
    ensures inside { result + 256 < 2 ^ row + 2 ^ row }
{
    let heads = row_heads(row);
    (heads - 256 + hash(text) % heads) as u32
}

/// Loads the row word, and answers which row it names.
pub fn row_in_use(words: &Words, seat: &mut AtomSeat) -> u64
    requires fits { Fits words.now seat.old }
    ensures same { Same seat.old seat.new }
    ensures steps { seen seat.new ≡ after (seen seat.old) (Load 1 result ∷ []) }
    ensures row { RowOk words.now.size result }
    ensures known { (y : Sweeping) → (seen seat.old).sweep ≡ Some y → (seen seat.old).growing.row ≡ result }
{
    words.table.shared.load::<ReadingRow>(&mut seat.seat, 1)
}
