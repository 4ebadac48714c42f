//! The text of the slot that the sweep has come to, and its bucket.
ghost use Rattle.std.specs.Prelude.{◌≡◌, ℕ, ◌+◌, ◌^◌, ◌<◌, ◌≤◌, false, List, length};
ghost use Rattle.atom_words.specs.Texts.{bucket, padded};
ghost use Rattle.atom_words.specs.Kinds.{IsAll, after};
ghost use Rattle.atom_words.specs.Seats.{seen, Fits, Same};
ghost use Rattle.bucket_rows.specs.Treads.{spells, Found};

use crate::plays::Spelling;
use crate::rows::row_heads;
use atom_words::{AtomSeat, View, Words};
use atomic_table::Seat;

// Loads the words that the text fills, one after the other, which begin with its length. Where that is more than a text may
// have, those are all 32.
fn read_row(words: &Words, seat: &mut Seat<(), View>, slot: u32) -> [u64; 32]
    requires fits { (seat.old.table_id ≡ words.now.table.shared.table_id) × (seat.old.me.0.size ≡ words.now.size) × (seat.old.me.0.gone ≡ false) }
    requires slot { slot < words.now.size.slots }
    requires found { Found slot seat.old.me.0 }
    ensures same { (seat.new.table_id ≡ seat.old.table_id) × (seat.new.id ≡ seat.old.id) × (seat.new.me.1 ≡ seat.old.me.1) }
    ensures steps { (ws : List ℕ) × (seat.new.me.0 ≡ after seat.old.me.0 (spells ws)) × IsAll ws × (length ws ≤ 32) × (result ≡ padded ws) }
{
    let start = words.text_place(slot, 0);
    let first = words.table.shared.load::<Spelling>(seat, start);
    let mut row = [0u64; 32];
    row[0] = first;
    for i in 1..1 + (at_most_248(first) + 7) / 8 {
        let place = words.text_place(slot, i);
        let word = words.table.shared.load::<Spelling>(seat, place);
        row[i] = word;
    }
    row
}

/// Loads the words that the text of the slot fills to which the sweep has come, and answers all 32, of which the others are 0.
/// The slot was found valid just before. A walk at hand ends.
pub fn spell_row(words: &Words, seat: &mut AtomSeat, slot: u32) -> [u64; 32]
    requires fits { Fits words.now seat.old }
    requires slot { slot < words.now.size.slots }
    requires found { Found slot (seen seat.old) }
    ensures same { Same seat.old seat.new }
    ensures steps { (ws : List ℕ) × (seen seat.new ≡ after (seen seat.old) (spells ws)) × IsAll ws × (length ws ≤ 32) × (result ≡ padded ws) }
{
    read_row(words, &mut seat.seat, slot)
}

// How many of 248 bytes a text of that length has.
fn at_most_248(bytes: u64) -> usize
    ensures most { result ≤ 248 }
    ensures fewer { bytes ≤ 248 → result ≡ bytes }
    ensures more { 248 ≤ bytes → result ≡ 248 }
{
    if bytes < 248 { bytes as usize } else { 248 }
}

/// The head of the bucket of the text with these words, in the row with that binary logarithm of its heads, by its hash, FNV-1a with 64 bits (G. Fowler, L. C. Noll, K.-P. Vo and
/// D. Eastlake).
pub fn row_bucket(row: &[u64; 32], size: u64) -> u32
    requires { (256 ≤ 2 ^ size) × (2 ^ size + 2 ^ size ≤ 4194560) }
    ensures bucket { result ≡ bucket size row.now }
    ensures inside { result + 256 < 2 ^ size + 2 ^ size }
{
    let heads = row_heads(size);
    let bytes = at_most_248(row[0]);
    let mut hash: u64 = 14_695_981_039_346_656_037;
    for i in 0..bytes {
        let byte = (row[1 + i / 8] >> (8 * (i % 8))) % 256;
        hash = (hash ^ byte).wrapping_mul(1_099_511_628_211);
    }
    (heads - 256 + hash % heads) as u32
}
