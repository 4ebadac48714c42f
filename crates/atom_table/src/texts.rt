//! The texts of atoms.
ghost use Rattle.std.specs.Prelude.{◌≡◌, ℕ, ◌<◌, ◌≤◌, true, false, List};
ghost use Rattle.std.specs.Str.{all_scalars};
ghost use Rattle.pl_term.specs.Tree.{Chars};
ghost use Rattle.pl_term.specs.Texts.{size};
ghost use Rattle.atom_words.specs.Kinds.{after};
ghost use Rattle.atom_words.specs.Seats.{seen, Same, Has};
ghost use Rattle.atom_words.specs.declared.view.Held.{Held};
ghost use Rattle.bucket_rows.specs.Walks.{spelled};
ghost use Rattle.atom_table.specs.Holding.{Sits, Spelled, loads};

use crate::table::AtomTable;
use atom_api::{Atom, TextBuf};
use atom_words::{AtomSeat, ReadingHeld, View, Words};
use atomic_table::Seat;

// The words of the text of a slot that the seat holds, or of a fixed atom. Only those that the text fills are loaded.
fn read_row(words: &Words, seat: &mut Seat<(), View>, slot: u32) -> [u64; 32]
    requires fits { (seat.old.table_id ≡ words.now.table.shared.table_id) × (seat.old.me.0.size ≡ words.now.size) × (seat.old.me.0.gone ≡ false) }
    requires slot { slot < words.now.size.slots }
    requires held { (h : Held) × Has seat.old.me.0 h × (h.slot ≡ slot) × Spelled h.text }
    ensures same { (seat.new.table_id ≡ seat.old.table_id) × (seat.new.id ≡ seat.old.id) × (seat.new.me.1 ≡ seat.old.me.1) }
    ensures steps { (xs : List ℕ) × (seat.new.me.0 ≡ after seat.old.me.0 (loads words.now.size slot 0 xs)) }
    ensures words { (h : Held) → Has seat.old.me.0 h → h.slot ≡ slot → Spelled h.text → result ≡ h.text }
{
    let start = words.text_place(slot, 0);
    let first = words.table.shared.load::<ReadingHeld>(seat, start);
    let mut row = [0u64; 32];
    row[0] = first;
    for i in 1..1 + (first as usize + 7) / 8 {
        let place = words.text_place(slot, i);
        let word = words.table.shared.load::<ReadingHeld>(seat, place);
        row[i] = word;
    }
    row
}

// Puts the text with these words into the buffer.
fn spell(row: &[u64; 32], buf: &mut TextBuf)
    requires { Spelled row.now }
    ensures { (t : Chars) → size t ≤ 248 → all_scalars t ≡ true → row.now ≡ spelled t → buf.new ≡ t }
{
    let mut bytes = [0u8; 248];
    for i in 0..248 {
        bytes[i] = ((row[1 + i / 8] >> (8 * (i % 8))) % 256) as u8;
    }
    let len = row[0] as usize;
    let text = str::from_utf8(&bytes[..len]).unwrap();
    buf.put(text);
}

impl AtomTable {
    /// Puts the text of an atom that the seat holds, or of a fixed atom, into the buffer, by a load of each of the words that it fills.
    pub fn text(&self, seat: &mut AtomSeat, a: Atom, buf: &mut TextBuf)
        requires sits { Sits self.now.words seat.old }
        requires held { (h : Held) × Has (seen seat.old) h × (h.slot ≡ a) }
        ensures same { Same seat.old seat.new }
        ensures sits { Sits self.now.words seat.new }
        ensures steps { (xs : List ℕ) × (seen seat.new ≡ after (seen seat.old) (loads self.now.words.size a 0 xs)) }
        ensures text { (h : Held) → Has (seen seat.old) h → h.slot ≡ a → (size buf.new ≤ 248) × (all_scalars buf.new ≡ true) × (h.text ≡ spelled buf.new) }
    {
        let row = read_row(&self.words, &mut seat.seat, a.slot());
        spell(&row, buf);
    }
}
