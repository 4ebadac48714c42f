//! The text of a reserved slot is put.
ghost use Rattle.std.specs.Prelude.{◌≡◌, ◌≢◌, ℕ, ◌+◌, ◌*◌, ◌<◌, ◌≤◌, false, [], ◌∷◌, length, get_or, take, drop, ◌⊎◌, ◌/◌, Some};
ghost use Rattle.atom_words.specs.Texts.{packed, row_of, filled};
ghost use Rattle.atom_words.specs.Board.{text_at};
ghost use Rattle.atom_words.specs.Kinds.{IsCovered, after};
ghost use Rattle.atom_words.specs.Seats.{seen, Fits, Same, PutBy, Puts, PutsRow};
ghost use Rattle.atom_words.specs.declared.kind.Kind.TheVariants.{Load, Measure, PutWord, Fill};
ghost use Rattle.atom_words.specs.declared.view.Own.{Own};

use crate::plays::{Filling, FindingWord, Measuring, PuttingWord, Wants};
use crate::view::View;
use crate::words::{AtomSeat, Words};
use atomic_table::Seat;
use std::marker::Brand;

/// The most bytes that a text may have.
pub const MOST_BYTES: usize = 248;

fn byte_at(text: &[u8], i: usize) -> u64
    ensures byte { result ≡ get_or text.now i 0 }
    ensures small { result < 256 }
{
    if i < text.len() { text[i] as u64 } else { 0 }
}

// Eight bytes of the text from `from` on, lowest first.
fn eight(text: &[u8], from: usize) -> u64
    requires { from + 8 ≤ length text.now }
    ensures { result ≡ packed (drop from text.now) }
{
    text[from] as u64
        + 256 * text[from + 1] as u64
        + 65_536 * text[from + 2] as u64
        + 16_777_216 * text[from + 3] as u64
        + 4_294_967_296 * text[from + 4] as u64
        + 1_099_511_627_776 * text[from + 5] as u64
        + 281_474_976_710_656 * text[from + 6] as u64
        + 72_057_594_037_927_936 * text[from + 7] as u64
}

// The same near the end of the text, behind which zeros follow.
fn eight_at_most(text: &[u8], from: usize) -> u64
    requires { from < 1000 }
    ensures { result ≡ packed (drop from text.now) }
{
    byte_at(text, from)
        + 256 * byte_at(text, from + 1)
        + 65_536 * byte_at(text, from + 2)
        + 16_777_216 * byte_at(text, from + 3)
        + 4_294_967_296 * byte_at(text, from + 4)
        + 1_099_511_627_776 * byte_at(text, from + 5)
        + 281_474_976_710_656 * byte_at(text, from + 6)
        + 72_057_594_037_927_936 * byte_at(text, from + 7)
}

// Eight bytes from `from` on, lowest first.
fn packed(text: &[u8], from: usize) -> u64
    requires { from < 1000 }
    ensures { result ≡ packed (drop from text.now) }
{
    if from + 8 <= text.len() {
        eight(text, from)
    } else {
        eight_at_most(text, from)
    }
}

/// One of the 32 words of a text of at most 248 bytes: its length, or eight of its bytes.
pub fn row_word(text: &[u8], i: usize) -> u64
    requires index { i < 32 }
    requires short { length text.now ≤ 248 }
    ensures { result ≡ get_or (row_of text.now) i 0 }
{
    if i == 0 {
        text.len() as u64
    } else if 8 * (i - 1) >= text.len() {
        0
    } else {
        packed(text, 8 * (i - 1))
    }
}

// How many words are put of a text with so many bytes, where the first word was `old`: those that the text fills, and those that
// a text of `old` bytes fills; or all.
fn words_to_put(bytes: usize, old: u64) -> usize
    requires { bytes ≤ 248 }
    ensures fills { filled bytes ≤ result }
    ensures covers { (filled old ≤ result) ⊎ (result ≡ 32) }
    ensures most { result ≤ 32 }
{
    if old > 248 {
        return 32;
    }
    let fills = 1 + (bytes + 7) / 8;
    let left = 1 + (old as usize + 7) / 8;
    if fills < left { left } else { fills }
}

impl Words {
    // The load of the next word of the own slot's text, which puts it where it is the one that is picked.
    fn find_word<W: Wants>(&self, seat: &mut Seat<(), View>, place: usize, _word: u64) -> u64
        requires fits { (seat.old.table_id ≡ self.now.table.shared.table_id) × (seat.old.me.0.size ≡ self.now.size) × (seat.old.me.0.gone ≡ false) }
        requires inside { place < self.now.table.shared.table_id.words }
        requires own { (o : Own) × (seat.old.me.0.own ≡ Some o) × (o.linked ≡ false) × (length o.text < 32) × (o.slot < seat.old.me.0.size.slots) × (place ≡ text_at seat.old.me.0.size o.slot (length o.text)) }
        ensures same { (seat.new.table_id ≡ seat.old.table_id) × (seat.new.id ≡ seat.old.id) × (seat.new.me.1 ≡ seat.old.me.1) }
        ensures found { result ≡ W.word → seat.new.me.0 ≡ after seat.old.me.0 (PutWord W.word ∷ []) }
        ensures other { result ≢ W.word → seat.new.me.0 ≡ after seat.old.me.0 (Load place result ∷ []) }
    {
        self.table.shared.load::<FindingWord<W>>(seat, place)
    }

    // Puts the next word of the own slot's text. A new slot's words are mostly the zeros that a short text ends with, so it
    // stores only a word that does not stand there.
    fn put_word(&self, seat: &mut Seat<(), View>, place: usize, word: u64)
        requires fits { (seat.old.table_id ≡ self.now.table.shared.table_id) × (seat.old.me.0.size ≡ self.now.size) × (seat.old.me.0.gone ≡ false) }
        requires inside { place < self.now.table.shared.table_id.words }
        requires own { (o : Own) × (seat.old.me.0.own ≡ Some o) × (o.linked ≡ false) × (length o.text < 32) × (o.slot < seat.old.me.0.size.slots) × (place ≡ text_at seat.old.me.0.size o.slot (length o.text)) }
        ensures same { (seat.new.table_id ≡ seat.old.table_id) × (seat.new.id ≡ seat.old.id) × (seat.new.me.1 ≡ seat.old.me.1) }
        ensures steps { PutBy word seat.old.me.0 seat.new.me.0 }
    {
        let found = self.find_word::<Brand>(seat, place, word);
        if found == word {
            return;
        }
        self.table.shared.store::<PuttingWord>(seat, place, word);
    }

    // The load of the first text word that stands in the own slot, of whose text no word is put.
    fn measure(&self, seat: &mut Seat<(), View>, own: u32) -> u64
        requires fits { (seat.old.table_id ≡ self.now.table.shared.table_id) × (seat.old.me.0.size ≡ self.now.size) × (seat.old.me.0.gone ≡ false) }
        requires slot { own < self.now.size.slots }
        requires own { (o : Own) × (seat.old.me.0.own ≡ Some o) × (o.linked ≡ false) × (o.text ≡ []) × (o.slot ≡ own) }
        ensures same { (seat.new.table_id ≡ seat.old.table_id) × (seat.new.id ≡ seat.old.id) × (seat.new.me.1 ≡ seat.old.me.1) }
        ensures steps { seat.new.me.0 ≡ after seat.old.me.0 (Measure result ∷ []) }
    {
        let place = self.text_place(own, 0);
        self.table.shared.load::<Measuring>(seat, place)
    }

    // Puts the first words of the text, one after the other.
    fn put_words(&self, seat: &mut Seat<(), View>, own: u32, text: &[u8], many: usize)
        requires fits { (seat.old.table_id ≡ self.now.table.shared.table_id) × (seat.old.me.0.size ≡ self.now.size) × (seat.old.me.0.gone ≡ false) }
        requires slot { own < self.now.size.slots }
        requires short { length text.now ≤ 248 }
        requires many { many ≤ 32 }
        requires own { (o : Own) × (seat.old.me.0.own ≡ Some o) × (o.linked ≡ false) × (o.text ≡ []) × (o.slot ≡ own) }
        ensures same { (seat.new.table_id ≡ seat.old.table_id) × (seat.new.id ≡ seat.old.id) × (seat.new.me.1 ≡ seat.old.me.1) }
        ensures steps { Puts (take many (row_of text.now)) seat.old.me.0 seat.new.me.0 }
    {
        for i in 0..many {
            let place = self.text_place(own, i);
            self.put_word(seat, place, row_word(text, i));
        }
    }

    // The load with which the own slot has its whole text.
    fn fill(&self, seat: &mut Seat<(), View>)
        requires fits { (seat.old.table_id ≡ self.now.table.shared.table_id) × (seat.old.me.0.size ≡ self.now.size) × (seat.old.me.0.gone ≡ false) }
        requires own { (o : Own) × (seat.old.me.0.own ≡ Some o) × (o.linked ≡ false) × IsCovered o }
        ensures same { (seat.new.table_id ≡ seat.old.table_id) × (seat.new.id ≡ seat.old.id) × (seat.new.me.1 ≡ seat.old.me.1) }
        ensures steps { seat.new.me.0 ≡ after seat.old.me.0 (Fill ∷ []) }
    {
        self.table.shared.load::<Filling>(seat, 0);
    }

    // Puts the text in the own slot.
    fn put_row(&self, seat: &mut Seat<(), View>, own: u32, text: &[u8])
        requires fits { (seat.old.table_id ≡ self.now.table.shared.table_id) × (seat.old.me.0.size ≡ self.now.size) × (seat.old.me.0.gone ≡ false) }
        requires slot { own < self.now.size.slots }
        requires short { length text.now ≤ 248 }
        requires own { (o : Own) × (seat.old.me.0.own ≡ Some o) × (o.linked ≡ false) × (o.text ≡ []) × (o.slot ≡ own) }
        ensures same { (seat.new.table_id ≡ seat.old.table_id) × (seat.new.id ≡ seat.old.id) × (seat.new.me.1 ≡ seat.old.me.1) }
        ensures steps { PutsRow (row_of text.now) seat.old.me.0 seat.new.me.0 }
    {
        let old = self.measure(seat, own);
        let many = words_to_put(text.len(), old);
        self.put_words(seat, own, text, many);
        self.fill(seat);
    }

    /// Puts the text of the seat's own slot, which is not linked and has no text yet. A text has at most 248 bytes. Only words
    /// that the text fills, or that the slot's last text has filled, are read or written; one that stands there already is put
    /// by a load.
    pub fn put_text(&self, seat: &mut AtomSeat, text: &[u8])
        requires fits { Fits self.now seat.old }
        requires short { length text.now ≤ 248 }
        requires own { (o : Own) × ((seen seat.old).own ≡ Some o) × (o.linked ≡ false) × (o.text ≡ []) }
        ensures same { Same seat.old seat.new }
        ensures steps { PutsRow (row_of text.now) (seen seat.old) (seen seat.new) }
    {
        let own = seat.own;
        self.put_row(&mut seat.seat, own, text);
    }
}
