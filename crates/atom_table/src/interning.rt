//! Texts are interned.
ghost use Rattle.std.specs.Prelude.{◌≡◌, ◌<◌, ◌≤◌, ◌++◌, false, [], ◌∷◌, None};
ghost use Rattle.pl_term.specs.Texts.{size};
ghost use Rattle.atom_words.specs.Kinds.{view_after, after};
ghost use Rattle.atom_words.specs.Seats.{seen, Fits, Same, Walking};
ghost use Rattle.atom_words.specs.declared.kind.Kind.TheVariants.{Ask};
ghost use Rattle.bucket_rows.specs.Walks.{spelled, MissingIn};
ghost use Rattle.atom_api.specs.Interns.{refused};
ghost use Rattle.atom_table.specs.Interning.{answered_by, made_by, MakesBy, InternsBy};
ghost use Rattle.atom_table.specs.Holding.{Sits, Rest, AnswersIn, ToldIn, asked_after};

use crate::making::{add_text, take_slot};
use crate::table::AtomTable;
use atom_api::{Atom, Cause, Interned};
use atom_words::{Asking, AtomSeat, MOST_BYTES, Spells, View, WORN, Words};
use atomic_table::Seat;
use bucket_rows::{Missed, walk};
use pl_term::Text;
use std::convert::AsStr;
use std::marker::Brand;

// The load with which the text that is picked is asked.
fn load_asked<T: Spells>(words: &Words, seat: &mut Seat<(), View>, _text: &Text)
    requires fits { (seat.old.table_id ≡ words.now.table.shared.table_id) × (seat.old.me.0.size ≡ words.now.size) × (seat.old.me.0.gone ≡ false) }
    ensures same { (seat.new.table_id ≡ seat.old.table_id) × (seat.new.id ≡ seat.old.id) × (seat.new.me.1 ≡ seat.old.me.1) }
    ensures step { seat.new.me.0 ≡ view_after seat.old.me.0 (Ask T.words) }
{
    words.table.shared.load::<Asking<T>>(seat, 0);
}

// The text is asked of the seat.
fn ask(words: &Words, seat: &mut AtomSeat, text: &Text)
    requires fits { Fits words.now seat.old }
    ensures same { Same seat.old seat.new }
    ensures steps { seen seat.new ≡ after (seen seat.old) (Ask (spelled text.now) ∷ []) }
{
    load_asked::<Brand>(words, &mut seat.seat, text);
}

// The answer where a walk or a link was not made.
fn answer(missed: Missed) -> Interned
    ensures { result ≡ answered_by missed }
{
    match missed {
        Missed::Moved { old, new } => Interned::Again(Cause::Moved { old, new }),
        Missed::Pending { index, word } => Interned::Again(Cause::Pending { index, word }),
        Missed::Closed { word } => Interned::Again(Cause::Closed { word }),
        Missed::Worn(worn) => Interned::Worn(worn),
    }
}

// The answer where a slot was reserved.
fn made(added: Result<Atom, Missed>) -> Interned
    ensures { result ≡ made_by added }
{
    match added {
        Ok(a) => Interned::Is(a),
        Err(missed) => answer(missed),
    }
}

impl AtomTable {
    // Where a seat looks for a free slot first: at the one after that which it took last, or, as long as it took none, at a
    // place of its engine's own.
    fn next_slot(&self, seat: &AtomSeat) -> u32
        ensures { result < self.now.words.size.slots }
    {
        let slots = self.words.size.slots;
        let engines = self.words.size.engines;
        let after = if seat.own == 0 {
            seat.engine % (engines + 1) * (slots / (engines + 1))
        } else {
            seat.own as u64 + 1
        };
        (after % slots) as u32
    }

    // Makes an atom of a text that the walk at hand did not find.
    fn make(&self, seat: &mut AtomSeat, text: &Text) -> Interned
        requires fits { Fits self.now.words seat.old }
        requires short { size text.now ≤ 248 }
        requires none { (seen seat.old).own ≡ None }
        requires walking { Walking (seen seat.old) }
        requires missing { MissingIn (spelled text.now) (seen seat.old) }
        ensures same { Same seat.old seat.new }
        ensures told { ToldIn text.now (seen seat.old) result (seen seat.new) }
        ensures request { (seen seat.new).asked ≡ (seen seat.old).asked }
        ensures steps { MakesBy (spelled text.now) (seen seat.old) result (seen seat.new) }
    {
        if seat.word / 4_194_304 >= WORN {
            let head = seat.head;
            return Interned::Worn(self.words.find_worn(seat, head).unwrap());
        }
        let from = self.next_slot(seat);
        match take_slot(&self.words, seat, from) {
            Ok(()) => made(add_text(&self.words, seat, text)),
            Err(pass) => Interned::Full(pass),
        }
    }

    // Interns a text that is not too long.
    fn intern_short(&self, seat: &mut AtomSeat, text: &Text) -> Interned
        requires fits { Fits self.now.words seat.old }
        requires short { size text.now ≤ 248 }
        requires none { (seen seat.old).own ≡ None }
        requires walking { Walking (seen seat.old) }
        ensures same { Same seat.old seat.new }
        ensures told { ToldIn text.now (seen seat.old) result (seen seat.new) }
        ensures request { (seen seat.new).asked ≡ asked_after (spelled text.now) result (seen seat.old).asked }
        ensures steps { InternsBy (spelled text.now) (seen seat.old) result (seen seat.new) }
    {
        ask(&self.words, seat, text);
        match walk(&self.words, seat, text) {
            Ok(found) => match found {
                Some(a) => Interned::Is(a),
                None => self.make(seat, text),
            },
            Err(missed) => answer(missed),
        }
    }

    /// The atom of a text, which the seat holds from then on. Equal texts have equal atoms while one is held. It asks that
    /// the seat has no slot reserved, and is an engine's.
    ///
    /// # Errors
    /// In the order in which they are looked for:
    /// - `TooLong`, exactly where the text has more than 248 bytes;
    /// - `Again`, where another seat stepped in between: `Moved`, where the bucket's head was loaded with two versions;
    ///   `Pending`, where another seat has reserved the slot of the chain that has the text; `Closed`, where the head was
    ///   closed;
    /// - `Worn`, where the bucket takes no new atom, and no slot of its chain has the text;
    /// - `Full`, where each slot was found taken in this call: its word was not that of a free slot, or another seat was
    ///   faster. The pass counts all slots.
    ///
    /// After each of them what is held is as before, and no slot is left reserved. All but `TooLong` are appended to the
    /// seat's refusals.
    pub fn intern(&self, seat: &mut AtomSeat, text: &Text) -> Interned
        requires sits { Sits self.now.words seat.old }
        requires walking { Walking (seen seat.old) }
        ensures same { Same seat.old seat.new }
        ensures sits { Sits self.now.words seat.new }
        ensures walking { Walking (seen seat.new) }
        ensures answer { AnswersIn text.now (seen seat.old) result (seen seat.new) }
        ensures rest { Rest (seen seat.old) (seen seat.new) }
        ensures refusal { (seen seat.new).refusals ≡ (seen seat.old).refusals ++ refused result }
        ensures request { (seen seat.new).asked ≡ asked_after (spelled text.now) result (seen seat.old).asked }
        ensures steps { InternsBy (spelled text.now) (seen seat.old) result (seen seat.new) }
    {
        text.scalars();
        let bytes = text.size();
        if bytes > MOST_BYTES {
            Interned::TooLong { bytes }
        } else {
            self.intern_short(seat, text)
        }
    }
}
