//! A walk over the chain of a text's bucket.
ghost use Rattle.std.specs.Prelude.{◌≡◌, ◌≢◌, ◌⊎◌, ℕ, ◌+◌, ◌<◌, ◌≤◌, true, false, List, [], ◌∷◌, length, take, get_or, Option, Some, None, IfOk, MatchOption};
ghost use Rattle.pl_term.specs.Texts.{size};
ghost use Rattle.atom_words.specs.Layout.{first_of, closed_of, version_of};
ghost use Rattle.atom_words.specs.Texts.{bucket, padded};
ghost use Rattle.atom_words.specs.Kinds.{RowOk, IsWhole, after};
ghost use Rattle.atom_words.specs.Seats.{seen, Fits, Same, Walking};
ghost use Rattle.atom_words.specs.Plays.{Alone, Stale};
ghost use Rattle.atom_words.specs.declared.view.Walk.{Walk};
ghost use Rattle.atom_words.specs.declared.view.Cause.TheVariants.{Moved as CauseMoved};
ghost use Rattle.atom_words.specs.declared.view.Refusal.TheVariants.{Again};
ghost use Rattle.atom_words.specs.declared.kind.Kind.TheVariants.{Refuse};
ghost use Rattle.bucket_rows.specs.Walks.{spelled, filling, reads, guards, Goes, Walks, WalksIn, Missing, MissingIn, Aside, held_after, refused_after};
ghost use Rattle.bucket_rows.specs.Standing.{Standing, Ends, Meets, IsTextRow};

use crate::missed::Missed;
use crate::plays::SeeingMark;
use crate::rows::{bucket, row_in_use, text_row};
use atom_api::Atom;
use atom_words::{
    AtomSeat, FindingMoved, GoingOn, Holding, Protecting, ReadingWord, ShowingPending, Skipping,
    StartingWalk, View, Words,
};
use atomic_table::Seat;
use pl_term::Text;
use std::convert::AsStr;

// Whether the slot at hand has another text than the one with the words `row`. It reads as far as the two agree, and no word
// behind those that the text fills.
fn differs(words: &Words, seat: &mut Seat<(), View>, slot: u32, row: &[u64; 32]) -> bool
    requires fits { (seat.old.table_id ≡ words.now.table.shared.table_id) × (seat.old.me.0.size ≡ words.now.size) × (seat.old.me.0.gone ≡ false) }
    requires slot { slot < words.now.size.slots }
    requires walk { (w : Walk) × (seat.old.me.0.walk ≡ Some w) × (w.place ≡ slot + 1) × (w.part ≡ []) }
    requires bytes { get_or row.now 0 0 ≤ 248 }
    ensures same { (seat.new.table_id ≡ seat.old.table_id) × (seat.new.id ≡ seat.old.id) × (seat.new.me.1 ≡ seat.old.me.1) }
    ensures other { result ≡ true → (ws : List ℕ) × (ws ≢ take (length ws) row.now) × (seat.new.me.0 ≡ after seat.old.me.0 (reads ws)) }
    ensures whole { result ≡ false → seat.new.me.0 ≡ after seat.old.me.0 (reads (filling row.now)) }
{
    for i in 0..1 + (row[0] as usize + 7) / 8 {
        let place = words.text_place(slot, i);
        let word = words.table.shared.load::<ReadingWord>(seat, place);
        if word != row[i] {
            return true;
        }
    }
    false
}

// The head of a walk that has lost its way has another version, since at the walk's version the chain ends within as many
// slots as there are, and none of them is free.
fn moved(words: &Words, seat: &mut Seat<(), View>, head: u32, word: u64) -> Missed
    requires fits { (seat.old.table_id ≡ words.now.table.shared.table_id) × (seat.old.me.0.size ≡ words.now.size) × (seat.old.me.0.gone ≡ false) }
    requires head { head < words.now.size.heads }
    requires stale { (w : Walk) × (seat.old.me.0.walk ≡ Some w) × Stale words.now.size w × (w.head ≡ head) × (w.word ≡ word) }
    ensures same { (seat.new.table_id ≡ seat.old.table_id) × (seat.new.id ≡ seat.old.id) × (seat.new.me.1 ≡ seat.old.me.1) }
    ensures steps { (x : ℕ) × (result ≡ Missed.Moved word x) × (version_of x ≢ version_of word) × (seat.new.me.0 ≡ after seat.old.me.0 (Refuse (Again (CauseMoved word x)) ∷ [])) }
{
    let top = words.head_place(head);
    let new = words.table.shared.load::<FindingMoved>(seat, top);
    Missed::Moved { old: word, new }
}

// Sets the mark of a slot, by a load where it is valid and has it, and answers the word that was found. Only where it has not is
// there an exchange, so that threads that look for one text read its words, and write none.
fn guard(words: &Words, seat: &mut Seat<(), View>, slot: u32) -> u64
    requires fits { (seat.old.table_id ≡ words.now.table.shared.table_id) × (seat.old.me.0.size ≡ words.now.size) × (seat.old.me.0.gone ≡ false) }
    requires slot { slot < words.now.size.slots }
    ensures same { (seat.new.table_id ≡ seat.old.table_id) × (seat.new.id ≡ seat.old.id) × (seat.new.me.1 ≡ seat.old.me.1) }
    ensures steps { (o : Option (ℕ × ℕ)) × (seat.new.me.0 ≡ after seat.old.me.0 (guards o slot result)) }
{
    let place = words.atom_place(slot);
    let found = words.table.shared.load::<SeeingMark>(seat, place);
    if found % 8 == 7 {
        return found;
    }
    words.table.shared.fetch_or::<Protecting>(seat, place, 4)
}

// Sets the mark of the slot at hand, whose text was read whole. A valid slot is held, which ends the walk; the walk goes
// past a dying one, and its link word is answered. Where the slot is free, the head has another version.
fn hold(
    words: &Words,
    seat: &mut Seat<(), View>,
    slot: u32,
    head: u32,
    word: u64,
) -> Result<Option<u64>, Missed>
    requires fits { (seat.old.table_id ≡ words.now.table.shared.table_id) × (seat.old.me.0.size ≡ words.now.size) × (seat.old.me.0.gone ≡ false) }
    requires slot { slot < words.now.size.slots }
    requires head { head < words.now.size.heads }
    requires none { seat.old.me.0.own ≡ None }
    requires walking { Walking seat.old.me.0 }
    requires walk { (w : Walk) × (seat.old.me.0.walk ≡ Some w) × (w.place ≡ slot + 1) × IsWhole w.part × (w.head ≡ head) × (w.word ≡ word) }
    ensures same { (seat.new.table_id ≡ seat.old.table_id) × (seat.new.id ≡ seat.old.id) × (seat.new.me.1 ≡ seat.old.me.1) }
    ensures steps { Ends slot word seat.old.me.0 result seat.new.me.0 }
    ensures alone { IfOk result (λ o. MatchOption o ((w : Walk) → seat.old.me.0.walk ≡ Some w → Alone seat.old.me.0 slot (padded w.part)) (λ _. Unit {0})) }
{
    let found = guard(words, seat, slot);
    if found % 4 == 1 {
        words.table.shared.load::<ShowingPending>(seat, 0);
        return Err(Missed::Pending {
            index: slot,
            word: found,
        });
    }
    if found % 4 == 2 {
        let link = words.link_place(slot);
        return Ok(Some(words.table.shared.load::<Skipping>(seat, link)));
    }
    if found % 4 == 0 {
        return Err(moved(words, seat, head, word));
    }
    let top = words.head_place(head);
    let new = words.table.shared.load::<Holding>(seat, top);
    if new / 4_194_304 == word / 4_194_304 {
        Ok(None)
    } else {
        Err(Missed::Moved { old: word, new })
    }
}

// At the slot at hand: where its text is another, or it is dying, the walk goes on, and its link word is answered; else the
// slot is held.
fn meet(
    words: &Words,
    seat: &mut Seat<(), View>,
    slot: u32,
    head: u32,
    word: u64,
    row: &[u64; 32],
) -> Result<Option<u64>, Missed>
    requires fits { (seat.old.table_id ≡ words.now.table.shared.table_id) × (seat.old.me.0.size ≡ words.now.size) × (seat.old.me.0.gone ≡ false) }
    requires slot { slot < words.now.size.slots }
    requires head { head < words.now.size.heads }
    requires none { seat.old.me.0.own ≡ None }
    requires walking { Walking seat.old.me.0 }
    requires walk { (n : ℕ) × Standing row.now head word n (slot + 1) [] seat.old.me.0 }
    requires row { IsTextRow row.now }
    ensures same { (seat.new.table_id ≡ seat.old.table_id) × (seat.new.id ≡ seat.old.id) × (seat.new.me.1 ≡ seat.old.me.1) }
    ensures steps { Meets row.now slot word seat.old.me.0 result seat.new.me.0 }
    ensures alone { IfOk result (λ o. MatchOption o (Alone seat.old.me.0 slot row.now) (λ _. Unit {0})) }
{
    if differs(words, seat, slot, row) {
        let link = words.link_place(slot);
        Ok(Some(words.table.shared.load::<GoingOn>(seat, link)))
    } else {
        hold(words, seat, slot, head, word)
    }
}

// Walks on from the first slot of the chain.
fn walk_chain(
    words: &Words,
    seat: &mut Seat<(), View>,
    head: u32,
    word: u64,
    row: &[u64; 32],
) -> Result<Option<Atom>, Missed>
    requires fits { (seat.old.table_id ≡ words.now.table.shared.table_id) × (seat.old.me.0.size ≡ words.now.size) × (seat.old.me.0.gone ≡ false) }
    requires head { head < words.now.size.heads }
    requires none { seat.old.me.0.own ≡ None }
    requires walking { Walking seat.old.me.0 }
    requires walk { Standing row.now head word 0 (first_of word) [] seat.old.me.0 }
    requires row { IsTextRow row.now }
    ensures same { (seat.new.table_id ≡ seat.old.table_id) × (seat.new.id ≡ seat.old.id) × (seat.new.me.1 ≡ seat.old.me.1) }
    ensures steps { Goes row.now seat.old.me.0 result seat.new.me.0 }
    ensures word { (old new : ℕ) → result ≡ Err (Missed.Moved old new) → old ≡ word }
    ensures last { IfOk result (λ o. MatchOption o ((n : ℕ) × Standing row.now head word n 0 [] seat.new.me.0) (λ k. (k < words.now.size.slots) × Alone seat.old.me.0 k row.now × (seat.new.me.0.held ≡ held_after row.now seat.old.me.0 result))) }
{
    let mut place = word % 2_097_152;
    for _i in 0..words.size.slots {
        if place == 0 {
            return Ok(None);
        }
        if place > words.size.slots {
            return Err(moved(words, seat, head, word));
        }
        let slot = (place - 1) as u32;
        match meet(words, seat, slot, head, word, row) {
            Ok(met) => match met {
                None => return Ok(Some(Atom::at(slot))),
                Some(next) => place = next,
            },
            Err(missed) => return Err(missed),
        }
    }
    if place == 0 {
        Ok(None)
    } else {
        Err(moved(words, seat, head, word))
    }
}

// Looks for a text in the chain of its bucket in that row.
fn walk_row(
    words: &Words,
    seat: &mut AtomSeat,
    text: &Text,
    row_size: u64,
) -> Result<Option<Atom>, Missed>
    requires fits { Fits words.now seat.old }
    requires short { size text.now ≤ 248 }
    requires row { RowOk words.now.size row_size }
    requires none { (seen seat.old).own ≡ None }
    requires walking { Walking (seen seat.old) }
    ensures same { Same seat.old seat.new }
    ensures steps { Walks (spelled text.now) (bucket row_size (spelled text.now)) (seen seat.old) result (seen seat.new) }
    ensures aside { Aside (seen seat.old) (seen seat.new) }
    ensures held { (seen seat.new).held ≡ held_after (spelled text.now) (seen seat.old) result }
    ensures refused { (seen seat.new).refusals ≡ refused_after (seen seat.old) result }
    ensures last { IfOk result (λ o. MatchOption o (Missing (spelled text.now) (bucket row_size (spelled text.now)) (seen seat.new)) (λ a. (a < words.now.size.slots) × Alone (seen seat.old) a (spelled text.now))) }
{
    let row = text_row(text.as_str().as_bytes());
    let head = bucket(text.as_str().as_bytes(), row_size);
    let top = words.head_place(head);
    let word = words.table.shared.load::<StartingWalk>(&mut seat.seat, top);
    if word / 2_097_152 % 2 == 1 {
        return Err(Missed::Closed { word });
    }
    seat.head = head;
    seat.word = word;
    walk_chain(words, &mut seat.seat, head, word, &row)
}

/// Looks for a text in the chain of its bucket, in the row that the row word names as it is loaded. Where a slot has it, the
/// seat holds that slot afterwards. Otherwise the walk is at hand, and shows that no slot of the chain but a dying one had
/// the text while the head has the version that the walk found. It reads at most as many link words as there are slots. The
/// text has at most 248 bytes; the seat has no slot reserved, may hold slots, and is not the collector's.
///
/// # Errors
/// `Moved`, where the head was loaded with two versions; `Pending`, where another seat has reserved the slot that has the
/// text; `Closed`, where the head was closed. It is then the last in the seat's list of refusals. `Worn` never comes.
pub fn walk(words: &Words, seat: &mut AtomSeat, text: &Text) -> Result<Option<Atom>, Missed>
    requires fits { Fits words.now seat.old }
    requires short { size text.now ≤ 248 }
    requires none { (seen seat.old).own ≡ None }
    requires walking { Walking (seen seat.old) }
    ensures same { Same seat.old seat.new }
    ensures steps { WalksIn (spelled text.now) (seen seat.old) result (seen seat.new) }
    ensures aside { Aside (seen seat.old) (seen seat.new) }
    ensures held { (seen seat.new).held ≡ held_after (spelled text.now) (seen seat.old) result }
    ensures refused { (seen seat.new).refusals ≡ refused_after (seen seat.old) result }
    ensures last { IfOk result (λ o. MatchOption o (MissingIn (spelled text.now) (seen seat.new)) (λ a. (a < words.now.size.slots) × Alone (seen seat.old) a (spelled text.now))) }
{
    let row_size = row_in_use(words, seat);
    walk_row(words, seat, text, row_size)
}
