//! The slots of a chain are moved to the chains of the other row, the last one first.
ghost use Rattle.std.specs.Prelude.{◌≡◌, ◌≢◌, ◌+◌, ◌^◌, ◌<◌, ◌≤◌, ℕ, false, List, [], ◌∷◌, ◌++◌, length, Some, None, MatchOption};
ghost use Rattle.atom_words.specs.Layout.{first_of, closed_of, row_first};
ghost use Rattle.atom_words.specs.Board.{link_at};
ghost use Rattle.atom_words.specs.Texts.{bucket};
ghost use Rattle.atom_words.specs.Kinds.{MovesChains, Picks, RowOk, old_head, after};
ghost use Rattle.atom_words.specs.Seats.{seen, Fits, Same};
ghost use Rattle.atom_words.specs.Ties.{WalkTied};
ghost use Rattle.atom_words.specs.declared.view.Held.{Held};
ghost use Rattle.atom_words.specs.declared.view.Walk.{Walk};
ghost use Rattle.atom_words.specs.declared.kind.Kind.{Kind};
ghost use Rattle.atom_words.specs.declared.kind.Kind.TheVariants.{Load, Start, Next, Emptied, Pick, MoveHead, MoveLink, LeaveHead, LeaveLink};
ghost use Rattle.bucket_rows.specs.Walks.{reads};
ghost use Rattle.bucket_rows.specs.Treads.{Before, nexts};
ghost use Rattle.bucket_rows.specs.RowPlays.{Inside};
ghost use Rattle.bucket_rows.specs.RowChanges.{RowKinds, RowSteps, Rowing, MovesOn, Paces, AtEnd, IsPicked};

use crate::closing::row_start;
use crate::row_plays::{
    LeavingHead, LeavingLink, LookingInto, Pacing, Picking, PuttingAtHead, PuttingAtLink,
    TracingInto,
};
use crate::rows::row_heads;
use crate::spells::row_bucket;
use atom_words::{AtomSeat, Loading, ReadingWord, View, Words};
use atomic_table::Seat;

// The last slot of a chain, with the words of its text. `before` is 0 where it is the first, or 1 more than the slot before.
#[derive(Drop)]
struct Last {
    slot: u32,
    before: u64,
    row: [u64; 32],
}

/// How far the moves of a row's chains came: so many chains are empty, and so many moves more may be made.
#[derive(Clone, Copy, Debug, PartialEq, Eq, Drop)]
pub struct Moved {
    pub chains: u32,
    pub left: u32,
}

// Loads the head whose chain is moved next. Where that is empty, it is known to be; else a walk begins there, and the head's
// word is answered.
fn look_into(words: &Words, seat: &mut AtomSeat, row: u64, moved: u32) -> Option<u64>
    requires fits { Fits words.now seat.old }
    requires row { RowOk words.now.size row × (moved < 2 ^ row) }
    requires rows { (aim : ℕ) × (sound : ℕ) × Rowing row aim (2 ^ row) sound moved (seen seat.old) × (aim ≢ row) }
    ensures same { Same seat.old seat.new }
    ensures steps { MatchOption result (seen seat.new ≡ after (seen seat.old) (Emptied ∷ [])) (λ x. (first_of x ≢ 0) × (seen seat.new ≡ after (seen seat.old) (Start (row_first row + moved) x ∷ [])) × Inside (seen seat.new)) }
{
    let head = row_start(row) + moved;
    let place = words.head_place(head);
    let word = words
        .table
        .shared
        .load::<LookingInto>(&mut seat.seat, place);
    if word % 2_097_152 == 0 {
        return None;
    }
    seat.head = head;
    seat.word = word;
    Some(word)
}

// Loads the words of the text of the slot at hand, one after the other.
fn read_text(words: &Words, seat: &mut Seat<(), View>, slot: u32) -> [u64; 32]
    requires fits { (seat.old.table_id ≡ words.now.table.shared.table_id) × (seat.old.me.0.size ≡ words.now.size) × (seat.old.me.0.gone ≡ false) }
    requires slot { slot < words.now.size.slots }
    requires walk { (w : Walk) × (seat.old.me.0.walk ≡ Some w) × (w.place ≡ slot + 1) × (w.part ≡ []) }
    ensures same { (seat.new.table_id ≡ seat.old.table_id) × (seat.new.id ≡ seat.old.id) × (seat.new.me.1 ≡ seat.old.me.1) }
    ensures steps { seat.new.me.0 ≡ after seat.old.me.0 (reads result) }
    ensures whole { length result ≡ 32 }
{
    let mut row = [0u64; 32];
    for i in 0..32 {
        let place = words.text_place(slot, i);
        let word = words.table.shared.load::<ReadingWord>(seat, place);
        row[i] = word;
    }
    row
}

// Goes on from the slot at hand, and answers its link word.
fn pace(words: &Words, seat: &mut Seat<(), View>, slot: u32) -> u64
    requires fits { (seat.old.table_id ≡ words.now.table.shared.table_id) × (seat.old.me.0.size ≡ words.now.size) × (seat.old.me.0.gone ≡ false) }
    requires slot { slot < words.now.size.slots }
    requires moves { MovesChains seat.old.me.0 × (seat.old.me.0.growing.moving ≡ 0) }
    requires walk { (w : Walk) × (seat.old.me.0.walk ≡ Some w) × (w.place ≡ slot + 1) }
    ensures same { (seat.new.table_id ≡ seat.old.table_id) × (seat.new.id ≡ seat.old.id) × (seat.new.me.1 ≡ seat.old.me.1) }
    ensures steps { seat.new.me.0 ≡ after seat.old.me.0 (Next result ∷ []) }
    ensures inside { Inside seat.new.me.0 }
{
    let link = words.link_place(slot);
    words.table.shared.load::<Pacing>(seat, link)
}

// The text of the slot at hand, where its link word is 0, so that it may be the last one.
fn read_last(words: &Words, seat: &mut Seat<(), View>, slot: u32) -> Option<[u64; 32]>
    requires fits { (seat.old.table_id ≡ words.now.table.shared.table_id) × (seat.old.me.0.size ≡ words.now.size) × (seat.old.me.0.gone ≡ false) }
    requires slot { slot < words.now.size.slots }
    requires walk { (w : Walk) × (seat.old.me.0.walk ≡ Some w) × (w.place ≡ slot + 1) × (w.part ≡ []) }
    ensures same { (seat.new.table_id ≡ seat.old.table_id) × (seat.new.id ≡ seat.old.id) × (seat.new.me.1 ≡ seat.old.me.1) }
    ensures steps { (x : ℕ) × MatchOption result (seat.new.me.0 ≡ after seat.old.me.0 (Load (link_at seat.old.me.0.size slot) x ∷ [])) (λ row. (length row ≡ 32) × (seat.new.me.0 ≡ after seat.old.me.0 (Load (link_at seat.old.me.0.size slot) x ∷ reads row))) }
{
    let link = words.link_place(slot);
    if words.table.shared.load::<Loading>(seat, link) == 0 {
        Some(read_text(words, seat, slot))
    } else {
        None
    }
}

// The last slot, where its text was read.
fn as_last(text: Option<[u64; 32]>, slot: u32, before: u64) -> Option<Last>
    ensures { MatchOption result (text ≡ None) (λ l. (text ≡ Some l.row) × (l.slot ≡ slot) × (l.before ≡ before)) }
{
    match text {
        Some(row) => Some(Last { slot, before, row }),
        None => None,
    }
}

// Walks to the end of the chain of a closed head, which has slots, and answers its last one. It answers none where the last
// slot's link word was another as it was loaded first.
fn find_last(words: &Words, seat: &mut Seat<(), View>, head: u32, word: u64) -> Option<Last>
    requires fits { (seat.old.table_id ≡ words.now.table.shared.table_id) × (seat.old.me.0.size ≡ words.now.size) × (seat.old.me.0.gone ≡ false) }
    requires moves { MovesChains seat.old.me.0 × (seat.old.me.0.growing.moving ≡ 0) }
    requires start { Paces head word 0 0 (first_of word) [] seat.old.me.0 × (first_of word ≢ 0) }
    requires inside { Inside seat.old.me.0 }
    ensures same { (seat.new.table_id ≡ seat.old.table_id) × (seat.new.id ≡ seat.old.id) × (seat.new.me.1 ≡ seat.old.me.1) }
    ensures steps { RowSteps seat.old.me.0 seat.new.me.0 }
    ensures rows { seat.new.me.0.growing ≡ seat.old.me.0.growing }
    ensures tied { (h : ℕ) (x : ℕ) → WalkTied seat.old.me.0 h x → WalkTied seat.new.me.0 h x }
    ensures ended { MatchOption result (Unit {0}) (λ l. AtEnd head l.slot l.before l.row seat.new.me.0 × (l.slot < words.now.size.slots) × (l.before ≤ words.now.size.slots) × (length l.row ≡ 32)) }
{
    let mut place = word % 2_097_152;
    let mut before = 0u64;
    for _i in 0..words.size.slots {
        let slot = (place - 1) as u32;
        let text = read_last(words, seat, slot);
        let next = pace(words, seat, slot);
        if next == 0 {
            return as_last(text, slot, before);
        }
        before = place;
        place = next;
    }
    None
}

// The slot is known as the last one of the chain that is moved.
fn pick(words: &Words, seat: &mut AtomSeat, slot: u32, before: u64, row: &[u64; 32])
    requires fits { Fits words.now seat.old }
    requires moves { MovesChains (seen seat.old) × ((seen seat.old).growing.moving ≡ 0) × ((seen seat.old).growing.moved < 2 ^ (seen seat.old).growing.row) }
    requires ended { AtEnd (old_head (seen seat.old).growing) slot before row.now (seen seat.old) × (length row.now ≡ 32) }
    ensures same { Same seat.old seat.new }
    ensures steps { seen seat.new ≡ after (seen seat.old) (Pick (record { slot = slot; text = row.now }) before ∷ []) }
{
    words.table.shared.load::<Picking>(&mut seat.seat, 0);
}

// Begins a walk at a head of the other row, which is closed, and answers its word.
fn trace_into(words: &Words, seat: &mut AtomSeat, head: u32) -> u64
    requires fits { Fits words.now seat.old }
    requires head { head < words.now.size.heads }
    requires moves { MovesChains (seen seat.old) × ((seen seat.old).growing.moving ≡ 0) }
    ensures same { Same seat.old seat.new }
    ensures steps { seen seat.new ≡ after (seen seat.old) (Start head result ∷ []) }
    ensures closed { closed_of result ≡ 1 }
    ensures inside { Inside (seen seat.new) }
    ensures walk { (seat.new.head ≡ head) × (seat.new.word ≡ result) }
{
    let place = words.head_place(head);
    let word = words
        .table
        .shared
        .load::<TracingInto>(&mut seat.seat, place);
    seat.head = head;
    seat.word = word;
    word
}

// Walks to the end of the chain of a closed head, which has slots, and answers its last one.
fn walk_out(words: &Words, seat: &mut Seat<(), View>, head: u32, word: u64) -> u32
    requires fits { (seat.old.table_id ≡ words.now.table.shared.table_id) × (seat.old.me.0.size ≡ words.now.size) × (seat.old.me.0.gone ≡ false) }
    requires moves { MovesChains seat.old.me.0 × (seat.old.me.0.growing.moving ≡ 0) }
    requires start { Paces head word 0 0 (first_of word) [] seat.old.me.0 × (first_of word ≢ 0) }
    requires inside { Inside seat.old.me.0 }
    ensures same { (seat.new.table_id ≡ seat.old.table_id) × (seat.new.id ≡ seat.old.id) × (seat.new.me.1 ≡ seat.old.me.1) }
    ensures steps { (links : List ℕ) × (seat.new.me.0 ≡ after seat.old.me.0 (nexts links)) }
    ensures stands { (n : ℕ) × Paces head word n (result + 1) 0 [] seat.new.me.0 }
    ensures low { result < words.now.size.slots }
{
    let mut place = word % 2_097_152;
    for _i in 0..words.size.slots {
        let slot = (place - 1) as u32;
        let next = pace(words, seat, slot);
        if next == 0 {
            return slot;
        }
        place = next;
    }
    (place - 1) as u32
}

// The slot picked becomes the first of its new chain, which is empty, by one store of the head, whose word the walk found.
fn put_first(words: &Words, seat: &mut AtomSeat, slot: u32, head: u32, word: u64)
    requires fits { Fits words.now seat.old }
    requires slot { slot < words.now.size.slots }
    requires head { head < words.now.size.heads }
    requires moves { MovesChains (seen seat.old) × ((seen seat.old).growing.moving ≡ 0) }
    requires walk { (w : Walk) × ((seen seat.old).walk ≡ Some w) × (w.head ≡ head) × (w.word ≡ word) × (first_of word ≡ 0) × (closed_of word ≡ 1) }
    requires picked { (a : Held) × ((seen seat.old).growing.picked ≡ Some a) × (a.slot ≡ slot) × (bucket (seen seat.old).growing.aim a.text ≡ head) }
    ensures same { Same seat.old seat.new }
    ensures steps { seen seat.new ≡ after (seen seat.old) (MoveHead head ∷ []) }
{
    let place = words.head_place(head);
    words
        .table
        .shared
        .store::<PuttingAtHead>(&mut seat.seat, place, word + slot as u64 + 1);
}

// The slot picked is put behind the last slot of its new chain, by one store of that slot's link word.
fn put_behind(words: &Words, seat: &mut AtomSeat, slot: u32, last: u32)
    requires fits { Fits words.now seat.old }
    requires slot { (slot < words.now.size.slots) × (last < words.now.size.slots) }
    requires moves { MovesChains (seen seat.old) × ((seen seat.old).growing.moving ≡ 0) }
    requires picked { (a : Held) × (w : Walk) × ((seen seat.old).growing.picked ≡ Some a) × (a.slot ≡ slot) × ((seen seat.old).walk ≡ Some w) × (bucket (seen seat.old).growing.aim a.text ≡ w.head) × (w.place ≡ 0) × Before (last + 1) w.seen }
    ensures same { Same seat.old seat.new }
    ensures steps { seen seat.new ≡ after (seen seat.old) (MoveLink last ∷ []) }
{
    let place = words.link_place(last);
    words
        .table
        .shared
        .store::<PuttingAtLink>(&mut seat.seat, place, slot as u64 + 1);
}

// Puts the slot picked behind the last slot of the chain of that head, which is its text's bucket in the other row.
fn put(words: &Words, seat: &mut AtomSeat, slot: u32, head: u32)
    requires fits { Fits words.now seat.old }
    requires slot { slot < words.now.size.slots }
    requires head { head < words.now.size.heads }
    requires moves { MovesChains (seen seat.old) × ((seen seat.old).growing.moving ≡ 0) }
    requires picked { (a : Held) × ((seen seat.old).growing.picked ≡ Some a) × (a.slot ≡ slot) × (bucket (seen seat.old).growing.aim a.text ≡ head) }
    ensures same { Same seat.old seat.new }
    ensures fits { Fits words.now seat.new }
    ensures steps { (ks : List Kind) × (k : Kind) × (seen seat.new ≡ after (seen seat.old) (ks ++ k ∷ [])) × RowKinds (ks ++ k ∷ []) }
    ensures rows { (seen seat.new).growing ≡ record (seen seat.old).growing { picked = None; moving = slot + 1 } }
{
    let word = trace_into(words, seat, head);
    let first = word % 2_097_152;
    if first == 0 {
        put_first(words, seat, slot, head, word);
    } else {
        let last = walk_out(words, &mut seat.seat, head, word);
        put_behind(words, seat, slot, last);
    }
}

// Takes the slot that stands in both chains off its old one, where it was the only slot, by one exchange of the head.
fn leave_head(words: &Words, seat: &mut AtomSeat, head: u32)
    requires fits { Fits words.now seat.old }
    requires head { head < words.now.size.heads }
    requires moves { MovesChains (seen seat.old) × ((seen seat.old).growing.moving ≢ 0) × ((seen seat.old).growing.before ≡ 0) × (head ≡ old_head (seen seat.old).growing) }
    ensures same { Same seat.old seat.new }
    ensures steps { seen seat.new ≡ after (seen seat.old) (LeaveHead head ∷ []) }
{
    let place = words.head_place(head);
    words
        .table
        .shared
        .fetch_and::<LeavingHead>(&mut seat.seat, place, 18_446_744_073_707_454_464);
}

// Takes it off its old chain, behind the slot before it, by one store of that slot's link word.
fn leave_link(words: &Words, seat: &mut AtomSeat, before: u32)
    requires fits { Fits words.now seat.old }
    requires slot { before < words.now.size.slots }
    requires moves { MovesChains (seen seat.old) × ((seen seat.old).growing.moving ≢ 0) × ((seen seat.old).growing.before ≡ before + 1) }
    ensures same { Same seat.old seat.new }
    ensures steps { seen seat.new ≡ after (seen seat.old) (LeaveLink before ∷ []) }
{
    let place = words.link_place(before);
    words
        .table
        .shared
        .store::<LeavingLink>(&mut seat.seat, place, 0);
}

// Takes the slot off its old chain. `before` is 0 where it was the only slot, or 1 more than the slot before it.
fn leave(words: &Words, seat: &mut AtomSeat, head: u32, before: u64)
    requires fits { Fits words.now seat.old }
    requires head { head < words.now.size.heads }
    requires low { before ≤ words.now.size.slots }
    requires moves { MovesChains (seen seat.old) × ((seen seat.old).growing.moving ≢ 0) × ((seen seat.old).growing.before ≡ before) × (head ≡ old_head (seen seat.old).growing) }
    ensures same { Same seat.old seat.new }
    ensures fits { Fits words.now seat.new }
    ensures steps { RowSteps (seen seat.old) (seen seat.new) }
    ensures rows { (seen seat.new).growing ≡ record (seen seat.old).growing { moving = 0 } }
{
    if before == 0 {
        leave_head(words, seat, head);
    } else {
        leave_link(words, seat, (before - 1) as u32);
    }
}

// Moves the last slot of the chain at whose head a walk has just begun: it is known, put behind the last slot of its new
// chain, and then taken off its old one.
fn move_last(words: &Words, seat: &mut AtomSeat, row: u64, aim: u64, moved: u32, word: u64)
    requires fits { Fits words.now seat.old }
    requires row { RowOk words.now.size row × RowOk words.now.size aim × (moved < 2 ^ row) × (aim ≢ row) }
    requires rows { (sound : ℕ) × Rowing row aim (2 ^ row) sound moved (seen seat.old) }
    requires start { Paces (row_first row + moved) word 0 0 (first_of word) [] (seen seat.old) × (first_of word ≢ 0) }
    requires inside { Inside (seen seat.old) }
    ensures same { Same seat.old seat.new }
    ensures fits { Fits words.now seat.new }
    ensures steps { RowSteps (seen seat.old) (seen seat.new) }
    ensures rows { MovesOn row aim moved moved (seen seat.old) (seen seat.new) }
{
    let head = row_start(row) + moved;
    match find_last(words, &mut seat.seat, head, word) {
        Some(last) => {
            pick(words, seat, last.slot, last.before, &last.row);
            put(words, seat, last.slot, row_bucket(&last.row, aim));
            leave(words, seat, head, last.before);
        }
        None => {}
    }
}

/// Moves slots of the next chain of the row in use, the last one first, each behind the last slot of its text's bucket in the
/// other row, until the chain is empty or `most` tries are made. Where it is found empty, it answers how many tries are left.
pub fn move_chain(
    words: &Words,
    seat: &mut AtomSeat,
    row: u64,
    aim: u64,
    moved: u32,
    most: u32,
) -> Option<u32>
    requires fits { Fits words.now seat.old }
    requires row { RowOk words.now.size row × RowOk words.now.size aim × (moved < 2 ^ row) × (aim ≢ row) }
    requires rows { (sound : ℕ) × Rowing row aim (2 ^ row) sound moved (seen seat.old) }
    ensures same { Same seat.old seat.new }
    ensures fits { Fits words.now seat.new }
    ensures steps { RowSteps (seen seat.old) (seen seat.new) }
    ensures rows { MatchOption result (MovesOn row aim moved moved (seen seat.old) (seen seat.new)) (λ left. (left < most) × MovesOn row aim moved (moved + 1) (seen seat.old) (seen seat.new)) }
{
    for i in 0..most {
        match look_into(words, seat, row, moved) {
            None => return Some(most - 1 - i),
            Some(word) => move_last(words, seat, row, aim, moved, word),
        }
    }
    None
}

/// Moves the chains of the row in use from the one with that number in the row on, those before which are empty, until all
/// are empty or `most` tries are made.
pub fn move_row(
    words: &Words,
    seat: &mut AtomSeat,
    row: u64,
    aim: u64,
    from: u32,
    most: u32,
) -> Moved
    requires fits { Fits words.now seat.old }
    requires row { RowOk words.now.size row × RowOk words.now.size aim × (from ≤ 2 ^ row) × (aim ≢ row) }
    requires rows { (sound : ℕ) × Rowing row aim (2 ^ row) sound from (seen seat.old) }
    ensures same { Same seat.old seat.new }
    ensures fits { Fits words.now seat.new }
    ensures steps { RowSteps (seen seat.old) (seen seat.new) }
    ensures rows { (from ≤ result.chains) × (result.chains ≤ 2 ^ row) × (result.left ≤ most) × MovesOn row aim from result.chains (seen seat.old) (seen seat.new) }
    ensures some { result.chains < 2 ^ row → result.left ≡ 0 }
{
    let heads = row_heads(row) as u32;
    let mut left = most;
    for chain in from..heads {
        match move_chain(words, seat, row, aim, chain, left) {
            Some(rest) => left = rest,
            None => {
                return Moved {
                    chains: chain,
                    left: 0,
                };
            }
        }
    }
    Moved {
        chains: heads,
        left,
    }
}
