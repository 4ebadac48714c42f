//! Two seats at one bucket, and slots that are linked.
ghost use Rattle.std.specs.Prelude.{◌≡◌, ◌≤◌, ◌<◌, true, false, Some, None, IfOk};
ghost use Rattle.pl_term.specs.Texts.{size};
ghost use Rattle.atom_words.specs.Kinds.{Sitting};
ghost use Rattle.atom_words.specs.Seats.{seen, Fits, Walking};
ghost use Rattle.atom_words.specs.declared.view.Own.{Own};
ghost use Rattle.bucket_rows.specs.Walks.{spelled, MissingIn, Ready};

use crate::{Missed, bucket, link, walk};
use atom_api::Atom;
use atom_words::{AtomSeat, Size, Words};
use pl_term::{Memory, Text};
use std::alloc::Global;
use std::convert::AsStr;
use std::test::Fail;

const SMALL: Size = Size {
    slots: 512,
    engines: 2,
    heads: 768,
    start: 0,
    fixed: 0,
};

// Takes the slot after a walk that did not find the text, and puts the text in it.
fn take(words: &Words, seat: &mut AtomSeat, slot: u32, text: &Text) -> bool
    requires fits { Fits words.now seat.old }
    requires short { size text.now ≤ 248 }
    requires slot { slot < words.now.size.slots }
    requires none { (seen seat.old).own ≡ None }
    requires walking { Walking (seen seat.old) }
    requires missing { MissingIn (spelled text.now) (seen seat.old) }
    ensures fits { Fits words.now seat.new }
    ensures ready { result ≡ true → Ready (seen seat.new) × Walking (seen seat.new) }
    ensures none { result ≡ false → (seen seat.new).own ≡ None }
{
    match words.reserve(seat, slot) {
        Ok(()) => {
            words.put_text(seat, text.as_str().as_bytes());
            true
        }
        Err(_) => false,
    }
}

// Walks to the end of the chain without finding the text, takes the slot, and puts the text in it.
fn make_ready(words: &Words, seat: &mut AtomSeat, slot: u32, text: &Text) -> bool
    requires fits { Fits words.now seat.old }
    requires short { size text.now ≤ 248 }
    requires slot { slot < words.now.size.slots }
    requires none { (seen seat.old).own ≡ None }
    requires walking { Walking (seen seat.old) }
    ensures fits { Fits words.now seat.new }
    ensures ready { result ≡ true → Ready (seen seat.new) × Walking (seen seat.new) }
    ensures none { result ≡ false → (seen seat.new).own ≡ None }
{
    match walk(words, seat, text) {
        Ok(found) => match found {
            None => take(words, seat, slot, text),
            Some(_) => false,
        },
        Err(_) => false,
    }
}

// Links the slot that was made ready.
fn links(words: &Words, seat: &mut AtomSeat) -> bool
    requires fits { Fits words.now seat.old }
    requires ready { Ready (seen seat.old) × Walking (seen seat.old) }
    ensures fits { Fits words.now seat.new }
    ensures linked { (o : Own) × ((seen seat.new).own ≡ Some o) × (o.linked ≡ result) }
    ensures sitting { Sitting (seen seat.new) }
{
    match link(words, seat) {
        Ok(()) => true,
        Err(_) => false,
    }
}

// How the link of the slot that was made ready is refused, and whether its slot is given back.
fn link_missed(words: &Words, seat: &mut AtomSeat) -> Option<Missed>
    requires fits { Fits words.now seat.old }
    requires ready { Ready (seen seat.old) × Walking (seen seat.old) }
{
    match link(words, seat) {
        Ok(()) => None,
        Err(missed) => {
            words.release(seat);
            Some(missed)
        }
    }
}

#[test]
fn texts_have_buckets(rt: HostRuntime) {
    assert!(rt; bucket(b"", 8) == 37);
    assert!(rt; bucket(b"a", 8) == 140);
}

// The text that `s` spells, which is short.
fn short(alloc: Global, s: &str) -> Result<Text, Memory>
    ensures { IfOk result (λ t. size t ≤ 248) }
{
    let text = Text::from_str(alloc, s)?;
    if text.size() <= 248 {
        Ok(text)
    } else {
        Err(Memory)
    }
}

#[test]
fn a_linked_slot_is_pending_until_it_is_valid(rt: HostRuntime) -> Result<(), Fail> {
    let (words, mut first) = Words::new(rt.alloc(), SMALL)?;
    let mut two = words.split_engine_seat(&mut first, 2);
    let mut one = words.split_engine_seat(&mut first, 1);
    let text = short(rt.alloc(), "a")?;
    let ready = make_ready(&words, &mut two, 300, &text);
    assert!(rt; ready);
    let linked = links(&words, &mut two);
    assert!(rt; linked);
    let found = look(&words, &mut one, &text);
    let pending = Missed::Pending {
        index: 300,
        word: 1,
    };
    assert!(rt; found == Err(pending));
    assert!(rt; words.validate(&mut two) == 300);
    assert!(rt; holds(&words, &mut one, &text) == Some(Atom::at(300)));
    Ok(())
}

// What a walk finds.
fn look(words: &Words, seat: &mut AtomSeat, text: &Text) -> Result<Option<Atom>, Missed>
    requires fits { Fits words.now seat.old }
    requires short { size text.now ≤ 248 }
    requires none { (seen seat.old).own ≡ None }
    requires walking { Walking (seen seat.old) }
    ensures fits { Fits words.now seat.new }
    ensures none { (seen seat.new).own ≡ None }
    ensures walking { Walking (seen seat.new) }
{
    walk(words, seat, text)
}

// The slot that a walk finds.
fn holds(words: &Words, seat: &mut AtomSeat, text: &Text) -> Option<Atom>
    requires fits { Fits words.now seat.old }
    requires short { size text.now ≤ 248 }
    requires none { (seen seat.old).own ≡ None }
    requires walking { Walking (seen seat.old) }
    ensures fits { Fits words.now seat.new }
    ensures none { (seen seat.new).own ≡ None }
{
    match walk(words, seat, text) {
        Ok(found) => found,
        Err(_) => None,
    }
}

#[test]
fn a_link_behind_another_finds_the_head_moved(rt: HostRuntime) -> Result<(), Fail> {
    let (words, mut first) = Words::new(rt.alloc(), SMALL)?;
    let mut two = words.split_engine_seat(&mut first, 2);
    let mut one = words.split_engine_seat(&mut first, 1);
    let text = short(rt.alloc(), "a")?;
    let ready = make_ready(&words, &mut two, 300, &text);
    assert!(rt; ready);
    let ready = make_ready(&words, &mut one, 301, &text);
    assert!(rt; ready);
    let linked = links(&words, &mut two);
    assert!(rt; linked);
    let moved = Missed::Moved {
        old: 0,
        new: 301 + 4_194_304,
    };
    assert!(rt; link_missed(&words, &mut one) == Some(moved));
    assert!(rt; words.table.shared.peek(words.atom_place(301)) == 0);
    Ok(())
}

// Raises the version of a head to the one that the table begins with.
fn raised(words: &Words, seat: &mut AtomSeat, head: u32) -> bool
    requires fits { Fits words.now seat.old }
    requires head { head < words.now.size.heads }
    requires first { 0 < (seen seat.old).undealt }
    requires none { (seen seat.old).own ≡ None }
    requires walking { Walking (seen seat.old) }
    ensures fits { Fits words.now seat.new }
    ensures none { (seen seat.new).own ≡ None }
    ensures walking { Walking (seen seat.new) }
{
    words.raise(seat, head).is_ok()
}

#[test]
fn a_worn_bucket_takes_no_slot(rt: HostRuntime) -> Result<(), Fail> {
    let old = Size {
        start: 4_398_046_511_102,
        ..SMALL
    };
    let (words, mut first) = Words::new(rt.alloc(), old)?;
    let _collector = words.part_collector(&mut first);
    let text = short(rt.alloc(), "zz")?;
    let high = raised(&words, &mut first, bucket(b"zz", 8));
    assert!(rt; high);
    let ready = make_ready(&words, &mut first, 511, &text);
    assert!(rt; ready);
    let Some(Missed::Worn(worn)) = link_missed(&words, &mut first) else {
        panic!(rt; "the bucket was not worn")
    };
    assert!(rt; worn.start() == 4_398_046_511_102);
    assert!(rt; worn.head() == bucket(b"zz", 8) as u64);
    Ok(())
}
