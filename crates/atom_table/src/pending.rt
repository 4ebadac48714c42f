//! A slot that is linked and not valid yet.
ghost use Rattle.std.specs.Prelude.{◌≡◌, ◌≤◌, ◌<◌, true, false, Some, None, IfOk};
ghost use Rattle.pl_term.specs.Texts.{size};
ghost use Rattle.atom_words.specs.Kinds.{Sitting};
ghost use Rattle.atom_words.specs.Seats.{seen, Fits, Walking};
ghost use Rattle.atom_words.specs.declared.view.Own.{Own};
ghost use Rattle.bucket_rows.specs.Walks.{spelled, MissingIn, Ready};

use crate::opening::Opened;
use crate::table::AtomTable;
use crate::tests::take_last;
use atom_api::{Atom, Cause, Interned};
use atom_words::{AtomSeat, Words};
use bucket_rows::{link, walk};
use pl_term::{Memory, Text};
use std::alloc::Global;
use std::convert::AsStr;
use std::test::Fail;

// Takes the slot after a walk that did not find the text, and puts the text in it.
fn take(words: &Words, seat: &mut AtomSeat, slot: u32, text: &Text) -> bool
    requires fits { Fits words.now seat.old }
    requires short { size text.now ≤ 248 }
    requires slot { slot < words.now.size.slots }
    requires none { (seen seat.old).own ≡ None }
    requires walking { Walking (seen seat.old) }
    requires missing { MissingIn (spelled text.now) (seen seat.old) }
    ensures fits { Fits words.now seat.new }
    ensures ready { result ≡ true → Ready (seen seat.new) × Walking (seen seat.new) }
{
    match words.reserve(seat, slot) {
        Ok(()) => {
            words.put_text(seat, text.as_str().as_bytes());
            true
        }
        Err(_) => false,
    }
}

// Walks to the end of the chain without finding the text, takes the slot, and puts the text in it.
fn make_ready(words: &Words, seat: &mut AtomSeat, slot: u32, text: &Text) -> bool
    requires fits { Fits words.now seat.old }
    requires short { size text.now ≤ 248 }
    requires slot { slot < words.now.size.slots }
    requires none { (seen seat.old).own ≡ None }
    requires walking { Walking (seen seat.old) }
    ensures fits { Fits words.now seat.new }
    ensures ready { result ≡ true → Ready (seen seat.new) × Walking (seen seat.new) }
{
    match walk(words, seat, text) {
        Ok(found) => match found {
            None => take(words, seat, slot, text),
            Some(_) => false,
        },
        Err(_) => false,
    }
}

// Links the slot that was made ready.
fn links(words: &Words, seat: &mut AtomSeat) -> bool
    requires fits { Fits words.now seat.old }
    requires ready { Ready (seen seat.old) × Walking (seen seat.old) }
    ensures fits { Fits words.now seat.new }
    ensures linked { (o : Own) × ((seen seat.new).own ≡ Some o) × (o.linked ≡ result) }
    ensures sitting { Sitting (seen seat.new) }
{
    match link(words, seat) {
        Ok(()) => true,
        Err(_) => false,
    }
}

// The text that `s` spells, which is short.
fn short(alloc: Global, s: &str) -> Result<Text, Memory>
    ensures { IfOk result (λ t. size t ≤ 248) }
{
    let text = Text::from_str(alloc, s)?;
    if text.size() <= 248 {
        Ok(text)
    } else {
        Err(Memory)
    }
}

#[test]
fn a_linked_slot_is_pending_until_it_is_valid(rt: HostRuntime) -> Result<(), Fail> {
    let Opened {
        table,
        mut seats,
        keeper: _,
        collector: _,
    } = AtomTable::new(rt.alloc(), 512, 2)?;
    let mut two = take_last(&table, &mut seats).ok_or("a seat")?;
    let mut one = take_last(&table, &mut seats).ok_or("a seat")?;
    let text = short(rt.alloc(), "a")?;
    let ready = make_ready(&table.words, &mut two, 300, &text);
    assert!(rt; ready);
    let linked = links(&table.words, &mut two);
    assert!(rt; linked);
    let pending = Cause::Pending {
        index: 300,
        word: 1,
    };
    assert_eq!(rt; table.intern(&mut one, &text), Interned::Again(pending));
    assert_eq!(rt; table.words.validate(&mut two), 300);
    assert_eq!(rt; table.intern(&mut one, &text), Interned::Is(Atom::at(300)));
    Ok(())
}
