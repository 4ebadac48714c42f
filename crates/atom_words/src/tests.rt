ghost use Rattle.std.specs.Prelude.{◌≡◌, ◌<◌, ◌≤◌, false, [], length, Some, None, IsSome};
ghost use Rattle.atom_words.specs.declared.view.Own.{Own};
ghost use Rattle.atom_words.specs.Seats.{seen, Fits};

use crate::size::Size;
use crate::words::{AtomSeat, Words};
use std::test::Fail;

const SMALL: Size = Size {
    slots: 512,
    engines: 2,
    heads: 768,
    start: 0,
    fixed: 0,
};

// Whether a slot is not free. A pass at hand goes on.
fn is_taken(words: &Words, seat: &mut AtomSeat, slot: u32) -> bool
    requires fits { Fits words.now seat.old }
    requires slot { slot < words.now.size.slots }
    requires none { (seen seat.old).own ≡ None }
    ensures fits { Fits words.now seat.new }
    ensures none { (seen seat.new).own ≡ None }
    ensures pass { IsSome (seen seat.old).pass → IsSome (seen seat.new).pass }
{
    match words.reserve(seat, slot) {
        Ok(()) => {
            words.release(seat);
            false
        }
        Err(_) => true,
    }
}

// Puts a text in the seat's own slot, and gives the slot back.
fn put_and_release(words: &Words, seat: &mut AtomSeat, text: &[u8])
    requires fits { Fits words.now seat.old }
    requires short { length text.now ≤ 248 }
    requires own { (o : Own) × ((seen seat.old).own ≡ Some o) × (o.linked ≡ false) × (o.text ≡ []) }
    ensures fits { Fits words.now seat.new }
    ensures none { (seen seat.new).own ≡ None }
{
    words.put_text(seat, text);
    words.release(seat);
}

// How many slots are found taken, from `from` on in a circle.
fn count_taken(words: &Words, seat: &mut AtomSeat, from: u32) -> u32
    requires fits { Fits words.now seat.old }
    requires slots { (words.now.size.slots ≡ 512) × (from < 512) }
    requires none { (seen seat.old).own ≡ None }
    requires pass { IsSome (seen seat.old).pass }
    ensures fits { Fits words.now seat.new }
    ensures none { (seen seat.new).own ≡ None }
    ensures pass { IsSome (seen seat.new).pass }
{
    let mut taken = 0;
    for i in 0..512u32 {
        if is_taken(words, seat, (from + i) % 512) {
            taken += 1;
        }
    }
    taken
}

// Takes the slots from 256 on, each through a seat of its own.
fn take_all(words: &Words)
    requires { words.now.size.slots ≡ 512 }
{
    for slot in 256..512u32 {
        let mut seat = words.make();
        let _ = words.reserve(&mut seat, slot);
    }
}

#[test]
fn a_slot_is_reserved_once(rt: HostRuntime) -> Result<(), Fail> {
    let (words, mut first) = Words::new(rt.alloc(), SMALL)?;
    let mut one = words.split_engine_seat(&mut first, 2);
    let mut two = words.split_engine_seat(&mut first, 1);
    assert!(rt; words.reserve(&mut two, 255) == Err(1));
    assert!(rt; !is_taken(&words, &mut two, 300));
    assert!(rt; words.protect(&mut two, 300) == Err(0));
    assert!(rt; words.table.shared.peek(words.atom_place(300)) == 4);
    assert!(rt; words.reserve(&mut one, 300) == Ok(()));
    assert!(rt; is_taken(&words, &mut two, 300));
    assert!(rt; words.protect(&mut two, 300) == Err(1));
    put_and_release(&words, &mut one, b"ab");
    assert!(rt; words.table.shared.peek(words.atom_place(300)) == 0);
    Ok(())
}

#[test]
fn a_text_has_32_words(rt: HostRuntime) -> Result<(), Fail> {
    let (words, mut first) = Words::new(rt.alloc(), SMALL)?;
    assert!(rt; words.reserve(&mut first, 511) == Ok(()));
    put_and_release(&words, &mut first, b"ab");
    let found = [
        words.table.shared.peek(words.text_place(511, 0)),
        words.table.shared.peek(words.text_place(511, 1)),
        words.table.shared.peek(words.text_place(511, 2)),
        words.table.shared.peek(words.text_place(511, 31)),
    ];
    assert!(rt; found == [2, 25_185, 0, 0]);
    Ok(())
}

#[test]
fn a_short_text_covers_a_long_one(rt: HostRuntime) -> Result<(), Fail> {
    let (words, mut first) = Words::new(rt.alloc(), SMALL)?;
    assert!(rt; words.reserve(&mut first, 300) == Ok(()));
    put_and_release(
        &words,
        &mut first,
        b"a text of forty-eight bytes, with the last one z",
    );
    assert!(rt; words.table.shared.peek(words.text_place(300, 6)) / 72_057_594_037_927_936 == 122);
    assert!(rt; words.reserve(&mut first, 300) == Ok(()));
    put_and_release(&words, &mut first, b"ab");
    let found = [
        words.table.shared.peek(words.text_place(300, 0)),
        words.table.shared.peek(words.text_place(300, 1)),
        words.table.shared.peek(words.text_place(300, 2)),
        words.table.shared.peek(words.text_place(300, 6)),
    ];
    assert!(rt; found == [2, 25_185, 0, 0]);
    Ok(())
}

#[test]
fn eight_words_of_a_slot_stand_together(rt: HostRuntime) -> Result<(), Fail> {
    let (words, _first) = Words::new(rt.alloc(), SMALL)?;
    let place = words.atom_place(300);
    assert!(rt; place % 8 == 6 && words.link_place(300) == place + 1);
    assert!(rt; words.text_place(300, 0) == place + 2 && words.text_place(300, 5) == place + 7);
    assert!(rt; words.atom_place(301) == place + 8);
    Ok(())
}

#[test]
fn a_pass_counts_all_slots(rt: HostRuntime) -> Result<(), Fail> {
    let (words, mut first) = Words::new(rt.alloc(), SMALL)?;
    let keeper = words.part_keeper(&mut first);
    let collector = words.part_collector(&mut first);
    let mut one = words.split_engine_seat(&mut first, 2);
    words.with_keeper(&mut one, keeper);
    let keeper = words.part_keeper(&mut one);
    words.start_pass(&mut one);
    let found = count_taken(&words, &mut one, 300);
    let early = words.end_pass(&mut one);
    assert!(rt; found == 256 && early.is_none());
    take_all(&words);
    words.start_pass(&mut one);
    let found = count_taken(&words, &mut one, 300);
    let pass = words.end_pass(&mut one);
    assert!(rt;
        found == 512
            && pass.is_some_and(|p| p.counted() == 512
                && p.seat() == 2
                && p.began() == 0
                && p.ended() == 0)
    );
    assert!(rt; one.engine == 2 && keeper.engine == 0 && collector.engine == 0);
    Ok(())
}

#[test]
fn a_worn_bucket_is_found(rt: HostRuntime) -> Result<(), Fail> {
    let old = Size {
        start: 4_398_046_511_103,
        ..SMALL
    };
    let (words, mut first) = Words::new(rt.alloc(), old)?;
    let Some(found) = words.find_worn(&mut first, 300) else {
        panic!(rt; "the bucket was not worn")
    };
    assert!(rt; found.head() == 300 && found.start() == 4_398_046_511_103);
    assert!(rt; found.word() == 18_446_744_073_707_454_464);
    let (words, mut first) = Words::new(rt.alloc(), SMALL)?;
    assert!(rt; words.find_worn(&mut first, 5).is_none());
    Ok(())
}

#[test]
fn a_head_is_raised_to_the_first_version(rt: HostRuntime) -> Result<(), Fail> {
    let old = Size {
        start: 4_398_046_511_103,
        ..SMALL
    };
    let (words, mut first) = Words::new(rt.alloc(), old)?;
    let place = words.head_place(5);
    assert!(rt; words.table.shared.peek(place) == 0);
    assert!(rt; words.raise(&mut first, 5).is_ok());
    assert!(rt; words.table.shared.peek(place) == 18_446_744_073_705_357_312);
    Ok(())
}
