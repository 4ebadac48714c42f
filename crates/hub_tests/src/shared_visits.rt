//! Visits of engine 1 to the shared state, with ample memory: every kind of visit, through `Shared::session`. The answers are
//! those of the standard (ISO 7.5.2, 7.7.7, 7.7.10, 7.11.2, 8.8.1, 8.9, 8.14.3, 8.17) and of SWI-Prolog's manual, section
//! 'Multithreaded applications'.
use crate::asked::{Ask, Called, Word};
use crate::parts::{Part, came};
use crate::players::Player;
use crate::told::another;
use pl_hub::{Naming, Shared};
use pl_model::operators::Kind;
use pl_term::Memory;
use std::alloc::Global;
use std::test::Fail;

const OWN: Word = Word::Own;

const CODES: Called = Called::Alias(Word::Codes);

const MAIN: Called = Called::Alias(Word::Main);

/// Visits to clauses, flags and operators, one after the other.
const DATABASE: [(Ask, &str); 55] = [
    // ISO 7.7.7: a procedure that is not there.
    (
        Ask::Call(OWN, None),
        "0: error existence_error/2 procedure //2 zz 1",
    ),
    (Ask::Procedures, "0: 0 procedures"),
    // ISO 8.9.1, 8.9.2: the last, and the first clause.
    (Ask::Last(OWN, 1), "0: done"),
    (Ask::Last(OWN, 2), "1: done"),
    (Ask::First(OWN, 3), "2: done"),
    (Ask::Call(OWN, None), "3: clause zz/1 3 at 2, more"),
    (Ask::Call(OWN, Some(2)), "3: clause zz/1 2 at 1"),
    (Ask::Call(OWN, Some(7)), "3: no clause"),
    (Ask::Inspect(OWN, Some(1)), "3: clause zz/1 1 at 0"),
    (Ask::Retract(OWN, Some(1)), "3: clause zz/1 1 at 0"),
    // ISO 8.9.3: the clause that was added first is erased, once.
    (Ask::Erase(0), "3: done"),
    (Ask::Erase(0), "4: gone"),
    (Ask::Call(OWN, Some(1)), "4: no clause"),
    (Ask::Clear(OWN, None), "4: clause zz/1 3 at 2, more"),
    // ISO 7.5.2: a procedure of a text is static.
    (Ask::Consult(Word::Chars, 5), "4: done"),
    (Ask::Call(Word::Chars, None), "5: clause chars/1 5 at 4"),
    (
        Ask::Last(Word::Chars, 6),
        "5: error permission_error/3 modify static_procedure //2 chars 1",
    ),
    (
        Ask::First(Word::Chars, 6),
        "5: error permission_error/3 modify static_procedure //2 chars 1",
    ),
    (
        Ask::Inspect(Word::Chars, None),
        "5: error permission_error/3 access private_procedure //2 chars 1",
    ),
    (
        Ask::Retract(Word::Chars, None),
        "5: error permission_error/3 modify static_procedure //2 chars 1",
    ),
    (
        Ask::Clear(Word::Chars, None),
        "5: error permission_error/3 modify static_procedure //2 chars 1",
    ),
    (
        Ask::Abolish(Word::Chars),
        "5: error permission_error/3 modify static_procedure //2 chars 1",
    ),
    (
        Ask::Dynamic(Word::Chars),
        "5: error permission_error/3 modify static_procedure //2 chars 1",
    ),
    // ISO 7.4.2.1: a procedure without clauses, which is there.
    (Ask::Dynamic(Word::Codes), "5: done"),
    (Ask::Call(Word::Codes, None), "6: no clause"),
    // ISO 8.8.2: the procedures with clauses.
    (Ask::Procedures, "6: 2 procedures"),
    // ISO 8.9.4: all clauses are gone, and the procedure.
    (Ask::Abolish(OWN), "6: done"),
    (
        Ask::Call(OWN, None),
        "7: error existence_error/2 procedure //2 zz 1",
    ),
    (Ask::Procedures, "7: 1 procedures"),
    // Cor.2 8.9.5: a procedure that is not there becomes dynamic.
    (Ask::Clear(OWN, None), "7: no clause"),
    (Ask::Call(OWN, None), "8: no clause"),
    (Ask::Inspect(OWN, None), "8: no clause"),
    // ISO 7.11.2.5, 8.17.
    (Ask::Look, "8: Codes, zz 0"),
    (Ask::PutFlag(Word::Quotes, Word::Chars), "8: done"),
    (Ask::Look, "9: Chars, zz 0"),
    (
        Ask::Call(Word::Fail, None),
        "9: error existence_error/2 procedure //2 fail 1",
    ),
    (Ask::PutFlag(Word::Unknown, Word::Fail), "9: done"),
    (Ask::Call(Word::Fail, None), "10: no clause"),
    (Ask::Flags, "10: 6 flags"),
    (
        Ask::AllOperators,
        "10: 45 operators, last 1150 Fx thread_local",
    ),
    // ISO 8.14.3.
    (Ask::PutOperator(700, Kind::Xfx, OWN), "10: done"),
    (Ask::Operators, "11: Chars, zz 700"),
    // ISO 8.14.4.
    (Ask::AllOperators, "11: 46 operators, last 700 Xfx zz"),
    (Ask::PutOperator(0, Kind::Xfx, OWN), "11: done"),
    (Ask::Operators, "12: Chars, zz 0"),
    (
        Ask::AllOperators,
        "12: 45 operators, last 1150 Fx thread_local",
    ),
    (
        Ask::PutOperator(1201, Kind::Xfx, OWN),
        "12: error domain_error/2 operator_priority 1201",
    ),
    (Ask::Atoms, "12: done"),
    (Ask::Clauses, "12: done"),
    (Ask::Erase(99), "12: gone"),
    (Ask::Last(OWN, 8), "12: done"),
    (Ask::Call(OWN, Some(8)), "13: clause zz/1 8 at 12"),
    (Ask::Erase(12), "13: done"),
    (Ask::Call(OWN, None), "14: no clause"),
    (Ask::Call(Word::Chars, Some(5)), "14: clause chars/1 5 at 4"),
];

/// Visits to queues and threads, of a command with three goals.
const THREADS: [(Ask, &str); 46] = [
    (Ask::Name, "0: named main"),
    (Ask::Queue(None), "0: named 4"),
    (Ask::Send(Called::Number(4), 1), "1: done"),
    (
        Ask::Get(Some(Called::Number(4)), Some(2)),
        "2: waits for queue 4",
    ),
    (Ask::Peek(Some(Called::Number(4)), Some(2)), "2: no message"),
    (
        Ask::Peek(Some(Called::Number(4)), None),
        "2: message zz/1 1",
    ),
    (Ask::Get(Some(Called::Number(4)), None), "2: message zz/1 1"),
    (Ask::Peek(Some(Called::Number(4)), None), "3: no message"),
    (Ask::Queue(Some(Word::Codes)), "3: named codes"),
    (
        Ask::Queue(Some(Word::Codes)),
        "4: error permission_error/3 create message_queue codes",
    ),
    (
        Ask::Queue(Some(Word::Main)),
        "4: error permission_error/3 create message_queue main",
    ),
    (Ask::Send(CODES, 5), "4: done"),
    (Ask::Send(CODES, 6), "5: done"),
    (Ask::Send(CODES, 5), "6: done"),
    (
        Ask::Get(Some(Called::Number(5)), Some(6)),
        "7: message zz/1 6",
    ),
    (Ask::Get(Some(CODES), None), "8: message zz/1 5"),
    (Ask::Get(Some(CODES), Some(6)), "9: waits for queue codes"),
    (Ask::Destroy(CODES), "9: done"),
    (
        Ask::Send(CODES, 1),
        "10: error existence_error/2 message_queue codes",
    ),
    (
        Ask::Get(Some(Called::Number(5)), None),
        "10: error existence_error/2 message_queue 5",
    ),
    (
        Ask::Destroy(MAIN),
        "10: error permission_error/3 destroy message_queue main",
    ),
    (
        Ask::Destroy(Called::Number(9)),
        "10: error existence_error/2 message_queue 9",
    ),
    // The engine's own queue.
    (Ask::Get(None, None), "10: waits for queue 1"),
    (Ask::Peek(None, None), "10: no message"),
    (Ask::Send(MAIN, 7), "10: done"),
    (Ask::Peek(None, None), "11: message zz/1 7"),
    (Ask::Get(None, Some(7)), "11: message zz/1 7"),
    (Ask::Get(None, Some(7)), "12: waits for queue 1"),
    (
        Ask::Join(MAIN),
        "12: error permission_error/3 join thread main",
    ),
    (
        Ask::Join(Called::Number(5)),
        "12: error existence_error/2 thread 5",
    ),
    // Threads begin.
    (Ask::Create(3, None), "12: named 6"),
    (Ask::Create(3, Some(Word::Chars)), "13: named chars"),
    (
        Ask::Create(3, Some(Word::Main)),
        "14: error permission_error/3 create thread main",
    ),
    (Ask::CreateWrong(8), "14: error zz/1 8"),
    (Ask::Join(Called::Number(6)), "14: waits for thread 6"),
    (
        Ask::Join(Called::Alias(Word::Chars)),
        "14: waits for thread chars",
    ),
    (Ask::Send(Called::Number(6), 6), "14: done"),
    (
        Ask::Peek(Some(Called::Number(6)), None),
        "15: message zz/1 6",
    ),
    (
        Ask::Destroy(Called::Number(6)),
        "15: error permission_error/3 destroy message_queue 6",
    ),
    (Ask::Goal(2), "15: done"),
    (Ask::Goal(3), "16: done"),
    (
        Ask::Goal(3),
        "17: error permission_error/3 create thread goal3",
    ),
    (Ask::Join(Called::Number(3)), "17: waits for thread 3"),
    (Ask::Atoms, "17: done"),
    (Ask::Procedures, "17: 0 procedures"),
    (Ask::Name, "17: named main"),
];

/// Calls of zz(i), or zz(X), that go through all their clauses, with a visit before each further one, and the numbers of the
/// clauses that they find. The clauses that are found are those of the call's generation (ISO 7.5.4).
const LISTS: [(Option<i64>, [Ask; 3], [i64; 3]); 7] = [
    (
        None,
        [Ask::Last(OWN, 1), Ask::Last(OWN, 2), Ask::Last(OWN, 3)],
        [0, 0, 0],
    ),
    (None, [Ask::Look, Ask::Look, Ask::Look], [1, 2, 3]),
    (Some(2), [Ask::Look, Ask::Look, Ask::Look], [2, 0, 0]),
    // A clause that is erased meanwhile is found still, and one that is added is not.
    (
        None,
        [Ask::Erase(1), Ask::Last(OWN, 4), Ask::Look],
        [1, 2, 3],
    ),
    (None, [Ask::Look, Ask::Look, Ask::Look], [1, 3, 4]),
    (
        None,
        [Ask::First(OWN, 9), Ask::Abolish(OWN), Ask::Look],
        [1, 3, 4],
    ),
    (None, [Ask::Look, Ask::Look, Ask::Look], [0, 0, 0]),
];

/// What the call finds. All visits are made.
fn list_of<K: Naming>(
    alloc: Global,
    shared: &mut Shared<K>,
    player: &mut Player<K>,
    i: Option<i64>,
    visits: [Ask; 3],
) -> Result<[i64; 3], Memory> {
    let mut found = [0; 3];
    let mut clause = player.call(alloc, shared, i);
    for k in 0..3 {
        if let Some(c) = clause {
            found[k] = c.number;
        }
        player.say(alloc, shared, visits[k])?;
        clause = player.retry(shared);
    }
    Ok(found)
}

/// What is said of the first visit whose answer is another, where one is.
pub fn wrong_row<K: Naming>(
    alloc: Global,
    shared: &mut Shared<K>,
    player: &mut Player<K>,
    rows: &[(Ask, &str)],
) -> Result<Option<String>, Memory> {
    let mut place: u64 = 0;
    for (visit, wanted) in rows {
        let came = player.say(alloc, shared, *visit)?;
        let wrong = another(alloc, place, came.as_str(), *wanted)?;
        if wrong.is_some() {
            return Ok(wrong);
        }
        place = place.saturating_add(1);
    }
    Ok(None)
}

/// The first list that is another.
pub fn wrong_list<K: Naming>(
    alloc: Global,
    shared: &mut Shared<K>,
    player: &mut Player<K>,
) -> Result<Option<String>, Memory> {
    for i in 0..LISTS.len() {
        let (key, visits, wanted) = LISTS[i];
        let found = list_of(alloc, shared, player, key, visits)?;
        if found != wanted {
            return Ok(Some(format!(in alloc; "{i}: {found:?}")?));
        }
    }
    Ok(None)
}

/// The first answer to a thread that begins that is another.
pub fn wrong_engine<K: Naming>(
    alloc: Global,
    shared: &mut Shared<K>,
    player: &mut Player<K>,
) -> Result<Option<String>, Memory> {
    for i in 0..64u64 {
        let came = player.say(alloc, shared, Ask::Create(i, None))?;
        let wanted = if i < 63 {
            format!(in alloc; "{i}: named {}", i + 4)?
        } else {
            String::from_str(alloc, "63: error resource_error/1 threads")?
        };
        if came.as_str() != wanted.as_str() {
            return Ok(Some(came));
        }
    }
    Ok(None)
}

#[test]
fn visits_are_answered(rt: HostRuntime) -> Result<(), Fail> {
    for part in [
        Part::Rows(&DATABASE),
        Part::Rows(&THREADS),
        Part::Lists,
        Part::Engines,
    ] {
        assert_eq!(rt; came(&rt, rt.alloc(), 1, 0, 3, part)?, None);
    }
    Ok(())
}
