//! Two engines over one shared state, each with a seat and a front of its own: messages, joins, and clauses that the one adds
//! and the other sees at its next call and not before (SWI-Prolog manual, section 'Multithreaded applications'; ISO 7.5.4).
ghost use Rattle.std.specs.Prelude.{◌≡◌, All};
ghost use Rattle.atom_table.specs.Opening.{FreshFrom};
ghost use Rattle.pl_history.specs.Fronts.{new_front};

use crate::asked::{Ask, Called, Word};
use crate::parts::{Part, came};
use crate::players::{Clause, Player, next_player};
use crate::shared_visits::wrong_row;
use crate::told::another;
use atom_table::{AtomSeat, AtomTable};
use pl_history::{Front, History};
use pl_hub::{Naming, Shared};
use pl_model::operators::Kind;
use pl_term::Memory;
use std::alloc::Global;
use std::test::Fail;

const OWN: Word = Word::Own;

const CODES: Called = Called::Alias(Word::Codes);

const MAIN: Called = Called::Alias(Word::Main);

/// Engine 1 starts the other one, whose number is 4.
const CREATES: [(Ask, &str); 1] = [(Ask::Create(8, None), "0: named 4")];

/// Visits of engine 1, and of the other one.
const VISITS: [(bool, Ask, &str); 30] = [
    (true, Ask::Name, "1: named main"),
    (false, Ask::Name, "1: named 4"),
    // A message goes from the one to the other, which waits for it.
    (false, Ask::Get(None, None), "1: waits for queue 4"),
    (true, Ask::Send(Called::Number(4), 5), "1: done"),
    (false, Ask::Get(None, None), "2: message zz/1 5"),
    (false, Ask::Get(None, None), "3: waits for queue 4"),
    (false, Ask::Send(MAIN, 7), "3: done"),
    (true, Ask::Get(None, Some(7)), "4: message zz/1 7"),
    // A message is taken once.
    (true, Ask::Queue(Some(Word::Codes)), "5: named codes"),
    (true, Ask::Send(CODES, 1), "6: done"),
    (false, Ask::Peek(Some(CODES), None), "7: message zz/1 1"),
    (true, Ask::Peek(Some(CODES), None), "7: message zz/1 1"),
    (false, Ask::Get(Some(CODES), None), "7: message zz/1 1"),
    (
        true,
        Ask::Get(Some(CODES), None),
        "8: waits for queue codes",
    ),
    // Clauses that the one adds and erases are added and erased for the other.
    (
        false,
        Ask::Call(OWN, None),
        "8: error existence_error/2 procedure //2 zz 1",
    ),
    (true, Ask::Last(OWN, 1), "8: done"),
    (false, Ask::Call(OWN, None), "9: clause zz/1 1 at 8"),
    (false, Ask::Last(OWN, 2), "9: done"),
    (true, Ask::Call(OWN, None), "10: clause zz/1 1 at 8, more"),
    (true, Ask::Erase(8), "10: done"),
    (false, Ask::Erase(8), "11: gone"),
    (false, Ask::Call(OWN, None), "11: clause zz/1 2 at 9"),
    // Flags and operators are those of all.
    (true, Ask::PutOperator(700, Kind::Xfx, OWN), "11: done"),
    (false, Ask::Look, "12: Codes, zz 700"),
    // Each waits for the other's end, and none for its own.
    (true, Ask::Join(Called::Number(4)), "12: waits for thread 4"),
    (false, Ask::Join(MAIN), "12: waits for thread main"),
    (
        false,
        Ask::Join(Called::Number(4)),
        "12: error permission_error/3 join thread 4",
    ),
    (
        true,
        Ask::Join(MAIN),
        "12: error permission_error/3 join thread main",
    ),
    (true, Ask::Send(Called::Number(4), 9), "12: done"),
    (false, Ask::Last(OWN, 3), "13: done"),
];

/// Visits of engine 1 after the other one has ended.
const AFTER: [(Ask, &str); 8] = [
    (
        Ask::Send(Called::Number(4), 1),
        "17: error existence_error/2 message_queue 4",
    ),
    (Ask::Call(OWN, Some(3)), "17: no clause"),
    (Ask::Call(OWN, Some(4)), "17: clause zz/1 4 at 15"),
    (Ask::Join(Called::Number(4)), "17: status exited/1 zz/1 6"),
    (
        Ask::Join(Called::Number(4)),
        "18: error existence_error/2 thread 4",
    ),
    (Ask::Create(3, None), "18: named 6"),
    (Ask::Call(OWN, None), "19: clause zz/1 2 at 9, more"),
    (Ask::Name, "19: named main"),
];

/// What is said of the first visit whose answer is another, where one is.
fn wrong_visit<K: Naming>(
    alloc: Global,
    shared: &mut Shared<K>,
    main: &mut Player<K>,
    other: &mut Player<K>,
) -> Result<Option<String>, Memory> {
    let mut place: u64 = 0;
    for (by_main, visit, wanted) in &VISITS {
        let came = if *by_main {
            main.say(alloc, shared, *visit)?
        } else {
            other.say(alloc, shared, *visit)?
        };
        let wrong = another(alloc, place, came.as_str(), *wanted)?;
        if wrong.is_some() {
            return Ok(wrong);
        }
        place = place.saturating_add(1);
    }
    Ok(None)
}

/// The clause as a text.
fn clause_text(alloc: Global, found: Option<Clause>) -> Result<String, Memory> {
    match found {
        None => Ok(String::from_str(alloc, "none")?),
        Some(c) => {
            let more = if c.more { ", more" } else { "" };
            Ok(format!(in alloc; "{} at {}{more}", c.number, c.place)?)
        }
    }
}

/// What is said of the list of the other engine, where it is another. It goes through the clauses 2 and 3. Between them engine 1
/// erases the clause 3 and adds the clause 4: the list is that of its call, and its next calls find no clause 3, and the clause 4.
fn wrong_generation<K: Naming>(
    alloc: Global,
    shared: &mut Shared<K>,
    main: &mut Player<K>,
    other: &mut Player<K>,
) -> Result<Option<String>, Memory> {
    let first = clause_text(alloc, other.call(alloc, shared, None))?;
    main.say(alloc, shared, Ask::Erase(13))?;
    main.say(alloc, shared, Ask::Last(OWN, 4))?;
    let rest = rest_of_list(alloc, shared, other)?;
    let found = format!(in alloc; "{} | {}", first.as_str(), rest.as_str())?;
    let wanted = "2 at 9, more | 3 at 13 | none | none | 4 at 15";
    another(alloc, 30, found.as_str(), wanted)
}

/// The next two clauses of its list, and the first ones for the numbers 3 and 4.
fn rest_of_list<K: Naming>(
    alloc: Global,
    shared: &mut Shared<K>,
    other: &mut Player<K>,
) -> Result<String, Memory> {
    let second = clause_text(alloc, other.retry(shared))?;
    let third = clause_text(alloc, other.retry(shared))?;
    let erased = clause_text(alloc, other.call(alloc, shared, Some(3)))?;
    let added = clause_text(alloc, other.call(alloc, shared, Some(4)))?;
    Ok(format!(in alloc;
        "{} | {} | {} | {}",
        second.as_str(),
        third.as_str(),
        erased.as_str(),
        added.as_str()
    )?)
}

/// What is another, where something is, as both make their visits, and engine 1 alone after the other one has ended.
fn wrong_of_both<K: Naming>(
    alloc: Global,
    shared: &mut Shared<K>,
    main: &mut Player<K>,
    mut other: Player<K>,
) -> Result<Option<String>, Memory> {
    let wrong = wrong_visit(alloc, shared, main, &mut other)?;
    if wrong.is_some() {
        return Ok(wrong);
    }
    let wrong = wrong_generation(alloc, shared, main, &mut other)?;
    if wrong.is_some() {
        return Ok(wrong);
    }
    other.exit(alloc, shared, 6)?;
    wrong_row(alloc, shared, main, &AFTER)
}

/// The second engine begins, and both make their visits.
pub fn two_engines<'a, K: Naming>(
    alloc: Global,
    table: &'a AtomTable,
    mut seats: Vec<AtomSeat>,
    history: &'a History,
    mut fronts: Vec<Front>,
    mut shared: Shared<K>,
    mut main: Player<'a, K>,
) -> Result<Option<String>, Memory>
    requires named { (table.now.words.table.shared.table_id ≡ K.atoms) × (table.now.words.size ≡ K.size) }
    requires history { history.now ≡ K.history }
    requires seats { FreshFrom table.now.words 1 seats.items }
    requires fronts { All (λ f. f ≡ new_front history.now) fronts.items }
{
    let wrong = wrong_row(alloc, &mut shared, &mut main, &CREATES)?;
    if wrong.is_some() {
        return Ok(wrong);
    }
    let (other, goal) = next_player(alloc, table, &mut seats, history, &mut fronts, &mut shared)?;
    let told = format!(in alloc; "engine {} for {goal}", other.engine())?;
    let wrong = another(alloc, 1, told.as_str(), "engine 4 for 8")?;
    if wrong.is_some() {
        return Ok(wrong);
    }
    let wrong = wrong_of_both(alloc, &mut shared, &mut main, other)?;
    main.succeed(&mut shared)?;
    Ok(wrong)
}

#[test]
fn two_engines_share_a_state(rt: HostRuntime) -> Result<(), Fail> {
    assert_eq!(rt; came(&rt, rt.alloc(), 2, 0, 3, Part::Two)?, None);
    Ok(())
}
