//! The public calls on threads and queues with ample memory, with flat terms as messages: tables of calls with their
//! answers, and random calls beside a program on plain lists.
use crate::plain_queues::{Answer, Called, Plain};
use crate::told::another;
use hub_threads::{Name, QueueFault, Queues, Status};
use pl_term::{Flat, Memory, Node, Text};
use std::alloc::{AllocError, Global};
use std::test::Fail;

/// The spellings of aliases.
const ALIASES: [&str; 6] = ["main", "a", "b", "c", "goal2", "gc"];

/// A call, with numbers as messages: the number i for the term m(i).
#[derive(Debug, Clone, Copy)]
enum Call {
    Make(u64, Option<usize>),
    Discard(Called),
    Send(Called, i64),
    /// A message that unifies with m(i), or with m(X) where there is no number.
    Take(Called, Option<i64>),
    Peek(Called, Option<i64>),
    Start(u64, i64, Option<usize>),
    Goal(u64),
    End(u64, &'static str, i64),
    Join(Called),
}

/// The term m(i), or m(X) where there is no number.
fn message(alloc: Global, i: Option<i64>) -> Result<Flat, Memory> {
    let name = Text::from_str(alloc, "m")?;
    let argument = match i {
        Some(i) => Flat::int(alloc, i)?,
        None => Flat::var(alloc, 0)?,
    };
    Flat::comp(alloc, &name, &[argument])
}

/// The number i of the term m(i).
fn number(m: &Flat) -> i64 {
    match m.nodes() {
        [_, Node::Int(i)] => *i,
        _ => -1,
    }
}

fn spelling(alloc: Global, alias: Option<usize>) -> Result<Option<Text>, Memory> {
    match alias {
        Some(a) => Ok(Some(Text::from_str(alloc, ALIASES[a % 6])?)),
        None => Ok(None),
    }
}

fn name(alloc: Global, called: Called) -> Result<Name, Memory> {
    match called {
        Called::Number(n) => Ok(Name::Number(n)),
        Called::Alias(a) => Ok(Name::Alias(Text::from_str(alloc, ALIASES[a % 6])?)),
    }
}

fn status(alloc: Global, how: &str, i: i64) -> Result<Status<Flat>, Memory> {
    match how {
        "true" => Ok(Status::Succeeded),
        "false" => Ok(Status::Failed),
        "exited" => Ok(Status::Exited(message(alloc, Some(i))?)),
        "exception" => Ok(Status::Exception(message(alloc, Some(i))?)),
        "halted" => Ok(Status::Halted(u8::try_from(i).unwrap_or(0))),
        _ => Ok(Status::AtomSpace),
    }
}

fn ended(status: &Status<Flat>) -> Answer {
    match status {
        Status::Succeeded => Answer::Ended("true", 0),
        Status::Failed => Answer::Ended("false", 0),
        Status::Exited(t) => Answer::Ended("exited", number(t)),
        Status::Exception(t) => Answer::Ended("exception", number(t)),
        Status::Halted(i) => Answer::Ended("halted", i64::from(*i)),
        Status::AtomSpace => Answer::Ended("atoms", 0),
    }
}

fn left(alloc: Global, messages: &[Flat]) -> Result<Answer, Memory> {
    let mut all = Vec::new(alloc);
    for m in messages {
        all.push(number(m))?;
    }
    Ok(Answer::Left(all))
}

/// The refusal of a call that handed back what it was given, the number i.
fn handed_back(back: &Flat, i: i64, fault: QueueFault) -> Answer {
    if number(back) == i {
        Answer::Refused(fault)
    } else {
        Answer::Nothing
    }
}

fn send(
    alloc: Global,
    queues: &mut Queues<Flat>,
    to: Called,
    i: i64,
    place: u64,
) -> Result<Answer, Memory> {
    let to = name(alloc, to)?;
    let m = message(alloc, Some(i))?;
    if !queues.is_new_place(place) {
        return Ok(Answer::NotNew);
    }
    match queues.send(&to, m, place) {
        Ok(()) => Ok(Answer::Done),
        Err((back, fault)) => Ok(handed_back(&back, i, fault)),
    }
}

fn make(
    alloc: Global,
    queues: &mut Queues<Flat>,
    n: u64,
    alias: Option<usize>,
) -> Result<Answer, Memory> {
    let alias = spelling(alloc, alias)?;
    if !queues.is_new(n) {
        return Ok(Answer::NotNew);
    }
    match queues.make_queue(n, alias) {
        Ok(()) => Ok(Answer::Done),
        Err(fault) => Ok(Answer::Refused(fault)),
    }
}

fn start(
    alloc: Global,
    queues: &mut Queues<Flat>,
    n: u64,
    i: i64,
    alias: Option<usize>,
) -> Result<Answer, Memory> {
    let alias = spelling(alloc, alias)?;
    let goal = message(alloc, Some(i))?;
    if !queues.is_new(n) {
        return Ok(Answer::NotNew);
    }
    match queues.start(n, goal, alias) {
        Ok(()) => Ok(Answer::Done),
        Err((back, fault)) => Ok(handed_back(&back, i, fault)),
    }
}

fn find(
    alloc: Global,
    queues: &mut Queues<Flat>,
    q: Called,
    pattern: Option<i64>,
    takes: bool,
) -> Result<Answer, Memory> {
    let q = name(alloc, q)?;
    let pattern = message(alloc, pattern)?;
    if !takes {
        return match queues.peek(&q, &pattern) {
            Ok(Some((place, m))) => Ok(Answer::Found(place, number(m))),
            Ok(None) => Ok(Answer::Nothing),
            Err(fault) => Ok(Answer::Refused(fault)),
        };
    }
    match queues.take(&q, &pattern) {
        Ok(Some((place, m))) => Ok(Answer::Found(place, number(&m))),
        Ok(None) => Ok(Answer::Nothing),
        Err(fault) => Ok(Answer::Refused(fault)),
    }
}

fn end(
    alloc: Global,
    queues: &mut Queues<Flat>,
    n: u64,
    how: &str,
    i: i64,
) -> Result<Answer, Memory> {
    match queues.end(n, status(alloc, how, i)?) {
        Ok(messages) => left(alloc, messages.as_slice()),
        Err((_, fault)) => Ok(Answer::Refused(fault)),
    }
}

fn answer(
    alloc: Global,
    queues: &mut Queues<Flat>,
    call: Call,
    place: u64,
) -> Result<Answer, Memory> {
    match call {
        Call::Make(n, alias) => make(alloc, queues, n, alias),
        Call::Discard(q) => match queues.drop_queue(&name(alloc, q)?) {
            Ok(messages) => left(alloc, messages.as_slice()),
            Err(fault) => Ok(Answer::Refused(fault)),
        },
        Call::Send(q, i) => send(alloc, queues, q, i, place),
        Call::Take(q, pattern) => find(alloc, queues, q, pattern, true),
        Call::Peek(q, pattern) => find(alloc, queues, q, pattern, false),
        Call::Start(n, i, alias) => start(alloc, queues, n, i, alias),
        Call::Goal(n) => match queues.take_goal(n) {
            Some(goal) => Ok(Answer::Goal(number(&goal))),
            None => Ok(Answer::Nothing),
        },
        Call::End(n, how, i) => end(alloc, queues, n, how, i),
        Call::Join(t) => match queues.join(&name(alloc, t)?) {
            Ok(Some(status)) => Ok(ended(&status)),
            Ok(None) => Ok(Answer::Nothing),
            Err(fault) => Ok(Answer::Refused(fault)),
        },
    }
}

fn plain_answer(plain: &mut Plain, call: Call, place: u64) -> Result<Answer, AllocError> {
    match call {
        Call::Make(n, alias) if plain.is_new(n) => Ok(plain.make_queue(n, alias)),
        Call::Make(_, _) => Ok(Answer::NotNew),
        Call::Discard(q) => plain.drop_queue(q),
        Call::Send(q, i) if plain.is_new_place(place) => plain.send(q, i, place),
        Call::Send(_, _) => Ok(Answer::NotNew),
        Call::Take(q, pattern) => Ok(plain.take(q, pattern)),
        Call::Peek(q, pattern) => Ok(plain.peek(q, pattern)),
        Call::Start(n, i, alias) if plain.is_new(n) => Ok(plain.start(n, i, alias)),
        Call::Start(_, _, _) => Ok(Answer::NotNew),
        Call::Goal(n) => Ok(plain.take_goal(n)),
        Call::End(n, how, i) => plain.end(n, how, i),
        Call::Join(t) => Ok(plain.join(t)),
    }
}

const MAIN: Called = Called::Alias(0);

const A: Called = Called::Alias(1);

/// Calls with their answers, each with its place in the table as the place of the update. A new state stands before each
/// table.
const MESSAGES: [(Call, &str); 24] = [
    (Call::Make(2, None), "Done"),
    (Call::Send(Called::Number(2), 1), "Done"),
    (Call::Take(Called::Number(2), Some(2)), "Nothing"),
    (Call::Take(Called::Number(2), None), "Found(1, 1)"),
    (Call::Take(Called::Number(2), None), "Nothing"),
    (Call::Make(3, Some(1)), "Done"),
    (Call::Send(A, 1), "Done"),
    (Call::Peek(A, None), "Found(6, 1)"),
    (Call::Peek(Called::Number(3), Some(1)), "Found(6, 1)"),
    (Call::Discard(A), "Left([1])"),
    (Call::Send(A, 1), "Refused(NoQueue)"),
    (Call::Send(Called::Number(3), 1), "Refused(NoQueue)"),
    (Call::Peek(A, None), "Refused(NoQueue)"),
    (Call::Take(A, None), "Refused(NoQueue)"),
    (Call::Discard(A), "Refused(NoQueue)"),
    (Call::Discard(MAIN), "Refused(OwnQueue)"),
    (Call::Make(4, Some(1)), "Done"),
    (Call::Send(A, 5), "Done"),
    (Call::Send(A, 6), "Done"),
    (Call::Send(A, 5), "Done"),
    (Call::Take(Called::Number(4), Some(6)), "Found(18, 6)"),
    (Call::Take(A, Some(5)), "Found(17, 5)"),
    (Call::Send(MAIN, 7), "Done"),
    (Call::Take(Called::Number(1), None), "Found(22, 7)"),
];

const THREADS: [(Call, &str); 24] = [
    (Call::Start(2, 7, Some(1)), "Done"),
    (Call::Goal(2), "Goal(7)"),
    (Call::Goal(2), "Nothing"),
    (Call::Goal(1), "Nothing"),
    (Call::Start(3, 1, Some(1)), "Refused(AliasTaken)"),
    (Call::Make(3, Some(1)), "Refused(AliasTaken)"),
    (Call::Make(3, Some(0)), "Refused(AliasTaken)"),
    (Call::Join(A), "Nothing"),
    (Call::Join(Called::Number(9)), "Refused(NoThread)"),
    (Call::Send(A, 4), "Done"),
    (Call::Discard(Called::Number(2)), "Refused(OwnQueue)"),
    (Call::End(9, "true", 0), "Refused(NoThread)"),
    (Call::End(2, "exited", 3), "Left([4])"),
    (Call::End(2, "true", 0), "Refused(NoThread)"),
    (Call::Send(A, 1), "Refused(NoQueue)"),
    (Call::Take(Called::Number(2), None), "Refused(NoQueue)"),
    (Call::Make(3, Some(1)), "Refused(AliasTaken)"),
    (Call::Join(A), "Ended(\"exited\", 3)"),
    (Call::Join(A), "Refused(NoThread)"),
    (Call::Join(Called::Number(2)), "Refused(Joined)"),
    (Call::Make(3, Some(1)), "Done"),
    (Call::Join(A), "Refused(NoThread)"),
    (Call::Join(Called::Number(3)), "Refused(NoThread)"),
    (Call::Join(MAIN), "Nothing"),
];

/// What is said of the first call in the table that is answered otherwise, where one is. Each call has its place as the place of
/// the update.
fn wrong_answer(
    alloc: Global,
    queues: &mut Queues<Flat>,
    table: &[(Call, &str)],
) -> Result<Option<String>, Memory> {
    let mut place: u64 = 0;
    for (call, wanted) in table {
        let came = format!(in alloc; "{:?}", answer(alloc, queues, *call, place)?)?;
        let wrong = another(alloc, place, came.as_str(), *wanted)?;
        if wrong.is_some() {
            return Ok(wrong);
        }
        place = place.saturating_add(1);
    }
    Ok(None)
}

/// The same over a new state.
fn wrong_of(alloc: Global, table: &[(Call, &str)]) -> Result<Option<String>, Memory> {
    let mut queues = Queues::new(alloc)?;
    wrong_answer(alloc, &mut queues, table)
}

#[test]
fn calls_answer_as_the_tables_say(rt: HostRuntime) -> Result<(), Fail> {
    assert_eq!(rt; wrong_of(rt.alloc(), &MESSAGES)?, None);
    assert_eq!(rt; wrong_of(rt.alloc(), &THREADS)?, None);
    Ok(())
}

/// A queue for each alias but the first, whose updates have no place of their own, so that all are in use.
const ALL: [(Call, &str); 5] = [
    (Call::Make(2, Some(1)), "Done"),
    (Call::Make(3, Some(2)), "Done"),
    (Call::Make(4, Some(3)), "Done"),
    (Call::Make(5, Some(4)), "Done"),
    (Call::Make(6, Some(5)), "Done"),
];

/// Each alias is refused to a queue and to a thread, until it is given back.
const TAKEN: [(Call, &str); 14] = [
    (Call::Make(20, Some(0)), "Refused(AliasTaken)"),
    (Call::Start(20, 1, Some(0)), "Refused(AliasTaken)"),
    (Call::Make(20, Some(1)), "Refused(AliasTaken)"),
    (Call::Start(20, 1, Some(1)), "Refused(AliasTaken)"),
    (Call::Make(20, Some(2)), "Refused(AliasTaken)"),
    (Call::Start(20, 1, Some(2)), "Refused(AliasTaken)"),
    (Call::Make(20, Some(3)), "Refused(AliasTaken)"),
    (Call::Start(20, 1, Some(3)), "Refused(AliasTaken)"),
    (Call::Make(20, Some(4)), "Refused(AliasTaken)"),
    (Call::Start(20, 1, Some(4)), "Refused(AliasTaken)"),
    (Call::Make(20, Some(5)), "Refused(AliasTaken)"),
    (Call::Start(20, 1, Some(5)), "Refused(AliasTaken)"),
    (Call::Discard(Called::Alias(3)), "Left([])"),
    (Call::Start(20, 1, Some(3)), "Done"),
];

#[test]
fn every_alias_is_given_once(rt: HostRuntime) -> Result<(), Fail> {
    let mut queues = Queues::new(rt.alloc())?;
    assert_eq!(rt; wrong_answer(rt.alloc(), &mut queues, &ALL)?, None);
    assert_eq!(rt; wrong_answer(rt.alloc(), &mut queues, &TAKEN)?, None);
    assert_eq!(rt;
        queues.number_of(&name(rt.alloc(), Called::Alias(3))?),
        Some(20)
    );
    assert!(rt; matches!(queues.alias_of(20), Some(a) if a.is("c") && queues.is_alias(a)));
    Ok(())
}

/// What is said of the first of the threads 2 to 64 that does not begin, where one does not.
fn wrong_start(alloc: Global, queues: &mut Queues<Flat>) -> Result<Option<String>, Memory> {
    for n in 2..65u64 {
        let came = format!(in alloc; "{:?}", answer(alloc, queues, Call::Start(n, 1, None), 0)?)?;
        let wrong = another(alloc, n, came.as_str(), "Done")?;
        if wrong.is_some() {
            return Ok(wrong);
        }
    }
    Ok(None)
}

/// Calls where 64 engines run.
const MANY: [(Call, &str); 5] = [
    (Call::Start(65, 1, None), "Refused(EnginesFull)"),
    (Call::Start(65, 1, Some(0)), "Refused(AliasTaken)"),
    (Call::End(40, "true", 0), "Left([])"),
    (Call::Start(65, 1, None), "Done"),
    (Call::Start(66, 1, None), "Refused(EnginesFull)"),
];

#[test]
fn sixty_four_engines_run(rt: HostRuntime) -> Result<(), Fail> {
    let mut queues = Queues::new(rt.alloc())?;
    assert_eq!(rt; wrong_start(rt.alloc(), &mut queues)?, None);
    assert_eq!(rt; wrong_answer(rt.alloc(), &mut queues, &MANY)?, None);
    Ok(())
}

fn next_random(x: u64) -> u64 {
    x.wrapping_mul(6364136223846793005)
        .wrapping_add(1442695040888963407)
}

/// A call by the bits of a random number. Threads begin more often than they end.
fn random_call(random: u64) -> Call {
    let n = random / 256 % 80 + 1;
    let i = (random / 32768 % 4) as i64;
    let a = (random / 262144 % 9) as usize;
    let called = if a < 6 {
        Called::Alias(a)
    } else {
        Called::Number(n)
    };
    let alias = if a < 6 { Some(a) } else { None };
    let pattern = if i < 3 { Some(i) } else { None };
    match random % 16 {
        0 | 1 => Call::Make(n, alias),
        2 => Call::Discard(called),
        3 | 4 | 5 => Call::Send(called, i),
        6 => Call::Take(called, pattern),
        7 => Call::Peek(called, pattern),
        8 | 9 | 10 => Call::Start(n, i, alias),
        11 => Call::Goal(n),
        12 => Call::End(n, "exited", i),
        13 => Call::End(n, "halted", i),
        _ => Call::Join(called),
    }
}

/// What is said of the first of so many random calls that the program on plain lists answers otherwise.
fn other_answer(alloc: Global, calls: u64) -> Result<Option<String>, Memory> {
    let mut queues = Queues::new(alloc)?;
    let mut plain = Plain::new(alloc)?;
    let mut random: u64 = 1;
    for i in 0..calls {
        random = next_random(random);
        let place = if i % 8 == 0 { random / 65536 % 4000 } else { i };
        let call = random_call(random / 65536);
        let came = answer(alloc, &mut queues, call, place)?;
        let wanted = plain_answer(&mut plain, call, place)?;
        if came != wanted {
            let told = format!(in alloc; "at {i}: {call:?}: {came:?}, not {wanted:?}")?;
            return Ok(Some(told));
        }
    }
    Ok(None)
}

#[test]
fn a_program_on_plain_lists_answers_the_same(rt: HostRuntime) -> Result<(), Fail> {
    assert_eq!(rt; other_answer(rt.alloc(), 4000)?, None);
    Ok(())
}
