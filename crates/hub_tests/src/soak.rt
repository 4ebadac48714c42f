//! Eight threads make visits through one shared state behind a lock, each for an engine of its own. Beside the state lies the
//! same on plain lists, and each answer is compared with what those answer after all updates so far.
ghost use Rattle.std.specs.Prelude.{◌≡◌, All};
ghost use Rattle.atom_table.specs.Opening.{FreshFrom};
ghost use Rattle.pl_history.specs.Fronts.{new_front};

use crate::asked::{Ask, Called, Word};
use crate::parts::{Part, came};
use crate::plain_state::{List, PlainState};
use crate::players::{Player, next_player};
use atom_table::{AtomSeat, AtomTable};
use pl_history::{Front, History};
use pl_hub::{Naming, Shared};
use pl_term::Memory;
use std::alloc::Global;
use std::process::Abort;
use std::sync::{Mutex, Wait};
use std::test::Fail;
use std::thread;
use std::thread::Threads;

const ENGINES: u32 = 8;

/// How many visits each engine makes.
const TURNS: u32 = 1250;

/// How often all of it is done, each time with other visits.
const SEEDS: u64 = 1;

const OWN: Word = Word::Own;

const CODES: Called = Called::Alias(Word::Codes);

/// What lies under the lock.
#[derive(Drop)]
struct Desk<K: Naming> {
    shared: Shared<K>,
    plain: PlainState,
}

/// An engine with its list of clauses, and how many answers were others than those of the plain lists, or out of memory.
#[derive(Drop)]
struct Worker<'a, K: Naming> {
    player: Player<'a, K>,
    list: List,
    random: u64,
    wrong: u64,
}

fn next_random(x: u64) -> u64 {
    x.wrapping_mul(6364136223846793005)
        .wrapping_add(1442695040888963407)
}

/// Whether the visit is answered so, after the updates so far.
fn says<K: Naming>(
    alloc: Global,
    desk: &mut Desk<K>,
    worker: &mut Worker<K>,
    visit: Ask,
    wanted: &str,
) -> Result<bool, Memory> {
    let came = worker.player.say(alloc, &mut desk.shared, visit)?;
    let wanted = format!(in alloc; "{}: {wanted}", desk.plain.length())?;
    Ok(came.as_str() == wanted.as_str())
}

fn add<K: Naming>(
    alloc: Global,
    desk: &mut Desk<K>,
    worker: &mut Worker<K>,
    i: u64,
    is_first: bool,
) -> Result<bool, Memory> {
    let visit = if is_first {
        Ask::First(OWN, i)
    } else {
        Ask::Last(OWN, i)
    };
    let same = says(alloc, desk, worker, visit, "done")?;
    desk.plain.add((i % 8) as i64, is_first)?;
    Ok(same)
}

fn erase<K: Naming>(
    alloc: Global,
    desk: &mut Desk<K>,
    worker: &mut Worker<K>,
    place: u64,
) -> Result<bool, Memory> {
    let wanted = if desk.plain.has(place) {
        "done"
    } else {
        "gone"
    };
    let same = says(alloc, desk, worker, Ask::Erase(place), wanted)?;
    desk.plain.erase(place);
    Ok(same)
}

fn call<K: Naming>(
    alloc: Global,
    desk: &mut Desk<K>,
    worker: &mut Worker<K>,
    key: Option<i64>,
) -> bool {
    let came = worker.player.call(alloc, &mut desk.shared, key);
    let same = came == desk.plain.call(&mut worker.list, key);
    same && is_of_its_generation(worker)
}

fn retry<K: Naming>(desk: &mut Desk<K>, worker: &mut Worker<K>) -> bool {
    let came = worker.player.retry(&mut desk.shared);
    let same = came == desk.plain.retry(&mut worker.list);
    same && is_of_its_generation(worker)
}

/// Whether the list of clauses that is open is one of the state in which it was opened.
fn is_of_its_generation<K: Naming>(worker: &Worker<K>) -> bool {
    match worker.list.place() {
        None => true,
        Some(_) => worker.player.generation() == worker.list.generation(),
    }
}

fn send<K: Naming>(
    alloc: Global,
    desk: &mut Desk<K>,
    worker: &mut Worker<K>,
    i: u64,
) -> Result<bool, Memory> {
    let same = says(alloc, desk, worker, Ask::Send(CODES, i), "done")?;
    desk.plain.send(i)?;
    Ok(same)
}

fn get<K: Naming>(
    alloc: Global,
    desk: &mut Desk<K>,
    worker: &mut Worker<K>,
    pattern: Option<u64>,
) -> Result<bool, Memory> {
    let visit = Ask::Get(Some(CODES), pattern);
    match desk.plain.peek(pattern) {
        None => says(alloc, desk, worker, visit, "waits for queue codes"),
        Some(i) => {
            let wanted = format!(in alloc; "message zz/1 {i}")?;
            let same = says(alloc, desk, worker, visit, wanted.as_str())?;
            desk.plain.get(pattern);
            Ok(same)
        }
    }
}

fn peek<K: Naming>(
    alloc: Global,
    desk: &mut Desk<K>,
    worker: &mut Worker<K>,
    pattern: Option<u64>,
) -> Result<bool, Memory> {
    let visit = Ask::Peek(Some(CODES), pattern);
    match desk.plain.peek(pattern) {
        None => says(alloc, desk, worker, visit, "no message"),
        Some(i) => {
            let wanted = format!(in alloc; "message zz/1 {i}")?;
            says(alloc, desk, worker, visit, wanted.as_str())
        }
    }
}

/// Whether a visit, by the bits of a random number, is answered as the plain lists answer it.
fn turn<K: Naming>(
    alloc: Global,
    desk: &mut Desk<K>,
    worker: &mut Worker<K>,
    random: u64,
) -> Result<bool, Memory> {
    let i = random / 4096 % 8;
    let pattern = if random / 65536 % 2 == 0 {
        Some(i)
    } else {
        None
    };
    match random % 32 {
        0 => add(alloc, desk, worker, i, true),
        1 => add(alloc, desk, worker, i, false),
        2 | 3 | 4 => match worker.list.place() {
            None => says(alloc, desk, worker, Ask::Look, "Codes, zz 0"),
            Some(place) => erase(alloc, desk, worker, place),
        },
        5..=10 => Ok(call(alloc, desk, worker, key_of(pattern))),
        11..=18 => Ok(retry(desk, worker)),
        19..=22 => send(alloc, desk, worker, i),
        23..=26 => get(alloc, desk, worker, pattern),
        27 | 28 => peek(alloc, desk, worker, pattern),
        29 => says(alloc, desk, worker, Ask::Operators, "Codes, zz 0"),
        30 => lists(alloc, desk, worker, i),
        _ => says(alloc, desk, worker, Ask::Atoms, "done"),
    }
}

/// A visit that lists the operators, with atoms as their names, or the flags.
fn lists<K: Naming>(
    alloc: Global,
    desk: &mut Desk<K>,
    worker: &mut Worker<K>,
    i: u64,
) -> Result<bool, Memory> {
    if i == 0 {
        let wanted = "45 operators, last 1150 Fx thread_local";
        return says(alloc, desk, worker, Ask::AllOperators, wanted);
    }
    says(alloc, desk, worker, Ask::Flags, "6 flags")
}

fn key_of(pattern: Option<u64>) -> Option<i64> {
    match pattern {
        None => None,
        Some(i) => Some((i % 8) as i64),
    }
}

fn work<'a, K: Naming, R: Wait>(
    rt: &R,
    alloc: Global,
    lock: &Mutex<Desk<K>>,
    mut worker: Worker<'a, K>,
) -> Worker<'a, K> {
    for _ in 0..TURNS {
        worker.random = next_random(worker.random);
        let random = worker.random / 65536;
        let mut desk = lock.lock(rt);
        let same = turn(alloc, &mut *desk, &mut worker, random);
        drop(desk);
        match same {
            Ok(true) => {}
            _ => worker.wrong = worker.wrong.saturating_add(1),
        }
    }
    worker
}

/// Engine 1 and seven others, with a seat and a front each.
fn begin_all<'a, K: Naming>(
    alloc: Global,
    seed: u64,
    table: &'a AtomTable,
    mut seats: Vec<AtomSeat>,
    history: &'a History,
    mut fronts: Vec<Front>,
    desk: &mut Desk<K>,
    main: Player<'a, K>,
) -> Result<Vec<Worker<'a, K>>, Memory>
    requires named { (table.now.words.table.shared.table_id ≡ K.atoms) × (table.now.words.size ≡ K.size) }
    requires history { history.now ≡ K.history }
    requires seats { FreshFrom table.now.words 1 seats.items }
    requires fronts { All (λ f. f ≡ new_front history.now) fronts.items }
{
    let mut workers = Vec::new(alloc);
    let mut main = main;
    for i in 1..ENGINES {
        main.say(alloc, &mut desk.shared, Ask::Create(0, None))?;
        desk.plain.update();
        let (player, _) = next_player(
            alloc,
            table,
            &mut seats,
            history,
            &mut fronts,
            &mut desk.shared,
        )?;
        workers.push(worker_of(player, seed.wrapping_mul(8).wrapping_add(i as u64)))?;
    }
    workers.push(worker_of(main, seed.wrapping_mul(8)))?;
    Ok(workers)
}

fn worker_of<'a, K: Naming>(player: Player<'a, K>, random: u64) -> Worker<'a, K> {
    Worker {
        player,
        list: List::new(),
        random,
        wrong: 0,
    }
}

/// No answer was wrong, and what is left is what the plain lists have left, as each engine is told.
fn settle<K: Naming>(
    rt: &impl Abort,
    alloc: Global,
    desk: &mut Desk<K>,
    workers: Vec<Worker<K>>,
) -> Result<(), Memory> {
    for mut worker in workers {
        let settled = is_settled(alloc, desk, &mut worker)?;
        assert!(rt; settled);
    }
    Ok(())
}

fn is_settled<K: Naming>(
    alloc: Global,
    desk: &mut Desk<K>,
    worker: &mut Worker<K>,
) -> Result<bool, Memory> {
    let last = says(alloc, desk, worker, Ask::Look, "Codes, zz 0")?;
    let clauses = clauses_left(alloc, desk, worker);
    let messages = messages_left(alloc, desk, worker)?;
    Ok(worker.wrong == 0 && last && clauses && messages)
}

/// Whether the engine finds the clauses of the plain lists, one after the other.
fn clauses_left<K: Naming>(alloc: Global, desk: &mut Desk<K>, worker: &mut Worker<K>) -> bool {
    let mut same = call(alloc, desk, worker, None);
    for _ in 0..desk.plain.length() {
        same = retry(desk, worker) && same;
    }
    same
}

/// Whether it takes the messages of the plain lists, and then waits.
fn messages_left<K: Naming>(
    alloc: Global,
    desk: &mut Desk<K>,
    worker: &mut Worker<K>,
) -> Result<bool, Memory> {
    let mut same = true;
    for _ in 0..desk.plain.messages() {
        same = get(alloc, desk, worker, None)? && same;
    }
    Ok(get(alloc, desk, worker, None)? && same)
}

/// All of them work at once.
fn work_all<'a, K: Naming + Send + Sync, R: Threads + Wait + Abort + Sync>(
    rt: &R,
    alloc: Global,
    desk: Desk<K>,
    workers: Vec<Worker<'a, K>>,
) -> Result<(), Memory> {
    let lock = Mutex::new(desk);
    let under = &lock;
    let workers = thread::map_vec(
        rt,
        workers,
        &|worker: Worker<K>| -> Worker<K> { work(rt, alloc, under, worker) },
    )?;
    let mut desk = lock.into_inner();
    settle(rt, alloc, &mut desk, workers)
}

/// Seven engines begin, and all eight make visits at once, by that number.
pub fn soak<'a, K: Naming + Send + Sync, R: Threads + Wait + Abort + Sync>(
    rt: &R,
    alloc: Global,
    seed: u64,
    table: &'a AtomTable,
    seats: Vec<AtomSeat>,
    history: &'a History,
    fronts: Vec<Front>,
    shared: Shared<K>,
    mut main: Player<'a, K>,
) -> Result<Option<String>, Memory>
    requires named { (table.now.words.table.shared.table_id ≡ K.atoms) × (table.now.words.size ≡ K.size) }
    requires history { history.now ≡ K.history }
    requires seats { FreshFrom table.now.words 1 seats.items }
    requires fronts { All (λ f. f ≡ new_front history.now) fronts.items }
{
    let plain = PlainState::new(alloc);
    let mut desk = Desk { shared, plain };
    main.say(alloc, &mut desk.shared, Ask::Queue(Some(Word::Codes)))?;
    desk.plain.update();
    let workers = begin_all(alloc, seed, table, seats, history, fronts, &mut desk, main)?;
    work_all(rt, alloc, desk, workers)?;
    Ok(None)
}

#[test]
fn eight_threads_share_a_state(rt: HostRuntime) -> Result<(), Fail> {
    for seed in 0..SEEDS {
        let came = came(&rt, rt.alloc(), ENGINES, 0, 1, Part::Soak(seed))?;
        assert_eq!(rt; came, None);
    }
    Ok(())
}
