//! Rows of a clause database: updates, each at the next place of a history, and calls at generations of it.
ghost use Rattle.std.specs.Prelude.{◌≡◌, ◌<◌, ◌≤◌, ◌+◌, ◌^◌, max, IfOk};

use crate::fields::Fields;
use crate::output::{put_number, put_text};
use anyhow::{Context, Result, bail, ensure};
use clause_db::{Access, By, Db, DbFault, Origin, Proc};
use gen_core::Reclaimer;
use pl_model::first_argument::FirstArgument;
use pl_model::kept::Kept;
use pl_term::{Flat, Text};
use std::alloc::Global;

/// The place of the next update, and the floor of the last reclaim.
#[derive(Clone, Copy, Drop)]
struct Clock {
    place: u64,
    floor: u64,
}

/// What the operations of a row give, which stand with `¤` between, with `;` after each.
pub fn answers(alloc: Global, fields: &mut Fields) -> Result<Vec<u8>> {
    let mut db: Db<Flat> = Db::new(alloc)?;
    let mut out = Vec::new(alloc);
    let mut clock = Clock { place: 0, floor: 0 };
    for part in fields.next_field()?.split('¤') {
        clock = operation(alloc, &mut db, clock, part, &mut out)?;
        out.push(b';')?;
    }
    Ok(out)
}

/// Adds what an operation answers, and tells the place and the floor after it.
fn operation(
    alloc: Global,
    db: &mut Db<Flat>,
    clock: Clock,
    part: &str,
    out: &mut Vec<u8>,
) -> Result<Clock>
    requires later { db.old.next ≤ clock.place }
    requires floor { db.old.floor ≤ clock.floor }
    ensures later { IfOk result (λ c. db.new.next ≤ c.place) }
    ensures floor { IfOk result (λ c. db.new.floor ≤ c.floor) }
{
    let (word, rest) = part.split_once(' ').context("an operation")?;
    match word {
        "reclaim" => reclaim_to(db, clock, rest, out),
        "call" => {
            put_clauses(alloc, db, clock.floor, rest, out)?;
            Ok(clock)
        }
        "access" => {
            out.extend_from_slice(access(alloc, db, clock.floor, rest)?.as_bytes())?;
            Ok(clock)
        }
        _ => update_at(alloc, db, clock, part, out),
    }
}

/// Adds how many clauses a reclaim up to a floor drops.
fn reclaim_to(db: &mut Db<Flat>, clock: Clock, rest: &str, out: &mut Vec<u8>) -> Result<Clock>
    requires later { db.old.next ≤ clock.place }
    requires floor { db.old.floor ≤ clock.floor }
    ensures later { IfOk result (λ c. db.new.next ≤ c.place) }
    ensures floor { IfOk result (λ c. db.new.floor ≤ c.floor) }
{
    let floor = rest.parse::<u64>()?;
    if floor < clock.floor || clock.place < floor {
        bail!("a floor");
    }
    let count = reclaim_all(db, floor)?;
    put_number(out, count)?;
    Ok(Clock {
        place: clock.place,
        floor,
    })
}

/// Adds what the update at the next place answers.
fn update_at(
    alloc: Global,
    db: &mut Db<Flat>,
    clock: Clock,
    part: &str,
    out: &mut Vec<u8>,
) -> Result<Clock>
    requires later { db.old.next ≤ clock.place }
    requires floor { db.old.floor ≤ clock.floor }
    ensures later { IfOk result (λ c. db.new.next ≤ c.place) }
    ensures floor { IfOk result (λ c. db.new.floor ≤ c.floor) }
{
    let (word, rest) = part.split_once(' ').context("an operation")?;
    if clock.place > 1000000 {
        bail!("too many updates");
    }
    let answer = update(alloc, db, clock.place, word, rest)?;
    out.extend_from_slice(answer.as_bytes())?;
    Ok(Clock {
        place: clock.place + 1,
        floor: clock.floor,
    })
}

/// The predicate with this name and one argument.
fn procedure(alloc: Global, name: &str) -> Result<Proc> {
    Ok(Proc {
        name: Text::from_str(alloc, name)?,
        arity: 1,
    })
}

/// A fact with this name, whose argument is the number, or a variable where `_` stands.
fn fact(alloc: Global, name: &str, argument: &str) -> Result<Flat> {
    let name = Text::from_str(alloc, name)?;
    let first = if argument == "_" {
        Flat::var(alloc, 0)?
    } else {
        Flat::int(alloc, argument.parse::<i64>()?)?
    };
    Ok(Flat::comp(alloc, &name, &[first])?)
}

/// What an update at this place answers.
fn update(
    alloc: Global,
    db: &mut Db<Flat>,
    place: u64,
    word: &str,
    rest: &str,
) -> Result<&'static str>
    requires bound { place < 2 ^ 49 }
    requires later { db.old.next ≤ place }
    ensures later { db.new.next ≤ place + 1 }
    ensures floor { db.new.floor ≡ db.old.floor }
{
    match word {
        "erase" => erase(db, rest.parse::<u64>()?, place),
        "abolish" => {
            let p = procedure(alloc, rest)?;
            Ok(fault_of(db.abolish(&p, place)))
        }
        "dynamic" => {
            let p = procedure(alloc, rest)?;
            Ok(fault_of(db.set_dynamic(&[p], place)))
        }
        _ => add(alloc, db, place, word, rest),
    }
}

/// Erases the clause that was added at a place, and says whether it was there.
fn erase(db: &mut Db<Flat>, clause: u64, place: u64) -> Result<&'static str>
    requires bound { place < 2 ^ 49 }
    requires later { db.old.next ≤ place }
    ensures later { db.new.next ≤ place + 1 }
    ensures floor { db.new.floor ≡ db.old.floor }
{
    match db.erase(clause, place) {
        Ok(true) => Ok("yes"),
        Ok(false) => Ok("no"),
        Err(_) => bail!("no memory"),
    }
}

/// Adds a fact, as the first or the last one, by the program or by a file.
fn add(alloc: Global, db: &mut Db<Flat>, place: u64, word: &str, rest: &str) -> Result<&'static str>
    requires bound { place < 2 ^ 49 }
    requires later { db.old.next ≤ place }
    ensures later { db.new.next ≤ place + 1 }
    ensures floor { db.new.floor ≡ db.old.floor }
{
    let (name, argument) = rest.split_once(' ').context("an argument")?;
    let p = procedure(alloc, name)?;
    let clause = fact(alloc, name, argument)?;
    match word {
        "first" => put_first(db, &p, clause, Origin::Assert, place),
        "last" => put_last(db, &p, clause, Origin::Assert, place),
        "consult" => put_last(db, &p, clause, Origin::Consult, place),
        "consult_first" => put_first(db, &p, clause, Origin::Consult, place),
        _ => bail!("no such operation"),
    }
}

/// Adds a clause as the first one.
fn put_first(
    db: &mut Db<Flat>,
    p: &Proc,
    clause: Flat,
    origin: Origin,
    place: u64,
) -> Result<&'static str>
    requires bound { place < 2 ^ 49 }
    requires later { db.old.next ≤ place }
    ensures later { db.new.next ≤ place + 1 }
    ensures floor { db.new.floor ≡ db.old.floor }
{
    match db.add_first(p, clause, origin, place) {
        Ok(()) => Ok("done"),
        Err((_, fault)) => Ok(word_of(fault)),
    }
}

/// Adds a clause as the last one.
fn put_last(
    db: &mut Db<Flat>,
    p: &Proc,
    clause: Flat,
    origin: Origin,
    place: u64,
) -> Result<&'static str>
    requires bound { place < 2 ^ 49 }
    requires later { db.old.next ≤ place }
    ensures later { db.new.next ≤ place + 1 }
    ensures floor { db.new.floor ≡ db.old.floor }
{
    match db.add_last(p, clause, origin, place) {
        Ok(()) => Ok("done"),
        Err((_, fault)) => Ok(word_of(fault)),
    }
}

/// The word of what a change answers.
fn fault_of(answer: Result<(), DbFault>) -> &'static str {
    match answer {
        Ok(()) => "done",
        Err(fault) => word_of(fault),
    }
}

/// The word of a refusal.
fn word_of(fault: DbFault) -> &'static str {
    match fault {
        DbFault::Static => "static",
        DbFault::Private => "private",
        DbFault::Unknown => "unknown",
        DbFault::CellsFull { .. } => "cells",
        DbFault::Memory => "memory",
    }
}

/// Reclaims the erased clauses of the first four procedures that no generation from the floor on sees. The answer is how many
/// were dropped.
fn reclaim_all(db: &mut Db<Flat>, floor: u64) -> Result<u64>
    requires low { db.old.floor ≤ floor }
    ensures later { db.new.next ≤ max db.old.next floor }
    ensures floor { db.new.floor ≤ floor }
{
    let mut count: u64 = 0;
    for i in 0..4u64 {
        count = count.saturating_add(reclaim(db, i, floor)?);
    }
    Ok(count)
}

/// Reclaims the clauses of a procedure. The answer is how many were dropped.
fn reclaim(db: &mut Db<Flat>, i: u64, floor: u64) -> Result<u64>
    requires low { db.old.floor ≤ floor }
    ensures later { db.new.next ≤ max db.old.next floor }
    ensures floor { db.new.floor ≤ floor }
{
    if i < db.procedures() {
        let dropped = db.reclaim_by(i, &Reclaimer, floor)?;
        return Ok(dropped.len() as u64);
    }
    Ok(0)
}

/// How a procedure may be used at a generation.
fn access(alloc: Global, db: &Db<Flat>, floor: u64, rest: &str) -> Result<&'static str>
    requires { db.now.floor ≤ floor }
{
    let (name, g) = rest.split_once(' ').context("a generation")?;
    let g = g.parse::<u64>()?;
    ensure!(floor <= g, "a generation");
    Ok(match db.access(&procedure(alloc, name)?, g) {
        Some(Access::Static) => "static",
        Some(Access::Dynamic) => "dynamic",
        None => "none",
    })
}

/// Adds the places of all clauses of a call at a generation, or why it is refused.
fn put_clauses(
    alloc: Global,
    db: &Db<Flat>,
    floor: u64,
    rest: &str,
    out: &mut Vec<u8>,
) -> Result<()>
    requires { db.now.floor ≤ floor }
{
    let (name, rest) = rest.split_once(' ').context("an argument")?;
    let (argument, g) = rest.split_once(' ').context("a generation")?;
    let g = g.parse::<u64>()?;
    ensure!(floor <= g, "a generation");
    let p = procedure(alloc, name)?;
    let key = key_of(alloc, name, argument)?;
    put_fault(out, db.call(&p, &key, g, By::Clause).err())?;
    put_places(db, &p, &key, g, out)
}

/// The key of the first argument of a fact.
fn key_of(alloc: Global, name: &str, argument: &str) -> Result<FirstArgument> {
    Ok(fact(alloc, name, argument)?.key(alloc)?)
}

/// Adds why clause/2 is refused, with a blank after it, where it is.
fn put_fault(out: &mut Vec<u8>, fault: Option<DbFault>) -> Result<()> {
    if let Some(fault) = fault {
        put_text(out, word_of(fault))?;
        out.push(b' ')?;
    }
    Ok(())
}

/// Adds the places of all clauses of a call, each with `+` after it where more follow, or why the call is refused.
fn put_places(db: &Db<Flat>, p: &Proc, key: &FirstArgument, g: u64, out: &mut Vec<u8>) -> Result<()>
    requires { db.now.floor ≤ g }
{
    let mut answer = db.call(p, key, g, By::Goal);
    for _ in 0..100000u32 {
        match answer {
            Ok(Some(hit)) => {
                put_number(out, hit.place)?;
                out.push(if hit.more { b'+' } else { b'.' })?;
                answer = db.retry(hit.place, key, g);
            }
            Ok(None) => return Ok(()),
            Err(fault) => return put_text(out, word_of(fault)),
        }
    }
    bail!("too many clauses")
}
