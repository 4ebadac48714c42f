//! Rows of unification in a store.

use crate::cells::{
    Two, compound, loaded, next_place, next_stored, next_two, put_spelled, read, unified, variable,
    with_variables,
};
use crate::fields::Fields;
use crate::output::{put_integer, put_named, put_text, put_truth};
use anyhow::{Result, bail};
use pl_term::Memory;
use std::alloc::Global;
use term_store::{Place, Store, StoreFault, Stored, View};

/// The two terms once they are unified, with a blank between, or `no` and the number of bindings.
pub fn unified_terms(alloc: Global, fields: &mut Fields) -> Result<Vec<u8>> {
    let Two {
        mut store,
        left,
        right,
    } = next_two(alloc, 0, fields)?;
    let mut out = Vec::new(alloc);
    if unified(&mut store, left, right)? {
        put_spelled(&mut out, &store, left)?;
        put_text(&mut out, " ")?;
        put_spelled(&mut out, &store, right)?;
    } else {
        put_named(&mut out, "no ", store.trail_len() as u64)?;
    }
    Ok(out)
}

/// Whether two terms are unified, with the number of bindings.
pub fn is_unified(alloc: Global, fields: &mut Fields) -> Result<Vec<u8>> {
    let Two {
        mut store,
        left,
        right,
    } = next_two(alloc, 0, fields)?;
    let mut out = Vec::new(alloc);
    put_unified(&mut out, &mut store, left, right)?;
    Ok(out)
}

/// Adds whether two terms are unified, and the number of bindings.
fn put_unified(out: &mut Vec<u8>, store: &mut Store, left: Place, right: Place) -> Result<()> {
    put_truth(out, unified(store, left, right)?)?;
    put_named(out, " ", store.trail_len() as u64)
}

/// A goal once it is unified with a head that is loaded after it, or `no` and the number of bindings: by `unify`, and by
/// `unify_since`.
pub fn heads(alloc: Global, fields: &mut Fields) -> Result<Vec<u8>> {
    let goal = fields.next_bytes(alloc)?;
    let head = next_stored(alloc, fields)?;
    let mut out = Vec::new(alloc);
    put_goal(alloc, &mut out, &goal, &head, false)?;
    put_text(&mut out, " ")?;
    put_goal(alloc, &mut out, &goal, &head, true)?;
    Ok(out)
}

/// Adds a goal once it is unified with a head, or `no` and the number of bindings.
fn put_goal(
    alloc: Global,
    out: &mut Vec<u8>,
    goal: &[u8],
    head: &Stored,
    since: bool,
) -> Result<()> {
    let (mut store, variables) = with_variables(alloc, 100)?;
    let place = read(alloc, &mut store, &variables, goal)?;
    if head_unified(&mut store, place, head, since)? {
        return put_spelled(out, &store, place);
    }
    put_named(out, "no ", store.trail_len() as u64)
}

/// Unifies a goal with a head that is loaded first, by the one call or the other.
fn head_unified(
    store: &mut Store,
    goal: Place,
    head: &Stored,
    since: bool,
) -> Result<bool, StoreFault> {
    if !store.holds(goal) || !store.is_above(3) || head.variables() > 100 {
        return Err(StoreFault::Memory);
    }
    let mark = store.mark();
    let copy = store.load(head, 3)?;
    if since {
        let same = store.unify_since(mark, goal, copy)?;
        return Ok(same);
    }
    let same = store.unify(goal, copy)?;
    Ok(same)
}

/// What stands at a place that begins as a term, and becomes so many times the second argument of a clause of which it is
/// unified with the first.
pub fn walked_term(alloc: Global, fields: &mut Fields) -> Result<Vec<u8>> {
    let clause = next_stored(alloc, fields)?;
    let (mut store, variables) = with_variables(alloc, 1_000_000)?;
    let start = next_place(alloc, &mut store, &variables, fields)?;
    let rounds = fields.next_field()?.parse::<usize>()?;
    let place = walked(&mut store, &clause, start, rounds)?;
    let mut out = Vec::new(alloc);
    put_view(&mut out, &store, place)?;
    Ok(out)
}

/// What comes of a place in so many rounds.
fn walked(
    store: &mut Store,
    clause: &Stored,
    start: Place,
    rounds: usize,
) -> Result<Place, StoreFault> {
    let mut place = start;
    let mut from: u64 = 3;
    for _ in 0..rounds {
        place = next_of(store, clause, from, place)?;
        from = from
            .checked_add(clause.variables())
            .ok_or(StoreFault::Memory)?;
    }
    Ok(place)
}

/// What the second argument of a clause is once the first is unified with the term at a place.
fn next_of(
    store: &mut Store,
    clause: &Stored,
    from: u64,
    place: Place,
) -> Result<Place, StoreFault> {
    if !store.holds(place)
        || !store.is_above(from)
        || from.checked_add(clause.variables()).is_none()
    {
        return Err(StoreFault::Memory);
    }
    let mark = store.mark();
    let copy = store.load(clause, from)?;
    let View::Compound(_, arguments) = store.look(copy) else {
        return Err(StoreFault::Memory);
    };
    if arguments.len() != 2 {
        return Err(StoreFault::Memory);
    }
    let head = store.argument(arguments, 0);
    let body = store.argument(arguments, 1);
    if store.unify_since(mark, place, head)? {
        Ok(body)
    } else {
        Err(StoreFault::Memory)
    }
}

/// Adds what stands at a place: a variable with its number, an integer, an atom with its number, or a compound term with the
/// numbers of its name and its arguments.
pub fn put_view(out: &mut Vec<u8>, store: &Store, place: Place) -> Result<()> {
    if !store.holds(place) {
        bail!("no such place");
    }
    match store.look(place) {
        View::Variable(number) => put_named(out, "variable ", number),
        View::Integer(value) => {
            put_text(out, "integer ")?;
            put_integer(out, value)
        }
        View::Atom(name) => put_named(out, "atom ", name.slot() as u64),
        View::Compound(name, arguments) => {
            put_named(out, "compound ", name.slot() as u64)?;
            put_named(out, " ", arguments.len() as u64)
        }
    }
}

/// Whether the first of so many variables, each of which is bound to a term that has the one before it twice, is unified
/// with a term that has the last, and the number of bindings.
pub fn chain(alloc: Global, fields: &mut Fields) -> Result<Vec<u8>> {
    let levels = fields.next_field()?.parse::<u64>()?;
    let mut store = Store::new(alloc, 0)?;
    let first = variable(&mut store, 0)?;
    let last = last_doubled(&mut store, first, levels)?;
    let around = compound(&mut store, b'g', &[last])?;
    let mut out = Vec::new(alloc);
    put_unified(&mut out, &mut store, first, around)?;
    Ok(out)
}

/// The last of so many variables, each bound to a term that has the one before it twice.
fn last_doubled(store: &mut Store, first: Place, levels: u64) -> Result<Place, Memory> {
    let mut last = first;
    for i in 1..levels {
        last = doubled(store, i, last)?;
    }
    Ok(last)
}

/// A new variable that is bound to a term that has the one before it twice.
fn doubled(store: &mut Store, number: u64, before: Place) -> Result<Place, Memory> {
    let place = variable(store, number)?;
    let pair = compound(store, b'f', &[before, before])?;
    if unified(store, place, pair)? {
        Ok(place)
    } else {
        Err(Memory)
    }
}
