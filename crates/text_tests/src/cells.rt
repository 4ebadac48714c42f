//! Terms of a store as the rows have them: a letter and a digit are a compound term with that many arguments, which
//! follow; `i` and a digit are an integer, `A`, `B` and `C` are variables, another letter is an atom, and `=` is the
//! term after it, which stands there once more.
ghost use Rattle.std.specs.Prelude.{IsTrue};
ghost use Rattle.std.specs.List.{All};
ghost use Rattle.term_store.specs.Contents.{Holds};

use crate::fields::Fields;
use anyhow::Result;
use atom_api::Atom;
use pl_term::Memory;
use std::alloc::Global;
use term_store::{AtomNode, Place, Store, StoreFault, Stored};

/// Whether all are places of the store.
fn all_held(store: &Store, places: &[Place]) -> bool
    ensures { IsTrue result → All (Holds store.now) places.now }
{
    places.iter().all(|place| store.holds(*place))
}

/// The compound term with a name of one letter. What no call may be given is an error of memory, here and below.
pub fn compound(store: &mut Store, name: u8, arguments: &[Place]) -> Result<Place, Memory> {
    if arguments.is_empty() || !all_held(store, arguments) {
        return Err(Memory);
    }
    store.make_compound(Atom::at(name as u32), arguments)
}

/// A new variable.
pub fn variable(store: &mut Store, number: u64) -> Result<Place, Memory> {
    if !store.is_above(number) {
        return Err(Memory);
    }
    store.make_variable(number)
}

/// A term that is loaded, with variables numbered from a number on.
pub fn loaded(store: &mut Store, term: &Stored, from: u64) -> Result<Place, StoreFault> {
    if !store.is_above(from) || from.checked_add(term.variables()).is_none() {
        return Err(StoreFault::Memory);
    }
    store.load(term, from)
}

/// Whether two terms are unified.
pub fn unified(store: &mut Store, a: Place, b: Place) -> Result<bool, Memory> {
    if !store.holds(a) || !store.holds(b) {
        return Err(Memory);
    }
    store.unify(a, b)
}

/// The term at a place, outside of the store.
fn saved(store: &Store, place: Place) -> Result<Stored, Memory> {
    if !store.holds(place) {
        return Err(Memory);
    }
    store.save(place)
}

/// A store with a budget, and variables numbered 0, 1 and 2.
pub fn with_variables(alloc: Global, budget: u64) -> Result<(Store, Vec<Place>), Memory> {
    let mut store = Store::new(alloc, budget)?;
    let mut places = Vec::new(alloc);
    for number in 0..3 {
        places.push(variable(&mut store, number)?)?;
    }
    Ok((store, places))
}

/// So many places from the top of a stack.
fn taken(alloc: Global, stack: &mut Vec<Place>, count: u8) -> Result<Vec<Place>, Memory> {
    let mut places = Vec::new(alloc);
    for _ in 0..count {
        places.push(stack.pop().ok_or(Memory)?)?;
    }
    Ok(places)
}

/// What a letter and the digit after it stand for.
fn letter_read(
    alloc: Global,
    store: &mut Store,
    variables: &[Place],
    stack: &mut Vec<Place>,
    letter: u8,
    digit: Option<u8>,
) -> Result<Place, Memory> {
    match digit {
        Some(n) if letter == b'i' => Ok(Place::integer(n as i64)),
        Some(n) => {
            let arguments = taken(alloc, stack, n)?;
            compound(store, letter, &arguments)
        }
        None if letter == b'=' => stack.last().copied().ok_or(Memory),
        None if letter.is_ascii_uppercase() => variables
            .get((letter - b'A') as usize)
            .copied()
            .ok_or(Memory),
        None => Ok(Place::atom(Atom::at(letter as u32))),
    }
}

/// The term that a text spells, over these variables.
pub fn read(
    alloc: Global,
    store: &mut Store,
    variables: &[Place],
    text: &[u8],
) -> Result<Place, Memory> {
    let mut stack = Vec::new(alloc);
    let mut digit = None;
    for c in text.iter().rev() {
        if c.is_ascii_digit() {
            digit = Some(*c - b'0');
        } else {
            let place = letter_read(alloc, store, variables, &mut stack, *c, digit)?;
            stack.push(place)?;
            digit = None;
        }
    }
    stack.pop().ok_or(Memory)
}

/// A term outside of a store.
fn stored(alloc: Global, text: &[u8]) -> Result<Stored, Memory> {
    let (mut store, variables) = with_variables(alloc, 0)?;
    let place = read(alloc, &mut store, &variables, text)?;
    saved(&store, place)
}

/// Adds a node to a text.
fn put_node(text: &mut Vec<u8>, node: AtomNode) -> Result<(), Memory> {
    let (letter, digit) = match node {
        AtomNode::Var(x) => (b'A' + (x % 26) as u8, None),
        AtomNode::Atom(a) => ((a % 256) as u8, None),
        AtomNode::Int(i) => (b'i', Some(u8::try_from(i).unwrap_or(10))),
        AtomNode::Comp(a, count) => ((a % 256) as u8, Some((count % 10) as u8)),
    };
    text.push(letter)?;
    if let Some(n) = digit {
        text.push(b'0'.wrapping_add(n))?;
    }
    Ok(())
}

/// Adds the term at a place as a text, its variables numbered anew.
pub fn put_spelled(out: &mut Vec<u8>, store: &Store, place: Place) -> Result<()> {
    let term = saved(store, place)?;
    for node in term.nodes() {
        put_node(out, *node)?;
    }
    Ok(())
}

/// The term of the next field, in a store with these variables.
pub fn next_place(
    alloc: Global,
    store: &mut Store,
    variables: &[Place],
    fields: &mut Fields,
) -> Result<Place> {
    let text = fields.next_bytes(alloc)?;
    Ok(read(alloc, store, variables, &text)?)
}

/// The term of the next field, outside of a store.
pub fn next_stored(alloc: Global, fields: &mut Fields) -> Result<Stored> {
    let text = fields.next_bytes(alloc)?;
    Ok(stored(alloc, &text)?)
}

/// A store with the terms of two fields, which share their variables.
#[derive(Drop)]
pub struct Two {
    pub store: Store,
    pub left: Place,
    pub right: Place,
}

/// The terms of the next two fields in a store with a budget.
pub fn next_two(alloc: Global, budget: u64, fields: &mut Fields) -> Result<Two> {
    let (mut store, variables) = with_variables(alloc, budget)?;
    let left = next_place(alloc, &mut store, &variables, fields)?;
    let right = next_place(alloc, &mut store, &variables, fields)?;
    Ok(Two { store, left, right })
}
