//! Rows of what a store holds: terms that are loaded and shared, cells that are counted, what undoing gives back.

use crate::cells::{Two, loaded, next_place, next_stored, next_two, put_spelled, with_variables};
use crate::fields::Fields;
use crate::output::{put_named, put_number, put_numbers, put_text, put_truth};
use crate::unification::put_view;
use anyhow::{Result, bail};
use std::alloc::Global;
use term_store::{Place, Store, StoreFault, Stored, View};

/// The cells of a term, and those used once it is loaded in a store with this budget in which so many cells are used; or the
/// cells that were used and those that it needs, where it is refused.
pub fn load(alloc: Global, fields: &mut Fields) -> Result<Vec<u8>> {
    let budget = fields.next_field()?.parse::<u64>()?;
    let used = fields.next_field()?.parse::<u64>()?;
    let term = next_stored(alloc, fields)?;
    let mut out = Vec::new(alloc);
    put_number(&mut out, term.cells())?;
    match used_after(alloc, budget, used, &term) {
        Ok(used) => put_named(&mut out, " ", used)?,
        Err(StoreFault::CellsFull { used, need }) => {
            put_text(&mut out, " full")?;
            put_numbers(&mut out, &[used, need])?
        }
        Err(StoreFault::Memory) => bail!("no memory"),
    }
    Ok(out)
}

/// The cells used once a term is loaded.
fn used_after(alloc: Global, budget: u64, used: u64, term: &Stored) -> Result<u64, StoreFault> {
    let mut store = Store::new(alloc, budget)?;
    store.charge(used)?;
    loaded(&mut store, term, 0)?;
    Ok(store.used())
}

/// A shared term loaded in a store, once that of which it is a share is gone.
pub fn share(alloc: Global, fields: &mut Fields) -> Result<Vec<u8>> {
    let second = shared(alloc, fields)?;
    let mut store = Store::new(alloc, 100)?;
    let place = loaded(&mut store, &second, 0)?;
    let mut out = Vec::new(alloc);
    put_spelled(&mut out, &store, place)?;
    Ok(out)
}

/// A share of the term of the next field, which is gone itself.
fn shared(alloc: Global, fields: &mut Fields) -> Result<Stored> {
    let first = next_stored(alloc, fields)?;
    Ok(for_threads(first.share()?))
}

/// The term, which threads may hold.
fn for_threads<T: Send + Sync>(term: T) -> T {
    term
}

/// Whether two terms are unified, the bindings, and the cells used once a third is loaded, before both are undone; then the
/// first term, the bindings and the cells used.
pub fn undone(alloc: Global, fields: &mut Fields) -> Result<Vec<u8>> {
    let Two {
        mut store,
        left,
        right,
    } = next_two(alloc, 10, fields)?;
    let term = next_stored(alloc, fields)?;
    let mut out = Vec::new(alloc);
    put_tried(&mut out, &mut store, left, right, &term)?;
    put_text(&mut out, "; ")?;
    put_spelled(&mut out, &store, left)?;
    put_counts(&mut out, &store)?;
    Ok(out)
}

/// Adds the number of bindings and the cells used.
fn put_counts(out: &mut Vec<u8>, store: &Store) -> Result<()> {
    put_numbers(out, &[store.trail_len() as u64, store.used()])
}

/// Unifies two places, loads a term, and goes back. Before that the truth value, the number of bindings and the cells used
/// are added.
fn put_tried(
    out: &mut Vec<u8>,
    store: &mut Store,
    a: Place,
    b: Place,
    term: &Stored,
) -> Result<()> {
    if !store.holds(a) || !store.holds(b) || !store.is_above(3) || term.variables() > 100 {
        bail!("no such places");
    }
    let mark = store.mark();
    let same = store.unify(a, b)?;
    let _ = store.load(term, 3)?;
    put_truth(out, same)?;
    put_counts(out, store)?;
    store.undo_to(mark);
    Ok(())
}

/// What stands at the place of a term, and at those of its arguments, with `; ` before each.
pub fn seen(alloc: Global, fields: &mut Fields) -> Result<Vec<u8>> {
    let (mut store, variables) = with_variables(alloc, 0)?;
    let place = next_place(alloc, &mut store, &variables, fields)?;
    let mut out = Vec::new(alloc);
    put_view(&mut out, &store, place)?;
    put_arguments(&mut out, &store, place)?;
    Ok(out)
}

/// Adds what stands at the places of the arguments of a term, with `; ` before each.
fn put_arguments(out: &mut Vec<u8>, store: &Store, place: Place) -> Result<()> {
    if !store.holds(place) {
        bail!("no such place");
    }
    if let View::Compound(_, arguments) = store.look(place) {
        for i in 0..arguments.len() {
            put_text(out, "; ")?;
            put_view(out, store, store.argument(arguments, i))?;
        }
    }
    Ok(())
}

/// What stands at a variable that was bound to an integer.
pub fn bound(alloc: Global, fields: &mut Fields) -> Result<Vec<u8>> {
    let value = fields.next_field()?.parse::<i64>()?;
    let mut store = Store::new(alloc, 0)?;
    let variable = store.make_variable(0)?;
    store.bind(variable, Place::integer(value))?;
    let mut out = Vec::new(alloc);
    put_view(&mut out, &store, variable)?;
    Ok(out)
}

/// The cells of a term's compound terms, or `more` where they are above a limit.
pub fn cells(alloc: Global, fields: &mut Fields) -> Result<Vec<u8>> {
    let (mut store, variables) = with_variables(alloc, 0)?;
    let place = next_place(alloc, &mut store, &variables, fields)?;
    let limit = fields.next_field()?.parse::<u64>()?;
    let mut out = Vec::new(alloc);
    put_cells(&mut out, &store, place, limit)?;
    Ok(out)
}

/// Adds the cells of the compound terms at a place, or `more` where they are above a limit.
fn put_cells(out: &mut Vec<u8>, store: &Store, place: Place, limit: u64) -> Result<()> {
    if !store.holds(place) {
        bail!("no such place");
    }
    match store.cells_within(place, limit)? {
        Some(cells) => put_number(out, cells),
        None => put_text(out, "more"),
    }
}
