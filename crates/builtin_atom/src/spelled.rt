//! Lists that spell texts (ISO 7.1.2.2, 7.1.4.1).
ghost use Rattle.std.specs.Prelude.{◌≡◌, map, IfOk};
ghost use Rattle.std.specs.List.{All};
ghost use Rattle.term_store.specs.Contents.{Holds};
ghost use Rattle.world_builtins.specs.Naming.{IsHeldAt};
ghost use Rattle.world_builtins.specs.Spelling.{reads};
ghost use Rattle.builtin_atom.specs.Spelled.{AreRead, Spells};

use crate::forms::{Fault, Form, Read, read_element};
use atom_api::Atoms;
use builtin_rows::{ListEnd, list_elements};
use pl_term::Memory;
use std::alloc::Global;
use term_store::{Place, Store};

/// What the term at a place spells as a list of characters, or of their codes: a text, or it is a partial list, no list, or this
/// is wrong with its first element that is at fault.
#[derive(Drop)]
pub enum Spelled {
    Text(Vec<char>),
    Open,
    Broken,
    Bad(Fault),
}

/// What the term at a place spells. The only error is out of memory.
pub fn spelled_at<A: Atoms>(
    form: Form,
    alloc: Global,
    store: &Store,
    list: Place,
    atoms: &mut A,
) -> Result<Spelled, Memory>
    requires inside { Holds store.now list }
    requires held { IsHeldAt (A.held atoms.old) store.now list }
    ensures spells { IfOk result (Spells form (A.held atoms.old) store.now (reads (A.held atoms.old) store.now list)) }
    ensures same { A.held atoms.new ≡ A.held atoms.old }
    ensures refusals { A.refusals atoms.new ≡ A.refusals atoms.old }
    ensures asked { A.asked atoms.new ≡ A.asked atoms.old }
{
    let mut elements = Vec::new(alloc);
    let end = list_elements(store, list, &mut elements)?;
    match end {
        ListEnd::Open => Ok(Spelled::Open),
        ListEnd::Broken => Ok(Spelled::Broken),
        ListEnd::Closed => read_elements(form, alloc, store, &elements, atoms),
    }
}

/// The text of these elements, or the first that is at fault. The only error is out of memory.
fn read_elements<A: Atoms>(
    form: Form,
    alloc: Global,
    store: &Store,
    elements: &[Place],
    atoms: &mut A,
) -> Result<Spelled, Memory>
    requires inside { All (Holds store.now) elements.now }
    requires held { All (IsHeldAt (A.held atoms.old) store.now) elements.now }
    ensures read { IfOk result (AreRead form (A.held atoms.old) store.now (map (reads (A.held atoms.old) store.now) elements.now)) }
    ensures same { A.held atoms.new ≡ A.held atoms.old }
    ensures refusals { A.refusals atoms.new ≡ A.refusals atoms.old }
    ensures asked { A.asked atoms.new ≡ A.asked atoms.old }
{
    let mut text = Vec::new(alloc);
    for place in elements {
        match read_element(form, store, *place, atoms) {
            Read::Character(c) => text.push(c)?,
            Read::Bad(fault) => return Ok(Spelled::Bad(fault)),
        }
    }
    Ok(Spelled::Text(text))
}
