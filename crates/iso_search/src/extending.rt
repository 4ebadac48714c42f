//! Goals that are called with further arguments (ISO Cor.2 8.15.4).
ghost use Rattle.std.specs.Prelude.{◌≡◌, ◌<◌, ◌+◌, ◌++◌, suc, drop, length, map, IfOk, OnOk};
ghost use Rattle.std.specs.List.{All};
ghost use Rattle.pl_term.specs.Tree.{compound};
ghost use Rattle.term_store.specs.Heap.{atom_name};
ghost use Rattle.term_store.specs.Contents.{Holds, IsArguments, arguments_at, term_at};
ghost use Rattle.iso_search.specs.Conversions.{Grows};
ghost use Rattle.iso_search.specs.Extending.{IsExtended, IsExtensionIn, IsMadeOf};
ghost use Rattle.iso_search.specs.Reading.{View};

use crate::outcome::Fault;
use atom_api::Atom;
use pl_term::Memory;
use std::alloc::Global;
use term_store::{Arguments, Place, Store, View as Kind};

/// A goal with further arguments, and the cells that were made for it.
#[derive(Clone, Copy, Drop)]
pub struct Extended {
    pub goal: Place,
    pub cells: u64,
}

/// What comes of adding arguments to a goal.
#[derive(Clone, Copy, Drop)]
pub enum Extension {
    Made(Extended),
    /// The goal is a variable or an integer.
    Refused(Fault),
}

/// The goal at a place with the arguments of a call after its first one. A variable and an integer are refused. The only
/// error is out of memory.
pub fn extended_at(
    alloc: Global,
    store: &mut Store,
    goal: Place,
    call: Arguments,
) -> Result<Extension, Memory>
    requires goal { Holds store.old goal }
    requires call { IsArguments store.old call }
    requires some { 0 < call.count }
    ensures grows { Grows store.old store.new }
    ensures inside { IfOk result (IsExtensionIn store.new) }
    ensures extended { IfOk result (λ o. (v : View) → IsExtended v store.old goal call store.new o) }
{
    match store.look(goal) {
        Kind::Variable(_) => Ok(Extension::Refused(Fault::Instantiation)),
        Kind::Integer(_) => Ok(Extension::Refused(Fault::NotCallable(goal))),
        Kind::Atom(name) => {
            if call.len() == 1 {
                return Ok(Extension::Made(Extended { goal, cells: 0 }));
            }
            let places = Vec::new(alloc);
            let extended = extend(store, places, name, call)?;
            Ok(Extension::Made(extended))
        }
        Kind::Compound(name, own) => {
            if call.len() == 1 {
                return Ok(Extension::Made(Extended { goal, cells: 0 }));
            }
            let mut places = Vec::new(alloc);
            push_arguments(store, &mut places, own, 0)?;
            let extended = extend(store, places, name, call)?;
            Ok(Extension::Made(extended))
        }
    }
}

/// The compound term with this name, these arguments, and those of a call after its first one.
fn extend(
    store: &mut Store,
    mut places: Vec<Place>,
    name: Atom,
    call: Arguments,
) -> Result<Extended, Memory>
    requires places { All (Holds store.old) places.items }
    requires call { IsArguments store.old call }
    requires several { 1 < call.count }
    ensures grows { Grows store.old store.new }
    ensures made { IfOk result (IsMadeOf store.old name (map (term_at store.old) places.items ++ drop 1 (arguments_at store.old call)) store.new) }
{
    push_arguments(store, &mut places, call, 1)?;
    let cells = places.len() as u64 + 1;
    let goal = store.make_compound(name, &places)?;
    Ok(Extended { goal, cells })
}

/// Puts the places of the arguments from one on after the others.
fn push_arguments(
    store: &Store,
    places: &mut Vec<Place>,
    arguments: Arguments,
    from: usize,
) -> Result<(), Memory>
    requires places { All (Holds store.now) places.old.items }
    requires arguments { IsArguments store.now arguments }
    ensures inside { OnOk result (All (Holds store.now) places.new.items) }
    ensures pushed { OnOk result (map (term_at store.now) places.new.items
        ≡ map (term_at store.now) places.old.items ++ drop from (arguments_at store.now arguments)) }
    ensures some { OnOk result (from < arguments.count → 0 < length places.new.items) }
{
    for i in from..arguments.len() {
        places.push(store.argument(arguments, i))?;
    }
    Ok(())
}
