//! The places of a goal's variables.
ghost use Rattle.std.specs.Prelude.{◌≡◌, zero, length, map, IfOk, OnOk};
ghost use Rattle.std.specs.List.{All};
ghost use Rattle.pl_term.specs.Tree.{var};
ghost use Rattle.term_store.specs.Contents.{Holds, IsArguments, term_at, upwards};
ghost use Rattle.iso_engine.specs.Finding.{AreFound};

use pl_term::Memory;
use std::alloc::Global;
use term_store::{Arguments, Place, Store, View as Kind};

/// The places of so many variables of the term at a place, which are numbered from 0 on in the order in which they first
/// occur. The only error is out of memory.
pub fn variables_at(
    alloc: Global,
    store: &Store,
    goal: Place,
    count: u64,
) -> Result<Vec<Place>, Memory>
    requires { Holds store.now goal }
    ensures inside { IfOk result (λ found. All (Holds store.now) found.items) }
    ensures stands { IfOk result (λ found. map (term_at store.now) found.items ≡ map var (upwards zero count)) }
{
    let mut found = Vec::new(alloc);
    let mut walk = Vec::new(alloc);
    walk.push(goal)?;
    for _ in 0..u64::MAX {
        let Some(place) = walk.pop() else {
            break;
        };
        visit(store, place, &mut walk, &mut found)?;
    }
    if found.len() as u64 != count {
        return Err(Memory);
    }
    Ok(found)
}

/// Looks at a place: the variable there is found if it has the next number, and arguments are still to be looked at. The only
/// error is out of memory.
fn visit(
    store: &Store,
    place: Place,
    walk: &mut Vec<Place>,
    found: &mut Vec<Place>,
) -> Result<(), Memory>
    requires place { Holds store.now place }
    requires found { AreFound store.now walk.old.items found.old.items }
    ensures { OnOk result (AreFound store.now walk.new.items found.new.items) }
{
    match store.look(place) {
        Kind::Variable(number) => {
            if number != found.len() as u64 {
                return Ok(());
            }
            found.push(place)?;
            Ok(())
        }
        Kind::Integer(_) => Ok(()),
        Kind::Atom(_) => Ok(()),
        Kind::Compound(_, arguments) => push_arguments(store, walk, arguments),
    }
}

/// Puts the places of arguments after others, the last one first. The only error is out of memory.
fn push_arguments(store: &Store, walk: &mut Vec<Place>, arguments: Arguments) -> Result<(), Memory>
    requires arguments { IsArguments store.now arguments }
    requires walk { All (Holds store.now) walk.old.items }
    ensures { OnOk result (All (Holds store.now) walk.new.items) }
{
    let count = arguments.len();
    for i in 0..count {
        let place = store.argument(arguments, count - 1 - i);
        walk.push(place)?;
    }
    Ok(())
}
