//! The nodes of a term of a store, over the texts of its atoms, one after the other.
ghost use Rattle.std.specs.Prelude.{◌≡◌, ◌++◌, ◌∷◌, [], suc, IfOk, OnOk};
ghost use Rattle.pl_term.specs.Tree.{Tree, count, more, none};
ghost use Rattle.term_store.specs.Contents.{Holds, IsArguments, arguments_at};
ghost use Rattle.term_writer.specs.declared.writing.Writing.{Writing as Begun};
ghost use Rattle.term_writer.specs.Writings.{finished, wants};
ghost use Rattle.world_builtins.specs.Following.{AreReadable, IsFirst, IsOn, Precedes};
ghost use Rattle.world_builtins.specs.Naming.{IsHeldAt};
ghost use Rattle.world_builtins.specs.Spelling.{reads};

use crate::terms::text_at;
use atom_api::Atoms;
use pl_term::{Memory, Node};
use std::alloc::Global;
use term_store::{Arguments, Place, Store, View};
use term_writer::Writing;

/// Puts the places of arguments on a stack, the first on top. The only error is out of memory.
pub(crate) fn push_arguments(
    store: &Store,
    places: &mut Vec<Place>,
    arguments: Arguments,
) -> Result<(), Memory>
    requires { IsArguments store.now arguments }
    ensures { OnOk result (Precedes store.now (arguments_at store.now arguments) places.old.items places.new.items) }
{
    let mut i = arguments.len();
    while i > 0 {
        i -= 1;
        places.push(store.argument(arguments, i))?;
    }
    Ok(())
}

/// The first node of the term at a place, whose arguments' places are put on the stack of places that follow. The only error is
/// out of memory.
fn first_node<A: Atoms>(
    alloc: Global,
    store: &Store,
    place: Place,
    places: &mut Vec<Place>,
    atoms: &mut A,
) -> Result<Node, Memory>
    requires inside { Holds store.now place }
    requires held { IsHeldAt (A.held atoms.old) store.now place }
    requires others { AreReadable (A.held atoms.old) store.now places.old.items }
    ensures first { IfOk result (λ n. IsFirst (A.held atoms.old) store.now place places.old.items n places.new.items) }
    ensures others { OnOk result (AreReadable (A.held atoms.old) store.now places.new.items) }
    ensures same { A.held atoms.new ≡ A.held atoms.old }
    ensures refusals { A.refusals atoms.new ≡ A.refusals atoms.old }
    ensures asked { A.asked atoms.new ≡ A.asked atoms.old }
{
    match store.look(place) {
        View::Variable(x) => Ok(Node::Var(x)),
        View::Integer(i) => Ok(Node::Int(i)),
        View::Atom(a) => {
            let text = text_at(alloc, a, atoms)?;
            Ok(Node::Atom(text))
        }
        View::Compound(f, arguments) => {
            let text = text_at(alloc, f, atoms)?;
            push_arguments(store, places, arguments)?;
            Ok(Node::Comp(text, arguments.len() as u64))
        }
    }
}

/// Writes what comes with the first node of the term at a place, and puts the places of its arguments on the stack. The only
/// error is out of memory.
fn put_first<A: Atoms>(
    alloc: Global,
    store: &Store,
    place: Place,
    places: &mut Vec<Place>,
    writing: &mut Writing,
    atoms: &mut A,
) -> Result<(), Memory>
    requires { (t : Tree) × (w : Begun) × IsOn (A.held atoms.old) store.now t w (places.old.items ++ place ∷ []) writing.old }
    ensures on { OnOk result ((t : Tree) (w : Begun) → IsOn (A.held atoms.old) store.now t w (places.old.items ++ place ∷ []) writing.old
        → IsOn (A.held atoms.old) store.now t w places.new.items writing.new) }
    ensures same { A.held atoms.new ≡ A.held atoms.old }
    ensures refusals { A.refusals atoms.new ≡ A.refusals atoms.old }
    ensures asked { A.asked atoms.new ≡ A.asked atoms.old }
{
    let node = first_node(alloc, store, place, places, atoms)?;
    writing.put(&node)?;
    Ok(())
}

/// Writes the term at a place, which is the one that is to come. The only error is out of memory.
pub fn put_term_at<A: Atoms>(
    alloc: Global,
    store: &Store,
    place: Place,
    writing: &mut Writing,
    atoms: &mut A,
) -> Result<(), Memory>
    requires inside { Holds store.now place }
    requires held { IsHeldAt (A.held atoms.old) store.now place }
    requires one { wants writing.old ≡ 1 }
    ensures none { OnOk result (wants writing.new ≡ 0) }
    ensures finished { OnOk result (finished writing.new none ≡ finished writing.old (more (reads (A.held atoms.old) store.now place) none)) }
    ensures same { A.held atoms.new ≡ A.held atoms.old }
    ensures refusals { A.refusals atoms.new ≡ A.refusals atoms.old }
    ensures asked { A.asked atoms.new ≡ A.asked atoms.old }
{
    let mut places = vec![in alloc; place]?;
    for _ in 0..u64::MAX {
        let Some(next) = places.pop() else {
            return Ok(());
        };
        put_first(alloc, store, next, &mut places, writing, atoms)?;
    }
    Err(Memory)
}
