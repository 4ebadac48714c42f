//! The arguments of a goal, which are unified with places.
ghost use Rattle.std.specs.Prelude.{◌≡◌, ◌<◌, suc, map, IfOk};
ghost use Rattle.std.specs.List.{All};
ghost use Rattle.pl_term.specs.Tree.{after, count, more, trees};
ghost use Rattle.pl_model.specs.Terms.{arguments};
ghost use Rattle.term_store.specs.Contents.{Adds, Holds, SameSize, term_at};
ghost use Rattle.builtin_rows.specs.Rows.{listed};
ghost use Rattle.iso_engine.specs.Leading.{AreUnified};

use builtin_rows::Places;
use pl_term::Memory;
use term_store::{Place, Store, View as Kind};

/// Unifies the arguments of the term at a place with the terms at other places, from left to right, and says whether
/// bindings do so. Where none do, some arguments may have been unified. The only error is out of memory.
pub fn unify_arguments(store: &mut Store, term: Place, places: &[Place]) -> Result<bool, Memory>
    requires term { Holds store.old term }
    requires places { All (Holds store.old) places.now }
    ensures unified { IfOk result (λ b. AreUnified b store.old (arguments (term_at store.old term)) (trees (map (term_at store.old) places.now)) store.new) }
    ensures adds { Adds store.old store.new }
    ensures size { SameSize store.old store.new }
{
    if argument_count(store, term) != places.len() {
        return Ok(false);
    }
    for i in 0..places.len() {
        let argument = argument_at(store, term, i);
        let same = store.unify(argument, places[i])?;
        if !same {
            return Ok(false);
        }
    }
    Ok(true)
}

/// The same with the places of an answer. The only error is out of memory.
pub fn unify_answer(store: &mut Store, term: Place, places: Places) -> Result<bool, Memory>
    requires term { Holds store.old term }
    requires places { All (Holds store.old) (listed places) }
    ensures unified { IfOk result (λ b. AreUnified b store.old (arguments (term_at store.old term)) (trees (map (term_at store.old) (listed places))) store.new) }
    ensures adds { Adds store.old store.new }
    ensures size { SameSize store.old store.new }
{
    match places {
        Places::One(first) => unify_arguments(store, term, &[first]),
        Places::Two(first, second) => unify_arguments(store, term, &[first, second]),
        Places::Three(first, second, third) => unify_arguments(
            store,
            term,
            &[first, second, third],
        ),
    }
}

/// How many arguments the term at a place has.
fn argument_count(store: &Store, term: Place) -> usize
    requires { Holds store.now term }
    ensures { result ≡ count (arguments (term_at store.now term)) }
{
    match store.look(term) {
        Kind::Compound(_, arguments) => arguments.len(),
        _ => 0,
    }
}

/// The place of an argument of the term at a place, counted from 0.
fn argument_at(store: &Store, term: Place, index: usize) -> Place
    requires term { Holds store.now term }
    requires within { index < count (arguments (term_at store.now term)) }
    ensures holds { Holds store.now result }
    ensures stands { let ts = arguments (term_at store.now term) in after index ts ≡ more (term_at store.now result) (after (suc index) ts) }
{
    match store.look(term) {
        Kind::Compound(_, arguments) => store.argument(arguments, index),
        _ => unreachable!(),
    }
}
