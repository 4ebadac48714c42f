//! Goals as the shared state is asked for their clauses.
ghost use Rattle.std.specs.Prelude.{◌≡◌, ℕ, ℤ};
ghost use Rattle.pl_term.specs.Tree.{int};
ghost use Rattle.pl_model.specs.Predicates.{proc_of};
ghost use Rattle.term_store.specs.ArgumentKeys.{argument_key, clause_key, head_key};
ghost use Rattle.term_store.specs.Contents.{Holds, term_at};
ghost use Rattle.iso_engine.specs.CalledGoals.{HasPredicate, IsRequest};

use atom_api::fixed;
use term_store::{ArgumentKey, Place, Store, View as Kind};
use world_api::Procedure;

/// By what the clauses for a goal are asked for: its predicate, and the key by which they are found.
#[derive(Clone, Copy, Debug, Drop)]
pub struct Request {
    pub procedure: Procedure,
    pub first: ArgumentKey,
}

/// By what the clauses for the goal at a place are asked for.
#[inline(always)]
pub fn request_at(store: &Store, goal: Place) -> Request
    requires holds { Holds store.now goal }
    requires callable { (i : ℤ) → term_at store.now goal ≡ int i → ⊥ }
    ensures { IsRequest (term_at store.now goal) result }
{
    let procedure = predicate_at(store, goal);
    let first = key_at(store, goal);
    Request { procedure, first }
}

/// The predicate of the goal at a place (ISO 7.1.6.6). A variable stands for `call/1` of it. An integer is no goal.
#[inline(always)]
pub fn predicate_at(store: &Store, goal: Place) -> Procedure
    requires holds { Holds store.now goal }
    requires callable { (i : ℤ) → term_at store.now goal ≡ int i → ⊥ }
    ensures { HasPredicate (term_at store.now goal) result }
{
    match store.look(goal) {
        Kind::Variable(_) => Procedure {
            name: fixed::CALL,
            arity: 1,
        },
        Kind::Integer(_) => unreachable!(),
        Kind::Atom(name) => Procedure { name, arity: 0 },
        Kind::Compound(name, arguments) => Procedure {
            name,
            arity: arguments.len() as u64,
        },
    }
}

/// The key by which the clauses for the goal at a place are found. A rule is found by its head.
#[inline(always)]
pub fn key_at(store: &Store, goal: Place) -> ArgumentKey
    requires { Holds store.now goal }
    ensures { result ≡ clause_key (term_at store.now goal) }
{
    match store.look(goal) {
        Kind::Compound(name, arguments) => {
            let first = store.argument(arguments, 0);
            if name == fixed::NECK && arguments.len() == 2 {
                head_key_at(store, first)
            } else {
                argument_key_at(store, first)
            }
        }
        _ => ArgumentKey::Any,
    }
}

/// The key of the first argument of the head at a place.
#[cold]
#[inline(never)]
fn head_key_at(store: &Store, head: Place) -> ArgumentKey
    requires { Holds store.now head }
    ensures { result ≡ head_key (term_at store.now head) }
{
    match store.look(head) {
        Kind::Compound(_, arguments) => argument_key_at(store, store.argument(arguments, 0)),
        _ => ArgumentKey::Any,
    }
}

/// The key of the argument at a place.
#[inline(always)]
pub fn argument_key_at(store: &Store, argument: Place) -> ArgumentKey
    requires { Holds store.now argument }
    ensures { result ≡ argument_key (term_at store.now argument) }
{
    match store.look(argument) {
        Kind::Variable(_) => ArgumentKey::Any,
        Kind::Integer(i) => ArgumentKey::Int(i),
        Kind::Atom(name) => ArgumentKey::Atom(name.slot()),
        Kind::Compound(name, arguments) => ArgumentKey::Compound(name.slot(), arguments.len()),
    }
}
