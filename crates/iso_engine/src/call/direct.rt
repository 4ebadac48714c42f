//! Goals whose names are no fixed atoms: no control construct and no built-in predicate is named so.
ghost use Rattle.std.specs.Prelude.{◌≡◌, ◌<◌, ◌≤◌, ℕ, [], ◌∷◌, length, None, IfSome, slice_index_or};
ghost use Rattle.pl_term.specs.Tree.{atom};
ghost use Rattle.builtin_rows.specs.Laws.{TellsRows, TellsShared};
ghost use Rattle.term_store.specs.declared.argument_key.ArgumentKey.TheVariants.{Any};
ghost use Rattle.term_store.specs.ArgumentKeys.{argument_key};
ghost use Rattle.term_store.specs.Contents.{Holds, IsArguments, arguments_at, term_at};
ghost use Rattle.iso_search.specs.declared.frames.Task.TheVariants.{Goal};
ghost use Rattle.iso_search.specs.Frames.{tasks};
ghost use Rattle.iso_search.specs.Searching.{IsWhole};
ghost use Rattle.iso_engine.specs.CalledGoals.{IsRequest};
ghost use Rattle.iso_engine.specs.Calling.{IsCallAt};

use crate::call::goals::{Request, argument_key_at};
use atom_api::{Atom, fixed};
use builtin_rows::predicate_of;
use iso_search::frames::{Task, first_task};
use iso_search::search::Search;
use term_store::{ArgumentKey, Arguments, Place, Store, View as Kind};
use world_api::Procedure;

/// A call of the program's clauses with which a list of tasks begins: the goal at a place, and by what its clauses are asked for.
/// The list `rest` is that of the other tasks.
#[derive(Clone, Copy, Debug, Drop)]
pub struct FirstCall {
    pub goal: Place,
    pub request: Request,
    pub rest: usize,
}

/// The call with which a list begins, if it begins with a goal whose name is no fixed atom.
#[inline(always)]
pub fn first_call(search: &Search, list: usize) -> Option<FirstCall>
    requires { IsWhole search.now }
    ensures first { IfSome result (λ f. (cut : ℕ) × (tasks search.now.frames.items list ≡ Goal f.goal cut ∷ tasks search.now.frames.items f.rest)) }
    ensures rest { IfSome result (λ f. f.rest ≤ length search.now.frames.items) }
    ensures goal { IfSome result (λ f. Holds search.now.store f.goal) }
    ensures asked { IfSome result (λ f. IsRequest (term_at search.now.store f.goal) f.request) }
    ensures calls { IfSome result (λ f. IsCallAt search.now.store f.goal f.request.procedure) }
{
    let frame = first_task(&search.frames, list)?;
    let Task::Goal(goal, _) = frame.task else {
        return None;
    };
    let request = direct_call(&search.store, goal)?;
    let rest = frame.continuation;
    Some(FirstCall {
        goal,
        request,
        rest,
    })
}

/// By what the clauses for the goal at a place are asked for, if its name is no fixed atom: then the goal calls the program's clauses.
#[inline(always)]
pub fn direct_call(store: &Store, goal: Place) -> Option<Request>
    requires { Holds store.now goal }
    ensures calls { IfSome result (λ r. IsCallAt store.now goal r.procedure) }
    ensures asked { IfSome result (IsRequest (term_at store.now goal)) }
{
    match store.look(goal) {
        Kind::Variable(_) => None,
        Kind::Integer(_) => None,
        Kind::Atom(name) => atom_call(name),
        Kind::Compound(name, arguments) => compound_call(store, name, arguments),
    }
}

/// The same of a goal that is an atom.
#[inline(always)]
fn atom_call(name: Atom) -> Option<Request>
    ensures named { IfSome result (λ r. r.procedure ≡ record { name = name; arity = 0 }) }
    ensures key { IfSome result (λ r. r.first ≡ Any) }
    ensures own { IfSome result (λ r. 203 ≤ name) }
    ensures rows { IfSome result (λ r. TellsRows name 0 None) }
    ensures shares { IfSome result (λ r. TellsShared name 0 None) }
{
    match own_predicate(name, 0) {
        None => None,
        Some(procedure) => Some(Request {
            procedure,
            first: ArgumentKey::Any,
        }),
    }
}

/// The same of a goal with this name and these arguments.
#[inline(always)]
fn compound_call(store: &Store, name: Atom, arguments: Arguments) -> Option<Request>
    requires arguments { IsArguments store.now arguments }
    requires some { 0 < arguments.count }
    ensures named { IfSome result (λ r. r.procedure ≡ record { name = name; arity = arguments.count }) }
    ensures key { IfSome result (λ r. r.first ≡ argument_key (slice_index_or (arguments_at store.now arguments) 0 (atom []))) }
    ensures own { IfSome result (λ r. 203 ≤ name) }
    ensures rows { IfSome result (λ r. TellsRows name arguments.count None) }
    ensures shares { IfSome result (λ r. TellsShared name arguments.count None) }
{
    match own_predicate(name, arguments.len()) {
        None => None,
        Some(procedure) => {
            let argument = store.argument(arguments, 0);
            let first = argument_key_at(store, argument);
            Some(Request { procedure, first })
        }
    }
}

/// The predicate with this name and so many arguments, if the name is no fixed atom: there are 203 of these.
#[inline(always)]
fn own_predicate(name: Atom, arity: usize) -> Option<Procedure>
    ensures named { IfSome result (λ p. p ≡ record { name = name; arity = arity }) }
    ensures own { IfSome result (λ p. 203 ≤ name) }
    ensures rows { IfSome result (λ p. TellsRows name arity None) }
    ensures shares { IfSome result (λ p. TellsShared name arity None) }
{
    if (name.slot() as usize) < fixed::COUNT {
        return None;
    }
    match predicate_of(name, arity) {
        None => Some(Procedure {
            name,
            arity: arity as u64,
        }),
        Some(_) => None,
    }
}
