//! Term unification (ISO 8.2.1).
ghost use Rattle.std.specs.Prelude.{◌≡◌, ◌≤◌, ℕ, ◌∷◌, false, length, IfOk, IfSome, OnOk};
ghost use Rattle.pl_term.specs.Tree.{compound};
ghost use Rattle.atom_api.specs.FixedNames.{equal_name};
ghost use Rattle.term_store.specs.Contents.{Holds, IsArguments, arguments_at, term_at};
ghost use Rattle.term_store.specs.Heap.{atom_name};
ghost use Rattle.iso_search.specs.Frames.{tasks};
ghost use Rattle.iso_search.specs.Searching.{IsWhole};
ghost use Rattle.iso_search.specs.declared.frames.Task.TheVariants.{Goal};
ghost use Rattle.iso_engine.specs.declared.doing.Doing.TheVariants.{Running};
ghost use Rattle.iso_engine.specs.Following.{StepsTo};

use crate::doing::Doing;
use crate::following::follow;
use atom_api::fixed;
use iso_search::outcome::{Fault, Outcome};
use iso_search::search::Search;
use pl_term::Memory;
use std::alloc::Global;
use term_store::{Arguments, Place, Store, View as Kind};
use world_api::Procedure;

/// Takes up the goal `=` of these two arguments. The only error is out of memory.
pub fn equal(
    alloc: Global,
    search: &mut Search,
    goal: Place,
    arguments: Arguments,
    rest: usize,
) -> Result<Doing, Memory>
    requires whole { IsWhole search.old }
    requires goal { term_at search.old.store goal ≡ compound (atom_name equal_name) (arguments_at search.old.store arguments) }
    requires arguments { IsArguments search.old.store arguments }
    requires two { arguments.count ≡ 2 }
    requires rest { rest ≤ length search.old.frames.items }
    ensures whole { OnOk result (IsWhole search.new) }
    ensures step { IfOk result (λ d. (list cut : ℕ) → tasks search.old.frames.items list ≡ Goal goal cut ∷ tasks search.old.frames.items rest
        → StepsTo search.old (Running list) search.new d) }
    ensures budgets { OnOk result (search.new.budgets ≡ search.old.budgets) }
{
    let procedure = Procedure {
        name: fixed::EQUAL,
        arity: 2,
    };
    if !search.infer() {
        let doing = follow(
            alloc,
            search,
            Outcome::Raise(Fault::Inferences),
            procedure,
            rest,
        )?;
        return Ok(doing);
    }
    let left = search.store.argument(arguments, 0);
    let right = search.store.argument(arguments, 1);
    let outcome = search.equal(left, right, rest)?;
    let doing = follow(alloc, search, outcome, procedure, rest)?;
    Ok(doing)
}

/// The arguments of the goal at a place, if it is `=` of two.
pub fn unification_at(store: &Store, goal: Place) -> Option<Arguments>
    requires { Holds store.now goal }
    ensures { IfSome result (λ a. (term_at store.now goal ≡ compound (atom_name equal_name) (arguments_at store.now a)) × (IsArguments store.now a × (a.count ≡ 2))) }
{
    let Kind::Compound(name, arguments) = store.look(goal) else {
        return None;
    };
    if name != fixed::EQUAL {
        return None;
    }
    if arguments.len() != 2 {
        return None;
    }
    Some(arguments)
}
