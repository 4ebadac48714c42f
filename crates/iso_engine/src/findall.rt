//! All solutions of a goal (ISO 8.10.1).
ghost use Rattle.std.specs.Prelude.{◌≡◌, ◌≤◌, ℕ, ◌∷◌, length, zero, IfOk, OnOk};
ghost use Rattle.term_store.specs.Contents.{Holds};
ghost use Rattle.iso_search.specs.declared.failure.Back.TheVariants.{Found};
ghost use Rattle.iso_search.specs.declared.frames.Task.TheVariants.{Collect};
ghost use Rattle.iso_search.specs.Collecting.{IsCollectionIn, Rise};
ghost use Rattle.iso_search.specs.Failures.{back_result};
ghost use Rattle.iso_search.specs.Frames.{tasks};
ghost use Rattle.iso_search.specs.Outcomes.{Setting};
ghost use Rattle.iso_search.specs.Reading.{IsView};
ghost use Rattle.iso_search.specs.Searching.{IsWhole};
ghost use Rattle.iso_engine.specs.declared.doing.Doing.TheVariants.{Running};
ghost use Rattle.iso_engine.specs.Following.{StepsTo};
ghost use Rattle.iso_engine.specs.Standing.{state_at};

use crate::doing::Doing;
use crate::following::follow;
use atom_api::fixed;
use iso_search::copies::Collection;
use iso_search::search::Search;
use pl_term::Memory;
use std::alloc::Global;
use term_store::Place;
use world_api::Procedure;

/// Collects a copy of the template at a place for the `findall/3` whose choice point stands at this height, before the tasks of a
/// list. The only error is out of memory.
pub fn collect(
    alloc: Global,
    search: &mut Search,
    template: Place,
    height: usize,
    rest: usize,
) -> Result<Doing, Memory>
    requires whole { IsWhole search.old }
    requires template { Holds search.old.store template }
    requires rest { rest ≤ length search.old.frames.items }
    ensures whole { OnOk result (IsWhole search.new) }
    ensures step { IfOk result (λ d. (list : ℕ) → tasks search.old.frames.items list ≡ Collect template height ∷ tasks search.old.frames.items rest
        → StepsTo search.old (Running list) search.new d) }
    ensures budgets { OnOk result (search.new.budgets ≡ search.old.budgets) }
{
    let findall = Procedure {
        name: fixed::FINDALL,
        arity: 3,
    };
    let outcome = search.collect(template, height)?;
    let doing = follow(alloc, search, outcome, findall, rest)?;
    Ok(doing)
}

/// Unifies the third argument of a `findall/3`, at a place, with the list of what it has collected, before the tasks of a list: its
/// goal has no further solution. The only error is out of memory.
pub fn give_list(
    alloc: Global,
    search: &mut Search,
    list: Place,
    found: Collection,
    rest: usize,
) -> Result<Doing, Memory>
    requires whole { IsWhole search.old }
    requires list { Holds search.old.store list }
    requires found { IsCollectionIn search.old.store found }
    requires rise { Rise zero found.copies.items search.old.next_variable }
    requires rest { rest ≤ length search.old.frames.items }
    ensures whole { OnOk result (IsWhole search.new) }
    ensures stands { IfOk result (λ d. (t : Setting) → IsView t.view
        → back_result t search.old (Found list found rest) ≡ state_at t.view search.new d t.output) }
    ensures budgets { OnOk result (search.new.budgets ≡ search.old.budgets) }
{
    let findall = Procedure {
        name: fixed::FINDALL,
        arity: 3,
    };
    let outcome = search.give_list(alloc, list, found, rest)?;
    let doing = follow(alloc, search, outcome, findall, rest)?;
    Ok(doing)
}
