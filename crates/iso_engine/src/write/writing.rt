//! Goals that write, as steps of a search.
ghost use Rattle.std.specs.Prelude.{◌≡◌, ◌++◌, false, IfOk, OnOk};
ghost use Rattle.atom_api.specs.Names.{Names};
ghost use Rattle.term_store.specs.declared.words.Place.{Place as PlaceOf};
ghost use Rattle.term_store.specs.Contents.{Holds};
ghost use Rattle.world_api.specs.Texts.{Holds as AreHeld};
ghost use Rattle.world_api.specs.Told.{has_ended};
ghost use Rattle.world_builtins.specs.Naming.{IsHeldAt};
ghost use Rattle.iso_search.specs.Searching.{IsWhole};
ghost use Rattle.iso_engine.specs.declared.write.goals.OutputGoal.TheVariants.{Canonical, NewLine, Term};
ghost use Rattle.iso_engine.specs.OutputGoals.{IsGoalHeld, IsGoalOf, IsHeldIn, IsOutputIn};
ghost use Rattle.iso_engine.specs.Unserved.{OnRefusal, refusals_in};
ghost use Rattle.iso_engine.specs.Wrote.{IsTakenBack, IsTried, IsWrote, WritesAlone};

use crate::write::characters::put_character;
use crate::write::goals::{OutputGoal, output_at};
use crate::write::wrote::Wrote;
use atom_api::Atoms;
use iso_search::outcome::Outcome;
use iso_search::search::Search;
use pl_term::Memory;
use std::alloc::Global;
use term_store::Place;
use world_api::{Unserved, World};
use world_builtins::{Style, nl, write, write_canonical};

/// Takes up the goal at a place, if it is one that writes, before the tasks of a list: makes an inference, asks the shared
/// state for the operators where terms are written under them, and puts the text after what was written (ISO 8.12.1,
/// 8.12.3 and 8.14.2). None where the goal is another one: then nothing has changed. Where the visit is not served, nothing has
/// changed either. When memory runs out neither the search nor what was written is to be used any more.
pub fn write_goal<W: World>(
    alloc: Global,
    search: &mut Search,
    world: &mut W,
    atoms: &mut W::A,
    out: &mut Vec<u8>,
    goal: Place,
    rest: usize,
) -> Result<Option<Wrote>, Unserved>
    requires whole { IsWhole search.old }
    requires goal { Holds search.old.store goal }
    requires held { IsGoalHeld (W.A.held atoms.old) search.old.store goal }
    requires runs { has_ended (W.told world.old).engine (W.told world.old).history ≡ false }
    ensures whole { OnOk result (IsWhole search.new) }
    ensures wrote { IfOk result (IsTried (W.A.held atoms.old) (W.told world.old) search.old goal rest out.old.items
        (W.A.held atoms.new) (W.told world.new) search.new out.new.items) }
    ensures taken_back { OnRefusal result (IsTakenBack (W.told world.old) search.old out.old.items (W.told world.new) search.new out.new.items) }
    ensures budgets { OnOk result (search.new.budgets ≡ search.old.budgets) }
    ensures runs { has_ended (W.told world.new).engine (W.told world.new).history ≡ false }
    ensures holds { AreHeld (W.A.held atoms.old) (W.A.held atoms.new) }
    ensures refusals { W.A.refusals atoms.new ≡ W.A.refusals atoms.old ++ refusals_in result }
    ensures asked { W.A.asked atoms.new ≡ W.A.asked atoms.old }
{
    let Some(output) = output_at(&search.store, goal) else {
        return Ok(None);
    };
    let wrote = write_output(alloc, search, world, atoms, out, output, rest)?;
    Ok(Some(wrote))
}

/// Does a goal that writes.
fn write_output<W: World>(
    alloc: Global,
    search: &mut Search,
    world: &mut W,
    atoms: &mut W::A,
    out: &mut Vec<u8>,
    output: OutputGoal,
    rest: usize,
) -> Result<Wrote, Unserved>
    requires whole { IsWhole search.old }
    requires inside { IsOutputIn search.old.store output }
    requires held { IsHeldIn (W.A.held atoms.old) search.old.store output }
    requires runs { has_ended (W.told world.old).engine (W.told world.old).history ≡ false }
    ensures whole { OnOk result (IsWhole search.new) }
    ensures wrote { IfOk result (λ w. (goal : PlaceOf) → IsGoalOf search.old.store output goal
        → IsWrote (W.A.held atoms.old) (W.told world.old) search.old goal rest out.old.items (W.A.held atoms.new) (W.told world.new) search.new out.new.items w) }
    ensures taken_back { OnRefusal result (IsTakenBack (W.told world.old) search.old out.old.items (W.told world.new) search.new out.new.items) }
    ensures budgets { OnOk result (search.new.budgets ≡ search.old.budgets) }
    ensures runs { has_ended (W.told world.new).engine (W.told world.new).history ≡ false }
    ensures holds { AreHeld (W.A.held atoms.old) (W.A.held atoms.new) }
    ensures refusals { W.A.refusals atoms.new ≡ W.A.refusals atoms.old ++ refusals_in result }
    ensures asked { W.A.asked atoms.new ≡ W.A.asked atoms.old }
{
    match output {
        OutputGoal::Term(style, term) => {
            write_term(alloc, search, world, atoms, out, style, term, rest)
        }
        OutputGoal::Canonical(term) => {
            let wrote = write_alone(alloc, search, atoms, out, term, rest)?;
            Ok(wrote)
        }
        OutputGoal::NewLine => {
            let wrote = new_line(search, out, rest)?;
            Ok(wrote)
        }
        OutputGoal::Character(term) => {
            let wrote = put_character(search, atoms, out, term, rest)?;
            Ok(wrote)
        }
    }
}

/// write/1, writeq/1 and print/1.
fn write_term<W: World>(
    alloc: Global,
    search: &mut Search,
    world: &mut W,
    atoms: &mut W::A,
    out: &mut Vec<u8>,
    style: Style,
    term: Place,
    rest: usize,
) -> Result<Wrote, Unserved>
    requires whole { IsWhole search.old }
    requires inside { Holds search.old.store term }
    requires held { IsHeldAt (W.A.held atoms.old) search.old.store term }
    requires runs { has_ended (W.told world.old).engine (W.told world.old).history ≡ false }
    ensures whole { OnOk result (IsWhole search.new) }
    ensures wrote { IfOk result (λ w. (goal : PlaceOf) → IsGoalOf search.old.store (Term style term) goal
        → IsWrote (W.A.held atoms.old) (W.told world.old) search.old goal rest out.old.items (W.A.held atoms.new) (W.told world.new) search.new out.new.items w) }
    ensures taken_back { OnRefusal result (IsTakenBack (W.told world.old) search.old out.old.items (W.told world.new) search.new out.new.items) }
    ensures budgets { OnOk result (search.new.budgets ≡ search.old.budgets) }
    ensures runs { has_ended (W.told world.new).engine (W.told world.new).history ≡ false }
    ensures holds { AreHeld (W.A.held atoms.old) (W.A.held atoms.new) }
    ensures refusals { W.A.refusals atoms.new ≡ W.A.refusals atoms.old ++ refusals_in result }
    ensures asked { W.A.asked atoms.new ≡ W.A.asked atoms.old }
{
    let most = search.budgets.inferences;
    if search.inferences >= most {
        return Ok(Wrote::Spent);
    }
    write(alloc, style, &search.store, term, world, atoms, out)?;
    search.inferences += 1;
    Ok(Wrote::Ran(Outcome::Run(rest)))
}

/// write_canonical/1. The only error is out of memory.
fn write_alone<A: Atoms>(
    alloc: Global,
    search: &mut Search,
    atoms: &mut A,
    out: &mut Vec<u8>,
    term: Place,
    rest: usize,
) -> Result<Wrote, Memory>
    requires whole { IsWhole search.old }
    requires inside { Holds search.old.store term }
    requires held { IsHeldAt (A.held atoms.old) search.old.store term }
    ensures whole { OnOk result (IsWhole search.new) }
    ensures wrote { IfOk result (WritesAlone (A.held atoms.old) search.old (Canonical term) rest out.old.items search.new out.new.items) }
    ensures budgets { OnOk result (search.new.budgets ≡ search.old.budgets) }
    ensures same { A.held atoms.new ≡ A.held atoms.old }
    ensures refusals { A.refusals atoms.new ≡ A.refusals atoms.old }
    ensures asked { A.asked atoms.new ≡ A.asked atoms.old }
{
    let most = search.budgets.inferences;
    if search.inferences >= most {
        return Ok(Wrote::Spent);
    }
    write_canonical(alloc, &search.store, term, atoms, out)?;
    search.inferences += 1;
    Ok(Wrote::Ran(Outcome::Run(rest)))
}

/// nl/0. The only error is out of memory.
fn new_line(search: &mut Search, out: &mut Vec<u8>, rest: usize) -> Result<Wrote, Memory>
    requires whole { IsWhole search.old }
    ensures whole { OnOk result (IsWhole search.new) }
    ensures wrote { (m : Names) → IfOk result (WritesAlone m search.old NewLine rest out.old.items search.new out.new.items) }
    ensures budgets { OnOk result (search.new.budgets ≡ search.old.budgets) }
{
    let most = search.budgets.inferences;
    if search.inferences >= most {
        return Ok(Wrote::Spent);
    }
    nl(out)?;
    search.inferences += 1;
    Ok(Wrote::Ran(Outcome::Run(rest)))
}
