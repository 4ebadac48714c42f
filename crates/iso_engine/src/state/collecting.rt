//! garbage_collect_atoms/0 and garbage_collect_clauses/0 (SWI-Prolog manual, section 'Memory'): each asks for a cycle of collection
//! and does not wait for it.
ghost use Rattle.std.specs.Prelude.{◌≡◌, ◌≤◌, ◌++◌, false, length, IfOk, MatchOption, OnErr, OnOk};
ghost use Rattle.term_store.specs.ArgumentKeys.{clause_key};
ghost use Rattle.term_store.specs.NumberedNames.{term_by};
ghost use Rattle.world_api.specs.Asked.{IsInAnswer};
ghost use Rattle.world_api.specs.Gains.{Gains};
ghost use Rattle.world_api.specs.Texts.{Holds, text_of};
ghost use Rattle.world_api.specs.Told.{has_ended};
ghost use Rattle.iso_search.specs.Searching.{IsWhole};
ghost use Rattle.iso_engine.specs.declared.state.collecting.Collection.{Collection};
ghost use Rattle.iso_engine.specs.Collections.{IsCollectAt, collection_name};
ghost use Rattle.iso_engine.specs.Collecting.{IsCollected, IsGoalDone, collection_procedure, collection_visit};
ghost use Rattle.iso_engine.specs.GoalSteps.{IsStepAsked};
ghost use Rattle.iso_engine.specs.Unserved.{OnRefusal, refusals_in};

use atom_api::{Atom, fixed};
use iso_search::outcome::{Fault, Outcome};
use iso_search::search::Search;
use term_store::{ArgumentKey, Place, Stored};
use world_api::{Answer, Procedure, Reply, Unserved, Visit, World};

/// What is collected.
#[derive(Clone, Copy, Debug, Drop)]
pub enum Collection {
    /// garbage_collect_atoms/0.
    Atoms,
    /// garbage_collect_clauses/0.
    Clauses,
}

impl Collection {
    /// The predicate by its name and the number of its arguments.
    pub fn procedure(&self) -> Procedure
        ensures { result ≡ collection_procedure self.now }
    {
        Procedure {
            name: self.name(),
            arity: 0,
        }
    }

    /// The name of the predicate.
    fn name(&self) -> Atom
        ensures { result ≡ collection_name self.now }
    {
        match self {
            Collection::Atoms => fixed::GARBAGE_COLLECT_ATOMS,
            Collection::Clauses => fixed::GARBAGE_COLLECT_CLAUSES,
        }
    }

    /// What it asks.
    fn request(&self) -> Visit<Stored, ArgumentKey>
        ensures { result ≡ collection_visit self.now }
    {
        match self {
            Collection::Atoms => Visit::CollectAtoms,
            Collection::Clauses => Visit::CollectClauses,
        }
    }
}

/// What the predicate with this name and no argument asks to be collected, if it is one of these.
pub fn collection_named(name: Atom) -> Option<Collection>
    ensures { MatchOption result ((x : Collection) → name ≡ collection_name x → ⊥) (λ x. name ≡ collection_name x) }
{
    if name == fixed::GARBAGE_COLLECT_ATOMS {
        return Some(Collection::Atoms);
    }
    if name == fixed::GARBAGE_COLLECT_CLAUSES {
        return Some(Collection::Clauses);
    }
    None
}

/// Takes up the goal at a place, before the tasks of a list: makes an inference, and asks for a cycle. Where the visit is not served
/// nothing has changed, and the goal is to be taken up again.
pub fn collect_goal<W: World<Term = Stored>>(
    search: &mut Search,
    goal: Place,
    collection: Collection,
    rest: usize,
    world: &mut W,
    atoms: &mut W::A,
) -> Result<Outcome, Unserved>
    requires whole { IsWhole search.old }
    requires goal { IsCollectAt search.old.store goal collection }
    requires rest { rest ≤ length search.old.frames.items }
    requires runs { has_ended (W.told world.old).engine (W.told world.old).history ≡ false }
    ensures whole { OnOk result (IsWhole search.new) }
    ensures done { IfOk result (IsGoalDone (W.told world.old) search.old goal rest (W.A.held atoms.new) (W.told world.new) search.new) }
    ensures taken_back { OnRefusal result ((W.told world.new ≡ W.told world.old) × (search.new ≡ search.old)) }
    ensures runs { has_ended (W.told world.new).engine (W.told world.new).history ≡ false }
    ensures holds { Holds (W.A.held atoms.old) (W.A.held atoms.new) }
    ensures refusals { W.A.refusals atoms.new ≡ W.A.refusals atoms.old ++ refusals_in result }
    ensures asks { Gains (IsStepAsked (W.A.held atoms.old) (W.told world.old) search.old goal) (W.A.asked atoms.old) (W.A.asked atoms.new) }
{
    let most = search.budgets.inferences;
    if search.inferences >= most {
        return Ok(Outcome::Raise(Fault::Inferences));
    }
    let _reply = ask_for_cycle(world, atoms, collection)?;
    search.inferences += 1;
    match search.take(0, 0) {
        None => Ok(Outcome::Run(rest)),
        Some(fault) => Ok(Outcome::Raise(fault)),
    }
}

/// Asks for a cycle.
fn ask_for_cycle<W: World<Term = Stored>>(
    world: &mut W,
    atoms: &mut W::A,
    collection: Collection,
) -> Result<Reply<Stored>, Unserved>
    requires runs { has_ended (W.told world.old).engine (W.told world.old).history ≡ false }
    ensures asked { OnOk result (IsCollected (W.told world.old) collection (W.told world.new)) }
    ensures unchanged { OnErr result (W.told world.new ≡ W.told world.old) }
    ensures runs { has_ended (W.told world.new).engine (W.told world.new).history ≡ false }
    ensures holds { Holds (W.A.held atoms.old) (W.A.held atoms.new) }
    ensures refusals { W.A.refusals atoms.new ≡ W.A.refusals atoms.old ++ refusals_in result }
    ensures gains { Gains (IsInAnswer term_by clause_key (text_of (W.A.held atoms.old)) (collection_visit collection) (W.told world.old))
        (W.A.asked atoms.old) (W.A.asked atoms.new) }
{
    match world.visit(collection.request(), atoms) {
        Answer::Served { reply, .. } => Ok(reply),
        Answer::Waits { .. } => unreachable!(),
        Answer::NeedsAtoms(pass) => Err(Unserved::NeedsAtoms(pass)),
        Answer::Retry(cause) => Err(Unserved::Retry(cause)),
        Answer::Worn(word) => Err(Unserved::Worn(word)),
        Answer::Memory => Err(Unserved::Memory),
    }
}
