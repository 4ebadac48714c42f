//! Going back to clauses that were not tried.
ghost use Rattle.std.specs.Prelude.{◌≡◌, ◌≤◌, ◌++◌, ◌∷◌, ℤ, List, length, false, IfNone, IfOk, IfSome, OnOk, IsSome};
ghost use Rattle.std.specs.List.{All};
ghost use Rattle.pl_term.specs.Tree.{int};
ghost use Rattle.term_store.specs.Contents.{Holds, term_at};
ghost use Rattle.term_store.specs.NumberedNames.{atoms_in};
ghost use Rattle.world_api.specs.Texts.{Holds as AreHeld};
ghost use Rattle.world_api.specs.Gains.{Gains};
ghost use Rattle.world_api.specs.Told.{has_ended};
ghost use Rattle.iso_search.specs.declared.choices.Alternative.TheVariants.{Clauses};
ghost use Rattle.iso_search.specs.Choices.{choice_at, listed_goal, purpose_of};
ghost use Rattle.iso_search.specs.Reading.{View, reads};
ghost use Rattle.iso_search.specs.Searching.{IsWhole, choices_of, node_of};
ghost use Rattle.iso_engine.specs.CalledGoals.{IsRequest};
ghost use Rattle.iso_engine.specs.ClausesAsked.{IsRetryAsked};
ghost use Rattle.iso_engine.specs.Purposes.{listed_in};
ghost use Rattle.iso_engine.specs.Ready.{MayGoOn};
ghost use Rattle.iso_engine.specs.Retried.{IsNextRun, IsPutBack};
ghost use Rattle.iso_engine.specs.Unserved.{OnRefusal, UnlessMemory, refusals_in};
ghost use Rattle.iso_engine.specs.Views.{view_of};

use crate::call::clauses::{parts_at, try_next_clause};
use crate::call::goals::{Request, request_at};
use iso_search::choices::{Alternative, Purpose};
use iso_search::outcome::Outcome;
use iso_search::search::Search;
use pl_term::Memory;
use term_store::{Place, Store, Stored};
use world_api::{After, Answer, Asked, Reply, Unserved, Visit, World};

/// Goes on with the clauses for the goal at a place, or for the rule of clause/2 or retract/1, that were not tried (ISO 7.7.8), whose
/// choice point was taken off: those of the generation after the clause with the place, before the tasks of a list. They are those for the goal at the
/// place `listed`, by the request. Asks the shared state for the next of them, and
/// tries it. Where the visit is not served, the choice point is there again. When memory runs out the search is not to be used
/// any more.
#[inline(always)]
pub fn retry_clauses<W: World<Term = Stored>>(
    search: &mut Search,
    world: &mut W,
    atoms: &mut W::A,
    purpose: Purpose,
    goal: Place,
    generation: u64,
    place: u64,
    next: usize,
    listed: Place,
    request: Request,
) -> Result<Outcome, Unserved>
    requires whole { IsWhole search.old }
    requires goal { Holds search.old.store goal }
    requires listed { Holds search.old.store listed }
    requires stands { term_at search.old.store listed ≡ listed_in purpose (term_at search.old.store goal) }
    requires request { IsRequest (term_at search.old.store listed) request }
    requires next { next ≤ length search.old.frames.items }
    requires held { All (λ a. IsSome (W.A.held atoms.old a)) (atoms_in (term_at search.old.store goal)) }
    requires open { let g = reads (view_of (W.A.held atoms.old) (W.told world.old)) search.old.store goal in
        MayGoOn (W.told world.old) (listed_goal (purpose_of purpose) g) generation place }
    requires runs { has_ended (W.told world.old).engine (W.told world.old).history ≡ false }
    ensures whole { UnlessMemory result (IsWhole search.new) }
    ensures retried { IfOk result (IsNextRun (W.told world.old) search.old purpose goal generation place next
        (W.A.held atoms.new) (W.told world.new) search.new) }
    ensures put_back { OnRefusal result (IsPutBack (W.told world.old) search.old purpose goal generation place next (W.told world.new) search.new) }
    ensures budgets { UnlessMemory result (search.new.budgets ≡ search.old.budgets) }
    ensures runs { has_ended (W.told world.new).engine (W.told world.new).history ≡ false }
    ensures holds { AreHeld (W.A.held atoms.old) (W.A.held atoms.new) }
    ensures refusals { UnlessMemory result (W.A.refusals atoms.new ≡ W.A.refusals atoms.old ++ refusals_in result) }
    ensures asked { Gains (IsRetryAsked (W.A.held atoms.old) (W.told world.old) search.old purpose goal generation place) (W.A.asked atoms.old) (W.A.asked atoms.new) }
{
    let known = retry_known(
        search, world, atoms, purpose, goal, generation, place, next, listed, request,
    )?;
    match known {
        Some(outcome) => Ok(outcome),
        None => retry_anew(search, world, atoms, purpose, goal, generation, place, next),
    }
}

/// The same, where the world knows the next of the clauses: tries it. None: nothing has changed. The only error is out of memory.
#[inline(always)]
pub fn retry_known<W: World<Term = Stored>>(
    search: &mut Search,
    world: &mut W,
    atoms: &mut W::A,
    purpose: Purpose,
    goal: Place,
    generation: u64,
    place: u64,
    next: usize,
    listed: Place,
    request: Request,
) -> Result<Option<Outcome>, Memory>
    requires whole { IsWhole search.old }
    requires goal { Holds search.old.store goal }
    requires listed { Holds search.old.store listed }
    requires stands { term_at search.old.store listed ≡ listed_in purpose (term_at search.old.store goal) }
    requires request { IsRequest (term_at search.old.store listed) request }
    requires next { next ≤ length search.old.frames.items }
    requires held { All (λ a. IsSome (W.A.held atoms.old a)) (atoms_in (term_at search.old.store goal)) }
    requires open { let g = reads (view_of (W.A.held atoms.old) (W.told world.old)) search.old.store goal in
        MayGoOn (W.told world.old) (listed_goal (purpose_of purpose) g) generation place }
    requires runs { has_ended (W.told world.old).engine (W.told world.old).history ≡ false }
    ensures whole { OnOk result (IsWhole search.new) }
    ensures retried { IfOk result (λ r. IfSome r (IsNextRun (W.told world.old) search.old purpose goal generation place next
        (W.A.held atoms.new) (W.told world.new) search.new)) }
    ensures none { IfOk result (λ r. IfNone r ((W.told world.new ≡ W.told world.old) × (search.new ≡ search.old))) }
    ensures budgets { OnOk result (search.new.budgets ≡ search.old.budgets) }
    ensures runs { has_ended (W.told world.new).engine (W.told world.new).history ≡ false }
    ensures held { W.A.held atoms.new ≡ W.A.held atoms.old }
    ensures refusals { W.A.refusals atoms.new ≡ W.A.refusals atoms.old }
    ensures asked { W.A.asked atoms.new ≡ W.A.asked atoms.old }
{
    let _mark = search.store.mark();
    let asked = Asked {
        procedure: request.procedure,
        first: request.first,
        after: Some(After { generation, place }),
    };
    match world.again(&asked, atoms) {
        None => Ok(None),
        Some(_) => {
            let found = W::lent(atoms);
            let outcome = try_next_clause(search, purpose, goal, next, generation, found)?;
            Ok(Some(outcome))
        }
    }
}

/// The same by a visit.
#[cold]
#[inline(never)]
fn retry_anew<W: World<Term = Stored>>(
    search: &mut Search,
    world: &mut W,
    atoms: &mut W::A,
    purpose: Purpose,
    goal: Place,
    generation: u64,
    place: u64,
    next: usize,
) -> Result<Outcome, Unserved>
    requires whole { IsWhole search.old }
    requires goal { Holds search.old.store goal }
    requires callable { (i : ℤ) → listed_in purpose (term_at search.old.store goal) ≡ int i → ⊥ }
    requires next { next ≤ length search.old.frames.items }
    requires held { All (λ a. IsSome (W.A.held atoms.old a)) (atoms_in (term_at search.old.store goal)) }
    requires open { let g = reads (view_of (W.A.held atoms.old) (W.told world.old)) search.old.store goal in
        MayGoOn (W.told world.old) (listed_goal (purpose_of purpose) g) generation place }
    requires runs { has_ended (W.told world.old).engine (W.told world.old).history ≡ false }
    ensures whole { UnlessMemory result (IsWhole search.new) }
    ensures retried { IfOk result (IsNextRun (W.told world.old) search.old purpose goal generation place next
        (W.A.held atoms.new) (W.told world.new) search.new) }
    ensures put_back { OnRefusal result (IsPutBack (W.told world.old) search.old purpose goal generation place next (W.told world.new) search.new) }
    ensures budgets { UnlessMemory result (search.new.budgets ≡ search.old.budgets) }
    ensures runs { has_ended (W.told world.new).engine (W.told world.new).history ≡ false }
    ensures holds { AreHeld (W.A.held atoms.old) (W.A.held atoms.new) }
    ensures refusals { UnlessMemory result (W.A.refusals atoms.new ≡ W.A.refusals atoms.old ++ refusals_in result) }
    ensures asked { Gains (IsRetryAsked (W.A.held atoms.old) (W.told world.old) search.old purpose goal generation place) (W.A.asked atoms.old) (W.A.asked atoms.new) }
{
    let _mark = search.store.mark();
    let listed = listed_at(&search.store, purpose, goal);
    let request = request_at(&search.store, listed);
    let visit = Visit::Next {
        procedure: request.procedure,
        first: request.first,
        generation,
        place,
    };
    match world.visit(visit, atoms) {
        Answer::Served { reply, .. } => {
            let Reply::Clauses(found) = reply else {
                unreachable!();
            };
            let outcome = try_next_clause(search, purpose, goal, next, generation, &found)?;
            Ok(outcome)
        }
        Answer::NeedsAtoms(pass) => {
            put_back(search, purpose, goal, generation, place, next)?;
            Err(Unserved::NeedsAtoms(pass))
        }
        Answer::Retry(cause) => {
            put_back(search, purpose, goal, generation, place, next)?;
            Err(Unserved::Retry(cause))
        }
        Answer::Worn(word) => {
            put_back(search, purpose, goal, generation, place, next)?;
            Err(Unserved::Worn(word))
        }
        Answer::Waits { .. } => Err(Unserved::Memory),
        Answer::Memory => Err(Unserved::Memory),
    }
}

/// Makes a choice point of the clauses that were not tried, before the tasks of a list. The only error is out of memory.
#[cold]
#[inline(never)]
pub fn put_back(
    search: &mut Search,
    purpose: Purpose,
    goal: Place,
    generation: u64,
    place: u64,
    next: usize,
) -> Result<(), Memory>
    requires whole { IsWhole search.old }
    requires goal { Holds search.old.store goal }
    requires next { next ≤ length search.old.frames.items }
    ensures whole { OnOk result (IsWhole search.new) }
    ensures choices { OnOk result ((v : View) → choices_of v search.new
        ≡ choice_at v (reads v search.old.store) (node_of v search.old next) (Clauses purpose goal generation place) ∷ choices_of v search.old) }
    ensures kept { search.new ≡ record search.old { choices = search.new.choices } }
{
    let left = Alternative::Clauses {
        purpose,
        goal,
        generation,
        place,
    };
    search.push_choice(left, next)?;
    Ok(())
}

/// The goal for which the clauses are listed: the goal at a place, or the head of the rule there.
#[inline(always)]
pub fn listed_at(store: &Store, purpose: Purpose, goal: Place) -> Place
    requires { Holds store.now goal }
    ensures holds { Holds store.now result }
    ensures stands { term_at store.now result ≡ listed_in purpose (term_at store.now goal) }
{
    match purpose {
        Purpose::Resolving => goal,
        Purpose::Inspecting => parts_at(store, goal).0,
        Purpose::Retracting => parts_at(store, goal).0,
    }
}
