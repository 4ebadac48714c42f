//! Calls of the clauses of the program, and looks at them.
ghost use Rattle.std.specs.Prelude.{◌≡◌, ◌<◌, ◌≤◌, ◌++◌, ℤ, List, length, false, IfNone, IfOk, IfSome, OnOk, IsSome};
ghost use Rattle.std.specs.List.{All};
ghost use Rattle.pl_term.specs.Tree.{int};
ghost use Rattle.term_store.specs.Contents.{Holds, term_at};
ghost use Rattle.term_store.specs.NumberedNames.{atoms_in};
ghost use Rattle.world_api.specs.Texts.{Holds as AreHeld};
ghost use Rattle.world_api.specs.Told.{has_ended};
ghost use Rattle.iso_search.specs.declared.choices.Purpose.TheVariants.{Resolving};
ghost use Rattle.iso_search.specs.Searching.{IsWhole};
ghost use Rattle.world_api.specs.Gains.{Gains};
ghost use Rattle.world_api.specs.declared.reply.Reply.TheVariants.{Clauses};
ghost use Rattle.iso_engine.specs.ClausesAsked.{IsListAsked, visit_of};
ghost use Rattle.iso_engine.specs.CalledGoals.{IsRequest};
ghost use Rattle.iso_engine.specs.Called.{AreLooked, IsCalled, IsRun, IsTakenBack};
ghost use Rattle.iso_engine.specs.declared.call.called.Called.TheVariants.{Ran};
ghost use Rattle.iso_engine.specs.Purposes.{listed_in};
ghost use Rattle.iso_engine.specs.Replies.{IsFollowed, IsListOrError};
ghost use Rattle.iso_engine.specs.Unserved.{OnRefusal, refusals_in};

use crate::call::called::Called;
use crate::call::clauses::try_first_clause;
use crate::call::goals::{Request, request_at};
use crate::call::retries::listed_at;
use iso_search::choices::Purpose;
use iso_search::outcome::Outcome;
use iso_search::search::Search;
use pl_term::Memory;
use term_store::{ArgumentKey, Place, Stored};
use world_api::{Answer, Asked, Found, Procedure, Reply, Unserved, Visit, World};

/// Calls the program's clauses for the goal at a place, before the tasks of a list (ISO 7.7.10): makes an inference, asks the
/// shared state for the first of the clauses, and tries it. Where the visit is not served, nothing has changed, and the call is
/// to be made again. When memory runs out the search is not to be used any more.
#[inline(always)]
pub fn call_clauses<W: World<Term = Stored>>(
    search: &mut Search,
    world: &mut W,
    atoms: &mut W::A,
    goal: Place,
    rest: usize,
) -> Result<Called, Unserved>
    requires whole { IsWhole search.old }
    requires goal { Holds search.old.store goal }
    requires callable { (i : ℤ) → term_at search.old.store goal ≡ int i → ⊥ }
    requires rest { rest ≤ length search.old.frames.items }
    requires held { All (λ a. IsSome (W.A.held atoms.old a)) (atoms_in (term_at search.old.store goal)) }
    requires runs { has_ended (W.told world.old).engine (W.told world.old).history ≡ false }
    ensures whole { OnOk result (IsWhole search.new) }
    ensures called { IfOk result (IsCalled (W.A.held atoms.old) (W.told world.old) search.old goal rest
        (W.A.held atoms.new) (W.told world.new) search.new) }
    ensures taken_back { OnRefusal result (IsTakenBack (W.told world.old) search.old (W.told world.new) search.new) }
    ensures budgets { OnOk result (search.new.budgets ≡ search.old.budgets) }
    ensures runs { has_ended (W.told world.new).engine (W.told world.new).history ≡ false }
    ensures holds { AreHeld (W.A.held atoms.old) (W.A.held atoms.new) }
    ensures refusals { W.A.refusals atoms.new ≡ W.A.refusals atoms.old ++ refusals_in result }
    ensures asked { Gains (IsListAsked Resolving (W.A.held atoms.old) (W.told world.old) search.old goal) (W.A.asked atoms.old) (W.A.asked atoms.new) }
{
    let most = search.budgets.inferences;
    if search.inferences >= most {
        return Ok(Called::Spent);
    }
    look_through(search, Purpose::Resolving, world, atoms, goal, rest)
}

/// Does the same where an inference can be made and the world knows the first of the clauses. None: nothing has changed. The only
/// error is out of memory.
#[inline(always)]
pub fn call_known<W: World<Term = Stored>>(
    search: &mut Search,
    world: &mut W,
    atoms: &mut W::A,
    goal: Place,
    request: Request,
    rest: usize,
) -> Result<Option<Outcome>, Memory>
    requires whole { IsWhole search.old }
    requires goal { Holds search.old.store goal }
    requires request { IsRequest (term_at search.old.store goal) request }
    requires rest { rest ≤ length search.old.frames.items }
    requires held { All (λ a. IsSome (W.A.held atoms.old a)) (atoms_in (term_at search.old.store goal)) }
    requires runs { has_ended (W.told world.old).engine (W.told world.old).history ≡ false }
    ensures whole { OnOk result (IsWhole search.new) }
    ensures called { IfOk result (λ r. IfSome r (IsRun Resolving (W.A.held atoms.old) (W.told world.old) search.old goal rest
        (W.A.held atoms.new) (W.told world.new) search.new)) }
    ensures none { IfOk result (λ r. IfNone r ((W.told world.new ≡ W.told world.old) × (search.new ≡ search.old))) }
    ensures budgets { OnOk result (search.new.budgets ≡ search.old.budgets) }
    ensures runs { has_ended (W.told world.new).engine (W.told world.new).history ≡ false }
    ensures held { W.A.held atoms.new ≡ W.A.held atoms.old }
    ensures refusals { W.A.refusals atoms.new ≡ W.A.refusals atoms.old }
    ensures asked { W.A.asked atoms.new ≡ W.A.asked atoms.old }
{
    let budget = search.budgets.inferences;
    let _mark = search.store.mark();
    if search.inferences >= budget {
        return Ok(None);
    }
    let asked = Asked {
        procedure: request.procedure,
        first: request.first,
        after: None,
    };
    match world.again(&asked, atoms) {
        None => Ok(None),
        Some(generation) => {
            search.inferences += 1;
            let found = W::lent(atoms);
            let outcome = follow_found(search, Purpose::Resolving, goal, rest, found, generation)?;
            Ok(Some(outcome))
        }
    }
}

/// The same for a purpose, where an inference can be made: the clauses for the goal at a place, or for the head of the rule
/// there, are tried with it.
#[inline(never)]
pub fn look_through<W: World<Term = Stored>>(
    search: &mut Search,
    purpose: Purpose,
    world: &mut W,
    atoms: &mut W::A,
    goal: Place,
    rest: usize,
) -> Result<Called, Unserved>
    requires whole { IsWhole search.old }
    requires goal { Holds search.old.store goal }
    requires callable { (i : ℤ) → listed_in purpose (term_at search.old.store goal) ≡ int i → ⊥ }
    requires rest { rest ≤ length search.old.frames.items }
    requires held { All (λ a. IsSome (W.A.held atoms.old a)) (atoms_in (term_at search.old.store goal)) }
    requires runs { has_ended (W.told world.old).engine (W.told world.old).history ≡ false }
    requires count { search.old.inferences < search.old.budgets.inferences }
    ensures whole { OnOk result (IsWhole search.new) }
    ensures called { IfOk result (AreLooked purpose (W.A.held atoms.old) (W.told world.old) search.old goal rest
        (W.A.held atoms.new) (W.told world.new) search.new) }
    ensures taken_back { OnRefusal result (IsTakenBack (W.told world.old) search.old (W.told world.new) search.new) }
    ensures budgets { OnOk result (search.new.budgets ≡ search.old.budgets) }
    ensures runs { has_ended (W.told world.new).engine (W.told world.new).history ≡ false }
    ensures holds { AreHeld (W.A.held atoms.old) (W.A.held atoms.new) }
    ensures refusals { W.A.refusals atoms.new ≡ W.A.refusals atoms.old ++ refusals_in result }
    ensures asked { Gains (IsListAsked purpose (W.A.held atoms.old) (W.told world.old) search.old goal) (W.A.asked atoms.old) (W.A.asked atoms.new) }
{
    let listed = listed_at(&search.store, purpose, goal);
    let request = request_at(&search.store, listed);
    visit_first(search, purpose, world, atoms, goal, rest, listed, request)
}

/// The same by a visit. The clauses are those for the goal at the place `listed`, and are asked for by the request.
#[inline(never)]
fn visit_first<W: World<Term = Stored>>(
    search: &mut Search,
    purpose: Purpose,
    world: &mut W,
    atoms: &mut W::A,
    goal: Place,
    rest: usize,
    listed: Place,
    request: Request,
) -> Result<Called, Unserved>
    requires whole { IsWhole search.old }
    requires goal { Holds search.old.store goal }
    requires listed { Holds search.old.store listed }
    requires stands { term_at search.old.store listed ≡ listed_in purpose (term_at search.old.store goal) }
    requires request { IsRequest (term_at search.old.store listed) request }
    requires rest { rest ≤ length search.old.frames.items }
    requires held { All (λ a. IsSome (W.A.held atoms.old a)) (atoms_in (term_at search.old.store goal)) }
    requires runs { has_ended (W.told world.old).engine (W.told world.old).history ≡ false }
    requires count { search.old.inferences < search.old.budgets.inferences }
    ensures whole { OnOk result (IsWhole search.new) }
    ensures called { IfOk result (AreLooked purpose (W.A.held atoms.old) (W.told world.old) search.old goal rest
        (W.A.held atoms.new) (W.told world.new) search.new) }
    ensures taken_back { OnRefusal result (IsTakenBack (W.told world.old) search.old (W.told world.new) search.new) }
    ensures budgets { OnOk result (search.new.budgets ≡ search.old.budgets) }
    ensures runs { has_ended (W.told world.new).engine (W.told world.new).history ≡ false }
    ensures holds { AreHeld (W.A.held atoms.old) (W.A.held atoms.new) }
    ensures refusals { W.A.refusals atoms.new ≡ W.A.refusals atoms.old ++ refusals_in result }
    ensures asked { Gains (IsListAsked purpose (W.A.held atoms.old) (W.told world.old) search.old goal) (W.A.asked atoms.old) (W.A.asked atoms.new) }
{
    let _most = search.budgets.inferences;
    let _mark = search.store.mark();
    let visit = visit_for(purpose, request.procedure, request.first);
    match world.visit(visit, atoms) {
        Answer::Served { reply, generation } => {
            search.inferences += 1;
            let called = follow_reply(search, purpose, goal, rest, reply, generation)?;
            Ok(called)
        }
        Answer::Waits { .. } => unreachable!(),
        Answer::NeedsAtoms(pass) => Err(Unserved::NeedsAtoms(pass)),
        Answer::Retry(cause) => Err(Unserved::Retry(cause)),
        Answer::Worn(word) => Err(Unserved::Worn(word)),
        Answer::Memory => Err(Unserved::Memory),
    }
}

/// The visit by which the clauses for a goal are asked for.
#[inline(always)]
fn visit_for(
    purpose: Purpose,
    procedure: Procedure,
    first: ArgumentKey,
) -> Visit<Stored, ArgumentKey>
    ensures { result ≡ visit_of purpose procedure first }
{
    match purpose {
        Purpose::Resolving => Visit::Call { procedure, first },
        Purpose::Inspecting => Visit::Inspect { procedure, first },
        Purpose::Retracting => Visit::Retract { procedure, first },
    }
}

/// Goes on by the reply to a request for clauses, where the inference was made. The only error is out of memory.
#[inline(always)]
pub fn follow_reply(
    search: &mut Search,
    purpose: Purpose,
    goal: Place,
    rest: usize,
    reply: Reply<Stored>,
    generation: u64,
) -> Result<Called, Memory>
    requires whole { IsWhole search.old }
    requires goal { Holds search.old.store goal }
    requires rest { rest ≤ length search.old.frames.items }
    requires reply { IsListOrError reply }
    ensures whole { OnOk result (IsWhole search.new) }
    ensures followed { IfOk result (IsFollowed purpose search.old goal rest generation reply search.new) }
    ensures budgets { OnOk result (search.new.budgets ≡ search.old.budgets) }
{
    match reply {
        Reply::Clauses(found) => {
            let outcome = follow_found(search, purpose, goal, rest, &found, generation)?;
            Ok(Called::Ran(outcome))
        }
        Reply::Refused(error) => Ok(Called::Refused(error)),
        _ => unreachable!(),
    }
}

/// Goes on by the first of the clauses, or where there is none, where the inference was made. The only error is out of memory.
#[inline(always)]
fn follow_found(
    search: &mut Search,
    purpose: Purpose,
    goal: Place,
    rest: usize,
    found: &Option<Found<Stored>>,
    generation: u64,
) -> Result<Outcome, Memory>
    requires whole { IsWhole search.old }
    requires goal { Holds search.old.store goal }
    requires rest { rest ≤ length search.old.frames.items }
    ensures whole { OnOk result (IsWhole search.new) }
    ensures followed { IfOk result (λ o. IsFollowed purpose search.old goal rest generation (Clauses found.now) search.new (Ran o)) }
    ensures budgets { OnOk result (search.new.budgets ≡ search.old.budgets) }
{
    let outcome = try_first_clause(search, purpose, goal, rest, generation, found)?;
    Ok(outcome)
}
