//! clause/2 and retract/1 (ISO 8.8.1, 8.9.3), as steps of a search: they look through the clauses for a head.
ghost use Rattle.std.specs.Prelude.{◌≡◌, ◌≤◌, ◌<◌, ◌++◌, false, length, IfOk, IfSome, None, OnOk};
ghost use Rattle.std.specs.Option.{option_map};
ghost use Rattle.pl_term.specs.Tree.{Tree, comp, more, none};
ghost use Rattle.atom_api.specs.FixedNames.{neck_name};
ghost use Rattle.atom_api.specs.Names.{Names};
ghost use Rattle.term_store.specs.Contents.{Holds as IsIn, term_at};
ghost use Rattle.term_store.specs.Heap.{atom_name};
ghost use Rattle.world_api.specs.Gains.{Gains};
ghost use Rattle.world_api.specs.Texts.{Holds};
ghost use Rattle.world_api.specs.Told.{has_ended};
ghost use Rattle.world_builtins.specs.Naming.{IsHeldAt};
ghost use Rattle.pl_model.specs.Control.{raised};
ghost use Rattle.pl_model.specs.Predicates.{proc_of};
ghost use Rattle.iso_search.specs.Conversions.{Grows};
ghost use Rattle.iso_search.specs.Outcomes.{IsAfter, Setting, result_in, state_in};
ghost use Rattle.iso_search.specs.Reading.{IsView, View, reads};
ghost use Rattle.iso_search.specs.Searching.{IsWhole, node_of};
ghost use Rattle.shared_builtins.specs.Faults.{IsFaultHeld, IsFaultIn, fault_term};
ghost use Rattle.shared_builtins.specs.Telling.{TellsAtoms};
ghost use Rattle.iso_engine.specs.ClauseLooks.{IsLookAt, IsLookDone, IsLookHeld, IsLookIn, IsLookOver, look_error, looked_rule};
ghost use Rattle.iso_engine.specs.GoalSteps.{IsStepAsked};
ghost use Rattle.iso_engine.specs.Unserved.{OnRefusal, refusals_in};

use crate::call::called::Called;
use crate::call::calls::look_through;
use crate::call::clauses::parts_at;
use crate::state::looks::{Look, LookGoal};
use crate::state::refusing::refuse_goal;
use atom_api::fixed;
use iso_search::search::Search;
use pl_term::Memory;
use shared_builtins::{Check, Fault, clause_fault, first_fault};
use std::alloc::Global;
use term_store::{Place, Store, Stored};
use world_api::{Unserved, World};

/// Takes up the goal, before the tasks of a list: makes an inference, checks the arguments, asks for the first of the clauses,
/// and tries it. Where the visit is not served nothing has changed, and the goal is to be taken up again. When memory runs out
/// the search is not to be used any more.
pub fn look_goal<W: World<Term = Stored>>(
    alloc: Global,
    search: &mut Search,
    goal: &LookGoal,
    rest: usize,
    world: &mut W,
    atoms: &mut W::A,
) -> Result<Called, Unserved>
    requires whole { IsWhole search.old }
    requires goal { IsLookAt search.old.store goal.now }
    requires held { IsHeldAt (W.A.held atoms.old) search.old.store goal.now.place }
    requires rest { rest ≤ length search.old.frames.items }
    requires runs { has_ended (W.told world.old).engine (W.told world.old).history ≡ false }
    ensures whole { OnOk result (IsWhole search.new) }
    ensures looked { IfOk result (IsLookDone (W.told world.old) search.old goal.now rest (W.A.held atoms.new) (W.told world.new) search.new) }
    ensures taken_back { OnRefusal result ((W.told world.new ≡ W.told world.old) × (search.new ≡ search.old)) }
    ensures runs { has_ended (W.told world.new).engine (W.told world.new).history ≡ false }
    ensures holds { Holds (W.A.held atoms.old) (W.A.held atoms.new) }
    ensures refusals { W.A.refusals atoms.new ≡ W.A.refusals atoms.old ++ refusals_in result }
    ensures asks { Gains (IsStepAsked (W.A.held atoms.old) (W.told world.old) search.old goal.now.place) (W.A.asked atoms.old) (W.A.asked atoms.new) }
{
    let most = search.budgets.inferences;
    if search.inferences >= most {
        return Ok(Called::Spent);
    }
    let refused = look_fault(alloc, &mut search.store, goal.look)?;
    match refused {
        Some(fault) => {
            search.inferences += 1;
            let name = goal.look.procedure().name;
            let outcome = refuse_goal(search, goal.place, name, goal.look.arity(), fault, rest)?;
            Ok(Called::Ran(outcome))
        }
        None => look(search, goal, rest, world, atoms),
    }
}

/// The error for which the goal is refused, if there is one. The store is as it was. The only error of the call is out of
/// memory.
fn look_fault(alloc: Global, store: &mut Store, look: Look) -> Result<Option<Fault>, Memory>
    requires { IsLookIn store.old look }
    ensures kept { OnOk result (store.new ≡ store.old) }
    ensures fault { IfOk result (λ o. (m : Names) (v : View) → TellsAtoms m → IsView v → Holds m v.names → IsLookHeld m store.old look
        → (look_error v store.old look ≡ option_map (fault_term m store.old) o) × (IfSome o (IsFaultIn store.old) × IfSome o (IsFaultHeld m store.old))) }
{
    match look {
        Look::Inspects(head, body) => {
            let checks = [
                Check::Bound(head),
                Check::Callable(head),
                Check::Callable(body),
            ];
            Ok(first_fault(store, &checks))
        }
        Look::Retracts(term) => {
            let fault = clause_fault(alloc, store, term)?;
            Ok(fault)
        }
    }
}

/// Asks for the clauses and tries the first of them, where the goal is not refused.
fn look<W: World<Term = Stored>>(
    search: &mut Search,
    goal: &LookGoal,
    rest: usize,
    world: &mut W,
    atoms: &mut W::A,
) -> Result<Called, Unserved>
    requires whole { IsWhole search.old }
    requires goal { IsLookAt search.old.store goal.now }
    requires held { IsHeldAt (W.A.held atoms.old) search.old.store goal.now.place }
    requires rest { rest ≤ length search.old.frames.items }
    requires runs { has_ended (W.told world.old).engine (W.told world.old).history ≡ false }
    requires count { search.old.inferences < search.old.budgets.inferences }
    requires allowed { (v : View) → IsView v → Holds (W.A.held atoms.old) v.names → look_error v search.old.store goal.now.look ≡ None }
    ensures whole { OnOk result (IsWhole search.new) }
    ensures looked { IfOk result (IsLookDone (W.told world.old) search.old goal.now rest (W.A.held atoms.new) (W.told world.new) search.new) }
    ensures taken_back { OnRefusal result ((W.told world.new ≡ W.told world.old) × (search.new ≡ search.old)) }
    ensures runs { has_ended (W.told world.new).engine (W.told world.new).history ≡ false }
    ensures holds { Holds (W.A.held atoms.old) (W.A.held atoms.new) }
    ensures refusals { W.A.refusals atoms.new ≡ W.A.refusals atoms.old ++ refusals_in result }
    ensures asks { Gains (IsStepAsked (W.A.held atoms.old) (W.told world.old) search.old goal.now.place) (W.A.asked atoms.old) (W.A.asked atoms.new) }
{
    let mark = search.store.mark();
    let rule = rule_of(&mut search.store, goal.look)?;
    match look_through(search, goal.look.purpose(), world, atoms, rule, rest) {
        Ok(called) => Ok(called),
        Err(Unserved::NeedsAtoms(pass)) => {
            search.store.undo_to(mark);
            Err(Unserved::NeedsAtoms(pass))
        }
        Err(Unserved::Retry(cause)) => {
            search.store.undo_to(mark);
            Err(Unserved::Retry(cause))
        }
        Err(Unserved::Worn(word)) => {
            search.store.undo_to(mark);
            Err(Unserved::Worn(word))
        }
        Err(Unserved::Memory) => Err(Unserved::Memory),
    }
}

/// The rule that is tried with clauses, as one term. The only error is out of memory. So below.
fn rule_of(store: &mut Store, look: Look) -> Result<Place, Memory>
    requires inside { IsLookIn store.old look }
    requires over { IsLookOver store.old look }
    ensures grows { OnOk result (Grows store.old store.new) }
    ensures inside { IfOk result (IsIn store.new) }
    ensures shape { IfOk result (λ p. (h b : Tree) × (term_at store.new p ≡ comp (atom_name neck_name) h (more b none))) }
    ensures read { IfOk result (λ p. (v : View) → IsView v → reads v store.new p ≡ looked_rule v store.old look) }
    ensures held { IfOk result (λ p. (m : Names) → TellsAtoms m → IsLookHeld m store.old look → IsHeldAt m store.new p) }
{
    match look {
        Look::Inspects(head, body) => {
            let rule = rule_with(store, head, body)?;
            Ok(rule)
        }
        Look::Retracts(term) => {
            let parts = parts_at(store, term);
            let rule = rule_with(store, parts.0, parts.1)?;
            Ok(rule)
        }
    }
}

/// The rule with this head and this body.
fn rule_with(store: &mut Store, head: Place, body: Place) -> Result<Place, Memory>
    requires head { IsIn store.old head }
    requires body { IsIn store.old body }
    ensures grows { OnOk result (Grows store.old store.new) }
    ensures inside { IfOk result (IsIn store.new) }
    ensures stands { IfOk result (λ p. term_at store.new p ≡ comp (atom_name neck_name) (term_at store.old head) (more (term_at store.old body) none)) }
{
    let rule = store.make_compound(fixed::NECK, &[head, body])?;
    Ok(rule)
}
