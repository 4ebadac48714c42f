//! Clauses that clause-terms give (ISO 7.6.1, 7.6.2, 8.9.1).
ghost use Rattle.std.specs.Prelude.{◌≡◌, IfOk, OnOk};
ghost use Rattle.atom_api.specs.Names.{Names};
ghost use Rattle.builtin_rows.specs.Lists.{IsNaming};
ghost use Rattle.term_store.specs.Contents.{Holds};
ghost use Rattle.world_builtins.specs.Naming.{IsHeldAt};
ghost use Rattle.world_builtins.specs.Spelling.{reads};
ghost use Rattle.iso_search.specs.Conversions.{Grows};
ghost use Rattle.shared_builtins.specs.Clauses.{IsBodyIn, IsBodyOf, IsClauseFault, IsClauseOf, IsGoalOf, body_fault, clause_read};
ghost use Rattle.shared_builtins.specs.Kept.{IsKept};
ghost use Rattle.shared_builtins.specs.Telling.{TellsAtoms};

use crate::arguments::kept_at;
use crate::checks::{Check, first_fault};
use crate::faults::Fault;
use crate::parts::{Parts, parts_at};
use atom_api::fixed;
use iso_search::bodies::converted_at;
use pl_term::Memory;
use std::alloc::Global;
use term_store::{Place, Store, Stored};

/// What a clause-term gives.
#[derive(Drop)]
pub enum Given {
    /// The clause, kept as one term: a rule whose body is converted to a goal, or a head alone.
    Clause(Stored),
    /// The term gives none, for this error.
    Refused(Fault),
}

/// What the body of a clause-term comes to.
#[derive(Clone, Copy, Drop)]
pub enum Body {
    /// The goal that it is converted to.
    Goal(Place),
    /// The clause is refused for this error.
    Refused(Fault),
}

/// The clause that the term at a place gives. The only error is out of memory. The store is as it was.
pub fn clause_at(alloc: Global, store: &mut Store, term: Place) -> Result<Given, Memory>
    requires { Holds store.old term }
    ensures kept { OnOk result (store.new ≡ store.old) }
    ensures clause { IfOk result (λ g. (m : Names) → TellsAtoms m → IsHeldAt m store.old term → IsClauseOf m store.old term g) }
{
    let mark = store.mark();
    let given = made_clause(alloc, store, term)?;
    store.undo_to(mark);
    Ok(given)
}

/// The same, where the store may have grown.
fn made_clause(alloc: Global, store: &mut Store, term: Place) -> Result<Given, Memory>
    requires { Holds store.old term }
    ensures grows { Grows store.old store.new }
    ensures clause { IfOk result (λ g. (m : Names) → TellsAtoms m → IsHeldAt m store.old term → IsClauseOf m store.old term g) }
{
    let parts = parts_at(store, term);
    let body = body_at(alloc, store, parts)?;
    match body {
        Body::Goal(goal) => {
            let clause = kept_clause(alloc, store, term, parts, goal)?;
            Ok(Given::Clause(clause))
        }
        Body::Refused(fault) => Ok(Given::Refused(fault)),
    }
}

/// The goal for the body of a clause with these parts, or the error for which the clause is refused. The only error of the call
/// is out of memory.
fn body_at(alloc: Global, store: &mut Store, parts: Parts) -> Result<Body, Memory>
    requires head { Holds store.old parts.head }
    requires body { Holds store.old parts.body }
    ensures grows { Grows store.old store.new }
    ensures inside { IfOk result (IsBodyIn store.new) }
    ensures body { IfOk result (λ b. (m : Names) → TellsAtoms m → IsHeldAt m store.old parts.head → IsHeldAt m store.old parts.body
        → IsBodyOf m store.old parts store.new b) }
{
    let checks = [Check::Bound(parts.head), Check::Callable(parts.head)];
    match first_fault(store, &checks) {
        Some(fault) => Ok(Body::Refused(fault)),
        None => {
            let body = goal_at(alloc, store, parts.body)?;
            Ok(body)
        }
    }
}

/// The goal that a body is converted to, or the error that it is none. The only error of the call is out of memory.
fn goal_at(alloc: Global, store: &mut Store, body: Place) -> Result<Body, Memory>
    requires { Holds store.old body }
    ensures grows { Grows store.old store.new }
    ensures inside { IfOk result (IsBodyIn store.new) }
    ensures goal { IfOk result (λ b. (m : Names) → TellsAtoms m → IsHeldAt m store.old body → IsGoalOf m store.old body store.new b) }
{
    let _whole = store.mark();
    let converted = converted_at(alloc, store, body)?;
    match converted {
        Some(goal) => Ok(Body::Goal(goal)),
        None => Ok(Body::Refused(Fault::For(fixed::TYPE_ERROR, fixed::CALLABLE, body))),
    }
}

/// The clause with this head and this goal for its body, kept as one term. The only error is out of memory, which is found at
/// once where shared parts make the term larger than any memory.
fn kept_clause(
    alloc: Global,
    store: &mut Store,
    term: Place,
    parts: Parts,
    goal: Place,
) -> Result<Stored, Memory>
    requires term { Holds store.old term }
    requires head { Holds store.old parts.head }
    requires goal { Holds store.old goal }
    ensures grows { Grows store.old store.new }
    ensures kept { IfOk result (λ k. (m : Names) → IsNaming m → IsHeldAt m store.old term → IsHeldAt m store.old parts.head → IsHeldAt m store.old goal
        → IsKept m (clause_read m store.old term parts goal) k) }
{
    let clause = clause_term(store, term, parts, goal)?;
    let kept = kept_at(store, clause)?;
    let entered = for_calls(alloc, &kept)?;
    Ok(entered)
}

/// The clause in the form in which calls enter it too. The only error is out of memory.
fn for_calls(alloc: Global, clause: &Stored) -> Result<Stored, Memory>
    ensures { IfOk result (λ k. k ≡ clause.now) }
{
    let both = Stored::clause_from_nodes(alloc, clause.nodes())?;
    Ok(both)
}

/// The clause with this head and this goal for its body as one term. The only error is out of memory.
fn clause_term(store: &mut Store, term: Place, parts: Parts, goal: Place) -> Result<Place, Memory>
    requires term { Holds store.old term }
    requires head { Holds store.old parts.head }
    requires goal { Holds store.old goal }
    ensures grows { Grows store.old store.new }
    ensures inside { IfOk result (Holds store.new) }
    ensures read { IfOk result (λ p. (m : Names) → IsNaming m → reads m store.new p ≡ clause_read m store.old term parts goal) }
    ensures held { IfOk result (λ p. (m : Names) → IsNaming m → IsHeldAt m store.old term → IsHeldAt m store.old parts.head → IsHeldAt m store.old goal
        → IsHeldAt m store.new p) }
{
    if parts.is_rule {
        let rule = store.make_compound(fixed::NECK, &[parts.head, goal])?;
        Ok(rule)
    } else {
        Ok(term)
    }
}

/// The error for which the term at a place gives no clause, if there is one. The only error of the call is out of memory. The
/// store is as it was.
pub fn clause_fault(alloc: Global, store: &mut Store, term: Place) -> Result<Option<Fault>, Memory>
    requires { Holds store.old term }
    ensures kept { OnOk result (store.new ≡ store.old) }
    ensures fault { IfOk result (λ o. (m : Names) → TellsAtoms m → IsHeldAt m store.old term → IsClauseFault m store.old term o) }
{
    let mark = store.mark();
    let parts = parts_at(store, term);
    let body = body_at(alloc, store, parts)?;
    store.undo_to(mark);
    Ok(fault_in(body))
}

/// The error, if there is one.
fn fault_in(body: Body) -> Option<Fault>
    ensures { result ≡ body_fault body }
{
    match body {
        Body::Goal(_) => None,
        Body::Refused(fault) => Some(fault),
    }
}
