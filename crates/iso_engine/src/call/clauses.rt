//! Clauses that are tried for a goal.
ghost use Rattle.std.specs.Prelude.{◌≡◌, ◌≤◌, ◌+◌, ◌<◌, ◌^◌, ◌&&◌, nat_le, ℕ, List, length, IfOk, OnOk};
ghost use Rattle.std.specs.Option.{option_map};
ghost use Rattle.pl_term.specs.Variables.{variables};
ghost use Rattle.pl_model.specs.History.{Clause, Proc, body_part, head_part};
ghost use Rattle.pl_model.specs.Database.{Stored as StoredClause};
ghost use Rattle.pl_model.specs.Predicates.{proc_of};
ghost use Rattle.pl_model.specs.BodyChecks.{rule};
ghost use Rattle.pl_model.specs.Resolution.{resolving};
ghost use Rattle.pl_model.specs.Control.{clause_unified, first_clause, next_clause, pattern, tried, tried_by, unified};
ghost use Rattle.pl_model.specs.Unify.{unify};
ghost use Rattle.pl_model.specs.Terms.{raised_by};
ghost use Rattle.term_store.specs.Contents.{Holds, IsAbove, term_at};
ghost use Rattle.term_store.specs.NumberedNames.{term_by};
ghost use Rattle.world_api.specs.Texts.{text_of};
ghost use Rattle.world_api.specs.Visits.{clause_in};
ghost use Rattle.iso_search.specs.declared.choices.Purpose.TheVariants.{Resolving};
ghost use Rattle.iso_search.specs.Choices.{listed_goal, purpose_of};
ghost use Rattle.iso_search.specs.Conversions.{Stays};
ghost use Rattle.iso_search.specs.Outcomes.{IsAfter, Setting, limits_in, result_in, state_in};
ghost use Rattle.iso_search.specs.Reading.{IsView, reads};
ghost use Rattle.iso_search.specs.Searching.{IsWhole, node_of};
ghost use Rattle.iso_engine.specs.Lists.{IsListed};
ghost use Rattle.iso_engine.specs.Parts.{IsOverAtoms, IsParted, has_more};
ghost use Rattle.iso_engine.specs.Purposes.{erased_outcome};

use atom_api::fixed;
use iso_search::choices::{Alternative, Purpose};
use iso_search::outcome::{Fault, Outcome};
use iso_search::search::Search;
use pl_model::kept::Kept;
use pl_term::Memory;
use term_store::{Place, Store, Stored, View as Kind};
use world_api::Found;

/// Tries the clauses of a list for a goal, or for the rule of clause/2 or retract/1, before the tasks of another list, of which the
/// first was found at the generation. Where others follow it, a choice point is made, unless there are too many. The only error is
/// out of memory.
#[inline(always)]
pub fn try_first_clause(
    search: &mut Search,
    purpose: Purpose,
    goal: Place,
    rest: usize,
    generation: u64,
    found: &Option<Found<Stored>>,
) -> Result<Outcome, Memory>
    requires whole { IsWhole search.old }
    requires goal { Holds search.old.store goal }
    requires rest { rest ≤ length search.old.frames.items }
    ensures whole { OnOk result (IsWhole search.new) }
    ensures step { IfOk result (λ o. (t : Setting) (cs : List (StoredClause Clause)) → IsView t.view
        → let g = reads t.view search.old.store goal in let n = node_of t.view search.old rest in
        let p = purpose_of purpose in
        IsListed t.view (listed_goal p g) generation found.now cs
        → result_in t search.new n (tried_by p g) o ≡ first_clause (limits_in t search.old) p (state_in t search.old) g n cs) }
    ensures after { IfOk result (IsAfter search.old search.new) }
{
    if is_full(search, found) {
        Ok(Outcome::Raise(Fault::Choices))
    } else {
        let outcome = try_next_clause(search, purpose, goal, rest, generation, found)?;
        Ok(outcome)
    }
}

/// Whether a clause was found that others follow, and no choice point can be made.
#[inline(always)]
fn is_full(search: &Search, found: &Option<Found<Stored>>) -> bool
    ensures { result ≡ (has_more found.now && nat_le search.now.budgets.choices (length search.now.choices.items)) }
{
    let height = search.choices.len() as u64;
    follows(found) && search.budgets.choices <= height
}

/// Whether a clause was found that others follow.
#[inline(always)]
fn follows(found: &Option<Found<Stored>>) -> bool
    ensures { result ≡ has_more found.now }
{
    match found {
        None => false,
        Some(f) => f.more,
    }
}

/// Tries the clauses of a list in their order. Where others follow the first one, a choice point is made. The only error is
/// out of memory.
#[inline(always)]
pub fn try_next_clause(
    search: &mut Search,
    purpose: Purpose,
    goal: Place,
    rest: usize,
    generation: u64,
    found: &Option<Found<Stored>>,
) -> Result<Outcome, Memory>
    requires whole { IsWhole search.old }
    requires goal { Holds search.old.store goal }
    requires rest { rest ≤ length search.old.frames.items }
    ensures whole { OnOk result (IsWhole search.new) }
    ensures step { IfOk result (λ o. (t : Setting) (cs : List (StoredClause Clause)) → IsView t.view
        → let g = reads t.view search.old.store goal in let n = node_of t.view search.old rest in
        let p = purpose_of purpose in
        IsListed t.view (listed_goal p g) generation found.now cs
        → result_in t search.new n (tried_by p g) o ≡ next_clause (limits_in t search.old) p (state_in t search.old) g n cs) }
    ensures after { IfOk result (IsAfter search.old search.new) }
{
    match found {
        None => Ok(Outcome::Fail),
        Some(f) => {
            let height = search.choices.len();
            if f.more {
                let alternative = Alternative::Clauses {
                    purpose,
                    goal,
                    generation,
                    place: f.place,
                };
                search.push_choice(alternative, rest)?;
                let outcome = try_clause(search, purpose, goal, rest, height, f.place, &f.clause)?;
                Ok(outcome)
            } else {
                let outcome = try_clause(search, purpose, goal, rest, height, f.place, &f.clause)?;
                Ok(outcome)
            }
        }
    }
}

/// Tries a clause for a goal, or for the rule of clause/2 or retract/1: takes numbers and cells for a copy of it, makes the copy, and
/// unifies. The clause was added at the place; a cut in the body that is to be done goes back to the height. The only error is out
/// of memory.
#[inline(always)]
fn try_clause(
    search: &mut Search,
    purpose: Purpose,
    goal: Place,
    rest: usize,
    height: usize,
    place: u64,
    clause: &Stored,
) -> Result<Outcome, Memory>
    requires whole { IsWhole search.old }
    requires goal { Holds search.old.store goal }
    requires rest { rest ≤ length search.old.frames.items }
    ensures whole { OnOk result (IsWhole search.new) }
    ensures step { IfOk result (λ o. (t : Setting) (c : StoredClause Clause) → IsView t.view
        → clause_in (term_by (text_of t.view.names) clause.now) ≡ c.clause → place ≡ c.place
        → let g = reads t.view search.old.store goal in let n = node_of t.view search.old rest in
        let p = purpose_of purpose in
        result_in t search.new n (tried_by p g) o ≡ tried (limits_in t search.old) p (state_in t search.old) g n height c) }
    ensures after { IfOk result (IsAfter search.old search.new) }
{
    let from = search.next_variable;
    let cells = Kept::cells(clause);
    match search.take(clause.variables(), cells) {
        Some(fault) => Ok(Outcome::Raise(fault)),
        None => {
            let outcome = apply_clause(search, purpose, goal, rest, height, place, clause, from)?;
            Ok(outcome)
        }
    }
}

/// Unifies with a clause whose numbers and cells were taken, as its purpose wants: then the body of the clause is to be done, or
/// the tasks of the list, or the clause that was added at the place is to be erased.
#[inline(always)]
fn apply_clause(
    search: &mut Search,
    purpose: Purpose,
    goal: Place,
    rest: usize,
    height: usize,
    place: u64,
    clause: &Stored,
    from: u64,
) -> Result<Outcome, Memory>
    requires whole { IsWhole search.old }
    requires goal { Holds search.old.store goal }
    requires rest { rest ≤ length search.old.frames.items }
    requires above { IsAbove from search.old.store }
    requires taken { from + length (variables clause.now) ≤ search.old.next_variable }
    ensures whole { OnOk result (IsWhole search.new) }
    ensures step { IfOk result (λ o. (t : Setting) → IsView t.view
        → let g = reads t.view search.old.store goal in let n = node_of t.view search.old rest in
        let c = term_by (text_of t.view.names) clause.now in let p = purpose_of purpose in
        result_in t search.new n (tried_by p g) o
        ≡ clause_unified p (state_in t search.old) n height place (raised_by from (body_part c)) (unify g (raised_by from (pattern p (clause_in c))))) }
    ensures after { IfOk result (IsAfter search.old search.new) }
{
    match purpose {
        Purpose::Resolving => {
            let outcome = resolve(search, goal, rest, height, clause, from)?;
            Ok(outcome)
        }
        _ => {
            let outcome = apply_rule(search, purpose, goal, rest, place, clause, from)?;
            Ok(outcome)
        }
    }
}

/// Does the same for clause/2 and retract/1.
#[cold]
#[inline(never)]
fn apply_rule(
    search: &mut Search,
    purpose: Purpose,
    goal: Place,
    rest: usize,
    place: u64,
    clause: &Stored,
    from: u64,
) -> Result<Outcome, Memory>
    requires whole { IsWhole search.old }
    requires goal { Holds search.old.store goal }
    requires rest { rest ≤ length search.old.frames.items }
    requires above { IsAbove from search.old.store }
    requires taken { from + length (variables clause.now) ≤ search.old.next_variable }
    requires looks { purpose ≡ Resolving → ⊥ }
    ensures whole { OnOk result (IsWhole search.new) }
    ensures step { IfOk result (λ o. (t : Setting) (height : ℕ) → IsView t.view
        → let g = reads t.view search.old.store goal in let n = node_of t.view search.old rest in
        let c = term_by (text_of t.view.names) clause.now in let p = purpose_of purpose in
        result_in t search.new n (tried_by p g) o
        ≡ clause_unified p (state_in t search.old) n height place (raised_by from (body_part c)) (unify g (raised_by from (pattern p (clause_in c))))) }
    ensures after { IfOk result (IsAfter search.old search.new) }
{
    match purpose {
        Purpose::Resolving => unreachable!(),
        Purpose::Inspecting => {
            let outcome = match_rule(search, goal, rest, clause, from)?;
            Ok(outcome)
        }
        Purpose::Retracting => {
            let outcome = match_rule(search, goal, rest, clause, from)?;
            Ok(erased_by(outcome, place))
        }
    }
}

/// Unifies the head of a clause whose numbers and cells were taken with the goal, and puts its body before the tasks of the list.
#[inline(always)]
fn resolve(
    search: &mut Search,
    goal: Place,
    rest: usize,
    height: usize,
    clause: &Stored,
    from: u64,
) -> Result<Outcome, Memory>
    requires whole { IsWhole search.old }
    requires goal { Holds search.old.store goal }
    requires rest { rest ≤ length search.old.frames.items }
    requires above { IsAbove from search.old.store }
    requires taken { from + length (variables clause.now) ≤ search.old.next_variable }
    ensures whole { OnOk result (IsWhole search.new) }
    ensures step { IfOk result (λ o. (t : Setting) (place : ℕ) → IsView t.view
        → let g = reads t.view search.old.store goal in let n = node_of t.view search.old rest in
        let c = term_by (text_of t.view.names) clause.now in
        result_in t search.new n (proc_of g) o
        ≡ clause_unified resolving (state_in t search.old) n height place (raised_by from (body_part c)) (unify g (raised_by from (head_part c)))) }
    ensures after { IfOk result (IsAfter search.old search.new) }
{
    let _nodes = clause.nodes();
    let outcome = search.resolve(goal, clause, from, height, rest)?;
    Ok(outcome)
}

/// Makes a copy of a clause whose numbers and cells were taken, and unifies it, as a rule, with the rule at a place: the tasks of
/// the list are next. A fact is a rule whose body is `true`.
fn match_rule(
    search: &mut Search,
    goal: Place,
    rest: usize,
    clause: &Stored,
    from: u64,
) -> Result<Outcome, Memory>
    requires whole { IsWhole search.old }
    requires goal { Holds search.old.store goal }
    requires above { IsAbove from search.old.store }
    requires taken { from + length (variables clause.now) ≤ search.old.next_variable }
    ensures whole { OnOk result (IsWhole search.new) }
    ensures step { IfOk result (λ o. (t : Setting) (p : Proc) → IsView t.view
        → let n = node_of t.view search.old rest in let c = term_by (text_of t.view.names) clause.now in
        result_in t search.new n p o
        ≡ unified (state_in t search.old) n
        (unify (reads t.view search.old.store goal) (raised_by from (rule (head_part c) (body_part c))))) }
    ensures after { IfOk result (IsAfter search.old search.new) }
{
    let mark = search.store.mark();
    let copy = build_clause(search, clause, from)?;
    let (head, body) = parts_at(&search.store, copy);
    let rule = search.store.make_compound(fixed::NECK, &[head, body])?;
    let outcome = search.unify_since(mark, goal, rule, rest)?;
    Ok(outcome)
}

/// For retract/1 the clause that was added at the place is to be erased where it unified.
fn erased_by(outcome: Outcome, place: u64) -> Outcome
    ensures { result ≡ erased_outcome place outcome }
{
    if let Outcome::Run(list) = outcome {
        Outcome::Erase(place, list)
    } else {
        outcome
    }
}

/// Makes a copy of a clause whose numbers and cells were taken.
pub fn build_clause(search: &mut Search, clause: &Stored, from: u64) -> Result<Place, Memory>
    requires whole { IsWhole search.old }
    requires above { IsAbove from search.old.store }
    requires taken { from + length (variables clause.now) ≤ search.old.next_variable }
    ensures whole { OnOk result (IsWhole search.new) }
    ensures copied { IfOk result (λ p. Holds search.new.store p × (term_at search.new.store p ≡ raised_by from clause.now)) }
    ensures stays { OnOk result (Stays search.old.store search.new.store) }
    ensures named { IsOverAtoms clause.now }
    ensures kept { search.new ≡ record search.old { store = search.new.store } }
{
    let _next = search.next_variable;
    let _nodes = clause.nodes();
    let place = search.store.build(clause, from)?;
    Ok(place)
}

/// The head and the body of the clause at a place. The body of a fact is `true`.
pub fn parts_at(store: &Store, clause: Place) -> (Place, Place)
    requires { Holds store.now clause }
    ensures { IsParted store.now clause result.0 result.1 }
{
    match store.look(clause) {
        Kind::Compound(name, arguments) => {
            if name == fixed::NECK && arguments.len() == 2 {
                (store.argument(arguments, 0), store.argument(arguments, 1))
            } else {
                (clause, Place::atom(fixed::TRUE))
            }
        }
        _ => (clause, Place::atom(fixed::TRUE)),
    }
}
