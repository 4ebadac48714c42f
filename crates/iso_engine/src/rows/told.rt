//! Lines of tables that the shared state told, of which each one that unifies with the arguments is an answer. They stay those
//! that were told, whatever is entered later.
ghost use Rattle.std.specs.Prelude.{◌≡◌, ◌≤◌, ◌<◌, None, [], ◌∷◌, ◌&&◌, length, map, is_some, nat_le, IfOk, IfSome, OnOk};
ghost use Rattle.pl_model.specs.Control.{answer_tried, first_answer, next_answer, several, unified};
ghost use Rattle.pl_model.specs.History.{Proc};
ghost use Rattle.pl_model.specs.Predicates.{proc_of};
ghost use Rattle.pl_model.specs.Terms.{arguments};
ghost use Rattle.pl_model.specs.Unify.{solve_all};
ghost use Rattle.pl_term.specs.Tree.{comp, atom, int, none, more};
ghost use Rattle.std.specs.Prelude.{pos};
ghost use Rattle.atom_api.specs.FixedNames.{slash_name};
ghost use Rattle.atom_api.specs.Names.{Names};
ghost use Rattle.term_store.specs.Contents.{Contents, Holds, term_at};
ghost use Rattle.term_store.specs.Heap.{atom_name};
ghost use Rattle.world_api.specs.Told.{Told as SharedTold};
ghost use Rattle.iso_search.specs.declared.failure.Back.TheVariants.{Told};
ghost use Rattle.iso_search.specs.Conversions.{Grows};
ghost use Rattle.iso_search.specs.Outcomes.{IsAfter, Setting, limits_in, result_in, state_in};
ghost use Rattle.iso_search.specs.Reading.{IsView, View, reads};
ghost use Rattle.iso_search.specs.Searching.{IsWhole, node_of};
ghost use Rattle.iso_search.specs.Told.{constant_term, line_answer, told_answers};
ghost use Rattle.iso_engine.specs.Retrying.{IsGoneOn};
ghost use Rattle.iso_engine.specs.ToldLines.{IsLineUnified, IsNextTold, line_cells};
ghost use Rattle.iso_engine.specs.Unserved.{as_stopped};

use crate::doing::Doing;
use crate::engine::Engine;
use crate::following::follow;
use crate::procedure::procedure_at;
use crate::rows::arguments::unify_arguments;
use crate::slices::Slice;
use atom_api::{Atom, fixed};
use iso_search::choices::Alternative;
use iso_search::outcome::{Fault, Outcome};
use iso_search::search::Search;
use iso_search::told::{Constant, Line};
use pl_term::Memory;
use term_store::{Place, Store};
use world_api::Unserved;

impl Engine {
    /// Goes on with the lines that were told for the goal at a place, from one on, whose choice point was taken off (ISO 7.7.8).
    pub fn retry_told(
        &mut self,
        goal: Place,
        lines: Vec<Line>,
        line: usize,
        next: usize,
    ) -> Result<Option<Slice>, Unserved>
        requires whole { IsWhole self.old.search }
        requires goal { Holds self.old.search.store goal }
        requires next { next ≤ length self.old.search.frames.items }
        ensures whole { OnOk (as_stopped result) (IsWhole self.new.search) }
        ensures gone { IfOk (as_stopped result) (λ o. (n : Names) (t : SharedTold) → IsGoneOn t self.old (Told goal lines line next) n t self.new o) }
        ensures goes_on { IfOk (as_stopped result) (λ o. o ≡ None) }
    {
        let Some(procedure) = procedure_at(&self.search.store, goal) else {
            self.doing = Doing::Failing;
            return Ok(None);
        };
        let outcome = next_told(&mut self.search, goal, lines, line, next)?;
        self.doing = follow(self.alloc, &self.search, outcome, procedure, next)?;
        Ok(None)
    }
}

/// Goes on with the lines that were told for the goal at a place: with the first of them that unifies with its arguments, unless
/// that leaves one choice point too many; or the goal fails. The only error is out of memory.
pub fn first_told(
    search: &mut Search,
    goal: Place,
    lines: Vec<Line>,
    rest: usize,
) -> Result<Outcome, Memory>
    requires whole { IsWhole search.old }
    requires goal { Holds search.old.store goal }
    requires rest { rest ≤ length search.old.frames.items }
    ensures whole { OnOk result (IsWhole search.new) }
    ensures after { IfOk result (IsAfter search.old search.new) }
    ensures step { IfOk result (λ o. (t : Setting) → IsView t.view
        → let e = search.old in let g = reads t.view e.store goal in let n = node_of t.view e rest in
        result_in t search.new n (proc_of g) o
        ≡ first_answer (limits_in t e) (state_in t e) n (proc_of g) (arguments g) (told_answers t.view.names g lines.items 0)) }
{
    let full = leaves_too_many(search, goal, &lines)?;
    if full {
        Ok(Outcome::Raise(Fault::Choices))
    } else {
        let outcome = next_told(search, goal, lines, 0, rest)?;
        Ok(outcome)
    }
}

/// Whether several of the lines unify with the arguments of the goal at a place, and no choice point can be made. The search is as
/// it was. The only error is out of memory.
fn leaves_too_many(search: &mut Search, goal: Place, lines: &Vec<Line>) -> Result<bool, Memory>
    requires { Holds search.old.store goal }
    ensures same { OnOk result (search.new ≡ search.old) }
    ensures tells { IfOk result (λ b. (v : View) → IsView v
        → b ≡ (several (told_answers v.names (reads v search.old.store goal) lines.now.items 0)
        && nat_le search.old.budgets.choices (length search.old.choices.items))) }
{
    if has_no_room(search) {
        let twice = unifies_twice(&mut search.store, goal, lines)?;
        Ok(twice)
    } else {
        Ok(false)
    }
}

/// Whether no choice point can be made.
fn has_no_room(search: &Search) -> bool
    ensures { result ≡ nat_le search.now.budgets.choices (length search.now.choices.items) }
{
    search.choices.len() as u64 >= search.budgets.choices
}

/// Whether several of the lines unify with the arguments of the goal at a place. The store is as it was. The only error is out of
/// memory.
fn unifies_twice(store: &mut Store, goal: Place, lines: &Vec<Line>) -> Result<bool, Memory>
    requires { Holds store.old goal }
    ensures same { OnOk result (store.new ≡ store.old) }
    ensures tells { IfOk result (λ b. (v : View) → IsView v → several (told_answers v.names (reads v store.old goal) lines.now.items 0) ≡ b) }
{
    let Some(first) = next_unifying(store, goal, lines, 0)? else {
        return Ok(false);
    };
    let later = next_unifying(store, goal, lines, first + 1)?;
    match later {
        None => Ok(false),
        Some(_) => Ok(true),
    }
}

/// Goes on with the lines for the goal at a place, from one on, whose choice point was taken off: with the first of them that
/// unifies with its arguments, or the goal fails. The only error is out of memory.
fn next_told(
    search: &mut Search,
    goal: Place,
    lines: Vec<Line>,
    line: usize,
    rest: usize,
) -> Result<Outcome, Memory>
    requires whole { IsWhole search.old }
    requires goal { Holds search.old.store goal }
    requires rest { rest ≤ length search.old.frames.items }
    ensures whole { OnOk result (IsWhole search.new) }
    ensures after { IfOk result (IsAfter search.old search.new) }
    ensures step { IfOk result (λ o. (t : Setting) → IsView t.view
        → let e = search.old in let g = reads t.view e.store goal in let n = node_of t.view e rest in
        result_in t search.new n (proc_of g) o
        ≡ next_answer (limits_in t e) (state_in t e) n (proc_of g) (arguments g) (told_answers t.view.names g lines.items line)) }
{
    let Some(first) = next_unifying(&mut search.store, goal, &lines, line)? else {
        return Ok(Outcome::Fail);
    };
    let later = next_unifying(&mut search.store, goal, &lines, first + 1)?;
    let told = lines[first];
    match later {
        None => {
            let outcome = try_told(search, goal, told, rest)?;
            Ok(outcome)
        }
        Some(line) => {
            search.push_choice(Alternative::Told { goal, lines, line }, rest)?;
            let outcome = try_told(search, goal, told, rest)?;
            Ok(outcome)
        }
    }
}

/// The first of the lines from one on that unifies with the arguments of the goal at a place. The store is as it was. The only
/// error is out of memory.
fn next_unifying(
    store: &mut Store,
    goal: Place,
    lines: &[Line],
    from: usize,
) -> Result<Option<usize>, Memory>
    requires { Holds store.old goal }
    ensures same { OnOk result (store.new ≡ store.old) }
    ensures found { IfOk result (λ o. (v : View) → IsView v
        → IsNextTold (line_answer v.names) (arguments (reads v store.old goal)) lines.now from o) }
    ensures within { IfOk result (λ o. IfSome o (λ k. k < length lines.now)) }
{
    for i in from..lines.len() {
        let same = unifies(store, goal, lines[i])?;
        if same {
            return Ok(Some(i));
        }
    }
    Ok(None)
}

/// Whether the arguments of the goal at a place unify with a line. The store is as it was. The only error is out of memory.
fn unifies(store: &mut Store, goal: Place, line: Line) -> Result<bool, Memory>
    requires { Holds store.old goal }
    ensures same { OnOk result (store.new ≡ store.old) }
    ensures tells { IfOk result (λ b. (v : View) → IsView v
        → is_some (solve_all [] (arguments (reads v store.old goal)) (line_answer v.names line).terms) ≡ b) }
{
    let mark = store.mark();
    let same = unify_line(store, goal, line)?;
    store.undo_to(mark);
    Ok(same)
}

/// Takes the cells of a line, and unifies the arguments of the goal at a place with it: the tasks of the list are next, or the goal
/// fails. The only error is out of memory.
fn try_told(search: &mut Search, goal: Place, line: Line, rest: usize) -> Result<Outcome, Memory>
    requires whole { IsWhole search.old }
    requires goal { Holds search.old.store goal }
    ensures whole { OnOk result (IsWhole search.new) }
    ensures after { IfOk result (IsAfter search.old search.new) }
    ensures step { IfOk result (λ o. (t : Setting) (p : Proc) → IsView t.view
        → let e = search.old in let n = node_of t.view e rest in
        result_in t search.new n p o
        ≡ answer_tried (limits_in t e) (state_in t e) n p (arguments (reads t.view e.store goal)) (line_answer t.view.names line)) }
{
    let cells = cells_of(&line);
    match search.take(0, cells) {
        Some(fault) => Ok(Outcome::Raise(fault)),
        None => {
            let outcome = unify_told(search, goal, line, rest)?;
            Ok(outcome)
        }
    }
}

/// Unifies the arguments of the goal at a place with a line, whose cells were taken. The only error is out of memory.
fn unify_told(search: &mut Search, goal: Place, line: Line, rest: usize) -> Result<Outcome, Memory>
    requires whole { IsWhole search.old }
    requires goal { Holds search.old.store goal }
    ensures whole { OnOk result (IsWhole search.new) }
    ensures after { IfOk result (IsAfter search.old search.new) }
    ensures step { IfOk result (λ o. (t : Setting) (p : Proc) → IsView t.view
        → let e = search.old in let n = node_of t.view e rest in
        result_in t search.new n p o
        ≡ unified (state_in t e) n (solve_all [] (arguments (reads t.view e.store goal)) (line_answer t.view.names line).terms)) }
{
    let same = unify_line(&mut search.store, goal, line)?;
    if same {
        Ok(Outcome::Run(rest))
    } else {
        Ok(Outcome::Fail)
    }
}

/// Makes places for the terms of a line, and unifies the arguments of the goal at a place with them. The only error is out of
/// memory.
fn unify_line(store: &mut Store, goal: Place, line: Line) -> Result<bool, Memory>
    requires { Holds store.old goal }
    ensures { IfOk result (λ b. IsLineUnified b store.old goal line store.new) }
{
    match line {
        Line::Indicator(name, arity) => {
            let indicator = indicator_of(store, name, arity)?;
            let same = unify_arguments(store, goal, &[indicator])?;
            Ok(same)
        }
        Line::Flag(flag, value) => {
            let places = [Place::atom(flag), constant_place(value)];
            let same = unify_arguments(store, goal, &places)?;
            Ok(same)
        }
        Line::Operator(priority, specifier, name) => {
            let number = i64::from(priority);
            let places = [
                Place::integer(number),
                Place::atom(specifier),
                Place::atom(name),
            ];
            let same = unify_arguments(store, goal, &places)?;
            Ok(same)
        }
    }
}

/// The cells of the terms that a line makes: those of a term Name/Arity are three.
fn cells_of(line: &Line) -> u64
    ensures { result ≡ line_cells line.now }
{
    match line {
        Line::Indicator(_, _) => 3,
        Line::Flag(_, _) => 0,
        Line::Operator(_, _, _) => 0,
    }
}

/// The term Name/Arity, whose cells are not counted here. The only error is out of memory.
fn indicator_of(store: &mut Store, name: Atom, arity: u64) -> Result<Place, Memory>
    ensures grows { OnOk result (Grows store.old store.new) }
    ensures inside { IfOk result (Holds store.new) }
    ensures stands { IfOk result (λ p. term_at store.new p
        ≡ comp (atom_name slash_name) (atom (atom_name name)) (more (int (pos arity)) none)) }
{
    let Ok(count) = i64::try_from(arity) else {
        return Err(Memory);
    };
    let indicator = store.make_compound(fixed::SLASH, &[Place::atom(name), Place::integer(count)])?;
    Ok(indicator)
}

/// The place of a constant, in every store.
fn constant_place(value: Constant) -> Place
    ensures { (s : Contents) → Holds s result × ((v : View) → reads v s result ≡ constant_term v.names value) }
{
    match value {
        Constant::Int(i) => Place::integer(i),
        Constant::Atom(name) => Place::atom(name),
    }
}
