//! Tasks that are done without the shared state.
ghost use Rattle.std.specs.Prelude.{◌≡◌, ◌≤◌, ℕ, ◌∷◌, false, true, length, IfNone, IfOk, IfSome, OnOk};
ghost use Rattle.pl_model.specs.Control.{construct};
ghost use Rattle.term_store.specs.Contents.{Holds};
ghost use Rattle.iso_search.specs.declared.frames.Task.TheVariants.{Goal};
ghost use Rattle.iso_search.specs.Choices.{IsTaskIn};
ghost use Rattle.iso_search.specs.Constructs.{IsConstructIn, construction};
ghost use Rattle.iso_search.specs.Frames.{tasks};
ghost use Rattle.iso_search.specs.Goals.{IsLeft};
ghost use Rattle.iso_search.specs.Reading.{IsView, View, reads};
ghost use Rattle.iso_search.specs.Searching.{IsWhole};
ghost use Rattle.iso_engine.specs.declared.doing.Doing.TheVariants.{Running};
ghost use Rattle.iso_engine.specs.declared.running.Did.TheVariants.{Next};
ghost use Rattle.iso_engine.specs.Calling.{is_passing_kind};
ghost use Rattle.iso_engine.specs.Following.{HasProcedure, IsInteger, StepsTo};
ghost use Rattle.iso_engine.specs.Tasks.{IsDone, IsForOthers, IsKindAt, IsKindOf, IsLeftOver, IsOwnDid, IsOwnKind, IsViewed};

use crate::builtin::{Builtin, RowGoal, builtin_at};
use crate::doing::Doing;
use crate::equal::{equal, unification_at};
use crate::findall::collect;
use crate::following::follow;
use crate::kinds::{is_other, is_write};
use crate::procedure::procedure_at;
use crate::state::collecting::Collection;
use crate::state::looks::{Look, LookGoal};
use iso_search::construct::Construct;
use iso_search::frames::{Frame, Task};
use iso_search::search::Search;
use pl_term::Memory;
use shared_builtins::StateGoal;
use std::alloc::Global;
use term_store::{Place, Store};
use world_api::Procedure;

/// What came of a task.
#[derive(Drop)]
pub enum Did {
    /// This is done next.
    Next(Doing),
    /// The task is a call of the program's clauses for the goal at a place, which has this predicate. Nothing has changed.
    Call(Place, Procedure),
    /// The task is this goal of a built-in predicate that is a function of its arguments. Nothing has changed.
    Row(RowGoal),
    /// The task is this goal of a built-in predicate of the shared state. Nothing has changed.
    Ask(StateGoal),
    /// The task is the goal at a place, which writes and has this predicate. Nothing has changed.
    Write(Place, Procedure),
    /// The task is this goal of clause/2 or retract/1. Nothing has changed.
    Look(LookGoal),
    /// The task is the goal at a place of thread_exit/1, with this term. Nothing has changed.
    Exit(Place, Place),
    /// The task is the goal at a place that asks for a cycle of this collection. Nothing has changed.
    Collect(Place, Collection),
    /// The task is the goal at a place of retractall/1, with this head. Nothing has changed.
    Clear(Place, Place),
}

/// Does a task, before those of a list; where it is to run a goal, the goal is of the kind. The only error is out of memory.
pub fn do_task(
    alloc: Global,
    search: &mut Search,
    frame: Frame,
    kind: Construct,
) -> Result<Did, Memory>
    requires whole { IsWhole search.old }
    requires task { IsTaskIn search.old.store frame.task }
    requires kind { IsKindOf search.old.store frame.task kind }
    requires rest { frame.continuation ≤ length search.old.frames.items }
    requires viewed { IsViewed }
    ensures whole { OnOk result (IsWhole search.new) }
    ensures done { IfOk result (IsDone search.old frame.task frame.continuation search.new) }
    ensures budgets { OnOk result (search.new.budgets ≡ search.old.budgets) }
{
    if let Some(doing) = leave(search, frame) {
        return Ok(Did::Next(doing));
    }
    match frame.task {
        Task::Goal(goal, cut) => {
            let did = do_goal(alloc, search, goal, kind, cut, frame.continuation)?;
            Ok(did)
        }
        Task::Collect(template, height) => {
            let doing = collect(alloc, search, template, height, frame.continuation)?;
            Ok(Did::Next(doing))
        }
        _ => unreachable!(),
    }
}

/// Does a task, if it is an exit: from a condition, from `once/1`, from `\+` or from `catch/3`.
fn leave(search: &mut Search, frame: Frame) -> Option<Doing>
    requires { IsWhole search.old }
    ensures whole { IsWhole search.new }
    ensures step { IfSome result (λ d. (list : ℕ) → tasks search.old.frames.items list ≡ frame.task ∷ tasks search.old.frames.items frame.continuation
        → StepsTo search.old (Running list) search.new d) }
    ensures others { IfNone result (IsForOthers frame.task × (search.new ≡ search.old)) }
    ensures budgets { search.new.budgets ≡ search.old.budgets }
{
    match frame.task {
        Task::Goal(_, _) => None,
        Task::Commit(height) => {
            search.cut_to(height);
            Some(Doing::Running(frame.continuation))
        }
        Task::Refute(height) => {
            search.cut_to(height);
            Some(Doing::Failing)
        }
        Task::Leave(_) => Some(Doing::Running(frame.continuation)),
        Task::Collect(_, _) => None,
    }
}

/// Takes up a goal that only has further tasks done, or drops choice points (ISO 7.8.1, 7.8.4, 7.8.5), before the tasks of a list.
/// These are the most of a body beside its calls. The answer is the list that is next. The only error is out of memory.
#[inline(always)]
pub fn pass(
    search: &mut Search,
    goal: Place,
    kind: Construct,
    cut: usize,
    rest: usize,
) -> Result<usize, Memory>
    requires whole { IsWhole search.old }
    requires goal { Holds search.old.store goal }
    requires inside { IsConstructIn search.old.store kind }
    requires stands { (v : View) → IsView v → construction v search.old.store kind ≡ construct (reads v search.old.store goal) }
    requires passes { is_passing_kind kind ≡ true }
    requires rest { rest ≤ length search.old.frames.items }
    ensures whole { OnOk result (IsWhole search.new) }
    ensures done { IfOk result (λ k. IsDone search.old (Goal goal cut) rest search.new (Next (Running k))) }
    ensures budgets { OnOk result (search.new.budgets ≡ search.old.budgets) }
{
    match kind {
        Construct::Succeeds => Ok(rest),
        Construct::Cuts => {
            search.cut_to(cut);
            Ok(rest)
        }
        Construct::Conjunction(left, right) => {
            let second = search.push(Task::Goal(right, cut), rest)?;
            let list = search.push(Task::Goal(left, cut), second)?;
            Ok(list)
        }
        _ => unreachable!(),
    }
}

/// Takes up a goal of this kind, before the tasks of a list. The only error is out of memory. An integer is no goal: no conversion of a term
/// to a body leaves one in its place (ISO 7.6.2).
fn do_goal(
    alloc: Global,
    search: &mut Search,
    goal: Place,
    kind: Construct,
    cut: usize,
    rest: usize,
) -> Result<Did, Memory>
    requires whole { IsWhole search.old }
    requires goal { Holds search.old.store goal }
    requires kind { IsKindAt search.old.store goal kind }
    requires rest { rest ≤ length search.old.frames.items }
    requires viewed { IsViewed }
    ensures whole { OnOk result (IsWhole search.new) }
    ensures done { IfOk result (IsDone search.old (Goal goal cut) rest search.new) }
    ensures budgets { OnOk result (search.new.budgets ≡ search.old.budgets) }
{
    if let Some(arguments) = unification_at(&search.store, goal) {
        let doing = equal(alloc, search, goal, arguments, rest)?;
        return Ok(Did::Next(doing));
    }
    let Some(procedure) = procedure_at(&search.store, goal) else {
        return Err(Memory);
    };
    let known = Procedure {
        name: procedure.name,
        arity: procedure.arity,
    };
    let taken = take_up(alloc, search, goal, kind, procedure, cut, rest)?;
    match taken {
        Some(doing) => Ok(Did::Next(doing)),
        None => Ok(left_over(&search.store, goal, kind, known)),
    }
}

/// What a goal of this predicate is that is no control construct: a call of the program's clauses, a built-in predicate that is
/// a function of its arguments, one of the shared state, a goal that writes, or one that is a step of the search of its own.
fn left_over(store: &Store, goal: Place, kind: Construct, procedure: Procedure) -> Did
    requires holds { Holds store.now goal }
    requires callable { IsInteger store.now goal → ⊥ }
    requires procedure { HasProcedure store.now goal procedure }
    requires inside { IsConstructIn store.now kind }
    requires stands { (v : View) → IsView v → construction v store.now kind ≡ construct (reads v store.now goal) }
    requires left { IsLeft kind }
    requires viewed { IsViewed }
    ensures { IsLeftOver store.now goal result }
{
    if is_other(kind) {
        match builtin_at(store, goal) {
            Builtin::Row(row) => Did::Row(row),
            Builtin::State(state) => Did::Ask(state),
            Builtin::Collect(collection) => Did::Collect(goal, collection),
            Builtin::No => Did::Call(goal, procedure),
        }
    } else if is_write(kind) {
        Did::Write(goal, procedure)
    } else {
        own_step(goal, kind)
    }
}

/// What a goal of this kind is that looks through the clauses, leaves a thread or erases clauses.
fn own_step(goal: Place, kind: Construct) -> Did
    requires { IsOwnKind kind }
    ensures { IsOwnDid goal kind result }
{
    match kind {
        Construct::Exits(term) => Did::Exit(goal, term),
        Construct::Clears(head) => Did::Clear(goal, head),
        Construct::Retracts(term) => Did::Look(LookGoal {
            place: goal,
            look: Look::Retracts(term),
        }),
        Construct::Inspects(head, body) => Did::Look(LookGoal {
            place: goal,
            look: Look::Inspects(head, body),
        }),
        _ => unreachable!(),
    }
}

/// Takes up a goal that is a control construct. None where the goal is something else. The only error is out of memory.
fn take_up(
    alloc: Global,
    search: &mut Search,
    goal: Place,
    kind: Construct,
    procedure: Procedure,
    cut: usize,
    rest: usize,
) -> Result<Option<Doing>, Memory>
    requires whole { IsWhole search.old }
    requires goal { Holds search.old.store goal }
    requires inside { IsConstructIn search.old.store kind }
    requires stands { (v : View) → IsView v → construction v search.old.store kind ≡ construct (reads v search.old.store goal) }
    requires procedure { HasProcedure search.old.store goal procedure }
    requires rest { rest ≤ length search.old.frames.items }
    ensures whole { OnOk result (IsWhole search.new) }
    ensures step { IfOk result (λ a. IfSome a (λ d. (list : ℕ) → tasks search.old.frames.items list ≡ Goal goal cut ∷ tasks search.old.frames.items rest
        → StepsTo search.old (Running list) search.new d)) }
    ensures others { IfOk result (λ a. IfNone a ((search.new ≡ search.old) × IsLeft kind)) }
    ensures budgets { OnOk result (search.new.budgets ≡ search.old.budgets) }
{
    let taken = search.take_up(alloc, goal, kind, cut, rest)?;
    match taken {
        None => Ok(None),
        Some(outcome) => {
            let doing = follow(alloc, search, outcome, procedure, rest)?;
            Ok(Some(doing))
        }
    }
}
