//! Bodies, which are checked and converted whole before anything of them runs (ISO 7.6.2).
ghost use Rattle.std.specs.Prelude.{◌≡◌, ◌<◌, ◌==◌, ◌||◌, IfOk, IfSome, OnOk, List};
ghost use Rattle.std.specs.List.{All};
ghost use Rattle.pl_term.specs.Tree.{compound};
ghost use Rattle.atom_api.specs.FixedNames.{comma_name, semicolon_name, then_name};
ghost use Rattle.term_store.specs.Heap.{atom_name};
ghost use Rattle.term_store.specs.Contents.{Holds, IsArguments, arguments_at, term_at};
ghost use Rattle.iso_search.specs.Conversions.{Converts, Grows, IsConverted, IsStepIn, Joins, Part, Visits};
ghost use Rattle.iso_search.specs.Reading.{View, IsView};

use atom_api::{Atom, fixed};
use pl_term::Memory;
use std::alloc::Global;
use term_store::{Arguments, Place, Store, View as Kind};

/// What is still to be done of a conversion.
#[derive(Clone, Copy, Drop)]
pub enum Step {
    /// The goal for the body at the place.
    Visit(Place),
    /// The control construct with this name of the last two goals.
    Join(Atom),
}

/// The goal that the body at a place stands for: a variable X stands for call(X). None where an integer stands in the place
/// of a goal. The only error is out of memory.
pub fn converted_at(alloc: Global, store: &mut Store, body: Place) -> Result<Option<Place>, Memory>
    requires { Holds store.old body }
    ensures grows { Grows store.old store.new }
    ensures inside { IfOk result (λ o. IfSome o (Holds store.new)) }
    ensures converted { IfOk result (λ o. (v : View) → IsView v → IsConverted v store.old body store.new o) }
{
    let mut steps = Vec::new(alloc);
    let mut goals = Vec::new(alloc);
    steps.push(Step::Visit(body))?;
    for _ in 0..u64::MAX {
        let Some(step) = steps.pop() else {
            return Ok(goals.pop());
        };
        let callable = take_step(store, &mut steps, &mut goals, step)?;
        if !callable {
            return Ok(None);
        }
    }
    Err(Memory)
}

/// Does a step of a conversion. It answers false where an integer stands in the place of a goal.
fn take_step(
    store: &mut Store,
    steps: &mut Vec<Step>,
    goals: &mut Vec<Place>,
    step: Step,
) -> Result<bool, Memory>
    requires steps { All (IsStepIn store.old) steps.old.items }
    requires goals { All (Holds store.old) goals.old.items }
    requires step { IsStepIn store.old step }
    ensures grows { Grows store.old store.new }
    ensures steps { OnOk result (All (IsStepIn store.new) steps.new.items) }
    ensures goals { OnOk result (All (Holds store.new) goals.new.items) }
    ensures converts { IfOk result (λ b. (v : View) → IsView v
        → Converts b v store.old step steps.old.items goals.old.items store.new steps.new.items goals.new.items) }
{
    match step {
        Step::Visit(body) => {
            let callable = visit(store, steps, goals, body)?;
            Ok(callable)
        }
        Step::Join(name) => {
            let both = join(store, goals, name)?;
            Ok(both)
        }
    }
}

/// Takes the last two goals, and puts the control construct with this name of them in their place.
fn join(store: &mut Store, goals: &mut Vec<Place>, name: Atom) -> Result<bool, Memory>
    requires goals { All (Holds store.old) goals.old.items }
    ensures grows { Grows store.old store.new }
    ensures goals { OnOk result (All (Holds store.new) goals.new.items) }
    ensures joins { IfOk result (λ b. (v : View) (ps : List Part) → Joins b v store.old name ps goals.old.items store.new goals.new.items) }
{
    let Some(second) = goals.pop() else {
        return Ok(false);
    };
    let Some(first) = goals.pop() else {
        return Ok(false);
    };
    let joined = store.make_compound(name, &[first, second])?;
    goals.push(joined)?;
    Ok(true)
}

/// Puts the goal for a body after the others, or what is to be done for it.
fn visit(
    store: &mut Store,
    steps: &mut Vec<Step>,
    goals: &mut Vec<Place>,
    body: Place,
) -> Result<bool, Memory>
    requires steps { All (IsStepIn store.old) steps.old.items }
    requires goals { All (Holds store.old) goals.old.items }
    requires body { Holds store.old body }
    ensures grows { Grows store.old store.new }
    ensures steps { OnOk result (All (IsStepIn store.new) steps.new.items) }
    ensures goals { OnOk result (All (Holds store.new) goals.new.items) }
    ensures converts { IfOk result (λ b. (v : View) → IsView v
        → Converts b v store.old (Step.Visit body) steps.old.items goals.old.items store.new steps.new.items goals.new.items) }
{
    match store.look(body) {
        Kind::Variable(_) => {
            let call = store.make_compound(fixed::CALL, &[body])?;
            goals.push(call)?;
            Ok(true)
        }
        Kind::Integer(_) => Ok(false),
        Kind::Atom(_) => {
            goals.push(body)?;
            Ok(true)
        }
        Kind::Compound(name, arguments) => {
            open(store, steps, goals, body, name, arguments)?;
            Ok(true)
        }
    }
}

/// Puts a compound term after the goals. A control construct of two arguments is to be made anew of the goals for them.
fn open(
    store: &Store,
    steps: &mut Vec<Step>,
    goals: &mut Vec<Place>,
    body: Place,
    name: Atom,
    arguments: Arguments,
) -> Result<(), Memory>
    requires steps { All (IsStepIn store.now) steps.old.items }
    requires goals { All (Holds store.now) goals.old.items }
    requires body { Holds store.now body }
    requires stands { term_at store.now body ≡ compound (atom_name name) (arguments_at store.now arguments) }
    requires arguments { IsArguments store.now arguments }
    requires some { 0 < arguments.count }
    ensures steps { OnOk result (All (IsStepIn store.now) steps.new.items) }
    ensures goals { OnOk result (All (Holds store.now) goals.new.items) }
    ensures converts { OnOk result ((v : View) → IsView v
        → Visits v store.now body steps.old.items goals.old.items steps.new.items goals.new.items) }
{
    if !is_transparent(name) {
        goals.push(body)?;
        return Ok(());
    }
    if arguments.len() != 2 {
        goals.push(body)?;
        return Ok(());
    }
    let first = store.argument(arguments, 0);
    let second = store.argument(arguments, 1);
    steps.push(Step::Join(name))?;
    steps.push(Step::Visit(second))?;
    steps.push(Step::Visit(first))?;
    Ok(())
}

/// Whether the arguments of the control construct with this name are goals of the body itself (ISO 7.6.2, table 7).
fn is_transparent(name: Atom) -> bool
    ensures { result ≡ (name == comma_name || (name == semicolon_name || name == then_name)) }
{
    name == fixed::COMMA || name == fixed::SEMICOLON || name == fixed::THEN
}
