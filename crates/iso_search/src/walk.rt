//! Walks that come to each part of a term once.
ghost use Rattle.std.specs.Prelude.{IfOk, OnOk};
ghost use Rattle.std.specs.List.{All};
ghost use Rattle.term_store.specs.Contents.{Holds, IsArguments};
ghost use Rattle.iso_search.specs.Parts.{IsCompoundIn, IsStepIn};

use crate::parts::{Compound, Parts};
use pl_term::Memory;
use std::alloc::Global;
use term_store::{Arguments, Place, Store, View};

/// What is to be done next: a place is to be looked at, or a compound term was, and so were its arguments.
#[derive(Clone, Copy, Drop)]
pub enum Step {
    Enter(Place),
    Leave(Compound),
}

/// The parts of the term at a place. The variables come in the order in which a compound term first names them. The only
/// error is out of memory.
pub fn parts_of(alloc: Global, store: &Store, place: Place) -> Result<Parts, Memory>
    requires { Holds store.now place }
    ensures { IfOk result (λ p. All (IsCompoundIn store.now) p.compounds.items) }
{
    let mut parts = Parts::new(alloc);
    let mut steps = vec![in alloc; Step::Enter(place)]?;
    for _ in 0..u64::MAX {
        let Some(step) = steps.pop() else {
            return Ok(parts);
        };
        match step {
            Step::Enter(at) => enter(store, &mut steps, &mut parts, at)?,
            Step::Leave(compound) => parts.add(compound)?,
        }
    }
    Err(Memory)
}

/// Looks at a place. A compound term that was not met before is left after its arguments. The only error is out of memory.
fn enter(store: &Store, steps: &mut Vec<Step>, parts: &mut Parts, at: Place) -> Result<(), Memory>
    requires place { Holds store.now at }
    requires steps { All (IsStepIn store.now) steps.old.items }
    requires compounds { All (IsCompoundIn store.now) parts.old.compounds.items }
    ensures steps { OnOk result (All (IsStepIn store.now) steps.new.items) }
    ensures compounds { OnOk result (All (IsCompoundIn store.now) parts.new.compounds.items) }
{
    match store.look(at) {
        View::Variable(number) => {
            parts.numbers.push(number)?;
            Ok(())
        }
        View::Integer(_) => Ok(()),
        View::Atom(_) => Ok(()),
        View::Compound(name, arguments) => {
            if !parts.is_new(arguments.start())? {
                return Ok(());
            }
            steps.push(Step::Leave(Compound { name, arguments }))?;
            push_arguments(store, steps, arguments)
        }
    }
}

/// Puts the arguments of a compound term on the stack, the first on top. The only error is out of memory.
fn push_arguments(store: &Store, steps: &mut Vec<Step>, arguments: Arguments) -> Result<(), Memory>
    requires arguments { IsArguments store.now arguments }
    requires steps { All (IsStepIn store.now) steps.old.items }
    ensures { OnOk result (All (IsStepIn store.now) steps.new.items) }
{
    let mut i = arguments.len();
    while i > 0 {
        i -= 1;
        steps.push(Step::Enter(store.argument(arguments, i)))?;
    }
    Ok(())
}
