//! What the goals of predicates of the shared state ask.
ghost use Rattle.std.specs.Prelude.{◌≡◌, IfOk, OnOk};
ghost use Rattle.atom_api.specs.Names.{Names};
ghost use Rattle.world_builtins.specs.Naming.{IsHeldAt};
ghost use Rattle.shared_builtins.specs.Goals.{IsStateGoal};
ghost use Rattle.shared_builtins.specs.Shared.{IsShared};
ghost use Rattle.shared_builtins.specs.Telling.{TellsAtoms};

use crate::goal::StateGoal;
use crate::one::of_one;
use crate::preds::StatePred;
use crate::shared::Shared;
use crate::three::of_three;
use crate::two::of_two;
use pl_term::Memory;
use std::alloc::Global;
use term_store::Store;

/// What the goal comes to before it asks: its arguments are refused, or it asks something of the shared state. The only error
/// is out of memory. The store is as it was.
pub fn shared_of(alloc: Global, store: &mut Store, goal: &StateGoal) -> Result<Shared, Memory>
    requires { IsStateGoal store.old goal.now }
    ensures kept { OnOk result (store.new ≡ store.old) }
    ensures shares { IfOk result (λ r. (m : Names) → TellsAtoms m → IsHeldAt m store.old goal.now.place → IsShared m store.old goal.now r) }
{
    match goal.pred {
        StatePred::One(pred) => {
            let first = store.argument(goal.arguments, 0);
            let shared = of_one(alloc, store, pred, first)?;
            Ok(shared)
        }
        StatePred::Two(pred) => {
            let first = store.argument(goal.arguments, 0);
            let second = store.argument(goal.arguments, 1);
            let shared = of_two(alloc, store, pred, first, second)?;
            Ok(shared)
        }
        StatePred::Three(pred) => {
            let first = store.argument(goal.arguments, 0);
            let second = store.argument(goal.arguments, 1);
            let third = store.argument(goal.arguments, 2);
            let shared = of_three(alloc, store, pred, first, second, third)?;
            Ok(shared)
        }
    }
}
