//! Goals of the shared state that are refused, by their places.
ghost use Rattle.std.specs.Prelude.{◌≡◌, ◌≤◌, length, IfOk, OnOk};
ghost use Rattle.atom_api.specs.Names.{Names};
ghost use Rattle.term_store.specs.Contents.{Holds as IsIn};
ghost use Rattle.world_api.specs.Texts.{Holds};
ghost use Rattle.world_builtins.specs.Naming.{IsHeldAt};
ghost use Rattle.pl_model.specs.Control.{raised};
ghost use Rattle.pl_model.specs.Predicates.{proc_of};
ghost use Rattle.iso_search.specs.Outcomes.{IsAfter, Setting, result_in, state_in};
ghost use Rattle.iso_search.specs.Reading.{IsView, reads};
ghost use Rattle.iso_search.specs.Searching.{IsWhole, node_of};
ghost use Rattle.shared_builtins.specs.Faults.{IsFaultHeld, IsFaultIn, fault_term};
ghost use Rattle.shared_builtins.specs.Telling.{TellsAtoms};
ghost use Rattle.iso_engine.specs.Following.{HasProcedure};
ghost use Rattle.iso_engine.specs.Tasks.{IsFixed};

use crate::rows::following::follow_row;
use atom_api::Atom;
use iso_search::outcome::Outcome;
use iso_search::search::Search;
use pl_term::Memory;
use shared_builtins::{Fault, raise};
use term_store::Place;

/// Raises an error in the goal at a place, whose predicate has this name and so many arguments. The only error of the call is out
/// of memory.
pub fn refuse_goal(
    search: &mut Search,
    goal: Place,
    name: Atom,
    arity: u32,
    fault: Fault,
    rest: usize,
) -> Result<Outcome, Memory>
    requires whole { IsWhole search.old }
    requires goal { IsIn search.old.store goal }
    requires fixed { IsFixed name }
    requires procedure { HasProcedure search.old.store goal (record { name = name; arity = arity }) }
    requires fault { IsFaultIn search.old.store fault }
    requires rest { rest ≤ length search.old.frames.items }
    requires held { (n : Names) × TellsAtoms n × IsHeldAt n search.old.store goal × IsFaultHeld n search.old.store fault }
    ensures whole { OnOk result (IsWhole search.new) }
    ensures after { IfOk result (IsAfter search.old search.new) }
    ensures led { IfOk result (λ o. (n : Names) (s : Setting) → TellsAtoms n → IsHeldAt n search.old.store goal → IsFaultHeld n search.old.store fault
        → IsView s.view → Holds n s.view.names → let k = node_of s.view search.old rest in let g = reads s.view search.old.store goal in
        result_in s search.new k (proc_of g) o ≡ raised (state_in s search.old) k (fault_term n search.old.store fault) (proc_of g)) }
{
    let row = raise(&mut search.store, fault, name, arity)?;
    let outcome = follow_row(search, goal, row, rest)?;
    Ok(outcome)
}
