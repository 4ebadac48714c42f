//! Looks at the shared state.
ghost use Rattle.std.specs.Prelude.{◌≡◌, ◌++◌, false, IfOk, OnErr};
ghost use Rattle.std.specs.Arc.{arc_value};
ghost use Rattle.world_api.specs.Texts.{Holds};
ghost use Rattle.world_api.specs.Told.{has_ended};
ghost use Rattle.iso_engine.specs.Looking.{Looks};
ghost use Rattle.iso_engine.specs.Unserved.{refusals_in};

use op_table::OpTable;
use std::sync::Arc;
use world_api::{Answer, Reply, Unserved, Visit, World};

/// The table of operators that stands after all entries.
pub fn look<W: World>(world: &mut W, atoms: &mut W::A) -> Result<Arc<OpTable>, Unserved>
    requires runs { has_ended (W.told world.old).engine (W.told world.old).history ≡ false }
    ensures looked { IfOk result (λ ops. Looks (W.told world.old) (arc_value ops) (W.told world.new)) }
    ensures unchanged { OnErr result (W.told world.new ≡ W.told world.old) }
    ensures runs { has_ended (W.told world.new).engine (W.told world.new).history ≡ false }
    ensures holds { Holds (W.A.held atoms.old) (W.A.held atoms.new) }
    ensures refusals { W.A.refusals atoms.new ≡ W.A.refusals atoms.old ++ refusals_in result }
    ensures asked { W.A.asked atoms.new ≡ W.A.asked atoms.old }
{
    match world.visit(Visit::Look, atoms) {
        Answer::Served { reply, .. } => match reply {
            Reply::Standing { operators, .. } => Ok(operators),
            _ => unreachable!(),
        },
        Answer::Waits { .. } => unreachable!(),
        Answer::NeedsAtoms(pass) => Err(Unserved::NeedsAtoms(pass)),
        Answer::Retry(cause) => Err(Unserved::Retry(cause)),
        Answer::Worn(word) => Err(Unserved::Worn(word)),
        Answer::Memory => Err(Unserved::Memory),
    }
}
