//! A look at the operators and the flag `double_quotes`.
ghost use Rattle.std.specs.Prelude.{◌≡◌, ◌++◌, false};
ghost use Rattle.world_api.specs.Texts.{Holds};
ghost use Rattle.world_api.specs.Told.{has_ended};
ghost use Rattle.script_api.specs.Scripts.{IsLater};
ghost use Rattle.world_api.specs.Unserved.{refusals_in};
ghost use Rattle.pl_consult.specs.Steps.{IsLook, IsStanding, LooksSo};

use op_table::OpTable;
use pl_model::grammar::Quotes;
use std::sync::Arc;
use term_store::Stored;
use world_api::{Answer, Reply, Unserved, Visit, World};

/// The operators and the flag that stand.
#[derive(Drop)]
pub struct Standing {
    pub operators: Arc<OpTable>,
    pub quotes: Quotes,
}

/// A look at the shared state, or why it was not served.
pub fn look_at<W: World<Term = Stored>>(
    world: &mut W,
    atoms: &mut W::A,
) -> Result<Standing, Unserved>
    requires { has_ended (W.told world.old).engine (W.told world.old).history ≡ false }
    ensures looks { LooksSo result (W.told world.old) (W.told world.new) }
    ensures runs { has_ended (W.told world.new).engine (W.told world.new).history ≡ false }
    ensures holds { Holds (W.A.held atoms.old) (W.A.held atoms.new) }
    ensures refusals { W.A.refusals atoms.new ≡ W.A.refusals atoms.old ++ refusals_in result }
    ensures told { IsLater (W.told world.old) (W.told world.new) }
    ensures asked { W.A.asked atoms.new ≡ W.A.asked atoms.old }
{
    match world.visit(Visit::Look, atoms) {
        Answer::Served { reply, .. } => Ok(standing_by(reply)),
        Answer::Waits { .. } => unreachable!(),
        Answer::NeedsAtoms(pass) => Err(Unserved::NeedsAtoms(pass)),
        Answer::Retry(cause) => Err(Unserved::Retry(cause)),
        Answer::Worn(word) => Err(Unserved::Worn(word)),
        Answer::Memory => Err(Unserved::Memory),
    }
}

/// The operators and the flag that a reply to a look tells.
fn standing_by(reply: Reply<Stored>) -> Standing
    requires { IsStanding reply }
    ensures { IsLook reply result }
{
    match reply {
        Reply::Standing { operators, quotes } => Standing { operators, quotes },
        _ => unreachable!(),
    }
}
