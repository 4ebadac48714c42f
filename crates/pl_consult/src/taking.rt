//! The steps by which the items of the file are taken up.
ghost use Rattle.std.specs.Prelude.{◌≡◌, ◌++◌, false, IsSome, List};
ghost use Rattle.std.specs.List.{All};
ghost use Rattle.pl_term.specs.Tree.{Chars};
ghost use Rattle.term_store.specs.NumberedNames.{names_of, term_by};
ghost use Rattle.world_api.specs.Texts.{text_of, Holds};
ghost use Rattle.world_api.specs.Told.{has_ended};
ghost use Rattle.script_api.specs.Scripts.{IsLater};
ghost use Rattle.pl_consult.specs.declared.consult.Place.TheVariants.{Item as AtItem};
ghost use Rattle.pl_consult.specs.declared.stage.Stage.TheVariants.{Items};
ghost use Rattle.pl_consult.specs.ItemTexts.{Narrows};
ghost use Rattle.pl_consult.specs.Steps.{IsAfter, Moved, stage_by, step_names, step_refusals};

use crate::consult::{Consult, Taken};
use crate::looks::{Standing, look_at};
use crate::stage::{Stage, Step};
use crate::stops::next_by;
use op_table::OpTable;
use script_api::Next;
use std::alloc::Global;
use std::sync::Arc;
use term_store::Stored;
use world_api::World;

/// Takes up the item at the byte `at` of the file or after it.
pub fn take_item<W: World<Term = Stored>>(
    alloc: Global,
    consult: &mut Consult,
    at: usize,
    world: &mut W,
    atoms: &mut W::A,
    text: &mut Vec<u8>,
) -> (Stage, Step)
    requires place { consult.old.place ≡ AtItem at }
    requires runs { has_ended (W.told world.old).engine (W.told world.old).history ≡ false }
    ensures moved { Moved (term_by (text_of (W.A.held atoms.new))) consult.old Items (W.told world.old) text.old.items result.1 consult.new result.0 (W.told world.new) text.new.items }
    ensures stage { IsAfter result.1 result.0 }
    ensures file { consult.new.name ≡ consult.old.name }
    ensures runs { has_ended (W.told world.new).engine (W.told world.new).history ≡ false }
    ensures named { All (λ a. IsSome (W.A.held atoms.new a)) (step_names names_of result.1) }
    ensures holds { Holds (W.A.held atoms.old) (W.A.held atoms.new) }
    ensures refusals { W.A.refusals atoms.new ≡ W.A.refusals atoms.old ++ step_refusals result.1 }
    ensures told { IsLater (W.told world.old) (W.told world.new) }
    ensures asked { W.A.asked atoms.new ≡ W.A.asked atoms.old }
    ensures narrows { (words : List Chars) → Narrows words consult.old Items consult.new result.0 }
{
    match look_at(world, atoms) {
        Err(unserved) => (Stage::Items, Step::Gives(next_by(unserved))),
        Ok(Standing { operators, quotes }) => {
            match consult.take(alloc, at, &operators, quotes, text) {
                Ok(taken) => (stage_of(taken, operators), Step::Goes),
                Err(_) => (Stage::Items, Step::Gives(Next::Memory)),
            }
        }
    }
}

/// How far the script has come with this item, which was read under these operators.
fn stage_of(taken: Taken, operators: Arc<OpTable>) -> Stage
    ensures { result ≡ stage_by taken operators }
{
    match taken {
        Taken::Clause { clause, place } => Stage::Clause {
            clause,
            place,
            operators,
        },
        Taken::Directive { goal, place } => Stage::Directive { goal, place },
        Taken::Passed => Stage::Items,
    }
}
