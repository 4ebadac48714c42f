//! The ends of directives.
ghost use Rattle.std.specs.Prelude.{◌≡◌, ◌++◌, false, IsSome, List};
ghost use Rattle.std.specs.List.{All};
ghost use Rattle.pl_term.specs.Tree.{Chars, Tree};
ghost use Rattle.pl_model.specs.declared.grammar.Quotes.{Quotes};
ghost use Rattle.term_store.specs.NumberedNames.{names_of, term_by};
ghost use Rattle.world_api.specs.Texts.{text_of, Holds};
ghost use Rattle.world_api.specs.Told.{Told, has_ended};
ghost use Rattle.script_api.specs.Scripts.{IsLater};
ghost use Rattle.pl_consult.specs.declared.stage.Stage.TheVariants.{Report};
ghost use Rattle.pl_consult.specs.ItemTexts.{Narrows};
ghost use Rattle.pl_consult.specs.Steps.{IsAfter, IsQuiet, Looked, Moved, status_of, step_names, step_refusals};

use crate::consult::Consult;
use crate::looks::look_at;
use crate::stage::{Stage, Step};
use crate::stops::next_by;
use named_terms::NamedTerm;
use op_table::OpTable;
use pl_model::ends::How;
use script_api::Next;
use std::alloc::Global;
use term_store::Stored;
use world_api::World;

/// Reports how the directive of the item at this byte has ended, under the operators of a look.
pub fn report<W: World<Term = Stored>>(
    alloc: Global,
    consult: &Consult,
    place: usize,
    how: How<NamedTerm>,
    world: &mut W,
    atoms: &mut W::A,
    text: &mut Vec<u8>,
) -> (Stage, Step)
    requires { has_ended (W.told world.old).engine (W.told world.old).history ≡ false }
    ensures moved { Moved (term_by (text_of (W.A.held atoms.new))) consult.now (Report place how) (W.told world.old) text.old.items result.1 consult.now result.0 (W.told world.new) text.new.items }
    ensures stage { IsAfter result.1 result.0 }
    ensures runs { has_ended (W.told world.new).engine (W.told world.new).history ≡ false }
    ensures named { All (λ a. IsSome (W.A.held atoms.new a)) (step_names names_of result.1) }
    ensures holds { Holds (W.A.held atoms.old) (W.A.held atoms.new) }
    ensures refusals { W.A.refusals atoms.new ≡ W.A.refusals atoms.old ++ step_refusals result.1 }
    ensures told { IsLater (W.told world.old) (W.told world.new) }
    ensures asked { W.A.asked atoms.new ≡ W.A.asked atoms.old }
    ensures narrows { (words : List Chars) → Narrows words consult.now (Report place how) consult.now result.0 }
{
    match look_at(world, atoms) {
        Err(unserved) => (Stage::Report { place, how }, Step::Gives(next_by(unserved))),
        Ok(standing) => report_under(alloc, consult, place, how, &standing.operators, text),
    }
}

/// Reports it under these operators.
fn report_under(
    alloc: Global,
    consult: &Consult,
    place: usize,
    how: How<NamedTerm>,
    operators: &OpTable,
    text: &mut Vec<u8>,
) -> (Stage, Step)
    ensures moved { (term : Tree → Tree) (t u : Told) (quotes : Quotes) → Looked t u operators.now quotes
        → Moved term consult.now (Report place how) t text.old.items result.1 consult.now result.0 u text.new.items }
    ensures stage { IsAfter result.1 result.0 }
    ensures quiet { IsQuiet result.1 }
    ensures narrows { (words : List Chars) → Narrows words consult.now (Report place how) consult.now result.0 }
{
    let halted = status(&how);
    match consult.report(alloc, place, &how, operators, text) {
        Ok(()) => match halted {
            None => (Stage::Items, Step::Goes),
            Some(status) => (
                Stage::Over,
                Step::Gives(Next::Done {
                    halted: Some(status),
                }),
            ),
        },
        Err(_) => (Stage::Items, Step::Gives(Next::Memory)),
    }
}

/// The status with which a directive has halted, if it has.
fn status(how: &How<NamedTerm>) -> Option<u8>
    ensures { result ≡ status_of how.now }
{
    match how {
        How::Halted(status) => Some(*status),
        _ => None,
    }
}
