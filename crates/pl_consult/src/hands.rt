//! Where the first engine stands in its file.
ghost use Rattle.std.specs.Prelude.{◌≡◌, IfOk};
ghost use Rattle.pl_model.specs.TermGrammar.{item_of};
ghost use Rattle.run_model.specs.Report.{place_of_goal as place_of, place_of_item as place_in_item};
ghost use Rattle.pl_consult.specs.Hands.{place_by, place_in};

use crate::consult::{Consult, Place};
use crate::stage::Stage;
use op_table::OpTable;
use pl_model::grammar::Quotes;
use pl_term::{Flat, Memory};
use prolog_reader::{Read, read_term};
use std::alloc::Global;
use std::collections::VecDeque;

/// The byte of the item that is at hand at this stage: of its first token, or of its fault; or of the next goal of
/// initialization/1; or none. An item that is to be taken up is read under these operators, and with texts in double quotes
/// as `quotes` says. The only error is out of memory.
pub(crate) fn place_at(
    alloc: Global,
    stage: &Stage,
    consult: &Consult,
    operators: &OpTable,
    quotes: Quotes,
) -> Result<Option<usize>, Memory>
    ensures { IfOk result (λ o. o ≡ place_in consult.now stage.now operators.now quotes) }
{
    match stage {
        Stage::Items => place_of_next(alloc, consult, operators, quotes),
        Stage::Clause { place, .. } => Ok(Some(*place)),
        Stage::Directive { place, .. } => Ok(Some(*place)),
        Stage::AtDirective { place } => Ok(Some(*place)),
        Stage::Report { place, .. } => Ok(Some(*place)),
        Stage::Words => Ok(None),
        Stage::Starts { .. } => Ok(None),
        Stage::Goal { .. } => Ok(None),
        Stage::AtGoal => Ok(None),
        Stage::Over => Ok(None),
        Stage::Lost => Ok(place_of_goal(&consult.later)),
    }
}

/// That of the item that is to be taken up next, or after the end of the file of the next goal of initialization/1.
fn place_of_next(
    alloc: Global,
    consult: &Consult,
    operators: &OpTable,
    quotes: Quotes,
) -> Result<Option<usize>, Memory>
    ensures { IfOk result (λ o. o ≡ place_by consult.now consult.now.place operators.now quotes) }
{
    match consult.place {
        Place::Item(at) => place_of_item(alloc, consult, at, operators, quotes),
        Place::Initialization => Ok(place_of_goal(&consult.later)),
    }
}

/// That of the item that stands at the byte `at` or after it.
fn place_of_item(
    alloc: Global,
    consult: &Consult,
    at: usize,
    operators: &OpTable,
    quotes: Quotes,
) -> Result<Option<usize>, Memory>
    ensures { IfOk result (λ o. o ≡ place_in_item consult.now.later.items (item_of consult.now.text.items at operators.now quotes)) }
{
    match read_term(alloc, consult.text.as_slice(), at, operators, quotes) {
        Read::Clause { start, .. } => Ok(Some(start)),
        Read::End => Ok(place_of_goal(&consult.later)),
        Read::Syntax { at: fault, .. } => Ok(Some(fault)),
        Read::Memory => Err(Memory),
    }
}

/// The byte of the first of these goals of initialization/1.
fn place_of_goal(later: &VecDeque<(usize, Flat)>) -> Option<usize>
    ensures { result ≡ place_of later.now.items }
{
    match later.front() {
        None => None,
        Some((place, _)) => Some(*place),
    }
}
