//! How the moves of an execution are counted.
ghost use Rattle.std.specs.Prelude.{◌≡◌, ◌+◌, OnOk};
ghost use Rattle.term_store.specs.NumberedNames.{names_of};
ghost use Rattle.pl_consult.specs.declared.stage.Stage.{Stage as StageOf};
ghost use Rattle.pl_consult.specs.Steps.{IsAfter, IsCounted, step_names, step_refusals};

use crate::stage::Step;
use pl_term::Memory;
use script_api::Next;

/// Counts so many more moves. A count of 64 bits that would pass its end is told as `Memory`.
pub(crate) fn count(moves: &mut u64, more: u64) -> Result<(), Memory>
    ensures { OnOk result (more + moves.old ≡ moves.new) }
{
    match moves.checked_add(more) {
        Some(all) => {
            *moves = all;
            Ok(())
        }
        None => Err(Memory),
    }
}

/// Counts the move of a step, if it makes one. Where it cannot be counted, there is no memory for the step.
pub(crate) fn counted(step: Step, moves: &mut u64) -> Step
    ensures counted { IsCounted step result moves.old moves.new }
    ensures refusals { step_refusals result ≡ step_refusals step }
    ensures names { step_names names_of result ≡ step_names names_of step }
    ensures stage { (then : StageOf) → IsAfter step then → IsAfter result then }
{
    match step {
        Step::Goes => match count(moves, 1) {
            Ok(()) => Step::Goes,
            Err(_) => Step::Gives(Next::Memory),
        },
        Step::Gives(Next::Done { halted }) => match count(moves, 1) {
            Ok(()) => Step::Gives(Next::Done { halted }),
            Err(_) => Step::Gives(Next::Memory),
        },
        Step::Gives(Next::Item { goal, directive }) => Step::Gives(Next::Item { goal, directive }),
        Step::Gives(Next::NeedsAtoms(pass)) => Step::Gives(Next::NeedsAtoms(pass)),
        Step::Gives(Next::Retry(cause)) => Step::Gives(Next::Retry(cause)),
        Step::Gives(Next::Worn(word)) => Step::Gives(Next::Worn(word)),
        Step::Gives(Next::Memory) => Step::Gives(Next::Memory),
    }
}
