//! How the goals of the command end.
ghost use Rattle.std.specs.Prelude.{◌≡◌, ◌++◌, [], IfOk, OnOk, Some};
ghost use Rattle.pl_model.specs.declared.ends.How.TheVariants.{Threw};
ghost use Rattle.run_model.specs.declared.ends.GoalHow.TheVariants.{Ended};
ghost use Rattle.run_model.specs.Ends.{with_end};
ghost use Rattle.run_model.specs.Report.{refusal_of as refusal_with};
ghost use Rattle.pl_consult.specs.GoalWords.{refusals_of, word_of, words_of};
ghost use Rattle.run_report.specs.Parts.{ends_over, how_of, part_how, part_in};

use crate::hows::goal_ended;
use crate::lookups::{part_in, refused_in};
use crate::names::goal_name;
use crate::parts::Part;
use named_terms::NamedTerm;
use pl_consult::RefusedGoal;
use pl_model::ends::How;
use pl_term::Memory;
use run_model::ends::{GoalEnd, GoalHow};
use std::alloc::Global;
use word_board::GoalWord;

/// The ends of the goals of these words, which these engines ran but for those that could not be started. A goal that no
/// engine came to has none. The only error is out of memory.
pub(crate) fn goal_ends(
    alloc: Global,
    words: &[GoalWord],
    refused: &[RefusedGoal],
    engines: &[Part],
) -> Result<Vec<GoalEnd>, Memory>
    ensures { IfOk result (λ v. v.items ≡ ends_over engines.now (refusals_of refused.now) 1 (words_of words.now)) }
{
    let mut ends = Vec::new(alloc);
    for i in 0..words.len() {
        let number = i as u64 + 1;
        let how = word_how(alloc, number, &words[i], refused, engines)?;
        put_end(alloc, &mut ends, number, how)?;
    }
    Ok(ends)
}

/// Puts the end of the goal with this number, if it has one. The only error is out of memory.
fn put_end(
    alloc: Global,
    ends: &mut Vec<GoalEnd>,
    number: u64,
    how: Option<GoalHow>,
) -> Result<(), Memory>
    ensures { OnOk result (ends.new.items ≡ ends.old.items ++ with_end number how []) }
{
    match how {
        None => Ok(()),
        Some(how) => {
            let name = goal_name(alloc, number)?;
            ends.push(GoalEnd {
                engine: number,
                name,
                how,
            })?;
            Ok(())
        }
    }
}

/// How the goal with this number ended, whose word was read so. The only error is out of memory.
fn word_how(
    alloc: Global,
    number: u64,
    word: &GoalWord,
    refused: &[RefusedGoal],
    engines: &[Part],
) -> Result<Option<GoalHow>, Memory>
    ensures { IfOk result (λ h. h ≡ how_of engines.now (refusals_of refused.now) number (word_of word.now)) }
{
    match word {
        GoalWord::Goal { .. } => engine_how(alloc, number, refused, engines),
        GoalWord::Faulty(fault) => Ok(Some(GoalHow::Syntax {
            kind: fault.kind,
            at: fault.at as u64,
        })),
    }
}

/// How the engine with this number ended: by the ball for which it could not be started, as it did, or not at all where it
/// never began. The only error is out of memory.
pub(crate) fn engine_how(
    alloc: Global,
    number: u64,
    refused: &[RefusedGoal],
    engines: &[Part],
) -> Result<Option<GoalHow>, Memory>
    ensures { IfOk result (λ h. h ≡ part_how (refusal_with (refusals_of refused.now) number) (part_in engines.now number)) }
{
    if let Some(goal) = refused_in(refused, number) {
        return refused_how(alloc, goal);
    }
    match part_in(engines, number) {
        None => Ok(None),
        Some(part) => goal_ended(alloc, &part.end, &part.awaits),
    }
}

/// How a goal ended whose engine could not be started. The only error is out of memory.
pub(crate) fn refused_how(alloc: Global, goal: &RefusedGoal) -> Result<Option<GoalHow>, Memory>
    ensures { IfOk result (λ h. h ≡ Some (Ended (Threw goal.now.ball))) }
{
    let ball = NamedTerm::from_flat(alloc, &goal.ball)?;
    Ok(Some(GoalHow::Ended(How::Threw(ball))))
}
