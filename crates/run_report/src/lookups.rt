//! Engines and refused goals by their numbers.
ghost use Rattle.std.specs.Prelude.{◌≡◌};
ghost use Rattle.std.specs.Option.{option_copied};
ghost use Rattle.run_model.specs.Report.{refusal_of as refusal_with};
ghost use Rattle.pl_consult.specs.GoalWords.{refusals_of};
ghost use Rattle.run_report.specs.Parts.{IsRefusal, part_in};

use crate::parts::Part;
use pl_consult::RefusedGoal;

/// The engine with this number, if it is one of these.
pub(crate) fn part_in(parts: &[Part], number: u64) -> Option<&Part>
    ensures { option_copied result ≡ part_in parts.now number }
{
    for part in parts {
        if part.number == number {
            return Some(part);
        }
    }
    None
}

/// The goal with this number, if its engine could not be started.
pub(crate) fn refused_in(refused: &[RefusedGoal], number: u64) -> Option<&RefusedGoal>
    ensures { IsRefusal (refusal_with (refusals_of refused.now) number) (option_copied result) }
{
    for goal in refused {
        if goal.number == number {
            return Some(goal);
        }
    }
    None
}
