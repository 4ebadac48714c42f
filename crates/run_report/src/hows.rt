//! How goals ended, as it is told.
ghost use Rattle.std.specs.Prelude.{◌≡◌, IfOk, None, Option};
ghost use Rattle.pl_term.specs.Tree.{Tree};
ghost use Rattle.pl_model.specs.declared.ends.How.{How as HowOf};
ghost use Rattle.pl_report.specs.Reported.{IsEnough, Tells};
ghost use Rattle.run_model.specs.Ends.{goal_how};

use named_terms::NamedTerm;
use pl_model::ends::How;
use pl_model::threads::{Name, On};
use pl_term::Memory;
use run_model::ends::GoalHow;
use std::alloc::Global;

/// The same end for another holder. The only error is out of memory.
fn share_how(how: &How<NamedTerm>) -> Result<How<NamedTerm>, Memory>
    ensures { IfOk result (λ h. h ≡ how.now) }
{
    match how {
        How::Solved => Ok(How::Solved),
        How::False => Ok(How::False),
        How::Threw(ball) => {
            let ball = ball.share()?;
            Ok(How::Threw(ball))
        }
        How::Exited(term) => {
            let term = term.share()?;
            Ok(How::Exited(term))
        }
        How::Halted(status) => Ok(How::Halted(*status)),
        How::AtomSpace(found) => Ok(How::AtomSpace(*found)),
    }
}

/// A second name that is the same. The only error is out of memory.
fn copy_name(alloc: Global, name: &Name) -> Result<Name, Memory>
    ensures { IfOk result (λ n. n ≡ name.now) }
{
    match name {
        Name::Number(number) => Ok(Name::Number(*number)),
        Name::Alias(alias) => {
            let alias = alias.copy(alloc)?;
            Ok(Name::Alias(alias))
        }
    }
}

/// The same once more. The only error is out of memory.
fn copy_on(alloc: Global, on: &On) -> Result<On, Memory>
    ensures { IfOk result (λ x. x ≡ on.now) }
{
    match on {
        On::Queue(name) => {
            let name = copy_name(alloc, name)?;
            Ok(On::Queue(name))
        }
        On::Thread(name) => {
            let name = copy_name(alloc, name)?;
            Ok(On::Thread(name))
        }
    }
}

/// How a goal ended whose engine waits on this, if it does. The only error is out of memory.
fn goal_waits(alloc: Global, awaits: &Option<On>) -> Result<Option<GoalHow>, Memory>
    ensures { IfOk result (λ h. h ≡ goal_how awaits.now None) }
{
    match awaits {
        None => Ok(None),
        Some(on) => {
            let on = copy_on(alloc, on)?;
            Ok(Some(GoalHow::Waits(on)))
        }
    }
}

/// How a goal ended whose engine has ended so or waits on this. The only error is out of memory.
pub(crate) fn goal_ended(
    alloc: Global,
    end: &Option<How<NamedTerm>>,
    awaits: &Option<On>,
) -> Result<Option<GoalHow>, Memory>
    ensures { IfOk result (λ h. h ≡ goal_how awaits.now end.now) }
{
    match end {
        None => goal_waits(alloc, awaits),
        Some(how) => {
            let how = share_how(how)?;
            Ok(Some(GoalHow::Ended(how)))
        }
    }
}

/// Whether an engine has given the solutions that were wanted.
pub(crate) fn is_enough(how: &Option<GoalHow>) -> bool
    ensures { (end : Option (HowOf Tree)) → Tells how.now end → IsEnough result end }
{
    match how {
        Some(GoalHow::Ended(how)) => match how {
            How::Solved => true,
            _ => false,
        },
        _ => false,
    }
}
