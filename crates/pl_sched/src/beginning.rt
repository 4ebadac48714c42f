//! Engines that take up their goal.
ghost use Rattle.std.specs.Prelude.{◌≡◌, ◌&&◌, nat_le, if◌then◌else◌, None, Some};
ghost use Rattle.pl_model.specs.Threads.{goal_alias};
ghost use Rattle.iso_engine.specs.Standing.{staying};
ghost use Rattle.engine_run.specs.declared.runner.Lines.TheVariants.{Solutions, Texts};

use crate::ground::{Ground, Terms};
use crate::home::{Home, Parts};
use crate::mark::Mark;
use crate::naming::Command;
use crate::newcomers::{NewEngine, NewParts};
use crate::starts::Starts;
use engine_run::{Lines, Runner};
use iso_engine::engine::Stays;
use pl_io::Gate;
use pl_term::Memory;
use script_api::{Living, Script};
use std::sync::Wait;
use term_store::Stored;

/// The engine that begins, with its goal to be taken up. The only error is that the words of the command's goals are not
/// there.
pub(crate) fn begun<
    'a,
    't,
    S: Living + Script<Term = Stored> + Drop,
    K: Command,
    R: Wait,
    G: Gate,
    P: Starts<S>,
>(
    ground: &Ground<'a, 't, Runner<S>, K, R, G, P>,
    new: NewEngine<'t, K>,
) -> Result<Home<'t, Runner<S>, K>, Memory>
    requires board { P.board ground.now.goals.now ≡ K.board }
{
    let NewParts {
        number,
        goal,
        atoms,
        front,
    } = new.into_parts();
    let of_command = is_of_command(ground.terms, number);
    let Some(script) = ground.goals.start(goal, goal_number(number, of_command)) else {
        return Err(Memory);
    };
    let text = Vec::new(ground.alloc);
    let engine = Runner::new(
        ground.alloc,
        script,
        ground.terms.budgets,
        wanted_by(ground.terms, of_command),
        lines_of(of_command),
        text,
        stays_as(number, of_command),
    );
    Ok(Home::new(Parts {
        engine,
        atoms,
        front,
        number,
        mark: Mark::Ready,
    }))
}

/// The number of the command's goal that the engine runs, if it runs one.
fn goal_number(number: u64, of_command: bool) -> Option<u64>
    ensures { result ≡ (if of_command then Some number else None) }
{
    if of_command { Some(number) } else { None }
}

/// Whether thread_exit/1 leaves the engine: it does where it is a thread's.
fn stays_as(number: u64, of_command: bool) -> Stays
    ensures { staying result ≡ (if of_command then Some (goal_alias number) else None) }
{
    if of_command {
        Stays::AsGoal(number)
    } else {
        Stays::No
    }
}

/// Whether the engine with the number runs one of the command's further goals.
fn is_of_command(terms: Terms, number: u64) -> bool
    ensures { result ≡ (nat_le 2 number && nat_le number terms.goals) }
{
    2 <= number && number <= terms.goals
}

/// How many solutions are wanted of the goal.
fn wanted_by(terms: Terms, of_command: bool) -> u64
    ensures { result ≡ (if of_command then terms.solutions else 1) }
{
    if of_command { terms.solutions } else { 1 }
}

/// What is written of the goal.
fn lines_of(of_command: bool) -> Lines
    ensures { result ≡ (if of_command then Solutions else Texts) }
{
    if of_command {
        Lines::Solutions
    } else {
        Lines::Texts
    }
}
