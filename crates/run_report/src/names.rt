//! The names of engines.
ghost use Rattle.std.specs.Prelude.{◌≡◌, IfOk, decimal};
ghost use Rattle.run_model.specs.Ends.{goal_name};
ghost use Rattle.pl_model.specs.Threads.{goal_alias};
ghost use Rattle.run_report.specs.Parts.{name_by};

use pl_term::{Memory, Text};
use std::alloc::Global;

/// The name of the engine that runs the goal with this number. The only error is out of memory.
pub(crate) fn goal_name(alloc: Global, number: u64) -> Result<Text, Memory>
    ensures { IfOk result (λ t. t ≡ goal_name number) }
{
    if number == 1 {
        return Text::from_str(alloc, "main");
    }
    goal_alias(alloc, number)
}

/// The alias of the engine of a further goal. The only error is out of memory.
fn goal_alias(alloc: Global, number: u64) -> Result<Text, Memory>
    ensures { IfOk result (λ t. t ≡ goal_alias number) }
{
    let alias = format!(in alloc; "goal{number}")?;
    Text::from_str(alloc, alias.as_str())
}

/// The name of a thread: its alias, or its number where it has none. The only error is out of memory.
pub(crate) fn thread_name(alloc: Global, number: u64, alias: &Option<Text>) -> Result<Text, Memory>
    ensures { IfOk result (λ t. t ≡ name_by number alias.now) }
{
    match alias {
        None => number_name(alloc, number),
        Some(alias) => alias.copy(alloc),
    }
}

/// A number in decimal. The only error is out of memory.
fn number_name(alloc: Global, number: u64) -> Result<Text, Memory>
    ensures { IfOk result (λ t. t ≡ decimal number) }
{
    let digits = format!(in alloc; "{number}")?;
    Text::from_str(alloc, digits.as_str())
}
