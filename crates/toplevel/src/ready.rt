//! What is ready to be written of a run.
ghost use Rattle.std.specs.Prelude.{◌≡◌, ℕ, IfOk};
ghost use Rattle.std.specs.List.{All};
ghost use Rattle.pl_term.specs.Tree.{Chars};
ghost use Rattle.pl_model.specs.History.{History as Entries};
ghost use Rattle.run_model.specs.Lawful.{Program, beginnings, engine_numbers};
ghost use Rattle.run_model.specs.WholeRuns.{Once};
ghost use Rattle.pl_sched.specs.Ledger.{AreOnly, named_in};
ghost use Rattle.run_report.specs.Reports.{IsReported};
ghost use Rattle.toplevel.specs.Fronts.{told_by};
ghost use Rattle.toplevel.specs.Kept.{AllBegun, IsKept};
ghost use Rattle.toplevel.specs.Opened.{IsOpened};
ghost use Rattle.toplevel.specs.RunOutcomes.{IsReadyOf};

use crate::front::Front;
use crate::kept::{Kept, kept_of};
use crate::main_engine::words_of;
use crate::opened::OpenedEngine;
use command_line::command::Command;
use pl_term::{Memory, Text};
use run_model::ends::{End, GoalEnd};
use run_report::{RunReport, report_run};
use std::alloc::Global;

/// A run that came to its end, with the text that is to be written of it.
#[derive(Drop)]
pub struct Ready {
    pub end: End,
    pub front: Front,
    pub ends: Vec<GoalEnd>,
    pub text: Vec<u8>,
}

/// Makes the ends and the text of a run of these engines; `begun` has the numbers and the aliases of those that it began, in their
/// order. The only error is out of memory.
pub(crate) fn make_ready<'w>(
    alloc: Global,
    command: &Command,
    opened: Vec<OpenedEngine<'w>>,
    begun: &[(u64, Option<Text>)],
) -> Result<Ready, Memory>
    ensures { (p : Program) (board : ℕ) (h : Entries) → p.words ≡ command.now.goals.items
        → All (IsOpened p command.now.file board h) opened.entry.items
        → AllBegun h opened.entry.items → AreOnly h → Once (engine_numbers (beginnings h)) → begun.now ≡ named_in h
        → IfOk result (IsReadyOf command.now.file p) }
{
    let goals = command.goals.len() as u64;
    let kept = kept_of(alloc, &command.file, goals, opened, begun)?;
    let report = report_of(alloc, command, &kept)?;
    let Kept { front, .. } = kept;
    let RunReport { end, ends, text } = report;
    Ok(Ready {
        end,
        front,
        ends,
        text,
    })
}

/// The report of what is kept of a run. The only error is out of memory.
fn report_of<'w>(alloc: Global, command: &Command, kept: &Kept<'w>) -> Result<RunReport, Memory>
    ensures { (file : Chars) (p : Program) → command.now.goals.items ≡ p.words → (k : IsKept file p kept.now)
        → IfOk result (IsReported file p (told_by kept.now.front) k.finals) }
{
    let words = words_of(&kept.main);
    report_run(
        alloc,
        kept.main.text.as_slice(),
        kept.main.script.is_faulty(),
        command.goals.as_slice(),
        words,
        kept.main.script.refused(),
        kept.engines.as_slice(),
        kept.threads.as_slice(),
    )
}
