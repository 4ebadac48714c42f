//! The command `load`: the source that a seed and a size give is run.
ghost use Rattle.std.specs.Prelude.{◌≡◌, ◌<◌, List, ℕ, Option, Some, IfOk};
ghost use Rattle.pl_io.specs.Faults.{Rose};
ghost use Rattle.command_line.specs.CommandLine.{load_command};
ghost use Rattle.command_line.specs.Commands.{IsWithin, told_command};
ghost use Rattle.load_source.specs.LoadSource.{load_source};
ghost use Rattle.run_model.specs.Ends.{status_of};
ghost use Rattle.toplevel.specs.Headline.{Promised};

use crate::run::{Report, bare_report, run_command};
use command_line::command::{Command, load_command};
use load_source::source::load_source;
use pl_io::{Bytes, Gate, OneText, Sink};
use pl_term::Memory;
use run_model::ends::End;
use std::alloc::Global;
use std::sync::Wait;
use std::thread::Threads;

/// Runs the source of a seed and a size.
pub(crate) fn run_load<R: Threads + Wait + Sync, S: Sink, G: Gate + Sync>(
    rt: &R,
    alloc: Global,
    seed: u64,
    size: u64,
    out: &mut S,
    gate: &G,
) -> Report
    requires seed { seed < 2147483648 }
    ensures status { result.status ≡ status_of result.end }
    ensures promised { Promised ⊥ (Rose (S.faults out.old) (S.faults out.new)) load_command (Some (load_source seed size))
        (S.written out.old) (S.written out.new) result result.end }
{
    match load_of(alloc, seed, size) {
        Ok((command, files)) => {
            let mut files = files;
            run_command(rt, alloc, &command, &mut files, out, gate)
        }
        Err(_) => bare_report(alloc, End::Memory),
    }
}

/// The command that is run, and the files, which all have the source. The only error is out of memory.
fn load_of(alloc: Global, seed: u64, size: u64) -> Result<(Command, OneText), Memory>
    requires seed { seed < 2147483648 }
    ensures command { IfOk result (λ r. told_command r.0 ≡ load_command) }
    ensures within { IfOk result (λ r. IsWithin r.0) }
    ensures source { IfOk result (λ r. r.1 ≡ load_source seed size) }
{
    let text = load_source(alloc, seed, size)?;
    let command = load_command(alloc)?;
    Ok((command, OneText::new(Bytes::from_vec(text))))
}
