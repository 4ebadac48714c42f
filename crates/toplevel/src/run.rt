//! The top call: a command, from its words to its transcript.
ghost use Rattle.std.specs.Prelude.{◌≡◌, ◌≢◌, ◌↔◌, suc, take, List, ℕ, Option, None, Some, IfOk, IfErr, IsErr, IsTrue};
ghost use Rattle.std.specs.Str.{encode_utf8_all};
ghost use Rattle.pl_term.specs.Tree.{Chars};
ghost use Rattle.pl_io.specs.Faults.{Rose};
ghost use Rattle.command_line.specs.CommandLine.{Command as CommandOf, Order as OrderOf, order, unread_line, usage_line};
ghost use Rattle.command_line.specs.Commands.{IsOrderWithin, IsWithin, told_command, told_order};
ghost use Rattle.run_model.specs.Ends.{status_of};
ghost use Rattle.toplevel.specs.Headline.{AreRead, Did, DidUnwritten, GaveUp, HasRun, IsReady, IsUnread, IsWrittenUnless, Promised, PromisedOf, TellsNothing, file_of};

use crate::engines::run_engines;
use crate::front::Front;
use crate::lines::unread_text;
use crate::listed::list_file;
use crate::load::run_load;
use crate::ready::Ready;
use command_line::command::{Command, Order, read_order};
use pl_io::{Files, Gate, ReadAllError, Sink, read_all, write_all};
use pl_term::Text;
use run_model::ends::{End, GoalEnd, status_of};
use std::alloc::Global;
use std::sync::Wait;
use std::thread::Threads;

/// A file has at most 16 MiB; one byte more is read, which shows that it is too large.
pub(crate) const MOST_BYTES: u64 = 16_777_216;

/// What is written where the words are no command.
const USAGE: &str =
    "usage: plt run [OPTIONS] FILE [GOAL]... | plt check FILE | plt load SEED SIZE\n";

/// What is told of a run of the program.
#[derive(Drop)]
pub struct Report {
    /// How it ended.
    pub end: End,
    /// The exit status.
    pub status: u8,
    /// What is told of the run, where it came to its end.
    pub front: Option<Front>,
    /// The ends of the goals, in their order.
    pub ends: Vec<GoalEnd>,
}

/// A report with nothing but an end.
pub(crate) fn bare_report(alloc: Global, end: End) -> Report
    ensures end { result.end ≡ end }
    ensures status { result.status ≡ status_of end }
    ensures nothing { TellsNothing result }
{
    Report {
        end,
        status: status_of(end),
        front: None,
        ends: Vec::new(alloc),
    }
}

/// Reads the file and runs the command.
/// `Failed`: a read failed, as it does where there is no such file; the count of faults of the file's name rose.
/// `Memory`: there is no memory.
fn prepare<R: Threads + Wait + Sync, F: Files, G: Gate + Sync>(
    rt: &R,
    alloc: Global,
    command: &Command,
    files: &mut F,
    gate: &G,
) -> Result<Ready, ReadAllError>
    requires within { IsWithin command.now }
    ensures failed { IfErr result (λ e. e ≡ ReadAllError.Failed
        → Rose (F.faults files.old command.now.file) (F.faults files.new command.now.file)) }
    ensures absent { IsTrue (F.absent files.old command.now.file) → IsErr result }
    ensures ready { IfOk result (λ ready. (bytes : List ℕ) × (AreRead (F.told files.old command.now.file) bytes
        × IsReady (told_command command.now) bytes ready)) }
{
    let bytes = read_all(alloc, files, &command.file, MOST_BYTES)?;
    let ready = run_engines(rt, alloc, command, bytes.into_vec(), gate)?;
    Ok(ready)
}

/// Writes the text of a run.
fn write_transcript<S: Sink>(ready: Ready, out: &mut S) -> Report
    ensures status { result.status ≡ status_of result.end }
    ensures promised { (c : CommandOf) (file : Option (List ℕ)) (bytes : List ℕ)
        → AreRead file bytes → IsReady c bytes ready
        → Promised ⊥ (Rose (S.faults out.old) (S.faults out.new)) c file (S.written out.old) (S.written out.new) result result.end }
{
    match write_all(out, &ready.text) {
        Ok(()) => Report {
            end: ready.end,
            status: status_of(ready.end),
            front: Some(ready.front),
            ends: ready.ends,
        },
        Err(_) => Report {
            end: End::WriteFault,
            status: status_of(End::WriteFault),
            front: Some(ready.front),
            ends: ready.ends,
        },
    }
}

/// Writes the line for words that are no command.
fn write_usage<S: Sink>(alloc: Global, out: &mut S) -> Report
    ensures end { result.end ≡ End.Usage }
    ensures status { result.status ≡ status_of End.Usage }
    ensures nothing { TellsNothing result }
    ensures written { IsWrittenUnless (Rose (S.faults out.old) (S.faults out.new)) (S.written out.old) (S.written out.new)
        (encode_utf8_all usage_line) }
{
    let _ = write_all(out, USAGE.as_bytes());
    bare_report(alloc, End::Usage)
}

/// Writes the line for a file that cannot be read.
pub(crate) fn write_unread<S: Sink>(alloc: Global, file: &Text, out: &mut S) -> Report
    ensures end { IsUnread result.end }
    ensures status { result.status ≡ status_of result.end }
    ensures given_up { GaveUp (Rose (S.faults out.old) (S.faults out.new)) file.now (S.written out.old) (S.written out.new)
        result result.end }
{
    match unread_text(alloc, file) {
        Ok(line) => {
            let _ = write_all(out, &line);
            bare_report(alloc, End::ReadFault)
        }
        Err(_) => bare_report(alloc, End::Memory),
    }
}

/// Runs a command.
pub(crate) fn run_command<R: Threads + Wait + Sync, F: Files, S: Sink, G: Gate + Sync>(
    rt: &R,
    alloc: Global,
    command: &Command,
    files: &mut F,
    out: &mut S,
    gate: &G,
) -> Report
    requires within { IsWithin command.now }
    ensures status { result.status ≡ status_of result.end }
    ensures promised { Promised (Rose (F.faults files.old command.now.file) (F.faults files.new command.now.file))
        (Rose (S.faults out.old) (S.faults out.new)) (told_command command.now)
        (F.told files.old command.now.file) (S.written out.old) (S.written out.new) result result.end }
    ensures absent { IsTrue (F.absent files.old command.now.file) → IsUnread result.end }
{
    match prepare(rt, alloc, command, files, gate) {
        Ok(ready) => write_transcript(ready, out),
        Err(ReadAllError::Failed) => write_unread(alloc, &command.file, out),
        Err(ReadAllError::Memory) => bare_report(alloc, End::Memory),
    }
}

/// Does what an order asks for.
fn obey<R: Threads + Wait + Sync, F: Files, S: Sink, G: Gate + Sync>(
    rt: &R,
    alloc: Global,
    order: &Order,
    files: &mut F,
    out: &mut S,
    gate: &G,
) -> Report
    requires within { IsOrderWithin order.now }
    ensures status { result.status ≡ status_of result.end }
    ensures promised { PromisedOf (λ name. Rose (F.faults files.old name) (F.faults files.new name))
        (Rose (S.faults out.old) (S.faults out.new)) (F.told files.old) (told_order order.now)
        (S.written out.old) (S.written out.new) result result.end }
    ensures absent { (name : Chars) → file_of (Some (told_order order.now)) ≡ Some name → IsTrue (F.absent files.old name)
        → IsUnread result.end }
{
    match order {
        Order::Run(command) => run_command(rt, alloc, command, files, out, gate),
        Order::Check(file) => list_file(alloc, file, files, out),
        Order::Load { seed, size } => run_load(rt, alloc, *seed, *size, out, gate),
    }
}

/// Does what the words, without the program's name, ask for, and writes its text to `out`.
///
/// `run` consults a file and runs the goals and the threads that they start by the workers that it asks for; its text is the
/// transcript. `load` runs the source that a seed and a size give so. `check` reads a file without running a goal; its text lists
/// the syntax faults and counts what the file has. Before each visit to the shared state the gate is called with the numbers of
/// the worker and of the engine.
///
/// The report says how the program ended. `Usage`: the words ask for nothing that there is; the usage line is written.
/// `ReadFault`: a read of the file failed, as it does where there is no such file; a line that says so is written. `Memory`:
/// there was no memory; nothing is written. `WriteFault`: a write failed; a front of the text was written. `Halted`: a goal, a
/// thread or a directive ended by halt/1. `Waiting`: an engine waits, and nothing wakes it. `GoalFailed`: a goal did not end
/// solved, or a fault of the file was kept or listed. `Done`: nothing of that.
pub fn run<R: Threads + Wait + Sync, F: Files, S: Sink, G: Gate + Sync>(
    rt: &R,
    alloc: Global,
    words: &[Text],
    files: &mut F,
    out: &mut S,
    gate: &G,
) -> Report
    ensures status { result.status ≡ status_of result.end }
    ensures headline { HasRun result.end → (o : OrderOf) × ((order words.now ≡ Some o)
        × Did (F.told files.old) o (S.written out.old) (S.written out.new) result) }
    ensures complete { (o : OrderOf) → order words.now ≡ Some o
        → ((name : Chars) → file_of (Some o) ≡ Some name → Rose (F.faults files.old name) (F.faults files.new name) → ⊥)
        → (Rose (S.faults out.old) (S.faults out.new) → ⊥)
        → result.end ≢ End.Memory → HasRun result.end }
    ensures usage { result.end ≢ End.Memory → (result.end ≡ End.Usage ↔ order words.now ≡ None) }
    ensures absent { (name : Chars) → file_of (order words.now) ≡ Some name → IsTrue (F.absent files.old name) → IsUnread result.end }
    ensures usage_line { result.end ≡ End.Usage → TellsNothing result
        × IsWrittenUnless (Rose (S.faults out.old) (S.faults out.new)) (S.written out.old) (S.written out.new)
        (encode_utf8_all usage_line) }
    ensures read_fault { result.end ≡ End.ReadFault → TellsNothing result × ((name : Chars)
        × ((file_of (order words.now) ≡ Some name) × (Rose (F.faults files.old name) (F.faults files.new name)
        × IsWrittenUnless (Rose (S.faults out.old) (S.faults out.new)) (S.written out.old) (S.written out.new)
        (encode_utf8_all (unread_line name))))) }
    ensures write_fault { result.end ≡ End.WriteFault → Rose (S.faults out.old) (S.faults out.new)
        × ((o : OrderOf) × ((order words.now ≡ Some o)
        × DidUnwritten (F.told files.old) o (S.written out.old) (S.written out.new) result)) }
    ensures memory { result.end ≡ End.Memory → TellsNothing result × (S.written out.new ≡ S.written out.old) }
{
    match read_order(alloc, words) {
        Ok(None) => write_usage(alloc, out),
        Ok(Some(order)) => obey(rt, alloc, &order, files, out, gate),
        Err(_) => bare_report(alloc, End::Memory),
    }
}
