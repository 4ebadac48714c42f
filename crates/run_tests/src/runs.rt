//! Runs of rows by the top call, over memory.

use crate::counting::Counting;
use crate::row::Row;
use pl_io::{Bytes, MemoryFiles, MemorySink};
use pl_term::{Memory, Text};
use std::alloc::Global;
use std::sync::Wait;
use std::thread::Threads;
use toplevel::run::{Report, run};

/// The room of a sink, in bytes.
const ROOM: usize = 1_000_000;

/// What came of a run.
#[derive(Drop)]
pub struct Outcome {
    /// What was written.
    pub out: MemorySink,
    /// The exit status.
    pub status: u8,
    /// The calls of the gate, and those that are not for engine 1.
    pub visits: (u64, u64),
    /// The engines that the report has, where it has any.
    pub engines: Option<u64>,
    /// Whether the engines that are to meet at the gate have done so.
    pub have_met: bool,
}

/// The words of a row's command: those between blanks, where `""` stands for an empty one, and the goals.
fn words_of(alloc: Global, row: &Row) -> Result<Vec<Text>, Memory> {
    let mut words = Vec::new(alloc);
    for word in row.words.split(' ') {
        match word {
            "" => (),
            "\"\"" => words.push(Text::from_str(alloc, "")?)?,
            _ => words.push(Text::from_str(alloc, word)?)?,
        }
    }
    for goal in &row.goals {
        words.push(Text::from_str(alloc, goal.as_str())?)?;
    }
    Ok(words)
}

/// The files of a row: f.pl, where one read may fail.
fn files_of(alloc: Global, row: &Row) -> Result<MemoryFiles, Memory> {
    let content = content_of(alloc, row)?;
    let mut failing = Vec::new(alloc);
    if let Some(call) = row.failing_read {
        failing.push(call)?;
    }
    let mut files = MemoryFiles::new(alloc, failing);
    files.insert(Text::from_str(alloc, "f.pl")?, Bytes::from_vec(content))?;
    Ok(files)
}

/// The bytes of the file of a row.
fn content_of(alloc: Global, row: &Row) -> Result<Vec<u8>, Memory> {
    let mut all = Vec::new(alloc);
    if let Some(text) = &row.file {
        all.extend_from_slice(text.as_bytes())?;
    }
    all.extend_from_slice(&row.bytes)?;
    Ok(all)
}

/// A sink of which a call of `write` takes at most `most` bytes, and the calls in `failing` fail.
fn sink_of(alloc: Global, most: usize, failing: Vec<u64>) -> Result<MemorySink, Memory> {
    let mut out = MemorySink::with_room(alloc, ROOM, failing)?;
    out.take_at_most(most);
    Ok(out)
}

/// The number of a report's engines.
fn engines_of(report: &Report) -> Option<u64> {
    match &report.front {
        Some(front) => Some(front.engines.len() as u64),
        None => None,
    }
}

/// Runs a row, where a call of `write` takes at most `most` bytes and those in `failing` fail.
pub fn outcome_of<R: Threads + Wait + Sync>(
    rt: &R,
    alloc: Global,
    row: &Row,
    most: usize,
    failing: Vec<u64>,
) -> Result<Outcome, Memory> {
    let out = sink_of(alloc, most, failing)?;
    let words = words_of(alloc, row)?;
    let files = files_of(alloc, row)?;
    let gate = Counting::new(row.meets);
    Ok(outcome_over(rt, alloc, words.as_slice(), files, out, &gate))
}

/// Runs the command with these words over these files, this sink and this gate.
fn outcome_over<R: Threads + Wait + Sync>(
    rt: &R,
    alloc: Global,
    words: &[Text],
    mut files: MemoryFiles,
    mut out: MemorySink,
    gate: &Counting,
) -> Outcome {
    let report = run(rt, alloc, words, &mut files, &mut out, gate);
    Outcome {
        status: report.status,
        visits: gate.counts(),
        engines: engines_of(&report),
        have_met: gate.have_met(),
        out,
    }
}
