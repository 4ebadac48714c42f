//! Rows beside what comes of them.

use crate::output::{put, put_number, put_pair};
use crate::row::Row;
use crate::runs::{Outcome, outcome_of};
use anyhow::Result;
use std::io;
use std::io::Write;
use std::sync::Wait;
use std::thread::Threads;

/// The status where a write failed.
const WRITE_FAULT: u8 = 6;

/// The most bytes that a call of `write` takes where none fails.
const MOST: usize = 1000;

/// How many runs there were, and how many of them gave something else than their rows say.
#[derive(Drop)]
pub struct Tally {
    pub cases: u64,
    pub differing: u64,
}

impl Tally {
    /// No runs.
    pub fn new() -> Tally {
        Tally {
            cases: 0,
            differing: 0,
        }
    }

    /// Counts a run.
    fn count(&mut self, differs: bool) {
        self.cases = self.cases.saturating_add(1);
        self.differing = self.differing.saturating_add(u64::from(differs));
    }
}

/// Whether a run gave the text, with the status.
fn gives(outcome: &Outcome, wanted: &[u8], status: u8) -> bool {
    outcome.out.bytes() == wanted && outcome.status == status
}

/// Whether a run made the visits and the report that a row says, where it says so.
fn reports(outcome: &Outcome, row: &Row) -> bool {
    is_as_said(row.visits, outcome.visits)
        && has_engines(row.engines, outcome.engines)
        && outcome.have_met
}

/// Whether two numbers are those that a row says, where it says so.
fn is_as_said(said: Option<(u64, u64)>, came: (u64, u64)) -> bool {
    match said {
        Some(wanted) => wanted.0 == came.0 && wanted.1 == came.1,
        None => true,
    }
}

/// Whether there are as many engines as a row says, where it says so.
fn has_engines(said: Option<u64>, came: Option<u64>) -> bool {
    match (said, came) {
        (Some(wanted), Some(got)) => wanted == got,
        (Some(_), None) => false,
        (None, _) => true,
    }
}

/// Writes what a row says and what came of it.
fn show<R: Print>(
    rt: &R,
    place: (&str, u64),
    wanted: (&[u8], u8),
    outcome: &Outcome,
) -> io::Result<()> {
    put(rt, place.0)?;
    put_number(rt, ", the row that ends in line ", place.1)?;
    put_number(rt, ": wanted status ", u64::from(wanted.1))?;
    put(rt, " and\n")?;
    io::writer(rt).write_all(wanted.0)?;
    show_outcome(rt, outcome)
}

/// Writes what came of a row.
fn show_outcome<R: Print>(rt: &R, outcome: &Outcome) -> io::Result<()> {
    put_number(rt, "came status ", u64::from(outcome.status))?;
    put_pair(rt, ", visits", outcome.visits)?;
    if let Some(engines) = outcome.engines {
        put_number(rt, ", engines ", engines)?;
    }
    if !outcome.have_met {
        put(rt, ", no meeting")?;
    }
    put(rt, " and\n")?;
    io::writer(rt).write_all(outcome.out.bytes())?;
    put(rt, "end\n")
}

/// Checks a row, which ends at this place.
pub fn check_row<R: AllocGlobal + Print + Threads + Wait + Sync>(
    rt: &R,
    place: (&str, u64),
    row: &Row,
    tally: &mut Tally,
) -> Result<()> {
    check_whole(rt, place, row, tally)?;
    match row.failing_writes {
        Some(most) => check_failing_writes(rt, place, row, most, tally),
        None => Ok(()),
    }
}

/// Checks a row where no write fails.
fn check_whole<R: AllocGlobal + Print + Threads + Wait + Sync>(
    rt: &R,
    place: (&str, u64),
    row: &Row,
    tally: &mut Tally,
) -> Result<()> {
    let alloc = rt.alloc();
    let wanted = row.wanted.as_bytes();
    let status = row.status.unwrap_or(0);
    let outcome = outcome_of(rt, alloc, row, MOST, Vec::new(alloc))?;
    let differs = !(gives(&outcome, wanted, status) && reports(&outcome, row));
    tally.count(differs);
    if differs {
        show(rt, place, (wanted, status), &outcome)?;
    }
    Ok(())
}

/// Checks that where a call of `write` takes at most `most` bytes and one call fails, just the front of a row's text is
/// written that the calls before take, for each call in its turn.
fn check_failing_writes<R: AllocGlobal + Print + Threads + Wait + Sync>(
    rt: &R,
    place: (&str, u64),
    row: &Row,
    most: usize,
    tally: &mut Tally,
) -> Result<()> {
    let wanted = row.wanted.as_bytes();
    let mut size = 0usize;
    for call in 0..wanted.len() as u64 {
        if size >= wanted.len() {
            break;
        }
        check_failing_write(rt, place, row, (most, call), &wanted[..size], tally)?;
        size = size.saturating_add(most);
    }
    Ok(())
}

/// Checks that just this front of a row's text is written where a call of `write` takes at most so many bytes and the
/// call with this number fails.
fn check_failing_write<R: AllocGlobal + Print + Threads + Wait + Sync>(
    rt: &R,
    place: (&str, u64),
    row: &Row,
    fault: (usize, u64),
    front: &[u8],
    tally: &mut Tally,
) -> Result<()> {
    let (most, call) = fault;
    let alloc = rt.alloc();
    let outcome = outcome_of(rt, alloc, row, most, vec![in alloc; call]?)?;
    let differs = !gives(&outcome, front, WRITE_FAULT);
    tally.count(differs);
    if differs {
        show(rt, place, (front, WRITE_FAULT), &outcome)?;
    }
    Ok(())
}
