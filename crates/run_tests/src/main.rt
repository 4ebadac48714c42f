//! Runs the rows of the files that the command line names by the top call, over memory, and writes each that gives
//! something else than it says, and the counts. README.md says how a row is written.
#![tactic(auto)]

mod compare;
mod counting;
mod meeting;
mod output;
mod row;
mod runs;

use anyhow::{Context, Result, bail, ensure};
use compare::{Tally, check_row};
use output::{put, put_number};
use row::Row;
use std::sync::Wait;
use std::thread::Threads;
use std::{env, fs};

fn main(rt: HostRuntime) -> Result<()> {
    let mut tally = Tally::new();
    for name in env::args(&rt)?.skip(1) {
        check_file(&rt, name.as_str(), &mut tally)?;
    }
    put_number(&rt, "", tally.cases)?;
    put_number(&rt, " cases, ", tally.differing)?;
    put(&rt, " differ\n")?;
    ensure!(tally.differing == 0, "some rows differ");
    Ok(())
}

/// Checks the rows of a file.
fn check_file<R: std::rt::Files + AllocGlobal + Print + Threads + Wait + Sync>(
    rt: &R,
    name: &str,
    tally: &mut Tally,
) -> Result<()> {
    let text = fs::read_to_string(rt, name).context("reading a file of rows")?;
    check_rows(rt, name, text.as_str(), tally)
}

/// Checks the rows of a text. A last row without its status is an error.
fn check_rows<R: AllocGlobal + Print + Threads + Wait + Sync>(
    rt: &R,
    name: &str,
    text: &str,
    tally: &mut Tally,
) -> Result<()> {
    let mut row = Row::new(rt.alloc());
    let mut number = 0u64;
    for line in text.split('\n') {
        number = number.saturating_add(1);
        check_line(rt, (name, number), line, &mut row, tally)?;
    }
    ensure!(row.is_new(), "a row without a status at the end");
    Ok(())
}

/// Takes a line, and checks the row that ends with it. A line that is no line of a row is an error.
fn check_line<'a, R: AllocGlobal + Print + Threads + Wait + Sync>(
    rt: &R,
    place: (&str, u64),
    line: &'a str,
    row: &mut Row<'a>,
    tally: &mut Tally,
) -> Result<()> {
    if !row.take_line(line)? {
        put(rt, place.0)?;
        put_number(rt, ", line ", place.1)?;
        bail!("no line of a row");
    }
    if row.is_whole() {
        check_row(rt, place, row, tally)?;
        row.begin_next();
    }
    Ok(())
}
