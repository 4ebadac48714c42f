//! Runs the rows of the files that the command line names by the public calls of the reader, the writer, the table of
//! operators, the database, the report and terms, and writes each row that gives something else than it says, and the counts. README.md
//! says how a row is written.
#![tactic(auto)]

mod arithmetic;
mod atoms;
mod cells;
mod characters;
mod database;
mod fields;
mod files;
mod flat_terms;
mod interned;
mod lexemes;
mod operators;
mod output;
mod report;
mod runs;
mod settings;
mod shown;
mod store;
mod terms;
mod unification;
mod written;

use anyhow::{Context, Result, bail, ensure};
use fields::{Fields, bytes_of};
use output::{put_named, put_number, put_text};
use pl_io::{HostOutput, write_all};
use settings::Settings;
use std::alloc::Global;
use std::io::Write;
use std::os::unix::fs::FileExt;
use std::{env, fs, io};

/// How many rows there were, and how many of them gave something else than they say.
#[derive(Drop)]
struct Tally {
    cases: u64,
    differing: u64,
}

fn main(rt: HostRuntime) -> Result<()> {
    let mut tally = Tally {
        cases: 0,
        differing: 0,
    };
    for name in env::args(&rt)?.skip(1) {
        check_file(&rt, name.as_str(), &mut tally)?;
    }
    write_counts(&rt, &tally)?;
    ensure!(tally.differing == 0, "some rows differ");
    Ok(())
}

/// Writes how many rows there were, and how many differ, by the adapter over standard output.
fn write_counts<R: AllocGlobal + Print>(rt: &R, tally: &Tally) -> Result<()> {
    let mut counts = Vec::new(rt.alloc());
    put_number(&mut counts, tally.cases)?;
    put_named(&mut counts, " cases, ", tally.differing)?;
    put_text(&mut counts, " differ\n")?;
    write_all(&mut HostOutput::new(rt), &counts)?;
    Ok(())
}

/// Checks the rows of a file.
fn check_file<R: std::rt::Files + AllocGlobal + Print>(
    rt: &R,
    name: &str,
    tally: &mut Tally,
) -> Result<()>
where
    R::File: FileExt,
{
    let text = fs::read_to_string(rt, name).context("reading a file of rows")?;
    check_rows(rt, text.as_str(), tally)
}

/// Checks the rows of a text. A line that ends in an error is written.
fn check_rows<R: std::rt::Files + AllocGlobal + Print>(
    rt: &R,
    text: &str,
    tally: &mut Tally,
) -> Result<()>
where
    R::File: FileExt,
{
    let mut settings = Settings::new(rt.alloc())?;
    for line in text.split('\n') {
        let checked = check_line(rt, line, &mut settings, tally);
        if checked.is_err() {
            io::writer(rt).write_all(line.as_bytes())?;
        }
        checked?;
    }
    Ok(())
}

/// Checks a row, or takes a line without `§`: a setting of the rows after it, a comment, or an empty one.
fn check_line<'a, R: std::rt::Files + AllocGlobal + Print>(
    rt: &R,
    line: &'a str,
    settings: &mut Settings<'a>,
    tally: &mut Tally,
) -> Result<()>
where
    R::File: FileExt,
{
    if line.contains('§') {
        check_row(rt, line, settings, tally)
    } else {
        settings.take_line(line)
    }
}

/// Checks a row.
fn check_row<R: std::rt::Files + AllocGlobal + Print>(
    rt: &R,
    row: &str,
    settings: &Settings,
    tally: &mut Tally,
) -> Result<()>
where
    R::File: FileExt,
{
    let mut fields = Fields::new(row);
    let got = if settings.kind == "system_files" {
        files::system_file(rt, &mut fields)?
    } else {
        result_of(rt.alloc(), settings, &mut fields)?
    };
    let wanted = bytes_of(rt.alloc(), fields.rest())?;
    tally.cases = tally.cases.saturating_add(1);
    if got.as_slice() != wanted.as_slice() {
        tally.differing = tally.differing.saturating_add(1);
        show(rt, row, &got)?;
    }
    Ok(())
}

/// Writes a row and what came of it.
fn show<R: Print>(rt: &R, row: &str, got: &[u8]) -> io::Result<()> {
    io::writer(rt).write_all(row.as_bytes())?;
    io::writer(rt).write_all(b"\n")?;
    io::writer(rt).write_all(got)?;
    io::writer(rt).write_all(b" came\n")
}

/// What comes of a row of the kind that is set: one that is read, here and below by its subject.
fn result_of(alloc: Global, settings: &Settings, fields: &mut Fields) -> Result<Vec<u8>> {
    match settings.kind {
        "terms" => terms::term(alloc, settings, fields),
        "sizes" => terms::size(alloc, settings, fields),
        "texts" => terms::items(alloc, settings, fields),
        "skips" => terms::place_skipped_to(alloc, fields),
        "lexemes" => lexemes::lexemes(alloc, fields),
        "characters" => characters::name_of_one(alloc, settings, fields),
        _ => result_of_writing(alloc, settings, fields),
    }
}

/// One that is written.
fn result_of_writing(alloc: Global, settings: &Settings, fields: &mut Fields) -> Result<Vec<u8>> {
    match settings.kind {
        "written" => written::all_forms(alloc, settings, fields),
        "quoted" => written::quoted_and_bare(alloc, settings, fields),
        "of_texts" => written::of_text(alloc, settings, fields),
        "solutions" => report::solution(alloc, settings, fields),
        "file_lines" => report::file_line(alloc, settings, fields),
        "runs" => runs::run(alloc, fields),
        _ => result_of_operators(alloc, settings, fields),
    }
}

/// One about operators.
fn result_of_operators(alloc: Global, settings: &Settings, fields: &mut Fields) -> Result<Vec<u8>> {
    match settings.kind {
        "operators" => operators::of_name(alloc, settings, fields),
        "operator_names" => operators::all_names(alloc, settings, fields),
        "operator_changes" => operators::changes(alloc, settings, fields),
        "many_operators" => operators::many(alloc, settings, fields),
        _ => result_of_terms(alloc, settings, fields),
    }
}

/// One about texts and terms by themselves.
fn result_of_terms(alloc: Global, settings: &Settings, fields: &mut Fields) -> Result<Vec<u8>> {
    match settings.kind {
        "ordered_texts" => flat_terms::ordered_texts(alloc, fields),
        "alike_texts" => flat_terms::alike_texts(alloc, fields),
        "ordered_terms" => flat_terms::ordered_terms(alloc, settings, fields),
        "alike_terms" => flat_terms::alike_terms(alloc, settings, fields),
        "measured" => flat_terms::measured(alloc, settings, fields),
        "values" => arithmetic::value(alloc, settings, fields),
        "atoms" => atoms::numbers(alloc, fields),
        "over_atoms" => interned::over_atoms(alloc, settings, fields),
        _ => result_of_unifying(alloc, settings.kind, fields),
    }
}

/// One about terms of a store that are unified.
fn result_of_unifying(alloc: Global, kind: &str, fields: &mut Fields) -> Result<Vec<u8>> {
    match kind {
        "unified" => unification::unified_terms(alloc, fields),
        "unifies" => unification::is_unified(alloc, fields),
        "heads" => unification::heads(alloc, fields),
        "walked" => unification::walked_term(alloc, fields),
        "chains" => unification::chain(alloc, fields),
        _ => result_of_store(alloc, kind, fields),
    }
}

/// One about a store of terms.
fn result_of_store(alloc: Global, kind: &str, fields: &mut Fields) -> Result<Vec<u8>> {
    match kind {
        "loads" => store::load(alloc, fields),
        "shares" => store::share(alloc, fields),
        "undone" => store::undone(alloc, fields),
        "seen" => store::seen(alloc, fields),
        "bound" => store::bound(alloc, fields),
        "cells" => store::cells(alloc, fields),
        _ => result_of_files(alloc, kind, fields),
    }
}

/// One about a database, or files.
fn result_of_files(alloc: Global, kind: &str, fields: &mut Fields) -> Result<Vec<u8>> {
    match kind {
        "database" => database::answers(alloc, fields),
        "files" => files::file_read(alloc, fields),
        "replaced" => files::file_replaced(alloc, fields),
        "one_text" => files::one_text(alloc, fields),
        "sinks" => files::sink(alloc, fields),
        _ => bail!("no such kind of rows"),
    }
}
