//! Rows of names of one character, which are written and read back.

use crate::fields::Fields;
use crate::settings::Settings;
use anyhow::{Context, Result};
use pl_term::{Flat, Text};
use prolog_reader::{Quotes, Read, read_term};
use std::alloc::Global;
use term_writer::writeq;

/// The text by `writeq` of the atom whose name is the character of a code, and ` is not read back` after it where this is so.
pub fn name_of_one(alloc: Global, settings: &Settings, fields: &mut Fields) -> Result<Vec<u8>> {
    let code = fields.next_field()?.parse::<u32>()?;
    let term = atom_of(alloc, code)?;
    let mut text = Vec::new(alloc);
    writeq(alloc, &term, &settings.ops, 1200, &mut text)?;
    if !reads_as(alloc, settings, &text, &term)? {
        text.extend_from_slice(b" is not read back")?;
    }
    Ok(text)
}

/// The atom whose name is the character of this code.
fn atom_of(alloc: Global, code: u32) -> Result<Flat> {
    let mut name = String::new(alloc);
    name.push(char::from_u32(code).context("a character")?)?;
    Ok(Flat::atom(alloc, &Text::from_str(alloc, name.as_str())?)?)
}

/// Whether a text with a full stop after it is read as this term.
fn reads_as(alloc: Global, settings: &Settings, text: &[u8], term: &Flat) -> Result<bool> {
    let mut clause = Vec::new(alloc);
    clause.extend_from_slice(text)?;
    clause.extend_from_slice(b" .")?;
    match read_term(alloc, &clause, 0, &settings.ops, Quotes::Codes) {
        Read::Clause {
            term: read,
            next,
            ..
        } => Ok(read.same(term) && next == clause.len()),
        _ => Ok(false),
    }
}
