//! Rows of the writer.

use crate::fields::{Fields, text_of};
use crate::settings::Settings;
use anyhow::{Context, Result};
use pl_term::{Flat, Text};
use prolog_reader::{Quotes, Read, read_term};
use std::alloc::Global;
use term_writer::{write, write_canonical, writeq};

/// The texts by `writeq`, `write` and `write_canonical` of a term where a largest priority may stand, each after what was
/// there before, with `§` between.
pub fn all_forms(alloc: Global, settings: &Settings, fields: &mut Fields) -> Result<Vec<u8>> {
    let max = fields.next_field()?.parse::<u16>()?;
    let term = term_of(alloc, fields.next_field()?)?;
    let mut out = Vec::new(alloc);
    put_two_forms(alloc, &mut out, settings, &term, max)?;
    out.extend_from_slice("§".as_bytes())?;
    write_canonical(alloc, &term, &settings.ops, max, &mut out)?;
    Ok(out)
}

/// Adds the texts by `writeq` and `write` of a term, with `§` between.
fn put_two_forms(
    alloc: Global,
    out: &mut Vec<u8>,
    settings: &Settings,
    term: &Flat,
    max: u16,
) -> Result<()> {
    writeq(alloc, term, &settings.ops, max, out)?;
    out.extend_from_slice("§".as_bytes())?;
    write(alloc, term, &settings.ops, max, out)?;
    Ok(())
}

/// The texts by `writeq` and `write` of an atom, with `§` between.
pub fn quoted_and_bare(alloc: Global, settings: &Settings, fields: &mut Fields) -> Result<Vec<u8>> {
    let name = text_of(alloc, fields.next_field()?)?;
    let term = Flat::atom(alloc, &Text::from_str(alloc, name.as_str())?)?;
    let mut out = Vec::new(alloc);
    put_two_forms(alloc, &mut out, settings, &term, 1200)?;
    Ok(out)
}

/// The text by `writeq` of the term at the beginning of a text, or `no term`.
pub fn of_text(alloc: Global, settings: &Settings, fields: &mut Fields) -> Result<Vec<u8>> {
    let text = fields.next_bytes(alloc)?;
    let mut out = Vec::new(alloc);
    let read = read_term(alloc, &text, 0, &settings.ops, Quotes::Codes);
    match &read {
        Read::Clause { term, .. } => writeq(alloc, term, &settings.ops, 1200, &mut out)?,
        _ => out.extend_from_slice(b"no term")?,
    }
    Ok(out)
}

/// The term of a row: the list of its parts, each after its arguments.
pub fn term_of(alloc: Global, text: &str) -> Result<Flat> {
    let mut terms = Vec::new(alloc);
    for part in text.split('¦') {
        let term = part_of(alloc, part, &mut terms)?;
        terms.push(term)?;
    }
    terms.pop().context("a term")
}

/// A part of a term: `v` with the number of a variable, `i` with an integer, `a` with an atom, or the number of the
/// arguments, which are the last terms, with a name.
fn part_of(alloc: Global, part: &str, terms: &mut Vec<Flat>) -> Result<Flat> {
    let sort = part.get(..1).context("a part")?;
    let rest = part.get(1..).context("a part")?;
    Ok(match sort {
        "v" => Flat::var(alloc, rest.parse::<u64>()?)?,
        "i" => Flat::int(alloc, rest.parse::<i64>()?)?,
        "a" => Flat::atom(alloc, &Text::from_str(alloc, rest)?)?,
        _ => compound(alloc, rest, sort, terms)?,
    })
}

/// The compound term with this name and so many of the last terms as arguments.
fn compound(alloc: Global, name: &str, arity: &str, terms: &mut Vec<Flat>) -> Result<Flat> {
    let text = Text::from_str(alloc, name)?;
    let last = terms.pop().context("an argument")?;
    if arity == "1" {
        return Ok(Flat::comp(alloc, &text, &[last])?);
    }
    let middle = terms.pop().context("an argument")?;
    if arity == "2" {
        return Ok(Flat::comp(alloc, &text, &[middle, last])?);
    }
    let first = terms.pop().context("an argument")?;
    Ok(Flat::comp(alloc, &text, &[first, middle, last])?)
}
