//! Rows of the lines of a report.

use crate::fields::Fields;
use crate::settings::Settings;
use crate::written::term_of;
use anyhow::{Context, Result, bail};
use pl_model::syntax::SyntaxKind;
use pl_report::{
    begin_solution, end_solution, put_failed_directive, put_halted_directive, put_name,
    put_no_atom_space, put_no_value, put_refused_item, put_syntax_fault, put_too_large,
    put_waiting_directive,
};
use pl_term::{Flat, Text};
use std::alloc::Global;
use term_writer::writeq;

/// A text with the line of a solution after it.
pub fn solution(alloc: Global, settings: &Settings, fields: &mut Fields) -> Result<Vec<u8>> {
    let names = names_of(alloc, fields.next_field()?)?;
    let values = values_of(alloc, fields.next_field()?)?;
    let mut out = fields.next_bytes(alloc)?;
    begin_solution(&mut out)?;
    let mut some = false;
    for (name, number) in &names {
        if put_name(&mut out, some, name)? {
            put_value(alloc, settings, *number, &values, &mut out)?;
            some = true;
        }
    }
    end_solution(&mut out, some)?;
    Ok(out)
}

/// Puts the value of the variable with this number.
fn put_value(
    alloc: Global,
    settings: &Settings,
    number: u64,
    values: &[Flat],
    out: &mut Vec<u8>,
) -> Result<()> {
    match values.get(usize::try_from(number)?) {
        Some(value) => writeq(alloc, value, &settings.ops, 699, out)?,
        None => put_no_value(alloc, out, &settings.ops)?,
    }
    Ok(())
}

/// The named variables, each with its number of one digit, with a blank between.
fn names_of(alloc: Global, text: &str) -> Result<Vec<(Text, u64)>> {
    let mut names = Vec::new(alloc);
    for part in text.split(' ') {
        if let Some((size, _)) = part.char_indices().last() {
            let name = part.get(..size).context("a name")?;
            let digit = part.get(size..).context("a number")?;
            names.push((Text::from_str(alloc, name)?, digit.parse::<u64>()?))?;
        }
    }
    Ok(names)
}

/// The values of variables, with `¬` between.
fn values_of(alloc: Global, text: &str) -> Result<Vec<Flat>> {
    let mut values = Vec::new(alloc);
    for part in text.split('¬') {
        if !part.is_empty() {
            values.push(term_of(alloc, part)?)?;
        }
    }
    Ok(values)
}

/// A text with a line of the file f.pl after it.
pub fn file_line(alloc: Global, settings: &Settings, fields: &mut Fields) -> Result<Vec<u8>> {
    let kind = fields.next_field()?;
    let at = fields.next_field()?.parse::<usize>()?;
    let ball = fields.next_field()?;
    let mut out = fields.next_bytes(alloc)?;
    let name = Text::from_str(alloc, "f.pl")?;
    match kind {
        "too_large" => put_too_large(&mut out, &name)?,
        "syntax" => put_syntax_fault(&mut out, &name, SyntaxKind::UnexpectedToken, at)?,
        "ball" => {
            let ball = term_of(alloc, ball)?;
            put_refused_item(alloc, &mut out, &name, at, &ball, &settings.ops)?
        }
        "no_atom_space" => put_no_atom_space(&mut out, &name, at)?,
        "failed" => put_failed_directive(&mut out, &name, at)?,
        "halted" => put_halted_directive(&mut out, &name, at, 3)?,
        "waiting" => put_waiting_directive(&mut out, &name, at)?,
        _ => bail!("no such line"),
    }
    Ok(out)
}
