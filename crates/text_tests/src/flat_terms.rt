//! Rows of texts and terms by themselves.

use crate::fields::{Fields, text_of};
use crate::output::{put_named, put_number};
use crate::settings::Settings;
use crate::shown::put_nodes;
use crate::written::term_of;
use anyhow::{Result, bail};
use pl_term::{Flat, Text};
use prolog_reader::{Quotes, Read, read_term};
use std::alloc::Global;
use std::cmp::Ordering;
use std::convert::AsStr;

/// The order of each of some texts with each of them, and its bytes, with a blank after them.
pub fn ordered_texts(alloc: Global, fields: &mut Fields) -> Result<Vec<u8>> {
    let texts = texts_of(alloc, fields.next_field()?)?;
    let mut out = Vec::new(alloc);
    for left in &texts {
        put_orders_of_text(&mut out, left, &texts)?;
    }
    Ok(out)
}

/// The texts that stand with `¬` between.
fn texts_of(alloc: Global, field: &str) -> Result<Vec<Text>> {
    let mut texts = Vec::new(alloc);
    for part in field.split('¬') {
        texts.push(one_text(alloc, part)?)?;
    }
    Ok(texts)
}

fn one_text(alloc: Global, field: &str) -> Result<Text> {
    Ok(Text::from_str(alloc, text_of(alloc, field)?.as_str())?)
}

/// Adds the order of a text with each of some, and its bytes.
fn put_orders_of_text(out: &mut Vec<u8>, left: &Text, texts: &[Text]) -> Result<()> {
    for right in texts {
        out.push(order_mark(left.compare(right)))?;
    }
    put_number(out, left.size() as u64)?;
    out.push(b' ')?;
    Ok(())
}

/// Whether two texts are the same by `same` and by `is`, and whether a copy of the first is the second.
pub fn alike_texts(alloc: Global, fields: &mut Fields) -> Result<Vec<u8>> {
    let left = one_text(alloc, fields.next_field()?)?;
    let right = one_text(alloc, fields.next_field()?)?;
    let mut out = Vec::new(alloc);
    out.push(truth_mark(left.same(&right)))?;
    out.push(truth_mark(left.is(right.as_str())))?;
    out.push(truth_mark(left.copy(alloc)?.same(&right)))?;
    Ok(out)
}

/// The order of each of some terms with each of them, and a blank after them.
pub fn ordered_terms(alloc: Global, settings: &Settings, fields: &mut Fields) -> Result<Vec<u8>> {
    let terms = terms_of(alloc, settings, fields.next_field()?)?;
    let mut out = Vec::new(alloc);
    for left in &terms {
        put_orders_of_term(&mut out, left, &terms)?;
    }
    Ok(out)
}

/// The terms that stand with `¬` between.
fn terms_of(alloc: Global, settings: &Settings, field: &str) -> Result<Vec<Flat>> {
    let mut terms = Vec::new(alloc);
    for part in field.split('¬') {
        terms.push(one_term(alloc, settings, part)?)?;
    }
    Ok(terms)
}

/// Adds the order of a term with each of some.
fn put_orders_of_term(out: &mut Vec<u8>, left: &Flat, terms: &[Flat]) -> Result<()> {
    for right in terms {
        out.push(order_mark(left.compare(right)))?;
    }
    out.push(b' ')?;
    Ok(())
}

/// A term from the list of its parts, or, where the field begins with `:`, from the text after it.
pub fn one_term(alloc: Global, settings: &Settings, field: &str) -> Result<Flat> {
    let Some(text) = field.strip_prefix(':') else {
        return term_of(alloc, text_of(alloc, field)?.as_str());
    };
    let text = text_of(alloc, text)?;
    match read_term(alloc, text.as_bytes(), 0, &settings.ops, Quotes::Codes) {
        Read::Clause { term, .. } => Ok(term),
        _ => bail!("a term"),
    }
}

/// Whether two terms are the same, whether a copy of the first is the second, whether they are variants, and their order.
pub fn alike_terms(alloc: Global, settings: &Settings, fields: &mut Fields) -> Result<Vec<u8>> {
    let left = one_term(alloc, settings, fields.next_field()?)?;
    let right = one_term(alloc, settings, fields.next_field()?)?;
    let mut out = Vec::new(alloc);
    put_likeness(alloc, &mut out, &left, &right)?;
    Ok(out)
}

/// Adds whether two terms are the same, by themselves and by a copy, and variants, and their order.
fn put_likeness(alloc: Global, out: &mut Vec<u8>, left: &Flat, right: &Flat) -> Result<()> {
    out.push(truth_mark(left.same(right)))?;
    out.push(truth_mark(left.copy(alloc)?.same(right)))?;
    out.push(truth_mark(left.variant(alloc, right)?))?;
    out.push(order_mark(left.compare(right)))?;
    Ok(())
}

/// Of a term its nodes, cells, the number of its variables, these, and whether a number is one of them; then the term renamed from
/// that number on, the next free number, and how both terms are alike.
pub fn measured(alloc: Global, settings: &Settings, fields: &mut Fields) -> Result<Vec<u8>> {
    let term = one_term(alloc, settings, fields.next_field()?)?;
    let number = fields.next_field()?.parse::<u64>()?;
    let mut out = Vec::new(alloc);
    put_measures(alloc, &mut out, &term)?;
    out.push(truth_mark(term.has(number)))?;
    out.push(b' ')?;
    put_renamed(alloc, &mut out, &term, number)?;
    Ok(out)
}

/// Adds the nodes of a term, its cells, the number of its variables, and these.
fn put_measures(alloc: Global, out: &mut Vec<u8>, term: &Flat) -> Result<()> {
    put_nodes(out, term)?;
    put_number(out, term.cells())?;
    put_named(out, " ", term.variable_count())?;
    put_variables(out, &term.variables(alloc)?)
}

/// Adds the term renamed from a number on, the next free number, and how both terms are alike.
fn put_renamed(alloc: Global, out: &mut Vec<u8>, term: &Flat, number: u64) -> Result<()> {
    if number > 1000000 {
        bail!("a smaller number");
    }
    let _count = term.variable_count();
    let (renamed, free) = term.rename(alloc, number)?;
    put_nodes(out, &renamed)?;
    put_number(out, free)?;
    out.push(b' ')?;
    put_likeness(alloc, out, term, &renamed)
}

/// Adds the numbers of variables, with a colon before each and a blank at the end.
fn put_variables(out: &mut Vec<u8>, variables: &[u64]) -> Result<()> {
    for number in variables {
        put_named(out, ":", *number)?;
    }
    out.push(b' ')?;
    Ok(())
}

fn order_mark(order: Ordering) -> u8 {
    match order {
        Ordering::Less => b'<',
        Ordering::Equal => b'=',
        Ordering::Greater => b'>',
    }
}

fn truth_mark(truth: bool) -> u8 {
    if truth { b'+' } else { b'-' }
}
