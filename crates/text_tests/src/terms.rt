//! Rows of the reader.

use crate::fields::Fields;
use crate::output::{put_number, put_text};
use crate::settings::Settings;
use crate::shown::put_read;
use anyhow::Result;
use prolog_reader::{Read, read_term, skip};
use std::alloc::Global;

/// What stands at the beginning of a text: a clause with its nodes, its named variables and its places, or a fault.
pub fn term(alloc: Global, settings: &Settings, fields: &mut Fields) -> Result<Vec<u8>> {
    let text = fields.next_bytes(alloc)?;
    let read = read_term(alloc, &text, 0, &settings.ops, settings.quotes);
    let mut out = Vec::new(alloc);
    put_read(alloc, &mut out, &read)?;
    Ok(out)
}

/// What stands at the beginning of a text: the number of a clause's nodes, or a fault.
pub fn size(alloc: Global, settings: &Settings, fields: &mut Fields) -> Result<Vec<u8>> {
    let text = fields.next_bytes(alloc)?;
    let read = read_term(alloc, &text, 0, &settings.ops, settings.quotes);
    let mut out = Vec::new(alloc);
    match &read {
        Read::Clause { term, .. } => {
            put_number(&mut out, term.nodes().len() as u64)?;
            put_text(&mut out, " nodes")?
        }
        _ => put_read(alloc, &mut out, &read)?,
    }
    Ok(out)
}

/// What a whole text is read as: each clause, and each fault, after which reading goes on where skipping goes.
pub fn items(alloc: Global, settings: &Settings, fields: &mut Fields) -> Result<Vec<u8>> {
    let text = fields.next_bytes(alloc)?;
    let mut out = Vec::new(alloc);
    let mut at = 0;
    for _ in 0..text.len() {
        let read = read_term(alloc, &text, at, &settings.ops, settings.quotes);
        at = match read {
            Read::Clause { next, .. } => next,
            Read::Syntax { .. } => skip(&text, at),
            _ => break,
        };
        if !out.is_empty() {
            put_text(&mut out, "; ")?;
        }
        put_read(alloc, &mut out, &read)?;
    }
    Ok(out)
}

/// The place to which skipping goes from a place of a text.
pub fn place_skipped_to(alloc: Global, fields: &mut Fields) -> Result<Vec<u8>> {
    let text = fields.next_bytes(alloc)?;
    let at = fields.next_field()?.parse::<usize>()?;
    let mut out = Vec::new(alloc);
    put_number(&mut out, skip(&text, at) as u64)?;
    Ok(out)
}
