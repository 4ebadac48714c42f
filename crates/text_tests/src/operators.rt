//! Rows of the table of operators.

use crate::fields::Fields;
use crate::output::{put_named, put_number, put_text};
use crate::settings::{Settings, change};
use anyhow::{Result, ensure};
use op_table::{Kind, OpFault, OpTable};
use pl_term::Text;
use std::alloc::Global;
use std::convert::AsStr;

/// The operators of a name: the prefix, the infix and the postfix one.
pub fn of_name(alloc: Global, settings: &Settings, fields: &mut Fields) -> Result<Vec<u8>> {
    let name = Text::from_str(alloc, fields.next_field()?)?;
    let mut out = Vec::new(alloc);
    put_operators(alloc, &mut out, &settings.ops, &name)?;
    Ok(out)
}

/// The names of all operators in the order of the table, with a blank after each.
pub fn all_names(alloc: Global, settings: &Settings, fields: &mut Fields) -> Result<Vec<u8>> {
    ensure!(fields.next_field()?.is_empty(), "an empty field");
    let mut out = Vec::new(alloc);
    for operator in settings.ops.operators() {
        out.extend_from_slice(operator.name.as_str().as_bytes())?;
        out.push(b' ')?;
    }
    Ok(out)
}

/// What each change of a copy of the table answers, then the operators of a name in the copy, the number of its operators
/// and the number of those in the table.
pub fn changes(alloc: Global, settings: &Settings, fields: &mut Fields) -> Result<Vec<u8>> {
    let mut ops = settings.ops.copy(alloc)?;
    let mut out = Vec::new(alloc);
    put_changes(alloc, &mut out, &mut ops, fields.next_field()?)?;
    let name = Text::from_str(alloc, fields.next_field()?)?;
    put_operators(alloc, &mut out, &ops, &name)?;
    put_counts(&mut out, &ops, &settings.ops)?;
    Ok(out)
}

/// Adds what each change answers, which stand with `¦` between.
fn put_changes(alloc: Global, out: &mut Vec<u8>, ops: &mut OpTable, changes: &str) -> Result<()> {
    for text in changes.split('¦') {
        let fault = change(alloc, ops, text)?;
        put_answer(alloc, out, fault)?;
    }
    Ok(())
}

/// Adds how many operators a table has, and of how many in another.
fn put_counts(out: &mut Vec<u8>, ops: &OpTable, before: &OpTable) -> Result<()> {
    put_named(out, "; ", ops.operators().len() as u64)?;
    put_named(out, " of ", before.operators().len() as u64)
}

/// How many of so many infix operators are added, how many of them are found, how many operators there are then, and how
/// many once one of them is taken away.
pub fn many(alloc: Global, settings: &Settings, fields: &mut Fields) -> Result<Vec<u8>> {
    let count = fields.next_field()?.parse::<u32>()?;
    let mut ops = settings.ops.copy(alloc)?;
    let mut out = Vec::new(alloc);
    put_added(alloc, &mut out, &mut ops, count)?;
    put_taken_away(alloc, &mut out, &mut ops)?;
    Ok(out)
}

/// Adds how many of so many operators are added, how many are found, and how many there are then.
fn put_added(alloc: Global, out: &mut Vec<u8>, ops: &mut OpTable, count: u32) -> Result<()> {
    put_number(out, added_all(alloc, ops, count)? as u64)?;
    put_named(out, " ", found_all(alloc, ops, count)? as u64)?;
    put_named(out, " ", ops.operators().len() as u64)
}

/// Adds what taking one of them away answers, and how many there are then.
fn put_taken_away(alloc: Global, out: &mut Vec<u8>, ops: &mut OpTable) -> Result<()> {
    put_text(out, " ")?;
    let fault = ops.add(0, Kind::Xfx, &numbered(alloc, 1)?).err();
    put_answer(alloc, out, fault)?;
    put_number(out, ops.operators().len() as u64)
}

/// How many of so many operators are added, each beside others that come before it and after it.
fn added_all(alloc: Global, ops: &mut OpTable, count: u32) -> Result<u32> {
    let mut added: u32 = 0;
    for i in 0..count {
        let name = numbered(alloc, i.wrapping_mul(7919).checked_rem(count).unwrap_or(0))?;
        if ops.add(700, Kind::Xfx, &name).is_ok() {
            added = added.saturating_add(1);
        }
    }
    Ok(added)
}

/// How many of them are found as infix operators, and as no others.
fn found_all(alloc: Global, ops: &OpTable, count: u32) -> Result<u32> {
    let mut found: u32 = 0;
    for i in 0..count {
        let name = numbered(alloc, i)?;
        let is_infix = matches!(ops.infix(&name), Some((700, Kind::Xfx)));
        if is_infix && ops.prefix(&name).is_none() {
            found = found.saturating_add(1);
        }
    }
    Ok(found)
}

/// The name with the number.
fn numbered(alloc: Global, number: u32) -> Result<Text> {
    let name = format!(in alloc; "op{number}")?;
    Ok(Text::from_str(alloc, name.as_str())?)
}

/// Adds the operators of a name at the three places.
fn put_operators(alloc: Global, out: &mut Vec<u8>, ops: &OpTable, name: &Text) -> Result<()> {
    put_operator(alloc, out, ops.prefix(name))?;
    put_text(out, ", ")?;
    put_operator(alloc, out, ops.infix(name))?;
    put_text(out, ", ")?;
    put_operator(alloc, out, ops.postfix(name))
}

/// Adds the priority and the specifier of an operator, or `none`.
fn put_operator(alloc: Global, out: &mut Vec<u8>, operator: Option<(u16, Kind)>) -> Result<()> {
    match operator {
        Some((priority, kind)) => {
            put_number(out, priority as u64)?;
            put_text(out, format!(in alloc; " {kind:?}")?.as_str())
        }
        None => put_text(out, "none"),
    }
}

/// Adds what a change answered, with a blank after it.
fn put_answer(alloc: Global, out: &mut Vec<u8>, fault: Option<OpFault>) -> Result<()> {
    match fault {
        Some(fault) => put_text(out, format!(in alloc; "{fault:?} ")?.as_str()),
        None => put_text(out, "done "),
    }
}
