//! Rows of arithmetic expressions.

use crate::fields::Fields;
use crate::flat_terms::one_term;
use crate::output::{put_integer, put_text};
use crate::settings::Settings;
use crate::shown::put_node;
use anyhow::{Result, bail};
use builtin_arithmetic::{EvalFault, OpFault, eval};
use std::alloc::Global;

/// The value of a term as an expression, or the word of its first fault.
pub fn value(alloc: Global, settings: &Settings, fields: &mut Fields) -> Result<Vec<u8>> {
    let term = one_term(alloc, settings, fields.next_field()?)?;
    let mut out = Vec::new(alloc);
    match eval(alloc, &term) {
        Ok(i) => put_integer(&mut out, i)?,
        Err(EvalFault::Inst) => put_text(&mut out, "unbound")?,
        Err(EvalFault::NotEvaluable { node }) => put_node(&mut out, &node)?,
        Err(EvalFault::Operation { fault }) => put_fault(&mut out, fault)?,
        Err(EvalFault::Memory) => bail!("no memory"),
    }
    Ok(out)
}

/// Adds the word of an operation's fault.
fn put_fault(out: &mut Vec<u8>, fault: OpFault) -> Result<()> {
    match fault {
        OpFault::ZeroDivisor => put_text(out, "zero_divisor"),
        OpFault::IntOverflow => put_text(out, "int_overflow"),
        OpFault::Undefined => put_text(out, "undefined"),
        OpFault::NeedsFloat { base } => {
            put_text(out, "float ")?;
            put_integer(out, base)
        }
    }
}
