//! Texts put at the end of a transcript, in UTF-8.
ghost use Rattle.std.specs.Prelude.{◌≡◌, ◌<◌, ◌++◌, ◌-◌, List, ℕ, ◌+◌, OnOk, IsTrue, decimal, length, slice_get};
ghost use Rattle.std.specs.Char.{is_ascii};
ghost use Rattle.std.specs.List.{list_all};
ghost use Rattle.pl_model.specs.Characters.{is_symbol};
ghost use Rattle.run_model.specs.Report.{newline, is_open, closed, stopped, ends_in_symbol};
ghost use Rattle.pl_model.specs.TermWriting.{writeq};
ghost use Rattle.pl_term.specs.Nodes.{nodes};
ghost use Rattle.term_writer.specs.declared.writing.Writing.{Writing as Begun};
ghost use Rattle.pl_report.specs.Adds.{Adds};
ghost use Rattle.pl_report.specs.WrittenNodes.{IsWrittenTo};

use itoa::Buffer;
use named_terms::NamedTerm;
use op_table::OpTable;
use pl_term::{Flat, Memory, Text};
use std::alloc::Global;
use std::convert::AsStr;
use std::mem;
use term_writer::{Writing, writeq};

/// The largest priority of a term that stands by itself.
const WHOLE: u16 = 1200;

/// The largest priority of the value of a variable.
const VALUE: u16 = 699;

/// Puts a text.
pub fn put(out: &mut Vec<u8>, text: &Text) -> Result<(), Memory>
    ensures { OnOk result (Adds out.old.items out.new.items text.now) }
{
    out.extend_from_slice(text.as_str().as_bytes())?;
    Ok(())
}

/// Puts words in ASCII.
pub fn put_words(out: &mut Vec<u8>, words: &str) -> Result<(), Memory>
    requires { IsTrue (list_all is_ascii words.now) }
    ensures { OnOk result (Adds out.old.items out.new.items words.now) }
{
    out.extend_from_slice(words.as_bytes())?;
    Ok(())
}

/// Puts a number in decimal.
pub fn put_number(out: &mut Vec<u8>, n: u64) -> Result<(), Memory>
    ensures { OnOk result (Adds out.old.items out.new.items (decimal n)) }
{
    let mut digits = Buffer::new();
    out.extend_from_slice(digits.format(n).as_bytes())?;
    Ok(())
}

/// Puts a term that stands by itself.
pub fn put_term(alloc: Global, out: &mut Vec<u8>, term: &Flat, ops: &OpTable) -> Result<(), Memory>
    ensures { OnOk result (Adds out.old.items out.new.items (writeq ops.now 1200 term.now)) }
{
    writeq(alloc, term, ops, WHOLE, out)?;
    Ok(())
}

/// Puts a term that stands by itself, its nodes one after the other.
pub fn put_named(
    alloc: Global,
    out: &mut Vec<u8>,
    term: &NamedTerm,
    ops: &OpTable,
) -> Result<(), Memory>
    ensures { OnOk result (Adds out.old.items out.new.items (writeq ops.now 1200 term.now)) }
{
    let bytes = mem::replace(out, Vec::new(alloc));
    let mut writing = Writing::quoted(alloc, ops, WHOLE, bytes)?;
    for i in 0..term.len() {
        put_node(alloc, term, i, &mut writing)?;
    }
    *out = writing.end()?;
    Ok(())
}

/// Puts what comes with a node of a term, those before which have come.
fn put_node(alloc: Global, term: &NamedTerm, at: usize, writing: &mut Writing) -> Result<(), Memory>
    requires inside { at < length (nodes term.now) }
    requires begun { (w : Begun) × IsWrittenTo term.now w at writing.old }
    ensures { OnOk result ((w : Begun) → IsWrittenTo term.now w at writing.old → IsWrittenTo term.now w (at + 1) writing.new) }
{
    let node = term.node(alloc, at)?;
    writing.put(&node)?;
    Ok(())
}

/// Puts the value of a variable.
pub fn put_value(
    alloc: Global,
    out: &mut Vec<u8>,
    value: &Flat,
    ops: &OpTable,
) -> Result<(), Memory>
    ensures { OnOk result (Adds out.old.items out.new.items (writeq ops.now 699 value.now)) }
{
    writeq(alloc, value, ops, VALUE, out)?;
    Ok(())
}

/// Ends a line.
pub fn end_line(out: &mut Vec<u8>) -> Result<(), Memory>
    ensures { OnOk result (out.new.items ≡ out.old.items ++ newline) }
{
    out.push(b'\n')?;
    Ok(())
}

/// Ends the last line, where it is not ended.
pub fn close(out: &mut Vec<u8>) -> Result<(), Memory>
    ensures { OnOk result (out.new.items ≡ closed out.old.items) }
{
    if is_open(out) {
        return end_line(out);
    }
    Ok(())
}

/// Puts a text whose last line is ended after it, where it is not ended.
pub fn put_closed(out: &mut Vec<u8>, text: &[u8]) -> Result<(), Memory>
    ensures { OnOk result (out.new.items ≡ out.old.items ++ closed text.now) }
{
    out.extend_from_slice(text)?;
    if is_open(text) {
        return end_line(out);
    }
    Ok(())
}

/// Puts a full stop, and a space before it where the text ends in a symbol character.
pub fn put_stop(out: &mut Vec<u8>) -> Result<(), Memory>
    ensures { OnOk result (out.new.items ≡ stopped out.old.items) }
{
    if ends_in_symbol(out) {
        out.extend_from_slice(b" .")?;
        return Ok(());
    }
    out.push(b'.')?;
    Ok(())
}

fn last_byte(bytes: &[u8]) -> Option<u8>
    ensures { result ≡ slice_get bytes.now (length bytes.now - 1) }
{
    bytes.last().copied()
}

/// Whether these bytes end in a line that is not ended.
fn is_open(bytes: &[u8]) -> bool
    ensures { result ≡ is_open bytes.now }
{
    match last_byte(bytes) {
        Some(b) => b != b'\n',
        None => false,
    }
}

/// Whether these bytes end in a symbol character.
fn ends_in_symbol(bytes: &[u8]) -> bool
    ensures { result ≡ ends_in_symbol bytes.now }
{
    match last_byte(bytes) {
        Some(b) => is_symbol_byte(b),
        None => false,
    }
}

const SYMBOLS: [u8; 17] = *b"+-*/\\^<>=~:.?@#&$";

fn is_symbol_byte(b: u8) -> bool
    ensures { result ≡ is_symbol b }
{
    SYMBOLS.iter().any(|d| *d == b)
}
