//! The lines of the file: faults of its items, each with the place of its item or of the fault.
ghost use Rattle.std.specs.Prelude.{◌≡◌, ◌++◌, OnOk, codes, encode_utf8_all};
ghost use Rattle.pl_term.specs.Tree.{Chars};
ghost use Rattle.run_model.specs.Execution.{too_large, syntax_fault, ball_of_item, directive_failed, directive_halted};
ghost use Rattle.run_model.specs.Report.{with_line, item_line, halted_text, with_consulted};
ghost use Rattle.pl_report.specs.Adds.{Adds};
ghost use Rattle.pl_report.specs.Pieces.{place_text};

use crate::kinds::put_kind;
use crate::lines::{close, end_line, put, put_named, put_number, put_term, put_words};
use named_terms::NamedTerm;
use op_table::OpTable;
use pl_model::syntax::SyntaxKind;
use pl_term::{Flat, Memory, Text};
use std::alloc::Global;

/// Puts the line that the file of this name is too large at the end of a text. The only error is out of memory: then
/// the text may have a part of the line.
pub fn put_too_large(out: &mut Vec<u8>, name: &Text) -> Result<(), Memory>
    ensures { (t : Chars) → out.old.items ≡ encode_utf8_all t
        → OnOk result (out.new.items ≡ encode_utf8_all (with_consulted name.now t too_large)) }
{
    close(out)?;
    put(out, name)?;
    put_words(out, ": too large")?;
    end_line(out)?;
    Ok(())
}

/// Puts the line for a syntax fault at the byte `at` of the file. The only error is out of memory: then the text may
/// have a part of the line.
pub fn put_syntax_fault(
    out: &mut Vec<u8>,
    name: &Text,
    kind: SyntaxKind,
    at: usize,
) -> Result<(), Memory>
    ensures { (t : Chars) → out.old.items ≡ encode_utf8_all t
        → OnOk result (out.new.items ≡ encode_utf8_all (with_consulted name.now t (syntax_fault kind at))) }
{
    close(out)?;
    put_place(out, name, at)?;
    put_words(out, "syntax error: ")?;
    put_kind(out, kind)?;
    end_line(out)?;
    Ok(())
}

/// Puts the line for the ball of the item at the byte `at` for which its clause was refused. It is written under the operators `ops`. The only error is out of memory: then the text may have a
/// part of the line.
pub fn put_refused_item(
    alloc: Global,
    out: &mut Vec<u8>,
    name: &Text,
    at: usize,
    ball: &Flat,
    ops: &OpTable,
) -> Result<(), Memory>
    ensures { (t : Chars) → out.old.items ≡ encode_utf8_all t
        → OnOk result (out.new.items ≡ encode_utf8_all (with_consulted name.now t (ball_of_item ops.now at ball.now))) }
{
    close(out)?;
    put_place(out, name, at)?;
    put_term(alloc, out, ball, ops)?;
    end_line(out)?;
    Ok(())
}

/// Puts the line for the ball with which the directive of the item at the byte `at` ended, under the operators `ops`. The only error
/// is out of memory: then the text may have a part of the line.
pub fn put_uncaught_item(
    alloc: Global,
    out: &mut Vec<u8>,
    name: &Text,
    at: usize,
    ball: &NamedTerm,
    ops: &OpTable,
) -> Result<(), Memory>
    ensures { (t : Chars) → out.old.items ≡ encode_utf8_all t
        → OnOk result (out.new.items ≡ encode_utf8_all (with_consulted name.now t (ball_of_item ops.now at ball.now))) }
{
    close(out)?;
    put_place(out, name, at)?;
    put_named(alloc, out, ball, ops)?;
    end_line(out)?;
    Ok(())
}

/// Puts the line that the directive of the item at the byte `at` failed. The only error is out of memory: then the
/// text may have a part of the line.
pub fn put_failed_directive(out: &mut Vec<u8>, name: &Text, at: usize) -> Result<(), Memory>
    ensures { (t : Chars) → out.old.items ≡ encode_utf8_all t
        → OnOk result (out.new.items ≡ encode_utf8_all (with_consulted name.now t (directive_failed at))) }
{
    close(out)?;
    put_place(out, name, at)?;
    put_words(out, "directive failed")?;
    end_line(out)?;
    Ok(())
}

/// Puts the line that the directive of the item at the byte `at` ended by halt/1 with this status. The only error is
/// Out of memory: then the text may have a part of the line.
pub fn put_halted_directive(
    out: &mut Vec<u8>,
    name: &Text,
    at: usize,
    status: u8,
) -> Result<(), Memory>
    ensures { (t : Chars) → out.old.items ≡ encode_utf8_all t
        → OnOk result (out.new.items ≡ encode_utf8_all (with_consulted name.now t (directive_halted at status))) }
{
    close(out)?;
    put_place(out, name, at)?;
    put_halted(out, status)?;
    end_line(out)?;
    Ok(())
}

/// Puts the line that the directive of the item at the byte `at` waits, and nothing wakes it. The only error is out of
/// memory: then the text may have a part of the line.
pub fn put_waiting_directive(out: &mut Vec<u8>, name: &Text, at: usize) -> Result<(), Memory>
    ensures { (t : Chars) → out.old.items ≡ encode_utf8_all t
        → OnOk result (out.new.items ≡ encode_utf8_all (with_line t (item_line name.now at (codes "waiting")))) }
{
    close(out)?;
    put_place(out, name, at)?;
    put_words(out, "waiting")?;
    end_line(out)?;
    Ok(())
}

/// Puts the line that the item at the byte `at` found no place for an atom. The only error is out of memory: then the
/// text may have a part of the line.
pub fn put_no_atom_space(out: &mut Vec<u8>, name: &Text, at: usize) -> Result<(), Memory>
    ensures { (t : Chars) → out.old.items ≡ encode_utf8_all t
        → OnOk result (out.new.items
        ≡ encode_utf8_all (with_line t (item_line name.now at (codes "resource_error(atom_space)")))) }
{
    close(out)?;
    put_place(out, name, at)?;
    put_words(out, "resource_error(atom_space)")?;
    end_line(out)?;
    Ok(())
}

/// Puts `NAME:AT: `, a place in the file.
fn put_place(out: &mut Vec<u8>, name: &Text, at: usize) -> Result<(), Memory>
    ensures { OnOk result (Adds out.old.items out.new.items (place_text name.now at)) }
{
    put(out, name)?;
    put_words(out, ":")?;
    put_number(out, at as u64)?;
    put_words(out, ": ")?;
    Ok(())
}

/// Puts `halt(N)`.
pub fn put_halted(out: &mut Vec<u8>, status: u8) -> Result<(), Memory>
    ensures { OnOk result (Adds out.old.items out.new.items (halted_text status)) }
{
    put_words(out, "halt(")?;
    put_number(out, status as u64)?;
    put_words(out, ")")?;
    Ok(())
}
