//! The last lines of sections.
ghost use Rattle.std.specs.Prelude.{◌≡◌, ◌++◌, OnOk, IsTrue, Some, codes};
ghost use Rattle.std.specs.Char.{is_ascii};
ghost use Rattle.std.specs.List.{list_all};
ghost use Rattle.run_model.specs.Report.{newline, halted_text, stopped};
ghost use Rattle.pl_model.specs.TermWriting.{writeq};
ghost use Rattle.pl_report.specs.Adds.{Adds};
ghost use Rattle.pl_report.specs.Pieces.{line_text, how_last, goal_how_last, goal_last, has_line};
ghost use Rattle.pl_report.specs.Sections.{fault_line, thread_how_line, thread_last};

use crate::file::put_halted;
use crate::kinds::put_kind;
use crate::lines::{end_line, put_named, put_number, put_stop, put_words};
use named_terms::NamedTerm;
use op_table::OpTable;
use pl_model::ends::How;
use pl_model::syntax::SyntaxKind;
use pl_term::Memory;
use run_model::ends::GoalHow;
use std::alloc::Global;

/// Puts the last line of a goal, if it has one. `enough` says whether it has given the solutions that were wanted.
pub fn put_goal_last(
    alloc: Global,
    out: &mut Vec<u8>,
    enough: bool,
    how: &Option<GoalHow>,
    ops: &OpTable,
) -> Result<(), Memory>
    ensures { OnOk result (Adds out.old.items out.new.items (line_text (goal_last enough ops.now how.now))) }
{
    if enough {
        return Ok(());
    }
    match how {
        None => Ok(()),
        Some(how) => put_goal_how(alloc, out, how, ops),
    }
}

fn put_goal_how(
    alloc: Global,
    out: &mut Vec<u8>,
    how: &GoalHow,
    ops: &OpTable,
) -> Result<(), Memory>
    ensures { OnOk result (Adds out.old.items out.new.items (line_text (goal_how_last ops.now how.now))) }
{
    match how {
        GoalHow::Ended(how) => put_how(alloc, out, how, ops),
        GoalHow::Waits(_) => put_line(out, "waiting."),
        GoalHow::Syntax { kind, at } => put_word_fault(out, *kind, *at),
    }
}

fn put_how(
    alloc: Global,
    out: &mut Vec<u8>,
    how: &How<NamedTerm>,
    ops: &OpTable,
) -> Result<(), Memory>
    ensures { OnOk result (Adds out.old.items out.new.items (line_text (how_last ops.now how.now))) }
{
    match how {
        How::Solved => Ok(()),
        How::False => put_line(out, "false."),
        How::Threw(ball) => put_ball(alloc, out, ball, ops),
        How::Exited(_) => Ok(()),
        How::Halted(status) => put_halted_line(out, *status),
        How::AtomSpace(_) => put_line(out, "error: resource_error(atom_space)."),
    }
}

/// Puts the last line of a thread, if it has one.
pub fn put_thread_last(out: &mut Vec<u8>, how: &Option<GoalHow>) -> Result<(), Memory>
    ensures { OnOk result (Adds out.old.items out.new.items (line_text (thread_last how.now))) }
{
    match how {
        None => Ok(()),
        Some(GoalHow::Ended(how)) => put_thread_how(out, how),
        Some(GoalHow::Waits(_)) => put_line(out, "waiting."),
        Some(GoalHow::Syntax { .. }) => Ok(()),
    }
}

fn put_thread_how(out: &mut Vec<u8>, how: &How<NamedTerm>) -> Result<(), Memory>
    ensures { OnOk result (Adds out.old.items out.new.items (line_text (thread_how_line how.now))) }
{
    match how {
        How::Halted(status) => put_halted_line(out, *status),
        How::AtomSpace(_) => put_line(out, "error: resource_error(atom_space)."),
        How::Solved => Ok(()),
        How::False => Ok(()),
        How::Threw(_) => Ok(()),
        How::Exited(_) => Ok(()),
    }
}

/// Whether a thread that ended so has a last line.
pub fn has_thread_last(how: &Option<GoalHow>) -> bool
    ensures { result ≡ has_line (thread_last how.now) }
{
    match how {
        None => false,
        Some(GoalHow::Ended(how)) => has_how_last(how),
        Some(GoalHow::Waits(_)) => true,
        Some(GoalHow::Syntax { .. }) => false,
    }
}

fn has_how_last(how: &How<NamedTerm>) -> bool
    ensures { result ≡ has_line (thread_how_line how.now) }
{
    match how {
        How::Halted(_) => true,
        How::AtomSpace(_) => true,
        How::Solved => false,
        How::False => false,
        How::Threw(_) => false,
        How::Exited(_) => false,
    }
}

/// Puts a line of words in ASCII.
fn put_line(out: &mut Vec<u8>, words: &str) -> Result<(), Memory>
    requires { IsTrue (list_all is_ascii words.now) }
    ensures { OnOk result (Adds out.old.items out.new.items (words.now ++ newline)) }
{
    put_words(out, words)?;
    end_line(out)?;
    Ok(())
}

/// Puts the line for a ball that nobody caught.
fn put_ball(alloc: Global, out: &mut Vec<u8>, ball: &NamedTerm, ops: &OpTable) -> Result<(), Memory>
    ensures { OnOk result
        (Adds out.old.items out.new.items (stopped (codes "error: " ++ writeq ops.now 1200 ball.now) ++ newline)) }
{
    put_words(out, "error: ")?;
    put_named(alloc, out, ball, ops)?;
    put_stop(out)?;
    end_line(out)?;
    Ok(())
}

fn put_halted_line(out: &mut Vec<u8>, status: u8) -> Result<(), Memory>
    ensures { OnOk result (Adds out.old.items out.new.items ((halted_text status ++ codes ".") ++ newline)) }
{
    put_halted(out, status)?;
    put_words(out, ".")?;
    end_line(out)?;
    Ok(())
}

/// Puts the line for a syntax fault of a goal's word.
fn put_word_fault(out: &mut Vec<u8>, kind: SyntaxKind, at: u64) -> Result<(), Memory>
    ensures { OnOk result (Adds out.old.items out.new.items (fault_line kind at ++ newline)) }
{
    put_words(out, "syntax error: ")?;
    put_kind(out, kind)?;
    put_words(out, " at ")?;
    put_number(out, at)?;
    put_words(out, ".")?;
    end_line(out)?;
    Ok(())
}
