//! The whole transcript.
ghost use Rattle.std.specs.Prelude.{◌≡◌, ◌++◌, List, OnOk, IfOk, encode_utf8_all};
ghost use Rattle.pl_term.specs.Tree.{Chars};
ghost use Rattle.run_model.specs.Report.{goal_line};
ghost use Rattle.pl_report.specs.Adds.{Adds};
ghost use Rattle.pl_report.specs.Pieces.{goal_bytes, thread_bytes, is_silent, section_bytes};
ghost use Rattle.pl_report.specs.Sections.{thread_head, AreWritten, transcript_text};

use crate::lasts::{has_thread_last, put_goal_last, put_thread_last};
use crate::lines::{end_line, put, put_closed, put_stop, put_words};
use crate::parts::{Section, SectionKind};
use pl_term::{Memory, Text};
use run_model::ends::GoalHow;
use std::alloc::Global;

/// The text of a run from its sections, in UTF-8. The sections stand in the order of the list. The only error is out of
/// memory.
pub fn transcript(alloc: Global, sections: &[Section<'_>]) -> Result<Vec<u8>, Memory>
    ensures { (texts : List Chars) → AreWritten sections.now texts
        → IfOk result (λ v. v.items ≡ encode_utf8_all (transcript_text sections.now texts)) }
{
    let mut out = Vec::new(alloc);
    for section in sections {
        put_section(alloc, &mut out, section)?;
    }
    Ok(out)
}

fn put_section(alloc: Global, out: &mut Vec<u8>, section: &Section<'_>) -> Result<(), Memory>
    ensures { OnOk result (out.new.items ≡ out.old.items ++ section_bytes section.now) }
{
    match &section.kind {
        SectionKind::Consult => put_closed(out, section.text),
        SectionKind::Goal { word, enough } => put_goal(alloc, out, word, *enough, section),
        SectionKind::Thread { name } => put_thread(out, name, section),
    }
}

fn put_goal(
    alloc: Global,
    out: &mut Vec<u8>,
    word: &Text,
    enough: bool,
    section: &Section<'_>,
) -> Result<(), Memory>
    ensures { OnOk result (out.new.items ≡ out.old.items ++ goal_bytes word.now enough section.now) }
{
    put_query(out, word)?;
    put_closed(out, section.text)?;
    put_goal_last(alloc, out, enough, &section.how, section.ops)?;
    Ok(())
}

/// Puts the goal's word as a query.
fn put_query(out: &mut Vec<u8>, word: &Text) -> Result<(), Memory>
    ensures { OnOk result (Adds out.old.items out.new.items (goal_line word.now)) }
{
    put_words(out, "?- ")?;
    put(out, word)?;
    put_stop(out)?;
    end_line(out)?;
    Ok(())
}

fn put_thread(out: &mut Vec<u8>, name: &Text, section: &Section<'_>) -> Result<(), Memory>
    ensures { OnOk result (out.new.items ≡ out.old.items ++ thread_bytes name.now section.now) }
{
    if is_silent(section.text, &section.how) {
        return Ok(());
    }
    put_thread_head(out, name)?;
    put_closed(out, section.text)?;
    put_thread_last(out, &section.how)?;
    Ok(())
}

/// Whether a thread wrote nothing and has no last line.
fn is_silent(text: &[u8], how: &Option<GoalHow>) -> bool
    ensures { result ≡ is_silent text.now how.now }
{
    text.is_empty() && !has_thread_last(how)
}

fn put_thread_head(out: &mut Vec<u8>, name: &Text) -> Result<(), Memory>
    ensures { OnOk result (Adds out.old.items out.new.items (thread_head name.now)) }
{
    put_words(out, "% thread ")?;
    put(out, name)?;
    end_line(out)?;
    Ok(())
}
