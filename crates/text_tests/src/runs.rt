//! Rows of the texts of runs.

use crate::fields::{Fields, bytes_of};
use crate::written::term_of;
use anyhow::{Context, Result, bail};
use named_terms::NamedTerm;
use op_table::OpTable;
use pl_model::ends::{AtomRecord, How, WornHead};
use pl_model::syntax::SyntaxKind;
use pl_model::threads::{Name, On};
use pl_report::{Section, SectionKind, transcript};
use pl_term::Text;
use run_model::ends::GoalHow;
use std::alloc::Global;

/// What a row says of a section.
struct Told {
    kind: SectionKind,
    how: Option<GoalHow>,
    text: Vec<u8>,
}

/// The text of a run with these sections, which stand with `¤` between.
pub fn run(alloc: Global, fields: &mut Fields) -> Result<Vec<u8>> {
    let mut texts = Vec::new(alloc);
    let mut kinds = Vec::new(alloc);
    for part in fields.next_field()?.split('¤') {
        if !part.is_empty() {
            let Told { kind, how, text } = told_by(alloc, part)?;
            texts.push(text)?;
            kinds.push((kind, how))?;
        }
    }
    told_of(alloc, kinds, &texts)
}

/// The text of a run with sections of these kinds and texts.
fn told_of(
    alloc: Global,
    mut kinds: Vec<(SectionKind, Option<GoalHow>)>,
    texts: &[Vec<u8>],
) -> Result<Vec<u8>> {
    let ops = OpTable::iso(alloc)?;
    let mut sections = Vec::new(alloc);
    for text in texts {
        if kinds.is_empty() {
            bail!("a kind");
        }
        let (kind, how) = kinds.remove(0);
        sections.push(Section {
            kind,
            text: text.as_slice(),
            how,
            ops: &ops,
        })?;
    }
    Ok(transcript(alloc, &sections)?)
}

/// A section: its kind, the goal's word or the thread's name, what was written and how it ended, with `¬` between.
fn told_by(alloc: Global, text: &str) -> Result<Told> {
    let (kind, rest) = text.split_once('¬').context("a kind")?;
    let (name, rest) = rest.split_once('¬').context("a name")?;
    let (written, end) = rest.split_once('¬').context("a text")?;
    Ok(Told {
        kind: kind_of(alloc, kind, name, end)?,
        how: how_of(alloc, end)?,
        text: bytes_of(alloc, written)?,
    })
}

/// The kind of a section.
fn kind_of(alloc: Global, kind: &str, name: &str, end: &str) -> Result<SectionKind> {
    let name = Text::from_str(alloc, name)?;
    Ok(match kind {
        "file" => SectionKind::Consult,
        "goal" => SectionKind::Goal {
            word: name,
            enough: end == "enough",
        },
        "thread" => SectionKind::Thread { name },
        _ => bail!("no such section"),
    })
}

/// How a section ended: a word, and a number or a term after it where one belongs there.
fn how_of(alloc: Global, end: &str) -> Result<Option<GoalHow>> {
    let (word, rest) = end.split_once(' ').unwrap_or((end, ""));
    Ok(match word {
        "enough" => Some(GoalHow::Ended(How::Solved)),
        "solved" => Some(GoalHow::Ended(How::Solved)),
        "false" => Some(GoalHow::Ended(How::False)),
        "halted" => Some(GoalHow::Ended(How::Halted(rest.parse::<u8>()?))),
        "threw" => Some(GoalHow::Ended(How::Threw(named_of(alloc, rest)?))),
        "exited" => Some(GoalHow::Ended(How::Exited(named_of(alloc, "i1")?))),
        "no_atom_space" => Some(GoalHow::Ended(How::AtomSpace(AtomRecord::WornBucket(WornHead {
            head: 0,
            word: 0,
            start: 0,
        })))),
        "waits" => Some(GoalHow::Waits(On::Queue(Name::Number(1)))),
        "syntax" => Some(GoalHow::Syntax {
            kind: SyntaxKind::UnexpectedToken,
            at: rest.parse::<u64>()?,
        }),
        "none" => None,
        _ => bail!("no such end"),
    })
}

/// The term of a text, over its texts.
fn named_of(alloc: Global, text: &str) -> Result<NamedTerm> {
    let term = term_of(alloc, text)?;
    Ok(NamedTerm::from_flat(alloc, &term)?)
}
