//! The report of a whole run.
ghost use Rattle.std.specs.Prelude.{◌≡◌, Bool, IfOk, encode_utf8_all};
ghost use Rattle.pl_term.specs.Tree.{Chars};
ghost use Rattle.run_model.specs.Execution.{Execution};
ghost use Rattle.run_model.specs.Lawful.{Program, Told};
ghost use Rattle.run_model.specs.Report.{Finals, transcript};
ghost use Rattle.pl_consult.specs.GoalWords.{refusals_of, words_of};
ghost use Rattle.run_report.specs.Parts.{IsWhole};
ghost use Rattle.run_report.specs.Reports.{IsReported};

use crate::ends::end_of;
use crate::goals::goal_ends;
use crate::parts::Part;
use crate::sections::{file_section, put_goals};
use crate::threads::put_threads;
use pl_consult::RefusedGoal;
use pl_report::transcript;
use pl_term::{Memory, Text};
use run_model::ends::{End, GoalEnd};
use std::alloc::Global;
use word_board::GoalWord;

/// What is told of a run: how the program ends, the ends of the goals in their order, and the text that is written.
#[derive(Drop)]
pub struct RunReport {
    pub end: End,
    pub ends: Vec<GoalEnd>,
    pub text: Vec<u8>,
}

/// The report of a run. `text` was written of the file, and `faulty` says whether a fault of it was kept; `goals` are the
/// words of the goals, which were read so; `engines` are the first engine and those of further goals, and `threads` the
/// others, each in the order of their numbers. The only error is out of memory.
pub fn report_run(
    alloc: Global,
    text: &[u8],
    faulty: bool,
    goals: &[Text],
    words: &[GoalWord],
    refused: &[RefusedGoal],
    engines: &[Part],
    threads: &[Part],
) -> Result<RunReport, Memory>
    ensures { (name : Chars) (p : Program) (told : Told) (finals : Finals) (x : Execution)
        → goals.now ≡ p.words
        → IsWhole name p told finals x text.now faulty (words_of words.now) (refusals_of refused.now) engines.now threads.now
        → IfOk result (IsReported name p told finals) }
{
    let ends = goal_ends(alloc, words, refused, engines)?;
    let end = end_of(engines, threads, ends.as_slice(), faulty);
    let text = text_of(alloc, text, goals, words, refused, engines, threads)?;
    Ok(RunReport { end, ends, text })
}

/// The text of a run. The only error is out of memory.
fn text_of(
    alloc: Global,
    text: &[u8],
    goals: &[Text],
    words: &[GoalWord],
    refused: &[RefusedGoal],
    engines: &[Part],
    threads: &[Part],
) -> Result<Vec<u8>, Memory>
    ensures { (name : Chars) (p : Program) (told : Told) (finals : Finals) (x : Execution) (faulty : Bool)
        → goals.now ≡ p.words
        → IsWhole name p told finals x text.now faulty (words_of words.now) (refusals_of refused.now) engines.now threads.now
        → IfOk result (λ v. v.items ≡ encode_utf8_all (transcript name p told finals)) }
{
    let Some(main) = engines.first() else {
        return Err(Memory);
    };
    let mut sections = Vec::new(alloc);
    sections.push(file_section(text, &main.operators))?;
    put_goals(
        alloc,
        &mut sections,
        goals,
        words,
        refused,
        engines,
        &main.operators,
    )?;
    put_threads(alloc, &mut sections, threads)?;
    transcript(alloc, sections.as_slice())
}
