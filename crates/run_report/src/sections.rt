//! The sections of the file and of the goals.
ghost use Rattle.std.specs.Prelude.{◌≡◌, ◌++◌, ℕ, IfOk, OnOk, List, [], Some, encode_utf8_all, slice_get, suc};
ghost use Rattle.std.specs.Arc.{arc_value};
ghost use Rattle.pl_term.specs.Tree.{Chars, Tree};
ghost use Rattle.run_model.specs.Execution.{Execution, Word as WordOf, goal_word};
ghost use Rattle.run_model.specs.Lawful.{Program, Told};
ghost use Rattle.run_model.specs.Report.{Finals, closed, fault_text, goal_line, goal_sections, goal_text, output_of, refused_text, with_goal_line, with_output, word_section};
ghost use Rattle.pl_consult.specs.GoalWords.{refusal_of, refusals_of, word_of, words_of};
ghost use Rattle.run_report.specs.Parts.{HasWaited, IsKept};
ghost use Rattle.run_report.specs.Sections.{AreSections, IsPart, IsSection, PutSo};

use crate::goals::refused_how;
use crate::hows::{goal_ended, is_enough};
use crate::lookups::{part_in, refused_in};
use crate::parts::Part;
use op_table::OpTable;
use pl_consult::RefusedGoal;
use pl_model::syntax::SyntaxFault;
use pl_report::{Section, SectionKind};
use pl_term::{Memory, Text};
use run_model::ends::GoalHow;
use std::alloc::Global;
use word_board::GoalWord;

/// The section of the file, of which this was written.
pub(crate) fn file_section<'a>(text: &'a [u8], ops: &'a OpTable) -> Section<'a>
    ensures { (t : Chars) → text.now ≡ encode_utf8_all t → IsSection result (closed t) }
{
    Section {
        kind: SectionKind::Consult,
        text,
        how: None,
        ops,
    }
}

/// Puts the sections of the goals, whose words were read so. The only error is out of memory.
pub(crate) fn put_goals<'a>(
    alloc: Global,
    sections: &mut Vec<Section<'a>>,
    goals: &[Text],
    words: &[GoalWord],
    refused: &'a [RefusedGoal],
    engines: &'a [Part],
    ops: &'a OpTable,
) -> Result<(), Memory>
    ensures { (p : Program) (told : Told) (finals : Finals) (t : Chars)
        → IsKept p told finals (words_of words.now) engines.now
        → AreSections sections.old.items t
        → OnOk result (AreSections sections.new.items (t ++ goal_sections p told finals (refusals_of refused.now) 1 goals.now (words_of words.now))) }
{
    for i in 0..words.len() {
        if i >= goals.len() {
            return Ok(());
        }
        let section = word_section(
            alloc,
            i as u64 + 1,
            &goals[i],
            &words[i],
            refused,
            engines,
            ops,
        )?;
        put_section(sections, section)?;
    }
    Ok(())
}

/// Puts a section, if there is one. The only error is out of memory.
fn put_section<'a>(
    sections: &mut Vec<Section<'a>>,
    section: Option<Section<'a>>,
) -> Result<(), Memory>
    ensures { OnOk result (PutSo sections.old.items sections.new.items section.entry) }
{
    match section {
        None => Ok(()),
        Some(section) => {
            sections.push(section)?;
            Ok(())
        }
    }
}

/// The section of the goal with this number, whose word was read so: none, where no engine came to it. The only error is out
/// of memory.
fn word_section<'a>(
    alloc: Global,
    number: u64,
    goal: &Text,
    word: &GoalWord,
    refused: &'a [RefusedGoal],
    engines: &'a [Part],
    ops: &'a OpTable,
) -> Result<Option<Section<'a>>, Memory>
    ensures { (p : Program) (told : Told) (finals : Finals) (ws : List WordOf) (i : ℕ)
        → IsKept p told finals ws engines.now
        → number ≡ suc i
        → slice_get ws i ≡ Some (word_of word.now)
        → IfOk result (λ s. IsPart s (with_goal_line goal.now (word_section p told finals (refusals_of refused.now) number (word_of word.now)))) }
{
    match word {
        GoalWord::Goal { .. } => engine_section(alloc, number, goal, refused, engines),
        GoalWord::Faulty(fault) => {
            let section = fault_section(alloc, goal, fault, ops)?;
            Ok(Some(section))
        }
    }
}

/// The section of a goal that is a term: its engine could not be started, or ended so, or waits, or never began. The only error is
/// out of memory.
fn engine_section<'a>(
    alloc: Global,
    number: u64,
    goal: &Text,
    refused: &'a [RefusedGoal],
    engines: &'a [Part],
) -> Result<Option<Section<'a>>, Memory>
    ensures { (p : Program) (told : Told) (finals : Finals) (ws : List WordOf) (t : Tree) (names : List (Chars × ℕ)) (i : ℕ)
        → IsKept p told finals ws engines.now
        → number ≡ suc i
        → slice_get ws i ≡ Some (goal_word t names)
        → IfOk result (λ s. IsPart s (with_goal_line goal.now (word_section p told finals (refusals_of refused.now) number (goal_word t names)))) }
{
    if let Some(goal_refused) = refused_in(refused, number) {
        let section = refused_section(alloc, goal, goal_refused)?;
        return Ok(Some(section));
    }
    match part_in(engines, number) {
        None => Ok(None),
        Some(part) => {
            let section = goal_section(alloc, goal, part)?;
            Ok(Some(section))
        }
    }
}

/// The section of a goal whose engine has ended or waits. The only error is out of memory.
fn goal_section<'a>(alloc: Global, goal: &Text, part: &'a Part) -> Result<Section<'a>, Memory>
    ensures { (names : List (Chars × ℕ)) (x : Execution)
        → HasWaited part.now.end part.now.awaits
        → part.now.output.items ≡ encode_utf8_all (with_output names [] (output_of x))
        → IfOk result (λ s. IsSection s (goal_line goal.now ++ goal_text (arc_value part.now.operators) names x part.now.end)) }
{
    let word = goal.copy(alloc)?;
    let how = goal_ended(alloc, &part.end, &part.awaits)?;
    let enough = is_enough(&how);
    Ok(Section {
        kind: SectionKind::Goal { word, enough },
        text: part.output.as_slice(),
        how,
        ops: &part.operators,
    })
}

/// The section of a goal whose engine could not be started. The only error is out of memory.
fn refused_section<'a>(
    alloc: Global,
    goal: &Text,
    refused: &'a RefusedGoal,
) -> Result<Section<'a>, Memory>
    ensures { IfOk result (λ s. IsSection s (goal_line goal.now ++ refused_text (refusal_of refused.now))) }
{
    let word = goal.copy(alloc)?;
    let how = refused_how(alloc, refused)?;
    Ok(Section {
        kind: SectionKind::Goal {
            word,
            enough: false,
        },
        text: &[],
        how,
        ops: &refused.operators,
    })
}

/// The section of a goal whose word is no term. The only error is out of memory.
fn fault_section<'a>(
    alloc: Global,
    goal: &Text,
    fault: &SyntaxFault,
    ops: &'a OpTable,
) -> Result<Section<'a>, Memory>
    ensures { IfOk result (λ s. IsSection s (goal_line goal.now ++ fault_text fault.now.kind fault.now.at)) }
{
    let word = goal.copy(alloc)?;
    Ok(Section {
        kind: SectionKind::Goal {
            word,
            enough: false,
        },
        text: &[],
        how: Some(GoalHow::Syntax {
            kind: fault.kind,
            at: fault.at as u64,
        }),
        ops,
    })
}
