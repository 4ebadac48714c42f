//! The words of the command's goals, each of which is read with an end token added and has to be one term up to it.
ghost use Rattle.std.specs.Prelude.{◌≡◌, ◌++◌, ℕ, map, IfOk, OnOk};
ghost use Rattle.pl_model.specs.Grammar.{clause};
ghost use Rattle.run_model.specs.Execution.{further_goals as goals_behind, goal_text as text_of_goal, word_of_item, word_read};
ghost use Rattle.prolog_reader.specs.Names.{pairs};
ghost use Rattle.pl_consult.specs.Steps.{IsFirst, IsGoalOf};
ghost use Rattle.pl_consult.specs.GoalWords.{AreReadSo, goal_of, names_by, names_in, word_of, words_of};

use op_table::OpTable;
use pl_model::grammar::Quotes;
use pl_model::syntax::{SyntaxFault, SyntaxKind};
use pl_term::{Flat, Memory, Text};
use prolog_reader::{NamedVariable, Read, read_term};
use std::alloc::Global;
use std::convert::AsStr;
use std::sync::Arc;
use word_board::GoalWord;

/// The word as it is read under these operators, and with texts in double quotes as `quotes` says. The only error is out of
/// memory.
pub(crate) fn read_word(
    alloc: Global,
    word: &Text,
    operators: &OpTable,
    quotes: Quotes,
) -> Result<GoalWord, Memory>
    ensures { IfOk result (λ w. word_of w ≡ word_read operators.now quotes word.now) }
{
    let text = goal_text(alloc, word)?;
    match read_term(alloc, text.as_slice(), 0, operators, quotes) {
        Read::Clause {
            term,
            names,
            start: _,
            next,
        } => whole_goal(alloc, term, &names, next, text.len()),
        Read::End => Ok(GoalWord::Faulty(SyntaxFault {
            kind: SyntaxKind::UnexpectedEnd,
            at: text.len(),
        })),
        Read::Syntax { kind, at } => Ok(GoalWord::Faulty(SyntaxFault { kind, at })),
        Read::Memory => Err(Memory),
    }
}

/// The text of a word, with an end token added. The only error is out of memory.
fn goal_text(alloc: Global, word: &Text) -> Result<Vec<u8>, Memory>
    ensures { IfOk result (λ v. v.items ≡ text_of_goal word.now) }
{
    let mut text = Vec::new(alloc);
    text.extend_from_slice(word.as_str().as_bytes())?;
    text.extend_from_slice(b" .")?;
    Ok(text)
}

/// The word with a text of so many bytes whose first term is this one, and has its end before the place `next`. The only
/// error is out of memory.
fn whole_goal(
    alloc: Global,
    goal: Flat,
    names: &[NamedVariable],
    next: usize,
    size: usize,
) -> Result<GoalWord, Memory>
    ensures { (place : ℕ) → IfOk result (λ w. word_of w ≡ word_of_item size (clause goal (pairs names.now) place next)) }
{
    if next == size {
        return Ok(GoalWord::Goal {
            goal,
            names: named(alloc, names)?,
        });
    }
    Ok(GoalWord::Faulty(SyntaxFault {
        kind: SyntaxKind::AfterEnd,
        at: next.saturating_sub(1),
    }))
}

/// The named variables with their numbers. The only error is out of memory.
fn named(alloc: Global, names: &[NamedVariable]) -> Result<Vec<(Text, u64)>, Memory>
    ensures { IfOk result (λ v. v.items ≡ pairs names.now) }
{
    let mut all = Vec::new(alloc);
    for variable in names {
        all.push((variable.name.copy(alloc)?, variable.variable))?;
    }
    Ok(all)
}

/// The names of the variables of the goal that the word is.
pub(crate) fn names_in(word: &GoalWord) -> &[(Text, u64)]
    ensures { result.now ≡ names_in word.now }
{
    match word {
        GoalWord::Goal { names, .. } => names.as_slice(),
        GoalWord::Faulty(_) => &[],
    }
}

/// The names of the variables of the first goal of the command.
pub(crate) fn first_names(words: &[GoalWord]) -> &[(Text, u64)]
    ensures { result.now ≡ names_by words.now }
{
    match words.first() {
        None => &[],
        Some(word) => names_in(word),
    }
}

/// The words of the goals as they were read, with the goal of the first one, if it is one, and the further goals, each with
/// its number.
#[derive(Drop)]
pub struct WordsRead {
    pub read: Vec<GoalWord>,
    pub first: Option<Flat>,
    pub goals: Vec<(u64, Flat)>,
}

/// The words as they are read under these operators, and with texts in double quotes as `quotes` says. The only error is out
/// of memory.
pub(crate) fn words_under(
    alloc: Global,
    words: &[Text],
    operators: &OpTable,
    quotes: Quotes,
) -> Result<WordsRead, Memory>
    ensures { IfOk result (AreReadSo operators.now quotes words.now) }
{
    let read = read_words(alloc, words, operators, quotes)?;
    let all = read.as_slice();
    let first = first_goal(alloc, all)?;
    let goals = further_goals(alloc, all)?;
    Ok(WordsRead { read, first, goals })
}

/// All the words as they are read. The only error is out of memory.
pub(crate) fn read_words(
    alloc: Global,
    words: &[Text],
    operators: &OpTable,
    quotes: Quotes,
) -> Result<Vec<GoalWord>, Memory>
    ensures { IfOk result (λ v. words_of v.items ≡ map (word_read operators.now quotes) words.now) }
{
    let mut all = Vec::new(alloc);
    for word in words {
        all.push(read_word(alloc, word, operators, quotes)?)?;
    }
    Ok(all)
}

/// The goal that the first word is, if it is one.
fn first_goal(alloc: Global, words: &[GoalWord]) -> Result<Option<Flat>, Memory>
    ensures { IfOk result (λ o. IsFirst o (words_of words.now)) }
{
    match words.first() {
        None => Ok(None),
        Some(word) => goal_in(alloc, word),
    }
}

/// The goal that a word is, if it is one.
fn goal_in(alloc: Global, word: &GoalWord) -> Result<Option<Flat>, Memory>
    ensures { IfOk result (λ o. IsGoalOf o (word_of word.now)) }
{
    match word {
        GoalWord::Goal { goal, .. } => Ok(Some(goal.copy(alloc)?)),
        GoalWord::Faulty(_) => Ok(None),
    }
}

/// The goals of the words after the first one, each with the number of its word.
fn further_goals(alloc: Global, words: &[GoalWord]) -> Result<Vec<(u64, Flat)>, Memory>
    ensures { IfOk result (λ v. v.items ≡ goals_behind (words_of words.now)) }
{
    let mut goals = Vec::new(alloc);
    for i in 1..words.len() {
        put_goal(alloc, &mut goals, i as u64 + 1, &words[i])?;
    }
    Ok(goals)
}

/// Puts the goal that the word with this number is, if it is one.
fn put_goal(
    alloc: Global,
    goals: &mut Vec<(u64, Flat)>,
    number: u64,
    word: &GoalWord,
) -> Result<(), Memory>
    ensures { OnOk result (goals.new.items ≡ goals.old.items ++ goal_of number (word_of word.now)) }
{
    match word {
        GoalWord::Goal { goal, .. } => {
            goals.push((number, goal.copy(alloc)?))?;
            Ok(())
        }
        GoalWord::Faulty(_) => Ok(()),
    }
}

/// A goal of the command whose engine could not be started, with the ball for it, which is written under the operators of
/// the words.
#[derive(Drop)]
pub struct RefusedGoal {
    pub number: u64,
    pub ball: Flat,
    pub operators: Arc<OpTable>,
}
