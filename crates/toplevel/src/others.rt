//! What is kept of the engines of further goals and of threads.
ghost use Rattle.std.specs.Prelude.{◌≡◌, ◌≤◌, ◌<◌, ℕ, IfOk, length, true};
ghost use Rattle.pl_term.specs.Tree.{Chars};
ghost use Rattle.pl_model.specs.History.{History as Entries};
ghost use Rattle.run_model.specs.Lawful.{Program};
ghost use Rattle.pl_consult.specs.GoalWords.{words_of};
ghost use Rattle.run_report.specs.Parts.{names_at};
ghost use Rattle.toplevel.specs.Opened.{IsOpened};
ghost use Rattle.toplevel.specs.Others.{IsNamedSo, IsPut};

use crate::beginning::Scripts;
use crate::front::EngineFront;
use crate::opened::OpenedEngine;
use pl_term::{Memory, Text};
use run_report::Part;
use script_api::{Either, Script};
use word_board::GoalWord;

/// Puts the front and the part of an engine with a number above the last one, which is the answer. The only error is out of
/// memory, which is also told of any other engine.
pub(crate) fn put_other(
    opened: OpenedEngine<'_>,
    last: u64,
    words: &[GoalWord],
    goals: u64,
    fronts: &mut Vec<EngineFront>,
    parts: &mut Vec<Part>,
) -> Result<u64, Memory>
    requires { 1 ≤ last }
    ensures above { IfOk result (λ n. last < n) }
    ensures put { (p : Program) (file : Chars) (board : ℕ) (h : Entries) → goals ≡ length p.words → (o : IsOpened p file board h opened.entry)
        → IfOk result (λ n. IsPut p h (words_of words.now) last o.carried n fronts.old.items fronts.new.items parts.old.items parts.new.items) }
{
    let OpenedEngine {
        script,
        text: _,
        front,
        part,
        quotes: _,
    } = opened;
    let number = part.number;
    if number <= last {
        return Err(Memory);
    }
    if !is_named(&script, number, words, goals) {
        return Err(Memory);
    }
    fronts.push(front)?;
    parts.push(part)?;
    Ok(number)
}

/// Whether the script is a goal that an engine with this number was started with: a thread's, or the one of the word with its
/// number.
fn is_named(script: &Scripts<'_>, number: u64, words: &[GoalWord], goals: u64) -> bool
    ensures { result ≡ true → IsNamedSo script.now number (words_of words.now) goals }
{
    match script {
        Either::First(_) => false,
        Either::Second(once) => {
            if number > goals {
                return true;
            }
            same_names(once.variable_names(), names_at(words, number))
        }
    }
}

/// The named variables of the word with this number, from 1 on: none where it is no goal.
fn names_at(words: &[GoalWord], number: u64) -> &[(Text, u64)]
    ensures { result.now ≡ names_at number (words_of words.now) }
{
    if number == 0 {
        return &[];
    }
    match words.get((number - 1) as usize) {
        None => &[],
        Some(word) => match word {
            GoalWord::Goal { names, .. } => names.as_slice(),
            GoalWord::Faulty(_) => &[],
        },
    }
}

/// Whether these are the same names with the same numbers.
fn same_names(names: &[(Text, u64)], others: &[(Text, u64)]) -> bool
    ensures { result ≡ true → names.now ≡ others.now }
{
    if names.len() != others.len() {
        return false;
    }
    for i in 0..names.len() {
        let (name, number) = &names[i];
        let (other, at) = &others[i];
        if number != at || !name.same(other) {
            return false;
        }
    }
    true
}
