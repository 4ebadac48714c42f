//! What is kept of the first engine.
ghost use Rattle.std.specs.Prelude.{◌≡◌, ℕ, List, IfOk, None, Some};
ghost use Rattle.pl_model.specs.declared.ends.AtomRecord.{AtomRecord};
ghost use Rattle.pl_model.specs.declared.ends.How.TheVariants.{AtomSpace};
ghost use Rattle.pl_model.specs.declared.grammar.Quotes.{Quotes as QuotesOf};
ghost use Rattle.pl_model.specs.History.{History};
ghost use Rattle.run_model.specs.Execution.{Execution};
ghost use Rattle.run_model.specs.Lawful.{Program, beginnings, engine_numbers};
ghost use Rattle.run_model.specs.Report.{place_of_main};
ghost use Rattle.run_model.specs.WholeRuns.{Once};
ghost use Rattle.pl_consult.specs.GoalWords.{words_of as words_told};
ghost use Rattle.run_report.specs.declared.parts.Part.{Part as PartOf};
ghost use Rattle.toplevel.specs.Mains.{FileStands, HasWritten, IsMain, IsUnread, told_at, words_kept};
ghost use Rattle.toplevel.specs.Opened.{IsOpened};

use crate::front::EngineFront;
use crate::opened::OpenedEngine;
use named_terms::NamedTerm;
use pl_consult::FileScript;
use pl_model::ends::How;
use pl_model::grammar::Quotes;
use pl_report::{put_no_atom_space, put_waiting_directive};
use pl_term::{Memory, Text};
use run_report::Part;
use script_api::Either;
use word_board::GoalWord;

/// The script of the first engine, and what is written of its file.
#[derive(Drop)]
pub(crate) struct Main<'w> {
    pub script: FileScript<'w>,
    /// The words of the goals as the state stands at the end, where an atom found no place after the last item and before they
    /// were read.
    pub under: Option<Vec<GoalWord>>,
    pub text: Vec<u8>,
}

/// The words of the goals as they stand at the end.
pub(crate) fn words_of<'m, 'w>(main: &'m Main<'w>) -> &'m [GoalWord]
    ensures { words_told result.now ≡ words_told (words_kept main.now) }
{
    match &main.under {
        None => main.script.read(),
        Some(words) => words.as_slice(),
    }
}

/// What is kept of the first engine, whose file has this name. The only error is out of memory, which is also told of any other
/// engine.
pub(crate) fn main_of<'w>(
    name: &Text,
    opened: OpenedEngine<'w>,
) -> Result<(Main<'w>, EngineFront, Part), Memory>
    ensures { (p : Program) (board : ℕ) (h : History) → Once (engine_numbers (beginnings h)) → (o : IsOpened p name.now board h opened.entry)
        → IfOk result (λ r. IsMain p name.now h o.carried r.0 r.1 r.2) }
{
    let OpenedEngine {
        script,
        text,
        front,
        part,
        quotes,
    } = opened;
    match script {
        Either::First(script) => {
            if script.is_lost() || part.number != 1 {
                return Err(Memory);
            }
            let main = main_at(name, script, text, &part, quotes)?;
            Ok((main, front, part))
        }
        Either::Second(_) => Err(Memory),
    }
}

/// The first engine stands at its end: it has ended, or found no place for an atom, or waits. The only error is out of memory.
fn main_at<'w>(
    name: &Text,
    script: FileScript<'w>,
    text: Vec<u8>,
    part: &Part,
    quotes: Quotes,
) -> Result<Main<'w>, Memory>
    ensures { (p : Program) (h : History) (x : Execution) → FileStands p name.now h script.entry text.items part.now quotes x
        → IfOk result (HasWritten p name.now h x script.entry part.now) }
{
    let hand = script.place_at_hand(&part.operators, quotes)?;
    match &part.end {
        None => waiting(name, script, text, hand),
        Some(how) => ended(name, script, text, part, quotes, hand, how),
    }
}

/// It has ended so, or found no place for an atom. The only error is out of memory, which is also told where it has ended by
/// itself and an item is at hand.
fn ended<'w>(
    name: &Text,
    script: FileScript<'w>,
    text: Vec<u8>,
    part: &Part,
    quotes: Quotes,
    hand: Option<usize>,
    how: &How<NamedTerm>,
) -> Result<Main<'w>, Memory>
    ensures { (p : Program) (h : History) (x : Execution) → FileStands p name.now h script.entry text.items part.now quotes x
        → part.now.end ≡ Some how.now → place_of_main p (told_at h) x ≡ hand
        → IfOk result (HasWritten p name.now h x script.entry part.now) }
{
    match how {
        How::AtomSpace(_) => without_place(name, script, text, part, quotes, hand),
        _ => as_written(script, text, hand),
    }
}

/// It waits: a line says so where a directive does. The only error is out of memory, which is also told where another item is at
/// hand.
fn waiting<'w>(
    name: &Text,
    script: FileScript<'w>,
    text: Vec<u8>,
    hand: Option<usize>,
) -> Result<Main<'w>, Memory>
    ensures { (p : Program) (h : History) (x : Execution) (k : PartOf) (quotes : QuotesOf)
        → FileStands p name.now h script.entry text.items k quotes x → k.end ≡ None → place_of_main p (told_at h) x ≡ hand
        → IfOk result (HasWritten p name.now h x script.entry k) }
{
    match script.directive_at() {
        Some(place) => {
            let mut text = text;
            put_waiting_directive(&mut text, name, place)?;
            Ok(Main {
                script,
                under: None,
                text,
            })
        }
        None => as_written(script, text, hand),
    }
}

/// No item is at hand, and nothing more is written of the file. The only error is out of memory, which is also told where one
/// is.
fn as_written<'w>(
    script: FileScript<'w>,
    text: Vec<u8>,
    hand: Option<usize>,
) -> Result<Main<'w>, Memory>
    ensures { IfOk result (λ m. (hand ≡ None) × (m.script ≡ script.entry) × (m.under ≡ None) × (m.text.items ≡ text.items)) }
{
    none_at_hand(hand)?;
    Ok(Main {
        script,
        under: None,
        text,
    })
}

/// No item is at hand. Where one is, out of memory is told.
fn none_at_hand(hand: Option<usize>) -> Result<(), Memory>
    ensures { IfOk result (λ _. hand ≡ None) }
{
    match hand {
        None => Ok(()),
        Some(_) => Err(Memory),
    }
}

/// It found no place for an atom: a line says so of the item at hand, if there is one. Where there is none and the words of the
/// goals were not read, they are read as the state stands. The only error is out of memory.
fn without_place<'w>(
    name: &Text,
    script: FileScript<'w>,
    text: Vec<u8>,
    part: &Part,
    quotes: Quotes,
    hand: Option<usize>,
) -> Result<Main<'w>, Memory>
    ensures { (p : Program) (h : History) (x : Execution) (found : AtomRecord)
        → FileStands p name.now h script.entry text.items part.now quotes x → part.now.end ≡ Some (AtomSpace found)
        → place_of_main p (told_at h) x ≡ hand
        → IfOk result (HasWritten p name.now h x script.entry part.now) }
{
    let mut text = text;
    match hand {
        Some(place) => {
            put_no_atom_space(&mut text, name, place)?;
            Ok(Main {
                script,
                under: None,
                text,
            })
        }
        None => {
            let under = words_unread(&script, part, quotes)?;
            Ok(Main {
                script,
                under,
                text,
            })
        }
    }
}

/// The words of the goals as the state stands, where they were not read. The only error is out of memory.
fn words_unread(
    script: &FileScript<'_>,
    part: &Part,
    quotes: Quotes,
) -> Result<Option<Vec<GoalWord>>, Memory>
    ensures { IfOk result (IsUnread script.now part.now quotes) }
{
    if !script.read().is_empty() {
        return Ok(None);
    }
    if !part.output.as_slice().is_empty() {
        return Err(Memory);
    }
    let words = script.words_under(&part.operators, quotes)?;
    Ok(Some(words))
}
