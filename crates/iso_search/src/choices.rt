//! Choice points.
ghost use Rattle.std.specs.Prelude.{◌≡◌, ◌∷◌, [], ◌++◌, OnErr, OnOk};
ghost use Rattle.iso_search.specs.Collecting.{cells_held};

use crate::copies::Collection;
use crate::told::Line;
use pl_term::Memory;
use term_store::{Place, StoreMark};

/// What clauses are tried for.
#[derive(Clone, Copy, Debug, PartialEq, Eq, Drop)]
pub enum Purpose {
    /// A goal is resolved with them (ISO 7.7.10).
    Resolving,
    /// clause/2 looks at them (ISO 8.8.1).
    Inspecting,
    /// retract/1 erases those that unify (ISO 8.9.3).
    Retracting,
}

/// What was not tried.
#[derive(Drop)]
pub enum Alternative {
    /// The clauses for the goal, or for the rule of clause/2 or retract/1, that were not tried: those of a generation after the
    /// place of the last one.
    Clauses {
        purpose: Purpose,
        goal: Place,
        generation: u64,
        place: u64,
    },
    /// The lines of the table of the built-in predicate that the goal calls, from a line on: those that unify with its
    /// arguments, of which there is one at least.
    Answers {
        goal: Place,
        line: usize,
    },
    /// The lines of a table that the shared state told for the goal, from one on: those that unify with its arguments, of which
    /// there is one at least.
    Told {
        goal: Place,
        lines: Vec<Line>,
        line: usize,
    },
    /// A branch of `;`, of `->` or of `\+`.
    Branch,
    /// None: a condition without an else branch, or the goal of `once/1`, is running.
    Barrier,
    /// None: the goal of a `catch/3` with this catcher and this recovery goal is running.
    Catch {
        catcher: Place,
        recovery: Place,
    },
    /// None: the goal of a `findall/3` with this third argument is running, and these copies were collected.
    Findall {
        list: Place,
        found: Collection,
    },
}

/// A choice point: what was not tried, what is to be done after it, and what there was when it was made.
#[derive(Drop)]
pub struct ChoicePoint {
    pub alternative: Alternative,
    pub next: usize,
    pub frames: usize,
    pub mark: StoreMark,
}

/// The cells of the copies that a choice point holds.
#[inline(always)]
pub fn held_cells(alternative: &Alternative) -> u64
    ensures { result ≡ cells_held alternative.now }
{
    match alternative {
        Alternative::Findall { found, .. } => found.cells,
        _ => 0,
    }
}

/// Puts a choice point behind the others. The only error is out of memory.
#[inline(always)]
pub fn put_choice(choices: &mut Vec<ChoicePoint>, choice: ChoicePoint) -> Result<(), Memory>
    ensures longer { OnOk result (choices.new.items ≡ choices.old.items ++ choice ∷ []) }
    ensures kept { OnErr result (choices.new.items ≡ choices.old.items) }
{
    if choices.len() < choices.capacity() {
        choices.push_reserved(choice);
        Ok(())
    } else {
        make_room(choices, choice)
    }
}

/// Does the same, where more room is to be made for it.
#[cold]
#[inline(never)]
fn make_room(choices: &mut Vec<ChoicePoint>, choice: ChoicePoint) -> Result<(), Memory>
    ensures longer { OnOk result (choices.new.items ≡ choices.old.items ++ choice ∷ []) }
    ensures kept { OnErr result (choices.new.items ≡ choices.old.items) }
{
    choices.push(choice)?;
    Ok(())
}
