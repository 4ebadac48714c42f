//! The script of an engine that was started with a goal of the command.
ghost use Rattle.std.specs.Prelude.{◌≡◌};
ghost use Rattle.script_api.specs.declared.once.Stage.TheVariants.{Fresh};
ghost use Rattle.script_api.specs.WordNames.{names_at};

use crate::living::Living;
use crate::once::Once;
use crate::script::{Next, Script};
use named_terms::NamedTerm;
use pl_model::ends::How;
use pl_term::{Memory, Text};
use term_store::{AtomSet, Stored};
use word_board::{GoalWord, Words};
use world_api::{Named, World};

/// The script of an engine that was started with a goal: the goal, once. Where it is one of the command's, the names of its
/// variables are those of the word with its number.
#[derive(Drop)]
pub struct NamedOnce<'w, T> {
    once: Once<T>,
    names: Option<(Words<'w>, u64)>,
}

impl<'w, T: Named + Drop> NamedOnce<'w, T> {
    /// The script of an engine that was started with this goal, whose variables are numbered from 0. `names` has the words of
    /// the command's goals and the number of its own, from 1 on, where it is one of these.
    pub fn new(goal: T, names: Option<(Words<'w>, u64)>) -> NamedOnce<'w, T>
        ensures fresh { result.once.stage ≡ Fresh goal }
        ensures names { result.names ≡ names.entry }
    {
        NamedOnce {
            once: Once::new(goal),
            names,
        }
    }

    /// The words of the command's goals and the number of its own, where its goal is one of these.
    pub fn into_names(self) -> Option<(Words<'w>, u64)>
        ensures { result ≡ self.entry.names }
    {
        let NamedOnce { once: _, names } = self;
        names
    }
}

/// The named variables of the goal that the word with this number is, from 1 on, with their numbers.
fn names_in(words: &[GoalWord], number: u64) -> &[(Text, u64)]
    ensures { result.now ≡ names_at words.now number }
{
    match words.get(number.saturating_sub(1) as usize) {
        Some(GoalWord::Goal { goal: _, names }) => names.as_slice(),
        Some(GoalWord::Faulty(_)) => &[],
        None => &[],
    }
}

impl<'w, T: Named + Drop> Script for NamedOnce<'w, T> {
    ghost use Rattle.std.specs.Prelude.{[], false};
    ghost use Rattle.pl_model.specs.Requests.{look};
    ghost use Rattle.script_api.specs.Onces.{execution_of, part_of, plays_of, names_of, over_of, same_under, same_lines, all_reported, all_running};
    ghost use Rattle.script_api.specs.WordNames.{names_told, word_told};

    type Term = T;

    ghost execution = { λ text s job cs. execution_of T.term text s.once.stage job cs };

    ghost part = { λ s. part_of s.once.stage };

    ghost plays = { λ text s x. plays_of T.term text s.once.stage x };

    ghost over = { λ s. over_of s.once.stage };

    ghost kept = { λ _. false };

    ghost name = { λ _. [] };

    ghost names = { λ s. names_of T.names s.once.stage };

    ghost texts = { λ _ _. ⊥ };

    ghost asks = { λ _ q. q ≡ look };

    ghost variables = { λ s. names_told s.names };

    ghost word = { λ s. word_told s.names };

    ghost names_tell = { λ s text other same. same_under T.term T.names T.names_tell s.once.stage text other same };

    ghost lines = { λ text s job cs. same_lines T.term text s.once.stage job cs };

    ghost running = { λ text s job cs. all_running T.term text s.once.stage job cs };

    ghost reported = { λ text s job cs. all_reported T.term text s.once.stage job cs };

    fn variable_names(&self) -> &[(Text, u64)] {
        match &self.names {
            None => &[],
            Some((words, number)) => names_in(words.as_slice(), *number),
        }
    }

    fn next<W: World<Term = T>>(
        &mut self,
        ended: Option<&How<NamedTerm>>,
        world: &mut W,
        atoms: &mut W::A,
        text: &mut Vec<u8>,
        moves: &mut u64,
    ) -> Next<T> {
        self.once.next(ended, world, atoms, text, moves)
    }
}

impl<'w> Living for NamedOnce<'w, Stored> {
    fn live_in(&self, live: &mut AtomSet) -> Result<(), Memory> {
        self.once.live_in(live)
    }
}
