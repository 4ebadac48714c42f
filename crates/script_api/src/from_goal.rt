//! Scripts of engines that are started with a goal.
ghost use Rattle.std.specs.Prelude.{◌≡◌};
ghost use Rattle.script_api.specs.Starts.{StartsWith};
ghost use Rattle.script_api.specs.WordNames.{word_told};

use crate::either::Either;
use crate::named_once::NamedOnce;
use crate::script::Script;
use term_store::Stored;
use word_board::Words;

/// Scripts of which there is one for each goal that an engine is started with.
pub trait FromGoal<'w>: Script<Term = Stored> {
    /// The script of this goal, whose variables are numbered from 0. `names` has the words of the command's goals and the
    /// number of its own, from 1 on, where it is one of these; of a thread's goal there is none.
    fn from_goal(goal: Stored, names: Option<(Words<'w>, u64)>) -> Self
        ensures starts { StartsWith Self.execution Self.part Self.plays Self.over Self.kept Self.names goal result }
        ensures word { Self.word result ≡ word_told names.entry };
}

impl<'w> FromGoal<'w> for NamedOnce<'w, Stored> {
    fn from_goal(goal: Stored, names: Option<(Words<'w>, u64)>) -> NamedOnce<'w, Stored> {
        NamedOnce::new(goal, names)
    }
}

impl<'w, A: Script<Term = Stored> + Drop> FromGoal<'w> for Either<A, NamedOnce<'w, Stored>> {
    fn from_goal(
        goal: Stored,
        names: Option<(Words<'w>, u64)>,
    ) -> Either<A, NamedOnce<'w, Stored>> {
        Either::Second(NamedOnce::new(goal, names))
    }
}
