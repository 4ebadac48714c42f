//! Scripts of the engines that begin.
ghost use Rattle.std.specs.Prelude.{◌≡◌, IfSome};
ghost use Rattle.script_api.specs.Starts.{StartsWith};
ghost use Rattle.pl_sched.specs.Written.{word_on};

use script_api::{Either, FromGoal, NamedOnce, Script};
use std::marker::Model;
use term_store::Stored;
use word_board::Board;

/// What makes the scripts of engines that begin.
pub trait Starts<S: Script<Term = Stored>> {
    ghost use Rattle.std.specs.Prelude.{ℕ};

    // The board on which the words of the command's goals are written.
    ghost board: { Self → ℕ };

    /// The script of this goal, whose variables are numbered from 0: of the command's goal with the number, or of a thread's.
    /// None is there where the words of the command's goals are not written yet.
    fn start(&self, goal: Stored, number: Option<u64>) -> Option<S>
        ensures starts { IfSome result (λ s. StartsWith S.execution S.part S.plays S.over S.kept S.names goal s) }
        ensures word { IfSome result (λ s. S.word s ≡ word_on (board self.now) number) };
}

/// The goals of a command, whose words are written on a board: what makes the scripts of engines one of whose two scripts runs
/// such a goal. Contracts see which board it is.
#[derive(Drop)]
pub struct Goals<'w> {
    board: &'w Board,
}

impl<'w> Model for Goals<'w> {
    ghost use Rattle.std.specs.Prelude.{ℕ};

    ghost Value = { ℕ };

    ghost view = { λ g. g.board.now };
}

impl<'w> Goals<'w> {
    /// The goals whose words are written there.
    pub fn new(board: &'w Board) -> Goals<'w>
        ensures { result ≡ board.now }
    {
        Goals { board }
    }
}

impl<'w, A: Script<Term = Stored> + Drop> Starts<Either<A, NamedOnce<'w, Stored>>> for Goals<'w> {
    ghost board = { λ n. n };

    fn start(&self, goal: Stored, number: Option<u64>) -> Option<Either<A, NamedOnce<'w, Stored>>> {
        let Some(number) = number else {
            return Some(Either::from_goal(goal, None));
        };
        match self.board.words() {
            Some(words) => Some(Either::from_goal(goal, Some((words, number)))),
            None => None,
        }
    }
}
