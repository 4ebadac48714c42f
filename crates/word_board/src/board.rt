//! What is written once, and then seen by all engines.
ghost use Rattle.std.specs.Prelude.{◌≡◌, IfSome};

use crate::word::GoalWord;
use std::marker::Model;
use std::sync::{OnceLock, OnceToken};

/// Where the words are written that the goals of a command were read as: once, and then any engine sees them. Contracts see
/// which one it is.
#[derive(Drop)]
pub struct Board {
    cell: OnceLock<Vec<GoalWord>>,
}

impl Model for Board {
    ghost use Rattle.std.specs.Prelude.{ℕ};

    ghost Value = { ℕ };

    ghost view = { λ b. b.cell.id };
}

/// The words that stand on a board. Contracts see which board it is, and the words.
#[derive(Drop)]
pub struct Words<'a> {
    cell: &'a OnceLock<Vec<GoalWord>>,
    token: OnceToken<'a, Vec<GoalWord>>,
}

impl<'a> Model for Words<'a> {
    ghost use Rattle.std.specs.Prelude.{◌≡◌};
    ghost use Rattle.std.specs.Coded.{codes};
    ghost use Rattle.pl_term.specs.Nodes.{coded_tree};
    ghost use Rattle.word_board.specs.Seen.{SeenWords};

    ghost Value = { SeenWords };

    ghost coded = { Prim.hlevel (codes, coded_tree) };

    ghost view = { λ w. record { board = w.token.of; words = w.token.value.items } };

    ghost invariant = { λ w. w.token.of ≡ w.cell.now.id };
}

impl Board {
    /// A board with nothing on it.
    pub const fn new() -> Board {
        Board {
            cell: OnceLock::new(),
        }
    }

    /// Writes the words, and none if there are words already, or another is writing.
    pub fn put(&self, words: Vec<GoalWord>) -> Option<Words<'_>>
        ensures { IfSome result (λ w. (w.board ≡ self.now) × (w.words ≡ words.items)) }
    {
        match self.cell.try_set(words) {
            Ok(token) => Some(Words {
                cell: &self.cell,
                token,
            }),
            Err(_) => None,
        }
    }

    /// The words, if they are there.
    pub fn words(&self) -> Option<Words<'_>>
        ensures { IfSome result (λ w. w.board ≡ self.now) }
    {
        match self.cell.witness() {
            Some(token) => Some(Words {
                cell: &self.cell,
                token,
            }),
            None => None,
        }
    }
}

impl<'a> Words<'a> {
    /// The same once more.
    pub fn again(&self) -> Words<'a>
        ensures { result ≡ self.now }
    {
        Words {
            cell: self.cell,
            token: self.token.again(),
        }
    }

    /// The words.
    pub fn as_slice(&self) -> &[GoalWord]
        ensures { result.now ≡ self.now.words }
    {
        self.cell.value(&self.token).as_slice()
    }

    /// All that were seen on one board are the same.
    pub fn agrees(&self, other: &Words<'a>)
        requires { self.now.board ≡ other.now.board }
        ensures { self.now.words ≡ other.now.words }
    {
        self.token.agrees(&other.token);
    }
}
