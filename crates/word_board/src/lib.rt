//! The words of a command's goals as they were read, which are written once and seen by all engines.
#![tactic(auto)]

mod board;
mod word;

pub use board::{Board, Words};
pub use word::GoalWord;
