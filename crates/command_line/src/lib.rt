//! The command line: which words are a command, and the reading of them.
#![tactic(auto)]

pub mod command;
pub mod rows;
