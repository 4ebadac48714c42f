//! What a command does, from its words, its file and its goals to the text that it writes: executions, when a history is
//! the whole of a run, the transcript, and how the goals and the program end.
#![tactic(auto)]

pub mod ends;
pub mod executions;
pub mod histories;
