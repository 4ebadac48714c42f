//! The run of one engine, a turn after the other: a slice of its search, or the next item of its script.
#![tactic(auto)]

mod answer;
mod ask;
mod close;
mod complete;
mod ending;
mod resident;
mod runner;
mod search;
mod shown;
mod slices;
mod unfinished;

pub use complete::completes;
pub use ending::{ends_over, how_at};
pub use runner::{Lines, Runner, Stage, Turn};
pub use unfinished::Unfinished;
