//! The Prolog system: from words and files to a transcript.
#![tactic(auto)]

mod beginning;
mod engines;
mod front;
mod kept;
mod lines;
mod listed;
mod load;
mod main_engine;
mod opened;
mod others;
mod pairs;
mod ready;
pub mod run;

pub use front::{EngineFront, Front};
