//! Checking a source file without running a goal of it: its syntax faults, and the numbers of its clauses and directives.
#![tactic(auto)]

mod change;
mod checker;
mod goal;
mod listing;
mod names;
mod operators;
mod spelled;

pub use listing::{Listing, check_source};
