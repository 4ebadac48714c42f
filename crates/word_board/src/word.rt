//! A goal word as it was read.
use pl_model::syntax::SyntaxFault;
use pl_term::{Flat, Text};

/// A goal word as it was read.
#[derive(Debug, Drop)]
pub enum GoalWord {
    /// A goal, its variables numbered from 0 in order of first occurrence, and its named variables with their numbers.
    Goal { goal: Flat, names: Vec<(Text, u64)> },
    /// The first fault.
    Faulty(SyntaxFault),
}
