//! The source of the command `load`, by a seed and a size.
#![tactic(auto)]

pub mod rows;
pub mod source;
