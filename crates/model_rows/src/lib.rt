//! Worked rows of the definitions: goals, requests and histories with what is due for them. Nothing stands on them.
#![tactic(auto)]

pub mod histories;
pub mod searches;
pub mod shared;
