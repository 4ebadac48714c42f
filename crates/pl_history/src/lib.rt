//! The one history of all threads: a word that is its length, and fronts that know what of it they have seen.
#![tactic(auto)]

mod board;
mod fronts;
mod history;
mod laws;
mod steps;
#[cfg(test)]
mod tests;
#[cfg(test)]
mod threads;

pub use fronts::{Front, HubFront};
pub use history::{History, WORN, Worn};
pub use laws::every_history;
