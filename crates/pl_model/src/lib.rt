//! The definitions that a reader must believe, and the laws that stand above them.
#![tactic(auto)]

pub mod control;
pub mod ends;
pub mod evaluables;
pub mod first_argument;
pub mod grammar;
pub mod kept;
pub mod lexical;
pub mod operators;
pub mod shared;
pub mod shows;
pub mod skipping;
mod subterms;
pub mod syntax;
pub mod system;
pub mod term_writing;
pub mod threads;
pub mod unification;
pub mod unifying;
