//! The reader: the clause that stands at a place of a text (ISO/IEC 13211-1:1995, 6.2 and 6.3).
#![tactic(auto)]

mod ahead;
mod lists;
mod marks;
mod named;
mod names;
mod operations;
mod pieces;
mod primary;
mod read;
mod read_error;
mod skipping;
mod stack;

pub use names::NamedVariable;
pub use pl_model::grammar::Quotes;
pub use read::{Read, read_term};
pub use skipping::skip;
