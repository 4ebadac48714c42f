//! Terms over texts that are kept after the store in which they stood is gone, each text once.
#![tactic(auto)]

mod named;
mod node;

pub use named::NamedTerm;
pub use node::NumberedNode;
