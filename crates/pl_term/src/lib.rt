//! Texts, trees and flat terms.
#![tactic(auto)]

mod cells;
mod flat;
mod memory;
mod node;
mod numbering;
mod order;
mod rename;
mod text;
mod variant;

pub use flat::Flat;
pub use memory::Memory;
pub use node::Node;
pub use text::Text;
