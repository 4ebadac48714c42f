//! What an engine may do with the state that all engines share: one visit is one event of the shared state.
#![tactic(auto)]

mod answer;
mod asking;
mod interning;
mod named;
mod readings;
mod reply;
pub mod search_steps;
mod texts;
mod unserved;
mod visit;
mod world;

pub use answer::{Answer, On};
pub use asking::{After, Asked};
pub use atom_api::{Cause, Pass, WornWord};
pub use interning::{NoTerm, interned};
pub use named::Named;
pub use readings::reads_as;
pub use reply::{FlagValue, Found, Name, Operator, Reply};
pub use texts::with_texts;
pub use unserved::Unserved;
pub use visit::{Procedure, Visit};
pub use world::World;
