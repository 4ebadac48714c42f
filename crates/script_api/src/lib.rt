//! What an engine runs one item after the other, and what stands for an engine between two slices.
#![tactic(auto)]

mod either;
mod from_goal;
mod living;
mod named_once;
mod once;
mod resident;
mod script;
pub mod ways;

pub use either::Either;
pub use from_goal::FromGoal;
pub use living::Living;
pub use named_once::NamedOnce;
pub use once::Once;
pub use resident::{Resident, Roots};
pub use script::{Next, Script};
