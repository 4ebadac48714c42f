//! Answers of the shared state that an engine keeps, to be given them again while the history is no longer.
#![tactic(auto)]

mod answers;
mod asked;
mod laws;
mod watch;

pub use answers::{Answers, Kept, Space};
pub use asked::number_of;
pub use laws::{answers_again, answers_stay};
