//! Consulting: the items of a file, taken up one after the other (ISO/IEC 13211-1:1995, 7.4.2), and the script of the first
//! engine, which runs them, then the goals of initialization/1, then starts the further goals of the command, and then runs the
//! first one.
#![tactic(auto)]

mod adds;
mod bodies;
mod consult;
mod counts;
mod ends;
mod file_script;
mod gives;
mod goal_words;
mod hands;
mod items;
mod looks;
mod reports;
mod stage;
mod starts;
mod stops;
mod subterms;
mod taking;
mod words;

pub use bodies::{Checked, checked_clause};
pub use consult::{Consult, Place, Taken};
pub use file_script::FileScript;
pub use goal_words::RefusedGoal;
pub use stage::{Stage, Step};
