//! The report of a whole run, made of what is kept of each of its engines: the text that is written, the ends of the goals,
//! and the end of the program.
#![tactic(auto)]

mod ends;
mod goals;
mod hows;
mod lookups;
mod names;
mod parts;
mod report;
mod sections;
mod threads;

pub use parts::Part;
pub use report::{RunReport, report_run};
