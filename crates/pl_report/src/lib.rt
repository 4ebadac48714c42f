//! What a run writes: the lines of the file and of goals while the run goes on, and the whole transcript from its sections.
#![tactic(auto)]

mod file;
mod kinds;
mod lasts;
pub mod laws;
mod lines;
mod parts;
mod sections;
mod solutions;

pub use file::{
    put_failed_directive, put_halted_directive, put_no_atom_space, put_refused_item,
    put_syntax_fault, put_too_large, put_uncaught_item, put_waiting_directive,
};
pub use parts::{Section, SectionKind};
pub use sections::transcript;
pub use solutions::{begin_solution, end_solution, put_name, put_no_value};
