//! The built-in predicates on the parts of atoms (ISO/IEC 13211-1:1995, 8.16.2, 8.16.3), over a store: atom_concat/3 and
//! sub_atom/5, whose answers are the lines of a table, each found when it is asked for.
#![tactic(auto)]

mod columns;
mod concatenation;
mod joining;
mod misfits;
mod parts;
mod reading;
mod skipping;
mod splits;
mod sub_atoms;
mod tables;

pub use concatenation::{atom_concat, atom_concat_line};
pub use sub_atoms::{sub_atom, sub_atom_line};
