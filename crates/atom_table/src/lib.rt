//! The table of atoms that all threads share without a lock.
//!
//! A thread interns texts through a seat. What a seat holds is an atom with its text as long as it holds it: equal texts
//! have equal atoms, whichever seats intern them. Every step is one exchange on one word of the table, of a kind that
//! `atom_words` lists.
#![tactic(auto)]

mod atoms;
mod collecting;
#[cfg(test)]
mod cycling;
mod interning;
mod laws;
mod making;
mod marking;
mod opening;
#[cfg(test)]
mod pending;
#[cfg(test)]
mod resized;
mod resizing;
#[cfg(test)]
mod reuse;
mod seats;
#[cfg(test)]
mod steps;
mod sweeping;
mod table;
#[cfg(test)]
mod tests;
mod texts;
#[cfg(test)]
mod threads;

pub use atom_api::{Atom, Cause, Interned, Pass, TextBuf, WornWord};
pub use atom_words::AtomSeat;
pub use atoms::{NamesTable, TableAtoms};
pub use bucket_rows::{Checked, two_cycles};
pub use collecting::Turn;
pub use laws::atoms_are_one;
pub use marking::Marked;
pub use opening::Opened;
pub use resizing::{Due, Resized, Rows, Stage};
pub use seats::{Collector, Keeper};
pub use sweeping::Swept;
pub use table::AtomTable;
