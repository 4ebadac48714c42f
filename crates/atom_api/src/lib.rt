//! Atoms: the trait of what a user of atoms holds, the fixed atoms, and plain atoms for one thread.
#![tactic(auto)]

mod atom;
mod atoms;
pub mod fixed;
mod fixed_table;
mod interned;
mod plain;
mod slots;
mod text_buf;

pub use atom::Atom;
pub use atom_words::{Cause, Pass, Refusal, WornWord};
pub use atoms::Atoms;
pub use fixed_table::{fixed_atoms, fixed_atoms_differ};
pub use interned::Interned;
pub use plain::PlainAtoms;
pub use text_buf::TextBuf;
