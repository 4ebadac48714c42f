//! Atoms that stored terms name: counted by the keeper of an atom table, and held by the seat that reads the terms.
//!
//! A stored term holds no atom. The keeper counts, for each atom, how often stored terms name it, and a counted atom
//! keeps its text. A thread that reads a stored term joins the keeper's counts to its seat, holds the term's atoms by
//! them, and parts again.
#![tactic(auto)]

mod agreement;
mod engines;
mod joining;
mod keeping;
mod laws;
mod lists;
mod made_terms;
mod names;
mod naming;
mod row;
mod storing;
mod term;

pub use engines::{agree, forget_by, hand_over, hold_by, lend_to, store_from};
pub use joining::{join, part};
pub use keeping::{agree_kept, fetch_kept, register_kept, unregister_kept};
pub use laws::{are_one_map, exact_counts_tell};
pub use lists::{fetch_all, register_all, unregister_all};
pub use made_terms::{
    atom_term, existence_error, indicator_term, int_term, permission_error, resource_error, wrapped,
};
pub use names::{name_in, text_of_atom};
pub use naming::{fetch, register, unregister};
pub use row::{MOST_UPDATES, Row};
pub use storing::{forget, hold, lend, store};
pub use term::CountedTerm;
