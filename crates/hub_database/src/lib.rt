//! The database that engines share: stored clauses over counted atoms, with the flags and the operators.
//!
//! A clause is found by the numbers in the key of a goal's first argument. What is handed out is, by the texts that the
//! engine holds from then on, the clause that the definitions give. Each visit is answered as the definitions answer it
//! after all updates of the history, or refused with nothing changed.
#![tactic(auto)]

mod adding;
mod calling;
mod calls;
mod changing;
mod finding;
mod flags;
mod guesses;
mod hints;
mod laws;
mod line;
mod listing;
mod looking;
mod naming;
mod operators;
mod predicates;
mod procedures;
mod reclaiming;
mod refusals;
mod storing;

pub use adding::add_clause;
pub use calling::{call_clauses, inspect_clauses, retract_clauses};
pub use calls::{first_clause, next_clause};
pub use changing::erase_clause;
pub use flags::{all_flags, put_flag};
pub use hints::Hints;
pub use laws::other_updates_leave_it;
pub use listing::{all_operators, all_procedures};
pub use looking::{collection, first_of, look};
pub use operators::put_operators;
pub use procedures::{abolish_procedure, clear_clauses, make_dynamic};
pub use reclaiming::reclaim_clauses;
pub use storing::{Adding, store_clause};
