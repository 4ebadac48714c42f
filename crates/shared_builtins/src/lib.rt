//! The predicates of the shared state (ISO/IEC 13211-1:1995, 8.8, 8.9, 8.14, 8.17; SWI-Prolog manual, section 'Multithreaded
//! applications'): what they check of their arguments, what they then ask, and what follows the reply.
#![tactic(auto)]

mod arguments;
mod asking;
mod built;
mod checks;
mod clauses;
mod errors;
mod faults;
mod flags;
mod following;
mod goal;
mod indicators;
mod kinds;
mod laws;
mod names;
mod one;
mod operators;
mod options;
mod pairs;
mod parts;
mod preds;
mod refusals;
mod replies;
mod rows;
mod shared;
mod tables;
mod three;
mod two;

pub use asking::shared_of;
pub use built::built_pred;
pub use checks::{Check, first_fault};
pub use clauses::{Given, clause_at, clause_fault};
pub use faults::{Fault, raise};
pub use goal::StateGoal;
pub use laws::renumbered_laws;
pub use parts::{Parts, parts_at};
pub use preds::{StateOne, StatePred, StateThree, StateTwo};
pub use replies::{Replied, follow_reply};
pub use rows::succeeded;
pub use shared::Shared;
