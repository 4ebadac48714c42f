//! Dated lists of clauses: what each generation sees of a procedure, and the drop of what no generation from a floor on sees.
#![tactic(auto)]

mod clause_index;
mod dated;
mod dated_clause;
mod drops;
mod hit;
mod index;
mod number_map;
mod numbers;
mod reclaiming;
mod runs;

pub use dated::Dated;
pub use dated_clause::DatedClause;
pub use drops::Drops;
pub use hit::Hit;
pub use reclaiming::{Reclaimer, reclaim};
