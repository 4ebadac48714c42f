//! The clause database (ISO 7.5): procedures with their dated clauses.
#![tactic(auto)]

mod abolish;
mod access;
mod db;
mod dynamic;
mod fault;
mod flags;
mod index;
mod listing;
mod operators;
mod parts;
mod reclaim;
mod search;
mod system;

pub use access::{Access, By};
pub use db::Db;
pub use fault::DbFault;
pub use flags::{Flag, FlagValue, Flags, UnknownCall};
pub use gen_core::{Dated, DatedClause, Drops, Hit};
pub use op_table::{Kind, OpFault, OpTable, Operator};
pub use pl_model::grammar::Quotes;
pub use pl_model::shows::{Origin, Proc};
