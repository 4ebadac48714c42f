//! The table of operators (ISO 6.3.4, 8.14.3, 8.14.4).
#![tactic(auto)]

mod fault;
mod iso;
mod names;
mod operator;
mod search;
mod table;

pub use fault::OpFault;
pub use operator::Operator;
pub use pl_model::operators::{Kind, Place};
pub use table::OpTable;
