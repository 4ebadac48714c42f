//! The writer: the text of a term under a table of operators (ISO/IEC 13211-1:1995, 7.10.5 and 8.14.2), and the law that what
//! `writeq` writes is read back.
#![tactic(auto)]

mod names;
mod operators;
mod page;
mod pieces;
mod quotes;
mod reading_back;
mod writer;
mod writing;

pub use reading_back::{
    awkward_terms_are_read_back, premises_are_needed, tables_keep_names,
    written_terms_are_read_back,
};
pub use writer::{write, write_canonical, writeq};
pub use writing::Writing;
