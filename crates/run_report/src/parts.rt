//! What is kept of each engine at the end of a run.
use named_terms::NamedTerm;
use op_table::OpTable;
use pl_model::ends::How;
use pl_model::threads::On;
use pl_term::Text;
use std::sync::Arc;

/// What is kept of an engine at the end of a run.
#[derive(Drop)]
pub struct Part {
    /// Its number.
    pub number: u64,
    /// How it ended, or nothing where it waits.
    pub end: Option<How<NamedTerm>>,
    /// What it waits on, where it does.
    pub awaits: Option<On>,
    /// The alias of a thread that has one.
    pub alias: Option<Text>,
    /// The operators at its end, under which a ball is written.
    pub operators: Arc<OpTable>,
    /// What it has given, in UTF-8: its text, and of a goal of the command also the lines of its solutions.
    pub output: Vec<u8>,
}
