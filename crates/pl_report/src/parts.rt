//! The sections of a transcript.
use op_table::OpTable;
use pl_term::Text;
use run_model::ends::GoalHow;

/// What a section is of.
#[derive(Debug, Drop)]
pub enum SectionKind {
    /// The file.
    Consult,
    /// A goal of the command, by its word, and whether it has given the solutions that were wanted.
    Goal { word: Text, enough: bool },
    /// A thread that a goal or a directive made, by its alias, or by its number where it has none.
    Thread { name: Text },
}

/// A section: what was written in it, without its first and its last line, in UTF-8; how its goal or thread ended, if
/// that is to be said; and the operators at the engine's end, under which a ball is written.
#[derive(Debug, Drop)]
pub struct Section<'a> {
    pub kind: SectionKind,
    pub text: &'a [u8],
    pub how: Option<GoalHow>,
    pub ops: &'a OpTable,
}
