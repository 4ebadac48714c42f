//! What is asked of a procedure.
use crate::visit::Procedure;

/// After which clause of a list the next one is asked for: the generation of the list, and the place of the update that added
/// the clause.
#[derive(Clone, Copy, Debug, Drop)]
pub struct After {
    pub generation: u64,
    pub place: u64,
}

/// What a visit asks of a procedure, by the key of a goal's first argument: the first of the clauses for the goal (`Visit::Call`),
/// or the next one of such a list (`Visit::Next`).
#[derive(Drop)]
pub struct Asked<K> {
    pub procedure: Procedure,
    pub first: K,
    pub after: Option<After>,
}
