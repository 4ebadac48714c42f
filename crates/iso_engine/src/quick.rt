//! What a try to make a step at once came to.

/// Whether a step was made at once. Where it was not, the engine stands where it stood.
#[derive(Clone, Copy, Debug, Drop)]
pub enum Quick {
    /// It was made.
    Went,
    /// It is a call by the name of its goal alone, or goes back to clauses that were not tried; but the world does not know the clauses, or
    /// no inference can be made.
    Missed,
    /// It is another step.
    Other,
}
