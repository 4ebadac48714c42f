//! What running a goal leads to.
use term_store::Place;

/// What an error is about (ISO 7.12.2).
#[derive(Clone, Copy, Debug, Drop)]
pub enum Fault {
    /// The budget of inferences, or the numbers of variables, are spent.
    Inferences,
    /// The budget of cells is spent.
    Cells,
    /// The budget of choice points is spent.
    Choices,
    /// A variable stands where a term is wanted.
    Instantiation,
    /// The term is no goal, or has a part that is none.
    NotCallable(Place),
    /// The term is no integer.
    NotInteger(Place),
    /// The term is no list.
    NotList(Place),
    /// The integer is no exit status.
    NotStatus(Place),
}

/// What running a goal leads to.
#[derive(Clone, Copy, Debug, Drop)]
pub enum Outcome {
    /// These tasks are to be done.
    Run(usize),
    /// The goal fails.
    Fail,
    /// The predicate raises an error.
    Raise(Fault),
    /// The term is thrown.
    Throw(Place),
    /// The clause that was added at this place is to be erased, before these tasks (ISO 8.9.3).
    Erase(u64, usize),
    /// The search ends with this exit status.
    Halt(u8),
}
