//! What an engine does next.
use iso_search::balls::Ball;
use term_store::Stored;
use world_api::Found;

/// How a search ended.
#[derive(Drop)]
pub enum End {
    /// The solutions that were wanted were given.
    Solved,
    /// There is no further solution.
    NoMore,
    /// Nothing caught the ball (ISO 7.8.10).
    Threw(Ball),
    /// halt/1 with a status.
    Halted(u8),
    /// thread_exit/1 with a term.
    Exited(Ball),
}

/// The clauses that retractall/1 has not looked at.
#[derive(Drop)]
pub enum Left {
    None,
    /// This one and those after it: it comes after the clause with the place, or is the first of all.
    Found(Option<u64>, Found<Stored>),
    /// Those after the clause with this place.
    After(u64),
}

/// What is done next.
#[derive(Drop)]
pub enum Doing {
    /// The tasks of a list are done.
    Running(usize),
    /// The newest choice point is gone back to (ISO 7.7.8).
    Failing,
    /// A ball looks for an active catch, one whose exit stands among the tasks of a list (ISO 7.8.10).
    Throwing {
        ball: Ball,
        outer: usize,
    },
    /// retract/1 has unified with the clause that was added at this place, which is to be erased before the tasks of a list
    /// (ISO 8.9.3).
    Erasing {
        place: u64,
        list: usize,
    },
    /// The goal of retractall/1 that is the first task of a list has these clauses of a generation left (ISO Cor.2 8.9.5).
    Clearing {
        list: usize,
        generation: u64,
        left: Left,
    },
    /// A solution was given.
    Answering,
    /// The search has ended.
    Ended(End),
}
