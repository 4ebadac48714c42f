//! Engines.
use crate::doing::Doing;
use iso_search::search::Search;
use std::alloc::Global;

/// Whether thread_exit/1 leaves what an engine runs.
#[derive(Clone, Copy, Debug, Drop)]
pub enum Stays {
    /// It does: the goal of a thread.
    No,
    /// It does not: the first engine's, which has the name `main`.
    AsMain,
    /// It does not: that of the command's goal with this number, which has the name `goalN`.
    AsGoal(u64),
}

/// An engine: the search for the solutions of one goal, what it does next, how many solutions are wanted and how many it
/// gave, whether thread_exit/1 leaves it, and whether memory ran out.
#[derive(Drop)]
pub struct Engine {
    pub search: Search,
    pub doing: Doing,
    pub solution_limit: u64,
    pub solutions_found: u64,
    pub stays: Stays,
    pub out_of_memory: bool,
    pub alloc: Global,
}
