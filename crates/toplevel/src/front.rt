//! What is told of a run.
use pl_history::Front as HistoryFront;

/// What is told of a run: a front of the history for each engine that has begun, in the order of their numbers. All of them have
/// seen the same history, the whole of it.
#[derive(Drop)]
pub struct Front {
    pub engines: Vec<EngineFront>,
}

/// An engine's number, and its front.
#[derive(Drop)]
pub struct EngineFront {
    pub number: u64,
    pub front: HistoryFront,
}
