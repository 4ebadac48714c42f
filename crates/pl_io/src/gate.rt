//! A gate before each visit to shared state.

/// What is called before each visit to shared state. It answers nothing and changes nothing that is proved; a test
/// can hold threads back by it.
pub trait Gate {
    /// The thread with the number `worker` is about to make a visit for the engine with the number `engine`.
    fn before_visit(&self, worker: u32, engine: u64);
}

/// The gate that does nothing.
#[derive(Debug, Clone, Copy, Drop)]
pub struct Open;

impl Gate for Open {
    fn before_visit(&self, _worker: u32, _engine: u64) {}
}
