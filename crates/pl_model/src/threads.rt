//! What names a thread or a queue, what a queue holds, what is waited on, and how a thread ended.
use pl_term::Text;

/// What names a thread or a message queue.
#[derive(Debug, Drop)]
pub enum Name {
    /// Its number.
    Number(u64),
    /// Its alias.
    Alias(Text),
}

/// What an engine waits on.
#[derive(Debug, Drop)]
pub enum On {
    /// A message of a queue.
    Queue(Name),
    /// The end of a thread.
    Thread(Name),
}

/// A message of type `M` in a queue.
#[derive(Drop)]
pub struct Message<M> {
    /// The place of the update that sent it, which names it.
    pub place: u64,
    pub content: M,
}

/// How a thread ended, as thread_join/2 tells it (SWI-Prolog manual, section 'Creating and destroying Prolog threads').
#[derive(Drop)]
pub enum Status<M> {
    /// Its goal succeeded.
    Succeeded,
    /// Its goal failed.
    Failed,
    /// A ball that nobody caught.
    Exception(M),
    /// thread_exit/1 ended it with a term.
    Exited(M),
    /// halt/1 ended it with a status.
    Halted(u8),
    /// It ended for want of atoms.
    AtomSpace,
}

/// A thread that has not been joined.
#[derive(Drop)]
pub struct Thread<M> {
    pub number: u64,
    /// How it ended, where it has.
    pub status: Option<Status<M>>,
}
