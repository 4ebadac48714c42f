//! The predicates of the shared state, by how many arguments they have.

/// A predicate of the shared state. Where two names are one predicate (assert/1 and assertz/1) it is the same value.
#[derive(Clone, Copy, Debug, Drop)]
pub enum StatePred {
    One(StateOne),
    Two(StateTwo),
    Three(StateThree),
}

/// The predicates of one argument.
#[derive(Clone, Copy, Debug, Drop)]
pub enum StateOne {
    /// `asserta/1`, ISO 8.9.1.
    Asserta,
    /// `assertz/1`, ISO 8.9.2, and `assert/1`.
    Assertz,
    /// `abolish/1`, ISO 8.9.4.
    Abolish,
    /// `dynamic/1`, ISO 7.4.2.1.
    Dynamic,
    /// `discontiguous/1` and `multifile/1`, ISO 7.4.2.2, 7.4.2.3: they change nothing.
    Declares,
    /// `current_predicate/1`, ISO 8.8.2.
    CurrentPredicate,
    /// `thread_self/1`, SWI-Prolog manual, section 'Multithreaded applications', as all below.
    ThreadSelf,
    /// `thread_get_message/1`.
    GetOwn,
    /// `thread_peek_message/1`.
    PeekOwn,
    /// `message_queue_create/1`.
    CreateQueue,
    /// `message_queue_destroy/1`.
    DestroyQueue,
}

/// The predicates of two arguments.
#[derive(Clone, Copy, Debug, Drop)]
pub enum StateTwo {
    /// `set_prolog_flag/2`, ISO 8.17.1.
    SetFlag,
    /// `current_prolog_flag/2`, ISO 8.17.2.
    CurrentFlag,
    /// `thread_create/2`.
    CreateThread,
    /// `thread_join/2`.
    JoinThread,
    /// `thread_send_message/2`.
    Send,
    /// `thread_get_message/2`.
    Get,
    /// `thread_peek_message/2`.
    Peek,
}

/// The predicates of three arguments.
#[derive(Clone, Copy, Debug, Drop)]
pub enum StateThree {
    /// `op/3`, ISO 8.14.3.
    Op,
    /// `current_op/3`, ISO 8.14.4.
    CurrentOp,
    /// `thread_create/3`.
    CreateThread,
}
