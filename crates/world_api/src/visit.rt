//! Visits.
use atom_api::Atom;
use pl_model::operators::Kind;

/// A predicate by its name and the number of its arguments.
#[derive(Clone, Copy, Debug, Drop)]
pub struct Procedure {
    pub name: Atom,
    pub arity: u64,
}

/// What an engine asks of the shared state. Terms are of a type `T`, and a goal is asked for by its predicate and the key
/// `K` of its first argument. What a predicate checks of its arguments alone it has checked before it asks.
#[derive(Drop)]
pub enum Visit<T, K> {
    /// The operators and the flag `double_quotes`: at the taking up of an item, at a solution, at the end of a directive.
    Look,
    /// The operators, for writing (ISO 8.14.2).
    ReadOperators,
    /// The first of the clauses for a goal (ISO 7.7.10).
    Call {
        procedure: Procedure,
        first: K,
    },
    /// The first of the clauses that clause/2 looks through (ISO 8.8.1).
    Inspect {
        procedure: Procedure,
        first: K,
    },
    /// The first of the clauses that retract/1 looks through (ISO 8.9.3).
    Retract {
        procedure: Procedure,
        first: K,
    },
    /// The first of the clauses that retractall/1 looks through (ISO Cor.2 8.9.5).
    Clear {
        procedure: Procedure,
        first: K,
    },
    /// The next clause of such a list: after the clause with this place, at the generation of the visit that asked for
    /// the first.
    Next {
        procedure: Procedure,
        first: K,
        generation: u64,
        place: u64,
    },
    /// The clause that was added at this place is erased.
    Erase {
        place: u64,
    },
    /// asserta/1 of a clause, which is kept as one term: a rule, or a head alone (ISO 8.9.1).
    AssertFirst {
        clause: T,
    },
    /// assertz/1 (ISO 8.9.2).
    AssertLast {
        clause: T,
    },
    /// A clause of the file that is consulted (ISO 7.4.2).
    Consult {
        clause: T,
    },
    /// abolish/1 (ISO 8.9.4).
    Abolish {
        procedure: Procedure,
    },
    /// dynamic/1 (ISO 7.4.2.1).
    MakeDynamic {
        procedures: Vec<Procedure>,
    },
    /// current_predicate/1 (ISO 8.8.2).
    AllProcedures,
    /// op/3 (ISO 8.14.3).
    PutOperators {
        priority: u16,
        kind: Kind,
        names: Vec<Atom>,
    },
    /// The operators, with atoms as their names, for current_op/3 (ISO 8.14.4).
    AllOperators,
    /// set_prolog_flag/2 (ISO 8.17.1).
    PutFlag {
        flag: Atom,
        value: Atom,
    },
    /// current_prolog_flag/2 (ISO 8.17.2).
    AllFlags,
    /// thread_self/1 (SWI-Prolog manual, section 'Multithreaded applications', as all below).
    OwnName,
    /// thread_create/2,3: the aliases of its options up to the first one that is wrong, and the error of that one.
    CreateThread {
        goal: T,
        aliases: Vec<Atom>,
        error: Option<T>,
    },
    /// The goal of the command with this number begins as an engine of its own.
    StartGoal {
        number: u64,
        goal: T,
    },
    /// thread_join/2.
    JoinThread {
        thread: T,
    },
    /// thread_send_message/2.
    SendMessage {
        queue: T,
        message: T,
    },
    /// thread_get_message/1,2: of the queue that is named so, or of the engine's own.
    GetMessage {
        queue: Option<T>,
        pattern: T,
    },
    /// thread_peek_message/1,2.
    PeekMessage {
        queue: Option<T>,
        pattern: T,
    },
    /// message_queue_create/1.
    CreateQueue {
        alias: Option<Atom>,
    },
    /// message_queue_destroy/1.
    DestroyQueue {
        queue: T,
    },
    /// garbage_collect_atoms/0 and garbage_collect_clauses/0.
    CollectAtoms,
    CollectClauses,
}
