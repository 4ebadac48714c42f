//! Replies.
use crate::visit::Procedure;
use atom_api::Atom;
use op_table::OpTable;
use pl_model::grammar::Quotes;
use pl_model::operators::Kind;
use std::sync::Arc;

/// A clause of a list, with the place of the update that added it, which names it, and whether others follow it.
#[derive(Drop)]
pub struct Found<T> {
    pub clause: T,
    pub place: u64,
    pub more: bool,
}

/// What names a thread or a queue.
#[derive(Clone, Copy, Debug, Drop)]
pub enum Name {
    Number(u64),
    Alias(Atom),
}

/// A flag with its value.
#[derive(Drop)]
pub struct FlagValue<T> {
    pub flag: Atom,
    pub value: T,
}

/// An operator: its priority, from 1 to 1200, its kind and its name.
#[derive(Clone, Copy, Debug, Drop)]
pub struct Operator {
    pub priority: u16,
    pub kind: Kind,
    pub name: Atom,
}

/// What the shared state answers.
#[derive(Drop)]
pub enum Reply<T> {
    /// The table of operators as it stands, which is shared and not copied, and the flag `double_quotes`.
    Standing {
        operators: Arc<OpTable>,
        quotes: Quotes,
    },
    /// The first clause of the list, or that it is empty.
    Clauses(Option<Found<T>>),
    /// The procedures with clauses, in standard order.
    Procedures(Vec<Procedure>),
    /// The flags with their values, in standard order.
    Flags(Vec<FlagValue<T>>),
    /// The operators, in standard order of their names, and of one name first the prefix, then the infix, then the postfix one.
    Operators(Vec<Operator>),
    /// The alias or the number of a thread or queue.
    Named(Name),
    /// A message, its variables numbered from 0 in order of first occurrence.
    Message(T),
    NoMessage,
    /// How a thread ended, as thread_join/2 gives it.
    Status(T),
    Done,
    /// The clause was erased before.
    Gone,
    /// The request is refused with this error term (ISO 7.12.2).
    Refused(T),
}
