//! Lines of the tables that the shared state tells.
use atom_api::Atom;

/// An integer or an atom.
#[derive(Clone, Copy, Debug, Drop)]
pub enum Constant {
    Int(i64),
    Atom(Atom),
}

/// A line of a table: a term for each argument of the predicate.
#[derive(Clone, Copy, Debug, Drop)]
pub enum Line {
    /// A term Name/Arity, for current_predicate/1: it takes three cells.
    Indicator(Atom, u64),
    /// A flag with its value, for current_prolog_flag/2.
    Flag(Atom, Constant),
    /// An operator, for current_op/3: its priority, the name of its specifier, and its name.
    Operator(u16, Atom, Atom),
}
