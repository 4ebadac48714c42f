//! What kind of term stands at a place.
use atom_api::Atom;

/// What stands at a place once bound variables are followed: an unbound variable with its number, an integer, an atom,
/// or a compound term with its name and its arguments.
#[derive(Debug, Drop)]
pub enum View {
    Variable(u64),
    Integer(i64),
    Atom(Atom),
    Compound(Atom, Arguments),
}

/// Where the arguments of a compound term stand in its store.
#[derive(Clone, Copy, Debug, Drop)]
pub struct Arguments {
    pub(crate) start: usize,
    pub(crate) count: usize,
}
