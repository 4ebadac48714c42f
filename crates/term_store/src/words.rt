//! What a store is made of.

/// A word: a variable by its slot, an integer, an atom by its slot, or a compound term by the number of its head.
#[derive(Clone, Copy, Debug, Drop)]
pub enum Word {
    Var(usize),
    Int(i64),
    Atom(u32),
    Comp(usize),
}

/// The head of a compound term: its name, and where its arguments stand among the arguments of all.
#[derive(Clone, Copy, Debug, Drop)]
pub struct Head {
    pub name: u32,
    pub start: u32,
    pub count: u32,
}

/// A binding: the slot of a variable, and the word that it is bound to.
#[derive(Clone, Copy, Debug, Drop)]
pub struct Bond {
    pub slot: usize,
    pub word: Word,
}

/// Two words that are to become equal.
#[derive(Clone, Copy, Debug, Drop)]
pub struct Pair {
    pub left: Word,
    pub right: Word,
}

/// The arguments of a compound term of a store, and of one of a clause's block or another of the store, that are still to become
/// equal: so many from a place on of either.
#[derive(Clone, Copy, Debug, Drop)]
pub struct Rest {
    pub left: usize,
    pub right: usize,
    pub count: usize,
}

/// Two compound terms that are to become equal, by the numbers of their heads.
#[derive(Clone, Copy, Debug, Drop)]
pub struct Meeting {
    pub left: usize,
    pub right: usize,
}

/// What is left to do for two words, of which neither is a bound variable, to become equal: nothing, or nothing that
/// helps, or a variable is to be bound, or the arguments of two compound terms are to become equal.
#[derive(Clone, Copy, Debug, Drop)]
pub enum Plan {
    Same,
    Clash,
    Bind(usize, Word),
    Open(usize, usize),
}

/// How much a store held when the mark was taken.
#[derive(Clone, Copy, Debug, Drop)]
pub struct StoreMark {
    pub(crate) heads: usize,
    pub(crate) args: usize,
    pub(crate) numbers: usize,
    pub(crate) trail: usize,
    pub(crate) used: u64,
}

/// A place of a store: what stands there is a term, and may change as variables are bound.
#[derive(Clone, Copy, Debug, Drop)]
pub struct Place {
    pub(crate) word: Word,
}
