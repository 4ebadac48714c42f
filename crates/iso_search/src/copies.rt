//! What findall/3 collects (ISO 8.10.1).
use pl_term::Memory;
use std::alloc::Global;
use term_store::Stored;

/// A copy: the term, its variables numbered from 0 on, and the number from which on they are numbered in the copy.
#[derive(Drop)]
pub struct Copied {
    pub term: Stored,
    pub from: u64,
}

/// The copies, the first one first, and how many cells they have.
#[derive(Drop)]
pub struct Collection {
    pub copies: Vec<Copied>,
    pub cells: u64,
}
