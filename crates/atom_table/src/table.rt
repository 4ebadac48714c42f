//! The table.
use atom_words::Words;

/// The table of atoms. All its calls but those that make it take a `&` and a seat, no lock and no memory, and wait for
/// nothing.
#[derive(Drop)]
pub struct AtomTable {
    /// The words that the threads share.
    pub words: Words,
}
