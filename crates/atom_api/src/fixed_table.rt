//! The table of the fixed atoms.
ghost use Rattle.std.specs.Prelude.{◌≡◌, ◌<◌, ◌≤◌, ℕ, Some, map, IfOk};
ghost use Rattle.pl_term.specs.Tree.{Chars};
ghost use Rattle.pl_term.specs.Texts.{size};
ghost use Rattle.atom_api.specs.Fixed.{fixed, fixed_texts, numbered, row};

use crate::atom::Atom;
use crate::fixed::FIXED;
use pl_term::{Memory, Text};
use std::alloc::Global;

/// The fixed atoms with their texts: the atom with the number `k` has the text at the place `k` of the list. The only
/// error is out of memory.
pub fn fixed_atoms(alloc: Global) -> Result<Vec<(Atom, Text)>, Memory>
    ensures { IfOk result (λ rows. rows.items ≡ numbered 0 fixed_texts) }
{
    rows_of(alloc, &FIXED)
}

/// Fixed atoms with equal texts are equal, and each has a slot among the first 256 and a text of at most 248 bytes.
pub fn fixed_atoms_differ()
    ensures apart { (a b : ℕ) (t : Chars) → fixed a ≡ Some t → fixed b ≡ Some t → a ≡ b }
    ensures within { (a : ℕ) (t : Chars) → fixed a ≡ Some t → (a < 256) × (size t ≤ 248) }
{}

/// The rows of a table of atoms and their texts.
fn rows_of(alloc: Global, table: &[(u32, &str)]) -> Result<Vec<(Atom, Text)>, Memory>
    ensures { IfOk result (λ rows. rows.items ≡ map row table.now) }
{
    let mut rows = Vec::new(alloc);
    for (slot, text) in table {
        rows.push((Atom::at(*slot), Text::from_str(alloc, text)?))?;
    }
    Ok(rows)
}
