//! The texts of atoms that are held.
ghost use Rattle.std.specs.Prelude.{◌≡◌, IfOk, IsSome};
ghost use Rattle.term_store.specs.Heap.{atom_name};
ghost use Rattle.world_builtins.specs.Spelling.{text_of};

use atom_api::{Atom, Atoms, TextBuf};
use pl_term::{Memory, Text};
use std::alloc::Global;

/// The text of an atom that is held. The only error is out of memory.
pub fn text_at<A: Atoms>(alloc: Global, atom: Atom, atoms: &mut A) -> Result<Text, Memory>
    requires { IsSome (A.held atoms.old atom) }
    ensures text { IfOk result (λ t. t ≡ text_of (A.held atoms.old) (atom_name atom)) }
    ensures same { A.held atoms.new ≡ A.held atoms.old }
    ensures refusals { A.refusals atoms.new ≡ A.refusals atoms.old }
    ensures asked { A.asked atoms.new ≡ A.asked atoms.old }
{
    let mut text = TextBuf::new();
    atoms.text(atom, &mut text);
    text.to_text(alloc)
}
