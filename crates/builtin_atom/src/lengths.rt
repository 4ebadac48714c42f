//! atom_length/2 (ISO 8.16.1).
ghost use Rattle.std.specs.Prelude.{◌≡◌, ◌++◌, [], ◌≤ℤ◌, ◌≤◌, pos, IfOk, IsSome, codes};
ghost use Rattle.pl_term.specs.Tree.{atom as atom_tree, int};
ghost use Rattle.pl_model.specs.AtomBuiltins.{measures};
ghost use Rattle.term_store.specs.Contents.{Holds, term_at};
ghost use Rattle.term_store.specs.Heap.{atom_name};
ghost use Rattle.world_builtins.specs.Naming.{IsHeldAt};
ghost use Rattle.builtin_rows.specs.Rows.{IsSingle, refusals_of};
ghost use Rattle.builtin_atom.specs.Answering.{Gives};

use crate::answers::{answer, unchanged};
use crate::errors::{below_zero, unbound, wrong_type};
use crate::texts::character_count;
use atom_api::{Atom, Atoms, fixed};
use builtin_rows::Row;
use pl_term::Memory;
use term_store::{Place, Store, View as Kind};

/// atom_length/2 (ISO 8.16.1): the second argument is the number of characters of the atom that is the first one. A variable
/// and what is no atom are refused in the first place, and in the second one what is neither a variable nor an integer from 0
/// on. The only error is out of memory.
pub fn atom_length<A: Atoms>(
    store: &mut Store,
    atom: Place,
    length: Place,
    atoms: &mut A,
) -> Result<Row, Memory>
    requires atom_inside { Holds store.old atom }
    requires length_inside { Holds store.old length }
    requires atom_held { IsHeldAt (A.held atoms.old) store.old atom }
    requires length_held { IsHeldAt (A.held atoms.old) store.old length }
    ensures row { IfOk result (Gives (A.held atoms.old) store.old (codes "atom_length") measures atom length (A.held atoms.new) store.new) }
    ensures same { A.held atoms.new ≡ A.held atoms.old }
    ensures refusals { A.refusals atoms.new ≡ A.refusals atoms.old ++ refusals_of result }
    ensures single { IfOk result IsSingle }
    ensures asked { A.asked atoms.new ≡ A.asked atoms.old }
{
    match store.look(atom) {
        Kind::Variable(_) => unbound(store, fixed::ATOM_LENGTH, 2),
        Kind::Atom(name) => length_of(store, name, atom, length, atoms),
        Kind::Integer(_) => wrong_type(store, fixed::ATOM, atom, fixed::ATOM_LENGTH, 2),
        Kind::Compound(_, _) => wrong_type(store, fixed::ATOM, atom, fixed::ATOM_LENGTH, 2),
    }
}

/// The same for an atom in the first place. The only error is out of memory.
fn length_of<A: Atoms>(
    store: &mut Store,
    name: Atom,
    atom: Place,
    length: Place,
    atoms: &mut A,
) -> Result<Row, Memory>
    requires stands { term_at store.old atom ≡ atom_tree (atom_name name) }
    requires atom_inside { Holds store.old atom }
    requires length_inside { Holds store.old length }
    requires atom_held { IsHeldAt (A.held atoms.old) store.old atom }
    requires length_held { IsHeldAt (A.held atoms.old) store.old length }
    ensures row { IfOk result (Gives (A.held atoms.old) store.old (codes "atom_length") measures atom length (A.held atoms.new) store.new) }
    ensures same { A.held atoms.new ≡ A.held atoms.old }
    ensures refusals { A.refusals atoms.new ≡ A.refusals atoms.old ++ refusals_of result }
    ensures single { IfOk result IsSingle }
    ensures asked { A.asked atoms.new ≡ A.asked atoms.old }
{
    match store.look(length) {
        Kind::Variable(_) => {
            let count = character_count(name, atoms);
            Ok(answer(store, atom, Place::integer(count as i64)))
        }
        Kind::Integer(given) => {
            if given < 0 {
                return below_zero(store, length, fixed::ATOM_LENGTH, 2);
            }
            let count = character_count(name, atoms) as i64;
            if count == given {
                return Ok(unchanged(store));
            }
            Ok(answer(store, atom, Place::integer(count)))
        }
        Kind::Atom(_) => wrong_type(store, fixed::INTEGER, length, fixed::ATOM_LENGTH, 2),
        Kind::Compound(_, _) => wrong_type(store, fixed::INTEGER, length, fixed::ATOM_LENGTH, 2),
    }
}
