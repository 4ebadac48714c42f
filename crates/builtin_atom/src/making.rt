//! Answers with an atom that is made for them.
ghost use Rattle.std.specs.Prelude.{◌≡◌, ◌≤◌, ◌++◌, ℕ, IfOk};
ghost use Rattle.pl_term.specs.Tree.{Chars, Trees, atom};
ghost use Rattle.pl_term.specs.Texts.{size};
ghost use Rattle.pl_model.specs.BuiltinRows.{one_answer};
ghost use Rattle.pl_model.specs.History.{Proc};
ghost use Rattle.pl_model.specs.TermBuiltins.{two};
ghost use Rattle.term_store.specs.Contents.{Holds};
ghost use Rattle.world_api.specs.Gains.{Gains};
ghost use Rattle.world_api.specs.Texts.{Holds as Keeps};
ghost use Rattle.world_builtins.specs.Naming.{IsHeldAt};
ghost use Rattle.world_builtins.specs.Spelling.{reads};
ghost use Rattle.builtin_rows.specs.Rows.{IsSingle, refusals_of};
ghost use Rattle.builtin_atom.specs.Answering.{AsksFor, IsRowOf};
ghost use Rattle.builtin_atom.specs.Making.{IsMade, made_refusals};

use crate::answers::take_cells;
use atom_api::{Atom, Atoms, Interned};
use builtin_rows::{Places, Row};
use pl_term::{Memory, Text};
use term_store::{Place, Store};

/// What becomes of an atom that is to be made: it is held, or the predicate is to be called again, as the row says.
#[derive(Drop)]
pub enum Made {
    Is(Atom),
    Refused(Row),
}

/// Makes the atom of a text of at most 248 bytes. The only error is out of memory.
pub fn make_atom<A: Atoms>(text: &Text, atoms: &mut A) -> Result<Made, Memory>
    requires { size text.now ≤ 248 }
    ensures made { IfOk result (IsMade (A.held atoms.new) text.now) }
    ensures holds { Keeps (A.held atoms.old) (A.held atoms.new) }
    ensures refusals { A.refusals atoms.new ≡ A.refusals atoms.old ++ made_refusals result }
    ensures asked { Gains (λ c. c ≡ text.now) (A.asked atoms.old) (A.asked atoms.new) }
{
    match atoms.intern(text) {
        Interned::Is(a) => Ok(Made::Is(a)),
        Interned::Full(pass) => Ok(Made::Refused(Row::NeedsAtoms(pass))),
        Interned::Again(cause) => Ok(Made::Refused(Row::Retry(cause))),
        Interned::TooLong { .. } => unreachable!(),
        Interned::Worn(word) => Ok(Made::Refused(Row::Worn(word))),
        Interned::Memory => Err(Memory),
    }
}

/// The one answer with the atom of a text of at most 248 bytes, which is made, and the term at a place. The only error is out of
/// memory.
pub fn answer_atom<A: Atoms>(
    store: &mut Store,
    text: &Text,
    second: Place,
    atoms: &mut A,
) -> Result<Row, Memory>
    requires short { size text.now ≤ 248 }
    requires inside { Holds store.old second }
    requires held { IsHeldAt (A.held atoms.old) store.old second }
    ensures row { IfOk result (λ r. (p : Proc) (ts : Trees)
        → IsRowOf store.old p ts (one_answer (two (atom text.now) (reads (A.held atoms.old) store.old second))) (A.held atoms.new) store.new r) }
    ensures holds { Keeps (A.held atoms.old) (A.held atoms.new) }
    ensures refusals { A.refusals atoms.new ≡ A.refusals atoms.old ++ refusals_of result }
    ensures single { IfOk result IsSingle }
    ensures asked { (p : Proc) (ts : Trees)
        → AsksFor store.old p ts (one_answer (two (atom text.now) (reads (A.held atoms.old) store.old second))) (A.asked atoms.old) (A.asked atoms.new) }
{
    match take_cells(store, 0) {
        Some(row) => Ok(row),
        None => {
            let made = make_atom(text, atoms)?;
            match made {
                Made::Refused(row) => Ok(row),
                Made::Is(a) => Ok(Row::Answer {
                    places: Places::Two(Place::atom(a), second),
                    fresh: 0,
                }),
            }
        }
    }
}
