//! atom_concat/3 of two atoms (ISO 8.16.2).
ghost use Rattle.std.specs.Prelude.{◌≡◌, ◌++◌, ◌≤◌, ◌∷◌, [], true, IfOk};
ghost use Rattle.std.specs.Str.{all_scalars, chars};
ghost use Rattle.pl_term.specs.Tree.{Chars, Trees, atom};
ghost use Rattle.pl_term.specs.Texts.{size};
ghost use Rattle.pl_model.specs.AtomBuiltins.{if_short};
ghost use Rattle.pl_model.specs.BuiltinRows.{one_answer};
ghost use Rattle.pl_model.specs.Checks.{text_of_atom};
ghost use Rattle.pl_model.specs.History.{Proc};
ghost use Rattle.pl_model.specs.TermBuiltins.{three};
ghost use Rattle.term_store.specs.Contents.{Holds};
ghost use Rattle.world_api.specs.Texts.{Holds as Keeps};
ghost use Rattle.world_builtins.specs.Naming.{IsHeldAt};
ghost use Rattle.world_builtins.specs.Spelling.{reads};
ghost use Rattle.builtin_rows.specs.Rows.{IsSingle, refusals_of};
ghost use Rattle.builtin_atom.specs.Answering.{AsksFor, IsRowOf};
ghost use Rattle.atom_parts.specs.Joining.{joined_at};
ghost use Rattle.atom_parts.specs.Lined.{atom_concat_proc};
ghost use Rattle.atom_parts.specs.Reading.{IsAtom};

use atom_api::{Atoms, TextBuf, fixed};
use builtin_atom::{Made, make_atom, past_limit, take_cells};
use builtin_rows::{Places, Row};
use pl_term::{Memory, Text};
use std::alloc::Global;
use std::convert::AsStr;
use term_store::{Place, Store, View as Kind};

/// Puts the text of the atom at a place into a buffer.
fn read_text<A: Atoms>(store: &Store, place: Place, buffer: &mut TextBuf, atoms: &mut A)
    requires inside { Holds store.now place }
    requires held { IsHeldAt (A.held atoms.old) store.now place }
    requires atom { IsAtom (reads (A.held atoms.old) store.now place) }
    ensures text { reads (A.held atoms.old) store.now place ≡ atom buffer.new }
    ensures scalars { all_scalars buffer.new ≡ true }
    ensures same { A.held atoms.new ≡ A.held atoms.old }
    ensures refusals { A.refusals atoms.new ≡ A.refusals atoms.old }
    ensures asked { A.asked atoms.new ≡ A.asked atoms.old }
{
    match store.look(place) {
        Kind::Atom(name) => atoms.text(name, buffer),
        _ => unreachable!(),
    }
}

/// The text of two others. The only error is out of memory.
fn joined(alloc: Global, first: &str, second: &str) -> Result<Text, Memory>
    ensures { IfOk result (λ t. t ≡ chars first.now ++ chars second.now) }
{
    let mut both = String::from_str(alloc, first)?;
    both.push_str(second)?;
    Text::from_str(alloc, both.as_str())
}

/// The row of atom_concat/3 for the atoms at two places, whatever the third argument is. The only error is out of memory.
pub fn join<A: Atoms>(
    alloc: Global,
    store: &mut Store,
    first: Place,
    second: Place,
    atoms: &mut A,
) -> Result<Row, Memory>
    requires first_inside { Holds store.old first }
    requires second_inside { Holds store.old second }
    requires first_held { IsHeldAt (A.held atoms.old) store.old first }
    requires second_held { IsHeldAt (A.held atoms.old) store.old second }
    requires first { IsAtom (reads (A.held atoms.old) store.old first) }
    requires second { IsAtom (reads (A.held atoms.old) store.old second) }
    ensures row { IfOk result (λ r. (ts : Trees)
        → IsRowOf store.old atom_concat_proc ts (joined_at (A.held atoms.old) store.old first second) (A.held atoms.new) store.new r) }
    ensures holds { Keeps (A.held atoms.old) (A.held atoms.new) }
    ensures refusals { A.refusals atoms.new ≡ A.refusals atoms.old ++ refusals_of result }
    ensures single { IfOk result IsSingle }
    ensures asked { (ts : Trees)
        → AsksFor store.old atom_concat_proc ts (joined_at (A.held atoms.old) store.old first second) (A.asked atoms.old) (A.asked atoms.new) }
{
    let mut front = TextBuf::new();
    read_text(store, first, &mut front, atoms);
    let mut back = TextBuf::new();
    read_text(store, second, &mut back, atoms);
    let text = joined(alloc, front.as_str(), back.as_str())?;
    if text.size() > 248 {
        return past_limit(store, fixed::MAX_ATOM_LENGTH, fixed::ATOM_CONCAT, 3);
    }
    answer_joined(store, first, second, &text, atoms)
}

/// The one answer with the terms at two places and the atom of a text of at most 248 bytes, which is made. The only error is
/// out of memory.
fn answer_joined<A: Atoms>(
    store: &mut Store,
    first: Place,
    second: Place,
    text: &Text,
    atoms: &mut A,
) -> Result<Row, Memory>
    requires short { size text.now ≤ 248 }
    requires first_inside { Holds store.old first }
    requires second_inside { Holds store.old second }
    requires first_held { IsHeldAt (A.held atoms.old) store.old first }
    requires second_held { IsHeldAt (A.held atoms.old) store.old second }
    ensures row { IfOk result (λ r. (p : Proc) (ts : Trees) → IsRowOf store.old p ts
        (one_answer (three (reads (A.held atoms.old) store.old first) (reads (A.held atoms.old) store.old second) (atom text.now))) (A.held atoms.new) store.new r) }
    ensures holds { Keeps (A.held atoms.old) (A.held atoms.new) }
    ensures refusals { A.refusals atoms.new ≡ A.refusals atoms.old ++ refusals_of result }
    ensures single { IfOk result IsSingle }
    ensures asked { (p : Proc) (ts : Trees) → AsksFor store.old p ts
        (one_answer (three (reads (A.held atoms.old) store.old first) (reads (A.held atoms.old) store.old second) (atom text.now))) (A.asked atoms.old) (A.asked atoms.new) }
{
    match take_cells(store, 0) {
        Some(row) => Ok(row),
        None => {
            let made = make_atom(text, atoms)?;
            match made {
                Made::Refused(row) => Ok(row),
                Made::Is(a) => Ok(Row::Answer {
                    places: Places::Three(first, second, Place::atom(a)),
                    fresh: 0,
                }),
            }
        }
    }
}
