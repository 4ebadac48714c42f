//! What the arguments of a predicate on the parts of an atom want.
ghost use Rattle.std.specs.Prelude.{◌≡◌, ◌++◌, ◌≤◌, None, IfOk, OnOk, IsSome};
ghost use Rattle.std.specs.Str.{chars};
ghost use Rattle.pl_term.specs.Texts.{size};
ghost use Rattle.pl_term.specs.Tree.{Chars};
ghost use Rattle.pl_model.specs.AtomBuiltins.{counted_error};
ghost use Rattle.pl_model.specs.Checks.{atom_error};
ghost use Rattle.atom_api.specs.Names.{Names};
ghost use Rattle.term_store.specs.Contents.{Holds};
ghost use Rattle.term_store.specs.Heap.{atom_name};
ghost use Rattle.world_builtins.specs.Naming.{IsHeldAt};
ghost use Rattle.world_builtins.specs.Spelling.{reads, text_of};
ghost use Rattle.atom_parts.specs.Columns.{wanted_tree};
ghost use Rattle.atom_parts.specs.Reading.{IsAtom, IsWanted, IsWhole};

use crate::columns::{Value, Wanted};
use atom_api::{Atom, Atoms, TextBuf};
use pl_term::Memory;
use std::alloc::Global;
use std::convert::AsStr;
use term_store::{Place, Store, View as Kind};

/// Adds the characters that a text spells. The only error is out of memory.
fn add_characters(text: &mut Vec<char>, from: &str) -> Result<(), Memory>
    ensures { OnOk result (text.new.items ≡ text.old.items ++ chars from.now) }
{
    for c in from.chars() {
        text.push(c)?;
    }
    Ok(())
}

/// Adds the characters of the text of an atom. The only error is out of memory.
fn add_text<A: Atoms>(text: &mut Vec<char>, name: Atom, atoms: &mut A) -> Result<(), Memory>
    requires { IsSome (A.held atoms.old name) }
    ensures text { OnOk result (text.new.items ≡ text.old.items ++ text_of (A.held atoms.old) (atom_name name)) }
    ensures short { size (text_of (A.held atoms.old) (atom_name name)) ≤ 248 }
    ensures same { A.held atoms.new ≡ A.held atoms.old }
    ensures refusals { A.refusals atoms.new ≡ A.refusals atoms.old }
    ensures asked { A.asked atoms.new ≡ A.asked atoms.old }
{
    let mut buffer = TextBuf::new();
    atoms.text(name, &mut buffer);
    add_characters(text, buffer.as_str())
}

/// The characters of the atom at a place. The only error is out of memory.
pub fn whole_text<A: Atoms>(
    alloc: Global,
    store: &Store,
    place: Place,
    atoms: &mut A,
) -> Result<Vec<char>, Memory>
    requires inside { Holds store.now place }
    requires held { IsHeldAt (A.held atoms.old) store.now place }
    requires atom { IsAtom (reads (A.held atoms.old) store.now place) }
    ensures whole { IfOk result (λ text. IsWhole (reads (A.held atoms.old) store.now place) text.items) }
    ensures same { A.held atoms.new ≡ A.held atoms.old }
    ensures refusals { A.refusals atoms.new ≡ A.refusals atoms.old }
    ensures asked { A.asked atoms.new ≡ A.asked atoms.old }
{
    let mut text = Vec::new(alloc);
    match store.look(place) {
        Kind::Atom(name) => add_text(&mut text, name, atoms)?,
        _ => unreachable!(),
    }
    Ok(text)
}

/// What an argument wants that is a variable or an atom, whose characters are added to the text. The only error is out of
/// memory.
pub fn wanted_atom<A: Atoms>(
    text: &mut Vec<char>,
    store: &Store,
    place: Place,
    atoms: &mut A,
) -> Result<Wanted, Memory>
    requires inside { Holds store.now place }
    requires held { IsHeldAt (A.held atoms.old) store.now place }
    requires fits { atom_error (reads (A.held atoms.old) store.now place) ≡ None }
    ensures wanted { IfOk result (IsWanted (reads (A.held atoms.old) store.now place) text.new.items) }
    ensures grows { OnOk result ((added : Chars) × (text.new.items ≡ text.old.items ++ added)) }
    ensures same { A.held atoms.new ≡ A.held atoms.old }
    ensures refusals { A.refusals atoms.new ≡ A.refusals atoms.old }
    ensures asked { A.asked atoms.new ≡ A.asked atoms.old }
{
    match store.look(place) {
        Kind::Variable(x) => Ok(Wanted::Any(x)),
        Kind::Atom(name) => {
            let at = text.len();
            add_text(text, name, atoms)?;
            Ok(Wanted::Is(Value::Part(at, text.len() - at)))
        }
        _ => unreachable!(),
    }
}

/// What an argument wants that is a variable or an integer from 0 on.
pub fn wanted_number(store: &Store, place: Place) -> Wanted
    requires inside { Holds store.now place }
    requires fits { (m : Names) → counted_error (reads m store.now place) ≡ None }
    ensures { (m : Names) (text : Chars) → wanted_tree text result ≡ reads m store.now place }
{
    match store.look(place) {
        Kind::Variable(x) => Wanted::Any(x),
        Kind::Integer(i) => {
            if i < 0 {
                unreachable!()
            }
            Wanted::Is(Value::Number(i as usize))
        }
        Kind::Atom(_) => unreachable!(),
        Kind::Compound(_, _) => unreachable!(),
    }
}
