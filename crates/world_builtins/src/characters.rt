//! Characters that are written after what an engine has written.
ghost use Rattle.std.specs.Prelude.{◌≡◌, IfOk, IsSome, length};
ghost use Rattle.std.specs.Str.{chars};
ghost use Rattle.pl_term.specs.Tree.{atom};
ghost use Rattle.term_store.specs.Heap.{atom_name};
ghost use Rattle.term_store.specs.Contents.{Holds};
ghost use Rattle.world_builtins.specs.Characters.{IsPut};
ghost use Rattle.world_builtins.specs.Naming.{IsHeldAt};
ghost use Rattle.world_builtins.specs.Spelling.{reads, text_of};

use atom_api::{Atom, Atoms, TextBuf};
use pl_term::Memory;
use std::convert::AsStr;
use term_store::{Place, Store, View as Kind};

/// What comes of put_char/1.
#[derive(Clone, Copy, Debug, PartialEq, Eq, Drop)]
pub enum Character {
    /// The character was written.
    Put,
    /// The term is a variable: the error is an instantiation error. Nothing was written.
    Unbound,
    /// The term is no character: the error is a type error `character`. Nothing was written.
    Refused,
}

/// How many characters a text has.
fn character_count(text: &str) -> usize
    ensures { result ≡ length (chars text.now) }
{
    text.chars().count()
}

/// Puts a text of one character after what was written. The only error is out of memory.
fn put_text(text: &str, out: &mut Vec<u8>) -> Result<Character, Memory>
    ensures { IfOk result (λ c. IsPut (atom (chars text.now)) c out.old.items out.new.items) }
{
    if character_count(text) != 1 {
        return Ok(Character::Refused);
    }
    out.extend_from_slice(text.as_bytes())?;
    Ok(Character::Put)
}

/// Puts an atom of one character after what was written. The only error is out of memory.
fn put_atom<A: Atoms>(name: Atom, atoms: &mut A, out: &mut Vec<u8>) -> Result<Character, Memory>
    requires { IsSome (A.held atoms.old name) }
    ensures puts { IfOk result (λ c. IsPut (atom (text_of (A.held atoms.old) (atom_name name))) c out.old.items out.new.items) }
    ensures same { A.held atoms.new ≡ A.held atoms.old }
    ensures refusals { A.refusals atoms.new ≡ A.refusals atoms.old }
    ensures asked { A.asked atoms.new ≡ A.asked atoms.old }
{
    let mut text = TextBuf::new();
    atoms.text(name, &mut text);
    put_text(text.as_str(), out)
}

/// put_char/1 (ISO 8.12.3): puts the character at a place after what was written. The only error is out of memory.
pub fn put_char<A: Atoms>(
    store: &Store,
    term: Place,
    atoms: &mut A,
    out: &mut Vec<u8>,
) -> Result<Character, Memory>
    requires inside { Holds store.now term }
    requires held { IsHeldAt (A.held atoms.old) store.now term }
    ensures puts { IfOk result (λ c. IsPut (reads (A.held atoms.old) store.now term) c out.old.items out.new.items) }
    ensures same { A.held atoms.new ≡ A.held atoms.old }
    ensures refusals { A.refusals atoms.new ≡ A.refusals atoms.old }
    ensures asked { A.asked atoms.new ≡ A.asked atoms.old }
{
    match store.look(term) {
        Kind::Variable(_) => Ok(Character::Unbound),
        Kind::Integer(_) => Ok(Character::Refused),
        Kind::Atom(name) => put_atom(name, atoms, out),
        Kind::Compound(_, _) => Ok(Character::Refused),
    }
}
