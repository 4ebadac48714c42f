//! The characters of texts, and texts that are made of characters.
ghost use Rattle.std.specs.Prelude.{◌≡◌, ◌++◌, ◌∷◌, [], IfOk, OnOk, IsSome, string_bytes};
ghost use Rattle.std.specs.Fmt.{signed_decimal};
ghost use Rattle.std.specs.Str.{chars};
ghost use Rattle.term_store.specs.Heap.{atom_name};
ghost use Rattle.world_builtins.specs.Spelling.{text_of};

use atom_api::{Atom, Atoms, TextBuf};
use itoa::Buffer;
use pl_term::{Memory, Text};
use std::alloc::Global;
use std::convert::AsStr;

/// The characters of a text. The only error is out of memory.
fn characters(alloc: Global, text: &str) -> Result<Vec<char>, Memory>
    ensures { IfOk result (λ v. v.items ≡ chars text.now) }
{
    let mut all = Vec::new(alloc);
    for c in text.chars() {
        all.push(c)?;
    }
    Ok(all)
}

/// The characters of the text of an atom. The only error is out of memory.
pub fn atom_characters<A: Atoms>(
    alloc: Global,
    name: Atom,
    atoms: &mut A,
) -> Result<Vec<char>, Memory>
    requires { IsSome (A.held atoms.old name) }
    ensures text { IfOk result (λ v. v.items ≡ text_of (A.held atoms.old) (atom_name name)) }
    ensures same { A.held atoms.new ≡ A.held atoms.old }
    ensures refusals { A.refusals atoms.new ≡ A.refusals atoms.old }
    ensures asked { A.asked atoms.new ≡ A.asked atoms.old }
{
    let mut text = TextBuf::new();
    atoms.text(name, &mut text);
    characters(alloc, text.as_str())
}

/// The characters of an integer in decimal. The only error is out of memory.
pub fn integer_characters(alloc: Global, i: i64) -> Result<Vec<char>, Memory>
    ensures { IfOk result (λ v. v.items ≡ signed_decimal i) }
{
    let mut buffer = Buffer::new();
    characters(alloc, buffer.format(i))
}

/// The text of these characters. The only error is out of memory.
pub fn text_from(alloc: Global, characters: &[char]) -> Result<Text, Memory>
    ensures { IfOk result (λ t. t ≡ characters.now) }
{
    let text = string_from(alloc, characters)?;
    let made = Text::from_str(alloc, text.as_str())?;
    Ok(made)
}

/// The string of these characters. The only error is out of memory.
pub fn string_from(alloc: Global, characters: &[char]) -> Result<String, Memory>
    ensures { IfOk result (λ s. chars (string_bytes s) ≡ characters.now) }
{
    let mut text = String::new(alloc);
    for c in characters {
        push(&mut text, *c)?;
    }
    Ok(text)
}

/// Adds a character to a text. The only error is out of memory.
fn push(text: &mut String, c: char) -> Result<(), Memory>
    ensures { OnOk result (chars (string_bytes text.new) ≡ chars (string_bytes text.old) ++ c ∷ []) }
{
    text.push(c)?;
    Ok(())
}
