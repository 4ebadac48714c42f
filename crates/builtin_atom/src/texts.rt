//! The characters of texts.
ghost use Rattle.std.specs.Prelude.{◌≡◌, ◌≤◌, ℕ, List, [], ◌∷◌, false, true, pos, IfOk, IsSome, MatchOption, length};
ghost use Rattle.std.specs.Str.{chars};
ghost use Rattle.pl_term.specs.Tree.{atom, int};
ghost use Rattle.pl_term.specs.Texts.{size};
ghost use Rattle.pl_model.specs.AtomBuiltins.{is_character, is_code};
ghost use Rattle.term_store.specs.Heap.{atom_name};
ghost use Rattle.world_builtins.specs.Spelling.{text_of};

use atom_api::{Atom, Atoms, TextBuf};
use pl_term::{Memory, Text};
use std::alloc::Global;
use std::convert::AsStr;

/// How many characters a text has.
pub fn count(text: &str) -> usize
    ensures count { result ≡ length (chars text.now) }
    ensures few { result ≤ length text.now }
{
    text.chars().count()
}

/// The first character of a text.
fn first(text: &str) -> Option<char>
    ensures { MatchOption result (chars text.now ≡ []) (λ c. (cs : List ℕ) × (chars text.now ≡ c ∷ cs)) }
{
    text.chars().next()
}

/// The character of a text that has but one.
fn only(text: &str) -> Option<char>
    ensures { MatchOption result (is_character (atom (chars text.now)) ≡ false) (λ c. chars text.now ≡ c ∷ []) }
{
    if count(text) == 1 { first(text) } else { None }
}

/// How many characters the text of an atom has.
pub fn character_count<A: Atoms>(name: Atom, atoms: &mut A) -> usize
    requires { IsSome (A.held atoms.old name) }
    ensures count { result ≡ length (text_of (A.held atoms.old) (atom_name name)) }
    ensures few { result ≤ 248 }
    ensures same { A.held atoms.new ≡ A.held atoms.old }
    ensures refusals { A.refusals atoms.new ≡ A.refusals atoms.old }
    ensures asked { A.asked atoms.new ≡ A.asked atoms.old }
{
    let mut text = TextBuf::new();
    atoms.text(name, &mut text);
    count(text.as_str())
}

/// The character that the text of an atom is, if it is but one.
pub fn character_of<A: Atoms>(name: Atom, atoms: &mut A) -> Option<char>
    requires { IsSome (A.held atoms.old name) }
    ensures character { MatchOption result (is_character (atom (text_of (A.held atoms.old) (atom_name name))) ≡ false)
        (λ c. text_of (A.held atoms.old) (atom_name name) ≡ c ∷ []) }
    ensures same { A.held atoms.new ≡ A.held atoms.old }
    ensures refusals { A.refusals atoms.new ≡ A.refusals atoms.old }
    ensures asked { A.asked atoms.new ≡ A.asked atoms.old }
{
    let mut text = TextBuf::new();
    atoms.text(name, &mut text);
    only(text.as_str())
}

/// The character with this code: a Unicode scalar value.
pub fn character_at(code: i64) -> Option<char>
    ensures { MatchOption result (is_code (int code) ≡ false) (λ c. (code ≡ pos c) × (is_code (int code) ≡ true)) }
{
    if code < 0 || 0x10_ffff < code {
        return None;
    }
    char::from_u32(code as u32)
}

/// The text of one character. The only error is out of memory.
pub fn one_character(alloc: Global, c: char) -> Result<Text, Memory>
    ensures text { IfOk result (λ t. t ≡ c ∷ []) }
    ensures short { IfOk result (λ t. size t ≤ 248) }
{
    let mut s = String::new(alloc);
    s.push(c)?;
    let text = Text::from_str(alloc, s.as_str())?;
    Ok(text)
}
