//! Names: which of them stand without quotes (ISO 6.4.2).
ghost use Rattle.std.specs.Prelude.{◌≡◌, ◌∷◌, [], List, ℕ, IsTrue, MatchOption, bytes_eq, codes, nat_eq};
ghost use Rattle.std.specs.Char.{is_ascii};
ghost use Rattle.std.specs.List.{list_all, starts_with};
ghost use Rattle.pl_model.specs.Characters.{begins_name, continues_name, is_bare_name, is_letter_name, is_solo_name, is_symbol, is_symbol_name};

use pl_term::Text;
use std::convert::AsStr;

/// Whether this name stands without quotes.
pub fn is_bare_name(f: &Text) -> bool
    ensures { result ≡ is_bare_name f.now }
{
    is_letter_name(f) || is_symbol_name(f) || is_solo_name(f)
}

/// Whether this is the name that `text`, which is in ASCII, spells.
pub fn is_named(f: &Text, text: &str) -> bool
    requires { IsTrue (list_all is_ascii text.now) }
    ensures { result ≡ bytes_eq f.now text.now }
{
    f.is(text)
}

fn is_letter_name(f: &Text) -> bool
    ensures { result ≡ is_letter_name f.now }
{
    match first_character(f) {
        Some(c) => begins_name(c) && f.as_str().chars().all(|d| continues_name(d)),
        None => false,
    }
}

/// Whether this is a run of symbol characters that reads back as a name.
pub fn is_symbol_name(f: &Text) -> bool
    ensures { result ≡ is_symbol_name f.now }
{
    if first_character(f).is_none() {
        return false;
    }
    if !has_symbols(f) {
        return false;
    }
    if is_named(f, ".") {
        return false;
    }
    !begins_comment(f)
}

fn is_solo_name(f: &Text) -> bool
    ensures { result ≡ is_solo_name f.now }
{
    is_named(f, "!") || is_named(f, ";") || is_named(f, "[]") || is_named(f, "{}")
}

fn first_character(f: &Text) -> Option<char>
    ensures { MatchOption result (f.now ≡ []) (λ c. (cs : List ℕ) × (f.now ≡ c ∷ cs)) }
{
    f.as_str().chars().next()
}

fn has_symbols(f: &Text) -> bool
    ensures { result ≡ list_all is_symbol f.now }
{
    f.as_str().chars().all(|c| is_symbol(c))
}

fn begins_comment(f: &Text) -> bool
    requires { IsTrue (list_all is_symbol f.now) }
    ensures { result ≡ starts_with nat_eq f.now (codes "/*") }
{
    f.as_str().as_bytes().starts_with(b"/*")
}

fn begins_name(c: char) -> bool
    ensures { result ≡ begins_name c }
{
    if c.is_ascii() {
        c.is_ascii_lowercase()
    } else {
        unicode_ident::is_xid_start(c)
    }
}

/// Whether a character goes on in a name.
pub fn continues_name(c: char) -> bool
    ensures { result ≡ continues_name c }
{
    if c.is_ascii() {
        c.is_ascii_alphanumeric() || c == '_'
    } else {
        unicode_ident::is_xid_continue(c)
    }
}

const SYMBOLS: [u8; 17] = *b"+-*/\\^<>=~:.?@#&$";

/// Whether a character is a symbol character.
pub fn is_symbol(c: char) -> bool
    ensures { result ≡ is_symbol c }
{
    SYMBOLS.iter().any(|d| *d as char == c)
}
