//! Tokens (ISO 6.4).
ghost use Rattle.std.specs.Prelude.{◌≡◌, ◌∷◌, [], ◌<◌, ◌≤◌, ◌&&◌, ◌==◌, IfOk, drop, length, slice_index};
ghost use Rattle.std.specs.Str.{IsUtf8, chars};
ghost use Rattle.pl_model.specs.Tokens.{closes_clause, front, scalar};
ghost use Rattle.pl_model.specs.LexicalTokens.{mark_at, symbols, token_at, token_front, token_of, word_size};
ghost use Rattle.lex_core.specs.Views.{Gives};

use crate::bytes::{behind, byte_at, first};
use crate::characters::{Run, begins, character, run_end};
use crate::layout::skip_layout;
use crate::lex_fault::LexFault;
use crate::numerals::numeral;
use crate::quoted::quoted;
use pl_model::lexical::{Begins, Lexeme, Mark, Reading, TokenKind};
use pl_model::syntax::{SyntaxFault, SyntaxKind};
use pl_term::{Memory, Text};
use std::alloc::Global;

/// The first token of `text` at the place `at` or after it, with its value, the place of its first byte and the
/// place after its last one; or the end of the text. Layout is passed. `(` at `at` itself is open ct, after layout
/// it is open. A syntax fault is at the place where its token begins, but for a bad escape sequence, at its
/// backslash, and a byte that is not UTF-8, at that byte (ISO 6.4, 6.5). The other error is out of memory.
pub fn next(alloc: Global, text: &[u8], at: usize) -> Result<Lexeme, LexFault>
    ensures { Gives result (token_at text.now at) }
{
    let start = match skip_layout(text, at) {
        Ok(start) => start,
        Err(fault) => return Err(LexFault::Syntax(fault)),
    };
    match token_front(alloc, behind(text, start), start == at)? {
        Reading::Token(kind, size) => Ok(Lexeme::Token {
            kind,
            start,
            end: start + size,
        }),
        Reading::Fault(kind, n) => Err(LexFault::Syntax(SyntaxFault {
            kind,
            at: start + n,
        })),
        Reading::Nothing => Ok(Lexeme::End),
    }
}

/// What stands at the front of `bytes`, where no layout stands.
fn token_front(alloc: Global, bytes: &[u8], direct: bool) -> Result<Reading, Memory>
    ensures { IfOk result (λ r. r ≡ token_front direct bytes.now) }
{
    if bytes.is_empty() {
        return Ok(Reading::Nothing);
    }
    match character(bytes, 0) {
        Some((c, size)) => token_of(alloc, bytes, direct, begins(c), c, size),
        None => Ok(Reading::Fault(SyntaxKind::BadUtf8, 0)),
    }
}

/// What begins with the character `c` of `size` bytes at the front.
fn token_of(
    alloc: Global,
    bytes: &[u8],
    direct: bool,
    class: Begins,
    c: char,
    size: usize,
) -> Result<Reading, Memory>
    requires { front bytes.now ≡ scalar c size }
    ensures { IfOk result (λ r. r ≡ token_of direct bytes.now class c size) }
{
    match class {
        Begins::Name => {
            let n = run_end(bytes, size, Run::Name);
            let text = spelling(alloc, first(bytes, n))?;
            Ok(Reading::Token(TokenKind::Name(text), n))
        }
        Begins::Variable => {
            let n = run_end(bytes, size, Run::Name);
            let text = spelling(alloc, first(bytes, n))?;
            Ok(Reading::Token(TokenKind::Variable(text), n))
        }
        Begins::Digit => Ok(numeral(bytes)),
        Begins::Symbol => symbols(alloc, bytes),
        Begins::Solo => {
            let text = spelling(alloc, first(bytes, size))?;
            Ok(Reading::Token(TokenKind::Name(text), size))
        }
        Begins::Quote => quoted(alloc, behind(bytes, 1), c),
        Begins::Punctuation(mark) => Ok(Reading::Token(
            TokenKind::Punctuation(mark_at(direct, mark)),
            size,
        )),
        Begins::Other => Ok(Reading::Fault(SyntaxKind::LoneCharacter, 0)),
    }
}

/// An opening parenthesis at the very place that was asked for is open ct.
fn mark_at(direct: bool, mark: Mark) -> Mark
    ensures { result ≡ mark_at direct mark }
{
    if direct {
        match mark {
            Mark::Open => Mark::OpenCt,
            _ => mark,
        }
    } else {
        mark
    }
}

/// Symbol characters: a name, or the end token.
fn symbols(alloc: Global, bytes: &[u8]) -> Result<Reading, Memory>
    ensures { IfOk result (λ r. r ≡ symbols bytes.now) }
{
    let n = run_end(bytes, 0, Run::Symbols);
    if is_end_token(bytes, n) {
        return Ok(Reading::Token(TokenKind::EndToken, 1));
    }
    let text = spelling(alloc, first(bytes, n))?;
    Ok(Reading::Token(TokenKind::Name(text), n))
}

/// Whether `n` symbol characters at the front are the end token.
pub fn is_end_token(bytes: &[u8], n: usize) -> bool
    ensures { result ≡ ((n == 1) && ((slice_index bytes.now 0 == 46) && closes_clause (drop 1 bytes.now))) }
{
    n == 1 && (byte_at(bytes, 0) == b'.' && closes_clause(bytes, 1))
}

/// Whether white space, `%` or the end of the text stands at `at`.
fn closes_clause(text: &[u8], at: usize) -> bool
    ensures { result ≡ closes_clause (drop at text.now) }
{
    if at >= text.len() {
        return true;
    }
    match character(text, at) {
        Some((c, _)) => c.is_whitespace() || c == '%',
        None => false,
    }
}

/// The text that these bytes spell.
fn spelling(alloc: Global, bytes: &[u8]) -> Result<Text, Memory>
    requires { IsUtf8 bytes.now }
    ensures { IfOk result (λ t. t ≡ chars bytes.now) }
{
    match str::from_utf8(bytes) {
        Ok(s) => Text::from_str(alloc, s),
        Err(_) => unreachable!(),
    }
}
