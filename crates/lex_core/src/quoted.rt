//! Quoted texts and escape sequences (ISO 6.4.2.1, 6.4.6, 6.4.7).
ghost use Rattle.std.specs.Prelude.{◌≡◌, ◌<◌, ◌≤◌, ◌^◌, ◌-◌, ◌∷◌, [], ◌++◌, IfOk, IfSome, Ok, OnOk, length, min, string_bytes};
ghost use Rattle.std.specs.Str.{chars};
ghost use Rattle.std.specs.Str.Parse.{digits_value};
ghost use Rattle.pl_model.specs.LexicalQuoted.{HasSize, closing, coded, digits_escape, escape, four_digits_escape, piece, quoted, quoted_kind, simple_escape, simple_piece, spelled};
ghost use Rattle.lex_core.specs.Views.{spelled_of};

use crate::bytes::{behind, byte_at, first, is_at};
use crate::characters::{Run, character, digit_value, is_digit, run_end};
use pl_model::lexical::{Piece, Reading, TokenKind};
use pl_model::syntax::SyntaxKind;
use pl_term::{Memory, Text};
use std::alloc::Global;

/// The characters of a quoted text, or its first fault.
#[derive(Drop)]
pub enum Spelling {
    /// The text.
    Whole(Text),
    /// A fault, this number of bytes after the opening quote.
    Bad(SyntaxKind, usize),
}

/// The quoted text whose opening quote stands before `bytes`.
pub fn quoted(alloc: Global, bytes: &[u8], quote: char) -> Result<Reading, Memory>
    ensures { IfOk result (λ r. r ≡ quoted quote bytes.now) }
{
    let Some(n) = closing(bytes, quote) else {
        return Ok(Reading::Fault(SyntaxKind::OpenQuote, 0));
    };
    match spelled(alloc, bytes, quote)? {
        Spelling::Whole(text) => Ok(Reading::Token(quoted_kind(quote, text), n + 2)),
        Spelling::Bad(kind, at) => Ok(Reading::Fault(kind, at)),
    }
}

/// The token of a text in these quotes.
fn quoted_kind(quote: char, text: Text) -> TokenKind
    ensures { result ≡ quoted_kind quote text }
{
    match quote {
        '\'' => TokenKind::Quoted(text),
        '"' => TokenKind::DoubleQuoted(text),
        _ => TokenKind::BackQuoted(text),
    }
}

/// The number of bytes before the closing quote, or none where the text stays open.
pub fn closing(bytes: &[u8], quote: char) -> Option<usize>
    ensures value { result ≡ closing quote 0 bytes.now }
    ensures within { IfSome result (λ n. n < length bytes.now) }
{
    let mut at = 0;
    while at < bytes.len() {
        match piece(behind(bytes, at), quote) {
            Piece::Character(_, size) => at += size,
            Piece::Continuation(size) => at += size,
            Piece::Close => return Some(at),
            Piece::Bad(_, size) => at += size,
        }
    }
    None
}

/// The characters up to the closing quote, or the first fault.
fn spelled(alloc: Global, bytes: &[u8], quote: char) -> Result<Spelling, Memory>
    ensures { IfOk result (λ s. spelled_of s ≡ spelled quote 1 0 bytes.now) }
{
    let mut text = String::new(alloc);
    let mut at = 0;
    while at < bytes.len() {
        match piece(behind(bytes, at), quote) {
            Piece::Character(c, size) => {
                push(&mut text, c)?;
                at += size;
            }
            Piece::Continuation(size) => at += size,
            Piece::Close => return whole(alloc, text.as_str()),
            Piece::Bad(kind, _) => return Ok(Spelling::Bad(kind, at + 1)),
        }
    }
    whole(alloc, text.as_str())
}

/// Adds a character to a text.
fn push(text: &mut String, c: char) -> Result<(), Memory>
    ensures { OnOk result (chars (string_bytes text.new) ≡ chars (string_bytes text.old) ++ c ∷ []) }
{
    text.push(c)?;
    Ok(())
}

/// This text, whole.
fn whole(alloc: Global, text: &str) -> Result<Spelling, Memory>
    ensures { IfOk result (λ s. spelled_of s ≡ Ok (chars text.now)) }
{
    Ok(Spelling::Whole(Text::from_str(alloc, text)?))
}

/// The piece of a text in these quotes at the front of `bytes`.
pub fn piece(bytes: &[u8], quote: char) -> Piece
    requires { 0 < length bytes.now }
    ensures value { result ≡ piece quote bytes.now }
    ensures within { HasSize (length bytes.now) result }
{
    let Some((c, size)) = character(bytes, 0) else {
        return Piece::Bad(SyntaxKind::BadUtf8, 1);
    };
    if c == quote {
        if is_at(bytes, 1, quote) {
            return Piece::Character(quote, 2);
        }
        return Piece::Close;
    }
    if c == '\\' {
        return escape(behind(bytes, 1));
    }
    Piece::Character(c, size)
}

/// What a backslash before `bytes` and these are.
fn escape(bytes: &[u8]) -> Piece
    ensures { result ≡ escape bytes.now }
{
    if bytes.is_empty() {
        return Piece::Bad(SyntaxKind::BadEscape, 1);
    }
    let Some((c, size)) = character(bytes, 0) else {
        return Piece::Bad(SyntaxKind::BadEscape, 2);
    };
    match simple_escape(c) {
        Some(meant) => Piece::Character(meant, 2),
        None => other_escape(bytes, c, size),
    }
}

/// The character that a control or meta escape sequence with this letter is.
fn simple_escape(c: char) -> Option<char>
    ensures { result ≡ simple_escape c }
{
    match c {
        'a' => Some('\u{7}'),
        'b' => Some('\u{8}'),
        'f' => Some('\u{c}'),
        'n' => Some('\n'),
        'r' => Some('\r'),
        't' => Some('\t'),
        'v' => Some('\u{b}'),
        'e' => Some('\u{1b}'),
        's' => Some(' '),
        '\\' | '\'' | '"' | '`' => Some(c),
        _ => None,
    }
}

/// What a backslash before `bytes` is where no control or meta escape sequence stands there.
fn other_escape(bytes: &[u8], c: char, size: usize) -> Piece
    requires { size ≤ length bytes.now }
    ensures { result ≡ simple_piece None bytes.now c size }
{
    if c == '\n' {
        return Piece::Continuation(2);
    }
    if c == 'x' {
        return digits_escape(behind(bytes, 1), 16, 2);
    }
    if is_digit(8, c) {
        return digits_escape(bytes, 8, 1);
    }
    if c == 'u' {
        return four_digits_escape(behind(bytes, 1));
    }
    Piece::Bad(SyntaxKind::BadEscape, 1 + size)
}

/// An escape sequence of digits of a radix, before which stand `before` bytes.
fn digits_escape(bytes: &[u8], radix: u32, before: usize) -> Piece
    requires radix { 0 < radix }
    requires before { before ≤ 2 }
    ensures { result ≡ digits_escape radix before bytes.now }
{
    let n = run_end(bytes, 0, Run::Digits(radix));
    if n == 0 {
        return Piece::Bad(SyntaxKind::BadEscape, 2);
    }
    let code = digits_value(radix, first(bytes, n));
    if byte_at(bytes, n) == b'\\' {
        coded(code, before + n + 1)
    } else {
        coded(code, before + n)
    }
}

/// `\u` before `bytes` and four hexadecimal digits.
fn four_digits_escape(bytes: &[u8]) -> Piece
    ensures { result ≡ four_digits_escape bytes.now }
{
    let digits = first(bytes, 4);
    if run_end(digits, 0, Run::Digits(16)) == 4 {
        coded(digits_value(16, digits), 6)
    } else {
        Piece::Bad(SyntaxKind::BadEscape, 2)
    }
}

/// The character of this code, written with `size` bytes, if there is one.
fn coded(code: u64, size: usize) -> Piece
    ensures { result ≡ coded code size }
{
    if code > 0x10_FFFF {
        return Piece::Bad(SyntaxKind::BadEscape, 2);
    }
    match char::from_u32(code as u32) {
        Some(c) => Piece::Character(c, size),
        None => Piece::Bad(SyntaxKind::BadEscape, 2),
    }
}

/// The number that digits of a radix write, or 2^64 - 1 where it is more.
pub fn digits_value(radix: u32, digits: &[u8]) -> u64
    requires { 0 < radix }
    ensures { result ≡ min (2 ^ 64 - 1) (digits_value radix digits.now) }
{
    let mut value: u64 = 0;
    for digit in digits {
        let more = u64::from(digit_value(char::from(*digit)));
        value = value.saturating_mul(u64::from(radix)).saturating_add(more);
    }
    value
}
