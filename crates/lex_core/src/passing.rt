//! Skipping: what stands at a place and how many bytes are passed with it, without its value.
ghost use Rattle.std.specs.Prelude.{◌≡◌, ◌<◌, ◌≤◌, ◌+◌, true, length, drop, slice_index};
ghost use Rattle.pl_model.specs.Characters.{is_symbol};
ghost use Rattle.pl_model.specs.LexicalCharacters.{is_quote};
ghost use Rattle.pl_model.specs.LexicalQuoted.{quoted};
ghost use Rattle.pl_model.specs.LexicalTokens.{symbols};
ghost use Rattle.pl_model.specs.Skipping.{behind_fault, behind_reading, character_size, passing};
ghost use Rattle.pl_model.specs.Tokens.{blank, front, run, scalar, stops};
ghost use Rattle.pl_model.proofs.LexicalPlaces.{ReadsWithin};
ghost use Rattle.lex_core.specs.Skips.{BeginsDecimal, PassesWithin, Skips};

use crate::bytes::{behind, byte_at};
use crate::characters::{Run, begins, character, is_quote, run_end};
use crate::layout::{begins_block, block_end, line_end};
use crate::numerals::{begins_code, begins_radix, numeral, radix_of};
use crate::quoted::closing;
use crate::tokens::is_end_token;
use pl_model::lexical::{Begins, Reading, TokenKind};
use pl_model::skipping::Passing;

/// What stands at the place `at` of a text, as it is skipped: the number of its bytes, or that it stays open. A comment
/// or a quoted text with a fault in it is passed whole, a faulty `0'` with the one character after it, any other fault
/// by one character, or by one byte that begins none. It takes no memory.
pub fn pass(text: &[u8], at: usize) -> Passing
    requires { at < length text.now }
    ensures { Skips text.now at result }
{
    let bytes = behind(text, at);
    let n = decimal_size(bytes);
    if n > 0 {
        return Passing::Through(n);
    }
    passing(bytes)
}

/// The number of decimal digits at the front, if a decimal constant begins there; else 0. Even where it is too large or
/// has a fraction, what is passed from its first digit on is passed from after its last one.
fn decimal_size(bytes: &[u8]) -> usize
    ensures { 0 < result → BeginsDecimal bytes.now result }
{
    if begins_code(bytes) {
        return 0;
    }
    if begins_radix(bytes, radix_of(byte_at(bytes, 1))) {
        return 0;
    }
    run_end(bytes, 0, Run::Digits(10))
}

/// What stands at the front of `bytes`.
fn passing(bytes: &[u8]) -> Passing
    requires { 0 < length bytes.now }
    ensures value { result ≡ passing bytes.now }
    ensures within { PassesWithin (length bytes.now) result }
{
    let Some((c, size)) = character(bytes, 0) else {
        return behind_fault(bytes);
    };
    if c.is_whitespace() {
        return Passing::Through(size);
    }
    if c == '%' {
        return Passing::Through(line_end(bytes, 1));
    }
    if c == '/' && begins_block(bytes, 0) {
        return match block_end(bytes, 2) {
            Some(end) => Passing::Through(end),
            None => Passing::StaysOpen,
        };
    }
    token_passing(bytes, c, size)
}

/// The token or the fault that begins with the character `c` of `size` bytes at the front.
fn token_passing(bytes: &[u8], c: char, size: usize) -> Passing
    requires front { front bytes.now ≡ scalar c size }
    requires some { 0 < size }
    requires fits { size ≤ length bytes.now }
    requires stops { blank bytes.now ≡ stops }
    ensures value { result ≡ passing bytes.now }
    ensures within { PassesWithin (length bytes.now) result }
{
    match begins(c) {
        Begins::Name => Passing::Through(run_end(bytes, size, Run::Name)),
        Begins::Variable => Passing::Through(run_end(bytes, size, Run::Name)),
        Begins::Digit => behind_reading(bytes, numeral(bytes)),
        Begins::Symbol => symbols_passing(bytes),
        Begins::Solo => Passing::Through(size),
        Begins::Quote => quoted_passing(bytes, c),
        Begins::Punctuation(_) => Passing::Through(size),
        Begins::Other => behind_fault(bytes),
    }
}

/// Symbol characters: a name, or the end token.
fn symbols_passing(bytes: &[u8]) -> Passing
    requires { 0 < run is_symbol 0 bytes.now }
    ensures value { result ≡ behind_reading bytes.now (symbols bytes.now) }
    ensures within { PassesWithin (length bytes.now) result }
{
    let n = run_end(bytes, 0, Run::Symbols);
    if is_end_token(bytes, n) {
        Passing::Ends(1)
    } else {
        Passing::Through(n)
    }
}

/// A text in these quotes, which the first byte opens.
fn quoted_passing(bytes: &[u8], quote: char) -> Passing
    requires quote { is_quote quote ≡ true }
    requires first { slice_index bytes.now 0 ≡ quote }
    ensures fault { result ≡ behind_fault bytes.now }
    ensures value { result ≡ behind_reading bytes.now (quoted quote (drop 1 bytes.now)) }
    ensures within { PassesWithin (length bytes.now) result }
{
    match closing(behind(bytes, 1), quote) {
        Some(n) => Passing::Through(n + 2),
        None => Passing::StaysOpen,
    }
}

/// What was read at the front of `bytes`.
fn behind_reading(bytes: &[u8], reading: Reading) -> Passing
    requires some { 0 < length bytes.now }
    requires within { ReadsWithin (length bytes.now) reading }
    ensures value { result ≡ behind_reading bytes.now reading }
    ensures within { PassesWithin (length bytes.now) result }
{
    match reading {
        Reading::Token(TokenKind::EndToken, n) => Passing::Ends(n),
        Reading::Token(_, n) => Passing::Through(n),
        Reading::Fault(..) => behind_fault(bytes),
        Reading::Nothing => Passing::Through(1),
    }
}

/// A fault at the front of `bytes`.
fn behind_fault(bytes: &[u8]) -> Passing
    requires { 0 < length bytes.now }
    ensures value { result ≡ behind_fault bytes.now }
    ensures within { PassesWithin (length bytes.now) result }
{
    let first = char::from(bytes[0]);
    if is_quote(first) {
        return quoted_passing(bytes, first);
    }
    if begins_code(bytes) {
        return Passing::Through(2 + character_size(bytes, 2));
    }
    Passing::Through(character_size(bytes, 0))
}

/// The number of bytes of the character at `at`; a byte that begins none counts alone.
fn character_size(bytes: &[u8], at: usize) -> usize
    requires { at < length bytes.now }
    ensures value { result ≡ character_size (drop at bytes.now) }
    ensures within { (0 < result) × (at + result ≤ length bytes.now) }
{
    match character(bytes, at) {
        Some((_, size)) => size,
        None => 1,
    }
}
