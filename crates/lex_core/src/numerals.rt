//! Numerals (ISO 6.4.4).
ghost use Rattle.std.specs.Prelude.{◌≡◌, ◌<◌, ◌≤◌, ◌^◌, ◌-◌, ◌+◌, ◌&&◌, ◌==◌, nat_lt, length, min, slice_index};
ghost use Rattle.std.specs.Char.{is_ascii_digit};
ghost use Rattle.pl_model.specs.LexicalQuoted.{is_digit};
ghost use Rattle.pl_model.specs.LexicalTokens.{character_code, coded_character, decimal_constant, integer, numeral, radix_constant, radix_of};

use crate::bytes::{behind, byte_at, first};
use crate::characters::{Run, is_digit, run_end};
use crate::quoted::{digits_value, piece};
use pl_model::lexical::{Piece, Reading, TokenKind};
use pl_model::syntax::SyntaxKind;

/// The numeral at the front of `bytes`, which begin with a digit.
pub fn numeral(bytes: &[u8]) -> Reading
    ensures { result ≡ numeral bytes.now }
{
    if begins_code(bytes) {
        return character_code(behind(bytes, 2));
    }
    let radix = radix_of(byte_at(bytes, 1));
    if begins_radix(bytes, radix) {
        return radix_constant(radix, bytes);
    }
    decimal_constant(bytes)
}

/// Whether `0'` and one byte more stand at the front.
pub fn begins_code(bytes: &[u8]) -> bool
    ensures { result ≡ ((slice_index bytes.now 0 == 48) && ((slice_index bytes.now 1 == 39) && nat_lt 2 (length bytes.now))) }
{
    byte_at(bytes, 0) == b'0' && (byte_at(bytes, 1) == b'\'' && 2 < bytes.len())
}

/// Whether a numeral in this radix stands at the front.
pub fn begins_radix(bytes: &[u8], radix: u32) -> bool
    ensures { result ≡ ((slice_index bytes.now 0 == 48) && is_digit radix (slice_index bytes.now 2)) }
{
    byte_at(bytes, 0) == b'0' && is_digit(radix, char::from(byte_at(bytes, 2)))
}

/// The radix that a letter after `0` stands for, or 0.
pub fn radix_of(letter: u8) -> u32
    ensures { result ≡ radix_of letter }
{
    match letter {
        b'x' => 16,
        b'o' => 8,
        b'b' => 2,
        _ => 0,
    }
}

/// The code of the character after `0'`, before which these two bytes stand.
fn character_code(bytes: &[u8]) -> Reading
    requires { 0 < length bytes.now }
    ensures { result ≡ character_code bytes.now }
{
    if byte_at(bytes, 0) == b'\n' {
        return Reading::Fault(SyntaxKind::BadEscape, 0);
    }
    match piece(bytes, '\'') {
        Piece::Character(c, size) => {
            Reading::Token(TokenKind::Integer(u64::from(u32::from(c))), size + 2)
        }
        Piece::Continuation(_) => Reading::Fault(SyntaxKind::BadEscape, 2),
        Piece::Close => Reading::Fault(SyntaxKind::BadEscape, 0),
        Piece::Bad(kind, _) => Reading::Fault(kind, 2),
    }
}

/// `0`, a letter, and digits of a radix.
fn radix_constant(radix: u32, bytes: &[u8]) -> Reading
    requires { 0 < radix }
    ensures { result ≡ radix_constant radix bytes.now }
{
    let digits = behind(bytes, 2);
    let n = run_end(digits, 0, Run::Digits(radix));
    let value = digits_value(radix, first(digits, n));
    if value > 1 << 63 {
        return Reading::Fault(SyntaxKind::IntegerTooLarge, 0);
    }
    Reading::Token(TokenKind::Integer(value), n + 2)
}

/// Decimal digits.
fn decimal_constant(bytes: &[u8]) -> Reading
    ensures { result ≡ decimal_constant bytes.now }
{
    let n = run_end(bytes, 0, Run::Digits(10));
    let value = digits_value(10, first(bytes, n));
    if value > 1 << 63 {
        return Reading::Fault(SyntaxKind::IntegerTooLarge, 0);
    }
    if begins_fraction(bytes, n) {
        return Reading::Fault(SyntaxKind::FloatNumeral, 0);
    }
    Reading::Token(TokenKind::Integer(value), n)
}

/// Whether a full stop and a digit stand at `at`.
fn begins_fraction(bytes: &[u8], at: usize) -> bool
    requires { at ≤ length bytes.now }
    ensures { result ≡ ((slice_index bytes.now at == 46) && is_ascii_digit (slice_index bytes.now (at + 1))) }
{
    byte_at(bytes, at) == b'.' && byte_at(bytes, at + 1).is_ascii_digit()
}
