//! Numerals (ISO 6.4.4), whose values may be of any size.
ghost use Rattle.std.specs.Prelude.{◌≡◌, ◌<◌, length};
ghost use Rattle.pl_model.specs.AtomBuiltins.{coded_numeral, decimal_numeral, numeral_at, radix_numeral, whole_numeral};
ghost use Rattle.pl_model.specs.LexicalTokens.{character_code};
ghost use Rattle.lex_core.specs.NumberTexts.{saturated_numeral, saturated_value};

use crate::bytes::{behind, byte_at, first};
use crate::characters::{Run, run_end};
use crate::numerals::{begins_code, begins_radix, radix_of};
use crate::quoted::{digits_value, piece};
use pl_model::lexical::Piece;

/// The value of the numeral that some bytes are, or 2^64 - 1 where it is more.
pub fn whole_numeral(bytes: &[u8]) -> Option<u64>
    ensures { result ≡ saturated_value (whole_numeral bytes.now (numeral_at bytes.now)) }
{
    match numeral_at(bytes) {
        None => None,
        Some((value, size)) => {
            if size == bytes.len() {
                Some(value)
            } else {
                None
            }
        }
    }
}

/// The value of the numeral at the front of some bytes, or 2^64 - 1 where it is more, and its number of bytes.
fn numeral_at(bytes: &[u8]) -> Option<(u64, usize)>
    ensures { result ≡ saturated_numeral (numeral_at bytes.now) }
{
    if begins_code(bytes) {
        return coded_numeral(behind(bytes, 2));
    }
    let radix = radix_of(byte_at(bytes, 1));
    if begins_radix(bytes, radix) {
        return radix_numeral(radix, bytes);
    }
    decimal_numeral(bytes)
}

/// The code of the character after `0'`, before which these two bytes stand.
fn coded_numeral(bytes: &[u8]) -> Option<(u64, usize)>
    requires { 0 < length bytes.now }
    ensures { result ≡ saturated_numeral (coded_numeral (character_code bytes.now)) }
{
    if byte_at(bytes, 0) == b'\n' {
        return None;
    }
    match piece(bytes, '\'') {
        Piece::Character(c, size) => Some((u64::from(u32::from(c)), size + 2)),
        Piece::Continuation(_) => None,
        Piece::Close => None,
        Piece::Bad(_, _) => None,
    }
}

/// `0`, a letter, and digits of a radix.
fn radix_numeral(radix: u32, bytes: &[u8]) -> Option<(u64, usize)>
    requires { 0 < radix }
    ensures { result ≡ saturated_numeral (radix_numeral radix bytes.now) }
{
    let digits = behind(bytes, 2);
    let n = run_end(digits, 0, Run::Digits(radix));
    Some((digits_value(radix, first(digits, n)), n + 2))
}

/// Decimal digits, if there are some.
fn decimal_numeral(bytes: &[u8]) -> Option<(u64, usize)>
    ensures { result ≡ saturated_numeral (decimal_numeral bytes.now) }
{
    let n = run_end(bytes, 0, Run::Digits(10));
    if n == 0 {
        return None;
    }
    Some((digits_value(10, first(bytes, n)), n))
}
