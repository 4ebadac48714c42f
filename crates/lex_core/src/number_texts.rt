//! Numbers that texts spell (ISO 8.16.7, 8.16.8).
ghost use Rattle.std.specs.Prelude.{◌≡◌, Option, ℕ, neg_ℤ, pos};
ghost use Rattle.std.specs.Option.{option_map};
ghost use Rattle.std.specs.Str.{chars};
ghost use Rattle.pl_model.specs.AtomBuiltins.{number_in, signed};
ghost use Rattle.lex_core.specs.NumberTexts.{IsNumber, saturated_value};

use crate::bytes::{behind, byte_at};
use crate::layout::skip_layout;
use crate::whole_numerals::whole_numeral;

/// What a text is when it is read as a number.
#[derive(Clone, Copy, Debug, PartialEq, Eq, Drop)]
pub enum NumberText {
    /// It spells no integer.
    Illegal,
    /// It spells an integer that is not one of 64 bits.
    TooLarge,
    /// It spells this integer.
    Integer(i64),
}

/// The number that a text spells: layout, a minus sign if there is one, and a numeral (6.4.4) up to the end of the text
/// (8.16.7).
pub fn number_in(text: &str) -> NumberText
    ensures { IsNumber (number_in (chars text.now)) result }
{
    let bytes = text.as_bytes();
    match skip_layout(bytes, 0) {
        Ok(start) => signed(behind(bytes, start)),
        Err(_) => NumberText::Illegal,
    }
}

/// The number of some bytes without layout before it.
fn signed(bytes: &[u8]) -> NumberText
    ensures { IsNumber (signed bytes.now) result }
{
    if byte_at(bytes, 0) == b'-' {
        below_zero(whole_numeral(behind(bytes, 1)))
    } else {
        from_zero(whole_numeral(bytes))
    }
}

/// The number of a numeral with this value.
fn from_zero(value: Option<u64>) -> NumberText
    ensures { (o : Option ℕ) → value ≡ saturated_value o → IsNumber (option_map (λ n. pos n) o) result }
{
    match value {
        None => NumberText::Illegal,
        Some(n) => {
            if n < 1 << 63 {
                NumberText::Integer(n as i64)
            } else {
                NumberText::TooLarge
            }
        }
    }
}

/// The number of a minus sign and a numeral with this value.
fn below_zero(value: Option<u64>) -> NumberText
    ensures { (o : Option ℕ) → value ≡ saturated_value o → IsNumber (option_map (λ n. neg_ℤ (pos n)) o) result }
{
    match value {
        None => NumberText::Illegal,
        Some(n) => {
            if n < 1 << 63 {
                NumberText::Integer(-(n as i64))
            } else if n == 1 << 63 {
                NumberText::Integer(i64::MIN)
            } else {
                NumberText::TooLarge
            }
        }
    }
}
