//! The evaluable functors by the atoms that are their names (ISO 9.1, 9.3, 9.4).
ghost use Rattle.std.specs.Prelude.{◌≡◌};
ghost use Rattle.builtin_arithmetic.specs.Tables.{found, numbers1, numbers2};

use atom_api::{Atom, fixed};
use pl_model::evaluables::{Op1, Op2};

/// The evaluable functor of one argument with this name.
pub fn unary(name: Atom) -> Option<Op1>
    ensures { result ≡ found name numbers1 }
{
    if name == fixed::MINUS {
        Some(Op1::Negate)
    } else if name == fixed::PLUS {
        Some(Op1::Plus)
    } else if name == fixed::ABS {
        Some(Op1::Absolute)
    } else if name == fixed::SIGN {
        Some(Op1::Sign)
    } else if name == fixed::COMPLEMENT {
        Some(Op1::Complement)
    } else {
        None
    }
}

/// The evaluable functor of two arguments with this name.
pub fn binary(name: Atom) -> Option<Op2>
    ensures { result ≡ found name numbers2 }
{
    if name == fixed::PLUS {
        Some(Op2::Add)
    } else if name == fixed::MINUS {
        Some(Op2::Subtract)
    } else if name == fixed::TIMES {
        Some(Op2::Multiply)
    } else if name == fixed::MIN {
        Some(Op2::Minimum)
    } else if name == fixed::MAX {
        Some(Op2::Maximum)
    } else if name == fixed::INTEGER_DIVISION {
        Some(Op2::Quotient)
    } else if name == fixed::REM {
        Some(Op2::Rem)
    } else if name == fixed::DIV {
        Some(Op2::Div)
    } else if name == fixed::MOD {
        Some(Op2::Mod)
    } else if name == fixed::BIT_AND {
        Some(Op2::BitAnd)
    } else if name == fixed::BIT_OR {
        Some(Op2::BitOr)
    } else if name == fixed::SHIFT_LEFT {
        Some(Op2::ShiftLeft)
    } else if name == fixed::SHIFT_RIGHT {
        Some(Op2::ShiftRight)
    } else if name == fixed::POWER {
        Some(Op2::Power)
    } else if name == fixed::CARET {
        Some(Op2::IntegerPower)
    } else {
        None
    }
}
