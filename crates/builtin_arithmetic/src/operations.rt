//! The operations of the evaluable functors. None of them takes memory.
ghost use Rattle.std.specs.Prelude.{◌≡◌};
ghost use Rattle.pl_model.specs.Evaluables.{applied1, applied2};

use crate::bits::{shift_left, shift_right};
use crate::division::{floor_quotient, modulus, quotient, remainder};
use crate::power::power;
use pl_model::evaluables::{Op1, Op2, OpFault};

/// The value of an evaluable functor of one argument, or why there is none (ISO 9.1.1, 9.4.5). It takes no memory.
pub fn apply1(op: Op1, x: i64) -> Result<i64, OpFault>
    ensures { result ≡ applied1 op x }
{
    match op {
        Op1::Negate => x.checked_neg().ok_or(OpFault::IntOverflow),
        Op1::Plus => Ok(x),
        Op1::Absolute => x.checked_abs().ok_or(OpFault::IntOverflow),
        Op1::Sign => Ok(x.signum()),
        Op1::Complement => Ok(!x),
    }
}

/// The value of an evaluable functor of two arguments, or why there is none (ISO 9.1.1, 9.3.1, 9.4, Cor.2 9.3.8 to
/// 9.3.10). It takes no memory.
pub fn apply2(op: Op2, x: i64, y: i64) -> Result<i64, OpFault>
    ensures { result ≡ applied2 op x y }
{
    match op {
        Op2::Add => x.checked_add(y).ok_or(OpFault::IntOverflow),
        Op2::Subtract => x.checked_sub(y).ok_or(OpFault::IntOverflow),
        Op2::Multiply => x.checked_mul(y).ok_or(OpFault::IntOverflow),
        Op2::Minimum => Ok(x.min(y)),
        Op2::Maximum => Ok(x.max(y)),
        Op2::Quotient => quotient(x, y),
        Op2::Rem => remainder(x, y),
        Op2::Div => floor_quotient(x, y),
        Op2::Mod => modulus(x, y),
        Op2::BitAnd => Ok(x & y),
        Op2::BitOr => Ok(x | y),
        Op2::ShiftLeft => shift_left(x, y),
        Op2::ShiftRight => shift_right(x, y),
        Op2::Power => power(x, y),
        Op2::IntegerPower => power(x, y),
    }
}
