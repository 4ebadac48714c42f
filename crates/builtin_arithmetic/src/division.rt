//! Division (ISO 9.1.3.1, Cor.2).
ghost use Rattle.std.specs.Prelude.{◌≡◌, int_div, int_rem};
ghost use Rattle.pl_model.specs.Evaluables.{divided, floor_div, modulo};
ghost use Rattle.builtin_arithmetic.specs.Division.{turns};

use pl_model::evaluables::OpFault;

/// The quotient rounded toward zero.
pub fn quotient(x: i64, y: i64) -> Result<i64, OpFault>
    ensures { result ≡ divided y (int_div x y) }
{
    if y == 0 {
        return Err(OpFault::ZeroDivisor);
    }
    x.checked_div(y).ok_or(OpFault::IntOverflow)
}

/// What `quotient` leaves, with the dividend's sign.
pub fn remainder(x: i64, y: i64) -> Result<i64, OpFault>
    ensures { result ≡ divided y (int_rem x y) }
{
    if y == 0 {
        return Err(OpFault::ZeroDivisor);
    }
    Ok(x.wrapping_rem(y))
}

/// The quotient rounded downward.
pub fn floor_quotient(x: i64, y: i64) -> Result<i64, OpFault>
    ensures { result ≡ divided y (floor_div x y) }
{
    if y == 0 {
        return Err(OpFault::ZeroDivisor);
    }
    let Some(q) = x.checked_div(y) else {
        return Err(OpFault::IntOverflow);
    };
    if turns(x.wrapping_rem(y), y) {
        Ok(q - 1)
    } else {
        Ok(q)
    }
}

/// What `floor_quotient` leaves, with the divisor's sign.
pub fn modulus(x: i64, y: i64) -> Result<i64, OpFault>
    ensures { result ≡ divided y (modulo x y) }
{
    if y == 0 {
        return Err(OpFault::ZeroDivisor);
    }
    let rest = x.wrapping_rem(y);
    if turns(rest, y) {
        Ok(rest + y)
    } else {
        Ok(rest)
    }
}

/// Whether a rest of a division has another sign than the divisor: the quotient rounded downward is then one less than
/// the one rounded toward zero.
fn turns(rest: i64, y: i64) -> bool
    ensures { result ≡ turns rest y }
{
    rest != 0 && (rest < 0) != (y < 0)
}
