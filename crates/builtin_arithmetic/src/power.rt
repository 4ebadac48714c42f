//! The integer power (ISO Cor.2 9.3.10).
ghost use Rattle.std.specs.Prelude.{◌≡◌, ◌+◌, ◌*◌, ◌/◌, ◌%◌, ◌^◌, ◌<◌, pos, ◌<ℤ◌, unsigned_abs, SomeIff};
ghost use Rattle.pl_model.specs.Evaluables.{powered, negative_power};
ghost use Rattle.builtin_arithmetic.specs.Powers.{squared};

use crate::magnitude::signed;
use pl_model::evaluables::OpFault;

/// The power of an integer.
pub fn power(base: i64, exponent: i64) -> Result<i64, OpFault>
    ensures { result ≡ powered base exponent }
{
    if exponent < 0 {
        return reciprocal(base, exponent);
    }
    let exponent = exponent as u64;
    match natural_power(base.unsigned_abs(), exponent) {
        Some(magnitude) => signed(base < 0 && exponent % 2 == 1, magnitude),
        None => Err(OpFault::IntOverflow),
    }
}

/// The power with a negative exponent.
fn reciprocal(base: i64, exponent: i64) -> Result<i64, OpFault>
    requires { exponent <ℤ pos 0 }
    ensures { result ≡ negative_power base (unsigned_abs exponent) }
{
    if base == 1 {
        return Ok(1);
    }
    if base == -1 {
        return Ok(if exponent.unsigned_abs() % 2 == 0 {
            1
        } else {
            -1
        });
    }
    if base == 0 {
        return Err(OpFault::Undefined);
    }
    Err(OpFault::NeedsFloat { base })
}

/// The power of a natural number, where it is below 2^64. It is made by squaring, one bit of the exponent after the
/// other from the highest one on.
fn natural_power(base: u64, exponent: u64) -> Option<u64>
    ensures { SomeIff result (base ^ exponent < 2 ^ 64) (base ^ exponent) }
{
    if base == 0 {
        return Some(u64::from(exponent == 0));
    }
    let mut power: u64 = 1;
    for bit in (0..64u32).rev() {
        power = next_power(power, base, (exponent >> bit) % 2 == 1)?;
    }
    Some(power)
}

/// The square of a power of the base, times the base once more where the flag says so, where that is below 2^64.
fn next_power(power: u64, base: u64, odd: bool) -> Option<u64>
    requires { 0 < base }
    ensures { SomeIff result (squared power base odd < 2 ^ 64) (squared power base odd) }
{
    let square = power.checked_mul(power)?;
    if odd {
        square.checked_mul(base)
    } else {
        Some(square)
    }
}
