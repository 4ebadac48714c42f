//! A number from its sign and its magnitude.
ghost use Rattle.std.specs.Prelude.{◌≡◌};
ghost use Rattle.pl_model.specs.Evaluables.{in_range};
ghost use Rattle.builtin_arithmetic.specs.Magnitude.{number};

use pl_model::evaluables::OpFault;

/// The number with this magnitude, negative where the flag says so. It is an overflow where it has no 64 bits.
pub fn signed(negative: bool, magnitude: u64) -> Result<i64, OpFault>
    ensures { result ≡ in_range (number negative magnitude) }
{
    if magnitude < 0x8000_0000_0000_0000 {
        let n = magnitude as i64;
        return Ok(if negative { -n } else { n });
    }
    if negative && magnitude == 0x8000_0000_0000_0000 {
        return Ok(i64::MIN);
    }
    Err(OpFault::IntOverflow)
}
