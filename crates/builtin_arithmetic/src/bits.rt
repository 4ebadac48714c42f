//! Shifts (ISO 9.4.1, 9.4.2).
ghost use Rattle.std.specs.Prelude.{◌≡◌, ◌^◌, pos, ◌*ℤ◌};
ghost use Rattle.pl_model.specs.Evaluables.{shifted, floor_div};

use crate::magnitude::signed;
use pl_model::evaluables::OpFault;

/// The number times 2 to the power of the number of places.
pub fn shift_left(x: i64, places: i64) -> Result<i64, OpFault>
    ensures { result ≡ shifted (λ n. x *ℤ pos (2 ^ n)) places }
{
    if places < 0 || 63 < places {
        return Err(OpFault::Undefined);
    }
    match x.unsigned_abs().checked_mul(1 << places as u32) {
        Some(magnitude) => signed(x < 0, magnitude),
        None => Err(OpFault::IntOverflow),
    }
}

/// The number divided by 2 to the power of the number of places, rounded downward.
pub fn shift_right(x: i64, places: i64) -> Result<i64, OpFault>
    ensures { result ≡ shifted (λ n. floor_div x (pos (2 ^ n))) places }
{
    if places < 0 || 63 < places {
        return Err(OpFault::Undefined);
    }
    Ok(x >> places as u32)
}
