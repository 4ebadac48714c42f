//! The numbers that clauses have in database order.
ghost use Rattle.std.specs.Prelude.{◌≡◌, ◌+◌, ◌^◌, ◌<◌};
ghost use Rattle.gen_core.specs.Numbers.{first_number, last_number, place_of};

/// The places of updates are below this.
pub const PLACES: u64 = 0x2_0000_0000_0000;

/// The number of a clause that the update at this place added as the first one: below those of all earlier clauses.
pub fn first_number(place: u64) -> u64
    requires { place < 2 ^ 49 }
    ensures number { result ≡ first_number place }
    ensures bound { result < 2 ^ 49 }
{
    PLACES - 1 - place
}

/// The number of a clause that the update at this place added as the last one: above those of all earlier clauses.
pub fn last_number(place: u64) -> u64
    requires { place < 2 ^ 49 }
    ensures number { result ≡ last_number place }
    ensures bound { result < 2 ^ 50 }
{
    PLACES + place
}

/// The place of the update that added the clause on the number.
pub fn place_of(number: u64) -> u64
    ensures { result ≡ place_of number }
{
    if number < PLACES {
        PLACES - 1 - number
    } else {
        number - PLACES
    }
}
