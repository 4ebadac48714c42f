//! What whole cycles leave.
ghost use Rattle.bucket_rows.specs.TwoCycles.{Exact, Passes};

use atom_words::Size;

/// The law of two cycles. Take any list of steps from a state in which no cycle is at work and no slot is reserved to one two
/// epochs later, in which no cycle is at work. In it no slot is reserved, fetched or counted, each mark is set by a scan, and
/// the sweep passes no slot from 256 on that is valid, without mark and count. Then a slot from 256 on is valid exactly where
/// it is counted, or was scanned in the second of the two epochs; and each of the first 256 has the state that it had.
///
/// A pass that comes right after a look or a load of the slot's word that found it not so, or after the slot was freed, is
/// such a pass (`passes`): so are those of `sweep_slot`, where it does not answer `Worn`. It does nothing.
pub fn two_cycles(size: Size)
    ensures exact { Exact size }
    ensures passes { Passes size }
{
    let _ = size;
}
