//! Seats are made, joined and split.
ghost use Rattle.std.specs.Prelude.{◌≡◌, ◌<◌, false, [], ◌∷◌};
ghost use Rattle.atom_words.specs.Views.{newcomer, with_keeper, without_keeper, keeper_of, without_collector, collector_of, with_one_dealt, engine_of};
ghost use Rattle.atom_words.specs.Seats.{seen, Fits, Same, AtTable};

use crate::plays::{Dealing, PartingCollector, PartingKeeper, Seating, WithKeeper};
use crate::view::View;
use crate::words::{AtomSeat, Words};
use atomic_table::Seat;

// A seat with nothing at hand.
fn idle(seat: Seat<(), View>, engine: u64) -> AtomSeat
    requires slotless { seat.me.1 ≡ [] }
    requires numbered { seat.me.0.cycle.engine ≡ engine }
    requires unacknowledged { seat.me.0.cycle.acked ≡ 0 }
    requires idle { (seat.me.0.own ≡ None) × (seat.me.0.walk ≡ None) × (seat.me.0.pass ≡ None) }
    requires room { (0 < seat.me.0.size.slots) × (0 < seat.me.0.size.heads) }
    ensures { result.seat ≡ seat }
{
    AtomSeat {
        seat,
        engine,
        acked: 0,
        own: 0,
        head: 0,
        word: 0,
        began: 0,
        first: 0,
        counted: 0,
    }
}

impl Words {
    /// A new seat, which knows nothing.
    pub fn make(&self) -> AtomSeat
        ensures { AtTable self.now result × (seen result ≡ newcomer self.now.size) }
    {
        let (_, seat) = self.table.shared.load_new_seat::<Seating>(0);
        idle(seat, 0)
    }

    /// The seat takes in the keeper's.
    pub fn with_keeper(&self, seat: &mut AtomSeat, keeper: AtomSeat)
        requires fits { Fits self.now seat.old }
        requires keeper { Fits self.now keeper }
        ensures same { Same seat.old seat.new }
        ensures both { seen seat.new ≡ with_keeper (seen seat.old) (seen keeper) }
    {
        self.table
            .shared
            .join_seat::<WithKeeper>(&mut seat.seat, keeper.seat);
    }

    /// The keeper's seat is cut off, with its counts.
    pub fn part_keeper(&self, seat: &mut AtomSeat) -> AtomSeat
        requires fits { Fits self.now seat.old }
        ensures same { Same seat.old seat.new }
        ensures left { seen seat.new ≡ without_keeper (seen seat.old) }
        ensures right { AtTable self.now result × (seen result ≡ keeper_of (seen seat.old)) }
    {
        idle(
            self.table
                .shared
                .split_seat::<PartingKeeper>(&mut seat.seat),
            0,
        )
    }

    /// The collector's seat is cut off.
    pub fn part_collector(&self, seat: &mut AtomSeat) -> AtomSeat
        requires fits { Fits self.now seat.old }
        ensures same { Same seat.old seat.new }
        ensures left { seen seat.new ≡ without_collector (seen seat.old) }
        ensures right { AtTable self.now result × (seen result ≡ collector_of (seen seat.old)) }
    {
        idle(
            self.table
                .shared
                .split_seat::<PartingCollector>(&mut seat.seat),
            0,
        )
    }

    /// The seat of the engine with that number is cut off, which is how many had no seat yet. The seat that it is cut off
    /// from holds no slot.
    pub fn split_engine_seat(&self, seat: &mut AtomSeat, engine: u64) -> AtomSeat
        requires fits { Fits self.now seat.old }
        requires engine { ((seen seat.old).undealt ≡ engine) × (0 < engine) }
        requires none { (seen seat.old).held ≡ [] }
        ensures same { Same seat.old seat.new }
        ensures left { seen seat.new ≡ with_one_dealt (seen seat.old) }
        ensures right { AtTable self.now result × (seen result ≡ engine_of (seen seat.old)) }
    {
        idle(
            self.table.shared.split_seat::<Dealing>(&mut seat.seat),
            engine,
        )
    }
}
