//! The words of a table, and the seats that step on them.
ghost use Rattle.std.specs.Prelude.{◌≡◌, ◌<◌, ◌≤◌, []};
ghost use Rattle.atom_words.specs.Board.{word_count};
ghost use Rattle.atom_words.specs.Opening.{Allowed};
ghost use Rattle.atom_words.specs.Ties.{OwnTied, WalkTied, PassTied};

use crate::rule::AtomRule;
use crate::size::Size;
use crate::view::View;
use atomic_table::{Seat, Table};
use std::alloc::Global;

/// The words of an atom table. A crate above makes steps of its own over `table`, which the rule holds to the kinds.
#[derive(Drop)]
pub struct Words {
    pub table: Table<(), View, Size, AtomRule, Global>,
    pub size: Size,
    pub ghost keyed: { table.shared.key ≡ size },
    pub ghost counted: { table.shared.table_id.words ≡ word_count size },
    pub ghost allowed: { Allowed size },
}

/// A seat at an atom table: its view, which has no bytes, and what of the view is needed at run time.
#[derive(Drop)]
pub struct AtomSeat {
    pub seat: Seat<(), View>,
    /// The engine's number, from 1, or 0.
    pub engine: u64,
    /// The last epoch that the engine acknowledged.
    pub acked: u64,
    /// The slot that the seat has reserved, where it has one.
    pub own: u32,
    /// The head of the walk at hand, where there is one.
    pub head: u32,
    /// That head's word as the walk found it.
    pub word: u64,
    /// The epoch word as the pass at hand began, where there is one.
    pub began: u64,
    /// The slot that the pass counted first.
    pub first: u32,
    /// How many slots the pass has counted.
    pub counted: u32,
    pub ghost slotless: { seat.me.1 ≡ [] },
    pub ghost numbered: { seat.me.0.cycle.engine ≡ engine },
    pub ghost acknowledged: { seat.me.0.cycle.acked ≡ acked },
    pub ghost owns: { OwnTied seat.me.0 own },
    pub ghost walks: { WalkTied seat.me.0 head word },
    pub ghost passes: { PassTied seat.me.0 began first counted },
}
