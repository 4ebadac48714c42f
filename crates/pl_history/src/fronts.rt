//! Fronts: the seats of the history.
ghost use Rattle.std.specs.Prelude.{◌≡◌, length};

use crate::board::Known;
use atomic_table::Badge;
use std::marker::Model;

/// A front: a seat of a history, which knows what it has seen of it and which engines it carries. Contracts see the
/// entries seen, and for each engine carried its updates and the generations of its visits; the first engine is the
/// front's own. Nothing of these lists is stored but how many entries were seen.
#[derive(Drop)]
pub struct Front {
    pub(crate) badge: Badge<Known>,
    pub(crate) generation: u64,
}

impl Model for Front {
    ghost use Rattle.std.specs.Prelude.{◌≡◌, [], ◌∷◌, length};
    ghost use Rattle.pl_history.specs.Fronts.{FrontState};
    ghost use Rattle.pl_history.specs.Steps.{front_alone};
    ghost use Rattle.pl_history.specs.Codes.{coded_front};
    ghost use Rattle.pl_history.specs.Seats.{state_of, front_in_badge};

    ghost Value = { FrontState };

    ghost coded = { coded_front };

    ghost view = { λ f. state_of f.badge.table_id (front_in_badge f.badge.views) };

    ghost invariant = { λ f. (f.badge.views ≡ front_alone (front_in_badge f.badge.views) ∷ []) × (f.generation ≡ length (front_in_badge f.badge.views).seen) };
}

impl Front {
    /// How many entries of the history the front has seen.
    pub fn generation(&self) -> u64
        ensures { result ≡ length self.now.seen }
    {
        self.generation
    }
}

/// The hub's front. It has seen the whole history, and carries the engines that no other front carries. It keeps the
/// history's length.
#[derive(Drop)]
pub struct HubFront {
    pub(crate) badge: Badge<Known>,
    pub(crate) generation: u64,
}

impl Model for HubFront {
    ghost use Rattle.std.specs.Prelude.{◌≡◌, [], ◌∷◌, length};
    ghost use Rattle.pl_history.specs.Fronts.{FrontState};
    ghost use Rattle.pl_history.specs.Steps.{hub_alone};
    ghost use Rattle.pl_history.specs.Codes.{coded_front};
    ghost use Rattle.pl_history.specs.Seats.{state_of, hub_in_badge};

    ghost Value = { FrontState };

    ghost coded = { coded_front };

    ghost view = { λ f. state_of f.badge.table_id (hub_in_badge f.badge.views) };

    ghost invariant = { λ f. (f.badge.views ≡ hub_alone (hub_in_badge f.badge.views) ∷ []) × (f.generation ≡ length (hub_in_badge f.badge.views).seen) };
}

impl HubFront {
    /// The generation: the length of the history.
    pub fn generation(&self) -> u64
        ensures { result ≡ length self.now.seen }
    {
        self.generation
    }
}
