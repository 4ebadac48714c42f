//! Atoms: the numbers of slots.
ghost use Rattle.std.specs.Prelude.{◌≡◌};

use std::marker::Model;

/// An atom: the number of the slot in which its text stands, which is what contracts see.
#[derive(Clone, Copy, Debug, PartialEq, Eq, PartialOrd, Ord, Hash, Drop)]
pub struct Atom {
    pub(crate) slot: u32,
}

impl Model for Atom {
    ghost use Rattle.std.specs.Prelude.{ℕ};

    ghost Value = { ℕ };

    ghost view = { λ a. a.slot };

    ghost inverse = { λ n. record { slot = n } };
}

impl Atom {
    /// The atom of that slot.
    pub fn at(slot: u32) -> Atom
        ensures { result ≡ slot }
    {
        Atom { slot }
    }

    /// The slot's number.
    pub fn slot(self) -> u32
        ensures { result ≡ self }
    {
        self.slot
    }
}
