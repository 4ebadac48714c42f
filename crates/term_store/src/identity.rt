//! What tells a compound term of a store from the others.
ghost use Rattle.std.specs.Prelude.{◌≡◌};

use crate::views::Arguments;

impl Arguments {
    /// Where the arguments begin. No two compound terms of a store have theirs at one place.
    pub fn start(self) -> usize
        ensures { result ≡ self.start }
    {
        self.start
    }
}
