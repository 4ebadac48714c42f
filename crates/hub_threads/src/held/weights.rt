//! Laws: no term that is stored is lost or made, and numbers and places that are counted upwards are new.
ghost use Rattle.std.specs.Prelude.{◌≡◌, ℕ};
ghost use Rattle.hub_threads.specs.Held.{Held, IsSound, opening_held};
ghost use Rattle.hub_threads.specs.Weights.{weigh, IsBelow, KeepsAll, StaysBelow};

/// What a change puts in is stored once more, what it hands out or drops is stored no longer, and each other message,
/// goal and status is stored as often as before.
pub fn terms_are_kept<M: Drop>()
    ensures opening { (w : M → ℕ) → weigh w opening_held ≡ 0 }
    ensures changes { (w : M → ℕ) (h : Held M) → IsSound h → KeepsAll w h }
{}

/// Where all numbers and all places are below two bounds, they are so after each change, where the number that is given
/// and the place of a message that is sent come to be below them.
pub fn numbers_stay_below<M: Drop>()
    ensures opening { IsBelow {M = M} 2 0 opening_held }
    ensures changes { (count g : ℕ) (h : Held M) → IsBelow count g h → StaysBelow count g h }
{}
