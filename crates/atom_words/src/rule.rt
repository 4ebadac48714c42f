//! The rule of the table, and what every state that it allows keeps.
ghost use Rattle.std.specs.Prelude.{ℕ, List};
ghost use Rattle.atom_words.specs.Board.{Board};
ghost use Rattle.atom_words.specs.Rule.{Reached};
ghost use Rattle.atom_words.specs.Kept.{Kept};
ghost use Rattle.atom_words.specs.Laws.{Unlike, TextStays, Unused, CountsAre, Marked, OneDying};
ghost use Rattle.atom_words.specs.declared.view.View.{View};

use crate::size::Size;
use crate::view::View;
use atomic_table::TableRule;

/// The rule: the state was reached by steps of the kinds.
pub struct AtomRule;

impl TableRule<(), View, Size> for AtomRule {
    ghost use Rattle.atom_words.specs.Rule.{Rule};
    ghost use Rattle.atom_words.specs.Views.{first_view};

    ghost holds = { Rule };

    ghost first = { first_view };
}

/// The theorem of the table: every state that is reached by any list of steps, through any number of seats, keeps the
/// invariants of `specs/Kept.antt`. It does nothing.
#[tactic(auto, using(crate::proofs::Every::every))]
pub fn every_state(size: Size)
    ensures { (n : ℕ) (b : Board) (vs : List View) → Reached n size b vs → Kept size b vs }
{
    let _ = size;
}

/// What that means for the slots, of every state that is reached: two valid slots never hold the same text; a slot that is
/// held, counted or fixed before a step and after it is valid both times and has the same text, whichever seats use it; and
/// no seat uses the slot that a step condemns or frees. The count of a slot is the keeper's; what an engine holds that has
/// acknowledged the cycle at work is marked, or the sweep has passed it; and one slot at most is dying, in a sweep, which begins
/// when all engines have acknowledged. It does nothing.
pub fn slots_are_safe(size: Size)
    ensures unlike { Unlike size }
    ensures text { TextStays size }
    ensures unused { Unused size }
    ensures counts { CountsAre size }
    ensures marked { Marked size }
    ensures dying { OneDying size }
{
    let _ = size;
}
