//! Buckets that take no new atom.
ghost use Rattle.std.specs.Prelude.{◌≡◌, ◌<◌, ◌≤◌, ℕ, [], ◌∷◌, Some, IsSome, MatchOption};
ghost use Rattle.atom_words.specs.Layout.{version_of, worn};
ghost use Rattle.atom_words.specs.Board.{head_at};
ghost use Rattle.atom_words.specs.Kinds.{after};
ghost use Rattle.atom_words.specs.Seats.{seen, Fits, Same};
ghost use Rattle.atom_words.specs.declared.view.Walk.{Walk};
ghost use Rattle.atom_words.specs.declared.kind.Kind.TheVariants.{Load, Refuse};
ghost use Rattle.atom_words.specs.declared.view.Refusal.TheVariants.{Worn};

use crate::plays::FindingWorn;
use crate::view::WornWord;
use crate::words::{AtomSeat, Words};

/// The first of the last two versions, at which a bucket is worn.
pub const WORN: u64 = 4_398_046_511_102;

impl Words {
    /// Loads a head, and answers its word exactly where its version is one of the last two. That then stands in the seat's
    /// list of refusals. Versions never fall, so it answers one where a walk over that head began at such a version.
    pub fn find_worn(&self, seat: &mut AtomSeat, head: u32) -> Option<WornWord>
        requires fits { Fits self.now seat.old }
        requires head { head < self.now.size.heads }
        ensures same { Same seat.old seat.new }
        ensures later { (w : Walk) → (seen seat.old).walk ≡ Some w → w.head ≡ head → worn ≤ version_of w.word → IsSome result }
        ensures steps { MatchOption result ((x : ℕ) × (version_of x < worn) × (seen seat.new ≡ after (seen seat.old) (Load (head_at (seen seat.old).size head) x ∷ []))) (λ w. (worn ≤ version_of w.word) × (w.head ≡ head) × (w.start ≡ self.now.size.start) × (seen seat.new ≡ after (seen seat.old) (Refuse (Worn w) ∷ []))) }
    {
        let place = self.head_place(head);
        let word = self.table.shared.load::<FindingWorn>(&mut seat.seat, place);
        if word / 4_194_304 >= WORN {
            Some(WornWord {
                head: head as u64,
                word,
                start: self.size.start,
            })
        } else {
            None
        }
    }
}
