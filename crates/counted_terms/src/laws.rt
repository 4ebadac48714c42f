//! One map of what is held and what is kept, and what exact counts tell.
ghost use Rattle.std.specs.Prelude.{◌≡◌, IsSome, ℕ, ◌<◌, List, length};
ghost use Rattle.std.specs.List.{All, Contains};
ghost use Rattle.pl_term.specs.Tree.{Tree};
ghost use Rattle.atom_words.specs.Seats.{seen};
ghost use Rattle.atom_table.specs.Naming.{names, Lawful};
ghost use Rattle.counted_terms.specs.Keeping.{HoldsOn, Joins, both, kept, tally};
ghost use Rattle.counted_terms.specs.CountedTerms.{IsCounted, IsExact, said};
ghost use Rattle.world_api.specs.Texts.{text_of};
ghost use Rattle.pl_model.specs.FirstArguments.{are_apart, head_of, unify_apart};
ghost use Rattle.pl_model.specs.Predicates.{is_excluded};
ghost use Rattle.term_store.specs.ArgumentKeys.{clause_key, is_any, key_order};
ghost use Rattle.term_store.specs.NumberedNames.{names_of, unify_by_number};
ghost use Rattle.atom_words.specs.declared.view.View.{View};

use atom_table::{AtomSeat, AtomTable};

/// What the seat holds and what the keeper keeps are one map, in which no two atoms have one text and each text has at
/// most 248 bytes. So terms over atoms that are held, and terms over atoms that are kept, are compared by the numbers of
/// their atoms. It does nothing.
pub fn are_one_map(table: &AtomTable, seat: &AtomSeat)
    requires joins { Joins table.now.words seat.now }
    ensures lawful { Lawful (both (seen seat.now)) }
    ensures held { HoldsOn (names (seen seat.now)) (both (seen seat.now)) }
    ensures kept { HoldsOn (kept (seen seat.now)) (both (seen seat.now)) }
    ensures apart { (x y : ℕ) → text_of (both (seen seat.now)) x ≡ text_of (both (seen seat.now)) y → x ≡ y }
    ensures unify { (t u : Tree) → All (λ a. IsSome (names (seen seat.now) a)) (names_of t) → IsCounted u (seen seat.now) → unify_by_number t u ≡ unify_apart (said (names (seen seat.now)) t) (said (kept (seen seat.now)) u) }
    ensures excluded { (t u : Tree) → All (λ a. IsSome (names (seen seat.now) a)) (names_of t) → IsCounted u (seen seat.now) → are_apart key_order is_any (clause_key t) (clause_key u) ≡ is_excluded (head_of (said (names (seen seat.now)) t)) (head_of (said (kept (seen seat.now)) u)) }
{
    let _ = table;
    let _ = seat;
}

/// Where the keeper counts each atom exactly as often as terms of a list count it, it counts the atoms of each term of
/// the list, and each atom less often than 2^61 - 1 times where there are fewer terms. It does nothing.
pub fn exact_counts_tell()
    ensures counted { (ts : List Tree) (k : View) (t : Tree) → IsExact ts k → Contains ts t → IsCounted t k }
    ensures room { (ts : List Tree) (k : View) → IsExact ts k → length ts < 2305843009213693951 → (a : ℕ) → tally k a < 2305843009213693951 }
{}
