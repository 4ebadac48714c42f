//! Terms are counted as they are stored, handed out to be read, and counted no longer as they are forgotten.
ghost use Rattle.std.specs.Prelude.{◌≡◌, ◌≤◌, ℕ, ◌+◌, ◌<◌, List, ◌∷◌, IsSome, IfOk};
ghost use Rattle.std.specs.List.{All};
ghost use Rattle.pl_term.specs.Tree.{Tree};
ghost use Rattle.atom_words.specs.Kinds.{Sitting};
ghost use Rattle.atom_words.specs.Seats.{seen, Same};
ghost use Rattle.atom_table.specs.Holding.{Sits};
ghost use Rattle.atom_table.specs.Naming.{names};
ghost use Rattle.atom_table.specs.Opening.{fixed_slots};
ghost use Rattle.term_store.specs.NumberedNames.{names_of};
ghost use Rattle.counted_terms.specs.Keeping.{HoldsOn, KeeperIn, Stays, keeper_view, kept, tally};
ghost use Rattle.counted_terms.specs.CountedTerms.{IsCounted, IsExact, SaysOn, naming, said};

use crate::keeping::{fetch_kept, register_kept, unregister_kept};
use crate::term::CountedTerm;
use atom_table::{AtomSeat, AtomTable, Keeper};
use pl_term::Memory;
use term_store::Stored;

/// Hands out a stored term, whose atoms the keeper counts: the seat holds them from then on, and the term says by the
/// texts that the seat holds what it says by those that the keeper keeps. The only error is that so many hold the term
/// that they can no longer be counted.
pub fn lend(
    table: &AtomTable,
    keeper: &mut Option<Keeper>,
    seat: &mut AtomSeat,
    term: &CountedTerm,
) -> Result<Stored, Memory>
    requires keeper { KeeperIn table.now.words keeper.old }
    requires seat { Sits table.now.words seat.old × ((seen seat.old).fixed ≡ fixed_slots) }
    requires sitting { Sitting (seen seat.old) }
    requires counted { IsCounted term.now (keeper_view keeper.old) }
    ensures keeper { KeeperIn table.now.words keeper.new }
    ensures seat { Sits table.now.words seat.new × ((seen seat.new).fixed ≡ fixed_slots) }
    ensures same { Same seat.old seat.new }
    ensures term { IfOk result (λ s. s ≡ term.now) }
    ensures named { IfOk result (λ s. All (λ a. IsSome (names (seen seat.new) a)) (names_of s)) }
    ensures says { IfOk result (λ s. said (names (seen seat.new)) s ≡ said (kept (keeper_view keeper.old)) term.now) }
    ensures holds { HoldsOn (names (seen seat.old)) (names (seen seat.new)) }
    ensures keeps { kept (keeper_view keeper.new) ≡ kept (keeper_view keeper.old) }
    ensures counts { (k : ℕ) → tally (keeper_view keeper.new) k ≡ tally (keeper_view keeper.old) k }
    ensures stays { Stays (seen seat.old) (seen seat.new) }
{
    let shared = term.term().share()?;
    fetch_kept(table, keeper, seat, term.atoms());
    Ok(shared)
}

/// Holds the atoms of a stored term, which the keeper counts: the term says by the texts that the seat holds what it says
/// by those that the keeper keeps.
pub fn hold(table: &AtomTable, keeper: &mut Option<Keeper>, seat: &mut AtomSeat, term: &CountedTerm)
    requires keeper { KeeperIn table.now.words keeper.old }
    requires seat { Sits table.now.words seat.old × ((seen seat.old).fixed ≡ fixed_slots) }
    requires sitting { Sitting (seen seat.old) }
    requires counted { IsCounted term.now (keeper_view keeper.old) }
    ensures keeper { KeeperIn table.now.words keeper.new }
    ensures seat { Sits table.now.words seat.new × ((seen seat.new).fixed ≡ fixed_slots) }
    ensures same { Same seat.old seat.new }
    ensures named { All (λ a. IsSome (names (seen seat.new) a)) (names_of term.now) }
    ensures says { said (names (seen seat.new)) term.now ≡ said (kept (keeper_view keeper.old)) term.now }
    ensures holds { HoldsOn (names (seen seat.old)) (names (seen seat.new)) }
    ensures keeps { kept (keeper_view keeper.new) ≡ kept (keeper_view keeper.old) }
    ensures counts { (k : ℕ) → tally (keeper_view keeper.new) k ≡ tally (keeper_view keeper.old) k }
    ensures stays { Stays (seen seat.old) (seen seat.new) }
{
    let listed = term.atoms();
    fetch_kept(table, keeper, seat, listed);
}

/// Counts the atoms of a term that is stored, all of which the seat holds: by the texts that the keeper keeps the term
/// says from then on what it says by those that the seat holds, and each term whose atoms were counted says what it said.
/// Each atom is counted less than 2^61 - 1 times before.
pub fn store(
    table: &AtomTable,
    keeper: &mut Option<Keeper>,
    seat: &mut AtomSeat,
    term: &CountedTerm,
)
    requires keeper { KeeperIn table.now.words keeper.old }
    requires seat { Sits table.now.words seat.old × ((seen seat.old).fixed ≡ fixed_slots) }
    requires held { All (λ a. IsSome (names (seen seat.old) a)) (names_of term.now) }
    requires room { (k : ℕ) → tally (keeper_view keeper.old) k < 2305843009213693951 }
    ensures keeper { KeeperIn table.now.words keeper.new }
    ensures seat { Sits table.now.words seat.new × ((seen seat.new).fixed ≡ fixed_slots) }
    ensures same { Same seat.old seat.new }
    ensures says { said (kept (keeper_view keeper.new)) term.now ≡ said (names (seen seat.old)) term.now }
    ensures others { (t : Tree) → IsCounted t (keeper_view keeper.old) → said (kept (keeper_view keeper.new)) t ≡ said (kept (keeper_view keeper.old)) t }
    ensures held { names (seen seat.new) ≡ names (seen seat.old) }
    ensures counts { (k : ℕ) → tally (keeper_view keeper.new) k ≡ naming k term.now + tally (keeper_view keeper.old) k }
    ensures exact { (ts : List Tree) → IsExact ts (keeper_view keeper.old) → IsExact (term.now ∷ ts) (keeper_view keeper.new) × SaysOn ts (keeper_view keeper.old) (keeper_view keeper.new) }
    ensures stays { Stays (seen seat.old) (seen seat.new) }
{
    register_kept(table, keeper, seat, term.atoms());
}

/// Counts the atoms of a term that is stored no longer once less. Each term whose atoms are counted still says what it
/// said.
pub fn forget(
    table: &AtomTable,
    keeper: &mut Option<Keeper>,
    seat: &mut AtomSeat,
    term: &CountedTerm,
)
    requires keeper { KeeperIn table.now.words keeper.old }
    requires seat { Sits table.now.words seat.old × ((seen seat.old).fixed ≡ fixed_slots) }
    requires counted { (k : ℕ) → naming k term.now ≤ tally (keeper_view keeper.old) k }
    ensures keeper { KeeperIn table.now.words keeper.new }
    ensures seat { Sits table.now.words seat.new × ((seen seat.new).fixed ≡ fixed_slots) }
    ensures same { Same seat.old seat.new }
    ensures others { (t : Tree) → IsCounted t (keeper_view keeper.new) → said (kept (keeper_view keeper.new)) t ≡ said (kept (keeper_view keeper.old)) t }
    ensures held { names (seen seat.new) ≡ names (seen seat.old) }
    ensures counts { (k : ℕ) → naming k term.now + tally (keeper_view keeper.new) k ≡ tally (keeper_view keeper.old) k }
    ensures exact { (ts : List Tree) → IsExact (term.now ∷ ts) (keeper_view keeper.old) → IsExact ts (keeper_view keeper.new) × SaysOn ts (keeper_view keeper.old) (keeper_view keeper.new) }
    ensures stays { Stays (seen seat.old) (seen seat.new) }
{
    unregister_kept(table, keeper, seat, term.atoms());
}
