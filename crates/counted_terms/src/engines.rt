//! The same calls over the atoms of an engine, which stay atoms of their table.
ghost use Rattle.std.specs.Prelude.{◌≡◌, ◌≤◌, ℕ, ◌+◌, ◌<◌, List, ◌∷◌, IsSome, IfOk};
ghost use Rattle.std.specs.List.{All};
ghost use Rattle.pl_term.specs.Tree.{Tree};
ghost use Rattle.atom_words.specs.Seats.{seen};
ghost use Rattle.atom_table.specs.Naming.{names, requests};
ghost use Rattle.term_store.specs.NumberedNames.{names_of};
ghost use Rattle.counted_terms.specs.Keeping.{HoldsOn, KeeperAt, keeper_view, kept, tally};
ghost use Rattle.counted_terms.specs.Agreements.{Agreed};
ghost use Rattle.counted_terms.specs.CountedTerms.{IsCounted, IsExact, SaysOn, naming, said};

use crate::keeping::agree_kept;
use crate::storing::{forget, hold, lend, store};
use crate::term::CountedTerm;
use atom_table::{Keeper, NamesTable, TableAtoms};
use pl_term::Memory;
use term_store::Stored;

/// Shows, by one load, that what the engine holds and what the keeper keeps agree: terms of the one and stored terms are
/// then compared by the numbers of their atoms. Nothing else is done.
pub fn agree<K: NamesTable>(atoms: &mut TableAtoms<K>, keeper: &mut Option<Keeper>)
    requires keeper { KeeperAt K.atoms K.size keeper.old }
    ensures keeper { KeeperAt K.atoms K.size keeper.new }
    ensures agreed { Agreed (seen atoms.old.seat) (keeper_view keeper.old) }
    ensures held { names (seen atoms.new.seat) ≡ names (seen atoms.old.seat) }
    ensures keeps { kept (keeper_view keeper.new) ≡ kept (keeper_view keeper.old) }
    ensures counts { tally (keeper_view keeper.new) ≡ tally (keeper_view keeper.old) }
    ensures refusals { (seen atoms.new.seat).refusals ≡ (seen atoms.old.seat).refusals }
    ensures requests { requests (seen atoms.new.seat) ≡ requests (seen atoms.old.seat) }
{
    agree_kept(atoms.table, keeper, &mut atoms.seat);
}

/// Hands out a stored term, whose atoms the keeper counts, to an engine: its atoms hold the term's from then on, and the
/// term says by their texts what it says by those that the keeper keeps. The only error is that so many hold the term
/// that they can no longer be counted.
pub fn lend_to<K: NamesTable>(
    atoms: &mut TableAtoms<K>,
    keeper: &mut Option<Keeper>,
    term: &CountedTerm,
) -> Result<Stored, Memory>
    requires keeper { KeeperAt K.atoms K.size keeper.old }
    requires counted { IsCounted term.now (keeper_view keeper.old) }
    ensures keeper { KeeperAt K.atoms K.size keeper.new }
    ensures term { IfOk result (λ s. s ≡ term.now) }
    ensures named { IfOk result (λ s. All (λ a. IsSome (names (seen atoms.new.seat) a)) (names_of s)) }
    ensures says { IfOk result (λ s. said (names (seen atoms.new.seat)) s ≡ said (kept (keeper_view keeper.old)) term.now) }
    ensures holds { HoldsOn (names (seen atoms.old.seat)) (names (seen atoms.new.seat)) }
    ensures keeps { kept (keeper_view keeper.new) ≡ kept (keeper_view keeper.old) }
    ensures counts { (k : ℕ) → tally (keeper_view keeper.new) k ≡ tally (keeper_view keeper.old) k }
    ensures refusals { (seen atoms.new.seat).refusals ≡ (seen atoms.old.seat).refusals }
    ensures requests { requests (seen atoms.new.seat) ≡ requests (seen atoms.old.seat) }
{
    lend(atoms.table, keeper, &mut atoms.seat, term)
}

/// Counts the atoms of a term that is stored, all of which the engine holds: by the texts that the keeper keeps the term
/// says from then on what it says by the engine's, and each term whose atoms were counted says what it said. Each atom is
/// counted less than 2^61 - 1 times before.
pub fn store_from<K: NamesTable>(
    atoms: &mut TableAtoms<K>,
    keeper: &mut Option<Keeper>,
    term: &CountedTerm,
)
    requires keeper { KeeperAt K.atoms K.size keeper.old }
    requires held { All (λ a. IsSome (names (seen atoms.old.seat) a)) (names_of term.now) }
    requires room { (k : ℕ) → tally (keeper_view keeper.old) k < 2305843009213693951 }
    ensures keeper { KeeperAt K.atoms K.size keeper.new }
    ensures says { said (kept (keeper_view keeper.new)) term.now ≡ said (names (seen atoms.old.seat)) term.now }
    ensures others { (t : Tree) → IsCounted t (keeper_view keeper.old) → said (kept (keeper_view keeper.new)) t ≡ said (kept (keeper_view keeper.old)) t }
    ensures held { names (seen atoms.new.seat) ≡ names (seen atoms.old.seat) }
    ensures counts { (k : ℕ) → tally (keeper_view keeper.new) k ≡ naming k term.now + tally (keeper_view keeper.old) k }
    ensures exact { (ts : List Tree) → IsExact ts (keeper_view keeper.old) → IsExact (term.now ∷ ts) (keeper_view keeper.new) × SaysOn ts (keeper_view keeper.old) (keeper_view keeper.new) }
    ensures refusals { (seen atoms.new.seat).refusals ≡ (seen atoms.old.seat).refusals }
    ensures requests { requests (seen atoms.new.seat) ≡ requests (seen atoms.old.seat) }
{
    store(atoms.table, keeper, &mut atoms.seat, term);
}

/// Counts the atoms of a term that is stored no longer once less. Each term whose atoms are counted still says what it
/// said.
pub fn forget_by<K: NamesTable>(
    atoms: &mut TableAtoms<K>,
    keeper: &mut Option<Keeper>,
    term: &CountedTerm,
)
    requires keeper { KeeperAt K.atoms K.size keeper.old }
    requires counted { (k : ℕ) → naming k term.now ≤ tally (keeper_view keeper.old) k }
    ensures keeper { KeeperAt K.atoms K.size keeper.new }
    ensures others { (t : Tree) → IsCounted t (keeper_view keeper.new) → said (kept (keeper_view keeper.new)) t ≡ said (kept (keeper_view keeper.old)) t }
    ensures held { names (seen atoms.new.seat) ≡ names (seen atoms.old.seat) }
    ensures counts { (k : ℕ) → naming k term.now + tally (keeper_view keeper.new) k ≡ tally (keeper_view keeper.old) k }
    ensures exact { (ts : List Tree) → IsExact (term.now ∷ ts) (keeper_view keeper.old) → IsExact ts (keeper_view keeper.new) × SaysOn ts (keeper_view keeper.old) (keeper_view keeper.new) }
    ensures refusals { (seen atoms.new.seat).refusals ≡ (seen atoms.old.seat).refusals }
    ensures requests { requests (seen atoms.new.seat) ≡ requests (seen atoms.old.seat) }
{
    forget(atoms.table, keeper, &mut atoms.seat, term);
}

/// Holds the atoms of a stored term, which the keeper counts: the term says by the engine's texts what it says by those that
/// the keeper keeps.
pub fn hold_by<K: NamesTable>(
    atoms: &mut TableAtoms<K>,
    keeper: &mut Option<Keeper>,
    term: &CountedTerm,
)
    requires keeper { KeeperAt K.atoms K.size keeper.old }
    requires counted { IsCounted term.now (keeper_view keeper.old) }
    ensures keeper { KeeperAt K.atoms K.size keeper.new }
    ensures named { All (λ a. IsSome (names (seen atoms.new.seat) a)) (names_of term.now) }
    ensures says { said (names (seen atoms.new.seat)) term.now ≡ said (kept (keeper_view keeper.old)) term.now }
    ensures holds { HoldsOn (names (seen atoms.old.seat)) (names (seen atoms.new.seat)) }
    ensures keeps { kept (keeper_view keeper.new) ≡ kept (keeper_view keeper.old) }
    ensures counts { (k : ℕ) → tally (keeper_view keeper.new) k ≡ tally (keeper_view keeper.old) k }
    ensures refusals { (seen atoms.new.seat).refusals ≡ (seen atoms.old.seat).refusals }
    ensures requests { requests (seen atoms.new.seat) ≡ requests (seen atoms.old.seat) }
{
    hold(atoms.table, keeper, &mut atoms.seat, term);
}

/// Hands over a stored term that is stored no longer, and whose atoms the keeper counts: the engine holds its atoms from then
/// on, which are counted once less each. Each term whose atoms are counted still says what it said. It takes no memory, and
/// there is no error.
pub fn hand_over<K: NamesTable>(
    atoms: &mut TableAtoms<K>,
    keeper: &mut Option<Keeper>,
    term: CountedTerm,
) -> Stored
    requires keeper { KeeperAt K.atoms K.size keeper.old }
    requires counted { IsCounted term (keeper_view keeper.old) }
    ensures keeper { KeeperAt K.atoms K.size keeper.new }
    ensures term { result ≡ term }
    ensures named { All (λ a. IsSome (names (seen atoms.new.seat) a)) (names_of result) }
    ensures says { said (names (seen atoms.new.seat)) result ≡ said (kept (keeper_view keeper.old)) term }
    ensures holds { HoldsOn (names (seen atoms.old.seat)) (names (seen atoms.new.seat)) }
    ensures others { (t : Tree) → IsCounted t (keeper_view keeper.new) → said (kept (keeper_view keeper.new)) t ≡ said (kept (keeper_view keeper.old)) t }
    ensures counts { (k : ℕ) → naming k term + tally (keeper_view keeper.new) k ≡ tally (keeper_view keeper.old) k }
    ensures refusals { (seen atoms.new.seat).refusals ≡ (seen atoms.old.seat).refusals }
    ensures requests { requests (seen atoms.new.seat) ≡ requests (seen atoms.old.seat) }
{
    hold_by(atoms, keeper, &term);
    forget_by(atoms, keeper, &term);
    term.into_term()
}
