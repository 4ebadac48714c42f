//! Terms that are stored no longer.
ghost use Rattle.std.specs.Prelude.{◌≡◌, ◌≤◌, ℕ, ◌+◌};
ghost use Rattle.std.specs.List.{sum_by};
ghost use Rattle.pl_term.specs.Tree.{Tree};
ghost use Rattle.atom_words.specs.Seats.{seen};
ghost use Rattle.atom_table.specs.Naming.{names, requests};
ghost use Rattle.counted_terms.specs.CountedTerms.{IsCounted, naming, said};
ghost use Rattle.counted_terms.specs.Keeping.{KeeperAt, keeper_view, kept, tally};

use atom_table::{Keeper, NamesTable, TableAtoms};
use counted_terms::{CountedTerm, forget_by};

/// Counts the atoms of terms that are stored no longer once less for each of them.
pub fn forget_all<K: NamesTable>(
    atoms: &mut TableAtoms<K>,
    keeper: &mut Option<Keeper>,
    terms: &[CountedTerm],
)
    requires keeper { KeeperAt K.atoms K.size keeper.old }
    requires counted { (k : ℕ) → sum_by (naming k) terms.now ≤ tally (keeper_view keeper.old) k }
    ensures keeper { KeeperAt K.atoms K.size keeper.new }
    ensures others { (t : Tree) → IsCounted t (keeper_view keeper.new) → said (kept (keeper_view keeper.new)) t ≡ said (kept (keeper_view keeper.old)) t }
    ensures held { names (seen atoms.new.seat) ≡ names (seen atoms.old.seat) }
    ensures counts { (k : ℕ) → sum_by (naming k) terms.now + tally (keeper_view keeper.new) k ≡ tally (keeper_view keeper.old) k }
    ensures refusals { (seen atoms.new.seat).refusals ≡ (seen atoms.old.seat).refusals }
    ensures requests { requests (seen atoms.new.seat) ≡ requests (seen atoms.old.seat) }
{
    for term in terms {
        forget_by(atoms, keeper, term);
    }
}
