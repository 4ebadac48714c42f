//! Erased clauses are reclaimed: they are dropped, and their atoms counted no longer.
ghost use Rattle.std.specs.Prelude.{◌≡◌, ◌≤◌, ◌<◌, ◌+◌, ℕ, OnOk, OnErr, length, max};
ghost use Rattle.std.specs.List.{sum_by};
ghost use Rattle.pl_term.specs.Tree.{Tree};
ghost use Rattle.pl_model.specs.History as entries;
ghost use Rattle.clause_db.specs.Reclaimed.{reclaimed_held};
ghost use Rattle.atom_words.specs.Seats.{seen};
ghost use Rattle.atom_table.specs.Naming.{names};
ghost use Rattle.counted_terms.specs.CountedTerms.{IsCounted, naming, said};
ghost use Rattle.counted_terms.specs.Keeping.{KeeperAt, keeper_view, kept, tally};
ghost use Rattle.counted_terms.specs.Sharing.{Counts, Restored};
ghost use Rattle.hub_database.specs.Database.{IsDatabase, IsUpTo, clause_counts};
ghost use Rattle.hub_database.specs.Rows.{IsQuiet};

use atom_table::{Keeper, NamesTable, TableAtoms};
use clause_db::{Db, Drops};
use counted_terms::{CountedTerm, forget_by};
use pl_term::Memory;

/// Drops the clauses of the procedure at the index that one of the first `floor` updates erased, and counts their atoms no
/// longer. From then on `floor` is the least generation that a visit may ask for. The only error is out of memory; after it
/// nothing is changed.
pub fn reclaim_clauses<K: NamesTable, D: Drops>(
    db: &mut Db<CountedTerm>,
    atoms: &mut TableAtoms<K>,
    keeper: &mut Option<Keeper>,
    i: u64,
    d: &D,
    floor: u64,
    generation: u64,
) -> Result<(), Memory>
    requires keeper { KeeperAt K.atoms K.size keeper.old }
    requires counts { Counts (clause_counts db.old) (keeper_view keeper.old) generation }
    requires upto { IsUpTo generation db.old }
    requires there { i < length db.old.parts }
    requires floor { floor ≤ generation }
    ensures keeper { KeeperAt K.atoms K.size keeper.new }
    ensures restored { Restored (clause_counts db.old) (clause_counts db.new) (keeper_view keeper.old) (keeper_view keeper.new) generation generation }
    ensures upto { IsUpTo generation db.new }
    ensures floor { OnOk result (db.new.floor ≡ max db.old.floor floor) }
    ensures dropped { OnOk result (db.new ≡ reclaimed_held i floor db.old) }
    ensures unchanged { OnErr result (db.new ≡ db.old) }
    ensures quiet { IsQuiet (seen atoms.old.seat) (seen atoms.new.seat) }
    ensures held { names (seen atoms.new.seat) ≡ names (seen atoms.old.seat) }
    ensures says { (goals : ℕ) (h : entries.History) → IsDatabase (keeper_view keeper.old) db.old goals h → IsDatabase (keeper_view keeper.new) db.new goals h }
{
    let dropped = db.reclaim_by(i, d, floor)?;
    forget_all(atoms, keeper, dropped.as_slice());
    Ok(())
}

// Counts the atoms of clauses that are stored no longer once less for each of them.
fn forget_all<K: NamesTable>(
    atoms: &mut TableAtoms<K>,
    keeper: &mut Option<Keeper>,
    clauses: &[CountedTerm],
)
    requires keeper { KeeperAt K.atoms K.size keeper.old }
    requires counted { (a : ℕ) → sum_by (naming a) clauses.now ≤ tally (keeper_view keeper.old) a }
    ensures keeper { KeeperAt K.atoms K.size keeper.new }
    ensures others { (t : Tree) → IsCounted t (keeper_view keeper.new) → said (kept (keeper_view keeper.new)) t ≡ said (kept (keeper_view keeper.old)) t }
    ensures counts { (a : ℕ) → sum_by (naming a) clauses.now + tally (keeper_view keeper.new) a ≡ tally (keeper_view keeper.old) a }
    ensures held { names (seen atoms.new.seat) ≡ names (seen atoms.old.seat) }
    ensures quiet { IsQuiet (seen atoms.old.seat) (seen atoms.new.seat) }
{
    for clause in clauses {
        forget_by(atoms, keeper, clause);
    }
}
