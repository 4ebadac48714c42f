//! Clauses are stored: their atoms are counted, and the database holds them.
ghost use Rattle.std.specs.Prelude.{◌≡◌, ◌≤◌, ◌<◌, ◌+◌, ◌++◌, ◌^◌, ◌⊎◌, ℕ, suc, None, Some, IsSome, IfErr, OnOk, OnErr, Err, length};
ghost use Rattle.std.specs.List.{All};
ghost use Rattle.std.specs.Option.{MatchOption};
ghost use Rattle.std.specs.Result.{MatchResult};
ghost use Rattle.pl_term.specs.Tree.{Tree};
ghost use Rattle.pl_model.specs.Database.{Database};
ghost use Rattle.pl_model.specs.History as entries;
ghost use Rattle.pl_model.specs.Predicates.{proc_of as predicate_of};
ghost use Rattle.pl_model.specs.Service.{clause_cells, entry_by};
ghost use Rattle.pl_model.specs.laws.Shown.{proc_of};
ghost use Rattle.atom_words.specs.Seats.{seen};
ghost use Rattle.atom_table.specs.Naming.{names};
ghost use Rattle.clause_db.specs.Faults.{addition_fault};
ghost use Rattle.clause_db.specs.Reading.{SaysFor};
ghost use Rattle.clause_db.specs.Stands.{then_at};
ghost use Rattle.clause_db.specs.Weights.{weight};
ghost use Rattle.clause_db.specs.declared.fault.DbFault.TheVariants.{Memory as NoMemory};
ghost use Rattle.term_store.specs.NumberedNames.{clause_size, names_of};
ghost use Rattle.world_api.specs.Visits.{clause_in};
ghost use Rattle.counted_terms.specs.CountedTerms.{naming, said};
ghost use Rattle.counted_terms.specs.Keeping.{KeeperAt, keeper_view, tally};
ghost use Rattle.counted_terms.specs.Sharing.{Counts, Restored};
ghost use Rattle.hub_database.specs.Adding.{adding_kind, origin_by, with_adding};
ghost use Rattle.hub_database.specs.Database.{IsDatabase, IsUpTo, clause_counts, databases};
ghost use Rattle.hub_database.specs.Rows.{IsQuiet};

use atom_table::{Keeper, NamesTable, TableAtoms};
use clause_db::{Db, DbFault};
use counted_terms::{CountedTerm, agree, forget_by, store_from};
use pl_model::shows::{Origin, Proc};

/// How a clause is added.
#[derive(Clone, Copy, Debug, Drop)]
pub enum Adding {
    /// By a text that is consulted (ISO 7.4.2).
    Text,
    /// By asserta/1 (ISO 8.9.1).
    First,
    /// By assertz/1 (ISO 8.9.2).
    Last,
}

/// What adds the clause.
pub(crate) fn origin_of(by: Adding) -> Origin
    ensures { result ≡ origin_by by }
{
    match by {
        Adding::Text => Origin::Consult,
        Adding::First => Origin::Assert,
        Adding::Last => Origin::Assert,
    }
}

// Adds a clause to its procedure, or hands it back with the cause.
fn put(
    db: &mut Db<CountedTerm>,
    p: &Proc,
    clause: CountedTerm,
    by: Adding,
    place: u64,
) -> Result<(), (CountedTerm, DbFault)>
    requires bound { place < 2 ^ 47 }
    requires later { db.old.next ≤ place }
    ensures says { (f : Tree → entries.Clause) (d : ℕ → Database entries.Clause) → clause_size clause ≡ clause_cells (f clause) → SaysFor f db.old d
        → MatchOption (addition_fault clause_cells (d place) (proc_of p.now) (origin_by by) (f clause))
        (MatchResult result (λ _. SaysFor f db.new (then_at place (with_adding by place (proc_of p.now) (f clause)) d)) (λ e. e ≡ (clause, NoMemory)))
        (λ x. result ≡ Err (clause, x)) }
    ensures weighs { OnOk result ((w : Tree → ℕ) → weight w db.new ≡ w clause + weight w db.old) }
    ensures rest { OnOk result ((db.new.next ≡ place + 1) × (db.new.floor ≡ db.old.floor)) }
    ensures settings { OnOk result ((db.new.flags ≡ db.old.flags) × (db.new.operators ≡ db.old.operators)) }
    ensures unchanged { OnErr result (db.new ≡ db.old) }
    ensures back { IfErr result (λ e. e.0 ≡ clause) }
{
    match by {
        Adding::Text => db.add_last(p, clause, Origin::Consult, place),
        Adding::First => db.add_first(p, clause, Origin::Assert, place),
        Adding::Last => db.add_last(p, clause, Origin::Assert, place),
    }
}

/// Stores a clause, all of whose atoms the engine holds, by the update at `place`, which is after all updates so far: its
/// atoms are counted, and it is added to its procedure. The errors are those of the database; after one the clause is
/// stored nowhere, and its atoms are counted as before.
pub fn store_clause<K: NamesTable>(
    db: &mut Db<CountedTerm>,
    atoms: &mut TableAtoms<K>,
    keeper: &mut Option<Keeper>,
    p: &Proc,
    clause: CountedTerm,
    by: Adding,
    place: u64,
) -> Result<(), DbFault>
    requires keeper { KeeperAt K.atoms K.size keeper.old }
    requires held { All (λ a. IsSome (names (seen atoms.old.seat) a)) (names_of clause) }
    requires counts { Counts (clause_counts db.old) (keeper_view keeper.old) place }
    requires bound { place < 2 ^ 47 }
    requires upto { IsUpTo place db.old }
    ensures keeper { KeeperAt K.atoms K.size keeper.new }
    ensures stored { OnOk result (Restored (clause_counts db.old) (clause_counts db.new) (keeper_view keeper.old) (keeper_view keeper.new) place (suc place)) }
    ensures forgotten { OnErr result (Restored (clause_counts db.old) (clause_counts db.new) (keeper_view keeper.old) (keeper_view keeper.new) place place) }
    ensures upto { OnOk result (IsUpTo (suc place) db.new) }
    ensures floor { db.new.floor ≡ db.old.floor }
    ensures unchanged { OnErr result (db.new ≡ db.old) }
    ensures quiet { IsQuiet (seen atoms.old.seat) (seen atoms.new.seat) }
    ensures held { names (seen atoms.new.seat) ≡ names (seen atoms.old.seat) }
    ensures was { OnErr result ((goals : ℕ) (h : entries.History) → IsDatabase (keeper_view keeper.old) db.old goals h → IsDatabase (keeper_view keeper.new) db.new goals h) }
    ensures says { (goals e : ℕ) (h : entries.History) → length h ≡ place → IsDatabase (keeper_view keeper.old) db.old goals h
        → MatchResult result
        (λ _. (addition_fault clause_cells (databases goals h place) (proc_of p.now) (origin_by by) (clause_in (said (names (seen atoms.old.seat)) clause)) ≡ None)
        × (proc_of p.now ≡ predicate_of (clause_in (said (names (seen atoms.old.seat)) clause)).head
        → IsDatabase (keeper_view keeper.new) db.new goals (h ++ entry_by e (Some (adding_kind by (proc_of p.now) (clause_in (said (names (seen atoms.old.seat)) clause)))))))
        (λ x. (x ≡ NoMemory) ⊎ (addition_fault clause_cells (databases goals h place) (proc_of p.now) (origin_by by) (clause_in (said (names (seen atoms.old.seat)) clause)) ≡ Some x)) }
{
    store_from(atoms, keeper, &clause);
    agree(atoms, keeper);
    match put(db, p, clause, by, place) {
        Ok(()) => Ok(()),
        Err((back, fault)) => {
            forget_by(atoms, keeper, &back);
            Err(fault)
        }
    }
}
