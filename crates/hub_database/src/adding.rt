//! Clauses are added to the database (ISO 7.4.2, 8.9.1, 8.9.2).
ghost use Rattle.std.specs.Prelude.{◌≡◌, [], ◌≤◌, ◌<◌, ◌^◌, ℕ, IsSome, length};
ghost use Rattle.std.specs.List.{All};
ghost use Rattle.pl_model.specs.History as entries;
ghost use Rattle.pl_model.specs.Predicates.{proc_of as predicate_of};
ghost use Rattle.pl_model.specs.laws.Shown.{proc_of};
ghost use Rattle.atom_words.specs.Seats.{seen};
ghost use Rattle.atom_table.specs.Naming.{names};
ghost use Rattle.term_store.specs.NumberedNames.{names_of};
ghost use Rattle.world_api.specs.Texts.{text_of};
ghost use Rattle.world_api.specs.Visits.{clause_in, proc_named};
ghost use Rattle.counted_terms.specs.CountedTerms.{said};
ghost use Rattle.counted_terms.specs.Keeping.{KeeperAt, keeper_view};
ghost use Rattle.counted_terms.specs.Sharing.{Counts, Restored};
ghost use Rattle.counted_terms.specs.Rows.{row_names, row_refusals};
ghost use Rattle.hub_database.specs.Adding.{adding_kind, adding_request};
ghost use Rattle.hub_database.specs.Database.{IsDatabase, IsUpTo, clause_counts};
ghost use Rattle.hub_database.specs.Rows.{Decides, IsQuiet, RefusesAddition, generation_after};

use crate::naming::{head_procedure, predicate_text};
use crate::refusals::{cells_error, refusal, static_error, worn_error};
use crate::storing::{Adding, origin_of, store_clause};
use atom_table::{Keeper, NamesTable, TableAtoms};
use clause_db::{Db, DbFault};
use counted_terms::{CountedTerm, MOST_UPDATES, Row, agree};
use pl_model::shows::Proc;
use std::alloc::Global;
use world_api::{Procedure, Reply};

/// A clause is added, all of whose atoms the engine holds. Of one whose head is an integer the answer is out of memory.
pub fn add_clause<K: NamesTable>(
    alloc: Global,
    db: &mut Db<CountedTerm>,
    atoms: &mut TableAtoms<K>,
    keeper: &mut Option<Keeper>,
    clause: CountedTerm,
    by: Adding,
    generation: u64,
) -> Row
    requires keeper { KeeperAt K.atoms K.size keeper.old }
    requires held { All (λ a. IsSome (names (seen atoms.old.seat) a)) (names_of clause) }
    requires counts { Counts (clause_counts db.old) (keeper_view keeper.old) generation }
    requires upto { IsUpTo generation db.old }
    ensures keeper { KeeperAt K.atoms K.size keeper.new }
    ensures restored { Restored (clause_counts db.old) (clause_counts db.new) (keeper_view keeper.old) (keeper_view keeper.new) generation (generation_after result generation) }
    ensures upto { IsUpTo (generation_after result generation) db.new }
    ensures floor { db.new.floor ≡ db.old.floor }
    ensures quiet { IsQuiet (seen atoms.old.seat) (seen atoms.new.seat) }
    ensures named { All (λ a. IsSome (names (seen atoms.new.seat) a)) (row_names result) }
    ensures unrefused { row_refusals result ≡ [] }
    ensures says { (goals e : ℕ) (h : entries.History) → length h ≡ generation → IsDatabase (keeper_view keeper.old) db.old goals h
        → Decides goals e (text_of (names (seen atoms.new.seat))) (adding_request by (clause_in (said (names (seen atoms.old.seat)) clause))) h
        (adding_kind by (predicate_of (clause_in (said (names (seen atoms.old.seat)) clause)).head) (clause_in (said (names (seen atoms.old.seat)) clause))) (keeper_view keeper.new) db.new result }
{
    let Some(procedure) = head_procedure(clause.term()) else {
        return Row::Memory;
    };
    let Ok(p) = predicate_text(alloc, atoms, &procedure) else {
        return Row::Memory;
    };
    if generation >= MOST_UPDATES {
        agree(atoms, keeper);
        return no_addition(
            alloc,
            &procedure,
            db.addition_refusal(&p, &clause, origin_of(by), generation),
        );
    }
    match store_clause(db, atoms, keeper, &p, clause, by, generation) {
        Ok(()) => Row::Makes(Reply::Done),
        Err(fault) => no_addition(alloc, &procedure, Some(fault)),
    }
}

// The refusal for this cause, or where there is none for want of generations.
fn no_addition(alloc: Global, procedure: &Procedure, fault: Option<DbFault>) -> Row
    ensures refuses { RefusesAddition procedure.now fault result }
    ensures unrefused { row_refusals result ≡ [] }
{
    match fault {
        Some(DbFault::Static) => refusal(static_error(alloc, procedure)),
        Some(DbFault::CellsFull { .. }) => refusal(cells_error(alloc)),
        Some(DbFault::Private) => Row::Memory,
        Some(DbFault::Unknown) => Row::Memory,
        Some(DbFault::Memory) => Row::Memory,
        None => refusal(worn_error(alloc)),
    }
}
