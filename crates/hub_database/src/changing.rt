//! Clauses are erased. No term is stored or forgotten by that.
ghost use Rattle.std.specs.Prelude.{◌≡◌, [], ℕ, IsSome, length};
ghost use Rattle.std.specs.List.{All};
ghost use Rattle.pl_model.specs.History as entries;
ghost use Rattle.pl_model.specs.Requests as requests;
ghost use Rattle.atom_words.specs.Seats.{seen};
ghost use Rattle.atom_table.specs.Naming.{names};
ghost use Rattle.world_api.specs.Texts.{text_of};
ghost use Rattle.counted_terms.specs.Keeping.{KeeperAt, keeper_view};
ghost use Rattle.counted_terms.specs.Rows.{row_names, row_refusals};
ghost use Rattle.hub_database.specs.Database.{IsDatabase, IsUpTo, clause_counts};
ghost use Rattle.hub_database.specs.Rows.{Decides, ErasesNone, IsQuiet, IsSteady, generation_after};

use crate::refusals::{refusal, worn_error};
use atom_table::{Keeper, NamesTable, TableAtoms};
use clause_db::{Db, DbFault};
use counted_terms::{CountedTerm, MOST_UPDATES, Row, agree};
use std::alloc::Global;
use world_api::Reply;

/// The clause that was added at this place is erased (ISO 8.9.3).
pub fn erase_clause<K: NamesTable>(
    alloc: Global,
    db: &mut Db<CountedTerm>,
    atoms: &mut TableAtoms<K>,
    keeper: &mut Option<Keeper>,
    clause: u64,
    generation: u64,
) -> Row
    requires keeper { KeeperAt K.atoms K.size keeper.old }
    requires upto { IsUpTo generation db.old }
    ensures keeper { KeeperAt K.atoms K.size keeper.new }
    ensures steady { IsSteady (keeper_view keeper.old) (keeper_view keeper.new) }
    ensures weighs { (a : ℕ) → clause_counts db.new a ≡ clause_counts db.old a }
    ensures upto { IsUpTo (generation_after result generation) db.new }
    ensures floor { db.new.floor ≡ db.old.floor }
    ensures quiet { IsQuiet (seen atoms.old.seat) (seen atoms.new.seat) }
    ensures named { All (λ a. IsSome (names (seen atoms.new.seat) a)) (row_names result) }
    ensures unrefused { row_refusals result ≡ [] }
    ensures says { (goals e : ℕ) (h : entries.History) → length h ≡ generation → IsDatabase (keeper_view keeper.old) db.old goals h
        → Decides goals e (text_of (names (seen atoms.new.seat))) (requests.erase_clause clause) h (entries.erase clause) (keeper_view keeper.new) db.new result }
{
    agree(atoms, keeper);
    if generation >= MOST_UPDATES {
        return no_erasure(alloc, db.has_clause(clause));
    }
    match db.erase(clause, generation) {
        Ok(true) => Row::Makes(Reply::Done),
        Ok(false) => Row::Reads(Reply::Gone),
        Err(DbFault::Memory) => Row::Memory,
        Err(_) => unreachable!(),
    }
}

// What is answered where no update can be made: whether the clause is still there.
fn no_erasure(alloc: Global, is_there: bool) -> Row
    ensures erases { ErasesNone is_there result }
    ensures unrefused { row_refusals result ≡ [] }
{
    if is_there {
        refusal(worn_error(alloc))
    } else {
        Row::Reads(Reply::Gone)
    }
}
