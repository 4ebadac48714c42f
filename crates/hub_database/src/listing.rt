//! The procedures that have clauses are listed (current_predicate/1, ISO 8.8.2), and the operators (current_op/3, ISO 8.14.4).
ghost use Rattle.std.specs.Prelude.{◌≡◌, ◌≤◌, ◌++◌, ℕ, Some, IsSome, IfErr, IfOk, length, map};
ghost use Rattle.std.specs.List.{All};
ghost use Rattle.pl_term.specs.Tree.{Chars};
ghost use Rattle.pl_model.specs.Database as database;
ghost use Rattle.pl_model.specs.History as entries;
ghost use Rattle.pl_model.specs.OperatorTable.{operators};
ghost use Rattle.pl_model.specs.Requests as requests;
ghost use Rattle.pl_model.specs.laws.Shown.{proc_of};
ghost use Rattle.atom_words.specs.Seats.{seen};
ghost use Rattle.atom_words.specs.declared.view.View.{View};
ghost use Rattle.atom_table.specs.Naming.{names, requests as texts_asked};
ghost use Rattle.op_table.specs.Entries.{entries_of};
ghost use Rattle.world_api.specs.Replies.{HasNames};
ghost use Rattle.world_api.specs.Texts.{text_of};
ghost use Rattle.counted_terms.specs.Keeping.{HoldsOn};
ghost use Rattle.counted_terms.specs.Rows.{row_names, row_refusals};
ghost use Rattle.hub_database.specs.Database.{IsDatabase, databases};
ghost use Rattle.hub_database.specs.Listing.{AsksAmong, AsksOne, AsksSome, IsWithout, Lists, ListsOperators, operator_names, refusals_in};
ghost use Rattle.hub_database.specs.Rows.{RepliesBy, Tells};

use atom_api::{Atom, Atoms, Interned};
use atom_table::{NamesTable, TableAtoms};
use clause_db::{Db, Operator as Held};
use counted_terms::{CountedTerm, Row};
use pl_model::shows::Proc;
use pl_term::{Memory, Text};
use std::alloc::Global;
use world_api::{Operator, Procedure, Reply};

/// The procedures that have clauses, in standard order. Their names become atoms of the engine. The time grows with the
/// square of their number.
pub fn all_procedures<K: NamesTable>(
    alloc: Global,
    db: &Db<CountedTerm>,
    atoms: &mut TableAtoms<K>,
    generation: u64,
) -> Row
    requires floor { db.now.floor ≤ generation }
    ensures holds { HoldsOn (names (seen atoms.old.seat)) (names (seen atoms.new.seat)) }
    ensures refusals { (seen atoms.new.seat).refusals ≡ (seen atoms.old.seat).refusals ++ row_refusals result }
    ensures named { All (λ a. IsSome (names (seen atoms.new.seat) a)) (row_names result) }
    ensures asked { (k : View) (goals : ℕ) (h : entries.History) → IsDatabase k db.now goals h
        → AsksSome (database.current_procedures generation (databases goals h generation)) (texts_asked (seen atoms.old.seat)) (texts_asked (seen atoms.new.seat)) }
    ensures says { (k : View) (goals e : ℕ) (h : entries.History) → length h ≡ generation → IsDatabase k db.now goals h
        → Tells goals e (text_of (names (seen atoms.new.seat))) requests.all_procedures h result }
{
    match db.current_procedures(generation) {
        Ok(ps) => name_all(alloc, atoms, ps.as_slice()),
        Err(Memory) => Row::Memory,
    }
}

// The procedures, with atoms as their names.
fn name_all<K: NamesTable>(alloc: Global, atoms: &mut TableAtoms<K>, ps: &[Proc]) -> Row
    ensures holds { HoldsOn (names (seen atoms.old.seat)) (names (seen atoms.new.seat)) }
    ensures refusals { (seen atoms.new.seat).refusals ≡ (seen atoms.old.seat).refusals ++ row_refusals result }
    ensures named { All (λ a. IsSome (names (seen atoms.new.seat) a)) (row_names result) }
    ensures asked { AsksSome (map proc_of ps.now) (texts_asked (seen atoms.old.seat)) (texts_asked (seen atoms.new.seat)) }
    ensures lists { Lists (text_of (names (seen atoms.new.seat))) (map proc_of ps.now) result }
{
    let mut found = Vec::new(alloc);
    for i in 0..ps.len() {
        match atom_of(atoms, &ps[i].name) {
            Ok(name) => {
                let procedure = Procedure {
                    name,
                    arity: ps[i].arity,
                };
                let Ok(()) = found.push(procedure) else {
                    return Row::Memory;
                };
            }
            Err(row) => return row,
        }
    }
    Row::Reads(Reply::Procedures(found))
}

/// The operators, each once, in standard order of their names (current_op/3, ISO 8.14.4). Their names become atoms of the
/// engine.
pub fn all_operators<K: NamesTable>(
    alloc: Global,
    db: &Db<CountedTerm>,
    atoms: &mut TableAtoms<K>,
) -> Row
    ensures holds { HoldsOn (names (seen atoms.old.seat)) (names (seen atoms.new.seat)) }
    ensures refusals { (seen atoms.new.seat).refusals ≡ (seen atoms.old.seat).refusals ++ row_refusals result }
    ensures named { All (λ a. IsSome (names (seen atoms.new.seat) a)) (row_names result) }
    ensures asked { AsksAmong (operator_names (operators db.now.operators)) (texts_asked (seen atoms.old.seat)) (texts_asked (seen atoms.new.seat)) }
    ensures told { RepliesBy (λ r. HasNames r) result }
    ensures says { (k : View) (goals e : ℕ) (h : entries.History) → IsDatabase k db.now goals h
        → Tells goals e (text_of (names (seen atoms.new.seat))) requests.read_operators h result }
{
    name_operators(alloc, atoms, db.operators().operators())
}

// The operators, with atoms as their names.
fn name_operators<K: NamesTable>(alloc: Global, atoms: &mut TableAtoms<K>, all: &[Held]) -> Row
    ensures holds { HoldsOn (names (seen atoms.old.seat)) (names (seen atoms.new.seat)) }
    ensures refusals { (seen atoms.new.seat).refusals ≡ (seen atoms.old.seat).refusals ++ row_refusals result }
    ensures named { All (λ a. IsSome (names (seen atoms.new.seat) a)) (row_names result) }
    ensures asked { AsksAmong (operator_names (entries_of all.now)) (texts_asked (seen atoms.old.seat)) (texts_asked (seen atoms.new.seat)) }
    ensures told { RepliesBy (λ r. HasNames r) result }
    ensures lists { ListsOperators (text_of (names (seen atoms.new.seat))) (entries_of all.now) result }
{
    let mut found = Vec::new(alloc);
    for i in 0..all.len() {
        let held = &all[i];
        match atom_of(atoms, &held.name) {
            Ok(name) => {
                let operator = Operator {
                    priority: held.priority,
                    kind: held.kind,
                    name,
                };
                let Ok(()) = found.push(operator) else {
                    return Row::Memory;
                };
            }
            Err(row) => return row,
        }
    }
    Row::Reads(Reply::Operators(found))
}

// The atom of the text, or the row that says why there is none.
fn atom_of<K: NamesTable>(atoms: &mut TableAtoms<K>, text: &Text) -> Result<Atom, Row>
    ensures atom { IfOk result (λ a. names (seen atoms.new.seat) a ≡ Some text.now) }
    ensures without { IfErr result IsWithout }
    ensures holds { HoldsOn (names (seen atoms.old.seat)) (names (seen atoms.new.seat)) }
    ensures refusals { (seen atoms.new.seat).refusals ≡ (seen atoms.old.seat).refusals ++ refusals_in result }
    ensures asked { AsksOne text.now (texts_asked (seen atoms.old.seat)) (texts_asked (seen atoms.new.seat)) }
{
    match atoms.intern(text) {
        Interned::Is(a) => Ok(a),
        Interned::Full(pass) => Err(Row::NeedsAtoms(pass)),
        Interned::Again(cause) => Err(Row::Retry(cause)),
        Interned::Worn(word) => Err(Row::Worn(word)),
        Interned::TooLong { .. } => Err(Row::Memory),
        Interned::Memory => Err(Row::Memory),
    }
}
