//! The clauses for goals: calls, clause/2 and retract/1, with their refusals.
ghost use Rattle.std.specs.Prelude.{◌≡◌, ◌≤◌, ◌<◌, [], ℕ, IsSome, Option, is_some, length, true};
ghost use Rattle.std.specs.List.{All};
ghost use Rattle.pl_term.specs.Tree.{Tree};
ghost use Rattle.pl_model.specs.Database as database;
ghost use Rattle.pl_model.specs.History as entries;
ghost use Rattle.pl_model.specs.Predicates.{proc_of as predicate_of};
ghost use Rattle.pl_model.specs.Requests as requests;
ghost use Rattle.pl_model.specs.laws.Shown.{proc_of};
ghost use Rattle.atom_words.specs.Seats.{seen};
ghost use Rattle.atom_table.specs.Naming.{names};
ghost use Rattle.clause_db.specs.Faults.{is_static_access};
ghost use Rattle.clause_db.specs.Reading.{SaysFor};
ghost use Rattle.term_store.specs.ArgumentKeys.{clause_key, key_atoms};
ghost use Rattle.world_api.specs.Texts.{text_of};
ghost use Rattle.world_api.specs.Visits.{proc_named};
ghost use Rattle.counted_terms.specs.CountedTerms.{said};
ghost use Rattle.counted_terms.specs.Keeping.{KeeperAt, keeper_view};
ghost use Rattle.counted_terms.specs.Sharing.{Counts};
ghost use Rattle.counted_terms.specs.Rows.{row_names, row_refusals};
ghost use Rattle.hub_database.specs.Database.{IsDatabase, clause_counts};
ghost use Rattle.hub_database.specs.Rows.{IsQuiet, IsReply, IsSteady, Tells, Unknowns};

use crate::finding::{called, note, noted_text, opened};
use crate::hints::Hints;
use crate::looking::first_of;
use crate::refusals::{private_error, refusal, static_error, unknown_error};
use atom_table::{Keeper, NamesTable, TableAtoms};
use clause_db::{Access, Db, UnknownCall};
use counted_terms::{CountedTerm, Row};
use pl_model::shows::Proc;
use std::alloc::Global;
use term_store::ArgumentKey;
use world_api::{Procedure, Reply};

// What the call of an unknown procedure is answered (ISO 7.7.7, 7.11.2.4).
fn unknown(alloc: Global, call: UnknownCall, procedure: &Procedure) -> Row
    ensures answers { Unknowns call procedure.now result }
    ensures replies { IsReply result }
    ensures unrefused { row_refusals result ≡ [] }
{
    match call {
        UnknownCall::Raises => refusal(unknown_error(alloc, procedure)),
        UnknownCall::Fails => Row::Reads(Reply::Clauses(None)),
    }
}

/// Whether the procedure is there at the generation.
pub(crate) fn is_known(db: &Db<CountedTerm>, p: &Proc, g: u64) -> bool
    requires { db.now.floor ≤ g }
    ensures { (f : Tree → entries.Clause) (d : ℕ → database.Database entries.Clause) → SaysFor f db.now d → result ≡ database.is_known (d g) (proc_of p.now) }
{
    db.access(p, g).is_some()
}

/// Whether the procedure is static at the generation.
pub(crate) fn is_static(db: &Db<CountedTerm>, p: &Proc, g: u64) -> bool
    requires { db.now.floor ≤ g }
    ensures { (f : Tree → entries.Clause) (d : ℕ → database.Database entries.Clause) → SaysFor f db.now d → result ≡ database.is_static (d g) (proc_of p.now) }
{
    is_closed(db.access(p, g))
}

// Whether this is how a static procedure may be used.
fn is_closed(access: Option<Access>) -> bool
    ensures { result ≡ is_static_access access }
{
    match access {
        Some(Access::Static) => true,
        Some(Access::Dynamic) => false,
        None => false,
    }
}

/// The first of the clauses for a goal (ISO 7.7.10). Of an unknown procedure it is an error, or there is none, by the flag
/// `unknown`.
pub fn call_clauses<K: NamesTable>(
    alloc: Global,
    db: &Db<CountedTerm>,
    hints: &mut Hints,
    atoms: &mut TableAtoms<K>,
    keeper: &mut Option<Keeper>,
    procedure: &Procedure,
    first: &ArgumentKey,
    generation: u64,
) -> Row
    requires keeper { KeeperAt K.atoms K.size keeper.old }
    requires counts { Counts (clause_counts db.now) (keeper_view keeper.old) generation }
    requires floor { db.now.floor ≤ generation }
    requires name { IsSome (names (seen atoms.old.seat) procedure.now.name) }
    requires key { All (λ a. IsSome (names (seen atoms.old.seat) a)) (key_atoms first.now) }
    ensures keeper { KeeperAt K.atoms K.size keeper.new }
    ensures steady { IsSteady (keeper_view keeper.old) (keeper_view keeper.new) }
    ensures quiet { IsQuiet (seen atoms.old.seat) (seen atoms.new.seat) }
    ensures named { All (λ a. IsSome (names (seen atoms.new.seat) a)) (row_names result) }
    ensures replies { IsReply result }
    ensures unrefused { row_refusals result ≡ [] }
    ensures says { (goals e : ℕ) (h : entries.History) (t : Tree) → length h ≡ generation → IsDatabase (keeper_view keeper.old) db.now goals h
        → predicate_of (said (names (seen atoms.old.seat)) t) ≡ proc_named (text_of (names (seen atoms.old.seat))) procedure.now → clause_key t ≡ first.now
        → Tells goals e (text_of (names (seen atoms.new.seat))) (requests.call_clauses (said (names (seen atoms.old.seat)) t)) h result }
{
    match called(db, hints, atoms, keeper, procedure, first, generation) {
        Some(row) => {
            hints.learn(alloc, procedure, first, &row);
            row
        }
        None => call_by_text(
            alloc, db, hints, atoms, keeper, procedure, first, generation,
        ),
    }
}

// The same, where the procedure is found by its text. It is noted where it stands.
fn call_by_text<K: NamesTable>(
    alloc: Global,
    db: &Db<CountedTerm>,
    hints: &mut Hints,
    atoms: &mut TableAtoms<K>,
    keeper: &mut Option<Keeper>,
    procedure: &Procedure,
    first: &ArgumentKey,
    generation: u64,
) -> Row
    requires keeper { KeeperAt K.atoms K.size keeper.old }
    requires counts { Counts (clause_counts db.now) (keeper_view keeper.old) generation }
    requires floor { db.now.floor ≤ generation }
    requires name { IsSome (names (seen atoms.old.seat) procedure.now.name) }
    requires key { All (λ a. IsSome (names (seen atoms.old.seat) a)) (key_atoms first.now) }
    ensures keeper { KeeperAt K.atoms K.size keeper.new }
    ensures steady { IsSteady (keeper_view keeper.old) (keeper_view keeper.new) }
    ensures quiet { IsQuiet (seen atoms.old.seat) (seen atoms.new.seat) }
    ensures named { All (λ a. IsSome (names (seen atoms.new.seat) a)) (row_names result) }
    ensures replies { IsReply result }
    ensures unrefused { row_refusals result ≡ [] }
    ensures says { (goals e : ℕ) (h : entries.History) (t : Tree) → length h ≡ generation → IsDatabase (keeper_view keeper.old) db.now goals h
        → predicate_of (said (names (seen atoms.old.seat)) t) ≡ proc_named (text_of (names (seen atoms.old.seat))) procedure.now → clause_key t ≡ first.now
        → Tells goals e (text_of (names (seen atoms.new.seat))) (requests.call_clauses (said (names (seen atoms.old.seat)) t)) h result }
{
    let Ok(p) = noted_text(alloc, hints, atoms, procedure) else {
        return Row::Memory;
    };
    if is_known(db, &p, generation) {
        let row = first_of(db, atoms, keeper, &p, first, generation);
        note(db, hints, procedure, p);
        return row;
    }
    unknown(alloc, db.flags().unknown, procedure)
}

/// The first of the clauses that clause/2 looks through (ISO 8.8.1). A static procedure is private.
pub fn inspect_clauses<K: NamesTable>(
    alloc: Global,
    db: &Db<CountedTerm>,
    hints: &mut Hints,
    atoms: &mut TableAtoms<K>,
    keeper: &mut Option<Keeper>,
    procedure: &Procedure,
    first: &ArgumentKey,
    generation: u64,
) -> Row
    requires keeper { KeeperAt K.atoms K.size keeper.old }
    requires counts { Counts (clause_counts db.now) (keeper_view keeper.old) generation }
    requires floor { db.now.floor ≤ generation }
    requires name { IsSome (names (seen atoms.old.seat) procedure.now.name) }
    requires key { All (λ a. IsSome (names (seen atoms.old.seat) a)) (key_atoms first.now) }
    ensures keeper { KeeperAt K.atoms K.size keeper.new }
    ensures steady { IsSteady (keeper_view keeper.old) (keeper_view keeper.new) }
    ensures quiet { IsQuiet (seen atoms.old.seat) (seen atoms.new.seat) }
    ensures named { All (λ a. IsSome (names (seen atoms.new.seat) a)) (row_names result) }
    ensures replies { IsReply result }
    ensures unrefused { row_refusals result ≡ [] }
    ensures says { (goals e : ℕ) (h : entries.History) (t : Tree) → length h ≡ generation → IsDatabase (keeper_view keeper.old) db.now goals h
        → predicate_of (said (names (seen atoms.old.seat)) t) ≡ proc_named (text_of (names (seen atoms.old.seat))) procedure.now → clause_key t ≡ first.now
        → Tells goals e (text_of (names (seen atoms.new.seat))) (requests.inspected_clauses (said (names (seen atoms.old.seat)) t)) h result }
{
    match opened(db, hints, atoms, keeper, procedure, first, generation) {
        Some(row) => row,
        None => inspect_by_text(
            alloc, db, hints, atoms, keeper, procedure, first, generation,
        ),
    }
}

// The same, where the procedure is found by its text. It is noted where it stands.
fn inspect_by_text<K: NamesTable>(
    alloc: Global,
    db: &Db<CountedTerm>,
    hints: &mut Hints,
    atoms: &mut TableAtoms<K>,
    keeper: &mut Option<Keeper>,
    procedure: &Procedure,
    first: &ArgumentKey,
    generation: u64,
) -> Row
    requires keeper { KeeperAt K.atoms K.size keeper.old }
    requires counts { Counts (clause_counts db.now) (keeper_view keeper.old) generation }
    requires floor { db.now.floor ≤ generation }
    requires name { IsSome (names (seen atoms.old.seat) procedure.now.name) }
    requires key { All (λ a. IsSome (names (seen atoms.old.seat) a)) (key_atoms first.now) }
    ensures keeper { KeeperAt K.atoms K.size keeper.new }
    ensures steady { IsSteady (keeper_view keeper.old) (keeper_view keeper.new) }
    ensures quiet { IsQuiet (seen atoms.old.seat) (seen atoms.new.seat) }
    ensures named { All (λ a. IsSome (names (seen atoms.new.seat) a)) (row_names result) }
    ensures replies { IsReply result }
    ensures unrefused { row_refusals result ≡ [] }
    ensures says { (goals e : ℕ) (h : entries.History) (t : Tree) → length h ≡ generation → IsDatabase (keeper_view keeper.old) db.now goals h
        → predicate_of (said (names (seen atoms.old.seat)) t) ≡ proc_named (text_of (names (seen atoms.old.seat))) procedure.now → clause_key t ≡ first.now
        → Tells goals e (text_of (names (seen atoms.new.seat))) (requests.inspected_clauses (said (names (seen atoms.old.seat)) t)) h result }
{
    let Ok(p) = noted_text(alloc, hints, atoms, procedure) else {
        return Row::Memory;
    };
    if is_static(db, &p, generation) {
        return refusal(private_error(alloc, procedure));
    }
    let row = first_of(db, atoms, keeper, &p, first, generation);
    note(db, hints, procedure, p);
    row
}

/// The first of the clauses that retract/1 looks through (ISO 8.9.3). A static procedure is refused.
pub fn retract_clauses<K: NamesTable>(
    alloc: Global,
    db: &Db<CountedTerm>,
    hints: &mut Hints,
    atoms: &mut TableAtoms<K>,
    keeper: &mut Option<Keeper>,
    procedure: &Procedure,
    first: &ArgumentKey,
    generation: u64,
) -> Row
    requires keeper { KeeperAt K.atoms K.size keeper.old }
    requires counts { Counts (clause_counts db.now) (keeper_view keeper.old) generation }
    requires floor { db.now.floor ≤ generation }
    requires name { IsSome (names (seen atoms.old.seat) procedure.now.name) }
    requires key { All (λ a. IsSome (names (seen atoms.old.seat) a)) (key_atoms first.now) }
    ensures keeper { KeeperAt K.atoms K.size keeper.new }
    ensures steady { IsSteady (keeper_view keeper.old) (keeper_view keeper.new) }
    ensures quiet { IsQuiet (seen atoms.old.seat) (seen atoms.new.seat) }
    ensures named { All (λ a. IsSome (names (seen atoms.new.seat) a)) (row_names result) }
    ensures replies { IsReply result }
    ensures unrefused { row_refusals result ≡ [] }
    ensures says { (goals e : ℕ) (h : entries.History) (t : Tree) → length h ≡ generation → IsDatabase (keeper_view keeper.old) db.now goals h
        → predicate_of (said (names (seen atoms.old.seat)) t) ≡ proc_named (text_of (names (seen atoms.old.seat))) procedure.now → clause_key t ≡ first.now
        → Tells goals e (text_of (names (seen atoms.new.seat))) (requests.retracted_clauses (said (names (seen atoms.old.seat)) t)) h result }
{
    match opened(db, hints, atoms, keeper, procedure, first, generation) {
        Some(row) => row,
        None => retract_by_text(
            alloc, db, hints, atoms, keeper, procedure, first, generation,
        ),
    }
}

// The same, where the procedure is found by its text. It is noted where it stands.
fn retract_by_text<K: NamesTable>(
    alloc: Global,
    db: &Db<CountedTerm>,
    hints: &mut Hints,
    atoms: &mut TableAtoms<K>,
    keeper: &mut Option<Keeper>,
    procedure: &Procedure,
    first: &ArgumentKey,
    generation: u64,
) -> Row
    requires keeper { KeeperAt K.atoms K.size keeper.old }
    requires counts { Counts (clause_counts db.now) (keeper_view keeper.old) generation }
    requires floor { db.now.floor ≤ generation }
    requires name { IsSome (names (seen atoms.old.seat) procedure.now.name) }
    requires key { All (λ a. IsSome (names (seen atoms.old.seat) a)) (key_atoms first.now) }
    ensures keeper { KeeperAt K.atoms K.size keeper.new }
    ensures steady { IsSteady (keeper_view keeper.old) (keeper_view keeper.new) }
    ensures quiet { IsQuiet (seen atoms.old.seat) (seen atoms.new.seat) }
    ensures named { All (λ a. IsSome (names (seen atoms.new.seat) a)) (row_names result) }
    ensures replies { IsReply result }
    ensures unrefused { row_refusals result ≡ [] }
    ensures says { (goals e : ℕ) (h : entries.History) (t : Tree) → length h ≡ generation → IsDatabase (keeper_view keeper.old) db.now goals h
        → predicate_of (said (names (seen atoms.old.seat)) t) ≡ proc_named (text_of (names (seen atoms.old.seat))) procedure.now → clause_key t ≡ first.now
        → Tells goals e (text_of (names (seen atoms.new.seat))) (requests.retracted_clauses (said (names (seen atoms.old.seat)) t)) h result }
{
    let Ok(p) = noted_text(alloc, hints, atoms, procedure) else {
        return Row::Memory;
    };
    if is_static(db, &p, generation) {
        return refusal(static_error(alloc, procedure));
    }
    let row = first_of(db, atoms, keeper, &p, first, generation);
    note(db, hints, procedure, p);
    row
}
