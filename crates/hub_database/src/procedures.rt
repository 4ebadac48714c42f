//! Procedures are abolished, cleared and made dynamic.
ghost use Rattle.std.specs.Prelude.{◌≡◌, ◌≢◌, ◌≤◌, ◌<◌, ◌^◌, ◌∷◌, [], ℕ, IsSome, IfSome, length, map, take, false, true};
ghost use Rattle.std.specs.Option.{MatchOption, option_map_or};
ghost use Rattle.std.specs.List.{All, list_any, slice_get};
ghost use Rattle.pl_term.specs.Tree.{Tree};
ghost use Rattle.pl_model.specs.Database as database;
ghost use Rattle.pl_model.specs.History as entries;
ghost use Rattle.pl_model.specs.Predicates.{proc_of as predicate_of};
ghost use Rattle.pl_model.specs.Requests as requests;
ghost use Rattle.pl_model.specs.laws.Shown.{proc_of};
ghost use Rattle.atom_words.specs.Seats.{seen};
ghost use Rattle.atom_words.specs.declared.view.View.{View};
ghost use Rattle.atom_table.specs.Naming.{names};
ghost use Rattle.clause_db.specs.Reading.{SaysFor};
ghost use Rattle.term_store.specs.ArgumentKeys.{clause_key, key_atoms};
ghost use Rattle.world_api.specs.Texts.{text_of};
ghost use Rattle.world_api.specs.Visits.{proc_named};
ghost use Rattle.world_api.specs.declared.visit.Procedure.{Procedure};
ghost use Rattle.counted_terms.specs.CountedTerms.{said};
ghost use Rattle.counted_terms.specs.Keeping.{KeeperAt, keeper_view};
ghost use Rattle.counted_terms.specs.Sharing.{Counts};
ghost use Rattle.counted_terms.specs.Rows.{row_names, row_refusals};
ghost use Rattle.hub_database.specs.Database.{CanOpen, HasHistory, IsDatabase, IsUpTo, clause_counts, databases};
ghost use Rattle.hub_database.specs.Rows.{Decides, IsQuiet, IsReplyOrMade, IsSteady, Updates, generation_after, history_after};

use crate::calling::{is_known, is_static};
use crate::finding::{note, noted_text, opened};
use crate::hints::Hints;
use crate::looking::first_of;
use crate::naming::{predicate_text, predicate_texts};
use crate::refusals::{refusal, static_error, worn_error};
use atom_table::{Keeper, NamesTable, TableAtoms};
use clause_db::{Db, DbFault};
use counted_terms::{CountedTerm, MOST_UPDATES, Row, agree};
use pl_model::shows::Proc;
use std::alloc::Global;
use term_store::{ArgumentKey, Stored};
use world_api::{Procedure, Reply};

/// All clauses of the procedure are erased (ISO 8.9.4).
pub fn abolish_procedure<K: NamesTable>(
    alloc: Global,
    db: &mut Db<CountedTerm>,
    atoms: &mut TableAtoms<K>,
    keeper: &mut Option<Keeper>,
    procedure: &Procedure,
    generation: u64,
) -> Row
    requires keeper { KeeperAt K.atoms K.size keeper.old }
    requires upto { IsUpTo generation db.old }
    requires has { HasHistory (keeper_view keeper.old) db.old generation }
    requires name { IsSome (names (seen atoms.old.seat) procedure.now.name) }
    ensures keeper { KeeperAt K.atoms K.size keeper.new }
    ensures steady { IsSteady (keeper_view keeper.old) (keeper_view keeper.new) }
    ensures weighs { (a : ℕ) → clause_counts db.new a ≡ clause_counts db.old a }
    ensures upto { IsUpTo (generation_after result generation) db.new }
    ensures floor { db.new.floor ≡ db.old.floor }
    ensures quiet { IsQuiet (seen atoms.old.seat) (seen atoms.new.seat) }
    ensures named { All (λ a. IsSome (names (seen atoms.new.seat) a)) (row_names result) }
    ensures unrefused { row_refusals result ≡ [] }
    ensures says { (goals e : ℕ) (h : entries.History) → length h ≡ generation → IsDatabase (keeper_view keeper.old) db.old goals h
        → Decides goals e (text_of (names (seen atoms.new.seat))) (requests.abolish_procedure (proc_named (text_of (names (seen atoms.old.seat))) procedure.now)) h (entries.abolish (proc_named (text_of (names (seen atoms.old.seat))) procedure.now)) (keeper_view keeper.new) db.new result }
{
    let Ok(p) = predicate_text(alloc, atoms, procedure) else {
        return Row::Memory;
    };
    if is_static(db, &p, generation) {
        return refusal(static_error(alloc, procedure));
    }
    if generation >= MOST_UPDATES {
        return refusal(worn_error(alloc));
    }
    agree(atoms, keeper);
    match db.abolish(&p, generation) {
        Ok(()) => Row::Makes(Reply::Done),
        Err(DbFault::Memory) => Row::Memory,
        Err(_) => unreachable!(),
    }
}

/// The first of the clauses that retractall/1 looks through (ISO Cor.2 8.9.5). A static procedure is refused, and one that is
/// not there is made dynamic.
pub fn clear_clauses<K: NamesTable>(
    alloc: Global,
    db: &mut Db<CountedTerm>,
    hints: &mut Hints,
    atoms: &mut TableAtoms<K>,
    keeper: &mut Option<Keeper>,
    procedure: &Procedure,
    first: &ArgumentKey,
    generation: u64,
) -> Row
    requires keeper { KeeperAt K.atoms K.size keeper.old }
    requires counts { Counts (clause_counts db.old) (keeper_view keeper.old) generation }
    requires upto { IsUpTo generation db.old }
    requires has { HasHistory (keeper_view keeper.old) db.old generation }
    requires name { IsSome (names (seen atoms.old.seat) procedure.now.name) }
    requires key { All (λ a. IsSome (names (seen atoms.old.seat) a)) (key_atoms first.now) }
    ensures keeper { KeeperAt K.atoms K.size keeper.new }
    ensures steady { IsSteady (keeper_view keeper.old) (keeper_view keeper.new) }
    ensures weighs { (a : ℕ) → clause_counts db.new a ≡ clause_counts db.old a }
    ensures upto { IsUpTo (generation_after result generation) db.new }
    ensures floor { db.new.floor ≡ db.old.floor }
    ensures quiet { IsQuiet (seen atoms.old.seat) (seen atoms.new.seat) }
    ensures named { All (λ a. IsSome (names (seen atoms.new.seat) a)) (row_names result) }
    ensures unrefused { row_refusals result ≡ [] }
    ensures replies { IsReplyOrMade result }
    ensures early { generation_after result generation ≢ generation → generation < 2 ^ 47 }
    ensures database { (goals e : ℕ) (h : entries.History) → length h ≡ generation → IsDatabase (keeper_view keeper.old) db.old goals h
        → IsDatabase (keeper_view keeper.new) db.new goals (history_after e result (entries.set_dynamic (proc_named (text_of (names (seen atoms.old.seat))) procedure.now ∷ [])) h) }
    ensures says { (goals e : ℕ) (h : entries.History) (t : Tree) → length h ≡ generation → IsDatabase (keeper_view keeper.old) db.old goals h
        → predicate_of (said (names (seen atoms.old.seat)) t) ≡ proc_named (text_of (names (seen atoms.old.seat))) procedure.now → clause_key t ≡ first.now
        → Decides goals e (text_of (names (seen atoms.new.seat))) (requests.cleared_clauses (said (names (seen atoms.old.seat)) t)) h (entries.set_dynamic (proc_named (text_of (names (seen atoms.old.seat))) procedure.now ∷ [])) (keeper_view keeper.new) db.new result }
{
    match opened(db, hints, atoms, keeper, procedure, first, generation) {
        Some(row) => row,
        None => clear_by_text(
            alloc, db, hints, atoms, keeper, procedure, first, generation,
        ),
    }
}

// The same, where the procedure is found by its text. It is noted where it stands.
fn clear_by_text<K: NamesTable>(
    alloc: Global,
    db: &mut Db<CountedTerm>,
    hints: &mut Hints,
    atoms: &mut TableAtoms<K>,
    keeper: &mut Option<Keeper>,
    procedure: &Procedure,
    first: &ArgumentKey,
    generation: u64,
) -> Row
    requires keeper { KeeperAt K.atoms K.size keeper.old }
    requires counts { Counts (clause_counts db.old) (keeper_view keeper.old) generation }
    requires upto { IsUpTo generation db.old }
    requires has { HasHistory (keeper_view keeper.old) db.old generation }
    requires name { IsSome (names (seen atoms.old.seat) procedure.now.name) }
    requires key { All (λ a. IsSome (names (seen atoms.old.seat) a)) (key_atoms first.now) }
    ensures keeper { KeeperAt K.atoms K.size keeper.new }
    ensures steady { IsSteady (keeper_view keeper.old) (keeper_view keeper.new) }
    ensures weighs { (a : ℕ) → clause_counts db.new a ≡ clause_counts db.old a }
    ensures upto { IsUpTo (generation_after result generation) db.new }
    ensures floor { db.new.floor ≡ db.old.floor }
    ensures quiet { IsQuiet (seen atoms.old.seat) (seen atoms.new.seat) }
    ensures named { All (λ a. IsSome (names (seen atoms.new.seat) a)) (row_names result) }
    ensures unrefused { row_refusals result ≡ [] }
    ensures replies { IsReplyOrMade result }
    ensures early { generation_after result generation ≢ generation → generation < 2 ^ 47 }
    ensures database { (goals e : ℕ) (h : entries.History) → length h ≡ generation → IsDatabase (keeper_view keeper.old) db.old goals h
        → IsDatabase (keeper_view keeper.new) db.new goals (history_after e result (entries.set_dynamic (proc_named (text_of (names (seen atoms.old.seat))) procedure.now ∷ [])) h) }
    ensures says { (goals e : ℕ) (h : entries.History) (t : Tree) → length h ≡ generation → IsDatabase (keeper_view keeper.old) db.old goals h
        → predicate_of (said (names (seen atoms.old.seat)) t) ≡ proc_named (text_of (names (seen atoms.old.seat))) procedure.now → clause_key t ≡ first.now
        → Decides goals e (text_of (names (seen atoms.new.seat))) (requests.cleared_clauses (said (names (seen atoms.old.seat)) t)) h (entries.set_dynamic (proc_named (text_of (names (seen atoms.old.seat))) procedure.now ∷ [])) (keeper_view keeper.new) db.new result }
{
    let Ok(p) = noted_text(alloc, hints, atoms, procedure) else {
        return Row::Memory;
    };
    if is_static(db, &p, generation) {
        return refusal(static_error(alloc, procedure));
    }
    if is_known(db, &p, generation) {
        let row = first_of(db, atoms, keeper, &p, first, generation);
        note(db, hints, procedure, p);
        return row;
    }
    open_procedures(alloc, db, &[p], Reply::Clauses(None), generation)
}

/// The procedures are dynamic from now on, where they are not there (ISO 7.4.2.1). Where one of them is static, the first of
/// these is refused.
pub fn make_dynamic<K: NamesTable>(
    alloc: Global,
    db: &mut Db<CountedTerm>,
    atoms: &mut TableAtoms<K>,
    procedures: &[Procedure],
    generation: u64,
) -> Row
    requires upto { IsUpTo generation db.old }
    requires has { (k : View) × HasHistory k db.old generation }
    requires held { All (λ (p : Procedure). IsSome (names (seen atoms.old.seat) p.name)) procedures.now }
    ensures weighs { (a : ℕ) → clause_counts db.new a ≡ clause_counts db.old a }
    ensures upto { IsUpTo (generation_after result generation) db.new }
    ensures floor { db.new.floor ≡ db.old.floor }
    ensures quiet { IsQuiet (seen atoms.old.seat) (seen atoms.new.seat) }
    ensures named { All (λ a. IsSome (names (seen atoms.new.seat) a)) (row_names result) }
    ensures unrefused { row_refusals result ≡ [] }
    ensures says { (k : View) (goals e : ℕ) (h : entries.History) → length h ≡ generation → IsDatabase k db.old goals h
        → Decides goals e (text_of (names (seen atoms.new.seat))) (requests.make_dynamic (map (proc_named (text_of (names (seen atoms.old.seat)))) procedures.now)) h (entries.set_dynamic (map (proc_named (text_of (names (seen atoms.old.seat)))) procedures.now)) k db.new result }
{
    let Ok(ps) = predicate_texts(alloc, atoms, procedures) else {
        return Row::Memory;
    };
    match first_static(db, ps.as_slice(), generation) {
        Some(i) => refusal(static_error(alloc, &procedures[i])),
        None => open_procedures(alloc, db, ps.as_slice(), Reply::Done, generation),
    }
}

// At which index the first of the procedures stands that is static at the generation.
fn first_static(db: &Db<CountedTerm>, ps: &[Proc], g: u64) -> Option<usize>
    requires { db.now.floor ≤ g }
    ensures within { IfSome result (λ i. i < length ps.now) }
    ensures first { (f : Tree → entries.Clause) (d : ℕ → database.Database entries.Clause) → SaysFor f db.now d
        → MatchOption result
        (list_any (λ p. database.is_static (d g) (proc_of p)) ps.now ≡ false)
        (λ i. (list_any (λ p. database.is_static (d g) (proc_of p)) (take i ps.now) ≡ false) × (option_map_or (λ p. database.is_static (d g) (proc_of p)) (slice_get ps.now i) false ≡ true)) }
{
    for i in 0..ps.len() {
        if is_static(db, &ps[i], g) {
            return Some(i);
        }
    }
    None
}

// The procedures, none of which is static, are made dynamic where they are not there. The reply is `made`.
fn open_procedures(
    alloc: Global,
    db: &mut Db<CountedTerm>,
    ps: &[Proc],
    made: Reply<Stored>,
    generation: u64,
) -> Row
    requires upto { IsUpTo generation db.old }
    requires free { (k : View) × CanOpen (map proc_of ps.now) k db.old generation }
    ensures weighs { (a : ℕ) → clause_counts db.new a ≡ clause_counts db.old a }
    ensures upto { IsUpTo (generation_after result generation) db.new }
    ensures floor { db.new.floor ≡ db.old.floor }
    ensures unrefused { row_refusals result ≡ [] }
    ensures replies { IsReplyOrMade result }
    ensures says { Updates generation made result }
    ensures database { (k : View) (goals e : ℕ) (h : entries.History) → length h ≡ generation → IsDatabase k db.old goals h
        → list_any (database.is_static (databases goals h generation)) (map proc_of ps.now) ≡ false
        → IsDatabase k db.new goals (history_after e result (entries.set_dynamic (map proc_of ps.now)) h) }
{
    if generation >= MOST_UPDATES {
        return refusal(worn_error(alloc));
    }
    match db.set_dynamic(ps, generation) {
        Ok(()) => Row::Makes(made),
        Err(DbFault::Memory) => Row::Memory,
        Err(_) => unreachable!(),
    }
}
