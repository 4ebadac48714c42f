//! Clauses for goals are found by the number of the goal's name, where the procedure was looked for before.
ghost use Rattle.std.specs.Prelude.{Bool, ◌≡◌, ◌≤◌, ◌<◌, [], ℕ, IsSome, IfNone, IfOk, IfSome, Some, is_some, length, false, true};
ghost use Rattle.std.specs.Option.{option_map};
ghost use Rattle.std.specs.List.{All, slice_get};
ghost use Rattle.pl_term.specs.Tree.{Tree};
ghost use Rattle.pl_model.specs.Database as database;
ghost use Rattle.pl_model.specs.Database.{Database, choices, is_system};
ghost use Rattle.pl_model.specs.FirstArguments.{are_apart, head_of};
ghost use Rattle.pl_model.specs.History as entries;
ghost use Rattle.pl_model.specs.History.{head_part};
ghost use Rattle.pl_model.specs.Predicates.{proc_of as predicate_of};
ghost use Rattle.pl_model.specs.Requests as requests;
ghost use Rattle.pl_model.specs.laws.Shown.{proc_of};
ghost use Rattle.atom_words.specs.Seats.{seen};
ghost use Rattle.atom_api.specs.Names.{Names};
ghost use Rattle.atom_table.specs.Naming.{Lawful, names};
ghost use Rattle.clause_db.specs.Access.{access_of};
ghost use Rattle.gen_core.specs.Hits.{hit_of};
ghost use Rattle.clause_db.specs.Reading.{EachHeld, IsHeld, SaysFor, read_hit};
ghost use Rattle.clause_db.specs.Stands.{first_named, program_access};
ghost use Rattle.term_store.specs.ArgumentKeys.{clause_key, is_any, key_atoms, key_order};
ghost use Rattle.world_api.specs.Texts.{text_of};
ghost use Rattle.world_api.specs.Visits.{proc_named};
ghost use Rattle.counted_terms.specs.CountedTerms.{said};
ghost use Rattle.counted_terms.specs.Keeping.{KeeperAt, keeper_view};
ghost use Rattle.counted_terms.specs.Sharing.{Counts};
ghost use Rattle.counted_terms.specs.Rows.{row_names, row_refusals};
ghost use Rattle.hub_database.specs.Database.{IsDatabase, clause_counts};
ghost use Rattle.hub_database.specs.Found.{IsFound, IsHeaded, IsNoneAt, IsOpenFound};
ghost use Rattle.hub_database.specs.Rows.{IsQuiet, IsReply, IsSteady, Tells, handed_row};

use crate::calls::{first_clause, hand_out};
use crate::hints::{Hint, Hints};
use crate::naming::{head_procedure, is_spelled, predicate_text, spelled_as};
use atom_table::{Keeper, NamesTable, TableAtoms};
use clause_db::{Access, Db, Hit};
use counted_terms::{CountedTerm, Row, agree};
use pl_model::shows::Proc;
use pl_term::Memory;
use std::alloc::Global;
use term_store::{ArgumentKey, Stored};
use world_api::{Found, Procedure, Reply};

/// The first of the clauses of a call, where the procedure was looked for before; else nothing is done. No memory is taken.
pub(crate) fn called<K: NamesTable>(
    db: &Db<CountedTerm>,
    hints: &Hints,
    atoms: &mut TableAtoms<K>,
    keeper: &mut Option<Keeper>,
    procedure: &Procedure,
    first: &ArgumentKey,
    generation: u64,
) -> Option<Row>
    requires keeper { KeeperAt K.atoms K.size keeper.old }
    requires counts { Counts (clause_counts db.now) (keeper_view keeper.old) generation }
    requires floor { db.now.floor ≤ generation }
    requires name { IsSome (names (seen atoms.old.seat) procedure.now.name) }
    requires key { All (λ a. IsSome (names (seen atoms.old.seat) a)) (key_atoms first.now) }
    ensures keeper { KeeperAt K.atoms K.size keeper.new }
    ensures steady { IsSteady (keeper_view keeper.old) (keeper_view keeper.new) }
    ensures quiet { IsQuiet (seen atoms.old.seat) (seen atoms.new.seat) }
    ensures missed { IfNone result (names (seen atoms.new.seat) ≡ names (seen atoms.old.seat)) }
    ensures named { IfSome result (λ r. All (λ a. IsSome (names (seen atoms.new.seat) a)) (row_names r)) }
    ensures replies { IfSome result IsReply }
    ensures unrefused { IfSome result (λ r. row_refusals r ≡ []) }
    ensures says { (goals e : ℕ) (h : entries.History) (t : Tree) → length h ≡ generation → IsDatabase (keeper_view keeper.old) db.now goals h
        → predicate_of (said (names (seen atoms.old.seat)) t) ≡ proc_named (text_of (names (seen atoms.old.seat))) procedure.now → clause_key t ≡ first.now
        → IfSome result (Tells goals e (text_of (names (seen atoms.new.seat))) (requests.call_clauses (said (names (seen atoms.old.seat)) t)) h) }
{
    match called_by_number(db, hints, atoms, keeper, procedure, first, generation) {
        Some(row) => Some(row),
        None => called_as_noted(db, hints, atoms, keeper, procedure, first, generation),
    }
}

/// The same of a dynamic procedure, for a goal of clause/2, retract/1 or retractall/1.
pub(crate) fn opened<K: NamesTable>(
    db: &Db<CountedTerm>,
    hints: &Hints,
    atoms: &mut TableAtoms<K>,
    keeper: &mut Option<Keeper>,
    procedure: &Procedure,
    first: &ArgumentKey,
    generation: u64,
) -> Option<Row>
    requires keeper { KeeperAt K.atoms K.size keeper.old }
    requires counts { Counts (clause_counts db.now) (keeper_view keeper.old) generation }
    requires floor { db.now.floor ≤ generation }
    requires name { IsSome (names (seen atoms.old.seat) procedure.now.name) }
    requires key { All (λ a. IsSome (names (seen atoms.old.seat) a)) (key_atoms first.now) }
    ensures keeper { KeeperAt K.atoms K.size keeper.new }
    ensures steady { IsSteady (keeper_view keeper.old) (keeper_view keeper.new) }
    ensures quiet { IsQuiet (seen atoms.old.seat) (seen atoms.new.seat) }
    ensures missed { IfNone result (names (seen atoms.new.seat) ≡ names (seen atoms.old.seat)) }
    ensures named { IfSome result (λ r. All (λ a. IsSome (names (seen atoms.new.seat) a)) (row_names r)) }
    ensures replies { IfSome result IsReply }
    ensures unrefused { IfSome result (λ r. row_refusals r ≡ []) }
    ensures says { (goals : ℕ) (h : entries.History) (t : Tree) → length h ≡ generation → IsDatabase (keeper_view keeper.old) db.now goals h
        → predicate_of (said (names (seen atoms.old.seat)) t) ≡ proc_named (text_of (names (seen atoms.old.seat))) procedure.now → clause_key t ≡ first.now
        → IfSome result (IsOpenFound goals h generation (proc_named (text_of (names (seen atoms.old.seat))) procedure.now) (text_of (names (seen atoms.new.seat))) (head_of (said (names (seen atoms.old.seat)) t))) }
{
    match opened_by_number(db, hints, atoms, keeper, procedure, first, generation) {
        Some(row) => Some(row),
        None => opened_as_noted(db, hints, atoms, keeper, procedure, first, generation),
    }
}

// The first of the clauses of a call, where a hint finds the procedure and that has a clause for the goal; else nothing is
// done. No text is read.
fn called_by_number<K: NamesTable>(
    db: &Db<CountedTerm>,
    hints: &Hints,
    atoms: &mut TableAtoms<K>,
    keeper: &mut Option<Keeper>,
    procedure: &Procedure,
    first: &ArgumentKey,
    generation: u64,
) -> Option<Row>
    requires keeper { KeeperAt K.atoms K.size keeper.old }
    requires counts { Counts (clause_counts db.now) (keeper_view keeper.old) generation }
    requires floor { db.now.floor ≤ generation }
    requires name { IsSome (names (seen atoms.old.seat) procedure.now.name) }
    requires key { All (λ a. IsSome (names (seen atoms.old.seat) a)) (key_atoms first.now) }
    ensures keeper { KeeperAt K.atoms K.size keeper.new }
    ensures steady { IsSteady (keeper_view keeper.old) (keeper_view keeper.new) }
    ensures quiet { IsQuiet (seen atoms.old.seat) (seen atoms.new.seat) }
    ensures missed { IfNone result (names (seen atoms.new.seat) ≡ names (seen atoms.old.seat)) }
    ensures named { IfSome result (λ r. All (λ a. IsSome (names (seen atoms.new.seat) a)) (row_names r)) }
    ensures replies { IfSome result IsReply }
    ensures unrefused { IfSome result (λ r. row_refusals r ≡ []) }
    ensures says { (goals e : ℕ) (h : entries.History) (t : Tree) → length h ≡ generation → IsDatabase (keeper_view keeper.old) db.now goals h
        → predicate_of (said (names (seen atoms.old.seat)) t) ≡ proc_named (text_of (names (seen atoms.old.seat))) procedure.now → clause_key t ≡ first.now
        → IfSome result (Tells goals e (text_of (names (seen atoms.new.seat))) (requests.call_clauses (said (names (seen atoms.old.seat)) t)) h) }
{
    match hints.find(procedure, first) {
        Some(Hint { index, guess }) => {
            called_at(
                db, guess, atoms, keeper, procedure, index, first, generation,
            )
        }
        None => None,
    }
}

// The same of a dynamic procedure.
fn opened_by_number<K: NamesTable>(
    db: &Db<CountedTerm>,
    hints: &Hints,
    atoms: &mut TableAtoms<K>,
    keeper: &mut Option<Keeper>,
    procedure: &Procedure,
    first: &ArgumentKey,
    generation: u64,
) -> Option<Row>
    requires keeper { KeeperAt K.atoms K.size keeper.old }
    requires counts { Counts (clause_counts db.now) (keeper_view keeper.old) generation }
    requires floor { db.now.floor ≤ generation }
    requires name { IsSome (names (seen atoms.old.seat) procedure.now.name) }
    requires key { All (λ a. IsSome (names (seen atoms.old.seat) a)) (key_atoms first.now) }
    ensures keeper { KeeperAt K.atoms K.size keeper.new }
    ensures steady { IsSteady (keeper_view keeper.old) (keeper_view keeper.new) }
    ensures quiet { IsQuiet (seen atoms.old.seat) (seen atoms.new.seat) }
    ensures missed { IfNone result (names (seen atoms.new.seat) ≡ names (seen atoms.old.seat)) }
    ensures named { IfSome result (λ r. All (λ a. IsSome (names (seen atoms.new.seat) a)) (row_names r)) }
    ensures replies { IfSome result IsReply }
    ensures unrefused { IfSome result (λ r. row_refusals r ≡ []) }
    ensures says { (goals : ℕ) (h : entries.History) (t : Tree) → length h ≡ generation → IsDatabase (keeper_view keeper.old) db.now goals h
        → predicate_of (said (names (seen atoms.old.seat)) t) ≡ proc_named (text_of (names (seen atoms.old.seat))) procedure.now → clause_key t ≡ first.now
        → IfSome result (IsOpenFound goals h generation (proc_named (text_of (names (seen atoms.old.seat))) procedure.now) (text_of (names (seen atoms.new.seat))) (head_of (said (names (seen atoms.old.seat)) t))) }
{
    match hints.find(procedure, first) {
        Some(Hint { index, guess }) => {
            opened_at(
                db, guess, atoms, keeper, procedure, index, first, generation,
            )
        }
        None => None,
    }
}

// The first of the clauses of a call in the procedure at the index, where it has one for the goal and that is a clause of the
// procedure that is called; else nothing is done.
fn called_at<K: NamesTable>(
    db: &Db<CountedTerm>,
    guess: Option<u64>,
    atoms: &mut TableAtoms<K>,
    keeper: &mut Option<Keeper>,
    procedure: &Procedure,
    i: u64,
    first: &ArgumentKey,
    generation: u64,
) -> Option<Row>
    requires keeper { KeeperAt K.atoms K.size keeper.old }
    requires counts { Counts (clause_counts db.now) (keeper_view keeper.old) generation }
    requires floor { db.now.floor ≤ generation }
    requires name { IsSome (names (seen atoms.old.seat) procedure.now.name) }
    requires key { All (λ a. IsSome (names (seen atoms.old.seat) a)) (key_atoms first.now) }
    ensures keeper { KeeperAt K.atoms K.size keeper.new }
    ensures steady { IsSteady (keeper_view keeper.old) (keeper_view keeper.new) }
    ensures quiet { IsQuiet (seen atoms.old.seat) (seen atoms.new.seat) }
    ensures missed { IfNone result (names (seen atoms.new.seat) ≡ names (seen atoms.old.seat)) }
    ensures named { IfSome result (λ r. All (λ a. IsSome (names (seen atoms.new.seat) a)) (row_names r)) }
    ensures replies { IfSome result IsReply }
    ensures unrefused { IfSome result (λ r. row_refusals r ≡ []) }
    ensures says { (goals e : ℕ) (h : entries.History) (t : Tree) → length h ≡ generation → IsDatabase (keeper_view keeper.old) db.now goals h
        → predicate_of (said (names (seen atoms.old.seat)) t) ≡ proc_named (text_of (names (seen atoms.old.seat))) procedure.now → clause_key t ≡ first.now
        → IfSome result (Tells goals e (text_of (names (seen atoms.new.seat))) (requests.call_clauses (said (names (seen atoms.old.seat)) t)) h) }
{
    if !stands_at(db, i, generation) {
        return None;
    }
    found_at(db, guess, atoms, keeper, procedure, i, first, generation)
}

// The same where the procedure is dynamic.
fn opened_at<K: NamesTable>(
    db: &Db<CountedTerm>,
    guess: Option<u64>,
    atoms: &mut TableAtoms<K>,
    keeper: &mut Option<Keeper>,
    procedure: &Procedure,
    i: u64,
    first: &ArgumentKey,
    generation: u64,
) -> Option<Row>
    requires keeper { KeeperAt K.atoms K.size keeper.old }
    requires counts { Counts (clause_counts db.now) (keeper_view keeper.old) generation }
    requires floor { db.now.floor ≤ generation }
    requires name { IsSome (names (seen atoms.old.seat) procedure.now.name) }
    requires key { All (λ a. IsSome (names (seen atoms.old.seat) a)) (key_atoms first.now) }
    ensures keeper { KeeperAt K.atoms K.size keeper.new }
    ensures steady { IsSteady (keeper_view keeper.old) (keeper_view keeper.new) }
    ensures quiet { IsQuiet (seen atoms.old.seat) (seen atoms.new.seat) }
    ensures missed { IfNone result (names (seen atoms.new.seat) ≡ names (seen atoms.old.seat)) }
    ensures named { IfSome result (λ r. All (λ a. IsSome (names (seen atoms.new.seat) a)) (row_names r)) }
    ensures replies { IfSome result IsReply }
    ensures unrefused { IfSome result (λ r. row_refusals r ≡ []) }
    ensures says { (goals : ℕ) (h : entries.History) (t : Tree) → length h ≡ generation → IsDatabase (keeper_view keeper.old) db.now goals h
        → predicate_of (said (names (seen atoms.old.seat)) t) ≡ proc_named (text_of (names (seen atoms.old.seat))) procedure.now → clause_key t ≡ first.now
        → IfSome result (IsOpenFound goals h generation (proc_named (text_of (names (seen atoms.old.seat))) procedure.now) (text_of (names (seen atoms.new.seat))) (head_of (said (names (seen atoms.old.seat)) t))) }
{
    if !is_open_at(db, i, generation) {
        return None;
    }
    found_at(db, guess, atoms, keeper, procedure, i, first, generation)
}

// The first of the clauses in the procedure at the index, or that there is none, where that procedure is the goal's, as a
// clause shows that the generation sees there; else nothing is done.
fn found_at<K: NamesTable>(
    db: &Db<CountedTerm>,
    guess: Option<u64>,
    atoms: &mut TableAtoms<K>,
    keeper: &mut Option<Keeper>,
    procedure: &Procedure,
    i: u64,
    first: &ArgumentKey,
    generation: u64,
) -> Option<Row>
    requires there { i < length db.now.parts }
    requires keeper { KeeperAt K.atoms K.size keeper.old }
    requires counts { Counts (clause_counts db.now) (keeper_view keeper.old) generation }
    requires floor { db.now.floor ≤ generation }
    requires name { IsSome (names (seen atoms.old.seat) procedure.now.name) }
    requires key { All (λ a. IsSome (names (seen atoms.old.seat) a)) (key_atoms first.now) }
    ensures keeper { KeeperAt K.atoms K.size keeper.new }
    ensures steady { IsSteady (keeper_view keeper.old) (keeper_view keeper.new) }
    ensures quiet { IsQuiet (seen atoms.old.seat) (seen atoms.new.seat) }
    ensures missed { IfNone result (names (seen atoms.new.seat) ≡ names (seen atoms.old.seat)) }
    ensures named { IfSome result (λ r. All (λ a. IsSome (names (seen atoms.new.seat) a)) (row_names r)) }
    ensures replies { IfSome result IsReply }
    ensures unrefused { IfSome result (λ r. row_refusals r ≡ []) }
    ensures says { (goals : ℕ) (h : entries.History) (t : Tree) → length h ≡ generation → IsDatabase (keeper_view keeper.old) db.now goals h
        → predicate_of (said (names (seen atoms.old.seat)) t) ≡ proc_named (text_of (names (seen atoms.old.seat))) procedure.now → clause_key t ≡ first.now
        → IfSome result (IsFound goals h db.now i generation (proc_named (text_of (names (seen atoms.old.seat))) procedure.now) (text_of (names (seen atoms.new.seat))) (head_of (said (names (seen atoms.old.seat)) t))) }
{
    agree(atoms, keeper);
    let Some(hit) = first_hit(db, guess, i, first, generation) else {
        return none_at(db, procedure, i, generation);
    };
    if !is_of(hit.clause, procedure) {
        return None;
    }
    Some(handed(hand_out(atoms, keeper, Some(hit))))
}

// The first clause of a call in the procedure at the index: the one that was added at the place which is guessed, if that is seen to
// be the only one, or else the one that is looked for.
fn first_hit<'d>(
    db: &'d Db<CountedTerm>,
    guess: Option<u64>,
    i: u64,
    first: &ArgumentKey,
    g: u64,
) -> Option<Hit<'d, CountedTerm>>
    requires there { i < length db.now.parts }
    requires floor { db.now.floor ≤ g }
    ensures held { IfSome result (λ h. IsHeld h.clause.now db.now) }
    ensures says { (f : Tree → entries.Clause) (d : ℕ → Database entries.Clause) (t : entries.Clause → Bool) → SaysFor f db.now d
        → EachHeld (λ c. are_apart key_order is_any first.now (clause_key c) ≡ t (f c)) db.now
        → IfSome (slice_get db.now.parts i) (λ x. read_hit f (hit_of result) ≡ first_named (choices t g (proc_of x.name) (d g))) }
{
    if let Some(place) = guess {
        if let Some(hit) = db.alone_at(i, place, first, g) {
            return Some(hit);
        }
    }
    db.first_at(i, first, g)
}

// The first of the clauses of a call, where the procedure has the text that is noted for its number; else nothing is done.
fn called_as_noted<K: NamesTable>(
    db: &Db<CountedTerm>,
    hints: &Hints,
    atoms: &mut TableAtoms<K>,
    keeper: &mut Option<Keeper>,
    procedure: &Procedure,
    first: &ArgumentKey,
    generation: u64,
) -> Option<Row>
    requires keeper { KeeperAt K.atoms K.size keeper.old }
    requires counts { Counts (clause_counts db.now) (keeper_view keeper.old) generation }
    requires floor { db.now.floor ≤ generation }
    requires name { IsSome (names (seen atoms.old.seat) procedure.now.name) }
    requires key { All (λ a. IsSome (names (seen atoms.old.seat) a)) (key_atoms first.now) }
    ensures keeper { KeeperAt K.atoms K.size keeper.new }
    ensures steady { IsSteady (keeper_view keeper.old) (keeper_view keeper.new) }
    ensures quiet { IsQuiet (seen atoms.old.seat) (seen atoms.new.seat) }
    ensures missed { IfNone result (names (seen atoms.new.seat) ≡ names (seen atoms.old.seat)) }
    ensures named { IfSome result (λ r. All (λ a. IsSome (names (seen atoms.new.seat) a)) (row_names r)) }
    ensures replies { IfSome result IsReply }
    ensures unrefused { IfSome result (λ r. row_refusals r ≡ []) }
    ensures says { (goals e : ℕ) (h : entries.History) (t : Tree) → length h ≡ generation → IsDatabase (keeper_view keeper.old) db.now goals h
        → predicate_of (said (names (seen atoms.old.seat)) t) ≡ proc_named (text_of (names (seen atoms.old.seat))) procedure.now → clause_key t ≡ first.now
        → IfSome result (Tells goals e (text_of (names (seen atoms.new.seat))) (requests.call_clauses (said (names (seen atoms.old.seat)) t)) h) }
{
    let Some(i) = noted_place(db, hints, atoms, procedure) else {
        return None;
    };
    if !stands_at(db, i, generation) {
        return None;
    }
    Some(handed(first_clause(db, atoms, keeper, i, first, generation)))
}

// The same of a dynamic procedure.
fn opened_as_noted<K: NamesTable>(
    db: &Db<CountedTerm>,
    hints: &Hints,
    atoms: &mut TableAtoms<K>,
    keeper: &mut Option<Keeper>,
    procedure: &Procedure,
    first: &ArgumentKey,
    generation: u64,
) -> Option<Row>
    requires keeper { KeeperAt K.atoms K.size keeper.old }
    requires counts { Counts (clause_counts db.now) (keeper_view keeper.old) generation }
    requires floor { db.now.floor ≤ generation }
    requires name { IsSome (names (seen atoms.old.seat) procedure.now.name) }
    requires key { All (λ a. IsSome (names (seen atoms.old.seat) a)) (key_atoms first.now) }
    ensures keeper { KeeperAt K.atoms K.size keeper.new }
    ensures steady { IsSteady (keeper_view keeper.old) (keeper_view keeper.new) }
    ensures quiet { IsQuiet (seen atoms.old.seat) (seen atoms.new.seat) }
    ensures missed { IfNone result (names (seen atoms.new.seat) ≡ names (seen atoms.old.seat)) }
    ensures named { IfSome result (λ r. All (λ a. IsSome (names (seen atoms.new.seat) a)) (row_names r)) }
    ensures replies { IfSome result IsReply }
    ensures unrefused { IfSome result (λ r. row_refusals r ≡ []) }
    ensures says { (goals : ℕ) (h : entries.History) (t : Tree) → length h ≡ generation → IsDatabase (keeper_view keeper.old) db.now goals h
        → predicate_of (said (names (seen atoms.old.seat)) t) ≡ proc_named (text_of (names (seen atoms.old.seat))) procedure.now → clause_key t ≡ first.now
        → IfSome result (IsOpenFound goals h generation (proc_named (text_of (names (seen atoms.old.seat))) procedure.now) (text_of (names (seen atoms.new.seat))) (head_of (said (names (seen atoms.old.seat)) t))) }
{
    let Some(i) = noted_place(db, hints, atoms, procedure) else {
        return None;
    };
    if !is_open_at(db, i, generation) {
        return None;
    }
    Some(handed(first_clause(db, atoms, keeper, i, first, generation)))
}

// At which index the procedure stands, where it has the text that is noted for its number. It is none of the system then.
fn noted_place<K: NamesTable>(
    db: &Db<CountedTerm>,
    hints: &Hints,
    atoms: &mut TableAtoms<K>,
    p: &Procedure,
) -> Option<u64>
    requires { IsSome (names (seen atoms.old.seat) p.now.name) }
    ensures there { IfSome result (λ i. option_map (λ x. proc_of x.name) (slice_get db.now.parts i) ≡ Some (proc_named (text_of (names (seen atoms.old.seat))) p.now)) }
    ensures program { IfSome result (λ i. is_system (proc_named (text_of (names (seen atoms.old.seat))) p.now) ≡ false) }
    ensures held { names (seen atoms.new.seat) ≡ names (seen atoms.old.seat) }
    ensures quiet { IsQuiet (seen atoms.old.seat) (seen atoms.new.seat) }
{
    let Some(noted) = hints.noted(p) else {
        return None;
    };
    noted.is_open();
    let spelled = noted.predicate();
    if !is_spelled(atoms, p, spelled) {
        return None;
    }
    db.index_of(spelled)
}

// That there is no clause for a goal, where the procedure at the index is that of the predicate.
fn none_at(db: &Db<CountedTerm>, procedure: &Procedure, i: u64, g: u64) -> Option<Row>
    requires there { i < length db.now.parts }
    requires floor { db.now.floor ≤ g }
    ensures none { IfSome result (IsNoneAt db.now procedure.now i g) }
    ensures replies { IfSome result IsReply }
    ensures unrefused { IfSome result (λ r. row_refusals r ≡ []) }
{
    if !is_headed_so(db, procedure, i, g) {
        return None;
    }
    Some(Row::Reads(Reply::Clauses(None)))
}

// Whether the first clause that the generation sees at the index is one of the predicate.
fn is_headed_so(db: &Db<CountedTerm>, procedure: &Procedure, i: u64, g: u64) -> bool
    requires there { i < length db.now.parts }
    requires floor { db.now.floor ≤ g }
    ensures { result ≡ true → IsHeaded db.now procedure.now i g }
{
    match db.first_at(i, &ArgumentKey::Any, g) {
        Some(hit) => is_of(hit.clause, procedure),
        None => false,
    }
}

// The row that hands out the first of the clauses.
fn handed(found: Result<Option<Found<Stored>>, Memory>) -> Row
    ensures row { result ≡ handed_row found }
    ensures replies { IsReply result }
    ensures unrefused { row_refusals result ≡ [] }
{
    match found {
        Ok(found) => Row::Reads(Reply::Clauses(found)),
        Err(Memory) => Row::Memory,
    }
}

// Whether a procedure stands at the index and is there at the generation.
fn stands_at(db: &Db<CountedTerm>, i: u64, g: u64) -> bool
    requires { db.now.floor ≤ g }
    ensures within { result ≡ true → i < length db.now.parts }
    ensures there { result ≡ true → (f : Tree → entries.Clause) (d : ℕ → database.Database entries.Clause) → SaysFor f db.now d
        → IfSome (slice_get db.now.parts i) (λ x. is_some (program_access (d g) (proc_of x.name)) ≡ true) }
{
    if i >= db.procedures() {
        return false;
    }
    db.access_at(i, g).is_some()
}

// Whether a dynamic procedure stands at the index and is there at the generation.
fn is_open_at(db: &Db<CountedTerm>, i: u64, g: u64) -> bool
    requires { db.now.floor ≤ g }
    ensures within { result ≡ true → i < length db.now.parts }
    ensures there { result ≡ true → (f : Tree → entries.Clause) (d : ℕ → database.Database entries.Clause) → SaysFor f db.now d
        → IfSome (slice_get db.now.parts i) (λ x. program_access (d g) (proc_of x.name) ≡ Some database.dynamic) }
{
    if i >= db.procedures() {
        return false;
    }
    is_dynamic(db.access_at(i, g))
}

// Whether this is how a dynamic procedure may be used.
fn is_dynamic(access: Option<Access>) -> bool
    ensures { result ≡ true → option_map access_of access ≡ Some database.dynamic }
{
    match access {
        Some(Access::Static) => false,
        Some(Access::Dynamic) => true,
        None => false,
    }
}

// Whether the clause is one of the predicate, by the number of its head's name.
fn is_of(clause: &CountedTerm, procedure: &Procedure) -> bool
    ensures { result ≡ true → (m : Names) → Lawful m → predicate_of (head_part (said m clause.now)) ≡ proc_named (text_of m) procedure.now }
{
    match head_procedure(clause.term()) {
        Some(own) => same_predicate(&own, procedure),
        None => false,
    }
}

// Whether the two predicates are one.
fn same_predicate(p: &Procedure, q: &Procedure) -> bool
    ensures { result ≡ true → p.now ≡ q.now }
{
    if p.name.slot() != q.name.slot() {
        return false;
    }
    p.arity == q.arity
}

/// The predicate in texts, by what the engine holds. It is taken from the hints, where these have it; else it is made. The only
/// error is out of memory.
pub(crate) fn noted_text<K: NamesTable>(
    alloc: Global,
    hints: &mut Hints,
    atoms: &mut TableAtoms<K>,
    p: &Procedure,
) -> Result<Proc, Memory>
    requires { IsSome (names (seen atoms.old.seat) p.now.name) }
    ensures spelled { IfOk result (λ q. proc_of q ≡ proc_named (text_of (names (seen atoms.old.seat))) p.now) }
    ensures held { names (seen atoms.new.seat) ≡ names (seen atoms.old.seat) }
    ensures quiet { IsQuiet (seen atoms.old.seat) (seen atoms.new.seat) }
{
    match hints.take(p) {
        Some(noted) => spelled_as(alloc, atoms, p, noted),
        None => predicate_text(alloc, atoms, p),
    }
}

/// Notes where the procedure stands, if it does.
pub(crate) fn note(db: &Db<CountedTerm>, hints: &mut Hints, procedure: &Procedure, p: Proc) {
    match db.index_of(&p) {
        Some(i) => hints.note(procedure, i, p),
        None => {}
    }
}
