//! The database is read: its operators and flags, and the first clause for a goal.
ghost use Rattle.std.specs.Prelude.{◌≡◌, ◌≤◌, [], ℕ, IsSome};
ghost use Rattle.std.specs.List.{All};
ghost use Rattle.pl_term.specs.Tree.{Chars, Tree};
ghost use Rattle.pl_model.specs.Database as database;
ghost use Rattle.pl_model.specs.Database.{choices};
ghost use Rattle.pl_model.specs.FirstArguments.{head_of};
ghost use Rattle.pl_model.specs.History as entries;
ghost use Rattle.pl_model.specs.Predicates.{is_excluded};
ghost use Rattle.pl_model.specs.Requests as requests;
ghost use Rattle.pl_model.specs.laws.Shown.{proc_of};
ghost use Rattle.atom_words.specs.Seats.{seen};
ghost use Rattle.atom_words.specs.declared.view.View.{View};
ghost use Rattle.atom_table.specs.Naming.{names};
ghost use Rattle.clause_db.specs.Reading.{SaysFor};
ghost use Rattle.term_store.specs.ArgumentKeys.{clause_key, key_atoms};
ghost use Rattle.term_store.specs.NumberedNames.{term_by};
ghost use Rattle.world_api.specs.Replies.{HasTable, IsFront};
ghost use Rattle.world_api.specs.Texts.{text_of};
ghost use Rattle.counted_terms.specs.CountedTerms.{said};
ghost use Rattle.counted_terms.specs.Keeping.{KeeperAt, keeper_view};
ghost use Rattle.counted_terms.specs.Sharing.{Counts};
ghost use Rattle.counted_terms.specs.Rows.{row_names, row_refusals};
ghost use Rattle.hub_database.specs.Clauses.{clause_by};
ghost use Rattle.hub_database.specs.Database.{IsDatabase, clause_counts};
ghost use Rattle.hub_database.specs.Rows.{HandsOut, IsQuiet, IsReply, IsSteady, RepliesBy, Tells, generation_after};

use crate::calls::first_clause;
use atom_table::{Keeper, NamesTable, TableAtoms};
use clause_db::Db;
use counted_terms::{CountedTerm, Row};
use pl_model::shows::Proc;
use pl_term::Memory;
use term_store::ArgumentKey;
use world_api::Reply;

/// The operators and the flag `double_quotes`.
pub fn look(db: &Db<CountedTerm>) -> Row
    ensures named { row_names result ≡ [] }
    ensures unrefused { row_refusals result ≡ [] }
    ensures table { RepliesBy (λ r. HasTable r) result }
    ensures look { (goals e : ℕ) (h : entries.History) (k : View) (text : ℕ → Chars) → IsDatabase k db.now goals h → Tells goals e text requests.look h result }
    ensures operators { (goals e : ℕ) (h : entries.History) (k : View) (text : ℕ → Chars) → IsDatabase k db.now goals h → Tells goals e text requests.read_operators h result }
{
    match db.shared_operators() {
        Ok(operators) => Row::Reads(Reply::Standing {
            operators,
            quotes: db.flags().double_quotes,
        }),
        Err(Memory) => Row::Memory,
    }
}

/// The first of the clauses of a procedure that a goal tries whose first argument has the key, all of whose atoms the engine
/// holds.
pub fn first_of<K: NamesTable>(
    db: &Db<CountedTerm>,
    atoms: &mut TableAtoms<K>,
    keeper: &mut Option<Keeper>,
    p: &Proc,
    first: &ArgumentKey,
    generation: u64,
) -> Row
    requires keeper { KeeperAt K.atoms K.size keeper.old }
    requires counts { Counts (clause_counts db.now) (keeper_view keeper.old) generation }
    requires floor { db.now.floor ≤ generation }
    requires key { All (λ a. IsSome (names (seen atoms.old.seat) a)) (key_atoms first.now) }
    ensures keeper { KeeperAt K.atoms K.size keeper.new }
    ensures steady { IsSteady (keeper_view keeper.old) (keeper_view keeper.new) }
    ensures quiet { IsQuiet (seen atoms.old.seat) (seen atoms.new.seat) }
    ensures named { All (λ a. IsSome (names (seen atoms.new.seat) a)) (row_names result) }
    ensures reads { (g : ℕ) → generation_after result g ≡ g }
    ensures replies { IsReply result }
    ensures unrefused { row_refusals result ≡ [] }
    ensures says { (d : ℕ → database.Database entries.Clause) (t : Tree) → SaysFor (clause_by (keeper_view keeper.old)) db.now d → clause_key t ≡ first.now
        → HandsOut (λ f. IsFront term_by (text_of (names (seen atoms.new.seat))) f
        (choices (λ (c : entries.Clause). is_excluded (head_of (said (names (seen atoms.old.seat)) t)) c.head) generation (proc_of p.now) (d generation))) result }
{
    match db.index_of(p) {
        Some(i) => match first_clause(db, atoms, keeper, i, first, generation) {
            Ok(found) => Row::Reads(Reply::Clauses(found)),
            Err(Memory) => Row::Memory,
        },
        None => Row::Reads(Reply::Clauses(None)),
    }
}

/// A cycle of collection is asked for, and not waited for (SWI-Prolog manual, section 'Multithreaded applications').
pub fn collection() -> Row
    ensures named { row_names result ≡ [] }
    ensures unrefused { row_refusals result ≡ [] }
    ensures atoms { (goals e : ℕ) (h : entries.History) (text : ℕ → Chars) → Tells goals e text requests.collect_atoms h result }
    ensures clauses { (goals e : ℕ) (h : entries.History) (text : ℕ → Chars) → Tells goals e text requests.collect_clauses h result }
{
    Row::Reads(Reply::Done)
}
