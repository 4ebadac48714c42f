//! The clauses of a call are handed out.
ghost use Rattle.std.specs.Prelude.{◌≡◌, ◌≤◌, ◌<◌, ℕ, List, true, not, filter, length, IfOk, IfSome, IsSome};
ghost use Rattle.std.specs.List.{All, list_any, slice_get};
ghost use Rattle.pl_term.specs.Tree.{Tree};
ghost use Rattle.pl_model.specs.History as entries;
ghost use Rattle.pl_model.specs.Database as database;
ghost use Rattle.pl_model.specs.Database.{Database, choices, is_at, seen as seen_at};
ghost use Rattle.pl_model.specs.FirstArguments.{head_of};
ghost use Rattle.pl_model.specs.Predicates.{is_excluded};
ghost use Rattle.pl_model.specs.laws.Shown.{proc_of};
ghost use Rattle.gen_core.specs.Hits.{hit_of};
ghost use Rattle.clause_db.specs.Reading.{SaysFor, read_hit};
ghost use Rattle.clause_db.specs.Stands.{after, first_named};
ghost use Rattle.term_store.specs.ArgumentKeys.{clause_key, key_atoms};
ghost use Rattle.term_store.specs.NumberedNames.{names_of, term_by};
ghost use Rattle.atom_words.specs.Seats.{seen};
ghost use Rattle.atom_table.specs.Naming.{names, requests};
ghost use Rattle.world_api.specs.Replies.{IsFront, found_names};
ghost use Rattle.world_api.specs.Texts.{text_of};
ghost use Rattle.counted_terms.specs.CountedTerms.{IsCounted, said};
ghost use Rattle.counted_terms.specs.Keeping.{HoldsOn, KeeperAt, keeper_view, kept, tally};
ghost use Rattle.hub_database.specs.Clauses.{AllCounted, clause_by};

use atom_table::{Keeper, NamesTable, TableAtoms};
use clause_db::{Db, Hit};
use counted_terms::{CountedTerm, agree, lend_to};
use pl_term::Memory;
use term_store::{ArgumentKey, Stored};
use world_api::Found;

/// Hands out a clause that was found. The only error is that so many hold the clause that they can no longer be counted.
pub(crate) fn hand_out<K: NamesTable>(
    atoms: &mut TableAtoms<K>,
    keeper: &mut Option<Keeper>,
    hit: Option<Hit<'_, CountedTerm>>,
) -> Result<Option<Found<Stored>>, Memory>
    requires keeper { KeeperAt K.atoms K.size keeper.old }
    requires counted { IfSome hit (λ h. IsCounted h.clause.now (keeper_view keeper.old)) }
    ensures keeper { KeeperAt K.atoms K.size keeper.new }
    ensures keeps { kept (keeper_view keeper.new) ≡ kept (keeper_view keeper.old) }
    ensures counts { (k : ℕ) → tally (keeper_view keeper.new) k ≡ tally (keeper_view keeper.old) k }
    ensures holds { HoldsOn (names (seen atoms.old.seat)) (names (seen atoms.new.seat)) }
    ensures refusals { (seen atoms.new.seat).refusals ≡ (seen atoms.old.seat).refusals }
    ensures requests { requests (seen atoms.new.seat) ≡ requests (seen atoms.old.seat) }
    ensures named { IfOk result (λ r. All (λ a. IsSome (names (seen atoms.new.seat) a)) (found_names names_of r)) }
    ensures front { IfOk result (λ r. (cs : List (database.Stored entries.Clause)) → read_hit (clause_by (keeper_view keeper.old)) (hit_of hit.entry) ≡ first_named cs
        → IsFront term_by (text_of (names (seen atoms.new.seat))) r cs) }
{
    let Some(found) = hit else {
        return Ok(None);
    };
    let clause = lend_to(atoms, keeper, found.clause)?;
    Ok(Some(Found {
        clause,
        place: found.place,
        more: found.more,
    }))
}

/// The first clause of a call at the generation `g` of the procedure that stands at the index in the database, whose first
/// argument has the key `first`, all of whose atoms the engine holds. By the engine's texts it is the first of the
/// definition's `choices`; `None` where there is none. The only error is that so many hold the clause that they can no
/// longer be counted.
pub fn first_clause<K: NamesTable>(
    db: &Db<CountedTerm>,
    atoms: &mut TableAtoms<K>,
    keeper: &mut Option<Keeper>,
    i: u64,
    first: &ArgumentKey,
    g: u64,
) -> Result<Option<Found<Stored>>, Memory>
    requires keeper { KeeperAt K.atoms K.size keeper.old }
    requires counted { AllCounted (keeper_view keeper.old) db.now }
    requires there { i < length db.now.parts }
    requires floor { db.now.floor ≤ g }
    requires key { All (λ a. IsSome (names (seen atoms.old.seat) a)) (key_atoms first.now) }
    ensures keeper { KeeperAt K.atoms K.size keeper.new }
    ensures keeps { kept (keeper_view keeper.new) ≡ kept (keeper_view keeper.old) }
    ensures counts { (k : ℕ) → tally (keeper_view keeper.new) k ≡ tally (keeper_view keeper.old) k }
    ensures holds { HoldsOn (names (seen atoms.old.seat)) (names (seen atoms.new.seat)) }
    ensures refusals { (seen atoms.new.seat).refusals ≡ (seen atoms.old.seat).refusals }
    ensures requests { requests (seen atoms.new.seat) ≡ requests (seen atoms.old.seat) }
    ensures named { IfOk result (λ r. All (λ a. IsSome (names (seen atoms.new.seat) a)) (found_names names_of r)) }
    ensures says { (d : ℕ → Database entries.Clause) (t : Tree) → SaysFor (clause_by (keeper_view keeper.old)) db.now d → clause_key t ≡ first.now
        → IfOk result (λ r. IfSome (slice_get db.now.parts i) (λ x. IsFront term_by (text_of (names (seen atoms.new.seat))) r
        (choices (λ (c : entries.Clause). is_excluded (head_of (said (names (seen atoms.old.seat)) t)) c.head) g (proc_of x.name) (d g)))) }
{
    agree(atoms, keeper);
    let hit = db.first_at(i, first, g);
    hand_out(atoms, keeper, hit)
}

/// The next clause of such a call, after the clause that was added at `place`, which `g` sees.
pub fn next_clause<K: NamesTable>(
    db: &Db<CountedTerm>,
    atoms: &mut TableAtoms<K>,
    keeper: &mut Option<Keeper>,
    place: u64,
    first: &ArgumentKey,
    g: u64,
) -> Result<Option<Found<Stored>>, Memory>
    requires keeper { KeeperAt K.atoms K.size keeper.old }
    requires counted { AllCounted (keeper_view keeper.old) db.now }
    requires floor { db.now.floor ≤ g }
    requires key { All (λ a. IsSome (names (seen atoms.old.seat) a)) (key_atoms first.now) }
    ensures keeper { KeeperAt K.atoms K.size keeper.new }
    ensures keeps { kept (keeper_view keeper.new) ≡ kept (keeper_view keeper.old) }
    ensures counts { (k : ℕ) → tally (keeper_view keeper.new) k ≡ tally (keeper_view keeper.old) k }
    ensures holds { HoldsOn (names (seen atoms.old.seat)) (names (seen atoms.new.seat)) }
    ensures refusals { (seen atoms.new.seat).refusals ≡ (seen atoms.old.seat).refusals }
    ensures requests { requests (seen atoms.new.seat) ≡ requests (seen atoms.old.seat) }
    ensures named { IfOk result (λ r. All (λ a. IsSome (names (seen atoms.new.seat) a)) (found_names names_of r)) }
    ensures says { (d : ℕ → Database entries.Clause) (t : Tree) (p : entries.Proc) → SaysFor (clause_by (keeper_view keeper.old)) db.now d → clause_key t ≡ first.now
        → list_any (is_at place) (seen_at g p (d g)) ≡ true
        → IfOk result (λ r. IsFront term_by (text_of (names (seen atoms.new.seat))) r
        (filter (λ (s : database.Stored entries.Clause). not (is_excluded (head_of (said (names (seen atoms.old.seat)) t)) s.clause.head)) (after place (seen_at g p (d g))))) }
{
    agree(atoms, keeper);
    let hit = db.next_at(place, first, g);
    hand_out(atoms, keeper, hit)
}
