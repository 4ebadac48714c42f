//! Dated lists: the clauses of a procedure in database order, with what each generation sees of them.
ghost use Rattle.std.specs.Prelude.{◌≡◌, ℕ, true, ◌<◌, ◌≤◌, ◌-◌, ◌^◌, ◌++◌, ◌∷◌, [], ◌&&◌, ◌==◌, false, length, min, All, IfErr, IfOk, IfSome, IfNone, MatchOption, OnErr, OnOk, filter, map, sum_by};
ghost use Rattle.std.specs.List.{list_any};
ghost use Rattle.gen_core.specs.Visible.{is_visible, is_droppable, is_live, fresh, erased_by, erased_all, live_size, is_droppable_at, counted, behind, is_choice, first_choice, DropsOne};
ghost use Rattle.gen_core.specs.ClauseIndex.{IsSound};
ghost use Rattle.gen_core.specs.Hits.{hit_of};
ghost use Rattle.gen_core.specs.Runs.{AreRuns};
ghost use Rattle.gen_core.specs.Shared.{AreShared, SharesWith};
ghost use Rattle.std.specs.Ordering.{nat_cmp};
ghost use Rattle.std.specs.BTreeSet as set;

use crate::clause_index::ClauseIndex;
use crate::dated_clause::DatedClause;
use crate::hit::Hit;
use crate::numbers::{first_number, last_number};
use crate::runs::Runs;
use pl_model::kept::Kept;
use pl_term::Memory;
use std::alloc::Global;
use std::collections::BTreeSet;
use std::marker::Model;

/// The clauses of a procedure, seen by contracts as the list of them in database order, each with the places of the
/// updates that added and that erased it. A call looks through a few clauses one after the other; among more it finds its next
/// clause by the key of its first argument, and passes over no clause of another key.
#[derive(Drop)]
pub struct Dated<C: Kept> {
    index: ClauseIndex<C>,
    runs: Runs,
    // The numbers of the clauses that have their keys in common with others.
    shared: BTreeSet<u64>,
}

impl<C: Kept> Model for Dated<C> {
    ghost use Rattle.std.specs.Prelude.{List};
    ghost use Rattle.gen_core.specs.declared.dated_clause.DatedClause.{DatedClause};
    ghost use Rattle.gen_core.specs.ClauseIndex.{IsSound, clauses_of};
    ghost use Rattle.gen_core.specs.Runs.{AreRuns};
    ghost use Rattle.gen_core.specs.Shared.{AreShared};

    ghost Value = { List (DatedClause C) };

    ghost view = { λ d. clauses_of d.index.clauses };

    ghost invariant = { λ d. IsSound C.Key.Ord.cmp C.any C.key_of d.index × AreRuns d.runs d.index.clauses
        × AreShared C.Key.Ord.cmp C.any C.key_of d.shared d.index.clauses };
}

impl<C: Kept> Dated<C> {
    /// No clauses. It takes no memory.
    pub fn new(alloc: Global) -> Dated<C>
        ensures { result ≡ [] }
    {
        Dated {
            index: ClauseIndex::new(alloc),
            runs: Runs::new(alloc),
            shared: BTreeSet::new(alloc),
        }
    }

    /// Whether the generation `g` sees a clause. It takes no memory.
    pub fn visible(&self, g: u64) -> bool
        ensures { result ≡ list_any (is_visible g) self.now }
    {
        self.index.any_visible(g)
    }

    /// The first clause of a call at the generation `g` whose first argument has the key `first`, or the next one after
    /// that which was added at `place`, with its place and whether more follow. It takes no memory.
    pub fn next_after(&self, place: Option<u64>, g: u64, first: &C::Key) -> Option<Hit<'_, C>>
        ensures { hit_of result ≡ first_choice (filter (is_choice C.Key.Ord.cmp C.any C.key_of g first.now) (behind place self.now)) }
    {
        self.index.next_after(&self.runs, place, g, first)
    }

    /// The clause that was added at `place`, where it is seen that it is the only one that a call at the generation `g` tries whose
    /// first argument has the key `first`. `None` says nothing. It takes no memory.
    pub fn alone(&self, place: u64, g: u64, first: &C::Key) -> Option<Hit<'_, C>>
        ensures { IfSome result (λ _. hit_of result ≡ first_choice (filter (is_choice C.Key.Ord.cmp C.any C.key_of g first.now) self.now)) }
    {
        self.index.alone(&self.shared, place, g, first)
    }

    /// Whether one of the first `floor` updates erased a clause. It takes no memory.
    pub fn droppable(&self, floor: u64) -> bool
        ensures { result ≡ list_any (is_droppable floor) self.now }
    {
        self.index.droppable(floor)
    }

    /// How many clauses are erased. It takes no memory.
    pub fn erased_len(&self) -> usize
        ensures { result ≡ sum_by counted self.now }
    {
        self.index.erased_len()
    }

    /// Adds a clause as the first one (ISO 8.9.1), by the update at `place`, which is above the places of all earlier
    /// additions. A refused clause is handed back, and the list is as it was; the only cause is out of memory.
    pub fn add_first(&mut self, clause: C, place: u64) -> Result<(), (C, Memory)>
        requires bound { place < 2 ^ 49 }
        requires later { All (λ d. d.place < place) self.old }
        ensures ok { OnOk result (self.new ≡ fresh place clause ∷ self.old) }
        ensures err { IfErr result (λ e. (e.0 ≡ clause) × (self.new ≡ self.old)) }
    {
        let number = first_number(place);
        self.runs.leave(number);
        if share(&mut self.shared, &self.index, &clause, number).is_err() {
            return Err((clause, Memory));
        }
        self.index.add(clause, place, number)
    }

    /// Adds a clause as the last one (ISO 8.9.2), by the update at `place`, which is above the places of all earlier
    /// additions. A refused clause is handed back, and the list is as it was; the only cause is out of memory.
    pub fn add_last(&mut self, clause: C, place: u64) -> Result<(), (C, Memory)>
        requires bound { place < 2 ^ 49 }
        requires later { All (λ d. d.place < place) self.old }
        ensures ok { OnOk result (self.new ≡ self.old ++ fresh place clause ∷ []) }
        ensures err { IfErr result (λ e. (e.0 ≡ clause) × (self.new ≡ self.old)) }
    {
        let number = last_number(place);
        self.runs.leave(number);
        if share(&mut self.shared, &self.index, &clause, number).is_err() {
            return Err((clause, Memory));
        }
        self.index.add(clause, place, number)
    }

    /// Whether the clause that was added at the place is there and not erased. It takes no memory.
    pub fn has_live(&self, clause: u64) -> bool
        ensures { result ≡ list_any (λ d. (d.place == clause) && is_live d) self.now }
    {
        self.index.has_live(clause)
    }

    /// Erases the clause that was added at the place `clause`, by the update at `place`, and says whether it was there and
    /// not erased before (ISO 8.9.3). The only error is out of memory; after it the list is as it was.
    pub fn erase(&mut self, clause: u64, place: u64) -> Result<bool, Memory>
        ensures was { IfOk result (λ b. b ≡ list_any (λ d. (d.place == clause) && is_live d) self.old) }
        ensures ok { OnOk result (self.new ≡ map (erased_by clause place) self.old) }
        ensures err { OnErr result (self.new ≡ self.old) }
    {
        let erased = self.index.erase(clause, place)?;
        note(&mut self.runs, &self.index, clause);
        Ok(erased)
    }

    /// Erases all clauses that are not erased (ISO 8.9.4), by the update at `place`. The only error is out of memory;
    /// after it the list is as it was. Its time grows with the number of clauses, those that are erased included.
    pub fn erase_all(&mut self, place: u64) -> Result<(), Memory>
        ensures ok { OnOk result (self.new ≡ map (erased_all place) self.old) }
        ensures err { OnErr result (self.new ≡ self.old) }
    {
        self.index.erase_all(place)
    }

    /// The cells of the clauses that are not erased, or 2^64 - 1 where they are more. It takes no memory. Its time grows
    /// with the number of clauses, those that are erased included.
    pub fn live_cells(&self) -> u64
        ensures { result ≡ min (sum_by (live_size C.size) self.now) (2 ^ 64 - 1) }
    {
        self.index.live_cells()
    }

    /// The places of the additions of the clauses that one of the first `floor` updates erased. No two clauses have the
    /// same place. The only error is out of memory. Its time grows with the number of these clauses alone.
    pub fn droppable_places(&self, floor: u64) -> Result<Vec<u64>, Memory>
        ensures places { IfOk result (λ ps. (p : ℕ) → list_any (λ q. q == p) ps.items ≡ list_any (is_droppable_at floor p) self.now) }
        ensures once { (p : ℕ) → length (filter (λ d. d.place == p) self.now) ≤ 1 }
    {
        self.index.droppable_places(floor)
    }

    /// Takes out a clause that one of the first `floor` updates erased, the one that was erased first, if there is one,
    /// and hands it out with its places. It takes no memory.
    pub fn drop_erased(&mut self, floor: u64) -> Option<DatedClause<C>>
        ensures some { IfSome result (λ d. DropsOne floor d self.old self.new) }
        ensures none { IfNone result ((list_any (is_droppable floor) self.old ≡ false) × (self.new ≡ self.old)) }
    {
        self.index.drop_erased(floor)
    }
}

/// Notes the erasure of the clause that the update at the place added.
fn note<C: Kept>(runs: &mut Runs, index: &ClauseIndex<C>, clause: u64)
    requires sound { IsSound C.Key.Ord.cmp C.any C.key_of index.now }
    requires runs { AreRuns runs.old index.now.clauses }
    ensures runs { AreRuns runs.new index.now.clauses }
{
    if let Some(number) = index.number_of(clause) {
        runs.note(&index.clauses, number);
    }
}

/// Notes that a clause that is to stand on the number has its key in common with others, if it has. The only error is out of
/// memory.
fn share<C: Kept>(
    shared: &mut BTreeSet<u64>,
    index: &ClauseIndex<C>,
    clause: &C,
    number: u64,
) -> Result<(), Memory>
    requires sound { IsSound C.Key.Ord.cmp C.any C.key_of index.now }
    requires shared { AreShared C.Key.Ord.cmp C.any C.key_of shared.old index.now.clauses }
    ensures grows { (n : ℕ) → set.contains nat_cmp shared.old n ≡ true → set.contains nat_cmp shared.new n ≡ true }
    ensures ok { OnOk result (SharesWith C.Key.Ord.cmp C.any C.key_of shared.new index.now.clauses (C.key_of clause.now) number) }
{
    let key = clause.key(index.alloc)?;
    if C::is_any(&key) {
        return Ok(());
    }
    match index.index.one(&key) {
        Some(one) => {
            shared.insert(one)?;
            shared.insert(number)?;
            Ok(())
        }
        None => Ok(()),
    }
}
