//! Clauses on their numbers, with what finds them.
ghost use Rattle.std.specs.Prelude.{◌≡◌, ℕ, false, ◌+◌, ◌^◌, ◌<◌, ◌≤◌, ◌&&◌, not, Some, None, IsSome, OnOk, OnErr, MatchOption, IfOk, IfErr, IfSome, [], filter, map, min, ◌-◌, ◌==◌, ◌++◌, sum_by, true};
ghost use Rattle.std.specs.Option.{option_map, option_copied, is_some};
ghost use Rattle.std.specs.List.{list_any};
ghost use Rattle.std.specs.Ordering.{is_eq, nat_cmp};
ghost use Rattle.std.specs.BTreeMap as tree;
ghost use Rattle.std.specs.BTreeMap.{insert_entry};
ghost use Rattle.gen_core.specs.NumberMaps as numbers;
ghost use Rattle.gen_core.specs.NumberMaps.{flat};
ghost use Rattle.std.specs.BTreeSet as set;
ghost use Rattle.pl_model.specs.FirstArguments.{are_apart};
ghost use Rattle.gen_core.specs.Index.{IsNext};
ghost use Rattle.gen_core.specs.Visible.{is_visible, is_droppable, is_live, fresh, erased_all, live_size, is_droppable_at, counted, behind, is_choice, first_choice};
ghost use Rattle.gen_core.specs.Hits.{hit_of};
ghost use Rattle.gen_core.specs.ClauseIndex.{IsSound, IsNumberOf, Added, Lists, ListsSame, Unlists, ErasesAt, Drops, IsFirstErased, Marks, MarksAt, TakesOut, IsAfter, is_erased_at, erased_from, marked_all, pair_order, clauses_of, clauses_from, holds, dated_at};
ghost use Rattle.gen_core.specs.Numbers.{IsNumbered};
ghost use Rattle.gen_core.specs.Runs.{AreRuns, OthersStay, StayGone};
ghost use Rattle.gen_core.specs.Shared.{AreShared, ClausesStay};

use crate::dated_clause::DatedClause;
use crate::hit::Hit;
use crate::index::{Index, Numbers, earlier, next_in, next_under};
use crate::number_map::{Item, NumberMap};
use crate::numbers::{PLACES, first_number, last_number, place_of};
use crate::runs::Runs;
use pl_model::kept::Kept;
use pl_term::Memory;
use std::alloc::Global;
use std::collections::BTreeSet;

/// So many clauses are looked at one after the other, which takes less time than to find them by their keys.
const FEW: usize = 8;

/// A clause with the key of its first argument. The key stands in front of the places, since a call by a key compares it
/// and then asks for them.
#[derive(Drop)]
pub struct Entry<C, K> {
    pub key: K,
    pub dated: DatedClause<C>,
}

/// Clauses on their numbers, and the numbers by keys and by erasures.
#[derive(Drop)]
pub struct ClauseIndex<C: Kept> {
    pub alloc: Global,
    pub clauses: NumberMap<Entry<C, C::Key>>,
    pub index: Index<C::Key>,
    /// The numbers of the clauses whose first argument may be equal to any.
    pub any: BTreeSet<u64>,
    /// The places of erasures, each with the number of the clause that was erased.
    pub erased: BTreeSet<(u64, u64)>,
}

impl<C: Kept> ClauseIndex<C> {
    /// The first number from `from` on of a clause whose first argument the goal's does not exclude, where the numbers of
    /// the clauses under the goal's key are at hand.
    fn next(&self, first: &C::Key, under: Option<&Numbers>, from: u64) -> Option<u64>
        requires sound { IsSound C.Key.Ord.cmp C.any C.key_of self.now }
        requires keyed { C.any first.now ≡ false }
        requires under { option_copied under ≡ tree.get C.Key.Ord.cmp self.now.index.by_key first.now }
        ensures { IsNext (holds self.now.clauses (λ s. not (are_apart C.Key.Ord.cmp C.any first.now (C.key_of s.clause)))) from result }
    {
        earlier(next_under(under, from), next_in(&self.any, from))
    }

    /// The first clause from `from` on that the generation `g` sees and that the goal's first argument does not exclude, with
    /// its number.
    fn next_visible(
        &self,
        runs: &Runs,
        first: &C::Key,
        under: Option<&Numbers>,
        g: u64,
        from: u64,
    ) -> Option<(u64, &DatedClause<C>)>
        requires sound { IsSound C.Key.Ord.cmp C.any C.key_of self.now }
        requires runs { AreRuns runs.now self.now.clauses }
        requires keyed { C.any first.now ≡ false }
        requires under { option_copied under ≡ tree.get C.Key.Ord.cmp self.now.index.by_key first.now }
        ensures next { IsNext (holds self.now.clauses (is_choice C.Key.Ord.cmp C.any C.key_of g first.now)) from (option_map (λ p. p.0) result) }
        ensures at { IfSome result (λ p. dated_at self.now.clauses p.0 ≡ Some p.1.now) }
    {
        let mut from = from;
        while let Some(number) = self.next(first, under, from) {
            if let Some(dated) = self.seen(number, g) {
                return Some((number, dated));
            }
            from = self.past(runs, number, g);
        }
        None
    }

    /// The first number of a clause from `from` on.
    fn next_number(&self, from: u64) -> Option<u64>
        ensures { IsNext (holds self.now.clauses (λ d. true)) from result }
    {
        match self.clauses.first_from(from) {
            Some(item) => Some(item.number),
            None => None,
        }
    }

    /// The first clause from `from` on that the generation `g` sees, with its number.
    fn next_seen(&self, runs: &Runs, g: u64, from: u64) -> Option<(u64, &DatedClause<C>)>
        requires sound { IsSound C.Key.Ord.cmp C.any C.key_of self.now }
        requires runs { AreRuns runs.now self.now.clauses }
        ensures next { IsNext (holds self.now.clauses (is_visible g)) from (option_map (λ p. p.0) result) }
        ensures at { IfSome result (λ p. dated_at self.now.clauses p.0 ≡ Some p.1.now) }
    {
        let mut from = from;
        while let Some(number) = self.next_number(from) {
            if let Some(dated) = self.seen(number, g) {
                return Some((number, dated));
            }
            from = self.past(runs, number, g);
        }
        None
    }

    /// The number after the one of a clause that the generation `g` does not see, or after the run of such clauses that it
    /// stands in.
    fn past(&self, runs: &Runs, number: u64, g: u64) -> u64
        requires bound { number < 2 ^ 50 }
        requires runs { AreRuns runs.now self.now.clauses }
        requires unseen { holds self.now.clauses (is_visible g) number ≡ false }
        ensures later { number < result }
        ensures unseen { (q : ℕ) → number ≤ q → q < result → holds self.now.clauses (is_visible g) q ≡ false }
    {
        if let Some((_, run)) = runs.up_to(number) {
            if run.newest < g && number < run.until {
                return run.until;
            }
        }
        number + 1
    }

    /// The clause on the number, if there is one and the generation `g` sees it.
    fn seen(&self, number: u64, g: u64) -> Option<&DatedClause<C>>
        ensures seen { is_some result ≡ holds self.now.clauses (is_visible g) number }
        ensures at { IfSome result (λ d. dated_at self.now.clauses number ≡ Some d.now) }
    {
        match self.clauses.get(number) {
            Some(entry) => {
                if entry.dated.is_visible(g) {
                    Some(&entry.dated)
                } else {
                    None
                }
            }
            None => None,
        }
    }

    /// The number of the clause that the update at this place added.
    pub fn number_of(&self, place: u64) -> Option<u64>
        requires { IsSound C.Key.Ord.cmp C.any C.key_of self.now }
        ensures number { IsNumberOf self.now.clauses place result }
        ensures bound { IfSome result (λ n. n < 2 ^ 50) }
    {
        if place >= PLACES {
            return None;
        }
        let number = last_number(place);
        if self.clauses.get(number).is_some() {
            return Some(number);
        }
        let number = first_number(place);
        if self.clauses.get(number).is_some() {
            return Some(number);
        }
        None
    }

    /// Puts a clause on a number on which there is none, and lists it. A refused clause is handed back, and the index is
    /// as it was; the only cause is out of memory.
    pub fn add(&mut self, clause: C, place: u64, number: u64) -> Result<(), (C, Memory)>
        requires sound { IsSound C.Key.Ord.cmp C.any C.key_of self.old }
        requires numbered { IsNumbered number place }
        requires free { (p : ℕ) → IsNumbered p place → dated_at self.old.clauses p ≡ None }
        ensures sound { IsSound C.Key.Ord.cmp C.any C.key_of self.new }
        ensures ok { OnOk result (Added self.old.clauses self.new.clauses number (fresh place clause)) }
        ensures others { OnOk result (OthersStay self.old.clauses self.new.clauses number) }
        ensures at { OnOk result (dated_at self.new.clauses number ≡ Some (fresh place clause)) }
        ensures err { IfErr result (λ e. (e.0 ≡ clause) × (self.new.clauses.entries ≡ self.old.clauses.entries)) }
    {
        let Ok(key) = clause.key(self.alloc) else {
            return Err((clause, Memory));
        };
        let Ok(other) = clause.key(self.alloc) else {
            return Err((clause, Memory));
        };
        if let Err(refused) = self.put(clause, key, place, number) {
            return Err(refused);
        }
        match self.list(other, number) {
            Ok(()) => Ok(()),
            Err(Memory) => match self.clauses.remove(number) {
                Some(entry) => Err((clause_of(entry), Memory)),
                None => unreachable!(),
            },
        }
    }

    /// Puts a clause on a number without listing it.
    fn put(&mut self, clause: C, key: C::Key, place: u64, number: u64) -> Result<(), (C, Memory)>
        ensures ok { OnOk result (self.new.clauses.entries
            ≡ insert_entry nat_cmp self.old.clauses.entries number (record { dated = fresh place clause; key = key })) }
        ensures updates { OnOk result (numbers.Updates self.old.clauses self.new.clauses number (Some (record { dated = fresh place clause; key = key }))) }
        ensures ordered { numbers.IsOrdered self.new.clauses }
        ensures others { (self.new.index ≡ self.old.index) × (self.new.any ≡ self.old.any) × (self.new.erased ≡ self.old.erased) }
        ensures err { IfErr result (λ e. (e.0 ≡ clause) × (self.new.clauses.entries ≡ self.old.clauses.entries)) }
    {
        let dated = DatedClause {
            erased: None,
            place,
            clause,
        };
        match self
            .clauses
            .insert(self.alloc, number, Entry { key, dated })
        {
            Ok(()) => Ok(()),
            Err(entry) => Err((clause_of(entry), Memory)),
        }
    }

    /// Lists a number under a key. The only error is out of memory; after it nothing is listed that was not before.
    fn list(&mut self, key: C::Key, number: u64) -> Result<(), Memory>
        ensures others { (self.new.clauses ≡ self.old.clauses) × (self.new.erased ≡ self.old.erased) }
        ensures ok { OnOk result (Lists C.Key.Ord.cmp C.any key number self.old self.new) }
        ensures err { OnErr result (ListsSame C.Key.Ord.cmp self.old self.new) }
    {
        if C::is_any(&key) {
            self.any.insert(number)?;
        } else {
            self.index.add(key, number)?;
        }
        Ok(())
    }

    /// Whether there is a clause on the number that is not erased.
    fn is_live(&self, number: u64) -> bool
        ensures { result ≡ holds self.now.clauses is_live number }
    {
        match self.clauses.get(number) {
            Some(entry) => entry.dated.erased.is_none(),
            None => false,
        }
    }

    /// Whether the clause that the update at the place added is there and not erased.
    pub fn has_live(&self, clause: u64) -> bool
        requires { IsSound C.Key.Ord.cmp C.any C.key_of self.now }
        ensures { result ≡ list_any (λ d. (d.place == clause) && is_live d) (clauses_of self.now.clauses) }
    {
        match self.number_of(clause) {
            Some(number) => self.is_live(number),
            None => false,
        }
    }

    /// Erases the clause that the update at the place `clause` added, and says whether it was there and not erased
    /// before. The only error is out of memory; after it the index is as it was.
    pub fn erase(&mut self, clause: u64, place: u64) -> Result<bool, Memory>
        requires sound { IsSound C.Key.Ord.cmp C.any C.key_of self.old }
        ensures sound { IsSound C.Key.Ord.cmp C.any C.key_of self.new }
        ensures ok { IfOk result (ErasesAt self.old.clauses self.new.clauses clause place) }
        ensures stay { OnOk result (StayGone self.old.clauses self.new.clauses) }
        ensures kept { OnOk result (ClausesStay self.old.clauses self.new.clauses) }
        ensures err { OnErr result (self.new.clauses.entries ≡ self.old.clauses.entries) }
    {
        match self.number_of(clause) {
            Some(number) => self.erase_at(number, place),
            None => Ok(false),
        }
    }

    /// Erases the clause on the number, and says whether it was not erased before. The only error is out of memory;
    /// after it the index is as it was.
    fn erase_at(&mut self, number: u64, place: u64) -> Result<bool, Memory>
        requires { IsSound C.Key.Ord.cmp C.any C.key_of self.old }
        ensures sound { IsSound C.Key.Ord.cmp C.any C.key_of self.new }
        ensures ok { IfOk result (MarksAt self.old.clauses self.new.clauses number place) }
        ensures stay { OnOk result (StayGone self.old.clauses self.new.clauses) }
        ensures kept { OnOk result (ClausesStay self.old.clauses self.new.clauses) }
        ensures err { OnErr result (self.new.clauses.entries ≡ self.old.clauses.entries) }
    {
        if self.is_live(number) {
            self.erased.insert((place, number))?;
            self.clauses.mark(number, place);
            return Ok(true);
        }
        Ok(false)
    }

    /// Takes a number from under a key.
    fn unlist(&mut self, key: &C::Key, number: u64)
        ensures others { (self.new.clauses ≡ self.old.clauses) × (self.new.erased ≡ self.old.erased) }
        ensures unlists { Unlists C.Key.Ord.cmp C.any key.now number self.old self.new }
    {
        if C::is_any(key) {
            self.any.remove(&number);
        } else {
            self.index.remove(key, number);
        }
    }

    /// Erases all clauses that are not erased. The only error is out of memory; after it the index is as it was.
    pub fn erase_all(&mut self, place: u64) -> Result<(), Memory>
        requires { IsSound C.Key.Ord.cmp C.any C.key_of self.old }
        ensures sound { IsSound C.Key.Ord.cmp C.any C.key_of self.new }
        ensures ok { OnOk result (clauses_of self.new.clauses ≡ map (erased_all place) (clauses_of self.old.clauses)) }
        ensures stay { OnOk result (StayGone self.old.clauses self.new.clauses) }
        ensures kept { OnOk result (ClausesStay self.old.clauses self.new.clauses) }
        ensures err { OnErr result (self.new.clauses.entries ≡ self.old.clauses.entries) }
    {
        self.erased = erasures(self.alloc, &self.clauses, place)?;
        self.clauses.mark_all(place);
        Ok(())
    }

    /// The cells of the clauses that are not erased, or 2^64 - 1 where they are more.
    pub fn live_cells(&self) -> u64
        ensures { result ≡ min (sum_by (live_size C.size) (clauses_of self.now.clauses)) (2 ^ 64 - 1) }
    {
        let mut cells: u64 = 0;
        let rows = self.clauses.rows();
        for row in rows {
            cells = cells.saturating_add(live_cells_in(row.value.as_slice()));
        }
        cells
    }

    /// The places of the clauses that one of the first `floor` updates erased. The only error is out of memory.
    pub fn droppable_places(&self, floor: u64) -> Result<Vec<u64>, Memory>
        requires { IsSound C.Key.Ord.cmp C.any C.key_of self.now }
        ensures { IfOk result (λ ps. (p : ℕ) → list_any (λ q. q == p) ps.items ≡ list_any (is_droppable_at floor p) (clauses_of self.now.clauses)) }
    {
        let places = self
            .erased
            .range(..(floor, 0))
            .map(|(_, number)| place_of(*number))
            .collect(self.alloc)?;
        Ok(places)
    }

    /// Takes out a clause that one of the first `floor` updates erased, if there is one.
    pub fn drop_erased(&mut self, floor: u64) -> Option<DatedClause<C>>
        requires { IsSound C.Key.Ord.cmp C.any C.key_of self.old }
        ensures sound { IsSound C.Key.Ord.cmp C.any C.key_of self.new }
        ensures dropped { Drops self.old.clauses self.new.clauses floor result }
        ensures stay { StayGone self.old.clauses self.new.clauses }
        ensures kept { ClausesStay self.old.clauses self.new.clauses }
    {
        match self.first_erased() {
            Some((place, number)) => {
                if place < floor {
                    Some(self.take_out(place, number))
                } else {
                    None
                }
            }
            None => None,
        }
    }

    /// Takes out the clause on the number, which was erased at the place.
    fn take_out(&mut self, place: u64, number: u64) -> DatedClause<C>
        requires sound { IsSound C.Key.Ord.cmp C.any C.key_of self.old }
        requires erased { holds self.old.clauses (is_erased_at place) number ≡ true }
        ensures sound { IsSound C.Key.Ord.cmp C.any C.key_of self.new }
        ensures out { TakesOut self.old.clauses self.new.clauses place result }
        ensures stay { StayGone self.old.clauses self.new.clauses }
        ensures kept { ClausesStay self.old.clauses self.new.clauses }
    {
        self.erased.remove(&(place, number));
        match self.clauses.remove(number) {
            Some(entry) => {
                self.unlist(&entry.key, number);
                dated_of(entry)
            }
            None => unreachable!(),
        }
    }

    /// The place of the first erasure and the number of the clause that was erased there.
    pub fn first_erased(&self) -> Option<(u64, u64)>
        requires { IsSound C.Key.Ord.cmp C.any C.key_of self.now }
        ensures { IsFirstErased self.now.clauses result }
    {
        match self.erased.first() {
            Some(first) => Some(*first),
            None => None,
        }
    }

    /// No clauses.
    pub fn new(alloc: Global) -> ClauseIndex<C>
        ensures sound { IsSound C.Key.Ord.cmp C.any C.key_of result }
        ensures none { clauses_of result.clauses ≡ [] }
    {
        ClauseIndex {
            alloc,
            clauses: NumberMap::new(alloc),
            index: Index::new(alloc),
            any: BTreeSet::new(alloc),
            erased: BTreeSet::new(alloc),
        }
    }

    /// Whether the generation `g` sees a clause.
    pub fn any_visible(&self, g: u64) -> bool
        ensures { result ≡ list_any (λ e. is_visible g e.dated) (numbers.values self.now.clauses) }
    {
        let rows = self.clauses.rows();
        for row in rows {
            if any_visible_in(row.value.as_slice(), g) {
                return true;
            }
        }
        false
    }

    /// Whether one of the first `floor` updates erased a clause.
    pub fn droppable(&self, floor: u64) -> bool
        requires { IsSound C.Key.Ord.cmp C.any C.key_of self.now }
        ensures { result ≡ list_any (is_droppable floor) (clauses_of self.now.clauses) }
    {
        match self.first_erased() {
            Some((place, _)) => place < floor,
            None => false,
        }
    }

    /// How many clauses are erased.
    pub fn erased_len(&self) -> usize
        requires { IsSound C.Key.Ord.cmp C.any C.key_of self.now }
        ensures { result ≡ sum_by counted (clauses_of self.now.clauses) }
    {
        self.erased.len()
    }

    /// The number after that of the clause which the update at a place added, or the first number.
    fn number_after(&self, place: Option<u64>) -> Option<u64>
        requires { IsSound C.Key.Ord.cmp C.any C.key_of self.now }
        ensures { IsAfter self.now.clauses place result }
    {
        match place {
            Some(place) => match self.number_of(place) {
                Some(number) => Some(number + 1),
                None => None,
            },
            None => Some(0),
        }
    }

    /// The first clause from `from` on that a call with this key tries.
    fn next_of_key(&self, runs: &Runs, first: &C::Key, g: u64, from: u64) -> Option<Hit<'_, C>>
        requires sound { IsSound C.Key.Ord.cmp C.any C.key_of self.now }
        requires runs { AreRuns runs.now self.now.clauses }
        requires keyed { C.any first.now ≡ false }
        ensures { hit_of result ≡ first_choice (filter (is_choice C.Key.Ord.cmp C.any C.key_of g first.now) (clauses_from from self.now.clauses)) }
    {
        let under = self.index.numbers(first);
        let Some((number, dated)) = self.next_visible(runs, first, under, g, from) else {
            return None;
        };
        let more = self
            .next_visible(runs, first, under, g, number + 1)
            .is_some();
        Some(hit(dated, more))
    }

    /// The first clause from `from` on that a call tries whose first argument may be equal to any.
    fn next_of_all(&self, runs: &Runs, first: &C::Key, g: u64, from: u64) -> Option<Hit<'_, C>>
        requires sound { IsSound C.Key.Ord.cmp C.any C.key_of self.now }
        requires runs { AreRuns runs.now self.now.clauses }
        requires any { C.any first.now ≡ true }
        ensures { hit_of result ≡ first_choice (filter (is_choice C.Key.Ord.cmp C.any C.key_of g first.now) (clauses_from from self.now.clauses)) }
    {
        let Some((number, dated)) = self.next_seen(runs, g, from) else {
            return None;
        };
        let more = self.next_seen(runs, g, number + 1).is_some();
        Some(hit(dated, more))
    }

    /// The first clause from `from` on that a call with this key tries, found by a look at one clause after the other.
    fn next_in_order(&self, first: &C::Key, g: u64, from: u64) -> Option<Hit<'_, C>>
        requires { IsSound C.Key.Ord.cmp C.any C.key_of self.now }
        ensures { hit_of result ≡ first_choice (filter (is_choice C.Key.Ord.cmp C.any C.key_of g first.now) (clauses_from from self.now.clauses)) }
    {
        let Some(item) = self.next_tried(first, g, from) else {
            return None;
        };
        let more = self.next_tried(first, g, item.number + 1).is_some();
        Some(hit(&item.value.dated, more))
    }

    /// The first clause from `from` on that a call with this key tries, found by a look at one clause after the other.
    fn next_tried(&self, first: &C::Key, g: u64, from: u64) -> Option<&Item<Entry<C, C::Key>>>
        requires { IsSound C.Key.Ord.cmp C.any C.key_of self.now }
        ensures next { IsNext (holds self.now.clauses (is_choice C.Key.Ord.cmp C.any C.key_of g first.now)) from (option_map (λ x. x.now.number) result) }
        ensures at { IfSome result (λ x. dated_at self.now.clauses x.now.number ≡ Some x.now.value.dated) }
        ensures bound { IfSome result (λ x. x.now.number < 2 ^ 50) }
    {
        let mut from = from;
        while let Some(item) = self.clauses.first_from(from) {
            if is_tried::<C>(&item.value, first, g) {
                return Some(item);
            }
            from = item.number + 1;
        }
        None
    }

    /// Whether each clause is listed under a key. `false` says nothing.
    fn has_keys(&self) -> bool
        ensures { result ≡ true → (q : ℕ) → set.contains nat_cmp self.now.any q ≡ false }
    {
        next_in(&self.any, 0).is_none()
    }

    /// The clause that was added at a place as the last one, with its number, where it is seen that the goal's first argument
    /// excludes each other one. `shared` has the numbers of all clauses that have their keys in common with others.
    fn lone(
        &self,
        shared: &BTreeSet<u64>,
        place: u64,
        first: &C::Key,
    ) -> Option<(u64, &DatedClause<C>)>
        requires sound { IsSound C.Key.Ord.cmp C.any C.key_of self.now }
        requires shared { AreShared C.Key.Ord.cmp C.any C.key_of shared.now self.now.clauses }
        requires keyed { C.any first.now ≡ false }
        ensures lone { IfSome result (λ p. (q : ℕ) → holds self.now.clauses (λ s. not (are_apart C.Key.Ord.cmp C.any first.now (C.key_of s.clause))) q ≡ (q == p.0)) }
        ensures at { IfSome result (λ p. dated_at self.now.clauses p.0 ≡ Some p.1.now) }
    {
        if place >= PLACES || !self.has_keys() {
            return None;
        }
        let number = last_number(place);
        let Some(entry) = self.clauses.get(number) else {
            return None;
        };
        if shared.contains(&number) || !is_keyed::<C>(entry, first) {
            return None;
        }
        Some((number, &entry.dated))
    }

    /// The clause that was added at a place as the last one, where it is seen that a call with this key tries no other and the
    /// generation `g` sees it.
    pub fn alone(
        &self,
        shared: &BTreeSet<u64>,
        place: u64,
        g: u64,
        first: &C::Key,
    ) -> Option<Hit<'_, C>>
        requires sound { IsSound C.Key.Ord.cmp C.any C.key_of self.now }
        requires shared { AreShared C.Key.Ord.cmp C.any C.key_of shared.now self.now.clauses }
        ensures { IfSome result (λ _. hit_of result ≡ first_choice (filter (is_choice C.Key.Ord.cmp C.any C.key_of g first.now) (clauses_of self.now.clauses))) }
    {
        if C::is_any(first) {
            return None;
        }
        let Some((number, dated)) = self.lone(shared, place, first) else {
            return None;
        };
        if dated.is_visible(g) {
            return Some(hit(dated, false));
        }
        None
    }

    /// The next clause after that which was added at a place, or the first one, of those that a call tries.
    pub fn next_after(
        &self,
        runs: &Runs,
        place: Option<u64>,
        g: u64,
        first: &C::Key,
    ) -> Option<Hit<'_, C>>
        requires sound { IsSound C.Key.Ord.cmp C.any C.key_of self.now }
        requires runs { AreRuns runs.now self.now.clauses }
        ensures { hit_of result ≡ first_choice (filter (is_choice C.Key.Ord.cmp C.any C.key_of g first.now) (behind place (clauses_of self.now.clauses))) }
    {
        let Some(from) = self.number_after(place) else {
            return None;
        };
        if self.clauses.len() <= FEW {
            return self.next_in_order(first, g, from);
        }
        if C::is_any(first) {
            return self.next_of_all(runs, first, g, from);
        }
        self.next_of_key(runs, first, g, from)
    }
}

/// Whether a call at the generation `g` with this key tries the clause.
fn is_tried<C: Kept>(entry: &Entry<C, C::Key>, first: &C::Key, g: u64) -> bool
    ensures { result ≡ (is_visible g entry.now.dated && not (are_apart C.Key.Ord.cmp C.any first.now entry.now.key)) }
{
    entry.dated.is_visible(g)
        && (C::is_any(first) || C::is_any(&entry.key) || first.cmp(&entry.key).is_eq())
}

/// Whether the clause is listed under the goal's key.
fn is_keyed<C: Kept>(entry: &Entry<C, C::Key>, first: &C::Key) -> bool
    ensures { result ≡ (not (C.any entry.now.key) && is_eq (C.Key.Ord.cmp first.now entry.now.key)) }
{
    !C::is_any(&entry.key) && first.cmp(&entry.key).is_eq()
}

/// A clause with its place, and whether others follow.
fn hit<C>(dated: &DatedClause<C>, more: bool) -> Hit<'_, C>
    ensures { (result.place ≡ dated.now.place) × (result.clause.now ≡ dated.now.clause) × (result.more ≡ more) }
{
    Hit {
        place: dated.place,
        clause: &dated.clause,
        more,
    }
}

/// Whether the generation `g` sees one of these clauses.
fn any_visible_in<C, K>(items: &[Item<Entry<C, K>>], g: u64) -> bool
    ensures { result ≡ list_any (λ x. is_visible g x.value.dated) items.now }
{
    items.iter().any(|item| item.value.dated.is_visible(g))
}

/// The cells of those of these clauses that are not erased.
fn live_cells_in<C: Kept>(items: &[Item<Entry<C, C::Key>>]) -> u64
    ensures { result ≡ min (sum_by (λ x. live_size C.size x.value.dated) items.now) (2 ^ 64 - 1) }
{
    let mut cells: u64 = 0;
    for item in items {
        cells = cells.saturating_add(live_cells_of(&item.value.dated));
    }
    cells
}

/// The places of the erasures of all clauses, each with the clause's number, where those that are not erased are erased at
/// the place. The only error is out of memory.
fn erasures<C, K>(
    alloc: Global,
    clauses: &NumberMap<Entry<C, K>>,
    place: u64,
) -> Result<BTreeSet<(u64, u64)>, Memory>
    ensures { IfOk result (set.IsFromIterResult pair_order (map (λ e. (erased_from place e.1.dated, e.0)) clauses.now.entries)) }
{
    let mut pairs = Vec::new(alloc);
    let rows = clauses.rows();
    for row in rows {
        push_erasures(&mut pairs, row.value.as_slice(), place)?;
    }
    let all = pairs.iter().map(|pair| *pair).collect(alloc)?;
    Ok(all)
}

/// Lists the places of the erasures of the clauses of a row, each with the clause's number. The only error is out of memory.
fn push_erasures<C, K>(
    pairs: &mut Vec<(u64, u64)>,
    items: &[Item<Entry<C, K>>],
    place: u64,
) -> Result<(), Memory>
    ensures { OnOk result (pairs.new.items ≡ pairs.old.items ++ map (λ x. (erased_from place x.value.dated, x.number)) items.now) }
{
    for item in items {
        pairs.push((item.value.dated.erased.unwrap_or(place), item.number))?;
    }
    Ok(())
}

/// What a clause costs that is not erased.
fn live_cells_of<C: Kept>(dated: &DatedClause<C>) -> u64
    ensures { result ≡ live_size C.size dated.now }
{
    match dated.erased {
        None => dated.clause.cells(),
        Some(_) => 0,
    }
}

/// The dated clause of an entry.
fn dated_of<C: Drop, K: Drop>(entry: Entry<C, K>) -> DatedClause<C>
    ensures { result ≡ entry.dated }
{
    entry.dated
}

/// The clause of an entry.
fn clause_of<C: Drop, K: Drop>(entry: Entry<C, K>) -> C
    ensures { result ≡ entry.dated.clause }
{
    entry.dated.clause
}
