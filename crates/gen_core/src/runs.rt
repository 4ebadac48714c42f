//! Runs of erased clauses, past which a search goes at once.
ghost use Rattle.std.specs.Prelude.{◌≡◌, ℕ, ◌<◌, ◌≤◌, ◌+◌, ◌^◌, Some, None, IfSome, true};
ghost use Rattle.std.specs.Ordering.{nat_cmp};
ghost use Rattle.std.specs.BTreeMap as tree;
ghost use Rattle.gen_core.specs.ClauseIndex.{dated_at};
ghost use Rattle.gen_core.specs.Runs.{AreGone, AreRuns, Leaves, is_gone};

use crate::clause_index::Entry;
use crate::number_map::NumberMap;
use std::alloc::Global;
use std::collections::BTreeMap;

/// The clauses on the numbers below `until`, from that on under which the run is kept, are all erased, the last of them by
/// the update at the place `newest`.
#[derive(Clone, Copy, Drop)]
pub struct Run {
    pub until: u64,
    pub newest: u64,
}

/// Runs by their first numbers. What they say holds, and they need not say all.
#[derive(Drop)]
pub struct Runs {
    by_first: BTreeMap<u64, Run>,
    /// No run has a number below this one.
    low: u64,
    /// The numbers of all runs are below this one.
    high: u64,
}

impl Runs {
    /// No runs.
    pub fn new(alloc: Global) -> Runs
        ensures { (first : ℕ) → tree.get nat_cmp result.by_first first ≡ None }
    {
        Runs {
            by_first: BTreeMap::new(alloc),
            low: u64::MAX,
            high: 0,
        }
    }

    /// The last run that begins at the number or before it, with its first number.
    pub fn up_to(&self, number: u64) -> Option<(u64, Run)>
        ensures { IfSome result (λ p. (p.0 ≤ number) × (tree.get nat_cmp self.now.by_first p.0 ≡ Some p.1)) }
    {
        match self.by_first.range(..=number).next_back() {
            Some((first, run)) => Some((*first, *run)),
            None => None,
        }
    }

    /// The first run that begins at the number or behind it, with its first number.
    fn behind(&self, number: u64) -> Option<(u64, Run)>
        ensures { IfSome result (λ p. (number ≤ p.0) × (tree.get nat_cmp self.now.by_first p.0 ≡ Some p.1)) }
    {
        match self.by_first.range(number..).next() {
            Some((first, run)) => Some((*first, *run)),
            None => None,
        }
    }

    /// Makes the number free for a clause that is not erased: a run that has it would be forgotten with the others.
    pub fn leave(&mut self, number: u64)
        ensures { Leaves self.old self.new number }
    {
        if self.low <= number && number < self.high {
            self.by_first.clear();
            self.low = u64::MAX;
            self.high = 0;
        }
    }

    /// Notes that the clause on the number is erased, if it is. Where there is no memory for it nothing is noted.
    pub fn note<C, K>(&mut self, clauses: &NumberMap<Entry<C, K>>, number: u64)
        requires bound { number < 2 ^ 50 }
        requires runs { AreRuns self.old clauses.now }
        ensures runs { AreRuns self.new clauses.now }
    {
        let Some(place) = erasure(clauses, number) else {
            return;
        };
        let (first, place) = self.joined_before(clauses, number, place);
        let run = self.joined_behind(clauses, number + 1, place);
        self.put(clauses, first, run);
    }

    /// Where the run begins that the number ends, and the place of its last erasure, where the number itself was erased at
    /// the place.
    fn joined_before<C, K>(
        &self,
        clauses: &NumberMap<Entry<C, K>>,
        number: u64,
        place: u64,
    ) -> (u64, u64)
        requires runs { AreRuns self.now clauses.now }
        ensures first { result.0 ≤ number }
        ensures place { place ≤ result.1 }
        ensures gone { AreGone clauses.now result.0 number result.1 }
    {
        if let Some((first, run)) = self.up_to(number) {
            if is_free(clauses, run.until, number) {
                return (first, run.newest.max(place));
            }
        }
        (number, place)
    }

    /// The run that ends with the one that follows the number, which is taken out, or before the number.
    fn joined_behind<C, K>(
        &mut self,
        clauses: &NumberMap<Entry<C, K>>,
        number: u64,
        place: u64,
    ) -> Run
        requires runs { AreRuns self.old clauses.now }
        ensures runs { AreRuns self.new clauses.now }
        ensures until { number ≤ result.until }
        ensures place { place ≤ result.newest }
        ensures gone { AreGone clauses.now number result.until result.newest }
    {
        if let Some((first, run)) = self.behind(number) {
            if is_free(clauses, number, first) {
                self.by_first.remove(&first);
                return Run {
                    until: run.until.max(number),
                    newest: run.newest.max(place),
                };
            }
        }
        Run {
            until: number,
            newest: place,
        }
    }

    /// Puts a run in the place of the one that begins at the same number.
    fn put<C, K>(&mut self, clauses: &NumberMap<Entry<C, K>>, first: u64, run: Run)
        requires runs { AreRuns self.old clauses.now }
        requires gone { AreGone clauses.now first run.until run.newest }
        ensures runs { AreRuns self.new clauses.now }
    {
        self.low = self.low.min(first);
        self.high = self.high.max(run.until);
        match self.by_first.insert(first, run) {
            Ok(_) => {}
            Err(_) => {}
        }
    }
}

/// Whether no clause stands on a number from one on and below another.
fn is_free<C, K>(clauses: &NumberMap<Entry<C, K>>, from: u64, until: u64) -> bool
    ensures { result ≡ true → (q : ℕ) → from ≤ q → q < until → dated_at clauses.now q ≡ None }
{
    match clauses.first_from(from) {
        Some(item) => until <= item.number,
        None => true,
    }
}

/// The place of the erasure of the clause on the number, if it is erased.
fn erasure<C, K>(clauses: &NumberMap<Entry<C, K>>, number: u64) -> Option<u64>
    ensures { IfSome result (λ k. is_gone k (dated_at clauses.now number) ≡ true) }
{
    match clauses.get(number) {
        Some(entry) => entry.dated.erased,
        None => None,
    }
}
