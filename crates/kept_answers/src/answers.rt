//! The places of answers.
ghost use Rattle.std.specs.Prelude.{◌≡◌, ℕ, length, true, IfOk, IfSome, Option};
ghost use Rattle.pl_model.specs.History.{History};
ghost use Rattle.atom_api.specs.Names.{Names};
ghost use Rattle.pl_term.specs.Tree.{Tree};
ghost use Rattle.world_api.specs.declared.reply.Found.{Found as FoundValue};
ghost use Rattle.kept_answers.specs.Answered.{AreSound, IsAnswer, IsGiven, IsKept, IsSound, found_at, found_or};

use crate::asked::{MOST_PLACES, PLACES, is_same, place_of};
use crate::watch::Watch;
use atom_api::fixed;
use pl_term::Memory;
use std::alloc::Global;
use term_store::{ArgumentKey, Stored};
use world_api::{Asked, Found};

/// An answer that is kept: what was asked, the length of the history at which it was answered, and the clause that was found,
/// as a copy that nobody else holds.
#[derive(Drop)]
pub struct Kept {
    pub asked: Asked<ArgumentKey>,
    pub generation: u64,
    pub found: Option<Found<Stored>>,
}

/// A place of an answer: the one that is kept, if any, and a mark of the last request that was not answered by it.
#[derive(Drop)]
pub struct Space {
    pub mark: u64,
    pub kept: Option<Kept>,
}

/// Answers of the shared state that an engine keeps, each at the place of what was asked. Where requests come again that others
/// have thrown out meanwhile, as the watch shows, there are to be more places.
#[derive(Drop)]
pub struct Answers {
    pub spaces: Vec<Space>,
    watch: Watch,
}

// The same term, whose nodes are copied, so that nobody else holds it. The only error is out of memory.
fn copied(alloc: Global, term: &Stored) -> Result<Stored, Memory>
    ensures { IfOk result (λ s. s ≡ term.now) }
{
    Stored::clause_from_nodes(alloc, term.nodes())
}

// The same of what was found.
fn copied_found(
    alloc: Global,
    found: &Option<Found<Stored>>,
) -> Result<Option<Found<Stored>>, Memory>
    ensures { IfOk result (λ f. f ≡ found.now) }
{
    match found {
        None => Ok(None),
        Some(f) => {
            let clause = copied(alloc, &f.clause)?;
            Ok(Some(Found {
                clause,
                place: f.place,
                more: f.more,
            }))
        }
    }
}

// The answer, to be kept. The only error is out of memory.
fn answer_of(
    alloc: Global,
    asked: &Asked<ArgumentKey>,
    found: &Option<Found<Stored>>,
    generation: u64,
) -> Result<Kept, Memory>
    ensures { IfOk result (λ k. k ≡ record { asked = asked.now; generation = generation; found = found.now }) }
{
    let found = copied_found(alloc, found)?;
    Ok(Kept {
        asked: Asked {
            procedure: asked.procedure,
            first: asked.first,
            after: asked.after,
        },
        generation,
        found,
    })
}

// Whether the answer at the place is one to this, at that length of the history.
#[inline]
fn is_answer_in(space: &Space, asked: &Asked<ArgumentKey>, generation: u64) -> bool
    ensures kept { (goals : ℕ) (h : History) (n : Names) (f : Option (FoundValue Tree)) → IsSound goals h n space.now → length h ≡ generation → result ≡ true → IsKept goals h asked.now (found_or f space.now.kept) n }
{
    match &space.kept {
        None => false,
        Some(kept) => kept.generation == generation && is_same(&kept.asked, asked),
    }
}

// What is kept at the place, or else the other.
#[inline]
fn found_in<'a>(space: &'a Space, other: &'a Option<Found<Stored>>) -> &'a Option<Found<Stored>>
    ensures { result.now ≡ found_or other.now space.now.kept }
{
    match &space.kept {
        None => other,
        Some(kept) => &kept.found,
    }
}

// The mark of a request with this number at that length of the history.
fn mark_of(number: u64, generation: u64) -> u64 {
    number.wrapping_add(generation)
}

// One more place, at which nothing is kept. The only error is out of memory.
fn push_free(spaces: &mut Vec<Space>) -> Result<(), Memory>
    ensures sound { (goals : ℕ) (h : History) (n : Names) → AreSound goals h n spaces.old.items → AreSound goals h n spaces.new.items }
{
    spaces.push(Space {
        mark: 0,
        kept: None,
    })?;
    Ok(())
}

// Whether there is memory for so many places.
fn has_memory(spaces: &mut Vec<Space>, count: usize) -> bool
    ensures { spaces.new.items ≡ spaces.old.items }
{
    spaces.reserve(count).is_ok()
}

// So many more places, at which nothing is kept. The only error is out of memory.
fn free_spaces(spaces: &mut Vec<Space>, count: usize) -> Result<(), Memory>
    ensures sound { (goals : ℕ) (h : History) (n : Names) → AreSound goals h n spaces.old.items → AreSound goals h n spaces.new.items }
{
    for _ in 0..count {
        push_free(spaces)?;
    }
    Ok(())
}

impl Answers {
    /// No answer is kept. It takes no memory.
    pub fn new(alloc: Global) -> Answers
        ensures sound { (goals : ℕ) (h : History) (n : Names) → AreSound goals h n result.spaces.items }
    {
        Answers {
            spaces: Vec::new(alloc),
            watch: Watch::new(),
        }
    }

    /// Nothing is kept any more.
    pub fn clear(&mut self)
        ensures sound { (goals : ℕ) (h : History) (n : Names) → AreSound goals h n self.new.spaces.items }
    {
        self.spaces.clear();
    }

    /// The place at which the answer is kept to this request, which has this number, at that length of the history.
    #[inline]
    pub fn find(&self, asked: &Asked<ArgumentKey>, number: u64, generation: u64) -> Option<usize>
        ensures kept { (goals : ℕ) (h : History) (n : Names) → AreSound goals h n self.now.spaces.items → length h ≡ generation
            → IfSome result (λ i. (f : Option (FoundValue Tree)) → IsKept goals h asked.now (found_at self.now.spaces.items i f) n) }
    {
        let count = self.spaces.len();
        let place = place_of(number, count);
        if place >= count {
            return None;
        }
        if is_answer_in(&self.spaces[place], asked, generation) {
            Some(place)
        } else {
            None
        }
    }

    /// What is kept at a place, or else the other.
    #[inline]
    pub fn found_at<'a>(
        &'a self,
        place: usize,
        other: &'a Option<Found<Stored>>,
    ) -> &'a Option<Found<Stored>>
        ensures { result.now ≡ found_at self.now.spaces.items place other.now }
    {
        if place < self.spaces.len() {
            found_in(&self.spaces[place], other)
        } else {
            other
        }
    }

    /// Whether the request with this number is the last one at its place that was not answered by what is kept, at that length of
    /// the history. If not, it is the last one from now on. So the answer to a request is to be kept the second time that it is asked for.
    pub fn is_again(&mut self, number: u64, generation: u64) -> bool
        ensures sound { (goals : ℕ) (h : History) (n : Names) → AreSound goals h n self.old.spaces.items → AreSound goals h n self.new.spaces.items }
    {
        if !self.has_room() {
            return false;
        }
        let mark = mark_of(number, generation);
        let place = place_of(number, self.spaces.len());
        if self.is_marked(place, mark) {
            return true;
        }
        self.look_for(mark);
        false
    }

    // A request with this mark is the last one at its place from now on. Where many such have come again, there are more places.
    fn look_for(&mut self, mark: u64)
        ensures sound { (goals : ℕ) (h : History) (n : Names) → AreSound goals h n self.old.spaces.items → AreSound goals h n self.new.spaces.items }
    {
        if !self.is_crowded(mark) {
            return;
        }
        self.widen();
    }

    // The watch sees the mark. Whether there are to be more places.
    fn is_crowded(&mut self, mark: u64) -> bool
        ensures { self.new.spaces.items ≡ self.old.spaces.items }
    {
        self.watch = self.watch.after(mark);
        let count = self.spaces.len();
        count < MOST_PLACES && self.watch.has_seen(count)
    }

    // Four times as many places, at which nothing is kept.
    fn widen(&mut self)
        ensures sound { (goals : ℕ) (h : History) (n : Names) → AreSound goals h n self.new.spaces.items }
    {
        let count = self.spaces.len().wrapping_mul(4);
        self.watch = Watch::new();
        self.clear();
        self.fill(count);
    }

    // So many more places, where there is memory for them. Whether there is.
    fn fill(&mut self, count: usize) -> bool
        ensures sound { (goals : ℕ) (h : History) (n : Names) → AreSound goals h n self.old.spaces.items → AreSound goals h n self.new.spaces.items }
    {
        if !has_memory(&mut self.spaces, count) {
            return false;
        }
        free_spaces(&mut self.spaces, count).is_ok()
    }

    // Whether there are places. The first time they are made.
    fn has_room(&mut self) -> bool
        ensures sound { (goals : ℕ) (h : History) (n : Names) → AreSound goals h n self.old.spaces.items → AreSound goals h n self.new.spaces.items }
    {
        if !self.spaces.is_empty() {
            return true;
        }
        self.fill(PLACES)
    }

    // Whether the place has this mark. From now on it has.
    fn is_marked(&mut self, place: usize, mark: u64) -> bool
        ensures sound { (goals : ℕ) (h : History) (n : Names) → AreSound goals h n self.old.spaces.items → AreSound goals h n self.new.spaces.items }
    {
        if place >= self.spaces.len() {
            return false;
        }
        let before = self.spaces[place].mark;
        self.spaces[place].mark = mark;
        before == mark
    }

    // Keeps an answer at a place.
    fn put(&mut self, place: usize, kept: Kept)
        ensures sound { (goals : ℕ) (h : History) (n : Names) → AreSound goals h n self.old.spaces.items → IsAnswer goals h n kept → AreSound goals h n self.new.spaces.items }
    {
        if place < self.spaces.len() {
            self.spaces[place].kept = Some(kept);
        }
    }

    /// Keeps an answer to a request with this number that was given at that length of the history. Where memory runs out it is
    /// not kept.
    pub fn keep(
        &mut self,
        alloc: Global,
        asked: &Asked<ArgumentKey>,
        number: u64,
        found: &Option<Found<Stored>>,
        generation: u64,
    )
        ensures sound { (goals : ℕ) (h : History) (w : Names) → IsGiven goals h w asked.now found.now → length h ≡ generation
            → AreSound goals h w self.old.spaces.items → AreSound goals h w self.new.spaces.items }
    {
        if asked.procedure.name == fixed::NECK {
            return;
        }
        if let Ok(answer) = answer_of(alloc, asked, found, generation) {
            let place = place_of(number, self.spaces.len());
            self.put(place, answer);
        }
    }
}
