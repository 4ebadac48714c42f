//! The history and its calls.
ghost use Rattle.std.specs.Prelude.{◌≡◌, ◌<◌, ◌≤◌, ◌^◌, ◌+◌, ◌++◌, ℕ, List, [], ◌∷◌, true, false, IfOk, IfErr, IsErr, ◌↔◌, length, replicate, nat_lt, if◌then◌else◌};
ghost use mathlib.Core.List.{IsPrefix};
ghost use Rattle.pl_model.specs.History.{is_end};
ghost use Rattle.pl_history.specs.Fronts.{Life, new_hub, new_front, AllTold, own_runs, times, all_over, gains, begun_by, visited, picked, without, longer};
ghost use Rattle.pl_history.specs.Steps.{MayAppend};

use crate::board::{Adds, FLOOR, Names, NewSeat, Words};
use crate::fronts::{Front, HubFront};
use crate::steps;
use pl_model::shows::Shows;
use pl_term::Memory;
use std::alloc::{AllocError, Global};
use std::marker::{Brand, Model};

/// From this length on the history gains ends of engines alone.
pub const WORN: u64 = 1 << 47;

/// The history is worn: it gains ends of engines alone.
#[derive(Debug, Clone, Copy, PartialEq, Eq, Drop)]
pub struct Worn {
    /// The length of the history.
    pub generation: u64,
}

/// The one history of the updates of all threads. Contracts see it as the table that its fronts are of: the history
/// itself is seen by the hub's front. The table has a floor, the generation, which is the history's length, and a pin
/// for each engine.
#[derive(Drop)]
pub struct History {
    words: Words,
}

impl Model for History {
    ghost use Rattle.std.specs.Prelude.{◌≡◌, ◌+◌};
    ghost use Rattle.atomic_table.specs.Seated.{TableId, table_id_coded};

    ghost Value = { TableId };

    ghost coded = { table_id_coded };

    ghost view = { λ h. h.words.shared.table_id };

    ghost invariant = { λ h. h.words.shared.table_id.words ≡ h.words.shared.key + 2 };
}

// New fronts of the table.
fn take_seats(alloc: Global, words: &Words, count: usize) -> Result<Vec<Front>, AllocError>
    requires { 0 < words.now.shared.table_id.words }
    ensures { IfOk result (λ v. v.items ≡ replicate count (new_front words.now.shared.table_id)) }
{
    let mut fronts = Vec::with_capacity(alloc, count)?;
    for _ in 0..count {
        let seat = words.shared.load_new_seat::<NewSeat>(FLOOR).1;
        fronts.push_reserved(Front {
            badge: seat.into_badge(),
            generation: 0,
        });
    }
    Ok(fronts)
}

// The larger of two numbers.
fn larger(first: u64, second: u64) -> u64
    ensures { result ≡ (if nat_lt first second then second else first) }
{
    if first < second { second } else { first }
}

impl History {
    /// A history with no entry, the hub's front, which carries engine 1, and a front for each of so many engines. The
    /// only error is out of memory.
    pub fn new(alloc: Global, engines: u32) -> Result<(History, HubFront, Vec<Front>), Memory>
        ensures hub { IfOk result (λ made. made.1 ≡ new_hub made.0) }
        ensures fronts { IfOk result (λ made. made.2.items ≡ replicate engines (new_front made.0)) }
    {
        let count = engines as usize;
        let zeros = vec![in alloc; 0; count + 2]?;
        let (words, seat) = Words::of_words(alloc, zeros.as_slice(), &engines)?;
        let fronts = take_seats(alloc, &words, count)?;
        let hub = HubFront {
            badge: seat.into_badge(),
            generation: 0,
        };
        Ok((History { words }, hub, fronts))
    }

    /// A new front, which has seen nothing and carries no engine.
    pub fn front(&self) -> Front
        ensures { result ≡ new_front self.now }
    {
        let seat = self.words.shared.load_new_seat::<NewSeat>(FLOOR).1;
        Front {
            badge: seat.into_badge(),
            generation: 0,
        }
    }

    /// The front sees the whole history, and the answer is its length. No generation is added to a list.
    pub fn look(&self, hub: &mut HubFront, front: &mut Front) -> u64
        requires hub_here { hub.old.table ≡ self.now }
        requires front_here { front.old.table ≡ self.now }
        ensures generation { result ≡ length hub.old.seen }
        ensures hub { hub.new ≡ hub.old }
        ensures front { front.new ≡ record front.old { seen = hub.old.seen } }
        ensures seen { IsPrefix front.old.seen hub.old.seen }
        ensures told { AllTold hub.old.seen front.old.lives }
        ensures hub_told { AllTold hub.old.seen hub.old.lives }
    {
        let generation = steps::look(&self.words, &mut hub.badge, &mut front.badge);
        front.generation = generation;
        generation
    }

    /// What the front has seen is a beginning of the history, which tells of the engines that it carries; the answer is the
    /// length of the history. Nothing changes.
    pub fn tell(&self, hub: &mut HubFront, front: &mut Front) -> u64
        requires hub_here { hub.old.table ≡ self.now }
        requires front_here { front.old.table ≡ self.now }
        ensures generation { result ≡ length hub.old.seen }
        ensures hub { hub.new ≡ hub.old }
        ensures front { front.new ≡ front.old }
        ensures seen { IsPrefix front.old.seen hub.old.seen }
        ensures told { AllTold hub.old.seen front.old.lives }
        ensures hub_told { AllTold hub.old.seen hub.old.lives }
    {
        steps::tell(&self.words, &mut hub.badge, &mut front.badge)
    }

    /// The front sees the whole history, and the answer is its length, which is added to the generations of the
    /// front's engine.
    pub fn visit(&self, hub: &mut HubFront, front: &mut Front) -> u64
        requires hub_here { hub.old.table ≡ self.now }
        requires front_here { front.old.table ≡ self.now }
        requires runs { own_runs front.old.lives ≡ true }
        ensures generation { result ≡ length hub.old.seen }
        ensures hub { hub.new ≡ hub.old }
        ensures front { front.new ≡ record front.old { seen = hub.old.seen; lives = visited (length hub.old.seen) front.old.lives } }
        ensures seen { IsPrefix front.old.seen hub.old.seen }
        ensures told { AllTold hub.old.seen front.old.lives }
        ensures hub_told { AllTold hub.old.seen hub.old.lives }
    {
        let generation = steps::visit(&self.words, &mut hub.badge, &mut front.badge);
        front.generation = generation;
        generation
    }

    /// Whether the history has no further entry than the front has seen. Where so, this is a visit: the history's length is
    /// added to the generations of the front's engine. Else nothing has changed. It is one load, without the hub's front.
    pub fn revisit(&self, front: &mut Front) -> bool
        requires front_here { front.old.table ≡ self.now }
        requires runs { own_runs front.old.lives ≡ true }
        ensures visits { result ≡ true → front.new ≡ record front.old { lives = visited (length front.old.seen) front.old.lives } }
        ensures stays { result ≡ false → front.new ≡ front.old }
    {
        steps::revisit(&self.words, &mut front.badge, front.generation)
    }

    /// The history gains the entry that the value stands for, and both fronts see it. The answer is the entry's
    /// place, which is added to the generations of the entry's engine unless the entry is its end, which answers no
    /// request. `Worn` comes where the history's length is
    /// 2^47 or more and the entry is no engine's end; nothing has changed then.
    pub fn append<X: Shows>(
        &self,
        hub: &mut HubFront,
        front: &mut Front,
        x: &X,
    ) -> Result<u64, Worn>
        requires hub_here { hub.old.table ≡ self.now }
        requires front_here { front.old.table ≡ self.now }
        requires may { MayAppend (X.entry x.now) hub.old.seen hub.old.lives front.old.lives }
        requires room { length hub.old.seen < 2 ^ 49 }
        ensures worn { IsErr result ↔ ((2 ^ 47 ≤ length hub.old.seen) × (is_end (X.entry x.now).kind ≡ false)) }
        ensures worn_at { IfErr result (λ w. w.generation ≡ length hub.old.seen) }
        ensures worn_hub { IfErr result (λ w. hub.new ≡ hub.old) }
        ensures worn_front { IfErr result (λ w. front.new ≡ front.old) }
        ensures place { IfOk result (λ place. place ≡ length hub.old.seen) }
        ensures hub { IfOk result (λ place. hub.new ≡ record hub.old { seen = hub.old.seen ++ X.entry x.now ∷ []; lives = gains (X.entry x.now) place hub.old.lives ++ begun_by (X.entry x.now).kind }) }
        ensures front { IfOk result (λ place. front.new ≡ record front.old { seen = hub.old.seen ++ X.entry x.now ∷ []; lives = gains (X.entry x.now) place front.old.lives }) }
        ensures seen { IfOk result (λ place. IsPrefix front.old.seen hub.old.seen) }
        ensures told { IfOk result (λ place. AllTold hub.old.seen front.old.lives) }
        ensures hub_told { IfOk result (λ place. AllTold hub.old.seen hub.old.lives) }
    {
        if hub.generation >= WORN && !x.is_end() {
            return Err(Worn {
                generation: hub.generation,
            });
        }
        Ok(self.add::<X, Brand>(hub, front, x))
    }

    // `append`, with the entry picked.
    fn add<X: Shows, N: Adds>(&self, hub: &mut HubFront, front: &mut Front, _x: &X) -> u64
        requires entry { N.entry ≡ X.entry _x.now }
        requires hub_here { hub.old.table ≡ self.now }
        requires front_here { front.old.table ≡ self.now }
        requires may { MayAppend N.entry hub.old.seen hub.old.lives front.old.lives }
        requires room { length hub.old.seen < 2 ^ 49 }
        ensures place { result ≡ length hub.old.seen }
        ensures hub { hub.new ≡ record hub.old { seen = hub.old.seen ++ N.entry ∷ []; lives = gains N.entry result hub.old.lives ++ begun_by N.entry.kind } }
        ensures front { front.new ≡ record front.old { seen = hub.old.seen ++ N.entry ∷ []; lives = gains N.entry result front.old.lives } }
        ensures seen { IsPrefix front.old.seen hub.old.seen }
        ensures told { AllTold hub.old.seen front.old.lives }
        ensures hub_told { AllTold hub.old.seen hub.old.lives }
    {
        let place = steps::append::<N>(&self.words, &mut hub.badge, &mut front.badge);
        hub.generation = place + 1;
        front.generation = place + 1;
        place
    }

    /// The hub's front hands a begun engine over to a front, each engine of which has ended. It is then the front's
    /// own engine.
    pub fn hand(&self, hub: &mut HubFront, front: &mut Front, engine: u64)
        requires hub_here { hub.old.table ≡ self.now }
        requires front_here { front.old.table ≡ self.now }
        requires carried { 0 < times engine hub.old.lives }
        requires over { all_over front.old.lives ≡ true }
        ensures hub { hub.new ≡ record hub.old { lives = without engine hub.old.lives } }
        ensures front { front.new ≡ record front.old { lives = picked engine hub.old.lives ++ front.old.lives } }
        ensures own { (l : Life) × (picked engine hub.old.lives ≡ l ∷ []) × (l.engine ≡ engine) }
    {
        self.give::<Brand>(hub, front, engine)
    }

    // `hand`, with the engine picked.
    fn give<N: Names>(&self, hub: &mut HubFront, front: &mut Front, _engine: u64)
        requires engine { N.engine ≡ _engine }
        requires hub_here { hub.old.table ≡ self.now }
        requires front_here { front.old.table ≡ self.now }
        requires carried { 0 < times N.engine hub.old.lives }
        requires over { all_over front.old.lives ≡ true }
        ensures hub { hub.new ≡ record hub.old { lives = without N.engine hub.old.lives } }
        ensures front { front.new ≡ record front.old { lives = picked N.engine hub.old.lives ++ front.old.lives } }
    {
        steps::hand::<N>(&self.words, &mut hub.badge, &mut front.badge)
    }

    /// Takes the engines of another front in, and the longer of the two histories that were seen.
    pub fn merge(&self, front: &mut Front, other: Front)
        requires front_here { front.old.table ≡ self.now }
        requires other_here { other.table ≡ self.now }
        ensures { front.new ≡ record front.old { seen = longer front.old.seen other.seen; lives = front.old.lives ++ other.lives } }
    {
        let Front { badge, generation } = other;
        front.generation = larger(front.generation, generation);
        steps::merge(&self.words, &mut front.badge, badge)
    }

    /// Two fronts never carry the same engine. Nothing changes.
    pub fn apart(&self, first: &mut Front, second: &mut Front)
        requires first_here { first.old.table ≡ self.now }
        requires second_here { second.old.table ≡ self.now }
        ensures first { first.new ≡ first.old }
        ensures second { second.new ≡ second.old }
        ensures apart { (e : ℕ) → times e first.old.lives + times e second.old.lives ≤ 1 }
    {
        steps::compare(&self.words, &mut first.badge, &mut second.badge)
    }

    /// A front tells another what it has seen: that has then seen just the same. What it had seen before is a beginning of
    /// that, where it is no longer. It is one load, without the hub's front.
    pub fn inform(&self, front: &mut Front, other: &mut Front)
        requires front_here { front.old.table ≡ self.now }
        requires other_here { other.old.table ≡ self.now }
        ensures front { front.new ≡ front.old }
        ensures other { other.new ≡ record other.old { seen = front.old.seen } }
        ensures seen { length other.old.seen ≤ length front.old.seen → IsPrefix other.old.seen front.old.seen }
    {
        steps::inform(&self.words, &mut front.badge, &mut other.badge);
        other.generation = front.generation;
    }

    /// The hub's front and another never carry the same engine. Nothing changes.
    pub fn apart_from_hub(&self, hub: &mut HubFront, front: &mut Front)
        requires hub_here { hub.old.table ≡ self.now }
        requires front_here { front.old.table ≡ self.now }
        ensures hub { hub.new ≡ hub.old }
        ensures front { front.new ≡ front.old }
        ensures apart { (e : ℕ) → times e hub.old.lives + times e front.old.lives ≤ 1 }
    {
        steps::compare_with_hub(&self.words, &mut hub.badge, &mut front.badge)
    }
}
