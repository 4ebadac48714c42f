//! The steps of a history, on badges.
ghost use Rattle.std.specs.Prelude.{◌≡◌, ◌<◌, ◌≤◌, ◌^◌, ◌+◌, ℕ, [], ◌∷◌, true, false, length};
ghost use mathlib.Core.List.{IsPrefix};
ghost use Rattle.pl_history.specs.Fronts.{own_runs, times, all_over};
ghost use Rattle.pl_history.specs.Steps.{MayAppend, hub_alone, front_alone, both, merged, kept_by_hub, handed};
ghost use Rattle.pl_history.specs.Seats.{hub_in_badge, front_in_badge, hub_of, front_of, told_by, after_look, after_nothing, after_revisit, after_visit, after_append, IsStep};

use crate::board::{
    Adds, Appends, AsOne, Behind, Beside, Compares, FromFirst, FromHub, GENERATION, Hands, Informs,
    Known, Looks, Names, Place, Revisits, Visits, Words,
};
use atomic_table::Badge;
use std::mem;

// The seat of a badge, which is left blank.
fn lift(badge: &mut Badge<Known>) -> Place
    requires { (v : _) × (badge.old.views ≡ v ∷ []) }
    ensures table { result.table_id ≡ badge.old.table_id }
    ensures views { badge.old.views ≡ result.me.0 ∷ [] }
    ensures slots { result.me.1 ≡ [] }
{
    mem::replace(badge, Badge::blank()).into_seat()
}

// One seat that has the hub's front and another.
fn meet(words: &Words, hub: &mut Badge<Known>, front: &mut Badge<Known>) -> Place
    requires tables { (hub.old.table_id ≡ words.now.shared.table_id) × (front.old.table_id ≡ words.now.shared.table_id) × (0 < words.now.shared.table_id.words) }
    requires hub_is { hub.old.views ≡ hub_alone (hub_in_badge hub.old.views) ∷ [] }
    requires front_is { front.old.views ≡ front_alone (front_in_badge front.old.views) ∷ [] }
    ensures table { result.table_id ≡ words.now.shared.table_id }
    ensures view { result.me ≡ (both (hub_in_badge hub.old.views) (front_in_badge front.old.views), []) }
{
    let mut seat = lift(hub);
    let other = lift(front);
    words.shared.join_seat::<Beside>(&mut seat, other);
    seat
}

// The two apart again.
fn part(words: &Words, mut seat: Place, hub: &mut Badge<Known>, front: &mut Badge<Known>)
    requires tables { (seat.table_id ≡ words.now.shared.table_id) × (0 < words.now.shared.table_id.words) }
    requires view { seat.me ≡ (both (hub_of seat.me.0) (front_of seat.me.0), []) }
    ensures tables { (hub.new.table_id ≡ words.now.shared.table_id) × (front.new.table_id ≡ words.now.shared.table_id) }
    ensures hub_is { hub.new.views ≡ hub_alone (hub_of seat.me.0) ∷ [] }
    ensures front_is { front.new.views ≡ front_alone (front_of seat.me.0) ∷ [] }
{
    let other = words.shared.split_seat::<FromHub>(&mut seat);
    *hub = seat.into_badge();
    *front = other.into_badge();
}

/// The front sees the whole history.
pub(crate) fn look(words: &Words, hub: &mut Badge<Known>, front: &mut Badge<Known>) -> u64
    requires tables { (hub.old.table_id ≡ words.now.shared.table_id) × (front.old.table_id ≡ words.now.shared.table_id) × (1 < words.now.shared.table_id.words) }
    requires hub_is { hub.old.views ≡ hub_alone (hub_in_badge hub.old.views) ∷ [] }
    requires front_is { front.old.views ≡ front_alone (front_in_badge front.old.views) ∷ [] }
    ensures tables { (hub.new.table_id ≡ hub.old.table_id) × (front.new.table_id ≡ front.old.table_id) }
    ensures step { let old = both (hub_in_badge hub.old.views) (front_in_badge front.old.views) in IsStep after_look old result hub.new.views front.new.views }
{
    let mut seat = meet(words, hub, front);
    let found = words.shared.load::<Looks>(&mut seat, GENERATION);
    part(words, seat, hub, front);
    found
}

/// What the front has seen is a beginning of the history. Nothing changes.
pub(crate) fn tell(words: &Words, hub: &mut Badge<Known>, front: &mut Badge<Known>) -> u64
    requires tables { (hub.old.table_id ≡ words.now.shared.table_id) × (front.old.table_id ≡ words.now.shared.table_id) × (1 < words.now.shared.table_id.words) }
    requires hub_is { hub.old.views ≡ hub_alone (hub_in_badge hub.old.views) ∷ [] }
    requires front_is { front.old.views ≡ front_alone (front_in_badge front.old.views) ∷ [] }
    ensures tables { (hub.new.table_id ≡ hub.old.table_id) × (front.new.table_id ≡ front.old.table_id) }
    ensures step { let old = both (hub_in_badge hub.old.views) (front_in_badge front.old.views) in IsStep after_nothing old result hub.new.views front.new.views }
{
    let mut seat = meet(words, hub, front);
    let found = words.shared.load::<Behind>(&mut seat, GENERATION);
    part(words, seat, hub, front);
    found
}

/// The front sees the whole history, and its engine gains the generation.
pub(crate) fn visit(words: &Words, hub: &mut Badge<Known>, front: &mut Badge<Known>) -> u64
    requires tables { (hub.old.table_id ≡ words.now.shared.table_id) × (front.old.table_id ≡ words.now.shared.table_id) × (1 < words.now.shared.table_id.words) }
    requires hub_is { hub.old.views ≡ hub_alone (hub_in_badge hub.old.views) ∷ [] }
    requires front_is { front.old.views ≡ front_alone (front_in_badge front.old.views) ∷ [] }
    requires runs { own_runs (front_in_badge front.old.views).lives ≡ true }
    ensures tables { (hub.new.table_id ≡ hub.old.table_id) × (front.new.table_id ≡ front.old.table_id) }
    ensures step { let old = both (hub_in_badge hub.old.views) (front_in_badge front.old.views) in IsStep after_visit old result hub.new.views front.new.views }
{
    let mut seat = meet(words, hub, front);
    let found = words.shared.load::<Visits>(&mut seat, GENERATION);
    part(words, seat, hub, front);
    found
}

/// Whether the history has as many entries as the front has seen, whose number is given: then its engine gains the
/// generation. Else nothing has changed.
pub(crate) fn revisit(words: &Words, front: &mut Badge<Known>, generation: u64) -> bool
    requires tables { (front.old.table_id ≡ words.now.shared.table_id) × (1 < words.now.shared.table_id.words) }
    requires front_is { front.old.views ≡ front_alone (front_in_badge front.old.views) ∷ [] }
    requires runs { own_runs (front_in_badge front.old.views).lives ≡ true }
    requires seen { generation ≡ length (front_in_badge front.old.views).seen }
    ensures table { front.new.table_id ≡ front.old.table_id }
    ensures visits { result ≡ true → front.new.views ≡ after_revisit (front_alone (front_in_badge front.old.views)) ∷ [] }
    ensures stays { result ≡ false → front.new.views ≡ front.old.views }
{
    let mut seat = lift(front);
    let found = words.shared.load::<Revisits>(&mut seat, GENERATION);
    *front = seat.into_badge();
    found == generation
}

/// The history gains the entry that is picked for `N`.
pub(crate) fn append<N: Adds>(
    words: &Words,
    hub: &mut Badge<Known>,
    front: &mut Badge<Known>,
) -> u64
    requires tables { (hub.old.table_id ≡ words.now.shared.table_id) × (front.old.table_id ≡ words.now.shared.table_id) × (1 < words.now.shared.table_id.words) }
    requires hub_is { hub.old.views ≡ hub_alone (hub_in_badge hub.old.views) ∷ [] }
    requires front_is { front.old.views ≡ front_alone (front_in_badge front.old.views) ∷ [] }
    requires may { MayAppend N.entry (hub_in_badge hub.old.views).seen (hub_in_badge hub.old.views).lives (front_in_badge front.old.views).lives }
    requires room { length (hub_in_badge hub.old.views).seen < 2 ^ 49 }
    ensures tables { (hub.new.table_id ≡ hub.old.table_id) × (front.new.table_id ≡ front.old.table_id) }
    ensures step { let old = both (hub_in_badge hub.old.views) (front_in_badge front.old.views) in IsStep (after_append N.entry) old result hub.new.views front.new.views }
{
    let mut seat = meet(words, hub, front);
    let found = words
        .shared
        .fetch_add::<Appends<N>>(&mut seat, GENERATION, 1);
    part(words, seat, hub, front);
    found
}

/// The hub's front hands the engine that is picked for `N` over to the other.
pub(crate) fn hand<N: Names>(words: &Words, hub: &mut Badge<Known>, front: &mut Badge<Known>)
    requires tables { (hub.old.table_id ≡ words.now.shared.table_id) × (front.old.table_id ≡ words.now.shared.table_id) × (1 < words.now.shared.table_id.words) }
    requires hub_is { hub.old.views ≡ hub_alone (hub_in_badge hub.old.views) ∷ [] }
    requires front_is { front.old.views ≡ front_alone (front_in_badge front.old.views) ∷ [] }
    requires carried { 0 < times N.engine (hub_in_badge hub.old.views).lives }
    requires over { all_over (front_in_badge front.old.views).lives ≡ true }
    ensures tables { (hub.new.table_id ≡ hub.old.table_id) × (front.new.table_id ≡ front.old.table_id) }
    ensures hub { hub.new.views ≡ kept_by_hub N.engine (both (hub_in_badge hub.old.views) (front_in_badge front.old.views)) ∷ [] }
    ensures front { front.new.views ≡ handed N.engine (both (hub_in_badge hub.old.views) (front_in_badge front.old.views)) ∷ [] }
{
    let mut seat = meet(words, hub, front);
    let other = words.shared.split_seat::<Hands<N>>(&mut seat);
    *hub = seat.into_badge();
    *front = other.into_badge();
}

/// One front with what both have.
pub(crate) fn merge(words: &Words, front: &mut Badge<Known>, mut other: Badge<Known>)
    requires tables { (front.old.table_id ≡ words.now.shared.table_id) × (other.table_id ≡ words.now.shared.table_id) × (1 < words.now.shared.table_id.words) }
    requires front_is { front.old.views ≡ front_alone (front_in_badge front.old.views) ∷ [] }
    requires other_is { other.views ≡ front_alone (front_in_badge other.views) ∷ [] }
    ensures table { front.new.table_id ≡ front.old.table_id }
    ensures front { front.new.views ≡ front_alone (merged (front_in_badge front.old.views) (front_in_badge other.views)) ∷ [] }
{
    let mut seat = lift(front);
    let second = lift(&mut other);
    words.shared.join_seat::<AsOne>(&mut seat, second);
    *front = seat.into_badge();
}

/// Two fronts carry no engine both.
pub(crate) fn compare(words: &Words, first: &mut Badge<Known>, second: &mut Badge<Known>)
    requires tables { (first.old.table_id ≡ words.now.shared.table_id) × (second.old.table_id ≡ words.now.shared.table_id) × (1 < words.now.shared.table_id.words) }
    requires first_is { first.old.views ≡ front_alone (front_in_badge first.old.views) ∷ [] }
    requires second_is { second.old.views ≡ front_alone (front_in_badge second.old.views) ∷ [] }
    ensures tables { (first.new.table_id ≡ first.old.table_id) × (second.new.table_id ≡ second.old.table_id) }
    ensures same { (first.new.views ≡ first.old.views) × (second.new.views ≡ second.old.views) }
    ensures once { (e : ℕ) → times e (front_in_badge first.old.views).lives + times e (front_in_badge second.old.views).lives ≤ 1 }
{
    let mut seat = lift(first);
    let other = lift(second);
    words.shared.join_seat::<Beside>(&mut seat, other);
    words.shared.load::<Compares>(&mut seat, GENERATION);
    let other = words.shared.split_seat::<FromFirst>(&mut seat);
    *first = seat.into_badge();
    *second = other.into_badge();
}

/// The second front has seen what the first has. Both had seen beginnings of one history.
pub(crate) fn inform(words: &Words, first: &mut Badge<Known>, second: &mut Badge<Known>)
    requires tables { (first.old.table_id ≡ words.now.shared.table_id) × (second.old.table_id ≡ words.now.shared.table_id) × (1 < words.now.shared.table_id.words) }
    requires first_is { first.old.views ≡ front_alone (front_in_badge first.old.views) ∷ [] }
    requires second_is { second.old.views ≡ front_alone (front_in_badge second.old.views) ∷ [] }
    ensures tables { (first.new.table_id ≡ first.old.table_id) × (second.new.table_id ≡ second.old.table_id) }
    ensures first_stays { first.new.views ≡ first.old.views }
    ensures second_told { second.new.views ≡ front_alone (told_by (front_in_badge first.old.views) (front_in_badge second.old.views)) ∷ [] }
    ensures seen { length (front_in_badge second.old.views).seen ≤ length (front_in_badge first.old.views).seen → IsPrefix (front_in_badge second.old.views).seen (front_in_badge first.old.views).seen }
{
    let mut seat = lift(first);
    let other = lift(second);
    words.shared.join_seat::<Beside>(&mut seat, other);
    words.shared.load::<Informs>(&mut seat, GENERATION);
    let other = words.shared.split_seat::<FromFirst>(&mut seat);
    *first = seat.into_badge();
    *second = other.into_badge();
}

/// The hub's front and the other carry no engine both.
pub(crate) fn compare_with_hub(words: &Words, hub: &mut Badge<Known>, front: &mut Badge<Known>)
    requires tables { (hub.old.table_id ≡ words.now.shared.table_id) × (front.old.table_id ≡ words.now.shared.table_id) × (1 < words.now.shared.table_id.words) }
    requires hub_is { hub.old.views ≡ hub_alone (hub_in_badge hub.old.views) ∷ [] }
    requires front_is { front.old.views ≡ front_alone (front_in_badge front.old.views) ∷ [] }
    ensures tables { (hub.new.table_id ≡ hub.old.table_id) × (front.new.table_id ≡ front.old.table_id) }
    ensures same { (hub.new.views ≡ hub.old.views) × (front.new.views ≡ front.old.views) }
    ensures once { (e : ℕ) → times e (hub_in_badge hub.old.views).lives + times e (front_in_badge front.old.views).lives ≤ 1 }
{
    let mut seat = meet(words, hub, front);
    words.shared.load::<Compares>(&mut seat, GENERATION);
    part(words, seat, hub, front);
}
