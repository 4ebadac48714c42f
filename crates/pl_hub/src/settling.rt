//! The step on the history after a part of the shared state has answered.
ghost use Rattle.std.specs.Prelude.{◌^◌, ◌<◌, ◌≡◌, ◌∷◌, [], ◌++◌, ℕ, OnOk, true, length};
ghost use Rattle.pl_model.specs.History.{finish, is_end};
ghost use Rattle.pl_history.specs.Fronts.{begun_by, gains, own_engine, own_runs, times};
ghost use Rattle.pl_hub.specs.Ending.{front_closed, hub_closed};
ghost use Rattle.pl_hub.specs.Settling.{CanMake, CanSettle, IsBehind, Sees, answer_of, entry, front_after, hub_after, next_answer, next_front};

use counted_terms::Row;
use pl_history::{Front, History, HubFront};
use pl_model::shows::{Ends, Shows, ShowsHow, ShowsSteps};
use pl_term::Memory;
use std::marker::{Brand, PhantomData};
use term_store::Stored;
use world_api::{Answer, Found, Reply};

/// The update that a row makes, where it makes one: it is no engine's end. The call picks it.
pub(crate) trait Updates {
    ghost use Rattle.std.specs.Prelude.{◌≡◌, false};
    ghost use Rattle.pl_model.specs.History.{Kind, is_end};

    ghost kind: { Kind };

    ghost plain: { is_end kind ≡ false };
}

impl Updates for Brand {
    ghost use Rattle.std.specs.Prelude.{refl};
    ghost use Rattle.pl_model.specs.History.{erase};

    ghost kind = { erase 0 };

    ghost plain = { refl };
}

// The update, by an engine.
#[derive(Drop)]
struct Update<N: Updates> {
    engine: u64,
    of: PhantomData<N>,
}

impl<N: Updates> Shows for Update<N> {
    ghost use Rattle.pl_hub.specs.Settling.{entry};

    ghost entry = { λ x. entry x.engine N.kind };

    fn is_end(&self) -> bool {
        false
    }
}

// The engine that runs in the front is not the hub's. Nothing changes.
fn hub_is_apart(history: &History, hub: &mut HubFront, front: &mut Front, engine: u64)
    requires hub_here { hub.old.table ≡ history.now }
    requires front_here { front.old.table ≡ history.now }
    requires own { own_engine front.old.lives ≡ engine }
    requires runs { own_runs front.old.lives ≡ true }
    ensures hub { hub.new ≡ hub.old }
    ensures front { front.new ≡ front.old }
    ensures apart { times engine hub.old.lives ≡ 0 }
{
    history.apart_from_hub(hub, front)
}

// The history gains the update that is picked for `N`.
fn make<N: Updates>(history: &History, hub: &mut HubFront, front: &mut Front, engine: u64) -> u64
    requires hub_here { hub.old.table ≡ history.now }
    requires front_here { front.old.table ≡ history.now }
    requires own { own_engine front.old.lives ≡ engine }
    requires runs { own_runs front.old.lives ≡ true }
    requires can { CanMake N.kind hub.old.seen }
    ensures place { result ≡ length hub.old.seen }
    ensures hub { hub.new ≡ record hub.old { seen = hub.old.seen ++ entry engine N.kind ∷ []; lives = hub.old.lives ++ begun_by N.kind } }
    ensures front { front.new ≡ record front.old { seen = hub.old.seen ++ entry engine N.kind ∷ []; lives = gains (entry engine N.kind) (length hub.old.seen) front.old.lives } }
    ensures sees { IsBehind hub.old.seen front.old }
{
    hub_is_apart(history, hub, front, engine);
    let update = Update::<N> {
        engine,
        of: PhantomData,
    };
    let Ok(place) = history.append(hub, front, &update) else {
        unreachable!()
    };
    place
}

/// The one step on the history after a row: the front's own engine, which has this number and runs, visits the history,
/// makes the update that is picked for `N`, or looks. A row that is refused makes no step.
pub(crate) fn settle<N: Updates>(
    history: &History,
    hub: &mut HubFront,
    front: &mut Front,
    engine: u64,
    row: Row,
) -> Answer<Stored>
    requires hub_here { hub.old.table ≡ history.now }
    requires front_here { front.old.table ≡ history.now }
    requires own { own_engine front.old.lives ≡ engine }
    requires runs { own_runs front.old.lives ≡ true }
    requires can { CanSettle N.kind hub.old.seen row }
    ensures answer { result ≡ answer_of row (length hub.old.seen) }
    ensures hub { hub.new ≡ hub_after engine N.kind row hub.old }
    ensures front { front.new ≡ front_after engine N.kind row hub.old.seen front.old }
    ensures sees { Sees hub.old.seen front.old row }
{
    match row {
        Row::Reads(reply) => {
            let generation = history.visit(hub, front);
            Answer::Served { reply, generation }
        }
        Row::Makes(reply) => {
            let generation = make::<N>(history, hub, front, engine);
            Answer::Served { reply, generation }
        }
        Row::Waits(on) => {
            let generation = history.look(hub, front);
            Answer::Waits { on, generation }
        }
        Row::NeedsAtoms(pass) => Answer::NeedsAtoms(pass),
        Row::Retry(cause) => Answer::Retry(cause),
        Row::Worn(word) => Answer::Worn(word),
        Row::Memory => Answer::Memory,
    }
}

/// The one step on the history after the next clause of a list was found, or memory ran out: the front looks, and no list
/// gains.
pub(crate) fn settle_next(
    history: &History,
    hub: &mut HubFront,
    front: &mut Front,
    found: Result<Option<Found<Stored>>, Memory>,
    generation: u64,
) -> Answer<Stored>
    requires hub_here { hub.old.table ≡ history.now }
    requires front_here { front.old.table ≡ history.now }
    ensures answer { result ≡ next_answer generation found }
    ensures hub { hub.new ≡ hub.old }
    ensures front { front.new ≡ next_front found hub.old.seen front.old }
    ensures sees { OnOk found (IsBehind hub.old.seen front.old) }
{
    match found {
        Ok(found) => {
            history.look(hub, front);
            Answer::Served {
                reply: Reply::Clauses(found),
                generation,
            }
        }
        Err(Memory) => Answer::Memory,
    }
}

/// The history gains the end of the front's own engine, which answers no request.
pub(crate) fn close<W: ShowsHow, S: ShowsSteps>(
    history: &History,
    hub: &mut HubFront,
    front: &mut Front,
    engine: u64,
    how: &W,
    run: &S,
)
    requires hub_here { hub.old.table ≡ history.now }
    requires front_here { front.old.table ≡ history.now }
    requires own { own_engine front.old.lives ≡ engine }
    requires runs { own_runs front.old.lives ≡ true }
    requires room { length hub.old.seen < 2 ^ 49 }
    ensures hub { hub.new ≡ hub_closed engine (finish (W.how how.now) (S.steps run.now)) hub.old }
    ensures front { front.new ≡ front_closed engine (finish (W.how how.now) (S.steps run.now)) hub.old.seen front.old }
    ensures sees { IsBehind hub.old.seen front.old }
{
    hub_is_apart(history, hub, front, engine);
    let ends = Ends { engine, how, run };
    let Ok(_place) = history.append(hub, front, &ends) else {
        unreachable!()
    };
}
