//! What a test does with engine 1 of a new state, and with others that begin.
ghost use Rattle.std.specs.Prelude.{◌≡◌, ◌≤◌, ◌<◌, ◌^◌, ℕ, All};
ghost use Rattle.atom_table.specs.Opening.{FreshFrom};
ghost use Rattle.atom_words.specs.Seats.{seen};
ghost use Rattle.counted_terms.specs.Keeping.{KeepsAt, tally};
ghost use Rattle.pl_history.specs.Fronts.{new_front, new_hub};

use crate::asked::Ask;
use crate::players::first_player;
use crate::shared_visits::{wrong_engine, wrong_list, wrong_row};
use crate::soak::soak;
use crate::two_engines::two_engines;
use crate::worn_names::named;
use atom_table::{AtomSeat, AtomTable, Keeper, Opened};
use pl_history::{Front, History, HubFront};
use pl_hub::Naming;
use pl_term::Memory;
use std::alloc::Global;
use std::marker::Brand;
use std::process::Abort;
use std::sync::Wait;
use std::test::Fail;
use std::thread::Threads;

#[derive(Clone, Copy)]
pub enum Part<'a> {
    /// Visits of engine 1 with their answers.
    Rows(&'a [(Ask, &'a str)]),
    /// The lists of clauses.
    Lists,
    /// Threads until 64 engines run.
    Engines,
    /// The name of a second engine.
    Names,
    /// Two engines.
    Two,
    /// Eight threads, with visits by that number.
    Soak(u64),
}

fn came_of<K: Naming + Send + Sync, R: Threads + Wait + Abort + Sync>(
    rt: &R,
    alloc: Global,
    table: &AtomTable,
    mut seats: Vec<AtomSeat>,
    keeper: Keeper,
    history: &History,
    hub: HubFront,
    mut fronts: Vec<Front>,
    goals: u32,
    part: Part,
) -> Result<Option<String>, Memory>
    requires named { (table.now.words.table.shared.table_id ≡ K.atoms) × (table.now.words.size ≡ K.size) }
    requires history { history.now ≡ K.history }
    requires seats { FreshFrom table.now.words 1 seats.items }
    requires fronts { All (λ f. f ≡ new_front history.now) fronts.items }
    requires hub { hub ≡ new_hub K.history }
    requires keeper { KeepsAt K.atoms K.size keeper.seat }
    requires none { (k : ℕ) → tally (seen keeper.seat) k ≡ 0 }
    requires goals { K.goals ≡ goals }
{
    let (mut shared, mut player) = first_player::<K>(
        alloc,
        table,
        &mut seats,
        keeper,
        history,
        hub,
        &mut fronts,
        goals,
    )?;
    match part {
        Part::Rows(rows) => wrong_row(alloc, &mut shared, &mut player, rows),
        Part::Lists => wrong_list(alloc, &mut shared, &mut player),
        Part::Engines => wrong_engine(alloc, &mut shared, &mut player),
        Part::Names => named(alloc, table, seats, history, fronts, shared, player),
        Part::Two => two_engines(alloc, table, seats, history, fronts, shared, player),
        Part::Soak(seed) => soak(
            rt, alloc, seed, table, seats, history, fronts, shared, player,
        ),
    }
}

/// What comes of it over a new table and a new history, for a command with so many goals: the first answer that is another than
/// it says, where there is one. Each bucket of the table has been changed so often.
pub fn came<R: Threads + Wait + Abort + Sync>(
    rt: &R,
    alloc: Global,
    engines: u32,
    changes: u64,
    goals: u32,
    part: Part,
) -> Result<Option<String>, Fail>
    requires engines { (1 ≤ engines) × (engines ≤ 64) }
    requires changes { changes < 2 ^ 42 }
{
    let Opened {
        table,
        seats,
        keeper,
        collector: _,
    } = AtomTable::new_at(alloc, 512, engines, changes)?;
    let (history, hub, fronts) = History::new(alloc, engines)?;
    let came = came_of::<Brand, R>(
        rt, alloc, &table, seats, keeper, &history, hub, fronts, goals, part,
    )?;
    Ok(came)
}
