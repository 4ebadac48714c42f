//! The run of all engines of a command.
ghost use Rattle.std.specs.Prelude.{◌≡◌, ◌<◌, ℕ, List, IfOk, length, suc, take};
ghost use Rattle.run_model.specs.Execution.{most_bytes};
ghost use Rattle.command_line.specs.Commands.{IsWithin, told_command};
ghost use Rattle.atom_words.specs.Seats.{seen};
ghost use Rattle.atom_table.specs.Holding.{Sits};
ghost use Rattle.atom_table.specs.Opening.{FreshFrom};
ghost use Rattle.counted_terms.specs.Keeping.{KeepsAt, tally};
ghost use Rattle.pl_history.specs.Fronts.{new_hub};
ghost use Rattle.toplevel.specs.Headline.{IsReady};
ghost use Rattle.toplevel.specs.RunOutcomes.{HasRunAll, IsReadyOf, program_read};

use crate::beginning::{Scripts, atoms_of, collector_of, first_home, terms_for};
use crate::opened::open;
use crate::ready::{Ready, make_ready};
use atom_table::{AtomSeat, AtomTable, Collector, Keeper, Opened};
use command_line::command::Command;
use engine_run::Runner;
use pl_history::{History, HubFront};
use pl_hub::Shared;
use pl_io::Gate;
use pl_sched::{Command as Naming, Goals, Hub, Ran, Unfinished, run_all};
use pl_term::Memory;
use std::alloc::Global;
use std::marker::Brand;
use std::sync::Wait;
use std::thread::Threads;
use word_board::Board;

/// How many engines there may be at one time.
const ENGINES: u32 = 64;

/// Runs the command on a file with these bytes, and makes what is to be written. The only error is out of memory.
pub(crate) fn run_engines<R: Threads + Wait + Sync, G: Gate + Sync>(
    rt: &R,
    alloc: Global,
    command: &Command,
    bytes: Vec<u8>,
    gate: &G,
) -> Result<Ready, Memory>
    requires within { IsWithin command.now }
    ensures { (all : List ℕ) → bytes.items ≡ take (suc most_bytes) all
        → IfOk result (IsReady (told_command command.now) all) }
{
    let goals = command.goals.len() as u32;
    let Opened {
        table,
        seats,
        keeper,
        collector,
    } = AtomTable::new(alloc, command.slots, ENGINES)?;
    let (history, hub, _fronts) = History::new(alloc, ENGINES)?;
    let board = Board::new();
    run_over::<Brand, R, G>(
        rt, alloc, command, bytes, gate, goals, &table, &history, &board, seats, keeper, collector,
        hub,
    )
}

/// The same over a new table of atoms, a new history and a new board of words, for a command with so many goals.
fn run_over<'t, K: Naming + Send + Sync, R: Threads + Wait + Sync, G: Gate + Sync>(
    rt: &R,
    alloc: Global,
    command: &Command,
    bytes: Vec<u8>,
    gate: &G,
    goals: u32,
    table: &'t AtomTable,
    history: &History,
    board: &'t Board,
    seats: Vec<AtomSeat>,
    keeper: Keeper,
    collector: Collector,
    hub: HubFront,
) -> Result<Ready, Memory>
    requires named { (table.now.words.table.shared.table_id ≡ K.atoms) × (table.now.words.size ≡ K.size) }
    requires seats { FreshFrom table.now.words 1 seats.items }
    requires keeper { KeepsAt K.atoms K.size keeper.seat }
    requires none { (k : ℕ) → tally (seen keeper.seat) k ≡ 0 }
    requires collector { Sits table.now.words collector.seat }
    requires slots { 0 < command.now.slots }
    requires history { history.now ≡ K.history }
    requires hub { hub ≡ new_hub K.history }
    requires board { board.now ≡ K.board }
    requires program { K.program ≡ program_read (told_command command.now) bytes.items }
    requires file { K.file ≡ command.now.file }
    requires goals { goals ≡ length command.now.goals.items }
    requires counted { K.goals ≡ goals }
    ensures { IfOk result (IsReadyOf K.file K.program) }
{
    let collector = collector_of::<K>(table, collector, command.slots);
    let mut spare = atoms_of::<K>(alloc, table, seats)?;
    let Some(atoms) = spare.pop() else {
        return Err(Memory);
    };
    let mut front = history.front();
    let shared = Shared::<K>::new(alloc, history, hub, keeper, &mut front, goals)?;
    let first = first_home(alloc, command, bytes, board, atoms, front)?;
    let mut hub = Hub::new(alloc, shared, spare, collector);
    hub.bring(first)?;
    let workers = command.workers as usize;
    let starts = Goals::new(board);
    let terms = terms_for::<K>(command);
    let ran = run_all(rt, alloc, gate, &starts, history, hub, terms, workers);
    outcome_of(alloc, command, ran)
}

/// What comes of the run of all engines. The only error is out of memory.
fn outcome_of<'t, K: Naming>(
    alloc: Global,
    command: &Command,
    ran: Result<Ran<Runner<Scripts<'t>>, K>, Unfinished>,
) -> Result<Ready, Memory>
    requires words { K.program.words ≡ command.now.goals.items }
    requires file { K.file ≡ command.now.file }
    requires goals { K.goals ≡ length K.program.words }
    requires ran { IfOk ran (λ v. HasRunAll K.goals v.dones.items v.begun.items) }
    ensures { IfOk result (IsReadyOf K.file K.program) }
{
    match ran {
        Ok(ran) => {
            let Ran { dones, begun } = ran;
            let mut dones = dones;
            let mut opened = Vec::new(alloc);
            while let Some(done) = dones.pop() {
                opened.push(open(done))?;
            }
            make_ready(alloc, command, opened, begun.as_slice())
        }
        Err(_) => Err(Memory),
    }
}
