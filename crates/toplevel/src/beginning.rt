//! The first engine before its first move, and what the engines of a command are given.
ghost use Rattle.std.specs.Prelude.{◌≡◌, ◌<◌, ◌∷◌, [], IfOk, IfSome, length};
ghost use Rattle.command_line.specs.Commands.{told_command};
ghost use Rattle.run_model.specs.Lawful.{Program};
ghost use Rattle.atom_table.specs.Holding.{Sits};
ghost use Rattle.atom_table.specs.Opening.{FreshFrom};
ghost use Rattle.pl_hub.specs.Fronts.{idle};
ghost use Rattle.pl_sched.specs.Terms.{AreTerms};
ghost use Rattle.toplevel.specs.Beginnings.{IsAtBeginning, IsNewSeat, budgets_in};
ghost use Rattle.toplevel.specs.RunOutcomes.{program_read};

use atom_collector::TableCollector;
use atom_table::{AtomSeat, AtomTable, Collector, NamesTable, TableAtoms};
use command_line::command::{Command, Limits};
use engine_run::{Lines, Runner};
use iso_engine::engine::Stays;
use iso_search::search::Budgets;
use pl_consult::FileScript;
use pl_history::Front;
use pl_sched::{Command as Naming, Home, Mark, Parts, Terms};
use pl_term::{Memory, Text};
use script_api::{Either, NamedOnce};
use std::alloc::Global;
use term_store::Stored;
use word_board::Board;

/// The scripts of engines: the file with the command's first goal, or a goal that the engine was started with.
pub(crate) type Scripts<'w> = Either<FileScript<'w>, NamedOnce<'w, Stored>>;

/// The atoms of engines, one for each seat of a new table. The only error is out of memory.
pub(crate) fn atoms_of<'t, K: NamesTable>(
    alloc: Global,
    table: &'t AtomTable,
    seats: Vec<AtomSeat>,
) -> Result<Vec<TableAtoms<'t, K>>, Memory>
    requires named { (table.now.words.table.shared.table_id ≡ K.atoms) × (table.now.words.size ≡ K.size) }
    requires seats { FreshFrom table.now.words 1 seats.items }
{
    let mut seats = seats;
    let mut all = Vec::new(alloc);
    while let Some(seat) = take_last(table, &mut seats) {
        all.push(TableAtoms::new(table, seat))?;
    }
    Ok(all)
}

/// The collector of a new table for so many slots, whose row of buckets has grown for them before an engine gets its seat.
pub(crate) fn collector_of<'t, K: NamesTable>(
    table: &'t AtomTable,
    collector: Collector,
    slots: u32,
) -> TableCollector<'t, K>
    requires named { (table.now.words.table.shared.table_id ≡ K.atoms) × (table.now.words.size ≡ K.size) }
    requires sits { Sits table.now.words collector.seat }
    requires slots { 0 < slots }
{
    let mut collector = TableCollector::new(table, collector);
    collector.grow_first(slots);
    collector
}

/// The seat of the engine with the highest number that is still there.
fn take_last(table: &AtomTable, seats: &mut Vec<AtomSeat>) -> Option<AtomSeat>
    requires { FreshFrom table.now.words 1 seats.old.items }
    ensures rest { FreshFrom table.now.words 1 seats.new.items }
    ensures seat { IfSome result (λ s. IsNewSeat table.now.words s) }
    ensures less { IfSome result (λ _. length seats.new.items < length seats.old.items) }
{
    let _ = table;
    seats.pop()
}

/// The first engine, which consults the file with these bytes and runs the first goal, at home. The only error is out of memory.
pub(crate) fn first_home<'t, K: Naming>(
    alloc: Global,
    command: &Command,
    bytes: Vec<u8>,
    board: &'t Board,
    atoms: TableAtoms<'t, K>,
    front: Front,
) -> Result<Home<'t, Runner<Scripts<'t>>, K>, Memory>
    requires program { K.program ≡ program_read (told_command command.now) bytes.items }
    requires file { K.file ≡ command.now.file }
    requires board { board.now ≡ K.board }
    requires front { front ≡ record { table = K.history; seen = []; lives = idle 1 ∷ [] } }
    ensures { IfOk result (λ h. h ≡ front) }
{
    let mut text = Vec::new(alloc);
    let words = copied(alloc, command.goals.as_slice())?;
    let script = FileScript::new(alloc, bytes, &command.file, words, board, &mut text)?;
    let engine = runner_of(alloc, command.limits, script, text);
    Ok(Home::new(Parts {
        engine,
        atoms,
        front,
        number: 1,
        mark: Mark::Ready,
    }))
}

/// The engine that runs a script from its beginning, where so much was written of the file.
fn runner_of<'t>(
    alloc: Global,
    limits: Limits,
    script: FileScript<'t>,
    text: Vec<u8>,
) -> Runner<Scripts<'t>>
    ensures { IsAtBeginning limits script.entry text.items result }
{
    Runner::new(
        alloc,
        Either::First(script),
        budgets_of(limits),
        limits.solutions,
        Lines::Solutions,
        text,
        Stays::AsMain,
    )
}

/// The same words once more. The only error is out of memory.
fn copied(alloc: Global, words: &[Text]) -> Result<Vec<Text>, Memory>
    ensures { IfOk result (λ v. v.items ≡ words.now) }
{
    let mut all = Vec::new(alloc);
    for word in words {
        all.push(word.copy(alloc)?)?;
    }
    Ok(all)
}

/// The budgets of searches.
fn budgets_of(limits: Limits) -> Budgets
    ensures { result ≡ budgets_in limits }
{
    Budgets {
        inferences: limits.inferences,
        cells: limits.cells,
        choices: limits.choices,
    }
}

/// What the engines of the command are given, whose program is that of the run.
pub(crate) fn terms_for<K: Naming>(command: &Command) -> Terms
    requires { K.program ≡ program_read (told_command command.now) K.program.bytes }
    ensures { AreTerms K.program result }
{
    terms_of(command)
}

/// What the engines of the command are given.
fn terms_of(command: &Command) -> Terms
    ensures { (p : Program) → p ≡ program_read (told_command command.now) p.bytes → AreTerms p result }
{
    Terms {
        budgets: budgets_of(command.limits),
        solutions: command.limits.solutions,
        goals: command.goals.len() as u64,
        slots: u64::from(command.slots),
    }
}
