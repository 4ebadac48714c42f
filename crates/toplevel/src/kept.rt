//! What is kept of all engines, in the order of the report.
ghost use Rattle.std.specs.Prelude.{◌≡◌, ◌≤◌, ℕ, ◌∷◌, ◌++◌, [], IfOk, List, length, map};
ghost use Rattle.std.specs.List.{All, Contains};
ghost use Rattle.pl_model.specs.History.{History as Entries};
ghost use Rattle.run_model.specs.Lawful.{Program, beginnings, engine_numbers};
ghost use Rattle.run_model.specs.WholeRuns.{Carried, Once};
ghost use Rattle.pl_consult.specs.GoalWords.{words_of as words_told};
ghost use Rattle.pl_sched.specs.Ledger.{AreOnly, named_in};
ghost use Rattle.toplevel.specs.declared.front.EngineFront.{EngineFront as FrontOf};
ghost use Rattle.toplevel.specs.Kept.{AllBegun, AreEngines, Covers, IsKept};
ghost use Rattle.toplevel.specs.Opened.{IsOpened};

use crate::front::{EngineFront, Front};
use crate::main_engine::{Main, main_of, words_of};
use crate::opened::OpenedEngine;
use crate::others::put_other;
use crate::pairs::{take_goals, take_threads};
use pl_term::{Memory, Text};
use run_model::histories::engines_make_it_whole;
use run_report::Part;
use std::alloc::Global;
use word_board::GoalWord;

/// What is kept of a run: the script of the first engine and what is written of its file; the engines of the file and of the
/// goals; the threads; and what is told of the run.
#[derive(Drop)]
pub(crate) struct Kept<'w> {
    pub main: Main<'w>,
    pub engines: Vec<Part>,
    pub threads: Vec<Part>,
    pub front: Front,
}

/// What is kept of a run of a command with so many goals, whose file has this name. These are its engines, and `begun` has the
/// numbers and the aliases of those that it began, in their order. The only error is out of memory.
pub(crate) fn kept_of<'w>(
    alloc: Global,
    name: &Text,
    goals: u64,
    opened: Vec<OpenedEngine<'w>>,
    begun: &[(u64, Option<Text>)],
) -> Result<Kept<'w>, Memory>
    ensures { (p : Program) (board : ℕ) (h : Entries) → goals ≡ length p.words → All (IsOpened p name.now board h) opened.entry.items
        → AllBegun h opened.entry.items → AreOnly h → Once (engine_numbers (beginnings h)) → begun.now ≡ named_in h
        → IfOk result (IsKept name.now p) }
{
    engines_make_it_whole();
    let mut opened = opened;
    opened.sort_by_key(|engine| u64::MAX - engine.part.number)?;
    let Some(first) = opened.pop() else {
        return Err(Memory);
    };
    let (main, front, part) = main_of(name, first)?;
    if words_of(&main).len() as u64 > goals {
        return Err(Memory);
    }
    let mut fronts = Vec::new(alloc);
    fronts.push(front)?;
    let mut engines = Vec::new(alloc);
    engines.push(part)?;
    let others = others_of(alloc, opened, words_of(&main), goals, &mut fronts)?;
    let mut rest = others.into_iter();
    take_goals(begun, goals, &mut rest, &mut engines)?;
    let threads = take_threads(alloc, begun, goals, &mut rest)?;
    Ok(Kept {
        main,
        engines,
        threads,
        front: Front { engines: fronts },
    })
}

/// What is kept of the engines but the first one, of which the last in the list have the lowest numbers. The only error is out
/// of memory.
fn others_of<'w>(
    alloc: Global,
    opened: Vec<OpenedEngine<'w>>,
    words: &[GoalWord],
    goals: u64,
    fronts: &mut Vec<EngineFront>,
) -> Result<Vec<Part>, Memory>
    ensures { (p : Program) (file : List ℕ) (board : ℕ) (h : Entries) (first : Carried p h) → goals ≡ length p.words
        → All (IsOpened p file board h) opened.entry.items → Covers opened.entry.items (first ∷ [])
        → IfOk result (λ v. (fs : List FrontOf) × (fronts.new.items ≡ fronts.old.items ++ fs)
        × AreEngines p h (words_told words.now) first fs v.items) }
{
    let mut opened = opened;
    let mut parts = Vec::new(alloc);
    let mut last = 1;
    while let Some(engine) = opened.pop() {
        last = put_other(engine, last, words, goals, fronts, &mut parts)?;
    }
    Ok(parts)
}
