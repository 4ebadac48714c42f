//! The command line, read with clap.
ghost use Rattle.std.specs.Prelude.{◌≡◌, ◌<◌, ◌≤◌, false, codes, length, map, IfOk, IfSome};
ghost use Rattle.std.specs.Str.{chars};
ghost use Rattle.clap.specs.declared.builder.command.Command.TheViews.{out-Command as fields_of};
ghost use Rattle.clap.specs.Words.{all_of, app_of, found_of, one_of, rows_of, rule_of, subcommand_rows_of};
ghost use Rattle.command_line.specs.CommandLine.{between, check_app, check_order, commands_app, further_words, limits_app, limits_in, load_app, load_command, load_order, number_of, number_option, number_word, options_app, order, order_of, plt_app, required_word, run_app, run_command, run_order, words_by};
ghost use Rattle.command_line.specs.Commands.{AreLimits, IsCommand, IsOrder, IsOrderWithin, IsWithin, told_command};

use clap::error::ErrorKind;
use clap::{Arg, ArgAction, ArgMatches, Command as Syntax, value_parser};
use pl_term::{Memory, Text};
use std::alloc::{AllocError, Global};

/// How many words of goals there may be.
const MOST_GOALS: usize = 64;

/// A command to run a file: the name of the file, the words of the goals (64 at most), the limits of goals, directives and threads, how many
/// workers run the engines (1 to 16), and how many slots the table of atoms has (512 to 1,048,576).
#[derive(Debug, Drop)]
pub struct Command {
    pub file: Text,
    pub goals: Vec<Text>,
    pub limits: Limits,
    pub workers: u32,
    pub slots: u32,
}

/// The limits of goals, directives and threads: the solutions that are wanted of a goal, and the budgets of inferences, of cells
/// and of choice points.
#[derive(Clone, Copy, Debug, Drop)]
pub struct Limits {
    pub solutions: u64,
    pub inferences: u64,
    pub cells: u64,
    pub choices: u64,
}

/// What words order.
#[derive(Debug, Drop)]
pub enum Order {
    /// To run a file.
    Run(Command),
    /// To check the file with this name.
    Check(Text),
    /// To run the source that a seed (0 to 2,147,483,647) and a size (1 to 10,000) give.
    Load { seed: u64, size: u64 },
}

/// What these words order, without the program's name, as clap reads them: `run [--workers N] [--solutions N] [--atoms N]
/// [--inferences N] [--cells N] [--choices N] FILE [GOAL]...`, `check FILE` or `load SEED SIZE`. No other words order anything,
/// help among them. The only error is out of memory.
pub fn read_order(alloc: Global, words: &[Text]) -> Result<Option<Order>, Memory>
    ensures order { IfOk result (λ r. IsOrder r (order words.now)) }
    ensures bounds { IfOk result (λ r. IfSome r IsOrderWithin) }
{
    let syntax = plt_syntax(alloc)?;
    match syntax.try_get_matches_from(words) {
        Ok(matches) => subcommand_given(alloc, &matches),
        Err(e) => match e.kind() {
            ErrorKind::OutOfMemory => Err(Memory),
            _ => Ok(None),
        },
    }
}

/// The command by which `load` runs its source: named `load`, with the goal `load`, by the numbers that stand where no option
/// is given. The only error is out of memory.
pub fn load_command(alloc: Global) -> Result<Command, Memory>
    ensures command { IfOk result (λ c. told_command c ≡ load_command) }
    ensures bounds { IfOk result IsWithin }
{
    let file = Text::from_str(alloc, "load")?;
    let mut goals = Vec::new(alloc);
    goals.push(Text::from_str(alloc, "load")?)?;
    Ok(Command {
        file,
        goals,
        limits: Limits {
            solutions: 1,
            inferences: 10_000_000,
            cells: 4_000_000,
            choices: 1_000_000,
        },
        workers: 4,
        slots: 65_536,
    })
}

/// The option `--solutions`: from 1 to 1,000,000, and 1 where it is not given.
fn solutions_option<'a>(alloc: Global) -> Arg<'a>
    ensures rule { rule_of result ≡ number_option (codes "solutions") 1 1000000 (codes "1") }
    ensures local { result.global ≡ false }
{
    Arg::new(alloc, "solutions")
        .long("solutions")
        .value_parser(value_parser!(u64).range(1..=1_000_000))
        .default_value("1")
}

/// The option `--inferences`: from 1 to 1,000,000,000, and 10,000,000 where it is not given.
fn inferences_option<'a>(alloc: Global) -> Arg<'a>
    ensures rule { rule_of result ≡ number_option (codes "inferences") 1 1000000000 (codes "10000000") }
    ensures local { result.global ≡ false }
{
    Arg::new(alloc, "inferences")
        .long("inferences")
        .value_parser(value_parser!(u64).range(1..=1_000_000_000))
        .default_value("10000000")
}

/// The option `--cells`: from 1 to 100,000,000, and 4,000,000 where it is not given.
fn cells_option<'a>(alloc: Global) -> Arg<'a>
    ensures rule { rule_of result ≡ number_option (codes "cells") 1 100000000 (codes "4000000") }
    ensures local { result.global ≡ false }
{
    Arg::new(alloc, "cells")
        .long("cells")
        .value_parser(value_parser!(u64).range(1..=100_000_000))
        .default_value("4000000")
}

/// The option `--choices`: from 1 to 10,000,000, and 1,000,000 where it is not given.
fn choices_option<'a>(alloc: Global) -> Arg<'a>
    ensures rule { rule_of result ≡ number_option (codes "choices") 1 10000000 (codes "1000000") }
    ensures local { result.global ≡ false }
{
    Arg::new(alloc, "choices")
        .long("choices")
        .value_parser(value_parser!(u64).range(1..=10_000_000))
        .default_value("1000000")
}

/// The option `--workers`: from 1 to 16, and 4 where it is not given.
fn workers_option<'a>(alloc: Global) -> Arg<'a>
    ensures rule { rule_of result ≡ number_option (codes "workers") 1 16 (codes "4") }
    ensures local { result.global ≡ false }
{
    Arg::new(alloc, "workers")
        .long("workers")
        .value_parser(value_parser!(u64).range(1..=16))
        .default_value("4")
}

/// The option `--atoms`: from 512 to 1,048,576, and 65,536 where it is not given.
fn atoms_option<'a>(alloc: Global) -> Arg<'a>
    ensures rule { rule_of result ≡ number_option (codes "atoms") 512 1048576 (codes "65536") }
    ensures local { result.global ≡ false }
{
    Arg::new(alloc, "atoms")
        .long("atoms")
        .value_parser(value_parser!(u64).range(512..=1_048_576))
        .default_value("65536")
}

/// The word of the file, which has to be there.
fn file_word<'a>(alloc: Global) -> Arg<'a>
    ensures rule { rule_of result ≡ required_word (codes "FILE") }
    ensures local { result.global ≡ false }
{
    Arg::new(alloc, "FILE").required(true)
}

/// The seed: from 0 to 2,147,483,647.
fn seed_word<'a>(alloc: Global) -> Arg<'a>
    ensures rule { rule_of result ≡ number_word (codes "SEED") 0 2147483647 }
    ensures local { result.global ≡ false }
{
    Arg::new(alloc, "SEED")
        .value_parser(value_parser!(u64).range(0..=2_147_483_647))
        .required(true)
}

/// The size: from 1 to 10,000.
fn size_word<'a>(alloc: Global) -> Arg<'a>
    ensures rule { rule_of result ≡ number_word (codes "SIZE") 1 10000 }
    ensures local { result.global ≡ false }
{
    Arg::new(alloc, "SIZE")
        .value_parser(value_parser!(u64).range(1..=10_000))
        .required(true)
}

/// The words of the goals, each a use of its own.
fn goal_words<'a>(alloc: Global) -> Arg<'a>
    ensures rule { rule_of result ≡ further_words (codes "GOAL") }
    ensures local { result.global ≡ false }
{
    Arg::new(alloc, "GOAL").action(ArgAction::Append)
}

/// The subcommand `run` with the options of the limits. The only error is out of memory.
fn limits_syntax<'a>(alloc: Global) -> Result<Syntax<'a>, AllocError>
    ensures app { IfOk result (λ c. app_of c ≡ limits_app) }
    ensures local { IfOk result (λ c. (fields_of c).has_globals ≡ false) }
{
    let solutions = solutions_option(alloc);
    let inferences = inferences_option(alloc);
    let cells = cells_option(alloc);
    let choices = choices_option(alloc);
    Syntax::new(alloc, "run")
        .arg(solutions)?
        .arg(inferences)?
        .arg(cells)?
        .arg(choices)
}

/// The subcommand `run` with its options. The only error is out of memory.
fn options_syntax<'a>(alloc: Global) -> Result<Syntax<'a>, AllocError>
    ensures app { IfOk result (λ c. app_of c ≡ options_app) }
    ensures local { IfOk result (λ c. (fields_of c).has_globals ≡ false) }
{
    let workers = workers_option(alloc);
    let atoms = atoms_option(alloc);
    limits_syntax(alloc)?.arg(workers)?.arg(atoms)
}

/// The subcommand `run` with its options and its words. The only error is out of memory.
fn run_syntax<'a>(alloc: Global) -> Result<Syntax<'a>, AllocError>
    ensures app { IfOk result (λ c. app_of c ≡ run_app) }
    ensures local { IfOk result (λ c. (fields_of c).has_globals ≡ false) }
{
    let file = file_word(alloc);
    let goals = goal_words(alloc);
    options_syntax(alloc)?.arg(file)?.arg(goals)
}

/// The subcommand `check`. The only error is out of memory.
fn check_syntax<'a>(alloc: Global) -> Result<Syntax<'a>, AllocError>
    ensures app { IfOk result (λ c. app_of c ≡ check_app) }
    ensures local { IfOk result (λ c. (fields_of c).has_globals ≡ false) }
{
    let file = file_word(alloc);
    Syntax::new(alloc, "check").arg(file)
}

/// The subcommand `load`. The only error is out of memory.
fn load_syntax<'a>(alloc: Global) -> Result<Syntax<'a>, AllocError>
    ensures app { IfOk result (λ c. app_of c ≡ load_app) }
    ensures local { IfOk result (λ c. (fields_of c).has_globals ≡ false) }
{
    let seed = seed_word(alloc);
    let size = size_word(alloc);
    Syntax::new(alloc, "load").arg(seed)?.arg(size)
}

/// The program with its subcommands. The only error is out of memory.
fn commands_syntax<'a>(alloc: Global) -> Result<Syntax<'a>, AllocError>
    ensures { IfOk result (λ c. app_of c ≡ commands_app) }
{
    let run = run_syntax(alloc)?;
    let check = check_syntax(alloc)?;
    let load = load_syntax(alloc)?;
    let with_run = Syntax::new(alloc, "plt").subcommand(run)?;
    let with_check = with_run.subcommand(check)?;
    with_check.subcommand(load)
}

/// The program's command line. The only error is out of memory.
fn plt_syntax<'a>(alloc: Global) -> Result<Syntax<'a>, Memory>
    ensures { IfOk result (λ c. app_of c ≡ plt_app) }
{
    let plt = commands_syntax(alloc)?;
    Ok(plt.no_binary_name(true).subcommand_required(true))
}

/// What the matches order.
fn subcommand_given(alloc: Global, matches: &ArgMatches<'_>) -> Result<Option<Order>, Memory>
    ensures order { IfOk result (λ r. IsOrder r (order_of (subcommand_rows_of matches.now))) }
    ensures bounds { IfOk result (λ r. IfSome r IsOrderWithin) }
{
    match matches.subcommand() {
        Some(("run", given)) => run_ordered(alloc, given),
        Some(("check", given)) => check_ordered(alloc, given),
        Some(("load", given)) => Ok(load_ordered(given)),
        _ => Ok(None),
    }
}

/// What the matches of `run` order. The only error is out of memory.
fn run_ordered(alloc: Global, given: &ArgMatches<'_>) -> Result<Option<Order>, Memory>
    ensures order { IfOk result (λ r. IsOrder r (run_order (rows_of (found_of given.now)))) }
    ensures bounds { IfOk result (λ r. IfSome r IsOrderWithin) }
{
    match run_given(alloc, given)? {
        None => Ok(None),
        Some(command) => Ok(Some(Order::Run(command))),
    }
}

/// What the matches of `check` order. The only error is out of memory.
fn check_ordered(alloc: Global, given: &ArgMatches<'_>) -> Result<Option<Order>, Memory>
    ensures order { IfOk result (λ r. IsOrder r (check_order (rows_of (found_of given.now)))) }
    ensures bounds { IfOk result (λ r. IfSome r IsOrderWithin) }
{
    match given.get_str("FILE") {
        None => Ok(None),
        Some(file) => Ok(Some(Order::Check(Text::from_str(alloc, file)?))),
    }
}

/// What the matches of `load` order.
fn load_ordered(given: &ArgMatches<'_>) -> Option<Order>
    ensures order { IsOrder result (load_order (rows_of (found_of given.now))) }
    ensures bounds { IfSome result IsOrderWithin }
{
    let seed = number_between(given, "SEED", 0, 2_147_483_647)?;
    let size = number_between(given, "SIZE", 1, 10_000)?;
    Some(Order::Load {
        seed: u64::from(seed),
        size: u64::from(size),
    })
}

/// The command `run` that its matches give.
fn run_given(alloc: Global, given: &ArgMatches<'_>) -> Result<Option<Command>, Memory>
    ensures command { IfOk result (λ r. IsCommand r (run_command (rows_of (found_of given.now)))) }
    ensures bounds { IfOk result (λ r. IfSome r IsWithin) }
{
    let Some(file) = given.get_str("FILE") else {
        return Ok(None);
    };
    let Some(limits) = limits_given(given) else {
        return Ok(None);
    };
    let Some(workers) = number_between(given, "workers", 1, 16) else {
        return Ok(None);
    };
    let Some(slots) = number_between(given, "atoms", 512, 1_048_576) else {
        return Ok(None);
    };
    let goals = goals_given(alloc, given)?;
    if goals.as_slice().len() > MOST_GOALS {
        return Ok(None);
    }
    let file = Text::from_str(alloc, file)?;
    Ok(Some(Command {
        file,
        goals,
        limits,
        workers,
        slots,
    }))
}

/// The words of the goals. The only error is out of memory.
fn goals_given(alloc: Global, given: &ArgMatches<'_>) -> Result<Vec<Text>, Memory>
    ensures { IfOk result (λ v. v.items ≡ words_by (all_of (codes "GOAL") (rows_of (found_of given.now)))) }
{
    match given.get_strs("GOAL") {
        None => Ok(Vec::new(alloc)),
        Some(words) => texts_of(alloc, words),
    }
}

/// The texts of these words. The only error is out of memory.
fn texts_of(alloc: Global, words: &[&str]) -> Result<Vec<Text>, Memory>
    ensures { IfOk result (λ v. v.items ≡ map (λ w. chars w.now) words.now) }
{
    let mut texts = Vec::new(alloc);
    for word in words {
        texts.push(Text::from_str(alloc, *word)?)?;
    }
    Ok(texts)
}

/// The limits that the options give.
fn limits_given(given: &ArgMatches<'_>) -> Option<Limits>
    ensures { AreLimits result (limits_in (rows_of (found_of given.now))) }
{
    let solutions = number_given(given, "solutions")?;
    let inferences = number_given(given, "inferences")?;
    let cells = number_given(given, "cells")?;
    let choices = number_given(given, "choices")?;
    Some(Limits {
        solutions,
        inferences,
        cells,
        choices,
    })
}

/// The number that the value of an option is.
fn number_given(given: &ArgMatches<'_>, id: &str) -> Option<u64>
    ensures { result ≡ number_of (one_of id.now (rows_of (found_of given.now))) }
{
    given.get_one::<u64>(id)
}

/// The number that the value of an option is, where it is one from `least` to `most`.
fn number_between(given: &ArgMatches<'_>, id: &str, least: u32, most: u32) -> Option<u32>
    ensures number { result ≡ between least most (number_of (one_of id.now (rows_of (found_of given.now)))) }
    ensures bounds { IfSome result (λ n. (least ≤ n) × (n ≤ most)) }
{
    let number = number_given(given, id)?;
    if number < u64::from(least) || u64::from(most) < number {
        return None;
    }
    Some(number as u32)
}
