//! The engines of further goals and the threads, set apart as they began.
ghost use Rattle.std.specs.Prelude.{◌≡◌, ◌&&◌, ℕ, List, IfOk, OnOk, Option, nat_le, length};
ghost use Rattle.std.specs.Vec.Iter.{into_iter_items};
ghost use Rattle.run_model.specs.Execution.{Word};
ghost use Rattle.run_model.specs.Lawful.{Beginning, Program, Told};
ghost use Rattle.run_model.specs.Report.{Finals};
ghost use Rattle.run_report.specs.Parts.{AreThreads};
ghost use Rattle.toplevel.specs.Kept.{EachKept};
ghost use Rattle.toplevel.specs.Pairs.{IsNext, TakesGoals, named_by};

use pl_term::{Memory, Text};
use run_report::Part;
use std::alloc::Global;
use std::vec::IntoIter;

/// Puts the engines of further goals, which are the next ones of the rest, in the order in which they began. The only error is
/// out of memory, which is also told of any other order.
pub(crate) fn take_goals(
    begun: &[(u64, Option<Text>)],
    goals: u64,
    rest: &mut IntoIter<Part, Global>,
    engines: &mut Vec<Part>,
) -> Result<(), Memory>
    ensures { (p : Program) (told : Told) (finals : Finals) (ws : List Word) (bs : List Beginning)
        → goals ≡ length p.words → begun.now ≡ named_by bs
        → EachKept p told finals ws (into_iter_items rest.old)
        → OnOk result (TakesGoals p told finals ws bs engines.old.items engines.new.items × EachKept p told finals ws (into_iter_items rest.new)) }
{
    for (number, _alias) in begun {
        if is_goal(*number, goals) {
            engines.push(next_part(rest, *number)?)?;
        }
    }
    Ok(())
}

/// The threads, which are the next ones of the rest, in the order in which they began, each with its alias. The only error is out
/// of memory, which is also told of any other order.
pub(crate) fn take_threads(
    alloc: Global,
    begun: &[(u64, Option<Text>)],
    goals: u64,
    rest: &mut IntoIter<Part, Global>,
) -> Result<Vec<Part>, Memory>
    ensures { (p : Program) (told : Told) (finals : Finals) (ws : List Word) (bs : List Beginning)
        → goals ≡ length p.words → begun.now ≡ named_by bs
        → EachKept p told finals ws (into_iter_items rest.old)
        → IfOk result (λ v. AreThreads p told finals bs v.items) }
{
    let mut threads = Vec::new(alloc);
    for (number, alias) in begun {
        if !is_goal(*number, goals) {
            let part = next_part(rest, *number)?;
            threads.push(named(alloc, part, alias)?)?;
        }
    }
    Ok(threads)
}

/// Whether this is the number of a further goal.
fn is_goal(number: u64, goals: u64) -> bool
    ensures { result ≡ (nat_le 2 number && nat_le number goals) }
{
    2 <= number && number <= goals
}

/// The next part, which has this number. The only error is out of memory, which is also told where it has not.
fn next_part(rest: &mut IntoIter<Part, Global>, number: u64) -> Result<Part, Memory>
    ensures { IfOk result (IsNext number (into_iter_items rest.old) (into_iter_items rest.new)) }
{
    let Some(part) = rest.next() else {
        return Err(Memory);
    };
    if part.number != number {
        return Err(Memory);
    }
    Ok(part)
}

/// The thread with its alias, if it has one. The only error is out of memory.
fn named(alloc: Global, part: Part, alias: &Option<Text>) -> Result<Part, Memory>
    ensures { IfOk result (λ k. k ≡ record part { alias = alias.now }) }
{
    let alias = copied(alloc, alias)?;
    let Part {
        number,
        end,
        awaits,
        alias: _,
        operators,
        output,
    } = part;
    Ok(Part {
        number,
        end,
        awaits,
        alias,
        operators,
        output,
    })
}

/// The same alias once more, if there is one. The only error is out of memory.
fn copied(alloc: Global, alias: &Option<Text>) -> Result<Option<Text>, Memory>
    ensures { IfOk result (λ a. a ≡ alias.now) }
{
    match alias {
        None => Ok(None),
        Some(alias) => {
            let alias = alias.copy(alloc)?;
            Ok(Some(alias))
        }
    }
}
