//! Goals of the command begin.
ghost use Rattle.std.specs.Prelude.{◌≡◌, ◌+◌, ◌++◌, ℕ, IsSome, IfOk, Some, false, true, length};
ghost use Rattle.std.specs.List.{All};
ghost use Rattle.pl_term.specs.Tree.{Tree};
ghost use Rattle.pl_term.specs.Variables.{is_in};
ghost use Rattle.pl_model.specs.History.{History};
ghost use Rattle.pl_model.specs.Requests as requests;
ghost use Rattle.pl_model.specs.Threads.{goal_alias, is_alias};
ghost use Rattle.atom_words.specs.Seats.{seen};
ghost use Rattle.atom_words.specs.declared.view.View.{View};
ghost use Rattle.atom_table.specs.Naming.{names, requests as asked};
ghost use Rattle.term_store.specs.NumberedNames.{names_of};
ghost use Rattle.world_api.specs.Gains.{Gains};
ghost use Rattle.counted_terms.specs.CountedTerms.{said};
ghost use Rattle.counted_terms.specs.Keeping.{HoldsOn, KeeperAt, keeper_view};
ghost use Rattle.counted_terms.specs.Rows.{row_names, row_refusals};
ghost use Rattle.counted_terms.specs.Sharing.{Counts, Restored};
ghost use Rattle.hub_threads.specs.Goals.{IsNextGoal, begun_after, called_after};
ghost use Rattle.hub_threads.specs.Held.{IsNew, goal_numbers};
ghost use Rattle.hub_threads.specs.Rows.{Decides, updates_in};
ghost use Rattle.hub_threads.specs.Threads.{IsThreads, thread_counts};
ghost use Rattle.hub_threads.specs.Weights.{IsBelow};

use crate::held::Queues;
use crate::refusing::alias_taken;
use crate::starting::start_with;
use atom_api::{Atoms, Interned, fixed};
use atom_table::{Keeper, NamesTable, TableAtoms};
use counted_terms::{CountedTerm, Row};
use pl_term::{Memory, Text};
use std::alloc::Global;
use world_api::Reply;

/// The goal of the command with the number begins as an engine of its own, named `goal` with its number. Where the alias
/// names something already, it is interned and the visit refused. The goals begin in the order of their numbers, from 2 to
/// `last`, which is that of the command's last one: of any other number, and of one that something has, or a thread had, the
/// answer is out of memory, since no script starts a goal so.
pub fn start_goal<K: NamesTable>(
    alloc: Global,
    queues: &mut Queues<CountedTerm>,
    count: &mut u64,
    begun: &mut Vec<(u64, Option<Text>)>,
    atoms: &mut TableAtoms<K>,
    keeper: &mut Option<Keeper>,
    generation: u64,
    number: u64,
    last: u64,
    goal: CountedTerm,
) -> Row
    requires keeper { KeeperAt K.atoms K.size keeper.old }
    requires counts { Counts (thread_counts queues.old) (keeper_view keeper.old) generation }
    requires goal { All (λ a. IsSome (names (seen atoms.old.seat) a)) (names_of goal) }
    requires below { IsBelow count.old generation queues.old }
    ensures keeper { KeeperAt K.atoms K.size keeper.new }
    ensures restored { Restored (thread_counts queues.old) (thread_counts queues.new) (keeper_view keeper.old) (keeper_view keeper.new) generation (generation + updates_in result) }
    ensures below { IsBelow count.new (generation + updates_in result) queues.new }
    ensures goals { goal_numbers queues.new.goals ≡ begun_after result number (goal_numbers queues.old.goals) }
    ensures begun { begun.new.items ≡ called_after result number (Some (goal_alias number)) begun.old.items }
    ensures next { updates_in result ≡ 1 → IsNextGoal last number queues.old }
    ensures says { (e goals : ℕ) (h : History) → length h ≡ generation → IsThreads (keeper_view keeper.old) queues.old count.old goals h
        → Decides (keeper_view keeper.new) (names (seen atoms.new.seat)) e (requests.start_goal number (said (names (seen atoms.old.seat)) goal)) queues.new count.new goals h result }
    ensures named { All (λ a. IsSome (names (seen atoms.new.seat) a)) (row_names result) }
    ensures holds { HoldsOn (names (seen atoms.old.seat)) (names (seen atoms.new.seat)) }
    ensures refusals { (seen atoms.new.seat).refusals ≡ (seen atoms.old.seat).refusals ++ row_refusals result }
    ensures asked { Gains (λ t. (t ≡ goal_alias number) × (is_alias queues.old.state t ≡ true)) (Some (asked (seen atoms.old.seat))) (Some (asked (seen atoms.new.seat))) }
{
    match alias_of_goal(alloc, number) {
        Err(Memory) => Row::Memory,
        Ok(alias) => {
            if queues.is_alias(&alias) {
                return goal_taken(alloc, queues, atoms, number, &alias);
            }
            if !can_begin(queues, number, last) {
                return Row::Memory;
            }
            start_with(
                alloc,
                queues,
                count,
                begun,
                atoms,
                keeper,
                generation,
                number,
                goal,
                Some(alias),
                Reply::Done,
            )
        }
    }
}

// The alias of the goal with the number. The only error is out of memory.
fn alias_of_goal(alloc: Global, number: u64) -> Result<Text, Memory>
    ensures { IfOk result (λ t. t ≡ goal_alias number) }
{
    let alias = format!(in alloc; "goal{number}")?;
    Text::from_str(alloc, alias.as_str())
}

// The alias names something already. It is interned for the refusal.
fn goal_taken<K: NamesTable>(
    alloc: Global,
    queues: &Queues<CountedTerm>,
    atoms: &mut TableAtoms<K>,
    number: u64,
    alias: &Text,
) -> Row
    requires alias { alias.now ≡ goal_alias number }
    requires taken { is_alias queues.now.state alias.now ≡ true }
    ensures says { (k : View) (e count goals : ℕ) (h : History) (t : Tree) → IsThreads k queues.now count goals h
        → Decides k (names (seen atoms.new.seat)) e (requests.start_goal number t) queues.now count goals h result }
    ensures reads { updates_in result ≡ 0 }
    ensures named { All (λ a. IsSome (names (seen atoms.new.seat) a)) (row_names result) }
    ensures holds { HoldsOn (names (seen atoms.old.seat)) (names (seen atoms.new.seat)) }
    ensures refusals { (seen atoms.new.seat).refusals ≡ (seen atoms.old.seat).refusals ++ row_refusals result }
    ensures asked { Gains (λ t. (t ≡ goal_alias number) × (is_alias queues.now.state t ≡ true)) (Some (asked (seen atoms.old.seat))) (Some (asked (seen atoms.new.seat))) }
{
    match atoms.intern(alias) {
        Interned::Is(a) => alias_taken(alloc, fixed::THREAD, a),
        Interned::Full(pass) => Row::NeedsAtoms(pass),
        Interned::Again(cause) => Row::Retry(cause),
        Interned::Worn(word) => Row::Worn(word),
        Interned::TooLong { .. } => Row::Memory,
        Interned::Memory => Row::Memory,
    }
}

// Whether nothing has the number, no thread had it, and it comes after those of the goals that have begun.
fn can_begin(queues: &Queues<CountedTerm>, number: u64, last: u64) -> bool
    ensures new { result ≡ true → IsNew number queues.now }
    ensures unjoined { result ≡ true → is_in number queues.now.state.joined ≡ false }
    ensures next { result ≡ true → IsNextGoal last number queues.now }
{
    is_unused(queues, number) && is_next(queues, number, last)
}

// Whether the number is one of a further goal, and neither it nor that of a later goal was given to a thread.
fn is_next(queues: &Queues<CountedTerm>, number: u64, last: u64) -> bool
    ensures { result ≡ true → IsNextGoal last number queues.now }
{
    if number < 2 {
        return false;
    }
    if number > last {
        return false;
    }
    !queues.has_within(number, last)
}

// Whether nothing has the number, and no thread had it.
fn is_unused(queues: &Queues<CountedTerm>, number: u64) -> bool
    ensures { result ≡ true → IsNew number queues.now × (is_in number queues.now.state.joined ≡ false) }
{
    queues.is_new(number) && !queues.was_joined(number)
}
