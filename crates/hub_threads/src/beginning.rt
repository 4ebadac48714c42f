//! Threads are created.
ghost use Rattle.std.specs.Prelude.{◌≡◌, ◌+◌, ◌++◌, [], ℕ, IfOk, IsSome, None, length, map, option_map};
ghost use Rattle.std.specs.List.{All};
ghost use Rattle.pl_model.specs.History.{History};
ghost use Rattle.pl_model.specs.Requests as requests;
ghost use Rattle.pl_model.specs.Threads.{is_alias};
ghost use Rattle.atom_words.specs.Seats.{seen};
ghost use Rattle.atom_table.specs.Naming.{names, requests as asked};
ghost use Rattle.term_store.specs.NumberedNames.{names_of};
ghost use Rattle.world_api.specs.Texts.{text_of};
ghost use Rattle.world_api.specs.Visits.{optional_names};
ghost use Rattle.counted_terms.specs.CountedTerms.{said};
ghost use Rattle.counted_terms.specs.Keeping.{HoldsOn, KeeperAt, keeper_view};
ghost use Rattle.counted_terms.specs.Rows.{row_names, row_refusals};
ghost use Rattle.counted_terms.specs.Sharing.{Counts, Restored};
ghost use Rattle.hub_threads.specs.Aliases.{ChecksAliases, IsLast, first_taken, last_of};
ghost use Rattle.hub_threads.specs.Goals.{begun_after, called_after};
ghost use Rattle.hub_threads.specs.Held.{goal_numbers};
ghost use Rattle.hub_threads.specs.Rows.{Decides, updates_in};
ghost use Rattle.hub_threads.specs.Threads.{IsThreads, thread_counts};
ghost use Rattle.hub_threads.specs.Weights.{IsBelow};

use crate::held::Queues;
use crate::refusing::alias_taken;
use crate::starting::start_with;
use atom_api::{Atom, fixed};
use atom_table::{Keeper, NamesTable, TableAtoms};
use counted_terms::{CountedTerm, Row, text_of_atom};
use pl_term::{Memory, Text};
use std::alloc::Global;
use term_store::Stored;
use world_api::{Name, Reply};

/// thread_create/2,3: a thread begins with the goal, the number that comes next and the last of the aliases, where there
/// are some. It is refused at the first alias that names something, or else by the error of an option that is wrong.
pub fn create_thread<K: NamesTable>(
    alloc: Global,
    queues: &mut Queues<CountedTerm>,
    count: &mut u64,
    begun: &mut Vec<(u64, Option<Text>)>,
    atoms: &mut TableAtoms<K>,
    keeper: &mut Option<Keeper>,
    generation: u64,
    goal: CountedTerm,
    aliases: &[Atom],
    error: Option<Stored>,
) -> Row
    requires keeper { KeeperAt K.atoms K.size keeper.old }
    requires counts { Counts (thread_counts queues.old) (keeper_view keeper.old) generation }
    requires goal { All (λ a. IsSome (names (seen atoms.old.seat) a)) (names_of goal) }
    requires aliases { All (λ a. IsSome (names (seen atoms.old.seat) a)) aliases.now }
    requires error { All (λ a. IsSome (names (seen atoms.old.seat) a)) (optional_names names_of error) }
    requires below { IsBelow count.old generation queues.old }
    ensures keeper { KeeperAt K.atoms K.size keeper.new }
    ensures restored { Restored (thread_counts queues.old) (thread_counts queues.new) (keeper_view keeper.old) (keeper_view keeper.new) generation (generation + updates_in result) }
    ensures below { IsBelow count.new (generation + updates_in result) queues.new }
    ensures goals { goal_numbers queues.new.goals ≡ begun_after result count.old (goal_numbers queues.old.goals) }
    ensures begun { begun.new.items ≡ called_after result count.old (last_of None (map (text_of (names (seen atoms.old.seat))) aliases.now)) begun.old.items }
    ensures says { (e goals : ℕ) (h : History) → length h ≡ generation → IsThreads (keeper_view keeper.old) queues.old count.old goals h
        → Decides (keeper_view keeper.new) (names (seen atoms.new.seat)) e (requests.create_thread (said (names (seen atoms.old.seat)) goal) (map (text_of (names (seen atoms.old.seat))) aliases.now) (option_map (said (names (seen atoms.old.seat))) error)) queues.new count.new goals h result }
    ensures named { All (λ a. IsSome (names (seen atoms.new.seat) a)) (row_names result) }
    ensures holds { HoldsOn (names (seen atoms.old.seat)) (names (seen atoms.new.seat)) }
    ensures refusals { (seen atoms.new.seat).refusals ≡ (seen atoms.old.seat).refusals ++ row_refusals result }
    ensures asked { asked (seen atoms.new.seat) ≡ asked (seen atoms.old.seat) }
{
    match check_aliases(alloc, queues, atoms, aliases) {
        Checked::Memory => Row::Memory,
        Checked::Taken(a) => alias_taken(alloc, fixed::THREAD, a),
        Checked::Free => match error {
            Some(error) => Row::Reads(Reply::Refused(error)),
            None => create_free(
                alloc, queues, count, begun, atoms, keeper, generation, goal, aliases,
            ),
        },
    }
}

// A thread begins, whose aliases name nothing.
fn create_free<K: NamesTable>(
    alloc: Global,
    queues: &mut Queues<CountedTerm>,
    count: &mut u64,
    begun: &mut Vec<(u64, Option<Text>)>,
    atoms: &mut TableAtoms<K>,
    keeper: &mut Option<Keeper>,
    generation: u64,
    goal: CountedTerm,
    aliases: &[Atom],
) -> Row
    requires keeper { KeeperAt K.atoms K.size keeper.old }
    requires counts { Counts (thread_counts queues.old) (keeper_view keeper.old) generation }
    requires goal { All (λ a. IsSome (names (seen atoms.old.seat) a)) (names_of goal) }
    requires aliases { All (λ a. IsSome (names (seen atoms.old.seat) a)) aliases.now }
    requires free { first_taken queues.old.state (map (text_of (names (seen atoms.old.seat))) aliases.now) ≡ None }
    requires below { IsBelow count.old generation queues.old }
    ensures keeper { KeeperAt K.atoms K.size keeper.new }
    ensures restored { Restored (thread_counts queues.old) (thread_counts queues.new) (keeper_view keeper.old) (keeper_view keeper.new) generation (generation + updates_in result) }
    ensures below { IsBelow count.new (generation + updates_in result) queues.new }
    ensures goals { goal_numbers queues.new.goals ≡ begun_after result count.old (goal_numbers queues.old.goals) }
    ensures begun { begun.new.items ≡ called_after result count.old (last_of None (map (text_of (names (seen atoms.old.seat))) aliases.now)) begun.old.items }
    ensures says { (e goals : ℕ) (h : History) → length h ≡ generation → IsThreads (keeper_view keeper.old) queues.old count.old goals h
        → Decides (keeper_view keeper.new) (names (seen atoms.new.seat)) e (requests.create_thread (said (names (seen atoms.old.seat)) goal) (map (text_of (names (seen atoms.old.seat))) aliases.now) None) queues.new count.new goals h result }
    ensures named { All (λ a. IsSome (names (seen atoms.new.seat) a)) (row_names result) }
    ensures held { names (seen atoms.new.seat) ≡ names (seen atoms.old.seat) }
    ensures refusals { row_refusals result ≡ [] }
    ensures unrefused { (seen atoms.new.seat).refusals ≡ (seen atoms.old.seat).refusals }
    ensures asked { asked (seen atoms.new.seat) ≡ asked (seen atoms.old.seat) }
{
    let number = *count;
    match last_alias(aliases) {
        None => start_with(
            alloc,
            queues,
            count,
            begun,
            atoms,
            keeper,
            generation,
            number,
            goal,
            None,
            Reply::Named(Name::Number(number)),
        ),
        Some(a) => match text_of_atom(alloc, atoms, a) {
            Err(Memory) => Row::Memory,
            Ok(text) => start_with(
                alloc,
                queues,
                count,
                begun,
                atoms,
                keeper,
                generation,
                number,
                goal,
                Some(text),
                Reply::Named(Name::Alias(a)),
            ),
        },
    }
}

/// Which of some aliases names something.
#[derive(Drop)]
pub enum Checked {
    /// None.
    Free,
    /// This one, the first that does.
    Taken(Atom),
    /// Out of memory.
    Memory,
}

// Finds the first alias that names something.
fn check_aliases<K: NamesTable>(
    alloc: Global,
    queues: &Queues<CountedTerm>,
    atoms: &mut TableAtoms<K>,
    aliases: &[Atom],
) -> Checked
    requires aliases { All (λ a. IsSome (names (seen atoms.old.seat) a)) aliases.now }
    ensures checks { ChecksAliases queues.now.state (names (seen atoms.old.seat)) aliases.now result }
    ensures held { names (seen atoms.new.seat) ≡ names (seen atoms.old.seat) }
    ensures refusals { (seen atoms.new.seat).refusals ≡ (seen atoms.old.seat).refusals }
    ensures asked { asked (seen atoms.new.seat) ≡ asked (seen atoms.old.seat) }
{
    for a in aliases {
        match check_alias(alloc, queues, atoms, *a) {
            Ok(false) => {}
            Ok(true) => return Checked::Taken(*a),
            Err(Memory) => return Checked::Memory,
        }
    }
    Checked::Free
}

// Whether the alias names something. The only error is out of memory.
fn check_alias<K: NamesTable>(
    alloc: Global,
    queues: &Queues<CountedTerm>,
    atoms: &mut TableAtoms<K>,
    a: Atom,
) -> Result<bool, Memory>
    requires held { IsSome (names (seen atoms.old.seat) a) }
    ensures names { IfOk result (λ b. is_alias queues.now.state (text_of (names (seen atoms.old.seat)) a) ≡ b) }
    ensures held { names (seen atoms.new.seat) ≡ names (seen atoms.old.seat) }
    ensures refusals { (seen atoms.new.seat).refusals ≡ (seen atoms.old.seat).refusals }
    ensures asked { asked (seen atoms.new.seat) ≡ asked (seen atoms.old.seat) }
{
    let text = text_of_atom(alloc, atoms, a)?;
    Ok(queues.is_alias(&text))
}

// The last alias, where there is one.
fn last_alias(aliases: &[Atom]) -> Option<Atom>
    ensures { IsLast aliases.now result }
{
    if aliases.is_empty() {
        return None;
    }
    Some(aliases[aliases.len() - 1])
}
