//! Message queues are made and destroyed.
ghost use Rattle.std.specs.Prelude.{◌≡◌, ◌+◌, ◌++◌, [], ℕ, IsSome, IfSome, Some, None, false, length, option_map};
ghost use Rattle.std.specs.List.{All};
ghost use Rattle.pl_term.specs.Tree.{Chars, Tree};
ghost use Rattle.pl_model.specs.History.{History};
ghost use Rattle.pl_model.specs.Requests as requests;
ghost use Rattle.pl_model.specs.Threads.{is_alias};
ghost use Rattle.atom_api.specs.Names.{FixedStand, Names};
ghost use Rattle.atom_words.specs.Seats.{seen};
ghost use Rattle.atom_words.specs.declared.view.View.{View};
ghost use Rattle.atom_table.specs.Naming.{names, requests as asked};
ghost use Rattle.hub_threads.specs.Weights.{IsBelow, weigh};
ghost use Rattle.world_api.specs.Texts.{text_of};
ghost use Rattle.counted_terms.specs.Rows.{row_names, row_refusals};
ghost use Rattle.hub_threads.specs.Rows.{Decides, updates_in};
ghost use Rattle.hub_threads.specs.Threads.{IsThreads};

use crate::held::{QueueFault, Queues};
use crate::refusing::{alias_taken, worn_out};
use atom_api::{Atom, fixed};
use atom_table::{NamesTable, TableAtoms};
use counted_terms::{CountedTerm, MOST_UPDATES, Row, text_of_atom};
use pl_term::{Memory, Text};
use std::alloc::Global;
use world_api::{Name, Reply};

/// message_queue_create/1: a queue is made, with an alias or without one, and gets the number that comes next.
pub fn create_queue<K: NamesTable>(
    alloc: Global,
    queues: &mut Queues<CountedTerm>,
    count: &mut u64,
    atoms: &mut TableAtoms<K>,
    generation: u64,
    alias: Option<Atom>,
) -> Row
    requires alias { IfSome alias (λ a. IsSome (names (seen atoms.old.seat) a)) }
    requires below { IsBelow count.old generation queues.old }
    ensures stored { (w : Tree → ℕ) → weigh w queues.new ≡ weigh w queues.old }
    ensures below { IsBelow count.new (generation + updates_in result) queues.new }
    ensures goals { queues.new.goals ≡ queues.old.goals }
    ensures says { (k : View) (e goals : ℕ) (h : History) → length h ≡ generation → IsThreads k queues.old count.old goals h
        → Decides k (names (seen atoms.new.seat)) e (requests.create_queue (option_map (text_of (names (seen atoms.old.seat))) alias)) queues.new count.new goals h result }
    ensures named { All (λ a. IsSome (names (seen atoms.new.seat) a)) (row_names result) }
    ensures held { names (seen atoms.new.seat) ≡ names (seen atoms.old.seat) }
    ensures refusals { (seen atoms.new.seat).refusals ≡ (seen atoms.old.seat).refusals ++ row_refusals result }
    ensures asked { asked (seen atoms.new.seat) ≡ asked (seen atoms.old.seat) }
{
    match alias {
        None => create_unnamed(alloc, queues, count, generation),
        Some(a) => match text_of_atom(alloc, atoms, a) {
            Err(Memory) => Row::Memory,
            Ok(text) => create_aliased(alloc, queues, count, generation, a, text),
        },
    }
}

// A queue with an alias, where it names nothing yet.
fn create_aliased(
    alloc: Global,
    queues: &mut Queues<CountedTerm>,
    count: &mut u64,
    generation: u64,
    a: Atom,
    text: Text,
) -> Row
    requires below { IsBelow count.old generation queues.old }
    ensures stored { (w : Tree → ℕ) → weigh w queues.new ≡ weigh w queues.old }
    ensures below { IsBelow count.new (generation + updates_in result) queues.new }
    ensures goals { queues.new.goals ≡ queues.old.goals }
    ensures says { (k : View) (m : Names) (e goals : ℕ) (h : History) → FixedStand m → m a ≡ Some text → length h ≡ generation → IsThreads k queues.old count.old goals h
        → Decides k m e (requests.create_queue (Some text)) queues.new count.new goals h result }
    ensures named { (m : Names) → FixedStand m → IsSome (m a) → All (λ a. IsSome (m a)) (row_names result) }
    ensures refusals { row_refusals result ≡ [] }
{
    if queues.is_alias(&text) {
        alias_taken(alloc, fixed::MESSAGE_QUEUE, a)
    } else {
        create_named(alloc, queues, count, generation, a, text)
    }
}

// A queue without an alias.
fn create_unnamed(
    alloc: Global,
    queues: &mut Queues<CountedTerm>,
    count: &mut u64,
    generation: u64,
) -> Row
    requires below { IsBelow count.old generation queues.old }
    ensures stored { (w : Tree → ℕ) → weigh w queues.new ≡ weigh w queues.old }
    ensures below { IsBelow count.new (generation + updates_in result) queues.new }
    ensures goals { queues.new.goals ≡ queues.old.goals }
    ensures says { (k : View) (m : Names) (e goals : ℕ) (h : History) → FixedStand m → length h ≡ generation → IsThreads k queues.old count.old goals h
        → Decides k m e (requests.create_queue None) queues.new count.new goals h result }
    ensures named { (m : Names) → FixedStand m → All (λ a. IsSome (m a)) (row_names result) }
    ensures refusals { row_refusals result ≡ [] }
{
    if generation >= MOST_UPDATES {
        return worn_out(alloc);
    }
    let number = *count;
    if number == u64::MAX {
        return Row::Memory;
    }
    queues.is_sound();
    match queues.make_queue(number, None) {
        Ok(()) => {
            *count = number + 1;
            Row::Makes(Reply::Named(Name::Number(number)))
        }
        Err(QueueFault::Memory) => Row::Memory,
        Err(_) => unreachable!(),
    }
}

// A queue with an alias that names nothing.
fn create_named(
    alloc: Global,
    queues: &mut Queues<CountedTerm>,
    count: &mut u64,
    generation: u64,
    a: Atom,
    text: Text,
) -> Row
    requires below { IsBelow count.old generation queues.old }
    requires free { is_alias queues.old.state text ≡ false }
    ensures stored { (w : Tree → ℕ) → weigh w queues.new ≡ weigh w queues.old }
    ensures below { IsBelow count.new (generation + updates_in result) queues.new }
    ensures goals { queues.new.goals ≡ queues.old.goals }
    ensures says { (k : View) (m : Names) (e goals : ℕ) (h : History) → FixedStand m → m a ≡ Some text → length h ≡ generation → IsThreads k queues.old count.old goals h
        → Decides k m e (requests.create_queue (Some text)) queues.new count.new goals h result }
    ensures named { (m : Names) → FixedStand m → IsSome (m a) → All (λ a. IsSome (m a)) (row_names result) }
    ensures refusals { row_refusals result ≡ [] }
{
    if generation >= MOST_UPDATES {
        return worn_out(alloc);
    }
    let number = *count;
    if number == u64::MAX {
        return Row::Memory;
    }
    queues.is_sound();
    match queues.make_queue(number, Some(text)) {
        Ok(()) => {
            *count = number + 1;
            Row::Makes(Reply::Named(Name::Alias(a)))
        }
        Err(QueueFault::Memory) => Row::Memory,
        Err(_) => unreachable!(),
    }
}
