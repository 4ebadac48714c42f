//! Queues and threads by the terms that name them.
ghost use Rattle.std.specs.Prelude.{◌≡◌, IsSome, IfOk, Some};
ghost use Rattle.std.specs.List.{All};
ghost use Rattle.pl_model.specs.Service.{name_of};
ghost use Rattle.atom_words.specs.Seats.{seen};
ghost use Rattle.atom_table.specs.Naming.{names, requests};
ghost use Rattle.term_store.specs.NumberedNames.{names_of};
ghost use Rattle.world_api.specs.Answers.{alias_names, named_by};
ghost use Rattle.world_api.specs.Texts.{text_of};
ghost use Rattle.counted_terms.specs.CountedTerms.{said};
ghost use Rattle.hub_threads.specs.Finding.{Finds, FindsThread};

use crate::held::{Name, Queues};
use atom_table::{NamesTable, TableAtoms};
use counted_terms::{CountedTerm, name_in, text_of_atom};
use pl_term::Memory;
use std::alloc::Global;
use term_store::Stored;
use world_api::Name as NameByAtom;

/// A name in texts. The only error is out of memory.
pub fn spelled_name<K: NamesTable>(
    alloc: Global,
    atoms: &mut TableAtoms<K>,
    name: NameByAtom,
) -> Result<Name, Memory>
    requires held { All (λ a. IsSome (names (seen atoms.old.seat) a)) (alias_names name) }
    ensures says { IfOk result (λ n. n ≡ named_by (text_of (names (seen atoms.old.seat))) name) }
    ensures held { names (seen atoms.new.seat) ≡ names (seen atoms.old.seat) }
    ensures refusals { (seen atoms.new.seat).refusals ≡ (seen atoms.old.seat).refusals }
    ensures requests { requests (seen atoms.new.seat) ≡ requests (seen atoms.old.seat) }
{
    match name {
        NameByAtom::Number(n) => Ok(Name::Number(n)),
        NameByAtom::Alias(a) => {
            let text = text_of_atom(alloc, atoms, a)?;
            Ok(Name::Alias(text))
        }
    }
}

/// The queue that a term names.
#[derive(Drop)]
pub enum FoundQueue {
    /// It has this name.
    Is(Name),
    /// There is none.
    Missing,
    /// Out of memory.
    Memory,
}

/// Finds the queue that a term names.
pub fn find_queue<K: NamesTable>(
    alloc: Global,
    queues: &Queues<CountedTerm>,
    atoms: &mut TableAtoms<K>,
    term: &Stored,
) -> FoundQueue
    requires held { All (λ a. IsSome (names (seen atoms.old.seat) a)) (names_of term.now) }
    ensures finds { Finds queues.now.state (name_of (said (names (seen atoms.old.seat)) term.now)) result }
    ensures held { names (seen atoms.new.seat) ≡ names (seen atoms.old.seat) }
    ensures refusals { (seen atoms.new.seat).refusals ≡ (seen atoms.old.seat).refusals }
    ensures requests { requests (seen atoms.new.seat) ≡ requests (seen atoms.old.seat) }
{
    match name_in(term) {
        None => FoundQueue::Missing,
        Some(name) => match spelled_name(alloc, atoms, name) {
            Err(Memory) => FoundQueue::Memory,
            Ok(name) => found_queue(queues, name),
        },
    }
}

// The queue of this name.
fn found_queue(queues: &Queues<CountedTerm>, name: Name) -> FoundQueue
    ensures { Finds queues.now.state (Some name) result }
{
    if queues.has_queue(&name) {
        FoundQueue::Is(name)
    } else {
        FoundQueue::Missing
    }
}

/// The thread that a term names.
#[derive(Drop)]
pub enum FoundThread {
    /// It has this name and this number; whether it has ended.
    Is(Name, u64, bool),
    /// There is none.
    Missing,
    /// Out of memory.
    Memory,
}

/// Finds the thread that a term names.
pub fn find_thread<K: NamesTable>(
    alloc: Global,
    queues: &Queues<CountedTerm>,
    atoms: &mut TableAtoms<K>,
    term: &Stored,
) -> FoundThread
    requires held { All (λ a. IsSome (names (seen atoms.old.seat) a)) (names_of term.now) }
    ensures finds { FindsThread queues.now.state (name_of (said (names (seen atoms.old.seat)) term.now)) result }
    ensures held { names (seen atoms.new.seat) ≡ names (seen atoms.old.seat) }
    ensures refusals { (seen atoms.new.seat).refusals ≡ (seen atoms.old.seat).refusals }
    ensures requests { requests (seen atoms.new.seat) ≡ requests (seen atoms.old.seat) }
{
    match name_in(term) {
        None => FoundThread::Missing,
        Some(name) => match spelled_name(alloc, atoms, name) {
            Err(Memory) => FoundThread::Memory,
            Ok(name) => found_thread(queues, name),
        },
    }
}

// The thread of this name.
fn found_thread(queues: &Queues<CountedTerm>, name: Name) -> FoundThread
    ensures { FindsThread queues.now.state (Some name) result }
{
    match queues.find_thread(&name) {
        None => FoundThread::Missing,
        Some((number, has_ended)) => FoundThread::Is(name, number, has_ended),
    }
}
