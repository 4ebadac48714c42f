//! Rows that refuse.
ghost use Rattle.std.specs.Prelude.{◌≡◌, [], IsSome, codes, Some};
ghost use Rattle.std.specs.List.{All};
ghost use Rattle.pl_term.specs.Tree.{Chars, atom};
ghost use Rattle.pl_model.specs.declared.threads.Name.{Name as SharedName};
ghost use Rattle.pl_model.specs.ErrorTerms as errors;
ghost use Rattle.pl_model.specs.Service.{name_of};
ghost use Rattle.atom_api.specs.Names.{FixedStand, Names};
ghost use Rattle.term_store.specs.NumberedNames.{names_of};
ghost use Rattle.counted_terms.specs.CountedTerms.{said};
ghost use Rattle.counted_terms.specs.Rows.{row_names, row_refusals};
ghost use Rattle.hub_threads.specs.Rows.{Refuses, WaitsOnQueue, WaitsOnThread, refusal, updates_in};

use atom_api::{Atom, fixed};
use counted_terms::{Row, atom_term, existence_error, name_in, permission_error, resource_error};
use pl_term::Memory;
use std::alloc::Global;
use term_store::Stored;
use world_api::{On, Reply};

/// The row with this error, or that memory ran out.
pub fn refused(error: Result<Stored, Memory>) -> Row
    ensures { result ≡ refusal error }
{
    match error {
        Ok(error) => Row::Reads(Reply::Refused(error)),
        Err(Memory) => Row::Memory,
    }
}

/// There is no queue of this name.
pub fn no_queue(alloc: Global, queue: &Stored) -> Row
    ensures says { (m : Names) → FixedStand m → Refuses m (errors.existence_error (codes "message_queue") (said m queue.now)) result }
    ensures named { (m : Names) → FixedStand m → All (λ a. IsSome (m a)) (names_of queue.now) → All (λ a. IsSome (m a)) (row_names result) }
    ensures reads { updates_in result ≡ 0 }
    ensures refusals { row_refusals result ≡ [] }
{
    refused(existence_error(alloc, fixed::MESSAGE_QUEUE, queue))
}

/// The engine waits on a message of the queue that the term names.
pub fn wait_on_queue(queue: &Stored) -> Row
    ensures says { (m : Names) (n : SharedName) → FixedStand m → name_of (said m queue.now) ≡ Some n → WaitsOnQueue m n result }
    ensures named { (m : Names) → All (λ a. IsSome (m a)) (names_of queue.now) → All (λ a. IsSome (m a)) (row_names result) }
    ensures reads { updates_in result ≡ 0 }
    ensures refusals { row_refusals result ≡ [] }
{
    match name_in(queue) {
        Some(name) => Row::Waits(On::Queue(name)),
        None => Row::Memory,
    }
}

/// The engine waits on the end of the thread that the term names.
pub fn wait_on_thread(thread: &Stored) -> Row
    ensures says { (m : Names) (n : SharedName) → FixedStand m → name_of (said m thread.now) ≡ Some n → WaitsOnThread m n result }
    ensures named { (m : Names) → All (λ a. IsSome (m a)) (names_of thread.now) → All (λ a. IsSome (m a)) (row_names result) }
    ensures reads { updates_in result ≡ 0 }
    ensures refusals { row_refusals result ≡ [] }
{
    match name_in(thread) {
        Some(name) => Row::Waits(On::Thread(name)),
        None => Row::Memory,
    }
}

/// No update is made any more.
pub fn worn_out(alloc: Global) -> Row
    ensures says { (m : Names) → FixedStand m → Refuses m (errors.resource_error (codes "generations")) result }
    ensures named { (m : Names) → FixedStand m → All (λ a. IsSome (m a)) (row_names result) }
    ensures reads { updates_in result ≡ 0 }
    ensures refusals { row_refusals result ≡ [] }
{
    refused(resource_error(alloc, fixed::GENERATIONS))
}

/// The alias names something already.
pub fn alias_taken(alloc: Global, kind: Atom, alias: Atom) -> Row
    ensures says { (m : Names) (k a : Chars) → FixedStand m → m kind ≡ Some k → m alias ≡ Some a → Refuses m (errors.permission_error (codes "create") k (atom a)) result }
    ensures named { (m : Names) → FixedStand m → IsSome (m kind) → IsSome (m alias) → All (λ a. IsSome (m a)) (row_names result) }
    ensures reads { updates_in result ≡ 0 }
    ensures refusals { row_refusals result ≡ [] }
{
    match atom_term(alloc, alias) {
        Err(Memory) => Row::Memory,
        Ok(culprit) => refused(permission_error(alloc, fixed::CREATE, kind, &culprit)),
    }
}

/// No such thing is there.
pub fn not_there(alloc: Global, kind: Atom, culprit: &Stored) -> Row
    ensures says { (m : Names) (k : Chars) → FixedStand m → m kind ≡ Some k → Refuses m (errors.existence_error k (said m culprit.now)) result }
    ensures named { (m : Names) → FixedStand m → IsSome (m kind) → All (λ a. IsSome (m a)) (names_of culprit.now) → All (λ a. IsSome (m a)) (row_names result) }
    ensures reads { updates_in result ≡ 0 }
    ensures refusals { row_refusals result ≡ [] }
{
    refused(existence_error(alloc, kind, culprit))
}

/// That must not be done.
pub fn not_permitted(alloc: Global, action: Atom, kind: Atom, culprit: &Stored) -> Row
    ensures says { (m : Names) (t k : Chars) → FixedStand m → m action ≡ Some t → m kind ≡ Some k → Refuses m (errors.permission_error t k (said m culprit.now)) result }
    ensures named { (m : Names) → FixedStand m → IsSome (m action) → IsSome (m kind) → All (λ a. IsSome (m a)) (names_of culprit.now) → All (λ a. IsSome (m a)) (row_names result) }
    ensures reads { updates_in result ≡ 0 }
    ensures refusals { row_refusals result ≡ [] }
{
    refused(permission_error(alloc, action, kind, culprit))
}

/// The resource is used up.
pub fn used_up(alloc: Global, resource: Atom) -> Row
    ensures says { (m : Names) (t : Chars) → FixedStand m → m resource ≡ Some t → Refuses m (errors.resource_error t) result }
    ensures named { (m : Names) → FixedStand m → IsSome (m resource) → All (λ a. IsSome (m a)) (row_names result) }
    ensures reads { updates_in result ≡ 0 }
    ensures refusals { row_refusals result ≡ [] }
{
    refused(resource_error(alloc, resource))
}
