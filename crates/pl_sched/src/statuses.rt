//! The status of a thread that has ended.
ghost use Rattle.std.specs.Prelude.{◌≡◌, zero, IfOk, IsSome};
ghost use Rattle.std.specs.List.{All};
ghost use Rattle.pl_term.specs.Variables.{rename};
ghost use Rattle.pl_model.specs.SharedState.{status_of};
ghost use Rattle.atom_words.specs.Seats.{seen};
ghost use Rattle.atom_table.specs.Naming.{names};
ghost use Rattle.term_store.specs.NumberedNames.{names_of};
ghost use Rattle.world_api.specs.Texts.{Holds};
ghost use Rattle.counted_terms.specs.CountedTerms.{said};
ghost use Rattle.hub_threads.specs.Rows.{status_names};
ghost use Rattle.hub_threads.specs.Serving.{status_as};

use crate::naming::Command;
use atom_table::TableAtoms;
use counted_terms::CountedTerm;
use hub_threads::Status;
use named_terms::NamedTerm;
use pl_model::ends::How;
use pl_term::{Flat, Memory};
use std::alloc::Global;
use std::sync::Wait;
use world_api::{NoTerm, interned};

/// The status of a thread whose engine ended so, over atoms that the engine holds. The engine holds those of its ball already,
/// so the only error is out of memory.
pub(crate) fn status_of<R: Wait, K: Command>(
    runtime: &R,
    alloc: Global,
    how: &How<NamedTerm>,
    atoms: &mut TableAtoms<K>,
) -> Result<Status<CountedTerm>, Memory>
    ensures status { IfOk result (λ s. status_of how.now ≡ status_as (said (names (seen atoms.new.seat))) s) }
    ensures held { IfOk result (λ s. All (λ a. IsSome (names (seen atoms.new.seat) a)) (status_names s)) }
    ensures holds { Holds (names (seen atoms.old.seat)) (names (seen atoms.new.seat)) }
{
    Ok(match how {
        How::Solved => Status::Succeeded,
        How::False => Status::Failed,
        How::Threw(ball) => Status::Exception(counted_term(runtime, alloc, ball, atoms)?),
        How::Exited(term) => Status::Exited(counted_term(runtime, alloc, term, atoms)?),
        How::Halted(status) => Status::Halted(*status),
        How::AtomSpace(_) => Status::AtomSpace,
    })
}

/// The term over atoms that the engine holds, once others do not step in between.
fn counted_term<R: Wait, K: Command>(
    runtime: &R,
    alloc: Global,
    term: &NamedTerm,
    atoms: &mut TableAtoms<K>,
) -> Result<CountedTerm, Memory>
    ensures term { IfOk result (λ t. said (names (seen atoms.new.seat)) t ≡ rename zero term.now) }
    ensures held { IfOk result (λ t. All (λ a. IsSome (names (seen atoms.new.seat) a)) (names_of t)) }
    ensures holds { Holds (names (seen atoms.old.seat)) (names (seen atoms.new.seat)) }
{
    let flat = flat_of(alloc, term)?;
    for _ in runtime.forever() {
        match interned(alloc, &flat, atoms) {
            Ok(stored) => return CountedTerm::new(alloc, stored),
            Err(NoTerm::Again(_)) => {}
            Err(_) => return Err(Memory),
        }
    }
    unreachable!()
}

/// The term as its nodes.
fn flat_of(alloc: Global, term: &NamedTerm) -> Result<Flat, Memory>
    ensures { IfOk result (λ f. f ≡ term.now) }
{
    let mut all = Vec::new(alloc);
    for at in 0..term.len() {
        let node = term.node(alloc, at)?;
        all.push(node)?;
    }
    Ok(Flat::from_nodes(all))
}
