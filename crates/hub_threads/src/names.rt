//! The names of engines.
ghost use Rattle.std.specs.Prelude.{◌≡◌, ◌++◌, ℕ, IsSome, Some};
ghost use Rattle.std.specs.List.{All};
ghost use Rattle.pl_term.specs.Tree.{Chars, Tree};
ghost use Rattle.pl_model.specs.History.{History};
ghost use Rattle.pl_model.specs.Requests as requests;
ghost use Rattle.pl_model.specs.Threads.{alias_of};
ghost use Rattle.atom_words.specs.Seats.{seen};
ghost use Rattle.atom_words.specs.declared.view.View.{View};
ghost use Rattle.atom_table.specs.Naming.{names, requests as asked};
ghost use Rattle.world_api.specs.Gains.{Gains};
ghost use Rattle.counted_terms.specs.Keeping.{HoldsOn};
ghost use Rattle.counted_terms.specs.Rows.{row_names, row_refusals};
ghost use Rattle.hub_threads.specs.Rows.{Decides, row_named, updates_in};
ghost use Rattle.hub_threads.specs.Threads.{IsThreads};

use crate::held::Queues;
use atom_api::{Atoms, Interned};
use atom_table::{NamesTable, TableAtoms};
use counted_terms::{CountedTerm, Row};
use world_api::{Name, Reply};

/// thread_self/1: the alias of the engine, or its number where it has none. The alias is interned, and held from then on; an
/// alias is the text of an atom or `goal` with a number, so that it is never too long.
pub fn own_name<K: NamesTable>(
    queues: &Queues<CountedTerm>,
    atoms: &mut TableAtoms<K>,
    engine: u64,
) -> Row
    ensures says { (k : View) (goals : ℕ) (h : History) (count : ℕ) → IsThreads k queues.now count goals h
        → Decides k (names (seen atoms.new.seat)) engine requests.own_name queues.now count goals h result }
    ensures reads { updates_in result ≡ 0 }
    ensures named { All (λ a. IsSome (names (seen atoms.new.seat) a)) (row_names result) }
    ensures holds { HoldsOn (names (seen atoms.old.seat)) (names (seen atoms.new.seat)) }
    ensures refusals { (seen atoms.new.seat).refusals ≡ (seen atoms.old.seat).refusals ++ row_refusals result }
    ensures asked { Gains (λ t. alias_of queues.now.state engine ≡ Some t) (Some (asked (seen atoms.old.seat))) (Some (asked (seen atoms.new.seat))) }
{
    match queues.alias_of(engine) {
        None => Row::Reads(Reply::Named(Name::Number(engine))),
        Some(alias) => named_row(atoms.intern(alias)),
    }
}

// The name by the atom of an alias, or why there is none.
fn named_row(alias: Interned) -> Row
    ensures { result ≡ row_named alias }
{
    match alias {
        Interned::Is(a) => Row::Reads(Reply::Named(Name::Alias(a))),
        Interned::Full(pass) => Row::NeedsAtoms(pass),
        Interned::Again(cause) => Row::Retry(cause),
        Interned::Worn(word) => Row::Worn(word),
        Interned::TooLong { .. } => Row::Memory,
        Interned::Memory => Row::Memory,
    }
}
