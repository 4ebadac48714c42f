//! Threads end.
ghost use Rattle.std.specs.Prelude.{◌≡◌, ◌∷◌, ◌<◌, ◌+◌, ◌++◌, ◌^◌, [], ℕ, IsSome, IfErr, IfOk, OnErr, OnOk, length};
ghost use Rattle.std.specs.List.{All};
ghost use Rattle.pl_term.specs.Tree.{Tree};
ghost use Rattle.pl_model.specs.declared.ends.How.{How};
ghost use Rattle.pl_model.specs.History.{History, finish};
ghost use Rattle.pl_model.specs.SharedState.{status_of};
ghost use Rattle.atom_words.specs.Seats.{seen};
ghost use Rattle.atom_table.specs.Naming.{names, requests as asked};
ghost use Rattle.counted_terms.specs.CountedTerms.{said};
ghost use Rattle.counted_terms.specs.Keeping.{KeeperAt, keeper_view};
ghost use Rattle.counted_terms.specs.Sharing.{Counts, Restored};
ghost use Rattle.hub_threads.specs.Rows.{status_names};
ghost use Rattle.hub_threads.specs.Serving.{status_as};
ghost use Rattle.hub_threads.specs.Threads.{IsThreads, thread_counts};
ghost use Rattle.hub_threads.specs.Weights.{IsBelow};

use crate::forgetting::forget_all;
use crate::held::{Queues, Status};
use crate::statuses::{forget_status, store_status};
use crate::taking::are_sound;
use atom_table::{Keeper, NamesTable, TableAtoms};
use counted_terms::CountedTerm;
use pl_term::Memory;

/// The thread with the number ends so, and its queue goes with the messages in it. The error is that memory ran out, or
/// that no such thread runs; then nothing has changed.
pub fn end_thread<K: NamesTable>(
    queues: &mut Queues<CountedTerm>,
    atoms: &mut TableAtoms<K>,
    keeper: &mut Option<Keeper>,
    generation: u64,
    engine: u64,
    status: Status<CountedTerm>,
) -> Result<(), Memory>
    requires keeper { KeeperAt K.atoms K.size keeper.old }
    requires counts { Counts (thread_counts queues.old) (keeper_view keeper.old) generation }
    requires status { All (λ a. IsSome (names (seen atoms.old.seat) a)) (status_names status) }
    requires room { generation < 2 ^ 60 }
    ensures keeper { KeeperAt K.atoms K.size keeper.new }
    ensures restored { OnOk result (Restored (thread_counts queues.old) (thread_counts queues.new) (keeper_view keeper.old) (keeper_view keeper.new) generation (generation + 1)) }
    ensures undone { OnErr result (Restored (thread_counts queues.old) (thread_counts queues.new) (keeper_view keeper.old) (keeper_view keeper.new) generation generation) }
    ensures unchanged { OnErr result (queues.new ≡ queues.old) }
    ensures below { (count : ℕ) → IsBelow count generation queues.old → IsBelow count (generation + 1) queues.new }
    ensures goals { queues.new.goals ≡ queues.old.goals }
    ensures ended { OnOk result ((how : How Tree) (steps count goals : ℕ) (h : History) → length h ≡ generation → IsThreads (keeper_view keeper.old) queues.old count goals h
        → status_of how ≡ status_as (said (names (seen atoms.old.seat))) status
        → IsThreads (keeper_view keeper.new) queues.new count goals (h ++ record { engine = engine; kind = finish how steps } ∷ [])) }
    ensures failed { OnErr result ((count goals : ℕ) (h : History) → IsThreads (keeper_view keeper.old) queues.old count goals h → IsThreads (keeper_view keeper.new) queues.new count goals h) }
    ensures held { names (seen atoms.new.seat) ≡ names (seen atoms.old.seat) }
    ensures refusals { (seen atoms.new.seat).refusals ≡ (seen atoms.old.seat).refusals }
    ensures asked { asked (seen atoms.new.seat) ≡ asked (seen atoms.old.seat) }
{
    queues.is_sound();
    store_status(atoms, keeper, &status);
    match queues.end(engine, status) {
        Ok(left) => {
            are_sound(queues);
            forget_all(atoms, keeper, left.as_slice());
            Ok(())
        }
        Err((status, _)) => {
            forget_status(atoms, keeper, &status);
            Err(Memory)
        }
    }
}
