//! Goals of engines that begin.
ghost use Rattle.std.specs.Prelude.{◌≡◌, ◌∷◌, [], ℕ, IsSome, IfSome, IfNone, Some};
ghost use Rattle.std.specs.List.{All};
ghost use Rattle.pl_model.specs.History.{History};
ghost use Rattle.atom_words.specs.Seats.{seen};
ghost use Rattle.atom_table.specs.Naming.{names, requests as asked};
ghost use Rattle.term_store.specs.NumberedNames.{names_of};
ghost use Rattle.counted_terms.specs.CountedTerms.{said};
ghost use Rattle.counted_terms.specs.Keeping.{HoldsOn, KeeperAt, keeper_view};
ghost use Rattle.counted_terms.specs.Sharing.{Counts, Restored};
ghost use Rattle.hub_threads.specs.Held.{goal_numbers};
ghost use Rattle.hub_threads.specs.Threads.{IsThreads, started_goal, thread_counts};
ghost use Rattle.hub_threads.specs.Weights.{IsBelow};

use crate::held::Queues;
use crate::taking::are_sound;
use atom_table::{Keeper, NamesTable, TableAtoms};
use counted_terms::{CountedTerm, hand_over};
use term_store::Stored;

/// The first of the goals that are kept, with the number of the engine that was started with it, once: the atoms are those
/// of that engine, which hold the goal's from then on. The history gets no entry by it.
pub fn take_goal<K: NamesTable>(
    queues: &mut Queues<CountedTerm>,
    atoms: &mut TableAtoms<K>,
    keeper: &mut Option<Keeper>,
) -> Option<(u64, Stored)>
    requires keeper { KeeperAt K.atoms K.size keeper.old }
    requires counts { (n : ℕ) × Counts (thread_counts queues.old) (keeper_view keeper.old) n }
    ensures keeper { KeeperAt K.atoms K.size keeper.new }
    ensures restored { (n : ℕ) → Restored (thread_counts queues.old) (thread_counts queues.new) (keeper_view keeper.old) (keeper_view keeper.new) n n }
    ensures below { (count g : ℕ) → IsBelow count g queues.old → IsBelow count g queues.new }
    ensures first { IfSome result (λ p. goal_numbers queues.old.goals ≡ p.0 ∷ goal_numbers queues.new.goals) }
    ensures goal { IfSome result (λ p. (count goals : ℕ) (h : History) → IsThreads (keeper_view keeper.old) queues.old count goals h
        → started_goal p.0 h ≡ Some (said (names (seen atoms.new.seat)) p.1)) }
    ensures none { IfNone result ((goal_numbers queues.old.goals ≡ []) × (queues.new ≡ queues.old)) }
    ensures stands { (count goals : ℕ) (h : History) → IsThreads (keeper_view keeper.old) queues.old count goals h → IsThreads (keeper_view keeper.new) queues.new count goals h }
    ensures named { IfSome result (λ p. All (λ a. IsSome (names (seen atoms.new.seat) a)) (names_of p.1)) }
    ensures holds { HoldsOn (names (seen atoms.old.seat)) (names (seen atoms.new.seat)) }
    ensures refusals { (seen atoms.new.seat).refusals ≡ (seen atoms.old.seat).refusals }
    ensures asked { asked (seen atoms.new.seat) ≡ asked (seen atoms.old.seat) }
{
    queues.is_sound();
    let number = queues.first_goal()?;
    match queues.take_goal(number) {
        None => unreachable!(),
        Some(goal) => {
            are_sound(queues);
            Some((number, hand_over(atoms, keeper, goal)))
        }
    }
}
