//! The shared state.
ghost use Rattle.std.specs.Prelude.{◌≡◌, ◌∷◌, [], ℕ, IfOk, OnOk};
ghost use Rattle.pl_model.specs.Threads.{opening_count};
ghost use Rattle.pl_history.specs.Fronts.{new_front, new_hub};
ghost use Rattle.atom_words.specs.Seats.{seen};
ghost use Rattle.counted_terms.specs.Keeping.{KeepsAt, tally};
ghost use Rattle.pl_hub.specs.Fronts.{IsOwn, idle, is_begun};

use crate::naming::Naming;
use atom_table::Keeper;
use clause_db::Db;
use counted_terms::CountedTerm;
use hub_database::Hints;
use hub_threads::Queues;
use pl_history::{Front, History, HubFront};
use pl_term::{Memory, Text};
use std::alloc::Global;
use std::marker::{Model, PhantomData};

/// The state that all engines share: the hub's front of the history, the keeper of the table of atoms, and stored clauses,
/// queues and threads. Contracts see it as what the hub's front knows: the whole history, after which what is stored is the
/// state of the definitions.
#[derive(Drop)]
pub struct Shared<K: Naming> {
    pub(crate) front: HubFront,
    pub(crate) keeper: Option<Keeper>,
    pub(crate) db: Db<CountedTerm>,
    /// Where the procedures of calls stand.
    pub(crate) hints: Hints,
    pub(crate) queues: Queues<CountedTerm>,
    /// The number that the next thread or queue gets.
    pub(crate) count: u64,
    /// All engines that have begun but engine 1, in the order in which they began, each with the alias of its thread.
    pub(crate) begun: Vec<(u64, Option<Text>)>,
    /// How many goals the command has.
    pub(crate) goals: u64,
    pub(crate) ghost commanded: { goals ≡ K.goals },
    pub(crate) of: PhantomData<K>,
}

impl<K: Naming> Model for Shared<K> {
    ghost use Rattle.pl_history.specs.Fronts.{FrontState};
    ghost use Rattle.pl_history.specs.Codes.{coded_front};
    ghost use Rattle.pl_hub.specs.State.{IsShared};

    ghost Value = { FrontState };

    ghost coded = { coded_front };

    ghost view = { λ s. s.front };

    ghost invariant = { λ s. IsShared K.atoms K.size K.history K.goals s.front s.keeper s.db s.queues s.count s.begun.items };
}

// The number that the first thread or queue gets.
fn first_number(goals: u32) -> u64
    ensures { result ≡ opening_count goals }
{
    if goals == 0 { 2 } else { goals as u64 + 1 }
}

impl<K: Naming> Shared<K> {
    /// The state at the start, for a command with so many goals, over a new table of atoms and a new history. The front takes
    /// engine 1 over. The only error is out of memory.
    pub fn new(
        alloc: Global,
        history: &History,
        hub: HubFront,
        keeper: Keeper,
        front: &mut Front,
        goals: u32,
    ) -> Result<Shared<K>, Memory>
        requires history { history.now ≡ K.history }
        requires hub { hub ≡ new_hub K.history }
        requires front { front.old ≡ new_front K.history }
        requires keeper { KeepsAt K.atoms K.size keeper.seat }
        requires none { (k : ℕ) → tally (seen keeper.seat) k ≡ 0 }
        requires goals { K.goals ≡ goals }
        ensures shared { IfOk result (λ s. s ≡ is_begun K.history) }
        ensures front { OnOk result (IsOwn K.history 1 front.new) }
        ensures begins { OnOk result (front.new ≡ record { table = K.history; seen = []; lives = idle 1 ∷ [] }) }
    {
        let db = Db::new(alloc)?;
        let queues = Queues::new(alloc)?;
        let begun = Vec::new(alloc);
        let mut hub = hub;
        history.hand(&mut hub, front, 1);
        Ok(Shared {
            front: hub,
            keeper: Some(keeper),
            db,
            hints: Hints::new(alloc),
            queues,
            count: first_number(goals),
            begun,
            goals: goals as u64,
            of: PhantomData,
        })
    }
}
