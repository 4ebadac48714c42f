//! Engines that begin in a front of their own.
ghost use Rattle.std.specs.Prelude.{◌≡◌, ◌↔◌, [], IfNone, IfSome, IsFalse, length, true};
ghost use Rattle.pl_history.specs.Fronts.{all_over};
ghost use Rattle.atom_words.specs.Seats.{seen};
ghost use Rattle.atom_table.specs.Naming.{names, requests as asked};
ghost use Rattle.counted_terms.specs.Keeping.{HoldsOn};
ghost use Rattle.pl_hub.specs.Beginning.{HasBegun};
ghost use Rattle.pl_hub.specs.Called.{called_in};
ghost use Rattle.pl_hub.specs.Order.{IsInOrder};
ghost use Rattle.pl_hub.specs.Settling.{IsBehind};

use crate::naming::Naming;
use crate::shared::Shared;
use atom_table::TableAtoms;
use pl_history::{Front, History};
use pl_term::Text;
use term_store::Stored;

/// An engine that has begun, and the goal that it was started with.
#[derive(Drop)]
pub struct Begun {
    pub number: u64,
    pub goal: Stored,
}

impl<K: Naming> Shared<K> {
    /// The first of the engines that have begun, and that no front was given, is the front's own from now on: a front each
    /// engine of which has ended. The atoms are those of the engine, which hold its goal's. The history gains no entry.
    pub fn begin(
        &mut self,
        history: &History,
        atoms: &mut TableAtoms<K>,
        front: &mut Front,
    ) -> Option<Begun>
        requires history { history.now ≡ K.history }
        requires front { front.old.table ≡ K.history }
        requires over { all_over front.old.lives ≡ true }
        ensures begun { IfSome result (λ b. HasBegun K.history b (names (seen atoms.new.seat)) front.old front.new self.old self.new) }
        ensures none { IfNone result ((front.new ≡ front.old) × (self.new ≡ self.old) × (self.old.lives ≡ [])) }
        ensures holds { HoldsOn (names (seen atoms.old.seat)) (names (seen atoms.new.seat)) }
        ensures refusals { (seen atoms.new.seat).refusals ≡ (seen atoms.old.seat).refusals }
        ensures asked { asked (seen atoms.new.seat) ≡ asked (seen atoms.old.seat) }
    {
        match hub_threads::take_goal(&mut self.queues, atoms, &mut self.keeper) {
            None => None,
            Some((number, goal)) => {
                history.hand(&mut self.front, front, number);
                history.look(&mut self.front, front);
                Some(Begun { number, goal })
            }
        }
    }

    /// Whether an engine has begun that no front was given.
    pub fn has_begun(&self) -> bool
        ensures { IsFalse result ↔ (self.now.lives ≡ []) }
    {
        self.queues.first_goal().is_some()
    }

    /// All engines that have begun but engine 1, in the order in which they began, each with the alias of its thread, where it
    /// has one.
    pub fn begun(&self) -> &[(u64, Option<Text>)]
        ensures { result.now ≡ called_in self.now.seen }
    {
        self.begun.as_slice()
    }

    /// The same list, when no engine runs any more.
    pub fn into_begun(self) -> Vec<(u64, Option<Text>)>
        ensures { result.items ≡ called_in self.seen }
    {
        self.begun
    }

    /// Engines begin in the order of their numbers, and each number is given once. It does nothing.
    pub fn in_order(&self)
        ensures { IsInOrder K.goals self.now.seen }
    {
        let _generation = self.front.generation();
    }

    /// The length of the history.
    pub fn generation(&self) -> u64
        ensures { result ≡ length self.now.seen }
    {
        self.front.generation()
    }

    /// The front sees the whole history. No list gains.
    pub fn show(&mut self, history: &History, front: &mut Front)
        requires history { history.now ≡ K.history }
        requires front { front.old.table ≡ K.history }
        ensures same { self.new ≡ self.old }
        ensures front { front.new ≡ record front.old { seen = self.old.seen } }
        ensures sees { IsBehind self.old.seen front.old }
    {
        history.look(&mut self.front, front);
    }
}
