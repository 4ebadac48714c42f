//! What the workers of a run share.
ghost use Rattle.std.specs.Prelude.{◌≡◌};
ghost use Rattle.pl_sched.specs.Terms.{AreTerms};

use crate::hub::Hub;
use crate::naming::Command;
use crate::writing::Writes;
use iso_search::search::Budgets;
use pl_history::History;
use pl_io::Gate;
use std::alloc::Global;
use std::sync::{Mutex, Wait};

/// What the engines of a command are given.
#[derive(Clone, Copy, Drop)]
pub struct Terms {
    /// The budgets of each search.
    pub budgets: Budgets,
    /// How many solutions are wanted of a goal of the command; of a thread's goal one is.
    pub solutions: u64,
    /// How many goals the command has: their engines have the numbers from 1 to it.
    pub goals: u64,
    /// How many slots the table of atoms has.
    pub slots: u64,
}

/// What the workers share: the state behind its lock, the one history, and what each visit waits for.
#[derive(Drop)]
pub(crate) struct Ground<'a, 't, E: Writes + Drop, K: Command, R: Wait, G: Gate, P> {
    pub(crate) runtime: &'a R,
    pub(crate) alloc: Global,
    pub(crate) gate: &'a G,
    pub(crate) goals: &'a P,
    pub(crate) hub: &'a Mutex<Hub<'t, E, K>>,
    pub(crate) history: &'a History,
    pub(crate) terms: Terms,
    ghost history_is: { history.now ≡ K.history },
    ghost terms_are: { AreTerms K.program terms },
}
