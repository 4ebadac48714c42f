//! The atoms that an engine has in use, and the generations of which it may ask for clauses.
ghost use Rattle.std.specs.Prelude.{OnOk};
ghost use Rattle.term_store.specs.Live.{Gathers};
ghost use Rattle.iso_search.specs.Live.{IsLeast};
ghost use Rattle.iso_engine.specs.Kept.{StaysKept};
ghost use Rattle.iso_engine.specs.Live.{doing_atoms, doing_generations, end_atoms, engine_atoms, engine_generations, left_atoms, left_generations};

use crate::doing::{Doing, End, Left};
use crate::engine::Engine;
use iso_search::live::older;
use pl_term::Memory;
use term_store::AtomSet;

impl Engine {
    /// Puts the atoms that the engine has in use to those of a set: those that its search names, of a ball, and of the clause that
    /// retractall/1 has found. What it stands for depends on their texts alone, and it stays ready where of these the same are held
    /// (`kept`). The only error is out of memory.
    pub fn live_in(&self, live: &mut AtomSet) -> Result<(), Memory>
        ensures gathers { OnOk result (Gathers (engine_atoms self.now) live.old live.new) }
        ensures kept { StaysKept self.now }
    {
        self.search.live_in(live)?;
        list_doing(&self.doing, live)?;
        Ok(())
    }

    /// The oldest of the generations of which it may still ask for clauses, or none.
    pub fn oldest_open(&self) -> Option<u64>
        ensures { IsLeast result (engine_generations self.now) }
    {
        older(self.search.oldest_open(), generation_of(&self.doing))
    }
}

/// Puts the atoms of what is done next to those of a set. The only error is out of memory.
fn list_doing(doing: &Doing, live: &mut AtomSet) -> Result<(), Memory>
    ensures { OnOk result (Gathers (doing_atoms doing.now) live.old live.new) }
{
    match doing {
        Doing::Throwing { ball, .. } => ball.live_in(live),
        Doing::Clearing { left, .. } => list_left(left, live),
        Doing::Ended(end) => list_end(end, live),
        Doing::Running(_) => Ok(()),
        Doing::Failing => Ok(()),
        Doing::Erasing { .. } => Ok(()),
        Doing::Answering => Ok(()),
    }
}

/// Puts the atoms of the clause that was found to those of a set, if one was. The only error is out of memory.
fn list_left(left: &Left, live: &mut AtomSet) -> Result<(), Memory>
    ensures { OnOk result (Gathers (left_atoms left.now) live.old live.new) }
{
    match left {
        Left::None => Ok(()),
        Left::Found(_, found) => found.clause.live_in(live),
        Left::After(_) => Ok(()),
    }
}

/// Puts the atoms of the ball of an end to those of a set, if it has one. The only error is out of memory.
fn list_end(end: &End, live: &mut AtomSet) -> Result<(), Memory>
    ensures { OnOk result (Gathers (end_atoms end.now) live.old live.new) }
{
    match end {
        End::Solved => Ok(()),
        End::NoMore => Ok(()),
        End::Threw(ball) => ball.live_in(live),
        End::Halted(_) => Ok(()),
        End::Exited(ball) => ball.live_in(live),
    }
}

/// The generation of the clauses that retractall/1 has not looked at, if there are any.
fn generation_of(doing: &Doing) -> Option<u64>
    ensures { IsLeast result (doing_generations doing.now) }
{
    match doing {
        Doing::Clearing {
            generation,
            left,
            ..
        } => generation_left(*generation, left),
        _ => None,
    }
}

/// The generation, if any clauses of it are left.
fn generation_left(generation: u64, left: &Left) -> Option<u64>
    ensures { IsLeast result (left_generations generation left.now) }
{
    match left {
        Left::None => None,
        Left::Found(_, _) => Some(generation),
        Left::After(_) => Some(generation),
    }
}
