//! A slice: some steps of resolution, one after the other.
ghost use Rattle.std.specs.Prelude.{◌≡◌, ℕ, ◌+◌, ◌++◌, false, true, IfOk, Ok, OnOk};
ghost use Rattle.world_api.specs.Gains.{Gains};
ghost use Rattle.world_api.specs.Texts.{Holds};
ghost use Rattle.world_api.specs.Told.{has_ended};
ghost use Rattle.iso_engine.specs.Asked.{AsksInSlice, AsksOnWay, ComesToAsk};
ghost use Rattle.iso_engine.specs.Ready.{IsReady};
ghost use Rattle.iso_engine.specs.Slices.{IsSlice, IsSliced, steps_of};
ghost use Rattle.iso_engine.specs.Unserved.{IsRefusedBy, as_stopped, refusals_of};

use crate::engine::Engine;
use crate::quick::Quick;
use crate::slices::Slice;
use crate::unserved::stop_of;
use pl_term::Memory;
use term_store::Stored;
use world_api::{Unserved, World};

impl Engine {
    /// Runs the search until so many inferences were made, a solution was found, the search has ended, or a step cannot be
    /// made; that step is taken back whole. What the goal writes is put after `out`, and the steps are added to `moves`. Where
    /// their number would pass 64 bits, it answers `Memory`.
    pub fn slice<W: World<Term = Stored>>(
        &mut self,
        world: &mut W,
        atoms: &mut W::A,
        out: &mut Vec<u8>,
        moves: &mut u64,
        n: u32,
    ) -> Slice
        requires runs { has_ended (W.told world.old).engine (W.told world.old).history ≡ false }
        requires ready { self.old.out_of_memory ≡ false → IsReady (W.A.held atoms.old) (W.told world.old) self.old }
        ensures runs { has_ended (W.told world.new).engine (W.told world.new).history ≡ false }
        ensures holds { Holds (W.A.held atoms.old) (W.A.held atoms.new) }
        ensures refusals { IsRefusedBy result (W.A.refusals atoms.old) (W.A.refusals atoms.new) }
        ensures asked { Gains (AsksInSlice result (W.A.held atoms.old) (W.told world.old) self.old (W.A.held atoms.new) (W.told world.new) self.new)
            (W.A.asked atoms.old) (W.A.asked atoms.new) }
        ensures ready { self.new.out_of_memory ≡ false → IsReady (W.A.held atoms.new) (W.told world.new) self.new }
        ensures sliced { IsSliced n (W.A.held atoms.old) (W.told world.old) self.old (W.A.held atoms.new) (W.told world.new) self.new out.old.items out.new.items
            moves.old moves.new result }
        ensures out_of_memory { self.old.out_of_memory ≡ true → self.new ≡ self.old }
    {
        if self.out_of_memory {
            return Slice::Memory;
        }
        match self.steps(world, atoms, out, moves, n as u64) {
            Ok(slice) => slice,
            Err(_) => {
                self.out_of_memory = true;
                Slice::Memory
            }
        }
    }

    /// The steps of a slice, which are added to `moves`. The only error is out of memory, also where their number would pass 64
    /// bits.
    fn steps<W: World<Term = Stored>>(
        &mut self,
        world: &mut W,
        atoms: &mut W::A,
        out: &mut Vec<u8>,
        moves: &mut u64,
        n: u64,
    ) -> Result<Slice, Memory>
        requires runs { has_ended (W.told world.old).engine (W.told world.old).history ≡ false }
        requires ready { IsReady (W.A.held atoms.old) (W.told world.old) self.old }
        ensures runs { has_ended (W.told world.new).engine (W.told world.new).history ≡ false }
        ensures holds { Holds (W.A.held atoms.old) (W.A.held atoms.new) }
        ensures refusals { IfOk result (λ s. W.A.refusals atoms.new ≡ W.A.refusals atoms.old ++ refusals_of s) }
        ensures asked { OnOk result (Gains (AsksOnWay (W.A.held atoms.old) (W.told world.old) self.old (W.A.held atoms.new) (W.told world.new) self.new)
            (W.A.asked atoms.old) (W.A.asked atoms.new)) }
        ensures came { Gains (ComesToAsk (W.A.held atoms.old) (W.told world.old) self.old) (W.A.asked atoms.old) (W.A.asked atoms.new) }
        ensures ready { OnOk result (IsReady (W.A.held atoms.new) (W.told world.new) self.new) }
        ensures sliced { IfOk result (λ s. (k : ℕ) × (k + moves.old ≡ moves.new)
            × IsSlice n k (W.A.held atoms.old) (W.told world.old) self.old (W.A.held atoms.new) (W.told world.new) self.new out.old.items out.new.items s) }
    {
        let start = self.search.inferences;
        for _ in 0..u64::MAX {
            if self.search.inferences - start >= n {
                return Ok(Slice::Yield);
            }
            let quick = self.step_known(world, atoms)?;
            if let Quick::Went = quick {
                count_one(moves)?;
                continue;
            }
            let stepped = self.step(quick, world, atoms, out);
            let stopped = counted(moves, stepped)?;
            if let Some(slice) = stopped {
                return Ok(slice);
            }
        }
        Err(Memory)
    }
}

/// Adds a step. The only error is out of memory, also where the number would pass 64 bits.
#[inline(always)]
fn count_one(moves: &mut u64) -> Result<(), Memory>
    ensures { OnOk result (moves.new ≡ 1 + moves.old) }
{
    let Some(count) = moves.checked_add(1) else {
        return Err(Memory);
    };
    *moves = count;
    Ok(())
}

/// How many steps were made: none where a step was taken back or the search has ended.
#[inline(always)]
fn steps_made(stopped: &Option<Slice>) -> u64
    ensures { result ≡ steps_of stopped.now }
{
    match stopped {
        None => 1,
        Some(Slice::Solution(_)) => 1,
        Some(_) => 0,
    }
}

/// How a slice ends at a step, if it does (`stop_of`). The step is added to `moves`, if it was made. The only error is out of memory,
/// also where their number would pass 64 bits. Most steps do not end a slice: nothing of the answer is moved for them.
#[inline(always)]
fn counted(moves: &mut u64, step: Result<Option<Slice>, Unserved>) -> Result<Option<Slice>, Memory>
    ensures stop { IfOk result (λ o. as_stopped step ≡ Ok o) }
    ensures count { IfOk result (λ o. moves.new ≡ steps_of o + moves.old) }
{
    if let Ok(None) = &step {
        count_one(moves)?;
        return Ok(None);
    }
    let stopped = stop_of(step)?;
    let Some(sum) = moves.checked_add(steps_made(&stopped)) else {
        return Err(Memory);
    };
    *moves = sum;
    Ok(stopped)
}
