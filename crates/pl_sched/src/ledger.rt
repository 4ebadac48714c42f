//! Whether all engines of a run are done.
ghost use Rattle.std.specs.Prelude.{◌≡◌, ◌∷◌, ℕ, IfOk, true};
ghost use Rattle.std.specs.List.{Contains};
ghost use Rattle.std.specs.Ordering.{nat_cmp};
ghost use Rattle.std.specs.BTreeSet as set;
ghost use Rattle.pl_sched.specs.Ledger.{carried_by};

use crate::naming::Command;
use crate::over::Done;
use crate::writing::Writes;
use pl_term::Memory;
use std::alloc::Global;
use std::collections::BTreeSet;

// The numbers of these engines. The only error is out of memory.
fn numbers_of<E: Writes + Drop, K: Command>(
    alloc: Global,
    done: &[Done<E, K>],
) -> Result<BTreeSet<u64>, Memory>
    ensures { IfOk result (λ s. (k : ℕ) → set.contains nat_cmp s k ≡ true → Contains (carried_by done.now) k) }
{
    let mut numbers = BTreeSet::new(alloc);
    for engine in done {
        numbers.insert(engine.number())?;
    }
    Ok(numbers)
}

// Whether all of these are in the set.
fn all_in(numbers: &BTreeSet<u64>, started: &[u64]) -> bool
    ensures { result ≡ true → (k : ℕ) → Contains started.now k → set.contains nat_cmp numbers.now k ≡ true }
{
    for number in started {
        if !numbers.contains(number) {
            return false;
        }
    }
    true
}

/// Whether engine 1 and each of those that were started is among those that are done. The only error is out of memory.
pub(crate) fn are_done<E: Writes + Drop, K: Command>(
    alloc: Global,
    started: &[u64],
    done: &[Done<E, K>],
) -> Result<bool, Memory>
    ensures { IfOk result (λ b. b ≡ true → (k : ℕ) → Contains (1 ∷ started.now) k → Contains (carried_by done.now) k) }
{
    let numbers = numbers_of(alloc, done)?;
    if !numbers.contains(&1) {
        return Ok(false);
    }
    Ok(all_in(&numbers, started))
}
