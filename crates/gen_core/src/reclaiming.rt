//! Reclaiming erased clauses.
ghost use Rattle.std.specs.Prelude.{◌≡◌, ◌≤◌, ℕ, IfOk, OnErr, OnOk, filter};
ghost use Rattle.gen_core.specs.Visible.{is_visible, Reclaims};

use crate::dated::Dated;
use crate::drops::Drops;
use pl_model::kept::Kept;
use pl_term::Memory;
use std::alloc::Global;

/// Drops exactly the clauses that one of the first `floor` updates erased, and hands each out once. What a generation at
/// or above the floor sees stays. The only error is out of memory; after it the list is as it was. Its time grows with
/// the number of clauses that are dropped, times the logarithm of the number of those that there are.
pub fn reclaim<C: Kept>(alloc: Global, d: &mut Dated<C>, floor: u64) -> Result<Vec<C>, Memory>
    ensures reclaimed { IfOk result (λ dropped. Reclaims floor dropped.items d.old d.new) }
    ensures views { OnOk result ((g : ℕ) → floor ≤ g
        → filter (is_visible g) d.new ≡ filter (is_visible g) d.old) }
    ensures err { OnErr result (d.new ≡ d.old) }
{
    let mut dropped = Vec::with_capacity(alloc, d.erased_len())?;
    while let Some(dated) = d.drop_erased(floor) {
        match dropped.push(dated.clause) {
            Ok(()) => {}
            Err(_) => unreachable!(),
        }
    }
    Ok(dropped)
}

/// What reclaims the clauses of a database.
#[derive(Debug, Clone, Copy, Drop)]
pub struct Reclaimer;

impl Drops for Reclaimer {
    fn reclaim<C: Kept>(
        &self,
        alloc: Global,
        d: &mut Dated<C>,
        floor: u64,
    ) -> Result<Vec<C>, Memory> {
        reclaim(alloc, d, floor)
    }
}
