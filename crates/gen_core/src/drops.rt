//! What reclaims clauses.
ghost use Rattle.std.specs.Prelude.{◌≡◌, IfOk, OnErr};
ghost use Rattle.gen_core.specs.Visible.{Reclaims};

use crate::dated::Dated;
use pl_model::kept::Kept;
use pl_term::Memory;
use std::alloc::Global;

/// What drops the clauses that no generation from a floor on sees.
pub trait Drops {
    /// Drops exactly the clauses that one of the first `floor` updates erased, and hands each out once. The only error is
    /// Out of memory; after it the list is as it was.
    fn reclaim<C: Kept>(
        &self,
        alloc: Global,
        d: &mut Dated<C>,
        floor: u64,
    ) -> Result<Vec<C>, Memory>
        ensures reclaimed { IfOk result (λ dropped. Reclaims floor dropped.items d.old d.new) }
        ensures err { OnErr result (d.new ≡ d.old) };
}
