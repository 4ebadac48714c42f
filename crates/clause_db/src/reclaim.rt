//! Reclaiming the clauses of a procedure.
ghost use Rattle.std.specs.Prelude.{◌≡◌, ◌<◌, IfOk, IfSome, OnOk, OnErr, filter, map, length};
ghost use Rattle.std.specs.List.{slice_get};
ghost use Rattle.clause_db.specs.Parts.{piece};
ghost use Rattle.clause_db.specs.Reclaimed.{is_remembered, reclaimed, reclaimed_at, IsDropped};

use crate::access::Life;
use crate::parts::ProcedureClauses;
use gen_core::Drops;
use pl_model::kept::Kept;
use pl_term::Memory;
use std::alloc::Global;

/// Clauses that were dropped, with the places of the updates that added them.
#[derive(Drop)]
pub struct Dropped<C> {
    pub places: Vec<u64>,
    pub clauses: Vec<C>,
}

/// Forgets the lives that ended below the floor.
fn forget(lives: &mut Vec<Life>, floor: u64)
    ensures { lives.new.items ≡ filter (is_remembered floor) lives.old.items }
{
    lives.retain(|life| floor <= life.until);
}

/// Drops the clauses of a procedure that one of the first `floor` updates erased. The only error is out of memory; after
/// it all is as it was.
fn reclaim_part<C: Kept, D: Drops>(
    alloc: Global,
    part: &mut ProcedureClauses<C>,
    d: &D,
    floor: u64,
) -> Result<Dropped<C>, Memory>
    ensures ok { OnOk result (piece part.new ≡ reclaimed floor (piece part.old)) }
    ensures dropped { IfOk result (λ r. IsDropped floor part.old.clauses r.places.items r.clauses.items) }
    ensures err { OnErr result (part.new ≡ part.old) }
{
    let places = part.clauses.droppable_places(floor)?;
    let clauses = d.reclaim(alloc, &mut part.clauses, floor)?;
    forget(&mut part.lives, floor);
    Ok(Dropped { places, clauses })
}

/// Drops the clauses of the procedure at the index that one of the first `floor` updates erased. The only error is out of
/// memory; after it all is as it was.
pub fn reclaim_at<C: Kept, D: Drops>(
    alloc: Global,
    parts: &mut Vec<ProcedureClauses<C>>,
    i: usize,
    d: &D,
    floor: u64,
) -> Result<Dropped<C>, Memory>
    requires { i < length parts.old.items }
    ensures ok { OnOk result (map piece parts.new.items ≡ reclaimed_at i floor (map piece parts.old.items)) }
    ensures dropped { IfOk result (λ r. IfSome (slice_get (map piece parts.old.items) i) (λ x. IsDropped floor x.clauses r.places.items r.clauses.items)) }
    ensures err { OnErr result (parts.new.items ≡ parts.old.items) }
{
    reclaim_part(alloc, &mut parts[i], d, floor)
}
