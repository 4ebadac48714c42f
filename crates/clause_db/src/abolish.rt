//! Procedures that are abolished.
ghost use Rattle.std.specs.Prelude.{◌≡◌, ◌-◌, ◌<◌, ◌^◌, min, IfOk, OnErr, map};
ghost use Rattle.std.specs.Vec.{vec_len, vec_capacity};
ghost use Rattle.pl_model.specs.laws.Shown.{proc_of};
ghost use Rattle.clause_db.specs.Parts.{piece, clauses_at, changed_in};
ghost use Rattle.clause_db.specs.Abolished.{buried, closed, live_cells};
ghost use Rattle.clause_db.specs.Index.{Indexed};
ghost use Rattle.clause_db.specs.Sound.{Apart, names};

use crate::access::{Access, Life};
use crate::index::Index;
use crate::parts::ProcedureClauses;
use crate::search::locate;
use pl_model::kept::Kept;
use pl_model::shows::Proc;
use pl_term::Memory;

/// Ends the life of a procedure by the update at `place`, where it is there.
fn bury(lives: &mut Vec<Life>, access: Option<Access>, since: u64, place: u64)
    requires { vec_len lives.old < vec_capacity lives.old }
    ensures { lives.new.items ≡ buried access since place lives.old.items }
{
    if let Some(access) = access {
        lives.push_reserved(Life {
            access,
            from: since,
            until: place,
        });
    }
}

/// Takes the procedure away with all its clauses by the update at `place`, and says how many cells they took. The only
/// error is out of memory; after it all is as it was.
fn close<C: Kept>(part: &mut ProcedureClauses<C>, place: u64) -> Result<u64, Memory>
    ensures cells { IfOk result (λ n. n ≡ min (live_cells C.size part.old.clauses) (2 ^ 64 - 1)) }
    ensures ok { IfOk result (λ n. piece part.new ≡ closed place (piece part.old)) }
    ensures err { OnErr result (piece part.new ≡ piece part.old) }
{
    part.lives.reserve(1)?;
    let cells = part.clauses.live_cells();
    part.clauses.erase_all(place)?;
    bury(&mut part.lives, part.access, part.since, place);
    part.access = None;
    Ok(cells)
}

/// Takes the procedure away, where it is there, and says how many cells its clauses took. The only error is out of memory;
/// after it all is as it was.
pub fn close_in<C: Kept>(
    parts: &mut Vec<ProcedureClauses<C>>,
    index: &Index,
    p: &Proc,
    place: u64,
) -> Result<u64, Memory>
    requires apart { Apart (names (map piece parts.old.items)) }
    requires indexed { Indexed index.now (names (map piece parts.old.items)) }
    ensures cells { IfOk result (λ n. n ≡ min (live_cells C.size (clauses_at (map piece parts.old.items) (proc_of p.now))) (2 ^ 64 - 1)) }
    ensures ok { IfOk result (λ n. map piece parts.new.items ≡ changed_in (closed place) (proc_of p.now) (map piece parts.old.items)) }
    ensures err { OnErr result (map piece parts.new.items ≡ map piece parts.old.items) }
{
    match locate(parts.as_slice(), index, p) {
        Some(i) => close(&mut parts[i], place),
        None => Ok(0),
    }
}
