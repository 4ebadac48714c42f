//! copy_term/2 (ISO/IEC 13211-1:1995, 8.5.4).
ghost use Rattle.std.specs.Prelude.{◌≡◌, ◌<◌, ◌-◌, zero, [], IfOk, codes};
ghost use Rattle.pl_term.specs.Cells.{cells};
ghost use Rattle.pl_term.specs.Tree.{Tree};
ghost use Rattle.pl_term.specs.Variables.{rename};
ghost use Rattle.pl_model.specs.History.{proc};
ghost use Rattle.pl_model.specs.TermBuiltins.{copies};
ghost use Rattle.atom_api.specs.Names.{Names, FixedStand};
ghost use Rattle.builtin_rows.specs.Rows.{IsSingle, row_refusals};
ghost use Rattle.term_store.specs.Contents.{Holds, IsAbove, term_at};
ghost use Rattle.world_builtins.specs.Naming.{IsHeldAt};
ghost use Rattle.world_builtins.specs.Spelling.{reads};
ghost use Rattle.builtin_term.specs.Giving.{IsGiven};

use crate::variable_walk::variables_at;
use atom_api::fixed;
use builtin_rows::{Places, Row, take_room};
use pl_term::Memory;
use std::alloc::Global;
use term_store::{Place, Store, Stored};

/// copy_term/2 (ISO/IEC 13211-1:1995, 8.5.4): a copy of a term whose variables are new ones, with the numbers from `next` on in the
/// order in which they first occur. A copy whose cells do not fit is refused before it is made. The only error is out of memory.
pub fn copy_term(alloc: Global, store: &mut Store, term: Place, next: u64) -> Result<Row, Memory>
    requires term { Holds store.old term }
    requires above { IsAbove next store.old }
    ensures row { IfOk result (λ r. (m : Names) (copy : Tree) → FixedStand m → IsHeldAt m store.old term
        → IsGiven store.old next (proc (codes "copy_term") 2) (copies next (reads m store.old term) copy) m store.new r) }
    ensures refuses { IfOk result (λ r. row_refusals r ≡ []) }
    ensures single { IfOk result IsSingle }
{
    let within = store.cells_within(term, store.free())?;
    if within.is_none() {
        return refuse_copy(alloc, store, term, next);
    }
    let kept = store.save(term)?;
    copy_kept(store, &kept, term, next)
}

/// The row of a copy whose cells do not fit. The cells are counted, and no copy is made. The only error is out of memory, which
/// is also that of 2^64 cells or more.
fn refuse_copy(alloc: Global, store: &mut Store, term: Place, next: u64) -> Result<Row, Memory>
    requires term { Holds store.old term }
    requires over { store.old.budget - store.old.used < cells (term_at store.old term) }
    ensures row { IfOk result (λ r. (m : Names) (copy : Tree) → FixedStand m → IsHeldAt m store.old term
        → IsGiven store.old next (proc (codes "copy_term") 2) (copies next (reads m store.old term) copy) m store.new r) }
    ensures refuses { IfOk result (λ r. row_refusals r ≡ []) }
    ensures single { IfOk result IsSingle }
{
    let variables = variables_at(alloc, store, term)?;
    let count = variables.len() as u64;
    let Some(cells) = store.compound_cells(term)? else {
        return Err(Memory);
    };
    let Some(made) = cells.checked_add(count) else {
        return Err(Memory);
    };
    match take_room(store, next, count, made, fixed::COPY_TERM, 2)? {
        Some(row) => Ok(row),
        None => Err(Memory),
    }
}

/// The same, where the term is kept outside of the store.
fn copy_kept(store: &mut Store, kept: &Stored, term: Place, next: u64) -> Result<Row, Memory>
    requires term { Holds store.old term }
    requires above { IsAbove next store.old }
    requires kept { kept.now ≡ rename zero (term_at store.old term) }
    ensures row { IfOk result (λ r. (m : Names) (copy : Tree) → FixedStand m → IsHeldAt m store.old term
        → IsGiven store.old next (proc (codes "copy_term") 2) (copies next (reads m store.old term) copy) m store.new r) }
    ensures refuses { IfOk result (λ r. row_refusals r ≡ []) }
    ensures single { IfOk result IsSingle }
{
    let count = kept.variables();
    let refused = take_room(store, next, count, kept.cells(), fixed::COPY_TERM, 2)?;
    match refused {
        Some(row) => Ok(row),
        None => {
            let copy = store.build(kept, next)?;
            Ok(Row::Answer {
                places: Places::Two(term, copy),
                fresh: count,
            })
        }
    }
}
