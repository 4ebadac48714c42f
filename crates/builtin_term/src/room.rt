//! Answers that make no terms.
ghost use Rattle.std.specs.Prelude.{◌≡◌, ◌≤◌, ◌<◌, ℕ, [], IfOk, IfNone, IfSome, OnOk};
ghost use Rattle.std.specs.List.{All};
ghost use Rattle.pl_term.specs.Tree.{Trees};
ghost use Rattle.pl_model.specs.BuiltinRows.{one_answer, test};
ghost use Rattle.atom_api.specs.Names.{Names};
ghost use Rattle.builtin_rows.specs.Rows.{IsSingle, listed, row_refusals, terms_at};
ghost use Rattle.term_store.specs.Contents.{Holds};
ghost use Rattle.world_builtins.specs.Naming.{IsHeldAt};
ghost use Rattle.builtin_term.specs.TestRows.{IsFull, Stands};

use builtin_rows::{Places, Row};
use pl_term::Memory;
use term_store::{Store, StoreFault};

/// None where no more cells are used than may be. Else the row of that. The only error is out of memory.
fn overdrawn(store: &mut Store) -> Result<Option<Row>, Memory>
    ensures same { OnOk result (store.new ≡ store.old) }
    ensures fits { IfOk result (λ o. IfNone o (store.old.used ≤ store.old.budget)) }
    ensures full { IfOk result (λ o. IfSome o (IsFull store.old)) }
{
    match store.charge(0) {
        Ok(()) => Ok(None),
        Err(StoreFault::CellsFull { used, need }) => Ok(Some(Row::CellsFull { used, need })),
        Err(StoreFault::Memory) => Err(Memory),
    }
}

/// The row of a predicate that binds nothing, where it is true or false of its arguments. The only error is out of memory.
pub fn tested(store: &mut Store, holds: bool) -> Result<Row, Memory>
    ensures same { OnOk result (store.new ≡ store.old) }
    ensures row { IfOk result (λ r. (m : Names) (ts : Trees) → Stands store.old ts (test holds ts) m store.new r) }
    ensures refuses { IfOk result (λ r. row_refusals r ≡ []) }
    ensures single { IfOk result IsSingle }
{
    if !holds {
        return Ok(Row::Fails);
    }
    let full = overdrawn(store)?;
    match full {
        None => Ok(Row::Holds),
        Some(row) => Ok(row),
    }
}

/// The row of a predicate with one answer, which is what stands at some places. The only error is out of memory.
pub fn answered(store: &mut Store, places: Places) -> Result<Row, Memory>
    requires { All (Holds store.old) (listed places) }
    ensures row { IfOk result (λ r. (m : Names) (ts : Trees) → All (IsHeldAt m store.old) (listed places)
        → Stands store.old ts (one_answer (terms_at m store.old (listed places))) m store.new r) }
    ensures refuses { IfOk result (λ r. row_refusals r ≡ []) }
    ensures single { IfOk result IsSingle }
{
    let full = overdrawn(store)?;
    match full {
        None => Ok(Row::Answer { places, fresh: 0 }),
        Some(row) => Ok(row),
    }
}
