//! Answers with the terms at two places.
ghost use Rattle.std.specs.Prelude.{◌≡◌, ◌+◌, ◌≤◌, [], ℕ, IfSome, IfNone};
ghost use Rattle.pl_term.specs.Tree.{Trees};
ghost use Rattle.pl_model.specs.BuiltinRows.{one_answer};
ghost use Rattle.pl_model.specs.TermBuiltins.{makes};
ghost use Rattle.pl_model.specs.History.{Proc};
ghost use Rattle.atom_api.specs.Names.{Names};
ghost use Rattle.term_store.specs.Contents.{Holds};
ghost use Rattle.world_builtins.specs.Naming.{IsHeldAt};
ghost use Rattle.builtin_rows.specs.Rows.{IsSingle, row_refusals};
ghost use Rattle.builtin_atom.specs.Answering.{IsRowOf, charged, pair_at};

use builtin_rows::{Places, Row};
use term_store::{Place, Store, StoreFault};

/// Takes so many cells for an answer, or says that they do not fit.
pub fn take_cells(store: &mut Store, made: u64) -> Option<Row>
    ensures taken { IfNone result (store.new ≡ charged store.old made) }
    ensures fits { IfNone result (store.old.used + made ≤ store.old.budget) }
    ensures full { IfSome result (λ r. (m : Names) (p : Proc) (ts us : Trees) → IsRowOf store.old p ts (makes us made) m store.new r) }
    ensures refuses { IfSome result (λ r. row_refusals r ≡ []) }
    ensures single { IfSome result IsSingle }
{
    match store.charge(made) {
        Ok(()) => None,
        Err(StoreFault::CellsFull { used, need }) => Some(Row::CellsFull { used, need }),
        Err(StoreFault::Memory) => unreachable!(),
    }
}

/// The one answer with the terms at two places.
pub fn answer(store: &mut Store, first: Place, second: Place) -> Row
    requires first { Holds store.old first }
    requires second { Holds store.old second }
    ensures row { (m : Names) (p : Proc) (ts : Trees) → IsHeldAt m store.old first → IsHeldAt m store.old second
        → IsRowOf store.old p ts (one_answer (pair_at m store.old first second)) m store.new result }
    ensures refusals { row_refusals result ≡ [] }
    ensures single { IsSingle result }
{
    match take_cells(store, 0) {
        Some(row) => row,
        None => Row::Answer {
            places: Places::Two(first, second),
            fresh: 0,
        },
    }
}

/// The one answer with the arguments as they are.
pub fn unchanged(store: &mut Store) -> Row
    ensures row { (m : Names) (p : Proc) (ts : Trees) → IsRowOf store.old p ts (one_answer ts) m store.new result }
    ensures refusals { row_refusals result ≡ [] }
    ensures single { IsSingle result }
{
    match take_cells(store, 0) {
        Some(row) => row,
        None => Row::Holds,
    }
}
