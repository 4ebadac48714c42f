//! Room for what a predicate makes.
ghost use Rattle.std.specs.Prelude.{◌≡◌, [], ◌+◌, ◌<◌, ◌≤◌, ◌^◌, Some, IfOk, IfNone, IfSome};
ghost use Rattle.pl_term.specs.Tree.{Chars, Trees};
ghost use Rattle.pl_model.specs.BuiltinRows.{Answer};
ghost use Rattle.pl_model.specs.History.{proc};
ghost use Rattle.atom_api.specs.Fixed.{fixed};
ghost use Rattle.atom_api.specs.Names.{Names, FixedStand};
ghost use Rattle.builtin_rows.specs.Given.{with_room};
ghost use Rattle.builtin_rows.specs.Rows.{IsRow, IsSingle, row_refusals};

use crate::errors::refused_with;
use crate::row::Row;
use atom_api::{Atom, fixed};
use pl_term::Memory;
use term_store::{Store, StoreFault};

/// Takes so many cells for the answer of a predicate that makes so many new variables, where there are numbers for these from
/// `next` on and the cells fit. Else it answers the row of the predicate with this name and so many arguments. The only error
/// is out of memory.
pub fn take_room(
    store: &mut Store,
    next: u64,
    fresh: u64,
    made: u64,
    name: Atom,
    arity: u32,
) -> Result<Option<Row>, Memory>
    ensures taken { IfOk result (λ o. IfNone o (store.new ≡ record store.old { used = store.old.used + made })) }
    ensures numbers { IfOk result (λ o. IfNone o (next + fresh < 2 ^ 64)) }
    ensures cells { IfOk result (λ o. IfNone o (store.old.used + made ≤ store.old.budget)) }
    ensures refused { IfOk result (λ o. IfSome o (λ r. (m : Names) (p : Chars) (ts : Trees) (a : Answer) → FixedStand m → fixed name ≡ Some p
        → a.fresh ≡ fresh → a.made ≡ made
        → IsRow store.old next ts (with_room (proc p arity) next store.old.used store.old.budget a) m store.new r)) }
    ensures refuses { IfOk result (λ o. IfSome o (λ r. row_refusals r ≡ [])) }
    ensures single { IfOk result (λ o. IfSome o IsSingle) }
{
    if fresh > u64::MAX - next {
        let row = refused_with(store, fixed::RESOURCE_ERROR, fixed::INFERENCES, name, arity)?;
        return Ok(Some(row));
    }
    match store.charge(made) {
        Ok(()) => Ok(None),
        Err(StoreFault::CellsFull { used, need }) => Ok(Some(Row::CellsFull { used, need })),
        Err(StoreFault::Memory) => Err(Memory),
    }
}
