//! Answers that make no terms.
ghost use Rattle.std.specs.Prelude.{◌≡◌, ℕ, Some, IfOk, []};
ghost use Rattle.std.specs.List.{All};
ghost use Rattle.pl_term.specs.Tree.{Chars};
ghost use Rattle.pl_model.specs.BuiltinRows.{one_answer};
ghost use Rattle.pl_model.specs.History.{proc};
ghost use Rattle.atom_api.specs.Fixed.{fixed};
ghost use Rattle.atom_api.specs.Names.{Names, FixedStand};
ghost use Rattle.builtin_rows.specs.Rows.{IsSingle, listed, row_refusals, terms_at};
ghost use Rattle.term_store.specs.Contents.{Holds};
ghost use Rattle.world_builtins.specs.Naming.{IsHeldAt};
ghost use Rattle.builtin_term.specs.Giving.{IsGiven};

use atom_api::Atom;
use builtin_rows::{Places, Row, take_room};
use pl_term::Memory;
use term_store::Store;

/// The one answer of the predicate with this name and so many arguments: the terms at these places. The only error is out of
/// memory.
pub fn answer(
    store: &mut Store,
    places: Places,
    next: u64,
    name: Atom,
    arity: u32,
) -> Result<Row, Memory>
    requires { All (Holds store.old) (listed places) }
    ensures row { IfOk result (λ r. (m : Names) (p : Chars) → FixedStand m → All (IsHeldAt m store.old) (listed places) → fixed name ≡ Some p
        → IsGiven store.old next (proc p arity) (one_answer (terms_at m store.old (listed places))) m store.new r) }
    ensures refuses { IfOk result (λ r. row_refusals r ≡ []) }
    ensures single { IfOk result IsSingle }
{
    match take_room(store, next, 0, 0, name, arity)? {
        Some(row) => Ok(row),
        None => Ok(Row::Answer { places, fresh: 0 }),
    }
}
