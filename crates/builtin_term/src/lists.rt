//! Lists (ISO/IEC 13211-1:1995, 6.3.5).
ghost use Rattle.std.specs.Prelude.{◌≡◌, [], Some, IfOk};
ghost use Rattle.std.specs.List.{All};
ghost use Rattle.pl_term.specs.Tree.{Chars};
ghost use Rattle.pl_model.specs.History.{proc};
ghost use Rattle.pl_model.specs.Terms.{is_list_or_partial};
ghost use Rattle.atom_api.specs.Fixed.{fixed};
ghost use Rattle.atom_api.specs.Names.{Names, FixedStand};
ghost use Rattle.builtin_rows.specs.Rows.{IsSingle, row_refusals};
ghost use Rattle.term_store.specs.Contents.{Holds};
ghost use Rattle.world_builtins.specs.Naming.{IsHeldAt};
ghost use Rattle.world_builtins.specs.Spelling.{reads};
ghost use Rattle.builtin_term.specs.Giving.{list_row, IsGiven};
ghost use Rattle.builtin_rows.specs.Lists.{IsNaming};

use atom_api::Atom;
use builtin_rows::{ListEnd, Places, Row, list_elements, make_list, take_room};
use pl_term::Memory;
use std::alloc::Global;
use term_store::{Place, Store};

/// Whether the term at a place is a list or a partial list. The only error is out of memory.
pub fn is_list_or_partial(alloc: Global, store: &Store, place: Place) -> Result<bool, Memory>
    requires { Holds store.now place }
    ensures { IfOk result (λ b. (m : Names) → IsNaming m → IsHeldAt m store.now place → b ≡ is_list_or_partial (reads m store.now place)) }
{
    let mut elements = Vec::new(alloc);
    let end = list_elements(store, place, &mut elements)?;
    match end {
        ListEnd::Closed => Ok(true),
        ListEnd::Open => Ok(true),
        ListEnd::Broken => Ok(false),
    }
}

/// The answer of the predicate with this name and two arguments: a term, and the list of the terms at these places, which is
/// made. The only error is out of memory.
pub fn list_answer(
    store: &mut Store,
    first: Place,
    items: &[Place],
    next: u64,
    name: Atom,
) -> Result<Row, Memory>
    requires first { Holds store.old first }
    requires items { All (Holds store.old) items.now }
    ensures row { IfOk result (λ r. (m : Names) (p : Chars) → FixedStand m → IsHeldAt m store.old first → All (IsHeldAt m store.old) items.now → fixed name ≡ Some p
        → IsGiven store.old next (proc p 2) (list_row m store.old first items.now) m store.new r) }
    ensures refuses { IfOk result (λ r. row_refusals r ≡ []) }
    ensures single { IfOk result IsSingle }
{
    let Some(made) = (items.len() as u64).checked_mul(3) else {
        return Err(Memory);
    };
    let refused = take_room(store, next, 0, made, name, 2)?;
    match refused {
        Some(row) => Ok(row),
        None => {
            let list = make_list(store, items)?;
            Ok(Row::Answer {
                places: Places::Two(first, list),
                fresh: 0,
            })
        }
    }
}
