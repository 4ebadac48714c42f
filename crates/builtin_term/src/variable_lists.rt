//! term_variables/2 (ISO/IEC 13211-1:1995, Cor.2 8.5.5).
ghost use Rattle.std.specs.Prelude.{◌≡◌, true, [], IfOk, codes};
ghost use Rattle.pl_term.specs.Tree.{Tree};
ghost use Rattle.pl_model.specs.History.{proc};
ghost use Rattle.pl_model.specs.Terms.{is_list_or_partial};
ghost use Rattle.pl_model.specs.TermBuiltins.{lists_variables};
ghost use Rattle.atom_api.specs.Names.{Names, FixedStand};
ghost use Rattle.builtin_rows.specs.Rows.{IsSingle, row_refusals};
ghost use Rattle.term_store.specs.Contents.{Holds};
ghost use Rattle.world_builtins.specs.Naming.{IsHeldAt};
ghost use Rattle.world_builtins.specs.Spelling.{reads};
ghost use Rattle.builtin_term.specs.Giving.{IsGiven};
ghost use Rattle.builtin_rows.specs.Lists.{IsNaming};

use crate::faults::{Fault, Kind, raise};
use crate::lists::{is_list_or_partial, list_answer};
use crate::variable_walk::variables_at;
use atom_api::fixed;
use builtin_rows::Row;
use pl_term::Memory;
use std::alloc::Global;
use term_store::{Place, Store};

/// term_variables/2 (ISO/IEC 13211-1:1995, Cor.2 8.5.5): the list of the variables of a term, each once, in the order in which they
/// first occur. What stands for the list and is neither a list nor a partial list gives a type error. The only error of the call
/// is out of memory.
pub fn term_variables(
    alloc: Global,
    store: &mut Store,
    term: Place,
    list: Place,
    next: u64,
) -> Result<Row, Memory>
    requires term { Holds store.old term }
    requires list { Holds store.old list }
    ensures row { IfOk result (λ r. (m : Names) → IsNaming m → IsHeldAt m store.old term → IsHeldAt m store.old list
        → IsGiven store.old next (proc (codes "term_variables") 2) (lists_variables (reads m store.old term) (reads m store.old list)) m store.new r) }
    ensures refuses { IfOk result (λ r. row_refusals r ≡ []) }
    ensures single { IfOk result IsSingle }
{
    let right = is_list_or_partial(alloc, store, list)?;
    if right {
        list_variables(alloc, store, term, next)
    } else {
        let fault = Fault::Mistyped(Kind::List, list);
        raise(store, fault, fixed::TERM_VARIABLES, 2)
    }
}

/// term_variables/2 of what is a list or a partial list.
fn list_variables(alloc: Global, store: &mut Store, term: Place, next: u64) -> Result<Row, Memory>
    requires { Holds store.old term }
    ensures row { IfOk result (λ r. (m : Names) (list : Tree) → FixedStand m → IsHeldAt m store.old term → is_list_or_partial list ≡ true
        → IsGiven store.old next (proc (codes "term_variables") 2) (lists_variables (reads m store.old term) list) m store.new r) }
    ensures refuses { IfOk result (λ r. row_refusals r ≡ []) }
    ensures single { IfOk result IsSingle }
{
    let items = variables_at(alloc, store, term)?;
    list_answer(store, term, &items, next, fixed::TERM_VARIABLES)
}
