//! Error terms that are asked with.
ghost use Rattle.std.specs.Prelude.{◌≡◌, IfOk, OnOk};
ghost use Rattle.atom_api.specs.Names.{Names};
ghost use Rattle.builtin_rows.specs.Lists.{IsNaming};
ghost use Rattle.shared_builtins.specs.Faults.{IsFaultHeld, IsFaultIn, fault_term};
ghost use Rattle.shared_builtins.specs.Kept.{IsKept};

use crate::arguments::kept_at;
use crate::faults::{Fault, term_of};
use pl_term::Memory;
use term_store::{Store, Stored};

/// The error term of a fault as it is kept, its variables numbered from 0 on. The store is as it was. The only error is out of
/// memory.
pub fn kept_fault(store: &mut Store, fault: Fault) -> Result<Stored, Memory>
    requires { IsFaultIn store.old fault }
    ensures same { OnOk result (store.new ≡ store.old) }
    ensures kept { IfOk result (λ k. (m : Names) → IsNaming m → IsFaultHeld m store.old fault → IsKept m (fault_term m store.old fault) k) }
{
    let mark = store.mark();
    let term = term_of(store, fault)?;
    let kept = kept_at(store, term)?;
    store.undo_to(mark);
    Ok(kept)
}
