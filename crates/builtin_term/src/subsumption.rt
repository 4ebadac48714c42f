//! Whether a term subsumes another (ISO Cor.2 8.2.4).
ghost use Rattle.std.specs.Prelude.{◌≡◌, [], IfOk};
ghost use Rattle.pl_model.specs.TermBuiltins.{renames_only, subsumes};
ghost use Rattle.pl_model.specs.Unify.{unify};
ghost use Rattle.atom_api.specs.Names.{Names};
ghost use Rattle.builtin_rows.specs.Rows.{IsSingle, row_refusals};
ghost use Rattle.pl_term.specs.Tree.{more, none};
ghost use Rattle.term_store.specs.Contents.{Holds};
ghost use Rattle.world_builtins.specs.Spelling.{reads};
ghost use Rattle.builtin_term.specs.TestRows.{AreNames, Stands};

use crate::met_variables::variables_in;
use crate::renaming::is_renaming;
use crate::room::tested;
use builtin_rows::Row;
use pl_term::Memory;
use std::alloc::Global;
use term_store::{Place, Store};

/// subsumes_term/2 (ISO Cor.2 8.2.4): whether the first term becomes the second one by bindings of its own. Nothing is bound. The
/// only error is out of memory.
pub fn subsumes_term(
    alloc: Global,
    store: &mut Store,
    general: Place,
    specific: Place,
) -> Result<Row, Memory>
    requires general { Holds store.old general }
    requires specific { Holds store.old specific }
    ensures row { IfOk result (λ r. (m : Names) → AreNames m → let t = reads m store.old general in let u = reads m store.old specific in
        Stands store.old (more t (more u none)) (subsumes t u) m store.new r) }
    ensures refuses { IfOk result (λ r. row_refusals r ≡ []) }
    ensures single { IfOk result IsSingle }
{
    let subsumed = is_subsumed(alloc, store, general, specific)?;
    tested(store, subsumed)
}

/// Whether the first term becomes the second one by bindings of its own. Nothing is bound.
fn is_subsumed(
    alloc: Global,
    store: &mut Store,
    general: Place,
    specific: Place,
) -> Result<bool, Memory>
    requires general { Holds store.old general }
    requires specific { Holds store.old specific }
    ensures same { IfOk result (λ b. store.new ≡ store.old) }
    ensures subsumed { IfOk result (λ b. (m : Names) → AreNames m → let t = reads m store.old general in let u = reads m store.old specific in
        b ≡ renames_only u (unify t u)) }
{
    let met = variables_in(alloc, store, specific)?;
    let mark = store.mark();
    if !store.unify(general, specific)? {
        return Ok(false);
    }
    let renamed = is_renaming(alloc, store, &met)?;
    store.undo_to(mark);
    Ok(renamed)
}
