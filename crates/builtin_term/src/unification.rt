//! Unification (ISO 8.2).
ghost use Rattle.std.specs.Prelude.{◌≡◌, [], ◌∷◌, IfOk, codes, is_some, not};
ghost use Rattle.pl_term.specs.Tree.{Trees, more, none};
ghost use Rattle.pl_model.specs.BuiltinRows.{one_answer, test};
ghost use Rattle.pl_model.specs.Unify.{unify};
ghost use Rattle.atom_api.specs.Names.{Names};
ghost use Rattle.builtin_rows.specs.Rows.{IsSingle, row_refusals};
ghost use Rattle.term_store.specs.Contents.{Holds};
ghost use Rattle.world_builtins.specs.Naming.{IsHeldAt};
ghost use Rattle.world_builtins.specs.Spelling.{reads};
ghost use Rattle.builtin_term.specs.TestRows.{AreNames, Stands};

use crate::room::{answered, tested};
use builtin_rows::{Places, Row};
use pl_term::Memory;
use term_store::{Place, Store};

/// =/2 and unify_with_occurs_check/2 (ISO 8.2.1, 8.2.2): both arguments are the second one. The only error is out of memory.
pub fn unifies(store: &mut Store, right: Place) -> Result<Row, Memory>
    requires { Holds store.old right }
    ensures row { IfOk result (λ r. (m : Names) (ts : Trees) → IsHeldAt m store.old right
        → let t = reads m store.old right in Stands store.old ts (one_answer (more t (more t none))) m store.new r) }
    ensures refuses { IfOk result (λ r. row_refusals r ≡ []) }
    ensures single { IfOk result IsSingle }
{
    answered(store, Places::Two(right, right))
}

/// \=/2 (ISO 8.2.3): whether no bindings unify the terms at both places. Nothing is bound. The only error is out of memory.
pub fn not_unifiable(store: &mut Store, left: Place, right: Place) -> Result<Row, Memory>
    requires left { Holds store.old left }
    requires right { Holds store.old right }
    ensures row { IfOk result (λ r. (m : Names) (ts : Trees) → AreNames m
        → Stands store.old ts (test (not (is_some (unify (reads m store.old left) (reads m store.old right)))) ts) m store.new r) }
    ensures refuses { IfOk result (λ r. row_refusals r ≡ []) }
    ensures single { IfOk result IsSingle }
{
    let mark = store.mark();
    let same = store.unify(left, right)?;
    store.undo_to(mark);
    tested(store, !same)
}
