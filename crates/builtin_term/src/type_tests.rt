//! Type testing (ISO 8.3, Cor.2 8.3.9, 8.3.10).
ghost use Rattle.std.specs.Prelude.{◌≡◌, [], IfOk, Some};
ghost use Rattle.pl_term.specs.Tree.{more, none};
ghost use Rattle.pl_model.specs.BuiltinRows as rows;
ghost use Rattle.atom_api.specs.Names.{Names};
ghost use Rattle.builtin_rows.specs.Predicates.{name_of_one};
ghost use Rattle.builtin_rows.specs.Rows.{IsSingle, row_refusals};
ghost use Rattle.term_store.specs.Contents.{Holds};
ghost use Rattle.world_builtins.specs.Spelling.{reads};
ghost use Rattle.builtin_term.specs.TestRows.{Answers};

use crate::room::tested;
use builtin_rows::{OfOne, Row, kinds_of, passes};
use pl_term::Memory;
use std::alloc::Global;
use term_store::{Place, Store};

/// The type tests var/1, nonvar/1, atom/1, integer/1, float/1, number/1, atomic/1, compound/1, callable/1 and ground/1. The only
/// error is out of memory.
pub fn type_test(alloc: Global, store: &mut Store, test: OfOne, term: Place) -> Result<Row, Memory>
    requires { Holds store.old term }
    ensures row { IfOk result (λ r. (m : Names) → let t = reads m store.old term in let ts = more t none in
        Answers store.old ts (rows.test_row (rows.type_test (name_of_one test) t) ts) m store.new r) }
    ensures refuses { IfOk result (λ r. row_refusals r ≡ []) }
    ensures single { IfOk result IsSingle }
{
    let holds = is_passed(store, test, term)?;
    tested(store, holds)
}

/// Whether the term at a place passes the type test. The only error is out of memory.
fn is_passed(store: &mut Store, test: OfOne, term: Place) -> Result<bool, Memory>
    requires { Holds store.old term }
    ensures same { store.new ≡ store.old }
    ensures test { IfOk result (λ b. (m : Names) → rows.type_test (name_of_one test) (reads m store.old term) ≡ Some b) }
{
    match kinds_of(test) {
        None => {
            let ground = store.is_ground(term)?;
            Ok(ground)
        }
        Some(kinds) => Ok(passes(kinds, store, term)),
    }
}
