//! The predicates of one argument: type testing (ISO 8.3, Cor.2 8.3.9, 8.3.10).
ghost use Rattle.std.specs.Prelude.{◌≡◌, ◌<◌, ◌^◌, ℕ, [], IfOk};
ghost use Rattle.pl_term.specs.Tree.{more, none};
ghost use Rattle.atom_api.specs.Names.{Names};
ghost use Rattle.term_store.specs.Contents.{Holds};
ghost use Rattle.world_builtins.specs.Spelling.{reads};
ghost use Rattle.builtin_rows.specs.declared.predicates.Pred.TheVariants.{One};
ghost use Rattle.builtin_rows.specs.Rows.{row_refusals};
ghost use Rattle.builtin_rows.specs.Dispatching.{Does};

use builtin_rows::{OfOne, Row};
use builtin_term::type_test;
use pl_term::Memory;
use std::alloc::Global;
use term_store::{Place, Store};

/// The row of a predicate for its argument. The only error is out of memory.
pub fn row_of_one(alloc: Global, store: &mut Store, test: OfOne, term: Place) -> Result<Row, Memory>
    requires inside { Holds store.old term }
    ensures does { (m : Names) (next : ℕ) → next < 2 ^ 64 → Does store.old next (One test) (more (reads m store.old term) none) m store.new result }
    ensures refuses { IfOk result (λ r. row_refusals r ≡ []) }
{
    type_test(alloc, store, test, term)
}
