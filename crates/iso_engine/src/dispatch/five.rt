//! The predicate of five arguments (ISO 8.16.3).
ghost use Rattle.std.specs.Prelude.{◌≡◌, ◌<◌, ◌^◌, ℕ};
ghost use Rattle.pl_model.specs.AtomBuiltins.{five};
ghost use Rattle.term_store.specs.Contents.{Holds};
ghost use Rattle.world_builtins.specs.Naming.{IsHeldAt};
ghost use Rattle.world_builtins.specs.Spelling.{reads};
ghost use Rattle.builtin_rows.specs.declared.predicates.Pred.TheVariants.{SubAtom};
ghost use Rattle.builtin_rows.specs.Dispatching.{Dispatches};

use atom_api::Atoms;
use atom_parts::sub_atom;
use builtin_rows::Row;
use pl_term::Memory;
use std::alloc::Global;
use term_store::{Place, Store};

/// The row of sub_atom/5 for its arguments. The only error is out of memory.
pub fn row_of_five<A: Atoms>(
    alloc: Global,
    store: &mut Store,
    first: Place,
    second: Place,
    third: Place,
    fourth: Place,
    fifth: Place,
    atoms: &mut A,
) -> Result<Row, Memory>
    requires first { Holds store.old first }
    requires second { Holds store.old second }
    requires third { Holds store.old third }
    requires fourth { Holds store.old fourth }
    requires fifth { Holds store.old fifth }
    requires first_held { IsHeldAt (A.held atoms.old) store.old first }
    requires second_held { IsHeldAt (A.held atoms.old) store.old second }
    requires third_held { IsHeldAt (A.held atoms.old) store.old third }
    requires fourth_held { IsHeldAt (A.held atoms.old) store.old fourth }
    requires fifth_held { IsHeldAt (A.held atoms.old) store.old fifth }
    ensures { (next : ℕ) → next < 2 ^ 64 → Dispatches store.old next SubAtom
        (five (reads (A.held atoms.old) store.old first) (reads (A.held atoms.old) store.old second) (reads (A.held atoms.old) store.old third)
        (reads (A.held atoms.old) store.old fourth) (reads (A.held atoms.old) store.old fifth))
        (A.held atoms.old) (A.held atoms.new) (A.refusals atoms.old) (A.refusals atoms.new) (A.asked atoms.old) (A.asked atoms.new) store.new result }
{
    sub_atom(alloc, store, first, second, third, fourth, fifth, atoms)
}
