//! The predicates of three arguments (ISO 8.5.1, 8.5.2, 8.16.2, Cor.2 8.4.2).
ghost use Rattle.std.specs.Prelude.{◌≡◌};
ghost use Rattle.pl_model.specs.TermBuiltins.{three};
ghost use Rattle.term_store.specs.Contents.{Holds, IsAbove};
ghost use Rattle.world_builtins.specs.Naming.{IsHeldAt};
ghost use Rattle.world_builtins.specs.Spelling.{reads};
ghost use Rattle.builtin_rows.specs.declared.predicates.Pred.TheVariants.{Three};
ghost use Rattle.builtin_rows.specs.Dispatching.{Dispatches};

use atom_api::Atoms;
use atom_parts::atom_concat;
use builtin_rows::{OfThree, Row};
use builtin_term::{arg, compare, functor};
use pl_term::Memory;
use std::alloc::Global;
use term_store::{Place, Store};

/// The row of a predicate for its three arguments. The only error is out of memory.
pub fn row_of_three<A: Atoms>(
    alloc: Global,
    store: &mut Store,
    pred: OfThree,
    first: Place,
    second: Place,
    third: Place,
    next: u64,
    atoms: &mut A,
) -> Result<Row, Memory>
    requires first { Holds store.old first }
    requires second { Holds store.old second }
    requires third { Holds store.old third }
    requires first_held { IsHeldAt (A.held atoms.old) store.old first }
    requires second_held { IsHeldAt (A.held atoms.old) store.old second }
    requires third_held { IsHeldAt (A.held atoms.old) store.old third }
    requires above { IsAbove next store.old }
    ensures { Dispatches store.old next (Three pred)
        (three (reads (A.held atoms.old) store.old first) (reads (A.held atoms.old) store.old second) (reads (A.held atoms.old) store.old third))
        (A.held atoms.old) (A.held atoms.new) (A.refusals atoms.old) (A.refusals atoms.new) (A.asked atoms.old) (A.asked atoms.new) store.new result }
{
    match pred {
        OfThree::Compare => compare(alloc, store, first, second, third, atoms),
        OfThree::Functor => functor(alloc, store, first, second, third, next),
        OfThree::Arg => arg(store, first, second, next),
        OfThree::AtomConcat => atom_concat(alloc, store, first, second, third, atoms),
    }
}
