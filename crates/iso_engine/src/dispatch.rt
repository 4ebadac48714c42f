//! What the built-in predicates that are functions of their arguments give (ISO/IEC 13211-1:1995, 8.2 to 8.7, 8.16): each of
//! them by the crate that gives its row.
ghost use Rattle.std.specs.Prelude.{◌≡◌, ◌++◌, IfOk};
ghost use Rattle.term_store.specs.Contents.{IsAbove, IsArguments};
ghost use Rattle.world_api.specs.Gains.{Gains};
ghost use Rattle.world_api.specs.Texts.{Holds};
ghost use Rattle.builtin_rows.specs.Predicates.{arity_of};
ghost use Rattle.builtin_rows.specs.Rows.{row_refusals};
ghost use Rattle.builtin_rows.specs.Dispatching.{Dispatches, HasLines, IsGivenText, IsRowOf};
ghost use Rattle.iso_engine.specs.Dispatching.{AreHeld, terms_of};

pub mod five;
pub mod lines;
pub mod one;
pub mod three;
pub mod two;

use crate::dispatch::five::row_of_five;
use crate::dispatch::one::row_of_one;
use crate::dispatch::three::row_of_three;
use crate::dispatch::two::row_of_two;
use atom_api::Atoms;
use builtin_rows::{Pred, Row};
use pl_term::Memory;
use std::alloc::Global;
use term_store::{Arguments, Store};

/// What a built-in predicate that is a function of its arguments gives for these, where `next` is the next number of a variable.
/// The only error is out of memory, after which nothing is said of the store.
pub fn row_of<A: Atoms>(
    alloc: Global,
    store: &mut Store,
    pred: Pred,
    arguments: Arguments,
    next: u64,
    atoms: &mut A,
) -> Result<Row, Memory>
    requires inside { IsArguments store.old arguments }
    requires count { arguments.count ≡ arity_of pred }
    requires held { AreHeld (A.held atoms.old) store.old arguments }
    requires above { IsAbove next store.old }
    ensures row { IfOk result (IsRowOf store.old next pred (terms_of (A.held atoms.old) store.old arguments) (A.held atoms.new) store.new) }
    ensures lines { IfOk result (HasLines pred (terms_of (A.held atoms.old) store.old arguments)) }
    ensures holds { Holds (A.held atoms.old) (A.held atoms.new) }
    ensures refusals { IfOk result (λ r. A.refusals atoms.new ≡ A.refusals atoms.old ++ row_refusals r) }
    ensures asked { Gains (IsGivenText store.old next pred (terms_of (A.held atoms.old) store.old arguments)) (A.asked atoms.old) (A.asked atoms.new) }
{
    dispatch(alloc, store, pred, arguments, next, atoms)
}

/// The same, by the number of arguments.
fn dispatch<A: Atoms>(
    alloc: Global,
    store: &mut Store,
    pred: Pred,
    arguments: Arguments,
    next: u64,
    atoms: &mut A,
) -> Result<Row, Memory>
    requires inside { IsArguments store.old arguments }
    requires count { arguments.count ≡ arity_of pred }
    requires held { AreHeld (A.held atoms.old) store.old arguments }
    requires above { IsAbove next store.old }
    ensures { Dispatches store.old next pred (terms_of (A.held atoms.old) store.old arguments)
        (A.held atoms.old) (A.held atoms.new) (A.refusals atoms.old) (A.refusals atoms.new) (A.asked atoms.old) (A.asked atoms.new) store.new result }
{
    match pred {
        Pred::One(test) => {
            let term = store.argument(arguments, 0);
            row_of_one(alloc, store, test, term)
        }
        Pred::Two(pred) => {
            let first = store.argument(arguments, 0);
            let second = store.argument(arguments, 1);
            row_of_two(alloc, store, pred, first, second, next, atoms)
        }
        Pred::Three(pred) => {
            let first = store.argument(arguments, 0);
            let second = store.argument(arguments, 1);
            let third = store.argument(arguments, 2);
            row_of_three(alloc, store, pred, first, second, third, next, atoms)
        }
        Pred::SubAtom => {
            let first = store.argument(arguments, 0);
            let second = store.argument(arguments, 1);
            let third = store.argument(arguments, 2);
            let fourth = store.argument(arguments, 3);
            let fifth = store.argument(arguments, 4);
            row_of_five(alloc, store, first, second, third, fourth, fifth, atoms)
        }
    }
}
