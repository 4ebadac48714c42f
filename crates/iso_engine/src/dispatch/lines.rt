//! The lines of the table of a predicate, one after the other.
ghost use Rattle.std.specs.Prelude.{◌≡◌, ◌++◌, ℕ, IfOk};
ghost use Rattle.std.specs.List.{Contains};
ghost use Rattle.pl_model.specs.TermBuiltins.{three};
ghost use Rattle.term_store.specs.Contents.{Holds as HoldsPlace, IsArguments};
ghost use Rattle.world_api.specs.Gains.{Gains};
ghost use Rattle.world_api.specs.Texts.{Holds};
ghost use Rattle.world_builtins.specs.Naming.{IsHeldAt};
ghost use Rattle.world_builtins.specs.Spelling.{reads};
ghost use Rattle.builtin_rows.specs.declared.predicates.Pred.TheVariants.{Three};
ghost use Rattle.builtin_rows.specs.Predicates.{arity_of};
ghost use Rattle.builtin_rows.specs.Given.{given_texts};
ghost use Rattle.builtin_rows.specs.Rows.{IsRow, refusals_of};
ghost use Rattle.iso_engine.specs.Dispatching.{AreHeld, given_from, terms_of};

use atom_api::Atoms;
use atom_parts::{atom_concat_line, sub_atom_line};
use builtin_rows::{OfThree, Pred, Row};
use pl_term::Memory;
use std::alloc::Global;
use term_store::{Arguments, Place, Store};

/// The answer of a built-in predicate for these arguments that is the first one of its table from a line on, counted from 0, and
/// the line of the next answer. A predicate that has no table has no answer. The only error is out of memory.
pub fn line_of<A: Atoms>(
    alloc: Global,
    store: &mut Store,
    pred: Pred,
    arguments: Arguments,
    line: usize,
    atoms: &mut A,
) -> Result<Row, Memory>
    requires inside { IsArguments store.old arguments }
    requires count { arguments.count ≡ arity_of pred }
    requires held { AreHeld (A.held atoms.old) store.old arguments }
    ensures row { IfOk result (λ r. (next : ℕ) → let ts = terms_of (A.held atoms.old) store.old arguments in
        IsRow store.old next ts (given_from pred ts line) (A.held atoms.new) store.new r) }
    ensures holds { Holds (A.held atoms.old) (A.held atoms.new) }
    ensures refusals { A.refusals atoms.new ≡ A.refusals atoms.old ++ refusals_of result }
    ensures asked { Gains (Contains (given_texts (given_from pred (terms_of (A.held atoms.old) store.old arguments) line))) (A.asked atoms.old) (A.asked atoms.new) }
{
    match pred {
        Pred::One(_) => Ok(Row::Fails),
        Pred::Two(_) => Ok(Row::Fails),
        Pred::Three(pred) => {
            let first = store.argument(arguments, 0);
            let second = store.argument(arguments, 1);
            let third = store.argument(arguments, 2);
            line_of_three(alloc, store, pred, first, second, third, line, atoms)
        }
        Pred::SubAtom => {
            let first = store.argument(arguments, 0);
            let second = store.argument(arguments, 1);
            let third = store.argument(arguments, 2);
            let fourth = store.argument(arguments, 3);
            let fifth = store.argument(arguments, 4);
            sub_atom_line(
                alloc, store, first, second, third, fourth, fifth, line, atoms,
            )
        }
    }
}

/// The same for three arguments, of which only atom_concat/3 has a table.
fn line_of_three<A: Atoms>(
    alloc: Global,
    store: &Store,
    pred: OfThree,
    first: Place,
    second: Place,
    third: Place,
    line: usize,
    atoms: &mut A,
) -> Result<Row, Memory>
    requires first { HoldsPlace store.now first }
    requires second { HoldsPlace store.now second }
    requires third { HoldsPlace store.now third }
    requires first_held { IsHeldAt (A.held atoms.old) store.now first }
    requires second_held { IsHeldAt (A.held atoms.old) store.now second }
    requires third_held { IsHeldAt (A.held atoms.old) store.now third }
    ensures row { IfOk result (λ r. (next : ℕ)
        → let ts = three (reads (A.held atoms.old) store.now first) (reads (A.held atoms.old) store.now second) (reads (A.held atoms.old) store.now third) in
        IsRow store.now next ts (given_from (Three pred) ts line) (A.held atoms.new) store.now r) }
    ensures holds { Holds (A.held atoms.old) (A.held atoms.new) }
    ensures refusals { A.refusals atoms.new ≡ A.refusals atoms.old ++ refusals_of result }
    ensures asked { let ts = three (reads (A.held atoms.old) store.now first) (reads (A.held atoms.old) store.now second) (reads (A.held atoms.old) store.now third) in
        Gains (Contains (given_texts (given_from (Three pred) ts line))) (A.asked atoms.old) (A.asked atoms.new) }
{
    match pred {
        OfThree::AtomConcat => { atom_concat_line(alloc, store, first, second, third, line, atoms) }
        _ => Ok(Row::Fails),
    }
}
