//! The predicates of two arguments (ISO 8.2 to 8.7, 8.16).
ghost use Rattle.std.specs.Prelude.{◌≡◌};
ghost use Rattle.pl_model.specs.TermBuiltins.{two};
ghost use Rattle.term_store.specs.Contents.{Holds, IsAbove};
ghost use Rattle.world_builtins.specs.Naming.{IsHeldAt};
ghost use Rattle.world_builtins.specs.Spelling.{reads};
ghost use Rattle.builtin_rows.specs.declared.predicates.Pred.TheVariants.{Two};
ghost use Rattle.builtin_rows.specs.Dispatching.{Dispatches};

use atom_api::Atoms;
use builtin_arithmetic::comparing::{compare_values, evaluate};
use builtin_atom::{atom_chars, atom_codes, atom_length, char_code, number_chars, number_codes};
use builtin_rows::{OfTwo, Row};
use builtin_term::{
    comparison, copy_term, keysort, msort, not_unifiable, sort, subsumes_term, term_variables,
    unifies, univ,
};
use pl_term::Memory;
use std::alloc::Global;
use term_store::{Place, Store};

/// The row of a predicate for its two arguments. The only error is out of memory.
pub fn row_of_two<A: Atoms>(
    alloc: Global,
    store: &mut Store,
    pred: OfTwo,
    first: Place,
    second: Place,
    next: u64,
    atoms: &mut A,
) -> Result<Row, Memory>
    requires first { Holds store.old first }
    requires second { Holds store.old second }
    requires first_held { IsHeldAt (A.held atoms.old) store.old first }
    requires second_held { IsHeldAt (A.held atoms.old) store.old second }
    requires above { IsAbove next store.old }
    ensures { Dispatches store.old next (Two pred) (two (reads (A.held atoms.old) store.old first) (reads (A.held atoms.old) store.old second))
        (A.held atoms.old) (A.held atoms.new) (A.refusals atoms.old) (A.refusals atoms.new) (A.asked atoms.old) (A.asked atoms.new) store.new result }
{
    match pred {
        OfTwo::Equal => unifies(store, second),
        OfTwo::UnifyWithOccursCheck => unifies(store, second),
        OfTwo::NotUnifiable => not_unifiable(store, first, second),
        OfTwo::SubsumesTerm => subsumes_term(alloc, store, first, second),
        OfTwo::CopyTerm => copy_term(alloc, store, first, next),
        OfTwo::TermVariables => term_variables(alloc, store, first, second, next),
        OfTwo::Sort => sort(alloc, store, first, next, atoms),
        OfTwo::Msort => msort(alloc, store, first, next, atoms),
        OfTwo::Keysort => keysort(alloc, store, first, next, atoms),
        OfTwo::Univ => univ(alloc, store, first, second, next),
        OfTwo::Is => evaluate(alloc, store, second),
        OfTwo::AtomLength => atom_length(store, first, second, atoms),
        OfTwo::AtomChars => atom_chars(alloc, store, first, second, atoms),
        OfTwo::AtomCodes => atom_codes(alloc, store, first, second, atoms),
        OfTwo::CharCode => char_code(alloc, store, first, second, atoms),
        OfTwo::NumberChars => number_chars(alloc, store, first, second, atoms),
        OfTwo::NumberCodes => number_codes(alloc, store, first, second, atoms),
        OfTwo::Terms(by) => comparison(alloc, store, by, first, second, atoms),
        OfTwo::Values(by) => compare_values(alloc, store, by, first, second),
    }
}
