//! arg/3 (ISO/IEC 13211-1:1995, 8.5.2).
ghost use Rattle.std.specs.Prelude.{◌≡◌, IfOk, codes, []};
ghost use Rattle.pl_term.specs.Tree.{Tree, int};
ghost use Rattle.pl_model.specs.History.{proc};
ghost use Rattle.pl_model.specs.TermBuiltins.{argument_of};
ghost use Rattle.atom_api.specs.Names.{Names, FixedStand};
ghost use Rattle.term_store.specs.Contents.{Holds, IsArguments, arguments_at, term_at};
ghost use Rattle.world_builtins.specs.Naming.{IsHeldAt};
ghost use Rattle.world_builtins.specs.Spelling.{reads};
ghost use Rattle.builtin_rows.specs.Rows.{IsSingle, row_refusals};
ghost use Rattle.builtin_term.specs.Argument.{IsArgument, Selects};
ghost use Rattle.builtin_term.specs.Giving.{IsGiven};

use crate::answers::answer;
use crate::faults::{Fault, Kind, raise, unbound_or};
use atom_api::fixed;
use builtin_rows::{Places, Row};
use pl_term::Memory;
use term_store::{Arguments, Place, Store, View};

/// arg/3 (ISO/IEC 13211-1:1995, 8.5.2): the argument of a compound term that has this number, counted from 1. It fails where
/// there is none. An argument that is unbound gives an instantiation error; a number that is no integer, and a term that is not
/// compound, a type error; a negative number a domain error. The only error of the call is out of memory.
pub fn arg(store: &mut Store, number: Place, term: Place, next: u64) -> Result<Row, Memory>
    requires number { Holds store.old number }
    requires term { Holds store.old term }
    ensures row { IfOk result (λ r. (m : Names) (argument : Tree) → FixedStand m → IsHeldAt m store.old number → IsHeldAt m store.old term
        → IsGiven store.old next (proc (codes "arg") 3) (argument_of (reads m store.old number) (reads m store.old term) argument) m store.new r) }
    ensures refuses { IfOk result (λ r. row_refusals r ≡ []) }
    ensures single { IfOk result IsSingle }
{
    match select(store, number, term) {
        Err(fault) => raise(store, fault, fixed::ARG, 3),
        Ok(None) => Ok(Row::Fails),
        Ok(Some(argument)) => {
            let places = Places::Three(number, term, argument);
            answer(store, places, next, fixed::ARG, 3)
        }
    }
}

/// The argument that has this number, or why the number or the term is refused.
fn select(store: &Store, number: Place, term: Place) -> Result<Option<Place>, Fault>
    requires number { Holds store.now number }
    requires term { Holds store.now term }
    ensures { Selects store.now number term result }
{
    match store.look(number) {
        View::Variable(_) => Err(Fault::Unbound),
        View::Integer(i) => select_from(store, number, i, term),
        View::Atom(_) => Err(unbound_or(store, term, Fault::Mistyped(Kind::Integer, number))),
        View::Compound(_, _) => Err(unbound_or(
            store,
            term,
            Fault::Mistyped(Kind::Integer, number),
        )),
    }
}

/// The same, where the number is this integer.
fn select_from(store: &Store, number: Place, i: i64, term: Place) -> Result<Option<Place>, Fault>
    requires number { Holds store.now number }
    requires term { Holds store.now term }
    requires stands { term_at store.now number ≡ int i }
    ensures { Selects store.now number term result }
{
    match store.look(term) {
        View::Variable(_) => Err(Fault::Unbound),
        View::Integer(_) => Err(Fault::Mistyped(Kind::Compound, term)),
        View::Atom(_) => Err(Fault::Mistyped(Kind::Compound, term)),
        View::Compound(_, arguments) => {
            if i < 0 {
                Err(Fault::Negative(number))
            } else {
                Ok(argument_at(store, arguments, i as u64))
            }
        }
    }
}

/// The argument that has this number, counted from 1.
fn argument_at(store: &Store, arguments: Arguments, number: u64) -> Option<Place>
    requires { IsArguments store.now arguments }
    ensures { IsArgument store.now (arguments_at store.now arguments) number result }
{
    if number == 0 || number > arguments.len() as u64 {
        return None;
    }
    Some(store.argument(arguments, number as usize - 1))
}
