//! put_char/1.
ghost use Rattle.std.specs.Prelude.{◌≡◌, codes, IfOk, OnOk};
ghost use Rattle.pl_model.specs.Balls.{error_ball, type_error};
ghost use Rattle.pl_model.specs.History.{proc};
ghost use Rattle.pl_term.specs.Tree.{comp, more, none};
ghost use Rattle.term_store.specs.Heap.{atom_name};
ghost use Rattle.term_store.specs.Contents.{Holds, term_at};
ghost use Rattle.world_builtins.specs.Naming.{IsHeldAt};
ghost use Rattle.iso_search.specs.Conversions.{Grows};
ghost use Rattle.iso_search.specs.Reading.{IsView, View, reads};
ghost use Rattle.iso_search.specs.Searching.{IsWhole};
ghost use Rattle.iso_engine.specs.declared.write.goals.OutputGoal.TheVariants.{Character as CharacterGoal};
ghost use Rattle.iso_engine.specs.Wrote.{WritesAlone};

use crate::write::wrote::Wrote;
use atom_api::{Atom, Atoms, fixed};
use iso_search::outcome::{Fault, Outcome};
use iso_search::search::Search;
use pl_term::Memory;
use term_store::{Place, Store};
use world_builtins::{Character, put_char};

/// put_char/1. The only error is out of memory.
pub fn put_character<A: Atoms>(
    search: &mut Search,
    atoms: &mut A,
    out: &mut Vec<u8>,
    term: Place,
    rest: usize,
) -> Result<Wrote, Memory>
    requires whole { IsWhole search.old }
    requires inside { Holds search.old.store term }
    requires held { IsHeldAt (A.held atoms.old) search.old.store term }
    ensures whole { OnOk result (IsWhole search.new) }
    ensures wrote { IfOk result (WritesAlone (A.held atoms.old) search.old (CharacterGoal term) rest out.old.items search.new out.new.items) }
    ensures budgets { OnOk result (search.new.budgets ≡ search.old.budgets) }
    ensures same { A.held atoms.new ≡ A.held atoms.old }
    ensures refusals { A.refusals atoms.new ≡ A.refusals atoms.old }
    ensures asked { A.asked atoms.new ≡ A.asked atoms.old }
{
    let most = search.budgets.inferences;
    if search.inferences >= most {
        return Ok(Wrote::Spent);
    }
    let character = put_char(&search.store, term, atoms, out)?;
    search.inferences += 1;
    match character {
        Character::Put => Ok(Wrote::Ran(Outcome::Run(rest))),
        Character::Unbound => Ok(Wrote::Ran(Outcome::Raise(Fault::Instantiation))),
        Character::Refused => {
            let ball = no_character(&mut search.store, term)?;
            Ok(Wrote::Ran(Outcome::Throw(ball)))
        }
    }
}

/// The ball of put_char/1 where the term at a place is no character, which takes no cells of the budget. The only error is
/// out of memory.
fn no_character(store: &mut Store, term: Place) -> Result<Place, Memory>
    requires { Holds store.old term }
    ensures grows { OnOk result (Grows store.old store.new) }
    ensures inside { IfOk result (Holds store.new) }
    ensures ball { IfOk result (λ p. (v : View) → IsView v
        → reads v store.new p ≡ error_ball (type_error (codes "character") (reads v store.old term)) (proc (codes "put_char") 1)) }
{
    let error = pair(
        store,
        fixed::TYPE_ERROR,
        Place::atom(fixed::CHARACTER),
        term,
    )?;
    let name = Place::atom(fixed::PUT_CHAR);
    let indicator = pair(store, fixed::SLASH, name, Place::integer(1))?;
    let ball = pair(store, fixed::ERROR, error, indicator)?;
    Ok(ball)
}

/// A compound term of two arguments. The only error is out of memory.
fn pair(store: &mut Store, name: Atom, first: Place, second: Place) -> Result<Place, Memory>
    requires first { Holds store.old first }
    requires second { Holds store.old second }
    ensures grows { OnOk result (Grows store.old store.new) }
    ensures inside { IfOk result (Holds store.new) }
    ensures means { IfOk result (λ p. term_at store.new p ≡ comp (atom_name name) (term_at store.old first) (more (term_at store.old second) none)) }
{
    let made = store.make_compound(name, &[first, second])?;
    Ok(made)
}
