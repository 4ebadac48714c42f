//! functor/3 (ISO/IEC 13211-1:1995, 8.5.1).
ghost use Rattle.std.specs.Prelude.{◌≡◌, ℕ, ◌+◌, ◌<◌, ◌^◌, IfOk, codes, []};
ghost use Rattle.pl_term.specs.Tree.{atom, var};
ghost use Rattle.pl_model.specs.BuiltinRows.{one_answer};
ghost use Rattle.pl_model.specs.History.{proc};
ghost use Rattle.pl_model.specs.TermBuiltins.{functor_of, three};
ghost use Rattle.atom_api.specs.Names.{Names, FixedStand};
ghost use Rattle.term_store.specs.Contents.{Holds, IsAbove, term_at};
ghost use Rattle.term_store.specs.Heap.{atom_name};
ghost use Rattle.world_builtins.specs.Naming.{IsHeldAt};
ghost use Rattle.world_builtins.specs.Spelling.{reads};
ghost use Rattle.builtin_rows.specs.Rows.{IsSingle, row_refusals};
ghost use Rattle.builtin_term.specs.Functor.{IsCount, IsNameOf, IsWanted, functor_row};
ghost use Rattle.builtin_term.specs.Giving.{IsFresh, IsGiven};

use crate::answers::answer;
use crate::faults::{Fault, Kind, raise, unbound_or};
use atom_api::{Atom, fixed};
use builtin_rows::{Places, Row, take_room};
use pl_term::Memory;
use std::alloc::Global;
use term_store::{Place, Store, View};

/// The term that a name and a number of arguments ask for.
#[derive(Clone, Copy, Debug, Drop)]
pub enum Wanted {
    /// What stands as the name.
    Itself,
    /// A compound term with this name and so many new variables.
    Compound(Atom, u64),
}

/// functor/3 (ISO/IEC 13211-1:1995, 8.5.1): the name and the number of arguments of a term; where the term is a variable, the
/// term of this name and so many new variables, with the numbers from `next` on. A name or a number that is unbound gives an
/// instantiation error; a name that is compound, a name of a compound term that is no atom, and a number that is no integer, a
/// type error; a negative number a domain error; where numbers of variables or cells are spent, it is a resource error or the
/// row says so. The only error of the call is out of memory.
pub fn functor(
    alloc: Global,
    store: &mut Store,
    term: Place,
    name: Place,
    arity: Place,
    next: u64,
) -> Result<Row, Memory>
    requires term { Holds store.old term }
    requires name { Holds store.old name }
    requires arity { Holds store.old arity }
    requires above { IsAbove next store.old }
    ensures row { IfOk result (λ r. (m : Names) → FixedStand m → IsHeldAt m store.old term → IsHeldAt m store.old name → IsHeldAt m store.old arity
        → IsGiven store.old next (proc (codes "functor") 3) (functor_of next (reads m store.old term) (reads m store.old name) (reads m store.old arity)) m store.new r) }
    ensures refuses { IfOk result (λ r. row_refusals r ≡ []) }
    ensures single { IfOk result IsSingle }
{
    match store.look(term) {
        View::Variable(_) => construct(alloc, store, name, arity, next),
        View::Integer(_) => answer_functor(store, term, term, Place::integer(0), next),
        View::Atom(_) => answer_functor(store, term, term, Place::integer(0), next),
        View::Compound(f, arguments) => {
            let Ok(count) = i64::try_from(arguments.len()) else {
                return Err(Memory);
            };
            answer_functor(store, term, Place::atom(f), Place::integer(count), next)
        }
    }
}

/// The answer in which the terms at these places are the arguments of functor/3.
fn answer_functor(
    store: &mut Store,
    term: Place,
    name: Place,
    arity: Place,
    next: u64,
) -> Result<Row, Memory>
    requires term { Holds store.old term }
    requires name { Holds store.old name }
    requires arity { Holds store.old arity }
    ensures row { IfOk result (λ r. (m : Names) → FixedStand m → IsHeldAt m store.old term → IsHeldAt m store.old name → IsHeldAt m store.old arity
        → IsGiven store.old next (proc (codes "functor") 3) (one_answer (three (reads m store.old term) (reads m store.old name) (reads m store.old arity))) m store.new r) }
    ensures refuses { IfOk result (λ r. row_refusals r ≡ []) }
    ensures single { IfOk result IsSingle }
{
    let places = Places::Three(term, name, arity);
    answer(store, places, next, fixed::FUNCTOR, 3)
}

/// functor/3 of a variable.
fn construct(
    alloc: Global,
    store: &mut Store,
    name: Place,
    arity: Place,
    next: u64,
) -> Result<Row, Memory>
    requires name { Holds store.old name }
    requires arity { Holds store.old arity }
    requires above { IsAbove next store.old }
    ensures row { IfOk result (λ r. (m : Names) (x : ℕ) → FixedStand m → IsHeldAt m store.old name → IsHeldAt m store.old arity
        → IsGiven store.old next (proc (codes "functor") 3) (functor_of next (var x) (reads m store.old name) (reads m store.old arity)) m store.new r) }
    ensures refuses { IfOk result (λ r. row_refusals r ≡ []) }
    ensures single { IfOk result IsSingle }
{
    match check_name(store, name, arity) {
        Err(fault) => raise(store, fault, fixed::FUNCTOR, 3),
        Ok(want) => match want {
            Wanted::Itself => answer_functor(store, name, name, arity, next),
            Wanted::Compound(f, count) => make_functor(alloc, store, f, count, name, arity, next),
        },
    }
}

/// The answer in which the compound term of this name and so many new variables is made.
fn make_functor(
    alloc: Global,
    store: &mut Store,
    f: Atom,
    count: u64,
    name: Place,
    arity: Place,
    next: u64,
) -> Result<Row, Memory>
    requires some { 0 < count }
    requires few { count < 2 ^ 63 }
    requires name { Holds store.old name }
    requires stands { term_at store.old name ≡ atom (atom_name f) }
    requires arity { Holds store.old arity }
    requires above { IsAbove next store.old }
    ensures row { IfOk result (λ r. (m : Names) → FixedStand m → IsHeldAt m store.old name → IsHeldAt m store.old arity
        → IsGiven store.old next (proc (codes "functor") 3) (functor_row m store.old next f count name arity) m store.new r) }
    ensures refuses { IfOk result (λ r. row_refusals r ≡ []) }
    ensures single { IfOk result IsSingle }
{
    let refused = take_room(store, next, count, 2 * count + 1, fixed::FUNCTOR, 3)?;
    match refused {
        Some(row) => Ok(row),
        None => {
            let arguments = make_variables(alloc, store, next, count)?;
            let term = store.make_compound(f, &arguments)?;
            Ok(Row::Answer {
                places: Places::Three(term, name, arity),
                fresh: count,
            })
        }
    }
}

/// So many variables, with the numbers from `next` on. The only error is out of memory.
fn make_variables(
    alloc: Global,
    store: &mut Store,
    next: u64,
    count: u64,
) -> Result<Vec<Place>, Memory>
    requires above { IsAbove next store.old }
    requires room { next + count < 2 ^ 64 }
    ensures fresh { IfOk result (λ v. IsFresh store.old next count store.new v.items) }
{
    let mut all = Vec::new(alloc);
    for i in 0..count {
        let variable = store.make_variable(next + i)?;
        all.push(variable)?;
    }
    Ok(all)
}

/// What the name and the number of arguments ask for, or why they are refused.
fn check_name(store: &Store, name: Place, arity: Place) -> Result<Wanted, Fault>
    requires name { Holds store.now name }
    requires arity { Holds store.now arity }
    ensures { IsWanted store.now name arity result }
{
    match store.look(name) {
        View::Variable(_) => Err(Fault::Unbound),
        View::Integer(_) => check_count(store, None, name, arity),
        View::Atom(f) => check_count(store, Some(f), name, arity),
        View::Compound(_, _) => {
            let other = Fault::Mistyped(Kind::Atomic, name);
            Err(unbound_or(store, arity, other))
        }
    }
}

/// The same for a name that is this atom, or an integer.
fn check_count(store: &Store, f: Option<Atom>, name: Place, arity: Place) -> Result<Wanted, Fault>
    requires name { Holds store.now name }
    requires arity { Holds store.now arity }
    requires atomic { IsNameOf store.now name f }
    ensures { IsWanted store.now name arity result }
{
    match count_at(store, arity) {
        Err(fault) => Err(fault),
        Ok(count) => {
            if count == 0 {
                return Ok(Wanted::Itself);
            }
            match f {
                Some(f) => Ok(Wanted::Compound(f, count)),
                None => Err(Fault::Mistyped(Kind::Atom, name)),
            }
        }
    }
}

/// The number of arguments that stands at a place, or why it is refused.
fn count_at(store: &Store, arity: Place) -> Result<u64, Fault>
    requires { Holds store.now arity }
    ensures { IsCount store.now arity result }
{
    match store.look(arity) {
        View::Variable(_) => Err(Fault::Unbound),
        View::Atom(_) => Err(Fault::Mistyped(Kind::Integer, arity)),
        View::Compound(_, _) => Err(Fault::Mistyped(Kind::Integer, arity)),
        View::Integer(i) => {
            if i < 0 {
                Err(Fault::Negative(arity))
            } else {
                Ok(i as u64)
            }
        }
    }
}
