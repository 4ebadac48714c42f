//! The variables of a term.
ghost use Rattle.std.specs.Prelude.{◌≡◌, [], ◌∷◌, ◌++◌, map, if◌then◌else◌, IfOk, OnOk};
ghost use Rattle.std.specs.List.{All};
ghost use Rattle.pl_term.specs.NodeLists.{with};
ghost use Rattle.pl_term.specs.Tree.{var};
ghost use Rattle.pl_term.specs.Variables.{is_in, variables};
ghost use Rattle.term_store.specs.Contents.{Holds, IsArguments, arguments_at, term_at};
ghost use Rattle.builtin_term.specs.VariableWalks.{Gains, IsWalked, Passes, Visits};

use crate::course::Course;
use crate::seen_variables::Seen;
use pl_term::Memory;
use std::alloc::Global;
use term_store::{Arguments, Place, Store, View};

/// What a walk has still to do: the places of the terms that are still to be looked at, the first on top, and the compound terms
/// that it is within or has left.
#[derive(Drop)]
pub struct Walk {
    pub places: Vec<Place>,
    pub course: Course,
}

/// The places of the variables of the term at a place, each once, in the order in which they first occur. A walk that is not
/// short comes to each compound term once. The only error is out of memory.
pub fn variables_at(alloc: Global, store: &Store, term: Place) -> Result<Vec<Place>, Memory>
    requires { Holds store.now term }
    ensures inside { IfOk result (λ v. All (Holds store.now) v.items) }
    ensures stand { IfOk result (λ v. map (term_at store.now) v.items ≡ map var (variables (term_at store.now term))) }
{
    let mut walk = Walk {
        places: vec![in alloc; term]?,
        course: Course::new(alloc),
    };
    let mut seen = Seen::new(alloc);
    let mut met = Vec::new(alloc);
    for _ in 0..u64::MAX {
        walk.course.leave(walk.places.len())?;
        let Some(next) = walk.places.pop() else {
            return Ok(met);
        };
        visit(store, &mut walk, &mut seen, &mut met, next)?;
    }
    Err(Memory)
}

/// Takes up the term at a place: a variable that is met for the first time is put after the others, the arguments of a compound
/// term are put on the stack. The only error is out of memory.
fn visit(
    store: &Store,
    walk: &mut Walk,
    seen: &mut Seen,
    met: &mut Vec<Place>,
    place: Place,
) -> Result<(), Memory>
    requires place { Holds store.now place }
    requires walk { All (Holds store.now) walk.old.places.items }
    requires inside { All (Holds store.now) met.old.items }
    requires met { map (term_at store.now) met.old.items ≡ map var seen.old }
    requires walked { IsWalked store.now seen.old (walk.old.places.items ++ place ∷ []) walk.old }
    ensures visits { OnOk result (Visits store.now (term_at store.now place) walk.old.places.items seen.old walk.new.places.items met.new.items seen.new) }
    ensures walked { OnOk result (IsWalked store.now seen.new walk.new.places.items walk.new) }
{
    match store.look(place) {
        View::Variable(x) => meet(seen, met, x, place),
        View::Integer(_) => Ok(()),
        View::Atom(_) => Ok(()),
        View::Compound(_, arguments) => enter_arguments(store, walk, arguments),
    }
}

/// Puts the place of a variable after the others where it is met for the first time.
fn meet(seen: &mut Seen, met: &mut Vec<Place>, x: u64, place: Place) -> Result<(), Memory>
    ensures seen { OnOk result (seen.new ≡ with x seen.old) }
    ensures met { OnOk result (met.new.items ≡ met.old.items ++ (if is_in x seen.old then [] else place ∷ [])) }
{
    let first = seen.meet(x)?;
    if !first {
        return Ok(());
    }
    met.push(place)?;
    Ok(())
}

/// Puts the places of arguments on the stack, the first on top, unless the walk has left their compound term before. The only
/// error is out of memory.
fn enter_arguments(store: &Store, walk: &mut Walk, arguments: Arguments) -> Result<(), Memory>
    requires arguments { IsArguments store.now arguments }
    requires walk { All (Holds store.now) walk.old.places.items }
    ensures inside { OnOk result (All (Holds store.now) walk.new.places.items) }
    ensures passes { OnOk result (Passes store.now arguments walk.old walk.new) }
{
    let height = walk.places.len();
    if !walk.course.enter(arguments, arguments, height)? {
        return Ok(());
    }
    push_arguments(store, &mut walk.places, arguments)
}

/// Puts the places of arguments on the stack, the first on top.
fn push_arguments(store: &Store, walk: &mut Vec<Place>, arguments: Arguments) -> Result<(), Memory>
    requires arguments { IsArguments store.now arguments }
    requires walk { All (Holds store.now) walk.old.items }
    ensures inside { OnOk result (All (Holds store.now) walk.new.items) }
    ensures gains { OnOk result (Gains store.now (arguments_at store.now arguments) walk.old.items walk.new.items) }
{
    let mut i = arguments.len();
    while i > 0 {
        i -= 1;
        walk.push(store.argument(arguments, i))?;
    }
    Ok(())
}
