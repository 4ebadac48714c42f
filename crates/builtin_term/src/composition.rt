//! (=..)/2 of a variable: the term of a list.
ghost use Rattle.std.specs.Prelude.{◌≡◌, ◌<◌, ℕ, [], ◌∷◌, length, map, codes, IfOk, IsSome};
ghost use Rattle.std.specs.List.{All};
ghost use Rattle.pl_term.specs.Tree.{var};
ghost use Rattle.pl_model.specs.History.{proc};
ghost use Rattle.pl_model.specs.TermBuiltins.{composes, univ};
ghost use Rattle.atom_api.specs.Names.{Names, FixedStand};
ghost use Rattle.builtin_rows.specs.Rows.{IsSingle, row_refusals};
ghost use Rattle.term_store.specs.Contents.{Holds};
ghost use Rattle.world_builtins.specs.Naming.{IsHeldAt};
ghost use Rattle.world_builtins.specs.Spelling.{reads};
ghost use Rattle.builtin_rows.specs.Lists.{IsNaming};
ghost use Rattle.builtin_term.specs.Giving.{IsGiven};
ghost use Rattle.builtin_term.specs.Composition.{IsAlone, IsName, composed_row};

use crate::answers::answer;
use crate::faults::{Fault, Kind, raise};
use atom_api::{Atom, fixed};
use builtin_rows::{ListEnd, Places, Row, list_elements, take_room};
use pl_term::Memory;
use std::alloc::Global;
use term_store::{Place, Store, View};

/// (=..)/2 of a variable. The only error of the call is out of memory.
pub fn compose(alloc: Global, store: &mut Store, list: Place, next: u64) -> Result<Row, Memory>
    requires { Holds store.old list }
    ensures row { IfOk result (λ r. (m : Names) (x : ℕ) → IsNaming m → IsHeldAt m store.old list
        → IsGiven store.old next (proc (codes "=..") 2) (univ (var x) (reads m store.old list)) m store.new r) }
    ensures refuses { IfOk result (λ r. row_refusals r ≡ []) }
    ensures single { IfOk result IsSingle }
{
    let mut elements = Vec::new(alloc);
    let end = list_elements(store, list, &mut elements)?;
    match end {
        ListEnd::Open => raise(store, Fault::Unbound, fixed::UNIV, 2),
        ListEnd::Broken => {
            let fault = Fault::Mistyped(Kind::List, list);
            raise(store, fault, fixed::UNIV, 2)
        }
        ListEnd::Closed => compose_all(store, list, &elements, next),
    }
}

/// The same, where these are the elements of the list.
fn compose_all(store: &mut Store, list: Place, elements: &[Place], next: u64) -> Result<Row, Memory>
    requires list { Holds store.old list }
    requires elements { All (Holds store.old) elements.now }
    ensures row { IfOk result (λ r. (m : Names) → FixedStand m → IsHeldAt m store.old list → All (IsHeldAt m store.old) elements.now
        → IsGiven store.old next (proc (codes "=..") 2) (composes (reads m store.old list) (map (reads m store.old) elements.now)) m store.new r) }
    ensures refuses { IfOk result (λ r. row_refusals r ≡ []) }
    ensures single { IfOk result IsSingle }
{
    if elements.is_empty() {
        return raise(store, Fault::EmptyList, fixed::UNIV, 2);
    }
    let first = elements[0];
    let rest = &elements[1..];
    if rest.is_empty() {
        compose_atomic(store, list, first, next)
    } else {
        compose_compound(store, list, first, rest, next)
    }
}

/// The same for a list of one element.
fn compose_atomic(store: &mut Store, list: Place, first: Place, next: u64) -> Result<Row, Memory>
    requires list { Holds store.old list }
    requires first { Holds store.old first }
    ensures row { IfOk result (λ r. (m : Names) → FixedStand m → IsHeldAt m store.old list → IsHeldAt m store.old first
        → IsGiven store.old next (proc (codes "=..") 2) (composes (reads m store.old list) (reads m store.old first ∷ [])) m store.new r) }
    ensures refuses { IfOk result (λ r. row_refusals r ≡ []) }
    ensures single { IfOk result IsSingle }
{
    match atomic_fault(store, first) {
        Some(fault) => raise(store, fault, fixed::UNIV, 2),
        None => {
            let places = Places::Two(first, list);
            answer(store, places, next, fixed::UNIV, 2)
        }
    }
}

/// The same for a list of more elements: the first, and the rest, of which there are some.
fn compose_compound(
    store: &mut Store,
    list: Place,
    first: Place,
    rest: &[Place],
    next: u64,
) -> Result<Row, Memory>
    requires list { Holds store.old list }
    requires first { Holds store.old first }
    requires rest { All (Holds store.old) rest.now }
    requires some { 0 < length rest.now }
    ensures row { IfOk result (λ r. (m : Names) → FixedStand m → IsHeldAt m store.old list → IsHeldAt m store.old first → All (IsHeldAt m store.old) rest.now
        → IsGiven store.old next (proc (codes "=..") 2) (composes (reads m store.old list) (reads m store.old first ∷ map (reads m store.old) rest.now)) m store.new r) }
    ensures refuses { IfOk result (λ r. row_refusals r ≡ []) }
    ensures single { IfOk result IsSingle }
{
    match name_at(store, first) {
        Err(fault) => raise(store, fault, fixed::UNIV, 2),
        Ok(name) => make_composed(store, list, name, rest, next),
    }
}

/// The answer in which the compound term of this name and these arguments, of which there are some, is made.
fn make_composed(
    store: &mut Store,
    list: Place,
    name: Atom,
    arguments: &[Place],
    next: u64,
) -> Result<Row, Memory>
    requires list { Holds store.old list }
    requires arguments { All (Holds store.old) arguments.now }
    requires some { 0 < length arguments.now }
    ensures row { IfOk result (λ r. (m : Names) → FixedStand m → IsHeldAt m store.old list → IsSome (m name) → All (IsHeldAt m store.old) arguments.now
        → IsGiven store.old next (proc (codes "=..") 2) (composed_row m store.old name list arguments.now) m store.new r) }
    ensures refuses { IfOk result (λ r. row_refusals r ≡ []) }
    ensures single { IfOk result IsSingle }
{
    let made = arguments.len() as u64 + 1;
    let refused = take_room(store, next, 0, made, fixed::UNIV, 2)?;
    match refused {
        Some(row) => Ok(row),
        None => {
            let term = store.make_compound(name, arguments)?;
            let places = Places::Two(term, list);
            Ok(Row::Answer { places, fresh: 0 })
        }
    }
}

/// Why the only element of a list is refused as a term.
fn atomic_fault(store: &Store, first: Place) -> Option<Fault>
    requires { Holds store.now first }
    ensures { IsAlone store.now first result }
{
    match store.look(first) {
        View::Variable(_) => Some(Fault::Unbound),
        View::Integer(_) => None,
        View::Atom(_) => None,
        View::Compound(_, _) => Some(Fault::Mistyped(Kind::Atomic, first)),
    }
}

/// The name that stands as the first element of a list, or why that is refused as a name.
fn name_at(store: &Store, first: Place) -> Result<Atom, Fault>
    requires { Holds store.now first }
    ensures { IsName store.now first result }
{
    match store.look(first) {
        View::Variable(_) => Err(Fault::Unbound),
        View::Integer(_) => Err(Fault::Mistyped(Kind::Atom, first)),
        View::Atom(name) => Ok(name),
        View::Compound(_, _) => Err(Fault::Mistyped(Kind::Atom, first)),
    }
}
