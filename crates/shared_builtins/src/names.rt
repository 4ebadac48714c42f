//! Names of operators (ISO 8.14.3), and the elements of lists.
ghost use Rattle.std.specs.Prelude.{IfOk, List, Result, map};
ghost use Rattle.pl_term.specs.Tree.{Tree};
ghost use Rattle.std.specs.List.{All};
ghost use Rattle.pl_model.specs.Checks.{elements};
ghost use Rattle.atom_api.specs.Names.{Names};
ghost use Rattle.builtin_rows.specs.Lists.{IsNaming};
ghost use Rattle.term_store.specs.Contents.{Holds};
ghost use Rattle.world_builtins.specs.Naming.{IsHeldAt};
ghost use Rattle.world_builtins.specs.Spelling.{reads};
ghost use Rattle.pl_model.specs.SharedBuiltins.{names_in};
ghost use Rattle.shared_builtins.specs.Names.{AreAtoms, AreListed, AreListedIn, AreNamed, AreNamedBy, IsName};

use crate::arguments::atom_at;
use crate::checks::{Check, first_fault};
use crate::faults::Fault;
use crate::kinds::NAME;
use atom_api::{Atom, fixed};
use builtin_rows::{ListEnd, list_elements, passes};
use pl_term::Memory;
use std::alloc::Global;
use term_store::{Place, Store};

/// The elements of a list.
#[derive(Drop)]
pub enum Listed {
    /// They stand at these places.
    Terms(Vec<Place>),
    /// The term is no list, for this error.
    Refused(Fault),
}

/// What a name, or a list of names, gives.
#[derive(Drop)]
pub enum Named {
    Atoms(Vec<Atom>),
    Refused(Fault),
}

/// The elements of the list at a place. The only error is out of memory. So below.
pub fn list_at(alloc: Global, store: &Store, list: Place) -> Result<Listed, Memory>
    requires { Holds store.now list }
    ensures inside { IfOk result (AreListedIn store.now) }
    ensures listed { IfOk result (λ l. (m : Names) → IsNaming m → IsHeldAt m store.now list → AreListed m store.now (elements (reads m store.now list)) l) }
{
    let mut terms = Vec::new(alloc);
    let end = list_elements(store, list, &mut terms)?;
    match end {
        ListEnd::Closed => Ok(Listed::Terms(terms)),
        ListEnd::Open => Ok(Listed::Refused(Fault::Unbound)),
        ListEnd::Broken => Ok(Listed::Refused(Fault::For(fixed::TYPE_ERROR, fixed::LIST, list))),
    }
}

/// The names at a place: an atom is one name, `[]` too; else the elements of a list, which are atoms.
pub fn names_at(alloc: Global, store: &Store, place: Place) -> Result<Named, Memory>
    requires { Holds store.now place }
    ensures { IfOk result (λ n. (m : Names) → IsNaming m → IsHeldAt m store.now place → AreNamed m store.now place n) }
{
    let listed = names_listed(alloc, store, place)?;
    let named = named_of(alloc, store, listed)?;
    Ok(named)
}

/// The terms that are the names.
fn names_listed(alloc: Global, store: &Store, place: Place) -> Result<Listed, Memory>
    requires { Holds store.now place }
    ensures inside { IfOk result (AreListedIn store.now) }
    ensures listed { IfOk result (λ l. (m : Names) → IsNaming m → IsHeldAt m store.now place → AreListed m store.now (names_in (reads m store.now place)) l) }
{
    if passes(NAME, store, place) {
        let mut terms = Vec::new(alloc);
        terms.push(place)?;
        Ok(Listed::Terms(terms))
    } else {
        let listed = list_at(alloc, store, place)?;
        Ok(listed)
    }
}

/// The atoms that were listed, or the error.
fn named_of(alloc: Global, store: &Store, listed: Listed) -> Result<Named, Memory>
    requires { AreListedIn store.now listed }
    ensures { IfOk result (λ n. (m : Names) (r : Result (List Tree) Tree) → IsNaming m → AreListed m store.now r listed → AreNamedBy m store.now r n) }
{
    match listed {
        Listed::Terms(terms) => {
            let named = atoms_of(alloc, store, terms.as_slice())?;
            Ok(named)
        }
        Listed::Refused(fault) => Ok(Named::Refused(fault)),
    }
}

/// The atoms at these places, or the error of the first one that is none.
fn atoms_of(alloc: Global, store: &Store, terms: &[Place]) -> Result<Named, Memory>
    requires { All (Holds store.now) terms.now }
    ensures { IfOk result (λ n. (m : Names) → IsNaming m → All (IsHeldAt m store.now) terms.now
        → AreAtoms m store.now (map (reads m store.now) terms.now) n) }
{
    let mut names = Vec::new(alloc);
    for place in terms {
        match name_at(store, *place) {
            Ok(name) => names.push(name)?,
            Err(fault) => return Ok(Named::Refused(fault)),
        }
    }
    Ok(Named::Atoms(names))
}

/// The atom at a place, or the error of what is none.
fn name_at(store: &Store, place: Place) -> Result<Atom, Fault>
    requires { Holds store.now place }
    ensures { (m : Names) → IsNaming m → IsHeldAt m store.now place → IsName m store.now (reads m store.now place) result }
{
    match first_fault(store, &[Check::Bound(place), Check::Atom(place)]) {
        Some(fault) => Err(fault),
        None => {
            let name = atom_at(store, place);
            Ok(name)
        }
    }
}
