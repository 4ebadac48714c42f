//! The elements of a list in a store, and lists that are made of elements.
ghost use Rattle.std.specs.Prelude.{◌≡◌, map, IfOk, OnOk};
ghost use Rattle.std.specs.List.{All};
ghost use Rattle.pl_model.specs.Checks.{elements, elements_within};
ghost use Rattle.pl_term.specs.Tree.{Tree};
ghost use Rattle.atom_api.specs.Names.{Names};
ghost use Rattle.term_store.specs.Contents.{Holds};
ghost use Rattle.world_builtins.specs.Naming.{IsHeldAt};
ghost use Rattle.world_builtins.specs.Spelling.{reads};
ghost use Rattle.builtin_rows.specs.Lists.{EndsAs, IsListMade, IsNaming, IsPart, IsPartHeld, IsPartIn};

use atom_api::fixed;
use pl_term::Memory;
use term_store::{Place, Store, View};

/// How a walk along a list ends: at the empty list, at a variable, or at what is no list.
#[derive(Clone, Copy, Drop)]
pub enum ListEnd {
    Closed,
    Open,
    Broken,
}

/// What stands at a place of a list: an element with the rest of the list, or its end.
#[derive(Clone, Copy, Drop)]
pub enum ListPart {
    Cell(Place, Place),
    End(ListEnd),
}

/// Puts the places of the elements of a list into `all`, as far as it is one, and says how it ends. What was in `all` is lost.
/// The only error is out of memory.
pub fn list_elements(store: &Store, list: Place, all: &mut Vec<Place>) -> Result<ListEnd, Memory>
    requires { Holds store.now list }
    ensures ended { IfOk result (λ e. (m : Names) → IsNaming m → IsHeldAt m store.now list
        → EndsAs e (reads m store.now list) (map (reads m store.now) all.new.items) (elements (reads m store.now list))) }
    ensures inside { OnOk result (All (Holds store.now) all.new.items) }
    ensures held { OnOk result ((m : Names) → IsHeldAt m store.now list → All (IsHeldAt m store.now) all.new.items) }
{
    all.clear();
    let mut rest = list;
    for _ in 0..u64::MAX {
        match list_part(store, rest) {
            ListPart::Cell(element, others) => {
                all.push(element)?;
                rest = others;
            }
            ListPart::End(end) => return Ok(end),
        }
    }
    Err(Memory)
}

/// What stands at a place of a list.
fn list_part(store: &Store, place: Place) -> ListPart
    requires { Holds store.now place }
    ensures part { (m : Names) (whole : Tree) → IsNaming m → IsHeldAt m store.now place
        → IsPart m store.now whole (elements_within whole (reads m store.now place)) result }
    ensures inside { IsPartIn store.now result }
    ensures held { (m : Names) → IsHeldAt m store.now place → IsPartHeld m store.now result }
{
    match store.look(place) {
        View::Variable(_) => ListPart::End(ListEnd::Open),
        View::Integer(_) => ListPart::End(ListEnd::Broken),
        View::Atom(a) => {
            if a == fixed::NIL {
                ListPart::End(ListEnd::Closed)
            } else {
                ListPart::End(ListEnd::Broken)
            }
        }
        View::Compound(f, these) => {
            if f != fixed::LIST_CELL {
                return ListPart::End(ListEnd::Broken);
            }
            if these.len() != 2 {
                return ListPart::End(ListEnd::Broken);
            }
            ListPart::Cell(store.argument(these, 0), store.argument(these, 1))
        }
    }
}

/// The list of the terms at these places. Its cells are not counted. The only error is out of memory.
pub fn make_list(store: &mut Store, items: &[Place]) -> Result<Place, Memory>
    requires { All (Holds store.old) items.now }
    ensures { IfOk result (λ p. IsListMade store.old items.now store.new p) }
{
    let mut tail = Place::atom(fixed::NIL);
    let mut i = items.len();
    while i > 0 {
        i -= 1;
        tail = store.make_compound(fixed::LIST_CELL, &[items[i], tail])?;
    }
    Ok(tail)
}
