//! Lists (ISO 6.3.5).
ghost use Rattle.std.specs.Prelude.{◌≡◌, map, IfOk};
ghost use Rattle.std.specs.List.{All};
ghost use Rattle.pl_model.specs.Terms.{is_list_or_partial};
ghost use Rattle.term_store.specs.Contents.{Holds, term_at};
ghost use Rattle.iso_search.specs.Lists.{IsLinkIn, IsListed, link_tells};
ghost use Rattle.iso_search.specs.Reading.{View, IsView, reads};

use atom_api::fixed;
use pl_term::Memory;
use term_store::{Place, Store, View as Kind};

/// How a term goes on as a list.
#[derive(Clone, Copy, Drop)]
pub enum Link {
    /// It does not: whether it is a list or a partial list.
    Ends(bool),
    /// After an element with the term at a place.
    Goes(Place),
}

/// How the term at a place goes on as a list.
fn link_at(store: &Store, place: Place) -> Link
    requires { Holds store.now place }
    ensures inside { IsLinkIn store.now result }
    ensures tells { (v : View) → IsView v → link_tells v store.now result ≡ is_list_or_partial (reads v store.now place) }
{
    match store.look(place) {
        Kind::Variable(_) => Link::Ends(true),
        Kind::Integer(_) => Link::Ends(false),
        Kind::Atom(name) => Link::Ends(name == fixed::NIL),
        Kind::Compound(name, arguments) => {
            if name == fixed::LIST_CELL && arguments.len() == 2 {
                Link::Goes(store.argument(arguments, 1))
            } else {
                Link::Ends(false)
            }
        }
    }
}

/// Whether the term at a place is a list or a partial list. The only error is out of memory.
pub fn is_list_or_partial(store: &Store, place: Place) -> Result<bool, Memory>
    requires { Holds store.now place }
    ensures { IfOk result (λ b. (v : View) → IsView v → b ≡ is_list_or_partial (reads v store.now place)) }
{
    let mut at = place;
    for _ in 0..u64::MAX {
        match link_at(store, at) {
            Link::Ends(is) => return Ok(is),
            Link::Goes(tail) => at = tail,
        }
    }
    Err(Memory)
}

/// The list of the terms at these places. The only error is out of memory.
pub fn make_list(store: &mut Store, items: &[Place]) -> Result<Place, Memory>
    requires { All (Holds store.old) items.now }
    ensures { IfOk result (λ p. IsListed store.old (map (term_at store.old) items.now) store.new p) }
{
    let mut list = Place::atom(fixed::NIL);
    let mut i = items.len();
    while i > 0 {
        i -= 1;
        list = store.make_compound(fixed::LIST_CELL, &[items[i], list])?;
    }
    Ok(list)
}
