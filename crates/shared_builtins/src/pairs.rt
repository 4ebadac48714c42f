//! Terms of two arguments with a fixed name.
ghost use Rattle.std.specs.Prelude.{◌≡◌, IfSome, Some};
ghost use Rattle.pl_term.specs.Tree.{Chars};
ghost use Rattle.atom_api.specs.Fixed.{fixed};
ghost use Rattle.atom_api.specs.Names.{Names};
ghost use Rattle.builtin_rows.specs.Lists.{IsNaming};
ghost use Rattle.term_store.specs.Contents.{Holds};
ghost use Rattle.world_builtins.specs.Naming.{IsHeldAt};
ghost use Rattle.shared_builtins.specs.Pairs.{AreBoth, AreBothIn};

use atom_api::Atom;
use term_store::{Place, Store, View};

/// The two arguments of the term at a place, if it has two and this name, which is a fixed atom.
pub fn both_of(store: &Store, place: Place, name: Atom) -> Option<(Place, Place)>
    requires { Holds store.now place }
    ensures inside { AreBothIn store.now result }
    ensures read { (m : Names) (t : Chars) → IsNaming m → IsHeldAt m store.now place → fixed name ≡ Some t → AreBoth m store.now place t result }
{
    match store.look(place) {
        View::Variable(_) => None,
        View::Integer(_) => None,
        View::Atom(_) => None,
        View::Compound(found, arguments) => {
            if found != name {
                return None;
            }
            if arguments.len() != 2 {
                return None;
            }
            Some((store.argument(arguments, 0), store.argument(arguments, 1)))
        }
    }
}
