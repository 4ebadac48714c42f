//! The parts of clause-terms (ISO 7.6.1).
ghost use Rattle.std.specs.Prelude.{◌≡◌, false};
ghost use Rattle.pl_term.specs.Tree.{atom};
ghost use Rattle.atom_api.specs.FixedNames.{true_name};
ghost use Rattle.atom_api.specs.Names.{Names};
ghost use Rattle.term_store.specs.Contents.{Contents, Holds, term_at};
ghost use Rattle.term_store.specs.Heap.{atom_name};
ghost use Rattle.builtin_rows.specs.Lists.{IsNaming};
ghost use Rattle.world_builtins.specs.Naming.{IsHeldAt};
ghost use Rattle.shared_builtins.specs.Clauses.{AreReadParts, ArePartsOf};

use crate::pairs::both_of;
use atom_api::fixed;
use term_store::{Place, Store};

/// The head and the body of a clause-term, and whether it is a rule. The body of a fact is `true`.
#[derive(Clone, Copy, Debug, Drop)]
pub struct Parts {
    pub head: Place,
    pub body: Place,
    pub is_rule: bool,
}

/// The parts of the clause-term at a place.
pub fn parts_at(store: &Store, term: Place) -> Parts
    requires { Holds store.now term }
    ensures inside { ArePartsOf store.now term result }
    ensures read { (m : Names) → IsNaming m → IsHeldAt m store.now term → AreReadParts m store.now term result }
{
    match both_of(store, term, fixed::NECK) {
        Some(both) => Parts {
            head: both.0,
            body: both.1,
            is_rule: true,
        },
        None => fact(term),
    }
}

/// The parts of a fact.
fn fact(head: Place) -> Parts
    ensures head { result.head ≡ head }
    ensures body { (s : Contents) → Holds s result.body × (term_at s result.body ≡ atom (atom_name true_name)) }
    ensures is_rule { result.is_rule ≡ false }
{
    Parts {
        head,
        body: Place::atom(fixed::TRUE),
        is_rule: false,
    }
}
