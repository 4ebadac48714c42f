//! Arguments that passed their checks.
ghost use Rattle.std.specs.Prelude.{◌≡◌, ℕ, pos, IfOk};
ghost use Rattle.pl_term.specs.Tree.{Chars, atom, int};
ghost use Rattle.atom_api.specs.Names.{Names};
ghost use Rattle.builtin_rows.specs.Lists.{IsNaming};
ghost use Rattle.term_store.specs.Contents.{Holds, term_at};
ghost use Rattle.term_store.specs.Heap.{atom_name};
ghost use Rattle.world_builtins.specs.Naming.{IsHeldAt};
ghost use Rattle.world_builtins.specs.Spelling.{reads};
ghost use Rattle.shared_builtins.specs.Kept.{IsKept};

use atom_api::Atom;
use pl_term::Memory;
use term_store::{Place, Store, Stored, View};

/// The atom at a place, where one stands.
pub fn atom_at(store: &Store, place: Place) -> Atom
    requires holds { Holds store.now place }
    requires is_atom { (f : Chars) × (term_at store.now place ≡ atom f) }
    ensures { term_at store.now place ≡ atom (atom_name result) }
{
    match store.look(place) {
        View::Atom(name) => name,
        _ => unreachable!(),
    }
}

/// The natural number at a place, where one stands.
pub fn natural_at(store: &Store, place: Place) -> u64
    requires holds { Holds store.now place }
    requires is_natural { (n : ℕ) × (term_at store.now place ≡ int (pos n)) }
    ensures { term_at store.now place ≡ int (pos result) }
{
    match store.look(place) {
        View::Integer(i) => i as u64,
        _ => unreachable!(),
    }
}

/// The term at a place as it is kept, its variables numbered from 0 on. The only error is out of memory, which is found at once
/// where shared parts make the term larger than any memory.
pub fn kept_at(store: &Store, place: Place) -> Result<Stored, Memory>
    requires { Holds store.now place }
    ensures { IfOk result (λ k. (m : Names) → IsNaming m → IsHeldAt m store.now place → IsKept m (reads m store.now place) k) }
{
    let _whole = store.mark();
    store.find_room(place)?;
    let kept = store.save(place)?;
    Ok(kept)
}
