//! (=..)/2 (ISO/IEC 13211-1:1995, 8.5.3).
ghost use Rattle.std.specs.Prelude.{◌≡◌, [], ◌∷◌, map, codes, IfOk};
ghost use Rattle.std.specs.List.{All};
ghost use Rattle.pl_term.specs.Tree.{atom};
ghost use Rattle.pl_model.specs.History.{proc};
ghost use Rattle.pl_model.specs.TermBuiltins.{univ};
ghost use Rattle.atom_api.specs.Names.{Names};
ghost use Rattle.builtin_rows.specs.Rows.{IsSingle, row_refusals};
ghost use Rattle.term_store.specs.Heap.{atom_name};
ghost use Rattle.term_store.specs.Contents.{Holds, IsArguments, arguments_at, term_at};
ghost use Rattle.world_builtins.specs.Naming.{IsHeldAt};
ghost use Rattle.world_builtins.specs.Spelling.{reads};
ghost use Rattle.builtin_rows.specs.Lists.{IsNaming};
ghost use Rattle.builtin_term.specs.Giving.{IsGiven};

use crate::composition::compose;
use crate::lists::list_answer;
use atom_api::{Atom, fixed};
use builtin_rows::Row;
use pl_term::Memory;
use std::alloc::Global;
use term_store::{Arguments, Place, Store, View};

/// (=..)/2 (ISO/IEC 13211-1:1995, 8.5.3): the list of the name and the arguments of a compound term, or of an integer or atom
/// alone; where the term is a variable, the term of this list. Then a partial list, and a variable as its first element, give
/// an instantiation error; what is no list, a compound first element of a list of one, and a first element of a longer list that
/// is no atom, a type error; the empty list a domain error. Where the cells do not fit the row says so. The only error of the
/// call is out of memory, after which nothing is said of the store.
pub fn univ(
    alloc: Global,
    store: &mut Store,
    term: Place,
    list: Place,
    next: u64,
) -> Result<Row, Memory>
    requires term { Holds store.old term }
    requires list { Holds store.old list }
    ensures row { IfOk result (λ r. (m : Names) → IsNaming m → IsHeldAt m store.old term → IsHeldAt m store.old list
        → IsGiven store.old next (proc (codes "=..") 2) (univ (reads m store.old term) (reads m store.old list)) m store.new r) }
    ensures refuses { IfOk result (λ r. row_refusals r ≡ []) }
    ensures single { IfOk result IsSingle }
{
    match store.look(term) {
        View::Variable(_) => compose(alloc, store, list, next),
        View::Integer(_) => list_answer(store, term, &[term], next, fixed::UNIV),
        View::Atom(_) => list_answer(store, term, &[term], next, fixed::UNIV),
        View::Compound(name, arguments) => {
            let parts = parts_at(alloc, store, name, arguments)?;
            list_answer(store, term, &parts, next, fixed::UNIV)
        }
    }
}

/// The name of a compound term, then its arguments. The only error is out of memory.
fn parts_at(
    alloc: Global,
    store: &Store,
    name: Atom,
    arguments: Arguments,
) -> Result<Vec<Place>, Memory>
    requires { IsArguments store.now arguments }
    ensures inside { IfOk result (λ v. All (Holds store.now) v.items) }
    ensures terms { IfOk result (λ v. map (term_at store.now) v.items ≡ atom (atom_name name) ∷ arguments_at store.now arguments) }
{
    let mut parts = vec![in alloc; Place::atom(name)]?;
    for i in 0..arguments.len() {
        parts.push(store.argument(arguments, i))?;
    }
    Ok(parts)
}
