//! Comparison by the standard order (ISO 8.4, Cor.2 8.4.2).
ghost use Rattle.std.specs.Prelude.{◌≡◌, ◌<◌, ◌^◌, ℕ, [], IfOk, codes};
ghost use Rattle.pl_term.specs.Order.{order as order_of};
ghost use Rattle.pl_term.specs.Tree.{more, none};
ghost use Rattle.pl_model.specs.BuiltinRows as rows;
ghost use Rattle.pl_model.specs.History.{proc};
ghost use Rattle.pl_model.specs.TermBuiltins.{compares, three};
ghost use Rattle.builtin_rows.specs.Predicates.{name_of_terms};
ghost use Rattle.builtin_rows.specs.Given.{given};
ghost use Rattle.builtin_rows.specs.Rows.{IsRow, IsSingle, row_refusals};
ghost use Rattle.term_store.specs.Contents.{Holds};
ghost use Rattle.world_builtins.specs.Naming.{IsHeldAt};
ghost use Rattle.world_builtins.specs.Spelling.{reads};
ghost use Rattle.builtin_term.specs.TestRows.{Answers};

use crate::order::compare_places;
use crate::orders::{admits, orders_of, sign_of};
use crate::room::{answered, tested};
use crate::signs::{Sign, sign_at};
use atom_api::{Atoms, fixed};
use builtin_rows::{Comparison, Places, Row, refused_for};
use pl_term::Memory;
use std::alloc::Global;
use term_store::{Place, Store};

/// ==/2, \==/2, @</2, @=</2, @>/2 and @>=/2 (ISO 8.4.1). The only error is out of memory.
pub fn comparison<A: Atoms>(
    alloc: Global,
    store: &mut Store,
    comparison: Comparison,
    left: Place,
    right: Place,
    atoms: &mut A,
) -> Result<Row, Memory>
    requires left { Holds store.old left }
    requires right { Holds store.old right }
    requires left_held { IsHeldAt (A.held atoms.old) store.old left }
    requires right_held { IsHeldAt (A.held atoms.old) store.old right }
    ensures row { IfOk result (λ r. let m = A.held atoms.old in let t = reads m store.old left in let u = reads m store.old right in
        let ts = more t (more u none) in
        Answers store.old ts (rows.test_row (rows.comparison (name_of_terms comparison) (order_of t u)) ts) m store.new r) }
    ensures refuses { IfOk result (λ r. row_refusals r ≡ []) }
    ensures single { IfOk result IsSingle }
    ensures same { A.held atoms.new ≡ A.held atoms.old }
    ensures refusals { A.refusals atoms.new ≡ A.refusals atoms.old }
    ensures asked { A.asked atoms.new ≡ A.asked atoms.old }
{
    let order = compare_places(alloc, store, left, right, atoms)?;
    tested(store, admits(orders_of(comparison), order))
}

/// compare/3 (ISO Cor.2 8.4.2). Its first argument is a variable or one of `<`, `=` and `>`: for what is no atom it raises
/// type_error(atom, T), and for any other atom domain_error(order, T). The only error is out of memory.
pub fn compare<A: Atoms>(
    alloc: Global,
    store: &mut Store,
    order: Place,
    left: Place,
    right: Place,
    atoms: &mut A,
) -> Result<Row, Memory>
    requires order { Holds store.old order }
    requires left { Holds store.old left }
    requires right { Holds store.old right }
    requires order_held { IsHeldAt (A.held atoms.old) store.old order }
    requires left_held { IsHeldAt (A.held atoms.old) store.old left }
    requires right_held { IsHeldAt (A.held atoms.old) store.old right }
    ensures row { IfOk result (λ r. (next : ℕ) → next < 2 ^ 64 → let m = A.held atoms.old in let o = reads m store.old order in
        let t = reads m store.old left in let u = reads m store.old right in
        IsRow store.old next (three o t u) (given (proc (codes "compare") 3) (three o t u) next store.old.used store.old.budget (compares o t u)) m store.new r) }
    ensures refuses { IfOk result (λ r. row_refusals r ≡ []) }
    ensures single { IfOk result IsSingle }
    ensures same { A.held atoms.new ≡ A.held atoms.old }
    ensures refusals { A.refusals atoms.new ≡ A.refusals atoms.old }
    ensures asked { A.asked atoms.new ≡ A.asked atoms.old }
{
    match sign_at(store, order) {
        Sign::Fits => {
            let found = compare_places(alloc, store, left, right, atoms)?;
            let places = Places::Three(Place::atom(sign_of(found)), left, right);
            answered(store, places)
        }
        Sign::NoAtom => refused_for(
            store,
            fixed::TYPE_ERROR,
            fixed::ATOM,
            order,
            fixed::COMPARE,
            3,
        ),
        Sign::NoSign => refused_for(
            store,
            fixed::DOMAIN_ERROR,
            fixed::ORDER,
            order,
            fixed::COMPARE,
            3,
        ),
    }
}
