//! Errors of predicates (ISO 7.12.2).
ghost use Rattle.std.specs.Prelude.{◌≡◌, [], Some, IfOk, codes};
ghost use Rattle.pl_term.specs.Tree.{Chars, Trees};
ghost use Rattle.pl_model.specs.Balls.{instantiation_error, type_error, representation_error, syntax_error};
ghost use Rattle.pl_model.specs.ErrorTerms.{domain_error};
ghost use Rattle.pl_model.specs.BuiltinRows.{error};
ghost use Rattle.pl_model.specs.History.{proc};
ghost use Rattle.atom_api.specs.Fixed.{fixed};
ghost use Rattle.atom_api.specs.Names.{Names, FixedStand};
ghost use Rattle.term_store.specs.Contents.{Holds};
ghost use Rattle.world_builtins.specs.Naming.{IsHeldAt};
ghost use Rattle.world_builtins.specs.Spelling.{reads};
ghost use Rattle.builtin_rows.specs.Rows.{IsSingle, refusals_of};
ghost use Rattle.builtin_atom.specs.Answering.{IsRowOf};

use atom_api::{Atom, fixed};
use builtin_rows::{Row, raised, refused_for, refused_with};
use pl_term::Memory;
use term_store::{Place, Store};

/// A variable stands where none may stand: the instantiation error of the predicate with this name and so many
/// arguments. The only error is out of
/// memory.
pub fn unbound(store: &mut Store, name: Atom, arity: u32) -> Result<Row, Memory>
    ensures row { IfOk result (λ r. (m : Names) (p : Chars) (ts : Trees) → FixedStand m → fixed name ≡ Some p
        → IsRowOf store.old (proc p arity) ts (error instantiation_error) m store.new r) }
    ensures refusals { refusals_of result ≡ [] }
    ensures single { IfOk result IsSingle }
{
    raised(store, fixed::INSTANTIATION_ERROR, name, arity)
}

/// What stands at a place is not of this type: the type error. The only error is out of memory.
pub fn wrong_type(
    store: &mut Store,
    kind: Atom,
    culprit: Place,
    name: Atom,
    arity: u32,
) -> Result<Row, Memory>
    requires { Holds store.old culprit }
    ensures row { IfOk result (λ r. (m : Names) (k p : Chars) (ts : Trees) → FixedStand m → IsHeldAt m store.old culprit → fixed kind ≡ Some k
        → fixed name ≡ Some p → IsRowOf store.old (proc p arity) ts (error (type_error k (reads m store.old culprit))) m store.new r) }
    ensures refusals { refusals_of result ≡ [] }
    ensures single { IfOk result IsSingle }
{
    refused_for(store, fixed::TYPE_ERROR, kind, culprit, name, arity)
}

/// The integer at a place is below zero: the domain error. The only error is out of memory.
pub fn below_zero(store: &mut Store, culprit: Place, name: Atom, arity: u32) -> Result<Row, Memory>
    requires { Holds store.old culprit }
    ensures row { IfOk result (λ r. (m : Names) (p : Chars) (ts : Trees) → FixedStand m → IsHeldAt m store.old culprit → fixed name ≡ Some p
        → IsRowOf store.old (proc p arity) ts (error (domain_error (codes "not_less_than_zero") (reads m store.old culprit))) m store.new r) }
    ensures refusals { refusals_of result ≡ [] }
    ensures single { IfOk result IsSingle }
{
    let kind = fixed::NOT_LESS_THAN_ZERO;
    refused_for(store, fixed::DOMAIN_ERROR, kind, culprit, name, arity)
}

/// A limit is passed: the representation error. The only error is out of memory.
pub fn past_limit(store: &mut Store, limit: Atom, name: Atom, arity: u32) -> Result<Row, Memory>
    ensures row { IfOk result (λ r. (m : Names) (k p : Chars) (ts : Trees) → FixedStand m → fixed limit ≡ Some k → fixed name ≡ Some p
        → IsRowOf store.old (proc p arity) ts (error (representation_error k)) m store.new r) }
    ensures refusals { refusals_of result ≡ [] }
    ensures single { IfOk result IsSingle }
{
    refused_with(store, fixed::REPRESENTATION_ERROR, limit, name, arity)
}

/// A list spells no term: the syntax error. The only error is out of memory.
pub fn bad_syntax(store: &mut Store, fault: Atom, name: Atom, arity: u32) -> Result<Row, Memory>
    ensures row { IfOk result (λ r. (m : Names) (k p : Chars) (ts : Trees) → FixedStand m → fixed fault ≡ Some k → fixed name ≡ Some p
        → IsRowOf store.old (proc p arity) ts (error (syntax_error k)) m store.new r) }
    ensures refusals { refusals_of result ≡ [] }
    ensures single { IfOk result IsSingle }
{
    refused_with(store, fixed::SYNTAX_ERROR, fault, name, arity)
}
