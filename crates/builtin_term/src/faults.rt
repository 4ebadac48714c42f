//! Why the arguments of a predicate are refused (ISO/IEC 13211-1:1995, 7.12.2).
ghost use Rattle.std.specs.Prelude.{◌≡◌, ℕ, Some, IfOk, if◌then◌else◌, []};
ghost use Rattle.pl_term.specs.Tree.{Chars};
ghost use Rattle.pl_model.specs.BuiltinRows.{error};
ghost use Rattle.pl_model.specs.History.{proc};
ghost use Rattle.pl_model.specs.Terms.{is_variable};
ghost use Rattle.atom_api.specs.Fixed.{fixed};
ghost use Rattle.atom_api.specs.Names.{Names, FixedStand};
ghost use Rattle.term_store.specs.Contents.{Holds, term_at};
ghost use Rattle.builtin_rows.specs.Rows.{IsSingle, row_refusals};
ghost use Rattle.builtin_term.specs.Faults.{IsFaultHeld, IsFaultIn, fault_term, kind_text};
ghost use Rattle.builtin_term.specs.Giving.{IsGiven};

use atom_api::{Atom, fixed};
use builtin_rows::{Row, raised, refused_for};
use pl_term::Memory;
use term_store::{Place, Store, View};

/// The kinds of terms that type errors name.
#[derive(Clone, Copy, Debug, Drop)]
pub enum Kind {
    Atom,
    Atomic,
    Compound,
    Integer,
    List,
}

/// Why the arguments of a predicate are refused.
#[derive(Clone, Copy, Debug, Drop)]
pub enum Fault {
    /// A variable stands where another term is wanted: an instantiation error.
    Unbound,
    /// What stands at the place is of another kind: a type error.
    Mistyped(Kind, Place),
    /// A negative integer stands at the place: a domain error.
    Negative(Place),
    /// The list has no element: a domain error.
    EmptyList,
}

impl Kind {
    /// The name of the kind.
    fn name(self) -> Atom
        ensures { fixed result ≡ Some (kind_text self) }
    {
        match self {
            Kind::Atom => fixed::ATOM,
            Kind::Atomic => fixed::ATOMIC,
            Kind::Compound => fixed::COMPOUND,
            Kind::Integer => fixed::INTEGER,
            Kind::List => fixed::LIST,
        }
    }
}

/// The predicate with this name and so many arguments raises the error. The only error of the call is out of memory.
pub fn raise(store: &mut Store, fault: Fault, name: Atom, arity: u32) -> Result<Row, Memory>
    requires { IsFaultIn store.old fault }
    ensures row { IfOk result (λ r. (m : Names) (p : Chars) (next : ℕ) → FixedStand m → IsFaultHeld m store.old fault → fixed name ≡ Some p
        → IsGiven store.old next (proc p arity) (error (fault_term m store.old fault)) m store.new r) }
    ensures refuses { IfOk result (λ r. row_refusals r ≡ []) }
    ensures single { IfOk result IsSingle }
{
    match fault {
        Fault::Unbound => raised(store, fixed::INSTANTIATION_ERROR, name, arity),
        Fault::Mistyped(kind, place) => {
            refused_for(store, fixed::TYPE_ERROR, kind.name(), place, name, arity)
        }
        Fault::Negative(place) => refused_for(
            store,
            fixed::DOMAIN_ERROR,
            fixed::NOT_LESS_THAN_ZERO,
            place,
            name,
            arity,
        ),
        Fault::EmptyList => refused_for(
            store,
            fixed::DOMAIN_ERROR,
            fixed::NON_EMPTY_LIST,
            Place::atom(fixed::NIL),
            name,
            arity,
        ),
    }
}

/// The error of a variable where one stands at the place, else the other error.
pub fn unbound_or(store: &Store, place: Place, fault: Fault) -> Fault
    requires { Holds store.now place }
    ensures { result ≡ (if is_variable (term_at store.now place) then Fault.Unbound else fault) }
{
    match store.look(place) {
        View::Variable(_) => Fault::Unbound,
        View::Integer(_) => fault,
        View::Atom(_) => fault,
        View::Compound(_, _) => fault,
    }
}
