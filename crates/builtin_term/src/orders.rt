//! Comparisons by what the standard order of two terms is (ISO 8.4.1), and the sign of that order (Cor.2 8.4.2).
ghost use Rattle.std.specs.Prelude.{◌≡◌};
ghost use Rattle.builtin_term.specs.Orders.{admits, orders_of, sign_number};

use atom_api::{Atom, fixed};
use builtin_rows::Comparison;
use std::cmp::Ordering;

/// For which orders of two terms a comparison is true.
#[derive(Clone, Copy, Debug, Drop)]
pub struct Orders {
    pub less: bool,
    pub equal: bool,
    pub greater: bool,
}

/// The orders for which a comparison is true.
pub fn orders_of(comparison: Comparison) -> Orders
    ensures { result ≡ orders_of comparison }
{
    match comparison {
        Comparison::Equal => admitting(false, true, false),
        Comparison::Different => admitting(true, false, true),
        Comparison::Less => admitting(true, false, false),
        Comparison::LessOrEqual => admitting(true, true, false),
        Comparison::Greater => admitting(false, false, true),
        Comparison::GreaterOrEqual => admitting(false, true, true),
    }
}

/// The orders less, equal and greater, as far as they are admitted.
fn admitting(less: bool, equal: bool, greater: bool) -> Orders
    ensures { result ≡ record { less = less; equal = equal; greater = greater } }
{
    Orders {
        less,
        equal,
        greater,
    }
}

/// Whether the order is one of these.
pub fn admits(orders: Orders, order: Ordering) -> bool
    ensures { result ≡ admits orders order }
{
    match order {
        Ordering::Less => orders.less,
        Ordering::Equal => orders.equal,
        Ordering::Greater => orders.greater,
    }
}

/// The atom that is the sign of an order: `<`, `=` or `>`.
pub fn sign_of(order: Ordering) -> Atom
    ensures { result ≡ sign_number order }
{
    match order {
        Ordering::Less => fixed::LESS,
        Ordering::Equal => fixed::EQUAL,
        Ordering::Greater => fixed::GREATER,
    }
}
