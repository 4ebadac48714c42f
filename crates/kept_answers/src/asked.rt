//! What is asked of a procedure, compared and spread.
ghost use Rattle.std.specs.Prelude.{◌≡◌, true};

use term_store::ArgumentKey;
use world_api::{After, Asked, Procedure};

/// How many places there are for answers at first, and at most: powers of two.
pub(crate) const PLACES: usize = 128;

pub(crate) const MOST_PLACES: usize = 2048;

// Odd numbers by which a request's parts are multiplied, so that their lowest bits reach the highest ones.
const SPREAD: u64 = 0x9E37_79B9_7F4A_7C15;

const SPREAD_KEYS: u64 = 0xC2B2_AE3D_27D4_EB4F;

const SPREAD_PLACES: u64 = 0x1656_67B1_9E37_79F9;

// Whether the keys are the same.
#[inline]
fn same_key(key: &ArgumentKey, other: &ArgumentKey) -> bool
    ensures { result ≡ true → key.now ≡ other.now }
{
    match (key, other) {
        (ArgumentKey::Any, ArgumentKey::Any) => true,
        (ArgumentKey::Int(i), ArgumentKey::Int(j)) => *i == *j,
        (ArgumentKey::Atom(a), ArgumentKey::Atom(b)) => *a == *b,
        (ArgumentKey::Compound(f, k), ArgumentKey::Compound(g, l)) => *f == *g && *k == *l,
        _ => false,
    }
}

// Whether it is after the same clause.
#[inline]
fn same_after(after: &Option<After>, other: &Option<After>) -> bool
    ensures { result ≡ true → after.now ≡ other.now }
{
    match (after, other) {
        (None, None) => true,
        (Some(x), Some(y)) => x.generation == y.generation && x.place == y.place,
        _ => false,
    }
}

// Whether it is the same predicate.
#[inline]
fn same_procedure(procedure: &Procedure, other: &Procedure) -> bool
    ensures { result ≡ true → procedure.now ≡ other.now }
{
    procedure.name == other.name && procedure.arity == other.arity
}

/// Whether the same is asked.
#[inline]
pub(crate) fn is_same(asked: &Asked<ArgumentKey>, other: &Asked<ArgumentKey>) -> bool
    ensures { result ≡ true → asked.now ≡ other.now }
{
    same_procedure(&asked.procedure, &other.procedure)
        && same_key(&asked.first, &other.first)
        && same_after(&asked.after, &other.after)
}

// A number by which keys are spread.
#[inline]
fn key_number(key: &ArgumentKey) -> u64 {
    match key {
        ArgumentKey::Any => 0,
        ArgumentKey::Int(i) => (*i).unsigned_abs().wrapping_mul(4).wrapping_add(1),
        ArgumentKey::Atom(a) => (*a as u64).wrapping_mul(4).wrapping_add(2),
        ArgumentKey::Compound(f, k) => (*f as u64)
            .wrapping_add((*k as u64).wrapping_mul(SPREAD))
            .wrapping_mul(4)
            .wrapping_add(3),
    }
}

// A number by which the requests for next clauses are spread.
#[inline]
fn after_number(after: &Option<After>) -> u64 {
    match after {
        None => 0,
        Some(x) => x.place.wrapping_mul(2).wrapping_add(1),
    }
}

/// A number by which requests are told apart in haste: the same one for the same request, and mostly another one for another.
#[inline]
pub fn number_of(asked: &Asked<ArgumentKey>) -> u64 {
    let procedure = (asked.procedure.name.slot() as u64).wrapping_add(asked.procedure.arity << 32);
    procedure
        .wrapping_mul(SPREAD)
        .wrapping_add(key_number(&asked.first).wrapping_mul(SPREAD_KEYS))
        .wrapping_add(after_number(&asked.after).wrapping_mul(SPREAD_PLACES))
}

/// The place of the answer to a request with this number, of so many places.
#[inline]
pub(crate) fn place_of(number: u64, count: usize) -> usize {
    (number >> 40) as usize & count.wrapping_sub(1)
}
