//! The parts of an atom that may have what is wanted, among those with as many characters before them.
ghost use Rattle.std.specs.Prelude.{◌≡◌, ◌≤◌, length, IfSome};
ghost use Rattle.atom_parts.specs.declared.columns.Wanted.TheVariants.{Is};
ghost use Rattle.atom_parts.specs.declared.columns.Value.TheVariants.{Number};
ghost use Rattle.atom_parts.specs.Parts.{IsSpot};
ghost use Rattle.atom_parts.specs.Skipping.{IsBetween, IsCandidate, IsLong, Narrows};

use crate::columns::{Value, Wanted, part};
use crate::parts::{Parts, Spot};

/// How many characters a part has to have: any number, but one, or there is none that would do.
#[derive(Clone, Copy, Drop)]
pub enum Sought {
    Any,
    Only(usize),
    Nothing,
}

/// The number that is wanted.
fn number_in(wanted: Wanted) -> Option<usize>
    ensures { IfSome result (λ n. wanted ≡ Is (Number n)) }
{
    match wanted {
        Wanted::Is(Value::Number(n)) => Some(n),
        _ => None,
    }
}

/// How many characters the part has that is wanted.
fn length_in(text: &[char], wanted: Wanted) -> Option<usize>
    ensures { IfSome result (IsLong text.now wanted) }
{
    match wanted {
        Wanted::Is(Value::Part(at, count)) => Some(part(text, at, count).len()),
        _ => None,
    }
}

/// How many characters a part with so many before it has to have, so that its line may have what is wanted.
fn length_sought(text: &[char], parts: Parts, before: usize) -> Sought
    requires { parts.length ≤ length text.now }
    ensures { Narrows text.now parts before result }
{
    if let Some(n) = number_in(parts.before) {
        if n != before {
            return Sought::Nothing;
        }
    }
    if let Some(n) = number_in(parts.count) {
        return Sought::Only(n);
    }
    if let Some(n) = length_in(text, parts.part) {
        return Sought::Only(n);
    }
    match number_in(parts.after) {
        Some(n) => length_before(parts.length, before, n),
        None => Sought::Any,
    }
}

/// How many characters a part has with so many before it and so many after it, of an atom with so many.
fn length_before(length: usize, before: usize, after: usize) -> Sought
    ensures { IsBetween length before after result }
{
    if before <= length && after <= length - before {
        Sought::Only(length - before - after)
    } else {
        Sought::Nothing
    }
}

/// The first part from one on, of those with as many characters before it, whose line may have what is wanted.
pub fn candidate(text: &[char], parts: Parts, from: Spot) -> Option<Spot>
    requires within { parts.length ≤ length text.now }
    requires from { IsSpot parts.length from }
    requires inside { from.before ≤ parts.length }
    ensures { IsCandidate text.now parts from result }
{
    match length_sought(text, parts, from.before) {
        Sought::Any => Some(from),
        Sought::Nothing => None,
        Sought::Only(n) => {
            if n < from.count {
                return None;
            }
            if parts.length - from.before < n {
                return None;
            }
            Some(Spot {
                first: from.first,
                before: from.before,
                count: n,
            })
        }
    }
}
