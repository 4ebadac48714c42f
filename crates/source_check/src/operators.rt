//! Operators that are put into the table (op/3, ISO 8.14.3).
ghost use Rattle.std.specs.Prelude.{◌≡◌, false, OnOk};
ghost use Rattle.std.specs.List.{list_any};
ghost use Rattle.pl_model.specs.OperatorTable as definitions;
ghost use Rattle.pl_model.specs.SharedState.{with_operators};
ghost use Rattle.source_check.specs.Listings.{operators_of};
ghost use Rattle.source_check.specs.Checkers.{refuses};

use crate::spelled::is_spelled;
use op_table::{OpFault, OpTable};
use pl_model::operators::Kind;
use pl_term::{Memory, Text};

/// The highest priority of an operator (ISO 6.3.4.2).
const HIGHEST_PRIORITY: u16 = 1200;

/// Whether the table refuses one of these operators as it stands.
pub fn is_any_refused(table: &OpTable, priority: u16, kind: Kind, names: &[Text]) -> bool
    ensures { result ≡ list_any (refuses table.now priority kind) names.now }
{
    names
        .iter()
        .any(|name| is_refused(table, priority, kind, name))
}

/// Whether the table refuses an operator of this priority, this kind and this name (ISO 8.14.3.3).
fn is_refused(table: &OpTable, priority: u16, kind: Kind, name: &Text) -> bool
    ensures { result ≡ refuses table.now priority kind name.now }
{
    if priority > HIGHEST_PRIORITY {
        return true;
    }
    if is_spelled(name, ",") {
        return true;
    }
    if is_reserved(name) {
        return true;
    }
    if priority == 0 {
        return false;
    }
    stands_beside(table, name, kind)
}

/// Whether a name is one of `.`, `|`, `[]` and `{}`.
fn is_reserved(name: &Text) -> bool
    ensures { result ≡ definitions.is_reserved name.now }
{
    if is_spelled(name, ".") {
        return true;
    }
    if is_spelled(name, "|") {
        return true;
    }
    if is_spelled(name, "[]") {
        return true;
    }
    is_spelled(name, "{}")
}

/// Whether a name is an infix operator where it is to be a postfix one, or the other way round.
fn stands_beside(table: &OpTable, name: &Text, kind: Kind) -> bool
    ensures { result ≡ definitions.stands_beside table.now name.now (definitions.place_of kind) }
{
    match kind {
        Kind::Fx => false,
        Kind::Fy => false,
        Kind::Xf => table.infix(name).is_some(),
        Kind::Yf => table.infix(name).is_some(),
        Kind::Xfx => table.postfix(name).is_some(),
        Kind::Xfy => table.postfix(name).is_some(),
        Kind::Yfx => table.postfix(name).is_some(),
    }
}

/// Puts operators of these names into the table, which refuses none of them. The only error is out of memory.
pub fn put_operators(
    table: &mut OpTable,
    priority: u16,
    kind: Kind,
    names: &[Text],
) -> Result<(), Memory>
    requires { list_any (refuses table.old priority kind) names.now ≡ false }
    ensures { OnOk result (table.new ≡ with_operators (operators_of priority kind names.now) table.old) }
{
    for name in names {
        match table.add(priority, kind, name) {
            Ok(()) => {}
            Err(OpFault::Memory) => return Err(Memory),
            Err(_) => unreachable!(),
        }
    }
    Ok(())
}
