//! One operator.
ghost use Rattle.std.specs.Prelude.{◌≡◌, IfOk};
ghost use Rattle.pl_model.specs.OperatorTable.{place_of, place_rank, key_order};
ghost use Rattle.op_table.specs.Entries.{key_of};

use pl_model::operators::{Kind, Place};
use pl_term::{Memory, Text};
use std::alloc::Global;
use std::cmp::Ordering;

/// An operator: its name, its priority and its specifier.
#[derive(Debug, Drop)]
pub struct Operator {
    pub name: Text,
    /// From 1 to 1200.
    pub priority: u16,
    pub kind: Kind,
}

impl Operator {
    /// A second operator that is the same. The only error is out of memory.
    pub fn copy(&self, alloc: Global) -> Result<Operator, Memory>
        ensures { IfOk result (λ o. o ≡ self.now) }
    {
        let name = self.name.copy(alloc)?;
        Ok(Operator {
            name,
            priority: self.priority,
            kind: self.kind,
        })
    }
}

/// The place where an operator with this specifier stands.
pub fn place_of(kind: Kind) -> Place
    ensures { result ≡ place_of kind }
{
    match kind {
        Kind::Xfx => Place::Infix,
        Kind::Xfy => Place::Infix,
        Kind::Yfx => Place::Infix,
        Kind::Fy => Place::Prefix,
        Kind::Fx => Place::Prefix,
        Kind::Xf => Place::Postfix,
        Kind::Yf => Place::Postfix,
    }
}

/// The rank of a place in the order of the table.
fn place_rank(place: Place) -> u8
    ensures { result ≡ place_rank place }
{
    match place {
        Place::Prefix => 0,
        Place::Infix => 1,
        Place::Postfix => 2,
    }
}

/// The order of a name at a place and an operator: by the names, then by the places.
pub fn order(name: &Text, place: Place, operator: &Operator) -> Ordering
    ensures { result ≡ key_order (name.now, place) (key_of operator.now) }
{
    let here = place_rank(place);
    let there = place_rank(place_of(operator.kind));
    name.compare(&operator.name).then(here.cmp(&there))
}

/// The same operators a second time. The only error is out of memory.
pub fn copies(alloc: Global, operators: &[Operator]) -> Result<Vec<Operator>, Memory>
    ensures { IfOk result (λ os. os.items ≡ operators.now) }
{
    let mut all = Vec::new(alloc);
    for operator in operators {
        all.push(operator.copy(alloc)?)?;
    }
    Ok(all)
}
