//! A search among operators in order.
ghost use Rattle.op_table.specs.Entries.{InOrder, entries_of};
ghost use Rattle.op_table.specs.Searching.{Searched};

use crate::operator::{Operator, order};
use pl_model::operators::Place;
use pl_term::Text;
use std::cmp::Ordering;

/// The place of the operator of this name and place among operators in order, or as an error the place where it
/// would stand.
pub fn search(operators: &[Operator], name: &Text, place: Place) -> Result<usize, usize>
    requires { InOrder operators.now }
    ensures { Searched (name.now, place) (entries_of operators.now) result }
{
    let mut low = 0;
    let mut high = operators.len();
    while low < high {
        let middle = low + (high - low) / 2;
        match order(name, place, &operators[middle]) {
            Ordering::Less => high = middle,
            Ordering::Equal => return Ok(middle),
            Ordering::Greater => low = middle + 1,
        }
    }
    Err(low)
}
