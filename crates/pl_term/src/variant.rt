//! Variants of a term.
ghost use Rattle.std.specs.Prelude.{◌≡◌, ◌↔◌, IfOk, IsTrue};
ghost use Rattle.pl_term.specs.Variant.{IsVariant};
ghost use Rattle.pl_term.specs.NodeLists.{met_with, numbered_node};

use crate::flat::Flat;
use crate::memory::Memory;
use crate::node::Node;
use crate::numbering::Numbering;
use std::alloc::Global;

impl Flat {
    /// Whether the terms are the same up to the names of their variables (ISO 7.1.6.1). The only error is out of
    /// memory.
    pub fn variant(&self, alloc: Global, other: &Flat) -> Result<bool, Memory>
        ensures { IfOk result (λ b. IsTrue b ↔ IsVariant self.now other.now) }
    {
        let (left, right) = (self.nodes(), other.nodes());
        if left.len() != right.len() {
            return Ok(false);
        }
        let mut here = Numbering::new(alloc);
        let mut there = Numbering::new(alloc);
        for i in 0..left.len() {
            if !alike(&left[i], &right[i], &mut here, &mut there)? {
                return Ok(false);
            }
        }
        Ok(true)
    }
}

/// Whether two nodes are the same where a variable goes by its place among those met on its side. Where they are,
/// both have met their variable.
fn alike(
    left: &Node,
    right: &Node,
    here: &mut Numbering,
    there: &mut Numbering,
) -> Result<bool, Memory>
    ensures here { IfOk result (λ b. IsTrue b → here.new ≡ met_with left.now here.old) }
    ensures there { IfOk result (λ b. IsTrue b → there.new ≡ met_with right.now there.old) }
    ensures alike { IfOk result (λ b. IsTrue b
        ↔ (numbered_node left.now (met_with left.now here.old) ≡ numbered_node right.now (met_with right.now there.old))) }
{
    match (left, right) {
        (Node::Var(x), Node::Var(y)) => Ok(here.number(*x)? == there.number(*y)?),
        _ => Ok(left.same(right)),
    }
}
