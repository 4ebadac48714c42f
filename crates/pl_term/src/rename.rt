//! Renamed copies of terms.
ghost use Rattle.std.specs.Prelude.{◌≡◌, ◌+◌, ◌^◌, ◌<◌, length, IfOk, OnOk};
ghost use Rattle.pl_term.specs.Variables.{place, variables, rename};
ghost use Rattle.pl_term.specs.NodeLists.{rename_node, met_with};

use crate::flat::Flat;
use crate::memory::Memory;
use crate::node::Node;
use crate::numbering::Numbering;
use std::alloc::Global;

impl Flat {
    /// A copy of the term whose variables are numbered from `from` on in the order in which they first occur
    /// (ISO 7.1.6.2), and the number after the last one. It asks that this number is below 2^64. The only error
    /// is out of memory.
    pub fn rename(&self, alloc: Global, from: u64) -> Result<(Flat, u64), Memory>
        requires { from + length (variables self.now) < 2 ^ 64 }
        ensures renamed { IfOk result (λ r. r.0 ≡ rename from self.now) }
        ensures free { IfOk result (λ r. r.1 ≡ from + length (variables self.now)) }
    {
        let mut met = Numbering::new(alloc);
        let mut all = Vec::new(alloc);
        for n in self.nodes() {
            all.push(renamed(alloc, n, from, &mut met)?)?;
        }
        let free = from + met.len();
        Ok((Flat::from_nodes(all), free))
    }

    /// The term's variables, each once, in the order in which they first occur (ISO Cor.2 8.5.5). The only error is
    /// Out of memory.
    pub fn variables(&self, alloc: Global) -> Result<Vec<u64>, Memory>
        ensures { IfOk result (λ v. v.items ≡ variables self.now) }
    {
        let mut met = Numbering::new(alloc);
        for n in self.nodes() {
            met.meet(n)?;
        }
        Ok(met.into_met())
    }
}

/// A copy of the node in which a variable has the number of its place after `from`.
fn renamed(alloc: Global, n: &Node, from: u64, met: &mut Numbering) -> Result<Node, Memory>
    requires { from + length (met_with n.now met.old) < 2 ^ 64 }
    ensures met { OnOk result (met.new ≡ met_with n.now met.old) }
    ensures renamed { IfOk result (λ m. m ≡ rename_node (λ x. from + place x met.new) n.now) }
{
    match n {
        Node::Var(x) => Ok(Node::Var(from + met.number(*x)?)),
        Node::Int(i) => Ok(Node::Int(*i)),
        Node::Atom(a) => Ok(Node::Atom(a.copy(alloc)?)),
        Node::Comp(f, k) => Ok(Node::Comp(f.copy(alloc)?, *k)),
    }
}
