//! The nodes of a term.
ghost use Rattle.std.specs.Prelude.{◌≡◌, ◌↔◌, IfOk, IsTrue};

use crate::memory::Memory;
use crate::text::Text;
use std::alloc::Global;

/// One node of a term that is kept in prefix order: a variable by its number, an integer, an atom, or the name
/// and the number of arguments of a compound term, whose arguments' nodes follow.
#[derive(Debug, Drop)]
pub enum Node {
    Var(u64),
    Int(i64),
    Atom(Text),
    Comp(Text, u64),
}

impl Node {
    /// A second node that is the same. The only error is out of memory.
    pub fn copy(&self, alloc: Global) -> Result<Node, Memory>
        ensures { IfOk result (λ n. n ≡ self.now) }
    {
        match self {
            Node::Var(x) => Ok(Node::Var(*x)),
            Node::Int(i) => Ok(Node::Int(*i)),
            Node::Atom(a) => Ok(Node::Atom(a.copy(alloc)?)),
            Node::Comp(f, k) => Ok(Node::Comp(f.copy(alloc)?, *k)),
        }
    }

    /// Whether both nodes are the same.
    pub fn same(&self, other: &Node) -> bool
        ensures { IsTrue result ↔ (self.now ≡ other.now) }
    {
        match (self, other) {
            (Node::Var(x), Node::Var(y)) => x == y,
            (Node::Int(i), Node::Int(j)) => i == j,
            (Node::Atom(a), Node::Atom(b)) => a.same(b),
            (Node::Comp(f, k), Node::Comp(g, l)) => k == l && f.same(g),
            _ => false,
        }
    }

    /// Whether the node is the variable with the number `x`.
    pub fn is_variable(&self, x: u64) -> bool
        ensures { IsTrue result ↔ (self.now ≡ Node.Var x) }
    {
        match self {
            Node::Var(y) => x == *y,
            _ => false,
        }
    }
}
