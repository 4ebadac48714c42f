//! The standard order of terms.
ghost use Rattle.std.specs.Prelude.{◌≡◌};
ghost use Rattle.std.specs.Cmp.Lexicographic.{slice_cmp};
ghost use Rattle.pl_term.specs.Order.{order};
ghost use Rattle.pl_term.specs.NodeLists.{node_order, node_rank};

use crate::flat::Flat;
use crate::node::Node;
use std::cmp::Ordering;

impl Node {
    /// The standard order of what two nodes say by themselves: variables by number, integers, atoms by text,
    /// and compound terms by the number of their arguments, then by name.
    pub fn compare(&self, other: &Node) -> Ordering
        ensures { result ≡ node_order self.now other.now }
    {
        match (self, other) {
            (Node::Var(x), Node::Var(y)) => x.cmp(y),
            (Node::Int(i), Node::Int(j)) => i.cmp(j),
            (Node::Atom(a), Node::Atom(b)) => a.compare(b),
            (Node::Comp(f, k), Node::Comp(g, l)) => k.cmp(l).then(f.compare(g)),
            _ => self.rank().cmp(&other.rank()),
        }
    }

    /// The place of the node's kind in the standard order.
    fn rank(&self) -> u8
        ensures { result ≡ node_rank self.now }
    {
        match self {
            Node::Var(_) => 0,
            Node::Int(_) => 1,
            Node::Atom(_) => 2,
            Node::Comp(_, _) => 3,
        }
    }
}

impl Flat {
    /// The standard order of two terms (ISO 7.2): variables by number, then integers, then atoms by the codes of
    /// their characters, then compound terms by the number of their arguments, by name, and by their arguments
    /// from left to right.
    pub fn compare(&self, other: &Flat) -> Ordering
        ensures { result ≡ order self.now other.now }
    {
        compare_nodes(self.nodes(), other.nodes())
    }
}

/// The order of two lists of nodes by the first place at which they differ.
fn compare_nodes(left: &[Node], right: &[Node]) -> Ordering
    ensures { result ≡ slice_cmp node_order left.now right.now }
{
    let shared = left.len().min(right.len());
    for i in 0..shared {
        let order = left[i].compare(&right[i]);
        if order.is_ne() {
            return order;
        }
    }
    left.len().cmp(&right.len())
}
