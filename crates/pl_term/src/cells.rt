//! What a term costs where it is stored.
ghost use Rattle.std.specs.Prelude.{◌≡◌, ◌+◌, ◌^◌, ◌<◌, ◌↔◌, IsTrue, length};
ghost use Rattle.pl_term.specs.Cells.{cells};
ghost use Rattle.pl_term.specs.Variables.{has, is_in, variables};
ghost use Rattle.pl_term.specs.NodeLists.{node_cells, variables_of, added_cells, added_variables};

use crate::flat::Flat;
use crate::node::Node;

impl Flat {
    /// The number of cells of the term: n + 1 for each compound term of n arguments in it, and one for each of its
    /// variables, however often it occurs. It takes no memory, and so its time grows with the number of nodes
    /// times the number of variables.
    pub fn cells(&self) -> u64
        ensures { result ≡ cells self.now }
    {
        let nodes = self.nodes();
        let mut sum: u64 = 0;
        for (i, n) in nodes.iter().enumerate() {
            sum += cells_added(n, &nodes[..i]);
        }
        sum
    }

    /// How many variables the term has, each counted once. It takes no memory, and so its time grows with the number
    /// of nodes times the number of variables.
    pub fn variable_count(&self) -> u64
        ensures count { result ≡ length (variables self.now) }
        ensures bound { result < 2 ^ 63 }
    {
        let nodes = self.nodes();
        let mut count: u64 = 0;
        for (i, n) in nodes.iter().enumerate() {
            count += variables_added(n, &nodes[..i]);
        }
        count
    }

    /// Whether the variable with the number `x` occurs in the term.
    pub fn has(&self, x: u64) -> bool
        ensures { IsTrue result ↔ IsTrue (has x self.now) }
    {
        occurs(x, self.nodes())
    }
}

/// One for a variable that is not among the nodes before it, else nothing.
fn variables_added(n: &Node, before: &[Node]) -> u64
    ensures { result ≡ added_variables n.now before.now }
{
    match n {
        Node::Var(x) => { if occurs(*x, before) { 0 } else { 1 } }
        _ => 0,
    }
}

/// The cells that a node adds to those of the nodes before it.
fn cells_added(n: &Node, before: &[Node]) -> u64
    requires { node_cells n.now < 2 ^ 64 }
    ensures { result ≡ added_cells n.now before.now }
{
    match n {
        Node::Var(x) => { if occurs(*x, before) { 0 } else { 1 } }
        Node::Int(_) => 0,
        Node::Atom(_) => 0,
        Node::Comp(_, k) => *k + 1,
    }
}

/// Whether the variable is among these nodes.
fn occurs(x: u64, nodes: &[Node]) -> bool
    ensures { result ≡ is_in x (variables_of nodes.now) }
{
    for n in nodes {
        if n.is_variable(x) {
            return true;
        }
    }
    false
}
