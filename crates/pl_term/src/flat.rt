//! Flat terms: a term as the vector of its nodes in prefix order.
ghost use Rattle.std.specs.Prelude.{◌≡◌, ◌<◌, ◌++◌, ◌↔◌, IfOk, IsTrue, OnOk, length};
ghost use Rattle.pl_term.specs.Tree.{Tree, var, int, atom, compound};
ghost use Rattle.pl_term.specs.Nodes.{nodes};

use crate::memory::Memory;
use crate::node::Node;
use crate::text::Text;
use std::alloc::Global;
use std::marker::Model;

/// A term, seen by contracts as a tree. It is kept as the vector of its nodes in prefix order, so that no walk,
/// copy or drop recurses on its depth.
#[derive(Debug, Drop)]
pub struct Flat {
    all: Vec<Node>,
}

impl Model for Flat {
    ghost use Rattle.std.specs.Prelude.{◌≡◌};
    ghost use Rattle.pl_term.specs.Tree.{Tree};
    ghost use Rattle.pl_term.specs.Nodes.{nodes, tree, coded_tree};

    ghost Value = { Tree };

    ghost coded = { coded_tree };

    ghost view = { λ f. tree f.all.items };

    ghost invariant = { λ f. nodes (tree f.all.items) ≡ f.all.items };
}

impl Flat {
    /// The term's nodes in prefix order.
    pub fn nodes(&self) -> &[Node]
        ensures { result.now ≡ nodes self.now }
    {
        self.all.as_slice()
    }

    /// The term that these nodes spell in prefix order. They have to be the nodes of one term.
    pub fn from_nodes(all: Vec<Node>) -> Flat
        requires { (t : Tree) × (all.items ≡ nodes t) }
        ensures { nodes result ≡ all.items }
    {
        Flat { all }
    }

    /// The variable with the number `n`. The only error is out of memory.
    pub fn var(alloc: Global, n: u64) -> Result<Flat, Memory>
        ensures { IfOk result (λ t. t ≡ var n) }
    {
        let all = vec![in alloc; Node::Var(n)]?;
        Ok(Flat { all })
    }

    /// The integer `i`. The only error is out of memory.
    pub fn int(alloc: Global, i: i64) -> Result<Flat, Memory>
        ensures { IfOk result (λ t. t ≡ int i) }
    {
        let all = vec![in alloc; Node::Int(i)]?;
        Ok(Flat { all })
    }

    /// The atom with this text. The only error is out of memory.
    pub fn atom(alloc: Global, name: &Text) -> Result<Flat, Memory>
        ensures { IfOk result (λ t. t ≡ atom name.now) }
    {
        let all = vec![in alloc; Node::Atom(name.copy(alloc)?)]?;
        Ok(Flat { all })
    }

    /// The compound term with this name and these arguments, of which there is at least one. The only error is
    /// Out of memory.
    pub fn comp(alloc: Global, name: &Text, args: &[Flat]) -> Result<Flat, Memory>
        requires { 0 < length args.now }
        ensures { IfOk result (λ t. t ≡ compound name.now args.now) }
    {
        let mut all = vec![in alloc; Node::Comp(name.copy(alloc)?, args.len() as u64)]?;
        for a in args {
            append(alloc, &mut all, a.nodes())?;
        }
        Ok(Flat { all })
    }

    /// A second term that is the same. The only error is out of memory.
    pub fn copy(&self, alloc: Global) -> Result<Flat, Memory>
        ensures { IfOk result (λ t. t ≡ self.now) }
    {
        let mut all = Vec::new(alloc);
        append(alloc, &mut all, self.nodes())?;
        Ok(Flat { all })
    }

    /// Whether both terms are the same, their variables' numbers too.
    pub fn same(&self, other: &Flat) -> bool
        ensures { IsTrue result ↔ (self.now ≡ other.now) }
    {
        same_nodes(self.nodes(), other.nodes())
    }
}

/// Puts copies of these nodes at the end of `all`. After running out of memory, `all` has got some of them.
fn append(alloc: Global, all: &mut Vec<Node>, more: &[Node]) -> Result<(), Memory>
    ensures { OnOk result (all.new.items ≡ all.old.items ++ more.now) }
{
    for n in more {
        all.push(n.copy(alloc)?)?;
    }
    Ok(())
}

/// Whether both lists have the same nodes.
fn same_nodes(left: &[Node], right: &[Node]) -> bool
    ensures { IsTrue result ↔ (left.now ≡ right.now) }
{
    if left.len() != right.len() {
        return false;
    }
    for i in 0..left.len() {
        if !left[i].same(&right[i]) {
            return false;
        }
    }
    true
}
