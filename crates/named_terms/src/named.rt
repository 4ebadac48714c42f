//! A term over texts, each of which stands once.
ghost use Rattle.std.specs.Prelude.{◌≡◌, ◌<◌, length, get_or, IfOk};
ghost use Rattle.std.specs.List.{All};
ghost use Rattle.pl_term.specs.Nodes.{nodes};
ghost use Rattle.pl_term.specs.Tree.{Tree};
ghost use Rattle.named_terms.specs.NamedNodes.{IsNodeNamed, nodes_by};

use crate::node::NumberedNode;
use pl_term::{Flat, Memory, Node, Text};
use std::alloc::Global;
use std::marker::Model;
use std::sync::Arc;

/// The nodes of a term in prefix order, and the texts of their names.
#[derive(Debug, Drop)]
struct Parts {
    nodes: Vec<NumberedNode>,
    names: Vec<Text>,
}

/// A term over texts, seen by contracts as that term. It is kept as its nodes in prefix order, each of which takes 16 bytes, and the
/// texts of its names. It never changes, and many may hold the one term.
#[derive(Debug, Drop)]
pub struct NamedTerm {
    parts: Arc<Parts>,
}

impl Model for NamedTerm {
    ghost use Rattle.std.specs.Prelude.{◌≡◌, length};
    ghost use Rattle.std.specs.Arc.{arc_value};
    ghost use Rattle.std.specs.List.{All};
    ghost use Rattle.pl_term.specs.Tree.{Tree};
    ghost use Rattle.pl_term.specs.Nodes.{nodes, tree, coded_tree};
    ghost use Rattle.named_terms.specs.NamedNodes.{IsNodeNamed, nodes_by};

    ghost Value = { Tree };

    ghost coded = { coded_tree };

    ghost view = { λ t. tree (nodes_by (arc_value t.parts).names.items (arc_value t.parts).nodes.items) };

    ghost invariant = { λ t. (nodes (tree (nodes_by (arc_value t.parts).names.items (arc_value t.parts).nodes.items)) ≡ nodes_by (arc_value t.parts).names.items (arc_value t.parts).nodes.items)
        × All (IsNodeNamed (length (arc_value t.parts).names.items)) (arc_value t.parts).nodes.items };
}

impl NamedTerm {
    /// The term that these nodes spell in prefix order, their names at their places in `names`. The only error is out of memory.
    pub fn from_parts(
        alloc: Global,
        all: Vec<NumberedNode>,
        names: Vec<Text>,
    ) -> Result<NamedTerm, Memory>
        requires spelled { (t : Tree) × (nodes_by names.items all.items ≡ nodes t) }
        requires named { All (IsNodeNamed (length names.items)) all.items }
        ensures { IfOk result (λ n. nodes n ≡ nodes_by names.items all.items) }
    {
        let parts = Arc::new(alloc, Parts { nodes: all, names })?;
        Ok(NamedTerm { parts })
    }

    /// The term that a term over texts is. The only error is out of memory.
    pub fn from_flat(alloc: Global, term: &Flat) -> Result<NamedTerm, Memory>
        ensures { IfOk result (λ n. n ≡ term.now) }
    {
        let mut all = Vec::new(alloc);
        let mut names = Vec::new(alloc);
        let own = term.nodes();
        for node in own {
            let next = NumberedNode::behind(alloc, node, &mut names)?;
            all.push(next)?;
        }
        NamedTerm::from_parts(alloc, all, names)
    }

    /// The same term for another holder. Nothing of it is copied. The only error is that so many hold it that they can no longer be
    /// counted.
    pub fn share(&self) -> Result<NamedTerm, Memory>
        ensures { IfOk result (λ n. n ≡ self.now) }
    {
        let parts = self.parts.clone()?;
        Ok(NamedTerm { parts })
    }

    /// How many nodes the term has.
    pub fn len(&self) -> usize
        ensures { result ≡ length (nodes self.now) }
    {
        let parts: &Parts = &self.parts;
        parts.nodes.len()
    }

    /// The node at this place of the term's nodes in prefix order. The only error is out of memory.
    pub fn node(&self, alloc: Global, at: usize) -> Result<Node, Memory>
        requires { at < length (nodes self.now) }
        ensures { IfOk result (λ n. n ≡ get_or (nodes self.now) at n) }
    {
        let parts: &Parts = &self.parts;
        parts.nodes[at].over(alloc, &parts.names)
    }
}
