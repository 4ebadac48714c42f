//! Stored terms as clauses and messages that are kept.
ghost use Rattle.std.specs.Prelude.{◌≡◌, ◌<◌, IfOk, length, map, slice_index_or};
ghost use Rattle.pl_term.specs.Nodes.{nodes};
ghost use Rattle.pl_term.specs.declared.node.Node.{Node};
ghost use Rattle.term_store.specs.ArgumentKeys.{first_key, head_nodes, node_key};
ghost use Rattle.term_store.specs.Nodes.{node_view, node_views};

use crate::argument_key::ArgumentKey;
use crate::block::head_node;
use crate::nodes::{AtomNode, is_rule};
use crate::store::Store;
use crate::stored::Stored;
use pl_model::kept::Kept;
use pl_term::Memory;
use std::alloc::Global;

/// A stored term is a clause or a message that is kept.
impl Kept for Stored {
    ghost use Rattle.term_store.specs.ArgumentKeys.{clause_key, is_any};
    ghost use Rattle.term_store.specs.NumberedNames.{clause_size, term_by, unify_by_number};
    ghost use Rattle.term_store.specs.KeptLaws.{keys_are_told, sizes_are_told, terms_are_told};

    type Key = ArgumentKey;

    ghost term = { term_by };

    ghost key_of = { clause_key };

    ghost any = { is_any };

    ghost size = { clause_size };

    ghost unified = { unify_by_number };

    ghost keys_tell = { keys_are_told };

    ghost sizes_tell = { sizes_are_told };

    ghost terms_tell = { terms_are_told };

    fn key(&self, _alloc: Global) -> Result<ArgumentKey, Memory> {
        Ok(first_argument(head(self.nodes())))
    }

    fn is_any(key: &ArgumentKey) -> bool {
        match key {
            ArgumentKey::Any => true,
            ArgumentKey::Int(_) => false,
            ArgumentKey::Atom(_) => false,
            ArgumentKey::Compound(_, _) => false,
        }
    }

    fn cells(&self) -> u64 {
        if self.is_rule() {
            self.cells() - 3
        } else {
            self.cells()
        }
    }

    fn unifies(&self, alloc: Global, other: &Stored) -> Result<bool, Memory> {
        let count = self.variables();
        let Some(_all) = count.checked_add(other.variables()) else {
            return Err(Memory);
        };
        let _mine = self.nodes();
        let _others = other.nodes();
        let mut store = Store::new(alloc, 0)?;
        let left = store.build(self, 0)?;
        let right = store.build(other, count)?;
        let same = store.unify(left, right)?;
        Ok(same)
    }
}

impl Stored {
    /// The first node of the head of the term as a clause. Of what is kept as a block too the nodes are not read.
    pub fn head_node(&self) -> AtomNode
        ensures { (d : Node) → node_view result ≡ slice_index_or (head_nodes (nodes self.now)) 0 d }
    {
        match self.block() {
            Some(block) => head_node(block),
            None => head(self.nodes())[0],
        }
    }
}

/// The nodes of a clause from its head's first one on.
fn head(nodes: &[AtomNode]) -> &[AtomNode]
    requires { 0 < length nodes.now }
    ensures { node_views result.now ≡ head_nodes (node_views nodes.now) }
{
    if is_rule(&nodes[0]) {
        &nodes[1..]
    } else {
        nodes
    }
}

/// The key of an argument by its first node.
fn argument_key(node: &AtomNode) -> ArgumentKey
    ensures { result ≡ node_key (node_view node.now) }
{
    match node {
        AtomNode::Var(_) => ArgumentKey::Any,
        AtomNode::Int(i) => ArgumentKey::Int(*i),
        AtomNode::Atom(a) => ArgumentKey::Atom(*a),
        AtomNode::Comp(f, k) => ArgumentKey::Compound(*f, *k),
    }
}

/// The key of the first argument of the term that these nodes begin with.
fn first_argument(nodes: &[AtomNode]) -> ArgumentKey
    ensures { result ≡ first_key (node_views nodes.now) }
{
    match nodes {
        [AtomNode::Comp(_, _), argument, ..] => argument_key(argument),
        _ => ArgumentKey::Any,
    }
}
