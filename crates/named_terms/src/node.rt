//! The nodes of a term whose names stand in a list.
ghost use Rattle.std.specs.Prelude.{◌≡◌, ◌<◌, ◌++◌, ◌∷◌, [], length, IfOk, OnOk};
ghost use Rattle.named_terms.specs.NamedNodes.{Extends, IsNodeNamed, node_by, text_by};

use pl_term::{Memory, Node, Text};
use std::alloc::Global;

/// One node of a term that is kept in prefix order: a variable by its number, an integer, an atom by the place of its text in a
/// list, or the place of the name and the number of arguments of a compound term, whose arguments' nodes follow.
#[derive(Clone, Copy, Debug, Drop)]
pub enum NumberedNode {
    Var(u64),
    Int(i64),
    Atom(u32),
    Comp(u32, u64),
}

impl NumberedNode {
    /// The node, whose name is put behind these. The only error is out of memory.
    pub(crate) fn behind(
        alloc: Global,
        node: &Node,
        names: &mut Vec<Text>,
    ) -> Result<NumberedNode, Memory>
        ensures named { IfOk result (IsNodeNamed (length names.new.items)) }
        ensures node { IfOk result (λ n. node_by names.new.items n ≡ node.now) }
        ensures more { OnOk result (Extends names.old.items names.new.items) }
    {
        match node {
            Node::Var(x) => Ok(NumberedNode::Var(*x)),
            Node::Int(i) => Ok(NumberedNode::Int(*i)),
            Node::Atom(a) => {
                let place = put_name(alloc, a, names)?;
                Ok(NumberedNode::Atom(place))
            }
            Node::Comp(f, k) => {
                let place = put_name(alloc, f, names)?;
                Ok(NumberedNode::Comp(place, *k))
            }
        }
    }

    /// The node over texts. The only error is out of memory.
    pub(crate) fn over(&self, alloc: Global, names: &[Text]) -> Result<Node, Memory>
        requires { IsNodeNamed (length names.now) self.now }
        ensures { IfOk result (λ n. n ≡ node_by names.now self.now) }
    {
        match self {
            NumberedNode::Var(x) => Ok(Node::Var(*x)),
            NumberedNode::Int(i) => Ok(Node::Int(*i)),
            NumberedNode::Atom(a) => Ok(Node::Atom(text_of(alloc, names, *a)?)),
            NumberedNode::Comp(f, k) => Ok(Node::Comp(text_of(alloc, names, *f)?, *k)),
        }
    }
}

/// The text at this place. The only error is out of memory.
fn text_of(alloc: Global, names: &[Text], place: u32) -> Result<Text, Memory>
    requires { place < length names.now }
    ensures { IfOk result (λ t. t ≡ text_by names.now place) }
{
    names[place as usize].copy(alloc)
}

/// Puts a text behind these, and gives its place. The only error is out of memory.
fn put_name(alloc: Global, text: &Text, names: &mut Vec<Text>) -> Result<u32, Memory>
    ensures place { IfOk result (λ p. p ≡ length names.old.items) }
    ensures more { OnOk result (names.new.items ≡ names.old.items ++ text.now ∷ []) }
{
    let Ok(place) = u32::try_from(names.len()) else {
        return Err(Memory);
    };
    names.push(text.copy(alloc)?)?;
    Ok(place)
}
