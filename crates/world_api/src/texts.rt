//! A term over atoms as a term with texts.
ghost use Rattle.std.specs.Prelude.{◌≡◌, IfOk, IsSome};
ghost use Rattle.std.specs.List.{All};
ghost use Rattle.term_store.specs.NumberedNames.{names_of, term_by};
ghost use Rattle.world_api.specs.Texts.{text_of};
ghost use Rattle.world_api.specs.NamedNodes.{node_atoms, node_in};

use atom_api::{Atom, Atoms, TextBuf};
use pl_term::{Flat, Memory, Node, Text};
use std::alloc::Global;
use term_store::{AtomNode, Stored};

/// The term with texts for which a term over atoms stands, all of which are held. The only error is out of memory.
pub fn with_texts<A: Atoms>(alloc: Global, t: &Stored, atoms: &mut A) -> Result<Flat, Memory>
    requires { All (λ a. IsSome (A.held atoms.old a)) (names_of t.now) }
    ensures term { IfOk result (λ f. f ≡ term_by (text_of (A.held atoms.old)) t.now) }
    ensures same { A.held atoms.new ≡ A.held atoms.old }
    ensures refusals { A.refusals atoms.new ≡ A.refusals atoms.old }
    ensures asked { A.asked atoms.new ≡ A.asked atoms.old }
{
    let mut buf = TextBuf::new();
    let mut all = Vec::new(alloc);
    for node in t.nodes() {
        all.push(node_with_text(alloc, node, atoms, &mut buf)?)?;
    }
    Ok(Flat::from_nodes(all))
}

/// The node with the text of its atom, which is held.
fn node_with_text<A: Atoms>(
    alloc: Global,
    node: &AtomNode,
    atoms: &mut A,
    buf: &mut TextBuf,
) -> Result<Node, Memory>
    requires { All (λ a. IsSome (A.held atoms.old a)) (node_atoms node.now) }
    ensures node { IfOk result (λ n. n ≡ node_in (text_of (A.held atoms.old)) node.now) }
    ensures same { A.held atoms.new ≡ A.held atoms.old }
    ensures refusals { A.refusals atoms.new ≡ A.refusals atoms.old }
    ensures asked { A.asked atoms.new ≡ A.asked atoms.old }
{
    match node {
        AtomNode::Var(x) => Ok(Node::Var(*x)),
        AtomNode::Int(i) => Ok(Node::Int(*i)),
        AtomNode::Atom(slot) => Ok(Node::Atom(text_at(alloc, *slot, atoms, buf)?)),
        AtomNode::Comp(slot, arity) => {
            Ok(Node::Comp(text_at(alloc, *slot, atoms, buf)?, *arity as u64))
        }
    }
}

/// The text of the atom of a slot, which is held.
fn text_at<A: Atoms>(
    alloc: Global,
    slot: u32,
    atoms: &mut A,
    buf: &mut TextBuf,
) -> Result<Text, Memory>
    requires { IsSome (A.held atoms.old slot) }
    ensures text { IfOk result (λ t. t ≡ text_of (A.held atoms.old) slot) }
    ensures same { A.held atoms.new ≡ A.held atoms.old }
    ensures refusals { A.refusals atoms.new ≡ A.refusals atoms.old }
    ensures asked { A.asked atoms.new ≡ A.asked atoms.old }
{
    atoms.text(Atom::at(slot), buf);
    buf.to_text(alloc)
}
