//! Whether a term over atoms reads as a term with texts.
ghost use Rattle.std.specs.Prelude.{◌≡◌, true, IsSome};
ghost use Rattle.std.specs.List.{All};
ghost use Rattle.term_store.specs.NumberedNames.{names_of, term_by};
ghost use Rattle.world_api.specs.Texts.{text_of};
ghost use Rattle.world_api.specs.NamedNodes.{node_atoms, node_in};

use atom_api::{Atom, Atoms};
use pl_term::{Flat, Node};
use term_store::{AtomNode, Stored};

/// Whether the term over atoms stands for the term with texts, all its atoms held. Where the atoms do not tell their texts
/// (`Atoms::reads`), it may answer false. It takes no memory.
pub fn reads_as<A: Atoms>(t: &Stored, flat: &Flat, atoms: &A) -> bool
    ensures term { result ≡ true → term_by (text_of (A.held atoms.now)) t.now ≡ flat.now }
    ensures named { result ≡ true → All (λ a. IsSome (A.held atoms.now a)) (names_of t.now) }
{
    let own = t.nodes();
    let all = flat.nodes();
    if own.len() != all.len() {
        return false;
    }
    for i in 0..own.len() {
        if !node_reads_as(&own[i], &all[i], atoms) {
            return false;
        }
    }
    true
}

/// Whether the node over atoms is the node with a text, its atom held.
fn node_reads_as<A: Atoms>(own: &AtomNode, node: &Node, atoms: &A) -> bool
    ensures node { result ≡ true → node_in (text_of (A.held atoms.now)) own.now ≡ node.now }
    ensures named { result ≡ true → All (λ a. IsSome (A.held atoms.now a)) (node_atoms own.now) }
{
    match own {
        AtomNode::Var(x) => match node {
            Node::Var(y) => *x == *y,
            _ => false,
        },
        AtomNode::Int(i) => match node {
            Node::Int(j) => *i == *j,
            _ => false,
        },
        AtomNode::Atom(slot) => match node {
            Node::Atom(name) => atoms.reads(Atom::at(*slot), name),
            _ => false,
        },
        AtomNode::Comp(slot, arity) => match node {
            Node::Comp(name, k) => *arity as u64 == *k && atoms.reads(Atom::at(*slot), name),
            _ => false,
        },
    }
}
