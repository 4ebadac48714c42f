//! Terms within the nodes of other terms.
ghost use Rattle.std.specs.Prelude.{◌≡◌, ◌+◌, ◌≤◌, IfOk, length, drop};
ghost use Rattle.pl_term.specs.Tree.{Chars, comp, more, none};
ghost use Rattle.pl_term.specs.Nodes.{nodes, tree};
ghost use Rattle.pl_consult.specs.Subterms.{StartsTerm, IsBinary, arity_of};

use pl_term::{Flat, Memory, Node};
use std::alloc::Global;

/// The number of terms that follow this node as its arguments.
pub fn arity(node: &Node) -> u64
    ensures { result ≡ arity_of node.now }
{
    match node {
        Node::Var(_) => 0,
        Node::Int(_) => 0,
        Node::Atom(_) => 0,
        Node::Comp(_, k) => *k,
    }
}

/// Where the term ends whose nodes begin at the place `at` of this list: the place after its last node.
pub fn subterm_end(all: &[Node], at: usize) -> usize
    requires { StartsTerm (drop at all.now) }
    ensures ends { result ≡ at + length (nodes (tree (drop at all.now))) }
    ensures within { result ≤ length all.now }
{
    let mut pending: usize = 1;
    for i in at..all.len() {
        if pending == 0 {
            return i;
        }
        pending = pending - 1 + arity(&all[i]) as usize;
    }
    all.len()
}

/// A second list with the same nodes. The only error is out of memory.
pub fn copied(alloc: Global, all: &[Node]) -> Result<Vec<Node>, Memory>
    ensures { IfOk result (λ v. v.items ≡ all.now) }
{
    let mut copy = Vec::with_capacity(alloc, all.len())?;
    for node in all {
        copy.push(node.copy(alloc)?)?;
    }
    Ok(copy)
}

/// The term whose nodes begin at the place `at` of this list, and the place after its last node. The only error
/// is out of memory.
pub fn term_at(alloc: Global, all: &[Node], at: usize) -> Result<(Flat, usize), Memory>
    requires { StartsTerm (drop at all.now) }
    ensures term { IfOk result (λ p. p.0 ≡ tree (drop at all.now)) }
    ensures end { IfOk result (λ p. p.1 ≡ at + length (nodes p.0)) }
{
    let end = subterm_end(all, at);
    let own = copied(alloc, &all[at..end])?;
    Ok((Flat::from_nodes(own), end))
}

/// The two arguments of a compound term that has two. The only error is out of memory.
pub fn two_arguments(alloc: Global, t: &Flat) -> Result<(Flat, Flat), Memory>
    requires { IsBinary t.now }
    ensures { IfOk result (λ p. (f : Chars) × (t.now ≡ comp f p.0 (more p.1 none))) }
{
    let all = t.nodes();
    let (left, middle) = term_at(alloc, all, 1)?;
    let (right, _) = term_at(alloc, all, middle)?;
    Ok((left, right))
}
