//! A term with texts as a term over atoms, by the interning of its names.
ghost use Rattle.std.specs.Prelude.{◌≡◌, ◌++◌, ◌<◌, Some, IfOk, IsSome, IfErr, zero};
ghost use Rattle.std.specs.List.{All, Contains};
ghost use Rattle.pl_term.specs.Nodes.{nodes};
ghost use Rattle.pl_term.specs.Texts.{size};
ghost use Rattle.pl_term.specs.Variables.{rename};
ghost use Rattle.term_store.specs.NumberedNames.{names_of, term_by};
ghost use Rattle.world_api.specs.Asked.{texts_in};
ghost use Rattle.world_api.specs.Gains.{Gains};
ghost use Rattle.world_api.specs.Texts.{text_of, Holds};
ghost use Rattle.world_api.specs.NamedNodes.{atoms_of, node_atoms, node_in, node_name, node_texts, nodes_in, refusals_by, texts_of, HasTooLong};

use atom_api::{Atoms, Cause, Interned, Pass, WornWord};
use pl_term::{Flat, Memory, Node, Text};
use std::alloc::Global;
use term_store::{AtomNode, Stored};

/// Why a term has no term over atoms.
#[derive(Clone, Copy, Debug, PartialEq, Eq, Drop)]
pub enum NoTerm {
    /// No slot is free for one of its names, as that pass over all slots shows.
    Full(Pass),
    /// Others stepped in between: the call is to be made again.
    Again(Cause),
    /// One of its names has more than 248 bytes in UTF-8.
    TooLong,
    /// One of its names is of a bucket that takes no new atom.
    Worn(WornWord),
    /// Out of memory.
    Memory,
}

/// The term over atoms that stands for this term, its variables numbered from 0 in the order in which they first occur. Its
/// atoms are held from then on. After any other answer some of its names may be held. No text but its names is asked of the
/// atoms.
pub fn interned<A: Atoms>(alloc: Global, t: &Flat, atoms: &mut A) -> Result<Stored, NoTerm>
    ensures term { IfOk result (λ s. term_by (text_of (A.held atoms.new)) s ≡ rename zero t.now) }
    ensures named { IfOk result (λ s. All (λ a. IsSome (A.held atoms.new a)) (names_of s)) }
    ensures holds { Holds (A.held atoms.old) (A.held atoms.new) }
    ensures refusals { A.refusals atoms.new ≡ A.refusals atoms.old ++ refusals_by result }
    ensures too_long { IfErr result (λ stop. stop ≡ NoTerm.TooLong → HasTooLong (nodes t.now)) }
    ensures asked { Gains (λ c. Contains (texts_in t.now) c) (A.asked atoms.old) (A.asked atoms.new) }
{
    match interned_nodes(alloc, t.nodes(), atoms) {
        Ok(all) => match Stored::clause_from_nodes(alloc, all.as_slice()) {
            Ok(term) => Ok(term),
            Err(_) => Err(NoTerm::Memory),
        },
        Err(stop) => Err(stop),
    }
}

/// The nodes with atoms in the place of names.
fn interned_nodes<A: Atoms>(
    alloc: Global,
    from: &[Node],
    atoms: &mut A,
) -> Result<Vec<AtomNode>, NoTerm>
    ensures nodes { IfOk result (λ all. nodes_in (text_of (A.held atoms.new)) all.items ≡ from.now) }
    ensures named { IfOk result (λ all. All (λ a. IsSome (A.held atoms.new a)) (atoms_of all.items)) }
    ensures holds { Holds (A.held atoms.old) (A.held atoms.new) }
    ensures refusals { A.refusals atoms.new ≡ A.refusals atoms.old ++ refusals_by result }
    ensures too_long { IfErr result (λ stop. stop ≡ NoTerm.TooLong → HasTooLong from.now) }
    ensures asked { Gains (λ c. Contains (texts_of from.now) c) (A.asked atoms.old) (A.asked atoms.new) }
{
    let mut all = Vec::new(alloc);
    for node in from {
        match interned_node(node, atoms) {
            Ok(named) => match all.push(named) {
                Ok(()) => {}
                Err(_) => return Err(NoTerm::Memory),
            },
            Err(stop) => return Err(stop),
        }
    }
    Ok(all)
}

/// The node with an atom in the place of its name.
fn interned_node<A: Atoms>(node: &Node, atoms: &mut A) -> Result<AtomNode, NoTerm>
    ensures node { IfOk result (λ n. node_in (text_of (A.held atoms.new)) n ≡ node.now) }
    ensures named { IfOk result (λ n. All (λ a. IsSome (A.held atoms.new a)) (node_atoms n)) }
    ensures holds { Holds (A.held atoms.old) (A.held atoms.new) }
    ensures refusals { A.refusals atoms.new ≡ A.refusals atoms.old ++ refusals_by result }
    ensures too_long { IfErr result (λ stop. stop ≡ NoTerm.TooLong → 248 < size (node_name node.now)) }
    ensures asked { Gains (λ c. Contains (node_texts node.now) c) (A.asked atoms.old) (A.asked atoms.new) }
{
    match node {
        Node::Var(x) => Ok(AtomNode::Var(*x)),
        Node::Int(i) => Ok(AtomNode::Int(*i)),
        Node::Atom(name) => match interned_name(name, atoms) {
            Ok(slot) => Ok(AtomNode::Atom(slot)),
            Err(stop) => Err(stop),
        },
        Node::Comp(name, arity) => match interned_name(name, atoms) {
            Ok(slot) => Ok(AtomNode::Comp(slot, *arity as usize)),
            Err(stop) => Err(stop),
        },
    }
}

/// The slot of the atom of a name.
fn interned_name<A: Atoms>(name: &Text, atoms: &mut A) -> Result<u32, NoTerm>
    ensures slot { IfOk result (λ a. A.held atoms.new a ≡ Some name.now) }
    ensures holds { Holds (A.held atoms.old) (A.held atoms.new) }
    ensures refusals { A.refusals atoms.new ≡ A.refusals atoms.old ++ refusals_by result }
    ensures too_long { IfErr result (λ stop. stop ≡ NoTerm.TooLong → 248 < size name.now) }
    ensures asked { Gains (λ c. c ≡ name.now) (A.asked atoms.old) (A.asked atoms.new) }
{
    match atoms.intern(name) {
        Interned::Is(atom) => Ok(atom.slot()),
        Interned::Full(pass) => Err(NoTerm::Full(pass)),
        Interned::Again(cause) => Err(NoTerm::Again(cause)),
        Interned::TooLong { .. } => Err(NoTerm::TooLong),
        Interned::Worn(word) => Err(NoTerm::Worn(word)),
        Interned::Memory => Err(NoTerm::Memory),
    }
}
