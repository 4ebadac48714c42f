//! Names of threads and queues in terms over atoms, and the texts of atoms.
ghost use Rattle.std.specs.Prelude.{◌≡◌, IsSome, IfOk, IfSome, Some};
ghost use Rattle.std.specs.Option.{option_map};
ghost use Rattle.std.specs.List.{All};
ghost use Rattle.atom_api.specs.Names.{FixedStand, Names};
ghost use Rattle.pl_model.specs.Service.{name_of};
ghost use Rattle.term_store.specs.NumberedNames.{names_of};
ghost use Rattle.world_api.specs.Answers.{alias_names, named_by};
ghost use Rattle.world_api.specs.Texts.{text_of};
ghost use Rattle.counted_terms.specs.CountedTerms.{said};
ghost use Rattle.counted_terms.specs.TermNames.{first_named, node_named, number_named};

use atom_api::{Atom, Atoms, TextBuf};
use pl_term::{Memory, Text};
use std::alloc::Global;
use term_store::{AtomNode, Stored};
use world_api::Name;

/// What a term names: an atom an alias, an integer that is not negative a number, and any other term nothing.
pub fn name_in(term: &Stored) -> Option<Name>
    ensures says { (m : Names) → FixedStand m → name_of (said m term.now) ≡ option_map (named_by (text_of m)) result }
    ensures named { (m : Names) → All (λ a. IsSome (m a)) (names_of term.now) → IfSome result (λ n. All (λ a. IsSome (m a)) (alias_names n)) }
{
    named_by_nodes(term.nodes())
}

// What the term names that these nodes spell.
fn named_by_nodes(nodes: &[AtomNode]) -> Option<Name>
    ensures { result ≡ first_named nodes.now }
{
    match nodes {
        [first, ..] => named_by_node(*first),
        _ => None,
    }
}

// What the term names that begins with this node.
fn named_by_node(first: AtomNode) -> Option<Name>
    ensures { result ≡ node_named first }
{
    match first {
        AtomNode::Atom(slot) => Some(Name::Alias(Atom::at(slot))),
        AtomNode::Int(i) => named_by_number(i),
        AtomNode::Var(_) => None,
        AtomNode::Comp(_, _) => None,
    }
}

// What the integer names.
fn named_by_number(i: i64) -> Option<Name>
    ensures { result ≡ number_named i }
{
    if i < 0 {
        return None;
    }
    Some(Name::Number(i as u64))
}

/// The text of an atom that is held. The only error is out of memory.
pub fn text_of_atom<A: Atoms>(alloc: Global, atoms: &mut A, a: Atom) -> Result<Text, Memory>
    requires { IsSome (A.held atoms.old a) }
    ensures text { IfOk result (λ t. A.held atoms.old a ≡ Some t) }
    ensures same { A.held atoms.new ≡ A.held atoms.old }
    ensures refusals { A.refusals atoms.new ≡ A.refusals atoms.old }
    ensures asked { A.asked atoms.new ≡ A.asked atoms.old }
{
    let mut buf = TextBuf::new();
    atoms.text(a, &mut buf);
    buf.to_text(alloc)
}
