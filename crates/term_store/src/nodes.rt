//! The nodes of a term over atoms.
ghost use Rattle.std.specs.Prelude.{◌≡◌};
ghost use Rattle.term_store.specs.ArgumentKeys.{begins_rule};
ghost use Rattle.term_store.specs.Nodes.{node_view};

use atom_api::fixed::NECK;

/// One node of a term that is kept in prefix order: a variable by its number, an integer, an atom by its slot, or the
/// name and the number of arguments of a compound term, whose arguments' nodes follow.
#[derive(Clone, Copy, Debug, Drop)]
pub enum AtomNode {
    Var(u64),
    Int(i64),
    Atom(u32),
    Comp(u32, usize),
}

/// Whether this is the first node of a rule Head :- Body.
pub fn is_rule(node: &AtomNode) -> bool
    ensures { result ≡ begins_rule (node_view node.now) }
{
    match node {
        AtomNode::Comp(f, k) => *k == 2 && *f == NECK.slot(),
        _ => false,
    }
}
