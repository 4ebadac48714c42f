//! The standard order of what two terms say by themselves, without their arguments.
ghost use Rattle.std.specs.Prelude.{◌≡◌, IsSome};
ghost use Rattle.pl_term.specs.NodeLists.{node_order, node_rank};
ghost use Rattle.pl_term.specs.Order.{text_order};
ghost use Rattle.term_store.specs.Heap.{atom_name};
ghost use Rattle.world_builtins.specs.Nodes.{IsNodeHeld, spelled_node};
ghost use Rattle.world_builtins.specs.Spelling.{text_of};
ghost use Rattle.builtin_term.specs.Heads.{head};

use atom_api::{Atom, Atoms, TextBuf};
use std::cmp::Ordering;
use std::convert::AsStr;
use term_store::View;

/// The standard order of what two terms say by themselves: variables by number, integers, atoms by text, and compound terms
/// by the number of their arguments, then by name. It takes no memory.
pub fn compare_heads<A: Atoms>(left: &View, right: &View, atoms: &mut A) -> Ordering
    requires left { IsNodeHeld (A.held atoms.old) (head left.now) }
    requires right { IsNodeHeld (A.held atoms.old) (head right.now) }
    ensures order { result ≡ node_order (spelled_node (text_of (A.held atoms.old)) (head left.now)) (spelled_node (text_of (A.held atoms.old)) (head right.now)) }
    ensures same { A.held atoms.new ≡ A.held atoms.old }
    ensures refusals { A.refusals atoms.new ≡ A.refusals atoms.old }
    ensures asked { A.asked atoms.new ≡ A.asked atoms.old }
{
    match (left, right) {
        (View::Variable(x), View::Variable(y)) => x.cmp(y),
        (View::Integer(i), View::Integer(j)) => i.cmp(j),
        (View::Atom(a), View::Atom(b)) => compare_atoms(*a, *b, atoms),
        (View::Compound(f, these), View::Compound(g, those)) => {
            let counts = these.len().cmp(&those.len());
            if counts.is_ne() {
                return counts;
            }
            compare_atoms(*f, *g, atoms)
        }
        _ => rank(left).cmp(&rank(right)),
    }
}

/// The place of the term's kind in the standard order.
fn rank(view: &View) -> u8
    ensures { result ≡ node_rank (head view.now) }
{
    match view {
        View::Variable(_) => 0,
        View::Integer(_) => 1,
        View::Atom(_) => 2,
        View::Compound(_, _) => 3,
    }
}

/// The order of two atoms by the codes of the characters of their texts, which are looked at only where the atoms differ: a
/// text comes before those that it begins. It takes no memory.
fn compare_atoms<A: Atoms>(left: Atom, right: Atom, atoms: &mut A) -> Ordering
    requires left { IsSome (A.held atoms.old left) }
    requires right { IsSome (A.held atoms.old right) }
    ensures order { result ≡ text_order (text_of (A.held atoms.old) (atom_name left)) (text_of (A.held atoms.old) (atom_name right)) }
    ensures same { A.held atoms.new ≡ A.held atoms.old }
    ensures refusals { A.refusals atoms.new ≡ A.refusals atoms.old }
    ensures asked { A.asked atoms.new ≡ A.asked atoms.old }
{
    if left == right {
        return Ordering::Equal;
    }
    let mut here = TextBuf::new();
    let mut there = TextBuf::new();
    atoms.text(left, &mut here);
    atoms.text(right, &mut there);
    here.as_str().cmp(there.as_str())
}
