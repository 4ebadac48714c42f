//! The names of operators in a directive.
#![tactic(auto, using(crate::proofs::WordTexts::words))]

ghost use Rattle.std.specs.Prelude.{◌≡◌, IfOk};
ghost use Rattle.std.specs.Option.{option_map};
ghost use Rattle.source_check.specs.GoalNodes.{element_in, is_empty_list, listed, names_in};

use crate::spelled::is_spelled;
use pl_term::{Memory, Node, Text};
use std::alloc::Global;

/// The names that the term with these nodes gives: an atom is one, else it has to be a list of atoms. The only error is
/// out of memory.
pub fn names_in(alloc: Global, term: &[Node]) -> Result<Option<Vec<Text>>, Memory>
    ensures { IfOk result (λ o. option_map (λ v. v.items) o ≡ names_in term.now) }
{
    match term {
        [Node::Atom(name), ..] => {
            let names = vec![in alloc; name.copy(alloc)?]?;
            Ok(Some(names))
        }
        _ => listed(alloc, term),
    }
}

/// The names in the list with these nodes. The only error is out of memory.
fn listed(alloc: Global, list: &[Node]) -> Result<Option<Vec<Text>>, Memory>
    ensures { IfOk result (λ o. option_map (λ v. v.items) o ≡ listed list.now) }
{
    let mut names = Vec::new(alloc);
    let mut rest = list;
    loop {
        match rest {
            [pair, element, tail @ ..] => {
                let Some(name) = element_in(pair, element) else {
                    return Ok(None);
                };
                names.push(name.copy(alloc)?)?;
                rest = tail;
            }
            [last] => {
                if is_empty_list(last) {
                    return Ok(Some(names));
                }
                return Ok(None);
            }
            [] => return Ok(None),
        }
    }
}

/// The atom that is the first element of a list which begins with these nodes, if it is one.
fn element_in<'a>(pair: &Node, element: &'a Node) -> Option<&'a Text>
    ensures { option_map (λ t. t.now) result ≡ element_in pair.now element.now }
{
    match (pair, element) {
        (Node::Comp(name, arity), Node::Atom(atom)) => {
            if *arity == 2 && is_spelled(name, ".") {
                return Some(atom);
            }
            None
        }
        _ => None,
    }
}

/// Whether this node is the empty list.
fn is_empty_list(node: &Node) -> bool
    ensures { result ≡ is_empty_list node.now }
{
    match node {
        Node::Atom(name) => is_spelled(name, "[]"),
        _ => false,
    }
}
