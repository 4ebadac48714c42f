//! Terms under construction. A term's nodes stand in prefix order, but the node of an operator or of a list cell is
//! known only after its first argument. So nodes are kept in pieces, and nodes that are later put in front of a piece
//! stand at its end: a piece is read backwards.
ghost use Rattle.std.specs.Prelude.{◌≡◌, ◌+◌, ◌<◌, ◌∷◌, ◌++◌, [], drop, take, length, reverse, vec_len, IfOk, OnOk};
ghost use Rattle.prolog_reader.specs.Pieces.{spelled};

use pl_term::{Memory, Node};
use std::alloc::Global;

/// Puts a node at the end. The only error is out of memory.
pub fn put_leaf(alloc: Global, pieces: &mut Vec<Vec<Node>>, leaf: Node) -> Result<(), Memory>
    ensures front { OnOk result (take (length pieces.old.items) pieces.new.items ≡ pieces.old.items) }
    ensures leaf { OnOk result (spelled (drop (length pieces.old.items) pieces.new.items) ≡ leaf ∷ []) }
    ensures len { OnOk result (length pieces.new.items ≡ length pieces.old.items + 1) }
{
    let piece = vec![in alloc; leaf]?;
    pieces.push(piece)?;
    Ok(())
}

/// Puts these nodes at the end. The only error is out of memory.
pub fn put_nodes(pieces: &mut Vec<Vec<Node>>, mut nodes: Vec<Node>) -> Result<(), Memory>
    ensures front { OnOk result (take (length pieces.old.items) pieces.new.items ≡ pieces.old.items) }
    ensures nodes { OnOk result (spelled (drop (length pieces.old.items) pieces.new.items) ≡ nodes.items) }
    ensures len { OnOk result (length pieces.new.items ≡ length pieces.old.items + 1) }
{
    nodes.reverse();
    pieces.push(nodes)?;
    Ok(())
}

/// Puts a node in front of the piece at `start`. The only error is out of memory.
pub fn put_front(pieces: &mut Vec<Vec<Node>>, start: usize, node: Node) -> Result<(), Memory>
    requires { start < vec_len pieces.old }
    ensures front { OnOk result (take start pieces.new.items ≡ take start pieces.old.items) }
    ensures node { OnOk result (spelled (drop start pieces.new.items) ≡ node ∷ spelled (drop start pieces.old.items)) }
    ensures len { OnOk result (length pieces.new.items ≡ length pieces.old.items) }
{
    let piece = &mut pieces[start];
    piece.push(node)?;
    Ok(())
}

/// All nodes in prefix order. The only error is out of memory.
pub fn into_nodes(alloc: Global, pieces: Vec<Vec<Node>>) -> Result<Vec<Node>, Memory>
    ensures { IfOk result (λ nodes. nodes.items ≡ spelled pieces.items) }
{
    let mut nodes = Vec::new(alloc);
    for piece in pieces {
        put_piece(&mut nodes, piece)?;
    }
    Ok(nodes)
}

/// Puts the nodes of one piece at the end, the last one first. The only error is out of memory.
fn put_piece(nodes: &mut Vec<Node>, mut piece: Vec<Node>) -> Result<(), Memory>
    ensures { OnOk result (nodes.new.items ≡ nodes.old.items ++ reverse piece.items) }
{
    while let Some(node) = piece.pop() {
        nodes.push(node)?;
    }
    Ok(())
}
