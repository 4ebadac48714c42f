//! Reading a term back as its nodes, and keeping it outside of its store.
ghost use Rattle.std.specs.Prelude.{◌≡◌, ◌<◌, ◌≤◌, ◌+◌, ◌++◌, ◌∷◌, [], length, take, drop, reverse, zero, IfOk, OnOk};
ghost use Rattle.std.specs.List.{All};
ghost use Rattle.pl_term.specs.Nodes.{nodes, nodes_all};
ghost use Rattle.pl_term.specs.Variables.{rename};
ghost use Rattle.term_store.specs.Cells.{IsFit, IsFree, heap_of};
ghost use Rattle.term_store.specs.Contents.{Holds, term_at};
ghost use Rattle.term_store.specs.Fit.{IsIn};
ghost use Rattle.term_store.specs.Heap.{meaning};
ghost use Rattle.term_store.specs.Nodes.{node_views, standing};

use crate::cells::{Cells, deref, head_at, word_at};
use crate::nodes::AtomNode;
use crate::store::Store;
use crate::stored::Stored;
use crate::words::{Place, Word};
use pl_term::Memory;
use std::alloc::Global;

impl Store {
    /// The nodes, in prefix order, of the term that stands at a place. Its variables have the numbers that they have in
    /// the store. The only error is out of memory.
    pub fn nodes(&self, place: Place) -> Result<Vec<AtomNode>, Memory>
        requires { Holds self.now place }
        ensures { IfOk result (λ v. node_views v.items ≡ nodes (term_at self.now place)) }
    {
        nodes_of(self.alloc, &self.cells, place.word)
    }

    /// The term that stands at a place, to be kept outside of the store, its variables numbered from 0 on in the order in
    /// which they first occur. The only error is out of memory.
    pub fn save(&self, place: Place) -> Result<Stored, Memory>
        requires { Holds self.now place }
        ensures { IfOk result (λ s. s ≡ rename zero (term_at self.now place)) }
    {
        let nodes = self.nodes(place)?;
        Stored::from_nodes(self.alloc, &nodes)
    }
}

/// The nodes, in prefix order, of the term that a word stands for. The only error is out of memory.
fn nodes_of(alloc: Global, cells: &Cells, word: Word) -> Result<Vec<AtomNode>, Memory>
    requires fit { IsFit cells.now }
    requires inside { IsIn (heap_of cells.now) word }
    ensures { IfOk result (λ v. node_views v.items ≡ nodes (meaning (heap_of cells.now) word)) }
{
    let mut walk = vec![in alloc; word]?;
    let mut all = Vec::new(alloc);
    for _ in 0..u64::MAX {
        let Some(next) = walk.pop() else {
            return Ok(all);
        };
        let at = deref(cells, next);
        push_node(cells, &mut all, &mut walk, at)?;
    }
    Err(Memory)
}

/// Puts the first node of what a word stands for after the others. The words of its arguments are put on the stack.
fn push_node(
    cells: &Cells,
    all: &mut Vec<AtomNode>,
    walk: &mut Vec<Word>,
    at: Word,
) -> Result<(), Memory>
    requires fit { IsFit cells.now }
    requires inside { IsIn (heap_of cells.now) at }
    requires free { IsFree (heap_of cells.now) at }
    requires words { All (IsIn (heap_of cells.now)) walk.old.items }
    ensures words { OnOk result (All (IsIn (heap_of cells.now)) walk.new.items) }
    ensures pushed { OnOk result (node_views all.new.items ++ nodes_all (standing (heap_of cells.now) walk.new.items)
        ≡ node_views all.old.items ++ (nodes (meaning (heap_of cells.now) at) ++ nodes_all (standing (heap_of cells.now) walk.old.items))) }
{
    match at {
        Word::Var(slot) => push_leaf(all, AtomNode::Var(cells.numbers[slot])),
        Word::Int(i) => push_leaf(all, AtomNode::Int(i)),
        Word::Atom(a) => push_leaf(all, AtomNode::Atom(a)),
        Word::Comp(k) => {
            let head = head_at(cells, k);
            push_leaf(all, AtomNode::Comp(head.name, head.count as usize))?;
            push_reversed(cells, walk, head.start as usize, head.count as usize)
        }
    }
}

/// Puts a node after the others.
fn push_leaf(all: &mut Vec<AtomNode>, node: AtomNode) -> Result<(), Memory>
    ensures { OnOk result (all.new.items ≡ all.old.items ++ node ∷ []) }
{
    all.push(node)?;
    Ok(())
}

/// Puts the arguments from a place on on the stack, the first on top.
fn push_reversed(
    cells: &Cells,
    walk: &mut Vec<Word>,
    start: usize,
    count: usize,
) -> Result<(), Memory>
    requires { start + count ≤ length cells.now.args.items }
    ensures { OnOk result (walk.new.items ≡ walk.old.items ++ reverse (take count (drop start cells.now.args.items))) }
{
    let _words = cells.args.len();
    let mut i = count;
    while i > 0 {
        i -= 1;
        walk.push(word_at(cells, start + i))?;
    }
    Ok(())
}
