//! Building a term from its nodes.
ghost use Rattle.std.specs.Prelude.{◌≡◌, ◌<◌, ◌≤◌, ◌+◌, ◌-◌, length, take, IfOk, OnOk, OnErr};
ghost use Rattle.std.specs.List.{All};
ghost use Rattle.pl_term.specs.Nodes.{tree};
ghost use Rattle.pl_term.specs.Tree.{more};
ghost use Rattle.pl_term.specs.Variables.{rename_by};
ghost use Rattle.term_store.specs.Cells.{IsFit, heap_of};
ghost use Rattle.term_store.specs.Fit.{IsIn};
ghost use Rattle.term_store.specs.Heap.{meaning, numbered};
ghost use Rattle.term_store.specs.Nodes.{Gains, IsNodeBelow, IsNodeReady, IsSpelled, Joined, StandsFor, Taken, node_views, placed, standing};

use crate::cells::Cells;
use crate::make::finish_compound;
use crate::nodes::AtomNode;
use crate::shorts::Words;
use crate::words::Word;
use pl_term::Memory;

/// Builds the term that the nodes spell. Its variables are those of the slots from `base` on, which are unbound. `stack`
/// is room for the words made so far. The only error is out of memory, after which compound terms may have been made.
pub fn build(
    cells: &mut Cells,
    stack: &mut Vec<Word>,
    nodes: &[AtomNode],
    base: usize,
) -> Result<Word, Memory>
    requires fit { IsFit cells.old }
    requires spelled { IsSpelled nodes.now }
    requires below { All (IsNodeBelow (length cells.old.numbers.items - base)) nodes.now }
    requires fresh { All (λ b. b.slot < base) cells.old.bonds.items }
    ensures fit { IsFit cells.new }
    ensures gains { Gains (heap_of cells.old) (heap_of cells.new) }
    ensures built { IfOk result (StandsFor (heap_of cells.new)
        (rename_by (λ x. numbered (heap_of cells.old) (base + x)) (tree (node_views nodes.now)))) }
{
    stack.clear();
    let mut i = nodes.len();
    while i > 0 {
        i -= 1;
        build_node(cells, stack, &nodes[i], base)?;
    }
    match stack.pop() {
        Some(word) => Ok(word),
        None => Err(Memory),
    }
}

/// Puts the term that begins with this node on the stack, in the place of its arguments.
fn build_node(
    cells: &mut Cells,
    stack: &mut Vec<Word>,
    node: &AtomNode,
    base: usize,
) -> Result<(), Memory>
    requires fit { IsFit cells.old }
    requires words { All (IsIn (heap_of cells.old)) stack.old.items }
    requires below { IsNodeBelow (length cells.old.numbers.items - base) node.now }
    requires ready { IsNodeReady (length stack.old.items) node.now }
    requires fresh { All (λ b. b.slot < base) cells.old.bonds.items }
    ensures fit { IsFit cells.new }
    ensures gains { Gains (heap_of cells.old) (heap_of cells.new) }
    ensures words { OnOk result (All (IsIn (heap_of cells.new)) stack.new.items) }
    ensures placed { OnOk result (standing (heap_of cells.new) stack.new.items
        ≡ placed (λ x. numbered (heap_of cells.old) (base + x)) node.now (standing (heap_of cells.old) stack.old.items)) }
{
    let word = node_word(cells, stack, node, base)?;
    stack.push(word)?;
    Ok(())
}

/// The term that begins with this node. Its arguments are taken off the stack.
fn node_word(
    cells: &mut Cells,
    stack: &mut Vec<Word>,
    node: &AtomNode,
    base: usize,
) -> Result<Word, Memory>
    requires fit { IsFit cells.old }
    requires words { All (IsIn (heap_of cells.old)) stack.old.items }
    requires below { IsNodeBelow (length cells.old.numbers.items - base) node.now }
    requires ready { IsNodeReady (length stack.old.items) node.now }
    requires fresh { All (λ b. b.slot < base) cells.old.bonds.items }
    ensures fit { IsFit cells.new }
    ensures gains { Gains (heap_of cells.old) (heap_of cells.new) }
    ensures words { OnOk result (All (IsIn (heap_of cells.new)) stack.new.items) }
    ensures inside { IfOk result (IsIn (heap_of cells.new)) }
    ensures placed { IfOk result (λ w. more (meaning (heap_of cells.new) w) (standing (heap_of cells.new) stack.new.items)
        ≡ placed (λ x. numbered (heap_of cells.old) (base + x)) node.now (standing (heap_of cells.old) stack.old.items)) }
{
    match node {
        AtomNode::Var(x) => Ok(Word::Var(base + *x as usize)),
        AtomNode::Int(i) => Ok(Word::Int(*i)),
        AtomNode::Atom(a) => Ok(Word::Atom(*a)),
        AtomNode::Comp(name, count) => join_words(cells, stack, *name, *count),
    }
}

/// The compound term whose arguments are the words on top of the stack, the first on top. They are taken off.
fn join_words(
    cells: &mut Cells,
    stack: &mut Vec<Word>,
    name: u32,
    count: usize,
) -> Result<Word, Memory>
    requires fit { IsFit cells.old }
    requires words { All (IsIn (heap_of cells.old)) stack.old.items }
    requires full { 0 < count }
    requires enough { count ≤ length stack.old.items }
    ensures fit { IsFit cells.new }
    ensures joined { IfOk result (Joined (heap_of cells.old) name count stack.old.items stack.new.items (heap_of cells.new)) }
    ensures kept { OnErr result (heap_of cells.new ≡ heap_of cells.old) }
{
    let start = cells.args.len();
    match move_words(&mut cells.args, stack, count) {
        Ok(()) => finish_compound(cells, name, start, count),
        Err(_) => {
            cells.args.truncate(start);
            Err(Memory)
        }
    }
}

/// Moves words from the top of the stack after the others. After running out of memory some of them are there.
fn move_words(args: &mut Words, stack: &mut Vec<Word>, count: usize) -> Result<(), Memory>
    requires { count ≤ length stack.old.items }
    ensures ok { OnOk result (Taken args.old.items args.new.items stack.old.items stack.new.items count) }
    ensures kept { take (length args.old.items) args.new.items ≡ args.old.items }
{
    for _ in 0..count {
        let Some(word) = stack.pop() else {
            return Err(Memory);
        };
        args.push(word)?;
    }
    Ok(())
}
