//! Terms by themselves, as they would stand in a store without others.
ghost use Rattle.std.specs.Prelude.{◌≡◌, ℕ, ◌+◌, ◌<◌, ◌≤◌, ◌++◌, ◌∷◌, [], zero, pos, length, slice_index_or, IfOk};
ghost use Rattle.std.specs.List.{All};
ghost use Rattle.pl_term.specs.Nodes.{nodes, tree};
ghost use Rattle.pl_term.specs.declared.node.Node.{Node};
ghost use Rattle.pl_term.specs.Variables.{rename_by};
ghost use Rattle.term_store.specs.Blocks.{AreRanges, IsBlock, IsFirst, IsPart, IsRange, Tiles, arguments_of, block_heap, part_of};
ghost use Rattle.term_store.specs.Entering.{IsBlockOf, IsParts, head_is_apart};
ghost use Rattle.term_store.specs.Fit.{IsHead, IsIn, IsWord, no_head};
ghost use Rattle.term_store.specs.Heap.{words_of};
ghost use Rattle.term_store.specs.Nodes.{IsNodeBelow, IsSpelled, node_view, node_views};

use crate::cells::Cells;
use crate::load::load;
use crate::nodes::AtomNode;
use crate::shorts::Words;
use crate::words::{Head, Word};
use atom_api::fixed;
use pl_term::Memory;
use std::alloc::Global;

/// A term by itself: how many variables it has, the words that stand for it, for its head and its body as a clause, the first of
/// the heads that are met with a goal (`first`), the arguments and the heads of its compound terms as they would stand in a store
/// without other terms, and what stands below each compound term. Its variable number `x` is the one of the slot `x`. What is
/// looked at of each clause that is entered stands in front.
#[derive(Debug, Drop)]
pub struct Block {
    pub variables: u64,
    pub root: Word,
    pub head: Word,
    pub body: Word,
    pub first: Head,
    pub args: Words,
    pub heads: Vec<Head>,
    pub ranges: Vec<Range>,
}

/// What stands below a compound term of a block: compound terms from a place on up to its own, and variables before a number.
#[derive(Clone, Copy, Debug, Drop)]
pub struct Range {
    pub low: usize,
    pub variables: usize,
}

/// The block of the term that the nodes spell, of so many variables. The only error is out of memory.
pub fn block_of(alloc: Global, nodes: &[AtomNode], variables: u64) -> Result<Block, Memory>
    requires spelled { IsSpelled nodes.now }
    requires below { All (IsNodeBelow variables) nodes.now }
    ensures { IfOk result (IsBlockOf variables (rename_by (λ x. zero + x) (tree (node_views nodes.now)))) }
{
    let mut cells = Cells::new(alloc);
    let mut stack = Vec::new(alloc);
    let root = load(&mut cells, &mut stack, nodes, variables, 0)?;
    let ranges = ranges_of(alloc, &cells.heads, &cells.args, variables)?;
    let Cells {
        heads,
        args,
        numbers: _,
        bonds: _,
        grounds: _,
        settled: _,
        frontier: _,
    } = cells;
    let mut block = Block {
        variables,
        root,
        head: root,
        body: root,
        first: NO_HEAD,
        args,
        heads,
        ranges,
    };
    let parts = parts_of(&block);
    block.head = parts.0;
    block.body = parts.1;
    block.first = first_of(&block);
    Ok(block)
}

const NO_HEAD: Head = Head {
    name: 0,
    start: 0,
    count: 0,
};

/// The head of the compound term that is the head of a clause, if it is one.
fn first_of(block: &Block) -> Head
    requires { IsIn (block_heap block.now) block.now.head }
    ensures { (k : ℕ) → block.now.head ≡ Word.Comp k → result ≡ slice_index_or block.now.heads.items k no_head }
{
    match block.head {
        Word::Comp(k) => block_head(block, k),
        _ => NO_HEAD,
    }
}

/// The words of the head and of the body of a clause. The body of a fact is `true`.
fn parts_of(block: &Block) -> (Word, Word)
    requires { IsBlock block.now }
    ensures { IsParts block.now result.0 result.1 }
{
    let fact = (block.root, Word::Atom(fixed::TRUE.slot()));
    let Word::Comp(k) = block.root else {
        return fact;
    };
    let head = block_head(block, k);
    if head.name == fixed::NECK.slot() && head.count == 2 {
        (
            block_word(block, head.start as usize),
            block_word(block, head.start as usize + 1),
        )
    } else {
        fact
    }
}

/// The first node of the head of the clause that the block is of.
pub fn head_node(block: &Block) -> AtomNode
    requires block { IsBlock block.now }
    requires inside { IsIn (block_heap block.now) block.now.head }
    requires first { IsFirst block.now }
    ensures { (d : Node) → node_view result ≡ slice_index_or (nodes (part_of block.now block.now.head)) 0 d }
{
    match block.head {
        Word::Comp(_) => AtomNode::Comp(block.first.name, block.first.count as usize),
        Word::Atom(a) => AtomNode::Atom(a),
        Word::Int(i) => AtomNode::Int(i),
        Word::Var(x) => AtomNode::Var(x as u64),
    }
}

/// Whether the head of a clause is another word than the clause, as that of a rule is.
pub fn is_apart(root: Word, head: Word) -> bool
    ensures { result ≡ head_is_apart root head }
{
    match root {
        Word::Comp(k) => match head {
            Word::Comp(j) => j != k,
            _ => true,
        },
        _ => false,
    }
}

/// What stands below each compound term of a block with so many variables. The only error is out of memory.
fn ranges_of(alloc: Global, heads: &[Head], args: &Words, count: u64) -> Result<Vec<Range>, Memory>
    requires { (k : ℕ) → k < length heads.now → IsHead count args.now.items k (slice_index_or heads.now k no_head) }
    ensures long { IfOk result (λ rs. length rs.items ≡ length heads.now) }
    ensures ranges { IfOk result (λ rs. AreRanges count heads.now args.now.items (length heads.now) rs.items) }
{
    let mut all = Vec::new(alloc);
    let mut before = Vec::new(alloc);
    for k in 0..heads.len() {
        let range = range_at(heads, args, &mut before, k, count);
        before.push(range)?;
        all.push(range)?;
    }
    Ok(all)
}

/// What stands below the compound term at a place, where `before` has ranges for all those before it. The ranges of those that
/// stand below it are taken off.
fn range_at(heads: &[Head], args: &Words, before: &mut Vec<Range>, k: usize, count: u64) -> Range
    requires heads { (j : ℕ) → j < length heads.now → IsHead count args.now.items j (slice_index_or heads.now j no_head) }
    requires within { k < length heads.now }
    requires tiles { Tiles count heads.now args.now.items 0 before.old.items k }
    ensures range { IsRange count heads.now args.now.items k result }
    ensures tiles { Tiles count heads.now args.now.items 0 (before.new.items ++ result ∷ []) (k + 1) }
{
    let head = heads[k];
    let own = own_range(args, head, k, count);
    let mut range = Range {
        low: k,
        variables: own.variables,
    };
    while own.low < range.low {
        let Some(last) = before.pop() else {
            return range;
        };
        range = joined(last, range);
    }
    range
}

/// The head of a compound term of the block.
pub fn block_head(block: &Block, k: usize) -> Head
    requires { k < length block.now.heads.items }
    ensures { result ≡ slice_index_or block.now.heads.items k no_head }
{
    block.heads[k]
}

/// The argument of the block at a place.
pub fn block_word(block: &Block, at: usize) -> Word
    requires { at < length block.now.args.items }
    ensures { result ≡ slice_index_or block.now.args.items at (Word.Int (pos 0)) }
{
    block.args.get(at)
}

/// The range of what is in two that stand one after the other.
fn joined(first: Range, second: Range) -> Range
    ensures low { result.low ≡ first.low }
    ensures first { first.variables ≤ result.variables }
    ensures second { second.variables ≤ result.variables }
    ensures few { (n : ℕ) → first.variables ≤ n → second.variables ≤ n → result.variables ≤ n }
{
    Range {
        low: first.low,
        variables: if first.variables < second.variables {
            second.variables
        } else {
            first.variables
        },
    }
}

/// What the arguments of the compound term at a place name.
fn own_range(args: &Words, head: Head, k: usize, count: u64) -> Range
    requires within { head.start + head.count ≤ length args.now.items }
    requires words { All (IsWord count k) (words_of args.now.items head) }
    ensures low { result.low ≤ k }
    ensures few { result.variables ≤ count }
    ensures parts { All (IsPart result) (words_of args.now.items head) }
{
    let mut range = Range {
        low: k,
        variables: 0,
    };
    for i in 0..head.count {
        let word = args.get(head.start as usize + i as usize);
        range = with_word(range, word, k, count);
    }
    range
}

/// The range with what one more word names.
fn with_word(range: Range, word: Word, k: usize, count: u64) -> Range
    requires few { range.variables ≤ count }
    requires word { IsWord count k word }
    ensures low { result.low ≤ range.low }
    ensures more { range.variables ≤ result.variables }
    ensures few { result.variables ≤ count }
    ensures part { IsPart result word }
{
    match word {
        Word::Var(x) => Range {
            low: range.low,
            variables: if x < range.variables {
                range.variables
            } else {
                x + 1
            },
        },
        Word::Int(_) => range,
        Word::Atom(_) => range,
        Word::Comp(j) => Range {
            low: if j < range.low { j } else { range.low },
            variables: range.variables,
        },
    }
}
