//! Loading a stored term.
ghost use Rattle.std.specs.Prelude.{◌≡◌, ◌+◌, ◌<◌, ◌^◌, ◌++◌, ℕ, IfOk, OnOk};
ghost use Rattle.std.specs.List.{All};
ghost use Rattle.pl_term.specs.Nodes.{tree};
ghost use Rattle.pl_term.specs.Variables.{rename_by};
ghost use Rattle.term_store.specs.Cells.{IsFit, heap_of};
ghost use Rattle.term_store.specs.Contents.{upwards};
ghost use Rattle.term_store.specs.Making.{Keeps, Longer, with_numbers};
ghost use Rattle.term_store.specs.Nodes.{IsNodeBelow, IsSpelled, StandsFor, node_views};

use crate::build::build;
use crate::cells::Cells;
use crate::make::make_variable;
use crate::nodes::AtomNode;
use crate::words::Word;
use pl_term::Memory;

/// Loads the term that the nodes spell, with so many new variables, which are numbered from `from` on. `stack` is room
/// for the words made so far. After running out of memory, which is the only error, some of it may have been made.
pub fn load(
    cells: &mut Cells,
    stack: &mut Vec<Word>,
    nodes: &[AtomNode],
    count: u64,
    from: u64,
) -> Result<Word, Memory>
    requires fit { IsFit cells.old }
    requires spelled { IsSpelled nodes.now }
    requires below { All (IsNodeBelow count) nodes.now }
    requires above { All (λ n. n < from) cells.old.numbers.items }
    requires room { from + count < 2 ^ 64 }
    ensures fit { IsFit cells.new }
    ensures longer { Longer (heap_of cells.old) (heap_of cells.new) }
    ensures keeps { Keeps (heap_of cells.old) (heap_of cells.new) }
    ensures numbers { OnOk result (cells.new.numbers.items ≡ cells.old.numbers.items ++ upwards from count) }
    ensures loaded { IfOk result (StandsFor (heap_of cells.new) (rename_by (λ x. from + x) (tree (node_views nodes.now)))) }
{
    let base = cells.numbers.len();
    make_variables(cells, from, count)?;
    build(cells, stack, nodes, base)
}

/// Makes so many variables, numbered from `from` on. After running out of memory, which is the only error, some may be made.
fn make_variables(cells: &mut Cells, from: u64, count: u64) -> Result<(), Memory>
    requires fit { IsFit cells.old }
    requires above { All (λ n. n < from) cells.old.numbers.items }
    requires room { from + count < 2 ^ 64 }
    ensures fit { IsFit cells.new }
    ensures made { (k : ℕ) × (heap_of cells.new ≡ with_numbers (heap_of cells.old) (upwards from k)) }
    ensures all { OnOk result (heap_of cells.new ≡ with_numbers (heap_of cells.old) (upwards from count)) }
{
    for i in 0..count {
        let _ = make_variable(cells, from + i)?;
    }
    Ok(())
}
