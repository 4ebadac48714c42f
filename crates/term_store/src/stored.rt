//! Terms outside of a store.
ghost use Rattle.std.specs.Prelude.{◌≡◌, ◌+◌, ◌<◌, ◌^◌, length, zero, IfOk, IfSome, OnOk};
ghost use Rattle.std.specs.List.{All};
ghost use Rattle.pl_term.specs.Cells.{cells};
ghost use Rattle.pl_term.specs.NodeLists.{met_with, node_cells, rename_node};
ghost use Rattle.pl_term.specs.Nodes.{nodes, tree};
ghost use Rattle.pl_term.specs.Variables.{place, rename, variables};
ghost use Rattle.term_store.specs.Entering.{IsBlockOf};
ghost use Rattle.term_store.specs.NumberedNames.{is_rule_term};
ghost use Rattle.term_store.specs.Nodes.{IsNodeBelow, IsSpelled, node_view, node_views};
ghost use Rattle.term_store.specs.StoredTerms.{IsStored};

use crate::block::{Block, block_of, is_apart};
use crate::nodes::{AtomNode, is_rule};
use crate::numbering::Numbering;
use pl_term::Memory;
use std::alloc::Global;
use std::marker::Model;
use std::sync::Arc;

/// A term outside of a store, seen by contracts as a term whose names stand for atoms. Its variables are numbered from 0
/// on in the order in which they first occur. It is kept as its nodes in prefix order, with the number of its variables
/// and of its cells, and a clause also as a block. All this never changes, and lies behind a counted pointer, so that many
/// may hold the one term.
#[derive(Debug, Drop)]
pub struct Stored {
    forms: Arc<Forms>,
    variables: u64,
    cells: u64,
}

/// A term as a block, maybe, and as its nodes in prefix order.
#[derive(Debug, Drop)]
pub struct Forms {
    pub block: Option<Block>,
    pub nodes: Vec<AtomNode>,
}

impl Model for Stored {
    ghost use Rattle.pl_term.specs.Tree.{Tree};
    ghost use Rattle.pl_term.specs.Nodes.{tree, coded_tree};
    ghost use Rattle.std.specs.Arc.{arc_value};
    ghost use Rattle.std.specs.Prelude.{IfSome};
    ghost use Rattle.term_store.specs.Entering.{IsBlockOf};
    ghost use Rattle.term_store.specs.Nodes.{node_views};
    ghost use Rattle.term_store.specs.StoredTerms.{IsStored};

    ghost Value = { Tree };

    ghost coded = { coded_tree };

    ghost view = { λ s. tree (node_views (arc_value s.forms).nodes.items) };

    ghost invariant = { λ s. IsStored (arc_value s.forms).nodes.items s.variables s.cells
        × IfSome (arc_value s.forms).block (IsBlockOf s.variables (tree (node_views (arc_value s.forms).nodes.items))) };
}

impl Stored {
    /// The term that these nodes spell in prefix order, its variables numbered from 0 on in the order in which they
    /// first occur. The only error is out of memory.
    pub fn from_nodes(alloc: Global, nodes: &[AtomNode]) -> Result<Stored, Memory>
        requires { IsSpelled nodes.now }
        ensures { IfOk result (λ s. s ≡ rename zero (tree (node_views nodes.now))) }
    {
        Stored::with_forms(alloc, nodes, false)
    }

    /// The same, kept in both forms, as a clause that is to be entered often.
    pub fn clause_from_nodes(alloc: Global, nodes: &[AtomNode]) -> Result<Stored, Memory>
        requires { IsSpelled nodes.now }
        ensures { IfOk result (λ s. s ≡ rename zero (tree (node_views nodes.now))) }
    {
        Stored::with_forms(alloc, nodes, true)
    }

    /// The term that these nodes spell, as `from_nodes` has it, as a block too where it is wanted.
    fn with_forms(alloc: Global, nodes: &[AtomNode], as_block: bool) -> Result<Stored, Memory>
        requires { IsSpelled nodes.now }
        ensures { IfOk result (λ s. s ≡ rename zero (tree (node_views nodes.now))) }
    {
        let mut met = Numbering::new(alloc);
        let mut all = Vec::new(alloc);
        let mut sum: u64 = 0;
        for n in nodes {
            let m = renumbered(n, &mut met)?;
            sum = with_cells(sum, &m)?;
            all.push(m)?;
        }
        let variables = met.len();
        let Some(cells) = sum.checked_add(variables) else {
            return Err(Memory);
        };
        let forms = forms_of(alloc, all, variables, cells, as_block)?;
        let forms = Arc::new(alloc, forms)?;
        Ok(Stored {
            forms,
            variables,
            cells,
        })
    }

    /// The same term for another holder. Its nodes are not copied. The only error is that so many hold it that they can no
    /// longer be counted.
    pub fn share(&self) -> Result<Stored, Memory>
        ensures { IfOk result (λ s. s ≡ self.now) }
    {
        let forms = Arc::try_clone(&self.forms)?;
        Ok(Stored {
            forms,
            variables: self.variables,
            cells: self.cells,
        })
    }

    /// The term's nodes in prefix order.
    pub fn nodes(&self) -> &[AtomNode]
        ensures spelled { node_views result.now ≡ nodes self.now }
        ensures numbered { rename zero self.now ≡ self.now }
        ensures below { All (IsNodeBelow (length (variables self.now))) result.now }
    {
        self.forms.nodes.as_slice()
    }

    /// The term as a block, if it is kept so.
    pub(crate) fn block(&self) -> Option<&Block>
        ensures { IfSome result (λ b. IsBlockOf (length (variables self.now)) self.now b.now) }
    {
        self.forms.block.as_ref()
    }

    /// Whether the term is a rule Head :- Body. What is kept as a block too is asked of it, which stands with the counts of the
    /// lists and not behind them.
    pub(crate) fn is_rule(&self) -> bool
        ensures { result ≡ is_rule_term self.now }
    {
        match self.block() {
            Some(block) => is_apart(block.root, block.head),
            None => is_rule(&self.nodes()[0]),
        }
    }

    /// How many variables the term has.
    pub fn variables(&self) -> u64
        ensures { result ≡ length (variables self.now) }
    {
        self.variables
    }

    /// The term's cells: n + 1 for each compound term of n arguments, and one for each variable.
    pub fn cells(&self) -> u64
        ensures { result ≡ cells self.now }
    {
        self.cells
    }
}

/// The forms of a term of so many variables and cells, the second one where it is wanted. The only error is out of memory.
fn forms_of(
    alloc: Global,
    nodes: Vec<AtomNode>,
    variables: u64,
    cells: u64,
    as_block: bool,
) -> Result<Forms, Memory>
    requires { IsStored nodes.items variables cells }
    ensures nodes { IfOk result (λ f. f.nodes.items ≡ nodes.items) }
    ensures block { IfOk result (λ f. IfSome f.block (IsBlockOf variables (tree (node_views nodes.items)))) }
{
    if as_block {
        let block = block_of(alloc, &nodes, variables)?;
        Ok(Forms {
            nodes,
            block: Some(block),
        })
    } else {
        Ok(Forms { nodes, block: None })
    }
}

/// The node in which a variable has the number of its place among those met.
fn renumbered(n: &AtomNode, met: &mut Numbering) -> Result<AtomNode, Memory>
    ensures met { OnOk result (met.new ≡ met_with (node_view n.now) met.old) }
    ensures renamed { IfOk result (λ m. node_view m ≡ rename_node (λ x. zero + place x met.new) (node_view n.now)) }
    ensures below { IfOk result (IsNodeBelow (length met.new)) }
{
    match n {
        AtomNode::Var(x) => Ok(AtomNode::Var(met.number(*x)?)),
        AtomNode::Int(i) => Ok(AtomNode::Int(*i)),
        AtomNode::Atom(a) => Ok(AtomNode::Atom(*a)),
        AtomNode::Comp(f, k) => Ok(AtomNode::Comp(*f, *k)),
    }
}

/// The sum and the cells of the compound term that the node begins. It refuses a sum of 2^64 and more.
fn with_cells(sum: u64, n: &AtomNode) -> Result<u64, Memory>
    ensures { IfOk result (λ s. s ≡ sum + node_cells (node_view n.now)) }
{
    let AtomNode::Comp(_, k) = n else {
        return Ok(sum);
    };
    let Some(more) = sum.checked_add(*k as u64) else {
        return Err(Memory);
    };
    match more.checked_add(1) {
        Some(all) => Ok(all),
        None => Err(Memory),
    }
}
