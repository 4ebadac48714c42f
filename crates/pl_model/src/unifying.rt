//! Unification of flat terms.
ghost use Rattle.std.specs.Prelude.{◌≡◌, ◌≢◌, ◌+◌, ◌<◌, ◌≤◌, [], ◌∷◌, ◌++◌, if◌then◌else◌, length, drop, option_map, IfOk, IfNone, IfSome, OnOk};
ghost use Rattle.std.specs.List.{list_any};
ghost use Rattle.pl_term.specs.Tree.{var};
ghost use Rattle.pl_model.specs.Unify.{binds, difference, unify};
ghost use Rattle.pl_model.specs.laws.UnifySides.{is_variable, variable_at, put_in, Facing, DiffersAt};
ghost use Rattle.pl_model.specs.laws.UnifyTurns.{Finds, Turned};

use crate::subterms::{copied, term_at};
use pl_term::{Flat, Memory, Node};
use std::alloc::Global;
use std::marker::Model;

/// Bindings, each a variable with the term that replaces it, in the order in which they were made.
pub type Bindings = Vec<(u64, Flat)>;

/// What is left of one of two terms: the nodes from a place on, of the term itself or of an instance of it.
#[derive(Drop)]
struct Side<'a> {
    given: &'a [Node],
    own: Option<Vec<Node>>,
    at: usize,
}

impl<'a> Model for Side<'a> {
    ghost use Rattle.std.specs.Prelude.{List, length, drop, ◌≤◌};
    ghost use Rattle.std.specs.Coded.{coded_list};
    ghost use Rattle.pl_term.specs.declared.node.Node.{Node};
    ghost use Rattle.pl_term.specs.Nodes.{coded_node};

    ghost Value = { List Node };

    ghost coded = { coded_list coded_node };

    ghost use Rattle.pl_model.specs.laws.UnifySides.{all_of};

    ghost view = { λ s. drop s.at (all_of s.own s.given.now) };

    ghost invariant = { λ s. s.at ≤ length (all_of s.own s.given.now) };
}

impl<'a> Side<'a> {
    fn new(given: &'a [Node]) -> Side<'a>
        ensures { result ≡ given.now }
    {
        Side {
            given,
            own: None,
            at: 0,
        }
    }

    fn nodes(&self) -> &[Node]
        ensures { result.now ≡ self.now }
    {
        match &self.own {
            Some(own) => &own.as_slice()[self.at..],
            None => &self.given[self.at..],
        }
    }

    /// Leaves out the first `count` nodes, and puts others for each occurrence of the variable in the rest. The
    /// only error is out of memory. Nothing is allocated where the variable does not occur.
    fn advance(
        &mut self,
        alloc: Global,
        count: usize,
        variable: u64,
        value: &[Node],
    ) -> Result<(), Memory>
        requires { count ≤ length self.old }
        ensures { OnOk result (self.new ≡ put_in variable value.now (drop count self.old)) }
    {
        let rest = &self.nodes()[count..];
        if occurs(variable, rest) {
            let own = replaced(alloc, rest, variable, value)?;
            self.own = Some(own);
            self.at = 0;
        } else {
            self.at += count;
        }
        Ok(())
    }

    /// The nodes as a list of one's own. The only error is out of memory.
    fn into_nodes(self, alloc: Global) -> Result<Vec<Node>, Memory>
        ensures { IfOk result (λ v. v.items ≡ self.entry) }
    {
        let Side { given, own, at } = self;
        match own {
            Some(own) => {
                if at == 0 {
                    Ok(own)
                } else {
                    copied(alloc, &own.as_slice()[at..])
                }
            }
            None => copied(alloc, &given[at..]),
        }
    }
}

fn is_this_variable(node: &Node, variable: u64) -> bool
    ensures { result ≡ is_variable variable node.now }
{
    match node {
        Node::Var(y) => variable == *y,
        Node::Int(_) => false,
        Node::Atom(_) => false,
        Node::Comp(_, _) => false,
    }
}

fn occurs(variable: u64, all: &[Node]) -> bool
    ensures { result ≡ list_any (is_variable variable) all.now }
{
    all.iter().any(|node| is_this_variable(node, variable))
}

/// Puts copies of these nodes at the end of `all`. After running out of memory, `all` has got some of them.
fn append(alloc: Global, all: &mut Vec<Node>, more: &[Node]) -> Result<(), Memory>
    ensures { OnOk result (all.new.items ≡ all.old.items ++ more.now) }
{
    for node in more {
        all.push(node.copy(alloc)?)?;
    }
    Ok(())
}

/// Puts a copy of the node at the end of `put`, or of others where the node is the variable. After running out of memory,
/// `put` has got some of them.
fn put_node(
    alloc: Global,
    put: &mut Vec<Node>,
    node: &Node,
    variable: u64,
    value: &[Node],
) -> Result<(), Memory>
    ensures { OnOk result (put.new.items
        ≡ put.old.items ++ (if is_variable variable node.now then value.now else node.now ∷ [])) }
{
    if is_this_variable(node, variable) {
        return append(alloc, put, value);
    }
    put.push(node.copy(alloc)?)?;
    Ok(())
}

/// The nodes with others in place of each occurrence of the variable. The only error is out of memory.
fn replaced(alloc: Global, all: &[Node], variable: u64, value: &[Node]) -> Result<Vec<Node>, Memory>
    ensures { IfOk result (λ v. v.items ≡ put_in variable value.now all.now) }
{
    let mut put = Vec::with_capacity(alloc, all.len())?;
    for node in all {
        put_node(alloc, &mut put, node, variable, value)?;
    }
    Ok(put)
}

/// The first place at which two lists of nodes differ, each the nodes of as many terms as the other.
fn first_difference(left: &[Node], right: &[Node]) -> Option<usize>
    requires { Facing left.now right.now }
    ensures none { IfNone result (left.now ≡ right.now) }
    ensures some { IfSome result (λ i. DiffersAt left.now right.now i) }
{
    for i in 0..left.len() {
        if !left[i].same(&right[i]) {
            return Some(i);
        }
    }
    None
}

/// A variable and the term that it is to be bound to, and how many nodes the terms have that they were found in.
#[derive(Drop)]
struct Found {
    variable: u64,
    value: Flat,
    left: usize,
    right: usize,
}

fn variable_of(node: &Node) -> Option<u64>
    ensures { result ≡ variable_at node.now }
{
    match node {
        Node::Var(x) => Some(*x),
        Node::Int(_) => None,
        Node::Atom(_) => None,
        Node::Comp(_, _) => None,
    }
}

/// Of two variables, the greater is to be bound to the other. The only error is out of memory.
fn two_variables(alloc: Global, x: u64, y: u64) -> Result<Found, Memory>
    requires { x ≢ y }
    ensures binds { IfOk result (λ f. difference (var x) (var y) ≡ binds f.variable f.value) }
    ensures sizes { IfOk result (λ f. (f.left ≡ 1) × (f.right ≡ 1)) }
{
    if x < y {
        return Ok(Found {
            variable: y,
            value: Flat::var(alloc, x)?,
            left: 1,
            right: 1,
        });
    }
    Ok(Found {
        variable: x,
        value: Flat::var(alloc, y)?,
        left: 1,
        right: 1,
    })
}

/// The variable that the difference of the first two terms binds, where one of them is a variable: of two
/// variables the greater. The only error is out of memory. Nothing is allocated where neither is a variable.
fn difference(alloc: Global, left: &[Node], right: &[Node]) -> Result<Option<Found>, Memory>
    requires facing { Facing left.now right.now }
    requires differs { DiffersAt left.now right.now 0 }
    ensures { IfOk result (λ f. Finds left.now right.now f) }
{
    match (variable_of(&left[0]), variable_of(&right[0])) {
        (Some(x), Some(y)) => Ok(Some(two_variables(alloc, x, y)?)),
        (Some(variable), None) => {
            let (value, right) = term_at(alloc, right, 0)?;
            Ok(Some(Found {
                variable,
                value,
                left: 1,
                right,
            }))
        }
        (None, Some(variable)) => {
            let (value, left) = term_at(alloc, left, 0)?;
            Ok(Some(Found {
                variable,
                value,
                left,
                right: 1,
            }))
        }
        (None, None) => Ok(None),
    }
}

/// What one turn of unification ends in.
#[derive(Drop)]
enum Outcome {
    /// The terms are the same.
    Same,
    /// They have no common instance.
    Clash,
    /// One more variable is bound to this term.
    Binds(u64, Flat),
}

/// One turn. Where a variable is bound, what the two sides had up to it is left out, and the term is put for the
/// variable in the rest. The only error is out of memory.
fn turn(alloc: Global, left: &mut Side, right: &mut Side) -> Result<Outcome, Memory>
    requires { Facing left.old right.old }
    ensures { IfOk result (λ o. Turned o left.old right.old left.new right.new) }
{
    let Some(at) = first_difference(left.nodes(), right.nodes()) else {
        return Ok(Outcome::Same);
    };
    let Some(found) = difference(alloc, &left.nodes()[at..], &right.nodes()[at..])? else {
        return Ok(Outcome::Clash);
    };
    if occurs(found.variable, found.value.nodes()) {
        return Ok(Outcome::Clash);
    }
    left.advance(alloc, at + found.left, found.variable, found.value.nodes())?;
    right.advance(alloc, at + found.right, found.variable, found.value.nodes())?;
    Ok(Outcome::Binds(found.variable, found.value))
}

/// Unifies two terms with the occurs check (ISO 7.3.2): the bindings that do, in the order in which they are to be
/// put in, or `None` where no substitution makes the terms equal. The only error is out of memory. Nothing is
/// allocated where the terms are the same, nor where they differ first in a node that is no variable.
pub fn unify(alloc: Global, a: &Flat, b: &Flat) -> Result<Option<Bindings>, Memory>
    ensures { IfOk result (λ r. option_map (λ v. v.items) r ≡ unify a.now b.now) }
{
    let mut left = Side::new(a.nodes());
    let mut right = Side::new(b.nodes());
    let mut bindings = Vec::new(alloc);
    let turns = a.nodes().len() + b.nodes().len() + 1;
    for _turn in 0..turns {
        match turn(alloc, &mut left, &mut right)? {
            Outcome::Same => return Ok(Some(bindings)),
            Outcome::Clash => return Ok(None),
            Outcome::Binds(variable, value) => bindings.push((variable, value))?,
        }
    }
    Ok(None)
}
