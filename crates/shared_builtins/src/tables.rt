//! Tables that the shared state told.
ghost use Rattle.std.specs.Prelude.{◌≡◌, IfOk, map};
ghost use Rattle.std.specs.List.{filter_map};
ghost use Rattle.shared_builtins.specs.Operators.{name_of};
ghost use Rattle.shared_builtins.specs.Replies.{constant_in, flag_line, node_constant};

use crate::operators::specifier_of;
use atom_api::Atom;
use iso_search::told::{Constant, Line};
use pl_term::Memory;
use std::alloc::Global;
use term_store::{AtomNode, Stored};
use world_api::{FlagValue, Operator, Procedure};

/// The lines of current_predicate/1. The only error is out of memory. So below.
pub fn indicator_lines(alloc: Global, all: &[Procedure]) -> Result<Vec<Line>, Memory>
    ensures { IfOk result (λ ls. ls.items ≡ map (λ p. Line.Indicator p.name p.arity) all.now) }
{
    let lines = all
        .iter()
        .map(|p| Line::Indicator(p.name, p.arity))
        .collect(alloc)?;
    Ok(lines)
}

/// The lines of current_prolog_flag/2, of the flags whose values are constants.
pub fn flag_lines(alloc: Global, all: &[FlagValue<Stored>]) -> Result<Vec<Line>, Memory>
    ensures { IfOk result (λ ls. ls.items ≡ filter_map flag_line all.now) }
{
    let lines = all
        .iter()
        .filter_map(|flag| flag_line(flag))
        .collect(alloc)?;
    Ok(lines)
}

/// The lines of current_op/3.
pub fn operator_lines(alloc: Global, all: &[Operator]) -> Result<Vec<Line>, Memory>
    ensures { IfOk result (λ ls. ls.items ≡ map (λ o. Line.Operator o.priority (name_of o.kind) o.name) all.now) }
{
    let lines = all
        .iter()
        .map(|o| Line::Operator(o.priority, specifier_of(o.kind), o.name))
        .collect(alloc)?;
    Ok(lines)
}

/// The line of a flag, if its value is a constant.
fn flag_line(flag: &FlagValue<Stored>) -> Option<Line>
    ensures { result ≡ flag_line flag.now }
{
    match constant_of(&flag.value) {
        Some(constant) => Some(Line::Flag(flag.flag, constant)),
        None => None,
    }
}

/// The constant that a term is, if it is one.
fn constant_of(term: &Stored) -> Option<Constant>
    ensures { result ≡ constant_in term.now }
{
    let nodes = term.nodes();
    constant_at(&nodes[0])
}

/// The constant that a node is, if it is one.
fn constant_at(node: &AtomNode) -> Option<Constant>
    ensures { result ≡ node_constant node.now }
{
    match node {
        AtomNode::Var(_) => None,
        AtomNode::Int(i) => Some(Constant::Int(*i)),
        AtomNode::Atom(name) => Some(Constant::Atom(Atom::at(*name))),
        AtomNode::Comp(_, _) => None,
    }
}
