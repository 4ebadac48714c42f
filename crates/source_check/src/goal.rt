//! Directives, and what their goals change of what follows them.
#![tactic(auto, using(crate::proofs::WordTexts::words))]

ghost use Rattle.std.specs.Prelude.{◌≡◌, IfOk};
ghost use Rattle.std.specs.Option.{option_map};
ghost use Rattle.source_check.specs.Checkers.{effect_of};
ghost use Rattle.source_check.specs.GoalNodes.{effect_in, effect_named, flag_in, goal_nodes, is_arrow, operators_in, priority_in, quotes_in, specifier_in};

use crate::change::Change;
use crate::names::names_in;
use crate::spelled::{is_spelled, kind_named, quotes_named};
use pl_model::grammar::Quotes;
use pl_model::operators::Kind;
use pl_term::{Memory, Node, Text};
use std::alloc::Global;

/// The highest priority of an operator (ISO 6.3.4.2).
const HIGHEST_PRIORITY: i64 = 1200;

/// The nodes of the goal of a directive, or none where the item with these nodes is a clause-term.
pub fn goal_in(item: &[Node]) -> Option<&[Node]>
    ensures { option_map (λ ns. ns.now) result ≡ goal_nodes item.now }
{
    match item {
        [Node::Comp(name, arity), goal @ ..] => {
            if *arity == 1 && is_arrow(name) {
                return Some(goal);
            }
            None
        }
        _ => None,
    }
}

/// Whether a term of this name and one argument is a directive (ISO 7.4.2, 7.4.3).
fn is_arrow(name: &Text) -> bool
    ensures { result ≡ is_arrow name.now }
{
    is_spelled(name, ":-") || is_spelled(name, "?-")
}

/// What the goal with these nodes changes. The only error is out of memory.
pub fn change_in(alloc: Global, goal: &[Node]) -> Result<Change, Memory>
    ensures { IfOk result (λ x. effect_of x ≡ effect_in goal.now) }
{
    match goal {
        [Node::Comp(name, arity), arguments @ ..] => {
            change_named(alloc, name, *arity, arguments)
        }
        _ => Ok(Change::Nothing),
    }
}

/// What the goal of this name changes that has so many arguments, with these nodes. The only error is out of memory.
fn change_named(
    alloc: Global,
    name: &Text,
    arity: u64,
    arguments: &[Node],
) -> Result<Change, Memory>
    ensures { IfOk result (λ x. effect_of x ≡ effect_named name.now arity arguments.now) }
{
    match arity {
        3 => three_named(alloc, name, arguments),
        2 => Ok(two_named(name, arguments)),
        _ => Ok(Change::Nothing),
    }
}

/// The same of a goal with three arguments. The only error is out of memory.
fn three_named(alloc: Global, name: &Text, arguments: &[Node]) -> Result<Change, Memory>
    ensures { IfOk result (λ x. effect_of x ≡ effect_named name.now 3 arguments.now) }
{
    if is_spelled(name, "op") {
        return operators_in(alloc, arguments);
    }
    Ok(Change::Nothing)
}

/// The same of a goal with two arguments.
fn two_named(name: &Text, arguments: &[Node]) -> Change
    ensures { effect_of result ≡ effect_named name.now 2 arguments.now }
{
    if is_spelled(name, "set_prolog_flag") {
        return flag_in(arguments);
    }
    Change::Nothing
}

/// What op/3 with arguments of these nodes changes (ISO 8.14.3). The only error is out of memory.
fn operators_in(alloc: Global, arguments: &[Node]) -> Result<Change, Memory>
    ensures { IfOk result (λ x. effect_of x ≡ operators_in arguments.now) }
{
    let [priority, specifier, names @ ..] = arguments else {
        return Ok(Change::Nothing);
    };
    let Some(priority) = priority_in(priority) else {
        return Ok(Change::Nothing);
    };
    let Some(kind) = specifier_in(specifier) else {
        return Ok(Change::Nothing);
    };
    match names_in(alloc, names)? {
        Some(names) => Ok(Change::Operators {
            priority,
            kind,
            names,
        }),
        None => Ok(Change::Nothing),
    }
}

/// The priority that this node is, if it is one.
fn priority_in(node: &Node) -> Option<u16>
    ensures { result ≡ priority_in node.now }
{
    match node {
        Node::Int(n) if 0 <= *n && *n <= HIGHEST_PRIORITY => Some(*n as u16),
        _ => None,
    }
}

/// The specifier that this node is, if it is one.
fn specifier_in(node: &Node) -> Option<Kind>
    ensures { result ≡ specifier_in node.now }
{
    match node {
        Node::Atom(name) => kind_named(name),
        _ => None,
    }
}

/// What set_prolog_flag/2 with arguments of these nodes changes (ISO 8.17.1).
fn flag_in(arguments: &[Node]) -> Change
    ensures { effect_of result ≡ flag_in arguments.now }
{
    let [flag, value, ..] = arguments else {
        return Change::Nothing;
    };
    match quotes_in(flag, value) {
        Some(quotes) => Change::Quotes(quotes),
        None => Change::Nothing,
    }
}

/// What texts in double quotes are read as where these are the flag `double_quotes` and its value.
fn quotes_in(flag: &Node, value: &Node) -> Option<Quotes>
    ensures { result ≡ quotes_in flag.now value.now }
{
    match (flag, value) {
        (Node::Atom(name), Node::Atom(value)) => {
            if is_spelled(name, "double_quotes") {
                return quotes_named(value);
            }
            None
        }
        _ => None,
    }
}
