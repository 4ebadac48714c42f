//! The check of a clause-term, with the conversion of its body to the goal that is run (ISO 7.6).
#![tactic(auto, using(crate::proofs::WordTexts::words))]

ghost use Rattle.std.specs.Prelude.{◌≡◌, ◌++◌, ◌<◌, ◌^◌, IfOk, OnOk, IsTrue, bytes_eq, length, zero};
ghost use Rattle.std.specs.Char.{is_ascii};
ghost use Rattle.std.specs.List.{list_all};
ghost use Rattle.pl_term.specs.Variables.{rename, variables};
ghost use Rattle.pl_model.specs.BodyChecks.{is_transparent, converted as goal_of, clause_of_term, clause_of as head_and_body, with_body as body_for, body_of, numbered_clause as numbered};
ghost use Rattle.pl_consult.specs.Checks.{kept_clause, checked_of, IsNumbered};
ghost use Rattle.pl_consult.specs.BodyNodes.{is_integer as integer, goal_nodes, is_control as control, goals_behind as goals_after, terms_behind as terms_after, is_rule as rule};

use crate::subterms::{arity, two_arguments};
use crate::words::{instantiation_error, not_callable, word};
use pl_term::{Flat, Memory, Node, Text};
use std::alloc::Global;

/// What a clause-term gives.
#[derive(Debug, Drop)]
pub enum Checked {
    /// A clause as one term `Head :- Body`, its body converted and its variables numbered from 0 in the order in which
    /// they first occur.
    Clause(Flat),
    /// The error term for which it is refused (ISO 8.9.1.3, a to c).
    Refused(Flat),
}

/// The clause that a clause-term gives, or the error for which it is refused. The only error is out of memory.
pub fn checked_clause(alloc: Global, term: &Flat) -> Result<Checked, Memory>
    ensures checked { IfOk result (λ c. checked_of c ≡ clause_of_term term.now) }
    ensures numbered { IfOk result IsNumbered }
{
    if is_rule(term) {
        let (head, body) = two_arguments(alloc, term)?;
        return check_head(alloc, head, body);
    }
    let body = word(alloc, "true")?;
    check_head(alloc, term.copy(alloc)?, body)
}

/// Whether the term is a rule Head :- Body.
fn is_rule(term: &Flat) -> bool
    ensures { result ≡ rule term.now }
{
    match &term.nodes()[0] {
        Node::Comp(f, k) => *k == 2 && f.is(":-"),
        _ => false,
    }
}

/// The clause with this head and this body, or the error for which it is refused.
fn check_head(alloc: Global, head: Flat, body: Flat) -> Result<Checked, Memory>
    ensures checked { IfOk result (λ c. checked_of c ≡ head_and_body head body) }
    ensures numbered { IfOk result IsNumbered }
{
    match &head.nodes()[0] {
        Node::Var(_) => Ok(Checked::Refused(instantiation_error(alloc)?)),
        Node::Int(_) => Ok(Checked::Refused(not_callable(alloc, head)?)),
        Node::Atom(_) => check_body(alloc, head, body),
        Node::Comp(_, _) => check_body(alloc, head, body),
    }
}

/// The clause with this head, which is one of a predicate, and this body, or the error for which it is refused.
fn check_body(alloc: Global, head: Flat, body: Flat) -> Result<Checked, Memory>
    ensures checked { IfOk result (λ c. checked_of c ≡ body_for head (body_of body)) }
    ensures numbered { IfOk result IsNumbered }
{
    match converted(alloc, &body)? {
        None => Ok(Checked::Refused(not_callable(alloc, body)?)),
        Some(goal) => Ok(Checked::Clause(numbered_clause(alloc, head, goal)?)),
    }
}

/// The clause with this head and this goal as its body.
fn numbered_clause(alloc: Global, head: Flat, goal: Flat) -> Result<Flat, Memory>
    ensures kept { IfOk result (λ c. kept_clause c ≡ numbered head goal) }
    ensures numbered { IfOk result (λ c. rename zero c ≡ c) }
{
    let neck = Text::from_str(alloc, ":-")?;
    let rule = Flat::comp(alloc, &neck, &[head, goal])?;
    bounded_variables(&rule);
    let (copy, _) = rule.rename(alloc, 0)?;
    Ok(copy)
}

/// No term in memory has 2^63 variables.
pub fn bounded_variables(t: &Flat)
    ensures { length (variables t.now) < 2 ^ 63 }
{
    let _ = t.nodes();
}

/// The goal that a body stands for (ISO 7.6.2): each variable X that stands in the place of a goal becomes call(X).
/// None where an integer stands in the place of a goal. The only error is out of memory.
fn converted(alloc: Global, body: &Flat) -> Result<Option<Flat>, Memory>
    ensures { IfOk result (λ goal. goal ≡ goal_of body.now) }
{
    let mut all = Vec::new(alloc);
    let mut goals: u64 = 1;
    let mut terms: u64 = 0;
    for node in body.nodes() {
        if terms > 0 {
            all.push(node.copy(alloc)?)?;
            terms = terms - 1 + arity(node);
        } else if is_integer(node) {
            return Ok(None);
        } else {
            put_goal(alloc, &mut all, node)?;
            goals = goals - 1 + goals_behind(node);
            terms = terms_behind(node);
        }
    }
    Ok(Some(Flat::from_nodes(all)))
}

/// Whether the node is an integer.
fn is_integer(node: &Node) -> bool
    ensures { result ≡ integer node.now }
{
    matches!(node, Node::Int(_))
}

/// Puts after `all` what becomes of a node in the place of a goal. After running out of memory, `all` may have got part of
/// it.
fn put_goal(alloc: Global, all: &mut Vec<Node>, node: &Node) -> Result<(), Memory>
    ensures { OnOk result (all.new.items ≡ all.old.items ++ goal_nodes node.now) }
{
    if let Node::Var(_) = node {
        let name = Text::from_str(alloc, "call")?;
        all.push(Node::Comp(name, 1))?;
    }
    all.push(node.copy(alloc)?)?;
    Ok(())
}

/// Whether the node begins a control construct whose arguments are goals.
fn is_control(node: &Node) -> bool
    ensures { result ≡ control node.now }
{
    match node {
        Node::Comp(f, k) => is_transparent(f) && *k == 2,
        _ => false,
    }
}

/// Whether the arguments of a control construct with this name are goals of the body itself.
fn is_transparent(f: &Text) -> bool
    ensures { result ≡ is_transparent f.now }
{
    is_named(f, ",") || is_named(f, ";") || is_named(f, "->")
}

/// Whether this is the name that `text`, which is in ASCII, spells.
fn is_named(f: &Text, text: &str) -> bool
    requires { IsTrue (list_all is_ascii text.now) }
    ensures { result ≡ bytes_eq f.now text.now }
{
    f.is(text)
}

/// The number of goals that follow a node in the place of a goal.
fn goals_behind(node: &Node) -> u64
    ensures { result ≡ goals_after node.now }
{
    if is_control(node) { 2 } else { 0 }
}

/// The number of terms that follow a node in the place of a goal and are no goals of the body.
fn terms_behind(node: &Node) -> u64
    ensures { result ≡ terms_after node.now }
{
    if is_control(node) { 0 } else { arity(node) }
}
