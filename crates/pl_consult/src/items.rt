//! Which items are directives (ISO 7.4.2).
#![tactic(auto, using(crate::proofs::WordTexts::words))]

ghost use Rattle.std.specs.Prelude.{◌≡◌, IfOk};
ghost use Rattle.std.specs.Str.{chars};
ghost use Rattle.pl_term.specs.Tree.{Chars, comp, none};
ghost use Rattle.run_model.specs.Execution.{directive_of as goal_of_directive, initialization_of as goal_for_later};
ghost use Rattle.pl_consult.specs.Items.{is_unary, IsUnary};

use crate::subterms::term_at;
use pl_term::{Flat, Memory, Node};
use std::alloc::Global;

/// The goal of a directive, or none where the item is a clause-term. The only error is out of memory.
pub fn directive_of(alloc: Global, term: &Flat) -> Result<Option<Flat>, Memory>
    ensures { IfOk result (λ g. g ≡ goal_of_directive term.now) }
{
    if is_unary(term, ":-") {
        return Ok(Some(argument(alloc, term)?));
    }
    if is_unary(term, "?-") {
        return Ok(Some(argument(alloc, term)?));
    }
    Ok(None)
}

/// The goal that a directive initialization/1 puts at the end of the file (ISO 7.4.2.6), or none where it is another one. The
/// only error is out of memory.
pub fn initialization_of(alloc: Global, term: &Flat) -> Result<Option<Flat>, Memory>
    ensures { IfOk result (λ g. g ≡ goal_for_later term.now) }
{
    if is_unary(term, "initialization") {
        return Ok(Some(argument(alloc, term)?));
    }
    Ok(None)
}

/// Whether the term has this name and one argument.
fn is_unary(term: &Flat, name: &str) -> bool
    ensures { result ≡ is_unary (chars name.now) term.now }
{
    match &term.nodes()[0] {
        Node::Comp(f, k) => *k == 1 && f.is(name),
        _ => false,
    }
}

/// The argument of a compound term that has one. The only error is out of memory.
fn argument(alloc: Global, term: &Flat) -> Result<Flat, Memory>
    requires { IsUnary term.now }
    ensures { IfOk result (λ t. (f : Chars) × (term.now ≡ comp f t none)) }
{
    let (argument, _) = term_at(alloc, term.nodes(), 1)?;
    Ok(argument)
}
