//! Operators by their priorities and specifiers (ISO 6.3.4.2).
ghost use Rattle.std.specs.Prelude.{◌≡◌, ◌&&◌, not, is_some, IfOk};
ghost use Rattle.pl_model.specs.OperatorTable.{operator_at};
ghost use Rattle.pl_model.specs.TermGrammar.{left_argument, right_argument, stands_alone};
ghost use Rattle.pl_model.specs.declared.grammar.Quotes.{Quotes as QuotesFlag};
ghost use Rattle.pl_model.specs.declared.operators.Place.TheVariants.{Prefix, Infix};
ghost use Rattle.prolog_reader.specs.Operations.{operation_of, joining_ahead, joining_named, ends_term};

use crate::ahead::{is_functor, is_minus};
use op_table::{Kind, OpTable};
use pl_model::lexical::{Lexeme, Mark, TokenKind};
use pl_model::syntax::SyntaxFault;
use pl_term::{Memory, Text};
use std::alloc::Global;

/// How an operator goes on with a left part in front of it.
#[derive(Debug, Clone, Copy, Drop)]
pub enum Operation {
    /// With a term of at most the priority `right` after it; the whole has this priority.
    Infix { priority: u16, right: u16 },
    /// By itself; the whole has this priority.
    Postfix { priority: u16 },
    /// Not at all: the term ends.
    Ends,
}

/// An operator that goes on with a left part, its name and the place after it.
#[derive(Debug, Drop)]
pub struct Joining {
    pub name: Text,
    pub operation: Operation,
    pub end: usize,
}

/// The operation of the operator with this name after a left part of this priority, in a term of at most `max`.
pub fn operation_named(ops: &OpTable, name: &Text, max: u16, priority: u16) -> Operation
    ensures { result ≡ operation_of (operator_at ops.now) name.now max priority }
{
    if let Some((own, kind)) = ops.infix(name) {
        if own <= max && priority <= left_argument(own, kind) {
            return Operation::Infix {
                priority: own,
                right: right_argument(own, kind),
            };
        }
        return Operation::Ends;
    }
    if let Some((own, kind)) = ops.postfix(name) {
        if own <= max && priority <= left_argument(own, kind) {
            return Operation::Postfix { priority: own };
        }
    }
    Operation::Ends
}

/// The largest priority on the left of an operator.
fn left_argument(priority: u16, kind: Kind) -> u16
    ensures { result ≡ left_argument (priority, kind) }
{
    match kind {
        Kind::Yfx => priority,
        Kind::Yf => priority,
        _ => priority.saturating_sub(1),
    }
}

/// The largest priority on the right of an operator.
pub fn right_argument(priority: u16, kind: Kind) -> u16
    ensures { result ≡ right_argument (priority, kind) }
{
    match kind {
        Kind::Xfy => priority,
        Kind::Fy => priority,
        _ => priority.saturating_sub(1),
    }
}

/// The operator ahead that goes on with a left part of this priority, in a term of at most `max`, if one does. The only
/// error is out of memory.
pub fn joining_ahead(
    alloc: Global,
    ops: &OpTable,
    ahead: &Lexeme,
    max: u16,
    priority: u16,
) -> Result<Option<Joining>, Memory>
    ensures { IfOk result (λ j. j ≡ joining_ahead (operator_at ops.now) ahead.now max priority) }
{
    match ahead {
        Lexeme::Token { kind, end, .. } => match kind {
            TokenKind::Name(name) => joining_named(alloc, ops, name, max, priority, *end),
            TokenKind::Quoted(name) => joining_named(alloc, ops, name, max, priority, *end),
            TokenKind::Punctuation(Mark::Comma) => {
                let comma = Text::from_str(alloc, ",")?;
                joining_named(alloc, ops, &comma, max, priority, *end)
            }
            _ => Ok(None),
        },
        Lexeme::End => Ok(None),
    }
}

/// The operator with this name, if it goes on with a left part. The only error is out of memory.
fn joining_named(
    alloc: Global,
    ops: &OpTable,
    name: &Text,
    max: u16,
    priority: u16,
    end: usize,
) -> Result<Option<Joining>, Memory>
    ensures { IfOk result (λ j. j ≡ joining_named name.now end (operation_of (operator_at ops.now) name.now max priority)) }
{
    match operation_named(ops, name, max, priority) {
        Operation::Ends => Ok(None),
        operation => Ok(Some(Joining {
            name: name.copy(alloc)?,
            operation,
            end,
        })),
    }
}

/// Whether what stands ahead after a prefix operator shows that it is an atom (ISO 6.3.4.2).
pub fn stands_alone(text: &[u8], ops: &OpTable, ahead: &Lexeme) -> bool
    ensures { (quotes : QuotesFlag) → stands_alone text.now (operator_at ops.now) quotes (Ok ahead.now) ≡ result }
{
    match ahead {
        Lexeme::Token { kind, end, .. } => match kind {
            TokenKind::EndToken => true,
            TokenKind::Punctuation(mark) => ends_term(*mark),
            TokenKind::Name(name) => {
                is_operator(ops, name) && !(is_functor(text, *end) || is_minus(text, name, *end))
            }
            TokenKind::Quoted(name) => is_operator(ops, name) && !is_functor(text, *end),
            _ => false,
        },
        Lexeme::End => false,
    }
}

/// Whether a punctuation token begins no term.
fn ends_term(mark: Mark) -> bool
    ensures { result ≡ ends_term mark }
{
    match mark {
        Mark::Open => false,
        Mark::OpenCt => false,
        Mark::OpenList => false,
        Mark::OpenCurly => false,
        _ => true,
    }
}

/// Whether this is the name of an infix operator and of no prefix operator.
fn is_operator(ops: &OpTable, name: &Text) -> bool
    ensures { result ≡ (is_some (operator_at ops.now name.now Infix) && not (is_some (operator_at ops.now name.now Prefix))) }
{
    ops.infix(name).is_some() && !ops.prefix(name).is_some()
}
