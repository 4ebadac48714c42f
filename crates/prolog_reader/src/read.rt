//! Clauses: what stands at a place of a text.
ghost use Rattle.std.specs.Prelude.{◌≡◌, ◌≤◌, IfOk, IfErr, length};
ghost use Rattle.pl_model.specs.OperatorTable.{operator_at};
ghost use Rattle.pl_model.specs.Grammar.{item};
ghost use Rattle.pl_model.specs.TermGrammar.{item_of};
ghost use Rattle.pl_model.proofs.TermDepth.{whole, clause_whole};
ghost use Rattle.prolog_reader.specs.Items.{Reads};
ghost use Rattle.prolog_reader.specs.Stack.{Stops, IsRead, start_at};

use crate::ahead::look;
use crate::marks::clause_end;
use crate::names::{NamedVariable, Numbered};
use crate::pieces::into_nodes;
use crate::read_error::{ReadError, unexpected};
use crate::stack::{Mode, Reader};
use op_table::OpTable;
use pl_model::grammar::Quotes;
use pl_model::lexical::Lexeme;
use pl_model::syntax::SyntaxKind;
use pl_term::Flat;
use std::alloc::Global;

/// What was read at a place.
#[derive(Debug, Drop)]
pub enum Read {
    /// A clause: its term, whose variables are numbered from 0 in order of first occurrence; its named variables in
    /// that order; the place of its first token and the place after its end token.
    Clause {
        term: Flat,
        names: Vec<NamedVariable>,
        start: usize,
        next: usize,
    },
    /// Nothing but layout was left.
    End,
    /// The first fault, with its place.
    Syntax {
        kind: SyntaxKind,
        at: usize,
    },
    /// Out of memory.
    Memory,
}

/// Reads the clause at the place `at` of a text, or after layout there, with these operators, and with texts in double
/// quotes as `quotes` says (ISO 6.2, 6.3). It takes heap alone, however deep the term is.
pub fn read_term(alloc: Global, text: &[u8], at: usize, ops: &OpTable, quotes: Quotes) -> Read
    ensures { Reads result (item_of text.now at ops.now quotes) }
{
    match look(alloc, text, at) {
        Ok(Ok(Lexeme::Token { start, .. })) => read_from(alloc, text, at, start, ops, quotes),
        Ok(Ok(Lexeme::End)) => Read::End,
        Ok(Err(fault)) => Read::Syntax {
            kind: fault.kind,
            at: fault.at,
        },
        Err(_) => Read::Memory,
    }
}

/// Reads the clause after `at` whose first token is at `start`.
fn read_from(
    alloc: Global,
    text: &[u8],
    at: usize,
    start: usize,
    ops: &OpTable,
    quotes: Quotes,
) -> Read
    requires { at ≤ length text.now }
    ensures { Reads result (item (clause_whole text.now (operator_at ops.now) quotes at start)) }
{
    match read_clause(alloc, text, at, start, ops, quotes) {
        Ok(read) => read,
        Err(ReadError::Memory) => Read::Memory,
        Err(ReadError::Fault(fault)) => Read::Syntax {
            kind: fault.kind,
            at: fault.at,
        },
    }
}

/// Reads the clause after `at` whose first token is at `start`.
fn read_clause(
    alloc: Global,
    text: &[u8],
    at: usize,
    start: usize,
    ops: &OpTable,
    quotes: Quotes,
) -> Result<Read, ReadError>
    requires { at ≤ length text.now }
    ensures read { IfOk result (λ r. Reads r (item (clause_whole text.now (operator_at ops.now) quotes at start))) }
    ensures stops { IfErr result (λ e. Stops (clause_whole text.now (operator_at ops.now) quotes at start) e) }
{
    let reader = read_whole(alloc, text, at, ops, quotes)?;
    let Some(next) = clause_end(&reader.ahead) else {
        return Err(unexpected(text, &reader.ahead));
    };
    let Reader { names, pieces, .. } = reader;
    let Numbered { list, .. } = names;
    let term = Flat::from_nodes(into_nodes(alloc, pieces)?);
    Ok(Read::Clause {
        term,
        names: list.into_list(),
        start,
        next,
    })
}

/// Reads the whole term of a clause.
fn read_whole(
    alloc: Global,
    text: &[u8],
    at: usize,
    ops: &OpTable,
    quotes: Quotes,
) -> Result<Reader, ReadError>
    requires { at ≤ length text.now }
    ensures read { IfOk result (λ r. IsRead text.now (operator_at ops.now) quotes at r) }
    ensures stops { IfErr result (λ e. Stops (whole text.now (operator_at ops.now) quotes 1200 (start_at at)) e) }
{
    let mut reader = Reader::new(alloc, text, at)?;
    let mut mode = Mode::Term { max: 1200 };
    loop {
        mode = match mode {
            Mode::Term { max } => reader.primary(alloc, text, ops, quotes, max)?,
            Mode::Part {
                max,
                priority,
                start,
            } => reader.go_on(alloc, text, ops, max, priority, start)?,
            Mode::Ended { priority, start } => reader.ended(alloc, text, priority, start)?,
            Mode::Whole => return Ok(reader),
        };
    }
}
