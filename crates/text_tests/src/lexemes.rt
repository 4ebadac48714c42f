//! Rows of the lexer.

use crate::fields::Fields;
use crate::output::{put_named, put_number, put_text};
use anyhow::Result;
use lex_core::{LexFault, next};
use pl_model::lexical::{Lexeme, Mark, TokenKind};
use pl_term::Text;
use std::alloc::Global;
use std::convert::AsStr;

/// The lexemes of a text, one after the other: each with its places, up to the end or the first fault.
pub fn lexemes(alloc: Global, fields: &mut Fields) -> Result<Vec<u8>> {
    let text = fields.next_bytes(alloc)?;
    let mut out = Vec::new(alloc);
    let mut at = Some(0);
    for _ in 0..=text.len() {
        let Some(place) = at else {
            break;
        };
        at = put_lexeme(alloc, &text, place, &mut out)?;
    }
    Ok(out)
}

/// Adds the lexeme at a place, and answers where the next one is looked for, if it is.
fn put_lexeme(alloc: Global, text: &[u8], at: usize, out: &mut Vec<u8>) -> Result<Option<usize>> {
    match next(alloc, text, at) {
        Ok(Lexeme::Token { kind, start, end }) => {
            put_token(out, &kind)?;
            put_named(out, " ", start as u64)?;
            put_named(out, "-", end as u64)?;
            put_text(out, " | ")?;
            Ok(Some(end))
        }
        Ok(Lexeme::End) => {
            put_text(out, "eof")?;
            Ok(None)
        }
        Err(LexFault::Syntax(fault)) => {
            put_text(out, format!(in alloc; "{:?} ", fault.kind)?.as_str())?;
            put_number(out, fault.at as u64)?;
            Ok(None)
        }
        Err(LexFault::Memory) => {
            put_text(out, "out of memory")?;
            Ok(None)
        }
    }
}

/// Adds a token's kind and value.
fn put_token(out: &mut Vec<u8>, kind: &TokenKind) -> Result<()> {
    match kind {
        TokenKind::Name(text) => put_word(out, "name ", text),
        TokenKind::Quoted(text) => put_word(out, "quoted ", text),
        TokenKind::Variable(text) => put_word(out, "var ", text),
        TokenKind::Integer(value) => put_named(out, "int ", *value),
        TokenKind::DoubleQuoted(text) => put_word(out, "double ", text),
        TokenKind::BackQuoted(text) => put_word(out, "back ", text),
        TokenKind::Punctuation(mark) => put_text(out, mark_name(*mark)),
        TokenKind::EndToken => put_text(out, "end"),
    }
}

/// Adds the word of a token's kind, and the token's text.
fn put_word(out: &mut Vec<u8>, word: &str, text: &Text) -> Result<()> {
    put_text(out, word)?;
    put_text(out, text.as_str())
}

/// The name of a punctuation token.
fn mark_name(mark: Mark) -> &'static str {
    match mark {
        Mark::Open => "Open",
        Mark::OpenCt => "OpenCt",
        Mark::Close => "Close",
        Mark::OpenList => "OpenList",
        Mark::CloseList => "CloseList",
        Mark::OpenCurly => "OpenCurly",
        Mark::CloseCurly => "CloseCurly",
        Mark::Bar => "Bar",
        Mark::Comma => "Comma",
    }
}
