//! What stands ahead in the text.
ghost use Rattle.std.specs.Prelude.{◌≡◌, ◌<◌, ◌&&◌, ◌==◌, ◌^◌, IfOk, IsTrue, codes, bytes_eq, length, slice_index};
ghost use Rattle.std.specs.Char.{is_ascii_digit};
ghost use Rattle.pl_model.specs.LexicalTokens.{token_at};

use lex_core::LexFault;
use pl_model::lexical::Lexeme;
use pl_model::syntax::SyntaxFault;
use pl_term::{Memory, Text};
use std::alloc::Global;

/// The first token at a place or after it, or the fault there. The only error is out of memory.
pub fn look(alloc: Global, text: &[u8], at: usize) -> Result<Result<Lexeme, SyntaxFault>, Memory>
    ensures { IfOk result (λ l. l ≡ token_at text.now at) }
{
    match lex_core::next(alloc, text, at) {
        Ok(lexeme) => Ok(Ok(lexeme)),
        Err(LexFault::Syntax(fault)) => Ok(Err(fault)),
        Err(LexFault::Memory) => Err(Memory),
    }
}

/// Whether an opening parenthesis stands at `at`: then the name before it is a functor.
pub fn is_functor(text: &[u8], at: usize) -> bool
    ensures value { result ≡ (slice_index text.now at == 40) }
    ensures within { IsTrue result → at < length text.now }
{
    at < text.len() && text[at] == b'('
}

/// Whether this name is the minus and stands directly before a numeral at `at`.
pub fn is_minus(text: &[u8], name: &Text, at: usize) -> bool
    ensures { result ≡ (bytes_eq name.now (codes "-") && is_ascii_digit (slice_index text.now at)) }
{
    name.is("-") && is_digit(text, at)
}

/// Whether a digit stands at `at`.
fn is_digit(text: &[u8], at: usize) -> bool
    ensures { result ≡ is_ascii_digit (slice_index text.now at) }
{
    at < text.len() && text[at].is_ascii_digit()
}
