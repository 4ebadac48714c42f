//! Punctuation, integers and the end token ahead.
ghost use Rattle.std.specs.Prelude.{◌≡◌, ◌==◌};
ghost use Rattle.pl_model.specs.TermGrammar.{behind_mark, mark_number};
ghost use Rattle.prolog_reader.specs.Ahead.{clause_end, integer_ahead};

use pl_model::lexical::{Lexeme, Mark, TokenKind};
use pl_model::syntax::SyntaxFault;

/// The place after this punctuation token, where it stands ahead.
pub fn behind_mark(mark: Mark, ahead: &Result<Lexeme, SyntaxFault>) -> Option<usize>
    ensures { result ≡ behind_mark mark ahead.now }
{
    match ahead {
        Ok(
            Lexeme::Token {
                kind: TokenKind::Punctuation(other),
                end,
                ..
            },
        ) => {
            if mark_number(*other) == mark_number(mark) {
                Some(*end)
            } else {
                None
            }
        }
        _ => None,
    }
}

/// The number of a mark among all.
fn mark_number(mark: Mark) -> u8
    ensures { result ≡ mark_number mark }
{
    match mark {
        Mark::Open => 0,
        Mark::OpenCt => 1,
        Mark::Close => 2,
        Mark::OpenList => 3,
        Mark::CloseList => 4,
        Mark::OpenCurly => 5,
        Mark::CloseCurly => 6,
        Mark::Bar => 7,
        Mark::Comma => 8,
    }
}

/// The place after an end token, where one stands ahead.
pub fn clause_end(ahead: &Result<Lexeme, SyntaxFault>) -> Option<usize>
    ensures { result ≡ clause_end ahead.now }
{
    match ahead {
        Ok(
            Lexeme::Token {
                kind: TokenKind::EndToken,
                end,
                ..
            },
        ) => Some(*end),
        _ => None,
    }
}

/// The value of an integer and the place after it, where one stands ahead.
pub fn integer_ahead(ahead: &Result<Lexeme, SyntaxFault>) -> Option<(u64, usize)>
    ensures { result ≡ integer_ahead ahead.now }
{
    match ahead {
        Ok(
            Lexeme::Token {
                kind: TokenKind::Integer(value),
                end,
                ..
            },
        ) => Some((*value, *end)),
        _ => None,
    }
}
