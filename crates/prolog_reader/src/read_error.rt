//! Why reading of a clause stops before its end.
ghost use Rattle.std.specs.Prelude.{◌≡◌};
ghost use Rattle.prolog_reader.specs.Ahead.{fault_of};

use pl_model::lexical::Lexeme;
use pl_model::syntax::{SyntaxFault, SyntaxKind};
use pl_term::Memory;
use std::alloc::{AllocError, AllocFailed};

/// Why reading of a clause stops before its end.
#[derive(Debug, Clone, Copy, Drop)]
pub enum ReadError {
    /// Out of memory.
    Memory,
    /// The first fault of the text.
    Fault(SyntaxFault),
}

impl From<Memory> for ReadError {
    ghost use Rattle.prolog_reader.specs.declared.read_error.ReadError.TheVariants.{Memory as OutOfMemory};

    ghost from_gives = { λ _ e. e ≡ OutOfMemory };

    fn from(_e: Memory) -> ReadError {
        ReadError::Memory
    }
}

impl From<AllocError> for ReadError {
    ghost use Rattle.prolog_reader.specs.declared.read_error.ReadError.TheVariants.{Memory as OutOfMemory};

    ghost from_gives = { λ _ e. e ≡ OutOfMemory };

    fn from(_e: AllocError) -> ReadError {
        ReadError::Memory
    }
}

impl<T: Drop> From<AllocFailed<T>> for ReadError {
    ghost use Rattle.prolog_reader.specs.declared.read_error.ReadError.TheVariants.{Memory as OutOfMemory};

    ghost from_gives = { λ _ e. e ≡ OutOfMemory };

    fn from(_e: AllocFailed<T>) -> ReadError {
        ReadError::Memory
    }
}

/// A fault of this kind at this place.
pub fn refused(kind: SyntaxKind, at: usize) -> ReadError
    ensures { result ≡ ReadError.Fault (record { kind = kind; at = at }) }
{
    ReadError::Fault(SyntaxFault { kind, at })
}

/// The fault of a token that cannot stand where it does.
pub fn unexpected(text: &[u8], ahead: &Result<Lexeme, SyntaxFault>) -> ReadError
    ensures { result ≡ ReadError.Fault (fault_of text.now ahead.now) }
{
    match ahead {
        Ok(Lexeme::Token { start, .. }) => refused(SyntaxKind::UnexpectedToken, *start),
        Ok(Lexeme::End) => refused(SyntaxKind::UnexpectedEnd, text.len()),
        Err(fault) => ReadError::Fault(*fault),
    }
}
