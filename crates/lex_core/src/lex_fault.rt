//! What the lexer answers in place of a token.

use pl_model::syntax::SyntaxFault;
use pl_term::Memory;

/// Why no token was read.
#[derive(Debug, Clone, Copy, PartialEq, Eq, Drop)]
pub enum LexFault {
    /// The text has this fault where the next token would be.
    Syntax(SyntaxFault),
    /// Out of memory.
    Memory,
}

impl From<Memory> for LexFault {
    ghost use Rattle.std.specs.Prelude.{◌≡◌};
    ghost use Rattle.lex_core.specs.declared.lex_fault.LexFault.TheVariants.{Memory};

    ghost from_gives = { λ e r. r ≡ Memory };

    fn from(_e: Memory) -> LexFault {
        LexFault::Memory
    }
}
