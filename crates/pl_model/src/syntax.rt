//! Syntax faults.

/// A syntax fault: its kind and its place, a byte offset.
#[derive(Debug, Clone, Copy, PartialEq, Eq, Drop)]
pub struct SyntaxFault {
    pub kind: SyntaxKind,
    pub at: usize,
}

/// Why a text is no clause: the kinds of fault of the lexer and of the reader (ISO 6.3, 6.4).
#[derive(Debug, Clone, Copy, PartialEq, Eq, Drop)]
pub enum SyntaxKind {
    /// A byte that belongs to no UTF-8 sequence, at that byte.
    BadUtf8,
    /// An escape sequence that is none, or whose code is no character.
    BadEscape,
    /// A quoted text without its closing quote.
    OpenQuote,
    /// A bracketed comment without its end.
    OpenComment,
    /// An integer outside 64 bits.
    IntegerTooLarge,
    /// A numeral with a fraction.
    FloatNumeral,
    /// A character that begins no token.
    LoneCharacter,
    /// A token that cannot stand here.
    UnexpectedToken,
    /// An operator whose priority does not fit here.
    PriorityClash,
    /// The text ended inside a clause.
    UnexpectedEnd,
    /// A name of more than 248 bytes.
    AtomTooLong,
    /// A goal word with an end token before its last one.
    AfterEnd,
}
