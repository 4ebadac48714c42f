//! Tokens in full (ISO 6.4): what a text is made of, with the value of each token, and the laws of their definition.
//!
//! The lexer of the running program still reads the subset of `syntax`.

ghost use Rattle.std.specs.Prelude.{◌≡◌, ◌∷◌, ◌++◌, [], ◌^◌, ◌≤◌, ◌+◌, ◌==◌, ℕ, List, Bool, true, false, Ok, codes, length};
ghost use Rattle.std.specs.Fmt.{decimal};
ghost use Rattle.std.specs.List.{list_all};
ghost use Rattle.std.specs.Char.{IsScalar, encode_utf8};
ghost use Rattle.std.specs.Str.{all_scalars, encode_utf8_all};
ghost use Rattle.std.specs.Str.Parse.{IsNumeral, digits_value};
ghost use Rattle.pl_term.specs.Texts.{size};
ghost use Rattle.pl_term.specs.Tree.{Chars};
ghost use Rattle.pl_model.specs.Characters.{continues_name, is_letter_name, is_symbol};
ghost use Rattle.pl_model.specs.LexicalCharacters.{is_solo};
ghost use Rattle.pl_model.specs.laws.LexicalLaws.{EndsNumeral, NextTo, in_quotes, is_variable_name};
ghost use Rattle.pl_model.specs.LexicalQuoted.{begins_with, digit_count};
ghost use Rattle.pl_model.specs.LexicalTokens.{lex_fault, token, token_at, token_front};
ghost use Rattle.pl_model.specs.Tokens.{closes_clause, run};
ghost use Rattle.pl_model.specs.Writing.{quoted};
ghost use Rattle.pl_model.specs.declared.lexical.Reading.TheVariants.{Token};
ghost use Rattle.pl_model.specs.declared.lexical.TokenKind.{TokenKind};
ghost use Rattle.pl_model.specs.declared.syntax.SyntaxKind.TheVariants.{BadEscape, BadUtf8, FloatNumeral, IntegerTooLarge, LoneCharacter, OpenComment, OpenQuote};
ghost use Rattle.pl_model.specs.declared.lexical.Lexeme.TheVariants.{End};
ghost use Rattle.pl_model.specs.declared.lexical.Mark.TheVariants.{Bar, Close, CloseCurly, CloseList, Comma, Open, OpenCt, OpenCurly, OpenList};
ghost use Rattle.pl_model.specs.declared.lexical.TokenKind.TheVariants.{BackQuoted, DoubleQuoted, EndToken, Integer, Name, Punctuation, Quoted, Variable};

use crate::syntax::SyntaxKind;
use pl_term::Text;

/// A punctuation token (ISO 6.4).
#[derive(Debug, Clone, Copy, PartialEq, Eq, Drop)]
pub enum Mark {
    /// `(` after layout, or where no name stands before it: the open token (6.4.8).
    Open,
    /// `(` at the very place that was asked for, as it stands directly after a name (open ct, 6.4.8).
    OpenCt,
    /// `)`.
    Close,
    /// `[`.
    OpenList,
    /// `]`.
    CloseList,
    /// `{`.
    OpenCurly,
    /// `}`.
    CloseCurly,
    /// `|`, the head tail separator.
    Bar,
    /// `,`.
    Comma,
}

/// What begins with a character (ISO 6.5).
#[derive(Debug, Clone, Copy, PartialEq, Eq, Drop)]
pub enum Begins {
    /// A name, with a letter that is no capital letter of ASCII.
    Name,
    /// A variable, with a capital letter of ASCII or an underscore.
    Variable,
    /// A numeral.
    Digit,
    /// A name of symbol characters, or the end token.
    Symbol,
    /// A name of this one character: the cut or the semicolon.
    Solo,
    /// A quoted text.
    Quote,
    /// Punctuation.
    Punctuation(Mark),
    /// No token.
    Other,
}

/// A token with its value (ISO 6.4).
#[derive(Debug, Drop)]
pub enum TokenKind {
    /// A name without quotes (6.4.2).
    Name(Text),
    /// A name in single quotes (6.4.2), with the text that it stands for.
    Quoted(Text),
    /// A variable (6.4.3) with its name.
    Variable(Text),
    /// An integer (6.4.4), without a sign. It is at most 2^63.
    Integer(u64),
    /// A text in double quotes (6.4.6).
    DoubleQuoted(Text),
    /// A text in back quotes (6.4.7).
    BackQuoted(Text),
    /// Punctuation (6.4).
    Punctuation(Mark),
    /// The end token (6.4.8): a full stop that closes a clause.
    EndToken,
}

/// What is read next in a text. Places are byte offsets.
#[derive(Debug, Drop)]
pub enum Lexeme {
    /// A token, with the place of its first byte and the place after its last one.
    Token {
        kind: TokenKind,
        start: usize,
        end: usize,
    },
    /// The end of the text.
    End,
}

/// What stands at the front of bytes at which no layout stands.
#[derive(Debug, Drop)]
pub enum Reading {
    /// A token of this number of bytes.
    Token(TokenKind, usize),
    /// A fault, this number of bytes after the front.
    Fault(SyntaxKind, usize),
    /// No byte is left.
    Nothing,
}

/// A piece of a quoted text after its opening quote (ISO 6.4.2.1).
#[derive(Debug, Clone, Copy, PartialEq, Eq, Drop)]
pub enum Piece {
    /// A character of the text, which is written with this number of bytes.
    Character(char, usize),
    /// A continuation escape sequence of this number of bytes: no character.
    Continuation(usize),
    /// The closing quote.
    Close,
    /// A fault at the piece's first byte, and the number of bytes that are passed with it.
    Bad(SyntaxKind, usize),
}

/// Names and variables (6.4.2, 6.4.3).
pub fn reads_names()
    ensures name { token_at (codes "ab.") 0 ≡ token (Name (codes "ab")) 0 2 }
    ensures variable { token_at (codes " _G1 ") 0 ≡ token (Variable (codes "_G1")) 1 4 }
    ensures symbols { token_at (codes "a=..b") 1 ≡ token (Name (codes "=..")) 1 4 }
    ensures solo { token_at (codes "!;") 1 ≡ token (Name (codes ";")) 1 2 }
    ensures lone { token_at (97 ∷ 32 ∷ 127 ∷ []) 1 ≡ lex_fault LoneCharacter 2 }
    ensures byte { token_at (97 ∷ 255 ∷ []) 1 ≡ lex_fault BadUtf8 1 }
{}

/// Punctuation, layout and the end token (6.4, 6.4.1, 6.4.8).
pub fn reads_marks()
    ensures functional { token_at (codes "f(") 1 ≡ token (Punctuation OpenCt) 1 2 }
    ensures opening { token_at (codes "f (") 1 ≡ token (Punctuation Open) 2 3 }
    ensures bar { token_at (codes "[a|") 2 ≡ token (Punctuation Bar) 2 3 }
    ensures comment { token_at (codes " /* a */ b") 0 ≡ token (Name (codes "b")) 9 10 }
    ensures unclosed { token_at (codes " /* a") 0 ≡ lex_fault OpenComment 1 }
    ensures nothing { token_at (codes "a % b") 1 ≡ Ok End }
    ensures closes { token_at (codes "a.%") 1 ≡ token EndToken 1 2 }
    ensures last { token_at (codes "a.") 1 ≡ token EndToken 1 2 }
    ensures inside { token_at (codes "a.b") 1 ≡ token (Name (codes ".")) 1 2 }
    ensures two { token_at (codes "a..") 1 ≡ token (Name (codes "..")) 1 3 }
{}

/// Integers (6.4.4).
pub fn reads_integers()
    ensures decimal { token_at (codes "007.") 0 ≡ token (Integer 7) 0 3 }
    ensures hexadecimal { token_at (codes "0xFf") 0 ≡ token (Integer 255) 0 4 }
    ensures octal { token_at (codes "0o17") 0 ≡ token (Integer 15) 0 4 }
    ensures binary { token_at (codes "0b101") 0 ≡ token (Integer 5) 0 5 }
    ensures none { token_at (codes "0b2") 0 ≡ token (Integer 0) 0 1 }
    ensures largest { token_at (codes "9223372036854775808") 0 ≡ token (Integer (2 ^ 63)) 0 19 }
    ensures large { token_at (codes "9223372036854775809") 0 ≡ lex_fault IntegerTooLarge 0 }
    ensures float { token_at (codes "a 1.5") 1 ≡ lex_fault FloatNumeral 2 }
{}

/// Character codes (6.4.4).
pub fn reads_character_codes()
    ensures letter { token_at (codes "0'a") 0 ≡ token (Integer 97) 0 3 }
    ensures quote { token_at (codes "0'''") 0 ≡ token (Integer 39) 0 4 }
    ensures control { token_at (codes "0'\\n") 0 ≡ token (Integer 10) 0 4 }
    ensures coded { token_at (codes "0'\\x41\\") 0 ≡ token (Integer 65) 0 7 }
    ensures last { token_at (codes "0'") 0 ≡ token (Integer 0) 0 1 }
    ensures lone { token_at (codes "0'' ") 0 ≡ lex_fault BadEscape 0 }
    ensures newline { token_at (48 ∷ 39 ∷ 10 ∷ []) 0 ≡ lex_fault BadEscape 0 }
    ensures bad { token_at (codes "0'\\q") 0 ≡ lex_fault BadEscape 2 }
{}

/// Quoted texts (6.4.2.1, 6.4.6, 6.4.7).
pub fn reads_quoted_texts()
    ensures doubled { token_at (codes "'a''b'") 0 ≡ token (Quoted (codes "a'b")) 0 6 }
    ensures coded { token_at (codes "'\\x41\\\\101\\\\u0041\\\\'") 0 ≡ token (Quoted (codes "AAA\\")) 0 20 }
    ensures continued { token_at (39 ∷ 97 ∷ 92 ∷ 10 ∷ 98 ∷ 39 ∷ []) 0 ≡ token (Quoted (codes "ab")) 0 6 }
    ensures newline { token_at (39 ∷ 10 ∷ 39 ∷ []) 0 ≡ token (Quoted (10 ∷ [])) 0 3 }
    ensures empty { token_at (codes "''") 0 ≡ token (Quoted []) 0 2 }
    ensures double { token_at (codes "\"a'b\"") 0 ≡ token (DoubleQuoted (codes "a'b")) 0 5 }
    ensures back { token_at (codes "`a`") 0 ≡ token (BackQuoted (codes "a")) 0 3 }
{}

/// Faults of quoted texts: one that stays open is that fault, else the first one in it counts.
pub fn refuses_quoted_texts()
    ensures unclosed { token_at (codes " 'a") 0 ≡ lex_fault OpenQuote 1 }
    ensures before { token_at (codes " 'a\\q") 0 ≡ lex_fault OpenQuote 1 }
    ensures escape { token_at (codes "'a\\qb'") 0 ≡ lex_fault BadEscape 2 }
    ensures surrogate { token_at (codes "'\\xD800 '") 0 ≡ lex_fault BadEscape 1 }
    ensures passed { token_at (codes "'\\x110000\\'") 0 ≡ lex_fault OpenQuote 0 }
    ensures byte { token_at (39 ∷ 255 ∷ 39 ∷ []) 0 ≡ lex_fault BadUtf8 1 }
    ensures first { token_at (39 ∷ 255 ∷ 92 ∷ 113 ∷ 39 ∷ []) 0 ≡ lex_fault BadUtf8 1 }
{}

/// Whatever stands at a place, what is found there lies in the text after it: layout and then the token, which has
/// one byte at least. So tokens and the layout between them cover a text.
pub fn tokens_cover_the_text()
    ensures { (text : List ℕ) (at : ℕ) (kind : TokenKind) (start stop : ℕ)
        → token_at text at ≡ token kind start stop → NextTo text at start stop }
{}

/// A letter digit token (6.4.2) is read as that name where what stands after it does not continue it.
pub fn names_are_read()
    ensures { (direct : Bool) (cs : Chars) (rest : List ℕ)
        → all_scalars cs ≡ true → is_letter_name cs ≡ true → run continues_name 0 rest ≡ 0
        → token_front direct (encode_utf8_all cs ++ rest) ≡ Token (Name cs) (size cs) }
{}

/// A variable (6.4.3) is read as that variable.
pub fn variables_are_read()
    ensures { (direct : Bool) (cs : Chars) (rest : List ℕ)
        → all_scalars cs ≡ true → is_variable_name cs ≡ true → run continues_name 0 rest ≡ 0
        → token_front direct (encode_utf8_all cs ++ rest) ≡ Token (Variable cs) (size cs) }
{}

/// A graphic token (6.4.2) is read as that name, unless it is the end token.
pub fn symbol_names_are_read()
    ensures { (direct : Bool) (c : ℕ) (cs : Chars) (rest : List ℕ)
        → list_all is_symbol (c ∷ cs) ≡ true → run is_symbol 0 rest ≡ 0
        → ((c ∷ cs ≡ 46 ∷ []) → closes_clause rest ≡ false)
        → token_front direct (encode_utf8_all (c ∷ cs) ++ rest) ≡ Token (Name (c ∷ cs)) (size (c ∷ cs)) }
{}

/// A full stop before white space, `%` or the end of the text is the end token (6.4.8).
pub fn end_tokens_are_read()
    ensures { (direct : Bool) (rest : List ℕ) → closes_clause rest ≡ true → token_front direct (46 ∷ rest) ≡ Token EndToken 1 }
{}

/// An integer written in decimal (6.4.4) is read as that integer.
pub fn integers_are_read()
    ensures { (direct : Bool) (n : ℕ) (rest : List ℕ) → n ≤ 2 ^ 63 → EndsNumeral rest
        → token_front direct (decimal n ++ rest) ≡ Token (Integer n) (length (decimal n)) }
{}

/// A text that `writeq` puts in quotes, with its escape sequences, is read back as that text (6.4.2.1).
pub fn quoted_names_are_read()
    ensures { (direct : Bool) (cs : Chars) (rest : List ℕ) → all_scalars cs ≡ true → begins_with 39 rest ≡ false
        → token_front direct (encode_utf8_all (quoted cs) ++ rest) ≡ Token (Quoted cs) (size (quoted cs)) }
{}

/// A text in quotes, in which the quote is doubled and a backslash escaped, is read as that text (6.4.2, 6.4.6,
/// 6.4.7).
pub fn texts_in_quotes_are_read()
    ensures single { (direct : Bool) (cs : Chars) (rest : List ℕ) → all_scalars cs ≡ true → begins_with 39 rest ≡ false
        → token_front direct (encode_utf8_all (in_quotes 39 cs) ++ rest) ≡ Token (Quoted cs) (size (in_quotes 39 cs)) }
    ensures double { (direct : Bool) (cs : Chars) (rest : List ℕ) → all_scalars cs ≡ true → begins_with 34 rest ≡ false
        → token_front direct (encode_utf8_all (in_quotes 34 cs) ++ rest) ≡ Token (DoubleQuoted cs) (size (in_quotes 34 cs)) }
    ensures back { (direct : Bool) (cs : Chars) (rest : List ℕ) → all_scalars cs ≡ true → begins_with 96 rest ≡ false
        → token_front direct (encode_utf8_all (in_quotes 96 cs) ++ rest) ≡ Token (BackQuoted cs) (size (in_quotes 96 cs)) }
{}

/// `0'` and a character other than a single quote, a backslash and a newline is read as the character's code (6.4.4).
pub fn character_codes_are_read()
    ensures { (direct : Bool) (c : ℕ) (rest : List ℕ) → IsScalar c → (c == 39) ≡ false → (c == 92) ≡ false → (c == 10) ≡ false
        → token_front direct (48 ∷ 39 ∷ (encode_utf8 c ++ rest)) ≡ Token (Integer c) (length (encode_utf8 c) + 2) }
{}

/// `0x`, `0o` and `0b` with digits of their radix are read as the number that the digits write (6.4.4).
pub fn radix_constants_are_read()
    ensures hexadecimal { (direct : Bool) (ds rest : List ℕ) → IsNumeral 16 ds → digits_value 16 ds ≤ 2 ^ 63 → digit_count 16 rest ≡ 0
        → token_front direct (48 ∷ 120 ∷ (ds ++ rest)) ≡ Token (Integer (digits_value 16 ds)) (length ds + 2) }
    ensures octal { (direct : Bool) (ds rest : List ℕ) → IsNumeral 8 ds → digits_value 8 ds ≤ 2 ^ 63 → digit_count 8 rest ≡ 0
        → token_front direct (48 ∷ 111 ∷ (ds ++ rest)) ≡ Token (Integer (digits_value 8 ds)) (length ds + 2) }
    ensures binary { (direct : Bool) (ds rest : List ℕ) → IsNumeral 2 ds → digits_value 2 ds ≤ 2 ^ 63 → digit_count 2 rest ≡ 0
        → token_front direct (48 ∷ 98 ∷ (ds ++ rest)) ≡ Token (Integer (digits_value 2 ds)) (length ds + 2) }
{}

/// Each punctuation token is its character, whatever stands after it (6.4); `(` is open ct where no layout stands
/// before it, and open after layout (6.4.8).
pub fn punctuation_is_read()
    ensures functional { (rest : List ℕ) → token_front true (40 ∷ rest) ≡ Token (Punctuation OpenCt) 1 }
    ensures opening { (rest : List ℕ) → token_front false (40 ∷ rest) ≡ Token (Punctuation Open) 1 }
    ensures close { (direct : Bool) (rest : List ℕ) → token_front direct (41 ∷ rest) ≡ Token (Punctuation Close) 1 }
    ensures open_list { (direct : Bool) (rest : List ℕ) → token_front direct (91 ∷ rest) ≡ Token (Punctuation OpenList) 1 }
    ensures close_list { (direct : Bool) (rest : List ℕ) → token_front direct (93 ∷ rest) ≡ Token (Punctuation CloseList) 1 }
    ensures open_curly { (direct : Bool) (rest : List ℕ) → token_front direct (123 ∷ rest) ≡ Token (Punctuation OpenCurly) 1 }
    ensures close_curly { (direct : Bool) (rest : List ℕ) → token_front direct (125 ∷ rest) ≡ Token (Punctuation CloseCurly) 1 }
    ensures bar { (direct : Bool) (rest : List ℕ) → token_front direct (124 ∷ rest) ≡ Token (Punctuation Bar) 1 }
    ensures comma { (direct : Bool) (rest : List ℕ) → token_front direct (44 ∷ rest) ≡ Token (Punctuation Comma) 1 }
{}

/// The cut and the semicolon are names of one character (6.4.2).
pub fn solo_names_are_read()
    ensures { (direct : Bool) (c : ℕ) (rest : List ℕ) → is_solo c ≡ true → token_front direct (c ∷ rest) ≡ Token (Name (c ∷ [])) 1 }
{}
