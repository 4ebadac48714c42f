//! Characters and runs of them.
ghost use Rattle.std.specs.Prelude.{◌≡◌, ◌+◌, ◌<◌, ◌≤◌, IfSome, drop, length, suc, ◌||◌, ◌==◌};
ghost use Rattle.std.specs.Char.{digit_value};
ghost use Rattle.std.specs.Str.{continuation_len};
ghost use Rattle.pl_model.specs.Characters.{continues_name, is_symbol};
ghost use Rattle.pl_model.specs.LexicalCharacters.{ascii_begins, begins, is_quote, is_solo, punctuation};
ghost use Rattle.pl_model.specs.LexicalQuoted.{is_digit};
ghost use Rattle.pl_model.specs.Tokens.{front, run_end, wide_front};
ghost use Rattle.lex_core.specs.Views.{character_of, passes_run};

use pl_model::lexical::{Begins, Mark};

/// The characters that a run is of.
#[derive(Clone, Copy, Drop)]
pub enum Run {
    /// Those that go on in a name or a variable.
    Name,
    /// Digits of a radix.
    Digits(u32),
    /// Symbol characters.
    Symbols,
    /// All characters.
    Any,
}

/// The place after the run of characters that begins at `at`.
pub fn run_end(text: &[u8], at: usize, run: Run) -> usize
    requires { at ≤ length text.now }
    ensures end { result ≡ run_end (passes_run run) text.now at }
    ensures within { (at ≤ result) × (result ≤ length text.now) }
{
    let mut end = at;
    while end < text.len() {
        match character(text, end) {
            Some((c, size)) if passes(run, c) => end += size,
            _ => return end,
        }
    }
    end
}

/// Whether a character goes on in a run.
fn passes(run: Run, c: char) -> bool
    ensures { result ≡ passes_run run c }
{
    match run {
        Run::Name => continues_name(c),
        Run::Digits(radix) => is_digit(radix, c),
        Run::Symbols => is_symbol(c),
        Run::Any => true,
    }
}

/// Whether a character goes on in a name or a variable.
fn continues_name(c: char) -> bool
    ensures { result ≡ continues_name c }
{
    if c.is_ascii() {
        c.is_ascii_alphanumeric() || c == '_'
    } else {
        unicode_ident::is_xid_continue(c)
    }
}

/// Whether a character is a symbol character.
fn is_symbol(c: char) -> bool
    ensures { result ≡ is_symbol c }
{
    match c {
        '+' | '-' | '*' | '/' | '\\' | '^' | '<' | '>' | '=' => true,
        '~' | ':' | '.' | '?' | '@' | '#' | '&' | '$' => true,
        _ => false,
    }
}

/// Whether a character is a digit of a radix.
pub fn is_digit(radix: u32, c: char) -> bool
    ensures { result ≡ is_digit radix c }
{
    digit_value(c) < radix
}

/// The value of a digit or a letter: 0 to 9, then 10 for `a` or `A` on to 35; 36 for any other character.
pub fn digit_value(c: char) -> u32
    ensures value { result ≡ digit_value c }
    ensures small { result ≤ 36 }
{
    let code = u32::from(c);
    match c {
        '0'..='9' => code - 48,
        'A'..='Z' => code - 55,
        'a'..='z' => code - 87,
        _ => 36,
    }
}

/// What begins with a character.
pub fn begins(c: char) -> Begins
    ensures { result ≡ begins c }
{
    if c.is_ascii() {
        return ascii_begins(c);
    }
    if unicode_ident::is_xid_start(c) {
        Begins::Name
    } else {
        Begins::Other
    }
}

/// What begins with an ASCII character.
fn ascii_begins(c: char) -> Begins
    ensures { result ≡ ascii_begins c }
{
    if c.is_ascii_lowercase() {
        return Begins::Name;
    }
    if c.is_ascii_uppercase() || c == '_' {
        return Begins::Variable;
    }
    if c.is_ascii_digit() {
        return Begins::Digit;
    }
    if is_symbol(c) {
        return Begins::Symbol;
    }
    if is_solo(c) {
        return Begins::Solo;
    }
    if is_quote(c) {
        return Begins::Quote;
    }
    punctuation(c)
}

/// Whether a character is the cut or the semicolon.
fn is_solo(c: char) -> bool
    ensures { result ≡ is_solo c }
{
    c == '!' || c == ';'
}

/// Whether a character is a quote.
pub fn is_quote(c: char) -> bool
    ensures { result ≡ is_quote c }
{
    c == '\'' || (c == '"' || c == '`')
}

/// The punctuation that a character is, if it is some.
fn punctuation(c: char) -> Begins
    ensures { result ≡ punctuation c }
{
    match c {
        '(' => Begins::Punctuation(Mark::Open),
        ')' => Begins::Punctuation(Mark::Close),
        '[' => Begins::Punctuation(Mark::OpenList),
        ']' => Begins::Punctuation(Mark::CloseList),
        '{' => Begins::Punctuation(Mark::OpenCurly),
        '}' => Begins::Punctuation(Mark::CloseCurly),
        '|' => Begins::Punctuation(Mark::Bar),
        ',' => Begins::Punctuation(Mark::Comma),
        _ => Begins::Other,
    }
}

/// The character at `at` with the number of its bytes, or none where no character's UTF-8 begins.
pub fn character(text: &[u8], at: usize) -> Option<(char, usize)>
    requires { at < length text.now }
    ensures value { result ≡ character_of (front (drop at text.now)) }
    ensures within { IfSome result (λ p. (0 < p.1) × (at + p.1 ≤ length text.now)) }
{
    let first = text[at];
    if first < 128 {
        return Some((char::from(first), 1));
    }
    let end = text.len().min(at + size_of(first));
    wide_character(&text[at..end])
}

/// The number of bytes of a character past ASCII that begins with this byte.
fn size_of(first: u8) -> usize
    requires { 128 ≤ first }
    ensures { result ≡ suc (continuation_len first) }
{
    if first < 224 {
        2
    } else if first < 240 {
        3
    } else {
        4
    }
}

/// The character that these bytes are, with their number.
fn wide_character(piece: &[u8]) -> Option<(char, usize)>
    requires { 0 < length piece.now }
    ensures value { result ≡ character_of (wide_front piece.now) }
    ensures size { IfSome result (λ p. p.1 ≡ length piece.now) }
{
    let Ok(s) = str::from_utf8(piece) else {
        return None;
    };
    let c = s.chars().next()?;
    Some((c, piece.len()))
}
