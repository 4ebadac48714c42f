//! A page: a text that grows by pieces, with a space between two that would be read as one.
ghost use Rattle.std.specs.Prelude.{◌≡◌, ◌<◌, ◌++◌, ◌∷◌, [], OnOk};
ghost use Rattle.std.specs.Str.{chars};
ghost use Rattle.pl_model.specs.Writing.{last_character, would_join};
ghost use Rattle.pl_model.specs.TermWriting.{gap, plain, would_bind};
ghost use Rattle.term_writer.specs.Pages.{Grows, Puts, behind_page, piece_of};

use crate::names::{continues_name, is_named, is_symbol};
use pl_term::{Memory, Text};

/// Text in UTF-8 whose last character, or the one that it was begun after, is `last`. `prefix` is the prefix
/// operator that its last piece is, if it is one.
#[derive(Debug, Drop)]
pub struct Page {
    pub bytes: Vec<u8>,
    pub last: char,
    pub prefix: Option<Text>,
}

impl Page {
    /// Puts a piece, that of the prefix operator `prefix` where there is one.
    pub fn put(&mut self, piece: &str, prefix: Option<Text>) -> Result<(), Memory>
        ensures puts { OnOk result (Puts self.old self.new (piece_of prefix (chars piece.now) ∷ [])) }
        ensures grows { Grows self.old.bytes.items self.new.bytes.items }
    {
        if let Some(first) = piece.chars().next() {
            self.space(first)?;
            self.bytes.extend_from_slice(piece.as_bytes())?;
            self.last = last_of(first, piece);
            self.prefix = prefix;
        }
        Ok(())
    }

    /// Puts the space that is wanted before a character, if any.
    pub fn space(&mut self, first: char) -> Result<(), Memory>
        ensures bytes { OnOk result (self.new.bytes.items ≡ self.old.bytes.items ++ gap (behind_page self.old) first) }
        ensures behind { behind_page self.new ≡ behind_page self.old }
        ensures grows { Grows self.old.bytes.items self.new.bytes.items }
    {
        if would_join(self.last, first) || would_bind(&self.prefix, first) {
            self.bytes.push(b' ')?;
        }
        Ok(())
    }

    /// Puts one character in ASCII.
    pub fn put_mark(&mut self, mark: u8) -> Result<(), Memory>
        requires { mark < 128 }
        ensures puts { OnOk result (Puts self.old self.new (plain (mark ∷ []) ∷ [])) }
        ensures grows { Grows self.old.bytes.items self.new.bytes.items }
    {
        self.space(mark as char)?;
        self.bytes.push(mark)?;
        self.last = mark as char;
        self.prefix = None;
        Ok(())
    }
}

/// The last character of a text, or the one before it where the text has none.
pub fn last_of(before: char, text: &str) -> char
    ensures { result ≡ last_character before (chars text.now) }
{
    let mut last = before;
    for c in text.chars() {
        last = c;
    }
    last
}

/// Whether two characters would be read as part of one token.
fn would_join(c: char, d: char) -> bool
    ensures { result ≡ would_join c d }
{
    (is_symbol(c) && is_symbol(d))
        || (continues_name(c) && continues_name(d))
        || (c == '\'' && d == '\'')
}

/// Whether a prefix operator would be read as a functor, or as a sign, before a character.
fn would_bind(prefix: &Option<Text>, d: char) -> bool
    ensures { result ≡ would_bind prefix.now d }
{
    match prefix {
        Some(f) => d == '(' || (is_named(f, "-") && d.is_ascii_digit()),
        None => false,
    }
}
