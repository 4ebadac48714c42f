//! Texts: finite lists of code points.
ghost use Rattle.std.specs.Prelude.{◌≡◌, ◌↔◌, IfOk, IsTrue, true};
ghost use Rattle.std.specs.Str.{all_scalars, chars, encode_utf8_all};
ghost use Rattle.pl_term.specs.Order.{text_order};
ghost use Rattle.pl_term.specs.Texts.{size};

use crate::memory::Memory;
use std::alloc::Global;
use std::cmp::Ordering;
use std::convert::AsStr;
use std::marker::Model;

/// A text, seen by contracts as the list of its code points. It is kept as UTF-8.
#[derive(Debug, Drop)]
pub struct Text {
    utf8: String,
}

impl Model for Text {
    ghost use Rattle.std.specs.Prelude.{List, ℕ, string_bytes};
    ghost use Rattle.std.specs.Str.{chars};

    ghost Value = { List ℕ };

    ghost view = { λ t. chars (string_bytes t.utf8) };
}

impl Text {
    /// The text that `s` spells. The only error is out of memory.
    pub fn from_str(alloc: Global, s: &str) -> Result<Text, Memory>
        ensures { IfOk result (λ t. t ≡ chars s.now) }
    {
        let utf8 = String::from_str(alloc, s)?;
        Ok(Text { utf8 })
    }

    /// A second text with the same code points. The only error is out of memory.
    pub fn copy(&self, alloc: Global) -> Result<Text, Memory>
        ensures { IfOk result (λ t. t ≡ self.now) }
    {
        Text::from_str(alloc, self.utf8.as_str())
    }

    /// Whether both texts have the same code points.
    pub fn same(&self, other: &Text) -> bool
        ensures { IsTrue result ↔ (self.now ≡ other.now) }
    {
        self.utf8.as_str() == other.utf8.as_str()
    }

    /// Whether this is the text that `s` spells.
    pub fn is(&self, s: &str) -> bool
        ensures { IsTrue result ↔ (self.now ≡ chars s.now) }
    {
        self.utf8.as_str() == s
    }

    /// The order of two texts by the codes of their characters; a text comes before those that it begins.
    pub fn compare(&self, other: &Text) -> Ordering
        ensures { result ≡ text_order self.now other.now }
    {
        self.utf8.as_str().cmp(other.utf8.as_str())
    }

    /// How many bytes the text takes in UTF-8.
    pub fn size(&self) -> usize
        ensures { result ≡ size self.now }
    {
        self.utf8.as_str().len()
    }

    /// Every code point of a text is a Unicode scalar value.
    pub fn scalars(&self)
        ensures { all_scalars self.now ≡ true }
    {
        let _ = self.utf8.as_str();
    }
}

impl AsStr for Text {
    ghost text = { encode_utf8_all };

    /// The text in UTF-8.
    fn as_str(&self) -> &str {
        self.utf8.as_str()
    }
}
