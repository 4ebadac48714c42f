//! A buffer for the text of an atom.
ghost use Rattle.std.specs.Prelude.{◌≡◌, ◌≤◌, [], length, take, IfOk, encode_utf8_all};
ghost use Rattle.std.specs.Str.{chars};
ghost use Rattle.pl_term.specs.Texts.{size};

use pl_term::{Memory, Text};
use std::alloc::Global;
use std::convert::AsStr;
use std::marker::Model;

/// How many bytes a buffer has, the most that the text of an atom may have.
pub const ROOM: usize = 248;

/// A buffer for the text of an atom, seen by contracts as that text.
#[derive(Debug, Drop)]
pub struct TextBuf {
    bytes: [u8; ROOM],
    len: usize,
}

impl Model for TextBuf {
    ghost use Rattle.std.specs.Prelude.{◌≡◌, ◌≤◌, ℕ, List, take, true};
    ghost use Rattle.std.specs.Str.{chars, is_utf8};

    ghost Value = { List ℕ };

    ghost view = { λ b. chars (take b.len b.bytes) };

    ghost invariant = { λ b. (b.len ≤ 248) × (is_utf8 (take b.len b.bytes) ≡ true) };
}

impl TextBuf {
    /// A buffer with the empty text.
    pub fn new() -> TextBuf
        ensures { result ≡ [] }
    {
        TextBuf {
            bytes: [0; ROOM],
            len: 0,
        }
    }

    /// Puts the text that `s` spells into the buffer.
    pub fn put(&mut self, s: &str)
        requires { length s.now ≤ 248 }
        ensures { self.new ≡ chars s.now }
    {
        copy_to(&mut self.bytes, s.as_bytes());
        self.len = s.len();
    }

    /// How many bytes the text takes in UTF-8.
    pub fn size(&self) -> usize
        ensures { result ≡ size self.now }
    {
        self.as_str().len()
    }

    /// The text by itself. The only error is out of memory.
    pub fn to_text(&self, alloc: Global) -> Result<Text, Memory>
        ensures { IfOk result (λ t. t ≡ self.now) }
    {
        Text::from_str(alloc, self.as_str())
    }
}

impl AsStr for TextBuf {
    ghost text = { encode_utf8_all };

    /// The text in UTF-8.
    fn as_str(&self) -> &str {
        str::from_utf8(&self.bytes[..self.len]).unwrap()
    }
}

/// Puts bytes at the front.
fn copy_to(bytes: &mut [u8], from: &[u8])
    requires { length from.now ≤ length bytes.old }
    ensures { take (length from.now) bytes.new ≡ from.now }
{
    for i in 0..from.len() {
        bytes[i] = from[i];
    }
}
