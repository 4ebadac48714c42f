//! Files that all have one text.
ghost use Rattle.std.specs.Prelude.{◌≡◌, ◌≤◌, ◌-◌, ℕ, List, Some, IsOk, IfOk, length, min};
ghost use Rattle.pl_io.specs.Reading.{Reads};

use crate::bytes::Bytes;
use crate::failed::Failed;
use crate::files::Files;
use pl_term::Text;
use std::marker::Model;

/// A form of files in memory that never fails, and gives one text for every name. Contracts see it as the bytes of
/// that text.
#[derive(Debug, Drop)]
pub struct OneText {
    text: Bytes,
}

impl Model for OneText {
    ghost use Rattle.std.specs.Prelude.{List, ℕ};

    ghost Value = { List ℕ };

    ghost view = { λ o. o.text };
}

impl OneText {
    /// Files that all have these bytes.
    pub fn new(text: Bytes) -> OneText
        ensures { result ≡ text }
    {
        OneText { text }
    }
}

impl Files for OneText {
    ghost told = { λ o _. Some o };

    ghost faults = { λ _ _. 0 };

    /// Reads as from a file with the text. It does not fail, and fills as much of `buf` as there is text.
    fn read(&mut self, name: &Text, at: u64, buf: &mut [u8]) -> Result<usize, Failed>
        ensures told { (n : List ℕ) → Some self.new ≡ Some self.old }
        ensures bytes { IfOk result (λ k. Reads self.old at k (length buf.old) buf.new) }
        ensures full { IfOk result (λ k. k ≡ min (length buf.old) (length self.old - at)) }
        ensures never_fails { IsOk result }
    {
        Ok(copy_out(self.text.as_slice(), at, buf))
    }
}

/// Copies the bytes from place `at` on into the front of `buf`, as many as there are and as fit in, and answers
/// their number.
pub(crate) fn copy_out(bytes: &[u8], at: u64, buf: &mut [u8]) -> usize
    ensures count { result ≡ min (length buf.old) (length bytes.now - at) }
    ensures reads { Reads bytes.now at result (length buf.old) buf.new }
{
    if at >= bytes.len() as u64 {
        return 0;
    }
    let rest = &bytes[at as usize..];
    let k = rest.len().min(buf.len());
    buf[..k].copy_from_slice(&rest[..k]);
    k
}
