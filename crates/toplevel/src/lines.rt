//! The line that is written where a file cannot be read.
ghost use Rattle.std.specs.Prelude.{◌≡◌, ◌++◌, List, ℕ, IfOk, OnOk, IsTrue, encode_utf8_all};
ghost use Rattle.std.specs.Char.{is_ascii};
ghost use Rattle.std.specs.List.{list_all};
ghost use Rattle.command_line.specs.CommandLine.{unread_line};
ghost use Rattle.pl_report.specs.Adds.{Adds};

use pl_term::{Memory, Text};
use std::alloc::Global;
use std::convert::AsStr;

/// Puts a text.
fn put(out: &mut Vec<u8>, text: &Text) -> Result<(), Memory>
    ensures { OnOk result (Adds out.old.items out.new.items text.now) }
{
    out.extend_from_slice(text.as_str().as_bytes())?;
    Ok(())
}

/// Puts words in ASCII.
fn put_words(out: &mut Vec<u8>, words: &str) -> Result<(), Memory>
    requires { IsTrue (list_all is_ascii words.now) }
    ensures { OnOk result (Adds out.old.items out.new.items words.now) }
{
    out.extend_from_slice(words.as_bytes())?;
    Ok(())
}

/// The line for a file that cannot be read. The only error is out of memory.
pub(crate) fn unread_text(alloc: Global, file: &Text) -> Result<Vec<u8>, Memory>
    ensures { IfOk result (λ v. v.items ≡ encode_utf8_all (unread_line file.now)) }
{
    let mut line = Vec::new(alloc);
    put_words(&mut line, "plt: cannot read ")?;
    put(&mut line, file)?;
    put_words(&mut line, "\n")?;
    Ok(line)
}
