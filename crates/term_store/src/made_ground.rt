//! Compound terms that were made of constants and of such terms alone, and are marked.
ghost use Rattle.std.specs.Prelude.{◌≡◌, ◌≤◌, drop, true, false, length, slice_index_or, OnErr, OnOk};
ghost use Rattle.std.specs.List.{All};
ghost use Rattle.term_store.specs.GroundMarks.{IsMarked, IsMarkedToo};
ghost use Rattle.term_store.specs.Shorts.{IsShort};

use crate::shorts::{Short, Words};
use crate::words::Word;
use pl_term::Memory;

/// Whether the compound term with a number is marked.
pub fn marked_at(grounds: &[bool], k: usize) -> bool
    ensures { result ≡ slice_index_or grounds.now k false }
{
    if k < grounds.len() { grounds[k] } else { false }
}

/// Marks the compound term with a number, above which none is marked. The only error is out of memory, after which none is
/// marked that was not.
pub fn mark_at(grounds: &mut Vec<bool>, k: usize) -> Result<(), Memory>
    requires { length grounds.old.items ≤ k }
    ensures ok { OnOk result (IsMarkedToo true k grounds.old.items grounds.new.items) }
    ensures kept { OnErr result (IsMarkedToo false k grounds.old.items grounds.new.items) }
{
    while grounds.len() < k {
        grounds.push(false)?;
    }
    grounds.push(true)?;
    Ok(())
}

/// Whether the word is a constant, or a compound term that is marked.
fn is_ground_word(grounds: &[bool], word: Word) -> bool
    ensures { result ≡ true → IsMarked grounds.now word }
{
    match word {
        Word::Var(_) => false,
        Word::Int(_) => true,
        Word::Atom(_) => true,
        Word::Comp(k) => marked_at(grounds, k),
    }
}

/// Whether what is kept as the short word is a constant, or a compound term that is marked.
#[inline(always)]
pub fn is_ground_short(grounds: &[bool], short: Short) -> bool
    ensures { result ≡ true → (w : Word) → IsShort short w → IsMarked grounds.now w }
{
    if let Short::Slot(_) = short {
        return false;
    }
    if let Short::Term(k) = short {
        return marked_at(grounds, k as usize);
    }
    true
}

/// Whether the words from a place on are constants and compound terms that are marked. The last one is looked at first, since a variable
/// stands there more often than in front.
pub fn are_ground(grounds: &[bool], words: &Words, start: usize) -> bool
    requires { start ≤ length words.now.items }
    ensures { result ≡ true → All (IsMarked grounds.now) (drop start words.now.items) }
{
    let mut i = words.len();
    while i > start {
        i -= 1;
        if !is_ground_word(grounds, words.get(i)) {
            return false;
        }
    }
    true
}
