//! Skipping: where reading may go on after a fault.
ghost use Rattle.std.specs.Prelude.{◌≡◌};
ghost use Rattle.pl_model.specs.Skipping.{skip};

use lex_core::Passing;

/// The place after the first end token at the place `at` of a text or after it, or the text's length where there is
/// none, or where a quoted text or a comment before it stays open (ISO 6.4.8). A quoted text or a comment with a fault in
/// it is passed whole, a faulty `0'` with the one character after it, any other fault by one character, or by one byte
/// that begins none. It takes no memory, and time linear in the text.
pub fn skip(text: &[u8], at: usize) -> usize
    ensures { result ≡ skip text.now at }
{
    let mut place = at;
    while place < text.len() {
        match lex_core::pass(text, place) {
            Passing::Through(n) => place += n,
            Passing::Ends(n) => return place + n,
            Passing::StaysOpen => return text.len(),
        }
    }
    text.len()
}
