//! Layout: white space and comments (ISO 6.4.1).
ghost use Rattle.std.specs.Prelude.{◌≡◌, ℕ, ◌+◌, ◌-◌, ◌<◌, ◌≤◌, length, drop, IfOk, IfSome, option_map, slice_index, ◌==◌};
ghost use Rattle.pl_model.specs.Tokens.{line_length, block_length, blank, block, comment, skip_layout};
ghost use Rattle.lex_core.specs.Views.{blank_result};

use crate::characters::{Run, character, run_end};
use pl_model::syntax::{SyntaxFault, SyntaxKind};

/// The place after the layout that begins at `at`, which is white space and comments.
pub fn skip_layout(text: &[u8], at: usize) -> Result<usize, SyntaxFault>
    ensures { result ≡ skip_layout at 0 (drop at text.now) }
{
    let mut place = at;
    while place < text.len() {
        let Some(end) = blank(text, place)? else {
            return Ok(place);
        };
        place = end;
    }
    Ok(place)
}

/// The place after the white space character or the comment at `at`, or none where no layout stands there.
fn blank(text: &[u8], at: usize) -> Result<Option<usize>, SyntaxFault>
    requires { at < length text.now }
    ensures value { result ≡ blank_result at (blank (drop at text.now)) }
    ensures forward { IfOk result (λ end. IfSome end (λ e. (at < e) × (e ≤ length text.now))) }
{
    let Some((c, size)) = character(text, at) else {
        return Ok(None);
    };
    if c.is_whitespace() {
        return Ok(Some(at + size));
    }
    if c == '%' {
        return comment(text, at, line_end(text, at + 1));
    }
    if c == '/' && begins_block(text, at) {
        return block(text, at);
    }
    Ok(None)
}

/// Whether `/*` stands at `at`, where a `/` does.
pub fn begins_block(text: &[u8], at: usize) -> bool
    requires { at < length text.now }
    ensures { result ≡ (slice_index (drop at text.now) 1 == 42) }
{
    at + 1 < text.len() && text[at + 1] == b'*'
}

/// The place after the comment that begins with `/*` at `at`.
fn block(text: &[u8], at: usize) -> Result<Option<usize>, SyntaxFault>
    requires { at + 1 < length text.now }
    ensures value { result ≡ blank_result at (block (drop at text.now) (block_length (drop 2 (drop at text.now)))) }
    ensures forward { IfOk result (λ end. IfSome end (λ e. (at < e) × (e ≤ length text.now))) }
{
    match block_end(text, at + 2) {
        Some(end) => comment(text, at, end),
        None => Err(SyntaxFault {
            kind: SyntaxKind::OpenComment,
            at,
        }),
    }
}

/// The end of a comment from `at` to `end`, if all of its bytes are UTF-8.
fn comment(text: &[u8], at: usize, end: usize) -> Result<Option<usize>, SyntaxFault>
    requires at { at < end }
    requires end { end ≤ length text.now }
    ensures value { result ≡ blank_result at (comment (drop at text.now) (end - at)) }
    ensures forward { IfOk result (λ found. IfSome found (λ e. (at < e) × (e ≤ length text.now))) }
{
    let valid = run_end(&text[..end], at, Run::Any);
    if valid < end {
        return Err(SyntaxFault {
            kind: SyntaxKind::BadUtf8,
            at: valid,
        });
    }
    Ok(Some(end))
}

/// The place of the next newline at `at` or after it, or the end of the text.
pub fn line_end(text: &[u8], at: usize) -> usize
    requires { at ≤ length text.now }
    ensures value { result ≡ at + line_length (drop at text.now) }
    ensures within { (at ≤ result) × (result ≤ length text.now) }
{
    for place in at..text.len() {
        if text[place] == b'\n' {
            return place;
        }
    }
    text.len()
}

/// The place after the next `*/` at `at` or after it.
pub fn block_end(text: &[u8], at: usize) -> Option<usize>
    requires { at ≤ length text.now }
    ensures value { result ≡ option_map (λ n. at + n) (block_length (drop at text.now)) }
    ensures within { IfSome result (λ e. (at < e) × (e ≤ length text.now)) }
{
    for place in at..text.len() {
        if text[place] == b'*' && place + 1 < text.len() && text[place + 1] == b'/' {
            return Some(place + 2);
        }
    }
    None
}
