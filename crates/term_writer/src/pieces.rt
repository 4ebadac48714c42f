//! The pieces of which the text of a term is made (ISO 7.10.5).
ghost use Rattle.std.specs.Prelude.{◌≡◌, ◌∷◌, [], OnOk};
ghost use Rattle.std.specs.Fmt.{signed_decimal};
ghost use Rattle.pl_model.specs.TermWriting.{functor_by, infix_pieces, is_tight, name_by, operator_name, plain, postfix_pieces};
ghost use Rattle.pl_model.specs.Writing.{quoted, variable};
ghost use Rattle.term_writer.specs.Pages.{Grows, Puts, piece_of};
ghost use Rattle.term_writer.specs.Styles.{manner_of};

use crate::names::{is_bare_name, is_named, is_symbol_name};
use crate::operators::Style;
use crate::page::{Page, last_of};
use crate::quotes::push_escaped_all;
use itoa::Buffer;
use pl_term::{Memory, Text};
use std::convert::AsStr;

/// Puts a name as it is.
fn put_text(page: &mut Page, f: &Text, prefix: Option<Text>) -> Result<(), Memory>
    ensures puts { OnOk result (Puts page.old page.new (piece_of prefix f.now ∷ [])) }
    ensures grows { Grows page.old.bytes.items page.new.bytes.items }
{
    page.put(f.as_str(), prefix)?;
    Ok(())
}

/// Puts a name in quotes.
fn put_quoted(page: &mut Page, f: &Text, prefix: Option<Text>) -> Result<(), Memory>
    ensures puts { OnOk result (Puts page.old page.new (piece_of prefix (quoted f.now) ∷ [])) }
    ensures grows { Grows page.old.bytes.items page.new.bytes.items }
{
    page.space('\'')?;
    page.bytes.push(b'\'')?;
    push_escaped_all(&mut page.bytes, f)?;
    page.bytes.push(b'\'')?;
    page.last = '\'';
    page.prefix = prefix;
    Ok(())
}

/// Puts the name of an atom or an operator, in quotes where the style wants them and it would not read back without
/// them.
pub fn put_name(style: Style, page: &mut Page, f: &Text, prefix: Option<Text>) -> Result<(), Memory>
    ensures puts { OnOk result (Puts page.old page.new (piece_of prefix (name_by (manner_of style.entry) f.now) ∷ [])) }
    ensures grows { Grows page.old.bytes.items page.new.bytes.items }
{
    if !style.quotes {
        return put_text(page, f, prefix);
    }
    if is_bare_name(f) {
        return put_text(page, f, prefix);
    }
    put_quoted(page, f, prefix)
}

/// Puts the name of a compound term that stands before its arguments.
pub fn put_functor(style: Style, page: &mut Page, f: &Text) -> Result<(), Memory>
    ensures puts { OnOk result (Puts page.old page.new (plain (functor_by (manner_of style.entry) f.now) ∷ [])) }
    ensures grows { Grows page.old.bytes.items page.new.bytes.items }
{
    if !style.quotes {
        return put_text(page, f, None);
    }
    if is_named(f, "[]") {
        return put_quoted(page, f, None);
    }
    if is_named(f, "{}") {
        return put_quoted(page, f, None);
    }
    put_name(style, page, f, None)
}

/// Puts the name of an operator. The comma stands without quotes.
pub fn put_operator(
    style: Style,
    page: &mut Page,
    f: &Text,
    prefix: Option<Text>,
) -> Result<(), Memory>
    ensures puts { OnOk result (Puts page.old page.new (piece_of prefix (operator_name (manner_of style.entry) f.now) ∷ [])) }
    ensures grows { Grows page.old.bytes.items page.new.bytes.items }
{
    if is_named(f, ",") {
        return put_text(page, f, prefix);
    }
    put_name(style, page, f, prefix)
}

/// Whether an operator of this name stands without spaces: a comma, a semicolon or a symbol name.
fn is_tight(f: &Text) -> bool
    ensures { result ≡ is_tight f.now }
{
    is_named(f, ",") || is_named(f, ";") || is_symbol_name(f)
}

/// Puts an infix operator, with a space on each side where it wants them.
pub fn put_infix(style: Style, page: &mut Page, f: &Text) -> Result<(), Memory>
    ensures puts { OnOk result (Puts page.old page.new (infix_pieces (manner_of style.entry) f.now)) }
    ensures grows { Grows page.old.bytes.items page.new.bytes.items }
{
    if is_tight(f) {
        return put_operator(style, page, f, None);
    }
    page.put_mark(b' ')?;
    put_operator(style, page, f, None)?;
    page.put_mark(b' ')
}

/// Puts a postfix operator, with a space before it where it wants one.
pub fn put_postfix(style: Style, page: &mut Page, f: &Text) -> Result<(), Memory>
    ensures puts { OnOk result (Puts page.old page.new (postfix_pieces (manner_of style.entry) f.now)) }
    ensures grows { Grows page.old.bytes.items page.new.bytes.items }
{
    if is_tight(f) {
        return put_operator(style, page, f, None);
    }
    page.put_mark(b' ')?;
    put_operator(style, page, f, None)
}

/// Puts a variable by its number.
pub fn put_variable(page: &mut Page, n: u64) -> Result<(), Memory>
    ensures puts { OnOk result (Puts page.old page.new (plain (variable n) ∷ [])) }
    ensures grows { Grows page.old.bytes.items page.new.bytes.items }
{
    let mut buffer = Buffer::new();
    let digits = buffer.format(n);
    page.space('_')?;
    page.bytes.push(b'_')?;
    page.bytes.extend_from_slice(digits.as_bytes())?;
    page.last = last_of('_', digits);
    page.prefix = None;
    Ok(())
}

/// Puts an integer in decimal.
pub fn put_integer(page: &mut Page, i: i64) -> Result<(), Memory>
    ensures puts { OnOk result (Puts page.old page.new (plain (signed_decimal i) ∷ [])) }
    ensures grows { Grows page.old.bytes.items page.new.bytes.items }
{
    let mut buffer = Buffer::new();
    page.put(buffer.format(i), None)?;
    Ok(())
}
