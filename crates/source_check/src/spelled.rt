//! Names in directives: specifiers of operators and values of the flag `double_quotes`, by their names.
ghost use Rattle.std.specs.Prelude.{◌≡◌, bytes_eq};
ghost use Rattle.std.specs.Str.{chars};
ghost use Rattle.pl_model.specs.Flags.{quotes_of};
ghost use Rattle.pl_model.specs.SharedBuiltins.{specifier_named};

use pl_model::grammar::Quotes;
use pl_model::operators::Kind;
use pl_term::Text;

/// Whether a name is the text that `s` spells.
pub fn is_spelled(name: &Text, s: &str) -> bool
    ensures { result ≡ bytes_eq name.now (chars s.now) }
{
    name.is(s)
}

/// The specifier of this name (ISO 6.3.4, table 4), if there is one.
pub fn kind_named(name: &Text) -> Option<Kind>
    ensures { result ≡ specifier_named name.now }
{
    if is_spelled(name, "xfx") {
        Some(Kind::Xfx)
    } else if is_spelled(name, "xfy") {
        Some(Kind::Xfy)
    } else if is_spelled(name, "yfx") {
        Some(Kind::Yfx)
    } else if is_spelled(name, "fy") {
        Some(Kind::Fy)
    } else if is_spelled(name, "fx") {
        Some(Kind::Fx)
    } else if is_spelled(name, "xf") {
        Some(Kind::Xf)
    } else if is_spelled(name, "yf") {
        Some(Kind::Yf)
    } else {
        None
    }
}

/// What the flag `double_quotes` with the value of this name makes of texts (ISO 7.11.2.5), if it has such a value.
pub fn quotes_named(name: &Text) -> Option<Quotes>
    ensures { result ≡ quotes_of name.now }
{
    if is_spelled(name, "codes") {
        Some(Quotes::Codes)
    } else if is_spelled(name, "chars") {
        Some(Quotes::Chars)
    } else if is_spelled(name, "atom") {
        Some(Quotes::Atom)
    } else {
        None
    }
}
