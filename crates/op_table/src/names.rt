//! Names that are no operators.
ghost use Rattle.std.specs.Prelude.{◌≡◌, bytes_eq};
ghost use Rattle.std.specs.Str.{chars};
ghost use Rattle.pl_model.specs.OperatorTable.{is_reserved};

use pl_term::Text;

/// Whether a name is the text that `s` spells.
pub fn is_spelled(name: &Text, s: &str) -> bool
    ensures { result ≡ bytes_eq name.now (chars s.now) }
{
    name.is(s)
}

/// Whether a name is one of `.`, `|`, `[]` and `{}`.
pub fn is_reserved(name: &Text) -> bool
    ensures { result ≡ is_reserved name.now }
{
    if is_spelled(name, ".") {
        return true;
    }
    if is_spelled(name, "|") {
        return true;
    }
    if is_spelled(name, "[]") {
        return true;
    }
    is_spelled(name, "{}")
}
