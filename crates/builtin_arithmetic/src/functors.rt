//! The names of the evaluable functors.
ghost use Rattle.std.specs.Prelude.{◌≡◌, IsTrue, bytes_eq};
ghost use Rattle.std.specs.Char.{is_ascii};
ghost use Rattle.std.specs.List.{list_all};
ghost use Rattle.pl_model.specs.Evaluables.{named, names1, names2};

use pl_model::evaluables::{Op1, Op2};
use pl_term::Text;

/// The evaluable functor of one argument with this name.
pub fn unary(name: &Text) -> Option<Op1>
    ensures { result ≡ named names1 name.now }
{
    if is_named(name, "-") {
        Some(Op1::Negate)
    } else if is_named(name, "+") {
        Some(Op1::Plus)
    } else if is_named(name, "abs") {
        Some(Op1::Absolute)
    } else if is_named(name, "sign") {
        Some(Op1::Sign)
    } else if is_named(name, "\\") {
        Some(Op1::Complement)
    } else {
        None
    }
}

/// The evaluable functor of two arguments with this name.
pub fn binary(name: &Text) -> Option<Op2>
    ensures { result ≡ named names2 name.now }
{
    if is_named(name, "+") {
        Some(Op2::Add)
    } else if is_named(name, "-") {
        Some(Op2::Subtract)
    } else if is_named(name, "*") {
        Some(Op2::Multiply)
    } else if is_named(name, "min") {
        Some(Op2::Minimum)
    } else if is_named(name, "max") {
        Some(Op2::Maximum)
    } else if is_named(name, "//") {
        Some(Op2::Quotient)
    } else if is_named(name, "rem") {
        Some(Op2::Rem)
    } else if is_named(name, "div") {
        Some(Op2::Div)
    } else if is_named(name, "mod") {
        Some(Op2::Mod)
    } else if is_named(name, "/\\") {
        Some(Op2::BitAnd)
    } else if is_named(name, "\\/") {
        Some(Op2::BitOr)
    } else if is_named(name, "<<") {
        Some(Op2::ShiftLeft)
    } else if is_named(name, ">>") {
        Some(Op2::ShiftRight)
    } else if is_named(name, "**") {
        Some(Op2::Power)
    } else if is_named(name, "^") {
        Some(Op2::IntegerPower)
    } else {
        None
    }
}

/// Whether this is the name that `text`, which is in ASCII, spells.
fn is_named(name: &Text, text: &str) -> bool
    requires { IsTrue (list_all is_ascii text.now) }
    ensures { result ≡ bytes_eq name.now text.now }
{
    name.is(text)
}
