//! Terms that errors are made of (ISO 7.12.2).
#![tactic(auto, using(crate::proofs::WordTexts::words))]

ghost use Rattle.std.specs.Prelude.{◌≡◌, ◌<◌, IfOk, length};
ghost use Rattle.std.specs.Str.{chars};
ghost use Rattle.pl_term.specs.Tree.{atom, compound};
ghost use Rattle.pl_model.specs.Balls.{error_ball as ball_of, not_callable as no_goal, instantiation_error as instantiation};
ghost use Rattle.pl_model.specs.Control.{consult_proc};

use pl_term::{Flat, Memory, Text};
use std::alloc::Global;

/// The atom with this name. The only error is out of memory.
pub fn word(alloc: Global, name: &str) -> Result<Flat, Memory>
    ensures { IfOk result (λ t. t ≡ atom (chars name.now)) }
{
    let name = Text::from_str(alloc, name)?;
    Flat::atom(alloc, &name)
}

/// The compound term with this name and these arguments. The only error is out of memory.
fn named(alloc: Global, name: &str, arguments: &[Flat]) -> Result<Flat, Memory>
    requires { 0 < length arguments.now }
    ensures { IfOk result (λ t. t ≡ compound (chars name.now) arguments.now) }
{
    let name = Text::from_str(alloc, name)?;
    Flat::comp(alloc, &name, arguments)
}

/// The error of a term that is no goal (ISO 7.12.2 b). The only error is out of memory.
pub fn not_callable(alloc: Global, culprit: Flat) -> Result<Flat, Memory>
    ensures { IfOk result (λ t. t ≡ no_goal culprit) }
{
    let kind = word(alloc, "callable")?;
    named(alloc, "type_error", &[kind, culprit])
}

/// The error of a variable that is to be bound (ISO 7.12.2 a). The only error is out of memory.
pub fn instantiation_error(alloc: Global) -> Result<Flat, Memory>
    ensures { IfOk result (λ t. t ≡ instantiation) }
{
    word(alloc, "instantiation_error")
}

/// The ball of an error by which the consulting of a file refuses a clause. The only error is out of memory.
pub fn consulting_ball(alloc: Global, error: Flat) -> Result<Flat, Memory>
    ensures { IfOk result (λ t. t ≡ ball_of error consult_proc) }
{
    let name = word(alloc, "consult")?;
    let arity = Flat::int(alloc, 1)?;
    let culprit = named(alloc, "/", &[name, arity])?;
    named(alloc, "error", &[error, culprit])
}
