//! Kinds of goals.
ghost use Rattle.std.specs.Prelude.{◌≡◌};
ghost use Rattle.iso_engine.specs.Calling.{is_other_kind, is_passing_kind};
ghost use Rattle.iso_engine.specs.Writes.{is_write_kind};

use iso_search::construct::Construct;

/// Whether a goal of this kind is neither a control construct nor a predicate that is a step of the search.
pub fn is_other(kind: Construct) -> bool
    ensures { result ≡ is_other_kind kind }
{
    match kind {
        Construct::Other => true,
        _ => false,
    }
}

/// Whether a goal of this kind writes.
pub fn is_write(kind: Construct) -> bool
    ensures { result ≡ is_write_kind kind }
{
    match kind {
        Construct::Writes(_) => true,
        Construct::WritesQuoted(_) => true,
        Construct::WritesCanonical(_) => true,
        Construct::WritesNewline => true,
        Construct::Puts(_) => true,
        _ => false,
    }
}

/// Whether a goal of this kind only has further tasks done, or drops choice points: `true`, a cut or a conjunction.
#[inline(always)]
pub fn passes(kind: Construct) -> bool
    ensures { result ≡ is_passing_kind kind }
{
    match kind {
        Construct::Succeeds => true,
        Construct::Cuts => true,
        Construct::Conjunction(_, _) => true,
        _ => false,
    }
}
