//! Specifiers of operators (ISO 6.3.4, table 4) as atoms.
ghost use Rattle.std.specs.Prelude.{◌≡◌, IsSome};
ghost use Rattle.pl_model.specs.SharedBuiltins.{specifier_named};
ghost use Rattle.atom_api.specs.Names.{Names};
ghost use Rattle.term_store.specs.Heap.{atom_name};
ghost use Rattle.world_builtins.specs.Spelling.{text_of};
ghost use Rattle.builtin_rows.specs.Lists.{IsNaming};
ghost use Rattle.shared_builtins.specs.Operators.{kind_named, name_of};

use atom_api::{Atom, fixed};
use pl_model::operators::Kind;

/// The kind of operators with the specifier of this name.
#[tactic(auto, using(crate::proofs::Named::specifier_told))]
pub fn kind_of(name: Atom) -> Option<Kind>
    ensures number { result ≡ kind_named name }
    ensures told { (m : Names) → IsNaming m → IsSome (m name) → specifier_named (text_of m (atom_name name)) ≡ kind_named name }
{
    if name == fixed::XFX {
        Some(Kind::Xfx)
    } else if name == fixed::XFY {
        Some(Kind::Xfy)
    } else if name == fixed::YFX {
        Some(Kind::Yfx)
    } else if name == fixed::FY {
        Some(Kind::Fy)
    } else if name == fixed::FX {
        Some(Kind::Fx)
    } else if name == fixed::XF {
        Some(Kind::Xf)
    } else if name == fixed::YF {
        Some(Kind::Yf)
    } else {
        None
    }
}

/// The name of the specifier.
pub fn specifier_of(kind: Kind) -> Atom
    ensures { result ≡ name_of kind }
{
    match kind {
        Kind::Xfx => fixed::XFX,
        Kind::Xfy => fixed::XFY,
        Kind::Yfx => fixed::YFX,
        Kind::Fy => fixed::FY,
        Kind::Fx => fixed::FX,
        Kind::Xf => fixed::XF,
        Kind::Yf => fixed::YF,
    }
}
