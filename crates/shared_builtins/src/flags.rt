//! Flags and their values as atoms (ISO 7.11).
ghost use Rattle.std.specs.Prelude.{◌≡◌, IsSome};
ghost use Rattle.pl_model.specs.Flags as flags;
ghost use Rattle.pl_model.specs.SharedBuiltins.{is_changeable};
ghost use Rattle.atom_api.specs.Names.{Names};
ghost use Rattle.term_store.specs.Heap.{atom_name};
ghost use Rattle.world_builtins.specs.Spelling.{text_of};
ghost use Rattle.builtin_rows.specs.Lists.{IsNaming};
ghost use Rattle.shared_builtins.specs.Flags as named;

use atom_api::{Atom, fixed};

/// Whether the flag cannot be changed.
#[tactic(auto, using(crate::proofs::Named::fixed_told))]
pub fn is_fixed_flag(name: Atom) -> bool
    ensures number { result ≡ named.is_fixed name }
    ensures told { (m : Names) → IsNaming m → IsSome (m name) → flags.is_fixed_flag (text_of m (atom_name name)) ≡ named.is_fixed name }
{
    name == fixed::BOUNDED
        || name == fixed::INTEGER_ROUNDING_FUNCTION
        || name == fixed::MAX_INTEGER
        || name == fixed::MIN_INTEGER
}

/// Whether the flag can be changed.
#[tactic(auto, using(crate::proofs::Named::set_told))]
pub fn is_changeable(name: Atom) -> bool
    ensures number { result ≡ named.is_set name }
    ensures told { (m : Names) → IsNaming m → IsSome (m name) → is_changeable (text_of m (atom_name name)) ≡ named.is_set name }
{
    name == fixed::DOUBLE_QUOTES || name == fixed::UNKNOWN
}

/// Whether the flag can have the value.
pub fn is_value(flag: Atom, value: Atom) -> bool
    ensures { result ≡ named.is_value flag value }
{
    if flag == fixed::DOUBLE_QUOTES {
        value == fixed::CODES || value == fixed::CHARS || value == fixed::ATOM
    } else if flag == fixed::UNKNOWN {
        value == fixed::ERROR || value == fixed::FAIL
    } else {
        false
    }
}
