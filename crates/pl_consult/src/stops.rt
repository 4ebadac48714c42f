//! What a script answers where it stays where it is.
ghost use Rattle.std.specs.Prelude.{◌≡◌};
ghost use Rattle.world_api.specs.NamedNodes.{stop_refusals};
ghost use Rattle.world_api.specs.Unserved.{unserved_refusals};
ghost use Rattle.script_api.specs.Scripts.{next_refusals};
ghost use Rattle.pl_consult.specs.Steps.{IsStay};

use script_api::Next;
use term_store::Stored;
use world_api::{NoTerm, Unserved};

/// What a script answers where a call of it was not served.
pub fn next_by(unserved: Unserved) -> Next<Stored>
    ensures refusals { next_refusals result ≡ unserved_refusals unserved }
    ensures stays { IsStay result }
{
    match unserved {
        Unserved::NeedsAtoms(pass) => Next::NeedsAtoms(pass),
        Unserved::Retry(cause) => Next::Retry(cause),
        Unserved::Worn(word) => Next::Worn(word),
        Unserved::Memory => Next::Memory,
    }
}

/// What a script answers where a term of it has no term over atoms. A name that is too long for an atom is no name of an item,
/// since the reader refuses it.
pub fn stopped(stop: NoTerm) -> Next<Stored>
    ensures refusals { next_refusals result ≡ stop_refusals stop }
    ensures stays { IsStay result }
{
    match stop {
        NoTerm::Full(pass) => Next::NeedsAtoms(pass),
        NoTerm::Again(cause) => Next::Retry(cause),
        NoTerm::TooLong => Next::Memory,
        NoTerm::Worn(word) => Next::Worn(word),
        NoTerm::Memory => Next::Memory,
    }
}
