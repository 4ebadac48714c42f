//! Steps that were not made.
ghost use Rattle.std.specs.Prelude.{◌≡◌};
ghost use Rattle.iso_engine.specs.Unserved.{as_stopped};

use crate::slices::Slice;
use pl_term::Memory;
use world_api::Unserved;

/// How a slice ends at a step, if it does: also where the step was not made. The only error is out of memory.
#[inline(always)]
pub fn stop_of(step: Result<Option<Slice>, Unserved>) -> Result<Option<Slice>, Memory>
    ensures { result ≡ as_stopped step }
{
    match step {
        Ok(stopped) => Ok(stopped),
        Err(Unserved::NeedsAtoms(pass)) => Ok(Some(Slice::NeedsAtoms(pass))),
        Err(Unserved::Retry(cause)) => Ok(Some(Slice::Retry(cause))),
        Err(Unserved::Worn(word)) => Ok(Some(Slice::Worn(word))),
        Err(Unserved::Memory) => Err(Memory),
    }
}
