//! The atoms that scripts name.
ghost use Rattle.std.specs.Prelude.{◌≡◌, OnOk};
ghost use Rattle.term_store.specs.Live.{Gathers};
ghost use Rattle.term_store.specs.NumberedNames.{names_of};

use crate::script::Script;
use atom_api::fixed;
use pl_term::Memory;
use term_store::{AtomSet, Stored};

/// A script whose atoms can be listed.
pub trait Living: Script {
    /// Puts the atoms that it names to those of a set. The only error is out of memory.
    fn live_in(&self, live: &mut AtomSet) -> Result<(), Memory>
        ensures { OnOk result (Gathers (Self.names self.now) live.old live.new) };
}

/// Puts the atoms that the term names, and the neck, to those of a set. The only error is out of memory.
pub(crate) fn name_term(term: &Stored, live: &mut AtomSet) -> Result<(), Memory>
    ensures { OnOk result (Gathers (names_of term.now) live.old live.new) }
{
    live.insert(fixed::NECK)?;
    term.live_in(live)?;
    Ok(())
}
