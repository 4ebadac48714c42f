//! The line of the solution that a slice gave.
ghost use Rattle.std.specs.Prelude.{◌≡◌, map, OnOk};
ghost use Rattle.std.specs.List.{All};
ghost use Rattle.term_store.specs.Contents.{Holds as IsPlaceIn};
ghost use Rattle.world_builtins.specs.Spelling.{reads};
ghost use Rattle.engine_run.specs.Answered.{IsHeldFor, IsPut};

use crate::shown::put_shown;
use atom_api::Atoms;
use iso_engine::engine::Engine;
use iso_engine::slices::Slice;
use pl_term::{Memory, Text};
use std::alloc::Global;

/// Puts the line of a slice's solution after `out`, if it gave one: the goal's variables with their terms as they stand
/// now. The only error is out of memory.
pub(crate) fn put_answer<A: Atoms>(
    alloc: Global,
    engine: &Engine,
    names: &[(Text, u64)],
    slice: &Slice,
    atoms: &mut A,
    out: &mut Vec<u8>,
) -> Result<(), Memory>
    requires inside { All (IsPlaceIn engine.now.search.store) engine.now.search.answer.items }
    requires held { IsHeldFor slice.now (A.held atoms.old) engine.now }
    ensures puts { OnOk result (IsPut slice.now names.now (map (reads (A.held atoms.old) engine.now.search.store) engine.now.search.answer.items)
        out.old.items out.new.items) }
    ensures same { A.held atoms.new ≡ A.held atoms.old }
    ensures refusals { A.refusals atoms.new ≡ A.refusals atoms.old }
{
    match slice {
        Slice::Solution(operators) => {
            let search = &engine.search;
            put_shown(
                alloc,
                &search.store,
                &search.answer,
                names,
                operators,
                atoms,
                out,
            )
        }
        _ => Ok(()),
    }
}
