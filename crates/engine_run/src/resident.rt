//! What a runner stands for between two turns, and what it keeps in use.
ghost use Rattle.std.specs.Prelude.{OnOk};
ghost use Rattle.term_store.specs.Live.{Gathers};
ghost use Rattle.script_api.specs.Residents.{IsLeast};
ghost use Rattle.engine_run.specs.Roots.{stage_atoms, stage_generations};

use crate::runner::{Runner, Stage};
use pl_term::Memory;
use script_api::{Living, Resident, Roots, Script};
use term_store::{AtomSet, Stored};

impl<S: Script<Term = Stored> + Drop> Resident for Runner<S> {
    ghost use Rattle.engine_run.specs.Runners.{IsBetween, StandsFor, is_over};
    ghost use Rattle.engine_run.specs.RunnerLaws.{between_later, not_over};

    ghost stands = { λ m t r job x. StandsFor S.execution S.part S.plays S.kept S.name S.variables m t r job x };

    ghost ready = { λ m t r. IsBetween S.part S.over S.names m t r };

    ghost moves = { λ r. r.moves };

    ghost over = { λ r. is_over r.stage };

    fn move_count(&self) -> u64 {
        self.moves
    }

    ghost later = { λ m n t u r waited ready. between_later S.execution S.part S.over S.names S.plays S.kept S.name S.variables S.names_tell m n t u r waited ready };

    ghost running = { λ m t r job x ready going stands. not_over S.execution S.part S.running S.plays S.kept S.name S.variables m t r job x going stands };
}

impl<S: Living + Script<Term = Stored> + Drop> Roots for Runner<S> {
    ghost use Rattle.engine_run.specs.Roots.{runner_atoms, stage_generations};
    ghost use Rattle.engine_run.specs.RootLaws.{between_kept};

    ghost names = { λ r. runner_atoms S.names r };

    ghost open_at = { λ r. stage_generations r.stage };

    fn live_in(&self, live: &mut AtomSet) -> Result<(), Memory> {
        self.script.live_in(live)?;
        live_at(&self.stage, live)?;
        Ok(())
    }

    fn oldest_open(&self) -> Option<u64> {
        oldest_at(&self.stage)
    }

    ghost kept = { λ m n t r k ready. between_kept S.execution S.part S.over S.names S.plays S.kept S.name S.variables S.names_tell m n t r k ready };
}

/// Puts the atoms of the search at hand to those of a set, if one is. The only error is out of memory.
fn live_at(stage: &Stage, live: &mut AtomSet) -> Result<(), Memory>
    ensures { OnOk result (Gathers (stage_atoms stage.now) live.old live.new) }
{
    match stage {
        Stage::Asks => Ok(()),
        Stage::Directs(engine) => engine.live_in(live),
        Stage::Searches(engine) => engine.live_in(live),
        Stage::Over => Ok(()),
    }
}

/// The oldest generation of which the search at hand may ask for clauses, if there is one.
fn oldest_at(stage: &Stage) -> Option<u64>
    ensures { IsLeast result (stage_generations stage.now) }
{
    match stage {
        Stage::Asks => None,
        Stage::Directs(engine) => engine.oldest_open(),
        Stage::Searches(engine) => engine.oldest_open(),
        Stage::Over => None,
    }
}
