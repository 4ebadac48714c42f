//! Ends of engines.
ghost use Rattle.std.specs.Prelude.{◌≡◌, IfOk, IsSome, OnErr, OnOk, length};
ghost use Rattle.std.specs.Arc.{arc_value};
ghost use Rattle.std.specs.List.{All};
ghost use Rattle.pl_model.specs.History.{finish};
ghost use Rattle.pl_model.specs.SharedState.{state_at, status_of};
ghost use Rattle.atom_words.specs.Seats.{seen};
ghost use Rattle.atom_table.specs.Naming.{names, requests as asked};
ghost use Rattle.counted_terms.specs.CountedTerms.{said};
ghost use Rattle.hub_threads.specs.Rows.{status_names};
ghost use Rattle.hub_threads.specs.Serving.{status_as};
ghost use Rattle.pl_hub.specs.Ending.{IsEnded};
ghost use Rattle.pl_hub.specs.Fronts.{IsOwn};

use crate::naming::Naming;
use crate::settling::close;
use crate::shared::Shared;
use atom_table::TableAtoms;
use clause_db::OpTable;
use counted_terms::CountedTerm;
use hub_threads::Status;
use pl_history::{Front, History};
use pl_model::grammar::Quotes;
use pl_model::shows::{ShowsHow, ShowsSteps};
use pl_term::Memory;
use std::sync::Arc;

/// From this length on the history gains no end of an engine either.
const LAST: u64 = 1 << 49;

impl<K: Naming> Shared<K> {
    /// The operators and the flag `double_quotes` after all entries, as an engine leaves them that ends then. The only error is
    /// out of memory.
    pub fn standing(&self) -> Result<(Arc<OpTable>, Quotes), Memory>
        ensures operators { IfOk result (λ s. arc_value s.0 ≡ (state_at K.goals self.now.seen (length self.now.seen)).operators) }
        ensures quotes { IfOk result (λ s. s.1 ≡ (state_at K.goals self.now.seen (length self.now.seen)).flags.double_quotes) }
    {
        let operators = self.db.shared_operators()?;
        Ok((operators, self.db.flags().double_quotes))
    }

    /// The front's own engine, which has this number and runs, ends so after so many steps: the history gains its end, and
    /// its thread the status, of which the engine holds the atoms. Out of memory changes nothing; a history of 2^49 entries
    /// is taken as out of memory.
    pub fn end<W: ShowsHow, S: ShowsSteps>(
        &mut self,
        history: &History,
        atoms: &mut TableAtoms<K>,
        front: &mut Front,
        engine: u64,
        how: &W,
        run: &S,
        status: Status<CountedTerm>,
    ) -> Result<(), Memory>
        requires history { history.now ≡ K.history }
        requires front { IsOwn K.history engine front.old }
        requires held { All (λ a. IsSome (names (seen atoms.old.seat) a)) (status_names status) }
        requires status { status_of (W.how how.now) ≡ status_as (said (names (seen atoms.old.seat))) status }
        ensures ended { OnOk result (IsEnded K.goals engine (finish (W.how how.now) (S.steps run.now)) front.old front.new self.old self.new) }
        ensures refused { OnErr result ((front.new ≡ front.old) × (self.new ≡ self.old)) }
        ensures held { names (seen atoms.new.seat) ≡ names (seen atoms.old.seat) }
        ensures refusals { (seen atoms.new.seat).refusals ≡ (seen atoms.old.seat).refusals }
        ensures asked { asked (seen atoms.new.seat) ≡ asked (seen atoms.old.seat) }
    {
        let generation = self.front.generation();
        if generation >= LAST {
            return Err(Memory);
        }
        let ended = hub_threads::end_thread(
            &mut self.queues,
            atoms,
            &mut self.keeper,
            generation,
            engine,
            status,
        );
        match ended {
            Err(Memory) => Err(Memory),
            Ok(()) => {
                close(history, &mut self.front, front, engine, how, run);
                Ok(())
            }
        }
    }
}
