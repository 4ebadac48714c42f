//! What holds of the history in every state.
ghost use Rattle.std.specs.Prelude.{ℕ, List};
ghost use Rattle.pl_history.specs.Steps.{Board, View, Step, Reached};
ghost use Rattle.pl_history.specs.Laws.{Kept};

/// After every list of steps, by any number of threads, from the table as it is made.
pub fn every_history()
    ensures { (engines : ℕ) (steps : List Step) (b : Board) (vs : List View)
        → Reached engines steps b vs
        → Kept b vs }
{}
