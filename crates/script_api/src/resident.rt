//! The traits of what stands for an engine between two slices.
ghost use Rattle.std.specs.Prelude.{◌≡◌, ℕ, Bool, false, OnOk, List};
ghost use Rattle.run_model.specs.Execution.{Job, Execution};
ghost use Rattle.run_model.specs.Lawful.{IsRunning};
ghost use Rattle.atom_api.specs.Names.{Names};
ghost use Rattle.term_store.specs.Live.{Gathers};
ghost use Rattle.world_api.specs.Told.{Told};
ghost use Rattle.script_api.specs.Residents.{IsKept, IsLeast, Waited};

use pl_term::Memory;
use term_store::AtomSet;

/// An engine between two slices.
pub trait Resident {
    // Where its atoms hold these texts and it was told this, it stands for this execution of a job.
    ghost stands: { Names → Told → Self → Job → Execution → Type 0 };

    // What holds of it then.
    ghost ready: { Names → Told → Self → Type 0 };

    // The moves that its execution has made.
    ghost moves: { Self → ℕ };

    // Whether it has answered how its execution has ended.
    ghost over: { Self → Bool };

    /// The number of moves that its execution has made.
    fn move_count(&self) -> u64
        ensures { result ≡ moves self.now };

    // It stands for the same execution when others have made entries.
    ghost later: { (m n : Names) (t u : Told) (e : Self) → Waited m t n u → ready m t e
        → ready n u e × ((job : Job) (x : Execution) → stands m t e job x → stands n u e job x) };

    // An execution for which it stands has not ended before it has answered so.
    ghost running: { (m : Names) (t : Told) (e : Self) (job : Job) (x : Execution) → ready m t e → over e ≡ false → stands m t e job x → IsRunning x };
}

/// What an engine keeps in use of the atoms and of the clauses.
pub trait Roots: Resident {
    // The atoms that it names.
    ghost names: { Self → List ℕ };

    // The generations of calls that have clauses left.
    ghost open_at: { Self → List ℕ };

    /// Puts the atoms that it names to those of a set. The only error is out of memory.
    fn live_in(&self, live: &mut AtomSet) -> Result<(), Memory>
        ensures { OnOk result (Gathers (names self.now) live.old live.new) };

    /// The oldest of the generations that it has open, or none.
    fn oldest_open(&self) -> Option<u64>
        ensures { IsLeast result (open_at self.now) };

    // It stands for the same execution where just the texts of the atoms that it names are held on.
    ghost kept: { (m n : Names) (t : Told) (e : Self) → IsKept m n (names e) → Self.ready m t e
        → Self.ready n t e × ((job : Job) (x : Execution) → Self.stands m t e job x → Self.stands n t e job x) };
}
