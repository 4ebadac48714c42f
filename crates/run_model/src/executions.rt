//! Laws of executions: later entries change nothing of a run, and what an engine has reached move by move is lawful at
//! its end and where it waits.
ghost use Rattle.std.specs.Prelude.{◌≡◌, ◌≤◌, ℕ, zero, suc, List, [], ◌∷◌, ◌++◌, length, Option, Some, None};
ghost use Rattle.pl_term.specs.Tree.{Tree};
ghost use Rattle.pl_model.specs.declared.ends.AtomRecord.{AtomRecord};
ghost use Rattle.pl_model.specs.declared.ends.How.{How};
ghost use Rattle.pl_model.specs.declared.ends.How.TheVariants.{AtomSpace};
ghost use Rattle.run_model.specs.AtomRecords.{IsTrue};
ghost use Rattle.pl_model.specs.History.{History, finish, mine, IsPlainUpdate, AllPlain};
ghost use Rattle.pl_model.specs.Resolution.{Ending};
ghost use Rattle.run_model.specs.Execution.{Job, over, at_start};
ghost use Rattle.run_model.specs.Lawful.{run, Rises, EndsSo, RanToEnd, WaitsAtEnd, IsRunning, RanOutOfAtoms, Program, main_job, IsComplete};
ghost use Rattle.run_model.specs.Progress.{Seen, Reached, MovesTo, AsksTo, WaitsNow, Alone, told_at_end, told_waiting};
ghost use Rattle.run_model.specs.Report.{end_in, AreFinal};

/// Entries after the generations of a run change nothing of it.
#[tactic(auto, using(crate::proofs::LawfulStable::run_later))]
pub fn later_entries_change_nothing()
    ensures { (e goals : ℕ) (job : Job) (h later : History) (gens : List ℕ) (n : ℕ)
        → Rises zero gens (length h)
        → run e goals job (h ++ later) gens n ≡ run e goals job h gens n }
{}

/// There is one way at most in which an engine has reached a state.
pub fn reached_is_a_proposition()
    ensures { (e goals : ℕ) (job : Job) (low : ℕ) (seen : Seen) (n : ℕ) → IsProp (Reached e goals job low seen n) }
{}

/// At its beginning an engine has done nothing.
#[tactic(auto, using(crate::proofs::Progress::reached_start))]
pub fn begins_reached()
    ensures { (e goals : ℕ) (job : Job) (low : ℕ) (h : History)
        → mine h e ≡ []
        → low ≤ length h
        → Reached e goals job low (record { execution = at_start job; history = h; gens = [] }) 0 }
{}

/// Entries of other engines change nothing of what an engine has reached.
pub fn others_leave_reached()
    ensures { (e goals : ℕ) (job : Job) (low : ℕ) (seen : Seen) (n : ℕ) (later : History)
        → mine later e ≡ []
        → Reached e goals job low seen n
        → Reached e goals job low (record seen { history = seen.history ++ later }) n }
{}

/// A move of the engine's own.
pub fn moves_reached()
    ensures { (e goals : ℕ) (job : Job) (low : ℕ) (old new : Seen) (n : ℕ)
        → MovesTo job old new
        → Reached e goals job low old n
        → Reached e goals job low new (suc n) }
{}

/// A request after all entries that does not wait.
pub fn requests_reached()
    ensures { (e goals : ℕ) (job : Job) (low : ℕ) (old new : Seen) (n : ℕ)
        → AsksTo e goals job old new
        → Reached e goals job low old n
        → Reached e goals job low new (suc n) }
{}

/// The run, with whatever entries follow, stands at the state that is reached.
pub fn stands_at_the_execution()
    ensures { (e goals : ℕ) (job : Job) (low : ℕ) (seen : Seen) (n : ℕ) (later : History)
        → Reached e goals job low seen n
        → (run e goals job (seen.history ++ later) seen.gens n).execution ≡ seen.execution }
{}

/// What has ended is lawful once its end is entered.
#[tactic(auto, using(crate::proofs::Progress::reached_end))]
pub fn runs_to_its_end()
    ensures { (e goals : ℕ) (job : Job) (low : ℕ) (seen : Seen) (n : ℕ) (ending : Ending) (how : How Tree)
        → Reached e goals job low seen n
        → seen.execution.activity ≡ over ending
        → EndsSo ending how
        → RanToEnd e goals job low (seen.history ++ record { engine = e; kind = finish how n } ∷ []) seen.gens }
{}

/// An engine that found no place for an atom, whose record is true, is done once its end is entered.
#[tactic(auto, using(crate::proofs::Progress::reached_atoms))]
pub fn runs_out_of_atoms()
    ensures { (e goals slots : ℕ) (job : Job) (low : ℕ) (seen : Seen) (n : ℕ) (found : AtomRecord)
        → Reached e goals job low seen n
        → IsRunning seen.execution
        → IsTrue slots found
        → RanOutOfAtoms e goals slots job low (seen.history ++ record { engine = e; kind = finish (AtomSpace found) n } ∷ []) seen.gens }
{}

/// What waits is lawful as the history stands.
pub fn waits_at_the_end()
    ensures { (e goals : ℕ) (job : Job) (low : ℕ) (seen : Seen) (n : ℕ)
        → Reached e goals job low seen n
        → WaitsNow e goals job seen
        → WaitsAtEnd e goals job low seen.history seen.gens }
{}

/// At its beginning the first engine is alone.
#[tactic(auto, using(crate::proofs::LawfulAlone::alone_start))]
pub fn begins_alone()
    ensures { (goals : ℕ) (job : Job) → Alone goals job (record { execution = at_start job; history = []; gens = [] }) 0 }
{}

/// The first engine stays alone by a move of its own.
pub fn moves_alone()
    ensures { (goals : ℕ) (job : Job) (old new : Seen) (n : ℕ)
        → MovesTo job old new
        → Alone goals job old n
        → Alone goals job new (suc n) }
{}

/// The first engine stays alone by a request that starts no engine.
pub fn requests_alone()
    ensures { (goals : ℕ) (job : Job) (old new : Seen) (n : ℕ)
        → (g : AsksTo 1 goals job old new)
        → IsPlainUpdate g.update
        → Alone goals job old n
        → Alone goals job new (suc n) }
{}

/// The end that the history has of an engine that was alone: the one entered, and none where it has not ended.
pub fn ends_alone()
    ensures ended { (h : History) (how : How Tree) (n : ℕ)
        → AllPlain 1 h
        → end_in (h ++ record { engine = 1; kind = finish how n } ∷ []) 1 ≡ Some how }
    ensures waits { (h : History) → AllPlain 1 h → end_in h 1 ≡ None }
{}

/// What is told of an engine that was alone is complete once its end is entered, and as it stands where it waits.
pub fn completes_alone()
    ensures ended { (p : Program) (seen : Seen) (n : ℕ) (ending : Ending) (how : How Tree)
        → Alone (length p.words) (main_job p) seen n
        → seen.execution.activity ≡ over ending
        → EndsSo ending how
        → IsComplete p (told_at_end seen how n) }
    ensures atoms { (p : Program) (seen : Seen) (n : ℕ) (found : AtomRecord)
        → Alone (length p.words) (main_job p) seen n
        → IsRunning seen.execution
        → IsTrue p.slots found
        → IsComplete p (told_at_end seen (AtomSpace found) n) }
    ensures waits { (p : Program) (seen : Seen) (n : ℕ)
        → Alone (length p.words) (main_job p) seen n
        → WaitsNow 1 (length p.words) (main_job p) seen
        → IsComplete p (told_waiting seen) }
{}

/// Where an engine that was alone stands at the end of its run: it ended, waits, or found no place for an atom.
pub fn stands_alone()
    ensures ended { (p : Program) (seen : Seen) (n : ℕ) (ending : Ending) (how : How Tree)
        → Alone (length p.words) (main_job p) seen n
        → seen.execution.activity ≡ over ending
        → EndsSo ending how
        → AreFinal p (told_at_end seen how n) ((1, seen.execution) ∷ []) }
    ensures atoms { (p : Program) (seen : Seen) (n : ℕ) (found : AtomRecord)
        → Alone (length p.words) (main_job p) seen n
        → IsRunning seen.execution
        → IsTrue p.slots found
        → AreFinal p (told_at_end seen (AtomSpace found) n) ((1, seen.execution) ∷ []) }
    ensures waits { (p : Program) (seen : Seen) (n : ℕ)
        → Alone (length p.words) (main_job p) seen n
        → WaitsNow 1 (length p.words) (main_job p) seen
        → AreFinal p (told_waiting seen) ((1, seen.execution) ∷ []) }
{}
