//! Laws of histories: what later entries leave as it was.
ghost use Rattle.std.specs.Prelude.{◌≡◌, ℕ, List, [], ◌++◌, length, Some, Contains, true};
ghost use Rattle.pl_term.specs.Tree.{Tree};
ghost use Rattle.pl_model.specs.declared.ends.How.{How};
ghost use Rattle.pl_model.specs.History.{History, mine, has_begun};
ghost use Rattle.run_model.specs.Execution.{Job};
ghost use Rattle.run_model.specs.Lawful.{RanToEnd, RanOutOfAtoms, Beginning, IsComplete, Program, beginnings_from, beginnings, engine_numbers};
ghost use Rattle.run_model.specs.Report.{AreFinal, end_in};
ghost use Rattle.run_model.specs.WholeRuns.{AreBegun, AreWhole, Carried, Once, finals_in, told_in};

/// What has ended stays so under later entries of others.
#[tactic(auto, using(crate::proofs::EndsStay::end_stays, crate::proofs::EndsStay::atoms_end_stays, crate::proofs::EndsStay::end_in_stays))]
pub fn ends_stay()
    ensures ran { (e goals : ℕ) (job : Job) (low : ℕ) (h later : History) (gens : List ℕ)
        → mine later e ≡ []
        → RanToEnd e goals job low h gens
        → RanToEnd e goals job low (h ++ later) gens }
    ensures atoms { (e goals slots : ℕ) (job : Job) (low : ℕ) (h later : History) (gens : List ℕ)
        → mine later e ≡ []
        → RanOutOfAtoms e goals slots job low h gens
        → RanOutOfAtoms e goals slots job low (h ++ later) gens }
    ensures end { (h later : History) (e : ℕ) (how : How Tree) → end_in h e ≡ Some how → end_in (h ++ later) e ≡ Some how }
{}

/// What has begun stays so, and what begins later comes after it.
#[tactic(auto, using(crate::proofs::BeginningsStay::beginnings_stay, crate::proofs::BeginningsStay::beginning_stays, crate::proofs::BeginningsStay::begun_stays))]
pub fn beginnings_stay()
    ensures whole { (h later : History) → beginnings (h ++ later) ≡ beginnings h ++ beginnings_from (length h) later }
    ensures each { (h later : History) (b : Beginning) → Contains (beginnings h) b → Contains (beginnings (h ++ later)) b }
    ensures begun { (h later : History) (e : ℕ) → has_begun h e ≡ true → has_begun (h ++ later) e ≡ true }
{}

/// A whole run is complete where each engine that has begun is one of these, which were carried to their ends or to where
/// nothing wakes them, no number began twice, and nobody else made an entry. These are its final states.
pub fn engines_make_it_whole()
    ensures complete { (p : Program) (h : History) (cs : List (Carried p h))
        → AreBegun h → Once (engine_numbers (beginnings h)) → AreWhole h cs
        → IsComplete p (told_in h cs) }
    ensures finals { (p : Program) (h : History) (cs : List (Carried p h))
        → AreBegun h → Once (engine_numbers (beginnings h)) → AreWhole h cs
        → AreFinal p (told_in h cs) (finals_in cs) }
{}
