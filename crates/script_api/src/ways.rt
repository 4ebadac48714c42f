//! Laws of the ways of an execution, by which a script comes from the end of one item to the next.
ghost use Rattle.std.specs.Prelude.{◌≡◌, ℕ, ◌+◌, [], ◌∷◌, ◌++◌, length, Option};
ghost use Rattle.pl_model.specs.History.{Kind, History};
ghost use Rattle.pl_model.specs.Requests.{Request, Reply as SharedReply};
ghost use Rattle.pl_model.specs.Service.{answers, entry_by, served_now};
ghost use Rattle.run_model.specs.Execution.{Job, Execution, move, moves, requests};
ghost use Rattle.world_api.specs.Told.{Told, Follows};
ghost use Rattle.pl_model.specs.Resolution.{Limits, State};
ghost use Rattle.world_api.specs.Answers.{seen_as};
ghost use Rattle.world_api.specs.SearchSteps.{SearchSteps};
ghost use Rattle.script_api.specs.Parts.{Part, limits_of, with_search};
ghost use Rattle.script_api.specs.Comes.{ComesIn};

/// An execution is where it is.
#[tactic(auto, using(crate::proofs::ComesLaws::comes_same))]
pub fn execution_stays()
    ensures { (job : Job) (x y : Execution) (t : Told) → x ≡ y → ComesIn job 0 x t y t }
{}

/// A move of the execution's own.
pub fn execution_moves()
    ensures { (job : Job) (x y : Execution) (t : Told) → move job x ≡ moves y → ComesIn job 1 x t y t }
{}

/// A request that is answered after all entries.
pub fn execution_asks()
    ensures { (job : Job) (x : Execution) (q : Request) (next : SharedReply → Execution) (t u : Told) (before : History) (reply : SharedReply) (update : Option Kind)
        → move job x ≡ requests q next
        → Follows t.engine t.history before
        → served_now t.engine t.goals before q ≡ answers reply update
        → u ≡ seen_as t (before ++ entry_by t.engine update) (t.gens ++ length before ∷ [])
        → ComesIn job 1 x t (next reply) u }
{}

/// One way after another.
pub fn execution_goes_on()
    ensures { (job : Job) (x y z : Execution) (t u v : Told) (n k : ℕ)
        → ComesIn job n x t y u
        → ComesIn job k y u z v
        → ComesIn job (k + n) x t z v }
{}

/// The steps of a search are a way of each execution that they are a part of.
pub fn search_is_a_way()
    ensures { (l : Limits) (s r : State) (t u : Told) (n : ℕ) (job : Job) (x : Execution) (part : Part)
        → limits_of job part ≡ l
        → SearchSteps l s t n r u
        → ComesIn job n (with_search x part s) t (with_search x part r) u }
{}
