//! Laws of the steps of a search, by which a slice goes on step by step.
ghost use Rattle.std.specs.Prelude.{◌≡◌, ℕ, suc, ◌+◌, List, [], ◌∷◌, ◌++◌, length, Option};
ghost use Rattle.pl_model.specs.History.{Kind, History};
ghost use Rattle.pl_model.specs.Requests.{Request, Reply as SharedReply};
ghost use Rattle.pl_model.specs.Service.{answers, entry_by, served_now};
ghost use Rattle.pl_model.specs.Resolution.{Limits, State, goes, asks};
ghost use Rattle.pl_model.specs.Control.{step};
ghost use Rattle.world_api.specs.Told.{Told, Follows};
ghost use Rattle.world_api.specs.Answers.{seen_as};
ghost use Rattle.world_api.specs.SearchSteps.{SearchSteps};

/// A search is where it is.
#[tactic(auto, using(crate::proofs::SearchStepLaws::steps_stay))]
pub fn search_stays()
    ensures { (l : Limits) (s : State) (t : Told) → SearchSteps l s t 0 s t }
{}

/// A step of the search's own.
pub fn search_steps()
    ensures { (l : Limits) (s old new : State) (t u : Told) (n : ℕ)
        → SearchSteps l s t n old u
        → step l old ≡ goes new
        → SearchSteps l s t (suc n) new u }
{}

/// Others made entries.
pub fn search_sees_others()
    ensures { (l : Limits) (s r : State) (t u : Told) (n : ℕ) (before : History)
        → SearchSteps l s t n r u
        → Follows u.engine u.history before
        → SearchSteps l s t n r (seen_as u before u.gens) }
{}

/// A step that asks, and is answered after all entries.
pub fn search_asks()
    ensures { (l : Limits) (s r : State) (t u : Told) (n : ℕ) (before : History) (q : Request) (next : SharedReply → State) (reply : SharedReply) (update : Option Kind)
        → SearchSteps l s t n r u
        → Follows u.engine u.history before
        → step l r ≡ asks q next
        → served_now u.engine u.goals before q ≡ answers reply update
        → SearchSteps l s t (suc n) (next reply) (seen_as u (before ++ entry_by u.engine update) (u.gens ++ length before ∷ [])) }
{}

/// Some steps after others.
#[tactic(auto, using(crate::proofs::SearchStepLaws::steps_join))]
pub fn search_goes_on()
    ensures { (l : Limits) (s r v : State) (t u w : Told) (n k : ℕ)
        → SearchSteps l s t n r u
        → SearchSteps l r u k v w
        → SearchSteps l s t (k + n) v w }
{}
