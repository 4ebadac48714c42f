//! Laws of the shared state: what a generation sees, the numbers that are given, and the room for updates.
ghost use Rattle.std.specs.Prelude.{◌<◌, ◌&&◌, not, filter, slice_get, IfSome, ◌≡◌, ◌≤◌, ℕ, ◌^◌, Option, Some, false};
ghost use Rattle.pl_model.specs.declared.threads.On.{On};
ghost use Rattle.pl_model.specs.History.{Proc, History, Kind, is_end};
ghost use Rattle.pl_model.specs.Database.{seen, named_clauses, is_of, is_erased};
ghost use Rattle.pl_model.specs.SharedState.{SharedState, state_at, number_given};
ghost use Rattle.pl_model.specs.Requests.{Request, Reply, Fits};
ghost use Rattle.pl_model.specs.Service.{serve, answers, waits, update_of, on_of, IsAwaited};

/// The logical update view: what a generation sees of a procedure is the same in the state at each later one.
pub fn later_updates_change_no_view()
    ensures { (goals : ℕ) (h : History) (g m : ℕ) (p : Proc) → g ≤ m
        → named_clauses (seen g p (state_at goals h m).database) ≡ named_clauses (seen g p (state_at goals h g).database) }
{}

/// What a call sees at the generation of the state is what was not erased.
pub fn present_clauses_are_seen()
    ensures { (goals : ℕ) (h : History) (g : ℕ) (p : Proc)
        → seen g p (state_at goals h g).database ≡ filter (λ s. is_of p s && not (is_erased s)) (state_at goals h g).database.clauses }
{}

/// The number that the next thread or queue gets is above each number that was given before.
pub fn numbers_are_new()
    ensures { (goals : ℕ) (h : History) (g i : ℕ) → i < g
        → IfSome (slice_get h i) (λ x. IfSome (number_given x.kind) (λ n. n < (state_at goals h g).count)) }
{}

/// A visit makes an update only on a history of fewer than 2^47 updates, and none that ends an engine.
pub fn updates_have_room()
    ensures { (e : ℕ) (r : Request) (s : SharedState) (g : ℕ)
        → IfSome (update_of (serve e r s g)) (λ k. (g < 2 ^ 47) × (is_end k ≡ false)) }
{}

/// A request is answered by a reply that fits it.
#[tactic(auto, using(crate::proofs::RepliesFit::replies_fit))]
pub fn replies_fit()
    ensures { (e : ℕ) (q : Request) (s : SharedState) (g : ℕ) (r : Reply) (k : Option Kind)
        → serve e q s g ≡ answers r k
        → Fits q r }
{}

/// A request that waits names what it waits on: a queue that is there, or a thread that is there and has not ended.
#[tactic(auto, using(crate::proofs::WaitsOn::waits_on))]
pub fn waiting_requests_name_what_they_wait_on()
    ensures { (e : ℕ) (q : Request) (s : SharedState) (g : ℕ)
        → serve e q s g ≡ waits
        → (on : On) × (on_of e q ≡ Some on) × IsAwaited s.threads on }
{}
