//! Laws: the shared state answers the requests on threads and queues by the causes and the changes of the calls.
ghost use Rattle.std.specs.Prelude.{◌≡◌, ℕ};
ghost use Rattle.pl_term.specs.Tree.{Chars, Tree};
ghost use Rattle.pl_model.specs.Threads.{Queue, Threads, first_message};
ghost use Rattle.pl_model.specs.SharedState.{SharedState};
ghost use Rattle.pl_model.specs.Service.{matches};
ghost use Rattle.hub_threads.specs.Serving.{threads_as, Serves, Changes};

use pl_model::kept::Kept;

/// Where the threads of the shared state are those that are held, with each message as the term for which it stands, the
/// shared state refuses by the causes of the calls, finds what they find, and is changed as they change.
pub fn requests_are_served<M: Drop>()
    ensures { (term : M → Tree) (t : Threads M) (s : SharedState) → s.threads ≡ threads_as term t → Serves term t s }
{}

/// A change of what is held is the same change where each message is the term for which it stands.
pub fn changes_are_kept<M: Drop>()
    ensures { (term : M → Tree) (t : Threads M) → Changes term t }
{}

/// The first message that unifies is the same for messages and for the terms for which they stand.
pub fn messages_unify_as_terms<M: Kept>()
    ensures { (text : ℕ → Chars) → ((x y : ℕ) → text x ≡ text y → x ≡ y) → (pattern : M) (q : Queue M)
        → first_message (M.unified pattern) q ≡ first_message (λ m. matches (M.term text pattern) (M.term text m)) q }
{}
