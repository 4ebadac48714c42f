//! Laws of requests whose terms are kept.
ghost use Rattle.std.specs.Prelude.{◌≡◌, ℕ};
ghost use Rattle.std.specs.List.{Contains};
ghost use Rattle.pl_term.specs.Tree.{Chars};
ghost use Rattle.pl_model.specs.History.{History};
ghost use Rattle.pl_model.specs.Requests.{Reply, Request};
ghost use Rattle.pl_model.specs.Service.{on_of, served_now};
ghost use Rattle.world_api.specs.Asked.{handed_texts};
ghost use Rattle.shared_builtins.specs.Replies.{renumbered_reply, renumbered_served};
ghost use Rattle.shared_builtins.specs.Shared.{renumbered};

/// A request of which the variables are numbered from 0, as those of terms that are kept, is answered as it is, but that the
/// error of a refusal is numbered so too.
pub fn renumbered_laws()
    ensures served { (e goals : ℕ) (h : History) (q : Request) → served_now e goals h (renumbered q) ≡ renumbered_served (served_now e goals h q) }
    ensures awaited { (e : ℕ) (q : Request) → on_of e (renumbered q) ≡ on_of e q }
    ensures handed { (r : Reply) (c : Chars) → Contains (handed_texts (renumbered_reply r)) c → Contains (handed_texts r) c }
{}
