//! The run of a command with one engine, from its start to its end.
ghost use Rattle.std.specs.Prelude.{◌≡◌, ℕ, List, length};
ghost use Rattle.pl_term.specs.Tree.{Tree};
ghost use Rattle.pl_model.specs.declared.ends.How.{How};
ghost use Rattle.run_model.specs.Execution.{Execution, over};
ghost use Rattle.run_model.specs.Lawful.{EndsSo, IsComplete, Program, main_job};
ghost use Rattle.pl_model.specs.History.{AllPlain};
ghost use Rattle.run_model.specs.Progress.{Alone, WaitsNow, told_at_end, told_waiting};
ghost use Rattle.pl_model.specs.Resolution.{Ending};
ghost use Rattle.script_api.specs.Parts.{seen_in};
ghost use Rattle.script_api.specs.Comes.{ComesBy};
ghost use Rattle.world_api.specs.Told.{Told};

/// Where the first engine was alone and has come to its end, and nobody else has made an entry, what is told of it is
/// complete once its end is entered; and where it has come to a request that waits, as it stands.
pub fn completes()
    ensures ended { (p : Program) (t u : Told) (x y : Execution) (n k : ℕ) (ending : Ending) (how : How Tree)
        → t.engine ≡ 1
        → t.goals ≡ length p.words
        → Alone (length p.words) (main_job p) (seen_in t x) n
        → ComesBy (main_job p) x t n y u k
        → AllPlain 1 u.history
        → y.activity ≡ over ending
        → EndsSo ending how
        → IsComplete p (told_at_end (seen_in u y) how k) }
    ensures waits { (p : Program) (t u : Told) (x y : Execution) (n k : ℕ)
        → t.engine ≡ 1
        → t.goals ≡ length p.words
        → Alone (length p.words) (main_job p) (seen_in t x) n
        → ComesBy (main_job p) x t n y u k
        → AllPlain 1 u.history
        → WaitsNow u.engine u.goals (main_job p) (seen_in u y)
        → IsComplete p (told_waiting (seen_in u y)) }
{}
