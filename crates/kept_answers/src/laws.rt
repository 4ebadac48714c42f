//! What is kept stays so.
ghost use Rattle.std.specs.Prelude.{ℕ, List, ◌++◌, Option};
ghost use Rattle.pl_term.specs.Tree.{Tree};
ghost use Rattle.pl_model.specs.History.{History};
ghost use Rattle.atom_api.specs.Names.{Names};
ghost use Rattle.world_api.specs.Texts.{Holds};
ghost use Rattle.term_store.specs.declared.argument_key.ArgumentKey.{ArgumentKey};
ghost use Rattle.world_api.specs.declared.asking.Asked.{Asked};
ghost use Rattle.world_api.specs.declared.reply.Found.{Found};
ghost use Rattle.kept_answers.specs.Answered.{Again, AreSound, IsKept, IsNaming};
ghost use Rattle.kept_answers.specs.declared.answers.Space.{Space};

/// Answers that are kept stay so as the history grows, since those of a shorter history are given no longer, and as the
/// engine holds more atoms.
pub fn answers_stay()
    ensures history { (goals : ℕ) (h later : History) (n : Names) (ss : List Space) → AreSound goals h n ss → AreSound goals (h ++ later) n ss }
    ensures names { (goals : ℕ) (h : History) (n m : Names) (ss : List Space) → Holds n m → AreSound goals h n ss → AreSound goals h m ss }
{}

/// What is kept answers the same request again, by the texts that are held.
pub fn answers_again()
    ensures { (goals : ℕ) (h : History) (a : Asked ArgumentKey) (f : Option (Found Tree)) (n : Names) → IsNaming n → IsKept goals h a f n → Again goals h a f n }
{}
