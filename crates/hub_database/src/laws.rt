//! Laws of the database of the shared state.
ghost use Rattle.std.specs.Prelude.{◌++◌, ℕ, Some};
ghost use Rattle.pl_term.specs.Tree.{Tree};
ghost use Rattle.pl_model.specs.History.{History, Kind};
ghost use Rattle.pl_model.specs.Service.{entry_by};
ghost use Rattle.atom_words.specs.declared.view.View.{View};
ghost use Rattle.clause_db.specs.Parts.{Held};
ghost use Rattle.hub_database.specs.Database.{IsDatabase, IsElsewhere};

/// An update of queues or threads leaves what is stored the database after the history. It does nothing.
pub fn other_updates_leave_it()
    ensures { (k : View) (db : Held Tree) (goals e : ℕ) (h : History) (kind : Kind) → IsElsewhere kind → IsDatabase k db goals h → IsDatabase k db goals (h ++ entry_by e (Some kind)) }
{}
