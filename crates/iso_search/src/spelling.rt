//! The laws on how names are spelled. Each function does nothing: its contract is the law.
ghost use Rattle.std.specs.Prelude.{◌≡◌, ℕ, Option, Some, true};
ghost use Rattle.std.specs.Option.{option_map};
ghost use Rattle.std.specs.Str.{all_scalars};
ghost use Rattle.pl_term.specs.Tree.{Chars, Tree};
ghost use Rattle.pl_model.specs.Unify.{Bindings, bound, unify};
ghost use Rattle.atom_api.specs.Names.{Names};
ghost use Rattle.iso_search.specs.Spelling.{TellsApart, spelled, spelled_bindings, text_of};

/// Two terms unify as they do with their names spelled otherwise, as long as different names stay different.
pub fn spelling_is_no_matter()
    ensures unified { (g : Chars → Chars) → TellsApart g → (t u : Tree)
        → unify (spelled g t) (spelled g u) ≡ option_map (spelled_bindings g) (unify t u) }
    ensures bound { (g : Chars → Chars) (bs : Bindings) (t : Tree) → bound (spelled_bindings g bs) (spelled g t) ≡ spelled g (bound bs t) }
{}

/// The texts of atoms tell these apart from each other and from all other names.
pub fn texts_tell_atoms_apart()
    ensures { (m : Names) → ((a b : ℕ) (t : Chars) → m a ≡ Some t → m b ≡ Some t → a ≡ b)
        → ((a : ℕ) (t : Chars) → m a ≡ Some t → all_scalars t ≡ true) → TellsApart (text_of m) }
{}
