//! Terms that name atoms.
use pl_model::kept::Kept;
use pl_term::Flat;
use term_store::Stored;

/// A term that is kept and names atoms by their numbers.
pub trait Named: Kept {
    ghost use Rattle.std.specs.Prelude.{◌≡◌, ℕ, List};
    ghost use Rattle.std.specs.List.{All, Contains};
    ghost use Rattle.pl_term.specs.Tree.{Chars};

    /// The atoms that it names.
    ghost names: { Self → List ℕ };

    /// The atoms that the key of a first argument names.
    ghost key_names: { Self.Key → List ℕ };

    // It stands for the same term under texts that agree on the atoms that it names.
    ghost names_tell: { (t : Self) (text other : ℕ → Chars) → All (λ a. text a ≡ other a) (names t)
        → Self.term text t ≡ Self.term other t };

    // The key of a term names none but atoms of the term.
    ghost keys_named: { (t : Self) (a : ℕ) → Contains (key_names (Self.key_of t)) a → Contains (names t) a };
}

/// A flat term has its own texts and names no atoms.
impl Named for Flat {
    ghost use Rattle.std.specs.Prelude.{[], refl};

    ghost names = { λ _. [] };

    ghost key_names = { λ _. [] };

    ghost names_tell = { λ t text other same. refl };

    ghost keys_named = { λ t a named. named };
}

/// A stored term names its atoms, and the neck, on which it depends whether it is a rule.
impl Named for Stored {
    ghost use Rattle.term_store.specs.ArgumentKeys.{key_atoms};
    ghost use Rattle.term_store.specs.NameLaws.{keys_are_named, names_are_told};
    ghost use Rattle.term_store.specs.NumberedNames.{names_of};

    ghost names = { names_of };

    ghost key_names = { key_atoms };

    ghost names_tell = { names_are_told };

    ghost keys_named = { keys_are_named };
}
