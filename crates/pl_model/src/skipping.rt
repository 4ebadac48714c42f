//! Skipping, with texts and the places to which it goes.
ghost use Rattle.std.specs.Prelude.{◌≡◌, ◌∷◌, [], ℕ, List, Ok, codes, length};
ghost use Rattle.pl_model.specs.LexicalTokens.{token, token_at};
ghost use Rattle.pl_model.specs.Skipping.{skip};
ghost use Rattle.pl_model.specs.declared.lexical.Lexeme.TheVariants.{End};
ghost use Rattle.pl_model.specs.declared.lexical.TokenKind.{TokenKind};
ghost use Rattle.pl_model.specs.declared.lexical.TokenKind.TheVariants.{EndToken};

/// What stands at the front of some bytes, as skipping meets it.
#[derive(Debug, Clone, Copy, PartialEq, Eq, Drop)]
pub enum Passing {
    /// This number of bytes, which are passed.
    Through(usize),
    /// An end token of this number of bytes.
    Ends(usize),
    /// A quoted text or a comment that stays open.
    StaysOpen,
}

/// End tokens (ISO 6.4.8): the first one ends, wherever skipping begins; a full stop in a name, a quoted text or a
/// comment is none.
pub fn skips_to_end_tokens()
    ensures first { skip (codes "a. b. ") 0 ≡ 2 }
    ensures second { skip (codes "a. b. ") 2 ≡ 5 }
    ensures inside { skip (codes "a.. 'b. ' /* . */ %. ") 0 ≡ 21 }
    ensures code { skip (codes "X = 0'. .") 0 ≡ 9 }
    ensures nothing { skip (codes "a b") 0 ≡ 3 }
    ensures behind { skip (codes "a.") 7 ≡ 2 }
{}

/// Faults: a quoted text or a comment is passed whole, `0'` with one character, anything else by one character or one
/// byte.
pub fn skips_faults()
    ensures escape { skip (codes "'\\q. ' .") 0 ≡ 8 }
    ensures byte { skip (255 ∷ 46 ∷ 32 ∷ 97 ∷ []) 0 ≡ 2 }
    ensures comment { skip (37 ∷ 255 ∷ 46 ∷ 10 ∷ 46 ∷ []) 0 ≡ 5 }
    ensures block { skip (47 ∷ 42 ∷ 255 ∷ 46 ∷ 42 ∷ 47 ∷ 46 ∷ []) 0 ≡ 7 }
    ensures code { skip (codes "0'' . a") 0 ≡ 5 }
    ensures float { skip (codes "1.5. a") 0 ≡ 4 }
    ensures quote { skip (codes "'a. b") 0 ≡ 5 }
    ensures opening { skip (codes "/* a. b") 0 ≡ 7 }
{}

/// Skipping goes from token to token (ISO 6.4): it ends after the first end token, goes on after any other token, and
/// ends with the text.
#[tactic(auto, using(crate::proofs::SkippingPlaces::ends_at, crate::proofs::SkippingPlaces::passes_at, crate::proofs::SkippingPlaces::nothing_at))]
pub fn skips_tokens()
    ensures ends { (text : List ℕ) (at start stop : ℕ) → token_at text at ≡ token EndToken start stop → skip text at ≡ stop }
    ensures passes { (text : List ℕ) (at : ℕ) (kind : TokenKind) (start stop : ℕ)
        → (kind ≡ EndToken → ⊥) → token_at text at ≡ token kind start stop → skip text at ≡ skip text stop }
    ensures nothing { (text : List ℕ) (at : ℕ) → token_at text at ≡ Ok End → skip text at ≡ length text }
{}
