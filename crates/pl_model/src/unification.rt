//! The laws of unification (ISO 7.3.2). Each function does nothing: its contract is the law.
ghost use Rattle.std.specs.Prelude.{◌≡◌, ◌≢◌, ℕ, ◌+◌, ◌<◌, List, [], ◌∷◌, ◌++◌, length, codes, true, false, All, pos};
ghost use Rattle.std.specs.Option.{option_map};
ghost use Rattle.pl_term.specs.Tree.{Tree, Trees, var, int, atom, comp, none, more};
ghost use Rattle.pl_term.specs.Variables.{is_in, has, occurrences, occurrences_all};
ghost use Rattle.pl_model.specs.Unify.{Bindings, bound, bound_variables, solve, solve_all, unify, instance};

/// Any number of turns above the number of occurrences of variables gives the same answer, so that the bound is no
/// part of what unification means.
pub fn turns_are_enough()
    ensures { (n : ℕ) (bs : Bindings) (ts us : Trees)
        → length (occurrences_all ts) + length (occurrences_all us) < n
        → solve n bs ts us ≡ solve_all bs ts us }
{}

/// Bindings that unify two terms make them equal.
pub fn unified_terms_are_equal()
    ensures { (a b : Tree) (bs : Bindings) → unify a b ≡ Some bs → bound bs a ≡ bound bs b }
{}

/// Where some substitution makes two terms equal they are unified, and by a most general unifier: the
/// substitution makes of each term what it makes of the term with the bindings put in (ISO 7.3.1).
pub fn unifier_is_most_general()
    ensures unifies { (a b : Tree) (s : ℕ → Tree) → instance s a ≡ instance s b
        → (bs : Bindings) × (unify a b ≡ Some bs) × ((t : Tree) → instance s (bound bs t) ≡ instance s t) }
    ensures fails { (a b : Tree) → unify a b ≡ None
        → (s : ℕ → Tree) → instance s a ≢ instance s b }
{}

/// Only variables of the two terms are bound, and a bound variable is gone from each term that the bindings are put
/// into, which gets no variables but those of the two terms.
pub fn bound_variables_are_gone()
    ensures own { (a b : Tree) (bs : Bindings) → unify a b ≡ Some bs
        → (x : ℕ) → is_in x (bound_variables bs) ≡ true → is_in x (occurrences a ++ occurrences b) ≡ true }
    ensures gone { (a b : Tree) (bs : Bindings) → unify a b ≡ Some bs
        → (x : ℕ) → is_in x (bound_variables bs) ≡ true → (t : Tree) → has x (bound bs t) ≡ false }
    ensures within { (a b : Tree) (bs : Bindings) → unify a b ≡ Some bs
        → (x : ℕ) (t : Tree) → has x (bound bs t) ≡ true
        → is_in x (occurrences t ++ (occurrences a ++ occurrences b)) ≡ true }
{}

/// A variable that is bound to another has the greater number of the two.
pub fn greater_variable_is_bound()
    ensures { (a b : Tree) (bs : Bindings) → unify a b ≡ Some bs
        → All (λ p. (y : ℕ) → p.1 ≡ var y → y < p.0) bs }
{}

/// Unification goes on from bindings that were made before, which then stand before the new ones; a term under both
/// is the term under the earlier ones put into the later ones.
pub fn bindings_go_on()
    ensures solved { (bs : Bindings) (ts us : Trees)
        → solve_all bs ts us ≡ option_map (λ more. bs ++ more) (solve_all [] ts us) }
    ensures bound { (bs cs : Bindings) (t : Tree) → bound (bs ++ cs) t ≡ bound cs (bound bs t) }
{}

/// `X = f(X)` fails, since `X` occurs in the other term.
#[tactic(auto, unfolding(crate::specs::Unify::unify, crate::specs::Unify::solve_all))]
pub fn no_term_holds_itself()
    ensures { unify (var 0) (comp (codes "f") (var 0) none) ≡ None }
{}

/// `f(X, b) = f(a, Y)` binds `X` to `a` and `Y` to `b`.
#[tactic(auto, unfolding(crate::specs::Unify::unify, crate::specs::Unify::solve_all))]
pub fn both_sides_are_bound()
    ensures { unify (comp (codes "f") (var 0) (more (atom (codes "b")) none))
        (comp (codes "f") (atom (codes "a")) (more (var 1) none))
        ≡ Some ((0, atom (codes "a")) ∷ (1, atom (codes "b")) ∷ []) }
{}

/// `X = Y` binds the later variable, on whichever side it stands.
#[tactic(auto, unfolding(crate::specs::Unify::unify, crate::specs::Unify::solve_all))]
pub fn later_variable_is_bound()
    ensures left { unify (var 1) (var 0) ≡ Some ((1, var 0) ∷ []) }
    ensures right { unify (var 0) (var 1) ≡ Some ((1, var 0) ∷ []) }
{}

/// `f(X, X) = f(Y, g(Y))` fails: once `Y` is bound to `X`, `X` would be bound to `g(X)`.
#[tactic(auto, unfolding(crate::specs::Unify::unify, crate::specs::Unify::solve_all))]
pub fn replaced_variables_are_checked()
    ensures { unify (comp (codes "f") (var 0) (more (var 0) none))
        (comp (codes "f") (var 1) (more (comp (codes "g") (var 1) none) none)) ≡ None }
{}

/// Terms that differ in their name, their number of arguments or a constant do not unify.
#[tactic(auto, unfolding(crate::specs::Unify::unify, crate::specs::Unify::solve_all))]
pub fn constants_clash()
    ensures names { unify (comp (codes "f") (var 0) none) (comp (codes "g") (var 1) none) ≡ None }
    ensures arities { unify (comp (codes "f") (var 0) none)
        (comp (codes "f") (var 1) (more (var 2) none)) ≡ None }
    ensures kinds { unify (int (pos 1)) (atom (codes "1")) ≡ None }
{}
