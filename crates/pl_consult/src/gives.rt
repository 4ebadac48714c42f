//! The goals of directives, of initialization/1 and of the command.
ghost use Rattle.std.specs.Prelude.{◌≡◌, ◌++◌, ℕ, zero, List, IsSome, IsTrue};
ghost use Rattle.std.specs.List.{All, Contains};
ghost use Rattle.pl_term.specs.Tree.{Chars, Tree};
ghost use Rattle.pl_term.specs.Variables.{rename};
ghost use Rattle.pl_consult.specs.declared.consult.Place.TheVariants.{Initialization};
ghost use Rattle.pl_consult.specs.declared.consult.Consult.{Consult as File};
ghost use Rattle.term_store.specs.NumberedNames.{names_of, term_by};
ghost use Rattle.world_api.specs.Texts.{text_of, Holds};
ghost use Rattle.world_api.specs.Told.{Told};
ghost use Rattle.world_api.specs.Gains.{Gains};
ghost use Rattle.world_api.specs.Asked.{texts_in};
ghost use Rattle.pl_consult.specs.declared.stage.Stage.TheVariants.{Directive, Goal, Items};
ghost use Rattle.pl_consult.specs.ItemTexts.{Narrows};
ghost use Rattle.pl_consult.specs.Steps.{IsAfter, IsQuiet, Moved, stage_for, step_names, step_refusals};

use crate::consult::Consult;
use crate::stage::{Stage, Step};
use crate::stops::stopped;
use atom_api::Atoms;
use pl_term::Flat;
use script_api::Next;
use std::alloc::Global;
use world_api::interned;

/// Gives the goal of the directive at this byte.
pub fn give_directive<A: Atoms>(
    alloc: Global,
    goal: Flat,
    place: usize,
    atoms: &mut A,
) -> (Stage, Step)
    ensures moved { (c : File) (t : Told) (out : List ℕ)
        → Moved (term_by (text_of (A.held atoms.new))) c (Directive goal place) t out result.1 c result.0 t out }
    ensures stage { IsAfter result.1 result.0 }
    ensures named { All (λ a. IsSome (A.held atoms.new a)) (step_names names_of result.1) }
    ensures holds { Holds (A.held atoms.old) (A.held atoms.new) }
    ensures refusals { A.refusals atoms.new ≡ A.refusals atoms.old ++ step_refusals result.1 }
    ensures asked { Gains (Contains (texts_in goal)) (A.asked atoms.old) (A.asked atoms.new) }
    ensures narrows { (words : List Chars) (c : File) → Narrows words c (Directive goal place) c result.0 }
{
    if is_numbered(alloc, &goal) {
        return give(alloc, goal, place, atoms);
    }
    (Stage::Directive { goal, place }, Step::Gives(Next::Memory))
}

/// Gives this goal, whose variables are numbered from 0.
fn give<A: Atoms>(alloc: Global, goal: Flat, place: usize, atoms: &mut A) -> (Stage, Step)
    requires { rename zero goal ≡ goal }
    ensures moved { (c : File) (t : Told) (out : List ℕ)
        → Moved (term_by (text_of (A.held atoms.new))) c (Directive goal place) t out result.1 c result.0 t out }
    ensures stage { IsAfter result.1 result.0 }
    ensures named { All (λ a. IsSome (A.held atoms.new a)) (step_names names_of result.1) }
    ensures holds { Holds (A.held atoms.old) (A.held atoms.new) }
    ensures refusals { A.refusals atoms.new ≡ A.refusals atoms.old ++ step_refusals result.1 }
    ensures asked { Gains (Contains (texts_in goal)) (A.asked atoms.old) (A.asked atoms.new) }
    ensures narrows { (words : List Chars) (c : File) → Narrows words c (Directive goal place) c result.0 }
{
    match interned(alloc, &goal, atoms) {
        Ok(kept) => (
            Stage::AtDirective { place },
            Step::Gives(Next::Item {
                goal: kept,
                directive: true,
            }),
        ),
        Err(stop) => (Stage::Directive { goal, place }, Step::Gives(stopped(stop))),
    }
}

/// Gives the goal of the command.
pub fn give_goal<A: Atoms>(alloc: Global, goal: Flat, atoms: &mut A) -> (Stage, Step)
    ensures moved { (c : File) (t : Told) (out : List ℕ)
        → Moved (term_by (text_of (A.held atoms.new))) c (Goal goal) t out result.1 c result.0 t out }
    ensures stage { IsAfter result.1 result.0 }
    ensures named { All (λ a. IsSome (A.held atoms.new a)) (step_names names_of result.1) }
    ensures holds { Holds (A.held atoms.old) (A.held atoms.new) }
    ensures refusals { A.refusals atoms.new ≡ A.refusals atoms.old ++ step_refusals result.1 }
    ensures asked { Gains (Contains (texts_in goal)) (A.asked atoms.old) (A.asked atoms.new) }
    ensures narrows { (words : List Chars) (c : File) → Narrows words c (Goal goal) c result.0 }
{
    if is_numbered(alloc, &goal) {
        return give_numbered_goal(alloc, goal, atoms);
    }
    (Stage::Goal { goal }, Step::Gives(Next::Memory))
}

/// Gives this goal of the command, whose variables are numbered from 0.
fn give_numbered_goal<A: Atoms>(alloc: Global, goal: Flat, atoms: &mut A) -> (Stage, Step)
    requires { rename zero goal ≡ goal }
    ensures moved { (c : File) (t : Told) (out : List ℕ)
        → Moved (term_by (text_of (A.held atoms.new))) c (Goal goal) t out result.1 c result.0 t out }
    ensures stage { IsAfter result.1 result.0 }
    ensures named { All (λ a. IsSome (A.held atoms.new a)) (step_names names_of result.1) }
    ensures holds { Holds (A.held atoms.old) (A.held atoms.new) }
    ensures refusals { A.refusals atoms.new ≡ A.refusals atoms.old ++ step_refusals result.1 }
    ensures asked { Gains (Contains (texts_in goal)) (A.asked atoms.old) (A.asked atoms.new) }
    ensures narrows { (words : List Chars) (c : File) → Narrows words c (Goal goal) c result.0 }
{
    match interned(alloc, &goal, atoms) {
        Ok(kept) => (
            Stage::AtGoal,
            Step::Gives(Next::Item {
                goal: kept,
                directive: false,
            }),
        ),
        Err(stop) => (Stage::Goal { goal }, Step::Gives(stopped(stop))),
    }
}

/// Whether it is found that the variables of the term are numbered from 0 in the order in which they first occur. Those of
/// each item are; where there is no memory to see it, it is not found.
pub(crate) fn is_numbered(alloc: Global, t: &Flat) -> bool
    ensures { IsTrue result → rename zero t.now ≡ t.now }
{
    let _count = t.variable_count();
    match t.rename(alloc, 0) {
        Ok((copy, _)) => copy.same(t),
        Err(_) => false,
    }
}

/// The next goal of initialization/1, after the end of the file.
pub fn next_initialization(alloc: Global, consult: &mut Consult) -> (Stage, Step)
    requires { consult.old.place ≡ Initialization }
    ensures moved { (term : Tree → Tree) (t : Told) (out : List ℕ) → Moved term consult.old Items t out result.1 consult.new result.0 t out }
    ensures stage { IsAfter result.1 result.0 }
    ensures file { consult.new.name ≡ consult.old.name }
    ensures quiet { IsQuiet result.1 }
    ensures narrows { (words : List Chars) → Narrows words consult.old Items consult.new result.0 }
{
    match consult.next_goal(alloc) {
        Ok(next) => (stage_for(next), Step::Goes),
        Err(_) => (Stage::Items, Step::Gives(Next::Memory)),
    }
}

/// How far the script has come with the next goal of initialization/1, or with none.
fn stage_for(next: Option<(usize, Flat)>) -> Stage
    ensures { result ≡ stage_for next }
{
    match next {
        None => Stage::Words,
        Some((place, goal)) => Stage::Directive { goal, place },
    }
}
