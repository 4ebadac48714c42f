//! The further goals of the command, each of which begins as an engine of its own.
ghost use Rattle.std.specs.Prelude.{◌≡◌, ◌<◌, ◌++◌, false, length, suc, zero, IfOk, IsSome};
ghost use Rattle.std.specs.List.{All};
ghost use Rattle.pl_term.specs.Variables.{rename};
ghost use Rattle.pl_model.specs.Balls.{error_ball};
ghost use Rattle.pl_model.specs.Control.{consult_proc};
ghost use Rattle.pl_model.specs.Requests.{start_goal};
ghost use Rattle.term_store.specs.NumberedNames.{names_of, term_by};
ghost use Rattle.world_api.specs.Texts.{text_of, Holds};
ghost use Rattle.world_api.specs.Told.{has_ended};
ghost use Rattle.world_api.specs.Gains.{Gains};
ghost use Rattle.world_api.specs.Unserved.{refusals_in};
ghost use Rattle.script_api.specs.Scripts.{IsLater, IsReplied};
ghost use Rattle.pl_consult.specs.declared.stage.Stage.TheVariants.{Starts};
ghost use Rattle.pl_consult.specs.declared.stage.Step.TheVariants.{Goes};
ghost use Rattle.pl_consult.specs.ItemTexts.{MayStart};
ghost use Rattle.pl_consult.specs.Steps.{IsBegun, StartedSo, StartsSo, added_names, start_refusals};

use crate::adds::refused_by;
use crate::gives::is_numbered;
use crate::stage::{Stage, Step};
use crate::stops::{next_by, stopped};
use crate::words::consulting_ball;
use atom_api::Atoms;
use op_table::OpTable;
use pl_term::{Flat, Memory};
use script_api::Next;
use std::alloc::Global;
use std::sync::Arc;
use term_store::Stored;
use world_api::{Answer, Unserved, Visit, World, interned, with_texts};

/// Starts the goal with this number as an engine of its own: the ball for which it cannot be started, if it cannot. The error
/// is what the script answers where the call was not served.
pub(crate) fn start_goal<W: World<Term = Stored>>(
    alloc: Global,
    number: u64,
    goal: &Flat,
    world: &mut W,
    atoms: &mut W::A,
) -> Result<Option<Flat>, Next<Stored>>
    requires runs { has_ended (W.told world.old).engine (W.told world.old).history ≡ false }
    ensures starts { StartedSo number goal.now result (W.told world.old) (W.told world.new) }
    ensures runs { has_ended (W.told world.new).engine (W.told world.new).history ≡ false }
    ensures holds { Holds (W.A.held atoms.old) (W.A.held atoms.new) }
    ensures refusals { W.A.refusals atoms.new ≡ W.A.refusals atoms.old ++ start_refusals result }
    ensures told { IsLater (W.told world.old) (W.told world.new) }
    ensures asked { Gains (MayStart number goal.now (W.told world.old)) (W.A.asked atoms.old) (W.A.asked atoms.new) }
{
    if is_numbered(alloc, goal) {
        return start_numbered(alloc, number, goal, world, atoms);
    }
    Err(Next::Memory)
}

/// Starts this goal, whose variables are numbered from 0.
fn start_numbered<W: World<Term = Stored>>(
    alloc: Global,
    number: u64,
    goal: &Flat,
    world: &mut W,
    atoms: &mut W::A,
) -> Result<Option<Flat>, Next<Stored>>
    requires runs { has_ended (W.told world.old).engine (W.told world.old).history ≡ false }
    requires numbered { rename zero goal.now ≡ goal.now }
    ensures starts { StartedSo number goal.now result (W.told world.old) (W.told world.new) }
    ensures runs { has_ended (W.told world.new).engine (W.told world.new).history ≡ false }
    ensures holds { Holds (W.A.held atoms.old) (W.A.held atoms.new) }
    ensures refusals { W.A.refusals atoms.new ≡ W.A.refusals atoms.old ++ start_refusals result }
    ensures told { IsLater (W.told world.old) (W.told world.new) }
    ensures asked { Gains (MayStart number goal.now (W.told world.old)) (W.A.asked atoms.old) (W.A.asked atoms.new) }
{
    match interned(alloc, goal, atoms) {
        Ok(kept) => match start(number, kept, world, atoms) {
            Ok(None) => Ok(None),
            Ok(Some(error)) => match ball_of(alloc, &error, atoms) {
                Ok(ball) => Ok(Some(ball)),
                Err(_) => Err(Next::Memory),
            },
            Err(unserved) => Err(next_by(unserved)),
        },
        Err(stop) => Err(stopped(stop)),
    }
}

/// Starts the goal that is kept so: the error term with which it is refused, if it is; or why the call was not served.
fn start<W: World<Term = Stored>>(
    number: u64,
    kept: Stored,
    world: &mut W,
    atoms: &mut W::A,
) -> Result<Option<Stored>, Unserved>
    requires runs { has_ended (W.told world.old).engine (W.told world.old).history ≡ false }
    requires held { All (λ a. IsSome (W.A.held atoms.old a)) (names_of kept) }
    ensures starts { StartsSo number (term_by (text_of (W.A.held atoms.old)) kept) (term_by (text_of (W.A.held atoms.new))) result (W.told world.old) (W.told world.new) }
    ensures runs { has_ended (W.told world.new).engine (W.told world.new).history ≡ false }
    ensures named { All (λ a. IsSome (W.A.held atoms.new a)) (added_names names_of result) }
    ensures holds { Holds (W.A.held atoms.old) (W.A.held atoms.new) }
    ensures refusals { W.A.refusals atoms.new ≡ W.A.refusals atoms.old ++ refusals_in result }
    ensures told { IsLater (W.told world.old) (W.told world.new) }
    ensures asked { Gains (IsReplied (λ q. q ≡ start_goal number (term_by (text_of (W.A.held atoms.old)) kept)) (W.told world.old)) (W.A.asked atoms.old) (W.A.asked atoms.new) }
{
    match world.visit(Visit::StartGoal { number, goal: kept }, atoms) {
        Answer::Served { reply, .. } => Ok(refused_by(reply)),
        Answer::Waits { .. } => unreachable!(),
        Answer::NeedsAtoms(pass) => Err(Unserved::NeedsAtoms(pass)),
        Answer::Retry(cause) => Err(Unserved::Retry(cause)),
        Answer::Worn(word) => Err(Unserved::Worn(word)),
        Answer::Memory => Err(Unserved::Memory),
    }
}

/// The ball of the error with which a goal is refused. The only error is out of memory.
fn ball_of<A: Atoms>(alloc: Global, error: &Stored, atoms: &mut A) -> Result<Flat, Memory>
    requires { All (λ a. IsSome (A.held atoms.old a)) (names_of error.now) }
    ensures ball { IfOk result (λ b. b ≡ error_ball (term_by (text_of (A.held atoms.old)) error.now) consult_proc) }
    ensures same { A.held atoms.new ≡ A.held atoms.old }
    ensures refusals { A.refusals atoms.new ≡ A.refusals atoms.old }
    ensures asked { A.asked atoms.new ≡ A.asked atoms.old }
{
    let error = with_texts(alloc, error, atoms)?;
    consulting_ball(alloc, error)
}

/// After all starts the first goal of the command is to be given, or the script is over.
pub(crate) fn begun(first: Option<Flat>) -> (Stage, Step)
    ensures { IsBegun first result.0 result.1 }
{
    match first {
        None => (Stage::Over, Step::Gives(Next::Done { halted: None })),
        Some(goal) => (Stage::Goal { goal }, Step::Goes),
    }
}

/// The goal at the place `at` of these was started: the next one is to be.
pub(crate) fn started(
    operators: Arc<OpTable>,
    first: Option<Flat>,
    goals: Vec<(u64, Flat)>,
    at: usize,
) -> (Stage, Step)
    requires { at < length goals.items }
    ensures stage { result.0 ≡ Starts operators first goals (suc at) }
    ensures goes { result.1 ≡ Goes }
{
    (
        Stage::Starts {
            operators,
            first,
            goals,
            at: at + 1,
        },
        Step::Goes,
    )
}
