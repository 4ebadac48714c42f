//! The script of an engine that was started with a goal.
ghost use Rattle.std.specs.Prelude.{◌≡◌, ◌+◌, ◌++◌, false, IsSome, None};
ghost use Rattle.std.specs.List.{All};
ghost use Rattle.world_api.specs.Texts.{text_of, Holds};
ghost use Rattle.world_api.specs.Told.{has_ended};
ghost use Rattle.script_api.specs.Scripts.{IsLater, next_refusals};
ghost use Rattle.script_api.specs.declared.once.Stage.TheVariants.{Fresh};
ghost use Rattle.script_api.specs.OnceGiven.{TakenUp, moves_by};

use crate::living::{Living, name_term};
use crate::script::{Next, Script};
use named_terms::NamedTerm;
use pl_model::ends::How;
use pl_term::{Memory, Text};
use std::mem;
use term_store::{AtomSet, Stored};
use world_api::{Answer, Named, Visit, World};

/// How far a script of one goal has come.
#[derive(Drop)]
pub enum Stage<T> {
    /// The goal is to be taken up.
    Fresh(T),
    /// It is searched for.
    AtHand,
    /// Its search has ended.
    Over,
}

/// The script of an engine that was started with a goal: the goal, once.
#[derive(Drop)]
pub struct Once<T> {
    stage: Stage<T>,
}

impl<T: Named + Drop> Once<T> {
    /// The script of an engine that was started with this goal, whose variables are numbered from 0.
    pub fn new(goal: T) -> Once<T>
        ensures { result.stage ≡ Fresh goal }
    {
        Once {
            stage: Stage::Fresh(goal),
        }
    }
}

impl<T: Named + Drop> Script for Once<T> {
    ghost use Rattle.std.specs.Prelude.{[], None};
    ghost use Rattle.pl_model.specs.Requests.{look};
    ghost use Rattle.script_api.specs.Onces.{execution_of, part_of, plays_of, names_of, over_of, same_under, same_lines, all_reported, all_running};

    type Term = T;

    ghost execution = { λ text s job cs. execution_of T.term text s.stage job cs };

    ghost part = { λ s. part_of s.stage };

    ghost plays = { λ text s x. plays_of T.term text s.stage x };

    ghost over = { λ s. over_of s.stage };

    ghost kept = { λ _. false };

    ghost name = { λ _. [] };

    ghost names = { λ s. names_of T.names s.stage };

    ghost texts = { λ _ _. ⊥ };

    ghost asks = { λ _ q. q ≡ look };

    ghost variables = { λ _. [] };

    ghost word = { λ _. None };

    ghost names_tell = { λ s text other same. same_under T.term T.names T.names_tell s.stage text other same };

    ghost lines = { λ text s job cs. same_lines T.term text s.stage job cs };

    ghost running = { λ text s job cs. all_running T.term text s.stage job cs };

    ghost reported = { λ text s job cs. all_reported T.term text s.stage job cs };

    fn variable_names(&self) -> &[(Text, u64)] {
        &[]
    }

    fn next<W: World<Term = T>>(
        &mut self,
        _ended: Option<&How<NamedTerm>>,
        world: &mut W,
        atoms: &mut W::A,
        _text: &mut Vec<u8>,
        moves: &mut u64,
    ) -> Next<T> {
        match mem::replace(&mut self.stage, Stage::Over) {
            Stage::Fresh(goal) => {
                let (stage, next) = take_up(goal, world, atoms, moves);
                self.stage = stage;
                next
            }
            Stage::AtHand => {
                let Some(count) = moves.checked_add(1) else {
                    self.stage = Stage::AtHand;
                    return Next::Memory;
                };
                *moves = count;
                Next::Done { halted: None }
            }
            Stage::Over => unreachable!(),
        }
    }
}

impl Living for Once<Stored> {
    fn live_in(&self, live: &mut AtomSet) -> Result<(), Memory> {
        match &self.stage {
            Stage::Fresh(goal) => name_term(goal, live),
            Stage::AtHand => Ok(()),
            Stage::Over => Ok(()),
        }
    }
}

/// The goal is taken up by a look at the shared state, which is one move: how far the script has come then, and what it
/// has next.
fn take_up<T: Named + Drop, W: World<Term = T>>(
    goal: T,
    world: &mut W,
    atoms: &mut W::A,
    moves: &mut u64,
) -> (Stage<T>, Next<T>)
    requires runs { has_ended (W.told world.old).engine (W.told world.old).history ≡ false }
    requires held { All (λ a. IsSome (W.A.held atoms.old a)) (T.names goal) }
    ensures counted { moves.new ≡ moves_by result.1 + moves.old }
    ensures taken { TakenUp goal (W.told world.old) result.1 result.0 (W.told world.new) }
    ensures runs { has_ended (W.told world.new).engine (W.told world.new).history ≡ false }
    ensures holds { Holds (W.A.held atoms.old) (W.A.held atoms.new) }
    ensures refusals { W.A.refusals atoms.new ≡ W.A.refusals atoms.old ++ next_refusals result.1 }
    ensures told { IsLater (W.told world.old) (W.told world.new) }
    ensures asked { W.A.asked atoms.new ≡ W.A.asked atoms.old }
{
    let Some(taken) = moves.checked_add(1) else {
        return (Stage::Fresh(goal), Next::Memory);
    };
    match world.visit(Visit::Look, atoms) {
        Answer::Served { .. } => {
            *moves = taken;
            (
                Stage::AtHand,
                Next::Item {
                    goal,
                    directive: false,
                },
            )
        }
        Answer::Waits { .. } => unreachable!(),
        Answer::NeedsAtoms(pass) => (Stage::Fresh(goal), Next::NeedsAtoms(pass)),
        Answer::Retry(cause) => (Stage::Fresh(goal), Next::Retry(cause)),
        Answer::Worn(word) => (Stage::Fresh(goal), Next::Worn(word)),
        Answer::Memory => (Stage::Fresh(goal), Next::Memory),
    }
}
