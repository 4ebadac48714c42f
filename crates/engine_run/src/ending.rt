//! How the search of an engine has ended.
ghost use Rattle.std.specs.Prelude.{◌≡◌, IfOk, List, None};
ghost use Rattle.run_model.specs.Lawful.{EndsSo};
ghost use Rattle.pl_model.specs.Resolution.{Ending, Output};
ghost use Rattle.script_api.specs.Scripts.{LeavesOff};
ghost use Rattle.world_api.specs.Told.{Told};
ghost use Rattle.iso_engine.specs.Ready.{IsReady};
ghost use Rattle.iso_engine.specs.Slices.{IsEnd};
ghost use Rattle.engine_run.specs.Endings.{HasEndedAs, IsEndOfSearch};

use atom_api::Atoms;
use iso_engine::doing::{Doing, End};
use iso_engine::engine::Engine;
use named_terms::NamedTerm;
use pl_model::ends::How;
use pl_term::Memory;
use std::alloc::Global;
use world_builtins::named_at;

/// How the search of an engine has ended: a ball, or what a thread left with, as a term with its own texts, its variables with
/// the numbers that they had (ISO 7.8.10). The only error is out of memory.
pub fn how_at<A: Atoms>(
    alloc: Global,
    engine: &Engine,
    atoms: &mut A,
) -> Result<How<NamedTerm>, Memory>
    requires ended { IsEnd engine.now.doing }
    requires ready { (t : Told) × IsReady (A.held atoms.old) t engine.now }
    ensures how { IfOk result (HasEndedAs (A.held atoms.old) engine.now) }
    ensures told { IfOk result IsEndOfSearch }
    ensures same { A.held atoms.new ≡ A.held atoms.old }
    ensures refusals { A.refusals atoms.new ≡ A.refusals atoms.old }
{
    let Doing::Ended(end) = &engine.doing else {
        unreachable!();
    };
    match end {
        End::Solved => Ok(How::Solved),
        End::NoMore => Ok(How::False),
        End::Threw(ball) => {
            let (store, place) = ball.lend();
            let term = named_at(alloc, store, place, atoms)?;
            Ok(How::Threw(term))
        }
        End::Halted(status) => Ok(How::Halted(*status)),
        End::Exited(status) => {
            let (store, place) = status.lend();
            let term = named_at(alloc, store, place, atoms)?;
            Ok(How::Exited(term))
        }
    }
}

/// How an engine ended that has run no goal: by the status with which a directive has halted, if one has, else solved.
pub fn ends_over(halted: Option<u8>) -> How<NamedTerm>
    ensures ends { (ending : Ending) (os : List Output) → LeavesOff halted None None ending os → EndsSo ending result }
    ensures told { IsEndOfSearch result }
{
    match halted {
        Some(status) => How::Halted(status),
        None => How::Solved,
    }
}
