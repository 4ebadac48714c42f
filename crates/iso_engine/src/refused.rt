//! Errors that the shared state raises.
ghost use Rattle.std.specs.Prelude.{IfOk, OnOk};
ghost use Rattle.iso_engine.specs.Parts.{IsOverAtoms};
ghost use Rattle.iso_engine.specs.Calling.{IsErrorBall};

use atom_api::fixed;
use iso_search::balls::Ball;
use pl_term::Memory;
use std::alloc::Global;
use term_store::{Place, Store, Stored};
use world_api::Procedure;

/// The ball of an error term in a predicate (ISO 7.12). The only error is out of memory.
pub fn error_of(alloc: Global, error: &Stored, procedure: Procedure) -> Result<Ball, Memory>
    ensures ball { IfOk result (IsErrorBall error.now procedure) }
    ensures over { OnOk result (IsOverAtoms error.now) }
{
    let Ok(arity) = i64::try_from(procedure.arity) else {
        return Err(Memory);
    };
    let _numbered = error.nodes();
    let _count = error.variables();
    let mut store = Store::new(alloc, 0)?;
    let culprit = store.build(error, 0)?;
    let parts = [Place::atom(procedure.name), Place::integer(arity)];
    let indicator = store.make_compound(fixed::SLASH, &parts)?;
    let arguments = [culprit, indicator];
    let ball = store.make_compound(fixed::ERROR, &arguments)?;
    let thrown = Ball::at(alloc, &store, ball)?;
    Ok(thrown)
}
