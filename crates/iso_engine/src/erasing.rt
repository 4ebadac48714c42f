//! Clauses that retract/1 erases (ISO 8.9.3).
ghost use Rattle.std.specs.Prelude.{◌≡◌, ◌++◌, [], false, IfOk, OnErr, OnOk, IsSome};
ghost use Rattle.std.specs.List.{All};
ghost use Rattle.term_store.specs.ArgumentKeys.{clause_key};
ghost use Rattle.term_store.specs.NumberedNames.{names_of, term_by};
ghost use Rattle.world_api.specs.declared.visit.Visit.TheVariants.{Erase};
ghost use Rattle.world_api.specs.Asked.{IsInAnswer};
ghost use Rattle.world_api.specs.Gains.{Gains};
ghost use Rattle.world_api.specs.Replies.{reply_names};
ghost use Rattle.world_api.specs.Texts.{Holds, text_of};
ghost use Rattle.world_api.specs.Told.{has_ended};
ghost use Rattle.iso_engine.specs.declared.doing.Doing.TheVariants.{Erasing};
ghost use Rattle.iso_engine.specs.Asked.{AsksFor};
ghost use Rattle.iso_engine.specs.Erasing.{IsErased, IsErasedReply, IsErasedTo};
ghost use Rattle.iso_engine.specs.Ready.{IsReady};
ghost use Rattle.iso_engine.specs.Spending.{IsSpent};
ghost use Rattle.iso_engine.specs.Slices.{IsStepped};
ghost use Rattle.iso_engine.specs.Unserved.{as_stopped, refusals_in, stopped_refusals};

use crate::doing::Doing;
use crate::engine::Engine;
use crate::refused::error_of;
use crate::slices::Slice;
use atom_api::fixed;
use pl_term::Memory;
use std::alloc::Global;
use term_store::Stored;
use world_api::{Answer, Procedure, Reply, Unserved, Visit, World};

impl Engine {
    /// Erases the clause that was added at a place, for retract/1: then the tasks of the list are next, or it fails where the clause
    /// was erased before.
    pub fn erase<W: World<Term = Stored>>(
        &mut self,
        place: u64,
        list: usize,
        world: &mut W,
        atoms: &mut W::A,
    ) -> Result<Option<Slice>, Unserved>
        requires runs { has_ended (W.told world.old).engine (W.told world.old).history ≡ false }
        requires ready { IsReady (W.A.held atoms.old) (W.told world.old) self.old }
        requires erases { self.old.doing ≡ Erasing place list }
        ensures runs { has_ended (W.told world.new).engine (W.told world.new).history ≡ false }
        ensures holds { Holds (W.A.held atoms.old) (W.A.held atoms.new) }
        ensures refusals { IfOk (as_stopped result) (λ o. W.A.refusals atoms.new ≡ W.A.refusals atoms.old ++ stopped_refusals o) }
        ensures asked { Gains (AsksFor (W.A.held atoms.old) (W.told world.old) self.old) (W.A.asked atoms.old) (W.A.asked atoms.new) }
        ensures given { OnOk (as_stopped result) (self.new.solutions_found ≡ self.old.solutions_found) }
        ensures spent { OnOk (as_stopped result) (IsSpent self.old.search.inferences self.new.search.inferences) }
        ensures ready { OnOk (as_stopped result) (IsReady (W.A.held atoms.new) (W.told world.new) self.new) }
        ensures stepped { IfOk (as_stopped result) (λ o.
            IsStepped (W.A.held atoms.old) (W.told world.old) self.old o (W.A.held atoms.new) (W.told world.new) self.new []) }
    {
        let reply = visit_erase(world, atoms, place)?;
        self.doing = follow_erased(self.alloc, reply, list)?;
        Ok(None)
    }
}

/// Erases the clause that was added at a place.
pub fn visit_erase<W: World<Term = Stored>>(
    world: &mut W,
    atoms: &mut W::A,
    place: u64,
) -> Result<Reply<Stored>, Unserved>
    requires runs { has_ended (W.told world.old).engine (W.told world.old).history ≡ false }
    ensures erased { IfOk result (λ r. IsErased (W.A.held atoms.new) (W.told world.old) place r (W.told world.new)) }
    ensures reply { IfOk result IsErasedReply }
    ensures named { IfOk result (λ r. All (λ a. IsSome (W.A.held atoms.new a)) (reply_names names_of r)) }
    ensures unchanged { OnErr result (W.told world.new ≡ W.told world.old) }
    ensures runs { has_ended (W.told world.new).engine (W.told world.new).history ≡ false }
    ensures holds { Holds (W.A.held atoms.old) (W.A.held atoms.new) }
    ensures refusals { W.A.refusals atoms.new ≡ W.A.refusals atoms.old ++ refusals_in result }
    ensures asked { Gains (IsInAnswer term_by clause_key (text_of (W.A.held atoms.old)) (Erase place) (W.told world.old))
        (W.A.asked atoms.old) (W.A.asked atoms.new) }
{
    match world.visit(Visit::Erase { place }, atoms) {
        Answer::Served { reply, .. } => Ok(reply),
        Answer::Waits { .. } => unreachable!(),
        Answer::NeedsAtoms(pass) => Err(Unserved::NeedsAtoms(pass)),
        Answer::Retry(cause) => Err(Unserved::Retry(cause)),
        Answer::Worn(word) => Err(Unserved::Worn(word)),
        Answer::Memory => Err(Unserved::Memory),
    }
}

/// What is done after the reply, before the tasks of a list. The only error is out of memory.
fn follow_erased(alloc: Global, reply: Reply<Stored>, list: usize) -> Result<Doing, Memory>
    requires { IsErasedReply reply }
    ensures { IfOk result (IsErasedTo reply list) }
{
    match reply {
        Reply::Done => Ok(Doing::Running(list)),
        Reply::Gone => Ok(Doing::Failing),
        Reply::Refused(error) => {
            let retract = Procedure {
                name: fixed::RETRACT,
                arity: 1,
            };
            let ball = error_of(alloc, &error, retract)?;
            Ok(Doing::Throwing { ball, outer: list })
        }
        _ => unreachable!(),
    }
}
