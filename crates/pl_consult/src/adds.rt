//! The clauses of the file that are added.
ghost use Rattle.std.specs.Prelude.{◌≡◌, ◌++◌, false, IsSome, Ok, zero, List};
ghost use Rattle.std.specs.List.{All};
ghost use Rattle.pl_term.specs.Tree.{Chars, Tree};
ghost use Rattle.pl_term.specs.Variables.{rename};
ghost use Rattle.pl_model.specs.Requests.{consult_clause, refused};
ghost use Rattle.pl_consult.specs.Checks.{kept_clause};
ghost use Rattle.term_store.specs.NumberedNames.{names_of, term_by};
ghost use Rattle.world_api.specs.Texts.{text_of, Holds};
ghost use Rattle.world_api.specs.Told.{Told, has_ended};
ghost use Rattle.world_api.specs.Visits.{clause_in};
ghost use Rattle.world_api.specs.Gains.{Gains};
ghost use Rattle.world_api.specs.Unserved.{refusals_in};
ghost use Rattle.script_api.specs.Scripts.{IsLater, IsReplied};
ghost use Rattle.pl_consult.specs.declared.stage.Stage.TheVariants.{Clause};
ghost use Rattle.pl_consult.specs.ItemTexts.{MayIntern, Narrows};
ghost use Rattle.pl_consult.specs.Steps.{AddedSo, Asked, IsAfter, IsAdded, IsAddition, IsQuiet, Moved, added_names, step_names, step_refusals};

use crate::consult::Consult;
use crate::stage::{Stage, Step};
use crate::stops::{next_by, stopped};
use atom_api::Atoms;
use op_table::OpTable;
use pl_term::Flat;
use script_api::Next;
use std::alloc::Global;
use std::sync::Arc;
use term_store::Stored;
use world_api::{Answer, Reply, Unserved, Visit, World, interned, with_texts};

/// Adds the clause of the item at this byte, which was read under these operators.
pub fn add_clause<W: World<Term = Stored>>(
    alloc: Global,
    consult: &Consult,
    clause: Flat,
    place: usize,
    operators: Arc<OpTable>,
    world: &mut W,
    atoms: &mut W::A,
    text: &mut Vec<u8>,
) -> (Stage, Step)
    requires { has_ended (W.told world.old).engine (W.told world.old).history ≡ false }
    ensures moved { Moved (term_by (text_of (W.A.held atoms.new))) consult.now (Clause clause place operators) (W.told world.old) text.old.items result.1 consult.now result.0 (W.told world.new) text.new.items }
    ensures stage { IsAfter result.1 result.0 }
    ensures runs { has_ended (W.told world.new).engine (W.told world.new).history ≡ false }
    ensures named { All (λ a. IsSome (W.A.held atoms.new a)) (step_names names_of result.1) }
    ensures holds { Holds (W.A.held atoms.old) (W.A.held atoms.new) }
    ensures refusals { W.A.refusals atoms.new ≡ W.A.refusals atoms.old ++ step_refusals result.1 }
    ensures told { IsLater (W.told world.old) (W.told world.new) }
    ensures asked { (words : List Chars) → Gains (MayIntern consult.now words (Clause clause place operators) (W.told world.old)) (W.A.asked atoms.old) (W.A.asked atoms.new) }
    ensures narrows { (words : List Chars) → Narrows words consult.now (Clause clause place operators) consult.now result.0 }
{
    match interned(alloc, &clause, atoms) {
        Ok(kept) => match add(kept, world, atoms) {
            Ok(refused) => go_on(alloc, consult, refused, place, &operators, atoms, text),
            Err(unserved) => (
                Stage::Clause {
                    clause,
                    place,
                    operators,
                },
                Step::Gives(next_by(unserved)),
            ),
        },
        Err(stop) => (
            Stage::Clause {
                clause,
                place,
                operators,
            },
            Step::Gives(stopped(stop)),
        ),
    }
}

/// Adds the clause that is kept so: the error term with which it is refused, if it is; or why the call was not served.
fn add<W: World<Term = Stored>>(
    kept: Stored,
    world: &mut W,
    atoms: &mut W::A,
) -> Result<Option<Stored>, Unserved>
    requires runs { has_ended (W.told world.old).engine (W.told world.old).history ≡ false }
    requires held { All (λ a. IsSome (W.A.held atoms.old a)) (names_of kept) }
    ensures adds { AddedSo (term_by (text_of (W.A.held atoms.old)) kept) (term_by (text_of (W.A.held atoms.new))) result (W.told world.old) (W.told world.new) }
    ensures runs { has_ended (W.told world.new).engine (W.told world.new).history ≡ false }
    ensures named { All (λ a. IsSome (W.A.held atoms.new a)) (added_names names_of result) }
    ensures holds { Holds (W.A.held atoms.old) (W.A.held atoms.new) }
    ensures refusals { W.A.refusals atoms.new ≡ W.A.refusals atoms.old ++ refusals_in result }
    ensures told { IsLater (W.told world.old) (W.told world.new) }
    ensures asked { Gains (IsReplied (λ q. q ≡ consult_clause (clause_in (term_by (text_of (W.A.held atoms.old)) kept))) (W.told world.old)) (W.A.asked atoms.old) (W.A.asked atoms.new) }
{
    match world.visit(Visit::Consult { clause: kept }, atoms) {
        Answer::Served { reply, .. } => Ok(refused_by(reply)),
        Answer::Waits { .. } => unreachable!(),
        Answer::NeedsAtoms(pass) => Err(Unserved::NeedsAtoms(pass)),
        Answer::Retry(cause) => Err(Unserved::Retry(cause)),
        Answer::Worn(word) => Err(Unserved::Worn(word)),
        Answer::Memory => Err(Unserved::Memory),
    }
}

/// The error term with which a call is refused, if it is, by the reply.
pub(crate) fn refused_by(reply: Reply<Stored>) -> Option<Stored>
    requires { IsAddition reply }
    ensures { IsAdded reply result }
{
    match reply {
        Reply::Done => None,
        Reply::Refused(error) => Some(error),
        _ => unreachable!(),
    }
}

/// Goes on after the item at this byte, whose clause was added, or is refused with this error, which is written.
fn go_on<A: Atoms>(
    alloc: Global,
    consult: &Consult,
    refused: Option<Stored>,
    place: usize,
    operators: &Arc<OpTable>,
    atoms: &mut A,
    text: &mut Vec<u8>,
) -> (Stage, Step)
    requires { All (λ a. IsSome (A.held atoms.old a)) (added_names names_of (Ok refused)) }
    ensures moved { (term : Tree → Tree) (clause kept : Tree) (t u : Told)
        → kept ≡ rename zero clause
        → AddedSo kept (term_by (text_of (A.held atoms.old))) (Ok refused) t u
        → Moved term consult.now (Clause clause place operators.now) t text.old.items result.1 consult.now result.0 u text.new.items }
    ensures stage { IsAfter result.1 result.0 }
    ensures quiet { IsQuiet result.1 }
    ensures same { A.held atoms.new ≡ A.held atoms.old }
    ensures refusals { A.refusals atoms.new ≡ A.refusals atoms.old }
    ensures asked { A.asked atoms.new ≡ A.asked atoms.old }
    ensures narrows { (words : List Chars) (t : Tree) → Narrows words consult.now (Clause t place operators.now) consult.now result.0 }
{
    match refused {
        None => (Stage::Items, Step::Goes),
        Some(error) => refuse(alloc, consult, &error, place, operators, atoms, text),
    }
}

/// Writes that the clause of the item at this byte is refused with this error.
fn refuse<A: Atoms>(
    alloc: Global,
    consult: &Consult,
    error: &Stored,
    place: usize,
    operators: &Arc<OpTable>,
    atoms: &mut A,
    text: &mut Vec<u8>,
) -> (Stage, Step)
    requires { All (λ a. IsSome (A.held atoms.old a)) (names_of error.now) }
    ensures moved { (term : Tree → Tree) (clause kept : Tree) (t u : Told)
        → kept ≡ rename zero clause
        → Asked t u (consult_clause (clause_in kept)) (refused (term_by (text_of (A.held atoms.old)) error.now))
        → Moved term consult.now (Clause clause place operators.now) t text.old.items result.1 consult.now result.0 u text.new.items }
    ensures stage { IsAfter result.1 result.0 }
    ensures quiet { IsQuiet result.1 }
    ensures same { A.held atoms.new ≡ A.held atoms.old }
    ensures refusals { A.refusals atoms.new ≡ A.refusals atoms.old }
    ensures asked { A.asked atoms.new ≡ A.asked atoms.old }
    ensures narrows { (words : List Chars) (t : Tree) → Narrows words consult.now (Clause t place operators.now) consult.now result.0 }
{
    match with_texts(alloc, error, atoms) {
        Ok(error) => match consult.refuse(alloc, place, error, operators, text) {
            Ok(()) => (Stage::Items, Step::Goes),
            Err(_) => (Stage::Items, Step::Gives(Next::Memory)),
        },
        Err(_) => (Stage::Items, Step::Gives(Next::Memory)),
    }
}
