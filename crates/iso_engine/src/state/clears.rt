//! retractall/1 (ISO Cor.2 8.9.5), as steps of an engine: it looks at one clause after the other, and erases those whose heads unify.
ghost use Rattle.std.specs.Prelude.{◌≡◌, ◌≤◌, ◌++◌, ℕ, [], ◌∷◌, Some, false, length, IfOk, IfSome, OnOk, IsSome};
ghost use Rattle.std.specs.List.{All};
ghost use Rattle.pl_term.specs.Tree.{comp, none};
ghost use Rattle.term_store.specs.Contents.{Holds as IsIn, term_at};
ghost use Rattle.term_store.specs.Heap.{atom_name};
ghost use Rattle.term_store.specs.NumberedNames.{atoms_in};
ghost use Rattle.world_api.specs.Gains.{Gains};
ghost use Rattle.world_api.specs.Texts.{Holds};
ghost use Rattle.world_api.specs.Told.{has_ended};
ghost use Rattle.iso_search.specs.declared.frames.Task.TheVariants.{Goal};
ghost use Rattle.iso_search.specs.declared.choices.Purpose.TheVariants.{Resolving};
ghost use Rattle.iso_search.specs.Frames.{tasks};
ghost use Rattle.iso_search.specs.Reading.{reads};
ghost use Rattle.iso_search.specs.Searching.{IsWhole};
ghost use Rattle.iso_engine.specs.declared.doing.Doing.TheVariants.{Running};
ghost use Rattle.iso_engine.specs.declared.doing.Left.TheVariants.{After, Found as FoundLeft};
ghost use Rattle.iso_engine.specs.Asked.{AsksFor, IsAnswerText};
ghost use Rattle.iso_engine.specs.Clearing.{ClearsAt, IsClearAt, IsClearedTo, IsNextFound, clear_procedure, clears_with};
ghost use Rattle.iso_engine.specs.ClausesAsked.{IsRetryAsked};
ghost use Rattle.iso_engine.specs.Erasing.{IsErasedReply};
ghost use Rattle.iso_engine.specs.Ready.{IsReady, MayGoOn};
ghost use Rattle.iso_engine.specs.Spending.{IsSpent};
ghost use Rattle.iso_engine.specs.Slices.{IsStepped};
ghost use Rattle.iso_engine.specs.Standing.{left_after, left_of};
ghost use Rattle.iso_engine.specs.Unserved.{OnRefusal, as_stopped, refusals_in, stopped_refusals};
ghost use Rattle.iso_engine.specs.Views.{view_of};

use crate::call::goals::{key_at, predicate_at};
use crate::doing::{Doing, Left};
use crate::engine::Engine;
use crate::erasing::visit_erase;
use crate::following::follow;
use crate::refused::error_of;
use crate::slices::Slice;
use crate::state::clearing::{Cleared, clear_goal};
use crate::state::meeting::{Met, meet_clause};
use atom_api::{Atom, fixed};
use iso_search::frames::{Task, first_task};
use iso_search::outcome::Outcome;
use iso_search::search::Search;
use pl_term::Memory;
use std::alloc::Global;
use term_store::{Place, Store, Stored, View as Kind};
use world_api::{Answer, Found, Procedure, Reply, Unserved, Visit, World};

impl Engine {
    /// Takes up the goal at a place of retractall/1 with this head, the first task of a list that goes on as another: asks for the
    /// clauses, which are then looked at one after the other.
    pub fn clear<W: World<Term = Stored>>(
        &mut self,
        goal: Place,
        head: Place,
        list: usize,
        rest: usize,
        world: &mut W,
        atoms: &mut W::A,
    ) -> Result<Option<Slice>, Unserved>
        requires runs { has_ended (W.told world.old).engine (W.told world.old).history ≡ false }
        requires ready { IsReady (W.A.held atoms.old) (W.told world.old) self.old }
        requires list { self.old.doing ≡ Running list }
        requires first { (cut : ℕ) × (tasks self.old.search.frames.items list ≡ Goal goal cut ∷ tasks self.old.search.frames.items rest) }
        requires rest { rest ≤ length self.old.search.frames.items }
        requires clears { IsClearAt self.old.search.store goal head }
        ensures runs { has_ended (W.told world.new).engine (W.told world.new).history ≡ false }
        ensures holds { Holds (W.A.held atoms.old) (W.A.held atoms.new) }
        ensures refusals { IfOk (as_stopped result) (λ o. W.A.refusals atoms.new ≡ W.A.refusals atoms.old ++ stopped_refusals o) }
        ensures asked { Gains (AsksFor (W.A.held atoms.old) (W.told world.old) self.old) (W.A.asked atoms.old) (W.A.asked atoms.new) }
        ensures given { OnOk (as_stopped result) (self.new.solutions_found ≡ self.old.solutions_found) }
        ensures spent { OnOk (as_stopped result) (IsSpent self.old.search.inferences self.new.search.inferences) }
        ensures ready { OnOk (as_stopped result) (IsReady (W.A.held atoms.new) (W.told world.new) self.new) }
        ensures stepped { IfOk (as_stopped result) (λ o.
            IsStepped (W.A.held atoms.old) (W.told world.old) self.old o (W.A.held atoms.new) (W.told world.new) self.new []) }
    {
        let cleared = clear_goal(&mut self.search, goal, head, rest, world, atoms)?;
        match cleared {
            Cleared::Lists(generation, found) => {
                self.doing = Doing::Clearing {
                    list,
                    generation,
                    left: left_by(None, found),
                };
                Ok(None)
            }
            Cleared::Ran(outcome) => {
                self.doing = follow(self.alloc, &self.search, outcome, retractall(), rest)?;
                Ok(None)
            }
            Cleared::Refused(error) => {
                let ball = error_of(self.alloc, &error, retractall())?;
                self.doing = Doing::Throwing { ball, outer: rest };
                Ok(None)
            }
        }
    }

    /// Looks at the next of the clauses that are left for the goal that is the first task of a list, or goes on with the tasks after
    /// the goal where there is none. Where a visit is not served, what is left is as it was.
    pub fn clear_next<W: World<Term = Stored>>(
        &mut self,
        list: usize,
        generation: u64,
        left: Left,
        world: &mut W,
        atoms: &mut W::A,
    ) -> Result<Option<Slice>, Unserved>
        requires runs { has_ended (W.told world.old).engine (W.told world.old).history ≡ false }
        requires ready { IsReady (W.A.held atoms.old) (W.told world.old) (clears_with self.old list generation left) }
        ensures runs { has_ended (W.told world.new).engine (W.told world.new).history ≡ false }
        ensures holds { Holds (W.A.held atoms.old) (W.A.held atoms.new) }
        ensures refusals { IfOk (as_stopped result) (λ o. W.A.refusals atoms.new ≡ W.A.refusals atoms.old ++ stopped_refusals o) }
        ensures asked { Gains (AsksFor (W.A.held atoms.old) (W.told world.old) (clears_with self.old list generation left)) (W.A.asked atoms.old) (W.A.asked atoms.new) }
        ensures given { OnOk (as_stopped result) (self.new.solutions_found ≡ self.old.solutions_found) }
        ensures spent { OnOk (as_stopped result) (IsSpent self.old.search.inferences self.new.search.inferences) }
        ensures ready { OnOk (as_stopped result) (IsReady (W.A.held atoms.new) (W.told world.new) self.new) }
        ensures stepped { IfOk (as_stopped result) (λ o.
            IsStepped (W.A.held atoms.old) (W.told world.old) (clears_with self.old list generation left) o (W.A.held atoms.new) (W.told world.new) self.new []) }
    {
        let at = cleared_at(&self.search, list)?;
        match left {
            Left::None => {
                self.doing = Doing::Running(at.1);
                Ok(None)
            }
            Left::Found(after, found) => {
                self.clear_found(list, at.0, at.1, generation, after, found, world, atoms)
            }
            Left::After(place) => self.clear_after(
                list, at.0, at.1, generation, place, world, atoms,
            ),
        }
    }

    /// Asks for the clause after the one with a place, and looks at it.
    fn clear_after<W: World<Term = Stored>>(
        &mut self,
        list: usize,
        head: Place,
        rest: usize,
        generation: u64,
        place: u64,
        world: &mut W,
        atoms: &mut W::A,
    ) -> Result<Option<Slice>, Unserved>
        requires runs { has_ended (W.told world.old).engine (W.told world.old).history ≡ false }
        requires ready { IsReady (W.A.held atoms.old) (W.told world.old) (clears_with self.old list generation (After place)) }
        requires clears { ClearsAt self.old.search list head rest }
        requires rest { rest ≤ length self.old.search.frames.items }
        ensures runs { has_ended (W.told world.new).engine (W.told world.new).history ≡ false }
        ensures holds { Holds (W.A.held atoms.old) (W.A.held atoms.new) }
        ensures refusals { IfOk (as_stopped result) (λ o. W.A.refusals atoms.new ≡ W.A.refusals atoms.old ++ stopped_refusals o) }
        ensures asked { Gains (AsksFor (W.A.held atoms.old) (W.told world.old) (clears_with self.old list generation (After place))) (W.A.asked atoms.old) (W.A.asked atoms.new) }
        ensures given { OnOk (as_stopped result) (self.new.solutions_found ≡ self.old.solutions_found) }
        ensures spent { OnOk (as_stopped result) (IsSpent self.old.search.inferences self.new.search.inferences) }
        ensures ready { OnOk (as_stopped result) (IsReady (W.A.held atoms.new) (W.told world.new) self.new) }
        ensures stepped { IfOk (as_stopped result) (λ o.
            IsStepped (W.A.held atoms.old) (W.told world.old) (clears_with self.old list generation (After place)) o (W.A.held atoms.new) (W.told world.new) self.new []) }
    {
        self.doing = Doing::Clearing {
            list,
            generation,
            left: Left::After(place),
        };
        let found = next_found(&self.search, head, generation, place, world, atoms)?;
        match found {
            None => {
                self.doing = Doing::Running(rest);
                Ok(None)
            }
            Some(found) => {
                let after = Some(place);
                self.clear_found(list, head, rest, generation, after, found, world, atoms)
            }
        }
    }

    /// Looks at a clause, and erases it where its head unifies.
    fn clear_found<W: World<Term = Stored>>(
        &mut self,
        list: usize,
        head: Place,
        rest: usize,
        generation: u64,
        after: Option<u64>,
        found: Found<Stored>,
        world: &mut W,
        atoms: &mut W::A,
    ) -> Result<Option<Slice>, Unserved>
        requires runs { has_ended (W.told world.old).engine (W.told world.old).history ≡ false }
        requires ready { IsReady (W.A.held atoms.old) (W.told world.old) (clears_with self.old list generation (FoundLeft after found)) }
        requires clears { ClearsAt self.old.search list head rest }
        requires rest { rest ≤ length self.old.search.frames.items }
        ensures runs { has_ended (W.told world.new).engine (W.told world.new).history ≡ false }
        ensures holds { Holds (W.A.held atoms.old) (W.A.held atoms.new) }
        ensures refusals { IfOk (as_stopped result) (λ o. W.A.refusals atoms.new ≡ W.A.refusals atoms.old ++ stopped_refusals o) }
        ensures asked { Gains (IsAnswerText (W.A.held atoms.old) (W.told world.old) (clears_with self.old list generation (FoundLeft after found))) (W.A.asked atoms.old) (W.A.asked atoms.new) }
        ensures given { OnOk (as_stopped result) (self.new.solutions_found ≡ self.old.solutions_found) }
        ensures spent { OnOk (as_stopped result) (IsSpent self.old.search.inferences self.new.search.inferences) }
        ensures ready { OnOk (as_stopped result) (IsReady (W.A.held atoms.new) (W.told world.new) self.new) }
        ensures stepped { IfOk (as_stopped result) (λ o.
            IsStepped (W.A.held atoms.old) (W.told world.old) (clears_with self.old list generation (FoundLeft after found)) o (W.A.held atoms.new) (W.told world.new) self.new []) }
    {
        let place = found.place;
        let before = self.search.next_variable;
        let left = left_behind(&found);
        let met = meet_clause(&mut self.search, head, &found.clause)?;
        match met {
            Met::Raises(fault) => {
                let raised = Outcome::Raise(fault);
                self.doing = follow(self.alloc, &self.search, raised, retractall(), rest)?;
                Ok(None)
            }
            Met::Differs => {
                self.doing = Doing::Clearing {
                    list,
                    generation,
                    left,
                };
                Ok(None)
            }
            Met::Meets => {
                self.doing = Doing::Clearing {
                    list,
                    generation,
                    left: Left::Found(after, found),
                };
                match visit_erase(world, atoms, place) {
                    Ok(reply) => {
                        self.doing = follow_cleared(
                            self.alloc, reply, list, generation, left, rest,
                        )?;
                        Ok(None)
                    }
                    Err(unserved) => {
                        self.search.next_variable = before;
                        Err(unserved)
                    }
                }
            }
        }
    }
}

/// What is done after the reply, where these clauses are left. The only error is out of memory.
fn follow_cleared(
    alloc: Global,
    reply: Reply<Stored>,
    list: usize,
    generation: u64,
    left: Left,
    rest: usize,
) -> Result<Doing, Memory>
    requires { IsErasedReply reply }
    ensures { IfOk result (IsClearedTo reply list generation left rest) }
{
    match reply {
        Reply::Done => Ok(Doing::Clearing {
            list,
            generation,
            left,
        }),
        Reply::Gone => Ok(Doing::Clearing {
            list,
            generation,
            left,
        }),
        Reply::Refused(error) => {
            let ball = error_of(alloc, &error, retractall())?;
            Ok(Doing::Throwing { ball, outer: rest })
        }
        _ => unreachable!(),
    }
}

/// The next of the clauses for a head at a generation, after the one with a place.
fn next_found<W: World<Term = Stored>>(
    search: &Search,
    head: Place,
    generation: u64,
    place: u64,
    world: &mut W,
    atoms: &mut W::A,
) -> Result<Option<Found<Stored>>, Unserved>
    requires whole { IsWhole search.now }
    requires head { IsIn search.now.store head }
    requires held { All (λ a. IsSome (W.A.held atoms.old a)) (atoms_in (term_at search.now.store head)) }
    requires open { MayGoOn (W.told world.old) (reads (view_of (W.A.held atoms.old) (W.told world.old)) search.now.store head) generation place }
    requires runs { has_ended (W.told world.old).engine (W.told world.old).history ≡ false }
    ensures found { IfOk result (IsNextFound (W.told world.old) search.now head generation place (W.A.held atoms.new) (W.told world.new)) }
    ensures unchanged { OnRefusal result (W.told world.new ≡ W.told world.old) }
    ensures runs { has_ended (W.told world.new).engine (W.told world.new).history ≡ false }
    ensures holds { Holds (W.A.held atoms.old) (W.A.held atoms.new) }
    ensures refusals { W.A.refusals atoms.new ≡ W.A.refusals atoms.old ++ refusals_in result }
    ensures asked { Gains (IsRetryAsked (W.A.held atoms.old) (W.told world.old) search.now Resolving head generation place) (W.A.asked atoms.old) (W.A.asked atoms.new) }
{
    let _mark = search.store.mark();
    let procedure = predicate_at(&search.store, head);
    let first = key_at(&search.store, head);
    let visit = Visit::Next {
        procedure,
        first,
        generation,
        place,
    };
    match world.visit(visit, atoms) {
        Answer::Served { reply, .. } => {
            let Reply::Clauses(found) = reply else {
                unreachable!();
            };
            Ok(found)
        }
        Answer::Waits { .. } => unreachable!(),
        Answer::NeedsAtoms(pass) => Err(Unserved::NeedsAtoms(pass)),
        Answer::Retry(cause) => Err(Unserved::Retry(cause)),
        Answer::Worn(word) => Err(Unserved::Worn(word)),
        Answer::Memory => Err(Unserved::Memory),
    }
}

/// The head of the goal that is the first task of a list, and how the list goes on after it. There is always one while its clauses
/// are looked at; where there is none the answer is out of memory.
fn cleared_at(search: &Search, list: usize) -> Result<(Place, usize), Memory>
    requires { IsWhole search.now }
    ensures clears { IfOk result (λ x. ClearsAt search.now list x.0 x.1) }
    ensures rest { IfOk result (λ x. x.1 ≤ length search.now.frames.items) }
{
    let Some(frame) = first_task(&search.frames, list) else {
        return Err(Memory);
    };
    match frame.task {
        Task::Goal(goal, _) => match argument_of(&search.store, goal, fixed::RETRACTALL) {
            Some(head) => Ok((head, frame.continuation)),
            None => Err(Memory),
        },
        _ => Err(Memory),
    }
}

/// What is left of the clauses after the one with a place, or of all of them, where this was found.
fn left_by(after: Option<u64>, found: Option<Found<Stored>>) -> Left
    ensures { result ≡ left_of after found }
{
    match found {
        None => Left::None,
        Some(found) => Left::Found(after, found),
    }
}

/// What is left behind a clause that was found.
fn left_behind(found: &Found<Stored>) -> Left
    ensures { result ≡ left_after found.now }
{
    if found.more {
        Left::After(found.place)
    } else {
        Left::None
    }
}

/// The predicate by its name and the number of its arguments.
fn retractall() -> Procedure
    ensures { result ≡ clear_procedure }
{
    Procedure {
        name: fixed::RETRACTALL,
        arity: 1,
    }
}

/// The argument of the goal at a place, if the goal has this name and one argument.
fn argument_of(store: &Store, goal: Place, name: Atom) -> Option<Place>
    requires { IsIn store.now goal }
    ensures { IfSome result (λ p. IsIn store.now p × (term_at store.now goal ≡ comp (atom_name name) (term_at store.now p) none)) }
{
    match store.look(goal) {
        Kind::Compound(other, arguments) => {
            if other == name && arguments.len() == 1 {
                Some(store.argument(arguments, 0))
            } else {
                None
            }
        }
        _ => None,
    }
}
