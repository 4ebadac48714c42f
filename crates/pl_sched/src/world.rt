//! The shared state as the engine of a worker sees it.
ghost use Rattle.std.specs.Prelude.{◌≡◌, ℕ, IfNone, IfSome, IsSome, None};
ghost use Rattle.std.specs.List.{All};
ghost use Rattle.atom_words.specs.Seats.{seen};
ghost use Rattle.atom_table.specs.Naming.{names};
ghost use Rattle.term_store.specs.ArgumentKeys.{clause_key, key_atoms};
ghost use Rattle.term_store.specs.NumberedNames.{names_of, term_by};
ghost use Rattle.world_api.specs.Answers.{CanVisit};
ghost use Rattle.world_api.specs.Texts.{text_of};
ghost use Rattle.world_api.specs.Visits.{visit_for, visit_names};
ghost use Rattle.world_api.specs.declared.answer.Answer.TheVariants.{Served};
ghost use Rattle.world_api.specs.declared.reply.Reply.TheVariants.{Clauses};
ghost use Rattle.kept_answers.specs.Answered.{IsKept, found_at};
ghost use Rattle.pl_sched.specs.Answering.{IsAnswered};
ghost use Rattle.pl_hub.specs.Fronts.{IsOwn, told_of};
ghost use Rattle.pl_sched.specs.Ledger.{IsBegun};

use crate::hub::Hub;
use crate::known::KnownAtoms;
use crate::naming::Command;
use crate::writing::Writes;
use atom_table::TableAtoms;
use counted_terms::CountedTerm;
use kept_answers::number_of;
use pl_history::{Front, History};
use pl_hub::counted;
use pl_io::Gate;
use pl_term::Memory;
use std::alloc::Global;
use std::marker::Model;
use std::sync::{Mutex, Wait};
use term_store::{ArgumentKey, Stored};
use world_api::{After, Answer, Asked, Found, Reply, Visit, World};

/// The shared state as an engine that this worker carries sees it: its front, and before each visit the gate, and the lock,
/// before which the visit is made ready. Before a call `again` calls the gate, and the visit does not call it once more. Contracts
/// see it as what the front knows.
#[derive(Drop)]
pub struct HubWorld<'a, 't, E: Writes + Drop, K: Command, R: Wait, G: Gate> {
    runtime: &'a R,
    alloc: Global,
    gate: &'a G,
    hub: &'a Mutex<Hub<'t, E, K>>,
    history: &'a History,
    front: Front,
    worker: u32,
    engine: u64,
}

impl<'a, 't, E: Writes + Drop, K: Command, R: Wait, G: Gate> Model
    for HubWorld<'a, 't, E, K, R, G> {
    ghost use Rattle.std.specs.Prelude.{◌≡◌};
    ghost use Rattle.pl_history.specs.Fronts.{FrontState};
    ghost use Rattle.pl_history.specs.Codes.{coded_front};
    ghost use Rattle.pl_hub.specs.Fronts.{IsOwn};
    ghost use Rattle.pl_sched.specs.Ledger.{IsBegun};

    ghost Value = { FrontState };

    ghost coded = { coded_front };

    ghost view = { λ w. w.front };

    ghost invariant = { λ w. (w.history.now ≡ K.history) × IsOwn K.history w.engine w.front × IsBegun w.front.seen w.engine };
}

impl<'a, 't, E: Writes + Drop, K: Command, R: Wait, G: Gate> HubWorld<'a, 't, E, K, R, G> {
    /// The shared state as the engine with the number sees it, which runs, whose front this is, and which this worker
    /// carries.
    pub fn new(
        runtime: &'a R,
        alloc: Global,
        gate: &'a G,
        hub: &'a Mutex<Hub<'t, E, K>>,
        history: &'a History,
        front: Front,
        worker: u32,
        engine: u64,
    ) -> HubWorld<'a, 't, E, K, R, G>
        requires history { history.now ≡ K.history }
        requires front { IsOwn K.history engine front }
        requires begun { IsBegun front.seen engine }
        ensures { result ≡ front }
    {
        HubWorld {
            runtime,
            alloc,
            gate,
            hub,
            history,
            front,
            worker,
            engine,
        }
    }

    /// The front by itself.
    pub fn into_front(self) -> Front
        ensures front { result ≡ self.entry }
        ensures own { (e : ℕ) × IsOwn K.history e result }
    {
        self.front
    }
}

impl<'a, 't, E: Writes + Drop, K: Command, R: Wait, G: Gate> World
    for HubWorld<'a, 't, E, K, R, G> {
    ghost use Rattle.std.specs.Prelude.{◌++◌, IfNone, IfSome, IsSome, Some, false};
    ghost use Rattle.std.specs.List.{All};
    ghost use Rattle.pl_model.specs.History.{History as Entries};
    ghost use Rattle.atom_words.specs.Seats.{seen};
    ghost use Rattle.atom_table.specs.Naming.{names, requests};
    ghost use Rattle.term_store.specs.ArgumentKeys.{clause_key, key_atoms};
    ghost use Rattle.term_store.specs.NumberedNames.{names_of, term_by};
    ghost use Rattle.world_api.specs.Texts.{text_of, Holds};
    ghost use Rattle.world_api.specs.Told.{has_ended};
    ghost use Rattle.world_api.specs.Visits.{visit_for, visit_names};
    ghost use Rattle.world_api.specs.Replies.{found_names};
    ghost use Rattle.world_api.specs.declared.answer.Answer.TheVariants.{Served};
    ghost use Rattle.world_api.specs.declared.reply.Reply.TheVariants.{Clauses};
    ghost use Rattle.kept_answers.specs.Answered.{found_at};
    ghost use Rattle.world_api.specs.Answers.{CanVisit, Visited, answer_names, refusals_by};
    ghost use Rattle.world_api.specs.Asked.{IsInAnswer};
    ghost use Rattle.world_api.specs.Gains.{Gains};

    type A = KnownAtoms<'t, K>;

    type Term = Stored;

    ghost told = { told_of K.goals };

    ghost at_hand = { λ a. found_at a.answers.spaces.items a.at a.nothing };

    fn visit(
        &mut self,
        visit: Visit<Stored, ArgumentKey>,
        atoms: &mut KnownAtoms<'t, K>,
    ) -> Answer<Stored>
        requires runs { has_ended (told_of K.goals self.old).engine (told_of K.goals self.old).history ≡ false }
        requires held { All (λ a. IsSome (names (seen atoms.old.atoms.seat) a)) (visit_names names_of key_atoms visit) }
        requires next { CanVisit term_by clause_key (text_of (names (seen atoms.old.atoms.seat))) visit (told_of K.goals self.old) }
        ensures visited { (before : Entries) × Visited term_by clause_key (text_of (names (seen atoms.old.atoms.seat))) (text_of (names (seen atoms.new.atoms.seat))) visit result
            (told_of K.goals self.old) before (told_of K.goals self.new) }
        ensures runs { has_ended (told_of K.goals self.new).engine (told_of K.goals self.new).history ≡ false }
        ensures names { All (λ a. IsSome (names (seen atoms.new.atoms.seat) a)) (answer_names names_of result) }
        ensures holds { Holds (names (seen atoms.old.atoms.seat)) (names (seen atoms.new.atoms.seat)) }
        ensures refusals { (seen atoms.new.atoms.seat).refusals ≡ (seen atoms.old.atoms.seat).refusals ++ refusals_by result }
        ensures asked { Gains (IsInAnswer term_by clause_key (text_of (names (seen atoms.old.atoms.seat))) visit (told_of K.goals self.old))
            (Some (requests (seen atoms.old.atoms.seat))) (Some (requests (seen atoms.new.atoms.seat))) }
    {
        match visit {
            Visit::Call { procedure, first } => {
                let asked = Asked {
                    procedure,
                    first,
                    after: None,
                };
                self.anew(&asked, atoms)
            }
            Visit::Next {
                procedure,
                first,
                generation,
                place,
            } => {
                let after = Some(After { generation, place });
                let asked = Asked {
                    procedure,
                    first,
                    after,
                };
                self.gate.before_visit(self.worker, self.engine);
                self.anew(&asked, atoms)
            }
            visit => {
                self.gate.before_visit(self.worker, self.engine);
                self.other(visit, &mut atoms.atoms)
            }
        }
    }

    #[inline]
    fn again(&mut self, asked: &Asked<ArgumentKey>, atoms: &mut KnownAtoms<'t, K>) -> Option<u64>
        ensures visited { IfSome result (λ n. (before : Entries) × Visited term_by clause_key
            (text_of (names (seen atoms.old.atoms.seat))) (text_of (names (seen atoms.new.atoms.seat))) (visit_for asked.now) (Served (Clauses (found_at atoms.new.answers.spaces.items atoms.new.at atoms.new.nothing)) n) (told_of K.goals self.old) before (told_of K.goals self.new)) }
        ensures none { IfNone result (told_of K.goals self.new ≡ told_of K.goals self.old) }
        ensures runs { IfSome result (λ _. has_ended (told_of K.goals self.new).engine (told_of K.goals self.new).history ≡ false) }
        ensures names { IfSome result (λ _. All (λ a. IsSome (names (seen atoms.new.atoms.seat) a)) (found_names names_of (found_at atoms.new.answers.spaces.items atoms.new.at atoms.new.nothing))) }
        ensures held { names (seen atoms.new.atoms.seat) ≡ names (seen atoms.old.atoms.seat) }
        ensures refusals { (seen atoms.new.atoms.seat).refusals ≡ (seen atoms.old.atoms.seat).refusals }
        ensures asked { Some (requests (seen atoms.new.atoms.seat)) ≡ Some (requests (seen atoms.old.atoms.seat)) }
    {
        self.call_gate(asked);
        self.known(asked, atoms)
    }

    #[inline]
    fn lent<'l>(atoms: &'l KnownAtoms<'t, K>) -> &'l Option<Found<Stored>>
        ensures { result.now ≡ found_at atoms.now.answers.spaces.items atoms.now.at atoms.now.nothing }
    {
        atoms.lent()
    }
}

impl<'a, 't, E: Writes + Drop, K: Command, R: Wait, G: Gate> HubWorld<'a, 't, E, K, R, G> {
    // The visit is answered under the lock.
    #[inline(never)]
    fn locked(
        &mut self,
        visit: Visit<CountedTerm, ArgumentKey>,
        atoms: &mut TableAtoms<'t, K>,
    ) -> Answer<Stored>
        requires held { All (λ a. IsSome (names (seen atoms.old.seat) a)) (visit_names names_of key_atoms visit) }
        requires next { CanVisit term_by clause_key (text_of (names (seen atoms.old.seat))) visit (told_of K.goals self.old) }
        ensures { IsAnswered K.goals (seen atoms.old.seat) (seen atoms.new.seat) visit result self.old self.new }
    {
        let mut hub = self.hub.lock(self.runtime);
        hub.session(
            self.alloc,
            self.history,
            atoms,
            &mut self.front,
            self.engine,
            visit,
        )
    }

    // The clause is found under the lock.
    #[inline(never)]
    fn listed(
        &mut self,
        asked: &Asked<ArgumentKey>,
        atoms: &mut TableAtoms<'t, K>,
    ) -> Answer<Stored>
        requires held { All (λ a. IsSome (names (seen atoms.old.seat) a)) (visit_names names_of key_atoms (visit_for asked.now)) }
        requires next { CanVisit term_by clause_key (text_of (names (seen atoms.old.seat))) (visit_for asked.now) (told_of K.goals self.old) }
        ensures { IsAnswered K.goals (seen atoms.old.seat) (seen atoms.new.seat) (visit_for asked.now) result self.old self.new }
    {
        let mut hub = self.hub.lock(self.runtime);
        hub.listed(
            self.alloc,
            self.history,
            atoms,
            &mut self.front,
            self.engine,
            asked,
        )
    }

    // A visit that asks for no clause of a call is made ready, and answered under the lock.
    #[inline(never)]
    fn other(
        &mut self,
        visit: Visit<Stored, ArgumentKey>,
        atoms: &mut TableAtoms<'t, K>,
    ) -> Answer<Stored>
        requires held { All (λ a. IsSome (names (seen atoms.old.seat) a)) (visit_names names_of key_atoms visit) }
        requires next { CanVisit term_by clause_key (text_of (names (seen atoms.old.seat))) visit (told_of K.goals self.old) }
        ensures { IsAnswered K.goals (seen atoms.old.seat) (seen atoms.new.seat) visit result self.old self.new }
    {
        match counted(self.alloc, visit) {
            Err(Memory) => Answer::Memory,
            Ok(listed) => self.locked(listed, atoms),
        }
    }

    // The clause is found under the lock. Where the same was asked before, it is kept.
    #[inline(never)]
    fn anew(&mut self, asked: &Asked<ArgumentKey>, atoms: &mut KnownAtoms<'t, K>) -> Answer<Stored>
        requires held { All (λ a. IsSome (names (seen atoms.old.atoms.seat) a)) (visit_names names_of key_atoms (visit_for asked.now)) }
        requires next { CanVisit term_by clause_key (text_of (names (seen atoms.old.atoms.seat))) (visit_for asked.now) (told_of K.goals self.old) }
        ensures { IsAnswered K.goals (seen atoms.old.atoms.seat) (seen atoms.new.atoms.seat) (visit_for asked.now) result self.old self.new }
    {
        let number = number_of(asked);
        if atoms.is_again(number, self.front.generation()) {
            self.kept(asked, number, atoms)
        } else {
            self.listed(asked, &mut atoms.atoms)
        }
    }

    // The clause is found under the lock, and kept.
    #[cold]
    #[inline(never)]
    fn kept(
        &mut self,
        asked: &Asked<ArgumentKey>,
        number: u64,
        atoms: &mut KnownAtoms<'t, K>,
    ) -> Answer<Stored>
        requires held { All (λ a. IsSome (names (seen atoms.old.atoms.seat) a)) (visit_names names_of key_atoms (visit_for asked.now)) }
        requires next { CanVisit term_by clause_key (text_of (names (seen atoms.old.atoms.seat))) (visit_for asked.now) (told_of K.goals self.old) }
        ensures { IsAnswered K.goals (seen atoms.old.atoms.seat) (seen atoms.new.atoms.seat) (visit_for asked.now) result self.old self.new }
    {
        let answer = self.listed(asked, &mut atoms.atoms);
        if let Some(found) = found_in(&answer) {
            atoms.keep(
                self.alloc,
                self.history,
                &mut self.front,
                asked,
                number,
                found,
            );
        }
        answer
    }

    // Calls the gate before a call. Before a next clause it is called where the clause is kept, and else before the visit.
    #[inline]
    fn call_gate(&self, asked: &Asked<ArgumentKey>) {
        if asked.after.is_none() {
            self.gate.before_visit(self.worker, self.engine);
        }
    }

    // The generation of the answer that is kept, where the history has no further entry.
    #[inline]
    fn known(&mut self, asked: &Asked<ArgumentKey>, atoms: &mut KnownAtoms<'t, K>) -> Option<u64>
        ensures some { IfSome result (λ n. IsAnswered K.goals (seen atoms.old.atoms.seat) (seen atoms.new.atoms.seat) (visit_for asked.now)
            (Served (Clauses (found_at atoms.new.answers.spaces.items atoms.new.at atoms.new.nothing)) n) self.old self.new) }
        ensures none { IfNone result (self.new ≡ self.old) }
        ensures atoms { atoms.new.atoms ≡ atoms.old.atoms }
    {
        if !atoms.find(self.history, &mut self.front, asked) {
            return None;
        }
        match &asked.after {
            None => self.revisit(asked, atoms),
            Some(after) => {
                self.gate.before_visit(self.worker, self.engine);
                Some(after.generation)
            }
        }
    }

    // The generation of the answer to a call that is kept, where the history has no further entry.
    #[inline]
    fn revisit(&mut self, asked: &Asked<ArgumentKey>, atoms: &KnownAtoms<'t, K>) -> Option<u64>
        requires call { asked.now.after ≡ None }
        requires kept { IsKept K.goals self.old.seen asked.now (found_at atoms.now.answers.spaces.items atoms.now.at atoms.now.nothing) (names (seen atoms.now.atoms.seat)) }
        ensures some { IfSome result (λ n. IsAnswered K.goals (seen atoms.now.atoms.seat) (seen atoms.now.atoms.seat) (visit_for asked.now)
            (Served (Clauses (found_at atoms.now.answers.spaces.items atoms.now.at atoms.now.nothing)) n) self.old self.new) }
        ensures none { IfNone result (self.new ≡ self.old) }
    {
        let _asked = asked;
        let _atoms = atoms;
        if !self.history.revisit(&mut self.front) {
            return None;
        }
        Some(self.front.generation())
    }
}

// What was found, where the answer is a clause of a list or that there is none.
fn found_in(answer: &Answer<Stored>) -> Option<&Option<Found<Stored>>>
    ensures { IfSome result (λ f. (n : ℕ) × (answer.now ≡ Served (Clauses f.now) n)) }
{
    match answer {
        Answer::Served {
            reply: Reply::Clauses(found),
            ..
        } => Some(found),
        _ => None,
    }
}
