//! One call for all visits.
ghost use Rattle.std.specs.Prelude.{◌≡◌, IsSome, Some};
ghost use Rattle.std.specs.List.{All};
ghost use Rattle.atom_words.specs.Seats.{seen};
ghost use Rattle.atom_table.specs.Naming.{names};
ghost use Rattle.term_store.specs.ArgumentKeys.{clause_key, key_atoms};
ghost use Rattle.term_store.specs.NumberedNames.{names_of, term_by};
ghost use Rattle.world_api.specs.Answers.{CanVisit};
ghost use Rattle.world_api.specs.Texts.{text_of};
ghost use Rattle.world_api.specs.Visits.{visit_names};
ghost use Rattle.world_api.specs.declared.visit.Visit.TheVariants.{CreateThread, DestroyQueue, GetMessage, JoinThread, PeekMessage, SendMessage};
ghost use Rattle.pl_hub.specs.Fronts.{IsOwn, told_of};
ghost use Rattle.pl_hub.specs.Visits.{IsVisit};

use crate::naming::Naming;
use crate::shared::Shared;
use atom_api::Atom;
use atom_table::TableAtoms;
use counted_terms::CountedTerm;
use hub_database::Adding;
use pl_history::{Front, History};
use std::alloc::Global;
use term_store::{ArgumentKey, Stored};
use world_api::{Answer, Visit};

impl<K: Naming> Shared<K> {
    /// A visit of the front's own engine, which has this number and runs. Each is answered in one part of the state, with one
    /// step on the history, or refused with nothing changed. The atoms that its terms count are listed already (`counted`).
    pub fn session(
        &mut self,
        alloc: Global,
        history: &History,
        atoms: &mut TableAtoms<K>,
        front: &mut Front,
        engine: u64,
        visit: Visit<CountedTerm, ArgumentKey>,
    ) -> Answer<Stored>
        requires history { history.now ≡ K.history }
        requires front { IsOwn K.history engine front.old }
        requires held { All (λ a. IsSome (names (seen atoms.old.seat) a)) (visit_names names_of key_atoms visit) }
        requires next { CanVisit term_by clause_key (text_of (names (seen atoms.old.seat))) visit (told_of K.goals front.old) }
        ensures { IsVisit K.history K.goals engine (seen atoms.old.seat) (seen atoms.new.seat) visit result front.old front.new self.old self.new }
    {
        match visit {
            Visit::Look => self.look(history, atoms, front, engine),
            Visit::ReadOperators => self.look(history, atoms, front, engine),
            Visit::Call { procedure, first } => {
                self.call_clauses(alloc, history, atoms, front, engine, procedure, first)
            }
            Visit::Inspect { procedure, first } => {
                self.inspect_clauses(alloc, history, atoms, front, engine, procedure, first)
            }
            Visit::Retract { procedure, first } => {
                self.retract_clauses(alloc, history, atoms, front, engine, procedure, first)
            }
            Visit::Clear { procedure, first } => {
                self.clear_clauses(alloc, history, atoms, front, engine, procedure, first)
            }
            Visit::Next {
                procedure,
                first,
                generation,
                place,
            } => {
                self.next_clause(
                    history, atoms, front, engine, procedure, first, generation, place,
                )
            }
            Visit::Erase { place } => self.erase_clause(
                alloc, history, atoms, front, engine, place,
            ),
            Visit::AssertFirst { clause } => self.add_clause(
                alloc,
                history,
                atoms,
                front,
                engine,
                clause,
                Adding::First,
            ),
            Visit::AssertLast { clause } => self.add_clause(
                alloc,
                history,
                atoms,
                front,
                engine,
                clause,
                Adding::Last,
            ),
            Visit::Consult { clause } => self.add_clause(
                alloc,
                history,
                atoms,
                front,
                engine,
                clause,
                Adding::Text,
            ),
            Visit::Abolish { procedure } => self.abolish_procedure(
                alloc, history, atoms, front, engine, procedure,
            ),
            Visit::MakeDynamic { procedures } => self.make_dynamic(
                alloc, history, atoms, front, engine, procedures,
            ),
            Visit::AllProcedures => self.all_procedures(alloc, history, atoms, front, engine),
            Visit::PutOperators {
                priority,
                kind,
                names,
            } => self.put_operators(alloc, history, atoms, front, engine, priority, kind, names),
            Visit::PutFlag { flag, value } => self.put_flag(
                alloc, history, atoms, front, engine, flag, value,
            ),
            Visit::AllFlags => self.all_flags(alloc, history, atoms, front, engine),
            Visit::AllOperators => self.all_operators(alloc, history, atoms, front, engine),
            Visit::OwnName => self.own_name(history, atoms, front, engine),
            Visit::CreateThread {
                goal,
                aliases,
                error,
            } => self.create(alloc, history, atoms, front, engine, goal, aliases, error),
            Visit::StartGoal { number, goal } => self.start_goal(
                alloc, history, atoms, front, engine, number, goal,
            ),
            Visit::JoinThread { thread } => self.join(
                alloc, history, atoms, front, engine, &thread,
            ),
            Visit::SendMessage { queue, message } => self.send(
                alloc, history, atoms, front, engine, &queue, message,
            ),
            Visit::GetMessage { queue, pattern } => self.get(
                alloc, history, atoms, front, engine, queue, pattern,
            ),
            Visit::PeekMessage { queue, pattern } => self.peek(
                alloc, history, atoms, front, engine, queue, pattern,
            ),
            Visit::CreateQueue { alias } => self.create_queue(
                alloc, history, atoms, front, engine, alias,
            ),
            Visit::DestroyQueue { queue } => self.destroy(
                alloc, history, atoms, front, engine, &queue,
            ),
            Visit::CollectAtoms => self.collection(history, atoms, front, engine),
            Visit::CollectClauses => self.collection(history, atoms, front, engine),
        }
    }

    // A thread begins.
    fn create(
        &mut self,
        alloc: Global,
        history: &History,
        atoms: &mut TableAtoms<K>,
        front: &mut Front,
        engine: u64,
        goal: CountedTerm,
        aliases: Vec<Atom>,
        error: Option<CountedTerm>,
    ) -> Answer<Stored>
        requires history { history.now ≡ K.history }
        requires front { IsOwn K.history engine front.old }
        requires held { All (λ a. IsSome (names (seen atoms.old.seat) a)) (visit_names names_of key_atoms (CreateThread goal aliases error)) }
        ensures { IsVisit K.history K.goals engine (seen atoms.old.seat) (seen atoms.new.seat) (CreateThread goal aliases error) result front.old front.new self.old self.new }
    {
        let error = uncounted(error);
        self.create_thread(alloc, history, atoms, front, engine, goal, aliases, error)
    }

    // A thread is joined.
    fn join(
        &mut self,
        alloc: Global,
        history: &History,
        atoms: &mut TableAtoms<K>,
        front: &mut Front,
        engine: u64,
        thread: &CountedTerm,
    ) -> Answer<Stored>
        requires history { history.now ≡ K.history }
        requires front { IsOwn K.history engine front.old }
        requires held { All (λ a. IsSome (names (seen atoms.old.seat) a)) (visit_names names_of key_atoms (JoinThread thread.now)) }
        ensures { IsVisit K.history K.goals engine (seen atoms.old.seat) (seen atoms.new.seat) (JoinThread thread.now) result front.old front.new self.old self.new }
    {
        self.join_thread(alloc, history, atoms, front, engine, thread.term())
    }

    // A message is sent.
    fn send(
        &mut self,
        alloc: Global,
        history: &History,
        atoms: &mut TableAtoms<K>,
        front: &mut Front,
        engine: u64,
        queue: &CountedTerm,
        message: CountedTerm,
    ) -> Answer<Stored>
        requires history { history.now ≡ K.history }
        requires front { IsOwn K.history engine front.old }
        requires held { All (λ a. IsSome (names (seen atoms.old.seat) a)) (visit_names names_of key_atoms (SendMessage queue.now message)) }
        ensures { IsVisit K.history K.goals engine (seen atoms.old.seat) (seen atoms.new.seat) (SendMessage queue.now message) result front.old front.new self.old self.new }
    {
        self.send_message(alloc, history, atoms, front, engine, queue.term(), message)
    }

    // A queue is destroyed.
    fn destroy(
        &mut self,
        alloc: Global,
        history: &History,
        atoms: &mut TableAtoms<K>,
        front: &mut Front,
        engine: u64,
        queue: &CountedTerm,
    ) -> Answer<Stored>
        requires history { history.now ≡ K.history }
        requires front { IsOwn K.history engine front.old }
        requires held { All (λ a. IsSome (names (seen atoms.old.seat) a)) (visit_names names_of key_atoms (DestroyQueue queue.now)) }
        ensures { IsVisit K.history K.goals engine (seen atoms.old.seat) (seen atoms.new.seat) (DestroyQueue queue.now) result front.old front.new self.old self.new }
    {
        self.destroy_queue(alloc, history, atoms, front, engine, queue.term())
    }

    // A message is taken of the queue that is named.
    fn get_from(
        &mut self,
        alloc: Global,
        history: &History,
        atoms: &mut TableAtoms<K>,
        front: &mut Front,
        engine: u64,
        queue: &CountedTerm,
        pattern: &CountedTerm,
    ) -> Answer<Stored>
        requires history { history.now ≡ K.history }
        requires front { IsOwn K.history engine front.old }
        requires held { All (λ a. IsSome (names (seen atoms.old.seat) a)) (visit_names names_of key_atoms (GetMessage (Some queue.now) pattern.now)) }
        ensures { IsVisit K.history K.goals engine (seen atoms.old.seat) (seen atoms.new.seat) (GetMessage (Some queue.now) pattern.now) result front.old front.new self.old self.new }
    {
        self.get_message(alloc, history, atoms, front, engine, queue.term(), pattern)
    }

    // A message is taken.
    fn get(
        &mut self,
        alloc: Global,
        history: &History,
        atoms: &mut TableAtoms<K>,
        front: &mut Front,
        engine: u64,
        queue: Option<CountedTerm>,
        pattern: CountedTerm,
    ) -> Answer<Stored>
        requires history { history.now ≡ K.history }
        requires front { IsOwn K.history engine front.old }
        requires held { All (λ a. IsSome (names (seen atoms.old.seat) a)) (visit_names names_of key_atoms (GetMessage queue pattern)) }
        ensures { IsVisit K.history K.goals engine (seen atoms.old.seat) (seen atoms.new.seat) (GetMessage queue pattern) result front.old front.new self.old self.new }
    {
        match queue {
            None => self.get_own_message(alloc, history, atoms, front, engine, &pattern),
            Some(queue) => self.get_from(alloc, history, atoms, front, engine, &queue, &pattern),
        }
    }

    // A message is looked at of the queue that is named.
    fn peek_from(
        &mut self,
        alloc: Global,
        history: &History,
        atoms: &mut TableAtoms<K>,
        front: &mut Front,
        engine: u64,
        queue: &CountedTerm,
        pattern: &CountedTerm,
    ) -> Answer<Stored>
        requires history { history.now ≡ K.history }
        requires front { IsOwn K.history engine front.old }
        requires held { All (λ a. IsSome (names (seen atoms.old.seat) a)) (visit_names names_of key_atoms (PeekMessage (Some queue.now) pattern.now)) }
        ensures { IsVisit K.history K.goals engine (seen atoms.old.seat) (seen atoms.new.seat) (PeekMessage (Some queue.now) pattern.now) result front.old front.new self.old self.new }
    {
        self.peek_message(alloc, history, atoms, front, engine, queue.term(), pattern)
    }

    // A message is looked at.
    fn peek(
        &mut self,
        alloc: Global,
        history: &History,
        atoms: &mut TableAtoms<K>,
        front: &mut Front,
        engine: u64,
        queue: Option<CountedTerm>,
        pattern: CountedTerm,
    ) -> Answer<Stored>
        requires history { history.now ≡ K.history }
        requires front { IsOwn K.history engine front.old }
        requires held { All (λ a. IsSome (names (seen atoms.old.seat) a)) (visit_names names_of key_atoms (PeekMessage queue pattern)) }
        ensures { IsVisit K.history K.goals engine (seen atoms.old.seat) (seen atoms.new.seat) (PeekMessage queue pattern) result front.old front.new self.old self.new }
    {
        match queue {
            None => self.peek_own_message(alloc, history, atoms, front, engine, &pattern),
            Some(queue) => self.peek_from(alloc, history, atoms, front, engine, &queue, &pattern),
        }
    }
}

// The term alone.
fn uncounted(error: Option<CountedTerm>) -> Option<Stored>
    ensures { result ≡ error }
{
    match error {
        None => None,
        Some(error) => Some(error.into_term()),
    }
}
