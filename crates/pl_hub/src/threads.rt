//! Visits to queues and threads.
ghost use Rattle.std.specs.Prelude.{◌≡◌, None, Some, IsSome, map, option_map};
ghost use Rattle.std.specs.List.{All};
ghost use Rattle.pl_model.specs.Requests as requests;
ghost use Rattle.atom_words.specs.Seats.{seen};
ghost use Rattle.atom_table.specs.Naming.{names};
ghost use Rattle.term_store.specs.ArgumentKeys.{key_atoms};
ghost use Rattle.term_store.specs.NumberedNames.{names_of};
ghost use Rattle.world_api.specs.Texts.{text_of};
ghost use Rattle.world_api.specs.Visits.{visit_names};
ghost use Rattle.world_api.specs.declared.visit.Visit.TheVariants.{CreateQueue, CreateThread, DestroyQueue, GetMessage, JoinThread, OwnName, PeekMessage, SendMessage, StartGoal};
ghost use Rattle.counted_terms.specs.CountedTerms.{said};
ghost use Rattle.pl_hub.specs.Fronts.{IsOwn};
ghost use Rattle.pl_hub.specs.Settling.{kind_of};
ghost use Rattle.pl_hub.specs.Visits.{IsVisit};

use crate::naming::Naming;
use crate::settling::{Updates, settle};
use crate::shared::Shared;
use atom_api::Atom;
use atom_table::TableAtoms;
use counted_terms::{CountedTerm, int_term};
use pl_history::{Front, History};
use pl_term::Memory;
use std::alloc::Global;
use std::marker::Brand;
use term_store::Stored;
use world_api::Answer;

impl<K: Naming> Shared<K> {
    /// message_queue_create/1, by the front's own engine, which has this number and runs.
    pub fn create_queue(
        &mut self,
        alloc: Global,
        history: &History,
        atoms: &mut TableAtoms<K>,
        front: &mut Front,
        engine: u64,
        alias: Option<Atom>,
    ) -> Answer<Stored>
        requires history { history.now ≡ K.history }
        requires front { IsOwn K.history engine front.old }
        requires held { All (λ a. IsSome (names (seen atoms.old.seat) a)) (visit_names names_of key_atoms (CreateQueue alias)) }
        ensures { IsVisit K.history K.goals engine (seen atoms.old.seat) (seen atoms.new.seat) (CreateQueue alias) result front.old front.new self.old self.new }
    {
        self.create_queue_by::<Brand>(alloc, history, atoms, front, engine, alias)
    }

    // The same, with the update picked.
    fn create_queue_by<N: Updates>(
        &mut self,
        alloc: Global,
        history: &History,
        atoms: &mut TableAtoms<K>,
        front: &mut Front,
        engine: u64,
        alias: Option<Atom>,
    ) -> Answer<Stored>
        requires kind { N.kind ≡ kind_of engine K.goals self.old.seen (requests.create_queue (option_map (text_of (names (seen atoms.old.seat))) alias)) }
        requires history { history.now ≡ K.history }
        requires front { IsOwn K.history engine front.old }
        requires held { All (λ a. IsSome (names (seen atoms.old.seat) a)) (visit_names names_of key_atoms (CreateQueue alias)) }
        ensures { IsVisit K.history K.goals engine (seen atoms.old.seat) (seen atoms.new.seat) (CreateQueue alias) result front.old front.new self.old self.new }
    {
        let generation = self.front.generation();
        let row = hub_threads::create_queue(
            alloc,
            &mut self.queues,
            &mut self.count,
            atoms,
            generation,
            alias,
        );
        settle::<N>(history, &mut self.front, front, engine, row)
    }

    /// thread_send_message/2.
    pub fn send_message(
        &mut self,
        alloc: Global,
        history: &History,
        atoms: &mut TableAtoms<K>,
        front: &mut Front,
        engine: u64,
        queue: &Stored,
        message: CountedTerm,
    ) -> Answer<Stored>
        requires history { history.now ≡ K.history }
        requires front { IsOwn K.history engine front.old }
        requires held { All (λ a. IsSome (names (seen atoms.old.seat) a)) (visit_names names_of key_atoms (SendMessage queue.now message)) }
        ensures { IsVisit K.history K.goals engine (seen atoms.old.seat) (seen atoms.new.seat) (SendMessage queue.now message) result front.old front.new self.old self.new }
    {
        self.send_message_by::<Brand>(alloc, history, atoms, front, engine, queue, message)
    }

    // The same, with the update picked.
    fn send_message_by<N: Updates>(
        &mut self,
        alloc: Global,
        history: &History,
        atoms: &mut TableAtoms<K>,
        front: &mut Front,
        engine: u64,
        queue: &Stored,
        message: CountedTerm,
    ) -> Answer<Stored>
        requires kind { N.kind ≡ kind_of engine K.goals self.old.seen (requests.send_message (said (names (seen atoms.old.seat)) queue.now) (said (names (seen atoms.old.seat)) message)) }
        requires history { history.now ≡ K.history }
        requires front { IsOwn K.history engine front.old }
        requires held { All (λ a. IsSome (names (seen atoms.old.seat) a)) (visit_names names_of key_atoms (SendMessage queue.now message)) }
        ensures { IsVisit K.history K.goals engine (seen atoms.old.seat) (seen atoms.new.seat) (SendMessage queue.now message) result front.old front.new self.old self.new }
    {
        let generation = self.front.generation();
        let row = hub_threads::send_message(
            alloc,
            &mut self.queues,
            atoms,
            &mut self.keeper,
            generation,
            queue,
            message,
        );
        settle::<N>(history, &mut self.front, front, engine, row)
    }

    /// thread_get_message/2: the engine waits where no message of the queue unifies with the pattern.
    pub fn get_message(
        &mut self,
        alloc: Global,
        history: &History,
        atoms: &mut TableAtoms<K>,
        front: &mut Front,
        engine: u64,
        queue: &Stored,
        pattern: &CountedTerm,
    ) -> Answer<Stored>
        requires history { history.now ≡ K.history }
        requires front { IsOwn K.history engine front.old }
        requires held { All (λ a. IsSome (names (seen atoms.old.seat) a)) (visit_names names_of key_atoms (GetMessage (Some queue.now) pattern.now)) }
        ensures { IsVisit K.history K.goals engine (seen atoms.old.seat) (seen atoms.new.seat) (GetMessage (Some queue.now) pattern.now) result front.old front.new self.old self.new }
    {
        self.get_message_by::<Brand>(alloc, history, atoms, front, engine, queue, pattern)
    }

    // The same, with the update picked.
    fn get_message_by<N: Updates>(
        &mut self,
        alloc: Global,
        history: &History,
        atoms: &mut TableAtoms<K>,
        front: &mut Front,
        engine: u64,
        queue: &Stored,
        pattern: &CountedTerm,
    ) -> Answer<Stored>
        requires kind { N.kind ≡ kind_of engine K.goals self.old.seen (requests.get_message (Some (said (names (seen atoms.old.seat)) queue.now)) (said (names (seen atoms.old.seat)) pattern.now)) }
        requires history { history.now ≡ K.history }
        requires front { IsOwn K.history engine front.old }
        requires held { All (λ a. IsSome (names (seen atoms.old.seat) a)) (visit_names names_of key_atoms (GetMessage (Some queue.now) pattern.now)) }
        ensures { IsVisit K.history K.goals engine (seen atoms.old.seat) (seen atoms.new.seat) (GetMessage (Some queue.now) pattern.now) result front.old front.new self.old self.new }
    {
        let generation = self.front.generation();
        let row = hub_threads::get_message(
            alloc,
            &mut self.queues,
            atoms,
            &mut self.keeper,
            generation,
            queue,
            pattern,
        );
        settle::<N>(history, &mut self.front, front, engine, row)
    }

    /// thread_peek_message/2.
    pub fn peek_message(
        &mut self,
        alloc: Global,
        history: &History,
        atoms: &mut TableAtoms<K>,
        front: &mut Front,
        engine: u64,
        queue: &Stored,
        pattern: &CountedTerm,
    ) -> Answer<Stored>
        requires history { history.now ≡ K.history }
        requires front { IsOwn K.history engine front.old }
        requires held { All (λ a. IsSome (names (seen atoms.old.seat) a)) (visit_names names_of key_atoms (PeekMessage (Some queue.now) pattern.now)) }
        ensures { IsVisit K.history K.goals engine (seen atoms.old.seat) (seen atoms.new.seat) (PeekMessage (Some queue.now) pattern.now) result front.old front.new self.old self.new }
    {
        let row = hub_threads::peek_message(
            alloc,
            &self.queues,
            atoms,
            &mut self.keeper,
            queue,
            pattern,
        );
        settle::<Brand>(history, &mut self.front, front, engine, row)
    }

    /// message_queue_destroy/1.
    pub fn destroy_queue(
        &mut self,
        alloc: Global,
        history: &History,
        atoms: &mut TableAtoms<K>,
        front: &mut Front,
        engine: u64,
        queue: &Stored,
    ) -> Answer<Stored>
        requires history { history.now ≡ K.history }
        requires front { IsOwn K.history engine front.old }
        requires held { All (λ a. IsSome (names (seen atoms.old.seat) a)) (visit_names names_of key_atoms (DestroyQueue queue.now)) }
        ensures { IsVisit K.history K.goals engine (seen atoms.old.seat) (seen atoms.new.seat) (DestroyQueue queue.now) result front.old front.new self.old self.new }
    {
        self.destroy_queue_by::<Brand>(alloc, history, atoms, front, engine, queue)
    }

    // The same, with the update picked.
    fn destroy_queue_by<N: Updates>(
        &mut self,
        alloc: Global,
        history: &History,
        atoms: &mut TableAtoms<K>,
        front: &mut Front,
        engine: u64,
        queue: &Stored,
    ) -> Answer<Stored>
        requires kind { N.kind ≡ kind_of engine K.goals self.old.seen (requests.destroy_queue (said (names (seen atoms.old.seat)) queue.now)) }
        requires history { history.now ≡ K.history }
        requires front { IsOwn K.history engine front.old }
        requires held { All (λ a. IsSome (names (seen atoms.old.seat) a)) (visit_names names_of key_atoms (DestroyQueue queue.now)) }
        ensures { IsVisit K.history K.goals engine (seen atoms.old.seat) (seen atoms.new.seat) (DestroyQueue queue.now) result front.old front.new self.old self.new }
    {
        let generation = self.front.generation();
        let row = hub_threads::destroy_queue(
            alloc,
            &mut self.queues,
            atoms,
            &mut self.keeper,
            generation,
            queue,
        );
        settle::<N>(history, &mut self.front, front, engine, row)
    }

    /// thread_join/2: the engine waits where the thread has not ended.
    pub fn join_thread(
        &mut self,
        alloc: Global,
        history: &History,
        atoms: &mut TableAtoms<K>,
        front: &mut Front,
        engine: u64,
        thread: &Stored,
    ) -> Answer<Stored>
        requires history { history.now ≡ K.history }
        requires front { IsOwn K.history engine front.old }
        requires held { All (λ a. IsSome (names (seen atoms.old.seat) a)) (visit_names names_of key_atoms (JoinThread thread.now)) }
        ensures { IsVisit K.history K.goals engine (seen atoms.old.seat) (seen atoms.new.seat) (JoinThread thread.now) result front.old front.new self.old self.new }
    {
        self.join_thread_by::<Brand>(alloc, history, atoms, front, engine, thread)
    }

    // The same, with the update picked.
    fn join_thread_by<N: Updates>(
        &mut self,
        alloc: Global,
        history: &History,
        atoms: &mut TableAtoms<K>,
        front: &mut Front,
        engine: u64,
        thread: &Stored,
    ) -> Answer<Stored>
        requires kind { N.kind ≡ kind_of engine K.goals self.old.seen (requests.join_thread (said (names (seen atoms.old.seat)) thread.now)) }
        requires history { history.now ≡ K.history }
        requires front { IsOwn K.history engine front.old }
        requires held { All (λ a. IsSome (names (seen atoms.old.seat) a)) (visit_names names_of key_atoms (JoinThread thread.now)) }
        ensures { IsVisit K.history K.goals engine (seen atoms.old.seat) (seen atoms.new.seat) (JoinThread thread.now) result front.old front.new self.old self.new }
    {
        let generation = self.front.generation();
        let row = hub_threads::join_thread(
            alloc,
            &mut self.queues,
            atoms,
            &mut self.keeper,
            generation,
            engine,
            thread,
        );
        settle::<N>(history, &mut self.front, front, engine, row)
    }

    /// thread_self/1: the alias of the engine, or its number.
    pub fn own_name(
        &mut self,
        history: &History,
        atoms: &mut TableAtoms<K>,
        front: &mut Front,
        engine: u64,
    ) -> Answer<Stored>
        requires history { history.now ≡ K.history }
        requires front { IsOwn K.history engine front.old }
        ensures { IsVisit K.history K.goals engine (seen atoms.old.seat) (seen atoms.new.seat) OwnName result front.old front.new self.old self.new }
    {
        history.tell(&mut self.front, front);
        let row = hub_threads::own_name(&self.queues, atoms, engine);
        settle::<Brand>(history, &mut self.front, front, engine, row)
    }

    /// thread_create/2,3: the aliases of its options up to the first one that is wrong, and the error of that one.
    pub fn create_thread(
        &mut self,
        alloc: Global,
        history: &History,
        atoms: &mut TableAtoms<K>,
        front: &mut Front,
        engine: u64,
        goal: CountedTerm,
        aliases: Vec<Atom>,
        error: Option<Stored>,
    ) -> Answer<Stored>
        requires history { history.now ≡ K.history }
        requires front { IsOwn K.history engine front.old }
        requires held { All (λ a. IsSome (names (seen atoms.old.seat) a)) (visit_names names_of key_atoms (CreateThread goal aliases error)) }
        ensures { IsVisit K.history K.goals engine (seen atoms.old.seat) (seen atoms.new.seat) (CreateThread goal aliases error) result front.old front.new self.old self.new }
    {
        self.create_thread_by::<Brand>(alloc, history, atoms, front, engine, goal, aliases, error)
    }

    // The same, with the update picked.
    fn create_thread_by<N: Updates>(
        &mut self,
        alloc: Global,
        history: &History,
        atoms: &mut TableAtoms<K>,
        front: &mut Front,
        engine: u64,
        goal: CountedTerm,
        aliases: Vec<Atom>,
        error: Option<Stored>,
    ) -> Answer<Stored>
        requires kind { N.kind ≡ kind_of engine K.goals self.old.seen (requests.create_thread (said (names (seen atoms.old.seat)) goal) (map (text_of (names (seen atoms.old.seat))) aliases.items) (option_map (said (names (seen atoms.old.seat))) error)) }
        requires history { history.now ≡ K.history }
        requires front { IsOwn K.history engine front.old }
        requires held { All (λ a. IsSome (names (seen atoms.old.seat) a)) (visit_names names_of key_atoms (CreateThread goal aliases error)) }
        ensures { IsVisit K.history K.goals engine (seen atoms.old.seat) (seen atoms.new.seat) (CreateThread goal aliases error) result front.old front.new self.old self.new }
    {
        let generation = self.front.generation();
        let row = hub_threads::create_thread(
            alloc,
            &mut self.queues,
            &mut self.count,
            &mut self.begun,
            atoms,
            &mut self.keeper,
            generation,
            goal,
            aliases.as_slice(),
            error,
        );
        settle::<N>(history, &mut self.front, front, engine, row)
    }

    /// thread_get_message/1: the queue is the engine's own.
    pub fn get_own_message(
        &mut self,
        alloc: Global,
        history: &History,
        atoms: &mut TableAtoms<K>,
        front: &mut Front,
        engine: u64,
        pattern: &CountedTerm,
    ) -> Answer<Stored>
        requires history { history.now ≡ K.history }
        requires front { IsOwn K.history engine front.old }
        requires held { All (λ a. IsSome (names (seen atoms.old.seat) a)) (visit_names names_of key_atoms (GetMessage None pattern.now)) }
        ensures { IsVisit K.history K.goals engine (seen atoms.old.seat) (seen atoms.new.seat) (GetMessage None pattern.now) result front.old front.new self.old self.new }
    {
        match int_term(alloc, engine) {
            Err(Memory) => Answer::Memory,
            Ok(queue) => self.get_message(alloc, history, atoms, front, engine, &queue, pattern),
        }
    }

    /// thread_peek_message/1: the queue is the engine's own.
    pub fn peek_own_message(
        &mut self,
        alloc: Global,
        history: &History,
        atoms: &mut TableAtoms<K>,
        front: &mut Front,
        engine: u64,
        pattern: &CountedTerm,
    ) -> Answer<Stored>
        requires history { history.now ≡ K.history }
        requires front { IsOwn K.history engine front.old }
        requires held { All (λ a. IsSome (names (seen atoms.old.seat) a)) (visit_names names_of key_atoms (PeekMessage None pattern.now)) }
        ensures { IsVisit K.history K.goals engine (seen atoms.old.seat) (seen atoms.new.seat) (PeekMessage None pattern.now) result front.old front.new self.old self.new }
    {
        match int_term(alloc, engine) {
            Err(Memory) => Answer::Memory,
            Ok(queue) => self.peek_message(alloc, history, atoms, front, engine, &queue, pattern),
        }
    }

    /// The goal of the command with this number begins as an engine of its own.
    pub fn start_goal(
        &mut self,
        alloc: Global,
        history: &History,
        atoms: &mut TableAtoms<K>,
        front: &mut Front,
        engine: u64,
        number: u64,
        goal: CountedTerm,
    ) -> Answer<Stored>
        requires history { history.now ≡ K.history }
        requires front { IsOwn K.history engine front.old }
        requires held { All (λ a. IsSome (names (seen atoms.old.seat) a)) (visit_names names_of key_atoms (StartGoal number goal)) }
        ensures { IsVisit K.history K.goals engine (seen atoms.old.seat) (seen atoms.new.seat) (StartGoal number goal) result front.old front.new self.old self.new }
    {
        self.start_goal_by::<Brand>(alloc, history, atoms, front, engine, number, goal)
    }

    // The same, with the update picked.
    fn start_goal_by<N: Updates>(
        &mut self,
        alloc: Global,
        history: &History,
        atoms: &mut TableAtoms<K>,
        front: &mut Front,
        engine: u64,
        number: u64,
        goal: CountedTerm,
    ) -> Answer<Stored>
        requires kind { N.kind ≡ kind_of engine K.goals self.old.seen (requests.start_goal number (said (names (seen atoms.old.seat)) goal)) }
        requires history { history.now ≡ K.history }
        requires front { IsOwn K.history engine front.old }
        requires held { All (λ a. IsSome (names (seen atoms.old.seat) a)) (visit_names names_of key_atoms (StartGoal number goal)) }
        ensures { IsVisit K.history K.goals engine (seen atoms.old.seat) (seen atoms.new.seat) (StartGoal number goal) result front.old front.new self.old self.new }
    {
        let generation = history.tell(&mut self.front, front);
        let last = self.goals;
        let row = hub_threads::start_goal(
            alloc,
            &mut self.queues,
            &mut self.count,
            &mut self.begun,
            atoms,
            &mut self.keeper,
            generation,
            number,
            last,
            goal,
        );
        settle::<N>(history, &mut self.front, front, engine, row)
    }
}
