//! Visits to the clauses for goals.
ghost use Rattle.std.specs.Prelude.{◌≡◌, ◌∷◌, [], IsSome};
ghost use Rattle.std.specs.List.{All};
ghost use Rattle.pl_model.specs.History as entries;
ghost use Rattle.atom_words.specs.Seats.{seen};
ghost use Rattle.atom_table.specs.Naming.{names};
ghost use Rattle.term_store.specs.ArgumentKeys.{clause_key, key_atoms};
ghost use Rattle.term_store.specs.NumberedNames.{names_of, term_by};
ghost use Rattle.world_api.specs.Answers.{IsPlace};
ghost use Rattle.world_api.specs.Texts.{text_of};
ghost use Rattle.world_api.specs.Visits.{proc_named, visit_names};
ghost use Rattle.world_api.specs.declared.visit.Visit.TheVariants.{Call, Clear, Inspect, Next, Retract};
ghost use Rattle.pl_hub.specs.Fronts.{IsOwn, told_of};
ghost use Rattle.pl_hub.specs.Visits.{IsVisit};

use crate::naming::Naming;
use crate::settling::{Updates, settle, settle_next};
use crate::shared::Shared;
use atom_table::TableAtoms;
use pl_history::{Front, History};
use std::alloc::Global;
use std::marker::Brand;
use term_store::{ArgumentKey, Stored};
use world_api::{Answer, Procedure};

impl<K: Naming> Shared<K> {
    /// The first of the clauses for a goal (ISO 7.7.10).
    pub fn call_clauses(
        &mut self,
        alloc: Global,
        history: &History,
        atoms: &mut TableAtoms<K>,
        front: &mut Front,
        engine: u64,
        procedure: Procedure,
        first: ArgumentKey,
    ) -> Answer<Stored>
        requires history { history.now ≡ K.history }
        requires front { IsOwn K.history engine front.old }
        requires held { All (λ a. IsSome (names (seen atoms.old.seat) a)) (visit_names names_of key_atoms (Call procedure first)) }
        ensures { IsVisit K.history K.goals engine (seen atoms.old.seat) (seen atoms.new.seat) (Call procedure first) result front.old front.new self.old self.new }
    {
        self.queues.is_sound();
        let generation = self.front.generation();
        let row = hub_database::call_clauses(
            alloc,
            &self.db,
            &mut self.hints,
            atoms,
            &mut self.keeper,
            &procedure,
            &first,
            generation,
        );
        settle::<Brand>(history, &mut self.front, front, engine, row)
    }

    /// The first of the clauses that clause/2 looks through (ISO 8.8.1).
    pub fn inspect_clauses(
        &mut self,
        alloc: Global,
        history: &History,
        atoms: &mut TableAtoms<K>,
        front: &mut Front,
        engine: u64,
        procedure: Procedure,
        first: ArgumentKey,
    ) -> Answer<Stored>
        requires history { history.now ≡ K.history }
        requires front { IsOwn K.history engine front.old }
        requires held { All (λ a. IsSome (names (seen atoms.old.seat) a)) (visit_names names_of key_atoms (Inspect procedure first)) }
        ensures { IsVisit K.history K.goals engine (seen atoms.old.seat) (seen atoms.new.seat) (Inspect procedure first) result front.old front.new self.old self.new }
    {
        self.queues.is_sound();
        let generation = self.front.generation();
        let row = hub_database::inspect_clauses(
            alloc,
            &self.db,
            &mut self.hints,
            atoms,
            &mut self.keeper,
            &procedure,
            &first,
            generation,
        );
        settle::<Brand>(history, &mut self.front, front, engine, row)
    }

    /// The first of the clauses that retract/1 looks through (ISO 8.9.3).
    pub fn retract_clauses(
        &mut self,
        alloc: Global,
        history: &History,
        atoms: &mut TableAtoms<K>,
        front: &mut Front,
        engine: u64,
        procedure: Procedure,
        first: ArgumentKey,
    ) -> Answer<Stored>
        requires history { history.now ≡ K.history }
        requires front { IsOwn K.history engine front.old }
        requires held { All (λ a. IsSome (names (seen atoms.old.seat) a)) (visit_names names_of key_atoms (Retract procedure first)) }
        ensures { IsVisit K.history K.goals engine (seen atoms.old.seat) (seen atoms.new.seat) (Retract procedure first) result front.old front.new self.old self.new }
    {
        self.queues.is_sound();
        let generation = self.front.generation();
        let row = hub_database::retract_clauses(
            alloc,
            &self.db,
            &mut self.hints,
            atoms,
            &mut self.keeper,
            &procedure,
            &first,
            generation,
        );
        settle::<Brand>(history, &mut self.front, front, engine, row)
    }

    /// The first of the clauses that retractall/1 looks through; a procedure that is not there is made dynamic (ISO Cor.2 8.9.5).
    pub fn clear_clauses(
        &mut self,
        alloc: Global,
        history: &History,
        atoms: &mut TableAtoms<K>,
        front: &mut Front,
        engine: u64,
        procedure: Procedure,
        first: ArgumentKey,
    ) -> Answer<Stored>
        requires history { history.now ≡ K.history }
        requires front { IsOwn K.history engine front.old }
        requires held { All (λ a. IsSome (names (seen atoms.old.seat) a)) (visit_names names_of key_atoms (Clear procedure first)) }
        ensures { IsVisit K.history K.goals engine (seen atoms.old.seat) (seen atoms.new.seat) (Clear procedure first) result front.old front.new self.old self.new }
    {
        self.clear_clauses_by::<Brand>(alloc, history, atoms, front, engine, procedure, first)
    }

    // The same, with the update picked.
    fn clear_clauses_by<N: Updates>(
        &mut self,
        alloc: Global,
        history: &History,
        atoms: &mut TableAtoms<K>,
        front: &mut Front,
        engine: u64,
        procedure: Procedure,
        first: ArgumentKey,
    ) -> Answer<Stored>
        requires kind { N.kind ≡ entries.set_dynamic (proc_named (text_of (names (seen atoms.old.seat))) procedure ∷ []) }
        requires history { history.now ≡ K.history }
        requires front { IsOwn K.history engine front.old }
        requires held { All (λ a. IsSome (names (seen atoms.old.seat) a)) (visit_names names_of key_atoms (Clear procedure first)) }
        ensures { IsVisit K.history K.goals engine (seen atoms.old.seat) (seen atoms.new.seat) (Clear procedure first) result front.old front.new self.old self.new }
    {
        self.queues.is_sound();
        let generation = self.front.generation();
        let row = hub_database::clear_clauses(
            alloc,
            &mut self.db,
            &mut self.hints,
            atoms,
            &mut self.keeper,
            &procedure,
            &first,
            generation,
        );
        settle::<N>(history, &mut self.front, front, engine, row)
    }

    /// The next clause of the list of a goal of this procedure, whose first argument has the key: after the clause that was
    /// added at the place, at the generation of the visit that asked for the first.
    pub fn next_clause(
        &mut self,
        history: &History,
        atoms: &mut TableAtoms<K>,
        front: &mut Front,
        engine: u64,
        procedure: Procedure,
        first: ArgumentKey,
        generation: u64,
        place: u64,
    ) -> Answer<Stored>
        requires history { history.now ≡ K.history }
        requires front { IsOwn K.history engine front.old }
        requires held { All (λ a. IsSome (names (seen atoms.old.seat) a)) (visit_names names_of key_atoms (Next procedure first generation place)) }
        requires next { IsPlace term_by clause_key (text_of (names (seen atoms.old.seat))) procedure first generation place (told_of K.goals front.old) }
        ensures { IsVisit K.history K.goals engine (seen atoms.old.seat) (seen atoms.new.seat) (Next procedure first generation place) result front.old front.new self.old self.new }
    {
        let _engine = engine;
        self.queues.is_sound();
        let found = hub_database::next_clause(
            &self.db,
            atoms,
            &mut self.keeper,
            place,
            &first,
            generation,
        );
        settle_next(history, &mut self.front, front, found, generation)
    }
}
