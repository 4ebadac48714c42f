//! Visits to clauses, operators and flags.
ghost use Rattle.std.specs.Prelude.{◌≡◌, IsSome, map};
ghost use Rattle.std.specs.List.{All};
ghost use Rattle.pl_model.specs.History as entries;
ghost use Rattle.pl_model.specs.Predicates.{proc_of};
ghost use Rattle.atom_words.specs.Seats.{seen};
ghost use Rattle.atom_table.specs.Naming.{names};
ghost use Rattle.term_store.specs.ArgumentKeys.{key_atoms};
ghost use Rattle.term_store.specs.NumberedNames.{names_of};
ghost use Rattle.world_api.specs.Texts.{text_of};
ghost use Rattle.world_api.specs.Visits.{clause_in, proc_named, visit_names};
ghost use Rattle.world_api.specs.declared.visit.Visit.TheVariants.{Abolish, AllFlags, AllOperators, AllProcedures, CollectAtoms, CollectClauses, Erase, Look, MakeDynamic, PutFlag, PutOperators, ReadOperators};
ghost use Rattle.counted_terms.specs.CountedTerms.{said};
ghost use Rattle.hub_database.specs.Adding.{adding_kind};
ghost use Rattle.hub_database.specs.Operators.{operators_put};
ghost use Rattle.pl_hub.specs.Adding.{adding_visit};
ghost use Rattle.pl_hub.specs.Fronts.{IsOwn};
ghost use Rattle.pl_hub.specs.Visits.{IsVisit};

use crate::naming::Naming;
use crate::settling::{Updates, settle};
use crate::shared::Shared;
use atom_api::Atom;
use atom_table::TableAtoms;
use counted_terms::CountedTerm;
use hub_database::Adding;
use pl_history::{Front, History};
use pl_model::operators::Kind;
use std::alloc::Global;
use std::marker::Brand;
use term_store::Stored;
use world_api::{Answer, Procedure};

impl<K: Naming> Shared<K> {
    /// The operators and the flag `double_quotes`, by the front's own engine, which has this number and runs.
    pub fn look(
        &mut self,
        history: &History,
        atoms: &TableAtoms<K>,
        front: &mut Front,
        engine: u64,
    ) -> Answer<Stored>
        requires history { history.now ≡ K.history }
        requires front { IsOwn K.history engine front.old }
        ensures look { IsVisit K.history K.goals engine (seen atoms.now.seat) (seen atoms.now.seat) Look result front.old front.new self.old self.new }
        ensures operators { IsVisit K.history K.goals engine (seen atoms.now.seat) (seen atoms.now.seat) ReadOperators result front.old front.new self.old self.new }
    {
        let _atoms = atoms;
        let row = hub_database::look(&self.db);
        settle::<Brand>(history, &mut self.front, front, engine, row)
    }

    /// garbage_collect_atoms/0 and garbage_collect_clauses/0, which change nothing that is answered.
    pub fn collection(
        &mut self,
        history: &History,
        atoms: &TableAtoms<K>,
        front: &mut Front,
        engine: u64,
    ) -> Answer<Stored>
        requires history { history.now ≡ K.history }
        requires front { IsOwn K.history engine front.old }
        ensures atoms { IsVisit K.history K.goals engine (seen atoms.now.seat) (seen atoms.now.seat) CollectAtoms result front.old front.new self.old self.new }
        ensures clauses { IsVisit K.history K.goals engine (seen atoms.now.seat) (seen atoms.now.seat) CollectClauses result front.old front.new self.old self.new }
    {
        let _atoms = atoms;
        let row = hub_database::collection();
        settle::<Brand>(history, &mut self.front, front, engine, row)
    }

    /// The clause that was added at the place is erased (ISO 8.9.3).
    pub fn erase_clause(
        &mut self,
        alloc: Global,
        history: &History,
        atoms: &mut TableAtoms<K>,
        front: &mut Front,
        engine: u64,
        place: u64,
    ) -> Answer<Stored>
        requires history { history.now ≡ K.history }
        requires front { IsOwn K.history engine front.old }
        requires held { All (λ a. IsSome (names (seen atoms.old.seat) a)) (visit_names names_of key_atoms (Erase place)) }
        ensures { IsVisit K.history K.goals engine (seen atoms.old.seat) (seen atoms.new.seat) (Erase place) result front.old front.new self.old self.new }
    {
        self.erase_clause_by::<Brand>(alloc, history, atoms, front, engine, place)
    }

    // The same, with the update picked.
    fn erase_clause_by<N: Updates>(
        &mut self,
        alloc: Global,
        history: &History,
        atoms: &mut TableAtoms<K>,
        front: &mut Front,
        engine: u64,
        place: u64,
    ) -> Answer<Stored>
        requires kind { N.kind ≡ entries.erase place }
        requires history { history.now ≡ K.history }
        requires front { IsOwn K.history engine front.old }
        requires held { All (λ a. IsSome (names (seen atoms.old.seat) a)) (visit_names names_of key_atoms (Erase place)) }
        ensures { IsVisit K.history K.goals engine (seen atoms.old.seat) (seen atoms.new.seat) (Erase place) result front.old front.new self.old self.new }
    {
        self.queues.is_sound();
        let generation = self.front.generation();
        let row = hub_database::erase_clause(
            alloc,
            &mut self.db,
            atoms,
            &mut self.keeper,
            place,
            generation,
        );
        settle::<N>(history, &mut self.front, front, engine, row)
    }

    /// abolish/1 (ISO 8.9.4).
    pub fn abolish_procedure(
        &mut self,
        alloc: Global,
        history: &History,
        atoms: &mut TableAtoms<K>,
        front: &mut Front,
        engine: u64,
        procedure: Procedure,
    ) -> Answer<Stored>
        requires history { history.now ≡ K.history }
        requires front { IsOwn K.history engine front.old }
        requires held { All (λ a. IsSome (names (seen atoms.old.seat) a)) (visit_names names_of key_atoms (Abolish procedure)) }
        ensures { IsVisit K.history K.goals engine (seen atoms.old.seat) (seen atoms.new.seat) (Abolish procedure) result front.old front.new self.old self.new }
    {
        self.abolish_procedure_by::<Brand>(alloc, history, atoms, front, engine, procedure)
    }

    // The same, with the update picked.
    fn abolish_procedure_by<N: Updates>(
        &mut self,
        alloc: Global,
        history: &History,
        atoms: &mut TableAtoms<K>,
        front: &mut Front,
        engine: u64,
        procedure: Procedure,
    ) -> Answer<Stored>
        requires kind { N.kind ≡ entries.abolish (proc_named (text_of (names (seen atoms.old.seat))) procedure) }
        requires history { history.now ≡ K.history }
        requires front { IsOwn K.history engine front.old }
        requires held { All (λ a. IsSome (names (seen atoms.old.seat) a)) (visit_names names_of key_atoms (Abolish procedure)) }
        ensures { IsVisit K.history K.goals engine (seen atoms.old.seat) (seen atoms.new.seat) (Abolish procedure) result front.old front.new self.old self.new }
    {
        self.queues.is_sound();
        let generation = self.front.generation();
        let row = hub_database::abolish_procedure(
            alloc,
            &mut self.db,
            atoms,
            &mut self.keeper,
            &procedure,
            generation,
        );
        settle::<N>(history, &mut self.front, front, engine, row)
    }

    /// A clause is added: by a text that is consulted (ISO 7.4.2), asserta/1 or assertz/1 (ISO 8.9.1, 8.9.2).
    pub fn add_clause(
        &mut self,
        alloc: Global,
        history: &History,
        atoms: &mut TableAtoms<K>,
        front: &mut Front,
        engine: u64,
        clause: CountedTerm,
        by: Adding,
    ) -> Answer<Stored>
        requires history { history.now ≡ K.history }
        requires front { IsOwn K.history engine front.old }
        requires held { All (λ a. IsSome (names (seen atoms.old.seat) a)) (visit_names names_of key_atoms (adding_visit by clause)) }
        ensures { IsVisit K.history K.goals engine (seen atoms.old.seat) (seen atoms.new.seat) (adding_visit by clause) result front.old front.new self.old self.new }
    {
        self.add_clause_by::<Brand>(alloc, history, atoms, front, engine, clause, by)
    }

    // The same, with the update picked.
    fn add_clause_by<N: Updates>(
        &mut self,
        alloc: Global,
        history: &History,
        atoms: &mut TableAtoms<K>,
        front: &mut Front,
        engine: u64,
        clause: CountedTerm,
        by: Adding,
    ) -> Answer<Stored>
        requires kind { N.kind ≡ adding_kind by (proc_of (clause_in (said (names (seen atoms.old.seat)) clause)).head) (clause_in (said (names (seen atoms.old.seat)) clause)) }
        requires history { history.now ≡ K.history }
        requires front { IsOwn K.history engine front.old }
        requires held { All (λ a. IsSome (names (seen atoms.old.seat) a)) (visit_names names_of key_atoms (adding_visit by clause)) }
        ensures { IsVisit K.history K.goals engine (seen atoms.old.seat) (seen atoms.new.seat) (adding_visit by clause) result front.old front.new self.old self.new }
    {
        self.queues.is_sound();
        let generation = self.front.generation();
        let row = hub_database::add_clause(
            alloc,
            &mut self.db,
            atoms,
            &mut self.keeper,
            clause,
            by,
            generation,
        );
        settle::<N>(history, &mut self.front, front, engine, row)
    }

    /// dynamic/1 (ISO 7.4.2.1).
    pub fn make_dynamic(
        &mut self,
        alloc: Global,
        history: &History,
        atoms: &mut TableAtoms<K>,
        front: &mut Front,
        engine: u64,
        procedures: Vec<Procedure>,
    ) -> Answer<Stored>
        requires history { history.now ≡ K.history }
        requires front { IsOwn K.history engine front.old }
        requires held { All (λ a. IsSome (names (seen atoms.old.seat) a)) (visit_names names_of key_atoms (MakeDynamic procedures)) }
        ensures { IsVisit K.history K.goals engine (seen atoms.old.seat) (seen atoms.new.seat) (MakeDynamic procedures) result front.old front.new self.old self.new }
    {
        self.make_dynamic_by::<Brand>(alloc, history, atoms, front, engine, procedures)
    }

    // The same, with the update picked.
    fn make_dynamic_by<N: Updates>(
        &mut self,
        alloc: Global,
        history: &History,
        atoms: &mut TableAtoms<K>,
        front: &mut Front,
        engine: u64,
        procedures: Vec<Procedure>,
    ) -> Answer<Stored>
        requires kind { N.kind ≡ entries.set_dynamic (map (proc_named (text_of (names (seen atoms.old.seat)))) procedures.items) }
        requires history { history.now ≡ K.history }
        requires front { IsOwn K.history engine front.old }
        requires held { All (λ a. IsSome (names (seen atoms.old.seat) a)) (visit_names names_of key_atoms (MakeDynamic procedures)) }
        ensures { IsVisit K.history K.goals engine (seen atoms.old.seat) (seen atoms.new.seat) (MakeDynamic procedures) result front.old front.new self.old self.new }
    {
        self.queues.is_sound();
        let generation = self.front.generation();
        let row = hub_database::make_dynamic(
            alloc,
            &mut self.db,
            atoms,
            procedures.as_slice(),
            generation,
        );
        settle::<N>(history, &mut self.front, front, engine, row)
    }

    /// set_prolog_flag/2 (ISO 8.17.1).
    pub fn put_flag(
        &mut self,
        alloc: Global,
        history: &History,
        atoms: &TableAtoms<K>,
        front: &mut Front,
        engine: u64,
        flag: Atom,
        value: Atom,
    ) -> Answer<Stored>
        requires history { history.now ≡ K.history }
        requires front { IsOwn K.history engine front.old }
        requires held { All (λ a. IsSome (names (seen atoms.now.seat) a)) (visit_names names_of key_atoms (PutFlag flag value)) }
        ensures { IsVisit K.history K.goals engine (seen atoms.now.seat) (seen atoms.now.seat) (PutFlag flag value) result front.old front.new self.old self.new }
    {
        self.put_flag_by::<Brand>(alloc, history, atoms, front, engine, flag, value)
    }

    // The same, with the update picked.
    fn put_flag_by<N: Updates>(
        &mut self,
        alloc: Global,
        history: &History,
        atoms: &TableAtoms<K>,
        front: &mut Front,
        engine: u64,
        flag: Atom,
        value: Atom,
    ) -> Answer<Stored>
        requires kind { N.kind ≡ entries.set_flag (text_of (names (seen atoms.now.seat)) flag) (text_of (names (seen atoms.now.seat)) value) }
        requires history { history.now ≡ K.history }
        requires front { IsOwn K.history engine front.old }
        requires held { All (λ a. IsSome (names (seen atoms.now.seat) a)) (visit_names names_of key_atoms (PutFlag flag value)) }
        ensures { IsVisit K.history K.goals engine (seen atoms.now.seat) (seen atoms.now.seat) (PutFlag flag value) result front.old front.new self.old self.new }
    {
        self.queues.is_sound();
        let generation = self.front.generation();
        let row = hub_database::put_flag(alloc, &mut self.db, atoms, flag, value, generation);
        settle::<N>(history, &mut self.front, front, engine, row)
    }

    /// current_prolog_flag/2 (ISO 8.17.2).
    pub fn all_flags(
        &mut self,
        alloc: Global,
        history: &History,
        atoms: &TableAtoms<K>,
        front: &mut Front,
        engine: u64,
    ) -> Answer<Stored>
        requires history { history.now ≡ K.history }
        requires front { IsOwn K.history engine front.old }
        ensures { IsVisit K.history K.goals engine (seen atoms.now.seat) (seen atoms.now.seat) AllFlags result front.old front.new self.old self.new }
    {
        let row = hub_database::all_flags(alloc, &self.db, atoms);
        settle::<Brand>(history, &mut self.front, front, engine, row)
    }

    /// op/3 (ISO 8.14.3).
    pub fn put_operators(
        &mut self,
        alloc: Global,
        history: &History,
        atoms: &mut TableAtoms<K>,
        front: &mut Front,
        engine: u64,
        priority: u16,
        kind: Kind,
        operators: Vec<Atom>,
    ) -> Answer<Stored>
        requires history { history.now ≡ K.history }
        requires front { IsOwn K.history engine front.old }
        requires held { All (λ a. IsSome (names (seen atoms.old.seat) a)) (visit_names names_of key_atoms (PutOperators priority kind operators)) }
        ensures { IsVisit K.history K.goals engine (seen atoms.old.seat) (seen atoms.new.seat) (PutOperators priority kind operators) result front.old front.new self.old self.new }
    {
        self.put_operators_by::<Brand>(
            alloc, history, atoms, front, engine, priority, kind, operators,
        )
    }

    // The same, with the update picked.
    fn put_operators_by<N: Updates>(
        &mut self,
        alloc: Global,
        history: &History,
        atoms: &mut TableAtoms<K>,
        front: &mut Front,
        engine: u64,
        priority: u16,
        kind: Kind,
        operators: Vec<Atom>,
    ) -> Answer<Stored>
        requires kind { N.kind ≡ operators_put priority kind (map (text_of (names (seen atoms.old.seat))) operators.items) }
        requires history { history.now ≡ K.history }
        requires front { IsOwn K.history engine front.old }
        requires held { All (λ a. IsSome (names (seen atoms.old.seat) a)) (visit_names names_of key_atoms (PutOperators priority kind operators)) }
        ensures { IsVisit K.history K.goals engine (seen atoms.old.seat) (seen atoms.new.seat) (PutOperators priority kind operators) result front.old front.new self.old self.new }
    {
        self.queues.is_sound();
        let generation = self.front.generation();
        let row = hub_database::put_operators(
            alloc,
            &mut self.db,
            atoms,
            priority,
            kind,
            operators.as_slice(),
            generation,
        );
        settle::<N>(history, &mut self.front, front, engine, row)
    }

    /// current_predicate/1: the procedures with clauses (ISO 8.8.2).
    pub fn all_procedures(
        &mut self,
        alloc: Global,
        history: &History,
        atoms: &mut TableAtoms<K>,
        front: &mut Front,
        engine: u64,
    ) -> Answer<Stored>
        requires history { history.now ≡ K.history }
        requires front { IsOwn K.history engine front.old }
        ensures { IsVisit K.history K.goals engine (seen atoms.old.seat) (seen atoms.new.seat) AllProcedures result front.old front.new self.old self.new }
    {
        let generation = history.tell(&mut self.front, front);
        let row = hub_database::all_procedures(alloc, &self.db, atoms, generation);
        settle::<Brand>(history, &mut self.front, front, engine, row)
    }

    /// current_op/3: the operators (ISO 8.14.4). Their names become atoms of the engine.
    pub fn all_operators(
        &mut self,
        alloc: Global,
        history: &History,
        atoms: &mut TableAtoms<K>,
        front: &mut Front,
        engine: u64,
    ) -> Answer<Stored>
        requires history { history.now ≡ K.history }
        requires front { IsOwn K.history engine front.old }
        ensures { IsVisit K.history K.goals engine (seen atoms.old.seat) (seen atoms.new.seat) AllOperators result front.old front.new self.old self.new }
    {
        history.tell(&mut self.front, front);
        let row = hub_database::all_operators(alloc, &self.db, atoms);
        settle::<Brand>(history, &mut self.front, front, engine, row)
    }
}
