//! Engines of a run, each with its seat and its front, that make visits through the shared state.
ghost use Rattle.std.specs.Prelude.{◌≡◌, ℕ, IfOk, IsSome, IfSome, Some};
ghost use Rattle.std.specs.List.{All};
ghost use Rattle.atom_words.specs.Seats.{seen};
ghost use Rattle.atom_table.specs.Naming.{names};
ghost use Rattle.atom_table.specs.Opening.{FreshFrom};
ghost use Rattle.counted_terms.specs.Keeping.{KeepsAt, tally};
ghost use Rattle.pl_history.specs.Fronts.{new_front, new_hub};
ghost use Rattle.pl_term.specs.Tree.{Tree};
ghost use Rattle.world_api.specs.declared.answer.Answer.TheVariants.{Served};
ghost use Rattle.world_api.specs.declared.reply.Found.{Found};
ghost use Rattle.world_api.specs.declared.reply.Reply.TheVariants.{Clauses};

use crate::asked::{Ask, Word, fact, key, visit_of};
use crate::take_last;
use crate::told::told;
use atom_api::{Atom, Atoms, Interned, fixed};
use atom_table::{AtomSeat, AtomTable, Keeper, TableAtoms};
use counted_terms::CountedTerm;
use hub_threads::Status;
use pl_history::{Front, History, HubFront};
use pl_hub::{Naming, Shared, counted};
use pl_model::ends::How;
use pl_model::shows::ShowsSteps;
use pl_term::{Flat, Memory, Text};
use std::alloc::Global;
use std::marker::Model;
use term_store::{AtomNode, Stored};
use world_api::{Answer, Procedure, Reply, with_texts};

/// A clause that was found: its number, its place, and whether others follow it in the list.
#[derive(Debug, Clone, Copy, PartialEq, Eq)]
pub struct Clause {
    pub number: i64,
    pub place: u64,
    pub more: bool,
}

/// An engine that runs.
#[derive(Drop)]
pub struct Player<'a, K: Naming> {
    history: &'a History,
    atoms: TableAtoms<'a, K>,
    front: Front,
    engine: u64,
    /// The atom `zz`.
    own: Atom,
    /// Whether it goes through a list of clauses: that for the goal with this key, at this generation, after the clause with
    /// this place.
    is_open: bool,
    key: Option<i64>,
    generation: u64,
    place: u64,
}

impl<'a, K: Naming> Model for Player<'a, K> {
    ghost use Rattle.pl_history.specs.Fronts.{FrontState};
    ghost use Rattle.pl_history.specs.Codes.{coded_front};
    ghost use Rattle.atom_words.specs.Seats.{seen};
    ghost use Rattle.atom_table.specs.Naming.{names};
    ghost use Rattle.hub_tests.specs.Players.{IsPlayer};

    ghost Value = { FrontState };

    ghost coded = { coded_front };

    ghost view = { λ p. p.front };

    ghost invariant = { λ p. IsPlayer p.history.now K.history K.goals p.engine p.own (names (seen p.atoms.seat)) p.front p.is_open p.key p.generation p.place };
}

/// Twelve steps.
struct Steps;

impl ShowsSteps for Steps {
    ghost steps = { λ _. 12 };
}

/// The atom of the text `zz`, or `fail` where that finds no place.
pub fn own_atom<A: Atoms>(alloc: Global, atoms: &mut A) -> Result<Atom, Memory>
    ensures { IfOk result (λ a. IsSome (A.held atoms.new a)) }
{
    let text = Text::from_str(alloc, "zz")?;
    match atoms.intern(&text) {
        Interned::Is(a) => Ok(a),
        _ => Ok(fixed::FAIL),
    }
}

/// The number in the fact.
pub fn number(clause: &Stored) -> i64 {
    match clause.nodes() {
        [_, AtomNode::Int(i)] => *i,
        _ => -1,
    }
}

/// The clause that the answer has, with the generation of its list.
fn clause_in(answer: Answer<Stored>) -> Option<(Clause, u64)>
    ensures { IfSome result (λ r. (f : Found Tree) × (answer ≡ Served (Clauses (Some f)) r.1) × (f.place ≡ r.0.place)) }
{
    match answer {
        Answer::Served { reply, generation } => match reply {
            Reply::Clauses(Some(found)) => Some((
                Clause {
                    number: number(&found.clause),
                    place: found.place,
                    more: found.more,
                },
                generation,
            )),
            _ => None,
        },
        _ => None,
    }
}

/// A new front.
pub fn take_front(history: &History, fronts: &mut Vec<Front>) -> Option<Front>
    requires { All (λ f. f ≡ new_front history.now) fronts.old.items }
    ensures rest { All (λ f. f ≡ new_front history.now) fronts.new.items }
    ensures front { IfSome result (λ f. f ≡ new_front history.now) }
{
    let _ = history;
    fronts.pop()
}

/// The state at the start, for a command with so many goals, and engine 1, which has the last seat and the last front.
pub fn first_player<'a, K: Naming>(
    alloc: Global,
    table: &'a AtomTable,
    seats: &mut Vec<AtomSeat>,
    keeper: Keeper,
    history: &'a History,
    hub: HubFront,
    fronts: &mut Vec<Front>,
    goals: u32,
) -> Result<(Shared<K>, Player<'a, K>), Memory>
    requires named { (table.now.words.table.shared.table_id ≡ K.atoms) × (table.now.words.size ≡ K.size) }
    requires history { history.now ≡ K.history }
    requires seats { FreshFrom table.now.words 1 seats.old.items }
    requires fronts { All (λ f. f ≡ new_front history.now) fronts.old.items }
    requires hub { hub ≡ new_hub K.history }
    requires keeper { KeepsAt K.atoms K.size keeper.seat }
    requires none { (k : ℕ) → tally (seen keeper.seat) k ≡ 0 }
    requires goals { K.goals ≡ goals }
    ensures seats { FreshFrom table.now.words 1 seats.new.items }
    ensures fronts { All (λ f. f ≡ new_front history.now) fronts.new.items }
{
    let Some(seat) = take_last(table, seats) else {
        return Err(Memory);
    };
    let Some(front) = take_front(history, fronts) else {
        return Err(Memory);
    };
    let atoms = TableAtoms::<K>::new(table, seat);
    Player::first(alloc, atoms, keeper, history, hub, front, goals)
}

/// The next engine that begins, with the last seat and the last front that are there, and the number in its goal.
pub fn next_player<'a, K: Naming>(
    alloc: Global,
    table: &'a AtomTable,
    seats: &mut Vec<AtomSeat>,
    history: &'a History,
    fronts: &mut Vec<Front>,
    shared: &mut Shared<K>,
) -> Result<(Player<'a, K>, i64), Memory>
    requires named { (table.now.words.table.shared.table_id ≡ K.atoms) × (table.now.words.size ≡ K.size) }
    requires history { history.now ≡ K.history }
    requires seats { FreshFrom table.now.words 1 seats.old.items }
    requires fronts { All (λ f. f ≡ new_front history.now) fronts.old.items }
    ensures seats { FreshFrom table.now.words 1 seats.new.items }
    ensures fronts { All (λ f. f ≡ new_front history.now) fronts.new.items }
{
    let Some(seat) = take_last(table, seats) else {
        return Err(Memory);
    };
    let Some(front) = take_front(history, fronts) else {
        return Err(Memory);
    };
    let atoms = TableAtoms::<K>::new(table, seat);
    match Player::begun(alloc, atoms, history, shared, front)? {
        Some(begun) => Ok(begun),
        None => Err(Memory),
    }
}

impl<'a, K: Naming> Player<'a, K> {
    /// The state at the start, for a command with so many goals, and engine 1.
    pub fn first(
        alloc: Global,
        mut atoms: TableAtoms<'a, K>,
        keeper: Keeper,
        history: &'a History,
        hub: HubFront,
        mut front: Front,
        goals: u32,
    ) -> Result<(Shared<K>, Player<'a, K>), Memory>
        requires history { history.now ≡ K.history }
        requires hub { hub ≡ new_hub K.history }
        requires front { front ≡ new_front K.history }
        requires keeper { KeepsAt K.atoms K.size keeper.seat }
        requires none { (k : ℕ) → tally (seen keeper.seat) k ≡ 0 }
        requires goals { K.goals ≡ goals }
    {
        let own = own_atom(alloc, &mut atoms)?;
        let shared = Shared::<K>::new(alloc, history, hub, keeper, &mut front, goals)?;
        let player = Player {
            history,
            atoms,
            front,
            engine: 1,
            own,
            is_open: false,
            key: None,
            generation: 0,
            place: 0,
        };
        Ok((shared, player))
    }

    /// The next engine that begins, with the number in its goal.
    pub fn begun(
        alloc: Global,
        mut atoms: TableAtoms<'a, K>,
        history: &'a History,
        shared: &mut Shared<K>,
        mut front: Front,
    ) -> Result<Option<(Player<'a, K>, i64)>, Memory>
        requires history { history.now ≡ K.history }
        requires front { front ≡ new_front K.history }
    {
        let own = own_atom(alloc, &mut atoms)?;
        let Some(begun) = shared.begin(history, &mut atoms, &mut front) else {
            return Ok(None);
        };
        let goal = number(&begun.goal);
        let player = Player {
            history,
            atoms,
            front,
            engine: begun.number,
            own,
            is_open: false,
            key: None,
            generation: 0,
            place: 0,
        };
        Ok(Some((player, goal)))
    }

    /// The engine's number.
    pub fn engine(&self) -> u64 {
        self.engine
    }

    /// The generation of the list of clauses that it goes through.
    pub fn generation(&self) -> u64 {
        self.generation
    }

    /// The answer to the visit as a text.
    pub fn say(
        &mut self,
        alloc: Global,
        shared: &mut Shared<K>,
        visit: Ask,
    ) -> Result<String, Memory> {
        let visit = counted(alloc, visit_of(alloc, self.own, visit)?)?;
        let answer = shared.session(
            alloc,
            self.history,
            &mut self.atoms,
            &mut self.front,
            self.engine,
            visit,
        );
        told(alloc, &mut self.atoms, &answer)
    }

    /// The first clause for the goal zz(i), or zz(X).
    pub fn call(
        &mut self,
        alloc: Global,
        shared: &mut Shared<K>,
        i: Option<i64>,
    ) -> Option<Clause> {
        let procedure = Procedure {
            name: self.own,
            arity: 1,
        };
        let answer = shared.call_clauses(
            alloc,
            self.history,
            &mut self.atoms,
            &mut self.front,
            self.engine,
            procedure,
            key(i),
        );
        match clause_in(answer) {
            None => {
                self.is_open = false;
                None
            }
            Some((clause, generation)) => {
                self.is_open = true;
                self.key = i;
                self.generation = generation;
                self.place = clause.place;
                Some(clause)
            }
        }
    }

    /// The next clause of the list.
    pub fn retry(&mut self, shared: &mut Shared<K>) -> Option<Clause> {
        if !self.is_open {
            return None;
        }
        let procedure = Procedure {
            name: self.own,
            arity: 1,
        };
        let answer = shared.next_clause(
            self.history,
            &mut self.atoms,
            &mut self.front,
            self.engine,
            procedure,
            key(self.key),
            self.generation,
            self.place,
        );
        match clause_in(answer) {
            None => {
                self.is_open = false;
                None
            }
            Some((clause, generation)) => {
                self.generation = generation;
                self.place = clause.place;
                Some(clause)
            }
        }
    }

    /// The engine ends by thread_exit/1 with the term zz(i).
    pub fn exit(self, alloc: Global, shared: &mut Shared<K>, i: u64) -> Result<(), Memory> {
        let Player {
            history,
            mut atoms,
            mut front,
            engine,
            own,
            ..
        } = self;
        let term = fact(alloc, Word::Own, own, i)?;
        let _numbered = term.nodes();
        let how = How::Exited(with_texts(alloc, &term, &mut atoms)?);
        let status = Status::Exited(CountedTerm::new(alloc, term)?);
        shared.end(
            history, &mut atoms, &mut front, engine, &how, &Steps, status,
        )
    }

    /// The engine ends with its solution.
    pub fn succeed(self, shared: &mut Shared<K>) -> Result<(), Memory> {
        let Player {
            history,
            mut atoms,
            mut front,
            engine,
            ..
        } = self;
        let how = How::<Flat>::Solved;
        shared.end(
            history,
            &mut atoms,
            &mut front,
            engine,
            &how,
            &Steps,
            Status::Succeeded,
        )
    }
}
