//! The shared state with the engines at home.
ghost use Rattle.std.specs.Prelude.{◌≡◌, ◌<◌, [], IfOk, IsSome, OnErr, OnOk, length};
ghost use Rattle.std.specs.Arc.{arc_value};
ghost use Rattle.std.specs.List.{All};
ghost use Rattle.pl_model.specs.History.{finish};
ghost use Rattle.pl_model.specs.SharedState.{state_at, status_of};
ghost use Rattle.atom_words.specs.Seats.{seen};
ghost use Rattle.atom_table.specs.Naming.{names, requests as asked};
ghost use Rattle.term_store.specs.ArgumentKeys.{clause_key, key_atoms};
ghost use Rattle.term_store.specs.NumberedNames.{names_of, term_by};
ghost use Rattle.world_api.specs.Answers.{CanVisit};
ghost use Rattle.world_api.specs.Texts.{text_of};
ghost use Rattle.world_api.specs.Visits.{visit_for, visit_names};
ghost use Rattle.counted_terms.specs.CountedTerms.{said};
ghost use Rattle.hub_threads.specs.Rows.{status_names};
ghost use Rattle.hub_threads.specs.Serving.{status_as};
ghost use Rattle.pl_hub.specs.Ending.{IsEnded};
ghost use Rattle.pl_hub.specs.Fronts.{IsOwn, told_of};
ghost use Rattle.pl_hub.specs.Order.{IsInOrder};
ghost use Rattle.pl_hub.specs.Visits.{IsVisit};
ghost use Rattle.pl_sched.specs.Ledger.{AreBegun, AreOnly, AreWhole, IsBegun, named_in};
ghost use Rattle.pl_sched.specs.Newcomers.{IsNew};

use crate::home::{Home, Retired};
use crate::ledger::are_done;
use crate::naming::Command;
use crate::newcomers::NewEngine;
use crate::over::{Over, Ran, Unfinished, finish_all, settle_all};
use crate::writing::Writes;
use atom_collector::{Piece, TableCollector};
use atom_table::{TableAtoms, Turn};
use counted_terms::CountedTerm;
use hub_threads::Status;
use op_table::OpTable;
use pl_history::{Front, History};
use pl_hub::{Begun, Shared};
use pl_model::grammar::Quotes;
use pl_model::shows::{ShowsHow, ShowsSteps};
use pl_term::Memory;
use std::alloc::Global;
use std::marker::Model;
use std::sync::Arc;
use term_store::{ArgumentKey, Stored};
use world_api::{Answer, Asked, Visit};

/// How many slots are swept when an engine is to be lent.
const SLOTS: u32 = 1024;

/// The shared state, with the engines that no worker carries: those that can go on or wait, those that have ended, the
/// atoms that no engine has, and the collector of the table. Contracts see it as the shared state: the whole history.
#[derive(Drop)]
pub struct Hub<'a, E: Writes + Drop, K: Command> {
    pub(crate) shared: Shared<K>,
    pub(crate) homes: Vec<Home<'a, E, K>>,
    pub(crate) over: Vec<Over<E, K>>,
    pub(crate) spare: Vec<TableAtoms<'a, K>>,
    /// The engines that were lent as they began, in their order.
    pub(crate) started: Vec<u64>,
    /// How many engines are with workers.
    pub(crate) away: u64,
    /// Memory ran out while a worker had an engine: none is lent then.
    pub(crate) lost: bool,
    /// The collector of the table of atoms.
    pub(crate) collector: TableCollector<'a, K>,
    /// A cycle of collection is to begin.
    pub(crate) due: bool,
    pub(crate) alloc: Global,
}

impl<'a, E: Writes + Drop, K: Command> Model for Hub<'a, E, K> {
    ghost use Rattle.pl_history.specs.Fronts.{FrontState};
    ghost use Rattle.pl_history.specs.Codes.{coded_front};
    ghost use Rattle.pl_sched.specs.Ledger.{AreBegun, AreOnly};

    ghost Value = { FrontState };

    ghost coded = { coded_front };

    ghost view = { λ h. h.shared };

    ghost invariant = { λ h. AreBegun h.started.items h.shared × AreOnly h.shared.seen };
}

/// What a worker is given.
#[derive(Drop)]
pub enum Lend<'a, E: Writes + Drop, K: Command> {
    /// An engine that can go on.
    Out(Home<'a, E, K>),
    /// An engine that begins.
    Begin(NewEngine<'a, K>),
    /// No engine at home can go on, but one waits for a cycle of collection, which goes on when somebody is to be lent.
    Collects,
    /// No engine at home can go on before another comes home.
    Nobody,
    /// And none is with a worker.
    Over,
    /// The goal of an engine that begins is not kept.
    Memory,
}

// The first engine that can go on, where the history has this length.
fn take_ready<'a, E: Writes + Drop, K: Command>(
    homes: &mut Vec<Home<'a, E, K>>,
    generation: u64,
    word: u64,
) -> Option<Home<'a, E, K>> {
    for i in 0..homes.len() {
        if homes[i].is_ready(generation, word) {
            return Some(homes.remove(i));
        }
    }
    None
}

// The first engine that waited for cycles of collection and can go on.
fn take_returning<'a, E: Writes + Drop, K: Command>(
    homes: &mut Vec<Home<'a, E, K>>,
    generation: u64,
    word: u64,
) -> Option<Home<'a, E, K>> {
    for i in 0..homes.len() {
        if homes[i].waits_for_cycles() && homes[i].is_ready(generation, word) {
            return Some(homes.remove(i));
        }
    }
    None
}

// The engine begins: its number is above that of engine 1.
fn first_turn<'a, E: Writes + Drop, K: Command>(
    begun: Begun,
    atoms: TableAtoms<'a, K>,
    front: Front,
) -> Lend<'a, E, K>
    requires new { 1 < begun.number → IsNew K.history begun.number begun.goal (names (seen atoms.seat)) front }
{
    let Begun { number, goal } = begun;
    if number <= 1 {
        return Lend::Memory;
    }
    Lend::Begin(NewEngine::new(number, goal, atoms, front))
}

// An engine that has begun, in a new front. It is listed.
fn begin<'a, E: Writes + Drop, K: Command>(
    shared: &mut Shared<K>,
    started: &mut Vec<u64>,
    history: &History,
    atoms: TableAtoms<'a, K>,
) -> Lend<'a, E, K>
    requires history { history.now ≡ K.history }
    requires begun { AreBegun started.old.items shared.old }
    requires only { AreOnly shared.old.seen }
    ensures same { shared.new.seen ≡ shared.old.seen }
    ensures begun { AreBegun started.new.items shared.new }
    ensures only { AreOnly shared.new.seen }
{
    if started.reserve(1).is_err() {
        return Lend::Memory;
    }
    let mut atoms = atoms;
    let mut front = history.front();
    match shared.begin(history, &mut atoms, &mut front) {
        None => Lend::Memory,
        Some(begun) => {
            started.push_reserved(begun.number);
            first_turn(begun, atoms, front)
        }
    }
}

impl<'a, E: Writes + Drop, K: Command> Hub<'a, E, K> {
    /// The state at the start, with the atoms that engines may have, and the collector of their table. Each engine that has
    /// begun is still to be given a front.
    pub fn new(
        alloc: Global,
        shared: Shared<K>,
        spare: Vec<TableAtoms<'a, K>>,
        collector: TableCollector<'a, K>,
    ) -> Hub<'a, E, K>
        requires begun { AreBegun [] shared }
        requires only { AreOnly shared.seen }
        ensures { result ≡ shared }
    {
        Hub {
            shared,
            homes: Vec::new(alloc),
            over: Vec::new(alloc),
            spare,
            started: Vec::new(alloc),
            away: 0,
            lost: false,
            collector,
            due: false,
            alloc,
        }
    }

    /// A visit of the front's own engine, which has this number and runs.
    pub fn session(
        &mut self,
        alloc: Global,
        history: &History,
        atoms: &mut TableAtoms<'a, K>,
        front: &mut Front,
        engine: u64,
        visit: Visit<CountedTerm, ArgumentKey>,
    ) -> Answer<Stored>
        requires history { history.now ≡ K.history }
        requires front { IsOwn K.history engine front.old }
        requires held { All (λ a. IsSome (names (seen atoms.old.seat) a)) (visit_names names_of key_atoms visit) }
        requires begun { IsBegun front.old.seen engine }
        requires next { CanVisit term_by clause_key (text_of (names (seen atoms.old.seat))) visit (told_of K.goals front.old) }
        ensures { IsVisit K.history K.goals engine (seen atoms.old.seat) (seen atoms.new.seat) visit result front.old front.new self.old self.new }
    {
        self.due = due_after(self.due, &visit);
        self.shared
            .session(alloc, history, atoms, front, engine, visit)
    }

    /// The same for a visit that asks for the clauses of a call.
    pub fn listed(
        &mut self,
        alloc: Global,
        history: &History,
        atoms: &mut TableAtoms<'a, K>,
        front: &mut Front,
        engine: u64,
        asked: &Asked<ArgumentKey>,
    ) -> Answer<Stored>
        requires history { history.now ≡ K.history }
        requires front { IsOwn K.history engine front.old }
        requires held { All (λ a. IsSome (names (seen atoms.old.seat) a)) (visit_names names_of key_atoms (visit_for asked.now)) }
        requires begun { IsBegun front.old.seen engine }
        requires next { CanVisit term_by clause_key (text_of (names (seen atoms.old.seat))) (visit_for asked.now) (told_of K.goals front.old) }
        ensures { IsVisit K.history K.goals engine (seen atoms.old.seat) (seen atoms.new.seat) (visit_for asked.now) result front.old front.new self.old self.new }
    {
        match &asked.after {
            None => self.shared.call_clauses(
                alloc,
                history,
                atoms,
                front,
                engine,
                asked.procedure,
                asked.first,
            ),
            Some(after) => self.shared.next_clause(
                history,
                atoms,
                front,
                engine,
                asked.procedure,
                asked.first,
                after.generation,
                after.place,
            ),
        }
    }

    /// The front's own engine ends.
    pub fn end<W: ShowsHow, S: ShowsSteps>(
        &mut self,
        history: &History,
        atoms: &mut TableAtoms<'a, K>,
        front: &mut Front,
        engine: u64,
        how: &W,
        run: &S,
        status: Status<CountedTerm>,
    ) -> Result<(), Memory>
        requires history { history.now ≡ K.history }
        requires front { IsOwn K.history engine front.old }
        requires begun { IsBegun front.old.seen engine }
        requires held { All (λ a. IsSome (names (seen atoms.old.seat) a)) (status_names status) }
        requires status { status_of (W.how how.now) ≡ status_as (said (names (seen atoms.old.seat))) status }
        ensures ended { OnOk result (IsEnded K.goals engine (finish (W.how how.now) (S.steps run.now)) front.old front.new self.old self.new) }
        ensures refused { OnErr result ((front.new ≡ front.old) × (self.new ≡ self.old)) }
        ensures held { names (seen atoms.new.seat) ≡ names (seen atoms.old.seat) }
        ensures refusals { (seen atoms.new.seat).refusals ≡ (seen atoms.old.seat).refusals }
        ensures asked { asked (seen atoms.new.seat) ≡ asked (seen atoms.old.seat) }
    {
        self.shared
            .end(history, atoms, front, engine, how, run, status)
    }

    /// The operators and the flag `double_quotes` of the state. The only error is out of memory.
    pub fn standing(&self) -> Result<(Arc<OpTable>, Quotes), Memory>
        ensures operators { IfOk result (λ s. arc_value s.0 ≡ (state_at K.goals self.now.seen (length self.now.seen)).operators) }
        ensures quotes { IfOk result (λ s. s.1 ≡ (state_at K.goals self.now.seen (length self.now.seen)).flags.double_quotes) }
    {
        self.shared.standing()
    }

    /// An engine for one worker alone: the first that has begun, where there are atoms for it, or else one that can go on.
    pub fn lend(&mut self, history: &History) -> Lend<'a, E, K>
        requires history { history.now ≡ K.history }
        ensures same { self.new.seen ≡ self.old.seen }
    {
        if self.lost {
            return Lend::Over;
        }
        if self.collect().is_err() {
            return Lend::Memory;
        }
        let lent = self.choose(history);
        self.away = counted_out(self.away, &lent);
        lent
    }

    // The first that has begun, or else one that can go on.
    fn choose(&mut self, history: &History) -> Lend<'a, E, K>
        requires history { history.now ≡ K.history }
        ensures same { self.new.seen ≡ self.old.seen }
    {
        if some_wait(self.homes.as_slice()) {
            return self.one_at_home();
        }
        match self.newcomer(history) {
            Lend::Nobody => self.one_at_home(),
            lent => lent,
        }
    }

    // The first engine that has begun, where there are atoms for it.
    fn newcomer(&mut self, history: &History) -> Lend<'a, E, K>
        requires history { history.now ≡ K.history }
        ensures same { self.new.seen ≡ self.old.seen }
    {
        if !self.shared.has_begun() {
            return Lend::Nobody;
        }
        match self.spare.pop() {
            None => Lend::Nobody,
            Some(atoms) => begin(&mut self.shared, &mut self.started, history, atoms),
        }
    }

    // One at home that can go on: those that waited for cycles of collection come first.
    fn one_at_home(&mut self) -> Lend<'a, E, K>
        ensures same { self.new ≡ self.old }
    {
        let generation = self.shared.generation();
        let word = self.collector.collector.word;
        if let Some(home) = take_returning(&mut self.homes, generation, word) {
            return Lend::Out(home);
        }
        if some_wait(self.homes.as_slice()) {
            return nobody(self.away, true);
        }
        match take_ready(&mut self.homes, generation, word) {
            Some(home) => Lend::Out(home),
            None => nobody(self.away, false),
        }
    }

    /// An engine that a worker had does not come home, since memory ran out: no engine is lent from now on.
    pub fn lose(&mut self)
        ensures same { self.new ≡ self.old }
    {
        self.lost = true;
    }

    // What is next of a cycle of collection: one begins where it is due, or the next piece of its work is done. The only
    // error is out of memory.
    fn collect(&mut self) -> Result<(), Memory>
        ensures same { self.new ≡ self.old }
    {
        match self.collector.go_on(SLOTS) {
            Piece::Rests => self.turn(),
            Piece::SweptAll => {
                self.due = self.due || some_wait(self.homes.as_slice());
                Ok(())
            }
            _ => Ok(()),
        }
    }

    // A cycle begins where one is due, and all that are at home take part in it. The only error is out of memory.
    fn turn(&mut self) -> Result<(), Memory>
        ensures same { self.new ≡ self.old }
    {
        if !self.due || !self.collector.is_still() {
            return Ok(());
        }
        let turn = self.collector.begin();
        if matches!(turn, Turn::Began(_)) {
            self.acknowledge_home()?;
            self.acknowledge_spare();
        }
        self.due = false;
        Ok(())
    }

    // Each engine at home takes part in the cycle. The only error is out of memory.
    fn acknowledge_home(&mut self) -> Result<(), Memory>
        ensures same { self.new ≡ self.old }
    {
        let alloc = self.alloc;
        for home in self.homes.iter_mut() {
            home.acknowledge(alloc)?;
        }
        Ok(())
    }

    // So does each seat without an engine, which holds nothing.
    fn acknowledge_spare(&mut self)
        ensures same { self.new ≡ self.old }
    {
        for atoms in self.spare.iter_mut() {
            atoms.acknowledge(&[]);
        }
    }

    // Whether a cycle marks.
    fn marks(&self) -> bool {
        self.collector.collector.word % 4 == 1
    }

    /// An engine comes home. The only error is out of memory.
    pub fn bring(&mut self, home: Home<'a, E, K>) -> Result<(), Memory>
        ensures same { self.new ≡ self.old }
    {
        self.away = self.away.saturating_sub(1);
        self.due = due_by(self.due, &home);
        let mut home = home;
        if self.marks() {
            home.acknowledge(self.alloc)?;
        }
        match home.retire() {
            Retired::Stays(home) => kept(self.homes.push(home).is_ok()),
            Retired::Over(over, atoms) => {
                let spared = self.spare.push(atoms).is_ok();
                let over = self.over.push(over).is_ok();
                kept(spared && over)
            }
        }
    }

    /// All engines, each of which is done as the history stands: it has ended, or waits and nothing wakes it. Engine 1 and
    /// each that an update has begun is among them. The error says that one can still go on, or has not begun, or that memory
    /// ran out.
    pub fn fronts(self, alloc: Global, history: &History) -> Result<Ran<E, K>, Unfinished>
        requires history { history.now ≡ K.history }
        ensures seen { IfOk result (λ v. All (λ f. f.seen ≡ self.entry.seen) v.dones.items) }
        ensures whole { IfOk result (λ v. AreWhole self.entry.seen v.dones.items) }
        ensures begun { IfOk result (λ v. v.begun.items ≡ named_in self.entry.seen) }
        ensures only { OnOk result (AreOnly self.entry.seen) }
        ensures order { OnOk result (IsInOrder K.goals self.entry.seen) }
    {
        let Hub {
            shared,
            homes,
            over,
            spare: _,
            started,
            away: _,
            lost,
            collector: _,
            due: _,
            alloc: _,
        } = self;
        if lost {
            return Err(Unfinished::Memory);
        }
        let mut shared = shared;
        if shared.has_begun() {
            return Err(Unfinished::Begins);
        }
        shared.in_order();
        let mut done = Vec::new(alloc);
        finish_all(alloc, &mut shared, history, homes, &mut done)?;
        settle_all(&mut shared, history, over, &mut done)?;
        if !are_done(alloc, started.as_slice(), done.as_slice())? {
            return Err(Unfinished::Memory);
        }
        Ok(Ran {
            dones: done,
            begun: shared.into_begun(),
        })
    }
}

// Whether one of these waits for cycles of collection.
fn some_wait<'a, E: Writes + Drop, K: Command>(homes: &[Home<'a, E, K>]) -> bool {
    for home in homes {
        if home.waits_for_cycles() {
            return true;
        }
    }
    false
}

// Nobody is lent. Nobody can be where none is with a worker, and none waits for cycles of collection.
fn nobody<'a, E: Writes + Drop, K: Command>(away: u64, waits: bool) -> Lend<'a, E, K> {
    if away != 0 {
        return Lend::Nobody;
    }
    if waits { Lend::Collects } else { Lend::Over }
}

// Whether a cycle of collection is to begin, where one was or this engine waits for one.
fn due_by<'a, E: Writes + Drop, K: Command>(due: bool, home: &Home<'a, E, K>) -> bool {
    due || home.waits_for_cycles()
}

// Whether a cycle of collection is to begin, where one was or this visit asks for one.
fn due_after(due: bool, visit: &Visit<CountedTerm, ArgumentKey>) -> bool {
    due || matches!(visit, Visit::CollectAtoms | Visit::CollectClauses)
}

// One more is with a worker, where one was lent.
fn counted_out<'a, E: Writes + Drop, K: Command>(away: u64, lent: &Lend<'a, E, K>) -> u64 {
    match lent {
        Lend::Out(_) => away.saturating_add(1),
        Lend::Begin(_) => away.saturating_add(1),
        _ => away,
    }
}

fn kept(is: bool) -> Result<(), Memory> {
    if is { Ok(()) } else { Err(Memory) }
}
