//! Engines that have ended, and all engines at the end.
ghost use Rattle.std.specs.Prelude.{◌≡◌, IfOk, OnOk};
ghost use Rattle.std.specs.List.{All};
ghost use Rattle.pl_model.specs.History.{History as Entries};
ghost use Rattle.pl_history.specs.Fronts.{own_engine};
ghost use Rattle.pl_sched.specs.Homes.{IsFinal, IsGone};
ghost use Rattle.pl_sched.specs.Written.{WritesSo};

use crate::home::{Home, Parts};
use crate::mark::{End, Mark};
use crate::naming::Command;
use crate::texts::text_on;
use crate::writing::Writes;
use named_terms::NamedTerm;
use op_table::OpTable;
use pl_history::{Front, History};
use pl_hub::Shared;
use pl_model::ends::How;
use pl_model::grammar::Quotes;
use pl_model::threads::On;
use pl_term::{Memory, Text};
use std::alloc::Global;
use std::marker::{Model, PhantomData};
use std::sync::Arc;

/// An engine that has ended, with its front. Contracts see it as what its front knows.
#[derive(Drop)]
pub struct Over<E: Writes + Drop, K: Command> {
    engine: E,
    front: Front,
    number: u64,
    end: End,
    of: PhantomData<K>,
}

impl<E: Writes + Drop, K: Command> Model for Over<E, K> {
    ghost use Rattle.pl_history.specs.Fronts.{FrontState};
    ghost use Rattle.pl_history.specs.Codes.{coded_front};
    ghost use Rattle.pl_sched.specs.Homes.{IsGone};
    ghost use Rattle.pl_sched.specs.Written.{WritesSo};

    ghost Value = { FrontState };

    ghost coded = { coded_front };

    ghost view = { λ o. o.front };

    ghost invariant = { λ o. IsGone E.stands E.ready E.moves K.program K.history K.goals o.number o.end o.front o.engine
        × WritesSo K.program K.file K.board o.number (E.writing o.engine) };
}

/// An engine that is done, with its front, which has seen the whole history. Contracts see it as what its front knows.
#[derive(Drop)]
pub struct Done<E: Writes + Drop, K: Command> {
    engine: E,
    front: Front,
    number: u64,
    end: Option<How<NamedTerm>>,
    awaits: Option<On>,
    operators: Arc<OpTable>,
    quotes: Quotes,
    of: PhantomData<K>,
}

impl<E: Writes + Drop, K: Command> Model for Done<E, K> {
    ghost use Rattle.pl_history.specs.Fronts.{FrontState};
    ghost use Rattle.pl_history.specs.Codes.{coded_front};
    ghost use Rattle.pl_sched.specs.Homes.{IsFinal};
    ghost use Rattle.pl_sched.specs.Written.{WritesSo};

    ghost Value = { FrontState };

    ghost coded = { coded_front };

    ghost view = { λ d. d.front };

    ghost invariant = { λ d. IsFinal E.stands E.ready E.moves K.program K.history K.goals d.number d.end d.awaits d.operators d.quotes d.front d.engine
        × WritesSo K.program K.file K.board d.number (E.writing d.engine) };
}

/// Why not all engines are done.
#[derive(Drop)]
pub enum Unfinished {
    /// The engine with the number can go on.
    Runs(u64),
    /// An engine has begun, and no atoms are free for it.
    Begins,
    /// Out of memory.
    Memory,
}

impl From<Memory> for Unfinished {
    ghost use Rattle.std.specs.Prelude.{◌≡◌};
    ghost use Rattle.pl_sched.specs.declared.over.Unfinished.TheVariants.{Memory as OutOfMemory};

    ghost from_gives = { λ _ u. u ≡ OutOfMemory };

    fn from(_e: Memory) -> Unfinished {
        Unfinished::Memory
    }
}

/// All engines at the end of a run, and the number and the alias of each that the history begins, in its order.
#[derive(Drop)]
pub struct Ran<E: Writes + Drop, K: Command> {
    pub dones: Vec<Done<E, K>>,
    pub begun: Vec<(u64, Option<Text>)>,
}

/// What an engine that is done is made of.
#[derive(Drop)]
pub struct DoneParts<E: Writes + Drop> {
    pub engine: E,
    pub front: Front,
    pub number: u64,
    /// How it has ended, if it has.
    pub end: Option<How<NamedTerm>>,
    /// What it waits on, where it has not ended.
    pub awaits: Option<On>,
    /// The operators of the state in which it ended, or waits.
    pub operators: Arc<OpTable>,
    /// The flag `double_quotes` of that state.
    pub quotes: Quotes,
}

impl<E: Writes + Drop, K: Command> Done<E, K> {
    /// The engine's number.
    pub fn number(&self) -> u64
        ensures { result ≡ own_engine self.now.lives }
    {
        self.number
    }

    /// The engine, with what is known of it.
    pub fn into_parts(self) -> DoneParts<E>
        ensures front { result.front ≡ self }
        ensures done { IsFinal E.stands E.ready E.moves K.program K.history K.goals result.number result.end result.awaits result.operators result.quotes result.front result.engine }
        ensures writes { WritesSo K.program K.file K.board result.number (E.writing result.engine) }
    {
        let Done {
            engine,
            front,
            number,
            end,
            awaits,
            operators,
            quotes,
            of: _,
        } = self;
        DoneParts {
            engine,
            front,
            number,
            end,
            awaits,
            operators,
            quotes,
        }
    }
}

impl<E: Writes + Drop, K: Command> Over<E, K> {
    /// The engine with this number has ended so.
    pub fn new(engine: E, front: Front, number: u64, end: End) -> Over<E, K>
        requires gone { IsGone E.stands E.ready E.moves K.program K.history K.goals number end front engine }
        requires writes { WritesSo K.program K.file K.board number (E.writing engine) }
        ensures { result ≡ front }
    {
        Over {
            engine,
            front,
            number,
            end,
            of: PhantomData,
        }
    }

    // It is done, as the history stands.
    fn settle(self, shared: &mut Shared<K>, history: &History) -> Done<E, K>
        requires history { history.now ≡ K.history }
        ensures same { shared.new ≡ shared.old }
        ensures seen { result.seen ≡ shared.old.seen }
    {
        let Over {
            engine,
            front,
            number,
            end,
            of: _,
        } = self;
        let End {
            how,
            operators,
            quotes,
        } = end;
        let mut front = front;
        shared.show(history, &mut front);
        Done {
            engine,
            front,
            number,
            end: Some(how),
            awaits: None,
            operators,
            quotes,
            of: PhantomData,
        }
    }
}

// The engine is done where it waits in the state as the history stands.
fn finish<'a, E: Writes + Drop, K: Command>(
    alloc: Global,
    shared: &mut Shared<K>,
    history: &History,
    home: Home<'a, E, K>,
) -> Result<Done<E, K>, Unfinished>
    requires history { history.now ≡ K.history }
    ensures same { shared.new ≡ shared.old }
    ensures seen { IfOk result (λ d. d.seen ≡ shared.old.seen) }
{
    let Parts {
        engine,
        atoms,
        front,
        number,
        mark,
    } = home.into_parts();
    let Mark::Waits(on, at) = mark else {
        return Err(Unfinished::Runs(number));
    };
    if at < shared.generation() {
        return Err(Unfinished::Runs(number));
    }
    let mut atoms = atoms;
    let awaits = text_on(alloc, on, &mut atoms)?;
    let standing = shared.standing()?;
    let (operators, quotes) = standing;
    let mut front = front;
    shared.show(history, &mut front);
    Ok(Done {
        engine,
        front,
        number,
        end: None,
        awaits: Some(awaits),
        operators,
        quotes,
        of: PhantomData,
    })
}

// One more is done.
fn put<E: Writes + Drop, K: Command>(
    done: &mut Vec<Done<E, K>>,
    next: Done<E, K>,
) -> Result<(), Unfinished>
    ensures { OnOk result ((h : Entries) → All (λ f. f.seen ≡ h) done.old.items → next.seen ≡ h → All (λ f. f.seen ≡ h) done.new.items) }
{
    if done.reserve(1).is_err() {
        return Err(Unfinished::Memory);
    }
    done.push_reserved(next);
    Ok(())
}

/// All of these are done where each waits in the state as the history stands.
pub(crate) fn finish_all<'a, E: Writes + Drop, K: Command>(
    alloc: Global,
    shared: &mut Shared<K>,
    history: &History,
    homes: Vec<Home<'a, E, K>>,
    done: &mut Vec<Done<E, K>>,
) -> Result<(), Unfinished>
    requires history { history.now ≡ K.history }
    requires before { All (λ f. f.seen ≡ shared.old.seen) done.old.items }
    ensures same { shared.new ≡ shared.old }
    ensures after { OnOk result (All (λ f. f.seen ≡ shared.old.seen) done.new.items) }
{
    for home in homes {
        let next = finish(alloc, shared, history, home)?;
        put(done, next)?;
    }
    Ok(())
}

/// All of these are done, as the history stands.
pub(crate) fn settle_all<E: Writes + Drop, K: Command>(
    shared: &mut Shared<K>,
    history: &History,
    over: Vec<Over<E, K>>,
    done: &mut Vec<Done<E, K>>,
) -> Result<(), Unfinished>
    requires history { history.now ≡ K.history }
    requires before { All (λ f. f.seen ≡ shared.old.seen) done.old.items }
    ensures same { shared.new ≡ shared.old }
    ensures after { OnOk result (All (λ f. f.seen ≡ shared.old.seen) done.new.items) }
{
    for ended in over {
        let next = ended.settle(shared, history);
        put(done, next)?;
    }
    Ok(())
}
