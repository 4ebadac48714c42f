//! Values that stand for an entry of the history, so that none has to be built: one for each kind of update.
ghost use Rattle.std.specs.Prelude.{◌≡◌};
ghost use Rattle.pl_model.specs.History.{is_end};

use crate::ends::How;
use pl_term::{Flat, Text};

/// A value that stands for an entry of the history.
pub trait Shows {
    ghost use Rattle.std.specs.Prelude.{◌≡◌};
    ghost use Rattle.pl_model.specs.History.{Entry, is_end};

    ghost entry: { Self → Entry };

    /// Whether the entry is its engine's end.
    fn is_end(&self) -> bool
        ensures { result ≡ is_end (entry self.now).kind };
}

/// A value that stands for a term.
pub trait ShowsTree {
    ghost use Rattle.pl_term.specs.Tree.{Tree};

    ghost tree: { Self → Tree };
}

impl ShowsTree for Flat {
    ghost tree = { λ t. t };
}

/// A value that stands for a clause.
pub trait ShowsClause {
    ghost use Rattle.pl_model.specs.History.{Clause};

    ghost clause: { Self → Clause };
}

/// A value that stands for the end of an engine.
pub trait ShowsHow {
    ghost use Rattle.pl_model.specs.declared.ends.How.{How};
    ghost use Rattle.pl_term.specs.Tree.{Tree};

    ghost how: { Self → How Tree };
}

impl ShowsHow for How<Flat> {
    ghost how = { λ h. h };
}

/// A value that knows how many steps an engine made. No bound is put on them, and nothing need be stored.
pub trait ShowsSteps {
    ghost use Rattle.std.specs.Prelude.{ℕ};

    ghost steps: { Self → ℕ };
}

/// A value that stands for a flag and the value that it gets.
pub trait ShowsFlag {
    ghost use Rattle.pl_term.specs.Tree.{Chars};

    ghost flag: { Self → Chars };

    ghost value: { Self → Chars };
}

/// A value that stands for operators to be put into the table, one after the other.
pub trait ShowsOperators {
    ghost use Rattle.std.specs.Prelude.{List};
    ghost use Rattle.pl_model.specs.Operators.{Operator};

    ghost operators: { Self → List Operator };
}

/// A predicate by its name and arity (ISO 7.1.6.6).
#[derive(Debug, Drop)]
pub struct Proc {
    pub name: Text,
    pub arity: u64,
}

/// What added a clause: the consulting of a file, or a goal.
#[derive(Debug, Clone, Copy, PartialEq, Eq, Drop)]
pub enum Origin {
    Consult,
    Assert,
}

/// A clause is added as the first of its procedure (ISO 8.9.1).
#[derive(Drop)]
pub struct AddsFirst<'a, C> {
    pub engine: u64,
    pub to: &'a Proc,
    pub clause: &'a C,
    pub origin: Origin,
}

impl<C: ShowsClause> Shows for AddsFirst<'_, C> {
    ghost use Rattle.pl_model.specs.History.{add_first};
    ghost use Rattle.pl_model.specs.laws.Shown.{proc_of, origin_of};

    ghost entry = { λ x. record {
      engine = x.engine;
      kind = add_first (proc_of x.to.now) (C.clause x.clause.now) (origin_of x.origin);
    } };

    fn is_end(&self) -> bool {
        false
    }
}

/// A clause is added as the last of its procedure (ISO 8.9.2).
#[derive(Drop)]
pub struct AddsLast<'a, C> {
    pub engine: u64,
    pub to: &'a Proc,
    pub clause: &'a C,
    pub origin: Origin,
}

impl<C: ShowsClause> Shows for AddsLast<'_, C> {
    ghost use Rattle.pl_model.specs.History.{add_last};
    ghost use Rattle.pl_model.specs.laws.Shown.{proc_of, origin_of};

    ghost entry = { λ x. record {
      engine = x.engine;
      kind = add_last (proc_of x.to.now) (C.clause x.clause.now) (origin_of x.origin);
    } };

    fn is_end(&self) -> bool {
        false
    }
}

/// The clause that was added at a place is erased (ISO 8.9.3).
#[derive(Drop)]
pub struct Erases {
    pub engine: u64,
    pub place: u64,
}

impl Shows for Erases {
    ghost use Rattle.pl_model.specs.History.{erase};

    ghost entry = { λ x. record { engine = x.engine; kind = erase x.place } };

    fn is_end(&self) -> bool {
        false
    }
}

/// All clauses of a procedure are erased (ISO 8.9.4).
#[derive(Drop)]
pub struct Abolishes<'a> {
    pub engine: u64,
    pub of: &'a Proc,
}

impl Shows for Abolishes<'_> {
    ghost use Rattle.pl_model.specs.History.{abolish};
    ghost use Rattle.pl_model.specs.laws.Shown.{proc_of};

    ghost entry = { λ x. record { engine = x.engine; kind = abolish (proc_of x.of.now) } };

    fn is_end(&self) -> bool {
        false
    }
}

/// Procedures are made dynamic (ISO 7.4.2.1).
#[derive(Drop)]
pub struct SetsDynamic<'a> {
    pub engine: u64,
    pub all: &'a [Proc],
}

impl Shows for SetsDynamic<'_> {
    ghost use Rattle.pl_model.specs.History.{set_dynamic};
    ghost use Rattle.pl_model.specs.laws.Shown.{procs_of};

    ghost entry = { λ x. record { engine = x.engine; kind = set_dynamic (procs_of x.all.now) } };

    fn is_end(&self) -> bool {
        false
    }
}

/// A flag gets a value (ISO 8.17.1).
#[derive(Drop)]
pub struct SetsFlag<'a, F> {
    pub engine: u64,
    pub flag: &'a F,
}

impl<F: ShowsFlag> Shows for SetsFlag<'_, F> {
    ghost use Rattle.pl_model.specs.History.{set_flag};

    ghost entry = { λ x. record {
      engine = x.engine;
      kind = set_flag (F.flag x.flag.now) (F.value x.flag.now);
    } };

    fn is_end(&self) -> bool {
        false
    }
}

/// Operators are put into the table (ISO 8.14.3).
#[derive(Drop)]
pub struct SetsOperators<'a, O> {
    pub engine: u64,
    pub operators: &'a O,
}

impl<O: ShowsOperators> Shows for SetsOperators<'_, O> {
    ghost use Rattle.pl_model.specs.History.{set_op};

    ghost entry = { λ x. record { engine = x.engine; kind = set_op (O.operators x.operators.now) } };

    fn is_end(&self) -> bool {
        false
    }
}

/// A message queue is made, with its number and its alias.
#[derive(Drop)]
pub struct MakesQueue<'a> {
    pub engine: u64,
    pub number: u64,
    pub alias: Option<&'a Text>,
}

impl Shows for MakesQueue<'_> {
    ghost use Rattle.pl_model.specs.History.{make_queue};
    ghost use Rattle.pl_model.specs.laws.Shown.{alias_of};

    ghost entry = { λ x. record { engine = x.engine; kind = make_queue x.number (alias_of x.alias) } };

    fn is_end(&self) -> bool {
        false
    }
}

/// A message queue is destroyed.
#[derive(Drop)]
pub struct DropsQueue {
    pub engine: u64,
    pub number: u64,
}

impl Shows for DropsQueue {
    ghost use Rattle.pl_model.specs.History.{drop_queue};

    ghost entry = { λ x. record { engine = x.engine; kind = drop_queue x.number } };

    fn is_end(&self) -> bool {
        false
    }
}

/// A message is sent to the queue with a number.
#[derive(Drop)]
pub struct Sends<'a, T> {
    pub engine: u64,
    pub number: u64,
    pub message: &'a T,
}

impl<T: ShowsTree> Shows for Sends<'_, T> {
    ghost use Rattle.pl_model.specs.History.{send};

    ghost entry = { λ x. record { engine = x.engine; kind = send x.number (T.tree x.message.now) } };

    fn is_end(&self) -> bool {
        false
    }
}

/// The message that was sent at a place is taken.
#[derive(Drop)]
pub struct Takes {
    pub engine: u64,
    pub place: u64,
}

impl Shows for Takes {
    ghost use Rattle.pl_model.specs.History.{take};

    ghost entry = { λ x. record { engine = x.engine; kind = take x.place } };

    fn is_end(&self) -> bool {
        false
    }
}

/// A thread is begun: an engine with a number, a goal and an alias.
#[derive(Drop)]
pub struct Starts<'a, T> {
    pub engine: u64,
    pub number: u64,
    pub goal: &'a T,
    pub alias: Option<&'a Text>,
}

impl<T: ShowsTree> Shows for Starts<'_, T> {
    ghost use Rattle.pl_model.specs.History.{start};
    ghost use Rattle.pl_model.specs.laws.Shown.{alias_of};

    ghost entry = { λ x. record {
      engine = x.engine;
      kind = start x.number (T.tree x.goal.now) (alias_of x.alias);
    } };

    fn is_end(&self) -> bool {
        false
    }
}

/// The engine ends.
#[derive(Drop)]
pub struct Ends<'a, W, S> {
    pub engine: u64,
    pub how: &'a W,
    pub run: &'a S,
}

impl<W: ShowsHow, S: ShowsSteps> Shows for Ends<'_, W, S> {
    ghost use Rattle.pl_model.specs.History.{finish};

    ghost entry = { λ x. record {
      engine = x.engine;
      kind = finish (W.how x.how.now) (S.steps x.run.now);
    } };

    fn is_end(&self) -> bool {
        true
    }
}

/// A thread that has ended is joined.
#[derive(Drop)]
pub struct Joins {
    pub engine: u64,
    pub number: u64,
}

impl Shows for Joins {
    ghost use Rattle.pl_model.specs.History.{join};

    ghost entry = { λ x. record { engine = x.engine; kind = join x.number } };

    fn is_end(&self) -> bool {
        false
    }
}
