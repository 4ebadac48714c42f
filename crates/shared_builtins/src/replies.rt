//! What follows the replies of the shared state.
ghost use Rattle.std.specs.Prelude.{◌≡◌, ℕ, zero, [], IfOk};
ghost use Rattle.std.specs.List.{All};
ghost use Rattle.pl_term.specs.Tree.{Tree};
ghost use Rattle.pl_model.specs.BuiltinRows.{Row as DefinedRow};
ghost use Rattle.pl_model.specs.Requests.{Reply as Asked, Request};
ghost use Rattle.pl_model.specs.SharedBuiltins.{flags_row, message_row, named_row, operators_row, procedures_row, status_row, succeeds_with};
ghost use Rattle.pl_model.specs.Terms.{arguments};
ghost use Rattle.atom_api.specs.Names.{Names};
ghost use Rattle.term_store.specs.Contents.{IsAbove};
ghost use Rattle.world_builtins.specs.Spelling.{reads};
ghost use Rattle.shared_builtins.specs.Following.{IsPlain, following_of, row_by, with_answer};
ghost use Rattle.shared_builtins.specs.Goals.{IsStateGoal};
ghost use Rattle.shared_builtins.specs.Replies.{IsReplied, IsReplyFor, IsReplyTo};

use crate::faults::Fault;
use crate::following::{Following, following_of};
use crate::goal::StateGoal;
use crate::refusals::{refused, refused_by};
use crate::rows::{copied, named, succeeded};
use crate::tables::{flag_lines, indicator_lines, operator_lines};
use builtin_rows::Row;
use iso_search::told::{Constant, Line};
use pl_term::Memory;
use std::alloc::Global;
use term_store::{Store, Stored};
use world_api::Reply;

/// What follows a reply.
#[derive(Drop)]
pub enum Replied {
    /// The row of the predicate.
    Row(Row),
    /// A table, of which the lines that unify with the arguments are the answers.
    Table(Vec<Line>),
    /// The shared state refuses the request with this error term, which has no variables.
    Error(Stored),
    /// It refuses it with this error.
    Refused(Fault),
}

/// What follows the reply to what a goal asked, where `next` is the next number of a variable. The only error is out of memory.
pub fn follow_reply(
    alloc: Global,
    store: &mut Store,
    goal: &StateGoal,
    reply: Reply<Stored>,
    next: u64,
) -> Result<Replied, Memory>
    requires goal { IsStateGoal store.old goal.now }
    requires above { IsAbove next store.old }
    ensures { IfOk result (λ t. (m : Names) (q : Request) (next_row : Asked → ℕ → DefinedRow) (r : Asked) → IsReplyTo m store.old goal.now reply q next_row r
        → IsReplied m store.old next goal.now (next_row r next) store.new t) }
{
    let following = following_of(goal.pred);
    let replied = follow_as(alloc, store, goal, following, reply, next)?;
    Ok(replied)
}

/// What follows the reply where the row follows so. The only error is out of memory. So below.
fn follow_as(
    alloc: Global,
    store: &mut Store,
    goal: &StateGoal,
    following: Following,
    reply: Reply<Stored>,
    next: u64,
) -> Result<Replied, Memory>
    requires goal { IsStateGoal store.old goal.now }
    requires above { IsAbove next store.old }
    requires follows { following ≡ following_of goal.now.pred }
    ensures { IfOk result (λ t. (m : Names) (r : Asked) → IsReplyFor m store.old goal.now reply r
        → IsReplied m store.old next goal.now (row_by following (arguments (reads m store.old goal.now.place)) (with_answer goal.now.pred (arguments (reads m store.old goal.now.place))) r next) store.new t) }
{
    match following {
        Following::Succeeds => succeeds(store, goal, reply, next),
        Following::Names => gives_name(alloc, store, goal, reply, next),
        Following::Messages => gives_message(store, goal, reply, next),
        Following::Statuses => gives_status(store, goal, reply, next),
        Following::Procedures => gives_procedures(alloc, store, goal, reply, next),
        Following::Flags => gives_flags(alloc, store, goal, reply, next),
        Following::Operators => gives_operators(alloc, store, goal, reply, next),
    }
}

/// It succeeds when the request is done.
fn succeeds(
    store: &mut Store,
    goal: &StateGoal,
    reply: Reply<Stored>,
    next: u64,
) -> Result<Replied, Memory>
    requires goal { IsStateGoal store.old goal.now }
    requires plain { IsPlain goal.now.pred }
    requires above { IsAbove next store.old }
    ensures { IfOk result (λ t. (m : Names) (r : Asked) → IsReplyFor m store.old goal.now reply r
        → IsReplied m store.old next goal.now (succeeds_with (arguments (reads m store.old goal.now.place)) r next) store.new t) }
{
    match reply {
        Reply::Done => {
            let row = succeeded(store, goal, next)?;
            Ok(Replied::Row(row))
        }
        Reply::Refused(error) => Ok(refused_by(store, goal, error)),
        _ => Ok(Replied::Row(Row::Fails)),
    }
}

/// It gives the name of a thread or a queue.
fn gives_name(
    alloc: Global,
    store: &mut Store,
    goal: &StateGoal,
    reply: Reply<Stored>,
    next: u64,
) -> Result<Replied, Memory>
    requires goal { IsStateGoal store.old goal.now }
    requires above { IsAbove next store.old }
    ensures { IfOk result (λ t. (m : Names) (r : Asked) → IsReplyFor m store.old goal.now reply r
        → IsReplied m store.old next goal.now (named_row (with_answer goal.now.pred (arguments (reads m store.old goal.now.place))) r next) store.new t) }
{
    match reply {
        Reply::Named(name) => {
            let row = named(store, goal, name, next)?;
            Ok(Replied::Row(row))
        }
        Reply::Refused(error) => {
            let refusal = refused(alloc, store, goal, error)?;
            Ok(refusal)
        }
        _ => Ok(Replied::Row(Row::Fails)),
    }
}

/// It gives a message.
fn gives_message(
    store: &mut Store,
    goal: &StateGoal,
    reply: Reply<Stored>,
    next: u64,
) -> Result<Replied, Memory>
    requires goal { IsStateGoal store.old goal.now }
    requires plain { IsPlain goal.now.pred }
    requires above { IsAbove next store.old }
    ensures { IfOk result (λ t. (m : Names) (r : Asked) → IsReplyFor m store.old goal.now reply r
        → IsReplied m store.old next goal.now (message_row (with_answer goal.now.pred (arguments (reads m store.old goal.now.place))) r next) store.new t) }
{
    match reply {
        Reply::Message(term) => {
            let row = copied(store, goal, &term, next)?;
            Ok(Replied::Row(row))
        }
        Reply::Refused(error) => Ok(refused_by(store, goal, error)),
        _ => Ok(Replied::Row(Row::Fails)),
    }
}

/// It gives how a thread ended.
fn gives_status(
    store: &mut Store,
    goal: &StateGoal,
    reply: Reply<Stored>,
    next: u64,
) -> Result<Replied, Memory>
    requires goal { IsStateGoal store.old goal.now }
    requires plain { IsPlain goal.now.pred }
    requires above { IsAbove next store.old }
    ensures { IfOk result (λ t. (m : Names) (r : Asked) → IsReplyFor m store.old goal.now reply r
        → IsReplied m store.old next goal.now (status_row (with_answer goal.now.pred (arguments (reads m store.old goal.now.place))) r next) store.new t) }
{
    match reply {
        Reply::Status(term) => {
            let row = copied(store, goal, &term, next)?;
            Ok(Replied::Row(row))
        }
        Reply::Refused(error) => Ok(refused_by(store, goal, error)),
        _ => Ok(Replied::Row(Row::Fails)),
    }
}

/// It gives the procedures, one after the other.
fn gives_procedures(
    alloc: Global,
    store: &mut Store,
    goal: &StateGoal,
    reply: Reply<Stored>,
    next: u64,
) -> Result<Replied, Memory>
    requires goal { IsStateGoal store.old goal.now }
    requires above { IsAbove next store.old }
    ensures { IfOk result (λ t. (m : Names) (r : Asked) → IsReplyFor m store.old goal.now reply r
        → IsReplied m store.old next goal.now (procedures_row r next) store.new t) }
{
    match reply {
        Reply::Procedures(all) => {
            let lines = indicator_lines(alloc, all.as_slice())?;
            Ok(Replied::Table(lines))
        }
        _ => Ok(Replied::Row(Row::Fails)),
    }
}

/// It gives the flags, one after the other.
fn gives_flags(
    alloc: Global,
    store: &mut Store,
    goal: &StateGoal,
    reply: Reply<Stored>,
    next: u64,
) -> Result<Replied, Memory>
    requires goal { IsStateGoal store.old goal.now }
    requires follows { following_of goal.now.pred ≡ Following.Flags }
    requires above { IsAbove next store.old }
    ensures { IfOk result (λ t. (m : Names) (r : Asked) → IsReplyFor m store.old goal.now reply r
        → IsReplied m store.old next goal.now (flags_row r next) store.new t) }
{
    match reply {
        Reply::Flags(all) => {
            let lines = flag_lines(alloc, all.as_slice())?;
            Ok(Replied::Table(lines))
        }
        _ => Ok(Replied::Row(Row::Fails)),
    }
}

/// It gives the operators, one after the other.
fn gives_operators(
    alloc: Global,
    store: &mut Store,
    goal: &StateGoal,
    reply: Reply<Stored>,
    next: u64,
) -> Result<Replied, Memory>
    requires goal { IsStateGoal store.old goal.now }
    requires follows { following_of goal.now.pred ≡ Following.Operators }
    requires above { IsAbove next store.old }
    ensures { IfOk result (λ t. (m : Names) (r : Asked) → IsReplyFor m store.old goal.now reply r
        → IsReplied m store.old next goal.now (operators_row r next) store.new t) }
{
    match reply {
        Reply::Operators(all) => {
            let lines = operator_lines(alloc, all.as_slice())?;
            Ok(Replied::Table(lines))
        }
        _ => Ok(Replied::Row(Row::Fails)),
    }
}
